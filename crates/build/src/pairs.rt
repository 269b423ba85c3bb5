// The reachable pairs of a product: one state row for each, with the pair in its two numbers.
ghost use Rattle.std.specs.Prelude.{◌≡◌, ◌<◌, true, [], length, is_some, MatchOption, slice_index_or};
ghost use Rattle.std.specs.List.{ContainsAt as Has};
ghost use Rattle.automaton.specs.Automaton.{initial};
ghost use Rattle.build.specs.Emitted.{Paired};
ghost use Rattle.build.specs.Pairs.{pairs, products, row_of, Sofar, Extended, BegunAt, Begun, ClosedAlong, ClosedAt, Closed};
ghost use Rattle.build.specs.Tails.{written, SameRows};

use crate::input::Inputs;
use crate::tail::{Full, Tail};
use alphabet::Alphabet;
use automaton::{Arc, Marks, State};

// The place of a pair among built rows.
pub fn find(rows: &[State], p: usize, q: usize) -> Option<usize>
    ensures finds { MatchOption result (Has (pairs rows.now) (p, q) → ⊥)
        (λ i. (i < length rows.now) × (slice_index_or (pairs rows.now) i (0, 0) ≡ (p, q))) }
{
    rows.iter().position(|row| row.left == p && row.right == q)
}

// Whether the labels of two arcs meet.
pub fn meets<A: Alphabet>(left: &Arc<A::Label>, right: &Arc<A::Label>) -> bool
    ensures decides { result ≡ is_some (A.labels.first (A.labels.meet left.now.label right.now.label)) }
{
    let met = A::meet(&left.label, &right.label);
    A::first(&met).is_some()
}

impl<A: Alphabet> Inputs<'_, A> {
    fn row(&self, p: usize, q: usize) -> State
        ensures marked { result ≡ row_of self.now.left self.now.right p q }
    {
        let s = self.left.marks(p);
        let t = self.right.marks(q);
        State {
            marks: Marks {
                initial: s.initial & t.initial,
                accepting: s.accepting & t.accepting,
            },
            left: p,
            right: q,
        }
    }

    // Adds the row of a pair, unless it is there.
    // `Sofar` and `reachable` are no ghost fields: such a field has one proof at most, and these have many.
    fn add(&self, pairs: &mut Tail<'_, State>, p: usize, q: usize) -> Result<(), Full>
        requires sofar { Sofar A.labels self.now.left self.now.right (written pairs.old) }
        requires reachable { (products A.labels self.now.left self.now.right).State (p, q) }
        ensures adds { Extended A.labels self.now.left self.now.right pairs.old pairs.new (λ ps. Has ps (p, q)) result }
        ensures same_rows { SameRows pairs.old pairs.new }
    {
        if find(pairs.written(), p, q).is_some() {
            return Ok(());
        }
        pairs.push(self.row(p, q))
    }

    // Adds the pairs of p with the initial states of the right automaton.
    fn begin_at(&self, pairs: &mut Tail<'_, State>, p: usize) -> Result<(), Full>
        requires sofar { Sofar A.labels self.now.left self.now.right (written pairs.old) }
        requires is_state { p < length self.now.left.states }
        requires is_initial { initial self.now.left p ≡ true }
        ensures begins { Extended A.labels self.now.left self.now.right pairs.old pairs.new (BegunAt self.now.right p) result }
        ensures same_rows { SameRows pairs.old pairs.new }
    {
        for (q, right) in self.right.states().iter().enumerate() {
            if right.marks.initial {
                self.add(pairs, p, q)?;
            }
        }
        Ok(())
    }

    // Adds the pairs of initial states.
    fn begin(&self, pairs: &mut Tail<'_, State>) -> Result<(), Full>
        requires sofar { Sofar A.labels self.now.left self.now.right (written pairs.old) }
        ensures begins { Extended A.labels self.now.left self.now.right pairs.old pairs.new (Begun self.now.left self.now.right) result }
        ensures same_rows { SameRows pairs.old pairs.new }
    {
        for (p, left) in self.left.states().iter().enumerate() {
            if left.marks.initial {
                self.begin_at(pairs, p)?;
            }
        }
        Ok(())
    }

    // Adds the pairs that an arc of the left automaton reaches together with arcs from q.
    fn close_by(
        &self,
        pairs: &mut Tail<'_, State>,
        left: &Arc<A::Label>,
        q: usize,
    ) -> Result<(), Full>
        requires sofar { Sofar A.labels self.now.left self.now.right (written pairs.old) }
        requires is_arc { Has self.now.left.arcs left.now }
        requires reachable { (products A.labels self.now.left self.now.right).State (left.now.from, q) }
        ensures closes { Extended A.labels self.now.left self.now.right pairs.old pairs.new (ClosedAlong A.labels self.now.right left.now q) result }
        ensures same_rows { SameRows pairs.old pairs.new }
    {
        for right in self.right.arcs() {
            if right.from == q && meets::<A>(left, right) {
                self.add(pairs, left.to, right.to)?;
            }
        }
        Ok(())
    }

    // Adds the pairs that pairs of arcs reach from (p, q).
    fn close_at(&self, pairs: &mut Tail<'_, State>, p: usize, q: usize) -> Result<(), Full>
        requires sofar { Sofar A.labels self.now.left self.now.right (written pairs.old) }
        requires reachable { (products A.labels self.now.left self.now.right).State (p, q) }
        ensures closes { Extended A.labels self.now.left self.now.right pairs.old pairs.new (ClosedAt A.labels self.now.left self.now.right (p, q)) result }
        ensures same_rows { SameRows pairs.old pairs.new }
    {
        for left in self.left.arcs() {
            if left.from == p {
                self.close_by(pairs, left, q)?;
            }
        }
        Ok(())
    }

    // Adds the pairs that pairs of arcs reach from the pairs that are there, until there are no more.
    fn close(&self, pairs: &mut Tail<'_, State>) -> Result<(), Full>
        requires sofar { Sofar A.labels self.now.left self.now.right (written pairs.old) }
        ensures closes { Extended A.labels self.now.left self.now.right pairs.old pairs.new (Closed A.labels self.now.left self.now.right) result }
        ensures same_rows { SameRows pairs.old pairs.new }
    {
        let mut i = 0;
        // by index, since rows are added while they are walked
        while let Some(&pair) = pairs.written().get(i) {
            self.close_at(pairs, pair.left, pair.right)?;
            i += 1;
        }
        Ok(())
    }

    // Builds a row for each reachable pair.
    pub fn explore(&self, pairs: &mut Tail<'_, State>) -> Result<(), Full>
        requires empty { written pairs.old ≡ [] }
        ensures explores { Extended A.labels self.now.left self.now.right pairs.old pairs.new
            (λ ps. Paired A.labels self.now.left self.now.right (written pairs.new)) result }
        ensures same_rows { SameRows pairs.old pairs.new }
    {
        self.begin(pairs)?;
        self.close(pairs)
    }
}
