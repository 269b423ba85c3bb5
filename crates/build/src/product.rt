// The product of two automata: reachable pairs of states, and the pairs of arcs that leave them and whose labels meet.
ghost use Rattle.std.specs.Prelude.{◌≡◌, ℕ, ◌+◌, ◌<◌, ◌≤◌, ◌↔◌, [], length, take};
ghost use Rattle.std.specs.List.{ContainsAt as Has};
ghost use Rattle.automaton.specs.Automaton.{Accepts, Word, arc_at};
ghost use Rattle.build.specs.Emitted.{Paired, PairsWritten, PairsWrote, Fits};
ghost use Rattle.build.specs.Outcome.{Answer, Meant, Sizes};
ghost use Rattle.build.specs.Pairs.{Pair, Ready, products, product_of, left_of, right_of};
ghost use Rattle.build.specs.Tables.{Kept, at};
ghost use Rattle.build.specs.Tails.{written, SameRows};

use crate::input::Inputs;
use crate::operation::{self, Operation};
use crate::pairs::{find, meets};
use crate::tail::{Full, Tail};
use crate::{Operands, Place, Rows, Stop};
use alphabet::Alphabet;
use automaton::{Arc, State};

impl<A: Alphabet> Inputs<'_, A> {
    // `Paired` is no ghost field of the rows: such a field has one proof at most, and `Paired` has many.

    // Writes the arc of two arcs, if their labels meet and they leave a reachable pair.
    fn emit_pair(
        &self,
        pairs: &[State],
        out: &mut Tail<'_, Arc<A::Label>>,
        left: &Arc<A::Label>,
        right: &Arc<A::Label>,
    ) -> Result<(), Full>
        requires paired { Paired A.labels self.now.left self.now.right pairs.now }
        requires is_left_arc { Has self.now.left.arcs left.now }
        requires is_right_arc { Has self.now.right.arcs right.now }
        ensures writes { (x y : ℕ) → x < length self.now.left.arcs → y < length self.now.right.arcs → arc_at A.labels self.now.left x ≡ left.now → arc_at A.labels self.now.right y ≡ right.now →
            PairsWritten A.labels self.now.left self.now.right pairs.now out.old x y → PairsWrote A.labels self.now.left self.now.right pairs.now out.new x (y + 1) result }
        ensures same_rows { SameRows out.old out.new }
    {
        if !meets::<A>(left, right) {
            return Ok(());
        }
        let Some(from) = find(pairs, left.from, right.from) else {
            return Ok(());
        };
        let Some(to) = find(pairs, left.to, right.to) else {
            unreachable()
        };
        let label = A::meet(&left.label, &right.label);
        out.push(Arc { from, label, to })
    }

    // Writes the arcs of a left arc with every right arc.
    fn emit_arc(
        &self,
        pairs: &[State],
        out: &mut Tail<'_, Arc<A::Label>>,
        left: &Arc<A::Label>,
    ) -> Result<(), Full>
        requires paired { Paired A.labels self.now.left self.now.right pairs.now }
        requires is_arc { Has self.now.left.arcs left.now }
        ensures writes { (x : ℕ) → x < length self.now.left.arcs → arc_at A.labels self.now.left x ≡ left.now →
            PairsWritten A.labels self.now.left self.now.right pairs.now out.old x 0 → PairsWrote A.labels self.now.left self.now.right pairs.now out.new (x + 1) 0 result }
        ensures same_rows { SameRows out.old out.new }
    {
        for right in self.right.arcs() {
            self.emit_pair(pairs, out, left, right)?;
        }
        Ok(())
    }

    // Writes the arcs of all pairs of arcs.
    fn emit(&self, pairs: &[State], out: &mut Tail<'_, Arc<A::Label>>) -> Result<(), Full>
        requires paired { Paired A.labels self.now.left self.now.right pairs.now }
        requires empty { written out.old ≡ [] }
        ensures writes { PairsWrote A.labels self.now.left self.now.right pairs.now out.new (length self.now.left.arcs) 0 result }
        ensures same_rows { SameRows out.old out.new }
    {
        for left in self.left.arcs() {
            self.emit_arc(pairs, out, left)?;
        }
        Ok(())
    }
}

// The product, as an operation on two automata.
struct DirectProduct;

impl<A: Alphabet> Operation<A> for DirectProduct {
    ghost Node = { Pair };

    ghost Edge = { Pair };

    ghost builds = { products A.Alphabet.labels };

    fn write(
        inputs: &Inputs<'_, A>,
        states: &mut [State],
        arcs: &mut [Arc<A::Label>],
    ) -> Result<Rows, Stop> {
        let mut pairs = Tail::new(states);
        inputs.explore(&mut pairs).map_err(|_| Stop::StatesFull)?;
        let mut out = Tail::new(arcs);
        inputs
            .emit(pairs.written(), &mut out)
            .map_err(|_| Stop::ArcsFull)?;
        Ok(Rows {
            states: pairs.written().len(),
            arcs: out.written().len(),
        })
    }
}

// The product of the two operands, built behind the rows in use.
pub fn product<A: Alphabet>(
    states: &mut [State],
    arcs: &mut [Arc<A::Label>],
    job: Operands,
) -> Result<Place, Stop>
    ensures answers { Answer (Ready job states.old arcs.old) A.Alphabet.labels (product_of A.Alphabet.labels job states.old arcs.old)
        job.used states.new arcs.new result }
    ensures accepts_what_both_accept { Meant result (λ p. (w : Word) → Accepts A.Alphabet.labels.admits (at states.new arcs.new p) w
        ↔ (Accepts A.Alphabet.labels.admits (left_of job states.old arcs.old) w × Accepts A.Alphabet.labels.admits (right_of job states.old arcs.old) w)) }
    ensures sizes { Meant result (λ p. Sizes (product_of A.Alphabet.labels job states.old arcs.old) p.count) }
    ensures keeps_states { Kept job.used.states states.old states.new }
    ensures keeps_arcs { Kept job.used.arcs arcs.old arcs.new }
{
    operation::build::<A, DirectProduct>(states, arcs, job)
}
