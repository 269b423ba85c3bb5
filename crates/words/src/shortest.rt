// A word of an automaton, found by layers of states: from the accepting ones back along the arcs.
ghost use Rattle.std.specs.Prelude.{◌≡◌, ℕ, ◌+◌, ◌<◌, ◌≤◌, true, map, length, take, drop, is_some, IfSome, Decides, MatchOption};
ghost use Rattle.std.specs.List.{ContainsAt as Has};
ghost use Rattle.automaton.specs.Automaton.{Word, Accepts, initial, of_rows};
ghost use Rattle.build.specs.Tables.{part, at, InUse, Stands};
ghost use Rattle.words.specs.Layers.{layer, Begun, Leads, Rises, Layered, Upto, Complete, Round, Start};
ghost use Rattle.words.specs.Machines.{automaton, SameMachine};
ghost use Rattle.words.specs.Shortest.{Wrote};
ghost use Rattle.words.specs.States.{LeadWithin, row};
ghost use Rattle.words.specs.Words.{Renumbered};

use crate::machine::Machine;
use alphabet::Alphabet;
use automaton::{Arc, State};
use build::{Place, Rows, operand};

// Whether an arc has a letter, and leads from a state without a layer to one of the layer `top`.
// A layer stands in `left`, since there is no memory but the lent rows; 0 there is no layer.
fn rises<A: Alphabet>(states: &[State], arc: &Arc<A::Label>, top: usize) -> bool
    requires begins_within { arc.now.from < length states.now }
    requires ends_within { arc.now.to < length states.now }
    ensures decides { Decides result (Rises A.Alphabet.labels (layer states.now) top arc.now) }
{
    states[arc.from].left == 0 && states[arc.to].left == top && A::first(&arc.label).is_some()
}

// Whether an arc has a letter, and leads from q to a state of a layer.
// Not one function with `rises`: one looks at where an arc begins, the other at the layer there.
fn leads<A: Alphabet>(states: &[State], arc: &Arc<A::Label>, q: usize, next: usize) -> bool
    requires ends_within { arc.now.to < length states.now }
    ensures decides { Decides result (Leads A.Alphabet.labels (layer states.now) q next arc.now) }
{
    arc.from == q && states[arc.to].left == next && A::first(&arc.label).is_some()
}

// The first letter of a label that has one.
fn letter<A: Alphabet>(label: &A::Label) -> u32
    requires { is_some (A.Alphabet.labels.first label.now) ≡ true }
    ensures admitted { A.Alphabet.labels.admits label.now result ≡ true }
{
    A::first(label).unwrap_or(0)
}

impl<L: Copy> Machine<'_, L> {
    // Gives the accepting states the layer 1, and the others none. The second numbers stay.
    fn begin_layers(&mut self)
        ensures begins { Begun (automaton self.old) (length self.old.states.now) (layer self.new.states.now) }
        ensures same { SameMachine self.old self.new }
    {
        self.renumber(|state| (usize::from(state.marks.accepting), state.right));
    }

    // Gives the next layer to each state without one from which an arc with a letter leads to the layer `top`.
    // Answers whether there were any.
    fn round<A: Alphabet<Label = L>>(&mut self, top: usize) -> bool
        requires above { 0 < top }
        requires low { top ≤ length self.old.states.now + 1 }
        requires upto { Upto A.Alphabet.labels (automaton self.old) (length self.old.states.now) (layer self.old.states.now) top }
        ensures layers { Round A.Alphabet.labels (automaton self.old) (length self.old.states.now) (layer self.old.states.now) (layer self.new.states.now) top result }
        ensures same { SameMachine self.old self.new }
    {
        let states = &mut *self.states;
        // a `for` with a flag: of what a closure writes into the rows a proof learns nothing
        let mut more = false;
        for arc in self.arcs {
            if rises::<A>(states, arc, top) {
                states[arc.from].left = top + 1;
                more = true;
            }
        }
        more
    }

    // Gives each state from which a word leads to an accepting state its layer.
    fn layers<A: Alphabet<Label = L>>(&mut self)
        ensures completes { Complete A.Alphabet.labels (automaton self.old) (length self.old.states.now) (layer self.new.states.now) }
        ensures same { SameMachine self.old self.new }
    {
        self.begin_layers();
        // counted by hand: how many rounds there will be is not known before
        let mut top = 1;
        while self.round::<A>(top) {
            top += 1;
        }
    }

    // Whether the layer is lower than that of the best state so far.
    fn lower(&self, layer: usize, best: Option<usize>) -> bool
        requires within { IfSome best (λ b. b < length self.now.states.now) }
        ensures decides { MatchOption best (result ≡ true) (λ b. Decides result (layer < (row self.now.states.now b).left)) }
    {
        best.is_none_or(|b| layer < self.states[b].left)
    }

    // An initial state of the lowest layer.
    fn start(&self) -> Option<usize>
        ensures finds { MatchOption result ((q : ℕ) → q < length self.now.states.now → initial (automaton self.now) q ≡ true → layer self.now.states.now q ≡ 0)
            (Start (automaton self.now) (length self.now.states.now) (layer self.now.states.now)) }
    {
        // a loop: the proof of `filter` and `min_by_key` over the states didn't close
        let mut best = None;
        for (q, state) in self.states.iter().enumerate() {
            if state.marks.initial && state.left > 0 && self.lower(state.left, best) {
                best = Some(q);
            }
        }
        best
    }

    // The first arc with a letter that leads from q to a layer.
    fn down<A: Alphabet<Label = L>>(&self, q: usize, next: usize) -> Option<&Arc<L>>
        ensures finds { MatchOption result ((b : Arc L) → Has self.now.arcs.now b → Leads A.Alphabet.labels (layer self.now.states.now) q next b → ⊥)
            (λ b. Has self.now.arcs.now b.now × Leads A.Alphabet.labels (layer self.now.states.now) q next b.now) }
    {
        // a `for`: in a closure passed to `find` it is not known that the arc leads to a state
        for arc in self.arcs {
            if leads::<A>(self.states, arc, q, next) {
                return Some(arc);
            }
        }
        None
    }

    // Writes the letters on the way down from a state, and answers how many there are.
    // The words and a place in them, not a slice from there on: so does the public `find` take them.
    fn spell<A: Alphabet<Label = L>>(&self, first: usize, words: &mut [u32], to: usize) -> usize
        requires layered { Layered A.Alphabet.labels (automaton self.now) (length self.now.states.now) (layer self.now.states.now) }
        requires start { Start (automaton self.now) (length self.now.states.now) (layer self.now.states.now) first }
        requires room { to + length self.now.states.now ≤ length words.old + 1 }
        ensures short { result < length self.now.states.now }
        ensures accepted { Accepts A.Alphabet.labels.admits (automaton self.now) (part words.new to result) }
        ensures wrote { Wrote to result words.old words.new }
    {
        let letters = self.states[first].left - 1;
        let mut q = first;
        // by index: of letters that are written through `iter_mut` a proof knows nothing
        for i in 0..letters {
            let Some(arc) = self.down::<A>(q, letters - i) else {
                unreachable!()
            };
            words[to + i] = letter::<A>(&arc.label);
            q = arc.to;
        }
        letters
    }
}

// Whether a word of fewer than n letters has room from a place on. The words and the place are as `find` takes them.
fn has_room(words: &[u32], to: usize, n: usize) -> bool
    ensures decides { Decides result (to + n ≤ length words.now + 1) }
{
    to.checked_add(n).is_some_and(|end| end <= words.len() + 1)
}

// A word that the automaton in these rows accepts, written into the words from `to` on.
fn find_in<A: Alphabet>(
    states: &mut [State],
    arcs: &[Arc<A::Label>],
    words: &mut [u32],
    to: usize,
) -> Option<usize>
    requires inside { LeadWithin arcs.now (length states.old) }
    requires room { to + length states.old ≤ length words.old + 1 }
    ensures finds { MatchOption result
        (((w : Word) → Accepts A.Alphabet.labels.admits (of_rows states.old arcs.now) w → ⊥) × (words.new ≡ words.old))
        (λ n. (n < length states.old) × Accepts A.Alphabet.labels.admits (of_rows states.old arcs.now) (part words.new to n) × Wrote to n words.old words.new) }
    ensures same_marks { map (λ s. s.marks) states.new ≡ map (λ s. s.marks) states.old }
{
    let mut machine = Machine { states, arcs };
    machine.layers::<A>();
    let first = machine.start()?;
    Some(machine.spell::<A>(first, words, to))
}

// A word that the automaton at a place accepts, written into the words from `to` on; shorter than the automaton has states.
pub fn find<A: Alphabet>(
    states: &mut [State],
    arcs: &[Arc<A::Label>],
    used: Rows,
    p: Place,
    words: &mut [u32],
    to: usize,
) -> Option<usize>
    ensures finds { MatchOption result
        ((InUse states.old arcs.now used → Stands states.old arcs.now used p → to + p.count.states ≤ length words.old + 1 →
        (w : Word) → Accepts A.Alphabet.labels.admits (at states.old arcs.now p) w → ⊥) × (words.new ≡ words.old))
        (λ n. (n < p.count.states) × (to + n ≤ length words.old) × Accepts A.Alphabet.labels.admits (at states.old arcs.now p) (part words.new to n) × Wrote to n words.old words.new) }
    ensures renumbers { Renumbered p.first.states states.old states.new }
{
    if !operand::stands(states, arcs, used, p) || !has_room(words, to, p.count.states) {
        return None;
    }
    // the same cut stands in `membership::accepts`: the contract of a function for it would be longer than the cut
    let end = p.end();
    find_in::<A>(
        &mut states[p.first.states..end.states],
        &arcs[p.first.arcs..end.arcs],
        words,
        to,
    )
}
