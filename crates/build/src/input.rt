// The automata that a build reads.
ghost use Rattle.std.specs.Prelude.{◌≡◌, ◌+◌, ◌<◌, ◌≤◌, ◌↔◌, map, length, IsTrue, MatchOption, slice_index_or};
ghost use Rattle.std.specs.List.{All};
ghost use Rattle.build.specs.Inputs.{StandsIn};
ghost use Rattle.build.specs.Tables.{part, at as at_place};
ghost use Rattle.automaton.specs.Automaton.{Automaton, Inside as EndsInside, of_rows, unmarked};

use crate::{Operands, Place};
use alphabet::Alphabet;
use automaton::{Arc, Marks, State};
use std::marker::Model;

// So many rows from a place on.
fn rows_from<T>(rows: &[T], first: usize, count: usize) -> Option<&[T]>
    ensures finds { MatchOption result (first + count ≤ length rows.now → ⊥)
        (λ found. (first + count ≤ length rows.now) × (found.now ≡ part rows.now first count)) }
{
    rows.get(first..)?.get(..count)
}

// Whether all arcs lead from a state to a state, where there are so many states.
// `giver` asks the same of a giver's arcs: neither crate stands above the other, and here are rows.
fn lead_inside<L>(arcs: &[Arc<L>], states: usize) -> bool
    ensures decides { IsTrue result ↔ All (λ b. (b.from < states) × (b.to < states)) arcs.now }
{
    arcs.iter().all(|arc| arc.from < states && arc.to < states)
}

// An automaton in lent rows, each of whose arcs leads from a state to a state.
#[derive(Drop)]
pub struct Input<'a, L> {
    states: &'a [State],
    arcs: &'a [Arc<L>],
}

impl<'a, L> Model for Input<'a, L> {
    ghost Value = { Automaton L };

    ghost view = { λ m. of_rows m.states.now m.arcs.now };

    ghost invariant = { λ m. EndsInside (of_rows m.states.now m.arcs.now) };
}

impl<'a, L: Copy> Input<'a, L> {
    // The automaton at a place, if its rows are among these, and its arcs lead from state to state.
    pub fn at(states: &'a [State], arcs: &'a [Arc<L>], place: Place) -> Option<Input<'a, L>>
        ensures finds { MatchOption result (StandsIn states.now arcs.now place → ⊥)
            (λ found. StandsIn states.now arcs.now place × (found ≡ at_place states.now arcs.now place)) }
    {
        let states = rows_from(states, place.first.states, place.count.states)?;
        let arcs = rows_from(arcs, place.first.arcs, place.count.arcs)?;
        // an `if`: in a closure passed to `then` it is not known where the arcs lead
        if lead_inside(arcs, states.len()) {
            Some(Input { states, arcs })
        } else {
            None
        }
    }

    // The marks of a state; past the last state none.
    pub fn marks(&self, q: usize) -> Marks
        ensures reads { result ≡ slice_index_or self.now.states q unmarked }
    {
        self.states
            .get(q)
            .map_or(Marks::default(), |state| state.marks)
    }

    // The bound is 2^63: a sum of two such numbers is a number again.
    pub fn state_count(&self) -> usize
        ensures counts { result ≡ length self.now.states }
        ensures numbered { length self.now.states < 9223372036854775808 }
    {
        self.states.len()
    }

    pub fn states(&self) -> &[State]
        ensures reads { map (λ s. s.marks) result.now ≡ self.now.states }
    {
        self.states
    }

    // The bound is here as well, for who walks the arcs and does not ask for the count.
    pub fn arcs(&self) -> &[Arc<L>]
        ensures reads { result.now ≡ self.now.arcs }
        ensures inside { All (λ b. (b.from < length self.now.states) × (b.to < length self.now.states)) result.now }
        ensures numbered { length self.now.states < 9223372036854775808 }
    {
        self.arcs
    }
}

// The two automata of a build.
#[derive(Drop)]
pub struct Inputs<'a, A: Alphabet> {
    pub left: Input<'a, A::Label>,
    pub right: Input<'a, A::Label>,
}

impl<'a, A: Alphabet> Inputs<'a, A> {
    // Both operands of a build, if they stand in these rows.
    pub fn at(
        states: &'a [State],
        arcs: &'a [Arc<A::Label>],
        job: Operands,
    ) -> Option<Inputs<'a, A>>
        ensures finds { MatchOption result (StandsIn states.now arcs.now job.left → StandsIn states.now arcs.now job.right → ⊥)
            (λ found. (StandsIn states.now arcs.now job.left × StandsIn states.now arcs.now job.right)
            × (found.left ≡ at_place states.now arcs.now job.left) × (found.right ≡ at_place states.now arcs.now job.right)) }
    {
        let left = Input::at(states, arcs, job.left)?;
        let right = Input::at(states, arcs, job.right)?;
        Some(Inputs { left, right })
    }
}
