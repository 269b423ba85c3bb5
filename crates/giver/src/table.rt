// A giver over a table of rows. Its arcs may lead outside its states.
ghost use Rattle.automaton.specs.Automaton.{of_rows};

use crate::{Giver, no_arc};
use alphabet::Alphabet;
use automaton::{Arc, Marks, State};

#[derive(Drop)]
pub struct Table<'a, A: Alphabet> {
    pub states: &'a [State],
    pub arcs: &'a [Arc<A::Label>],
}

impl<'a, A: Alphabet> Giver<A> for Table<'a, A> {
    ghost automaton = { λ t. of_rows t.states.now t.arcs.now };

    fn state_count(&self) -> usize {
        self.states.len()
    }

    fn arc_count(&self) -> usize {
        self.arcs.len()
    }

    fn marks(&self, state: usize) -> Marks {
        self.states
            .get(state)
            .map_or(Marks::default(), |row| row.marks)
    }

    fn arc(&self, k: usize) -> Arc<A::Label> {
        // two arms, and no default: an alphabet may have to work for its full label
        match self.arcs.get(k) {
            Some(row) => *row,
            None => no_arc::<A>(),
        }
    }
}
