// An automaton in its own rows. The two numbers of a row are working marks, since there is no memory but the lent rows.
ghost use Rattle.std.specs.Prelude.{◌≡◌, ℕ, ◌<◌, length};
ghost use Rattle.words.specs.States.{row, LeadWithin};

use automaton::{Arc, State};

// Every arc leads from a state to a state.
#[derive(Drop)]
pub struct Machine<'a, L> {
    pub states: &'a mut [State],
    pub arcs: &'a [Arc<L>],
    ghost inside: { LeadWithin arcs.now (length states.now) },
}

impl<L: Copy> Machine<'_, L> {
    ghost use Rattle.words.specs.Machines.{SameMachine};

    // The two numbers of each row become what a function says of the row.
    pub fn renumber<F: Fn(State) -> (usize, usize)>(&mut self, number: F)
        requires callable { F.IsAlwaysCallable number }
        ensures numbers { (q : ℕ) → q < length self.old.states.now → F.post number (row self.old.states.now q) ((row self.new.states.now q).left, (row self.new.states.now q).right) }
        ensures same { SameMachine self.old self.new }
    {
        let states = &mut *self.states;
        // by index: of rows that are written through `iter_mut` a proof knows nothing
        for q in 0..states.len() {
            let state = states[q];
            let (left, right) = number(state);
            states[q] = State {
                left,
                right,
                ..state
            };
        }
    }
}
