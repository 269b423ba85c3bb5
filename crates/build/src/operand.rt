// Whether an automaton can be an operand of a build.
ghost use Rattle.std.specs.Prelude.{Decides};
ghost use Rattle.build.specs.Tables.{InUse, Stands};

use crate::input::Input;
use crate::{Place, Rows, table};
use automaton::{Arc, State};

// Whether the rows in use lie in the tables, and the automaton stands among them.
pub fn stands<L: Copy>(states: &[State], arcs: &[Arc<L>], used: Rows, p: Place) -> bool
    ensures decides { Decides result (InUse states.now arcs.now used × Stands states.now arcs.now used p) }
{
    table::in_use(states, arcs, used)
        && Input::at(&states[..used.states], &arcs[..used.arcs], p).is_some()
}
