// How many rows of a table count, and which rows are in use.
ghost use Rattle.std.specs.Prelude.{◌≡◌, Decides};
ghost use Rattle.build.specs.Tables.{state_room, arc_room, InUse};

use crate::{ARC_ROWS, Rows, STATE_ROWS};
use automaton::{Arc, State};

// Not one function over the rows and a limit: each caller would have to name the limit.
pub fn state_room(states: &[State]) -> usize
    ensures counts { result ≡ state_room states.now }
{
    states.len().min(STATE_ROWS)
}

pub fn arc_room<L: Copy>(arcs: &[Arc<L>]) -> usize
    ensures counts { result ≡ arc_room arcs.now }
{
    arcs.len().min(ARC_ROWS)
}

pub fn in_use<L: Copy>(states: &[State], arcs: &[Arc<L>], used: Rows) -> bool
    ensures decides { Decides result (InUse states.now arcs.now used) }
{
    used.states <= state_room(states) && used.arcs <= arc_room(arcs)
}
