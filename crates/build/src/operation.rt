// Operations on two automata: what the product and the concatenation do alike.
ghost use Rattle.std.specs.Prelude.{◌≡◌};
ghost use Rattle.automaton.specs.Automaton.{Automaton, Inside};
ghost use Rattle.automaton.specs.Nfa.{Nfa};
ghost use Rattle.build.specs.Emitted.{Fits, FitsBehind};
ghost use Rattle.build.specs.Outcome.{Answer, Meant, Sizes};
ghost use Rattle.build.specs.Pairs.{Ready, left_of, right_of};
ghost use Rattle.build.specs.Tables.{InUse, Kept};

use crate::input::Inputs;
use crate::table::{arc_room, in_use, state_room};
use crate::{Operands, Place, Rows, Stop};
use alphabet::Alphabet;
use automaton::{Arc, State};

// An operation on two automata, by the abstract automaton that it builds of them.
pub trait Operation<A: Alphabet> {
    ghost Node: { Type 0 };

    ghost Edge: { Type 0 };

    ghost builds: { Automaton A.Label → Automaton A.Label → Nfa Node Edge A.Label };

    // Writes the rows of what is built into free rows, and answers how many there are.
    fn write(
        inputs: &Inputs<'_, A>,
        states: &mut [State],
        arcs: &mut [Arc<A::Label>],
    ) -> Result<Rows, Stop>
        requires left_inside { Inside inputs.now.left }
        requires right_inside { Inside inputs.now.right }
        ensures fits { Fits A.Alphabet.labels (builds inputs.now.left inputs.now.right) states.new arcs.new result };
}

// Builds behind the rows in use of tables all of whose rows count.
// Apart from `build`: where one body cuts a table twice, the check does not find what of it is kept.
fn write_behind<A: Alphabet, O: Operation<A>>(
    states: &mut [State],
    arcs: &mut [Arc<A::Label>],
    job: Operands,
) -> Result<Rows, Stop>
    requires in_use { InUse states.old arcs.old job.used }
    ensures answers { FitsBehind (Ready job states.old arcs.old) A.Alphabet.labels (O.builds (left_of job states.old arcs.old) (right_of job states.old arcs.old)) job.used states.new arcs.new result }
    ensures keeps_states { Kept job.used.states states.old states.new }
    ensures keeps_arcs { Kept job.used.arcs arcs.old arcs.new }
{
    let (held_states, free_states) = states.split_at_mut(job.used.states);
    let (held_arcs, free_arcs) = arcs.split_at_mut(job.used.arcs);
    let inputs = Inputs::<A>::at(held_states, held_arcs, job).ok_or(Stop::Outside)?;
    O::write(&inputs, free_states, free_arcs)
}

// Builds behind the rows in use.
pub fn build<A: Alphabet, O: Operation<A>>(
    states: &mut [State],
    arcs: &mut [Arc<A::Label>],
    job: Operands,
) -> Result<Place, Stop>
    ensures answers { Answer (Ready job states.old arcs.old) A.Alphabet.labels (O.builds (left_of job states.old arcs.old) (right_of job states.old arcs.old))
        job.used states.new arcs.new result }
    ensures sizes { Meant result (λ p. Sizes (O.builds (left_of job states.old arcs.old) (right_of job states.old arcs.old)) p.count) }
    ensures keeps_states { Kept job.used.states states.old states.new }
    ensures keeps_arcs { Kept job.used.arcs arcs.old arcs.new }
{
    if !in_use(states, arcs, job.used) {
        return Err(Stop::Outside);
    }
    let state_room = state_room(states);
    let arc_room = arc_room(arcs);
    let count = write_behind::<A, O>(&mut states[..state_room], &mut arcs[..arc_room], job)?;
    Ok(Place {
        first: job.used,
        count,
    })
}
