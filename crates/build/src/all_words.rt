// The automaton of all words: one state, initial and accepting, and one arc to itself on the full label.
ghost use Rattle.std.specs.Prelude.{◌<◌, ◌↔◌};
ghost use Rattle.std.specs.List.{AllByRecursion};
ghost use Rattle.automaton.specs.Automaton.{Accepts, Word};
ghost use Rattle.automaton.specs.Nfa.{all_words};
ghost use Rattle.build.specs.Outcome.{Answer, Meant};
ghost use Rattle.build.specs.Tables.{InUse, Kept, at};

use crate::table::{arc_room, in_use, state_room};
use crate::{Place, Rows, Stop};
use alphabet::Alphabet;
use automaton::{Arc, Marks, State};

// All words, built behind the rows in use.
pub fn all_words<A: Alphabet>(
    states: &mut [State],
    arcs: &mut [Arc<A::Label>],
    used: Rows,
) -> Result<Place, Stop>
    ensures answers { Answer (InUse states.old arcs.old used) A.Alphabet.labels (all_words A.Alphabet.labels) used states.new arcs.new result }
    ensures accepts_every_word { Meant result (λ p. (w : Word) → Accepts A.Alphabet.labels.admits (at states.new arcs.new p) w ↔ AllByRecursion (λ c. c < A.Alphabet.labels.letters) w) }
    ensures keeps_states { Kept used.states states.old states.new }
    ensures keeps_arcs { Kept used.arcs arcs.old arcs.new }
{
    if !in_use(states, arcs, used) {
        return Err(Stop::Outside);
    }
    if used.states >= state_room(states) {
        return Err(Stop::StatesFull);
    }
    if used.arcs >= arc_room(arcs) {
        return Err(Stop::ArcsFull);
    }
    states[used.states] = State::from(Marks {
        initial: true,
        accepting: true,
    });
    // written out, though `giver::no_arc` is the same arc: `build` does not stand above `giver`
    arcs[used.arcs] = Arc {
        from: 0,
        label: A::full(),
        to: 0,
    };
    Ok(Place {
        first: used,
        count: Rows { states: 1, arcs: 1 },
    })
}
