// Whether an automaton accepts a word, by running it along the word.
ghost use Rattle.std.specs.Prelude.{◌≡◌, map, length, Decides};
ghost use Rattle.automaton.specs.Automaton.{Accepts, of_rows};
ghost use Rattle.build.specs.Tables.{InUse, Stands, at};
ghost use Rattle.words.specs.Machines.{automaton, SameMachine};
ghost use Rattle.words.specs.Membership.{Clear, Begun, Followed, Advanced, Reached, SomeAccepts};
ghost use Rattle.words.specs.States.{LeadWithin};
ghost use Rattle.words.specs.Words.{Renumbered};

use crate::machine::Machine;
use alphabet::Alphabet;
use automaton::{Arc, State};
use build::{Place, Rows, operand};

// The states that it can be in are marked in its own rows: `left` is 1 for those of the set, `right` for the next set.
// Not `giver::accepts` over these rows: its set is an array of 256 marks, and an automaton here can have more states.
impl<L: Copy> Machine<'_, L> {
    // The initial states are the set.
    fn begin(&mut self)
        ensures begins { Begun (automaton self.old) self.new.states.now }
        ensures same { SameMachine self.old self.new }
    {
        self.renumber(|state| (usize::from(state.marks.initial), 0));
    }

    // Puts the states to which arcs lead on the letter from states of the set into the next set.
    fn follow<A: Alphabet<Label = L>>(&mut self, letter: u32)
        requires clear { Clear self.old.states.now }
        ensures follows { Followed A.Alphabet.labels (automaton self.old) letter (length self.old.arcs.now) self.old.states.now self.new.states.now }
        ensures same { SameMachine self.old self.new }
    {
        let states = &mut *self.states;
        for arc in self.arcs {
            if states[arc.from].left == 1 && A::admits(&arc.label, letter) {
                states[arc.to].right = 1;
            }
        }
    }

    // The next set becomes the set.
    fn advance(&mut self)
        ensures advances { Advanced self.old.states.now self.new.states.now }
        ensures same { SameMachine self.old self.new }
    {
        self.renumber(|state| (state.right, 0));
    }

    // Runs the automaton along the word.
    fn run<A: Alphabet<Label = L>>(&mut self, word: &[u32])
        ensures reaches { Reached A.Alphabet.labels.admits (automaton self.old) word.now self.new.states.now }
        ensures same { SameMachine self.old self.new }
    {
        self.begin();
        for letter in word {
            self.follow::<A>(*letter);
            self.advance();
        }
    }

    // Whether some state of the set accepts.
    fn some_accepts(&self) -> bool
        ensures decides { Decides result (SomeAccepts self.now.states.now) }
    {
        self.states
            .iter()
            .any(|state| state.left == 1 && state.marks.accepting)
    }
}

// Whether the automaton in these rows accepts the word.
fn accepts_in<A: Alphabet>(states: &mut [State], arcs: &[Arc<A::Label>], word: &[u32]) -> bool
    requires inside { LeadWithin arcs.now (length states.old) }
    ensures decides { Decides result (Accepts A.Alphabet.labels.admits (of_rows states.old arcs.now) word.now) }
    ensures same_marks { map (λ s. s.marks) states.new ≡ map (λ s. s.marks) states.old }
{
    let mut machine = Machine { states, arcs };
    machine.run::<A>(word);
    machine.some_accepts()
}

// Whether the automaton at a place stands among the rows in use and accepts the word. Its state rows' two numbers are
// working marks.
pub fn accepts<A: Alphabet>(
    states: &mut [State],
    arcs: &[Arc<A::Label>],
    used: Rows,
    p: Place,
    word: &[u32],
) -> bool
    ensures decides { Decides result (InUse states.old arcs.now used × Stands states.old arcs.now used p
        × Accepts A.Alphabet.labels.admits (at states.old arcs.now p) word.now) }
    ensures renumbers { Renumbered p.first.states states.old states.new }
{
    if !operand::stands(states, arcs, used, p) {
        return false;
    }
    // the same cut stands in `shortest::find`: the contract of a function for it would be longer than the cut
    let end = p.end();
    accepts_in::<A>(
        &mut states[p.first.states..end.states],
        &arcs[p.first.arcs..end.arcs],
        word,
    )
}
