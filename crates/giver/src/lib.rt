// Pattern givers: each means one automaton and tells it piece by piece.
#![tactic(auto)]

ghost use Rattle.std.specs.Prelude.{◌≡◌, length};
ghost use Rattle.automaton.specs.Automaton.{Automaton, arc_at};
ghost use Rattle.giver.specs.Told.{marks_at, number};

use alphabet::Alphabet;
use automaton::{Arc, Marks};

pub mod accepts;
pub mod fixed;
pub mod table;

// Why an automaton is refused.
#[derive(Clone, Copy, Debug, PartialEq, Eq)]
pub enum Refusal {
    // more than 256 states or 4,096 arcs
    TooLarge,
    // an arc leads from or to a state that is not there
    ArcOutside,
}

impl Refusal {
    // The numbers are those of docs/RULES.md.
    pub fn number(self) -> u32
        ensures is_number { result ≡ number self }
    {
        match self {
            Refusal::TooLarge => 3,
            Refusal::ArcOutside => 4,
        }
    }
}

pub trait Giver<A: Alphabet> {
    ghost automaton: { Self → Automaton A.Label };

    fn state_count(&self) -> usize
        ensures counts_states { result ≡ length (automaton self.now).states };

    fn arc_count(&self) -> usize
        ensures counts_arcs { result ≡ length (automaton self.now).arcs };

    // The marks of a state; past the last state none.
    fn marks(&self, state: usize) -> Marks
        ensures tells_marks { result ≡ marks_at (automaton self.now) state };

    // An arc; past the last one from 0 to 0 on the full label.
    fn arc(&self, k: usize) -> Arc<A::Label>
        ensures tells_arc { result ≡ arc_at A.Alphabet.labels (automaton self.now) k };
}

// The arc from 0 to 0 on the full label, which a giver tells past its last one.
pub fn no_arc<A: Alphabet>() -> Arc<A::Label>
    ensures leads_nowhere { result ≡ record { from = 0; label = A.Alphabet.labels.full; to = 0 } }
{
    Arc {
        from: 0,
        label: A::full(),
        to: 0,
    }
}
