// The rows of which automata are made: states with two marks, and arcs with a label.
#![tactic(auto)]

ghost use Rattle.std.specs.Prelude.{◌≡◌};
ghost use Rattle.automaton.specs.Automaton.{plain};

// Whether a state is one where a walk may begin, and one where it may end.
#[derive(Clone, Copy, Debug, PartialEq, Eq, Default)]
pub struct Marks {
    pub initial: bool,
    pub accepting: bool,
}

// A row of a state table. The two numbers are room for whoever builds the row.
#[derive(Clone, Copy, Debug, PartialEq, Eq, Default)]
pub struct State {
    pub marks: Marks,
    pub left: usize,
    pub right: usize,
}

// A row with 0 in both numbers.
impl From<Marks> for State {
    ghost from_gives = { λ marks state. state ≡ plain marks };

    fn from(marks: Marks) -> State {
        State {
            marks,
            left: 0,
            right: 0,
        }
    }
}

// A row of an arc table. The two states are counted from the automaton's first state.
#[derive(Clone, Copy, Debug, PartialEq, Eq)]
pub struct Arc<L> {
    pub from: usize,
    pub label: L,
    pub to: usize,
}
