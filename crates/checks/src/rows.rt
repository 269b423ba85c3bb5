// The rows that the examples are made of.
use automaton::{Arc, Marks, State};

// As in `gauges`: a program and a crate of tests share no module.
pub fn state(initial: bool, accepting: bool) -> State {
    State::from(Marks { initial, accepting })
}

pub fn arc<L>(from: usize, label: L, to: usize) -> Arc<L> {
    Arc { from, label, to }
}
