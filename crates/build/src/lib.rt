// Builds over lent rows: the automata read and the automaton built lie in the same two tables.
#![tactic(auto)]

ghost use Rattle.std.specs.Prelude.{◌≡◌};
ghost use Rattle.build.specs.Tables.{end};

pub mod all_words;
pub mod concat;
mod input;
pub mod operand;
mod operation;
mod pairs;
pub mod product;
mod table;
mod tail;

// Only so many rows of a table count.
pub const STATE_ROWS: usize = 65_536;

pub const ARC_ROWS: usize = 1_048_576;

// How many state rows and arc rows.
#[derive(Clone, Copy, Debug, PartialEq, Eq, Default)]
pub struct Rows {
    pub states: usize,
    pub arcs: usize,
}

// Where the rows of an automaton lie in the tables.
#[derive(Clone, Copy, Debug, PartialEq, Eq, Default)]
pub struct Place {
    pub first: Rows,
    pub count: Rows,
}

impl Place {
    // The rows before its end. A sum that no number holds is the largest number.
    pub fn end(self) -> Rows
        ensures ends { result ≡ end self }
    {
        Rows {
            states: self.first.states.saturating_add(self.count.states),
            arcs: self.first.arcs.saturating_add(self.count.arcs),
        }
    }
}

// The rows in use, and the two automata among them that a build takes.
#[derive(Clone, Copy, Debug, PartialEq, Eq)]
pub struct Operands {
    pub used: Rows,
    pub left: Place,
    pub right: Place,
}

// Why nothing was built.
#[derive(Clone, Copy, Debug, PartialEq, Eq)]
pub enum Stop {
    // the states do not fit behind the rows in use
    StatesFull,
    // the states fit, and the arcs do not
    ArcsFull,
    // the rows in use pass a table, or an operand does not lie among them, or has an arc that leads outside
    Outside,
}
