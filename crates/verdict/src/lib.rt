// What solving a sheet answers. When each verdict is given stands in specs.
#![tactic(auto)]

use build::Rows;

mod shown;

// A table that does not suffice.
#[derive(Clone, Copy, Debug, PartialEq, Eq)]
pub enum Table {
    States,
    Arcs,
    Words,
}

#[derive(Clone, Copy, Debug, PartialEq, Eq)]
pub enum Verdict {
    // the table has no room for a build of the part, or for the word of a root
    OutOfRoom { table: Table, part: usize },
    // no word is left for the part
    Impossible { part: usize },
    // there is a word for each part, but a part is used twice
    Unknown,
    // there are words that satisfy everything
    Possible,
}

// A verdict, and the rows of all finished builds together.
#[derive(Clone, Copy, Debug, PartialEq, Eq)]
pub struct Solved {
    pub verdict: Verdict,
    pub totals: Rows,
}
