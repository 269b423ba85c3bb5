// A sheet: the parts of a reply, the patterns that limit them, and the joins between them.
#![tactic(auto)]

ghost use Rattle.std.specs.Prelude.{◌≤◌, length};
ghost use Rattle.sheet.specs.Joins.{Acyclic, Known};
ghost use Rattle.sheet.specs.Patterns.{Among, ForParts};

use arrayvec::ArrayVec;
use build::{Place, Rows};

mod calls;
mod circle;
pub mod marking;
mod pattern;

pub const MAX_PARTS: usize = 64;

pub const MAX_PATTERNS: usize = 128;

pub const MAX_JOINS: usize = 64;

// What a sheet holds, counted: parts, patterns, joins, state rows and arc rows.
#[derive(Clone, Copy, Debug, PartialEq, Eq, Default)]
pub struct Counts {
    pub parts: usize,
    pub patterns: usize,
    pub joins: usize,
    pub held: Rows,
}

// A held pattern: the part that it limits, and where its rows lie. By numbers: the rows are lent, and nothing owns them.
#[derive(Clone, Copy, Debug, PartialEq, Eq, Default)]
pub struct Held {
    pub part: usize,
    pub place: Place,
}

// The word of the whole is that of the left followed by that of the right. By numbers, as a sheet gives its parts.
#[derive(Clone, Copy, Debug, PartialEq, Eq, Default)]
pub struct Join {
    pub whole: usize,
    pub left: usize,
    pub right: usize,
}

// Why a call is refused. The two refusals of a giver come in by `From`; here are six more, and a number for each.
#[derive(Clone, Copy, Debug, PartialEq, Eq)]
pub enum Refusal {
    // a part number is not below the count
    UnknownPart,
    // the sheet holds as many of the kind as it can
    Full,
    // a pattern has more than 256 states or 4,096 arcs
    TooLarge,
    // an arc of a pattern leads from or to a state that is not there
    ArcOutside,
    // a table is shorter than the held rows, or a held arc leads outside its pattern
    RowsLost,
    // the held rows and the new ones pass a table
    NoRoom,
    // the join would close a circle
    Circle,
    // the report has fewer rows than the sheet has parts
    ShortReport,
}

// No value of this type has joins with a circle.
// Contracts write the limits as numbers: the proof fails if a constant is another number.
#[derive(Drop)]
pub struct Sheet {
    parts: usize,
    patterns: ArrayVec<Held, MAX_PATTERNS>,
    joins: ArrayVec<Join, MAX_JOINS>,
    held: Rows,
    ghost few_parts: { parts ≤ 64 },
    ghost few_patterns: { length patterns.items ≤ 128 },
    ghost few_joins: { length joins.items ≤ 64 },
    ghost few_states: { held.states ≤ 65536 },
    ghost few_arcs: { held.arcs ≤ 1048576 },
    ghost for_parts: { ForParts parts patterns.items },
    ghost among: { Among held patterns.items },
    ghost known: { Known parts joins.items },
    ghost acyclic: { Acyclic joins.items },
}
