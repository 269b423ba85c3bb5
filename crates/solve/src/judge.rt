// The verdict when all parts are finished, with its report and words.
ghost use Rattle.std.specs.Prelude.{◌-◌, ◌<◌, ◌≤◌, length};
ghost use Rattle.solve.specs.Judging.{Joined, Sound, Placed, Ready, Judges};
ghost use Rattle.solve.specs.Report.{row, Standing};
ghost use Rattle.verdict.specs.Verdicts.{SingleUse, roots_below};

use crate::Row;
use crate::listing::list_parts;
use crate::pieces::place_pieces;
use crate::plan::Plan;
use crate::rooting::place_roots;
use alphabet::Alphabet;
use automaton::{Arc, State};
use build::Rows;
use sheet::{Held, Join};
use verdict::{Table, Verdict};

// What `judge` calls takes tables, report and words as parameters: some of it writes the words, some only reads them.
// Their facts stand at each function: they are of rows and report together, and no type holds both.

// Finds a word for each part: for a root a word that its automaton accepts, for any other a piece of its root's word.
fn place_words<A: Alphabet>(
    states: &mut [State],
    arcs: &[Arc<A::Label>],
    used: Rows,
    plan: &Plan,
    report: &mut [Row],
    words: &mut [u32],
)
    requires standing { Standing states.old arcs.now used plan.now.parts report.old }
    requires single_use { SingleUse plan.now.joins.now }
    requires sound { Sound A.Alphabet.labels.admits states.old arcs.now plan.now.parts plan.now.joins.now report.old }
    requires has_room { roots_below plan.now.joins.now (λ p. (row report.old p).automaton.count.states - 1) plan.now.parts ≤ length words.old }
    ensures places { Placed A.Alphabet.labels plan.now.parts plan.now.joins.now states.old states.new arcs.now report.old report.new words.old words.new }
{
    place_roots::<A>(states, arcs, used, plan, report, words);
    place_pieces::<A>(states, arcs, used, plan, report, words);
}

// Unknown if a part is used twice; else possible, with words, unless the words table is too short.
// The tables are slices here, and no `Tables`: the check covers no call on one that is lent again after a `match`.
pub fn judge<A: Alphabet>(
    states: &mut [State],
    arcs: &[Arc<A::Label>],
    used: Rows,
    joins: &[Join],
    parts: usize,
    finished: &[Held],
    report: &mut [Row],
    words: &mut [u32],
) -> Verdict
    requires ready { Ready A.Alphabet.labels.admits states.old arcs.now used parts joins.now finished.now }
    requires joined { Joined parts joins.now }
    requires has_rows { parts ≤ length report.old }
    ensures judges { Judges A.Alphabet.labels parts joins.now finished.now states.old states.new arcs.now report.old report.new words.old words.new result }
{
    let plan = Plan { joins, parts };
    if !plan.is_single_use() {
        list_parts(report, finished, parts);
        return Verdict::Unknown;
    }
    if let Some(part) = plan.first_without_room(finished, words.len()) {
        return Verdict::OutOfRoom {
            table: Table::Words,
            part,
        };
    }
    list_parts(report, finished, parts);
    place_words::<A>(states, arcs, used, &plan, report, words);
    Verdict::Possible
}
