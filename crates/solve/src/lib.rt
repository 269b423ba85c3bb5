// Solving a sheet: whether there are words for its parts, and such words.
#![tactic(auto)]

ghost use Rattle.std.specs.Prelude.{◌≡◌, length};
ghost use Rattle.build.specs.Tables.{Kept};
ghost use Rattle.sheet.specs.Calls.{view};
ghost use Rattle.solve.specs.Builds.{room};
ghost use Rattle.solve.specs.Solving.{SolveAnswer, OnlyAnswer, LeavesAll, Told, Reported, Reports, ReportsExactly, WhenImpossible, WhenPossible, WhenUnknown, placed, Lays, NoWords, Decided};
ghost use Rattle.verdict.specs.Meaning.{CoursesExact, Unsatisfiable};
ghost use Rattle.verdict.specs.Problem.{problem, Satisfies};
ghost use Rattle.verdict.specs.Verdicts.{SingleUse, totals as totals_of};

use crate::course::build_all;
use crate::judge::judge;
use alphabet::Alphabet;
use automaton::{Arc, State};
use build::{Place, Rows};
use sheet::{Refusal, Sheet};
use verdict::Solved;

mod course;
mod judge;
mod listing;
mod parts;
mod pieces;
mod plan;
mod rooting;
mod roots;
mod tables;

// Where a word lies in the words table. By numbers, as all that lies in lent tables.
#[derive(Clone, Copy, Debug, PartialEq, Eq, Default)]
pub struct Span {
    pub first: usize,
    pub len: usize,
}

// A row of the report: where the final states and arcs of a part lie, and its word.
#[derive(Clone, Copy, Debug, PartialEq, Eq, Default)]
pub struct Row {
    pub automaton: Place,
    pub word: Span,
}

// The rows of all builds.
fn totals(held: Rows, used: Rows) -> Rows
    ensures counts { result ≡ totals_of held used }
{
    Rows {
        states: used.states.saturating_sub(held.states),
        arcs: used.arcs.saturating_sub(held.arcs),
    }
}

// Whether there are words for all parts, with a report of the final results and, where it is possible, such words.
pub fn solve<A: Alphabet>(
    sheet: &Sheet,
    states: &mut [State],
    arcs: &mut [Arc<A::Label>],
    report: &mut [Row],
    words: &mut [u32],
) -> Result<Solved, Refusal>
    ensures answers { SolveAnswer A.Alphabet.labels (view sheet.now) states.old arcs.old (length report.old) (length words.old) result }
    ensures only_answer { OnlyAnswer A.Alphabet.labels (view sheet.now) states.old arcs.old (length words.old) result }
    ensures keeps_held_states { Kept (view sheet.now).held.states states.old states.new }
    ensures keeps_held_arcs { Kept (view sheet.now).held.arcs arcs.old arcs.new }
    ensures leaves { LeavesAll (view sheet.now).parts states.old states.new arcs.old arcs.new report.old report.new words.old words.new result }
    ensures reports { Told result (λ v. Reported v (Reports A.Alphabet.labels (view sheet.now) states.old arcs.old states.new arcs.new report.new)) }
    ensures reports_exactly { Told result (λ v. Reported v (ReportsExactly A.Alphabet.labels (problem (view sheet.now) states.old arcs.old) states.new arcs.new report.new)) }
    ensures courses_are_exact { CoursesExact A.Alphabet.labels (room states.old arcs.old) (problem (view sheet.now) states.old arcs.old) }
    ensures impossible_means_no_words { Told result (λ v. WhenImpossible v (Unsatisfiable A.Alphabet.labels (problem (view sheet.now) states.old arcs.old))) }
    ensures possible_words_satisfy { Told result (λ v. WhenPossible v (Satisfies A.Alphabet.labels (problem (view sheet.now) states.old arcs.old) (placed report.new words.new))) }
    ensures lays_words { Told result (λ v. WhenPossible v (Lays (problem (view sheet.now) states.old arcs.old) report.new words.old words.new)) }
    ensures unknown_leaves_word_fields_empty { Told result (λ v. WhenUnknown v (NoWords (view sheet.now).parts report.new)) }
    ensures decides_single_use { Told result (λ v. SingleUse (view sheet.now).joins → Decided A.Alphabet.labels (problem (view sheet.now) states.old arcs.old) v) }
{
    if !sheet.is_whole(states, arcs) {
        return Err(Refusal::RowsLost);
    }
    let counts = sheet.counts();
    if report.len() < counts.parts {
        return Err(Refusal::ShortReport);
    }
    let (used, ended) = build_all::<A>(sheet, states, arcs);
    let totals = totals(counts.held, used);
    // two ends: behind the first the report may be written, behind the second nothing was
    match ended {
        Ok(finished) => {
            let verdict = judge::<A>(
                states,
                arcs,
                used,
                sheet.joins(),
                counts.parts,
                &finished,
                report,
                words,
            );
            Ok(Solved { verdict, totals })
        }
        Err(verdict) => Ok(Solved { verdict, totals }),
    }
}
