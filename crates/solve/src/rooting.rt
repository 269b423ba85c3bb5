// Words of the roots.
ghost use Rattle.std.specs.Prelude.{◌≡◌, ℕ, ◌+◌, ◌-◌, ◌<◌, ◌≤◌, length, slice_set};
ghost use Rattle.automaton.specs.Automaton.{Word, Accepts};
ghost use Rattle.build.specs.Tables.{InUse, Stands};
ghost use Rattle.verdict.specs.Verdicts.{Root, roots_below};
ghost use Rattle.words.specs.Words.{Renumbered};
ghost use Rattle.solve.specs.Report.{row, automaton_of, Standing, Reworded, RootsLaid, Worded, with_word};
ghost use Rattle.solve.specs.Roots.{Found};

use crate::plan::Plan;
use crate::roots::is_root;
use crate::{Row, Span};
use alphabet::Alphabet;
use automaton::{Arc, State};
use build::Rows;
use words::shortest;

// Finds a word for a part, writes it from `end` on, and answers how many letters it has.
// `end`, not a cut of the words: `find` takes it, and the row of the report keeps it.
fn place_root<A: Alphabet>(
    states: &mut [State],
    arcs: &[Arc<A::Label>],
    used: Rows,
    part: usize,
    report: &mut [Row],
    words: &mut [u32],
    end: usize,
) -> usize
    requires has_row { part < length report.old }
    requires has_room { end + (row report.old part).automaton.count.states ≤ length words.old + 1 }
    requires in_use { InUse states.old arcs.now used }
    requires stands { Stands states.old arcs.now used (row report.old part).automaton }
    requires accepts { (w : Word) × Accepts A.Alphabet.labels.admits (automaton_of states.old arcs.now report.old part) w }
    ensures renumbers { Renumbered (row report.old part).automaton.first.states states.old states.new }
    ensures writes { report.new ≡ slice_set report.old part (with_word (row report.old part) end result) }
    ensures finds { Found A.Alphabet.labels.admits (automaton_of states.old arcs.now report.old part) (row report.old part).automaton.count.states end result words.old words.new }
{
    let automaton = report[part].automaton;
    let len = shortest::find::<A>(states, arcs, used, automaton, words, end).unwrap_or(0);
    report[part].word = Span { first: end, len };
    len
}

// Finds a word for each root, one behind another from the start of the words table.
pub fn place_roots<A: Alphabet>(
    states: &mut [State],
    arcs: &[Arc<A::Label>],
    used: Rows,
    plan: &Plan,
    report: &mut [Row],
    words: &mut [u32],
)
    requires standing { Standing states.old arcs.now used plan.now.parts report.old }
    requires accepts { (p : ℕ) → p < plan.now.parts → (w : Word) × Accepts A.Alphabet.labels.admits (automaton_of states.old arcs.now report.old p) w }
    requires has_room { roots_below plan.now.joins.now (λ p. (row report.old p).automaton.count.states - 1) plan.now.parts ≤ length words.old }
    ensures renumbers { (n : ℕ) → ((p : ℕ) → p < plan.now.parts → n ≤ (row report.old p).automaton.first.states) → Renumbered n states.old states.new }
    ensures rewords { Reworded plan.now.parts report.old report.new }
    ensures lays { RootsLaid plan.now.joins.now plan.now.parts report.new words.old words.new }
    ensures accepts { (p : ℕ) → p < plan.now.parts → Root plan.now.joins.now p → Worded A.Alphabet.labels.admits states.old arcs.now report.new words.new p }
{
    // a loop: each word begins where the one before ends
    let mut end = 0;
    for part in 0..plan.parts {
        if is_root(plan.joins, part) {
            end += place_root::<A>(states, arcs, used, part, report, words, end);
        }
    }
}
