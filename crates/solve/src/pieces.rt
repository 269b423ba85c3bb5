// The words of the parts that stand on right-hand sides: pieces of the words of their roots.
ghost use Rattle.std.specs.Prelude.{◌≡◌, ℕ, ◌<◌, ◌≤◌, length};
ghost use Rattle.std.specs.List.{ContainsAt as Has};
ghost use Rattle.automaton.specs.Automaton.{Accepts, Word};
ghost use Rattle.build.specs.Concats.{InTurn};
ghost use Rattle.build.specs.Tables.{InUse, Stands};
ghost use Rattle.sheet.specs.Joins.{Marked};
ghost use Rattle.verdict.specs.Verdicts.{Root, SingleUse};
ghost use Rattle.words.specs.Words.{Renumbered};
ghost use Rattle.solve.specs.Pieces.{SplitUp};
ghost use Rattle.solve.specs.Report.{AllPieces, Reworded, Standing, Within, Worded, automaton_of, row, word_at};

use crate::plan::Plan;
use crate::roots::is_root;
use crate::{Row, Span};
use alphabet::Alphabet;
use automaton::{Arc, State};
use build::Rows;
use sheet::Join;
use sheet::marking::{PartSet, unsettled};
use words::splitting::split;

// The roots among the parts. 64 is `MAX_PARTS`: a contract writes a limit as a number.
fn roots(plan: &Plan) -> PartSet
    ensures long { length result ≡ 64 }
    ensures all { (p : ℕ) → p < plan.now.parts → Root plan.now.joins.now p → Marked result p }
    ensures only { (p : ℕ) → Marked result p → (p < plan.now.parts) × Root plan.now.joins.now p }
{
    let mut roots = PartSet::new();
    for part in 0..plan.parts {
        if is_root(plan.joins, part) {
            roots.insert(part);
        }
    }
    roots
}

// Splits the word of the whole, and gives the left and the right their pieces.
fn split_join<A: Alphabet>(
    states: &mut [State],
    arcs: &[Arc<A::Label>],
    used: Rows,
    report: &mut [Row],
    words: &[u32],
    join: Join,
)
    requires has_whole { join.whole < length report.old }
    requires has_left { join.left < length report.old }
    requires has_right { join.right < length report.old }
    requires in_use { InUse states.old arcs.now used }
    requires left_stands { Stands states.old arcs.now used (row report.old join.left).automaton }
    requires right_stands { Stands states.old arcs.now used (row report.old join.right).automaton }
    requires within { Within report.old words.now join.whole }
    requires in_turn { InTurn A.Alphabet.labels.admits (automaton_of states.old arcs.now report.old join.left) (automaton_of states.old arcs.now report.old join.right) (word_at words.now (row report.old join.whole).word) }
    ensures renumbers { (n : ℕ) → n ≤ (row report.old join.left).automaton.first.states → n ≤ (row report.old join.right).automaton.first.states → Renumbered n states.old states.new }
    ensures splits { SplitUp A.Alphabet.labels.admits states.old arcs.now words.now join report.old report.new }
{
    let whole = report[join.whole].word;
    let left = report[join.left].automaton;
    let right = report[join.right].automaton;
    // cut here: no other function here cuts a word out
    let letters = &words[whole.first..][..whole.len];
    let Some(len) = split::<A>(states, arcs, used, left, right, letters) else {
        unreachable()
    };
    report[join.left].word = Span {
        first: whole.first,
        len,
    };
    report[join.right].word = Span {
        first: whole.first + len,
        len: whole.len - len,
    };
}

// Gives every part that stands on a right-hand side its piece of its root's word.
pub fn place_pieces<A: Alphabet>(
    states: &mut [State],
    arcs: &[Arc<A::Label>],
    used: Rows,
    plan: &Plan,
    report: &mut [Row],
    words: &[u32],
)
    requires standing { Standing states.old arcs.now used plan.now.parts report.old }
    requires single_use { SingleUse plan.now.joins.now }
    requires in_turn { (j : Join) → Has plan.now.joins.now j → (w : Word) → Accepts A.Alphabet.labels.admits (automaton_of states.old arcs.now report.old j.whole) w →
        InTurn A.Alphabet.labels.admits (automaton_of states.old arcs.now report.old j.left) (automaton_of states.old arcs.now report.old j.right) w }
    requires roots_worded { (p : ℕ) → p < plan.now.parts → Root plan.now.joins.now p → Worded A.Alphabet.labels.admits states.old arcs.now report.old words.now p × Within report.old words.now p }
    ensures renumbers { (n : ℕ) → ((p : ℕ) → p < plan.now.parts → n ≤ (row report.old p).automaton.first.states) → Renumbered n states.old states.new }
    ensures rewords { Reworded plan.now.parts report.old report.new }
    ensures keeps_roots { (p : ℕ) → p < plan.now.parts → Root plan.now.joins.now p → row report.new p ≡ row report.old p }
    ensures pieces { AllPieces plan.now.joins.now report.new }
    ensures accepts { (p : ℕ) → p < plan.now.parts → Worded A.Alphabet.labels.admits states.old arcs.now report.new words.now p }
{
    let mut placed = roots(plan);
    while let Some(join) = unsettled(plan.joins, &placed) {
        split_join::<A>(states, arcs, used, report, words, join);
        // one call each, as in `circle` of `sheet`
        placed.insert(join.left);
        placed.insert(join.right);
    }
}
