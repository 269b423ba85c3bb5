// The rows of the report before there are words.
ghost use Rattle.std.specs.Prelude.{◌≤◌, length};
ghost use Rattle.solve.specs.Report.{Listed};

use crate::parts::place_of;
use crate::{Row, Span};
use sheet::Held;

// Writes a row for each part, without a word.
#[tactic(auto, using(crate::proofs::Rows::listed_more))]
pub fn list_parts(report: &mut [Row], finished: &[Held], parts: usize)
    requires { parts ≤ length report.old }
    ensures lists { Listed finished.now parts report.old report.new }
{
    // by index: of what is written through `iter_mut` a proof knows nothing
    for part in 0..parts {
        report[part] = Row {
            automaton: place_of(finished, part),
            word: Span::default(),
        };
    }
}
