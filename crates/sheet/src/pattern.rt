// The rows of a pattern: whether they fit in the tables, and writing them.
ghost use Rattle.std.specs.Prelude.{◌≡◌, ℕ, ◌+◌, ◌<◌, ◌≤◌, length, drop, slice_index_or, Decides};
ghost use Rattle.build.specs.Tables.{part, InUse, Kept};

use automaton::{Arc, State};
use build::{ARC_ROWS, Rows, STATE_ROWS};

// Whether so many rows fit in the tables.
// `build` has this test in a private module: to make it public for one caller is no plainer.
pub fn fits<L: Copy>(states: &[State], arcs: &[Arc<L>], rows: Rows) -> bool
    ensures decides { Decides result (InUse states.now arcs.now rows) }
{
    rows.states <= states.len().min(STATE_ROWS) && rows.arcs <= arcs.len().min(ARC_ROWS)
}

// Writes so many rows from a place on, each by its number.
// All rows and `at`, not a cut of them: the contract says that what stands before `at` is kept.
// By index: of rows that are written through iter_mut a proof knows no more than how many there are.
pub fn write_rows<T: Copy, F: Fn(usize) -> T>(rows: &mut [T], at: usize, count: usize, row: F)
    requires callable { F.IsAlwaysCallable row }
    requires room { at + count ≤ length rows.old }
    ensures keeps { Kept at rows.old rows.new }
    ensures behind { drop (at + count) rows.new ≡ drop (at + count) rows.old }
    ensures writes { (k : ℕ) (d : T) → k < count → F.post row k (slice_index_or (part rows.new at count) k d) }
{
    for k in 0..count {
        rows[at + k] = row(k);
    }
}
