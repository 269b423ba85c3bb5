// Which parts are finished, and which part is the next.
ghost use Rattle.std.specs.Prelude.{◌≡◌, ℕ, ◌<◌, Decides, MatchOption};
ghost use Rattle.std.specs.List.{ContainsAt as Has};
ghost use Rattle.verdict.specs.Course.{find as find_part};
ghost use Rattle.solve.specs.Parts.{Among, Open};
ghost use Rattle.solve.specs.Report.{place_of};

use build::Place;
use sheet::{Held, Join};

// Functions over a slice, no type of finished parts: it would wrap a vector and pass on its `push`.

// The part of that number with the place of its final result, if it is finished.
pub fn find(finished: &[Held], part: usize) -> Option<Held>
    ensures finds { result ≡ find_part (λ h. h.part) finished.now part }
{
    finished.iter().find(|held| held.part == part).copied()
}

// The place of its final result; nowhere if the part is not finished.
pub fn place_of(finished: &[Held], part: usize) -> Place
    ensures finds { result ≡ place_of finished.now part }
{
    find(finished, part).map_or(Place::default(), |held| held.place)
}

fn is_finished(finished: &[Held], part: usize) -> bool
    ensures decides { Decides result (Among finished.now part) }
{
    find(finished, part).is_some()
}

// Whether both right-hand parts of a join are finished.
fn has_both(finished: &[Held], join: Join) -> bool
    ensures decides { Decides result (Among finished.now join.left × Among finished.now join.right) }
{
    is_finished(finished, join.left) && is_finished(finished, join.right)
}

// Whether all right-hand parts of a part are finished.
fn has_right_hand(joins: &[Join], finished: &[Held], part: usize) -> bool
    ensures decides { Decides result ((j : Join) → Has joins.now j → j.whole ≡ part → Among finished.now j.left × Among finished.now j.right) }
{
    joins
        .iter()
        .all(|join| join.whole != part || has_both(finished, *join))
}

// Whether a part is not finished, and all its right-hand parts are.
fn is_open(joins: &[Join], finished: &[Held], part: usize) -> bool
    ensures decides { Decides result (Open joins.now finished.now part) }
{
    !is_finished(finished, part) && has_right_hand(joins, finished, part)
}

// The lowest-numbered part that is not finished and whose right-hand parts are.
pub fn next(parts: usize, joins: &[Join], finished: &[Held]) -> Option<usize>
    ensures finds { MatchOption result ((p : ℕ) → p < parts → Open joins.now finished.now p → ⊥)
        (λ p. (p < parts) × Open joins.now finished.now p × ((q : ℕ) → q < p → Open joins.now finished.now q → ⊥)) }
{
    (0..parts).find(|part| is_open(joins, finished, *part))
}
