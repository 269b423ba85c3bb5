// The uses of the parts on right-hand sides of joins, and the room for the words of the roots.
ghost use Rattle.std.specs.Prelude.{◌≡◌, ◌+◌, ◌<◌, ◌≤◌, Decides, MatchOption};
ghost use Rattle.verdict.specs.Verdicts.{uses as uses_of, SingleUse, Root, roots_below};
ghost use Rattle.solve.specs.Roots.{bound_in};

use crate::parts::place_of;
use crate::plan::Plan;
use sheet::{Held, Join};

// Whether a part is a root: it stands on no right-hand side.
pub fn is_root(joins: &[Join], part: usize) -> bool
    ensures decides { Decides result (Root joins.now part) }
{
    joins
        .iter()
        .all(|join| join.left != part && join.right != part)
}

impl Plan<'_> {
    // How often a part stands on the right-hand sides of joins.
    fn uses(&self, part: usize) -> usize
        ensures counts { result ≡ uses_of self.now.joins.now part }
    {
        self.joins
            .iter()
            .map(|join| usize::from(join.left == part) + usize::from(join.right == part))
            .sum()
    }

    // Whether no part stands more than once on right-hand sides.
    pub fn is_single_use(&self) -> bool
        ensures decides { Decides result (SingleUse self.now.joins.now) }
    {
        (0..self.parts).all(|part| self.uses(part) <= 1)
    }

    // The first root for whose word there is no room, where each root's word may have one letter less than its final
    // result has states.
    pub fn first_without_room(&self, finished: &[Held], words: usize) -> Option<usize>
        ensures finds { MatchOption result (roots_below self.now.joins.now (bound_in finished.now) self.now.parts ≤ words)
            (λ p. (p < self.now.parts) × Root self.now.joins.now p × (roots_below self.now.joins.now (bound_in finished.now) p ≤ words) × (words < roots_below self.now.joins.now (bound_in finished.now) p + bound_in finished.now p)) }
    {
        // a loop: `try_fold` would carry the same sum and end at the same root
        let mut sum = 0;
        for part in 0..self.parts {
            if is_root(self.joins, part) {
                let bound = place_of(finished, part).count.states.saturating_sub(1);
                if bound > words - sum {
                    return Some(part);
                }
                sum += bound;
            }
        }
        None
    }
}
