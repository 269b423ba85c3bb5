// Sets of parts, and the joins that lead out of a set.
ghost use Rattle.std.specs.Prelude.{◌≡◌, List, Bool, true, false, length, replicate, MatchOption, slice_index_or, slice_set};
ghost use Rattle.std.specs.List.{ContainsAt as Has};
ghost use Rattle.sheet.specs.Joins.{Marked, Settled};

use crate::{Join, MAX_PARTS};
use std::marker::Model;

// A set of parts, as a mark for each, since there is no heap.
// Not one type with the set of states in `giver`: that one is private, and has 256 marks.
#[derive(Drop)]
pub struct PartSet {
    marks: [bool; MAX_PARTS],
}

impl Model for PartSet {
    ghost Value = { List Bool };

    ghost view = { λ s. s.marks };

    ghost invariant = { λ s. length s.marks ≡ 64 };
}

impl PartSet {
    // The empty set.
    pub fn new() -> PartSet
        ensures is_empty { result ≡ replicate 64 false }
    {
        PartSet {
            marks: [false; MAX_PARTS],
        }
    }

    // Puts a part into the set. A part past the last is not kept.
    pub fn insert(&mut self, part: usize)
        ensures inserts { self.new ≡ slice_set self.old part true }
    {
        if part < MAX_PARTS {
            self.marks[part] = true;
        }
    }

    pub fn contains(&self, part: usize) -> bool
        ensures tells { result ≡ slice_index_or self.now part false }
    {
        self.marks.get(part).copied().unwrap_or(false)
    }
}

// A join whose whole is in the set and one of whose parts is not.
pub fn unsettled(joins: &[Join], set: &PartSet) -> Option<Join>
    ensures finds { MatchOption result ((j : Join) → Has joins.now j → Settled set.now j)
        (λ j. Has joins.now j × Marked set.now j.whole × (Settled set.now j → ⊥)) }
{
    joins
        .iter()
        .find(|join| {
            set.contains(join.whole) && !(set.contains(join.left) && set.contains(join.right))
        })
        .copied()
}
