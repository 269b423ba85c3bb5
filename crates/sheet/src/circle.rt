// Whether a join would close a circle.
ghost use Rattle.std.specs.Prelude.{◌<◌, Decides};
ghost use Rattle.sheet.specs.Joins.{Known, Closes};

use crate::Join;
use crate::marking::{PartSet, unsettled};

// Whether the whole of the join is at or below its left or its right part.
// A part goes in by a call of its own: one call for both would be a public function more, and no plainer.
// 64 is `MAX_PARTS`: a contract writes a limit as a number.
pub fn closes(joins: &[Join], join: Join) -> bool
    requires known { Known 64 joins.now }
    requires left_known { join.left < 64 }
    requires right_known { join.right < 64 }
    ensures decides { Decides result (Closes joins.now join.left join.right join.whole) }
{
    let mut below = PartSet::new();
    below.insert(join.left);
    below.insert(join.right);
    while let Some(next) = unsettled(joins, &below) {
        below.insert(next.left);
        below.insert(next.right);
    }
    below.contains(join.whole)
}
