// The joins between the parts of a sheet.
ghost use Rattle.std.specs.Prelude.{◌≤◌, length};
ghost use Rattle.sheet.specs.Joins.{Acyclic, Known};

use sheet::Join;

// Joins without a circle between so many parts. 64 is `MAX_PARTS` and `MAX_JOINS`: a contract writes a limit as a number.
#[derive(Drop)]
pub struct Plan<'a> {
    pub joins: &'a [Join],
    pub parts: usize,
    ghost few_parts: { parts ≤ 64 },
    ghost few_joins: { length joins.now ≤ 64 },
    ghost known: { Known parts joins.now },
    ghost acyclic: { Acyclic joins.now },
}
