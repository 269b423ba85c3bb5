// The rows of which the stations' automata are made, and tables of them.
ghost use Rattle.std.specs.Prelude.{◌≡◌, ◌-◌, ◌++◌, length, take, replicate, IfOk};

use automaton::{Marks, State};
use std::alloc::{AllocError, Global};

// So many rows has a table in which builds are made.
pub const ROWS: usize = 64;

// As in `checks`: a program and a crate of tests share no module.
pub fn state(initial: bool, accepting: bool) -> State
    ensures marked { result ≡ record { marks = record { initial = initial; accepting = accepting }; left = 0; right = 0 } }
{
    State::from(Marks { initial, accepting })
}

// A table of 64 rows that begins with these; a contract writes the number of a constant.
pub fn table<T: Copy + Drop>(heap: Global, rows: &[T], spare: T) -> Result<Vec<T>, AllocError>
    ensures fills { IfOk result (λ v. v.items ≡ take 64 rows.now ++ replicate (64 - length rows.now) spare) }
{
    let mut table = Vec::new(heap);
    table.extend_from_slice(rows)?;
    table.resize(ROWS, spare)?;
    Ok(table)
}
