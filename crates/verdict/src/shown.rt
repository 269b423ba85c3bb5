// A table and a verdict in words.
ghost use Rattle.std.specs.Prelude.{Some};
ghost use Rattle.verdict.specs.Shown.{table_name, in_words};

use crate::{Table, Verdict};
use std::fmt;
use std::fmt::Write;

impl fmt::Display for Table {
    ghost output = { λ table. Some (table_name table) };

    fn fmt<W: fmt::Write>(&self, f: &mut fmt::Formatter<W>) -> fmt::Result {
        match self {
            Table::States => f.write_str("states"),
            Table::Arcs => f.write_str("arcs"),
            Table::Words => f.write_str("words"),
        }
    }
}

impl fmt::Display for Verdict {
    ghost output = { λ verdict. Some (in_words verdict) };

    fn fmt<W: fmt::Write>(&self, f: &mut fmt::Formatter<W>) -> fmt::Result {
        match *self {
            Verdict::OutOfRoom { table, part } => {
                write!(f, "out of room for {table} at part {part}")
            }
            Verdict::Impossible { part } => write!(f, "impossible at part {part}"),
            Verdict::Unknown => f.write_str("unknown"),
            Verdict::Possible => f.write_str("possible"),
        }
    }
}
