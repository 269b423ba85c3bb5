// The modem alphabet: 128 letters, a label is a mark for each letter.
ghost use Rattle.alphabet.specs.Modem.{modem, marks_from_to};
ghost use Rattle.alphabet.specs.Marking;

use crate::{Alphabet, RangedAlphabet};
use std::array;

pub const LETTERS: usize = 128;

pub struct Modem;

#[derive(Clone, Copy, Debug, PartialEq, Eq)]
pub struct ModemLabel {
    pub marks: [bool; LETTERS],
}

impl Alphabet for Modem {
    type Label = ModemLabel;

    ghost labels = { modem };

    ghost lawful = { Marking.lawful };

    fn full() -> ModemLabel {
        ModemLabel {
            marks: [true; LETTERS],
        }
    }

    fn admits(label: &ModemLabel, letter: u32) -> bool {
        label.marks.get(letter as usize).copied().unwrap_or(false)
    }

    fn meet(a: &ModemLabel, b: &ModemLabel) -> ModemLabel {
        ModemLabel {
            marks: array::from_fn(|c| a.marks[c] & b.marks[c]),
        }
    }

    fn first(label: &ModemLabel) -> Option<u32> {
        label.marks.iter().position(|mark| *mark).map(|c| c as u32)
    }
}

impl RangedAlphabet for Modem {
    ghost between = { marks_from_to };

    ghost ranged = { Marking.ranged };

    fn range(lo: u32, hi: u32) -> ModemLabel {
        ModemLabel {
            marks: array::from_fn(|c| (lo as usize <= c) & (c <= hi as usize)),
        }
    }
}
