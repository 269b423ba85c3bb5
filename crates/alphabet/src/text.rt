// The text alphabet: 196,608 letters, a label is the two ends of a range.
ghost use Rattle.alphabet.specs.Text.{text, ends};
ghost use Rattle.std.proofs.Common.{rules};

use crate::{Alphabet, RangedAlphabet};

pub const LETTERS: u32 = 196_608;

pub struct Text;

// The letters from lo to hi, both included. Ends past the last letter are allowed.
#[derive(Clone, Copy, Debug, PartialEq, Eq)]
pub struct TextLabel {
    pub lo: u32,
    pub hi: u32,
}

impl Alphabet for Text {
    type Label = TextLabel;

    ghost labels = { text };

    ghost lawful = { Prim.search rules };

    fn full() -> TextLabel {
        TextLabel {
            lo: 0,
            hi: LETTERS - 1,
        }
    }

    fn admits(label: &TextLabel, letter: u32) -> bool {
        letter < LETTERS && (label.lo..=label.hi).contains(&letter)
    }

    fn meet(a: &TextLabel, b: &TextLabel) -> TextLabel {
        TextLabel {
            lo: a.lo.max(b.lo),
            hi: a.hi.min(b.hi),
        }
    }

    fn first(label: &TextLabel) -> Option<u32> {
        (label.lo <= label.hi && label.lo < LETTERS).then_some(label.lo)
    }
}

impl RangedAlphabet for Text {
    ghost between = { ends };

    ghost ranged = { Prim.search rules };

    fn range(lo: u32, hi: u32) -> TextLabel {
        TextLabel { lo, hi }
    }
}
