// A giver of a fixed text: it accepts that one word.
ghost use Rattle.std.specs.Prelude.{◌≡◌};
ghost use Rattle.giver.specs.Fixed.{chain, AcceptsJust};

use crate::{Giver, no_arc};
use alphabet::RangedAlphabet;
use automaton::{Arc, Marks};

#[derive(Drop)]
pub struct FixedText<'a> {
    pub letters: &'a [u32],
}

impl<'a> FixedText<'a> {
    // The giver of a text, over any ranged alphabet A.
    pub fn new<A: RangedAlphabet>(letters: &'a [u32]) -> FixedText<'a>
        ensures holds { result.letters.now ≡ letters.now }
        ensures accepts_just { AcceptsJust A.Alphabet.labels A.RangedAlphabet.between letters.now }
    {
        FixedText { letters }
    }
}

impl<'a, A: RangedAlphabet> Giver<A> for FixedText<'a> {
    ghost automaton = { λ t. chain A.RangedAlphabet.between t.letters.now };

    #[tactic(auto, using(crate::proofs::Chain::chain_marks_length))]
    fn state_count(&self) -> usize {
        self.letters.len() + 1
    }

    #[tactic(auto, using(crate::proofs::Chain::chain_arcs_length))]
    fn arc_count(&self) -> usize {
        self.letters.len()
    }

    #[tactic(auto, using(crate::proofs::Chain::chain_marks_at))]
    fn marks(&self, state: usize) -> Marks {
        Marks {
            initial: state == 0,
            accepting: state == self.letters.len(),
        }
    }

    #[tactic(auto, using(crate::proofs::Chain::chain_arc_at, crate::proofs::Chain::chain_arc_past))]
    fn arc(&self, k: usize) -> Arc<A::Label> {
        // two arms, as in `Table`
        match self.letters.get(k) {
            Some(letter) => Arc {
                from: k,
                label: A::range(*letter, *letter),
                to: k + 1,
            },
            None => no_arc::<A>(),
        }
    }
}
