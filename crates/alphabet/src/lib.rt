// Alphabets. A letter is a number below the alphabet's count, and a label stands for a set of letters.
#![tactic(auto)]

ghost use Rattle.std.specs.Prelude.{◌≡◌, ℕ};
ghost use Rattle.alphabet.specs.Labels.{Labels, Lawful, Ranged};

pub mod modem;
pub mod text;

// What every alphabet has: no more than running and combining automata needs.
pub trait Alphabet {
    type Label: Copy;

    ghost labels: { Labels Self.Label };

    // The label of all letters.
    fn full() -> Self::Label
        ensures is_full { result ≡ labels.full };

    fn admits(label: &Self::Label, letter: u32) -> bool
        ensures in_set { result ≡ labels.admits label.now letter };

    // The label of the letters that both admit.
    fn meet(a: &Self::Label, b: &Self::Label) -> Self::Label
        ensures is_meet { result ≡ labels.meet a.now b.now };

    // The smallest letter that the label admits.
    fn first(label: &Self::Label) -> Option<u32>
        ensures is_first { result ≡ labels.first label.now };

    ghost lawful: { Lawful labels };
}

// An alphabet that also makes a label from two letters. Fixed texts need it.
pub trait RangedAlphabet: Alphabet {
    ghost between: { ℕ → ℕ → Self.Label };

    // The label of the letters from lo to hi.
    fn range(lo: u32, hi: u32) -> Self::Label
        ensures is_range { result ≡ between lo hi };

    ghost ranged: { Ranged Self.Alphabet.labels between };
}
