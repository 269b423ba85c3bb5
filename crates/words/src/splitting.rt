// A split of a word into one word of an automaton and one of another.
ghost use Rattle.std.specs.Prelude.{ℕ, ◌≤◌, length, take, drop, Decides, MatchOption};
ghost use Rattle.automaton.specs.Automaton.{Accepts};
ghost use Rattle.build.specs.Concats.{InTurn};
ghost use Rattle.build.specs.Tables.{InUse, Stands, at};
ghost use Rattle.words.specs.Splitting.{SplitsAt};
ghost use Rattle.words.specs.Words.{Renumbered};

use crate::membership::accepts;
use alphabet::Alphabet;
use automaton::{Arc, State};
use build::{Place, Rows};

// Whether the left automaton accepts the first i letters of the word and the right one the rest.
fn splits_at<A: Alphabet>(
    states: &mut [State],
    arcs: &[Arc<A::Label>],
    used: Rows,
    left: Place,
    right: Place,
    word: &[u32],
    i: usize,
) -> bool
    requires { i ≤ length word.now }
    ensures decides { Decides result (SplitsAt A.Alphabet.labels.admits states.old arcs.now used left right word.now i) }
    ensures renumbers { (n : ℕ) → n ≤ left.first.states → n ≤ right.first.states → Renumbered n states.old states.new }
{
    let (front, back) = word.split_at(i);
    accepts::<A>(states, arcs, used, left, front) && accepts::<A>(states, arcs, used, right, back)
}

// A place at which the word splits into one that the left automaton accepts and one that the right accepts.
pub fn split<A: Alphabet>(
    states: &mut [State],
    arcs: &[Arc<A::Label>],
    used: Rows,
    left: Place,
    right: Place,
    word: &[u32],
) -> Option<usize>
    ensures finds { MatchOption result
        (InUse states.old arcs.now used → Stands states.old arcs.now used left → Stands states.old arcs.now used right
        → InTurn A.Alphabet.labels.admits (at states.old arcs.now left) (at states.old arcs.now right) word.now → ⊥)
        (λ i. (i ≤ length word.now) × Accepts A.Alphabet.labels.admits (at states.old arcs.now left) (take i word.now)
        × Accepts A.Alphabet.labels.admits (at states.old arcs.now right) (drop i word.now)) }
    ensures renumbers { (n : ℕ) → n ≤ left.first.states → n ≤ right.first.states → Renumbered n states.old states.new }
{
    // a `for`: a proof learns nothing of what a closure passed to `find` writes into the rows
    for i in 0..=word.len() {
        if splits_at::<A>(states, arcs, used, left, right, word, i) {
            return Some(i);
        }
    }
    None
}
