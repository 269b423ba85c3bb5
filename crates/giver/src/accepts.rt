// Whether a giver's automaton accepts a word, by running it along the word.
ghost use Rattle.std.specs.Prelude.{[], Decides};
ghost use Rattle.automaton.specs.Automaton.{Accepts, Inside};
ghost use Rattle.giver.specs.Run.{Reached, Stepped, SomeAccepts};
ghost use Rattle.giver.specs.Told.{Sound, Checked};

use crate::{Giver, Refusal};
use alphabet::Alphabet;

pub const MAX_STATES: usize = 256;

pub const MAX_ARCS: usize = 4096;

// A set of states: a mark for each, since there is no heap. No type as `PartSet` of `sheet`: it needs no methods.
type StateSet = [bool; MAX_STATES];

// `build` asks the same of rows. Here there are none: a giver tells an arc by its number.
fn leads_inside<A: Alphabet, G: Giver<A>>(giver: &G) -> bool
    ensures decides { Decides result (Inside (G.Giver.automaton giver.now)) }
{
    let states = giver.state_count();
    (0..giver.arc_count()).all(|k| {
        let arc = giver.arc(k);
        arc.from < states && arc.to < states
    })
}

// Refuses an automaton that is too large, and then one with an arc outside.
pub fn check<A: Alphabet, G: Giver<A>>(giver: &G) -> Result<(), Refusal>
    ensures checked { Checked (G.Giver.automaton giver.now) (λ _. Unit {0}) result }
{
    if giver.state_count() > MAX_STATES || giver.arc_count() > MAX_ARCS {
        return Err(Refusal::TooLarge);
    }
    if !leads_inside(giver) {
        return Err(Refusal::ArcOutside);
    }
    Ok(())
}

fn start<A: Alphabet, G: Giver<A>>(giver: &G) -> StateSet
    requires { Sound (G.Giver.automaton giver.now) }
    ensures reaches { Reached A.Alphabet.labels.admits (G.Giver.automaton giver.now) [] result }
{
    // a loop: a closure over all 256 marks would ask each automaton for 256 states
    let mut set = [false; MAX_STATES];
    for q in 0..giver.state_count() {
        set[q] = giver.marks(q).initial;
    }
    set
}

fn step<A: Alphabet, G: Giver<A>>(giver: &G, before: &StateSet, letter: u32) -> StateSet
    requires { Sound (G.Giver.automaton giver.now) }
    ensures steps { Stepped A.Alphabet.labels.admits (G.Giver.automaton giver.now) letter before.now result }
{
    let mut after = [false; MAX_STATES];
    // A giver tells an arc by its number.
    for k in 0..giver.arc_count() {
        let arc = giver.arc(k);
        if before[arc.from] && A::admits(&arc.label, letter) {
            after[arc.to] = true;
        }
    }
    after
}

fn some_accepts<A: Alphabet, G: Giver<A>>(giver: &G, set: &StateSet) -> bool
    ensures decides { Decides result (SomeAccepts (G.Giver.automaton giver.now) set.now) }
{
    set.iter()
        .take(giver.state_count())
        .enumerate()
        .any(|(q, reached)| *reached && giver.marks(q).accepting)
}

// Whether the automaton accepts the word.
#[tactic(auto, using(crate::proofs::Running::reached_accepts))]
pub fn accepts<A: Alphabet, G: Giver<A>>(giver: &G, word: &[u32]) -> Result<bool, Refusal>
    ensures decides_acceptance { Checked (G.Giver.automaton giver.now)
        (λ b. Decides b (Accepts A.Alphabet.labels.admits (G.Giver.automaton giver.now) word.now)) result }
{
    check(giver)?;
    let mut set = start(giver);
    for letter in word {
        set = step(giver, &set, *letter);
    }
    Ok(some_accepts(giver, &set))
}
