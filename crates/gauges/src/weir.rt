// The weir station: what its logger waits for, the acknowledgement that it may send, and the level that it should.
ghost use Rattle.std.specs.Prelude.{◌≡◌, [], ◌∷◌, Decides};
ghost use Rattle.alphabet.specs.Modem.{modem};
ghost use Rattle.automaton.specs.Automaton.{Accepts};
ghost use Rattle.giver.specs.Told.{Sound};
ghost use Rattle.gauges.specs.Replies.{Awaited, sign_states, sign_arcs, wait_states, wait_arcs};

use crate::rows::state;
use alphabet::modem::{Modem, ModemLabel};
use alphabet::{Alphabet, RangedAlphabet};
use automaton::{Arc, State};
use giver::Giver;
use giver::accepts::accepts;
use giver::fixed::FixedText;
use giver::table::Table;

pub const LEVEL: [u32; 4] = [52, 46, 50, 49];

// Nothing, or the letter '#'.
pub fn sign_states() -> [State; 2]
    ensures rows { result ≡ sign_states }
{
    [state(true, true), state(false, true)]
}

pub fn sign_arcs() -> [Arc<ModemLabel>; 1]
    ensures rows { result ≡ sign_arcs }
{
    [Arc {
        from: 0,
        label: Modem::range(35, 35),
        to: 1,
    }]
}

pub fn wait_states() -> [State; 2]
    ensures rows { result ≡ wait_states }
{
    [state(true, false), state(false, true)]
}

pub fn wait_arcs() -> [Arc<ModemLabel>; 2]
    ensures rows { result ≡ wait_arcs }
{
    let digit = Arc {
        from: 0,
        label: Modem::range(48, 57),
        to: 1,
    };
    let anything = Arc {
        from: 1,
        label: Modem::full(),
        to: 1,
    };
    [digit, anything]
}

// Whether the automaton accepts the word; false where it is refused.
pub fn takes<G: Giver<Modem>>(giver: &G, word: &[u32]) -> bool
    ensures decides { Sound (G.Giver.automaton giver.now) → Decides result (Accepts modem.admits (G.Giver.automaton giver.now) word.now) }
{
    accepts::<Modem, G>(giver, word).unwrap_or(false)
}

// The wait: a digit, then anything.
pub fn awaits(reply: &[u32]) -> bool
    ensures decides { Decides result (Awaited reply.now) }
{
    let wait: Table<'_, Modem> = Table {
        states: &wait_states(),
        arcs: &wait_arcs(),
    };
    takes(&wait, reply)
}

// Whether the reply is the text "4.21".
pub fn is_level(reply: &[u32]) -> bool
    ensures decides { Decides result (reply.now ≡ 52 ∷ 46 ∷ 50 ∷ 49 ∷ []) }
{
    takes(&FixedText::new::<Modem>(&LEVEL), reply)
}
