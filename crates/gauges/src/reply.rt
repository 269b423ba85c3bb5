// The weir's reply as a join: an optional acknowledgement and then the level, met with the wait.
use crate::rows::ROWS;
use crate::weir::{self, sign_arcs, sign_states, takes, wait_arcs, wait_states};
use alphabet::modem::{Modem, ModemLabel};
use automaton::{Arc, State};
use build::concat::concat;
use build::product::product;
use build::{Operands, Place, Rows, Stop};
use giver::fixed::FixedText;
use giver::table::Table;
use giver::{Giver, no_arc};
use std::array;

// The rows of the acknowledgement, the level and the wait: numbers, so that the place of the next can be seen.
const SIGN: Place = Place {
    first: Rows { states: 0, arcs: 0 },
    count: Rows { states: 2, arcs: 1 },
};

const LEVEL: Place = Place {
    first: Rows { states: 2, arcs: 1 },
    count: Rows { states: 5, arcs: 4 },
};

const WAIT: Place = Place {
    first: Rows { states: 7, arcs: 5 },
    count: Rows { states: 2, arcs: 2 },
};

// Behind the rows of the three lie the join of the first two, and what that is when it is met with the wait.
#[derive(Drop)]
pub struct Replies {
    states: [State; ROWS],
    arcs: [Arc<ModemLabel>; ROWS],
    pub joined: Place,
    pub met: Place,
}

// The rows of the level, as its giver tells them. States and arcs apart, here and below: they have other types and counts.
fn level_states() -> [State; 5] {
    let level = FixedText::new::<Modem>(&weir::LEVEL);
    array::from_fn(|q| State::from(Giver::<Modem>::marks(&level, q)))
}

fn level_arcs() -> [Arc<ModemLabel>; 4] {
    let level = FixedText::new::<Modem>(&weir::LEVEL);
    array::from_fn(|k| Giver::<Modem>::arc(&level, k))
}

fn states() -> [State; ROWS] {
    let mut states = [State::default(); ROWS];
    states[0..2].copy_from_slice(&sign_states());
    states[2..7].copy_from_slice(&level_states());
    states[7..9].copy_from_slice(&wait_states());
    states
}

fn arcs() -> [Arc<ModemLabel>; ROWS] {
    let mut arcs = [no_arc::<Modem>(); ROWS];
    arcs[0..1].copy_from_slice(&sign_arcs());
    arcs[1..5].copy_from_slice(&level_arcs());
    arcs[5..7].copy_from_slice(&wait_arcs());
    arcs
}

impl Replies {
    pub fn new() -> Result<Replies, Stop> {
        let mut states = states();
        let mut arcs = arcs();
        let join = Operands {
            used: WAIT.end(),
            left: SIGN,
            right: LEVEL,
        };
        let joined = concat::<Modem>(&mut states, &mut arcs, join)?;
        let meet = Operands {
            used: joined.end(),
            left: WAIT,
            right: joined,
        };
        let met = product::<Modem>(&mut states, &mut arcs, meet)?;
        Ok(Replies {
            states,
            arcs,
            joined,
            met,
        })
    }

    // The automaton at a place, if its rows can be read.
    fn automaton(&self, place: Place) -> Option<Table<'_, Modem>> {
        let end = place.end();
        Some(Table {
            states: self.states.get(place.first.states..end.states)?,
            arcs: self.arcs.get(place.first.arcs..end.arcs)?,
        })
    }

    // Whether the automaton at a place accepts a word; false where it cannot be read.
    pub fn accepts(&self, place: Place, word: &[u32]) -> bool {
        self.automaton(place)
            .is_some_and(|automaton| takes(&automaton, word))
    }
}
