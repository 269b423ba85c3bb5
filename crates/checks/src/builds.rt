// Builds of small automata that lie in one pair of tables: all words, "A" and "B"; the empty text and "7".
ghost use Rattle.std.specs.Prelude.{◌≤◌};

use crate::rows::{arc, state};
use alphabet::text::{Text, TextLabel};
use alphabet::{Alphabet, RangedAlphabet};
use automaton::{Arc, State};
use build::all_words::all_words;
use build::concat::concat;
use build::product::product;
use build::{Operands, Place, Rows, Stop};
use giver::accepts::accepts;
use giver::no_arc;
use giver::table::Table;
use std::test::Fail;

const USED: Rows = Rows { states: 5, arcs: 3 };

// Places are written out: each test shows the rows that it reads.
const ALL_WORDS: Place = Place {
    first: Rows { states: 0, arcs: 0 },
    count: Rows { states: 1, arcs: 1 },
};

const A: Place = Place {
    first: Rows { states: 1, arcs: 1 },
    count: Rows { states: 2, arcs: 1 },
};

const B: Place = Place {
    first: Rows { states: 3, arcs: 2 },
    count: Rows { states: 2, arcs: 1 },
};

fn states() -> [State; 8] {
    let begin = state(true, false);
    let end = state(false, true);
    let spare = State::default();
    [
        state(true, true),
        begin,
        end,
        begin,
        end,
        spare,
        spare,
        spare,
    ]
}

fn arcs() -> [Arc<TextLabel>; 6] {
    let spare = no_arc::<Text>();
    [
        arc(0, Text::full(), 0),
        arc(0, Text::range(65, 65), 1),
        arc(0, Text::range(66, 66), 1),
        spare,
        spare,
        spare,
    ]
}

fn meet(
    states: &mut [State],
    arcs: &mut [Arc<TextLabel>],
    left: Place,
    right: Place,
) -> Result<Place, Stop> {
    product::<Text>(
        states,
        arcs,
        Operands {
            used: USED,
            left,
            right,
        },
    )
}

// The place of so many rows right behind those in use.
fn built(states: usize, arcs: usize) -> Place {
    Place {
        first: USED,
        count: Rows { states, arcs },
    }
}

#[test]
fn all_words_and_a(rt: HostRuntime) {
    let mut states = states();
    let mut arcs = arcs();
    assert_eq!(rt; meet(&mut states, &mut arcs, ALL_WORDS, A), Ok(built(2, 1)));
    let built: Table<'_, Text> = Table {
        states: &states[5..7],
        arcs: &arcs[3..4],
    };
    assert_eq!(rt; accepts(&built, &[65]), Ok(true));
    assert_eq!(rt; accepts(&built, &[]), Ok(false));
    assert_eq!(rt; accepts(&built, &[66]), Ok(false));
    assert_eq!(rt; accepts(&built, &[65, 65]), Ok(false));
}

#[test]
fn no_word_is_a_and_b(rt: HostRuntime) {
    assert_eq!(rt; meet(&mut states(), &mut arcs(), A, B), Ok(built(1, 0)));
}

// All words and "A", in n state rows and m arc rows.
fn meet_in(n: usize, m: usize) -> Result<Place, Stop>
    requires { (n ≤ 8) × (m ≤ 6) }
{
    let mut states = states();
    let mut arcs = arcs();
    meet(&mut states[0..n], &mut arcs[0..m], ALL_WORDS, A)
}

#[test]
fn rows_run_out(rt: HostRuntime) {
    assert_eq!(rt; meet_in(7, 4), Ok(built(2, 1)));
    assert_eq!(rt; meet_in(6, 3), Err(Stop::StatesFull));
    assert_eq!(rt; meet_in(7, 3), Err(Stop::ArcsFull));
    assert_eq!(rt; meet_in(4, 6), Err(Stop::Outside));
    assert_eq!(rt; meet_in(8, 2), Err(Stop::Outside));
}

#[test]
fn operands_outside_are_refused(rt: HostRuntime) {
    let mut states = states();
    let mut arcs = arcs();
    let past = Place {
        first: Rows { states: 4, arcs: 2 },
        count: Rows { states: 2, arcs: 1 },
    };
    assert_eq!(rt; meet(&mut states, &mut arcs, A, past), Err(Stop::Outside));
    arcs[2].to = 2;
    assert_eq!(rt; meet(&mut states, &mut arcs, A, B), Err(Stop::Outside));
    assert_eq!(rt; meet(&mut states, &mut arcs, ALL_WORDS, A), Ok(built(2, 1)));
}

#[test]
fn the_empty_text_then_seven_met_with_seven(rt: HostRuntime) -> Result<(), Fail> {
    let mut states = [State::default(); 12];
    states[0] = state(true, true);
    states[1] = state(true, false);
    states[2] = state(false, true);
    let mut arcs = [arc(0, Text::range(55, 55), 1); 6];
    let seven = Place {
        first: Rows { states: 1, arcs: 0 },
        count: Rows { states: 2, arcs: 1 },
    };
    let join = Operands {
        used: Rows { states: 3, arcs: 1 },
        left: Place {
            first: Rows { states: 0, arcs: 0 },
            count: Rows { states: 1, arcs: 0 },
        },
        right: seven,
    };
    // `let else`: `map_err` would let the `Stop` go as well.
    let Ok(joined) = concat::<Text>(&mut states, &mut arcs, join) else {
        return Err(Fail::new("no join"));
    };
    assert_eq!(rt; joined.count, Rows { states: 3, arcs: 1 });
    let meet = Operands {
        used: Rows { states: 6, arcs: 2 },
        left: joined,
        right: seven,
    };
    let Ok(met) = product::<Text>(&mut states, &mut arcs, meet) else {
        return Err(Fail::new("no product"));
    };
    assert_eq!(rt; met.count, Rows { states: 3, arcs: 1 });
    Ok(())
}

#[test]
fn all_words_take_one_row_of_each(rt: HostRuntime) -> Result<(), Fail> {
    let mut states = [State::default(); 2];
    let mut arcs = [arc(0, Text::range(66, 65), 9); 1];
    let one = Rows { states: 1, arcs: 0 };
    let Ok(all) = all_words::<Text>(&mut states, &mut arcs, one) else {
        return Err(Fail::new("no room"));
    };
    assert_eq!(rt; all.count, Rows { states: 1, arcs: 1 });
    let full = Rows { states: 1, arcs: 1 };
    assert_eq!(rt;
        all_words::<Text>(&mut states, &mut arcs, full),
        Err(Stop::ArcsFull)
    );
    let past = Rows { states: 3, arcs: 0 };
    assert_eq!(rt;
        all_words::<Text>(&mut states, &mut arcs, past),
        Err(Stop::Outside)
    );
    Ok(())
}
