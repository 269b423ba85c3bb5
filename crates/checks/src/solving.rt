// What solving answers on small sheets, and what it writes to the report and to the words.
use crate::rows::{arc, state};
use alphabet::RangedAlphabet;
use alphabet::text::{Text, TextLabel};
use automaton::{Arc, State};
use build::{Place, Rows};
use giver::fixed::FixedText;
use giver::no_arc;
use giver::table::Table;
use sheet::{Join, Refusal, Sheet};
use solve::{Row, Span, solve};
use std::process::Abort;
use std::test::*;
use verdict::{Solved, Table as Full, Verdict};

const ROWS: usize = 40;

const PARTS: usize = 4;

const LETTERS: usize = 8;

// What stands in the report and the words before a sheet is solved.
const MARK: usize = 77;

const LETTER: u32 = 77;

const MARKED_ROWS: Rows = Rows {
    states: MARK,
    arcs: MARK,
};

const MARKED: Row = Row {
    automaton: Place {
        first: MARKED_ROWS,
        count: MARKED_ROWS,
    },
    word: Span {
        first: MARK,
        len: MARK,
    },
};

// How many rows and letters of the tables are lent. Four names and no array: a test changes one of them.
#[derive(Clone, Copy, Debug, PartialEq, Eq)]
struct Lent {
    states: usize,
    arcs: usize,
    report: usize,
    words: usize,
}

const ALL: Lent = Lent {
    states: ROWS,
    arcs: ROWS,
    report: PARTS,
    words: LETTERS,
};

// A sheet, and the tables for its calls. As in `gauges`: a program and a crate of tests share no module.
#[derive(Drop)]
struct Desk {
    sheet: Sheet,
    states: [State; ROWS],
    arcs: [Arc<TextLabel>; ROWS],
    report: [Row; PARTS],
    words: [u32; LETTERS],
}

impl Desk {
    // A sheet of so many parts, with tables of its own.
    fn new(parts: usize) -> Desk {
        let mut sheet = Sheet::new();
        for _ in 0..parts {
            // `let _`: no test here has more parts than a sheet has room for.
            let _ = sheet.part();
        }
        Desk {
            sheet,
            states: [State::default(); ROWS],
            arcs: [no_arc::<Text>(); ROWS],
            report: [MARKED; PARTS],
            words: [LETTER; LETTERS],
        }
    }

    // Not one generic function with `table`: a test would have to make the fixed text.
    fn text(&mut self, rt: &impl Abort, part: usize, letters: &[u32]) {
        let text = FixedText::new::<Text>(letters);
        let answer = self
            .sheet
            .pattern::<Text, FixedText<'_>>(&mut self.states, &mut self.arcs, part, &text);
        assert!(rt; answer.is_ok());
    }

    fn table(&mut self, rt: &impl Abort, part: usize, table: &Table<'_, Text>) {
        let answer = self
            .sheet
            .pattern::<Text, Table<'_, Text>>(&mut self.states, &mut self.arcs, part, table);
        assert!(rt; answer.is_ok());
    }

    // Three numbers, in the order of x = y + z.
    fn join(&mut self, rt: &impl Abort, whole: usize, left: usize, right: usize) {
        assert!(rt; self.sheet.join(Join { whole, left, right }).is_ok());
    }

    fn solve(&mut self, lent: Lent) -> Result<Solved, Refusal> {
        let states = &mut self.states[..];
        let arcs = &mut self.arcs[..];
        let report = &mut self.report[..];
        let words = &mut self.words[..];
        solve::<Text>(
            &self.sheet,
            &mut states[..lent.states.min(ROWS)],
            &mut arcs[..lent.arcs.min(ROWS)],
            &mut report[..lent.report.min(PARTS)],
            &mut words[..lent.words.min(LETTERS)],
        )
    }

    // The number of the refusal, since the numbers are promised, and 0 where there is none.
    fn refusal(&mut self, lent: Lent) -> u32 {
        self.solve(lent).err().map_or(0, Refusal::number)
    }

    // Whether the word of the part stands from there on and has these letters.
    fn has_word(&self, part: usize, first: usize, letters: &[u32]) -> bool {
        let word = Span {
            first,
            len: letters.len(),
        };
        self.report.get(part).is_some_and(|row| row.word == word)
            && self
                .words
                .get(first..)
                .is_some_and(|words| words.starts_with(letters))
    }

    // Whether the rows of the report from there on are as they were; rows and letters are of other types.
    fn report_stays_from(&self, part: usize) -> bool {
        self.report.iter().skip(part).all(|row| *row == MARKED)
    }

    // Whether the letters from there on are as they were.
    fn words_stay_from(&self, place: usize) -> bool {
        self.words
            .iter()
            .skip(place)
            .all(|letter| *letter == LETTER)
    }

    fn stays(&self) -> bool {
        self.report_stays_from(0) && self.words_stay_from(0)
    }
}

// The answer with this verdict, after builds of so many states and arcs in all.
fn solved(verdict: Verdict, states: usize, arcs: usize) -> Result<Solved, Refusal> {
    let totals = Rows { states, arcs };
    Ok(Solved { verdict, totals })
}

const POSSIBLE: Verdict = Verdict::Possible;

const UNKNOWN: Verdict = Verdict::Unknown;

fn impossible(part: usize) -> Verdict {
    Verdict::Impossible { part }
}

fn full(table: Full, part: usize) -> Verdict {
    Verdict::OutOfRoom { table, part }
}

// All words have 1 state and 1 arc, and met with "A" 2 and 1. That met with "B" has 1 state, which does not accept.
#[test]
fn a_part_alone(rt: HostRuntime) {
    assert_eq!(rt; Desk::new(0).solve(ALL), solved(POSSIBLE, 0, 0));
    let mut desk = Desk::new(1);
    assert_eq!(rt; desk.solve(ALL), solved(POSSIBLE, 1, 1));
    assert!(rt; desk.has_word(0, 0, &[]));
    desk.text(&rt, 0, &[65]);
    assert_eq!(rt; desk.solve(ALL), solved(POSSIBLE, 3, 2));
    assert!(rt; desk.has_word(0, 0, &[65]));
    desk.text(&rt, 0, &[66]);
    assert_eq!(rt; desk.solve(ALL), solved(impossible(0), 4, 2));
}

// What the sheet of `seven` needs: it holds 5 states and 2 arcs, and its root has a final result of 3 states.
const ENOUGH: Lent = Lent {
    states: 19,
    arcs: 9,
    report: 3,
    words: 2,
};

// Nothing and then "7" is "7".
fn seven(rt: &impl Abort) -> Desk {
    let mut desk = Desk::new(3);
    desk.text(rt, 0, &[]);
    desk.text(rt, 1, &[55]);
    desk.text(rt, 2, &[55]);
    desk.join(rt, 2, 0, 1);
    desk
}

// Part 0 takes 1 state and 1 arc, then 1 and 0; part 1 takes 1 and 1, then 2 and 1; part 2 takes 1 and 1, then 2 and 1,
// then 3 and 1 for the concatenation and as many for the product with it.
#[test]
fn the_empty_text_then_seven(rt: HostRuntime) {
    let mut desk = seven(&rt);
    assert_eq!(rt; desk.solve(ENOUGH), solved(POSSIBLE, 14, 7));
    assert!(rt; desk.has_word(0, 0, &[]));
    assert!(rt; desk.has_word(1, 0, &[55]));
    assert!(rt; desk.has_word(2, 0, &[55]));
    assert!(rt; desk.report_stays_from(3));
    assert!(rt; desk.words_stay_from(1));
}

#[test]
fn a_row_or_a_letter_is_missing(rt: HostRuntime) {
    let mut desk = seven(&rt);
    let states = Lent {
        states: 18,
        ..ENOUGH
    };
    assert_eq!(rt; desk.solve(states), solved(full(Full::States, 2), 11, 6));
    let both = Lent { arcs: 8, ..states };
    assert_eq!(rt; desk.solve(both), solved(full(Full::States, 2), 11, 6));
    let arcs = Lent { arcs: 8, ..ENOUGH };
    assert_eq!(rt; desk.solve(arcs), solved(full(Full::Arcs, 2), 11, 6));
    let words = Lent { words: 1, ..ENOUGH };
    assert_eq!(rt; desk.solve(words), solved(full(Full::Words, 2), 14, 7));
    assert!(rt; desk.stays());
}

// Part 0 is "AB" and part 1 twice.
fn twice(rt: &impl Abort) -> Desk {
    let mut desk = Desk::new(2);
    desk.text(rt, 0, &[65, 66]);
    desk.join(rt, 0, 1, 1);
    desk
}

// Part 1 takes 1 state and 1 arc, then 2 and 1; part 0 takes 1 and 1, then 3 and 2, then 4 and 3 for the concatenation.
// The last product has the pairs (0, 0), (1, 1) and (1, 2) with 2 arcs, and where part 1 may be "B" (2, 3) with 1 more.
#[test]
fn a_part_used_twice(rt: HostRuntime) {
    let mut desk = twice(&rt);
    let a_or_b: Table<'_, Text> = Table {
        states: &[state(true, false), state(false, true)],
        arcs: &[arc(0, Text::range(65, 66), 1)],
    };
    desk.table(&rt, 1, &a_or_b);
    assert_eq!(rt; desk.solve(ALL), solved(UNKNOWN, 15, 11));
    assert!(rt; desk.has_word(0, 0, &[]));
    assert!(rt; desk.has_word(1, 0, &[]));
    assert!(rt; desk.report_stays_from(2));
    assert!(rt; desk.words_stay_from(0));
    let mut desk = twice(&rt);
    desk.text(&rt, 1, &[65]);
    assert_eq!(rt; desk.solve(ALL), solved(impossible(0), 14, 10));
    assert!(rt; desk.stays());
}

// Each of the three parts takes 1 state and 1 arc. Each concatenation has 2 and 3, and so has the first product; in the
// second all 4 pairs are initial, and all 9 pairs of arcs meet.
#[test]
fn a_join_held_twice(rt: HostRuntime) {
    let mut desk = Desk::new(3);
    desk.join(&rt, 0, 1, 2);
    desk.join(&rt, 0, 1, 2);
    assert_eq!(rt; desk.solve(ALL), solved(UNKNOWN, 13, 21));
}

// Part 1 takes 1 state and 1 arc, then 3 and 2; part 2 takes 1 and 1, then 2 and 1; part 0 takes 1 and 1, then 4 and 3,
// then 5 and 5 for the concatenation. The last product has the pairs (0, 0), (1, 1), (1, 3), (2, 2), (2, 3) and (3, 4),
// and an arc to each but the first.
#[test]
fn the_first_beginning_leaves_too_much(rt: HostRuntime) {
    let mut desk = Desk::new(3);
    let a_or_ab: Table<'_, Text> = Table {
        states: &[state(true, false), state(false, true), state(false, true)],
        arcs: &[
            arc(0, Text::range(97, 97), 1),
            arc(1, Text::range(98, 98), 2),
        ],
    };
    desk.table(&rt, 1, &a_or_ab);
    desk.text(&rt, 2, &[99]);
    desk.text(&rt, 0, &[97, 98, 99]);
    desk.join(&rt, 0, 1, 2);
    assert_eq!(rt; desk.solve(ALL), solved(POSSIBLE, 23, 19));
    assert!(rt; desk.has_word(0, 0, &[97, 98, 99]));
    assert!(rt; desk.has_word(1, 0, &[97, 98]));
    assert!(rt; desk.has_word(2, 2, &[99]));
}

// The final results have 3 and 2 states, so the words may have 2 letters and 1.
#[test]
fn two_roots(rt: HostRuntime) {
    let mut desk = Desk::new(2);
    desk.text(&rt, 0, &[65, 66]);
    desk.text(&rt, 1, &[67]);
    assert_eq!(rt;
        desk.solve(Lent { words: 1, ..ALL }),
        solved(full(Full::Words, 0), 7, 5)
    );
    assert_eq!(rt;
        desk.solve(Lent { words: 2, ..ALL }),
        solved(full(Full::Words, 1), 7, 5)
    );
    assert!(rt; desk.stays());
    assert_eq!(rt;
        desk.solve(Lent { words: 3, ..ALL }),
        solved(POSSIBLE, 7, 5)
    );
    assert!(rt; desk.has_word(0, 0, &[65, 66]));
    assert!(rt; desk.has_word(1, 2, &[67]));
    assert!(rt; desk.report_stays_from(2));
    assert!(rt; desk.words_stay_from(3));
}

// Lost rows are looked at before the report.
#[test]
fn refusals(rt: HostRuntime) {
    let mut desk = Desk::new(2);
    desk.text(&rt, 0, &[65]);
    let report = Lent { report: 1, ..ALL };
    assert_eq!(rt; desk.refusal(report), 8);
    assert_eq!(rt; desk.refusal(Lent { states: 1, ..ALL }), 5);
    assert_eq!(rt; desk.refusal(Lent { arcs: 0, ..ALL }), 5);
    assert_eq!(rt;
        desk.refusal(Lent {
            states: 1,
            ..report
        }),
        5
    );
    assert!(rt; desk.stays());
    // the held arc leads outside
    desk.arcs[0].to = 2;
    assert_eq!(rt; desk.refusal(report), 5);
}
