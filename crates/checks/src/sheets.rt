// What a sheet answers at its limits. The number of an answer is that of its refusal, and 0 where there is none.
ghost use Rattle.std.specs.Prelude.{◌≤◌};

use crate::rows;
use alphabet::Alphabet;
use alphabet::text::{Text, TextLabel};
use automaton::{Arc, State};
use build::Rows;
use giver::table::Table;
use sheet::{Join, Refusal, Sheet};
use std::process::Abort;

fn state() -> State {
    rows::state(true, true)
}

fn arc(from: usize, to: usize) -> Arc<TextLabel> {
    rows::arc(from, Text::full(), to)
}

// By number, since the numbers are promised; 98 and 99 are none of them.
fn number(answer: Result<(), Refusal>) -> u32 {
    answer.err().map_or(0, Refusal::number)
}

// Three numbers, in the order of x = y + z.
fn join(sheet: &mut Sheet, whole: usize, left: usize, right: usize) -> u32 {
    number(sheet.join(Join { whole, left, right }))
}

// The answer to a table as a pattern of the part, for a sheet that keeps its rows in states and arcs.
// Tables of their own and no struct: each test lends other lengths.
fn give(
    sheet: &mut Sheet,
    states: &mut [State],
    arcs: &mut [Arc<TextLabel>],
    part: usize,
    giver: &Table<'_, Text>,
) -> u32 {
    number(sheet.pattern::<Text, Table<'_, Text>>(states, arcs, part, giver))
}

// How many parts, patterns and joins the sheet holds.
fn counts(sheet: &Sheet) -> (usize, usize, usize) {
    let counts = sheet.counts();
    (counts.parts, counts.patterns, counts.joins)
}

fn held(sheet: &Sheet) -> Rows {
    sheet.counts().held
}

// A sheet of four parts, without tables: each test has its own.
fn four() -> Sheet {
    let mut sheet = Sheet::new();
    for _ in 0..4 {
        // `let _`: the parts are 0 to 3, and a sheet has room for 64.
        let _ = sheet.part();
    }
    sheet
}

#[test]
fn parts_run_out_after_64(rt: HostRuntime) {
    let mut sheet = Sheet::new();
    for _ in 0..63 {
        assert!(rt; sheet.part().is_ok());
    }
    assert_eq!(rt; sheet.part(), Ok(63));
    assert_eq!(rt; sheet.part(), Err(Refusal::Full));
    assert_eq!(rt; counts(&sheet), (64, 0, 0));
}

#[test]
fn joins_run_out_after_64(rt: HostRuntime) {
    let mut sheet = four();
    for _ in 0..64 {
        assert_eq!(rt; join(&mut sheet, 0, 1, 2), 0);
    }
    assert_eq!(rt; join(&mut sheet, 0, 1, 2), 2);
    // full is looked at after the parts, and before a circle
    assert_eq!(rt; join(&mut sheet, 0, 0, 0), 2);
    assert_eq!(rt; join(&mut sheet, 0, 4, 0), 1);
    assert_eq!(rt; counts(&sheet), (4, 0, 64));
}

#[test]
fn joins_of_unknown_parts_are_refused(rt: HostRuntime) {
    let mut sheet = four();
    assert_eq!(rt; join(&mut sheet, 4, 1, 2), 1);
    assert_eq!(rt; join(&mut sheet, 0, 4, 2), 1);
    assert_eq!(rt; join(&mut sheet, 0, 1, 4), 1);
    // parts are looked at before a circle
    assert_eq!(rt; join(&mut sheet, 0, 0, 4), 1);
    assert_eq!(rt; counts(&sheet), (4, 0, 0));
    assert_eq!(rt; join(&mut sheet, 0, 3, 3), 0);
    assert_eq!(rt; counts(&sheet), (4, 0, 1));
}

#[test]
fn circles_are_refused(rt: HostRuntime) {
    let mut sheet = four();
    assert_eq!(rt; join(&mut sheet, 0, 0, 1), 7);
    assert_eq!(rt; join(&mut sheet, 0, 1, 0), 7);
    assert_eq!(rt; join(&mut sheet, 0, 1, 2), 0);
    assert_eq!(rt; join(&mut sheet, 1, 2, 3), 0);
    assert_eq!(rt; join(&mut sheet, 3, 0, 2), 7);
    assert_eq!(rt; join(&mut sheet, 3, 2, 0), 7);
    assert_eq!(rt; counts(&sheet), (4, 0, 2));
    assert_eq!(rt; join(&mut sheet, 3, 2, 2), 0);
    assert_eq!(rt; join(&mut sheet, 2, 1, 1), 7);
    assert_eq!(rt; counts(&sheet), (4, 0, 3));
}

fn give_128(
    rt: &impl Abort,
    sheet: &mut Sheet,
    states: &mut [State],
    arcs: &mut [Arc<TextLabel>],
    giver: &Table<'_, Text>,
) {
    for _ in 0..128 {
        assert_eq!(rt; give(sheet, states, arcs, 3, giver), 0);
    }
}

#[test]
fn patterns_run_out_after_128(rt: HostRuntime) {
    let mut sheet = four();
    let mut states = [state(); 129];
    let one: Table<'_, Text> = Table {
        states: &[state()],
        arcs: &[],
    };
    give_128(&rt, &mut sheet, &mut states, &mut [], &one);
    assert_eq!(rt; give(&mut sheet, &mut states, &mut [], 3, &one), 2);
    assert_eq!(rt; counts(&sheet), (4, 128, 0));
    assert_eq!(rt;
        held(&sheet),
        Rows {
            states: 128,
            arcs: 0
        }
    );
    // full is looked at after the part, and before the arcs and the rows
    assert_eq!(rt; give(&mut sheet, &mut states, &mut [], 4, &one), 1);
    let outside: Table<'_, Text> = Table {
        states: &[state()],
        arcs: &[arc(0, 1)],
    };
    assert_eq!(rt; give(&mut sheet, &mut [], &mut [], 3, &outside), 2);
}

// The answer of a sheet that holds no pattern and has large tables.
fn alone<'a>(part: usize, states: &'a [State], arcs: &'a [Arc<TextLabel>]) -> u32 {
    let giver: Table<'a, Text> = Table { states, arcs };
    let mut held_states = [state(); 300];
    let mut held_arcs = [arc(0, 0); 5000];
    give(&mut four(), &mut held_states, &mut held_arcs, part, &giver)
}

#[test]
fn large_patterns_are_refused(rt: HostRuntime) {
    let states = [state(); 257];
    let arcs = [arc(0, 255); 4097];
    assert_eq!(rt; alone(0, &states[0..256], &arcs[0..4096]), 0);
    assert_eq!(rt; alone(0, &states, &arcs[0..4096]), 3);
    assert_eq!(rt; alone(0, &states[0..256], &arcs), 3);
    // the part is looked at before the size, and the size before the arcs
    assert_eq!(rt; alone(4, &states, &arcs), 1);
    assert_eq!(rt; alone(0, &states[0..1], &arcs), 3);
}

#[test]
fn arcs_outside_a_pattern_are_refused(rt: HostRuntime) {
    let states = [state(); 2];
    assert_eq!(rt; alone(0, &states, &[arc(0, 1), arc(1, 1)]), 0);
    assert_eq!(rt; alone(0, &states, &[arc(0, 1), arc(0, 2)]), 4);
    assert_eq!(rt; alone(0, &states, &[arc(2, 0), arc(0, 1)]), 4);
    assert_eq!(rt; alone(0, &[], &[arc(0, 0)]), 4);
    assert_eq!(rt; alone(0, &[], &[]), 0);
    assert_eq!(rt; alone(4, &states, &[arc(0, 2)]), 1);
}

// The answer in n state rows and m arc rows to a second pattern, of two states and an arc to the given one. The first pattern has three states and two arcs.
fn second_in(n: usize, m: usize, to: usize) -> u32
    requires { (n ≤ 8) × (m ≤ 8) }
{
    let mut sheet = four();
    let mut states = [state(); 8];
    let mut arcs = [arc(0, 0); 8];
    let first: Table<'_, Text> = Table {
        states: &[state(); 3],
        arcs: &[arc(0, 2), arc(1, 2)],
    };
    if give(&mut sheet, &mut states, &mut arcs, 0, &first) != 0 {
        return 99;
    }
    let second: Table<'_, Text> = Table {
        states: &[state(); 2],
        arcs: &[arc(0, to)],
    };
    let answer = give(&mut sheet, &mut states[0..n], &mut arcs[0..m], 1, &second);
    // a refusal changes no count
    let same = counts(&sheet) == (4, 1, 0) && held(&sheet) == Rows { states: 3, arcs: 2 };
    let more = counts(&sheet) == (4, 2, 0) && held(&sheet) == Rows { states: 5, arcs: 3 };
    if (answer == 0 && more) || (answer != 0 && same) {
        answer
    } else {
        98
    }
}

#[test]
fn full_tables_are_taken(rt: HostRuntime) {
    assert_eq!(rt; second_in(5, 3, 1), 0);
    assert_eq!(rt; second_in(4, 3, 1), 6);
    assert_eq!(rt; second_in(5, 2, 1), 6);
    assert_eq!(rt; second_in(3, 2, 1), 6);
    assert_eq!(rt; second_in(8, 8, 1), 0);
}

// Arcs are looked at before lost rows, and lost rows before room.
#[test]
fn short_tables_lose_held_rows(rt: HostRuntime) {
    assert_eq!(rt; second_in(2, 8, 1), 5);
    assert_eq!(rt; second_in(8, 1, 1), 5);
    assert_eq!(rt; second_in(0, 0, 1), 5);
    assert_eq!(rt; second_in(2, 8, 2), 4);
    assert_eq!(rt; second_in(4, 2, 2), 4);
}

// The answer where the arc of the second of two held patterns was changed to lead to the given state.
fn changed(to: usize) -> u32 {
    let mut sheet = four();
    let mut states = [state(); 8];
    let mut arcs = [arc(0, 0); 8];
    let two: Table<'_, Text> = Table {
        states: &[state(); 2],
        arcs: &[arc(0, 1)],
    };
    if give(&mut sheet, &mut states, &mut arcs, 0, &two) != 0 {
        return 99;
    }
    if give(&mut sheet, &mut states, &mut arcs, 1, &two) != 0 {
        return 99;
    }
    arcs[1] = arc(1, to);
    give(&mut sheet, &mut states, &mut arcs, 0, &two)
}

#[test]
fn a_held_arc_that_leads_outside_is_refused(rt: HostRuntime) {
    assert_eq!(rt; changed(0), 0);
    assert_eq!(rt; changed(1), 0);
    assert_eq!(rt; changed(2), 5);
    assert_eq!(rt; changed(3), 5);
}

#[test]
fn clear_lets_go_of_everything(rt: HostRuntime) {
    let mut sheet = four();
    let mut states = [state(); 2];
    let mut arcs = [arc(0, 0); 1];
    let two: Table<'_, Text> = Table {
        states: &[state(); 2],
        arcs: &[arc(0, 1)],
    };
    assert_eq!(rt; give(&mut sheet, &mut states, &mut arcs, 0, &two), 0);
    assert_eq!(rt; join(&mut sheet, 0, 1, 2), 0);
    assert_eq!(rt; counts(&sheet), (4, 1, 1));
    assert_eq!(rt; held(&sheet), Rows { states: 2, arcs: 1 });
    sheet.clear();
    assert_eq!(rt; counts(&sheet), (0, 0, 0));
    assert_eq!(rt; held(&sheet), Rows { states: 0, arcs: 0 });
    assert_eq!(rt; join(&mut sheet, 0, 1, 2), 1);
    assert_eq!(rt; sheet.part(), Ok(0));
    // the tables have room again
    assert_eq!(rt; give(&mut sheet, &mut states, &mut arcs, 0, &two), 0);
}
