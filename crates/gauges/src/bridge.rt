// The bridge station's sheet, entered call by call or solved: its reply is an acknowledgement and a temperature.
use crate::lines::Quoted;
use crate::rows::table;
use crate::solving;
use alphabet::text::{Text, TextLabel};
use automaton::{Arc, State};
use build::Rows;
use giver::fixed::FixedText;
use giver::no_arc;
use sheet::{Counts, Join, Refusal, Sheet};
use std::alloc::{AllocError, Global};
use std::fmt;
use std::fmt::Write;

// So many rows are lent while the sheet is entered.
const ROWS: usize = 16;

// Numbers, since a sheet gives its parts numbers and its joins name them so.
const ACKNOWLEDGEMENT: usize = 0;

const NUMBER: usize = 1;

const UNIT: usize = 2;

const TEMPERATURE: usize = 3;

const REPLY: usize = 4;

const NAMES: [&str; 5] = ["acknowledgement", "number", "unit", "temperature", "reply"];

// The texts and the joins that are entered, in this order. Some are there to be refused.
const TEXTS: [(usize, &[u32]); 5] = [
    (ACKNOWLEDGEMENT, &[35]),
    (NUMBER, &[49, 50, 46, 53]),
    (UNIT, &[176, 67]),
    (5, &[35]),
    (REPLY, &[49, 50, 46, 53, 176, 67]),
];

const JOINS: [Join; 3] = [
    Join {
        whole: TEMPERATURE,
        left: NUMBER,
        right: UNIT,
    },
    Join {
        whole: REPLY,
        left: ACKNOWLEDGEMENT,
        right: TEMPERATURE,
    },
    Join {
        whole: NUMBER,
        left: REPLY,
        right: UNIT,
    },
];

// The answer to a call as it is printed: what it gave, or the number of its refusal. `refused_line` says the number itself, under a contract.
#[derive(Drop)]
struct Answer<T>(Result<T, Refusal>);

impl<T: fmt::Display> fmt::Display for Answer<T> {
    fn fmt<W: fmt::Write>(&self, f: &mut fmt::Formatter<W>) -> fmt::Result {
        match &self.0 {
            Ok(given) => write!(f, "{given}"),
            Err(refusal) => {
                let number = refusal.number();
                write!(f, "refused {number}")
            }
        }
    }
}

// The sheet and the tables that are lent to its calls. The tests have one of their own, since `gauges` is a program.
#[derive(Drop)]
struct Bridge {
    sheet: Sheet,
    states: [State; ROWS],
    arcs: [Arc<TextLabel>; ROWS],
}

impl Bridge {
    fn new() -> Bridge {
        Bridge {
            sheet: Sheet::new(),
            states: [State::default(); ROWS],
            arcs: [no_arc::<Text>(); ROWS],
        }
    }

    fn text(&mut self, part: usize, letters: &[u32]) -> Result<(), Refusal> {
        let text = FixedText::new::<Text>(letters);
        self.sheet
            .pattern::<Text, FixedText<'_>>(&mut self.states, &mut self.arcs, part, &text)
    }

    fn enter_parts(&mut self, out: &mut String) -> Result<(), AllocError> {
        for name in &NAMES {
            let answer = Answer(self.sheet.part());
            writeln!(out, "part {name}: {answer}")?;
        }
        Ok(())
    }

    fn enter_texts(&mut self, out: &mut String) -> Result<(), AllocError> {
        for (part, letters) in TEXTS {
            let text = Quoted(letters);
            let answer = Answer(self.text(part, letters).map(|()| "held"));
            writeln!(out, "pattern {part} {text}: {answer}")?;
        }
        Ok(())
    }

    fn enter_joins(&mut self, out: &mut String) -> Result<(), AllocError> {
        for join in JOINS {
            let Join { whole, left, right } = join;
            let answer = Answer(self.sheet.join(join).map(|()| "held"));
            writeln!(out, "join {whole} = {left} + {right}: {answer}")?;
        }
        Ok(())
    }

    // Enters the sheet, and records each call and its answer.
    fn enter(&mut self, out: &mut String) -> Result<(), AllocError> {
        self.enter_parts(out)?;
        self.enter_texts(out)?;
        self.enter_joins(out)
    }

    fn record_counts(&self, out: &mut String) -> Result<(), AllocError> {
        let Counts {
            parts,
            patterns,
            joins,
            held,
        } = self.sheet.counts();
        let Rows { states, arcs } = held;
        writeln!(
            out,
            "held: {parts} parts, {patterns} patterns, {joins} joins, {states} state rows, {arcs} arc rows"
        )
    }
}

// The record of the calls and their answers.
pub fn record(heap: Global) -> Result<String, AllocError> {
    let mut out = String::new(heap);
    let mut bridge = Bridge::new();
    bridge.enter(&mut out)?;
    bridge.record_counts(&mut out)?;
    bridge.sheet.clear();
    bridge.record_counts(&mut out)?;
    Ok(out)
}

// The record of solving the sheet, once it is entered, in larger tables.
pub fn solved_record(heap: Global) -> Result<String, AllocError> {
    let mut bridge = Bridge::new();
    // The text of the calls is let go: `record` prints it.
    bridge.enter(&mut String::new(heap))?;
    let mut states = table(heap, &bridge.states, State::default())?;
    let mut arcs = table(heap, &bridge.arcs, no_arc::<Text>())?;
    solving::record::<Text>(
        heap,
        "bridge",
        &bridge.sheet,
        &NAMES,
        &mut states,
        &mut arcs,
    )
}
