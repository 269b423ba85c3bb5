// The record of solving a sheet, and the weir station's sheet.
ghost use Rattle.std.specs.Prelude.{◌≡◌, ◌+◌, ◌≤◌, length, IfOk, string_bytes};
ghost use Rattle.solve.specs.Report.{word_at};
ghost use Rattle.gauges.specs.Shown.{verdict_line, refused_line};

use crate::lines::Quoted;
use crate::rows::table;
use crate::weir;
use alphabet::Alphabet;
use alphabet::modem::{Modem, ModemLabel};
use automaton::{Arc, State};
use giver::fixed::FixedText;
use giver::no_arc;
use giver::table::Table;
use sheet::{Join, MAX_PARTS, Refusal, Sheet};
use solve::{Row, Span, solve};
use std::alloc::{AllocError, Global};
use std::fmt::Write;
use verdict::{Solved, Verdict};

const LETTERS: usize = 16;

// This line and `refused_line` make a text, since their contracts say what its bytes are.
fn verdict_line(heap: Global, station: &str, solved: Solved) -> Result<String, AllocError>
    ensures says { IfOk result (λ s. string_bytes s ≡ verdict_line station.now solved) }
{
    let verdict = solved.verdict;
    let states = solved.totals.states;
    let arcs = solved.totals.arcs;
    format!(in heap; "{station} sheet: {verdict}, {states} states and {arcs} arcs built\n")
}

// The letters of a word; none where it does not lie in the table. Nothing else here asks where a span ends.
fn letters(words: &[u32], word: Span) -> &[u32]
    ensures reads { word.first + word.len ≤ length words.now → result.now ≡ word_at words.now word }
{
    let end = word.first.saturating_add(word.len);
    words.get(word.first..end).unwrap_or(&[])
}

// A line for each part. Names are apart from the report, since `solve` takes the report as a slice of rows.
fn part_lines(
    heap: Global,
    names: &[&str],
    report: &[Row],
    words: &[u32],
) -> Result<String, AllocError> {
    let mut out = String::new(heap);
    for (name, row) in names.iter().zip(report) {
        let word = Quoted(letters(words, row.word));
        let first = row.automaton.first;
        let end = row.automaton.end();
        let states = first.states..end.states;
        let arcs = first.arcs..end.arcs;
        writeln!(
            out,
            "{name} {word}: state rows {states:?}, arc rows {arcs:?}"
        )?;
    }
    Ok(out)
}

// A refusal becomes a line of the record, no error.
fn refused_line(heap: Global, station: &str, refusal: Refusal) -> Result<String, AllocError>
    ensures says { IfOk result (λ s. string_bytes s ≡ refused_line station.now refusal) }
{
    let number = refusal.number();
    format!(in heap; "{station} sheet: refused {number}\n")
}

// The record of solving a station's sheet, whose parts have these names: the verdict, and where it is possible a line
// for each part.
pub fn record<A: Alphabet>(
    heap: Global,
    station: &str,
    sheet: &Sheet,
    names: &[&str],
    states: &mut [State],
    arcs: &mut [Arc<A::Label>],
) -> Result<String, AllocError> {
    let mut report = vec![in heap; Row::default(); MAX_PARTS]?;
    let mut words = vec![in heap; 0; LETTERS]?;
    match solve::<A>(sheet, states, arcs, &mut report, &mut words) {
        Ok(solved) => {
            let mut out = verdict_line(heap, station, solved)?;
            if solved.verdict == Verdict::Possible {
                out.push_str(part_lines(heap, names, &report, &words)?.as_str())?;
            }
            Ok(out)
        }
        Err(refusal) => refused_line(heap, station, refusal),
    }
}

// The tables of the wait and the sign borrow rows that are made here, so no function hands one out.
// Enters the weir station's sheet: an optional acknowledgement and then the level, which is what the logger waits for.
fn enter_weir(
    sheet: &mut Sheet,
    states: &mut [State],
    arcs: &mut [Arc<ModemLabel>],
) -> Result<(), Refusal> {
    let acknowledgement = sheet.part()?;
    let level = sheet.part()?;
    let reply = sheet.part()?;
    let sign = Table {
        states: &weir::sign_states(),
        arcs: &weir::sign_arcs(),
    };
    sheet.pattern::<Modem, Table<'_, Modem>>(states, arcs, acknowledgement, &sign)?;
    let text = FixedText::new::<Modem>(&weir::LEVEL);
    sheet.pattern::<Modem, FixedText<'_>>(states, arcs, level, &text)?;
    let wait = Table {
        states: &weir::wait_states(),
        arcs: &weir::wait_arcs(),
    };
    sheet.pattern::<Modem, Table<'_, Modem>>(states, arcs, reply, &wait)?;
    sheet.join(Join {
        whole: reply,
        left: acknowledgement,
        right: level,
    })
}

// The record of solving the weir station's sheet.
pub fn weir_record(heap: Global) -> Result<String, AllocError> {
    let mut states = table(heap, &[], State::default())?;
    let mut arcs = table(heap, &[], no_arc::<Modem>())?;
    let mut sheet = Sheet::new();
    match enter_weir(&mut sheet, &mut states, &mut arcs) {
        Ok(()) => record::<Modem>(
            heap,
            "weir",
            &sheet,
            &["acknowledgement", "level", "reply"],
            &mut states,
            &mut arcs,
        ),
        Err(refusal) => refused_line(heap, "weir", refusal),
    }
}
