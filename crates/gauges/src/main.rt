// Holds replies against the weir station's patterns and enters the bridge's sheet, or solves both stations' sheets.
#![tactic(auto)]

mod bridge;
mod lines;
mod reply;
mod rows;
mod solving;
mod weir;

use build::{Place, Rows, Stop};
use lines::{Lines, Quoted};
use reply::Replies;
use std::alloc::{AllocError, Global};
use std::fmt::Write;
use std::io::Read;
use std::{env, fmt};

// What each pattern says of a reply. Four names and no array: each is printed under a word of its own.
#[derive(Clone, Copy, Debug, PartialEq, Eq)]
struct Judged {
    wait: bool,
    text: bool,
    joined: bool,
    met: bool,
}

// Not `Display`: that of `bool` says true and false.
fn yes_no(b: bool) -> &'static str {
    if b { "yes" } else { "no" }
}

impl fmt::Display for Judged {
    fn fmt<W: fmt::Write>(&self, f: &mut fmt::Formatter<W>) -> fmt::Result {
        let wait = yes_no(self.wait);
        let text = yes_no(self.text);
        let joined = yes_no(self.joined);
        let met = yes_no(self.met);
        write!(f, "wait {wait} text {text} joined {joined} met {met}")
    }
}

fn judge(replies: &Replies, word: &[u32]) -> Judged {
    Judged {
        wait: weir::awaits(word),
        text: weir::is_level(word),
        joined: replies.accepts(replies.joined, word),
        met: replies.accepts(replies.met, word),
    }
}

// How many replies were read, and how many of them each pattern accepted.
#[derive(Clone, Copy, Debug, PartialEq, Eq, Default)]
struct Tally {
    read: usize,
    wait: usize,
    text: usize,
    joined: usize,
    met: usize,
}

impl Tally {
    // Field by field: the replies are read once and not kept, so there is no list to count over.
    fn note(&mut self, judged: Judged) {
        self.read = self.read.saturating_add(1);
        self.wait = self.wait.saturating_add(usize::from(judged.wait));
        self.text = self.text.saturating_add(usize::from(judged.text));
        self.joined = self.joined.saturating_add(usize::from(judged.joined));
        self.met = self.met.saturating_add(usize::from(judged.met));
    }
}

impl fmt::Display for Tally {
    fn fmt<W: fmt::Write>(&self, f: &mut fmt::Formatter<W>) -> fmt::Result {
        let Tally {
            read,
            wait,
            text,
            joined,
            met,
        } = *self;
        write!(
            f,
            "{read} read, accepted by the wait {wait}, the text {text}, the join {joined}, both {met}"
        )
    }
}

fn record_size(out: &mut String, name: &str, place: Place) -> Result<(), AllocError> {
    let Rows { states, arcs } = place.count;
    writeln!(out, "{name}: {states} states, {arcs} arcs")
}

// A line for each reply, and what they come to: a text of its own, which tests hold.
fn replies_of(heap: Global, replies: &Replies, input: &[u8]) -> Result<String, AllocError> {
    let mut out = String::new(heap);
    let mut tally = Tally::default();
    for line in Lines(input) {
        let word = lines::letters(heap, line)?;
        let judged = judge(replies, &word);
        tally.note(judged);
        let reply = Quoted(line);
        writeln!(out, "reply {reply} {judged}")?;
    }
    writeln!(out, "{tally}")?;
    Ok(out)
}

// The record of an input.
fn record(heap: Global, input: &[u8]) -> Result<String, AllocError> {
    // The record does not name the table that is full.
    let Ok(replies) = Replies::new() else {
        return String::from_str(heap, "out of room\n");
    };
    let mut out = String::new(heap);
    record_size(&mut out, "acknowledgement and level joined", replies.joined)?;
    record_size(&mut out, "met with the wait", replies.met)?;
    out.push_str(replies_of(heap, &replies, input)?.as_str())?;
    Ok(out)
}

// Two runs, two functions: only this one reads input.
fn hold_replies(rt: &HostRuntime) -> anyhow::Result<()> {
    let mut input = Vec::new(rt.alloc());
    rt.stdin().read_to_end(&mut input)?;
    let out = record(rt.alloc(), &input)?;
    rt.print(out.as_str())?;
    let calls = bridge::record(rt.alloc())?;
    rt.print(calls.as_str())?;
    Ok(())
}

fn solve_sheets(rt: &HostRuntime) -> anyhow::Result<()> {
    let weir = solving::weir_record(rt.alloc())?;
    rt.print(weir.as_str())?;
    let bridge = bridge::solved_record(rt.alloc())?;
    rt.print(bridge.as_str())?;
    Ok(())
}

// Whether the first word of the command line asks for it. A command line that cannot be read asks for nothing.
fn is_asked_to_solve(rt: &HostRuntime) -> bool {
    env::args(rt).is_ok_and(|mut words| {
        words.nth(1).is_some_and(|word| word.as_str() == "solve")
    })
}

fn run(rt: &HostRuntime) -> anyhow::Result<()> {
    if is_asked_to_solve(rt) {
        solve_sheets(rt)
    } else {
        hold_replies(rt)
    }
}

fn main(rt: HostRuntime) -> anyhow::Result<()> {
    run(&rt)
}

#[cfg(test)]
mod tests {
    use super::*;
    use std::test::Fail;

    // `let else`: `map_err` would let the `Stop` go as well.
    #[test]
    fn an_empty_input_has_no_reply(rt: HostRuntime) -> Result<(), Fail> {
        let Ok(replies) = Replies::new() else {
            return Err(Fail::new("out of room"));
        };
        let out = replies_of(rt.alloc(), &replies, b"")?;
        assert!(rt;
            out.as_str() == "0 read, accepted by the wait 0, the text 0, the join 0, both 0\n"
        );
        Ok(())
    }

    #[test]
    fn the_last_line_needs_no_line_end(rt: HostRuntime) -> Result<(), Fail> {
        let Ok(replies) = Replies::new() else {
            return Err(Fail::new("out of room"));
        };
        let out = replies_of(rt.alloc(), &replies, b"#4.21")?;
        assert!(rt;
            out.as_str()
                == "reply \"#4.21\" wait no text no joined yes met no\n1 read, accepted by the wait 0, the text 0, the join 1, both 0\n"
        );
        Ok(())
    }

    #[test]
    fn the_weir_is_solved(rt: HostRuntime) -> Result<(), Fail> {
        let out = solving::weir_record(rt.alloc())?;
        assert!(rt;
            out.as_str()
                == "weir sheet: possible, 25 states and 20 arcs built\nacknowledgement \"\": state rows 10..12, arc rows 8..9\nlevel \"4.21\": state rows 13..18, arc rows 10..14\nreply \"4.21\": state rows 28..34, arc rows 23..27\n"
        );
        Ok(())
    }

    #[test]
    fn the_bridge_is_solved(rt: HostRuntime) -> Result<(), Fail> {
        let out = bridge::solved_record(rt.alloc())?;
        assert!(rt;
            out.as_str()
                == "bridge sheet: possible, 51 states and 44 arcs built\nacknowledgement \"#\": state rows 11..13, arc rows 8..9\nnumber \"12.5\": state rows 14..19, arc rows 10..14\nunit \"\\u{b0}C\": state rows 20..23, arc rows 15..17\ntemperature \"12.5\\u{b0}C\": state rows 32..40, arc rows 25..32\nreply \"#12.5\\u{b0}C\": state rows 51..61, arc rows 42..51\n"
        );
        Ok(())
    }
}
