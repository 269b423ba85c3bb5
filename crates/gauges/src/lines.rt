// Lines of bytes, and letters as text.
ghost use Rattle.std.specs.Prelude.{◌≡◌, ℕ, ◌<◌, ◌≢◌, [], length, get_or, IfOk, MatchOption};
ghost use Rattle.std.specs.Iterator.{at_most};
ghost use Rattle.gauges.specs.Replies.{Cut};

use std::alloc::{AllocError, Global};
use std::fmt;
use std::fmt::Write;

// Where the first line ends, if a line end follows it.
fn line_end(bytes: &[u8]) -> Option<usize>
    ensures finds { MatchOption result ((k : ℕ) → k < length bytes.now → get_or bytes.now k 0 ≢ 10)
        (λ end. (end < length bytes.now) × (get_or bytes.now end 0 ≡ 10) × ((k : ℕ) → k < end → get_or bytes.now k 0 ≢ 10)) }
{
    bytes.iter().position(|b| *b == b'\n')
}

// Cuts off the first line; its line end belongs to neither part.
pub fn cut(bytes: &[u8]) -> (&[u8], &[u8])
    ensures cuts { Cut bytes.now result.0.now result.1.now }
{
    match line_end(bytes) {
        Some(end) => (&bytes[..end], &bytes[end + 1..]),
        None => (bytes, &[]),
    }
}

// The lines of some bytes. The last one needs no line end.
#[derive(Drop)]
pub struct Lines<'a>(pub &'a [u8]);

impl<'a> Iterator for Lines<'a> {
    type Item = &'a [u8];

    ghost remaining = { λ lines. at_most (length lines.0.now) };

    ghost next_gives = { λ lines result rest. MatchOption result (lines.0.now ≡ []) (λ line. Cut lines.0.now line.now rest.0.now) };

    fn next(&mut self) -> Option<&'a [u8]> {
        if self.0.is_empty() {
            return None;
        }
        let (line, rest) = cut(self.0);
        self.0 = rest;
        Some(line)
    }
}

// The word of a line: each byte is a letter.
pub fn letters(heap: Global, line: &[u8]) -> Result<Vec<u32>, AllocError>
    ensures same { IfOk result (λ v. v.items ≡ line.now) }
{
    line.iter().map(|b| u32::from(*b)).collect(heap)
}

fn write_letter<W: fmt::Write>(f: &mut fmt::Formatter<W>, letter: u32) -> fmt::Result {
    match char::from_u32(letter) {
        Some('"') => f.write_str("\"\""),
        Some('\\') => f.write_str("\\u{5c}"),
        Some(c @ ' '..='~') => f.write_char(c),
        _ => write!(f, "\\u{{{letter:x}}}"),
    }
}

// Letters as they are printed: quoted, a quote doubled, every other letter outside 0x20 to 0x7e by its number.
#[derive(Drop)]
pub struct Quoted<'a, T>(pub &'a [T]);

impl<T: Copy + Into<u32>> fmt::Display for Quoted<'_, T> {
    fn fmt<W: fmt::Write>(&self, f: &mut fmt::Formatter<W>) -> fmt::Result {
        f.write_char('"')?;
        for letter in self.0 {
            write_letter(f, (*letter).into())?;
        }
        f.write_char('"')
    }
}
