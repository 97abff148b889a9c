// Lines that are looked at again.
ghost use Rattle.std.specs.Prelude.{◌≡◌, ◌+◌, ◌-◌, ◌<◌, ◌≤◌, ◌^◌, Some, drop, length, slice_get};
ghost use Rattle.acas_lines.specs.Split.{lines_of};
ghost use Rattle.rec_audit.specs.Explaining.{IsFound, IsOtherSentence, IsToldBy, TellsShown, first_return, has_return, has_return_in};

use crate::lines::TextLines;
use crate::sentences::sentence_of;
use crate::values::before_flag;
use acas_text::Line;
use verdict_text::{Found, Wanted, Why};

/// Takes so many lines, where there are so many.
pub(crate) fn skip(lines: &mut TextLines<'_>, count: u32)
    ensures { lines.new.left ≡ drop count lines.old.left }
{
    for _ in 0..count {
        let _ = lines.next();
    }
}

/// The lines from a line on.
pub(crate) fn lines_from(bytes: &[u8], line: u32) -> TextLines<'_>
    requires small { length bytes.now < 2 ^ 32 - 1 }
    requires some { 1 ≤ line }
    ensures { result.left ≡ drop (line - 1) (lines_of bytes.now) }
{
    let mut lines = TextLines::of(bytes);
    skip(&mut lines, line - 1);
    lines
}

// Whether a carriage return stands in a text.
fn has_return(text: &[u8]) -> bool
    ensures { result ≡ has_return text.now }
{
    for byte in text {
        if *byte == b'\r' {
            return true;
        }
    }
    false
}

/// Whether a carriage return stands in the next line.
pub(crate) fn has_return_in(lines: &TextLines<'_>) -> bool
    ensures { result ≡ has_return_in (slice_get lines.now.left 0) }
{
    match lines.again().next() {
        Some(text) => has_return(text),
        None => false,
    }
}

/// What stands in a line.
pub(crate) fn found_in(text: &[u8]) -> Found<'_>
    ensures { IsFound (Some text.now) result }
{
    let (body, is_whole) = before_flag(text, b'\n');
    if is_whole {
        return Found::Whole(body);
    }
    Found::Unfinished(text)
}

// The sentence that tells which line has to stand there.
fn other_sentence(line: u32, wanted: &Wanted, found: Found<'_>) -> Line
    ensures { IsOtherSentence line wanted.now found.entry result }
{
    sentence_of(line, Why::OtherLine { wanted, found })
}

/// Tells which line has to stand in place of the next one.
pub(crate) fn tell_other(lines: &TextLines<'_>, line: u32, wanted: &Wanted) -> Line
    ensures { IsToldBy line (TellsShown (slice_get lines.now.left 0) wanted.now) result }
{
    match lines.again().next() {
        Some(text) => other_sentence(line, wanted, found_in(text)),
        None => other_sentence(line, wanted, Found::Missing),
    }
}

/// The number of the first of these lines in which a carriage return stands.
pub(crate) fn first_return(lines: &TextLines<'_>) -> Option<u32>
    ensures { result ≡ first_return (lines.now.taken + 1) lines.now.left }
{
    let mut left = lines.again();
    let mut number = left.number();
    while let Some(line) = left.next() {
        if has_return(line) {
            return Some(number);
        }
        number = left.number();
    }
    None
}
