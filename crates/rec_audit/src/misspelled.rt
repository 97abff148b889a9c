// What is told of the spelling of a line.
ghost use Rattle.std.specs.Prelude.{◌≡◌, ◌≢◌, ◌-◌, ◌+◌, ◌<◌, ◌≤◌, ◌^◌, IfOk, length, slice_get};
ghost use Rattle.acas_base.specs.declared.TheConstants.{CRAFTS};
ghost use Rattle.acas_lines.specs.Split.{lines_of};
ghost use Rattle.rec_audit.specs.Engine.{IsOpened};
ghost use Rattle.rec_audit.specs.Explaining.{IsHeaded, IsToldBy, IsUnspelled, IsUnspelledIn, TellsCount, TellsEntryLine, TellsFirstReturn, TellsLater, TellsOther, TellsPart, TellsReturn, TellsSpelledEntry, TellsSpelling, TellsThisEntry, begins_report, fault_of, first_return, line_at};
ghost use Rattle.rec_audit.specs.Judging.{IsWrong, IsWrongAfter};
ghost use Rattle.rec_audit.specs.Opening.{IsWrongOpening};
ghost use Rattle.rec_audit.specs.declared.verdict.Reason.{Reason};
ghost use Rattle.rec_text.specs.Recording.{head_line};
ghost use Rattle.verdict_text.specs.Sentences.{sentence};
ghost use Rattle.verdict_text.specs.declared.fault.Why.TheVariants as why;

use crate::faulty::form_why;
use crate::laws::verdict_law;
use crate::lines::TextLines;
use crate::opening::{Opened, open, part_in};
use crate::part::{behind_head, tell_part};
use crate::sentences::sentence_of;
use crate::spelled::{first_return, found_in, has_return_in, lines_from, tell_other};
use crate::values::before_flag;
use acas_text::Line;
use enc_file::canonical_text_law;
use std::alloc::{AllocError, Global};
use verdict_text::{Found, Wanted, Why};

// The first line of each recording.
fn head() -> Line
    ensures { result ≡ head_line }
{
    let mut line = Line::new();
    line.text("recording,1\n");
    line
}

// Tells that the next line has to be the first one of a recording.
fn tell_head(lines: &TextLines<'_>, line: u32) -> Line
    ensures { IsToldBy line (TellsReturn (slice_get lines.now.left 0) (TellsOther (slice_get lines.now.left 0) head_line)) result }
{
    if has_return_in(lines) {
        return sentence_of(line, Why::CarriageReturn);
    }
    tell_other(lines, line, &Wanted::of(&head()))
}

// Tells that no line is an end. These are the lines behind the first one.
fn tell_no_end(lines: &TextLines<'_>, line: u32) -> Line
    requires second { lines.now.taken ≡ 1 }
    ensures { TellsFirstReturn (first_return 2 lines.now.left) (λ told. told ≡ sentence (fault_of line why.NoEnd)) result }
{
    match first_return(lines) {
        Some(at) => sentence_of(at, Why::CarriageReturn),
        None => sentence_of(line, Why::NoEnd),
    }
}

// Tells that the number of entries has to stand in the next line.
fn tell_no_count(lines: &TextLines<'_>, line: u32) -> Line
    ensures { IsToldBy line (TellsCount (slice_get lines.now.left 0)) result }
{
    match lines.again().next() {
        Some(text) => sentence_of(
            line,
            Why::NoCount {
                found: found_in(text),
            },
        ),
        None => sentence_of(
            line,
            Why::NoCount {
                found: Found::Missing,
            },
        ),
    }
}

// Tells what is wrong with the line of the number of entries.
fn tell_count(lines: &TextLines<'_>, line: u32) -> Line
    ensures { IsToldBy line (TellsReturn (slice_get lines.now.left 0) (TellsCount (slice_get lines.now.left 0))) result }
{
    if has_return_in(lines) {
        return sentence_of(line, Why::CarriageReturn);
    }
    tell_no_count(lines, line)
}

// Tells what is wrong with a line before the entries, behind the first one.
fn tell_opening(alloc: Global, bytes: &[u8], line: u32) -> Result<Line, AllocError>
    requires small { length bytes.now < 2 ^ 32 - 1 }
    requires wrong { IsWrongOpening (lines_of bytes.now) line Reason.Spelling }
    requires later { 2 ≤ line }
    ensures { IfOk result (TellsSpelling bytes.now line) }
{
    let lines = behind_head(bytes);
    match part_in(&lines) {
        None => Ok(tell_no_end(&lines, line)),
        Some(text) => {
            if line == 2 {
                let told = tell_part(alloc, bytes, &lines, text)?;
                return Ok(told);
            }
            Ok(tell_count(&lines_from(bytes, line), line))
        }
    }
}

// Tells what is wrong with the text of an entry's line.
fn tell_later(line: u32, crafts: u8, text: &[u8]) -> Line
    requires crafts { (0 < crafts) × (crafts ≤ CRAFTS) }
    requires unspelled { IsUnspelled crafts text.now }
    ensures { IsToldBy line (TellsLater crafts text.now) result }
{
    let (body, is_whole) = before_flag(text, b'\n');
    if is_whole {
        return sentence_of(line, form_why(crafts, body));
    }
    sentence_of(line, Why::Unfinished { found: text })
}

// Whether a line begins as the first one of a report.
fn begins_report(text: &[u8]) -> bool
    ensures { result ≡ begins_report text.now }
{
    text.starts_with(b"report,")
}

// Tells what is wrong with this line, which has to be that of an entry. So many entries are announced, and so many
// stand before it.
fn tell_this_entry(line: u32, crafts: u8, announced: u32, entries: u32, text: &[u8]) -> Line
    requires crafts { (0 < crafts) × (crafts ≤ CRAFTS) }
    requires unspelled { IsUnspelled crafts text.now }
    ensures { IsToldBy line (TellsThisEntry crafts announced entries text.now) result }
{
    if begins_report(text) {
        return sentence_of(line, Why::EarlyReport { announced, entries });
    }
    tell_later(line, crafts, text)
}

// The same of the next line.
fn tell_entry_line(
    lines: &TextLines<'_>,
    line: u32,
    crafts: u8,
    announced: u32,
    entries: u32,
) -> Line
    requires crafts { (0 < crafts) × (crafts ≤ CRAFTS) }
    requires unspelled { IsUnspelledIn crafts (slice_get lines.now.left 0) }
    ensures { IsToldBy line (TellsEntryLine crafts announced entries (slice_get lines.now.left 0)) result }
{
    match lines.again().next() {
        Some(text) => tell_this_entry(line, crafts, announced, entries, text),
        None => sentence_of(line, Why::NoEntry { announced, entries }),
    }
}

// Tells what is wrong with the spelling of an entry's line.
fn tell_entry(opened: &Opened<'_>, bytes: &[u8], line: u32) -> Line
    requires small { length bytes.now < 2 ^ 32 - 1 }
    requires opened { IsOpened (lines_of bytes.now) opened.now.encounter opened.now.count opened.now.lines }
    requires wrong { IsWrong (lines_of bytes.now) line Reason.Spelling }
    ensures { TellsSpelling bytes.now line result }
{
    canonical_text_law();
    let lines = lines_from(bytes, line);
    if has_return_in(&lines) {
        return sentence_of(line, Why::CarriageReturn);
    }
    let crafts = opened.encounter.crafts().len() as u8;
    let entries = line - opened.lines.number();
    tell_entry_line(&lines, line, crafts, opened.count, entries)
}

/// Tells what is wrong with the spelling of a line.
///
/// It takes memory for the encounter. The error says that memory was wanting.
pub(crate) fn tell_misspelled(alloc: Global, bytes: &[u8], line: u32) -> Result<Line, AllocError>
    requires small { length bytes.now < 2 ^ 32 - 1 }
    requires wrong { IsWrong (lines_of bytes.now) line Reason.Spelling }
    ensures { IfOk result (TellsSpelling bytes.now line) }
{
    if line == 1 {
        return Ok(tell_head(&lines_from(bytes, line), line));
    }
    verdict_law();
    match open(alloc, bytes)? {
        Ok(opened) => Ok(tell_entry(&opened, bytes, line)),
        Err(_) => {
            let told = tell_opening(alloc, bytes, line)?;
            Ok(told)
        }
    }
}
