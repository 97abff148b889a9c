// Recordings explained.
ghost use Rattle.std.specs.Prelude.{◌≡◌, ◌-◌, ◌<◌, ◌^◌, IfOk, drop, length, true};
ghost use Rattle.acas_lines.specs.Split.{lines_of};
ghost use Rattle.rec_audit.specs.Explaining.{IsExplained, TellsPart, TellsSomething, is_after_entries};
ghost use Rattle.rec_audit.specs.Judging.{IsWrong};
ghost use Rattle.rec_audit.specs.declared.verdict.Reason.{Reason};

use crate::closing::tell_report;
use crate::here::tell_here;
use crate::judging::{load, load_part};
use crate::laws::verdict_law;
use crate::misspelled::tell_misspelled;
use crate::opening::part_in;
use crate::part::{behind_head, tell_part};
use crate::sentences::sentence_of;
use crate::spelled::{has_return_in, lines_from};
use crate::verdict::{Loaded, Reason};
use acas_text::Line;
use air_journal::AirState;
use enc_file::Code;
use std::alloc::{AllocError, Global};
use verdict_text::Why;

/// What is told of a recording.
#[derive(Drop)]
pub enum Explained {
    /// It is the recording of a legal and complete journal: the encounter and the journal.
    Legal(AirState),
    /// The first wrong line, from 1, and why it is wrong, as in a verdict; and a sentence that tells it, with its line
    /// feed.
    Wrong(u32, Reason, Line),
}

// Tells what is wrong with a line after the entries before it, which are read once more.
fn tell_after(alloc: Global, bytes: &[u8], line: u32, reason: Reason) -> Result<Line, AllocError>
    requires small { length bytes.now < 2 ^ 32 - 1 }
    requires wrong { IsWrong (lines_of bytes.now) line reason }
    requires after { is_after_entries reason ≡ true }
    ensures { IfOk result (TellsSomething bytes.now line reason) }
{
    verdict_law();
    let lines = lines_from(bytes, line);
    let before = &bytes[..bytes.len() - lines.rest().len()];
    match load_part(alloc, before)? {
        Loaded::Legal(mut state) => Ok(tell_here(&mut state, &lines, line, reason)),
        Loaded::Wrong(_, _) => unreachable!(),
    }
}

// Tells what is wrong with the encounter of a recording, which is refused.
fn tell_encounter(alloc: Global, bytes: &[u8], line: u32, code: Code) -> Result<Line, AllocError>
    requires small { length bytes.now < 2 ^ 32 - 1 }
    requires wrong { IsWrong (lines_of bytes.now) line (Reason.Encounter code) }
    ensures { IfOk result (TellsPart (drop 1 (lines_of bytes.now))) }
{
    let lines = behind_head(bytes);
    match part_in(&lines) {
        Some(text) => tell_part(alloc, bytes, &lines, text),
        None => unreachable!(),
    }
}

// Tells what is wrong with a line of the report or the close.
fn tell_end(alloc: Global, bytes: &[u8], line: u32) -> Result<Line, AllocError>
    requires small { length bytes.now < 2 ^ 32 - 1 }
    requires wrong { IsWrong (lines_of bytes.now) line Reason.Report }
    ensures { IfOk result (TellsSomething bytes.now line Reason.Report) }
{
    let lines = lines_from(bytes, line);
    if has_return_in(&lines) {
        return Ok(sentence_of(line, Why::CarriageReturn));
    }
    let told = tell_report(alloc, bytes, line)?;
    Ok(told)
}

// Tells why a line is wrong.
fn tell(alloc: Global, bytes: &[u8], line: u32, reason: Reason) -> Result<Line, AllocError>
    requires small { length bytes.now < 2 ^ 32 - 1 }
    requires wrong { IsWrong (lines_of bytes.now) line reason }
    ensures { IfOk result (TellsSomething bytes.now line reason) }
{
    match reason {
        Reason::Encounter(code) => tell_encounter(alloc, bytes, line, code),
        Reason::Spelling => tell_misspelled(alloc, bytes, line),
        Reason::NotAllowed => tell_after(alloc, bytes, line, reason),
        Reason::OtherContent => tell_after(alloc, bytes, line, reason),
        Reason::Incomplete => tell_after(alloc, bytes, line, reason),
        Reason::Report => tell_end(alloc, bytes, line),
    }
}

/// Judges a recording, as [`load`] does, and tells in a sentence why the first wrong line can't stand there. For that
/// the lines before it are read once more.
///
/// It takes memory as [`load`] does, and time linear in the bytes. The error says that memory was wanting.
pub fn explain(alloc: Global, bytes: &[u8]) -> Result<Explained, AllocError>
    requires { length bytes.now < 2 ^ 32 - 1 }
    ensures { IfOk result (IsExplained bytes.now) }
{
    match load(alloc, bytes)? {
        Loaded::Legal(state) => Ok(Explained::Legal(state)),
        Loaded::Wrong(line, reason) => {
            let told = tell(alloc, bytes, line, reason)?;
            Ok(Explained::Wrong(line, reason, told))
        }
    }
}
