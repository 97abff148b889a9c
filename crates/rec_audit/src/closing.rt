// What is told of the report and the close.
ghost use Rattle.std.specs.Prelude.{◌≡◌, ◌+◌, ◌-◌, ◌<◌, ◌≤◌, ◌^◌, IfOk, drop, length, slice_get};
ghost use Rattle.acas_lines.specs.Split.{lines_of};
ghost use Rattle.rec_audit.specs.Explaining.{IsToldBy, TellsClosing, TellsReport};
ghost use Rattle.rec_audit.specs.Judging.{IsWrong};
ghost use Rattle.rec_audit.specs.declared.verdict.Reason.{Reason};
ghost use Rattle.rec_text.specs.Recording.{closing_lines};

use crate::judging::load_part;
use crate::laws::verdict_law;
use crate::lines::TextLines;
use crate::picking::line_of_text;
use crate::sentences::sentence_of;
use crate::spelled::{lines_from, tell_other};
use crate::verdict::{Loaded, Reason};
use acas_text::Line;
use air_journal::AirState;
use rec_text::Closing;
use std::alloc::{AllocError, Global};
use verdict_text::Why;

// Tells which line of the report and the close has to stand in place of the next one. So many lines of them stand
// before it.
fn tell_closing(state: &AirState, lines: &TextLines<'_>, line: u32, same: u32) -> Line
    ensures { IsToldBy line (TellsClosing (slice_get lines.now.left 0) (slice_get (closing_lines state.now.encounter state.now.journal) same)) result }
{
    match line_of_text(&Closing(state), same) {
        Some(wanted) => tell_other(lines, line, &wanted),
        None => sentence_of(line, Why::TooMany),
    }
}

/// Tells what is wrong with a line of the report or the close. The lines before it are read once more.
pub(crate) fn tell_report(alloc: Global, bytes: &[u8], line: u32) -> Result<Line, AllocError>
    requires small { length bytes.now < 2 ^ 32 - 1 }
    requires wrong { IsWrong (lines_of bytes.now) line Reason.Report }
    ensures { IfOk result (IsToldBy line (TellsReport bytes.now line)) }
{
    verdict_law();
    let lines = lines_from(bytes, line);
    let end = match load_part(alloc, bytes)? {
        Loaded::Legal(state) => return Ok(tell_closing(&state, &lines, line, 0)),
        Loaded::Wrong(end, _) => end,
    };
    let rest = lines_from(bytes, end);
    match load_part(alloc, &bytes[..bytes.len() - rest.rest().len()])? {
        Loaded::Legal(state) => Ok(tell_closing(&state, &lines, line, line - end)),
        Loaded::Wrong(_, _) => unreachable!(),
    }
}
