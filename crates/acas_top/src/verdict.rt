// The line of a verdict.
ghost use Rattle.std.specs.Prelude.{◌≡◌, ◌++◌, ◌+◌, ◌≤◌, length};
ghost use Rattle.acas_text.specs.declared.line.TheConstants.{LINE_BYTES};
ghost use Rattle.acas_top.specs.Answers.{reason_text, verdict_line};
ghost use Rattle.acas_top.specs.declared.verdict.TheConstants.{REASON_BYTES};

use acas_lines::count_line;
use acas_text::{Line, U16_BYTES};
use rec_audit::{Reason, Verdict};

// The most bytes of a reason: its number, and after the number 1 a comma and a code.
const REASON_BYTES: usize = 2 * U16_BYTES + 1;

// Adds the number of a reason. After the number 1 it adds the code of the encounter's refusal.
fn add_reason(line: &mut Line, reason: Reason)
    requires { length line.old + REASON_BYTES ≤ LINE_BYTES }
    ensures added { line.new ≡ line.old ++ reason_text reason }
    ensures short { length line.new ≤ length line.old + REASON_BYTES }
{
    match reason {
        Reason::Encounter(code) => {
            line.text("1,");
            line.u16(u16::from(code.number()));
        }
        _ => line.u16(u16::from(reason.number())),
    }
}

fn wrong_line(number: u32, reason: Reason) -> Line
    ensures { result ≡ verdict_line (Verdict.Wrong number reason) }
{
    let mut line = Line::new();
    line.text("wrong");
    line.u32_field(number);
    line.text(",");
    add_reason(&mut line, reason);
    line.text("\n");
    line
}

/// The line of a verdict: how many entries a legal recording has, or which line is the first wrong one, counted from 1,
/// and why.
pub(crate) fn verdict_line(verdict: Verdict) -> Line
    ensures { result ≡ verdict_line verdict }
{
    match verdict {
        Verdict::Legal(entries) => count_line("legal", entries),
        Verdict::Wrong(number, reason) => wrong_line(number, reason),
    }
}
