// What stands before the entries: the first line, the encounter, and the number of entries.
ghost use Rattle.std.specs.Prelude.{◌≡◌, ◌≢◌, ◌+◌, ◌-◌, ◌<◌, ◌≤◌, ◌^◌, ◌∷◌, [], ℕ, IfOk, MatchBool, MatchOption, MatchResult, codes, length};
ghost use Rattle.std.specs.Fmt.{decimal};
ghost use Rattle.acas_lines.specs.Split.{lines_of};
ghost use Rattle.acas_lines.specs.Lines.{joined};
ghost use Rattle.rec_audit.specs.Engine.{IsOpened, ReadPart, SkippedPart};
ghost use Rattle.rec_audit.specs.Cursors.{Took};
ghost use Rattle.rec_audit.specs.Explaining.{IsPart};
ghost use Rattle.rec_audit.specs.Opening.{HasNoEnd, IsWrongAfterHead, IsWrongOpening, NoCount};
ghost use Rattle.rec_audit.specs.declared.opening.TheConstants.{MOST_TOLD};
ghost use Rattle.rec_text.specs.Recording.{journal_line};

use crate::compare::take_text;
use crate::fault::Fault;
use crate::fields::Fields;
use crate::lines::TextLines;
use crate::values::before_flag;
use crate::verdict::Reason;
use acas_base::Encounter;
use enc_file::{CanonicalText, ReadError, read};
use std::alloc::{AllocError, Global};

// The most entries that a recording can say.
const MOST_TOLD: u32 = 999_999_999;

/// The encounter, the number of entries, and the lines after it.
#[derive(Drop)]
pub(crate) struct Opened<'a> {
    pub encounter: Encounter,
    pub count: u32,
    pub lines: TextLines<'a>,
}

// The number of entries that the fields after the first one spell.
fn number_in(fields: &mut Fields<'_>) -> Option<u32>
    ensures { MatchOption result ((count : ℕ) → count ≤ MOST_TOLD → fields.old ≢ decimal count ∷ []) (λ count. (count ≤ MOST_TOLD) × (fields.old ≡ decimal count ∷ [])) }
{
    let count = fields.number(0, MOST_TOLD)?;
    if !fields.is_done() {
        return None;
    }
    Some(count)
}

// The number of entries that fields spell.
fn told_in(fields: &mut Fields<'_>) -> Option<u32>
    ensures { MatchOption result ((count : ℕ) → count ≤ MOST_TOLD → fields.old ≢ codes "journal" ∷ decimal count ∷ []) (λ count. (count ≤ MOST_TOLD) × (fields.old ≡ codes "journal" ∷ decimal count ∷ [])) }
{
    let word = fields.next()?;
    if word != b"journal".as_slice() {
        return None;
    }
    number_in(fields)
}

// The number of entries that a line spells.
fn count_of(line: &[u8]) -> Option<u32>
    ensures { MatchOption result ((count : ℕ) → count ≤ MOST_TOLD → journal_line count ≢ line.now) (λ count. (count ≤ MOST_TOLD) × (line.now ≡ journal_line count)) }
{
    let (body, is_whole) = before_flag(line, b'\n');
    if !is_whole {
        return None;
    }
    told_in(&mut Fields::of(body))
}

// Takes the lines of the encounter, up to the first end.
fn skip_part(lines: &mut TextLines<'_>) -> bool
    ensures { MatchBool result (SkippedPart lines.old lines.new) (HasNoEnd lines.old.left × Took lines.old lines.new lines.old.left) }
{
    while let Some(line) = lines.next() {
        if line == b"end\n".as_slice() {
            return true;
        }
    }
    false
}

/// The bytes of the lines up to the first end; none where no line is an end.
pub(crate) fn part_in<'a>(lines: &TextLines<'a>) -> Option<&'a [u8]>
    ensures { MatchOption result (HasNoEnd lines.now.left) (λ text. IsPart lines.now.left text.now) }
{
    let text = lines.rest();
    let mut after = lines.again();
    if !skip_part(&mut after) {
        return None;
    }
    Some(&text[..text.len() - after.rest().len()])
}

// The number of entries that the next line spells.
fn take_count(lines: &mut TextLines<'_>) -> Option<u32>
    ensures { MatchOption result (NoCount lines.old.left) (λ count. (count ≤ MOST_TOLD) × Took lines.old lines.new (journal_line count ∷ [])) }
{
    count_of(lines.next()?)
}

// The encounter whose canonical lines come next.
fn take_encounter(
    alloc: Global,
    lines: &mut TextLines<'_>,
) -> Result<Result<Encounter, Fault>, AllocError>
    requires second { lines.old.taken ≡ 1 }
    requires small { length (joined lines.old.left) < 2 ^ 32 - 1 }
    ensures { IfOk result (λ read. MatchResult read
        (λ e. ReadPart lines.old e lines.new)
        (λ fault. IsWrongAfterHead lines.old.left fault.line fault.reason)) }
{
    let text = lines.rest();
    let mut again = lines.again();
    if !skip_part(lines) {
        return Ok(Err(Fault {
            line: lines.number(),
            reason: Reason::Spelling,
        }));
    }
    let part = &text[..text.len() - lines.rest().len()];
    let encounter = match read(alloc, part) {
        Ok(encounter) => encounter,
        Err(ReadError::Refused(refusal)) => {
            return Ok(Err(Fault {
                line: 2,
                reason: Reason::Encounter(refusal.code),
            }));
        }
        Err(ReadError::OutOfMemory) => return Err(AllocError),
    };
    encounter.valid_law();
    if !take_text(&CanonicalText(&encounter), &mut again) {
        return Ok(Err(Fault {
            line: 2,
            reason: Reason::Spelling,
        }));
    }
    Ok(Ok(encounter))
}

/// Reads what stands before the entries of a recording. It takes memory for the encounter. The error says that memory
/// was wanting.
pub(crate) fn open(alloc: Global, bytes: &[u8]) -> Result<Result<Opened<'_>, Fault>, AllocError>
    requires { length bytes.now < 2 ^ 32 - 1 }
    ensures { IfOk result (λ opened. MatchResult opened
        (λ o. IsOpened (lines_of bytes.now) o.encounter o.count o.lines)
        (λ fault. IsWrongOpening (lines_of bytes.now) fault.line fault.reason)) }
{
    let mut lines = TextLines::of(bytes);
    if !lines.take_line(b"recording,1\n") {
        return Ok(Err(Fault {
            line: 1,
            reason: Reason::Spelling,
        }));
    }
    let encounter = match take_encounter(alloc, &mut lines)? {
        Ok(encounter) => encounter,
        Err(fault) => return Ok(Err(fault)),
    };
    let line = lines.number();
    match take_count(&mut lines) {
        Some(count) => Ok(Ok(Opened {
            encounter,
            count,
            lines,
        })),
        None => Ok(Err(Fault {
            line,
            reason: Reason::Spelling,
        })),
    }
}
