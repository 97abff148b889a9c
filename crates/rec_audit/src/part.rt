// What is told of the encounter in a recording.
ghost use Rattle.std.specs.Prelude.{◌≡◌, ◌-◌, ◌<◌, ◌^◌, ◌∷◌, ◌++◌, Err, IfOk, List, MatchBool, ℕ, drop, length};
ghost use Rattle.acas_lines.specs.Split.{lines_of};
ghost use Rattle.enc_file.specs.Reading.{reading_of};
ghost use Rattle.fault_text.specs.Told.{IsExplained};
ghost use Rattle.rec_audit.specs.Explaining.{ComeOther, IsCanonicalSentence, IsHeaded, IsMarked, IsNoCanonical, IsPart, TellsCanonical, TellsPart, TellsText};
ghost use Rattle.rec_text.specs.Recording.{head_line};

use crate::compare::take_text;
use crate::lines::TextLines;
use crate::picking::line_of_text;
use crate::sentences::sentence_of;
use crate::spelled::first_return;
use acas_base::Encounter;
use acas_text::Line;
use enc_file::{CanonicalText, ReadError, Refusal, read};
use fault_text::{explained, records_law};
use std::alloc::{AllocError, Global};
use verdict_text::{Wanted, Why};

// How many bytes the first line of a recording has before its line feed.
const HEAD: usize = 11;

/// The lines behind the first one of a recording.
pub(crate) fn behind_head(bytes: &[u8]) -> TextLines<'_>
    requires small { length bytes.now < 2 ^ 32 - 1 }
    requires headed { IsHeaded (lines_of bytes.now) }
    ensures left { result.left ≡ drop 1 (lines_of bytes.now) }
    ensures taken { result.taken ≡ 1 }
{
    let mut lines = TextLines::of(bytes);
    match lines.next() {
        Some(_) => lines,
        None => unreachable!(),
    }
}

// Whether a byte order mark stands in front of a text.
fn is_marked(text: &[u8]) -> bool
    ensures { MatchBool result (IsMarked text.now) (IsMarked text.now → ⊥) }
{
    match text {
        [0xEF, 0xBB, 0xBF, ..] => true,
        _ => false,
    }
}

// The sentence that tells the canonical line.
fn canonical_sentence(line: u32, wanted: &Wanted) -> Line
    ensures { IsCanonicalSentence line wanted.now result }
{
    sentence_of(line, Why::NotCanonical { wanted })
}

// Tells the first canonical line of an encounter that doesn't come.
fn tell_canonical(encounter: &Encounter, lines: &TextLines<'_>) -> Line
    requires second { lines.now.taken ≡ 1 }
    requires other { ComeOther lines.now.left encounter.now }
    ensures { TellsCanonical lines.now.left encounter.now result }
{
    let mut there = lines.again();
    if take_text(&CanonicalText(encounter), &mut there) {
        unreachable!();
    }
    let line = there.number();
    match line_of_text(&CanonicalText(encounter), line - 2) {
        Some(wanted) => canonical_sentence(line, &wanted),
        None => unreachable!(),
    }
}

// Tells why the text of an encounter in a recording is refused. The line feed of the recording's first line stands
// before the text, so that its lines have the numbers of the recording's.
fn tell_refused(
    alloc: Global,
    bytes: &[u8],
    text: &[u8],
    refusal: Refusal,
) -> Result<Line, AllocError>
    requires small { length bytes.now < 2 ^ 32 - 1 }
    requires whole { (rest : List ℕ) × (bytes.now ≡ head_line ++ (text.now ++ rest)) }
    requires plain { IsMarked text.now → ⊥ }
    requires refused { reading_of text.now ≡ Err refusal }
    ensures { IfOk result (IsExplained (10 ∷ text.now) refusal) }
{
    records_law();
    let behind = &bytes[HEAD..];
    explained(alloc, &behind[..text.len() + 1], refusal)
}

// Tells what is wrong with the text of an encounter in a recording.
fn tell_text(
    alloc: Global,
    bytes: &[u8],
    lines: &TextLines<'_>,
    text: &[u8],
) -> Result<Line, AllocError>
    requires small { length bytes.now < 2 ^ 32 - 1 }
    requires headed { lines_of bytes.now ≡ head_line ∷ lines.now.left }
    requires second { lines.now.taken ≡ 1 }
    requires is_part { IsPart lines.now.left text.now }
    requires wrong { IsNoCanonical lines.now.left }
    ensures { IfOk result (TellsText lines.now.left text.now) }
{
    if is_marked(text) {
        return Ok(sentence_of(2, Why::Mark));
    }
    match read(alloc, text) {
        Ok(encounter) => Ok(tell_canonical(&encounter, lines)),
        Err(ReadError::Refused(refusal)) => {
            let told = tell_refused(alloc, bytes, text, refusal)?;
            Ok(told)
        }
        Err(ReadError::OutOfMemory) => Err(AllocError),
    }
}

/// Tells what is wrong with the encounter in a recording. Its lines are those of the recording behind the first one,
/// and `text` has the bytes of the lines up to the first end.
pub(crate) fn tell_part(
    alloc: Global,
    bytes: &[u8],
    lines: &TextLines<'_>,
    text: &[u8],
) -> Result<Line, AllocError>
    requires small { length bytes.now < 2 ^ 32 - 1 }
    requires headed { lines_of bytes.now ≡ head_line ∷ lines.now.left }
    requires second { lines.now.taken ≡ 1 }
    requires is_part { IsPart lines.now.left text.now }
    requires wrong { IsNoCanonical lines.now.left }
    ensures { IfOk result (TellsPart lines.now.left) }
{
    match first_return(&TextLines::second(text)) {
        Some(line) => Ok(sentence_of(line, Why::CarriageReturn)),
        None => {
            let told = tell_text(alloc, bytes, lines, text)?;
            Ok(told)
        }
    }
}
