// Recordings that were cut. Expected values: by hand from "Cut recordings" in docs/FORMATS.md.
use super::{HELD_LONG, LEVEL, lines_between, lines_with, recording, run};
use std::alloc::{AllocError, Global};
use std::sync::Wait;
use std::test::Fail;
use std::thread::Threads;

// Where a recording was cut: how many lines are whole, and how many bytes of the next one stand behind them.
fn cut(alloc: Global, recording: &[u8], lines: u64, bytes: usize) -> Result<Vec<u8>, AllocError> {
    let mut text = lines_between(alloc, recording, 1, lines)?;
    let next = lines_between(
        alloc,
        recording,
        lines.saturating_add(1),
        lines.saturating_add(1),
    )?;
    text.extend_from_slice(&next[..bytes.min(next.len())])?;
    Ok(text)
}

// What is wrong with a cut recording: the line and the reason, or nothing. Its `journal` is this line and says
// `entries` entries. It is cut behind `lines` whole lines, or within the next one.
fn wrong_at(journal: u64, entries: u64, lines: u64, within: bool) -> Option<(u64, u8)> {
    let last = journal.saturating_add(entries);
    if lines > last || (lines == last && within) {
        return Some((last.saturating_add(1), 6));
    }
    if lines >= journal && !within {
        return None;
    }
    // The unfinished line isn't `end`, so the line behind it is missing.
    if lines > 0 && lines.saturating_add(1) < journal && within {
        return Some((lines.saturating_add(2), 2));
    }
    Some((lines.saturating_add(1), 2))
}

// What a recording with this cut is answered with.
fn answer(
    alloc: Global,
    recording: &[u8],
    wrong: Option<(u64, u8)>,
) -> Result<Vec<u8>, AllocError> {
    match wrong {
        Some((line, reason)) => {
            let verdict = format!(in alloc; "wrong,{line},{reason}\n")?;
            verdict.as_bytes().to_vec(alloc)
        }
        None => recording.to_vec(alloc),
    }
}

// Whether `resume` writes this of a text.
fn is_resumed<R: Threads + Wait + Sync + Alloc<A = Global>>(
    rt: &R,
    text: &[u8],
    want: &[u8],
) -> Result<bool, AllocError> {
    let resumed = run(rt, "resume", text)?;
    Ok(resumed.sink.bytes() == want)
}

// Whether a recording that was cut behind `lines` lines, or within the next one, has this answer.
fn is_answered<R: Threads + Wait + Sync + Alloc<A = Global>>(
    rt: &R,
    whole: &[u8],
    lines: u64,
    is_within: bool,
    wrong: Option<(u64, u8)>,
) -> Result<bool, AllocError> {
    let text = cut(rt.alloc(), whole, lines, if is_within { 3 } else { 0 })?;
    let want = answer(rt.alloc(), whole, wrong)?;
    is_resumed(rt, text.as_slice(), want.as_slice())
}

// The first cut with another answer: behind some lines, or within the next one.
fn first_other<R: Threads + Wait + Sync + Alloc<A = Global>>(
    rt: &R,
    whole: &[u8],
    journal: u64,
    entries: u64,
) -> Result<Option<(u64, bool)>, AllocError> {
    for lines in 0..lines_with(whole, b"") {
        for is_within in [false, true] {
            let wrong = wrong_at(journal, entries, lines, is_within);
            if !is_answered(rt, whole, lines, is_within, wrong)? {
                return Ok(Some((lines, is_within)));
            }
        }
    }
    Ok(None)
}

// The same of the recording of the two at one altitude, whose text goes on so.
fn first_other_of<R: Threads + Wait + Sync + Alloc<A = Global>>(
    rt: &R,
    rest: &[u8],
    journal: u64,
    entries: u64,
) -> Result<Option<(u64, bool)>, AllocError> {
    let whole = recording(rt, LEVEL, rest)?;
    first_other(rt, whole.as_slice(), journal, entries)
}

// Each cut of a recording. In the second one a copy is held back and taken last; its `journal` is three lines later.
#[test]
fn answers_each_cut(rt: HostRuntime) -> Result<(), Fail> {
    assert_eq!(rt; first_other_of(&rt, b"end\n", 10, 86)?, None);
    assert_eq!(rt; first_other_of(&rt, HELD_LONG, 13, 86)?, None);
    Ok(())
}
