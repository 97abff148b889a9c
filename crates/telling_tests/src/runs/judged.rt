// Recordings that are cut. Expected values: by hand from "Verdicts" in docs/FORMATS.md.
use super::{APART, answers, recording};
use acas_top::Status;
use std::alloc::{AllocError, Global};
use std::sync::Wait;
use std::test::Fail;
use std::thread::Threads;

// The line and the reason with which a cut recording is wrong. `lines` whole lines stand, and perhaps a part of the
// next one.
fn fault_of_cut(lines: u64, is_within: bool) -> (u64, u64) {
    if lines >= 96 {
        (lines.saturating_add(1), 6)
    } else if is_within && lines >= 1 && lines <= 8 {
        (lines.saturating_add(2), 2)
    } else {
        (lines.saturating_add(1), 2)
    }
}

// Whether the judge finds a text wrong in this line and for this reason.
fn is_wrong_at<R: Threads + Wait + Sync + Alloc<A = Global>>(
    rt: &R,
    text: &[u8],
    line: u64,
    reason: u64,
) -> Result<bool, AllocError> {
    let verdict = format!(in rt.alloc(); "wrong,{line},{reason}\n")?;
    answers(rt, "audit", text, Status::Wrong, verdict.as_bytes())
}

// The first length of a front of a recording that the judge finds otherwise.
fn first_other_front<R: Threads + Wait + Sync + Alloc<A = Global>>(
    rt: &R,
    right: &[u8],
) -> Result<Option<usize>, AllocError> {
    let mut lines = 0u64;
    let mut is_within = false;
    for end in 0..right.len() {
        let (line, reason) = fault_of_cut(lines, is_within);
        if !is_wrong_at(rt, &right[..end], line, reason)? {
            return Ok(Some(end));
        }
        is_within = right[end] != b'\n';
        if !is_within {
            lines = lines.saturating_add(1);
        }
    }
    Ok(None)
}

fn first_misjudged_front<R: Threads + Wait + Sync + Alloc<A = Global>>(
    rt: &R,
) -> Result<Option<usize>, AllocError> {
    let right = recording(rt, APART, b"end\n")?;
    first_other_front(rt, right.as_slice())
}

// Each front of a recording is wrong.
#[test]
fn judges_recordings_that_are_cut(rt: HostRuntime) -> Result<(), Fail> {
    assert_eq!(rt; first_misjudged_front(&rt)?, None);
    Ok(())
}
