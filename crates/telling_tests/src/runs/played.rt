// The greatest encounter, played in one thread. Expected values: by hand from docs/FORMATS.md.
use super::{answers, lines_between, lines_with, recording};
use acas_top::Status;
use std::alloc::{AllocError, Global};
use std::sync::Wait;
use std::test::Fail;
use std::thread::Threads;

fn add_craft(alloc: Global, text: &mut Vec<u8>, craft: u32) -> Result<(), AllocError> {
    let line = format!(in alloc; "craft,0000{craft},TA,{craft}00,0,{craft}000\n")?;
    text.extend_from_slice(line.as_bytes())
}

fn add_leg(alloc: Global, text: &mut Vec<u8>, craft: u32, cycle: u32) -> Result<(), AllocError> {
    let line = format!(in alloc; "leg,0000{craft},{cycle},100,0,0\n")?;
    text.extend_from_slice(line.as_bytes())
}

// Sixteen aircraft of format 2, with a leg of each in each of 600 cycles, without the end of the text.
fn sixteen_aircraft(alloc: Global) -> Result<Vec<u8>, AllocError> {
    let mut text = b"encounter,2\nrun,600,0\n".to_vec(alloc)?;
    for craft in 10..26u32 {
        add_craft(alloc, &mut text, craft)?;
    }
    for craft in 10..26u32 {
        for cycle in 1..601u32 {
            add_leg(alloc, &mut text, craft, cycle)?;
        }
    }
    Ok(text)
}

// Whether a recording is resumed from this line on.
fn is_resumed<R: Threads + Wait + Sync + Alloc<A = Global>>(
    rt: &R,
    text: &[u8],
    entries_end: u64,
) -> Result<bool, AllocError> {
    let begun = lines_between(rt.alloc(), text, 1, entries_end)?;
    answers(rt, "resume", begun.as_slice(), Status::Done, text)
}

// Whether their recording has this many commits, is legal, and is resumed from the line before its report. Nothing is
// watched, since nobody advises.
fn is_read<R: Threads + Wait + Sync + Alloc<A = Global>>(
    rt: &R,
    text: &[u8],
    commits: u64,
    entries_end: u64,
) -> Result<bool, AllocError> {
    Ok(
        lines_with(text, b"c,") == commits
            && answers(rt, "audit", text, Status::Done, b"legal,9600\n")?
            && answers(rt, "watch", text, Status::Done, b"watch,0\n")?
            && is_resumed(rt, text, entries_end)?,
    )
}

fn is_recorded<R: Threads + Wait + Sync + Alloc<A = Global>>(
    rt: &R,
    encounter: &[u8],
) -> Result<bool, AllocError> {
    let whole = recording(rt, encounter, b"end\n")?;
    is_read(rt, whole.as_slice(), 9_600, 19_222)
}

fn are_sixteen_recorded<R: Threads + Wait + Sync + Alloc<A = Global>>(
    rt: &R,
) -> Result<bool, AllocError> {
    let text = sixteen_aircraft(rt.alloc())?;
    is_recorded(rt, text.as_slice())
}

// The most aircraft and cycles, and the most legs of each: `end` is line 9,621.
#[test]
fn plays_sixteen_aircraft(rt: HostRuntime) -> Result<(), Fail> {
    assert!(rt; are_sixteen_recorded(&rt)?);
    Ok(())
}
