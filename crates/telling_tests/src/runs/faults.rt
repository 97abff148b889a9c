// Reads and writes that fail, inputs that are too long, and words that are no command. Expected values: the causes in
// README.md, and the limits in docs/FORMATS.md.
use super::{
    APART, LEVEL, NoPause, ONE_CYCLE, ONE_CYCLE_RECORDING, Outcome, answers, joined, lines_between,
    recording, run, run_with, words_of,
};
use acas_io::{SureSink, SureSource};
use acas_top::{Status, acas_plain};
use std::alloc::{AllocError, Global};
use std::sync::Wait;
use std::test::Fail;
use std::thread::Threads;

// Runs the words of a line, where these reads and writes fail.
fn failing<R: Threads + Wait + Sync + Alloc<A = Global>>(
    rt: &R,
    line: &str,
    input: &[u8],
    reads: &[u64],
    writes: &[u64],
) -> Result<Outcome, AllocError> {
    run_with(rt, line, input, reads, writes, &NoPause)
}

// The first reads of a run fail in turn, and then the first writes. Where a read fails, nothing was written. Where a
// write fails, what the writes before it wrote was written. What a run in threads writes first is the same in any
// order.
fn tells_each_fault<R: Threads + Wait + Sync + Alloc<A = Global>>(
    rt: &R,
    line: &str,
    input: &[u8],
    reads: u64,
    writes: u64,
) -> Result<bool, AllocError> {
    for read in 0..reads {
        if !is_unread(rt, line, input, read + 1)? {
            return Ok(false);
        }
    }
    let whole = run(rt, line, input)?;
    tells_each_write(rt, line, input, whole.sink.bytes(), writes)
}

fn tells_each_write<R: Threads + Wait + Sync + Alloc<A = Global>>(
    rt: &R,
    line: &str,
    input: &[u8],
    text: &[u8],
    writes: u64,
) -> Result<bool, AllocError> {
    for write in 0..writes.min(text.len() as u64 / 16) {
        if !is_unwritten(rt, line, input, text, write + 1)? {
            return Ok(false);
        }
    }
    Ok(true)
}

// Whether nothing is written where this read fails.
fn is_unread<R: Threads + Wait + Sync + Alloc<A = Global>>(
    rt: &R,
    line: &str,
    input: &[u8],
    read: u64,
) -> Result<bool, AllocError> {
    let unread = failing(rt, line, input, &[read], &[])?;
    Ok(unread.status == Status::ReadFault && unread.sink.bytes().is_empty())
}

// Whether just the writes before this one are made where it fails.
fn is_unwritten<R: Threads + Wait + Sync + Alloc<A = Global>>(
    rt: &R,
    line: &str,
    input: &[u8],
    text: &[u8],
    write: u64,
) -> Result<bool, AllocError> {
    let unwritten = failing(rt, line, input, &[], &[write])?;
    Ok(unwritten.status == Status::WriteFault && is_front(unwritten.sink.bytes(), text, write))
}

fn is_front(front: &[u8], text: &[u8], write: u64) -> bool {
    text.starts_with(front) && front.len() as u64 == write.saturating_sub(1).saturating_mul(16)
}

// What a word reads, how many of its reads fail in turn, and how many of its writes at most.
type Failing = (&'static str, Reads, u64, u64);

#[derive(Clone, Copy)]
enum Reads {
    Nothing,
    Encounter,
    Recording,
    Beginning,
}

const FAILING: &[Failing] = &[
    ("serial", Reads::Encounter, 3, 1000),
    ("play", Reads::Encounter, 3, 9),
    ("audit", Reads::Recording, 3, 1000),
    ("sum", Reads::Encounter, 3, 1000),
    ("gen 7 1 1", Reads::Nothing, 0, 1000),
    ("reports", Reads::Recording, 3, 1000),
];

const FAILING_TOO: &[Failing] = &[
    ("sweep 7 3 1 1", Reads::Nothing, 0, 1000),
    ("response", Reads::Recording, 3, 1000),
    ("watch", Reads::Recording, 3, 1000),
    ("resume", Reads::Beginning, 3, 1000),
    ("why", Reads::Recording, 3, 1000),
];

fn input_of<R: Threads + Wait + Sync + Alloc<A = Global>>(
    rt: &R,
    reads: Reads,
) -> Result<Vec<u8>, AllocError> {
    let alloc = rt.alloc();
    match reads {
        Reads::Nothing => Ok(Vec::new(alloc)),
        Reads::Encounter => joined(alloc, LEVEL, b"end\n"),
        Reads::Recording => recording(rt, APART, b"end\n"),
        Reads::Beginning => {
            let whole = recording(rt, APART, b"end\n")?;
            lines_between(alloc, whole.as_slice(), 1, 50)
        }
    }
}

// Whether a word answers each fault.
fn is_told<R: Threads + Wait + Sync + Alloc<A = Global>>(
    rt: &R,
    row: Failing,
) -> Result<bool, AllocError> {
    let (line, reading, reads, writes) = row;
    let input = input_of(rt, reading)?;
    tells_each_fault(rt, line, input.as_slice(), reads, writes)
}

// The place of the first word that answers a fault otherwise.
fn first_other<R: Threads + Wait + Sync + Alloc<A = Global>>(
    rt: &R,
    words: &[Failing],
) -> Result<Option<usize>, AllocError> {
    for place in 0..words.len() {
        if !is_told(rt, words[place])? {
            return Ok(Some(place));
        }
    }
    Ok(None)
}

#[test]
fn tells_faults(rt: HostRuntime) -> Result<(), Fail> {
    assert_eq!(rt; first_other(&rt, FAILING)?, None);
    assert_eq!(rt; first_other(&rt, FAILING_TOO)?, None);
    Ok(())
}

// Lines of words that are no command, by their number, by a word, or by a number out of its range. The first one is
// empty.
const NO_COMMANDS: &str = "
serial now
play 1
Gen 7 1 1
gen 7 17 1
gen 7 0 1
gen 7 1 601
gen 07 1 1
gen 4294967296 1 1
swept 7 1 1 1
sweep 7 0 1 1
sweep 7 4097 1 1
sweep 7 1 0 1
sweep 7 1 5 1
sweep 7 1 1 0
sweep 7 1 1 121
sweep 4294967296 1 1 1
sweep 7 01 1 1
decode
decode 30240003400b02
instance orders 400A01 27
instance orders 400A01 400A01 2
instance play 400A01 27 CLEAR
compare compare
--help serial
--version 1
-v
--versions";

// Whether a line's status is Usage, where the first read and the first write would fail.
fn is_no_command<R: Threads + Wait + Sync + Alloc<A = Global>>(
    rt: &R,
    line: &str,
) -> Result<bool, AllocError> {
    let none = failing(rt, line, ONE_CYCLE, &[1], &[1])?;
    Ok(none.status == Status::Usage && none.sink.bytes().is_empty())
}

// Whether no line of a text is a command.
fn are_no_commands<R: Threads + Wait + Sync + Alloc<A = Global>>(
    rt: &R,
    lines: &str,
) -> Result<bool, AllocError> {
    for line in lines.split('\n') {
        if !is_no_command(rt, line)? {
            return Ok(false);
        }
    }
    Ok(true)
}

// The status of the words of a line where nobody may wait.
fn plain_status<R: Threads + Sync + Alloc<A = Global>>(
    rt: &R,
    word: &str,
) -> Result<Status, AllocError> {
    let alloc = rt.alloc();
    let words = words_of(alloc, word)?;
    let mut source = SureSource::new(Vec::new(alloc));
    let mut sink = SureSink::new(Vec::new(alloc));
    Ok(acas_plain(rt, alloc, words.as_slice(), &mut source, &mut sink))
}

#[test]
fn reads_nothing_without_a_command(rt: HostRuntime) -> Result<(), Fail> {
    assert!(rt; are_no_commands(&rt, NO_COMMANDS)?);
    // Words that run threads aren't among those that wait for nobody.
    assert_eq!(rt; plain_status(&rt, "play")?, Status::Usage);
    assert_eq!(rt; plain_status(&rt, "sum")?, Status::Usage);
    Ok(())
}

// Words with which the program tells about itself.
const ABOUT_ITSELF: &[&str] = &["--version", "--help", "-h", "help"];

// Whether a line is obeyed where the first read would fail.
fn is_obeyed_unread<R: Threads + Wait + Sync + Alloc<A = Global>>(
    rt: &R,
    line: &str,
) -> Result<bool, AllocError> {
    let told = failing(rt, line, ONE_CYCLE, &[1], &[])?;
    Ok(told.status == Status::Done)
}

// The place of the first line that isn't.
fn first_reader<R: Threads + Wait + Sync + Alloc<A = Global>>(
    rt: &R,
    lines: &[&str],
) -> Result<Option<usize>, AllocError> {
    for place in 0..lines.len() {
        if !is_obeyed_unread(rt, lines[place])? {
            return Ok(Some(place));
        }
    }
    Ok(None)
}

#[test]
fn reads_nothing_about_itself(rt: HostRuntime) -> Result<(), Fail> {
    assert_eq!(rt; first_reader(&rt, ABOUT_ITSELF)?, None);
    Ok(())
}

// The longest input: blank lines, and an encounter of one cycle behind them.
fn filled(alloc: Global) -> Result<Vec<u8>, AllocError> {
    let mut text = vec![in alloc; b'\n'; 16_777_216 - ONE_CYCLE.len()]?;
    text.extend_from_slice(ONE_CYCLE)?;
    Ok(text)
}

// Whether a text with one more blank line is too long for a word.
fn is_too_long<R: Threads + Wait + Sync + Alloc<A = Global>>(
    rt: &R,
    word: &str,
    mut text: Vec<u8>,
) -> Result<bool, AllocError> {
    text.push(b'\n')?;
    answers(rt, word, text.as_slice(), Status::TooLong, b"")
}

fn is_read_to_the_limit<R: Threads + Wait + Sync + Alloc<A = Global>>(
    rt: &R,
) -> Result<bool, AllocError> {
    let text = filled(rt.alloc())?;
    if !answers(
        rt,
        "serial",
        text.as_slice(),
        Status::Done,
        ONE_CYCLE_RECORDING,
    )? {
        return Ok(false);
    }
    is_too_long(rt, "serial", text)
}

// Blank lines are no records, so a text with many of them says the same.
#[test]
fn reads_texts_up_to_the_limit(rt: HostRuntime) -> Result<(), Fail> {
    assert!(rt; is_read_to_the_limit(&rt)?);
    Ok(())
}

// Words that read a recording, and what they write where empty lines follow a whole recording of 102 lines. Its report
// begins in line 97.
const PADDED: &[(&str, &[u8])] = &[
    ("audit", b"wrong,103,6\n"),
    ("watch", b"wrong,103,6\n"),
    ("resume", b"wrong,97,6\n"),
];

// A recording, and behind it the most empty lines that the input may have.
fn padded<R: Threads + Wait + Sync + Alloc<A = Global>>(rt: &R) -> Result<Vec<u8>, AllocError> {
    let mut text = recording(rt, APART, b"end\n")?;
    text.resize(67_108_864, b'\n')?;
    Ok(text)
}

// The place of the first word that answers otherwise.
fn first_other_end<R: Threads + Wait + Sync + Alloc<A = Global>>(
    rt: &R,
    text: &[u8],
    words: &[(&str, &[u8])],
) -> Result<Option<usize>, AllocError> {
    for place in 0..words.len() {
        let (word, verdict) = words[place];
        if !answers(rt, word, text, Status::Wrong, verdict)? {
            return Ok(Some(place));
        }
    }
    Ok(None)
}

// Whether all words answer so, and with one more empty line the recording is too long.
fn is_ended_so<R: Threads + Wait + Sync + Alloc<A = Global>>(
    rt: &R,
    words: &[(&str, &[u8])],
) -> Result<bool, AllocError> {
    let text = padded(rt)?;
    if first_other_end(rt, text.as_slice(), words)?.is_some() {
        return Ok(false);
    }
    is_too_long(rt, "audit", text)
}

#[test]
fn reads_recordings_up_to_the_limit(rt: HostRuntime) -> Result<(), Fail> {
    assert!(rt; is_ended_so(&rt, PADDED)?);
    Ok(())
}
