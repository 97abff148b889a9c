// Whole runs, and what their tests share. What else the words write of texts is shown by the cases of
// `crates/case_tests/data`.
mod faults;
mod judged;
mod played;
mod resumed;
mod threaded;

use acas_io::{MemSink, MemSource};
use acas_top::{Status, acas};
use craft_worker::Pause;
use std::alloc::{AllocError, Global};
use std::sync::Wait;
use std::thread::Threads;

// Two aircraft with resolution advisories that fly towards each other, at different altitudes and at the same one. The
// end of the text is missing.
const APART: &[u8] =
    b"encounter,1\nrun,31,0\ncraft,400A01,RA,0,0,35000\ncraft,400B02,RA,91200,0,35300\nleg,400A01,1,760,0,0\nleg,400B02,1,-760,0,0\n";

const LEVEL: &[u8] =
    b"encounter,1\nrun,31,0\ncraft,400A01,RA,0,0,35000\ncraft,400B02,RA,91200,0,35000\nleg,400A01,1,760,0,0\nleg,400B02,1,-760,0,0\n";

// The same two at one altitude, in format 2.
const LEVEL_2: &[u8] =
    b"encounter,2\nrun,31,0\ncraft,400A01,RA,0,0,35000\ncraft,400B02,RA,91200,0,35000\nleg,400A01,1,760,0,0\nleg,400B02,1,-760,0,0\n";

// How the text of the two at one altitude goes on. A copy is held back so long that it is taken last.
const HELD_LONG: &[u8] =
    b"gains,1024,1024,1024,1024\nleg,400B02,27,-760,0,6000\nfate,400A01,400B02,2,0,00,3,00\nfate,400A01,400B02,5\nend\n";

// The lower address misses the replies of the other one from cycle 22 on, and its cancel is lost.
const LAPSING: &[u8] =
    b"encounter,1\nrun,33,0\ncraft,400A01,RA,0,0,35000\ncraft,400B02,RA,91200,0,35000\nleg,400A01,1,760,0,0\nleg,400B02,1,-760,0,0\nmiss,400A01,400B02,22,60\nfate,400A01,400B02,2\n";

// An aircraft between two others, one above it and one below.
const BETWEEN: &[u8] =
    b"encounter,1\nrun,25,0\ngains,1024,1024,1024,1024\ncraft,400A01,RA,45600,0,34700\ncraft,400B02,RA,-45600,0,35300\ncraft,400C03,RA,0,0,35000\nleg,400A01,1,-760,0,0\nleg,400B02,1,760,0,0\n";

// Two near the ground.
const LOW: &[u8] =
    b"encounter,1\nrun,17,0\ncraft,400A01,RA,0,0,1099\ncraft,400B02,RA,12000,0,1099\nleg,400A01,1,200,0,0\nleg,400B02,1,-200,0,0\n";

// A threat with a transponder only, which climbs in the end.
const TRANSPONDER: &[u8] =
    b"encounter,1\nrun,31,0\ngains,1024,1024,1024,1024\ncraft,400A01,XPDR,0,0,35000\ncraft,400B02,RA,91200,0,35000\nleg,400A01,1,760,0,0\nleg,400A01,27,760,0,6000\nleg,400B02,1,-760,0,0\n";

const ONE_CYCLE: &[u8] =
    b"encounter,1\nrun,1,0\ngains,683,256,512,128\ncraft,400100,RA,-55000,39000,22400\nleg,400100,1,550,-390,-800\nend\n";

const ONE_CYCLE_RECORDING: &[u8] =
    b"recording,1\nencounter,1\nrun,1,0\ngains,683,256,512,128\ncraft,400100,RA,-55000,39000,22400\nleg,400100,1,550,-390,-800\nend\njournal,1\nc,0,1,-\nreport,0\nclose\n";

// Makes no aircraft wait.
struct NoPause;

impl Pause for NoPause {
    fn pause(&self, _craft: u8, _cycle: u16) {}
}

// How a run ended, and what it wrote.
#[derive(Drop)]
struct Outcome {
    status: Status,
    sink: MemSink,
}

// The words of a line.
fn words_of(alloc: Global, line: &str) -> Result<Vec<String>, AllocError> {
    let mut words = Vec::new(alloc);
    for word in line.split_whitespace() {
        words.push(String::from_str(alloc, word)?)?;
    }
    Ok(words)
}

// A source and a sink in memory. These reads and writes fail.
fn source_of(alloc: Global, input: &[u8], failing: &[u64]) -> Result<MemSource, AllocError> {
    let bytes = input.to_vec(alloc)?;
    Ok(MemSource::new(bytes, 64, failing.to_vec(alloc)?))
}

fn sink_of(alloc: Global, failing: &[u64]) -> Result<MemSink, AllocError> {
    let room = Vec::with_capacity(alloc, 2_000_000)?;
    Ok(MemSink::new(room, 16, failing.to_vec(alloc)?))
}

// Runs words on a source and a sink.
fn ended<R: Threads + Wait + Sync + Alloc<A = Global>, P: Pause + Sync>(
    rt: &R,
    words: &[String],
    mut source: MemSource,
    mut sink: MemSink,
    pause: &P,
) -> Outcome {
    let status = acas(rt, rt.alloc(), words, &mut source, &mut sink, pause);
    Outcome { status, sink }
}

// Runs the words of a line on a source and a sink in memory. These reads and writes fail.
fn run_with<R: Threads + Wait + Sync + Alloc<A = Global>, P: Pause + Sync>(
    rt: &R,
    line: &str,
    input: &[u8],
    failing_reads: &[u64],
    failing_writes: &[u64],
    pause: &P,
) -> Result<Outcome, AllocError> {
    let words = words_of(rt.alloc(), line)?;
    let source = source_of(rt.alloc(), input, failing_reads)?;
    let sink = sink_of(rt.alloc(), failing_writes)?;
    Ok(ended(rt, words.as_slice(), source, sink, pause))
}

// Runs the words of a line, where nothing fails.
fn run<R: Threads + Wait + Sync + Alloc<A = Global>>(
    rt: &R,
    line: &str,
    input: &[u8],
) -> Result<Outcome, AllocError> {
    run_with(rt, line, input, &[], &[], &NoPause)
}

// Whether a run ends with this status, and writes this text.
fn answers<R: Threads + Wait + Sync + Alloc<A = Global>>(
    rt: &R,
    line: &str,
    input: &[u8],
    status: Status,
    text: &[u8],
) -> Result<bool, AllocError> {
    let done = run(rt, line, input)?;
    Ok(done.status == status && done.sink.bytes() == text)
}

// A text of two parts.
fn joined(alloc: Global, open: &[u8], rest: &[u8]) -> Result<Vec<u8>, AllocError> {
    let mut text = open.to_vec(alloc)?;
    text.extend_from_slice(rest)?;
    Ok(text)
}

// The recording of an encounter whose text has two parts.
fn recording<R: Threads + Wait + Sync + Alloc<A = Global>>(
    rt: &R,
    open: &[u8],
    rest: &[u8],
) -> Result<Vec<u8>, AllocError> {
    let text = joined(rt.alloc(), open, rest)?;
    let played = run(rt, "serial", text.as_slice())?;
    played.sink.bytes().to_vec(rt.alloc())
}

// How many lines of a text begin so.
fn lines_with(text: &[u8], beginning: &[u8]) -> u64 {
    let mut count = 0u64;
    for line in text.split(|byte| *byte == b'\n') {
        if line.starts_with(beginning) {
            count = count.saturating_add(1);
        }
    }
    count
}

// The line of an entry in a recording.
fn entry_in(text: &[u8], position: usize) -> &[u8] {
    let mut left: Option<usize> = None;
    for line in text.split(|byte| *byte == b'\n') {
        match left {
            Some(0) => return line,
            Some(more) => left = Some(more - 1),
            None => if line.starts_with(b"journal,") {
                left = Some(position);
            },
        }
    }
    &[]
}

// Adds a line, with its end.
fn add_line(text: &mut Vec<u8>, line: &[u8]) -> Result<(), AllocError> {
    text.extend_from_slice(line)?;
    text.push(b'\n')?;
    Ok(())
}

// The lines of a text from one number, from 1, to another one.
fn lines_between(alloc: Global, text: &[u8], first: u64, last: u64) -> Result<Vec<u8>, AllocError> {
    let mut lines = Vec::new(alloc);
    let mut number = 0u64;
    for line in text.split(|byte| *byte == b'\n') {
        number = number.saturating_add(1);
        if number >= first && number <= last && !line.is_empty() {
            add_line(&mut lines, line)?;
        }
    }
    Ok(lines)
}
