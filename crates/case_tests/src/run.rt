// A case is run.
use crate::case::Case;
use crate::spelling::{add_text, word};
use acas_io::{SureSink, SureSource};
use acas_top::{Status, acas};
use craft_worker::Pause;
use std::alloc::{AllocError, Global};
use std::io::{Error, ErrorKind};
use std::rt::Runtime;
use std::sync::Wait;
use std::thread::Threads;
use std::{fs, io};

/// What a case does otherwise.
#[derive(Clone, Copy)]
pub enum Trouble {
    /// The status that it has, and the one that is wanted.
    Status(u8, u8),
    /// The first line of the output that differs.
    Output(u64),
}

// Makes no aircraft wait.
struct NoPause;

impl Pause for NoPause {
    fn pause(&self, _craft: u8, _cycle: u16) {}
}

// How many bytes a call can write.
const ROOM: usize = 4_000_000;

// The words of a call.
fn words_of<R: Runtime + Alloc<A = Global>>(rt: &R, call: &str) -> io::Result<Vec<String>> {
    let mut words = Vec::new(rt.alloc());
    for spelled in call.split_whitespace() {
        words.push(word(rt.alloc(), spelled)?)?;
    }
    Ok(words)
}

// Runs a call on an input, and gives its status and puts what it wrote in the place of the input.
fn run<R: Runtime + Alloc<A = Global> + Threads + Wait + Sync>(
    rt: &R,
    call: &str,
    text: &mut Vec<u8>,
) -> io::Result<Status> {
    let words = words_of(rt, call)?;
    let mut source = SureSource::new(text.as_slice().to_vec(rt.alloc())?);
    let mut sink = SureSink::new(Vec::with_capacity(rt.alloc(), ROOM)?);
    let status = acas(
        rt,
        rt.alloc(),
        words.as_slice(),
        &mut source,
        &mut sink,
        &NoPause,
    );
    text.clear();
    text.extend_from_slice(sink.bytes())?;
    Ok(status)
}

// Runs the calls of a case, and gives the status of the last one, or of the first one that isn't Done.
fn run_all<R: Runtime + Alloc<A = Global> + Threads + Wait + Sync>(
    rt: &R,
    calls: &str,
    text: &mut Vec<u8>,
) -> io::Result<Status> {
    let mut status = Status::Done;
    for call in calls.split('|') {
        if status != Status::Done {
            return Ok(status);
        }
        status = run(rt, call, text)?;
    }
    Ok(status)
}

// Adds the lines of a text from a first one to a last one, counted from 1.
fn add_lines(input: &mut Vec<u8>, text: &[u8], first: u64, last: u64) -> io::Result<()> {
    let mut number = 0u64;
    for line in text.split_inclusive(|byte| *byte == b'\n') {
        number = number.saturating_add(1);
        if first <= number && number <= last {
            input.extend_from_slice(line)?;
        }
    }
    Ok(())
}

// Adds lines of a file, FIRST-LAST.
fn add_part<R: Runtime + Alloc<A = Global>>(
    rt: &R,
    input: &mut Vec<u8>,
    name: &str,
    lines: &str,
) -> io::Result<()> {
    let (first, last) = needed(lines.split_once('-'))?;
    let first = needed(first.parse::<u64>().ok())?;
    let last = needed(last.parse::<u64>().ok())?;
    add_lines(input, fs::read(rt, name)?.as_slice(), first, last)
}

// Adds the case's own text.
fn add_own(input: &mut Vec<u8>, case: Case<'_>) -> io::Result<()> {
    match case.text("input") {
        Some(Some(lines)) => add_text(input, lines),
        Some(None) | None => Ok(()),
    }
}

// Adds what an item of `files` names.
fn add_item<R: Runtime + Alloc<A = Global>>(
    rt: &R,
    input: &mut Vec<u8>,
    item: &str,
    case: Case<'_>,
) -> io::Result<()> {
    if item == "-" {
        return add_own(input, case);
    }
    match item.split_once(':') {
        Some((name, lines)) => add_part(rt, input, name, lines),
        None => Ok(input.extend_from_slice(fs::read(rt, item)?.as_slice())?),
    }
}

// What the first call reads.
fn input_of<R: Runtime + Alloc<A = Global>>(rt: &R, case: Case<'_>) -> io::Result<Vec<u8>> {
    let mut input = Vec::new(rt.alloc());
    let mut is_own_read = false;
    for item in case.field("files: ").unwrap_or("").split_whitespace() {
        is_own_read = is_own_read || item == "-";
        add_item(rt, &mut input, item, case)?;
    }
    if !is_own_read {
        add_own(&mut input, case)?;
    }
    Ok(input)
}

// What the last call has to write, where it is compared.
fn output_of<R: Runtime + Alloc<A = Global>>(
    rt: &R,
    case: Case<'_>,
) -> io::Result<Option<Vec<u8>>> {
    if let Some(name) = case.field("output: ") {
        return Ok(Some(fs::read(rt, name)?));
    }
    let Some(text) = case.text("output") else {
        return Ok(None);
    };
    let mut output = Vec::new(rt.alloc());
    if let Some(lines) = text {
        add_text(&mut output, lines)?;
    }
    Ok(Some(output))
}

// The number of the first line that differs.
fn first_other_line(one: &[u8], other: &[u8]) -> Option<u64> {
    if one == other {
        return None;
    }
    let mut line = 1u64;
    for (a, b) in one.iter().zip(other.iter()) {
        if a != b {
            break;
        }
        if *a == b'\n' {
            line = line.saturating_add(1);
        }
    }
    Some(line)
}

// What a text that was written has in place of the one that is wanted.
fn other_output(written: &[u8], wanted: Option<Vec<u8>>) -> Option<Trouble> {
    Some(Trouble::Output(first_other_line(written, wanted?.as_slice())?))
}

// A field that a case has to have.
fn needed<T>(value: Option<T>) -> io::Result<T> {
    value.ok_or(Error::from(ErrorKind::InvalidData))
}

/// Runs a case, and gives what it does otherwise. A case that is misspelled is an error of kind `InvalidData`.
pub fn checked<R: Runtime + Alloc<A = Global> + Threads + Wait + Sync>(
    rt: &R,
    case: Case<'_>,
) -> io::Result<Option<Trouble>> {
    let calls = needed(case.field("words: "))?;
    let wanted = needed(case.field("status: ").unwrap_or("0").parse::<u8>().ok())?;
    let mut text = input_of(rt, case)?;
    let status = run_all(rt, calls, &mut text)?.code();
    if status != wanted {
        return Ok(Some(Trouble::Status(status, wanted)));
    }
    Ok(other_output(text.as_slice(), output_of(rt, case)?))
}
