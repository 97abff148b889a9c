//! Runs the cases of the folder that it is run in, and says of each that fails why. `tools/cases` runs the same files
//! against the built program, shows how texts differ, and says how a case is written.
#![tactic(auto)]

mod case;
mod run;
mod spelling;

use case::Case;
use run::{Trouble, checked};
use std::alloc::Global;
use std::process::ExitCode;
use std::rt::Runtime;
use std::sync::Wait;
use std::thread::Threads;
use std::{fs, io};

// The names of the files with cases, in order.
fn names<R: Runtime + Alloc<A = Global>>(rt: &R) -> io::Result<Vec<String>> {
    let mut names = Vec::new(rt.alloc());
    for entry in fs::read_dir(rt, ".")? {
        let entry = entry?;
        if entry.file_name().ends_with(".cases") {
            names.push(String::from_str(rt.alloc(), entry.file_name())?)?;
        }
    }
    names.sort()?;
    Ok(names)
}

// Says what a case does otherwise, and gives how many have failed (0 or 1).
fn told<R: Runtime + Alloc<A = Global> + Threads + Wait + Sync>(
    rt: &R,
    file: &str,
    case: Case<'_>,
) -> io::Result<u64> {
    let name = case.name();
    match checked(rt, case) {
        Ok(None) => return Ok(0),
        Ok(Some(Trouble::Status(found, wanted))) => {
            println!(rt; "{file}: {name}: the status is {found}, and not {wanted}")?
        }
        Ok(Some(Trouble::Output(line))) => {
            println!(rt; "{file}: {name}: the output differs first in line {line}")?
        }
        Err(error) => println!(rt; "{file}: {name}: {error}")?,
    }
    Ok(1)
}

// Runs the cases of a text, and gives how many fail.
fn failed_of<R: Runtime + Alloc<A = Global> + Threads + Wait + Sync>(
    rt: &R,
    file: &str,
    text: &str,
) -> io::Result<u64> {
    let cases = text.strip_prefix("== ").unwrap_or(text);
    let mut count = 0u64;
    let mut failed = 0u64;
    for case in cases.strip_suffix('\n').unwrap_or(cases).split("\n== ") {
        count = count.saturating_add(1);
        failed = failed.saturating_add(told(rt, file, Case::of(case))?);
    }
    println!(rt; "{file}: {count}")?;
    Ok(failed)
}

fn failed_in<R: Runtime + Alloc<A = Global> + Threads + Wait + Sync>(
    rt: &R,
    file: &str,
) -> io::Result<u64> {
    let text = fs::read_to_string(rt, file)?;
    failed_of(rt, file, text.as_str())
}

fn main(rt: HostRuntime) -> io::Result<ExitCode> {
    let mut failed = 0u64;
    for name in &names(&rt)? {
        failed = failed.saturating_add(failed_in(&rt, name.as_str())?);
    }
    println!(rt; "failed: {failed}")?;
    Ok(ExitCode::from(if failed == 0 { 0 } else { 1 }))
}
