//! The program `acas`. It plays encounters between aircraft with TCAS II version 7.1, and judges and completes their
//! recordings. It reads standard input and writes standard output, as the words of the command line say
//! (`acas_top::acas`).
#![tactic(auto)]

use acas_io::{StdSink, StdSource};
use acas_top::{Status, acas};
use craft_worker::Pause;
use std::alloc::Global;
use std::io::ErrorKind;
use std::process::ExitCode;
use std::rt::Env;
use std::{env, io};

// Makes no aircraft wait.
struct NoPause;

impl Pause for NoPause {
    fn pause(&self, _craft: u8, _cycle: u16) {}
}

// The words after the program's name.
fn words_of<R: Env + Alloc<A = Global>>(rt: &R) -> io::Result<Vec<String>> {
    let mut args = env::args(rt)?;
    let _name = args.next();
    let mut words = Vec::new(rt.alloc());
    words.extend(args)?;
    Ok(words)
}

// What is written on standard error where the words are no command. It is in pieces, since a long text takes minutes to
// prove.
const USAGE: [&str; 6] = [
    "usage: acas serial | play | tracks | fly ADDRESS .. | vary alt|x|y|late ",
    "ADDRESS FIRST COUNT STEP | vary lose | vary swap | orders | losses | ",
    "instance .. | many | audit | sum | gen NUMBER CRAFTS CYCLES [2] | reports | ",
    "sweep NUMBER COUNT CRAFTS CYCLES [2] | response | watch | resume | why | ",
    "places | messages | summary | picture [hh:mm:ss] [ADDRESS=NAME ..] ",
    "[CYCLE=TEXT ..] | compare | explain | decode WORD | --help | --version",
];

// The message on standard error, but for the usage.
fn message(status: Status) -> &'static str {
    match status {
        Status::ReadFault => "read fault",
        Status::WriteFault => "write fault",
        Status::TooLong => "input too long",
        Status::OutOfMemory => "out of memory",
        Status::Done | Status::Refused | Status::Wrong | Status::Usage => "",
    }
}

// Writes the message of a status on standard error, where it has one.
fn tell(rt: &HostRuntime, status: Status) {
    if status == Status::Usage {
        let [one, two, three, four, five, six] = USAGE;
        let _ = eprintln!(rt; "{one}{two}{three}{four}{five}{six}");
        return;
    }
    let text = message(status);
    if !text.is_empty() {
        let _ = eprintln!(rt; "{text}");
    }
}

fn main(rt: HostRuntime) -> ExitCode {
    let status = match words_of(&rt) {
        Ok(words) => {
            let mut source = StdSource::new(rt.stdin());
            let mut sink = StdSink::new(rt.stdout());
            acas(
                &rt,
                rt.alloc(),
                words.as_slice(),
                &mut source,
                &mut sink,
                &NoPause,
            )
        }
        Err(error) => {
            if error.kind() == ErrorKind::OutOfMemory {
                Status::OutOfMemory
            } else {
                // A word that isn't UTF-8 is no word of a command.
                Status::Usage
            }
        }
    };
    tell(&rt, status);
    ExitCode::from(status.code())
}
