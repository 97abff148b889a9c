// The program with all its words.
ghost use Rattle.std.specs.Prelude.{◌≡◌, map};
ghost use Rattle.std.specs.String.{string_bytes};
ghost use Rattle.acas_io.specs.Stream.{Grew};
ghost use Rattle.acas_top.specs.Commands.{OfPlain, OfRun};
ghost use Rattle.acas_top.specs.Answers.{Plays, PlaysSome};
ghost use Rattle.acas_top.specs.Ends.{DoneAs, Ended};
ghost use Rattle.acas_top.specs.Words.{AreNoCommand};

use crate::plain_program::acas_plain;
use crate::streams::{put_answer, read_input};
use crate::threaded::answer_in_threads;
use crate::words::{Limit, parse_threaded};
use crate::{Plain, Status, Threaded};
use acas_io::{Sink, Source};
use craft_worker::Pause;
use std::alloc::Global;
use std::sync::Wait;
use std::thread::Threads;

/// Runs the command that the words say, as [`acas_plain`] does, and has two more words. `play` and `sum` read an
/// encounter and give each active aircraft a thread of its own. `play` writes the recording of that run. `sum` writes
/// two lines: how many commits that run has, and the counts of the serial run. Both refuse what `serial` refuses.
///
/// The threads wait for each other, so this call may never return. Every worker calls `pause` before it tries to
/// commit. All memory is taken before the first byte is written.
pub fn acas<R: Threads + Wait + Sync, S: Source, K: Sink, P: Pause + Sync>(
    rt: &R,
    alloc: Global,
    words: &[String],
    source: &mut S,
    sink: &mut K,
    pause: &P,
) -> Status
    ensures ended { Ended (AreNoCommand (map string_bytes words.now)) (map string_bytes words.now) result S.left S.faults source.old source.new K.written K.faults sink.old sink.new }

    // As in `acas_plain`: `serial` writes the recording of the serial journal.
    ensures played { DoneAs (OfPlain Plain.Serial) Plays (map string_bytes words.now) result (S.left source.old) (S.left source.new) (Grew (K.written sink.old) (K.written sink.new)) }

    // After `play` with status Done, the bytes that were read, to their end, say an encounter, and the bytes that were
    // written are the recording of some journal of it. All that holds of the serial journal holds of this one, except
    // that it is serial.
    ensures played_in_threads { DoneAs (OfRun Threaded.Play) PlaysSome (map string_bytes words.now) result (S.left source.old) (S.left source.new) (Grew (K.written sink.old) (K.written sink.new)) }
{
    let Some(run) = parse_threaded(words) else {
        return acas_plain(rt, alloc, words, source, sink);
    };
    match read_input(alloc, Some(Limit::Encounter), source) {
        Ok(bytes) => match answer_in_threads(rt, alloc, run, bytes.as_slice(), pause) {
            Ok(answer) => put_answer(answer, sink),
            Err(_) => Status::OutOfMemory,
        },
        Err(status) => status,
    }
}
