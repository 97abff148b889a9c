// The program without the words that run threads which wait for each other.
ghost use Rattle.std.specs.Prelude.{◌≡◌, ℕ, List, map};
ghost use Rattle.std.specs.String.{string_bytes};
ghost use Rattle.acas_io.specs.Stream.{Grew};
ghost use Rattle.acas_top.specs.Commands.{Command, OfPlain};
ghost use Rattle.acas_top.specs.Answers.{Answers, Plays};
ghost use Rattle.acas_top.specs.Ends.{DoneAs, Ended};
ghost use Rattle.acas_top.specs.Words.{AreNoList, AreNoPicture, AreNoQuiet};

use crate::answers::{Answer, answer_to};
use crate::drawing::{Drawable, load_drawable, write_picture};
use crate::flying::answer_flight;
use crate::streams::{put_answer, read_input};
use crate::words::{Limit, parse_flight, parse_picture, parse_plain};
use crate::{Plain, Status};
use acas_io::{Sink, Source};
use air_rules::serial_law;
use comparison::split_law;
use followed_advice::following_law;
use pieces::cut_law;
use rec_audit::{Verdict, verdict_law};
use std::alloc::Global;
use std::thread::Threads;
use track_text::once_law;

// Runs `picture` with labels, where the words say it.
fn draw<S: Source, K: Sink>(alloc: Global, words: &[String], source: &mut S, sink: &mut K) -> Status
    ensures { Ended (AreNoPicture (map string_bytes words.now)) (map string_bytes words.now) result S.left S.faults source.old source.new K.written K.faults sink.old sink.new }
{
    let Some(labels) = parse_picture(words) else {
        return Status::Usage;
    };
    match read_input(alloc, Some(Limit::Recording), source) {
        Ok(bytes) => match load_drawable(alloc, bytes.as_slice()) {
            Ok(Drawable::Legal(deliveries)) => write_picture(&deliveries, &labels, sink),
            Ok(Drawable::Wrong(line, reason)) => {
                put_answer(Answer::Judged(Verdict::Wrong(line, reason)), sink)
            }
            Err(_) => Status::OutOfMemory,
        },
        Err(status) => status,
    }
}

// Runs `fly` or `picture` with labels, where the words say one of them.
fn fly<S: Source, K: Sink>(alloc: Global, words: &[String], source: &mut S, sink: &mut K) -> Status
    ensures { Ended (AreNoList (map string_bytes words.now)) (map string_bytes words.now) result S.left S.faults source.old source.new K.written K.faults sink.old sink.new }
{
    let Some(names) = parse_flight(words) else {
        return draw(alloc, words, source, sink);
    };
    match read_input(alloc, Some(Limit::Encounter), source) {
        Ok(bytes) => match answer_flight(alloc, names, bytes.as_slice()) {
            Ok(answer) => put_answer(answer, sink),
            Err(_) => Status::OutOfMemory,
        },
        Err(status) => status,
    }
}

/// Runs the command that the words say: reads the source, writes the sink, and returns the status. It always returns.
///
/// - `serial` reads an encounter and writes the recording of its serial run. Where the input is no encounter, it writes
///   the line `refused,RECORD,CODE`.
/// - `tracks` reads recorded tracks and writes the encounter whose aircraft fly along them. Where there is none, it
///   writes the line `refused,RECORD,CODE`.
/// - `fly ADDRESS ..` reads an encounter and writes the one in which these aircraft follow their own advice. Where one
///   of them isn't there, or isn't of kind RA, it writes `unknown,ADDRESS`. Where the flight leaves the limits, it
///   writes `leaves,ADDRESS,CYCLE`.
/// - `vary ..` reads an encounter, and plays it and each of its variants, in as many threads as there are processors.
///   It writes what each run comes to. The variants are those of a row of values (`vary alt ADDRESS FIRST COUNT
///   STEP`, and so with `x`, `y` and `late`), of each loss of messages (`vary lose`), or of each exchange of two
///   addresses (`vary swap`). Where there is no such aircraft, it writes `unknown,ADDRESS`, and where there are too
///   many variants, `variants,COUNT`.
/// - `many` reads encounters, one after the other, and plays each, in as many threads as there are processors. It
///   writes what each run comes to, or why a piece is refused. Where there are too many, it writes `pieces,COUNT`.
/// - `audit` reads a recording and writes `legal,ENTRIES`. Where the recording is wrong, it writes `wrong,LINE,REASON`.
/// - `resume` reads a beginning of a recording, and writes the whole recording. Where the input is none, it writes the
///   line of its verdict.
/// - `reports`, `response`, `watch`, `why`, `places`, `messages`, `summary` and `picture` read a recording, and write a
///   text about it, or a drawing. Where the recording is wrong, they write the line of its verdict.
/// - `picture` with labels, which are words of its own, writes the drawing with these labels.
/// - `compare` reads two recordings, one after the other, and writes what differs between them. Where one of them is
///   wrong, it writes the line of the verdict.
/// - `explain` reads a recording, a text of tracks or an encounter: bytes that begin with `recording,` or `tracks,` are
///   the first or the second, also behind one byte order mark. Where nothing is wrong, it says so, and tells what has
///   no effect. Else it writes the line that `audit`, `tracks` or `serial` writes, and a sentence that tells what is
///   wrong.
/// - `gen NUMBER CRAFTS CYCLES` reads nothing, and writes the encounter that is made from the number.
/// - `sweep NUMBER COUNT CRAFTS CYCLES` reads nothing. It plays the encounters that are made from COUNT numbers, in as
///   many threads as there are processors, and writes the counts of each.
/// - `decode WORD` reads nothing, and writes what a word of fourteen digits says.
/// - `--help`, `-h`, `help` and `--version` read nothing, and write a page about the program.
///
/// All other words give [`Status::Usage`]. All memory is taken before the first byte is written.
pub fn acas_plain<R: Threads + Sync, S: Source, K: Sink>(
    rt: &R,
    alloc: Global,
    words: &[String],
    source: &mut S,
    sink: &mut K,
) -> Status
    ensures ended { Ended (AreNoQuiet (map string_bytes words.now)) (map string_bytes words.now) result S.left S.faults source.old source.new K.written K.faults sink.old sink.new }

    // After `serial` with status Done, the bytes that were read, to their end, say an encounter, and the bytes that
    // were written are the recording of its serial journal. The journal is legal and complete. No aircraft commits an
    // advisory in the sense that the message in force from a threat of lower address forbids. Where that message was
    // sent since the threat took its present sense, the senses are opposite.
    ensures played { DoneAs (OfPlain Plain.Serial) Plays (map string_bytes words.now) result (S.left source.old) (S.left source.new) (Grew (K.written sink.old) (K.written sink.new)) }
{
    let Some(plain) = parse_plain(words) else {
        return fly(alloc, words, source, sink);
    };
    match read_input(alloc, plain.limit(), source) {
        Ok(bytes) => match answer_to(rt, alloc, plain, bytes) {
            Ok(answer) => put_answer(answer, sink),
            Err(_) => Status::OutOfMemory,
        },
        Err(status) => status,
    }
}

/// A law: on the same bytes, at most one status answers a command.
pub fn one_status_law()
    ensures { (command : Command) (bytes text other : List ℕ) (status also : Status)
        → Answers command bytes status text → Answers command bytes also other → status ≡ also }
{
    verdict_law();
    split_law();
    cut_law();
    once_law();
    following_law();
    serial_law();
}
