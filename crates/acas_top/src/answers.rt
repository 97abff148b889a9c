// The answer to a command: a status and a text.
ghost use Rattle.std.specs.Prelude.{◌≡◌, ℕ, ◌+◌, ◌≤◌, ◌∷◌, [], List, Err, IfOk, length};
ghost use Rattle.acas_lines.specs.Split.{lines_of};
ghost use Rattle.acas_top.specs.Answers.{AnswersPlain, IsMade, read_as};
ghost use Rattle.acas_top.specs.Given.{IsReadable, answer_status, answer_text};
ghost use Rattle.acas_top.specs.Refusing.{Refuses};
ghost use Rattle.acas_top.specs.Words.{IsInRange, plain_limit};
ghost use Rattle.acas_top.specs.Sweeping.{Sweeps};
ghost use Rattle.comparison.specs.Splitting.{IsSplit};
ghost use Rattle.enc_file.specs.Reading.{reading_of};
ghost use Rattle.enc_file.specs.Records.{records_of};
ghost use Rattle.rec_audit.specs.Judging.{IsRecordingOf};
ghost use Rattle.track_text.specs.Conditions.{IsRefused};

use crate::explaining::{RightEncounter, RightRecording, Subject, read_as, right_tracks_line};
use crate::instance::answer_instance;
use crate::many::{Many, answer_many};
use crate::pages::put_page;
use crate::possible::answer_possible;
use crate::refusal::{encounter_in, refusal_line};
use crate::runs::{filled, serial_state};
use crate::summing::put_summed;
use crate::sweep_runs::{Swept, sweep};
use crate::telling::{Told, told_by};
use crate::varied::Varied;
use crate::varying::answer_variation;
use crate::verdict::verdict_line;
use crate::{ENCOUNTER_BYTES, Page, Plain, RECORDING_BYTES, Status, Tool};
use acas_base::{Encounter, Profile};
use acas_lines::{LineSink, Text};
use acas_text::Line;
use air_journal::AirState;
use comparison::{Comparison, Found, compare, split};
use deliveries::Deliveries;
use enc_file::{CanonicalText, Refusal};
use enc_gen::make;
use fault_text::explained;
use possibilities::Possibilities;
use rec_audit::{Explained, Loaded, Reason, Verdict, explain, judge, load, load_part};
use rec_text::Recording;
use std::alloc::{AllocError, Global};
use std::thread::Threads;
use sweep::Counts;
use word_text::WordText;

/// The answer to a command. It has a status and a text.
#[derive(Drop)]
pub(crate) enum Answer {
    /// The recording of a run.
    Recorded(AirState),
    /// The text of an encounter that was made from a number, or from tracks.
    Made(Encounter),
    /// A tool's text about a recording.
    Told(Told),
    /// The counts of many encounters.
    Swept(Swept),
    /// What an encounter and its variants come to.
    Varied(Varied),
    /// What can be of an encounter.
    Listed(Possibilities),
    /// What each of many encounters comes to.
    Many(Many),
    /// How many commits a run in threads has, and the counts of the serial run.
    Summed(u32, Counts),
    /// What differs between two recordings.
    Compared(AirState, AirState, Found),
    /// What a word says.
    Decoded(u64),
    /// One line.
    Said(Line),
    /// What is told of an encounter in which nothing is wrong.
    RightEncounter(RightEncounter),
    /// What is told of a recording in which nothing is wrong.
    RightRecording(RightRecording),
    /// The line of a refusal, with the number of the record and the number of the code, and the sentence of its fault.
    ExplainedRefusal(u32, u8, Line),
    /// The line of the verdict on a wrong recording, with the number of the line and the reason, and the sentence that
    /// tells why this line can't stand there.
    ExplainedWrong(u32, Reason, Line),
    /// A page about the program.
    Shown(Page),
    /// The line of the verdict on a recording.
    Judged(Verdict),
    /// The line that says why there is nothing to write of an encounter.
    Unmet(Line),
    /// The line of a refusal, with the number of the record and the number of the code.
    Refused(u32, u8),
}

impl Answer {
    /// The answer to a text that is refused.
    pub(crate) fn of_refusal(refusal: Refusal) -> Answer
        ensures status { answer_status result ≡ Status.Refused }
        ensures text { (bytes : List ℕ) → reading_of bytes ≡ Err refusal → Refuses bytes (answer_text result) }
    {
        Answer::Refused(refusal.at, refusal.code.number())
    }

    /// The status of the answer.
    pub(crate) fn status(&self) -> Status
        ensures { result ≡ answer_status self.now }
    {
        match self {
            Answer::Recorded(_)
            | Answer::Made(_)
            | Answer::Told(_)
            | Answer::Swept(_)
            | Answer::Varied(_)
            | Answer::Listed(_)
            | Answer::Many(_)
            | Answer::Summed(_, _)
            | Answer::Compared(_, _, _)
            | Answer::Decoded(_)
            | Answer::Said(_)
            | Answer::RightEncounter(_)
            | Answer::RightRecording(_)
            | Answer::Shown(_) => Status::Done,
            Answer::Judged(Verdict::Legal(_)) => Status::Done,
            Answer::Judged(Verdict::Wrong(_, _)) => Status::Wrong,
            Answer::ExplainedWrong(_, _, _) => Status::Wrong,
            Answer::Refused(_, _) | Answer::ExplainedRefusal(_, _, _) | Answer::Unmet(_) => {
                Status::Refused
            }
        }
    }
}

// Puts two lines.
fn put_both<S: LineSink>(one: &Line, other: &Line, sink: &mut S)
    ensures { S.took sink.old sink.new (one.now ∷ other.now ∷ []) }
{
    sink.line(one);
    sink.line(other);
}

impl Text for Answer {
    ghost use Rattle.acas_top.specs.Given.{answer_lines};

    ghost lines = { answer_lines };

    fn put<S: LineSink>(&self, sink: &mut S) {
        match self {
            Answer::Recorded(state) => Recording(state).put(sink),
            Answer::Made(encounter) => CanonicalText(encounter).put(sink),
            Answer::Told(told) => told.put(sink),
            Answer::Swept(swept) => swept.put(sink),
            Answer::Varied(varied) => varied.put(sink),
            Answer::Listed(possible) => possible.put(sink),
            Answer::Many(many) => many.put(sink),
            Answer::Summed(commits, counts) => put_summed(*commits, counts, sink),
            Answer::Compared(one, other, found) => Comparison { one, other, found }.put(sink),
            Answer::Decoded(word) => WordText(*word).put(sink),
            Answer::Said(line) => sink.line(line),
            Answer::RightEncounter(right) => right.put(sink),
            Answer::RightRecording(right) => right.put(sink),
            Answer::ExplainedRefusal(at, code, told) => put_both(
                &refusal_line(*at, *code),
                told,
                sink,
            ),
            Answer::ExplainedWrong(line, reason, told) => {
                put_both(&verdict_line(Verdict::Wrong(*line, *reason)), told, sink);
            }
            Answer::Shown(page) => put_page(*page, sink),
            Answer::Judged(verdict) => sink.line(&verdict_line(*verdict)),
            Answer::Unmet(line) => sink.line(line),
            Answer::Refused(at, code) => sink.line(&refusal_line(*at, *code)),
        }
    }
}

// The answer to `serial`.
fn answer_serial(alloc: Global, bytes: &[u8]) -> Result<Answer, AllocError>
    requires { length bytes.now ≤ ENCOUNTER_BYTES }
    ensures { IfOk result (λ answer. AnswersPlain Plain.Serial bytes.now (answer_status answer) (answer_text answer)) }
{
    match encounter_in(alloc, bytes)? {
        Ok(encounter) => Ok(Answer::Recorded(serial_state(alloc, &encounter)?)),
        Err(refusal) => Ok(Answer::of_refusal(refusal)),
    }
}

// The answer to `audit`.
fn answer_audit(alloc: Global, bytes: &[u8]) -> Result<Answer, AllocError>
    requires { length bytes.now ≤ RECORDING_BYTES }
    ensures { IfOk result (λ answer. AnswersPlain Plain.Audit bytes.now (answer_status answer) (answer_text answer)) }
{
    Ok(Answer::Judged(judge(alloc, bytes)?))
}

// The answer to `tracks`.
fn answer_tracks(alloc: Global, bytes: &[u8]) -> Result<Answer, AllocError>
    requires { length bytes.now ≤ ENCOUNTER_BYTES }
    ensures { IfOk result (λ answer. AnswersPlain Plain.Tracks bytes.now (answer_status answer) (answer_text answer)) }
{
    match track_text::read(alloc, bytes) {
        Ok(encounter) => Ok(Answer::Made(encounter)),
        Err(track_text::ReadError::Refused(refusal)) => {
            Ok(Answer::Refused(refusal.at, refusal.fault.number()))
        }
        Err(track_text::ReadError::OutOfMemory) => Err(AllocError),
    }
}

// The answer to `gen`.
fn answer_gen(
    alloc: Global,
    profile: Profile,
    number: u32,
    crafts: u8,
    cycles: u16,
) -> Result<Answer, AllocError>
    requires { IsInRange (Plain.Gen number crafts cycles profile) }
    ensures status { IfOk result (λ answer. answer_status answer ≡ Status.Done) }
    ensures text { IfOk result (λ answer. IsMade profile number crafts cycles (answer_text answer)) }
{
    Ok(Answer::Made(make(alloc, number, crafts, cycles, profile)?))
}

// The answer to the word of a tool.
fn answer_tool(alloc: Global, tool: Tool, bytes: &[u8]) -> Result<Answer, AllocError>
    requires { length bytes.now ≤ RECORDING_BYTES }
    ensures { IfOk result (λ answer. AnswersPlain (Plain.Tell tool) bytes.now (answer_status answer) (answer_text answer)) }
{
    match load(alloc, bytes)? {
        Loaded::Legal(state) => Ok(Answer::Told(told_by(alloc, tool, state)?)),
        Loaded::Wrong(line, reason) => Ok(Answer::Judged(Verdict::Wrong(line, reason))),
    }
}

// The answer to `sweep`.
fn answer_sweep<R: Threads + Sync>(
    rt: &R,
    alloc: Global,
    profile: Profile,
    number: u32,
    count: u16,
    crafts: u8,
    cycles: u16,
) -> Result<Answer, AllocError>
    requires { IsInRange (Plain.Sweep number count crafts cycles profile) }
    ensures status { IfOk result (λ answer. answer_status answer ≡ Status.Done) }
    ensures text { IfOk result (λ answer. Sweeps (record { profile = profile; crafts = crafts; cycles = cycles }) number count (answer_text answer)) }
{
    Ok(Answer::Swept(sweep(rt, alloc, profile, number, count, crafts, cycles)?))
}

// The answer to `resume`.
fn answer_resume(alloc: Global, bytes: &[u8]) -> Result<Answer, AllocError>
    requires { length bytes.now ≤ RECORDING_BYTES }
    ensures { IfOk result (λ answer. AnswersPlain Plain.Resume bytes.now (answer_status answer) (answer_text answer)) }
{
    match load_part(alloc, bytes)? {
        Loaded::Legal(begun) => Ok(Answer::Recorded(filled(alloc, begun)?)),
        Loaded::Wrong(line, reason) => Ok(Answer::Judged(Verdict::Wrong(line, reason))),
    }
}

// The answer to `compare` after both recordings were loaded.
fn answer_found(alloc: Global, first: AirState, second: AirState) -> Result<Answer, AllocError>
    ensures { IfOk result (λ answer. (bytes one other : List ℕ) → IsSplit bytes one other → IsRecordingOf one first → IsRecordingOf other second
        → AnswersPlain Plain.Compare bytes (answer_status answer) (answer_text answer)) }
{
    match compare(alloc, &first, &second) {
        Ok(found) => Ok(Answer::Compared(first, second, found)),
        Err(error) => {
            drop(first);
            drop(second);
            Err(error)
        }
    }
}

// The answer to `compare` after the first recording was loaded. It has `lines` lines.
fn answer_second(
    alloc: Global,
    first: AirState,
    lines: u32,
    other: &[u8],
) -> Result<Answer, AllocError>
    requires { lines + length other.now ≤ RECORDING_BYTES }
    ensures { IfOk result (λ answer. (bytes one : List ℕ) → IsSplit bytes one other.now → IsRecordingOf one first → lines ≡ length (lines_of one)
        → AnswersPlain Plain.Compare bytes (answer_status answer) (answer_text answer)) }
{
    match load(alloc, other)? {
        Loaded::Legal(second) => answer_found(alloc, first, second),
        Loaded::Wrong(line, reason) => Ok(Answer::Judged(Verdict::Wrong(lines + line, reason))),
    }
}

// The answer to `compare`.
fn answer_compare(alloc: Global, bytes: &[u8]) -> Result<Answer, AllocError>
    requires { length bytes.now ≤ RECORDING_BYTES }
    ensures { IfOk result (λ answer. AnswersPlain Plain.Compare bytes.now (answer_status answer) (answer_text answer)) }
{
    let two = split(bytes);
    match load(alloc, two.one)? {
        Loaded::Legal(first) => answer_second(alloc, first, two.lines, two.other),
        Loaded::Wrong(line, reason) => Ok(Answer::Judged(Verdict::Wrong(line, reason))),
    }
}

// The answer to `explain` on bytes that begin as a recording.
fn answer_recording(alloc: Global, bytes: Vec<u8>) -> Result<Answer, AllocError>
    requires subject { read_as bytes.items ≡ Subject.Recording }
    requires few { length bytes.items ≤ RECORDING_BYTES }
    ensures { IfOk result (λ answer. AnswersPlain Plain.Explain bytes.items (answer_status answer) (answer_text answer)) }
{
    match explain(alloc, bytes.as_slice())? {
        Explained::Legal(state) => {
            let deliveries = Deliveries::new(alloc, state)?;
            Ok(Answer::RightRecording(RightRecording::new(bytes, deliveries)))
        }
        Explained::Wrong(line, reason, told) => Ok(Answer::ExplainedWrong(line, reason, told)),
    }
}

// The answer to `explain` on a text of tracks that is refused.
fn answer_refused_tracks(bytes: &[u8], refusal: track_text::Refusal) -> Answer
    requires subject { read_as bytes.now ≡ Subject.Tracks }
    requires few { length bytes.now ≤ ENCOUNTER_BYTES }
    requires refused { IsRefused (records_of bytes.now) refusal }
    ensures { AnswersPlain Plain.Explain bytes.now (answer_status result) (answer_text result) }
{
    let at = refusal.at;
    let number = refusal.number();
    let told = track_text::explained(bytes, refusal);
    Answer::ExplainedRefusal(at, number, told)
}

// The answer to `explain` on bytes that begin as a text of tracks.
fn answer_about_tracks(alloc: Global, bytes: &[u8]) -> Result<Answer, AllocError>
    requires subject { read_as bytes.now ≡ Subject.Tracks }
    requires few { length bytes.now ≤ ENCOUNTER_BYTES }
    ensures { IfOk result (λ answer. AnswersPlain Plain.Explain bytes.now (answer_status answer) (answer_text answer)) }
{
    match track_text::read(alloc, bytes) {
        Ok(encounter) => Ok(Answer::Said(right_tracks_line(&encounter, bytes))),
        Err(track_text::ReadError::Refused(refusal)) => Ok(answer_refused_tracks(bytes, refusal)),
        Err(track_text::ReadError::OutOfMemory) => Err(AllocError),
    }
}

// The answer to `explain` on all other bytes.
fn answer_encounter(alloc: Global, bytes: Vec<u8>) -> Result<Answer, AllocError>
    requires subject { read_as bytes.items ≡ Subject.Encounter }
    requires few { length bytes.items ≤ ENCOUNTER_BYTES }
    ensures { IfOk result (λ answer. AnswersPlain Plain.Explain bytes.items (answer_status answer) (answer_text answer)) }
{
    match encounter_in(alloc, bytes.as_slice())? {
        Ok(encounter) => Ok(Answer::RightEncounter(RightEncounter::new(bytes, encounter))),
        Err(refusal) => {
            let told = explained(alloc, bytes.as_slice(), refusal)?;
            Ok(Answer::ExplainedRefusal(refusal.at, refusal.code.number(), told))
        }
    }
}

// The answer to `explain`.
fn answer_explain(alloc: Global, bytes: Vec<u8>) -> Result<Answer, AllocError>
    requires { IsReadable (plain_limit Plain.Explain) bytes.items }
    ensures { IfOk result (λ answer. AnswersPlain Plain.Explain bytes.items (answer_status answer) (answer_text answer)) }
{
    match read_as(bytes.as_slice()) {
        Subject::Recording => answer_recording(alloc, bytes),
        Subject::Tracks => answer_about_tracks(alloc, bytes.as_slice()),
        Subject::Encounter => answer_encounter(alloc, bytes),
    }
}

/// The answer to a plain command on the bytes that it read. The error says that memory was wanting. All memory is asked
/// for here.
pub(crate) fn answer_to<R: Threads + Sync>(
    rt: &R,
    alloc: Global,
    plain: Plain,
    bytes: Vec<u8>,
) -> Result<Answer, AllocError>
    requires range { IsInRange plain }
    requires bytes { IsReadable (plain_limit plain) bytes.items }
    ensures { IfOk result (λ answer. AnswersPlain plain bytes.items (answer_status answer) (answer_text answer)) }
{
    match plain {
        Plain::Serial => answer_serial(alloc, bytes.as_slice()),
        Plain::Audit => answer_audit(alloc, bytes.as_slice()),
        Plain::Gen {
            number,
            crafts,
            cycles,
            profile,
        } => answer_gen(alloc, profile, number, crafts, cycles),
        Plain::Tell(tool) => answer_tool(alloc, tool, bytes.as_slice()),
        Plain::Sweep {
            number,
            count,
            crafts,
            cycles,
            profile,
        } => answer_sweep(rt, alloc, profile, number, count, crafts, cycles),
        Plain::Tracks => answer_tracks(alloc, bytes.as_slice()),
        Plain::Vary(variation) => answer_variation(rt, alloc, variation, bytes.as_slice()),
        Plain::Possible(scope) => answer_possible(alloc, scope, bytes.as_slice()),
        Plain::Instance(scope, want) => answer_instance(alloc, scope, want, bytes.as_slice()),
        Plain::Many => answer_many(rt, alloc, bytes),
        Plain::Resume => answer_resume(alloc, bytes.as_slice()),
        Plain::Compare => answer_compare(alloc, bytes.as_slice()),
        Plain::Decode { word } => Ok(Answer::Decoded(word)),
        Plain::Explain => answer_explain(alloc, bytes),
        Plain::Show(page) => Ok(Answer::Shown(page)),
    }
}
