// What answers `many`: each of many encounters is played, in threads.
ghost use Rattle.std.specs.Prelude.{◌≡◌, ℕ, ◌-◌, ◌<◌, ◌≤◌, ◌^◌, IfOk, List, length};
ghost use Rattle.std.specs.List.{AllZip};
ghost use Rattle.acas_top.specs.Answers.{AnswersPlain};
ghost use Rattle.acas_top.specs.Given.{answer_status, answer_text};
ghost use Rattle.acas_top.specs.Many.{IsRunOf};
ghost use Rattle.acas_top.specs.declared.words.Plain.TheVariants as plains;
ghost use Rattle.enc_file.specs.Reading.{Says};
ghost use Rattle.flight.specs.Inside.{IsInside};

use crate::RECORDING_BYTES;
use crate::answers::Answer;
use crate::refusal::encounter_in;
use crate::runs::serial_state;
use acas_base::Encounter;
use acas_lines::count_line;
use outcomes::{Outcome, outcome_of};
use pieces::Pieces;
use std::alloc::{AllocError, Global};
use std::marker::Model;
use std::thread::Threads;
use sweep::{Job, run};

// The most pieces that are played.
const MOST_PIECES: usize = 4_096;

/// What a piece comes to.
#[derive(Clone, Copy)]
pub(crate) enum PieceRun {
    /// It says an encounter, and this is what the serial run comes to.
    Played(Outcome),
    /// It is refused: the number of the record, and the number of the code.
    Faulty(u32, u8),
}

// What the serial run of an encounter comes to. The error says that memory was wanting.
fn played(alloc: Global, encounter: &Encounter) -> Result<PieceRun, AllocError>
    requires { IsInside encounter.now }
    ensures { IfOk result (λ run. (piece : List ℕ) → Says piece encounter.now → IsRunOf piece run) }
{
    let state = serial_state(alloc, encounter)?;
    Ok(PieceRun::Played(outcome_of(&state)))
}

// What a piece comes to. The error says that memory was wanting.
fn run_of(alloc: Global, piece: &[u8]) -> Result<PieceRun, AllocError>
    requires { length piece.now < 2 ^ 32 - 1 }
    ensures { IfOk result (IsRunOf piece.now) }
{
    match encounter_in(alloc, piece)? {
        Ok(encounter) => played(alloc, &encounter),
        Err(refusal) => Ok(PieceRun::Faulty(refusal.at, refusal.code.number())),
    }
}

/// The job of `many`: what a piece comes to, by its place.
#[derive(Drop)]
pub(crate) struct PieceRuns {
    alloc: Global,
    pieces: Pieces,
}

impl Model for PieceRuns {
    ghost use Rattle.std.specs.Prelude.{◌≤◌, List, ℕ, length};

    ghost Value = { List (List ℕ) };

    ghost view = { λ runs. runs.pieces };

    ghost invariant = { λ runs. length runs.pieces ≤ 4096 };
}

impl PieceRuns {
    // How many pieces there are.
    fn count(&self) -> u32
        ensures value { result ≡ length self.now }
        ensures few { result ≤ 4096 }
    {
        self.pieces.count() as u32
    }
}

impl Job for PieceRuns {
    ghost use Rattle.acas_top.specs.Many.{IsRunAt};

    type Given = PieceRun;

    ghost means = { IsRunAt };

    fn one(&self, number: u32) -> Result<PieceRun, AllocError> {
        match self.pieces.get(number as usize) {
            Some(piece) => run_of(self.alloc, piece),
            None => Ok(PieceRun::Faulty(0, 0)),
        }
    }
}

// What each piece comes to, in order.
fn run_all<R: Threads + Sync>(
    rt: &R,
    alloc: Global,
    runs: &PieceRuns,
) -> Result<Vec<PieceRun>, AllocError>
    ensures runs { IfOk result (λ list. AllZip IsRunOf runs.now list.items) }
    ensures few { IfOk result (λ list. length list.items ≤ 4096) }
{
    run(rt, alloc, 0, runs.count(), runs)
}

/// What each piece of a text comes to.
#[derive(Drop)]
pub(crate) struct Many {
    list: Vec<PieceRun>,
}

impl Model for Many {
    ghost use Rattle.std.specs.Prelude.{◌≤◌, List, length};
    ghost use Rattle.acas_top.specs.declared.many.PieceRun.{PieceRun};

    ghost Value = { List PieceRun };

    ghost view = { λ many. many.list.items };

    ghost invariant = { λ many. length many.list.items ≤ 4096 };
}

impl Many {
    // Plays all pieces, in as many threads as there are processors.
    fn of<R: Threads + Sync>(rt: &R, alloc: Global, runs: &PieceRuns) -> Result<Many, AllocError>
        ensures { IfOk result (AllZip IsRunOf runs.now) }
    {
        let list = run_all(rt, alloc, runs)?;
        Ok(Many { list })
    }

    /// What each piece comes to, in order.
    pub(crate) fn list(&self) -> &[PieceRun]
        ensures value { result.now ≡ self.now }
        ensures few { length result.now ≤ 4096 }
    {
        self.list.as_slice()
    }
}

/// The answer to `many`. The error says that memory was wanting.
pub(crate) fn answer_many<R: Threads + Sync>(
    rt: &R,
    alloc: Global,
    bytes: Vec<u8>,
) -> Result<Answer, AllocError>
    requires { length bytes.items ≤ RECORDING_BYTES }
    ensures { IfOk result (λ answer. AnswersPlain plains.Many bytes.items (answer_status answer) (answer_text answer)) }
{
    let pieces = Pieces::of(alloc, bytes)?;
    if MOST_PIECES < pieces.count() {
        return Ok(Answer::Unmet(count_line("pieces", pieces.count() as u32)));
    }
    let runs = PieceRuns { alloc, pieces };
    Ok(Answer::Many(Many::of(rt, alloc, &runs)?))
}
