// Runs in threads, and what answers their words.
ghost use Rattle.std.specs.Prelude.{◌≡◌, ℕ, ◌≤◌, List, IfOk, length};
ghost use Rattle.acas_top.specs.Commands.{OfRun};
ghost use Rattle.acas_top.specs.Answers.{Answers, IsRun};
ghost use Rattle.acas_top.specs.Given.{answer_status, answer_text};
ghost use Rattle.enc_file.specs.Reading.{Says};
ghost use Rattle.flight.specs.Inside.{IsInside};

use crate::answers::Answer;
use crate::counts::{counts_of, serial_counts};
use crate::refusal::encounter_in;
use crate::runs::run_law;
use crate::{ENCOUNTER_BYTES, Threaded};
use acas_base::Encounter;
use air_journal::AirState;
use air_turn::Air;
use craft_worker::{Pause, play, played_law};
use std::alloc::{AllocError, Global};
use std::sync::Wait;
use std::thread::Threads;

// The state of the air after a run of an encounter in threads, one for each of its active aircraft.
fn threaded_state<R: Threads + Wait + Sync, P: Pause + Sync>(
    rt: &R,
    alloc: Global,
    encounter: &Encounter,
    pause: &P,
) -> Result<AirState, AllocError>
    requires { IsInside encounter.now }
    ensures encounter { IfOk result (λ state. state.encounter ≡ encounter.now) }
    ensures run { IfOk result (λ state. IsRun encounter.now state.journal) }
{
    let state = AirState::new(alloc, encounter)?;
    let (air, mut seats) = Air::open(alloc, state)?;
    play(rt, alloc, &air, &mut seats, encounter, pause)?;
    // For the proof: the journal that these seats close with is complete.
    played_law();
    let closed = air.close(seats);
    // For the proof: what the rules promise of this complete journal.
    run_law(&closed);
    Ok(closed)
}

// The answer to `sum` after this run of an encounter in threads. It answers every text that says the encounter.
fn answer_sum(alloc: Global, encounter: &Encounter, played: &AirState) -> Result<Answer, AllocError>
    requires inside { IsInside encounter.now }
    requires encounter { played.now.encounter ≡ encounter.now }
    requires run { IsRun encounter.now played.now.journal }
    ensures { IfOk result (λ answer. (bytes : List ℕ) → Says bytes encounter.now → Answers (OfRun Threaded.Sum) bytes (answer_status answer) (answer_text answer)) }
{
    let serial = serial_counts(alloc, encounter)?;
    Ok(Answer::Summed(counts_of(played).commits, serial))
}

// The answer to a word after this run of an encounter in threads. It answers every text that says the encounter.
fn answer_of(
    alloc: Global,
    run: Threaded,
    encounter: &Encounter,
    played: AirState,
) -> Result<Answer, AllocError>
    requires inside { IsInside encounter.now }
    requires encounter { played.encounter ≡ encounter.now }
    requires run { IsRun encounter.now played.journal }
    ensures { IfOk result (λ answer. (bytes : List ℕ) → Says bytes encounter.now → Answers (OfRun run) bytes (answer_status answer) (answer_text answer)) }
{
    match run {
        Threaded::Play => Ok(Answer::Recorded(played)),
        Threaded::Sum => answer_sum(alloc, encounter, &played),
    }
}

/// The answer to the word of a run in threads on the bytes that it read. The error says that memory was wanting. All
/// memory is asked for here.
pub(crate) fn answer_in_threads<R: Threads + Wait + Sync, P: Pause + Sync>(
    rt: &R,
    alloc: Global,
    run: Threaded,
    bytes: &[u8],
    pause: &P,
) -> Result<Answer, AllocError>
    requires { length bytes.now ≤ ENCOUNTER_BYTES }
    ensures { IfOk result (λ answer. Answers (OfRun run) bytes.now (answer_status answer) (answer_text answer)) }
{
    match encounter_in(alloc, bytes)? {
        Ok(encounter) => {
            let played = threaded_state(rt, alloc, &encounter, pause)?;
            answer_of(alloc, run, &encounter, played)
        }
        Err(refusal) => Ok(Answer::of_refusal(refusal)),
    }
}
