// Runs of an encounter.
ghost use Rattle.std.specs.Prelude.{◌≡◌, IfOk};
ghost use Rattle.acas_top.specs.Answers.{IsRun, IsSerialOf};
ghost use Rattle.air_journal.specs.Airs.{air_of};
ghost use Rattle.air_rules.specs.Rules.{IsComplete};
ghost use Rattle.air_rules.specs.Serial.{IsSerial};
ghost use Rattle.flight.specs.Inside.{IsInside};
ghost use Rattle.resume.specs.Filling.{IsFilled};

use acas_base::Encounter;
use air_journal::{AirState, priority_law, settled_law, sound_law};
use craft_worker::serial;
use resume::{fill, filled_law};
use std::alloc::{AllocError, Global};

/// A law: a complete journal of a state has all that the rules promise of a run.
pub(crate) fn run_law(state: &AirState)
    requires { IsComplete (air_of state.now.encounter) state.now.journal }
    ensures { IsRun state.now.encounter state.now.journal }
{
    state.legal_law();
    settled_law(state);
    priority_law(state);
}

/// The state of the air after the serial run of an encounter.
pub(crate) fn serial_state(alloc: Global, encounter: &Encounter) -> Result<AirState, AllocError>
    requires { IsInside encounter.now }
    ensures encounter { IfOk result (λ state. state.encounter ≡ encounter.now) }
    ensures serial { IfOk result (λ state. IsSerial (air_of encounter.now) state.journal) }
    ensures run { IfOk result (λ state. IsRun encounter.now state.journal) }
{
    let mut state = AirState::new(alloc, encounter)?;
    serial(&mut state, encounter);
    // For the proof: what the rules promise of this complete journal.
    run_law(&state);
    Ok(state)
}

/// The state of the air after a begun run was completed.
pub(crate) fn filled(alloc: Global, mut begun: AirState) -> Result<AirState, AllocError>
    ensures encounter { IfOk result (λ state. state.encounter ≡ begun.encounter) }
    ensures filled { IfOk result (λ state. IsFilled (air_of begun.encounter) begun.journal state.journal) }
    ensures run { IfOk result (λ state. IsRun begun.encounter state.journal) }
    ensures serial { IfOk result (λ state. IsSerialOf begun.encounter begun.journal state.journal) }
{
    // For the proof: a beginning of the serial journal is filled to that journal, and what was begun is legal.
    sound_law();
    filled_law();
    begun.legal_law();
    let encounter = begun.enc().copy(alloc)?;
    fill(&mut begun, &encounter);
    // For the proof: what the rules promise of this complete journal.
    run_law(&begun);
    Ok(begun)
}
