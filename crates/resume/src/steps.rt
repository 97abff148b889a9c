// Single entries, wherever the journal stands.
ghost use Rattle.std.specs.Prelude.{◌≡◌, ◌+◌, ◌<◌, true, length, MatchBool};
ghost use Rattle.air_journal.specs.Airs.{air_of};
ghost use Rattle.air_journal.specs.Calls.{Committed, IsFree};
ghost use Rattle.air_rules.specs.Air.{is_active};
ghost use Rattle.air_rules.specs.Due.{NobodyIsDue, NothingDue};
ghost use Rattle.air_rules.specs.Journal.{commits};
ghost use Rattle.air_rules.specs.Owed.{NobodyOwes, OwesNothing};
ghost use Rattle.craft_view.specs.Kept.{IsActive};
ghost use Rattle.craft_view.specs.Looking.{AreReady};
ghost use Rattle.resume.specs.Steps.{DidSend, DidTake, HasToWait, IsAtRest, IsSlowestOf, IsSomeAhead, MayGo, NobodyAhead, SentOne, SlowestSoFar, Stepped, TookOne};

use acas_base::Encounter;
use air_journal::{AirState, Sent, Took};
use craft_view::{Surveillance, is_active};
use flight::Places;

/// The active aircraft of least index among those with the fewest commits.
pub(crate) fn slowest(state: &AirState, enc: &Encounter) -> Option<u8>
    requires { state.now.encounter ≡ enc.now }
    ensures { SlowestSoFar (air_of enc.now) state.now.journal (length enc.now.crafts) result }
{
    let mut best = None;
    for own in 0..enc.crafts().len() as u8 {
        best = slower(state, enc, best, own);
    }
    best
}

// The slowest of the aircraft so far and one more.
fn slower(state: &AirState, enc: &Encounter, best: Option<u8>, own: u8) -> Option<u8>
    requires same { state.now.encounter ≡ enc.now }
    requires best { SlowestSoFar (air_of enc.now) state.now.journal own best }
    ensures { SlowestSoFar (air_of enc.now) state.now.journal (own + 1) result }
{
    if !is_active(enc, own) {
        return best;
    }
    match best {
        None => Some(own),
        Some(other) => {
            if state.commits(own) < state.commits(other) {
                Some(own)
            } else {
                Some(other)
            }
        }
    }
}

// Whether some active aircraft has more commits than this.
fn is_some_ahead(state: &AirState, enc: &Encounter, made: u16) -> bool
    requires { state.now.encounter ≡ enc.now }
    ensures { MatchBool result (IsSomeAhead (air_of enc.now) state.now.journal made) (NobodyAhead (air_of enc.now) state.now.journal made (length enc.now.crafts)) }
{
    for own in 0..enc.crafts().len() as u8 {
        if is_active(enc, own) && made < state.commits(own) {
            return true;
        }
    }
    false
}

// Whether the commit of the slowest aircraft comes next, and nothing hinders it.
fn may_go(state: &AirState, enc: &Encounter, own: u8) -> bool
    requires same { state.now.encounter ≡ enc.now }
    requires slowest { IsSlowestOf (air_of enc.now) state.now.journal (length enc.now.crafts) own }
    ensures { MatchBool result (MayGo (air_of enc.now) state.now.journal own) (HasToWait (air_of enc.now) state.now.journal own) }
{
    if !is_some_ahead(state, enc, state.commits(own)) {
        return false;
    }
    state.hindrance(own).is_none()
}

// Sends the first message that an aircraft owes.
fn send_of(state: &mut AirState, enc: &Encounter, own: u8) -> bool
    requires { state.old.encounter ≡ enc.now }
    ensures encounter { state.new.encounter ≡ enc.now }
    ensures sent { MatchBool result (DidSend (air_of enc.now) state.old.journal own state.new.journal) (OwesNothing (air_of enc.now) state.old.journal own × (state.new.journal ≡ state.old.journal)) }
{
    if !is_active(enc, own) {
        return false;
    }
    match state.send(own) {
        Sent::Done(_) => true,
        Sent::Nothing => false,
    }
}

// Sends the first owed message, by sender and receiver.
fn send_first(state: &mut AirState, enc: &Encounter) -> bool
    requires { state.old.encounter ≡ enc.now }
    ensures encounter { state.new.encounter ≡ enc.now }
    ensures sent { MatchBool result (SentOne (air_of enc.now) state.old.journal state.new.journal) (NobodyOwes (air_of enc.now) state.old.journal × (state.new.journal ≡ state.old.journal)) }
{
    enc.valid_law();
    for own in 0..enc.crafts().len() as u8 {
        if send_of(state, enc, own) {
            return true;
        }
    }
    false
}

// Takes the first copy that is due to an aircraft.
fn take_of(state: &mut AirState, enc: &Encounter, own: u8) -> bool
    requires { state.old.encounter ≡ enc.now }
    ensures encounter { state.new.encounter ≡ enc.now }
    ensures took { MatchBool result (DidTake (air_of enc.now) state.old.journal own state.new.journal) ((is_active (air_of enc.now) own ≡ true → NothingDue (air_of enc.now) state.old.journal own) × (state.new.journal ≡ state.old.journal)) }
{
    if !is_active(enc, own) {
        return false;
    }
    match state.take(own) {
        Took::Done(_, _) => true,
        Took::Nothing => false,
    }
}

// Takes the first due copy, by receiver, position and copy.
fn take_first(state: &mut AirState, enc: &Encounter) -> bool
    requires same { state.old.encounter ≡ enc.now }
    requires nobody_owes { NobodyOwes (air_of enc.now) state.old.journal }
    ensures encounter { state.new.encounter ≡ enc.now }
    ensures took { MatchBool result (TookOne (air_of enc.now) state.old.journal state.new.journal) (NobodyIsDue (air_of enc.now) state.old.journal × (state.new.journal ≡ state.old.journal)) }
{
    enc.valid_law();
    for own in 0..enc.crafts().len() as u8 {
        if take_of(state, enc, own) {
            return true;
        }
    }
    false
}

// Commits the aircraft's next cycle, which nothing hinders.
fn commit_next(state: &mut AirState, enc: &Encounter, surveillance: &mut Surveillance, own: u8)
    requires same { state.old.encounter ≡ enc.now }
    requires active { IsActive enc.now own }
    requires ready { AreReady enc.now (commits state.old.journal) surveillance.old.crafts }
    requires free { IsFree (air_of enc.now) state.old.journal own }
    ensures encounter { state.new.encounter ≡ enc.now }
    ensures commits { Committed (air_of enc.now) state.old.journal own state.new.journal (length state.old.journal) }
    ensures ready { AreReady enc.now (commits state.new.journal) surveillance.new.crafts }
{
    enc.valid_law();
    let places = Places::new(enc, state.commits(own) + 1);
    surveillance.look(own, &places);
    let _ = state.commit(own, &surveillance.picture);
}

/// Adds the entry that comes next, until all have equally many commits, nobody owes and nothing is due.
pub(crate) fn step(state: &mut AirState, enc: &Encounter, surveillance: &mut Surveillance) -> bool
    requires same { state.old.encounter ≡ enc.now }
    requires ready { AreReady enc.now (commits state.old.journal) surveillance.old.crafts }
    ensures encounter { state.new.encounter ≡ enc.now }
    ensures ready { AreReady enc.now (commits state.new.journal) surveillance.new.crafts }
    ensures stepped { MatchBool result (Stepped (air_of enc.now) state.old.journal state.new.journal) (IsAtRest (air_of enc.now) state.new.journal × (state.new.journal ≡ state.old.journal)) }
{
    state.legal_law();
    let Some(own) = slowest(state, enc) else {
        return false;
    };
    if may_go(state, enc, own) {
        commit_next(state, enc, surveillance, own);
        return true;
    }
    if send_first(state, enc) {
        return true;
    }
    take_first(state, enc)
}
