// Rounds, from a journal in which all are level.
ghost use Rattle.std.specs.Prelude.{◌≡◌, ◌+◌, ◌<◌, length};
ghost use Rattle.air_journal.specs.Airs.{air_of};
ghost use Rattle.air_rules.specs.Journal.{commits};
ghost use Rattle.craft_view.specs.Looking.{AreReady};
ghost use Rattle.resume.specs.Filling.{Fills};
ghost use Rattle.resume.specs.Phases.{BeforeCommit, BeforeSends, BeforeTakes};

use acas_base::Encounter;
use air_journal::{AirState, Sent, Took};
use craft_view::{Surveillance, is_active};
use flight::Places;

// Commits an aircraft's cycle of a round.
fn commit_of(
    state: &mut AirState,
    enc: &Encounter,
    surveillance: &mut Surveillance,
    own: u8,
    done: u16,
    places: &Places,
)
    requires same { state.old.encounter ≡ enc.now }
    requires own { own < length enc.now.crafts }
    requires left { done < enc.now.cycles }
    requires places { places.now ≡ record { encounter = enc.now; cycle = done + 1 } }
    requires ready { AreReady enc.now (commits state.old.journal) surveillance.old.crafts }
    requires before { BeforeCommit (air_of enc.now) state.old.journal own done }
    ensures encounter { state.new.encounter ≡ enc.now }
    ensures fills { Fills (air_of enc.now) state.old.journal state.new.journal }
    ensures ready { AreReady enc.now (commits state.new.journal) surveillance.new.crafts }
    ensures after { BeforeCommit (air_of enc.now) state.new.journal (own + 1) done }
{
    enc.valid_law();
    if !is_active(enc, own) {
        return;
    }
    surveillance.look_after(own, places, state.cells(own, done));
    let _ = state.commit_after(own, &surveillance.picture);
}

// Sends all that an aircraft owes.
fn sends_of(state: &mut AirState, enc: &Encounter, own: u8, rounds: u16)
    requires same { state.old.encounter ≡ enc.now }
    requires before { BeforeSends (air_of enc.now) state.old.journal own rounds }
    ensures encounter { state.new.encounter ≡ enc.now }
    ensures fills { Fills (air_of enc.now) state.old.journal state.new.journal }
    ensures after { BeforeSends (air_of enc.now) state.new.journal (own + 1) rounds }
{
    if !is_active(enc, own) {
        return;
    }
    state.legal_law();
    loop {
        match state.send(own) {
            Sent::Done(_) => {}
            Sent::Nothing => return,
        }
    }
}

// Takes all that is due to an aircraft.
fn takes_of(state: &mut AirState, enc: &Encounter, own: u8, rounds: u16)
    requires same { state.old.encounter ≡ enc.now }
    requires before { BeforeTakes (air_of enc.now) state.old.journal own rounds }
    ensures encounter { state.new.encounter ≡ enc.now }
    ensures fills { Fills (air_of enc.now) state.old.journal state.new.journal }
    ensures after { BeforeTakes (air_of enc.now) state.new.journal (own + 1) rounds }
{
    if !is_active(enc, own) {
        return;
    }
    state.legal_law();
    loop {
        match state.take(own) {
            Took::Done(_, _) => {}
            Took::Nothing => return,
        }
    }
}

fn all_commits(
    state: &mut AirState,
    enc: &Encounter,
    surveillance: &mut Surveillance,
    places: &mut Places<'_>,
    done: u16,
)
    requires same { state.old.encounter ≡ enc.now }
    requires places { places.old.encounter ≡ enc.now }
    requires left { done < enc.now.cycles }
    requires ready { AreReady enc.now (commits state.old.journal) surveillance.old.crafts }
    requires before { BeforeCommit (air_of enc.now) state.old.journal 0 done }
    ensures encounter { state.new.encounter ≡ enc.now }
    ensures fills { Fills (air_of enc.now) state.old.journal state.new.journal }
    ensures ready { AreReady enc.now (commits state.new.journal) surveillance.new.crafts }
    ensures after { BeforeCommit (air_of enc.now) state.new.journal (length enc.now.crafts) done }
    ensures places { places.new.encounter ≡ enc.now }
{
    enc.valid_law();
    places.move_to(done + 1);
    for own in 0..enc.crafts().len() as u8 {
        commit_of(state, enc, surveillance, own, done, places);
    }
}

fn all_sends(state: &mut AirState, enc: &Encounter, rounds: u16)
    requires same { state.old.encounter ≡ enc.now }
    requires before { BeforeSends (air_of enc.now) state.old.journal 0 rounds }
    ensures encounter { state.new.encounter ≡ enc.now }
    ensures fills { Fills (air_of enc.now) state.old.journal state.new.journal }
    ensures after { BeforeSends (air_of enc.now) state.new.journal (length enc.now.crafts) rounds }
{
    for own in 0..enc.crafts().len() as u8 {
        sends_of(state, enc, own, rounds);
    }
}

fn all_takes(state: &mut AirState, enc: &Encounter, rounds: u16)
    requires same { state.old.encounter ≡ enc.now }
    requires before { BeforeTakes (air_of enc.now) state.old.journal 0 rounds }
    ensures encounter { state.new.encounter ≡ enc.now }
    ensures fills { Fills (air_of enc.now) state.old.journal state.new.journal }
    ensures after { BeforeTakes (air_of enc.now) state.new.journal (length enc.now.crafts) rounds }
{
    for own in 0..enc.crafts().len() as u8 {
        takes_of(state, enc, own, rounds);
    }
}

/// One round: all commit, then all send, then all take. All look from the places of its cycle.
pub(crate) fn round(
    state: &mut AirState,
    enc: &Encounter,
    surveillance: &mut Surveillance,
    places: &mut Places<'_>,
    done: u16,
)
    requires same { state.old.encounter ≡ enc.now }
    requires places { places.old.encounter ≡ enc.now }
    requires left { done < enc.now.cycles }
    requires ready { AreReady enc.now (commits state.old.journal) surveillance.old.crafts }
    requires before { BeforeCommit (air_of enc.now) state.old.journal 0 done }
    ensures encounter { state.new.encounter ≡ enc.now }
    ensures fills { Fills (air_of enc.now) state.old.journal state.new.journal }
    ensures ready { AreReady enc.now (commits state.new.journal) surveillance.new.crafts }
    ensures after { BeforeCommit (air_of enc.now) state.new.journal 0 (done + 1) }
    ensures places { places.new.encounter ≡ enc.now }
{
    enc.valid_law();
    all_commits(state, enc, surveillance, places, done);
    all_sends(state, enc, done + 1);
    all_takes(state, enc, done + 1);
}
