// The entries that the state of the air allows.
ghost use Rattle.std.specs.Prelude.{◌≡◌, ◌≢◌, ℕ, ◌<◌, IsTrue, MatchBool, Some, length, option_map};
ghost use Rattle.acas_base.specs.Ranges.{IsCycle};
ghost use Rattle.acas_base.specs.declared.entry.Entry.{Entry};
ghost use Rattle.air_journal.specs.Airs.{air_of};
ghost use Rattle.air_journal.specs.EntryRefs.{entry_of};
ghost use Rattle.air_rules.specs.Journal.{commits};
ghost use Rattle.rec_audit.specs.Asking.{Asks};
ghost use Rattle.rec_audit.specs.Keys.{IsKey};
ghost use Rattle.rec_audit.specs.declared.keys.Key.{Key};
ghost use Rattle.craft_view.specs.Looking.{AreReady};

use crate::keys::Key;
use air_journal::{AirState, Commit, EntryRef, Sent, TookThis};
use craft_view::{Surveillance, is_active};
use flight::Places;

// Changes to the places of another cycle. All aircraft that look in one cycle share them.
fn move_to(places: &mut Places<'_>, cycle: u16)
    requires { IsCycle cycle }
    ensures { places.new ≡ record { encounter = places.old.encounter; cycle = cycle } }
{
    if places.cycle() != cycle {
        places.move_to(cycle);
    }
}

// Commits an aircraft's cycle, where that is allowed.
fn commit_like(
    state: &mut AirState,
    surveillance: &mut Surveillance,
    places: &mut Places<'_>,
    own: u8,
    cycle: u16,
) -> bool
    requires same { places.old.encounter ≡ state.old.encounter }
    requires key { IsKey (length state.old.encounter.crafts) (Key.Commit own cycle) }
    requires ready { AreReady state.old.encounter (commits state.old.journal) surveillance.old.crafts }
    ensures encounter { state.new.encounter ≡ state.old.encounter }
    ensures places { places.new.encounter ≡ state.old.encounter }
    ensures asks { Asks (air_of state.old.encounter) state.old.journal state.new.journal (Key.Commit own cycle) result }
    ensures ready { IsTrue result → AreReady state.old.encounter (commits state.new.journal) surveillance.new.crafts }
{
    state.legal_law();
    if !is_active(state.enc(), own) {
        return false;
    }
    if state.commits(own) != cycle - 1 {
        return false;
    }
    if cycle > state.enc().cycles() {
        return false;
    }
    move_to(places, cycle);
    surveillance.look_after(own, places, state.cells(own, cycle - 1));
    match state.commit_after(own, &surveillance.picture) {
        Commit::Done(_) => true,
        _ => false,
    }
}

// Whether a send is to this aircraft.
fn is_to(sent: Option<EntryRef<'_>>, to: u8) -> bool
    ensures { (own target number word : ℕ) → option_map entry_of sent.entry ≡ Some (Entry.Send own target number word) → MatchBool result (target ≡ to) (target ≢ to) }
{
    match sent {
        Some(EntryRef::Send { target, .. }) => target == to,
        _ => false,
    }
}

// Sends a message from one aircraft to another one, where that is allowed.
fn send_like(state: &mut AirState, own: u8, target: u8) -> bool
    ensures encounter { state.new.encounter ≡ state.old.encounter }
    ensures asks { Asks (air_of state.old.encounter) state.old.journal state.new.journal (Key.Send own target) result }
{
    if !is_active(state.enc(), own) {
        return false;
    }
    match state.send(own) {
        Sent::Done(position) => is_to(state.entry_ref(position), target),
        Sent::Nothing => false,
    }
}

// Takes a copy, where that is allowed.
fn take_like(state: &mut AirState, own: u8, send: u32, copy: u8) -> bool
    ensures encounter { state.new.encounter ≡ state.old.encounter }
    ensures asks { Asks (air_of state.old.encounter) state.old.journal state.new.journal (Key.Take own send copy) result }
{
    if !is_active(state.enc(), own) {
        return false;
    }
    match state.take_this(own, send, copy) {
        TookThis::Done(_, _) => true,
        TookThis::NotDue => false,
    }
}

/// Adds the entry that is allowed about a thing, where one is.
pub(crate) fn ask(
    state: &mut AirState,
    surveillance: &mut Surveillance,
    places: &mut Places<'_>,
    about: Key,
) -> bool
    requires same { places.old.encounter ≡ state.old.encounter }
    requires key { IsKey (length state.old.encounter.crafts) about }
    requires ready { AreReady state.old.encounter (commits state.old.journal) surveillance.old.crafts }
    ensures encounter { state.new.encounter ≡ state.old.encounter }
    ensures places { places.new.encounter ≡ state.old.encounter }
    ensures asks { Asks (air_of state.old.encounter) state.old.journal state.new.journal about result }
    ensures ready { IsTrue result → AreReady state.old.encounter (commits state.new.journal) surveillance.new.crafts }
{
    match about {
        Key::Commit { own, cycle } => commit_like(state, surveillance, places, own, cycle),
        Key::Send { own, target } => send_like(state, own, target),
        Key::Take { own, send, copy } => take_like(state, own, send, copy),
    }
}
