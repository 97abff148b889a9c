// A journal, and its entries one by one.
ghost use Rattle.std.specs.Prelude.{◌≡◌, ◌+◌, ◌<◌, [], IfOk};
ghost use Rattle.craft_view.specs.Kept.{IsActive};
ghost use Rattle.craft_view.specs.Views.{picture_of};
ghost use Rattle.flight.specs.Inside.{IsInside};

use acas_base::{Encounter, Picture};
use air_journal::{AirState, Commit, Sent, Took};
use craft_view::{Craft, is_active, no_picture};
use flight::inside;
use std::alloc::Global;
use std::test::Fail;

/// The empty journal of an encounter.
pub fn empty_journal(alloc: Global, enc: &Encounter) -> Result<AirState, Fail>
    ensures encounter { IfOk result (λ state. state.encounter ≡ enc.now) }
    ensures journal { IfOk result (λ state. state.journal ≡ []) }
{
    if !inside(enc) {
        return Err("outside the box".into());
    }
    Ok(AirState::new(alloc, enc)?)
}

/// The picture of an active aircraft's next cycle.
pub fn look(enc: &Encounter, own: u8, made: u16) -> Picture
    requires active { IsActive enc.now own }
    requires inside { IsInside enc.now }
    requires left { made < enc.now.cycles }
    ensures { result ≡ picture_of enc.now own (made + 1) }
{
    let mut craft = Craft::new(enc, own);
    for _cycle in 0..made {
        let _ = craft.look(enc);
    }
    craft.look(enc)
}

/// Commits an active aircraft's next cycle, by its picture.
pub fn commit(state: &mut AirState, own: u8) -> Option<Commit> {
    state.legal_law();
    if !is_active(state.enc(), own) {
        return None;
    }
    let made = state.commits(own);
    if made >= state.enc().cycles() {
        return Some(state.commit(own, &no_picture()));
    }
    let picture = look(state.enc(), own, made);
    Some(state.commit(own, &picture))
}

/// Sends the first message that an active aircraft owes.
pub fn send(state: &mut AirState, own: u8) -> Option<Sent> {
    if !is_active(state.enc(), own) {
        return None;
    }
    Some(state.send(own))
}

/// Takes the first copy that is due to an active aircraft.
pub fn take(state: &mut AirState, own: u8) -> Option<Took> {
    if !is_active(state.enc(), own) {
        return None;
    }
    Some(state.take(own))
}
