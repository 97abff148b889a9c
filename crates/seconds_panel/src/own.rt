// Own aircraft of the panel.
ghost use Rattle.std.specs.Prelude.{◌≡◌, ◌<◌, IfSome, IsTrue, length};
ghost use Rattle.craft_view.specs.Kept.{IsActive};
ghost use Rattle.seconds_panel.specs.Own.{AreTested, active_of, own_of, resolves_at, tested};

use acas_base::{Encounter, is_active_at};

/// Own aircraft, and the one against which its tests are shown, by their indices.
#[derive(Clone, Copy)]
pub struct TestedPair {
    pub own: u8,
    pub other: u8,
}

// Whether an aircraft gives resolution advisories. It is active then.
fn resolves_at(encounter: &Encounter, index: u8) -> bool
    requires { index < length encounter.now.crafts }
    ensures value { result ≡ resolves_at encounter.now.crafts index }
    ensures active { IsTrue result → IsActive encounter.now index }
{
    encounter.crafts()[usize::from(index)].kind.resolves()
}

fn tested(own: u8, other: u8) -> TestedPair
    ensures { result ≡ tested own other }
{
    TestedPair { own, other }
}

// The first one of two that is active.
fn active_of(encounter: &Encounter, one: u8, other: u8) -> Option<TestedPair>
    requires one { one < length encounter.now.crafts }
    requires other { other < length encounter.now.crafts }
    ensures value { result ≡ active_of encounter.now one other }
    ensures pair { IfSome result (AreTested encounter.now) }
{
    if is_active_at(encounter.crafts(), one) {
        return Some(tested(one, other));
    }
    if is_active_at(encounter.crafts(), other) {
        return Some(tested(other, one));
    }
    None
}

/// Which of two aircraft is own aircraft of the panel: the first one that gives resolution advisories; where neither
/// does, the first one that is active. None where neither is active.
#[tactic(auto, unfolding(crate::specs::Own::own_of))]
pub fn own_of(encounter: &Encounter, one: u8, other: u8) -> Option<TestedPair>
    requires one { one < length encounter.now.crafts }
    requires other { other < length encounter.now.crafts }
    ensures value { result ≡ own_of encounter.now one other }
    ensures pair { IfSome result (AreTested encounter.now) }
{
    if resolves_at(encounter, one) {
        return Some(tested(one, other));
    }
    if resolves_at(encounter, other) {
        return Some(tested(other, one));
    }
    active_of(encounter, one, other)
}
