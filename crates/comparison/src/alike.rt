// Which runs can be compared.
ghost use Rattle.std.specs.Prelude.{◌≡◌, ◌↔◌, IsTrue, map};
ghost use Rattle.comparison.specs.Encounters.{AreAlike, without_ceiling};

use acas_base::{CraftSpec, Encounter};

fn is_same_craft(one: &CraftSpec, other: &CraftSpec) -> bool
    ensures { IsTrue result ↔ (without_ceiling one.now ≡ without_ceiling other.now) }
{
    if one.address.value() != other.address.value() {
        return false;
    }
    if one.kind != other.kind {
        return false;
    }
    if one.x != other.x {
        return false;
    }
    if one.y != other.y {
        return false;
    }
    one.alt == other.alt
}

fn are_same_crafts(one: &[CraftSpec], other: &[CraftSpec]) -> bool
    ensures { IsTrue result ↔ (map without_ceiling one.now ≡ map without_ceiling other.now) }
{
    if one.len() != other.len() {
        return false;
    }
    for place in 0..one.len() {
        if !is_same_craft(&one[place], &other[place]) {
            return false;
        }
    }
    true
}

/// Whether the lines `run` and `craft` of two encounters say the same.
pub(crate) fn are_alike(one: &Encounter, other: &Encounter) -> bool
    ensures { IsTrue result ↔ AreAlike one.now other.now }
{
    if one.cycles() != other.cycles() {
        return false;
    }
    if one.ground() != other.ground() {
        return false;
    }
    are_same_crafts(one.crafts(), other.crafts())
}
