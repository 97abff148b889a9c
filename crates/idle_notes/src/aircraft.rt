// What an aircraft can't do in its encounter.
ghost use Rattle.std.specs.Prelude.{◌≡◌, ◌<◌, ◌≤◌, length, find, is_none, IfSome};
ghost use Rattle.std.specs.List.{list_all, range_with_len};
ghost use Rattle.acas_base.specs.Ranges.{IsCycle};
ghost use Rattle.flight.specs.Inside.{IsInside};
ghost use Rattle.flight.specs.Measurement.{longest};
ghost use Rattle.idle_notes.specs.Aircraft.{first_below, is_alone, is_below_ground, is_far_from, is_far_in, is_low, is_low_in};
ghost use Rattle.idle_notes.specs.Messages.{is_ra_at};

use acas_base::{CraftSpec, Encounter, Level, is_active_at};
use acas_num::Limits;
use flight::{own_altitude, range_between};
use sens_table::Above;

/// The greatest range that is measured, in ft.
pub(crate) fn longest_range() -> u32
    ensures { result ≡ longest }
{
    (Limits::range().highest / 1024) as u32
}

/// Whether an aircraft of kind RA is there at an index.
pub(crate) fn is_ra_at(crafts: &[CraftSpec], craft: u8) -> bool
    ensures { result ≡ is_ra_at crafts.now craft }
{
    match crafts.get(usize::from(craft)) {
        Some(craft) => craft.kind.resolves(),
        None => false,
    }
}

// ---- near the ground

// Whether a level has no resolution advisories.
fn has_none(level: &Level) -> bool
    ensures { result ≡ is_none level.now.ra }
{
    level.ra.is_none()
}

fn is_always_low(encounter: &Encounter, craft: u8) -> bool
    requires inside { IsInside encounter.now }
    requires craft { craft < length encounter.now.crafts }
    ensures { result ≡ list_all (is_low_in encounter.now craft) (range_with_len 1 encounter.now.cycles) }
{
    encounter.valid_law();
    let mut above = Above::none();
    for before in 0..encounter.cycles() {
        let altitude = own_altitude(encounter, craft, before + 1);
        above = above.go_on(before, encounter, altitude);
        if !has_none(&above.level()) {
            return false;
        }
    }
    true
}

/// Whether an aircraft of kind RA has no resolution advisories, since it is too near the ground in each cycle.
pub(crate) fn is_low(encounter: &Encounter, craft: u8) -> bool
    requires inside { IsInside encounter.now }
    requires craft { craft < length encounter.now.crafts }
    ensures { result ≡ is_low encounter.now craft }
{
    is_ra_at(encounter.crafts(), craft) && is_always_low(encounter, craft)
}

// ---- far from all others

fn is_far_in(encounter: &Encounter, craft: u8, other: u8, cycle: u16) -> bool
    requires craft { craft < length encounter.now.crafts }
    requires other { other < length encounter.now.crafts }
    requires first { 1 ≤ cycle }
    requires last { cycle ≤ encounter.now.cycles }
    ensures { result ≡ is_far_in encounter.now craft other cycle }
{
    encounter.valid_law();
    u64::from(longest_range()) < range_between(encounter, craft, other, cycle)
}

fn is_always_far(encounter: &Encounter, craft: u8, other: u8) -> bool
    requires craft { craft < length encounter.now.crafts }
    requires other { other < length encounter.now.crafts }
    ensures { result ≡ list_all (is_far_in encounter.now craft other) (range_with_len 1 encounter.now.cycles) }
{
    for before in 0..encounter.cycles() {
        if !is_far_in(encounter, craft, other, before + 1) {
            return false;
        }
    }
    true
}

fn is_far_from(encounter: &Encounter, craft: u8, other: u8) -> bool
    requires craft { craft < length encounter.now.crafts }
    requires other { other < length encounter.now.crafts }
    ensures { result ≡ is_far_from encounter.now craft other }
{
    other == craft || is_always_far(encounter, craft, other)
}

fn is_far_from_all(encounter: &Encounter, craft: u8) -> bool
    requires { craft < length encounter.now.crafts }
    ensures { result ≡ list_all (is_far_from encounter.now craft) (range_with_len 0 (length encounter.now.crafts)) }
{
    encounter.valid_law();
    for other in 0..encounter.crafts().len() as u8 {
        if !is_far_from(encounter, craft, other) {
            return false;
        }
    }
    true
}

/// Whether an active aircraft measures nobody, since all others are too far from it in each cycle.
pub(crate) fn is_alone(encounter: &Encounter, craft: u8) -> bool
    requires { craft < length encounter.now.crafts }
    ensures { result ≡ is_alone encounter.now craft }
{
    is_active_at(encounter.crafts(), craft) && is_far_from_all(encounter, craft)
}

// ---- below the ground

fn is_below_ground(encounter: &Encounter, craft: u8, cycle: u16) -> bool
    requires craft { craft < length encounter.now.crafts }
    requires first { 1 ≤ cycle }
    requires last { cycle ≤ encounter.now.cycles }
    ensures { result ≡ is_below_ground encounter.now craft cycle }
{
    encounter.valid_law();
    own_altitude(encounter, craft, cycle) < encounter.ground()
}

/// The first cycle of the run in which an aircraft is below the ground.
pub(crate) fn first_below(encounter: &Encounter, craft: u8) -> Option<u16>
    requires { craft < length encounter.now.crafts }
    ensures value { result ≡ first_below encounter.now craft }
    ensures cycle { IfSome result IsCycle }
{
    encounter.valid_law();
    for before in 0..encounter.cycles() {
        if is_below_ground(encounter, craft, before + 1) {
            return Some(before + 1);
        }
    }
    None
}
