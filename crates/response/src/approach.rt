// How far the altitudes of two aircraft are apart.
ghost use Rattle.std.specs.Prelude.{◌≡◌, ◌<◌, ◌≤◌, ◌/◌, ◌^◌, ◌-ℤ◌, unsigned_abs, length};
ghost use Rattle.acas_base.specs.Ranges.{IsCycle};
ghost use Rattle.response.specs.Response.{flown_apart, planned_apart};

use crate::flown;
use acas_base::Encounter;
use air_journal::AirState;
use flight::position;

fn distance(a: i64, b: i64) -> u64
    requires a { unsigned_abs a ≤ 2 ^ 30 }
    requires b { unsigned_abs b ≤ 2 ^ 30 }
    ensures value { result ≡ unsigned_abs (a -ℤ b) }
    ensures bound { result ≤ 2 ^ 31 }
{
    (a - b).unsigned_abs()
}

/// How far the planned altitudes of two aircraft are apart in a cycle, in ft, rounded down (this project's profile).
pub fn planned_apart(encounter: &Encounter, a: u8, b: u8, cycle: u16) -> u32
    requires a { a < length encounter.now.crafts }
    requires b { b < length encounter.now.crafts }
    requires cycle { IsCycle cycle }
    ensures { result ≡ planned_apart encounter.now a b cycle }
{
    let apart = distance(
        position(encounter, a, cycle).z,
        position(encounter, b, cycle).z,
    );
    (apart / 60) as u32
}

/// How far the altitudes are apart at which two aircraft would have flown with the modelled response, in ft, rounded
/// down (this project's profile).
pub fn flown_apart(state: &AirState, a: u8, b: u8, cycle: u16) -> u32
    requires a { a < length state.now.encounter.crafts }
    requires b { b < length state.now.encounter.crafts }
    requires begun { 1 ≤ cycle }
    requires in_run { cycle ≤ state.now.encounter.cycles }
    ensures { result ≡ flown_apart state.now.encounter state.now.journal a b cycle }
{
    (distance(flown(state, a, cycle), flown(state, b, cycle)) / 2048) as u32
}
