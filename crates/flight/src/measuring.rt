// What one aircraft measures of another one.
ghost use Rattle.std.specs.Prelude.{◌≡◌, ℕ, ◌*◌, ◌+◌, ◌<◌, ◌≤◌, ◌^◌, pos, neg_ℤ, ◌-ℤ◌, ◌≤ℤ◌, unsigned_abs, IfSome, length};
ghost use Rattle.acas_base.specs.Ranges.{IsCycle};
ghost use Rattle.acas_num.specs.Clamp.{LiesBetween};
ghost use Rattle.flight.specs.Bounds.{IsReachable};
ghost use Rattle.flight.specs.Flight.{position};
ghost use Rattle.flight.specs.Inside.{IsInside, IsInBox};
ghost use Rattle.flight.specs.Measurement.{IsSlantRange, distance, feet, longest, measured_by, measurement, own_altitude, reported, slant_range, square};
ghost use Rattle.flight.specs.declared.place.Place.{Place};

use crate::misses::is_missed;
use crate::{Place, position};
use acas_base::Encounter;
use acas_num::{floor_div, root};

/// What one aircraft measures of another one (this project's profile).
#[derive(Clone, Copy, PartialEq, Eq)]
pub struct Meas {
    /// The slant range in ft, rounded down: at most 182,280.
    pub range: u32,
    /// The reported altitude in ft, to the nearest 25 ft.
    pub alt: i32,
}

// The greatest range that is measured_by, in ft.
const LONGEST: u64 = 182_280;

/// What an own aircraft measures of a target in a cycle (this project's profile). None where a miss of that own
/// aircraft and that target covers the cycle, or where the range is above 182,280 ft.
pub fn measure(encounter: &Encounter, own: u8, target: u8, cycle: u16) -> Option<Meas>
    requires own { own < length encounter.now.crafts }
    requires target { target < length encounter.now.crafts }
    requires cycle { IsCycle cycle }
    ensures value { result ≡ measurement encounter.now own target cycle }
    ensures range { IfSome result (λ m. m.range ≤ 182280) }
    ensures altitude { IsInside encounter.now → cycle ≤ encounter.now.cycles → IfSome result (λ m. LiesBetween (neg_ℤ (pos 2000)) (pos 62000) m.alt) }
{
    if is_missed(encounter, own, target, cycle) {
        return None;
    }
    let here = position(encounter, own, cycle);
    let there = position(encounter, target, cycle);
    measured(slant_range(here, there), there)
}

/// The altitude that an aircraft measures of itself in a cycle, in ft, rounded down (this project's
/// profile).
#[tactic(auto, unfolding(crate::specs::Measurement::own_altitude))]
pub fn own_altitude(encounter: &Encounter, craft: u8, cycle: u16) -> i32
    requires craft { craft < length encounter.now.crafts }
    requires cycle { IsCycle cycle }
    ensures value { result ≡ own_altitude encounter.now craft cycle }
    ensures altitude { IsInside encounter.now → cycle ≤ encounter.now.cycles → LiesBetween (neg_ℤ (pos 1000)) (pos 60000) result }
{
    feet(position(encounter, craft, cycle).z)
}

/// A law: `slant_range p q` is the greatest whole number of feet that is no more than the distance between two places,
/// and no other number is.
pub fn slant_range_law()
    ensures greatest { (p q : Place) → IsSlantRange p q (slant_range p q) }
    ensures only { (p q : Place) (r : ℕ) → IsSlantRange p q r → r ≡ slant_range p q }
{}

// What is measured of an aircraft at a place and a range, where no miss is recorded. It is inlined where
// `Places::measure` is: else that call saves nothing.
#[inline(always)]
pub(crate) fn measured(range: u64, there: Place) -> Option<Meas>
    requires { IsReachable there }
    ensures value { result ≡ measured_by range there }
    ensures range { IfSome result (λ m. m.range ≤ 182280) }
    ensures altitude { IsInBox there → IfSome result (λ m. LiesBetween (neg_ℤ (pos 2000)) (pos 62000) m.alt) }
{
    if range > LONGEST {
        return None;
    }
    Some(Meas {
        range: range as u32,
        alt: reported(there.z),
    })
}

/// The slant range between two places in ft, rounded down. It has no upper limit (this project's profile).
///
/// It is inlined where the ranges of a cycle are measured: a call would copy both places.
#[inline(always)]
pub fn slant_range(here: Place, there: Place) -> u64
    requires here { IsReachable here }
    requires there { IsReachable there }
    ensures { result ≡ slant_range here there }
{
    let x = square(here.x, there.x);
    let y = square(here.y, there.y);
    root((3600 * x + 3600 * y + square(here.z, there.z)) / 3600)
}

// The square of a difference.
fn square(a: i64, b: i64) -> u64
    requires a { unsigned_abs a ≤ 2 ^ 24 }
    requires b { unsigned_abs b ≤ 2 ^ 24 }
    ensures value { result ≡ square (a -ℤ b) }
    ensures bound { result ≤ 2 ^ 50 }
{
    let distance = (a - b).unsigned_abs();
    distance * distance
}

// An altitude in 1/60 ft, as whole feet, rounded down.
pub(crate) fn feet(z: i64) -> i32
    requires { unsigned_abs z ≤ 2 ^ 24 }
    ensures value { result ≡ feet z }
    ensures inside { neg_ℤ (pos 60000) ≤ℤ z → z ≤ℤ pos 3600000 → LiesBetween (neg_ℤ (pos 1000)) (pos 60000) result }
{
    floor_div(z, 60) as i32
}

// An altitude in 1/60 ft, as it is reported.
fn reported(z: i64) -> i32
    requires { unsigned_abs z ≤ 2 ^ 24 }
    ensures value { result ≡ reported z }
    ensures inside { neg_ℤ (pos 60000) ≤ℤ z → z ≤ℤ pos 3600000 → LiesBetween (neg_ℤ (pos 2000)) (pos 62000) result }
{
    (25 * floor_div(z + 750, 1500)) as i32
}
