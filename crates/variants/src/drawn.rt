// Where an aircraft is in any cycle, also before the run and after it.
ghost use Rattle.std.specs.Prelude.{◌≡◌, ◌≤◌, ◌<◌, ◌^◌, ◌∷◌, [], fold, length, pos, ◌*ℤ◌, ◌+ℤ◌, ◌-ℤ◌, unsigned_abs};
ghost use Rattle.acas_base.specs.Encounter.{AreRates, IsEncounter};
ghost use Rattle.acas_base.specs.Ranges.{IsCycle};
ghost use Rattle.flight.specs.Bounds.{IsReachable};
ghost use Rattle.flight.specs.Flight.{later, position};
ghost use Rattle.variants.specs.Drawn.{IsNear, begun_legs};
ghost use Rattle.variants.specs.Flights.{at_whole_foot, carried_on, drawn_place, late_place, leg_from, nearest_foot, resting};

use acas_base::{Encounter, Leg};
use acas_num::floor_div;
use flight::{Place, position};

// The last cycle of the longest run. No leg begins after it.
const LAST_CYCLE: u16 = 600;

// The best leg so far, or this one where it begins later.
fn later(best: Option<Leg>, leg: Leg) -> Option<Leg>
    ensures { result ≡ later best leg }
{
    match best {
        None => Some(leg),
        Some(best) => {
            if best.from < leg.from {
                Some(leg)
            } else {
                Some(best)
            }
        }
    }
}

// The best leg so far, or this one where it is one of that aircraft, has begun and begins later.
fn later_of(best: Option<Leg>, leg: &Leg, craft: u8, cycle: u16) -> Option<Leg>
    ensures { result ≡ fold later best (begun_legs craft cycle (leg.now ∷ [])) }
{
    if leg.craft != craft {
        return best;
    }
    if leg.from > cycle {
        return best;
    }
    later(best, *leg)
}

// The leg that an aircraft flies from a cycle to the next, or a leg of rest before its first one.
fn leg_from(encounter: &Encounter, craft: u8, cycle: u16) -> Leg
    ensures value { result ≡ leg_from encounter.now craft cycle }
    ensures rates { AreRates result }
    ensures valid { IsEncounter encounter.now }
{
    let mut last = None;
    let legs = encounter.legs();
    for index in 0..legs.len() {
        last = later_of(last, &legs[index], craft, cycle);
    }
    last.unwrap_or(Leg {
        craft: 0,
        from: 1,
        vx: 0,
        vy: 0,
        vz: 0,
    })
}

// For the proof: the bounds of a product.
fn product(rate: i32, seconds: i64) -> i64
    requires rate { unsigned_abs rate ≤ 10000 }
    requires seconds { unsigned_abs seconds ≤ 2 ^ 35 }
    ensures value { result ≡ rate *ℤ seconds }
    ensures bound { unsigned_abs result ≤ 2 ^ 49 }
{
    i64::from(rate) * seconds
}

// For the proof: the bounds of a sum.
fn sum(a: i64, b: i64) -> i64
    requires a { unsigned_abs a ≤ 2 ^ 24 }
    requires b { unsigned_abs b ≤ 2 ^ 49 }
    ensures value { result ≡ a +ℤ b }
    ensures bound { unsigned_abs result ≤ 2 ^ 50 }
{
    a + b
}

// One coordinate after some seconds at a rate, or before.
fn moved(from: i64, rate: i32, seconds: i64) -> i64
    requires from { unsigned_abs from ≤ 2 ^ 24 }
    requires rate { unsigned_abs rate ≤ 10000 }
    requires seconds { unsigned_abs seconds ≤ 2 ^ 35 }
    ensures value { result ≡ from +ℤ (rate *ℤ seconds) }
    ensures bound { unsigned_abs result ≤ 2 ^ 50 }
{
    sum(from, product(rate, seconds))
}

// The place that lies so many seconds of a leg after another one, or before it.
fn carried_on(place: Place, leg: Leg, seconds: i64) -> Place
    requires place { IsReachable place }
    requires rates { AreRates leg }
    requires seconds { unsigned_abs seconds ≤ 2 ^ 35 }
    ensures value { result ≡ carried_on place leg seconds }
    ensures near { IsNear result }
{
    Place {
        x: moved(place.x, leg.vx, seconds),
        y: moved(place.y, leg.vy, seconds),
        z: moved(place.z, leg.vz, seconds),
    }
}

// The place before the run, drawn backwards along the rates of cycle 1.
fn place_before(encounter: &Encounter, craft: u8, cycle: i64) -> Place
    requires craft { craft < length encounter.now.crafts }
    requires cycle { unsigned_abs cycle ≤ 2 ^ 34 }
    ensures value { result ≡ carried_on (position encounter.now craft 1) (leg_from encounter.now craft 1) (cycle -ℤ pos 1) }
    ensures near { IsNear result }
{
    let start = position(encounter, craft, 1);
    let leg = leg_from(encounter, craft, 1);
    carried_on(start, leg, cycle - 1)
}

// The place in a cycle of the longest run.
fn place_within(encounter: &Encounter, craft: u8, cycle: u16) -> Place
    requires craft { craft < length encounter.now.crafts }
    requires cycle { IsCycle cycle }
    ensures value { result ≡ position encounter.now craft cycle }
    ensures near { IsNear result }
{
    position(encounter, craft, cycle)
}

// The place after the longest run, where the aircraft flies on by its last leg.
fn place_behind(encounter: &Encounter, craft: u8, cycle: i64) -> Place
    requires craft { craft < length encounter.now.crafts }
    requires cycle { unsigned_abs cycle ≤ 2 ^ 34 }
    ensures value { result ≡ carried_on (position encounter.now craft 600) (leg_from encounter.now craft 600) (cycle -ℤ pos 600) }
    ensures near { IsNear result }
    ensures valid { IsEncounter encounter.now }
{
    let last = position(encounter, craft, LAST_CYCLE);
    let leg = leg_from(encounter, craft, LAST_CYCLE);
    carried_on(last, leg, cycle - 600)
}

// The place of an aircraft in a cycle, which may lie before the run or after it.
fn drawn_place(encounter: &Encounter, craft: u8, cycle: i64) -> Place
    requires craft { craft < length encounter.now.crafts }
    requires cycle { unsigned_abs cycle ≤ 2 ^ 34 }
    ensures value { result ≡ drawn_place encounter.now craft cycle }
    ensures near { IsNear result }
{
    if cycle < 1 {
        place_before(encounter, craft, cycle)
    } else if cycle <= 600 {
        place_within(encounter, craft, cycle as u16)
    } else {
        place_behind(encounter, craft, cycle)
    }
}

// The place with the nearest whole foot as its altitude.
fn at_whole_foot(place: Place) -> Place
    requires { IsNear place }
    ensures { result ≡ at_whole_foot place }
{
    Place {
        z: sixty(nearest_foot(place.z)),
        ..place
    }
}

// The whole foot that is nearest to an altitude in 1/60 ft, and the greater one where two are as near.
fn nearest_foot(z: i64) -> i64
    requires { unsigned_abs z ≤ 2 ^ 50 }
    ensures value { result ≡ nearest_foot z }
    ensures bound { unsigned_abs result ≤ 2 ^ 51 }
{
    floor_div(z + 30, 60)
}

// For the proof: the bounds of a product.
fn sixty(feet: i64) -> i64
    requires { unsigned_abs feet ≤ 2 ^ 51 }
    ensures { result ≡ pos 60 *ℤ feet }
{
    60 * feet
}

// The place in a cycle of an aircraft whose whole flight is so many cycles later.
pub(crate) fn late_place(encounter: &Encounter, craft: u8, late: i64, cycle: u16) -> Place
    requires craft { craft < length encounter.now.crafts }
    requires late { unsigned_abs late ≤ 2 ^ 33 }
    requires cycle { IsCycle cycle }
    ensures { result ≡ late_place encounter.now craft late cycle }
{
    let place = drawn_place(encounter, craft, i64::from(cycle) - late);
    if cycle == 1 {
        at_whole_foot(place)
    } else {
        place
    }
}
