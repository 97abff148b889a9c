// Whether a leg changes the rates of its aircraft.
ghost use Rattle.std.specs.Prelude.{◌≡◌, ◌<◌, ◌≤◌, ◌^◌, ◌-ℤ◌, length, unsigned_abs};
ghost use Rattle.flight.specs.Bounds.{IsReachable};
ghost use Rattle.idle_notes.specs.Rates.{are_same, between, keeps_rates, movement, movement_before};

use acas_base::Encounter;
use flight::{Place, position};

fn difference(a: i64, b: i64) -> i64
    requires a { unsigned_abs a ≤ 2 ^ 24 }
    requires b { unsigned_abs b ≤ 2 ^ 24 }
    ensures { result ≡ a -ℤ b }
{
    a - b
}

// How far one place is from another one: `x` and `y` in ft, `z` in 1/60 ft.
fn between(from: Place, to: Place) -> Place
    requires start { IsReachable from }
    requires end { IsReachable to }
    ensures { result ≡ between from to }
{
    Place {
        x: difference(to.x, from.x),
        y: difference(to.y, from.y),
        z: difference(to.z, from.z),
    }
}

// How far an aircraft moves from a cycle to the next one.
fn movement(encounter: &Encounter, craft: u8, cycle: u16) -> Place
    requires craft { craft < length encounter.now.crafts }
    requires first { 1 ≤ cycle }
    requires last { cycle < 600 }
    ensures { result ≡ movement encounter.now craft cycle }
{
    let here = position(encounter, craft, cycle);
    between(here, position(encounter, craft, cycle + 1))
}

// How far it moved to get to the cycle.
fn movement_before(encounter: &Encounter, craft: u8, cycle: u16) -> Place
    requires craft { craft < length encounter.now.crafts }
    requires first { 1 ≤ cycle }
    requires last { cycle < 600 }
    ensures { result ≡ movement_before encounter.now craft cycle }
{
    if cycle == 1 {
        return Place { x: 0, y: 0, z: 0 };
    }
    movement(encounter, craft, cycle - 1)
}

fn are_same(a: Place, b: Place) -> bool
    ensures { result ≡ are_same a b }
{
    a.x == b.x && a.y == b.y && a.z == b.z
}

/// Whether an aircraft moves in a cycle, before the last one, by the rates of before.
pub(crate) fn keeps_rates(encounter: &Encounter, craft: u8, from: u16) -> bool
    requires craft { craft < length encounter.now.crafts }
    requires first { 1 ≤ from }
    requires last { from < 600 }
    ensures { result ≡ keeps_rates encounter.now craft from }
{
    let now = movement(encounter, craft, from);
    are_same(now, movement_before(encounter, craft, from))
}
