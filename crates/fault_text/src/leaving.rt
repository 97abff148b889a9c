// Which aircraft leaves the box first.
ghost use Rattle.std.specs.Prelude.{◌≡◌, ◌≤◌, ◌<◌, ◌^◌, false, length, IfSome, MatchOption, unsigned_abs};
ghost use Rattle.flight.specs.Bounds.{IsReachable};
ghost use Rattle.flight.specs.Flight.{position};
ghost use Rattle.flight.specs.Inside.{IsInside, is_between, is_in_box};
ghost use Rattle.fault_text.specs.Leaving.{LeavesFirst, LeavesIn, Stays, is_held, on_axis, out_on};

use acas_base::Encounter;
use flight::{Place, position};

/// A direction in which an aircraft can leave the box.
#[derive(Clone, Copy)]
pub enum Axis {
    X,
    Y,
    Altitude,
}

/// Where an aircraft isn't in the box.
#[derive(Clone, Copy)]
pub(crate) struct Leaving {
    /// Its index.
    pub(crate) craft: u8,
    pub(crate) cycle: u16,
    pub(crate) axis: Axis,
    /// Where it is on that axis: in ft, or in 1/60 ft where it is the altitude.
    pub(crate) value: i32,
}

fn is_between(low: i64, high: i64, value: i64) -> bool
    ensures { result ≡ is_between low high value }
{
    low <= value && value <= high
}

// Whether the box has a number on an axis.
fn is_held(axis: Axis, value: i64) -> bool
    ensures { result ≡ is_held axis value }
{
    match axis {
        Axis::Altitude => is_between(-60_000, 3_600_000, value),
        _ => is_between(-1_000_000, 1_000_000, value),
    }
}

// The first axis on which a place isn't in the box.
fn out_on(place: Place) -> Option<Axis>
    ensures value { result ≡ out_on place }
    ensures outside { IfSome result (λ axis. is_in_box place ≡ false) }
{
    if !is_held(Axis::X, place.x) {
        return Some(Axis::X);
    }
    if !is_held(Axis::Y, place.y) {
        return Some(Axis::Y);
    }
    if !is_held(Axis::Altitude, place.z) {
        return Some(Axis::Altitude);
    }
    None
}

// What a place has on an axis.
fn on_axis(axis: Axis, place: Place) -> i32
    requires { IsReachable place }
    ensures { result ≡ on_axis axis place }
{
    match axis {
        Axis::X => place.x as i32,
        Axis::Y => place.y as i32,
        Axis::Altitude => place.z as i32,
    }
}

// The first cycle of the run in which an aircraft isn't in the box, and the axis.
fn leaves_in(encounter: &Encounter, craft: u8) -> Option<(u16, Axis)>
    requires { craft < length encounter.now.crafts }
    ensures { MatchOption result (Stays encounter.now craft) (λ p. LeavesIn encounter.now craft p.0 p.1) }
{
    for before in 0..encounter.cycles() {
        let cycle = before + 1;
        if let Some(axis) = out_on(position(encounter, craft, cycle)) {
            return Some((cycle, axis));
        }
    }
    None
}

/// Which aircraft isn't in the box first: of several the one with the lowest index, in the first such cycle.
pub(crate) fn first_leaving(encounter: &Encounter) -> Option<Leaving>
    ensures { MatchOption result (IsInside encounter.now) (LeavesFirst encounter.now) }
{
    // For the proof: no encounter has more than 16 aircraft.
    encounter.valid_law();
    for index in 0..encounter.crafts().len() {
        let craft = index as u8;
        if let Some((cycle, axis)) = leaves_in(encounter, craft) {
            let value = on_axis(axis, position(encounter, craft, cycle));
            return Some(Leaving {
                craft,
                cycle,
                axis,
                value,
            });
        }
    }
    None
}
