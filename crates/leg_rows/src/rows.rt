// Places to legs.
ghost use Rattle.std.specs.Prelude.{◌≡◌, ◌↔◌, ◌++◌, ℕ, List, ◌<◌, ◌≤◌, All, IfSome, IsNone, OnOk, length};
ghost use Rattle.acas_base.specs.declared.craft.Leg.{Leg};
ghost use Rattle.flight.specs.Bounds.{IsReachable};
ghost use Rattle.flight.specs.declared.place.Place.{Place};
ghost use Rattle.leg_rows.specs.Rows.{AreFlyable, AreNeeded, IsFirstExcess, PassThrough, at_rest, is_turn, legs_by, legs_through, rates_from};

use crate::rates::Rates;
use acas_base::Leg;
use flight::Place;
use std::alloc::AllocError;

// The rates from a cycle to the next. Before cycle 1 an aircraft is at rest.
fn rates_from(places: &[Place], cycle: usize) -> Rates
    requires near { All IsReachable places.now }
    requires cycle { cycle < length places.now }
    ensures { result ≡ rates_from places.now cycle }
{
    if cycle == 0 {
        return Rates::at_rest();
    }
    Rates::between(&places[cycle - 1], &places[cycle])
}

// Whether the rates from a cycle to the next aren't those from the cycle before it.
fn is_turn(places: &[Place], cycle: usize) -> bool
    requires near { All IsReachable places.now }
    requires first { 1 ≤ cycle }
    requires cycle { cycle < length places.now }
    ensures { result ≡ is_turn (rates_from places.now) cycle }
{
    !rates_from(places, cycle - 1).is_same(rates_from(places, cycle))
}

// Adds the leg that begins in a cycle, where the rates change in it.
fn add_leg(legs: &mut Vec<Leg>, craft: u8, places: &[Place], cycle: usize) -> Result<(), AllocError>
    requires few { length places.now ≤ 600 }
    requires near { All IsReachable places.now }
    requires first { 1 ≤ cycle }
    requires cycle { cycle < length places.now }
    ensures { OnOk result (legs.new.items ≡ legs.old.items ++ legs_by craft (rates_from places.now) cycle 1) }
{
    if is_turn(places, cycle) {
        legs.push(rates_from(places, cycle).leg(craft, cycle as u16))?;
    }
    Ok(())
}

/// Adds the legs of an aircraft that lead it through these places, one for each cycle from cycle 1 on. A leg begins
/// only where the rates change, or where the aircraft begins to move. The error says that memory was wanting.
///
/// The legs are those of an encounter where [`first_excess`] gives none.
pub fn add_legs(legs: &mut Vec<Leg>, craft: u8, places: &[Place]) -> Result<(), AllocError>
    requires few { length places.now ≤ 600 }
    requires near { All IsReachable places.now }
    ensures { OnOk result (legs.new.items ≡ legs.old.items ++ legs_through craft places.now) }
{
    for second in 0..places.len().saturating_sub(1) {
        add_leg(legs, craft, places, second + 1)?;
    }
    Ok(())
}

/// The first cycle from which an aircraft would have to fly faster to the next of these places than a leg can.
pub fn first_excess(places: &[Place]) -> Option<u16>
    requires few { length places.now ≤ 600 }
    requires near { All IsReachable places.now }
    ensures none { IsNone result → AreFlyable places.now }
    ensures first { IfSome result (IsFirstExcess places.now) }
{
    for second in 0..places.len().saturating_sub(1) {
        let cycle = second + 1;
        if !rates_from(places, cycle).fit() {
            return Some(cycle as u16);
        }
    }
    None
}

/// Laws of the legs that lead through places.
///
/// - `through`: an aircraft that flies them is at each of the places in its cycle.
/// - `needed`: each has other rates than the leg before it, and the first isn't a leg of rest. All begin before the
///   last cycle.
/// - `only`: no other legs of that aircraft do both.
pub fn legs_law()
    ensures through { (craft : ℕ) (places : List Place) → PassThrough places (legs_through craft places) }
    ensures needed { (craft : ℕ) (places : List Place) → AreNeeded craft (length places) at_rest 0 (legs_through craft places) }
    ensures only { (craft : ℕ) (places : List Place) (legs : List Leg) → AreNeeded craft (length places) at_rest 0 legs → PassThrough places legs → legs ≡ legs_through craft places }
{}
