// A start that is moved, and a flight that is later.
ghost use Rattle.std.specs.Prelude.{◌≡◌, ◌↔◌, ◌++◌, ◌<◌, ◌≤◌, ◌^◌, All, IfOk, IsTrue, MatchOption, filter, length, nat_lt, neg_ℤ, pos, ◌+ℤ◌, slice_set, unsigned_abs};
ghost use Rattle.std.specs.Int.{int_div_euclid};
ghost use Rattle.acas_base.specs.Encounter.{IsCraft};
ghost use Rattle.acas_base.specs.Ranges.{IsBetween, IsWithin};
ghost use Rattle.acas_base.specs.declared.craft.Leg.{Leg};
ghost use Rattle.flight.specs.Bounds.{IsReachable};
ghost use Rattle.flight.specs.Inside.{IsInBox};
ghost use Rattle.leg_rows.specs.Flights.{at_place};
ghost use Rattle.variants.specs.Flights.{late_places, moved, with_legs};
ghost use Rattle.variants.specs.Variants.{IsAnswer};
ghost use Rattle.variants.specs.declared.change.Change.TheVariants.{Shifted};
ghost use Rattle.variants.specs.declared.change.Quantity.TheVariants.{Late, Start};

use crate::drawn::late_place;
use crate::making::{made_inside, with_craft};
use crate::{Axis, Quantity, Shift};
use acas_base::{CraftSpec, Encounter, Leg};
use acas_num::floor_div;
use flight::Place;
use leg_rows::add_legs;
use std::alloc::{AllocError, Global};

// A coordinate in ft that is moved. None where it is in no range then.
fn moved_by(value: i32, feet: i64) -> Option<i32>
    requires small { unsigned_abs feet ≤ 2 ^ 33 }
    ensures { MatchOption result (IsWithin 1000000 (value +ℤ feet) → ⊥) (λ moved. moved ≡ value +ℤ feet) }
{
    let moved = i64::from(value) + feet;
    if -1_000_000 <= moved && moved <= 1_000_000 {
        Some(moved as i32)
    } else {
        None
    }
}

// An aircraft whose start is moved. None where it is in no range then.
fn moved(craft: &CraftSpec, axis: Axis, feet: i64) -> Option<CraftSpec>
    requires small { unsigned_abs feet ≤ 2 ^ 33 }
    ensures { MatchOption result (IsCraft (moved axis feet craft.now) → ⊥) (λ spec. spec ≡ moved axis feet craft.now) }
{
    match axis {
        Axis::X => {
            let Some(x) = moved_by(craft.x, feet) else {
                return None;
            };
            Some(CraftSpec { x, ..*craft })
        }
        Axis::Y => {
            let Some(y) = moved_by(craft.y, feet) else {
                return None;
            };
            Some(CraftSpec { y, ..*craft })
        }
        Axis::Altitude => {
            let Some(alt) = moved_by(craft.alt, feet) else {
                return None;
            };
            Some(CraftSpec { alt, ..*craft })
        }
    }
}

// The variant with the start of an aircraft moved.
fn with_start(
    alloc: Global,
    encounter: &Encounter,
    craft: u8,
    axis: Axis,
    feet: i64,
) -> Result<Option<Encounter>, AllocError>
    requires small { unsigned_abs feet ≤ 2 ^ 33 }
    ensures { IfOk result (λ made. IsAnswer encounter.now (Shifted (record { quantity = Start axis; craft = craft; value = feet })) made) }
{
    let index = usize::from(craft);
    if index >= encounter.crafts().len() {
        return Ok(None);
    }
    let Some(moved) = moved(&encounter.crafts()[index], axis, feet) else {
        return Ok(None);
    };
    made_inside(
        alloc,
        encounter,
        with_craft(alloc, encounter.crafts(), index, moved)?,
        Vec::from_slice(alloc, encounter.legs())?,
        Vec::from_slice(alloc, encounter.fates())?,
    )
}

fn is_between(low: i64, value: i64, high: i64) -> bool
    ensures { IsTrue result ↔ IsBetween low high value }
{
    low <= value && value <= high
}

fn is_in_box(place: &Place) -> bool
    ensures { IsTrue result ↔ IsInBox place.now }
{
    is_between(-1_000_000, place.x, 1_000_000)
        && is_between(-1_000_000, place.y, 1_000_000)
        && is_between(-60_000, place.z, 3_600_000)
}

// The places of an aircraft that flies later. None where it leaves the box.
fn late_places(
    alloc: Global,
    encounter: &Encounter,
    craft: u8,
    late: i64,
) -> Result<Option<Vec<Place>>, AllocError>
    requires craft { craft < length encounter.now.crafts }
    requires small { unsigned_abs late ≤ 2 ^ 33 }
    ensures { IfOk result (λ found. MatchOption found
        (All IsInBox (late_places encounter.now craft late) → ⊥)
        (λ places. (places.items ≡ late_places encounter.now craft late) × All IsInBox places.items)) }
{
    let mut places = Vec::with_capacity(alloc, usize::from(encounter.cycles()))?;
    for cycle in 0..encounter.cycles() {
        let place = late_place(encounter, craft, late, cycle + 1);
        if !is_in_box(&place) {
            return Ok(None);
        }
        places.push(place)?;
    }
    Ok(Some(places))
}

// The legs of aircraft with lower indices.
fn legs_before(alloc: Global, legs: &[Leg], craft: u8) -> Result<Vec<Leg>, AllocError>
    ensures { IfOk result (λ kept. kept.items ≡ filter (λ (leg : Leg). nat_lt leg.craft craft) legs.now) }
{
    let mut kept = Vec::from_slice(alloc, legs)?;
    kept.retain(|leg| leg.craft < craft);
    Ok(kept)
}

// The legs of aircraft with higher indices.
fn legs_behind(alloc: Global, legs: &[Leg], craft: u8) -> Result<Vec<Leg>, AllocError>
    ensures { IfOk result (λ kept. kept.items ≡ filter (λ (leg : Leg). nat_lt craft leg.craft) legs.now) }
{
    let mut kept = Vec::from_slice(alloc, legs)?;
    kept.retain(|leg| craft < leg.craft);
    Ok(kept)
}

// The legs of all aircraft, where one has those that lead through given places.
fn with_legs(
    alloc: Global,
    legs: &[Leg],
    craft: u8,
    places: &[Place],
) -> Result<Vec<Leg>, AllocError>
    requires few { length places.now ≤ 600 }
    requires near { All IsReachable places.now }
    ensures { IfOk result (λ made. made.items ≡ with_legs craft places.now legs.now) }
{
    let mut made = legs_before(alloc, legs, craft)?;
    add_legs(&mut made, craft, places)?;
    made.extend_from_slice(legs_behind(alloc, legs, craft)?.as_slice())?;
    Ok(made)
}

// For the proof: a coordinate fits its type.
fn coordinate(value: i64) -> i32
    requires { IsWithin 1000000 value }
    ensures { result ≡ value }
{
    value as i32
}

// An altitude in 1/60 ft, as whole feet.
fn feet(z: i64) -> i32
    requires { IsBetween (neg_ℤ (pos 60000)) (pos 3600000) z }
    ensures { result ≡ int_div_euclid z (pos 60) }
{
    floor_div(z, 60) as i32
}

// An aircraft that begins at a place.
fn at_place(craft: &CraftSpec, place: &Place) -> CraftSpec
    requires { IsInBox place.now }
    ensures { result ≡ at_place craft.now place.now }
{
    CraftSpec {
        x: coordinate(place.x),
        y: coordinate(place.y),
        alt: feet(place.z),
        ..*craft
    }
}

// The variant with the whole flight of an aircraft so many cycles later.
fn with_delay(
    alloc: Global,
    encounter: &Encounter,
    craft: u8,
    late: i64,
) -> Result<Option<Encounter>, AllocError>
    requires small { unsigned_abs late ≤ 2 ^ 33 }
    ensures { IfOk result (λ made. IsAnswer encounter.now (Shifted (record { quantity = Late; craft = craft; value = late })) made) }
{
    let index = usize::from(craft);
    if index >= encounter.crafts().len() {
        return Ok(None);
    }
    let Some(places) = late_places(alloc, encounter, craft, late)? else {
        return Ok(None);
    };
    let begun = at_place(&encounter.crafts()[index], &places[0]);
    made_inside(
        alloc,
        encounter,
        with_craft(alloc, encounter.crafts(), index, begun)?,
        with_legs(alloc, encounter.legs(), craft, places.as_slice())?,
        Vec::from_slice(alloc, encounter.fates())?,
    )
}

// The variant in which a value changes the start of an aircraft, or when it flies.
pub(crate) fn shifted(
    alloc: Global,
    encounter: &Encounter,
    shift: Shift,
) -> Result<Option<Encounter>, AllocError>
    requires small { unsigned_abs shift.value ≤ 2 ^ 33 }
    ensures { IfOk result (λ made. IsAnswer encounter.now (Shifted shift) made) }
{
    match shift.quantity {
        Quantity::Start(axis) => with_start(alloc, encounter, shift.craft, axis, shift.value),
        Quantity::Late => with_delay(alloc, encounter, shift.craft, shift.value),
    }
}
