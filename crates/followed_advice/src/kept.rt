// Encounters on the way to the one that is written.
ghost use Rattle.std.specs.Prelude.{◌≡◌, ◌++◌, [], ◌<◌, ◌≤◌, All, IfOk, OnOk, filter, ◌==◌, length, map, slice_index_or};
ghost use Rattle.acas_base.specs.declared.craft.Leg.{Leg};
ghost use Rattle.flight.specs.Bounds.{IsReachable};
ghost use Rattle.flight.specs.Flight.{legs_of};
ghost use Rattle.flight.specs.Inside.{IsInBox, IsInside};
ghost use Rattle.leg_rows.specs.Rows.{place_of};
ghost use Rattle.followed_advice.specs.Keeping.{AreRows, BeginThere, FliesKept, all_legs, goes_on, kept_row, legs_along};

use crate::aims::is_named;
use crate::limits::can_go_on;
use acas_base::{Encounter, Leg};
use flight::Place;
use leg_rows::add_legs;
use std::alloc::{AllocError, Global};

// An aircraft goes on to a place where it can. Where it can't it stays.
fn goes_on(here: Place, there: Place) -> Place
    requires { IsInBox here }
    ensures value { result ≡ goes_on here there }
    ensures boxed { IsInBox result }
{
    if can_go_on(&here, &there) {
        there
    } else {
        here
    }
}

// The places of a row, as far as an aircraft can go on to each.
fn kept_row(alloc: Global, places: &[Place]) -> Result<Vec<Place>, AllocError>
    requires some { 0 < length places.now }
    requires start { IsInBox (place_of places.now 1) }
    ensures value { IfOk result (λ row. row.items ≡ kept_row places.now) }
    ensures boxed { IfOk result (λ row. All IsInBox row.items) }
{
    let mut row = Vec::with_capacity(alloc, places.len())?;
    let mut here = places[0];
    for second in 0..places.len() {
        here = goes_on(here, places[second]);
        row.push(here)?;
    }
    Ok(row)
}

// Adds the legs of an aircraft of an encounter.
fn add_own_legs(legs: &mut Vec<Leg>, encounter: &Encounter, own: u8) -> Result<(), AllocError>
    ensures { OnOk result (legs.new.items ≡ legs.old.items ++ legs_of encounter.now own) }
{
    let all = encounter.legs();
    for at in 0..all.len() {
        if all[at].craft == own {
            legs.push(all[at])?;
        }
    }
    Ok(())
}

// Adds the legs of an aircraft: those through what is kept of its row, where it is named, and else its own.
fn add_legs_along(
    alloc: Global,
    legs: &mut Vec<Leg>,
    encounter: &Encounter,
    named: &[u8],
    rows: &[Vec<Place>],
    own: u8,
) -> Result<(), AllocError>
    requires rows { AreRows encounter.now (map (λ row. row.items) rows.now) }
    requires start { BeginThere encounter.now (map (λ row. row.items) rows.now) }
    requires inside { IsInside encounter.now }
    requires own { own < length encounter.now.crafts }
    ensures { OnOk result (legs.new.items ≡ legs.old.items ++ legs_along encounter.now named.now (map (λ row. row.items) rows.now) own) }
{
    encounter.valid_law();
    if is_named(named, own) {
        let row = kept_row(alloc, rows[usize::from(own)].as_slice())?;
        return add_legs(legs, own, row.as_slice());
    }
    add_own_legs(legs, encounter, own)
}

// The legs of all aircraft.
fn all_legs(
    alloc: Global,
    encounter: &Encounter,
    named: &[u8],
    rows: &[Vec<Place>],
) -> Result<Vec<Leg>, AllocError>
    requires rows { AreRows encounter.now (map (λ row. row.items) rows.now) }
    requires start { BeginThere encounter.now (map (λ row. row.items) rows.now) }
    requires inside { IsInside encounter.now }
    ensures { IfOk result (λ legs. legs.items ≡ all_legs encounter.now named.now (map (λ row. row.items) rows.now)) }
{
    encounter.valid_law();
    let mut legs = Vec::new(alloc);
    for own in 0..encounter.crafts().len() as u8 {
        add_legs_along(alloc, &mut legs, encounter, named, rows, own)?;
    }
    Ok(legs)
}

// The encounter that differs from another one in the legs of the named aircraft alone. They fly through what is kept of
// their rows.
pub(crate) fn fly_kept(
    alloc: Global,
    encounter: &Encounter,
    named: &[u8],
    rows: &[Vec<Place>],
) -> Result<Encounter, AllocError>
    requires rows { AreRows encounter.now (map (λ row. row.items) rows.now) }
    requires start { BeginThere encounter.now (map (λ row. row.items) rows.now) }
    requires inside { IsInside encounter.now }
    ensures { IfOk result (FliesKept encounter.now named.now (map (λ row. row.items) rows.now)) }
{
    let made = Encounter::make(
        encounter.setting(),
        Vec::from_slice(alloc, encounter.calls())?,
        Vec::from_slice(alloc, encounter.crafts())?,
        all_legs(alloc, encounter, named, rows)?,
        Vec::from_slice(alloc, encounter.misses())?,
        Vec::from_slice(alloc, encounter.plans())?,
        Vec::from_slice(alloc, encounter.fates())?,
    );
    match made {
        Some(made) => Ok(made),
        None => unreachable!(),
    }
}
