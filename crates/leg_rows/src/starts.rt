// Where aircraft begin.
ghost use Rattle.std.specs.Prelude.{◌≡◌, ◌<◌, All, IfOk, length, map, neg_ℤ, pos};
ghost use Rattle.std.specs.Int.{int_div_euclid};
ghost use Rattle.acas_base.specs.Ranges.{IsBetween, IsWithin};
ghost use Rattle.flight.specs.Inside.{IsInBox};
ghost use Rattle.leg_rows.specs.Flights.{at_place, crafts_at};

use acas_base::CraftSpec;
use acas_num::floor_div;
use flight::Place;
use std::alloc::{AllocError, Global};

// For the proof: a coordinate fits its type.
fn coordinate(value: i64) -> i32
    requires { IsWithin 1000000 value }
    ensures { result ≡ value }
{
    value as i32
}

// An altitude in 1/60 ft, as whole feet.
fn feet(z: i64) -> i32
    requires { IsBetween (neg_ℤ (pos 60000)) (pos 3600000) z }
    ensures { result ≡ int_div_euclid z (pos 60) }
{
    floor_div(z, 60) as i32
}

// An aircraft that begins at a place.
fn at_place(craft: &CraftSpec, place: &Place) -> CraftSpec
    requires { IsInBox place.now }
    ensures { result ≡ at_place craft.now place.now }
{
    CraftSpec {
        x: coordinate(place.x),
        y: coordinate(place.y),
        alt: feet(place.z),
        ..*craft
    }
}

/// The aircraft, each at the first place of its row.
pub(crate) fn crafts_at(
    alloc: Global,
    crafts: &[CraftSpec],
    rows: &[Vec<Place>],
) -> Result<Vec<CraftSpec>, AllocError>
    requires count { length rows.now ≡ length crafts.now }
    requires some { All (λ row. 0 < length row.items) rows.now }
    requires boxed { All (λ row. All IsInBox row.items) rows.now }
    ensures { IfOk result (λ made. made.items ≡ crafts_at crafts.now (map (λ row. row.items) rows.now)) }
{
    let mut made = Vec::with_capacity(alloc, crafts.len())?;
    for index in 0..crafts.len() {
        made.push(at_place(&crafts[index], &rows[index][0]))?;
    }
    Ok(made)
}
