// The legs of all aircraft of an encounter.
ghost use Rattle.std.specs.Prelude.{◌≡◌, ◌++◌, ◌∷◌, [], ℕ, List, ◌<◌, ◌≤◌, All, IfOk, length, map, slice_index_or};
ghost use Rattle.acas_base.specs.Encounter.{AreListed, IsEncounter, IsLeg, Parts};
ghost use Rattle.acas_base.specs.Order.{leg_below};
ghost use Rattle.acas_base.specs.declared.TheConstants.{CRAFTS};
ghost use Rattle.flight.specs.Bounds.{IsReachable};
ghost use Rattle.flight.specs.Flight.{position};
ghost use Rattle.flight.specs.declared.place.Place.{Place};
ghost use Rattle.leg_rows.specs.Flights.{AreAlike, AreRows, CanFly, FliesThrough, FlyAlike, HasNeededLegs, flown_by, legs_of_all};
ghost use Rattle.leg_rows.specs.Rows.{AreFlyable, place_of};

use crate::rows::add_legs;
use crate::starts::crafts_at;
use acas_base::{Encounter, Leg};
use flight::Place;
use std::alloc::{AllocError, Global};

/// The legs of all aircraft of an encounter. A row has the places of one aircraft, one for each cycle from cycle 1 on,
/// and the rows stand in the order of the aircraft. The error says that memory was wanting.
///
/// An encounter takes them where [`crate::first_excess`] gives none for any row.
pub fn legs_of_all(alloc: Global, rows: &[Vec<Place>]) -> Result<Vec<Leg>, AllocError>
    requires crafts { length rows.now ≤ CRAFTS }
    requires few { All (λ row. length row.items ≤ 600) rows.now }
    requires near { All (λ row. All IsReachable row.items) rows.now }
    ensures { IfOk result (λ legs. legs.items ≡ legs_of_all (map (λ row. row.items) rows.now)) }
{
    let mut legs = Vec::new(alloc);
    for craft in 0..rows.len() {
        add_legs(&mut legs, craft as u8, rows[craft].as_slice())?;
    }
    Ok(legs)
}

/// The encounter that is like another one, but whose aircraft fly through these rows, as [`legs_of_all`] has them. The
/// error says that memory was wanting.
///
/// By [`flights_law`] it is the only such encounter in which each leg is needed.
pub fn fly_through(
    alloc: Global,
    encounter: &Encounter,
    rows: &[Vec<Place>],
) -> Result<Encounter, AllocError>
    requires { CanFly encounter.now (map (λ row. row.items) rows.now) }
    ensures value { IfOk result (λ made. made ≡ flown_by encounter.now (map (λ row. row.items) rows.now)) }
    ensures flies { IfOk result (λ made. FliesThrough made encounter.now (map (λ row. row.items) rows.now)) }
{
    let made = Encounter::make(
        encounter.setting(),
        Vec::from_slice(alloc, encounter.calls())?,
        crafts_at(alloc, encounter.crafts(), rows)?,
        legs_of_all(alloc, rows)?,
        Vec::from_slice(alloc, encounter.misses())?,
        Vec::from_slice(alloc, encounter.plans())?,
        Vec::from_slice(alloc, encounter.fates())?,
    );
    match made {
        Some(made) => Ok(made),
        None => unreachable!(),
    }
}

/// Laws of the legs that lead all aircraft of an encounter through their places.
///
/// - `listed`: they are the legs of an encounter, where a leg can lead from each place to the next.
/// - `flown`: in each cycle of the run each aircraft is at its place.
/// - `needed`: each of these legs is needed.
/// - `only`: no other encounter, of the same aircraft, flies like it with needed legs alone.
pub fn flights_law()
    ensures listed { (rows : List (List Place)) → All (λ places. length places ≤ 600) rows → All AreFlyable rows → AreListed IsLeg leg_below (length rows) (legs_of_all rows) }
    ensures flown { (e : Parts) (rows : List (List Place)) → AreRows e rows → e.legs ≡ legs_of_all rows → (craft cycle : ℕ) → craft < length e.crafts → 1 ≤ cycle → cycle ≤ e.cycles → position e craft cycle ≡ place_of (slice_index_or rows craft []) cycle }
    ensures needed { (e : Parts) (rows : List (List Place)) → AreRows e rows → e.legs ≡ legs_of_all rows → HasNeededLegs e }
    ensures only { (d e : Parts) → IsEncounter d → IsEncounter e → AreAlike d e → HasNeededLegs d → HasNeededLegs e → FlyAlike d e → d ≡ e }
{}
