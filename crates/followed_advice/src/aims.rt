// Where the aircraft have to be.
ghost use Rattle.std.specs.Prelude.{◌≡◌, ◌<◌, ◌≤◌, All, IfOk, length, map};
ghost use Rattle.std.specs.List.{range_with_len};
ghost use Rattle.followed_advice.specs.Following.{followed, is_named};
ghost use Rattle.followed_advice.specs.Keeping.{aims, all_aims};

use crate::limits::sixtieths;
use acas_base::Encounter;
use air_journal::AirState;
use flight::{Place, position};
use leg_rows::places_of;
use response::ModelledFlight;
use std::alloc::{AllocError, Global};

// Whether an aircraft is among those that are named.
pub(crate) fn is_named(named: &[u8], own: u8) -> bool
    ensures { result ≡ is_named named.now own }
{
    named.iter().any(|index| *index == own)
}

// A place with another altitude.
fn at_altitude(place: Place, z: i64) -> Place
    ensures { result ≡ record { x = place.x; y = place.y; z = z } }
{
    Place { z, ..place }
}

// Where an aircraft has to be in each cycle of the run that follows its advice.
fn followed_places(
    alloc: Global,
    encounter: &Encounter,
    state: &AirState,
    own: u8,
) -> Result<Vec<Place>, AllocError>
    requires { own < length encounter.now.crafts }
    ensures { IfOk result (λ places. places.items ≡ map (followed encounter.now state.now.journal own) (range_with_len 1 encounter.now.cycles)) }
{
    let mut places = Vec::with_capacity(alloc, usize::from(encounter.cycles()))?;
    let mut flight = ModelledFlight::with_plan(encounter, state, own);
    for second in 0..encounter.cycles() {
        let Some(altitude) = flight.next() else {
            unreachable!();
        };
        let place = position(encounter, own, second + 1);
        places.push(at_altitude(place, sixtieths(altitude)))?;
    }
    Ok(places)
}

// Where an aircraft has to be in each cycle of the run.
fn aims(
    alloc: Global,
    encounter: &Encounter,
    named: &[u8],
    state: &AirState,
    own: u8,
) -> Result<Vec<Place>, AllocError>
    requires { own < length encounter.now.crafts }
    ensures { IfOk result (λ places. places.items ≡ aims encounter.now named.now state.now.journal own) }
{
    if is_named(named, own) {
        return followed_places(alloc, encounter, state, own);
    }
    places_of(alloc, encounter, own)
}

// Where all aircraft have to be, by the plan of an encounter and the journal of a state.
pub(crate) fn all_aims(
    alloc: Global,
    encounter: &Encounter,
    named: &[u8],
    state: &AirState,
) -> Result<Vec<Vec<Place>>, AllocError>
    ensures { IfOk result (λ rows. map (λ row. row.items) rows.items ≡ all_aims encounter.now named.now state.now.journal) }
{
    encounter.valid_law();
    let count = encounter.crafts().len() as u8;
    let mut rows = Vec::with_capacity(alloc, usize::from(count))?;
    for own in 0..count {
        rows.push(aims(alloc, encounter, named, state, own)?)?;
    }
    Ok(rows)
}
