// By how much the modelled flights are above the planned ones.
ghost use Rattle.std.specs.Prelude.{◌≡◌, ◌+◌, ◌<◌, ◌≤◌, ◌^◌, length, pos, replicate, unsigned_abs, ◌-ℤ◌};
ghost use Rattle.acas_base.specs.Ranges.{IsCycle};
ghost use Rattle.air_journal.specs.Cells.{place_of};
ghost use Rattle.flight.specs.Flight.{position};
ghost use Rattle.response.specs.Flown.{altitude_units};
ghost use Rattle.summary.specs.Kept.{AreNoted};

use acas_base::{CRAFTS, Encounter};
use air_journal::AirState;
use flight::position;
use response::{ModelledFlight, altitude_units};

/// A place for each aircraft in each cycle of the longest run.
pub(crate) const PLACES: usize = 9600;

/// Where an aircraft in a cycle stands.
pub(crate) fn place_of(craft: u8, cycle: u16) -> usize
    requires { IsCycle cycle }
    ensures { result ≡ place_of craft cycle }
{
    usize::from(cycle - 1) * CRAFTS + usize::from(craft)
}

// The planned altitude in 1/2048 ft.
fn planned_units(encounter: &Encounter, craft: u8, cycle: u16) -> i64
    requires craft { craft < length encounter.now.crafts }
    requires cycle { IsCycle cycle }
    ensures value { result ≡ altitude_units (position encounter.now craft cycle).z }
    ensures bound { unsigned_abs result ≤ 2 ^ 29 }
{
    altitude_units(position(encounter, craft, cycle).z)
}

// A difference of altitudes.
fn difference(flown: i64, planned: i64) -> i32
    requires flown { unsigned_abs flown ≤ 2 ^ 30 }
    requires planned { unsigned_abs planned ≤ 2 ^ 29 }
    ensures { result ≡ flown -ℤ planned }
{
    (flown - planned) as i32
}

// Keeps those of an aircraft, after those of the aircraft before it.
fn note_flight(state: &AirState, craft: u8, list: &mut [i32; PLACES])
    requires craft { craft < length state.now.encounter.crafts }
    requires noted { AreNoted state.now.encounter state.now.journal craft 0 list.old }
    ensures { AreNoted state.now.encounter state.now.journal (craft + 1) 0 list.new }
{
    state.legal_law();
    let mut flight = ModelledFlight::new(state, craft);
    for done in 0..state.enc().cycles() {
        let cycle = done + 1;
        let Some(altitude) = flight.next() else {
            return;
        };
        list[place_of(craft, cycle)] = difference(
            altitude,
            planned_units(state.enc(), craft, cycle),
        );
    }
}

fn nothing_noted() -> [i32; PLACES]
    ensures { result ≡ replicate 9600 (pos 0) }
{
    [0; PLACES]
}

/// Those of all aircraft in all cycles, in 1/2048 ft.
pub(crate) fn above_plan(state: &AirState) -> [i32; PLACES]
    ensures { AreNoted state.now.encounter state.now.journal (length state.now.encounter.crafts) 0 result }
{
    state.legal_law();
    let mut list = nothing_noted();
    for craft in 0..state.enc().crafts().len() as u8 {
        note_flight(state, craft, &mut list);
    }
    list
}
