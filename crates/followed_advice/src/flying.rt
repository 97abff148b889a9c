// The encounter in which the named aircraft follow their own advice.
ghost use Rattle.std.specs.Prelude.{◌≡◌, ◌<◌, IfErr, IfOk, map};
ghost use Rattle.air_journal.specs.Airs.{air_of};
ghost use Rattle.air_rules.specs.Serial.{IsSerial};
ghost use Rattle.flight.specs.Inside.{IsInside};
ghost use Rattle.followed_advice.specs.Following.{Follows, Leaves};
ghost use Rattle.followed_advice.specs.Keeping.{AreAimsAfter, IsRightTo};

use crate::aims::all_aims;
use crate::kept::fly_kept;
use crate::looks::{first_change, first_leaving};
use acas_base::Encounter;
use air_journal::{AirState, sound_law};
use flight::Place;
use resume::{fill, filled_law};
use std::alloc::{AllocError, Global};

/// Where the flight leaves the limits: the first cycle in which an aircraft can't be where it has to be, and the first
/// such aircraft by index. It can't be there where that is outside the box, or where no leg leads there from its place
/// in the cycle before.
#[derive(Clone, Copy, Debug, PartialEq, Eq)]
pub struct Leaving {
    /// The index of the aircraft.
    pub own: u8,
    /// The cycle, from 2.
    pub cycle: u16,
}

// The state of the air after the serial run of an encounter.
fn played(alloc: Global, encounter: &Encounter) -> Result<AirState, AllocError>
    requires { IsInside encounter.now }
    ensures encounter { IfOk result (λ state. state.encounter ≡ encounter.now) }
    ensures serial { IfOk result (λ state. IsSerial (air_of encounter.now) state.journal) }
{
    sound_law();
    filled_law();
    encounter.valid_law();
    let mut state = AirState::new(alloc, encounter)?;
    fill(&mut state, encounter);
    Ok(state)
}

// Where all aircraft have to be by the serial journal of an encounter.
fn aims_after(
    alloc: Global,
    encounter: &Encounter,
    named: &[u8],
    flown: &Encounter,
) -> Result<Vec<Vec<Place>>, AllocError>
    requires { IsInside flown.now }
    ensures { IfOk result (λ rows. AreAimsAfter encounter.now named.now flown.now (map (λ row. row.items) rows.items)) }
{
    let state = played(alloc, flown)?;
    all_aims(alloc, encounter, named, &state)
}

// The encounter in which the named aircraft respond to the advice of the encounter that is given. It is right in cycle
// 1 at least.
fn first_flown(alloc: Global, encounter: &Encounter, named: &[u8]) -> Result<Encounter, AllocError>
    requires { IsInside encounter.now }
    ensures { IfOk result (λ flown. IsRightTo encounter.now named.now flown 1) }
{
    encounter.valid_law();
    let rows = aims_after(alloc, encounter, named, encounter)?;
    let flown = fly_kept(alloc, encounter, named, rows.as_slice())?;
    Ok(flown)
}

/// The encounter in which the named aircraft, by index, follow their own advice. In each cycle the altitude of each is
/// that of the modelled response of `response`, rounded to the nearest 1/60 ft, the greater of two. The response is
/// from the plan of the encounter that is given, to the advice of the serial journal of the encounter that is made. All
/// else stays as it is. The named aircraft have needed legs alone.
///
/// `Ok(Err(..))` says where the flight leaves the limits. By [`crate::following_law`] there is then no such encounter,
/// and never more than one. The outer error says that memory was wanting.
///
/// It plays the encounter again and again. After each play the places are right for a cycle more at least.
pub fn fly(
    alloc: Global,
    encounter: &Encounter,
    named: &[u8],
) -> Result<Result<Encounter, Leaving>, AllocError>
    requires { IsInside encounter.now }
    ensures follows { IfOk result (λ flown. IfOk flown (Follows encounter.now named.now)) }
    ensures leaves { IfOk result (λ flown. IfErr flown (λ leaving. Leaves encounter.now named.now leaving.own leaving.cycle)) }
{
    encounter.valid_law();
    let mut flown = first_flown(alloc, encounter, named)?;
    for known in 1..encounter.cycles() {
        let rows = aims_after(alloc, encounter, named, &flown)?;
        let Some(cycle) = first_change(&flown, rows.as_slice()) else {
            return Ok(Ok(flown));
        };
        if let Some(own) = first_leaving(&flown, rows.as_slice(), cycle) {
            return Ok(Err(Leaving { own, cycle }));
        }
        flown = fly_kept(alloc, encounter, named, rows.as_slice())?;
    }
    // For the proof: the journal of the encounter that is made.
    let _rows = aims_after(alloc, encounter, named, &flown)?;
    Ok(Ok(flown))
}
