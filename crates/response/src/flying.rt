// How an aircraft flies with the modelled response.
ghost use Rattle.std.specs.Prelude.{◌≡◌, ◌<◌, ◌≤◌, ◌^◌, unsigned_abs, length};
ghost use Rattle.response.specs.Flown.{flown};

use crate::flier::Flier;
use air_journal::AirState;

/// The altitude of an aircraft in a cycle of the run, in 1/2048 ft, if it flew with the modelled response to what its
/// own commits say (this project's profile). The journal stays as it is: nothing of this is fed back into the run. A
/// cycle that it hasn't committed advises nothing.
///
/// Up to the first cycle that advises a vertical rate, and where none does, it flies as planned; so does an aircraft of
/// another kind than RA. From there on it flies by half-seconds: after the delay of the response its rate moves towards
/// what is advised, and without advice back to the planned rate.
pub fn flown(state: &AirState, craft: u8, cycle: u16) -> i64
    requires craft { craft < length state.now.encounter.crafts }
    requires begun { 1 ≤ cycle }
    requires in_run { cycle ≤ state.now.encounter.cycles }
    ensures value { result ≡ flown state.now.encounter state.now.journal craft cycle }
    ensures bound { unsigned_abs result ≤ 2 ^ 30 }
{
    let mut flier = Flier::new(state.enc(), state, craft);
    for done in 1..cycle {
        flier.fly();
    }
    flier.altitude()
}
