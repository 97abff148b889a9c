// What tracks say where they run.
ghost use Rattle.std.specs.Prelude.{◌≡◌, ◌≤◌, ◌^◌, ◌-ℤ◌, unsigned_abs, IfSome};
ghost use Rattle.acas_num.specs.Tracks.{altitude_limits, range_limits, IsWithinLimits};
ghost use Rattle.craft_view.specs.KnownTracks.{motion_of, running, IsAltitudeEstimate, IsMotion, IsRangeEstimate};

use crate::tracks::Tracks;
use acas_num::TrackState;
use alt_track::AltTrack;
use square_track::SquareState;

/// An estimate in 1/1024 ft and its rate in 1/1024 ft/s.
#[derive(Clone, Copy)]
pub struct Estimate {
    pub est: i64,
    pub rate: i64,
}

/// Own altitude, the range to another aircraft, its altitude, and the square of the horizontal range, as the tracks have
/// them. In profile 1 there is no track of the square, and its state is empty.
#[derive(Clone, Copy)]
pub struct Motion {
    pub own: Estimate,
    pub range: Estimate,
    pub target: Estimate,
    pub square: SquareState,
}

// How far one altitude is over another, or one rate.
pub(crate) fn difference(a: i64, b: i64) -> i64
    requires a { unsigned_abs a ≤ 2 ^ 41 }
    requires b { unsigned_abs b ≤ 2 ^ 41 }
    ensures { result ≡ a -ℤ b }
{
    a - b
}

// The estimate and the rate of a track that runs.
fn running(state: TrackState) -> Option<Estimate>
    ensures value { result ≡ running state }
    ensures altitude { IsWithinLimits altitude_limits state → IfSome result IsAltitudeEstimate }
    ensures range { IsWithinLimits range_limits state → IfSome result IsRangeEstimate }
{
    match state {
        TrackState::Empty | TrackState::One { .. } => None,
        TrackState::Run { est, rate, .. } => Some(Estimate { est, rate }),
    }
}

// The motion of a pair that is tested: the tracks of the range and of both altitudes run.
pub(crate) fn motion_of(own: &AltTrack, tracks: &Tracks) -> Option<Motion>
    ensures value { result ≡ motion_of own.now tracks.now }
    ensures bounds { IfSome result IsMotion }
{
    let Some(own) = running(own.state()) else {
        return None;
    };
    let Some(range) = running(tracks.range.state()) else {
        return None;
    };
    let Some(target) = running(tracks.altitude.state()) else {
        return None;
    };
    Some(Motion {
        own,
        range,
        target,
        square: tracks.square.state(),
    })
}
