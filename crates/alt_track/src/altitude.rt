// The track of an altitude.
ghost use Rattle.std.specs.Prelude.{◌≡◌, ℤ, pos, neg_ℤ, ◌∷◌, List, Option, IfSome};
ghost use Rattle.acas_num.specs.declared.track.TrackState.{TrackState};
ghost use Rattle.acas_num.specs.Clamp.{LiesBetween};
ghost use Rattle.acas_num.specs.Tracks.{altitude_limits, IsWithinLimits};
ghost use Rattle.alt_track.specs.AltTrack.{altitude_step, altitude_track};

use acas_base::Gains;
use acas_num::{Limits, TrackState};
use std::marker::Model;

/// The track of an altitude: in -2,000..=62,000 ft, with a rate of at most 200 ft/s either way
/// (this project's profile).
#[derive(Clone, Copy)]
pub struct AltTrack {
    state: TrackState,
}

impl Model for AltTrack {
    ghost Value = { TrackState };

    ghost view = { λ t. t.state };

    ghost invariant = { λ t. IsWithinLimits altitude_limits t.state };

    ghost inverse = { λ s. record { state = s } };
}

impl AltTrack {
    /// The track before the first measurement.
    pub fn new() -> AltTrack
        ensures { result ≡ TrackState.Empty }
    {
        AltTrack {
            state: TrackState::Empty,
        }
    }

    /// One second later: after a measured altitude in feet, or after a miss.
    ///
    /// So after any number of steps with the same gains the state is the track of all that was measured.
    pub fn step(&mut self, measurement: Option<i32>, gains: Gains)
        requires { IfSome measurement (LiesBetween (neg_ℤ (pos 2000)) (pos 62000)) }
        ensures step { self.new ≡ altitude_step gains self.old measurement }
        ensures track { (ms : List (Option ℤ)) → self.old ≡ altitude_track gains ms → self.new ≡ altitude_track gains (measurement ∷ ms) }
        ensures within { IsWithinLimits altitude_limits self.new }
    {
        let feet = measurement.map(i64::from);
        let limits = Limits::altitude();
        self.state = self.state.step(feet, gains.alpha, gains.beta, &limits);
    }

    /// The state: estimate in 1/1024 ft, rate in 1/1024 ft/s.
    pub fn state(&self) -> TrackState
        ensures value { result ≡ self.now }
        ensures within { IsWithinLimits altitude_limits self.now }
    {
        self.state
    }
}
