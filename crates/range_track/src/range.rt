// The track of a slant range.
ghost use Rattle.std.specs.Prelude.{◌≡◌, ℕ, ◌≤◌, ◌∷◌, List, Option, IfSome};
ghost use Rattle.acas_num.specs.declared.track.TrackState.{TrackState};
ghost use Rattle.acas_num.specs.Tracks.{range_limits, IsWithinLimits};
ghost use Rattle.range_track.specs.RangeTrack.{range_step, range_track};

use acas_base::Gains;
use acas_num::{Limits, TrackState};
use std::marker::Model;

/// The track of the slant range to one other aircraft: in 0..=182,280 ft, with a rate of at most
/// 4,000 ft/s either way (this project's profile).
#[derive(Clone, Copy)]
pub struct RangeTrack {
    state: TrackState,
}

impl Model for RangeTrack {
    ghost Value = { TrackState };

    ghost view = { λ t. t.state };

    ghost invariant = { λ t. IsWithinLimits range_limits t.state };

    ghost inverse = { λ s. record { state = s } };
}

impl RangeTrack {
    /// The track before the first measurement.
    pub fn new() -> RangeTrack
        ensures { result ≡ TrackState.Empty }
    {
        RangeTrack {
            state: TrackState::Empty,
        }
    }

    /// One second later: after a measured range in feet, or after a miss.
    ///
    /// So after any number of steps with the same gains the state is the track of all that was measured.
    pub fn step(&mut self, measurement: Option<u32>, gains: Gains)
        requires { IfSome measurement (λ feet. feet ≤ 182280) }
        ensures step { self.new ≡ range_step gains self.old measurement }
        ensures track { (ms : List (Option ℕ)) → self.old ≡ range_track gains ms → self.new ≡ range_track gains (measurement ∷ ms) }
        ensures within { IsWithinLimits range_limits self.new }
    {
        let feet = measurement.map(i64::from);
        let limits = Limits::range();
        self.state = self.state.step(feet, gains.alpha, gains.beta, &limits);
    }

    /// The state: estimate in 1/1024 ft, rate in 1/1024 ft/s.
    pub fn state(&self) -> TrackState
        ensures value { result ≡ self.now }
        ensures within { IsWithinLimits range_limits self.now }
    {
        self.state
    }
}
