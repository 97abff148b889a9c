// The track of a square of a horizontal range.
ghost use Rattle.std.specs.Prelude.{◌≡◌, ◌∷◌, List, Option, IfSome};
ghost use Rattle.square_track.specs.SquareTrack.{IsMeasured, IsWithinLimits, step, square_track};
ghost use Rattle.square_track.specs.declared.measuring.MeasuredSquare.{MeasuredSquare};
ghost use Rattle.square_track.specs.declared.state.SquareState.{SquareState};

use crate::measuring::MeasuredSquare;
use crate::state::SquareState;
use std::marker::Model;

/// The track of the square of the horizontal range to one other aircraft. Where both fly straight, this square is of
/// the second degree in time, whatever the miss distance. So the track follows it without a delay (this project's
/// profile 2).
#[derive(Clone, Copy)]
pub struct SquareTrack {
    state: SquareState,
}

impl Model for SquareTrack {
    ghost Value = { SquareState };

    ghost view = { λ t. t.state };

    ghost invariant = { λ t. IsWithinLimits t.state };

    ghost inverse = { λ s. record { state = s } };
}

impl SquareTrack {
    /// The track before the first measurement.
    pub fn new() -> SquareTrack
        ensures { result ≡ SquareState.Empty }
    {
        SquareTrack {
            state: SquareState::Empty,
        }
    }

    /// One second later: after a measurement, or after a miss.
    ///
    /// So after any number of steps the state is the track of all that was measured.
    pub fn step(&mut self, measurement: Option<MeasuredSquare>)
        requires { IfSome measurement IsMeasured }
        ensures step { self.new ≡ step self.old measurement }
        ensures track { (ms : List (Option MeasuredSquare)) → self.old ≡ square_track ms → self.new ≡ square_track (measurement ∷ ms) }
    {
        self.state = self.state.step(measurement);
    }

    /// The state.
    pub fn state(&self) -> SquareState
        ensures value { result ≡ self.now }
        ensures within { IsWithinLimits self.now }
    {
        self.state
    }
}
