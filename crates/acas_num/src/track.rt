// The track of a measured quantity: its estimate and its rate, one step a second.
ghost use Rattle.std.specs.Prelude.{◌≡◌, ℕ, ◌≤◌, ◌^◌, ℤ, ◌-ℤ◌, unsigned_abs, IfSome, List, Option, fold, reverse};
ghost use Rattle.acas_num.specs.Tracks.{units, IsSound, IsEstimate, IsRate, IsWithinLimits, share, corrected, measured, missed, step, track};

use crate::limits::Limits;

/// The state of a track (this project's profile).
#[derive(Clone, Copy, Debug, PartialEq, Eq)]
pub enum TrackState {
    /// Nothing is known.
    Empty,
    /// One measurement was made: its value, in 1/1024 ft.
    One { est: i64 },
    /// The track runs: estimate in 1/1024 ft, rate in 1/1024 ft/s, and the measurements missed in a row.
    Run { est: i64, rate: i64, missed: u8 },
}

/// The most measurements in a row that a running track can miss.
const MOST_MISSED: u8 = 5;

impl TrackState {
    /// The state one second later, after a measurement in feet or after a miss.
    ///
    /// `alpha` and `beta` are the parts of a difference that the estimate and the rate take over, in 1/1024. A running
    /// track that misses a sixth measurement in a row is given up.
    pub fn step(
        self,
        measurement: Option<i64>,
        alpha: u16,
        beta: u16,
        limits: &Limits,
    ) -> TrackState
        requires limits { IsSound limits.now }
        requires state { IsWithinLimits limits.now self }
        requires measurement { IfSome measurement (λ feet. IsEstimate limits.now (units feet)) }
        ensures value { result ≡ step limits.now alpha beta self measurement }
        ensures within { IsWithinLimits limits.now result }
    {
        match measurement {
            None => self.after_miss(limits),
            Some(feet) => self.after_measurement(in_units(feet), alpha, beta, limits),
        }
    }

    fn after_miss(self, limits: &Limits) -> TrackState
        requires limits { IsSound limits.now }
        requires state { IsWithinLimits limits.now self }
        ensures value { result ≡ missed limits.now self }
        ensures within { IsWithinLimits limits.now result }
    {
        match self {
            TrackState::Empty | TrackState::One { .. } => TrackState::Empty,
            TrackState::Run { est, rate, missed } => {
                if missed == MOST_MISSED {
                    TrackState::Empty
                } else {
                    TrackState::Run {
                        est: limits.estimate_after(est, rate),
                        rate,
                        missed: missed + 1,
                    }
                }
            }
        }
    }

    fn after_measurement(
        self,
        measurement: i64,
        alpha: u16,
        beta: u16,
        limits: &Limits,
    ) -> TrackState
        requires limits { IsSound limits.now }
        requires state { IsWithinLimits limits.now self }
        requires measurement { IsEstimate limits.now measurement }
        ensures value { result ≡ measured limits.now alpha beta self measurement }
        ensures within { IsWithinLimits limits.now result }
    {
        match self {
            TrackState::Empty => TrackState::One { est: measurement },
            TrackState::One { est } => TrackState::Run {
                est: measurement,
                rate: limits.clamp_rate(difference(measurement, est)),
                missed: 0,
            },
            TrackState::Run { est, rate, .. } => {
                let predicted = limits.estimate_after(est, rate);
                let off = difference(measurement, predicted);
                TrackState::corrected(predicted, rate, off, alpha, beta, limits)
            }
        }
    }

    // A running state from the predicted estimate, the rate so far, and how far off a measurement is.
    fn corrected(
        predicted: i64,
        rate: i64,
        off: i64,
        alpha: u16,
        beta: u16,
        limits: &Limits,
    ) -> TrackState
        requires limits { IsSound limits.now }
        requires predicted { unsigned_abs predicted ≤ 2 ^ 28 }
        requires rate { unsigned_abs rate ≤ 2 ^ 28 }
        requires off { unsigned_abs off ≤ 2 ^ 29 }
        ensures value { result ≡ corrected limits.now alpha beta predicted rate off }
        ensures within { IsWithinLimits limits.now result }
    {
        TrackState::Run {
            est: limits.estimate_after(predicted, share(alpha, off)),
            rate: limits.rate_after(rate, share(beta, off)),
            missed: 0,
        }
    }
}

// A number of feet in 1/1024 ft.
fn in_units(feet: i64) -> i64
    requires { unsigned_abs (units feet) ≤ 2 ^ 28 }
    ensures { result ≡ units feet }
{
    1024 * feet
}

fn difference(a: i64, b: i64) -> i64
    requires a { unsigned_abs a ≤ 2 ^ 28 }
    requires b { unsigned_abs b ≤ 2 ^ 28 }
    ensures value { result ≡ a -ℤ b }
    ensures bound { unsigned_abs result ≤ 2 ^ 29 }
{
    a - b
}

// The part of a difference that a gain takes over. The shift divides by 1024 and rounds down.
fn share(gain: u16, off: i64) -> i64
    requires { unsigned_abs off ≤ 2 ^ 29 }
    ensures value { result ≡ share gain off }
    ensures bound { unsigned_abs result ≤ 2 ^ 40 }
{
    (i64::from(gain) * off) >> 10
}

/// A law: the track of a list of measurements and misses, the newest first, is what its steps, the
/// oldest first, make of an empty track.
pub fn track_law()
    ensures { (limits : Limits) (alpha beta : ℕ) (ms : List (Option ℤ)) → track limits alpha beta ms ≡ fold (step limits alpha beta) TrackState.Empty (reverse ms) }
{}
