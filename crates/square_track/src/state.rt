// The state of a square track, and how it goes on.
ghost use Rattle.std.specs.Prelude.{◌≡◌, ◌+◌, ◌≤◌, ◌^◌, ◌+ℤ◌, ◌-ℤ◌, unsigned_abs, IfSome};
ghost use Rattle.square_track.specs.SquareTrack.{IsMeasured, IsRate, IsSecond, IsSquare, IsWithinLimits, calm_after, corrected, half, kept_rate, kept_second, kept_square, measured, missed, predicted, running, share, step};

use crate::measuring::MeasuredSquare;
use acas_num::clamp;

// The greatest square, in ft2: that of 182,280 ft.
const HIGHEST: i64 = 182_280 * 182_280;

// The greatest rate either way, in ft2/s.
const FASTEST: i64 = 1_500_000_000;

// The greatest second rate either way, in ft2/s2.
const SHARPEST: i64 = 64_000_000;

// The most measurements in a row that a running track can miss.
const MOST_MISSED: u8 = 5;

// The most cycles without a surprise that are counted.
const MOST_CALM: u8 = 15;

// The parts of a surprise that the square, its rate and its second rate take over, in 1/1024: those of a fading memory
// of 0.7 a second.
const SQUARE_GAIN: u16 = 673;

const RATE_GAIN: u16 = 235;

const SECOND_GAIN: u16 = 28;

/// The state of the track (this project's profile 2). Squares are in ft2, rates in ft2/s, second rates in ft2/s2.
#[derive(Clone, Copy, Debug, PartialEq, Eq)]
pub enum SquareState {
    /// Nothing is known.
    Empty,
    /// One measurement was made.
    One {
        square: i64,
    },
    /// Two were made, one after the other; how much the second is greater.
    Two {
        square: i64,
        change: i64,
    },
    /// The track runs: its square, rate and second rate; the measurements missed in a row; and the measurements in a
    /// row without a surprise.
    Run {
        square: i64,
        rate: i64,
        second: i64,
        missed: u8,
        calm: u8,
    },
}

impl SquareState {
    /// The state one second later, after a measurement or after a miss.
    ///
    /// A track runs after three measurements in a row. A running track that misses a sixth measurement in a row is
    /// given up. A miss keeps the count of measurements without a surprise.
    pub fn step(self, measurement: Option<MeasuredSquare>) -> SquareState
        requires state { IsWithinLimits self }
        requires measurement { IfSome measurement IsMeasured }
        ensures value { result ≡ step self measurement }
        ensures within { IsWithinLimits result }
    {
        match measurement {
            None => self.after_miss(),
            Some(measurement) => self.after_measurement(measurement),
        }
    }

    fn after_miss(self) -> SquareState
        requires { IsWithinLimits self }
        ensures value { result ≡ missed self }
        ensures within { IsWithinLimits result }
    {
        match self {
            SquareState::Empty | SquareState::One { .. } | SquareState::Two { .. } => {
                SquareState::Empty
            }
            SquareState::Run {
                square,
                rate,
                second,
                missed,
                calm,
            } => {
                if missed == MOST_MISSED {
                    SquareState::Empty
                } else {
                    SquareState::Run {
                        square: predicted(square, rate, second),
                        rate: kept_rate(sum(rate, second)),
                        second,
                        missed: missed + 1,
                        calm,
                    }
                }
            }
        }
    }

    fn after_measurement(self, measurement: MeasuredSquare) -> SquareState
        requires state { IsWithinLimits self }
        requires measurement { IsMeasured measurement }
        ensures value { result ≡ measured self measurement }
        ensures within { IsWithinLimits result }
    {
        let now = measurement.square;
        match self {
            SquareState::Empty => SquareState::One { square: now },
            SquareState::One { square } => SquareState::Two {
                square: now,
                change: kept_rate(difference(now, square)),
            },
            SquareState::Two { square, change } => running(now, difference(now, square), change),
            SquareState::Run {
                square,
                rate,
                second,
                calm,
                ..
            } => {
                let predicted = predicted(square, rate, second);
                let surprise = difference(now, predicted);
                let calm = calm_after(measurement.range, surprise, calm);
                corrected(predicted, rate, second, surprise, calm)
            }
        }
    }
}

// A track begins to run, where the square grew by `before` and then by `change`.
fn running(square: i64, change: i64, before: i64) -> SquareState
    requires square { IsSquare square }
    requires change { unsigned_abs change ≤ 2 ^ 36 }
    requires before { IsRate before }
    ensures value { result ≡ running square change before }
    ensures within { IsWithinLimits result }
{
    let second = kept_second(difference(change, before));
    SquareState::Run {
        square,
        rate: kept_rate(sum(change, half(second))),
        second,
        missed: 0,
        calm: 0,
    }
}

// A running state from the predicted square, the rate and the second rate before, and how far off the square was.
fn corrected(predicted: i64, rate: i64, second: i64, surprise: i64, calm: u8) -> SquareState
    requires predicted { IsSquare predicted }
    requires rate { IsRate rate }
    requires second { IsSecond second }
    requires surprise { unsigned_abs surprise ≤ 2 ^ 36 }
    requires calm { calm ≤ 15 }
    ensures value { result ≡ corrected predicted rate second surprise calm }
    ensures within { IsWithinLimits result }
{
    SquareState::Run {
        square: kept_square(sum(predicted, share(SQUARE_GAIN, surprise))),
        rate: kept_rate(sum(sum(rate, second), share(RATE_GAIN, surprise))),
        second: kept_second(sum(second, share(SECOND_GAIN, surprise))),
        missed: 0,
        calm,
    }
}

// The square a second later.
fn predicted(square: i64, rate: i64, second: i64) -> i64
    requires square { IsSquare square }
    requires rate { IsRate rate }
    requires second { IsSecond second }
    ensures value { result ≡ predicted square rate second }
    ensures square { IsSquare result }
{
    kept_square(sum(square, sum(rate, half(second))))
}

// How many measurements in a row were without a surprise. A difference is one where it is above what 16 ft in the range
// make of a square.
fn calm_after(range: u32, surprise: i64, calm: u8) -> u8
    requires range { range ≤ 182280 }
    requires calm { calm ≤ 15 }
    ensures value { result ≡ calm_after range surprise calm }
    ensures bound { result ≤ 15 }
{
    if surprise.unsigned_abs() <= 32 * u64::from(range) {
        MOST_CALM.min(calm + 1)
    } else {
        0
    }
}

// The shift divides by 2 and rounds down.
fn half(a: i64) -> i64
    requires { IsSecond a }
    ensures value { result ≡ half a }
    ensures bound { unsigned_abs result ≤ 2 ^ 26 }
{
    a >> 1
}

// The part of a surprise that a gain takes over. The shift divides by 1024 and rounds down.
fn share(gain: u16, surprise: i64) -> i64
    requires { unsigned_abs surprise ≤ 2 ^ 36 }
    ensures value { result ≡ share gain surprise }
    ensures bound { unsigned_abs result ≤ 2 ^ 43 }
{
    (i64::from(gain) * surprise) >> 10
}

// For the proof: the bounds of a sum.
fn sum(a: i64, b: i64) -> i64
    requires a { unsigned_abs a ≤ 2 ^ 44 }
    requires b { unsigned_abs b ≤ 2 ^ 44 }
    ensures value { result ≡ a +ℤ b }
    ensures bound { unsigned_abs result ≤ unsigned_abs a + unsigned_abs b }
{
    a + b
}

// For the proof: the bounds of a difference.
fn difference(a: i64, b: i64) -> i64
    requires a { unsigned_abs a ≤ 2 ^ 44 }
    requires b { unsigned_abs b ≤ 2 ^ 44 }
    ensures value { result ≡ a -ℤ b }
    ensures bound { unsigned_abs result ≤ unsigned_abs a + unsigned_abs b }
{
    a - b
}

fn kept_square(a: i64) -> i64
    ensures value { result ≡ kept_square a }
    ensures square { IsSquare result }
{
    clamp(a, 0, HIGHEST)
}

fn kept_rate(a: i64) -> i64
    ensures value { result ≡ kept_rate a }
    ensures rate { IsRate result }
{
    clamp(a, -FASTEST, FASTEST)
}

fn kept_second(a: i64) -> i64
    ensures value { result ≡ kept_second a }
    ensures second { IsSecond result }
{
    clamp(a, -SHARPEST, SHARPEST)
}
