// The tests of the horizontal miss distance.
ghost use Rattle.std.specs.Prelude.{◌≡◌, ◌*◌, ◌≤◌, pos, ◌-ℤ◌, ◌*ℤ◌, int_le, unsigned_abs};
ghost use Rattle.acas_base.specs.Ranges.{IsBetween};
ghost use Rattle.square_track.specs.SquareTrack.{IsRate, IsSecond, IsSquare, IsWithinLimits};
ghost use Rattle.miss_test.specs.Miss.{NeverComesWithin, grows, is_far, opens, stays_beyond};

use square_track::SquareState;

// The most measurements missed in a row with which the filter holds.
const MOST_MISSED: u8 = 2;

// The measurements in a row without a surprise that it needs.
const CALM: u8 = 15;

/// Whether the pair opens: whether the horizontal range times its rate, which is half of the square's rate, is above a
/// product, in ft2/s (this project's profile 2). Where the track doesn't run, nothing is known of the square, and the
/// pair doesn't open.
#[tactic(auto, unfolding(crate::specs::Miss::opens))]
pub fn opens(product: i64, state: &SquareState) -> bool
    requires { IsBetween (pos 0) (pos 200000) product }
    ensures { result ≡ opens product state.now }
{
    match state {
        SquareState::Empty | SquareState::One { .. } | SquareState::Two { .. } => false,
        SquareState::Run { rate, .. } => 2 * product < *rate,
    }
}

/// Whether the square doesn't shrink, so that the closest approach is now or past. Where the track doesn't run, nothing
/// is known of the square, and it counts as shrinking.
#[tactic(auto, unfolding(crate::specs::Miss::grows))]
pub fn grows(state: &SquareState) -> bool
    ensures { result ≡ grows state.now }
{
    match state {
        SquareState::Empty | SquareState::One { .. } | SquareState::Two { .. } => false,
        SquareState::Run { rate, .. } => *rate >= 0,
    }
}

/// Whether the pair passes far away: at least `distance` ft, by the miss distance of straight flights (Munoz et al.
/// 2013 and FAA, Introduction to TCAS II v7.1 have a filter of this kind; the details are this project's profile 2).
///
/// The track has to run, with at most two measurements missed in a row, and fifteen without a surprise.
#[tactic(auto, unfolding(crate::specs::Miss::is_far))]
pub fn is_far(distance: u16, state: &SquareState) -> bool
    requires distance { distance ≤ 10000 }
    requires within { IsWithinLimits state.now }
    ensures { result ≡ is_far distance state.now }
{
    match state {
        SquareState::Empty | SquareState::One { .. } | SquareState::Two { .. } => false,
        SquareState::Run {
            square,
            rate,
            second,
            missed,
            calm,
        } => {
            *missed <= MOST_MISSED
                && *calm == CALM
                && stays_beyond(distance, *square, *rate, *second)
        }
    }
}

// Whether the square never gets below that of the distance.
fn stays_beyond(distance: u16, square: i64, rate: i64, second: i64) -> bool
    requires distance { distance ≤ 10000 }
    requires square { IsSquare square }
    requires rate { IsRate rate }
    requires second { IsSecond second }
    ensures { result ≡ stays_beyond distance square rate second }
{
    let near = squared(distance);
    near <= square && (0 <= rate || (0 < second && turns_in_time(rate, second, square, near)))
}

// Whether a square that shrinks gets no lower than another one. The products are at most 2^61 and 2^62.
fn turns_in_time(rate: i64, second: i64, square: i64, near: i64) -> bool
    requires rate { IsRate rate }
    requires second { IsSecond second }
    requires square { IsSquare square }
    requires near { IsBetween (pos 0) (pos 100000000) near }
    ensures { result ≡ int_le (rate *ℤ rate) ((pos 2 *ℤ second) *ℤ (square -ℤ near)) }
{
    let least = squared_rate(rate);
    let most = product(twice(second), difference(square, near));
    least <= most
}

// The square of a distance.
fn squared(distance: u16) -> i64
    requires { distance ≤ 10000 }
    ensures value { result ≡ pos (distance * distance) }
    ensures bound { IsBetween (pos 0) (pos 100000000) result }
{
    (u64::from(distance) * u64::from(distance)) as i64
}

// For the proof: twice a second rate.
fn twice(second: i64) -> i64
    requires { IsSecond second }
    ensures value { result ≡ pos 2 *ℤ second }
    ensures bound { unsigned_abs result ≤ 128000000 }
{
    2 * second
}

// For the proof: how far a square is above another one.
fn difference(square: i64, near: i64) -> i64
    requires square { IsSquare square }
    requires near { IsBetween (pos 0) (pos 100000000) near }
    ensures value { result ≡ square -ℤ near }
    ensures bound { unsigned_abs result ≤ 33225998400 }
{
    square - near
}

// For the proof: the square of a rate.
fn squared_rate(rate: i64) -> i64
    requires { IsRate rate }
    ensures { result ≡ rate *ℤ rate }
{
    rate * rate
}

// For the proof: a product.
fn product(twice: i64, above: i64) -> i64
    requires twice { unsigned_abs twice ≤ 128000000 }
    requires above { unsigned_abs above ≤ 33225998400 }
    ensures { result ≡ twice *ℤ above }
{
    twice * above
}

/// A law: the filter is right about straight flights. Where the square of the horizontal range has this rate, and a
/// second rate that stays and isn't below zero, a pair that passes far away is never within the distance, however many
/// seconds go by.
pub fn miss_law()
    ensures { NeverComesWithin }
{}
