// The projection of an altitude.
ghost use Rattle.std.specs.Prelude.{◌≡◌, ◌≤◌, ◌^◌, ℤ, pos, ◌≤ℤ◌, ◌+ℤ◌, ◌*ℤ◌, unsigned_abs};
ghost use Rattle.project.specs.Projection.{projected, rates};
ghost use Rattle.project.specs.Gained.{toward};

use crate::gained::sum_gained;

/// The altitude, in 1/1024 ft, after `halves` half-seconds (this project's profile).
///
/// It begins at `z`, and its rate (1/1024 ft/s) at `v`. In the first `delay` half-seconds the rate stays. In each later
/// one it moves by at most `step` (1/1024 ft/s) towards `goal`, and never past it. The altitude is `z` and half of the
/// sum of the half-seconds' rates, rounded down once.
pub fn project(z: i64, v: i64, goal: i64, delay: u8, step: i64, halves: u16) -> i64
    requires altitude { unsigned_abs z ≤ 2 ^ 31 }
    requires rate { unsigned_abs v ≤ 2 ^ 20 }
    requires goal { unsigned_abs goal ≤ 2 ^ 20 }
    requires forward { pos 1 ≤ℤ step }
    requires step { step ≤ℤ pos (2 ^ 16) }
    requires halves { halves ≤ 1200 }
    ensures value { result ≡ projected z v goal delay step halves }
    ensures bound { unsigned_abs result ≤ 2 ^ 41 }
{
    let total = sum_of_rates(v, goal, delay, step, halves);
    sum(z, total >> 1)
}

// The sum of the rates of the half-seconds, in closed form: the sum without any move, and what the moves add.
fn sum_of_rates(v: i64, goal: i64, delay: u8, step: i64, halves: u16) -> i64
    requires rate { unsigned_abs v ≤ 2 ^ 20 }
    requires goal { unsigned_abs goal ≤ 2 ^ 20 }
    requires forward { pos 1 ≤ℤ step }
    requires step { step ≤ℤ pos (2 ^ 16) }
    requires halves { halves ≤ 1200 }
    ensures value { result ≡ rates v goal delay step halves }
    ensures bound { unsigned_abs result ≤ 2 ^ 40 }
{
    // There are no moves where all half-seconds lie in the delay.
    let moves = halves.saturating_sub(u16::from(delay));
    let gained = sum_gained(v.abs_diff(goal), step.unsigned_abs(), u64::from(moves));
    sum(unmoved(v, halves), amount_toward(v, goal, gained))
}

// The sum of the rates of `halves` half-seconds without any move.
fn unmoved(v: i64, halves: u16) -> i64
    requires rate { unsigned_abs v ≤ 2 ^ 20 }
    requires halves { halves ≤ 1200 }
    ensures value { result ≡ pos halves *ℤ v }
    ensures bound { unsigned_abs result ≤ 2 ^ 31 }
{
    i64::from(halves) * v
}

// An amount towards the goal, up or down.
fn amount_toward(v: i64, goal: i64, amount: u64) -> i64
    requires { amount ≤ 2 ^ 37 }
    ensures value { result ≡ toward v goal amount }
    ensures bound { unsigned_abs result ≤ 2 ^ 37 }
{
    if v <= goal {
        amount as i64
    } else {
        -(amount as i64)
    }
}

// For the proof: the bounds of a sum.
fn sum(a: i64, b: i64) -> i64
    requires a { unsigned_abs a ≤ 2 ^ 40 }
    requires b { unsigned_abs b ≤ 2 ^ 40 }
    ensures value { result ≡ a +ℤ b }
    ensures bound { unsigned_abs result ≤ 2 ^ 41 }
{
    a + b
}
