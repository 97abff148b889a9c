// Fractions, and the multiples of a unit that are nearest to them.
ghost use Rattle.std.specs.Prelude.{◌≡◌, ◌+◌, ◌*◌, ◌<◌, ◌≤◌, ◌^◌, pos, ◌+ℤ◌, ◌*ℤ◌, unsigned_abs};
ghost use Rattle.std.specs.Int.{int_div_euclid};
ghost use Rattle.track_file.specs.Rounding.{IsFraction, mean, nearest};

use acas_num::floor_div;

// A quotient of two whole numbers. The divisor is above 0.
#[derive(Clone, Copy)]
pub(crate) struct Fraction {
    top: i64,
    bottom: u32,
}

// For the proof: the bounds of a product.
fn product(a: i32, b: u32) -> i64
    requires a { unsigned_abs a ≤ 2 ^ 22 }
    requires b { b ≤ 2 ^ 22 }
    ensures value { result ≡ a *ℤ pos b }
    ensures bound { unsigned_abs result ≤ 2 ^ 44 }
{
    i64::from(a) * i64::from(b)
}

// For the proof: the bounds of a sum.
fn sum(a: i64, b: i64) -> i64
    requires a { unsigned_abs a ≤ 2 ^ 44 }
    requires b { unsigned_abs b ≤ 2 ^ 44 }
    ensures value { result ≡ a +ℤ b }
    ensures bound { unsigned_abs result ≤ 2 ^ 45 }
{
    a + b
}

// The mean of two values with weights. Where both weights are 0 it is the first value.
pub(crate) fn mean(first: i32, weight: u32, second: i32, other: u32) -> Fraction
    requires first { unsigned_abs first ≤ 2 ^ 22 }
    requires second { unsigned_abs second ≤ 2 ^ 22 }
    requires weight { weight ≤ 2 ^ 22 }
    requires other { other ≤ 2 ^ 22 }
    ensures value { result ≡ mean first weight second other }
    ensures fraction { IsFraction result }
{
    if weight + other == 0 {
        return Fraction {
            top: i64::from(first),
            bottom: 1,
        };
    }
    Fraction {
        top: sum(product(first, weight), product(second, other)),
        bottom: weight + other,
    }
}

// For the proof: the bounds of a quotient.
fn quotient(a: i64, b: u32) -> i64
    requires a { unsigned_abs a ≤ 2 ^ 47 }
    requires b { 0 < b }
    ensures value { result ≡ int_div_euclid a (pos b) }
    ensures bound { unsigned_abs result ≤ 2 ^ 47 }
{
    floor_div(a, i64::from(b))
}

// Twice a number and another one.
fn twice_and(a: i64, b: u32) -> i64
    requires a { unsigned_abs a ≤ 2 ^ 45 }
    requires b { b ≤ 2 ^ 29 }
    ensures value { result ≡ (pos 2 *ℤ a) +ℤ pos b }
    ensures bound { unsigned_abs result ≤ 2 ^ 47 }
{
    2 * a + i64::from(b)
}

// For the proof: the bounds of a product.
fn times(unit: u8, quotient: i64) -> i64
    requires { unsigned_abs quotient ≤ 2 ^ 47 }
    ensures { result ≡ pos unit *ℤ quotient }
{
    i64::from(unit) * quotient
}

impl Fraction {
    // The nearest multiple of a unit, and the greater one where two are as near.
    pub(crate) fn nearest(self, unit: u8) -> i64
        requires fraction { IsFraction self }
        requires unit { 0 < unit }
        requires small { unit ≤ 60 }
        ensures { result ≡ nearest unit self }
    {
        let scale = u32::from(unit) * self.bottom;
        times(unit, quotient(twice_and(self.top, scale), 2 * scale))
    }
}
