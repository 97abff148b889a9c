// Where values stand along an axis.
ghost use Rattle.std.specs.Prelude.{◌≡◌, ◌≤◌, ◌<◌, ◌^◌, ◌≤ℤ◌, ◌<ℤ◌, ◌-ℤ◌, unsigned_abs};
ghost use Rattle.plot_axes.specs.Scale.{along, share};

/// An axis from a low value to a high one, over a length.
#[derive(Clone, Copy)]
pub struct Scale {
    /// The value at its beginning.
    pub low: i64,
    /// The value at its end.
    pub high: i64,
    /// Its length, in units of the drawing.
    pub length: u32,

    ghost low_bound: { unsigned_abs low ≤ 2 ^ 40 },
    ghost high_bound: { unsigned_abs high ≤ 2 ^ 40 },
    ghost rising: { low <ℤ high },
    ghost short: { length < 2 ^ 16 },
}

// A share of a length.
pub(crate) fn share(length: u32, whole: u64, part: u64) -> u32
    requires length { length < 2 ^ 16 }
    requires part { part ≤ whole }
    requires some { 0 < whole }
    requires near { whole ≤ 2 ^ 41 }
    ensures value { result ≡ share length whole part }
    ensures within { result ≤ length }
{
    (u64::from(length) * part / whole) as u32
}

// How far a value is above another one.
fn distance(low: i64, value: i64) -> u64
    requires low { unsigned_abs low ≤ 2 ^ 40 }
    requires value { unsigned_abs value ≤ 2 ^ 40 }
    ensures value { result ≡ unsigned_abs (value -ℤ low) }
{
    (value - low).unsigned_abs()
}

impl Scale {
    /// How far from its beginning a value of the axis stands, rounded down.
    pub fn along(self, value: i64) -> u32
        requires low { self.low ≤ℤ value }
        requires high { value ≤ℤ self.high }
        ensures value { result ≡ along self.length self.low self.high value }
        ensures within { result ≤ self.length }
    {
        share(
            self.length,
            distance(self.low, self.high),
            distance(self.low, value),
        )
    }
}
