// Numbers kept between two ends.
ghost use Rattle.std.specs.Prelude.{◌≡◌, ◌≤ℤ◌};
ghost use Rattle.acas_num.specs.Clamp.{clamped, LiesBetween};

/// `a`, or the end of `low..=high` that it lies beyond.
#[tactic(auto, unfolding(crate::specs::Clamp::clamped))]
pub fn clamp(a: i64, low: i64, high: i64) -> i64
    requires { low ≤ℤ high }
    ensures value { result ≡ clamped low high a }
    ensures between { LiesBetween low high result }
{
    a.clamp(low, high)
}
