// Division of whole numbers: rounded down, and rounded up to whole seconds.
ghost use Rattle.std.specs.Prelude.{◌≡◌, ◌↔◌, ℕ, ◌*◌, ◌<◌, ◌≤◌, pos, ◌<ℤ◌};
ghost use Rattle.std.specs.Int.{int_div_euclid};
ghost use Rattle.acas_num.specs.Division.{IsQuotient};
ghost use Rattle.acas_num.specs.Seconds.{need, IsNeed};

/// `a / b` rounded down, also where `a` is below 0: -1 divided by 60 is -1.
pub fn floor_div(a: i64, b: i64) -> i64
    requires { pos 0 <ℤ b }
    ensures value { result ≡ int_div_euclid a b }
    ensures rounded_down { IsQuotient a b result }
{
    a.div_euclid(b)
}

/// A law: `need a b` is the least whole number of seconds in which a rate of `b` a second covers `a`. So one product
/// shows whether a number of seconds is enough.
pub fn seconds_law()
    ensures least { (a b : ℕ) → 0 < b → IsNeed a b (need a b) }
    ensures by_product { (a b seconds : ℕ) → 0 < b → (need a b ≤ seconds) ↔ (a ≤ seconds * b) }
{}
