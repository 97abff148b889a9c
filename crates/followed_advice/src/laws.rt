// Laws of the encounter in which aircraft follow their advice.
ghost use Rattle.std.specs.Prelude.{◌≡◌, ℕ, ℤ, List};
ghost use Rattle.acas_base.specs.Encounter.{Parts};
ghost use Rattle.followed_advice.specs.Following.{Follows, IsNearest, Leaves, sixtieths};

/// Laws of the encounter in which the named aircraft follow their own advice.
///
/// - `only`: there is at most one.
/// - `none`: where the flight leaves the limits, there is none.
/// - `once`: it leaves them in one cycle, and for one aircraft.
pub fn following_law()
    ensures only { (read : Parts) (named : List ℕ) (one two : Parts) → Follows read named one → Follows read named two → one ≡ two }
    ensures none { (read : Parts) (named : List ℕ) (own cycle : ℕ) (written : Parts) → Leaves read named own cycle → Follows read named written → ⊥ }
    ensures once { (read : Parts) (named : List ℕ) (own cycle other later : ℕ) → Leaves read named own cycle → Leaves read named other later → (own ≡ other) × (cycle ≡ later) }
{}

/// A law: an altitude is rounded to the nearest multiple of 1/60 ft, and no other one is as near, but where two are:
/// then it is the greater one.
pub fn rounding_law()
    ensures near { (altitude : ℤ) → IsNearest altitude (sixtieths altitude) }
    ensures only { (altitude z : ℤ) → IsNearest altitude z → z ≡ sixtieths altitude }
{}
