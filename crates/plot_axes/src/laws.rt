// What holds of axes.
ghost use Rattle.std.specs.Prelude.{◌<◌, ◌≤◌, List, ℕ};
ghost use Rattle.plot_axes.specs.Scale.{IsKept};
ghost use Rattle.plot_axes.specs.Steps.{AreRising, IsLeast, step_for};
ghost use Rattle.plot_axes.specs.Time.{HoldsRun};

/// A law: places along an axis are in the order of their values and within its length, and each loses less than one
/// unit of the exact place. `part` and `more` are how far two values are above the lowest one, and `whole` how far the
/// highest is.
pub fn scale_law()
    ensures { (length whole part more : ℕ) → 0 < whole → part ≤ more → more ≤ whole → IsKept length whole part more }
{}

/// A law: of steps that rise, the least one that fits is found, if any fits.
pub fn step_law()
    ensures { (span most : ℕ) (steps : List ℕ) → AreRising 0 steps → IsLeast span most steps (step_for span most 0 steps) }
{}

/// A law: the axis of time holds the whole run.
pub fn time_law()
    ensures { (cycles : ℕ) → 1 ≤ cycles → cycles ≤ 600 → HoldsRun cycles }
{}
