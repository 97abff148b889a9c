// What the choices of a strength are.
ghost use Rattle.std.specs.Prelude.{◌≡◌, IsTrue, false, not};
ghost use Rattle.acas_base.specs.Choice.{least_strength, strength_after, strongest, weakens};
ghost use Rattle.acas_base.specs.Limits.{LimitsAskForOwnRate, is_stricter_limit};
ghost use Rattle.acas_base.specs.declared.advisory.Intent.{Intent};
ghost use Rattle.acas_base.specs.declared.advisory.Sense.{Sense};
ghost use Rattle.acas_base.specs.declared.choice.Choice.{Choice};
ghost use Rattle.acas_base.specs.declared.view.View.{View};
ghost use Rattle.strength_pick.specs.Extremes.{IsLeast, IsNext, IsStrongestAllowed};

use acas_base::Strength;

/// A law: the strongest strength is allowed, and no stronger one is.
pub fn strongest_law()
    ensures { (view : View) (sense : Sense) (choice : Choice) → IsStrongestAllowed view sense choice (strongest view sense choice) }
{}

/// A law: the least strength is allowed and gives ALIM, and no weaker one is allowed and gives ALIM. Where no allowed
/// strength gives ALIM, it is the strongest allowed one.
pub fn least_law()
    ensures { (view : View) (sense : Sense) (choice : Choice) → IsLeast view sense choice (least_strength view sense choice) }
{}

/// A law about the next strength of an advisory that doesn't weaken to `Level`. It is the weakest allowed strength that
/// is at least as strong as the one before and as the least strength. Where there is none, it is the strongest allowed
/// one.
pub fn next_law()
    ensures weakens { (before : Intent) (view : View) → IsTrue (weakens before view) → strength_after before view ≡ Strength.Level }
    ensures goes_on { (before : Intent) (view : View) → IsTrue (not (weakens before view)) → IsNext before view (strength_after before view) }
{}

/// A law: no choice is a limit to 1,000 or to 500 ft/min. It asks of the view that all limits which own rate meets give
/// the same separation; they do, since each asks for own rate. Where a stricter limit is allowed and gives ALIM, the
/// limit to 2,000 ft/min is allowed and gives ALIM, too, and is taken first.
pub fn limits_law()
    ensures strongest { (view : View) (sense : Sense) (choice : Choice) → is_stricter_limit (strongest view sense choice) ≡ false }
    ensures least { (view : View) (sense : Sense) (choice : Choice) → LimitsAskForOwnRate view → is_stricter_limit (least_strength view sense choice) ≡ false }
    ensures next { (before : Intent) (view : View) → LimitsAskForOwnRate view → is_stricter_limit before.strength ≡ false → is_stricter_limit (strength_after before view) ≡ false }
{}
