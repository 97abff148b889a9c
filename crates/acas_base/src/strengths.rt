// Which strengths are allowed, and the strongest of them.
ghost use Rattle.std.specs.Prelude.{◌≡◌};
ghost use Rattle.acas_base.specs.Choice.{strongest};
ghost use Rattle.acas_base.specs.Strengths.{meets_floor, is_allowed};

use crate::{Choice, Sense, Strength, View};

/// Whether own rate meets the floor of this strength already. Where it doesn't, an advisory of this sense and strength
/// is corrective (FAA, Introduction to TCAS II v7.1).
pub fn meets_floor(view: &View, sense: Sense, strength: Strength) -> bool
    ensures { result ≡ meets_floor view.now sense strength }
{
    match sense {
        Sense::Up => strength.floor() <= view.rate,
        Sense::Down => view.rate <= -strength.floor(),
    }
}

/// Whether a choice may take this strength in this sense (this project's profiles).
pub fn allowed(view: &View, sense: Sense, strength: Strength, choice: Choice) -> bool
    ensures { result ≡ is_allowed view.now sense strength choice }
{
    match strength {
        Strength::Limit2000 | Strength::Limit1000 | Strength::Limit500 => {
            meets_floor(view, sense, strength)
        }
        Strength::Level => true,
        Strength::Positive => match sense {
            Sense::Up => view.climbs,
            Sense::Down => view.descends,
        },
        Strength::Increase => {
            choice.may_increase()
                && match sense {
                    Sense::Up => view.climbs,
                    Sense::Down => view.descends_faster,
                }
        }
    }
}

/// The strongest strength that a choice may take in this sense; `Level` is always allowed.
pub fn strongest(view: &View, sense: Sense, choice: Choice) -> Strength
    ensures { result ≡ strongest view.now sense choice }
{
    if allowed(view, sense, Strength::Increase, choice) {
        Strength::Increase
    } else if allowed(view, sense, Strength::Positive, choice) {
        Strength::Positive
    } else {
        Strength::Level
    }
}
