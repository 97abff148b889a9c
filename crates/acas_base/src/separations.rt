// Separations at closest approach.
ghost use Rattle.std.specs.Prelude.{◌≡◌};
ghost use Rattle.acas_base.specs.Choice.{separation_of, gives_alim};

use crate::{Choice, Sense, Strength, View};

/// The separation at closest approach, in 1/1024 ft, that this strength gives in this sense. It goes by the first
/// response where the choice is fresh, else by the later one.
pub fn separation(view: &View, sense: Sense, strength: Strength, choice: Choice) -> i64
    ensures { result ≡ separation_of view.now sense strength choice }
{
    let separations = if choice.is_fresh() {
        &view.first
    } else {
        &view.later
    };
    match sense {
        Sense::Up => separations.up[strength.place()],
        Sense::Down => separations.down[strength.place()],
    }
}

/// Whether that separation is at least ALIM (FAA, Introduction to TCAS II v7.1).
pub fn gives_alim(view: &View, sense: Sense, strength: Strength, choice: Choice) -> bool
    ensures { result ≡ gives_alim view.now sense strength choice }
{
    view.alim <= separation(view, sense, strength, choice)
}
