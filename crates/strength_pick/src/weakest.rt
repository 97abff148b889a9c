// The least strength.
ghost use Rattle.std.specs.Prelude.{◌≡◌, ◌&&◌};
ghost use Rattle.acas_base.specs.Strengths.{is_allowed};
ghost use Rattle.acas_base.specs.Choice.{gives_alim, least_strength};

use acas_base::{Choice, Sense, Strength, View, allowed, gives_alim, strongest};

// Whether a choice may take this strength, and it gives ALIM.
fn serves(view: &View, sense: Sense, strength: Strength, choice: Choice) -> bool
    ensures { result ≡ (is_allowed view.now sense strength choice && gives_alim view.now sense strength choice) }
{
    allowed(view, sense, strength, choice) && gives_alim(view, sense, strength, choice)
}

/// The least strength of this sense: the weakest allowed one that gives ALIM. Where none does, it is the strongest
/// allowed one (this project's profile).
pub fn least(view: &View, sense: Sense, choice: Choice) -> Strength
    ensures { result ≡ least_strength view.now sense choice }
{
    if serves(view, sense, Strength::Limit2000, choice) {
        Strength::Limit2000
    } else if serves(view, sense, Strength::Limit1000, choice) {
        Strength::Limit1000
    } else if serves(view, sense, Strength::Limit500, choice) {
        Strength::Limit500
    } else if serves(view, sense, Strength::Level, choice) {
        Strength::Level
    } else if serves(view, sense, Strength::Positive, choice) {
        Strength::Positive
    } else if serves(view, sense, Strength::Increase, choice) {
        Strength::Increase
    } else {
        strongest(view, sense, choice)
    }
}
