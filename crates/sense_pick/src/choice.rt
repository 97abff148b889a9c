// The choice of a sense.
ghost use Rattle.std.specs.Prelude.{◌≡◌};
ghost use Rattle.acas_base.specs.Choice.{best_separation, chosen_sense};

use acas_base::{Choice, Sense, View, separation, strongest};

// The separation, in 1/1024 ft, that the strongest allowed strength of a fresh choice gives in this sense.
fn best_separation(view: &View, sense: Sense) -> i64
    ensures { result ≡ best_separation view.now sense }
{
    separation(
        view,
        sense,
        strongest(view, sense, Choice::Fresh),
        Choice::Fresh,
    )
}

/// The chosen sense: the one that doesn't cross the other's altitude, unless it doesn't give ALIM and the other sense
/// gives more (FAA, Introduction to TCAS II v7.1; with the details of this project's profile). Where no complement is
/// in force, an advisory starts in this sense.
pub fn pick(view: &View) -> Sense
    ensures { result ≡ chosen_sense view.now }
{
    let crossing = view.side.other();
    let best = best_separation(view, view.side);
    if best < view.alim && best < best_separation(view, crossing) {
        crossing
    } else {
        view.side
    }
}
