// When an advisory has to change its sense.
ghost use Rattle.std.specs.Prelude.{◌≡◌};
ghost use Rattle.acas_base.specs.Choice.{calls_for_reversal, is_chase, has_to_reverse};

use acas_base::{Choice, Intent, Sense, View, gives_alim, separation, strongest};

// The least half-seconds to closest approach at which a reversal is called for.
const LEAST_HALVES: u16 = 8;

// The least age, in cycles, of an advisory that is in a chase.
const CHASED_FROM: u16 = 12;

/// Whether a geometric reversal of an advisory of this sense is called for (FAA, Introduction to TCAS II v7.1; with the
/// details of this project's profile).
///
/// Three things have to hold, the last two with the later response. At least four seconds are left. The strongest
/// strength that an advisory of this sense may grow to doesn't give enough. The strongest fresh strength of the other
/// sense gives ALIM.
pub fn turns(view: &View, sense: Sense) -> bool
    ensures { result ≡ calls_for_reversal view.now sense }
{
    let other = sense.other();
    let strongest_now = strongest(view, sense, Choice::Urgent);
    view.halves >= LEAST_HALVES
        && separation(view, sense, strongest_now, Choice::Urgent) < view.enough
        && gives_alim(
            view,
            other,
            strongest(view, other, Choice::Fresh),
            Choice::Steady,
        )
}

/// Whether an advisory is in a vertical chase (this project's profile 2): it is at least twelve cycles old, and the two
/// aircraft move the same way and come close in altitude.
pub fn is_chase(prev: &Intent, view: &View) -> bool
    ensures { result ≡ is_chase prev.now view.now }
{
    prev.age >= CHASED_FROM && view.chases.holds_of(prev.sense)
}

/// Whether an advisory has to change its sense: by geometry, or since it is in a chase.
pub fn has_to_reverse(prev: &Intent, view: &View) -> bool
    ensures { result ≡ has_to_reverse prev.now view.now }
{
    turns(view, prev.sense) || is_chase(prev, view)
}
