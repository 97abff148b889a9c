// The next strength of an advisory that keeps its sense.
ghost use Rattle.std.specs.Prelude.{◌≡◌};
ghost use Rattle.acas_base.specs.Strengths.{is_at_most};
ghost use Rattle.acas_base.specs.Choice.{has_alim, has_enough_by_level, weakens, reaches_both, least_of_both, choice_after, strength_after};

use crate::weakest::least;
use acas_base::{Choice, Intent, Sense, Strength, View, allowed, gives_alim, strongest};

/// Whether a sense has ALIM at present: its present separation is at least ALIM.
pub fn has_alim(view: &View, sense: Sense) -> bool
    ensures { result ≡ has_alim view.now sense }
{
    let alim = view.alim;
    match sense {
        Sense::Up => alim <= view.gap,
        Sense::Down => match view.gap.checked_neg() {
            Some(separation) => alim <= separation,
            None => true,
        },
    }
}

fn is_at_least(strength: Strength, other: Strength) -> bool
    ensures { result ≡ is_at_most other strength }
{
    other.place() <= strength.place()
}

/// The choice after an advisory. It is fresh where the advisory was weaker than `Positive`. Else it is urgent where the
/// sense hurries, or the advisory was an `Increase`.
pub fn choice_after(prev: &Intent, view: &View) -> Choice
    ensures { result ≡ choice_after prev.now view.now }
{
    if !is_at_least(prev.strength, Strength::Positive) {
        Choice::Fresh
    } else if view.hurries.holds_of(prev.sense) || is_at_least(prev.strength, Strength::Increase) {
        Choice::Urgent
    } else {
        Choice::Steady
    }
}

// Whether Level is enough in a sense: the sense has ALIM at present, and where the view looks ahead, Level gives it.
fn has_enough_by_level(view: &View, sense: Sense) -> bool
    ensures { result ≡ has_enough_by_level view.now sense }
{
    has_alim(view, sense)
        && (!view.looks_ahead || gives_alim(view, sense, Strength::Level, Choice::Steady))
}

/// Whether the advisory weakens to `Level`: it is old enough and at least `Level`, and the other aircraft passes far
/// away, or `Level` is enough (this project's profiles).
pub fn weakens(prev: &Intent, view: &View) -> bool
    ensures { result ≡ weakens prev.now view.now }
{
    prev.age >= view.settled_at
        && is_at_least(prev.strength, Strength::Level)
        && (view.far || has_enough_by_level(view, prev.sense))
}

// The choice may take this strength, and it is at least as strong as two others.
fn reaches_both(
    view: &View,
    sense: Sense,
    choice: Choice,
    one: Strength,
    two: Strength,
    strength: Strength,
) -> bool
    ensures { result ≡ reaches_both view.now sense choice one two strength }
{
    allowed(view, sense, strength, choice)
        && is_at_least(strength, one)
        && is_at_least(strength, two)
}

// The weakest of these. Where there is none, it is the strongest strength that the choice may take.
fn least_of_both(
    view: &View,
    sense: Sense,
    choice: Choice,
    one: Strength,
    two: Strength,
) -> Strength
    ensures { result ≡ least_of_both view.now sense choice one two }
{
    if reaches_both(view, sense, choice, one, two, Strength::Limit2000) {
        Strength::Limit2000
    } else if reaches_both(view, sense, choice, one, two, Strength::Limit1000) {
        Strength::Limit1000
    } else if reaches_both(view, sense, choice, one, two, Strength::Limit500) {
        Strength::Limit500
    } else if reaches_both(view, sense, choice, one, two, Strength::Level) {
        Strength::Level
    } else if reaches_both(view, sense, choice, one, two, Strength::Positive) {
        Strength::Positive
    } else if reaches_both(view, sense, choice, one, two, Strength::Increase) {
        Strength::Increase
    } else {
        strongest(view, sense, choice)
    }
}

/// The next strength of an advisory that keeps its sense (this project's profile).
///
/// It is `Level` where the advisory weakens. Else it is the weakest strength that the choice may take and that is at least as strong as
/// the one before and as the least strength of the present view. Where there is none, it is the strongest one that the
/// choice may take.
pub fn next_strength(prev: &Intent, view: &View) -> Strength
    ensures { result ≡ strength_after prev.now view.now }
{
    let sense = prev.sense;
    let choice = choice_after(prev, view);
    let need = least(view, sense, choice);
    if weakens(prev, view) {
        Strength::Level
    } else {
        least_of_both(view, sense, choice, prev.strength, need)
    }
}
