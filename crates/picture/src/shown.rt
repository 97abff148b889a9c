// What an aircraft shows, and how long it shows it.
ghost use Rattle.std.specs.Prelude.{◌≡◌, ◌<◌, ◌≤◌};
ghost use Rattle.advisory_report.specs.Phrases.{is_clear};
ghost use Rattle.advisory_report.specs.Report.{is_same_word};
ghost use Rattle.equal_rows.specs.Rows.{begins, last_from};
ghost use Rattle.picture.specs.Shown.{goes_on, is_alike, is_same_mark, is_shown, shown_in};

use advisory_report::{Composite, has_advice, shown, word};
use air_journal::AirState;

/// What an aircraft shows after the commit of a cycle.
#[tactic(auto, unfolding(crate::specs::Shown::shown_in))]
pub(crate) fn shown_in(state: &AirState, own: u8, cycle: u16) -> Composite
    ensures { result ≡ shown_in state.now.journal own cycle }
{
    shown(state.cells(own, cycle))
}

/// Whether an aircraft shows neither traffic nor advice.
pub(crate) fn is_clear(composite: &Composite) -> bool
    ensures { result ≡ is_clear composite.now }
{
    !has_advice(composite) && !composite.traffic
}

/// Whether two have one word of the report.
pub(crate) fn is_same_word(one: &Composite, other: &Composite) -> bool
    ensures { result ≡ is_same_word one.now other.now }
{
    word(one) == word(other)
}

fn is_same_mark(one: bool, other: bool) -> bool
    ensures { result ≡ is_same_mark one other }
{
    if one { other } else { !other }
}

#[tactic(auto, unfolding(crate::specs::Shown::is_alike))]
fn is_alike(one: &Composite, other: &Composite) -> bool
    ensures { result ≡ is_alike one.now other.now }
{
    is_same_word(one, other) && is_same_mark(one.corrective, other.corrective)
}

// Whether an aircraft shows traffic or advice in a cycle.
fn is_shown(state: &AirState, own: u8, cycle: u16) -> bool
    ensures { result ≡ is_shown state.now.journal own cycle }
{
    !is_clear(&shown_in(state, own, cycle))
}

// Whether it shows the same in the next cycle.
fn goes_on(state: &AirState, own: u8, cycle: u16) -> bool
    requires { cycle < 600 }
    ensures { result ≡ goes_on state.now.journal own cycle }
{
    is_alike(
        &shown_in(state, own, cycle),
        &shown_in(state, own, cycle + 1),
    )
}

/// Whether a row of the aircraft begins with a cycle.
pub(crate) fn begins(state: &AirState, own: u8, cycle: u16) -> bool
    requires first { 1 ≤ cycle }
    requires last { cycle ≤ 600 }
    ensures { result ≡ begins (is_shown state.now.journal own) (goes_on state.now.journal own) cycle }
{
    is_shown(state, own, cycle) && !goes_on(state, own, cycle - 1)
}

/// The last cycle of the row that begins with a cycle.
pub(crate) fn last_from(state: &AirState, own: u8, first: u16) -> u16
    requires { first ≤ state.now.encounter.cycles }
    ensures value { result ≡ last_from (goes_on state.now.journal own) state.now.encounter.cycles first }
    ensures least { first ≤ result }
    ensures most { result ≤ state.now.encounter.cycles }
{
    state.legal_law();
    for cycle in first..state.enc().cycles() {
        if !goes_on(state, own, cycle) {
            return cycle;
        }
    }
    state.enc().cycles()
}
