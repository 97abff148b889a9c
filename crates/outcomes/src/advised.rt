// What the aircraft advise: the first cycle with an advisory, and the first and the last advice of each aircraft.
ghost use Rattle.std.specs.Prelude.{◌≡◌, ◌<◌, find, length, option_copied};
ghost use Rattle.std.specs.List.{list_any, range_with_len};
ghost use Rattle.acas_base.specs.Messages.{has_advisory};
ghost use Rattle.outcomes.specs.Advised.{advises_in, began, ended, first_cycle, has_some, last_where, senses_at, senses_of, shown_in, some_has};

use crate::state::{crafts, cycles};
use acas_base::{Cell, Cells};
use advisory_report::{Composite, has_advice, shown};
use air_journal::AirState;

/// The senses in which a composite has advice.
#[derive(Clone, Copy)]
pub enum Senses {
    /// No advice.
    Neither,
    /// To climb or not to descend.
    Up,
    /// To descend or not to climb.
    Down,
    /// Both, against different aircraft.
    Both,
}

// ---- the first advisory

fn has_any(cells: &[Cell]) -> bool
    ensures { result ≡ list_any has_advisory cells.now }
{
    cells.iter().any(|cell| cell.has_advisory())
}

fn has_some(cells: Option<&Cells>) -> bool
    ensures { result ≡ has_some (option_copied cells.entry) }
{
    match cells {
        Some(cells) => has_any(&cells.list),
        None => false,
    }
}

// Whether some aircraft has an advisory in a cycle.
fn some_has(state: &AirState, cycle: u16) -> bool
    ensures { result ≡ some_has state.now.journal (length state.now.encounter.crafts) cycle }
{
    for own in 0..crafts(state) {
        if has_some(state.cells(own, cycle)) {
            return true;
        }
    }
    false
}

/// The first cycle in which some aircraft has an advisory.
pub(crate) fn first_cycle(state: &AirState) -> Option<u16>
    ensures { result ≡ first_cycle state.now.encounter state.now.journal }
{
    for earlier in 0..cycles(state) {
        if some_has(state, earlier + 1) {
            return Some(earlier + 1);
        }
    }
    None
}

// ---- the first and the last advice of an aircraft

fn senses_of(composite: &Composite) -> Senses
    ensures { result ≡ senses_of composite.now }
{
    match (composite.up, composite.down) {
        (Some(_), Some(_)) => Senses::Both,
        (Some(_), None) => Senses::Up,
        (None, Some(_)) => Senses::Down,
        (None, None) => Senses::Neither,
    }
}

fn advises_in(state: &AirState, own: u8, cycle: u16) -> bool
    ensures { result ≡ advises_in state.now.journal own cycle }
{
    has_advice(&shown(state.cells(own, cycle)))
}

fn senses_at(state: &AirState, own: u8, cycle: Option<u16>) -> Senses
    ensures { result ≡ senses_at state.now.journal own cycle }
{
    match cycle {
        Some(cycle) => senses_of(&shown(state.cells(own, cycle))),
        None => Senses::Neither,
    }
}

// The first cycle in which an aircraft has advice.
fn first_advice(state: &AirState, own: u8) -> Option<u16>
    ensures { result ≡ find (advises_in state.now.journal own) (range_with_len 1 state.now.encounter.cycles) }
{
    for earlier in 0..cycles(state) {
        if advises_in(state, own, earlier + 1) {
            return Some(earlier + 1);
        }
    }
    None
}

// The last one.
fn last_advice(state: &AirState, own: u8) -> Option<u16>
    ensures { result ≡ last_where (advises_in state.now.journal own) state.now.encounter.cycles }
{
    let count = cycles(state);
    for later in 0..count {
        if advises_in(state, own, count - later) {
            return Some(count - later);
        }
    }
    None
}

/// The senses of an aircraft's first composite with advice.
pub(crate) fn began(state: &AirState, own: u8) -> Senses
    ensures { result ≡ began state.now.encounter state.now.journal own }
{
    senses_at(state, own, first_advice(state, own))
}

/// The senses of its last composite with advice.
pub(crate) fn ended(state: &AirState, own: u8) -> Senses
    ensures { result ≡ ended state.now.encounter state.now.journal own }
{
    senses_at(state, own, last_advice(state, own))
}
