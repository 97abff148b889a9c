// Changes of sense, and equal senses.
ghost use Rattle.std.specs.Prelude.{◌≡◌, ◌<◌, ◌≤◌, cond, length, option_copied};
ghost use Rattle.acas_base.specs.declared.TheConstants.{CRAFTS};
ghost use Rattle.outcomes.specs.Events.{cell_in, cell_of, happens, have_one_sense, is_change, is_new_r, is_reversal, is_turn, times, times_in_all, times_with};

use crate::state::{crafts, cycles};
use acas_base::{Cell, Cells, Intent};
use air_journal::AirState;

/// What can happen in a cycle between an aircraft and another one.
#[derive(Clone, Copy)]
pub enum Event {
    /// The sense of the aircraft's advisory against the other one changes, and it isn't newly reversed geometrically.
    Turn,
    /// The sense changes, and is newly reversed geometrically.
    Reversal,
    /// Both have an advisory against each other, of one sense. It happens to the aircraft of lower index.
    Equal,
}

// ---- cells

fn cell_of(cells: Option<&Cells>, other: u8) -> Cell
    requires { other < CRAFTS }
    ensures { result ≡ cell_of (option_copied cells.entry) other }
{
    match cells {
        Some(cells) => cells.list[usize::from(other)],
        None => Cell::Clear,
    }
}

// The cell of an aircraft for another one in a cycle; Clear where it hasn't committed it.
fn cell_in(state: &AirState, own: u8, other: u8, cycle: u16) -> Cell
    requires { other < CRAFTS }
    ensures { result ≡ cell_in state.now.journal own other cycle }
{
    cell_of(state.cells(own, cycle), other)
}

fn is_change(before: &Intent, now: &Intent) -> bool
    ensures { result ≡ is_change before.now now.now }
{
    !(before.sense == now.sense)
}

fn is_new_r(before: &Intent, now: &Intent) -> bool
    ensures { result ≡ is_new_r before.now now.now }
{
    now.turned && !before.turned
}

fn is_turn(before: Cell, now: Cell) -> bool
    ensures { result ≡ is_turn before now }
{
    match before {
        Cell::Clear | Cell::Traffic => false,
        Cell::Ra(before) => match now {
            Cell::Clear | Cell::Traffic => false,
            Cell::Ra(now) => is_change(&before, &now) && !is_new_r(&before, &now),
        },
    }
}

fn is_reversal(before: Cell, now: Cell) -> bool
    ensures { result ≡ is_reversal before now }
{
    match before {
        Cell::Clear | Cell::Traffic => false,
        Cell::Ra(before) => match now {
            Cell::Clear | Cell::Traffic => false,
            Cell::Ra(now) => is_change(&before, &now) && is_new_r(&before, &now),
        },
    }
}

fn have_one_sense(one: Cell, other: Cell) -> bool
    ensures { result ≡ have_one_sense one other }
{
    match one {
        Cell::Clear | Cell::Traffic => false,
        Cell::Ra(one) => other.has_sense(one.sense),
    }
}

// ---- how often

fn happens(event: Event, state: &AirState, own: u8, other: u8, cycle: u16) -> bool
    requires own { own < CRAFTS }
    requires other { other < CRAFTS }
    requires cycle { 1 ≤ cycle }
    ensures { result ≡ happens event state.now.journal own other cycle }
{
    let now = cell_in(state, own, other, cycle);
    match event {
        Event::Turn => is_turn(cell_in(state, own, other, cycle - 1), now),
        Event::Reversal => is_reversal(cell_in(state, own, other, cycle - 1), now),
        Event::Equal => own < other && have_one_sense(now, cell_in(state, other, own, cycle)),
    }
}

// One, where it happens.
fn once(happens: bool) -> u32
    ensures value { result ≡ cond happens 1 0 }
    ensures few { result ≤ 1 }
{
    if happens { 1 } else { 0 }
}

fn times(event: Event, state: &AirState, own: u8, other: u8) -> u32
    requires own { own < CRAFTS }
    requires other { other < CRAFTS }
    ensures value { result ≡ times event state.now.journal own other state.now.encounter.cycles }
    ensures few { result ≤ 600 }
{
    let mut found = 0;
    for earlier in 0..cycles(state) {
        found += once(happens(event, state, own, other, earlier + 1));
    }
    found
}

fn times_with(event: Event, state: &AirState, own: u8) -> u32
    requires { own < CRAFTS }
    ensures value { result ≡ times_with event state.now.journal state.now.encounter.cycles own (length state.now.encounter.crafts) }
    ensures few { result ≤ 9600 }
{
    let mut found = 0;
    for other in 0..crafts(state) {
        found += times(event, state, own, other);
    }
    found
}

/// How often an event happens, to all aircraft with all others.
pub(crate) fn times_in_all(event: Event, state: &AirState) -> u32
    ensures { result ≡ times_in_all event state.now.encounter state.now.journal }
{
    let mut found = 0;
    for own in 0..crafts(state) {
        found += times_with(event, state, own);
    }
    found
}
