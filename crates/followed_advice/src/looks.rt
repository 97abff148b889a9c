// How far the aircraft of an encounter are where they have to be.
ghost use Rattle.std.specs.Prelude.{◌≡◌, ◌↔◌, ℕ, [], ◌-◌, ◌<◌, ◌≤◌, IfSome, IsNone, IsTrue, length, map, slice_index_or};
ghost use Rattle.acas_base.specs.Encounter.{Parts};
ghost use Rattle.flight.specs.Flight.{position};
ghost use Rattle.followed_advice.specs.Keeping.{AreRows, AreThere, GoesOn, IsFirstChange, IsFirstLeaving};
ghost use Rattle.leg_rows.specs.Rows.{place_of};

use crate::limits::can_go_on;
use acas_base::Encounter;
use flight::{Place, position};

// Whether an aircraft is at its place in a cycle.
fn is_there(flown: &Encounter, rows: &[Vec<Place>], own: u8, cycle: u16) -> bool
    requires rows { AreRows flown.now (map (λ row. row.items) rows.now) }
    requires own { own < length flown.now.crafts }
    requires begun { 1 ≤ cycle }
    requires in_run { cycle ≤ flown.now.cycles }
    ensures { IsTrue result ↔ (position flown.now own cycle ≡ place_of (slice_index_or (map (λ row. row.items) rows.now) own []) cycle) }
{
    flown.valid_law();
    position(flown, own, cycle) == rows[usize::from(own)][usize::from(cycle - 1)]
}

// Whether all are at their places in a cycle.
fn are_there(flown: &Encounter, rows: &[Vec<Place>], cycle: u16) -> bool
    requires rows { AreRows flown.now (map (λ row. row.items) rows.now) }
    requires begun { 1 ≤ cycle }
    requires in_run { cycle ≤ flown.now.cycles }
    ensures { IsTrue result ↔ AreThere flown.now (map (λ row. row.items) rows.now) cycle }
{
    flown.valid_law();
    for own in 0..flown.crafts().len() as u8 {
        if !is_there(flown, rows, own, cycle) {
            return false;
        }
    }
    true
}

// The first cycle in which not all are at their places.
pub(crate) fn first_change(flown: &Encounter, rows: &[Vec<Place>]) -> Option<u16>
    requires { AreRows flown.now (map (λ row. row.items) rows.now) }
    ensures none { IsNone result → (cycle : ℕ) → 1 ≤ cycle → cycle ≤ flown.now.cycles → AreThere flown.now (map (λ row. row.items) rows.now) cycle }
    ensures first { IfSome result (IsFirstChange flown.now (map (λ row. row.items) rows.now)) }
{
    for second in 0..flown.cycles() {
        let cycle = second + 1;
        if !are_there(flown, rows, cycle) {
            return Some(cycle);
        }
    }
    None
}

// Whether an aircraft can go on to its place in a cycle.
fn goes_on(flown: &Encounter, rows: &[Vec<Place>], own: u8, cycle: u16) -> bool
    requires rows { AreRows flown.now (map (λ row. row.items) rows.now) }
    requires own { own < length flown.now.crafts }
    requires begun { 2 ≤ cycle }
    requires in_run { cycle ≤ flown.now.cycles }
    ensures { IsTrue result ↔ GoesOn flown.now (map (λ row. row.items) rows.now) own cycle }
{
    flown.valid_law();
    let here = position(flown, own, cycle - 1);
    can_go_on(&here, &rows[usize::from(own)][usize::from(cycle - 1)])
}

// The first aircraft that can't go on to its place in a cycle.
pub(crate) fn first_leaving(flown: &Encounter, rows: &[Vec<Place>], cycle: u16) -> Option<u8>
    requires rows { AreRows flown.now (map (λ row. row.items) rows.now) }
    requires begun { 2 ≤ cycle }
    requires in_run { cycle ≤ flown.now.cycles }
    ensures none { IsNone result → (own : ℕ) → own < length flown.now.crafts → GoesOn flown.now (map (λ row. row.items) rows.now) own cycle }
    ensures first { IfSome result (IsFirstLeaving flown.now (map (λ row. row.items) rows.now) cycle) }
{
    flown.valid_law();
    for own in 0..flown.crafts().len() as u8 {
        if !goes_on(flown, rows, own, cycle) {
            return Some(own);
        }
    }
    None
}
