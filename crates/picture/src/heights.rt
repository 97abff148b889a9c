// The altitudes of an encounter and of its modelled flights, and the axis that holds them.
ghost use Rattle.std.specs.Prelude.{◌≡◌, ◌+◌, ◌<◌, ◌≤◌, ◌^◌, ◌<ℤ◌, ◌≤ℤ◌, ◌+ℤ◌, length, neg_ℤ, pos, unsigned_abs};
ghost use Rattle.std.specs.Int.{int_max, int_min};
ghost use Rattle.acas_base.specs.Ranges.{IsCycle};
ghost use Rattle.picture.specs.Heights.{HoldsModelled, HoldsPlanned, IsOn, all_heights, altitude_y, axis_of, drawn_heights, height_in, height_of, modelled_in, over_flight, over_flights, sixtieths, steps_of, with_height};

use crate::layout::{COURSE_BOTTOM, COURSE_HEIGHT};
use crate::span::Span;
use acas_base::Encounter;
use acas_num::floor_div;
use air_journal::AirState;
use flight::position;
use plot_axes::Scale;
use response::ModelledFlight;

/// The most aircraft of which the modelled flights are drawn.
pub(crate) const MOST_MODELLED: usize = 8;

/// The altitude of an aircraft in a cycle as planned, in 1/60 ft.
#[tactic(auto, unfolding(crate::specs::Heights::height_in))]
pub(crate) fn height_in(encounter: &Encounter, own: u8, cycle: u16) -> i64
    requires own { own < length encounter.now.crafts }
    requires cycle { IsCycle cycle }
    ensures value { result ≡ height_in encounter.now own cycle }
    ensures near { unsigned_abs result ≤ 9590000 }
{
    position(encounter, own, cycle).z
}

/// An altitude in 1/2048 ft, in 1/60 ft and rounded down.
#[tactic(auto, unfolding(crate::specs::Heights::sixtieths))]
pub(crate) fn sixtieths(units: i64) -> i64
    requires { unsigned_abs units ≤ 2 ^ 30 }
    ensures value { result ≡ sixtieths units }
    ensures near { unsigned_abs result ≤ 32000000 }
{
    floor_div(60 * units, 2_048)
}

fn lower(one: i64, other: i64) -> i64
    requires one { unsigned_abs one ≤ 32000000 }
    requires other { unsigned_abs other ≤ 32000000 }
    ensures value { result ≡ int_min one other }
    ensures near { unsigned_abs result ≤ 32000000 }
{
    if other < one { other } else { one }
}

fn higher(one: i64, other: i64) -> i64
    requires one { unsigned_abs one ≤ 32000000 }
    requires other { unsigned_abs other ≤ 32000000 }
    ensures value { result ≡ int_max one other }
    ensures near { unsigned_abs result ≤ 32000000 }
{
    if one < other { other } else { one }
}

fn with_height(span: Span, height: i64) -> Span
    requires low { unsigned_abs span.low ≤ 32000000 }
    requires high { unsigned_abs span.high ≤ 32000000 }
    requires height { unsigned_abs height ≤ 32000000 }
    ensures value { result ≡ with_height span height }
    ensures low { unsigned_abs result.low ≤ 32000000 }
    ensures high { unsigned_abs result.high ≤ 32000000 }
{
    Span {
        low: lower(span.low, height),
        high: higher(span.high, height),
    }
}

// With those of an aircraft in all cycles, as planned.
fn over_planned(encounter: &Encounter, own: u8, before: Span) -> Span
    requires own { own < length encounter.now.crafts }
    requires low { unsigned_abs before.low ≤ 32000000 }
    requires high { unsigned_abs before.high ≤ 32000000 }
    ensures value { result ≡ over_flight (height_in encounter.now own) before encounter.now.cycles }
    ensures low { unsigned_abs result.low ≤ 32000000 }
    ensures high { unsigned_abs result.high ≤ 32000000 }
{
    encounter.valid_law();
    let mut span = before;
    for cycle in 1..encounter.cycles() + 1 {
        span = with_height(span, height_in(encounter, own, cycle));
    }
    span
}

// The least and the greatest altitude, as planned.
#[tactic(auto, unfolding(crate::specs::Heights::all_heights))]
fn all_heights(encounter: &Encounter) -> Span
    ensures value { result ≡ all_heights encounter.now }
    ensures low { unsigned_abs result.low ≤ 32000000 }
    ensures high { unsigned_abs result.high ≤ 32000000 }
{
    encounter.valid_law();
    let first = height_in(encounter, 0, 1);
    let mut span = Span {
        low: first,
        high: first,
    };
    for own in 0..encounter.crafts().len() {
        span = over_planned(encounter, own as u8, span);
    }
    span
}

// With those of an aircraft in all cycles, as modelled.
fn over_modelled(state: &AirState, own: u8, before: Span) -> Span
    requires own { own < length state.now.encounter.crafts }
    requires low { unsigned_abs before.low ≤ 32000000 }
    requires high { unsigned_abs before.high ≤ 32000000 }
    ensures value { result ≡ over_flight (modelled_in state.now.encounter state.now.journal own) before state.now.encounter.cycles }
    ensures low { unsigned_abs result.low ≤ 32000000 }
    ensures high { unsigned_abs result.high ≤ 32000000 }
{
    state.legal_law();
    let mut flight = ModelledFlight::new(state, own);
    let mut span = before;
    for done in 0..state.enc().cycles() {
        let Some(altitude) = flight.next() else {
            return span;
        };
        span = with_height(span, sixtieths(altitude));
    }
    span
}

// With those of all aircraft, as modelled.
fn all_modelled(state: &AirState, before: Span) -> Span
    requires low { unsigned_abs before.low ≤ 32000000 }
    requires high { unsigned_abs before.high ≤ 32000000 }
    ensures value { result ≡ over_flights (modelled_in state.now.encounter state.now.journal) state.now.encounter.cycles before (length state.now.encounter.crafts) }
    ensures low { unsigned_abs result.low ≤ 32000000 }
    ensures high { unsigned_abs result.high ≤ 32000000 }
{
    state.legal_law();
    let mut span = before;
    for own in 0..state.enc().crafts().len() {
        span = over_modelled(state, own as u8, span);
    }
    span
}

// The least and the greatest altitude of all that is drawn.
#[tactic(auto, unfolding(crate::specs::Heights::drawn_heights))]
fn drawn_heights(state: &AirState) -> Span
    ensures value { result ≡ drawn_heights state.now.encounter state.now.journal }
    ensures low { unsigned_abs result.low ≤ 32000000 }
    ensures high { unsigned_abs result.high ≤ 32000000 }
{
    let planned = all_heights(state.enc());
    if state.enc().crafts().len() <= MOST_MODELLED {
        return all_modelled(state, planned);
    }
    planned
}

// An altitude in whole steps of 500 ft.
#[tactic(auto, unfolding(crate::specs::Heights::steps_of))]
fn steps_of(height: i64) -> i64
    requires { unsigned_abs height ≤ 32000001 }
    ensures value { result ≡ steps_of height }
    ensures near { unsigned_abs result ≤ 1067 }
{
    floor_div(height, 30_000)
}

/// The axis of altitudes, in steps of 500 ft.
#[tactic(auto, unfolding(crate::specs::Heights::axis_of))]
pub(crate) fn axis_of(state: &AirState) -> Span
    ensures value { result ≡ axis_of state.now.encounter state.now.journal }
    ensures low { unsigned_abs result.low ≤ 1068 }
    ensures high { unsigned_abs result.high ≤ 1068 }
{
    let span = drawn_heights(state);
    Span {
        low: steps_of(span.low - 1),
        high: steps_of(span.high) + 1,
    }
}

// A step in 1/60 ft.
fn height_of(step: i64) -> i64
    requires { unsigned_abs step ≤ 1068 }
    ensures value { result ≡ height_of step }
    ensures near { unsigned_abs result ≤ 32040000 }
{
    step * 30_000
}

/// How far down an altitude stands.
#[tactic(auto, unfolding(crate::specs::Heights::altitude_y))]
pub(crate) fn altitude_y(axis: Span, height: i64) -> u32
    requires low { unsigned_abs axis.low ≤ 1068 }
    requires high { unsigned_abs axis.high ≤ 1068 }
    requires on { IsOn axis height }
    ensures value { result ≡ altitude_y axis height }
    ensures least { 1500 ≤ result }
    ensures most { result ≤ 4700 }
{
    let scale = Scale {
        low: height_of(axis.low),
        high: height_of(axis.high),
        length: COURSE_HEIGHT,
    };
    COURSE_BOTTOM - scale.along(height)
}

/// A law: the axis of altitudes holds the altitude of each aircraft in each cycle, as planned and, of up to 8 aircraft,
/// as modelled.
pub(crate) fn axis_law(state: &AirState)
    ensures planned { HoldsPlanned (axis_of state.now.encounter state.now.journal) state.now.encounter }
    ensures modelled { length state.now.encounter.crafts ≤ 8 → HoldsModelled (axis_of state.now.encounter state.now.journal) state.now.encounter state.now.journal }
{
    let _ = state;
}
