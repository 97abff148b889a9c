// How far the aircraft come, to all four sides.
ghost use Rattle.std.specs.Prelude.{◌≡◌, ◌<◌, ◌≤◌, length, unsigned_abs};
ghost use Rattle.std.specs.Int.{int_max, int_min};
ghost use Rattle.acas_base.specs.Ranges.{IsCycle};
ghost use Rattle.flight.specs.Bounds.{IsReachable};
ghost use Rattle.plan_panel.specs.Places.{IsExtent, IsSpan, at_place, extent_of, only, over_crafts, over_cycles, with_place, with_value};

use acas_base::Encounter;
use flight::{Place, position};

/// The least and the greatest of some values, in ft.
#[derive(Clone, Copy)]
pub(crate) struct Span {
    pub low: i64,
    pub high: i64,
}

/// Those of places to the east and to the north.
#[derive(Clone, Copy)]
pub(crate) struct Extent {
    pub x: Span,
    pub y: Span,
}

fn lower(one: i64, other: i64) -> i64
    requires one { unsigned_abs one ≤ 2198000 }
    requires other { unsigned_abs other ≤ 2198000 }
    ensures value { result ≡ int_min one other }
    ensures near { unsigned_abs result ≤ 2198000 }
{
    if other < one { other } else { one }
}

fn higher(one: i64, other: i64) -> i64
    requires one { unsigned_abs one ≤ 2198000 }
    requires other { unsigned_abs other ≤ 2198000 }
    ensures value { result ≡ int_max one other }
    ensures near { unsigned_abs result ≤ 2198000 }
{
    if one < other { other } else { one }
}

fn only(value: i64) -> Span
    requires { unsigned_abs value ≤ 2198000 }
    ensures value { result ≡ only value }
    ensures near { IsSpan result }
{
    Span {
        low: value,
        high: value,
    }
}

fn with_value(span: Span, value: i64) -> Span
    requires span { IsSpan span }
    requires value { unsigned_abs value ≤ 2198000 }
    ensures value { result ≡ with_value span value }
    ensures near { IsSpan result }
{
    Span {
        low: lower(span.low, value),
        high: higher(span.high, value),
    }
}

fn at_place(place: Place) -> Extent
    requires { IsReachable place }
    ensures value { result ≡ at_place place }
    ensures near { IsExtent result }
{
    Extent {
        x: only(place.x),
        y: only(place.y),
    }
}

fn with_place(extent: Extent, place: Place) -> Extent
    requires extent { IsExtent extent }
    requires place { IsReachable place }
    ensures value { result ≡ with_place extent place }
    ensures near { IsExtent result }
{
    Extent {
        x: with_value(extent.x, place.x),
        y: with_value(extent.y, place.y),
    }
}

// With the places of an aircraft in all cycles.
fn over_cycles(encounter: &Encounter, own: u8, before: Extent) -> Extent
    requires own { own < length encounter.now.crafts }
    requires before { IsExtent before }
    ensures value { result ≡ over_cycles encounter.now own before encounter.now.cycles }
    ensures near { IsExtent result }
{
    encounter.valid_law();
    let mut extent = before;
    for cycle in 1..encounter.cycles() + 1 {
        extent = with_place(extent, position(encounter, own, cycle));
    }
    extent
}

/// How far all aircraft come in all cycles.
#[tactic(auto, unfolding(crate::specs::Places::extent_of))]
pub(crate) fn extent_of(encounter: &Encounter) -> Extent
    ensures value { result ≡ extent_of encounter.now }
    ensures near { IsExtent result }
{
    encounter.valid_law();
    let mut extent = at_place(position(encounter, 0, 1));
    for own in 0..encounter.crafts().len() {
        extent = over_cycles(encounter, own as u8, extent);
    }
    extent
}
