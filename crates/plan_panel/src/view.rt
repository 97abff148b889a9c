// The part of the world that the plan shows, and where it is in the box.
ghost use Rattle.std.specs.Prelude.{◌≡◌, ◌+◌, ◌*◌, ◌<◌, ◌≤◌, ◌^◌, ◌+ℤ◌, max, pos, unsigned_abs};
ghost use Rattle.plan_panel.specs.Places.{HoldsAll, IsAxis, IsExtent, IsOn, IsSpan, IsView, axis_over, middle, need_of, placed, side_for, view_of, view_over, width_of};

use crate::extent::{Extent, Span, extent_of};
use acas_base::Encounter;
use acas_num::floor_div;
use plot_axes::Scale;

/// What the box shows in one direction: the value at its edge, and how many feet it holds.
#[derive(Clone, Copy)]
pub(crate) struct Axis {
    pub low: i64,
    pub whole: u32,
}

/// What it shows to the east and to the north.
#[derive(Clone, Copy)]
pub(crate) struct View {
    pub x: Axis,
    pub y: Axis,
}

fn width_of(span: Span) -> u32
    requires { IsSpan span }
    ensures value { result ≡ width_of span }
    ensures near { result ≤ 4396000 }
{
    (span.high - span.low).unsigned_abs() as u32
}

fn larger(one: u32, other: u32) -> u32
    requires one { one ≤ 2000000 }
    requires other { other ≤ 2000000 }
    ensures value { result ≡ max one other }
    ensures least { one ≤ result }
    ensures near { result ≤ 2000000 }
{
    if one < other { other } else { one }
}

// The least side that holds all.
fn need_of(extent: Extent) -> u32
    requires { IsExtent extent }
    ensures value { result ≡ need_of extent }
    ensures least { 1519 ≤ result }
    ensures near { result ≤ 2000000 }
{
    larger(
        1_519,
        larger(width_of(extent.x) / 4, width_of(extent.y) / 3),
    )
}

// The side, with some room.
fn side_for(need: u32) -> u32
    requires least { 1519 ≤ need }
    requires near { need ≤ 2000000 }
    ensures value { result ≡ side_for need }
    ensures least { 1519 ≤ result }
    ensures near { result ≤ 2240001 }
{
    need * 112 / 100 + 1
}

fn middle(span: Span) -> i64
    requires { IsSpan span }
    ensures value { result ≡ middle span }
    ensures near { unsigned_abs result ≤ 2198001 }
{
    floor_div(span.low + span.high, 2)
}

// An axis with the middle of a span in its middle.
fn axis_over(span: Span, whole: u32) -> Axis
    requires span { IsSpan span }
    requires some { 1 ≤ whole }
    requires near { whole < 2 ^ 24 }
    ensures value { result ≡ axis_over span whole }
    ensures axis { IsAxis result }
{
    Axis {
        low: middle(span) - i64::from(whole / 2),
        whole,
    }
}

fn view_over(extent: Extent) -> View
    requires { IsExtent extent }
    ensures value { result ≡ view_over extent }
    ensures view { IsView result }
{
    let side = side_for(need_of(extent));
    View {
        x: axis_over(extent.x, 4 * side),
        y: axis_over(extent.y, 3 * side),
    }
}

/// What the plan of an encounter shows.
#[tactic(auto, unfolding(crate::specs::Places::view_of))]
pub(crate) fn view_of(encounter: &Encounter) -> View
    ensures value { result ≡ view_of encounter.now }
    ensures view { IsView result }
{
    view_over(extent_of(encounter))
}

// The value at the end of an axis.
fn end_of(axis: Axis) -> i64
    requires { IsAxis axis }
    ensures { result ≡ axis.low +ℤ pos axis.whole }
{
    axis.low + i64::from(axis.whole)
}

/// How far along a length a value stands.
#[tactic(auto, unfolding(crate::specs::Places::placed))]
pub(crate) fn placed(length: u32, axis: Axis, value: i64) -> u32
    requires length { length < 2 ^ 16 }
    requires axis { IsAxis axis }
    requires on { IsOn axis value }
    ensures value { result ≡ placed length axis value }
    ensures within { result ≤ length }
{
    let scale = Scale {
        low: axis.low,
        high: end_of(axis),
        length,
    };
    scale.along(value)
}

/// A law: the plan shows the place of each aircraft in each cycle, with some room to each edge.
pub(crate) fn view_law(encounter: &Encounter)
    ensures { HoldsAll encounter.now }
{
    let _ = encounter;
}
