// Where the names of aircraft stand in the plan.
ghost use Rattle.std.specs.Prelude.{◌≡◌, ◌+◌, ◌<◌, ◌≤◌, length};
ghost use Rattle.plan_panel.specs.Names.{are_near, down_in, has_room, left_in, lies_over, lies_over_either, lies_over_some, name_at, name_left, name_marks, name_y, placed_name};
ghost use Rattle.svg_text.specs.declared.drawing.TheConstants.{LABEL_BYTES};

use crate::chart::Chart;
use acas_text::Line;
use page_marks::{point_at, put_words};
use svg_text::{Anchor, Drawing, Weight};

// ---- beside a place

#[tactic(auto, unfolding(crate::specs::Names::name_y))]
fn name_y(y: u32, own: u8) -> u32
    requires least { 100 ≤ y }
    requires most { y ≤ 50000 }
    ensures value { result ≡ name_y y own }
    ensures most { result ≤ 50260 }
{
    if own % 2 == 0 { y - 100 } else { y + 260 }
}

// Puts a name beside a place.
#[tactic(auto, unfolding(crate::specs::Names::name_marks))]
fn put_name<D: Drawing>(x: u32, y: u32, name: &Line, drawing: &mut D)
    requires x { x ≤ 8000 }
    requires y { y ≤ 50260 }
    requires name { length name.now ≤ LABEL_BYTES }
    ensures { D.drew drawing.old drawing.new (name_marks x y name.now) }
{
    if x <= 7_100 {
        put_words(
            point_at(x + 120, y),
            240,
            Anchor::Start,
            Weight::Regular,
            name,
            drawing,
        );
    } else {
        put_words(
            point_at(x - 120, y),
            240,
            Anchor::End,
            Weight::Regular,
            name,
            drawing,
        );
    }
}

#[tactic(auto, unfolding(crate::specs::Names::name_left))]
fn name_left(x: u32) -> u32
    requires { x ≤ 8000 }
    ensures value { result ≡ name_left x }
    ensures most { result ≤ 8000 }
{
    if x <= 7_100 { x + 120 } else { x - 1_270 }
}

// Where the name begins beside the place of an aircraft in a cycle.
fn left_in(chart: Chart<'_>, own: u8, cycle: u16) -> u32
    requires own { own < length chart.encounter.now.crafts }
    requires first { 1 ≤ cycle }
    requires last { cycle ≤ chart.time.cycles }
    ensures value { result ≡ left_in chart.entry.encounter.now own cycle }
    ensures most { result ≤ 8000 }
{
    name_left(chart.x(own, cycle))
}

// How far down it stands.
fn down_in(chart: Chart<'_>, own: u8, cycle: u16) -> u32
    requires own { own < length chart.encounter.now.crafts }
    requires first { 1 ≤ cycle }
    requires last { cycle ≤ chart.time.cycles }
    ensures value { result ≡ down_in chart.entry.top chart.entry.encounter.now own cycle }
    ensures most { result ≤ 50260 }
{
    name_y(chart.y(own, cycle), own)
}

// ---- names over others

// Whether two numbers are nearer than so much.
fn are_near(room: u32, one: u32, other: u32) -> bool
    requires room { room ≤ 1200 }
    requires one { one ≤ 50260 }
    requires other { other ≤ 50260 }
    ensures { result ≡ are_near room one other }
{
    one < other + room && other < one + room
}

// Whether a name beside a place may lie over another one.
fn lies_over(chart: Chart<'_>, own: u8, cycle: u16, other: u8, moment: u16) -> bool
    requires own { own < length chart.encounter.now.crafts }
    requires other { other < length chart.encounter.now.crafts }
    requires first { 1 ≤ cycle }
    requires last { cycle ≤ chart.time.cycles }
    requires begun { 1 ≤ moment }
    requires in_run { moment ≤ chart.time.cycles }
    ensures { result ≡ lies_over chart.entry.top chart.entry.encounter.now own cycle other moment }
{
    are_near(
        1_200,
        left_in(chart, own, cycle),
        left_in(chart, other, moment),
    ) && are_near(
        260,
        down_in(chart, own, cycle),
        down_in(chart, other, moment),
    )
}

// Whether it may lie over that of another aircraft, at its end or at its start.
fn lies_over_either(chart: Chart<'_>, own: u8, cycle: u16, other: u8) -> bool
    requires own { own < length chart.encounter.now.crafts }
    requires other { other < length chart.encounter.now.crafts }
    requires first { 1 ≤ cycle }
    requires last { cycle ≤ chart.time.cycles }
    ensures { result ≡ lies_over_either chart.entry.top chart.entry.encounter.now own cycle other }
{
    lies_over(chart, own, cycle, other, chart.time.cycles) || lies_over(chart, own, cycle, other, 1)
}

// Whether it may lie over that of an aircraft of lower index.
fn lies_over_some(chart: Chart<'_>, own: u8, cycle: u16) -> bool
    requires own { own < length chart.encounter.now.crafts }
    requires first { 1 ≤ cycle }
    requires last { cycle ≤ chart.time.cycles }
    ensures { result ≡ lies_over_some chart.entry.top chart.entry.encounter.now own cycle own }
{
    let mut over = false;
    for other in 0..own {
        over = over || lies_over_either(chart, own, cycle, other);
    }
    over
}

// Whether there is room beside a place.
fn has_room(chart: Chart<'_>, own: u8, cycle: u16) -> bool
    requires own { own < length chart.encounter.now.crafts }
    requires first { 1 ≤ cycle }
    requires last { cycle ≤ chart.time.cycles }
    ensures { result ≡ has_room chart.entry.top chart.entry.encounter.now own cycle }
{
    !lies_over_some(chart, own, cycle)
}

// ---- the name of an aircraft

fn put_at<D: Drawing>(chart: Chart<'_>, own: u8, cycle: u16, name: &Line, drawing: &mut D)
    requires own { own < length chart.encounter.now.crafts }
    requires first { 1 ≤ cycle }
    requires last { cycle ≤ chart.time.cycles }
    requires name { length name.now ≤ LABEL_BYTES }
    ensures { D.drew drawing.old drawing.new (name_at chart.entry.top chart.entry.encounter.now own cycle name.now) }
{
    put_name(
        chart.x(own, cycle),
        down_in(chart, own, cycle),
        name,
        drawing,
    );
}

/// Puts the name of an aircraft beside its end where there is room, or else beside its start where there is.
#[tactic(auto, unfolding(crate::specs::Names::placed_name))]
pub(crate) fn put_placed<D: Drawing>(chart: Chart<'_>, own: u8, name: &Line, drawing: &mut D)
    requires own { own < length chart.encounter.now.crafts }
    requires name { length name.now ≤ LABEL_BYTES }
    ensures { D.drew drawing.old drawing.new (placed_name chart.entry.top chart.entry.encounter.now own name.now) }
{
    if has_room(chart, own, chart.time.cycles) {
        put_at(chart, own, chart.time.cycles, name, drawing);
    } else if has_room(chart, own, 1) {
        put_at(chart, own, 1, name, drawing);
    }
}
