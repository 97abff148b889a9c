// A panel with a distance of two aircraft against time.
ghost use Rattle.std.specs.Prelude.{◌≡◌, ◌+◌, ◌*◌, ◌<◌, ◌≤◌, ◌^◌, ◌∷◌, [], length, map};
ghost use Rattle.std.specs.List.{flat_map, range_with_len};
ghost use Rattle.acas_base.specs.Ranges.{IsCycle};
ghost use Rattle.flight.specs.Inside.{IsInside};
ghost use Rattle.page_marks.specs.Places.{point_at};
ghost use Rattle.pair_panels.specs.Distances.{IsAxis, aim_of, distance_in, end_of, ticks_of};
ghost use Rattle.pair_panels.specs.Nearest.{IsPair};
ghost use Rattle.pair_panels.specs.Panel.{address_of, aim_at, aim_marks, called, closest_marks, closest_of, curve, distance_marks, heading_of, line_mark, panel_height, plot_bottom, plot_marks, tick_place, tick_text, value_point, value_tick, value_ticks, value_y};
ghost use Rattle.svg_text.specs.declared.drawing.TheConstants.{LABEL_BYTES};

use crate::distance::{Distance, aim_of, axis_law, distance_in, ticks_of};
use crate::nearest::NearPair;
use crate::texts::{aim_text, closest_text, heading_text, tick_text};
use crate::ticks::Ticks;
use acas_base::{Address, Encounter};
use acas_text::Line;
use labels::Labels;
use page_marks::{
    TickPlace, dashed_paint, ink, line_paint, point_at, put_dot, put_frame, put_time_ticks,
    put_value_tick, put_words, when_text,
};
use plot_axes::{Scale, TimeAxis};
use svg_text::{Anchor, Dash, Drawing, Outline, Point, Shape, Weight};

/// How much of the page a panel takes below its top.
pub const PANEL_HEIGHT: u32 = 3_400;

// How high the box is.
const PLOT_HEIGHT: u32 = 2_300;

// Where the box begins, below the top of the panel.
const PLOT_TOP: u32 = 500;

// Where it ends.
const PLOT_BOTTOM: u32 = 2_800;

// How far down a distance stands.
#[tactic(auto, unfolding(crate::specs::Panel::value_y))]
fn value_y(top: u32, ticks: Ticks, value: u32) -> u32
    requires top { top ≤ 40000 }
    requires axis { IsAxis ticks }
    requires on { value ≤ end_of ticks }
    ensures value { result ≡ value_y top ticks value }
    ensures most { result ≤ plot_bottom top }
{
    let scale = Scale {
        low: 0,
        high: i64::from(ticks.count * ticks.step),
        length: PLOT_HEIGHT,
    };
    top + PLOT_BOTTOM - scale.along(i64::from(value))
}

// The distance of a tick.
fn tick_value(ticks: Ticks, number: u32) -> u32
    requires axis { IsAxis ticks }
    requires number { number ≤ ticks.count }
    ensures value { result ≡ number * ticks.step }
    ensures on { result ≤ end_of ticks }
{
    number * ticks.step
}

// Puts the tick with a number.
#[tactic(auto, unfolding(crate::specs::Panel::value_tick))]
fn put_tick<D: Drawing>(top: u32, distance: Distance, ticks: Ticks, number: u32, drawing: &mut D)
    requires top { top ≤ 40000 }
    requires axis { IsAxis ticks }
    requires number { number ≤ ticks.count }
    ensures { D.drew drawing.old drawing.new (value_tick top distance ticks number) }
{
    let value = tick_value(ticks, number);
    put_value_tick(
        value_y(top, ticks, value),
        &tick_text(distance, value),
        drawing,
    );
}

// Puts the ticks of distances.
fn put_value_ticks<D: Drawing>(top: u32, distance: Distance, ticks: Ticks, drawing: &mut D)
    requires top { top ≤ 40000 }
    requires axis { IsAxis ticks }
    ensures { D.drew drawing.old drawing.new (value_ticks top distance ticks) }
{
    for number in 0..ticks.count + 1 {
        put_tick(top, distance, ticks, number, drawing);
    }
}

// Where the ticks of time stand.
fn tick_place(top: u32) -> TickPlace
    requires { top ≤ 40000 }
    ensures { result ≡ tick_place top }
{
    TickPlace {
        top: top + PLOT_TOP,
        bottom: top + PLOT_BOTTOM,
        label: top + PLOT_BOTTOM + 300,
        size: 240,
    }
}

// The place of the distance in a cycle.
#[tactic(auto, unfolding(crate::specs::Panel::value_point))]
fn value_point(
    top: u32,
    encounter: &Encounter,
    distance: Distance,
    pair: NearPair,
    ticks: Ticks,
    time: TimeAxis,
    cycle: u16,
) -> Point
    requires top { top ≤ 40000 }
    requires pair { IsPair encounter.now pair }
    requires axis { IsAxis ticks }
    requires ticks { ticks ≡ ticks_of encounter.now distance pair }
    requires time { time.cycles ≡ encounter.now.cycles }
    requires first { 1 ≤ cycle }
    requires last { cycle ≤ encounter.now.cycles }
    ensures { result ≡ value_point top encounter.now distance pair ticks cycle }
{
    axis_law(encounter, distance, pair);
    let value = distance_in(encounter, distance, pair, cycle);
    point_at(time.begin(cycle), value_y(top, ticks, value))
}

// Passes through the distances of all cycles.
fn put_points<D: Drawing>(
    top: u32,
    encounter: &Encounter,
    distance: Distance,
    pair: NearPair,
    ticks: Ticks,
    time: TimeAxis,
    drawing: &mut D,
)
    requires top { top ≤ 40000 }
    requires pair { IsPair encounter.now pair }
    requires axis { IsAxis ticks }
    requires ticks { ticks ≡ ticks_of encounter.now distance pair }
    requires time { time.cycles ≡ encounter.now.cycles }
    ensures { D.passed drawing.old drawing.new (map (value_point top encounter.now distance pair ticks) (range_with_len 1 encounter.now.cycles)) }
{
    for cycle in 1..time.cycles + 1 {
        drawing.point(value_point(top, encounter, distance, pair, ticks, time, cycle));
    }
}

// Puts the line through them.
fn put_line_through<D: Drawing>(
    top: u32,
    encounter: &Encounter,
    distance: Distance,
    pair: NearPair,
    ticks: Ticks,
    time: TimeAxis,
    title: &Line,
    drawing: &mut D,
)
    requires top { top ≤ 40000 }
    requires pair { IsPair encounter.now pair }
    requires axis { IsAxis ticks }
    requires ticks { ticks ≡ ticks_of encounter.now distance pair }
    requires time { time.cycles ≡ encounter.now.cycles }
    requires title { length title.now ≤ LABEL_BYTES }
    ensures { D.drew drawing.old drawing.new (line_mark top encounter.now distance pair ticks title.now ∷ []) }
{
    drawing.begin_points(Outline::Open);
    put_points(top, encounter, distance, pair, ticks, time, drawing);
    drawing.end_points(Outline::Open, line_paint(ink(), 30), title);
}

// Puts it, or a dot where there is one cycle alone.
#[tactic(auto, unfolding(crate::specs::Panel::curve))]
fn put_curve<D: Drawing>(
    top: u32,
    encounter: &Encounter,
    distance: Distance,
    pair: NearPair,
    ticks: Ticks,
    time: TimeAxis,
    title: &Line,
    drawing: &mut D,
)
    requires top { top ≤ 40000 }
    requires pair { IsPair encounter.now pair }
    requires axis { IsAxis ticks }
    requires ticks { ticks ≡ ticks_of encounter.now distance pair }
    requires time { time.cycles ≡ encounter.now.cycles }
    requires title { length title.now ≤ LABEL_BYTES }
    ensures { D.drew drawing.old drawing.new (curve top encounter.now distance pair ticks title.now ∷ []) }
{
    if encounter.cycles() == 1 {
        let point = value_point(top, encounter, distance, pair, ticks, time, 1);
        put_dot(ink(), point, title, drawing);
    } else {
        put_line_through(top, encounter, distance, pair, ticks, time, title, drawing);
    }
}

// Puts a line of dashes and its words.
fn put_aim_at<D: Drawing>(y: u32, words: &Line, drawing: &mut D)
    requires y { y ≤ 50000 }
    requires words { length words.now ≤ LABEL_BYTES }
    ensures { D.drew drawing.old drawing.new (aim_at y words.now) }
{
    let line = Shape::Segment {
        from: point_at(2_000, y),
        to: point_at(17_800, y),
    };
    drawing.figure(line, dashed_paint(ink(), 20, Dash::Long), words);
    put_words(
        point_at(17_900, y + 80),
        240,
        Anchor::Start,
        Weight::Regular,
        words,
        drawing,
    );
}

// Puts what the distance is held against, where there is something.
#[tactic(auto, unfolding(crate::specs::Panel::aim_marks))]
fn put_aim<D: Drawing>(top: u32, ticks: Ticks, aim: u32, drawing: &mut D)
    requires top { top ≤ 40000 }
    requires axis { IsAxis ticks }
    requires on { aim ≤ end_of ticks }
    ensures { D.drew drawing.old drawing.new (aim_marks top ticks aim) }
{
    if aim > 0 {
        put_aim_at(value_y(top, ticks, aim), &aim_text(aim), drawing);
    }
}

// Puts the cycle in which they are nearest, and the distance in it.
fn put_closest<D: Drawing>(top: u32, x: u32, y: u32, title: &Line, drawing: &mut D)
    requires top { top ≤ 40000 }
    requires x { x < 2 ^ 16 }
    requires y { y < 2 ^ 16 }
    requires title { length title.now ≤ LABEL_BYTES }
    ensures { D.drew drawing.old drawing.new (closest_marks top x y title.now) }
{
    let line = Shape::Segment {
        from: point_at(x, top + PLOT_TOP),
        to: point_at(x, top + PLOT_BOTTOM),
    };
    drawing.figure(line, dashed_paint(ink(), 15, Dash::Dotted), title);
    let circle = Shape::Circle {
        center: point_at(x, y),
        radius: 80,
    };
    drawing.figure(circle, line_paint(ink(), 25), title);
}

// The address of an aircraft.
fn address_of(encounter: &Encounter, index: u8) -> Address
    requires { index < length encounter.now.crafts }
    ensures { result ≡ address_of encounter.now index }
{
    encounter.crafts()[usize::from(index)].address
}

/// What an aircraft is called.
pub(crate) fn called(encounter: &Encounter, labels: &Labels<'_>, index: u8) -> Line
    requires { index < length encounter.now.crafts }
    ensures text { result ≡ called encounter.now labels.now index }
    ensures short { length result ≤ 8 }
{
    labels.name(address_of(encounter, index))
}

fn heading_of(
    encounter: &Encounter,
    labels: &Labels<'_>,
    distance: Distance,
    pair: NearPair,
) -> Line
    requires { IsPair encounter.now pair }
    ensures text { result ≡ heading_of encounter.now labels.now distance pair }
    ensures short { length result ≤ LABEL_BYTES }
{
    heading_text(
        &called(encounter, labels, pair.one),
        &called(encounter, labels, pair.other),
        distance,
    )
}

// Puts the marks that say what is plotted, over the grid.
fn put_plot<D: Drawing>(
    top: u32,
    encounter: &Encounter,
    labels: &Labels<'_>,
    distance: Distance,
    pair: NearPair,
    ticks: Ticks,
    time: TimeAxis,
    drawing: &mut D,
)
    requires top { top ≤ 40000 }
    requires pair { IsPair encounter.now pair }
    requires inside { IsInside encounter.now }
    requires axis { IsAxis ticks }
    requires ticks { ticks ≡ ticks_of encounter.now distance pair }
    requires time { time.cycles ≡ encounter.now.cycles }
    requires start { time.start ≡ labels.now.start }
    ensures { D.drew drawing.old drawing.new (plot_marks top encounter.now labels.now distance pair ticks) }
{
    encounter.valid_law();
    axis_law(encounter, distance, pair);
    let heading = heading_of(encounter, labels, distance, pair);
    let value = distance_in(encounter, distance, pair, pair.cycle);
    let closest = closest_text(distance, &when_text(time, pair.cycle), value);
    let x = time.begin(pair.cycle);
    put_value_ticks(top, distance, ticks, drawing);
    put_time_ticks(time, tick_place(top), drawing);
    put_frame(top, PLOT_HEIGHT, &heading, &closest, drawing);
    put_aim(top, ticks, aim_of(encounter, distance, pair), drawing);
    put_closest(top, x, value_y(top, ticks, value), &closest, drawing);
    put_curve(
        top, encounter, distance, pair, ticks, time, &heading, drawing,
    );
}

/// Draws a distance of a pair against time, from `top` downward, over [`PANEL_HEIGHT`]: a line through the distances of
/// all cycles, and the closest approach as a circle and a dotted line. In a run of one cycle the line is a dot. With
/// the vertical distance stands ALIM, by the level of the first aircraft at the closest approach, where there is one.
/// The heading calls the aircraft as the labels do, and the axis of time has the labels' clock.
#[tactic(auto, unfolding(crate::specs::Panel::distance_marks))]
pub fn put_distance<D: Drawing>(
    top: u32,
    encounter: &Encounter,
    labels: &Labels<'_>,
    distance: Distance,
    pair: NearPair,
    time: TimeAxis,
    drawing: &mut D,
)
    requires top { top ≤ 40000 }
    requires pair { IsPair encounter.now pair }
    requires inside { IsInside encounter.now }
    requires time { time.cycles ≡ encounter.now.cycles }
    requires start { time.start ≡ labels.now.start }
    ensures { D.drew drawing.old drawing.new (distance_marks top encounter.now labels.now distance pair) }
{
    let ticks = ticks_of(encounter, distance, pair);
    put_plot(top, encounter, labels, distance, pair, ticks, time, drawing);
}
