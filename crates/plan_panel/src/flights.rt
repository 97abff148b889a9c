// The marks of an aircraft in the plan.
ghost use Rattle.std.specs.Prelude.{◌≡◌, ◌+◌, ◌<◌, ◌≤◌, ◌∷◌, [], length, map};
ghost use Rattle.std.specs.List.{flat_map, range_with_len};
ghost use Rattle.acas_text.specs.Hex.{hex};
ghost use Rattle.labels.specs.Labels.{name_of};
ghost use Rattle.plan_panel.specs.Marks.{address_of, dash_of, dot, flight_marks, flight_paint, flight_points, flight_with, flights, line_marks, start_marks, tick_marks, ticks};
ghost use Rattle.plan_panel.specs.Places.{plan_point, x_in, y_in};
ghost use Rattle.svg_text.specs.Marks.{traced};
ghost use Rattle.svg_text.specs.declared.drawing.TheConstants.{LABEL_BYTES};
ghost use Rattle.svg_text.specs.declared.shapes.Outline.TheVariants as outlines;

use crate::chart::Chart;
use crate::names::put_placed;
use crate::texts::{address_text, moment_text};
use acas_base::{Address, Encounter};
use acas_text::Line;
use labels::Labels;
use page_marks::{dashed_paint, ink, line_paint, plain, point_at};
use svg_text::{Dash, Drawing, Outline, Paint, Shape};

/// How the line of an aircraft is broken, by its index: four kinds of lines, in turn.
#[tactic(auto, unfolding(crate::specs::Marks::dash_of))]
pub fn dash_of(own: u8) -> Dash
    ensures { result ≡ dash_of own }
{
    if own % 4 == 0 {
        Dash::Solid
    } else if own % 4 == 1 {
        Dash::Long
    } else if own % 4 == 2 {
        Dash::Sparse
    } else {
        Dash::LongAndDot
    }
}

fn flight_paint(own: u8) -> Paint
    ensures { result ≡ flight_paint own }
{
    dashed_paint(ink(), 30, dash_of(own))
}

fn put_dot<D: Drawing>(x: u32, y: u32, title: &Line, drawing: &mut D)
    requires x { x ≤ 8000 }
    requires y { y ≤ 50000 }
    requires title { length title.now ≤ LABEL_BYTES }
    ensures { D.drew drawing.old drawing.new (dot x y title.now ∷ []) }
{
    let circle = Shape::Circle {
        center: point_at(x, y),
        radius: 50,
    };
    drawing.figure(circle, plain(ink()), title);
}

// Passes through the places of an aircraft.
fn put_points<D: Drawing>(chart: Chart<'_>, own: u8, drawing: &mut D)
    requires own { own < length chart.encounter.now.crafts }
    ensures { D.passed drawing.old drawing.new (flight_points chart.entry.top chart.entry.encounter.now own) }
{
    for cycle in 1..chart.time.cycles + 1 {
        drawing.point(chart.place(own, cycle));
    }
}

// Puts the line through them.
fn put_trace<D: Drawing>(chart: Chart<'_>, own: u8, title: &Line, drawing: &mut D)
    requires own { own < length chart.encounter.now.crafts }
    requires title { length title.now ≤ LABEL_BYTES }
    ensures { D.drew drawing.old drawing.new (traced outlines.Open (flight_points chart.entry.top chart.entry.encounter.now own) (flight_paint own) title.now ∷ []) }
{
    drawing.begin_points(Outline::Open);
    put_points(chart, own, drawing);
    drawing.end_points(Outline::Open, flight_paint(own), title);
}

// Puts the line, or a dot in a run of one cycle.
#[tactic(auto, unfolding(crate::specs::Marks::line_marks))]
fn put_line_of<D: Drawing>(chart: Chart<'_>, own: u8, title: &Line, drawing: &mut D)
    requires own { own < length chart.encounter.now.crafts }
    requires title { length title.now ≤ LABEL_BYTES }
    ensures { D.drew drawing.old drawing.new (line_marks chart.entry.top chart.entry.encounter.now own title.now) }
{
    if chart.time.cycles == 1 {
        put_dot(chart.x(own, 1), chart.y(own, 1), title, drawing);
    } else {
        put_trace(chart, own, title, drawing);
    }
}

// Puts a dot where a tick of the axis of time stands.
#[tactic(auto, unfolding(crate::specs::Marks::tick_marks))]
fn put_tick<D: Drawing>(chart: Chart<'_>, own: u8, address: Address, cycle: u16, drawing: &mut D)
    requires own { own < length chart.encounter.now.crafts }
    requires first { 1 ≤ cycle }
    requires last { cycle ≤ chart.time.cycles }
    ensures { D.drew drawing.old drawing.new (tick_marks chart.entry.top chart.entry.encounter.now chart.entry.time.start own address cycle) }
{
    if chart.time.is_tick(cycle) {
        put_dot(
            chart.x(own, cycle),
            chart.y(own, cycle),
            &moment_text(address, cycle),
            drawing,
        );
    }
}

// Puts the dots of an aircraft.
fn put_ticks<D: Drawing>(chart: Chart<'_>, own: u8, address: Address, drawing: &mut D)
    requires own { own < length chart.encounter.now.crafts }
    ensures { D.drew drawing.old drawing.new (ticks chart.entry.top chart.entry.encounter.now chart.entry.time.start own address) }
{
    for cycle in 1..chart.time.cycles + 1 {
        put_tick(chart, own, address, cycle, drawing);
    }
}

// Puts a circle at its start.
fn put_start<D: Drawing>(x: u32, y: u32, address: Address, drawing: &mut D)
    requires x { x ≤ 8000 }
    requires y { y ≤ 50000 }
    ensures { D.drew drawing.old drawing.new (start_marks x y address) }
{
    let circle = Shape::Circle {
        center: point_at(x, y),
        radius: 80,
    };
    drawing.figure(circle, line_paint(ink(), 25), &moment_text(address, 1));
}

fn put_flight_with<D: Drawing>(
    chart: Chart<'_>,
    own: u8,
    address: Address,
    name: &Line,
    drawing: &mut D,
)
    requires own { own < length chart.encounter.now.crafts }
    requires name { length name.now ≤ LABEL_BYTES }
    ensures { D.drew drawing.old drawing.new (flight_with chart.entry.top chart.entry.encounter.now chart.entry.time.start own address name.now) }
{
    put_line_of(chart, own, &address_text(address), drawing);
    put_ticks(chart, own, address, drawing);
    put_start(chart.x(own, 1), chart.y(own, 1), address, drawing);
    put_placed(chart, own, name, drawing);
}

/// The address of an aircraft.
pub(crate) fn address_of(encounter: &Encounter, own: u8) -> Address
    requires { own < length encounter.now.crafts }
    ensures { result ≡ address_of encounter.now own }
{
    encounter.crafts()[usize::from(own)].address
}

// Puts the marks of an aircraft.
#[tactic(auto, unfolding(crate::specs::Marks::flight_marks))]
fn put_flight<D: Drawing>(chart: Chart<'_>, labels: &Labels<'_>, own: u8, drawing: &mut D)
    requires own { own < length chart.encounter.now.crafts }
    ensures { D.drew drawing.old drawing.new (flight_marks chart.entry.top chart.entry.encounter.now chart.entry.time.start labels.now own) }
{
    let address = address_of(chart.encounter, own);
    put_flight_with(chart, own, address, &labels.name(address), drawing);
}

/// Puts those of all aircraft.
pub(crate) fn put_flights<D: Drawing>(chart: Chart<'_>, labels: &Labels<'_>, drawing: &mut D)
    ensures { D.drew drawing.old drawing.new (flights chart.entry.top chart.entry.encounter.now chart.entry.time.start labels.now) }
{
    chart.encounter.valid_law();
    for own in 0..chart.encounter.crafts().len() {
        put_flight(chart, labels, own as u8, drawing);
    }
}
