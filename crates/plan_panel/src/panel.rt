// The plan as a panel.
ghost use Rattle.std.specs.Prelude.{◌≡◌, ◌+◌, ◌<◌, ◌≤◌, IfSome, length};
ghost use Rattle.plan_panel.specs.Marks.{IsApproach, approach_marks, approach_title, approach_with, between_marks, cross_marks, flown_marks, frame_marks, plan_marks};
ghost use Rattle.plan_panel.specs.Places.{plan_point, x_in, y_in};
ghost use Rattle.svg_text.specs.declared.drawing.TheConstants.{LABEL_BYTES};

use crate::chart::{BOX_HEIGHT, BOX_LEFT, BOX_TOP, BOX_WIDTH, Chart};
use crate::flights::{address_of, put_flights};
use crate::scale_bar::put_bar;
use crate::texts::approach_text;
use crate::view::view_of;
use acas_base::Encounter;
use acas_lines::fixed_line;
use acas_text::Line;
use labels::Labels;
use page_marks::{
    area_at, dashed_paint, ink, line_paint, point_at, put_line, put_words, when_text,
};
use plot_axes::TimeAxis;
use svg_text::{Anchor, Dash, Drawing, Shape, Weight};

/// How much of the page the panel takes below its top.
pub const PLAN_HEIGHT: u32 = 6_600;

/// Two aircraft and the cycle in which they are nearest.
#[derive(Clone, Copy)]
pub struct Approach {
    pub one: u8,
    pub other: u8,
    pub cycle: u16,
}

// Puts the box and the words over it.
fn put_frame<D: Drawing>(top: u32, drawing: &mut D)
    requires { top ≤ 40000 }
    ensures { D.drew drawing.old drawing.new (frame_marks top) }
{
    put_words(
        point_at(BOX_LEFT, top + 350),
        260,
        Anchor::Start,
        Weight::Bold,
        &fixed_line("plan, north up"),
        drawing,
    );
    put_line(
        Shape::Rect(area_at(BOX_LEFT, top + BOX_TOP, BOX_WIDTH, BOX_HEIGHT)),
        ink(),
        drawing,
    );
}

// Puts a cross.
fn put_cross<D: Drawing>(x: u32, y: u32, title: &Line, drawing: &mut D)
    requires left { 800 ≤ x }
    requires right { x ≤ 8000 }
    requires above { 800 ≤ y }
    requires below { y ≤ 50000 }
    requires title { length title.now ≤ LABEL_BYTES }
    ensures { D.drew drawing.old drawing.new (cross_marks x y title.now) }
{
    let falling = Shape::Segment {
        from: point_at(x - 90, y - 90),
        to: point_at(x + 90, y + 90),
    };
    drawing.figure(falling, line_paint(ink(), 30), title);
    let rising = Shape::Segment {
        from: point_at(x - 90, y + 90),
        to: point_at(x + 90, y - 90),
    };
    drawing.figure(rising, line_paint(ink(), 30), title);
}

// Puts the cross of an aircraft of the nearest pair.
fn put_cross_of<D: Drawing>(chart: Chart<'_>, own: u8, cycle: u16, title: &Line, drawing: &mut D)
    requires own { own < length chart.encounter.now.crafts }
    requires first { 1 ≤ cycle }
    requires last { cycle ≤ chart.time.cycles }
    requires title { length title.now ≤ LABEL_BYTES }
    ensures { D.drew drawing.old drawing.new (cross_marks (x_in chart.entry.encounter.now own cycle) (y_in chart.entry.top chart.entry.encounter.now own cycle) title.now) }
{
    put_cross(chart.x(own, cycle), chart.y(own, cycle), title, drawing);
}

// Puts a dotted line between its aircraft.
fn put_between<D: Drawing>(chart: Chart<'_>, it: Approach, title: &Line, drawing: &mut D)
    requires it { IsApproach chart.encounter.now it }
    requires title { length title.now ≤ LABEL_BYTES }
    ensures { D.drew drawing.old drawing.new (between_marks (plan_point chart.entry.top chart.entry.encounter.now it.one it.cycle) (plan_point chart.entry.top chart.entry.encounter.now it.other it.cycle) title.now) }
{
    let line = Shape::Segment {
        from: chart.place(it.one, it.cycle),
        to: chart.place(it.other, it.cycle),
    };
    drawing.figure(line, dashed_paint(ink(), 20, Dash::Dotted), title);
}

fn put_approach_with<D: Drawing>(chart: Chart<'_>, it: Approach, title: &Line, drawing: &mut D)
    requires it { IsApproach chart.encounter.now it }
    requires title { length title.now ≤ LABEL_BYTES }
    ensures { D.drew drawing.old drawing.new (approach_with chart.entry.top chart.entry.encounter.now it title.now) }
{
    put_cross_of(chart, it.one, it.cycle, title, drawing);
    put_cross_of(chart, it.other, it.cycle, title, drawing);
    put_between(chart, it, title, drawing);
}

// Where two aircraft are nearest, in words.
fn title_of(encounter: &Encounter, time: TimeAxis, it: Approach) -> Line
    requires it { IsApproach encounter.now it }
    requires time { time.cycles ≡ encounter.now.cycles }
    ensures text { result ≡ approach_title encounter.now time.start it }
    ensures short { length result ≤ LABEL_BYTES }
{
    approach_text(
        address_of(encounter, it.one),
        address_of(encounter, it.other),
        &when_text(time, it.cycle),
    )
}

// Puts the closest approach, where there is one.
#[tactic(auto, unfolding(crate::specs::Marks::approach_marks))]
fn put_approach<D: Drawing>(chart: Chart<'_>, nearest: Option<Approach>, drawing: &mut D)
    requires { IfSome nearest (IsApproach chart.encounter.now) }
    ensures { D.drew drawing.old drawing.new (approach_marks chart.entry.top chart.entry.encounter.now chart.entry.time.start nearest) }
{
    match nearest {
        None => {}
        Some(it) => {
            let title = title_of(chart.encounter, chart.time, it);
            put_approach_with(chart, it, &title, drawing);
        }
    }
}

/// Draws the plan from `top` downward, over [`PLAN_HEIGHT`]: a line through the places of each aircraft as planned, a
/// circle at its start, dots at the ticks of the axis of time, and its name at its end; where the nearest aircraft are
/// in the cycle of their closest approach, if given; and a scale.
#[tactic(auto, unfolding(crate::specs::Marks::plan_marks))]
pub fn put_plan<D: Drawing>(
    top: u32,
    encounter: &Encounter,
    time: TimeAxis,
    labels: &Labels<'_>,
    nearest: Option<Approach>,
    drawing: &mut D,
)
    requires top { top ≤ 40000 }
    requires time { time.cycles ≡ encounter.now.cycles }
    requires nearest { IfSome nearest (IsApproach encounter.now) }
    ensures { D.drew drawing.old drawing.new (plan_marks top encounter.now time.start labels.now nearest) }
{
    let chart = Chart {
        encounter,
        view: view_of(encounter),
        time,
        top,
    };
    put_frame(top, drawing);
    put_bar(top, chart.view.x.whole, drawing);
    put_flights(chart, labels, drawing);
    put_approach(chart, nearest, drawing);
}
