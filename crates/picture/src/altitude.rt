// The altitude of each aircraft against time.
ghost use Rattle.std.specs.Prelude.{◌≡◌, ◌∷◌, [], ◌<◌, ◌≤◌, length, map, unsigned_abs};
ghost use Rattle.std.specs.List.{range_with_len};
ghost use Rattle.acas_base.specs.Ranges.{IsCycle};
ghost use Rattle.acas_text.specs.Hex.{hex};
ghost use Rattle.air_journal.specs.Airs.{address_of};
ghost use Rattle.picture.specs.Altitude.{altitude_marks, altitude_with, axis_marks, course_line, course_marks, course_paint, course_point, course_points, course_y, courses, height_text, name_x, named_course};
ghost use Rattle.picture.specs.Heights.{HoldsModelled, HoldsPlanned, axis_of};
ghost use Rattle.svg_text.specs.Marks.{traced};
ghost use Rattle.svg_text.specs.declared.drawing.TheConstants.{LABEL_BYTES};
ghost use Rattle.svg_text.specs.declared.shapes.Outline.TheVariants as outlines;

use crate::heights::{altitude_y, axis_law, axis_of, height_in};
use crate::lanes::address_text;
use crate::layout::course_area;
use crate::modelled::put_modelled;
use crate::span::Span;
use acas_base::{Address, Encounter};
use acas_text::Line;
use air_journal::AirState;
use labels::Labels;
use page_marks::{ink, point_at, put_dot, put_line, put_words};
use plan_panel::dash_of;
use plot_axes::TimeAxis;
use svg_text::{Anchor, Drawing, Fill, Outline, Paint, Point, Shape, Stroke, Weight};

/// How far down an aircraft stands in a cycle.
#[tactic(auto, unfolding(crate::specs::Altitude::course_y))]
pub(crate) fn course_y(encounter: &Encounter, axis: Span, own: u8, cycle: u16) -> u32
    requires holds { HoldsPlanned axis encounter.now }
    requires low { unsigned_abs axis.low ≤ 1068 }
    requires high { unsigned_abs axis.high ≤ 1068 }
    requires own { own < length encounter.now.crafts }
    requires first { 1 ≤ cycle }
    requires last { cycle ≤ encounter.now.cycles }
    ensures value { result ≡ course_y axis encounter.now own cycle }
    ensures least { 1500 ≤ result }
    ensures most { result ≤ 4700 }
{
    encounter.valid_law();
    altitude_y(axis, height_in(encounter, own, cycle))
}

/// Where it stands.
#[tactic(auto, unfolding(crate::specs::Altitude::course_point))]
pub(crate) fn course_point(
    encounter: &Encounter,
    axis: Span,
    time: TimeAxis,
    own: u8,
    cycle: u16,
) -> Point
    requires holds { HoldsPlanned axis encounter.now }
    requires low { unsigned_abs axis.low ≤ 1068 }
    requires high { unsigned_abs axis.high ≤ 1068 }
    requires time { time.cycles ≡ encounter.now.cycles }
    requires own { own < length encounter.now.crafts }
    requires first { 1 ≤ cycle }
    requires last { cycle ≤ encounter.now.cycles }
    ensures { result ≡ course_point axis encounter.now own cycle }
{
    point_at(time.begin(cycle), course_y(encounter, axis, own, cycle))
}

// Passes through the points of an aircraft.
fn put_points<D: Drawing>(
    encounter: &Encounter,
    axis: Span,
    time: TimeAxis,
    own: u8,
    drawing: &mut D,
)
    requires holds { HoldsPlanned axis encounter.now }
    requires low { unsigned_abs axis.low ≤ 1068 }
    requires high { unsigned_abs axis.high ≤ 1068 }
    requires time { time.cycles ≡ encounter.now.cycles }
    requires own { own < length encounter.now.crafts }
    ensures { D.passed drawing.old drawing.new (course_points axis encounter.now own) }
{
    for cycle in 1..time.cycles + 1 {
        drawing.point(course_point(encounter, axis, time, own, cycle));
    }
}

fn course_paint(own: u8) -> Paint
    ensures { result ≡ course_paint own }
{
    Paint {
        fill: Fill::Nothing,
        stroke: Some(Stroke {
            color: ink(),
            width: 30,
            dash: dash_of(own),
        }),
    }
}

#[tactic(auto, unfolding(crate::specs::Altitude::name_x))]
fn name_x(own: u8) -> u32
    ensures value { result ≡ name_x own }
    ensures most { result ≤ 18950 }
{
    if own % 2 == 0 { 17_900 } else { 18_950 }
}

// Puts the line through the points of an aircraft.
fn put_trace<D: Drawing>(
    encounter: &Encounter,
    axis: Span,
    time: TimeAxis,
    own: u8,
    title: &Line,
    drawing: &mut D,
)
    requires holds { HoldsPlanned axis encounter.now }
    requires low { unsigned_abs axis.low ≤ 1068 }
    requires high { unsigned_abs axis.high ≤ 1068 }
    requires time { time.cycles ≡ encounter.now.cycles }
    requires own { own < length encounter.now.crafts }
    requires title { length title.now ≤ LABEL_BYTES }
    ensures { D.drew drawing.old drawing.new (traced outlines.Open (course_points axis encounter.now own) (course_paint own) title.now ∷ []) }
{
    drawing.begin_points(Outline::Open);
    put_points(encounter, axis, time, own, drawing);
    drawing.end_points(Outline::Open, course_paint(own), title);
}

// Puts that line, or a dot.
#[tactic(auto, unfolding(crate::specs::Altitude::course_line))]
fn put_line_of<D: Drawing>(
    encounter: &Encounter,
    axis: Span,
    time: TimeAxis,
    own: u8,
    title: &Line,
    drawing: &mut D,
)
    requires holds { HoldsPlanned axis encounter.now }
    requires low { unsigned_abs axis.low ≤ 1068 }
    requires high { unsigned_abs axis.high ≤ 1068 }
    requires time { time.cycles ≡ encounter.now.cycles }
    requires own { own < length encounter.now.crafts }
    requires title { length title.now ≤ LABEL_BYTES }
    ensures { D.drew drawing.old drawing.new (course_line axis encounter.now own title.now) }
{
    if time.cycles == 1 {
        let point = course_point(encounter, axis, time, own, 1);
        put_dot(ink(), point, title, drawing);
    } else {
        put_trace(encounter, axis, time, own, title, drawing);
    }
}

/// The address of an aircraft.
pub(crate) fn address_of(encounter: &Encounter, own: u8) -> Address
    requires { own < length encounter.now.crafts }
    ensures { result ≡ address_of encounter.now own }
{
    encounter.crafts()[usize::from(own)].address
}

// Puts the line of an aircraft, and what it is called.
fn put_named<D: Drawing>(
    encounter: &Encounter,
    axis: Span,
    time: TimeAxis,
    own: u8,
    address: Address,
    name: &Line,
    drawing: &mut D,
)
    requires holds { HoldsPlanned axis encounter.now }
    requires low { unsigned_abs axis.low ≤ 1068 }
    requires high { unsigned_abs axis.high ≤ 1068 }
    requires time { time.cycles ≡ encounter.now.cycles }
    requires own { own < length encounter.now.crafts }
    requires name { length name.now ≤ LABEL_BYTES }
    ensures { D.drew drawing.old drawing.new (named_course axis encounter.now own address name.now) }
{
    encounter.valid_law();
    put_line_of(encounter, axis, time, own, &address_text(address), drawing);
    put_words(
        point_at(
            name_x(own),
            course_y(encounter, axis, own, time.cycles) + 80,
        ),
        240,
        Anchor::Start,
        Weight::Regular,
        name,
        drawing,
    );
}

#[tactic(auto, unfolding(crate::specs::Altitude::course_marks))]
fn put_course<D: Drawing>(
    labels: &Labels<'_>,
    encounter: &Encounter,
    axis: Span,
    time: TimeAxis,
    own: u8,
    drawing: &mut D,
)
    requires holds { HoldsPlanned axis encounter.now }
    requires low { unsigned_abs axis.low ≤ 1068 }
    requires high { unsigned_abs axis.high ≤ 1068 }
    requires time { time.cycles ≡ encounter.now.cycles }
    requires own { own < length encounter.now.crafts }
    ensures { D.drew drawing.old drawing.new (course_marks axis labels.now encounter.now own) }
{
    let address = address_of(encounter, own);
    let name = labels.name(address);
    put_named(encounter, axis, time, own, address, &name, drawing);
}

// Puts those of all aircraft.
fn put_courses<D: Drawing>(
    labels: &Labels<'_>,
    encounter: &Encounter,
    axis: Span,
    time: TimeAxis,
    drawing: &mut D,
)
    requires holds { HoldsPlanned axis encounter.now }
    requires low { unsigned_abs axis.low ≤ 1068 }
    requires high { unsigned_abs axis.high ≤ 1068 }
    requires time { time.cycles ≡ encounter.now.cycles }
    ensures { D.drew drawing.old drawing.new (courses axis labels.now encounter.now) }
{
    encounter.valid_law();
    for own in 0..encounter.crafts().len() {
        put_course(labels, encounter, axis, time, own as u8, drawing);
    }
}

// An end of the axis, in ft.
#[tactic(auto, unfolding(crate::specs::Altitude::height_text))]
fn height_text(step: i64) -> Line
    requires { unsigned_abs step ≤ 1068 }
    ensures text { result ≡ height_text step }
    ensures short { length result ≤ LABEL_BYTES }
{
    let mut line = Line::new();
    line.i32((step * 500) as i32);
    line.text(" ft");
    line
}

// Puts the box and the ends of the axis.
fn put_axis<D: Drawing>(axis: Span, drawing: &mut D)
    requires low { unsigned_abs axis.low ≤ 1068 }
    requires high { unsigned_abs axis.high ≤ 1068 }
    ensures { D.drew drawing.old drawing.new (axis_marks axis) }
{
    put_line(Shape::Rect(course_area()), ink(), drawing);
    put_words(
        point_at(1_880, 1_720),
        260,
        Anchor::End,
        Weight::Regular,
        &height_text(axis.high),
        drawing,
    );
    put_words(
        point_at(1_880, 4_700),
        260,
        Anchor::End,
        Weight::Regular,
        &height_text(axis.low),
        drawing,
    );
}

// Puts them by this axis.
fn put_altitude_with<D: Drawing>(
    labels: &Labels<'_>,
    state: &AirState,
    axis: Span,
    time: TimeAxis,
    drawing: &mut D,
)
    requires low { unsigned_abs axis.low ≤ 1068 }
    requires high { unsigned_abs axis.high ≤ 1068 }
    requires planned { HoldsPlanned axis state.now.encounter }
    requires modelled { length state.now.encounter.crafts ≤ 8 → HoldsModelled axis state.now.encounter state.now.journal }
    requires time { time.cycles ≡ state.now.encounter.cycles }
    ensures { D.drew drawing.old drawing.new (altitude_with axis labels.now state.now.encounter state.now.journal) }
{
    put_axis(axis, drawing);
    put_modelled(state, axis, time, drawing);
    put_courses(labels, state.enc(), axis, time, drawing);
}

/// Puts the altitudes, and under their lines the flights with the modelled response.
pub(crate) fn put_altitude<D: Drawing>(
    labels: &Labels<'_>,
    state: &AirState,
    time: TimeAxis,
    drawing: &mut D,
)
    requires { time.cycles ≡ state.now.encounter.cycles }
    ensures { D.drew drawing.old drawing.new (altitude_marks labels.now state.now.encounter state.now.journal) }
{
    axis_law(state);
    put_altitude_with(labels, state, axis_of(state), time, drawing);
}
