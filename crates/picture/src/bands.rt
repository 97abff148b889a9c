// Bands of advice at the lines of the altitudes.
ghost use Rattle.std.specs.Prelude.{◌≡◌, ◌≤◌, ◌∷◌, ◌++◌, [], length, unsigned_abs};
ghost use Rattle.std.specs.List.{flat_map};
ghost use Rattle.equal_rows.specs.Rows.{rows_at};
ghost use Rattle.picture.specs.Bands.{above_band, band, band_depth, band_of_row, bands_marks, bands_of, bands_with, below_band, both_bands, craft_bands, far_edge, has_line, last_area, last_stripe, near_edge, reach_end, row_band, sided_band, stripe, stripe_paint};
ghost use Rattle.picture.specs.Heights.{HoldsPlanned, axis_of};
ghost use Rattle.picture.specs.Shown.{goes_on, is_shown};
ghost use Rattle.svg_text.specs.declared.drawing.TheConstants.{LABEL_BYTES};
ghost use Rattle.svg_text.specs.Marks.{figure, traced};
ghost use Rattle.svg_text.specs.declared.shapes.Outline.TheVariants as outlines;
ghost use Rattle.svg_text.specs.declared.shapes.Shape.TheVariants as shapes;

use crate::altitude::address_of;
use crate::bars::{advised, bar_title};
use crate::course::Course;
use crate::heights::{axis_law, axis_of};
use crate::onsets::put_onset;
use crate::shown::{begins, last_from, shown_in};
use crate::side::Side;
use crate::span::Span;
use acas_base::Address;
use acas_text::Line;
use advisory_report::Composite;
use air_journal::AirState;
use equal_rows::Row;
use page_marks::{
    Advised, amber, area_at, blue, hatched, line_paint, plain, point_at, purple, vermilion,
};
use plot_axes::TimeAxis;
use svg_text::{Area, Drawing, Outline, Paint, Shape};

// ---- where a band lies

// The last cycle of the line that a band reaches.
fn reach_end(course: Course<'_>, row: Row) -> u16
    requires last { row.last ≤ course.time.cycles }
    ensures value { result ≡ reach_end course.entry.encounter.now.cycles row }
    ensures least { row.last ≤ result }
    ensures most { result ≤ course.entry.time.cycles }
{
    if row.last < course.time.cycles {
        row.last + 1
    } else {
        course.time.cycles
    }
}

// Whether a band has more than one point of the line.
fn has_line(course: Course<'_>, row: Row) -> bool
    ensures { result ≡ has_line course.entry.encounter.now.cycles row }
{
    row.first < course.time.cycles
}

// Passes through the points of the line.
fn put_near<D: Drawing>(course: Course<'_>, row: Row, drawing: &mut D)
    requires first { 1 ≤ row.first }
    requires order { row.first ≤ row.last }
    requires last { row.last ≤ course.time.cycles }
    ensures { D.passed drawing.old drawing.new (near_edge course.entry.axis course.entry.encounter.now course.entry.own row) }
{
    let end = reach_end(course, row);
    for step in 0..end + 1 - row.first {
        drawing.point(course.place(row.first + step));
    }
}

// Passes through the points above it or below it, from the last one back.
fn put_far<D: Drawing>(course: Course<'_>, row: Row, side: Side, depth: u32, drawing: &mut D)
    requires first { 1 ≤ row.first }
    requires order { row.first ≤ row.last }
    requires last { row.last ≤ course.time.cycles }
    requires depth { depth ≤ 150 }
    ensures { D.passed drawing.old drawing.new (far_edge course.entry.axis course.entry.encounter.now course.entry.own side depth row) }
{
    let end = reach_end(course, row);
    for back in 0..end + 1 - row.first {
        drawing.point(course.beside(side, depth, end - back));
    }
}

// The box of a band in the last cycle.
#[tactic(auto, unfolding(crate::specs::Bands::last_area))]
fn last_area(course: Course<'_>, side: Side, depth: u32) -> Area
    requires { depth ≤ 150 }
    ensures { result ≡ last_area course.entry.axis course.entry.encounter.now course.entry.own side depth }
{
    let cycle = course.time.cycles;
    let x = course.begin(cycle);
    let y = course.y(cycle);
    let top = match side {
        Side::Above => y - depth,
        Side::Below => y,
    };
    area_at(x, top, course.time.middle(cycle) - x, depth)
}

// The stripe of traffic in the last cycle.
#[tactic(auto, unfolding(crate::specs::Bands::last_stripe))]
fn last_stripe(course: Course<'_>) -> Shape
    ensures { result ≡ last_stripe course.entry.axis course.entry.encounter.now course.entry.own }
{
    let cycle = course.time.cycles;
    Shape::Segment {
        from: course.place(cycle),
        to: point_at(course.time.middle(cycle), course.y(cycle)),
    }
}

// ---- its marks

// Puts a band along points of the line.
fn put_along<D: Drawing>(
    course: Course<'_>,
    row: Row,
    title: &Line,
    side: Side,
    depth: u32,
    paint: Paint,
    drawing: &mut D,
)
    requires first { 1 ≤ row.first }
    requires order { row.first ≤ row.last }
    requires last { row.last ≤ course.time.cycles }
    requires depth { depth ≤ 150 }
    requires title { length title.now ≤ LABEL_BYTES }
    ensures { D.drew drawing.old drawing.new (traced outlines.Closed (near_edge course.entry.axis course.entry.encounter.now course.entry.own row ++ far_edge course.entry.axis course.entry.encounter.now course.entry.own side depth row) paint title.now ∷ []) }
{
    drawing.begin_points(Outline::Closed);
    put_near(course, row, drawing);
    put_far(course, row, side, depth, drawing);
    drawing.end_points(Outline::Closed, paint, title);
}

// Puts a band in the last cycle.
fn put_last<D: Drawing>(
    course: Course<'_>,
    title: &Line,
    side: Side,
    depth: u32,
    paint: Paint,
    drawing: &mut D,
)
    requires depth { depth ≤ 150 }
    requires title { length title.now ≤ LABEL_BYTES }
    ensures { D.drew drawing.old drawing.new (figure (shapes.Rect (last_area course.entry.axis course.entry.encounter.now course.entry.own side depth)) paint title.now ∷ []) }
{
    drawing.figure(Shape::Rect(last_area(course, side, depth)), paint, title);
}

#[tactic(auto, unfolding(crate::specs::Bands::band))]
fn put_band<D: Drawing>(
    course: Course<'_>,
    row: Row,
    title: &Line,
    side: Side,
    depth: u32,
    paint: Paint,
    drawing: &mut D,
)
    requires first { 1 ≤ row.first }
    requires order { row.first ≤ row.last }
    requires last { row.last ≤ course.time.cycles }
    requires depth { depth ≤ 150 }
    requires title { length title.now ≤ LABEL_BYTES }
    ensures { D.drew drawing.old drawing.new (band course.entry.axis course.entry.encounter.now course.entry.own row title.now side depth paint) }
{
    if has_line(course, row) {
        put_along(course, row, title, side, depth, paint, drawing);
    } else {
        put_last(course, title, side, depth, paint, drawing);
    }
}

fn stripe_paint() -> Paint
    ensures { result ≡ stripe_paint }
{
    line_paint(amber(), 120)
}

// Puts a stripe along points of the line.
fn put_stripe_along<D: Drawing>(course: Course<'_>, row: Row, title: &Line, drawing: &mut D)
    requires first { 1 ≤ row.first }
    requires order { row.first ≤ row.last }
    requires last { row.last ≤ course.time.cycles }
    requires title { length title.now ≤ LABEL_BYTES }
    ensures { D.drew drawing.old drawing.new (traced outlines.Open (near_edge course.entry.axis course.entry.encounter.now course.entry.own row) stripe_paint title.now ∷ []) }
{
    drawing.begin_points(Outline::Open);
    put_near(course, row, drawing);
    drawing.end_points(Outline::Open, stripe_paint(), title);
}

// Puts a stripe in the last cycle.
fn put_last_stripe<D: Drawing>(course: Course<'_>, title: &Line, drawing: &mut D)
    requires title { length title.now ≤ LABEL_BYTES }
    ensures { D.drew drawing.old drawing.new (figure (last_stripe course.entry.axis course.entry.encounter.now course.entry.own) stripe_paint title.now ∷ []) }
{
    drawing.figure(last_stripe(course), stripe_paint(), title);
}

#[tactic(auto, unfolding(crate::specs::Bands::stripe))]
fn put_stripe<D: Drawing>(course: Course<'_>, row: Row, title: &Line, drawing: &mut D)
    requires first { 1 ≤ row.first }
    requires order { row.first ≤ row.last }
    requires last { row.last ≤ course.time.cycles }
    requires title { length title.now ≤ LABEL_BYTES }
    ensures { D.drew drawing.old drawing.new (stripe course.entry.axis course.entry.encounter.now course.entry.own row title.now) }
{
    if has_line(course, row) {
        put_stripe_along(course, row, title, drawing);
    } else {
        put_last_stripe(course, title, drawing);
    }
}

// How high a band is.
fn band_depth(composite: &Composite) -> u32
    ensures value { result ≡ band_depth composite.now }
    ensures most { result ≤ 150 }
{
    if composite.corrective { 150 } else { 75 }
}

// Advice up.
fn put_above<D: Drawing>(course: Course<'_>, row: Row, title: &Line, depth: u32, drawing: &mut D)
    requires first { 1 ≤ row.first }
    requires order { row.first ≤ row.last }
    requires last { row.last ≤ course.time.cycles }
    requires depth { depth ≤ 150 }
    requires title { length title.now ≤ LABEL_BYTES }
    ensures { D.drew drawing.old drawing.new (above_band course.entry.axis course.entry.encounter.now course.entry.own row title.now depth) }
{
    put_band(
        course,
        row,
        title,
        Side::Above,
        depth,
        plain(blue()),
        drawing,
    );
}

// Advice down.
fn put_below<D: Drawing>(course: Course<'_>, row: Row, title: &Line, depth: u32, drawing: &mut D)
    requires first { 1 ≤ row.first }
    requires order { row.first ≤ row.last }
    requires last { row.last ≤ course.time.cycles }
    requires depth { depth ≤ 150 }
    requires title { length title.now ≤ LABEL_BYTES }
    ensures { D.drew drawing.old drawing.new (below_band course.entry.axis course.entry.encounter.now course.entry.own row title.now depth) }
{
    put_band(
        course,
        row,
        title,
        Side::Below,
        depth,
        plain(vermilion()),
        drawing,
    );
    put_band(course, row, title, Side::Below, depth, hatched(), drawing);
}

// Advice of both senses.
fn put_both<D: Drawing>(course: Course<'_>, row: Row, title: &Line, depth: u32, drawing: &mut D)
    requires first { 1 ≤ row.first }
    requires order { row.first ≤ row.last }
    requires last { row.last ≤ course.time.cycles }
    requires depth { depth ≤ 150 }
    requires title { length title.now ≤ LABEL_BYTES }
    ensures { D.drew drawing.old drawing.new (both_bands course.entry.axis course.entry.encounter.now course.entry.own row title.now depth) }
{
    put_band(
        course,
        row,
        title,
        Side::Above,
        depth,
        plain(purple()),
        drawing,
    );
    put_band(
        course,
        row,
        title,
        Side::Below,
        depth,
        plain(purple()),
        drawing,
    );
}

// Puts what there is on each side of the line.
fn put_sided<D: Drawing>(
    course: Course<'_>,
    row: Row,
    title: &Line,
    advised: Advised,
    depth: u32,
    drawing: &mut D,
)
    requires first { 1 ≤ row.first }
    requires order { row.first ≤ row.last }
    requires last { row.last ≤ course.time.cycles }
    requires depth { depth ≤ 150 }
    requires title { length title.now ≤ LABEL_BYTES }
    ensures { D.drew drawing.old drawing.new (sided_band course.entry.axis course.entry.encounter.now course.entry.own row title.now advised depth) }
{
    match advised {
        Advised::Traffic => put_stripe(course, row, title, drawing),
        Advised::Up => put_above(course, row, title, depth, drawing),
        Advised::Down => put_below(course, row, title, depth, drawing),
        Advised::Both => put_both(course, row, title, depth, drawing),
    }
}

// ---- all of them

// Puts what one row of cycles has.
fn put_row_band<D: Drawing>(
    course: Course<'_>,
    row: Row,
    title: &Line,
    before: &Composite,
    now: &Composite,
    drawing: &mut D,
)
    requires first { 1 ≤ row.first }
    requires order { row.first ≤ row.last }
    requires last { row.last ≤ course.time.cycles }
    requires title { length title.now ≤ LABEL_BYTES }
    ensures { D.drew drawing.old drawing.new (row_band course.entry.axis course.entry.encounter.now course.entry.own row title.now before.now now.now) }
{
    put_sided(course, row, title, advised(now), band_depth(now), drawing);
    put_onset(
        course.begin(row.first),
        course.y(row.first),
        title,
        before,
        now,
        drawing,
    );
}

fn put_row<D: Drawing>(
    state: &AirState,
    course: Course<'_>,
    address: Address,
    row: Row,
    drawing: &mut D,
)
    requires encounter { course.encounter.now ≡ state.now.encounter }
    requires first { 1 ≤ row.first }
    requires order { row.first ≤ row.last }
    requires last { row.last ≤ course.time.cycles }
    ensures { D.drew drawing.old drawing.new (band_of_row course.entry.axis state.now.encounter state.now.journal course.entry.own address row) }
{
    let now = shown_in(state, course.own, row.first);
    let before = shown_in(state, course.own, row.first - 1);
    let title = bar_title(address, row, &now);
    put_row_band(course, row, &title, &before, &now, drawing);
}

// Puts the band of the row that begins with a cycle, if one does.
fn put_begun<D: Drawing>(
    state: &AirState,
    course: Course<'_>,
    address: Address,
    cycle: u16,
    drawing: &mut D,
)
    requires encounter { course.encounter.now ≡ state.now.encounter }
    requires run { course.time.cycles ≡ state.now.encounter.cycles }
    requires first { 1 ≤ cycle }
    requires last { cycle ≤ course.time.cycles }
    ensures { D.drew drawing.old drawing.new (flat_map (band_of_row course.entry.axis state.now.encounter state.now.journal course.entry.own address) (rows_at (is_shown state.now.journal course.entry.own) (goes_on state.now.journal course.entry.own) state.now.encounter.cycles cycle)) }
{
    if begins(state, course.own, cycle) {
        let row = Row {
            first: cycle,
            last: last_from(state, course.own, cycle),
        };
        put_row(state, course, address, row, drawing);
    }
}

// Puts the bands of an aircraft.
fn put_bands_of<D: Drawing>(state: &AirState, course: Course<'_>, address: Address, drawing: &mut D)
    requires encounter { course.encounter.now ≡ state.now.encounter }
    requires run { course.time.cycles ≡ state.now.encounter.cycles }
    ensures { D.drew drawing.old drawing.new (bands_of course.entry.axis state.now.encounter state.now.journal course.entry.own address) }
{
    for cycle in 1..course.time.cycles + 1 {
        put_begun(state, course, address, cycle, drawing);
    }
}

fn put_craft_bands<D: Drawing>(state: &AirState, course: Course<'_>, drawing: &mut D)
    requires encounter { course.encounter.now ≡ state.now.encounter }
    requires run { course.time.cycles ≡ state.now.encounter.cycles }
    ensures { D.drew drawing.old drawing.new (craft_bands course.entry.axis state.now.encounter state.now.journal course.entry.own) }
{
    let address = address_of(course.encounter, course.own);
    put_bands_of(state, course, address, drawing);
}

// Puts the bands of all aircraft, by this axis.
fn put_bands_with<D: Drawing>(state: &AirState, axis: Span, time: TimeAxis, drawing: &mut D)
    requires low { unsigned_abs axis.low ≤ 1068 }
    requires high { unsigned_abs axis.high ≤ 1068 }
    requires holds { HoldsPlanned axis state.now.encounter }
    requires time { time.cycles ≡ state.now.encounter.cycles }
    ensures { D.drew drawing.old drawing.new (bands_with axis state.now.encounter state.now.journal) }
{
    state.legal_law();
    let encounter = state.enc();
    for own in 0..encounter.crafts().len() {
        let course = Course {
            encounter,
            axis,
            time,
            own: own as u8,
        };
        put_craft_bands(state, course, drawing);
    }
}

/// Puts the bands of all aircraft.
pub(crate) fn put_bands<D: Drawing>(state: &AirState, time: TimeAxis, drawing: &mut D)
    requires { time.cycles ≡ state.now.encounter.cycles }
    ensures { D.drew drawing.old drawing.new (bands_marks state.now.encounter state.now.journal) }
{
    axis_law(state);
    put_bands_with(state, axis_of(state), time, drawing);
}
