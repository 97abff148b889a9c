// The flights with the modelled response, as dotted lines in the box of the altitudes.
ghost use Rattle.std.specs.Prelude.{◌≡◌, ◌+◌, ◌-◌, ◌<◌, ◌≤◌, ◌∷◌, ◌^◌, [], IfSome, length, unsigned_abs};
ghost use Rattle.acas_base.specs.Ranges.{IsCycle};
ghost use Rattle.flight.specs.Flight.{position};
ghost use Rattle.picture.specs.Heights.{HoldsModelled};
ghost use Rattle.picture.specs.Modelled.{all_modelled_marks, departed, earlier, green, is_apart, modelled_flights, modelled_line, modelled_marks, modelled_paint, modelled_point, modelled_points, modelled_title};
ghost use Rattle.response.specs.Flown.{altitude_units, flown};
ghost use Rattle.svg_text.specs.Marks.{traced};
ghost use Rattle.svg_text.specs.declared.drawing.TheConstants.{LABEL_BYTES};
ghost use Rattle.svg_text.specs.declared.shapes.Outline.TheVariants as outlines;

use crate::altitude::address_of;
use crate::heights::{MOST_MODELLED, altitude_y, sixtieths};
use crate::span::Span;
use acas_base::{Address, Encounter};
use acas_text::Line;
use air_journal::AirState;
use flight::position;
use page_marks::{dashed_paint, point_at};
use plot_axes::TimeAxis;
use response::{ModelledFlight, altitude_units};
use svg_text::{Color, Dash, Drawing, Outline, Paint, Point};

// ---- where a flight departs

// The planned altitude in 1/2048 ft.
fn planned_units(encounter: &Encounter, own: u8, cycle: u16) -> i64
    requires own { own < length encounter.now.crafts }
    requires cycle { IsCycle cycle }
    ensures value { result ≡ altitude_units (position encounter.now own cycle).z }
    ensures bound { unsigned_abs result ≤ 2 ^ 29 }
{
    altitude_units(position(encounter, own, cycle).z)
}

// Whether this altitude with the modelled response isn't the planned one. In cycle 1 it is.
fn is_apart(state: &AirState, own: u8, cycle: u16, altitude: i64) -> bool
    requires own { own < length state.now.encounter.crafts }
    requires cycle { IsCycle cycle }
    requires altitude { altitude ≡ flown state.now.encounter state.now.journal own cycle }
    ensures { result ≡ is_apart state.now.encounter state.now.journal own cycle }
{
    cycle > 1 && altitude != planned_units(state.enc(), own, cycle)
}

fn earlier(first: Option<u16>, apart: bool, cycle: u16) -> Option<u16>
    ensures { result ≡ earlier first apart cycle }
{
    match first {
        Some(_) => first,
        None => { if apart { Some(cycle) } else { None } }
    }
}

// The first cycle in which it isn't.
fn departed(state: &AirState, own: u8) -> Option<u16>
    requires own { own < length state.now.encounter.crafts }
    ensures value { result ≡ departed state.now.encounter state.now.journal own state.now.encounter.cycles }
    ensures least { IfSome result (λ first. 2 ≤ first) }
    ensures most { IfSome result (λ first. first ≤ state.now.encounter.cycles) }
{
    state.legal_law();
    let mut flight = ModelledFlight::new(state, own);
    let mut first = None;
    for done in 0..state.enc().cycles() {
        let cycle = done + 1;
        let Some(altitude) = flight.next() else {
            return first;
        };
        first = earlier(first, is_apart(state, own, cycle, altitude), cycle);
    }
    first
}

// ---- its line

fn green() -> Color
    ensures { result ≡ green }
{
    Color {
        red: 0,
        green: 122,
        blue: 90,
    }
}

fn modelled_paint() -> Paint
    ensures { result ≡ modelled_paint }
{
    dashed_paint(green(), 40, Dash::Dotted)
}

fn modelled_title(address: Address) -> Line
    ensures text { result ≡ modelled_title address }
    ensures short { length result ≤ LABEL_BYTES }
{
    let mut line = Line::new();
    line.address(address.value());
    line.text(" as modelled");
    line
}

// Where an aircraft would have been in a cycle, at this altitude.
#[tactic(auto, unfolding(crate::specs::Modelled::modelled_point))]
fn modelled_point(
    state: &AirState,
    axis: Span,
    time: TimeAxis,
    own: u8,
    cycle: u16,
    altitude: i64,
) -> Point
    requires low { unsigned_abs axis.low ≤ 1068 }
    requires high { unsigned_abs axis.high ≤ 1068 }
    requires holds { HoldsModelled axis state.now.encounter state.now.journal }
    requires time { time.cycles ≡ state.now.encounter.cycles }
    requires own { own < length state.now.encounter.crafts }
    requires first { 1 ≤ cycle }
    requires last { cycle ≤ time.cycles }
    requires altitude { altitude ≡ flown state.now.encounter state.now.journal own cycle }
    requires bound { unsigned_abs altitude ≤ 2 ^ 30 }
    ensures { result ≡ modelled_point axis state.now.encounter state.now.journal own cycle }
{
    let _ = state;
    let _ = own;
    point_at(time.begin(cycle), altitude_y(axis, sixtieths(altitude)))
}

// Passes over so many cycles.
fn skip(flight: &mut ModelledFlight<'_>, count: u16)
    requires { flight.old.told + count ≤ flight.old.encounter.cycles }
    ensures { flight.new ≡ record flight.old { told = flight.old.told + count } }
{
    for done in 0..count {
        let Some(_) = flight.next() else {
            return;
        };
    }
}

// Passes through the points after so many cycles.
fn put_points<D: Drawing>(
    state: &AirState,
    axis: Span,
    time: TimeAxis,
    own: u8,
    passed: u16,
    drawing: &mut D,
)
    requires low { unsigned_abs axis.low ≤ 1068 }
    requires high { unsigned_abs axis.high ≤ 1068 }
    requires holds { HoldsModelled axis state.now.encounter state.now.journal }
    requires time { time.cycles ≡ state.now.encounter.cycles }
    requires own { own < length state.now.encounter.crafts }
    requires passed { passed ≤ time.cycles }
    ensures { D.passed drawing.old drawing.new (modelled_points axis state.now.encounter state.now.journal own passed) }
{
    let mut flight = ModelledFlight::new(state, own);
    skip(&mut flight, passed);
    for step in 0..time.cycles - passed {
        let cycle = passed + step + 1;
        let Some(altitude) = flight.next() else {
            return;
        };
        drawing.point(modelled_point(state, axis, time, own, cycle, altitude));
    }
}

// Puts the line through them.
fn put_trace<D: Drawing>(
    state: &AirState,
    axis: Span,
    time: TimeAxis,
    own: u8,
    passed: u16,
    title: &Line,
    drawing: &mut D,
)
    requires low { unsigned_abs axis.low ≤ 1068 }
    requires high { unsigned_abs axis.high ≤ 1068 }
    requires holds { HoldsModelled axis state.now.encounter state.now.journal }
    requires time { time.cycles ≡ state.now.encounter.cycles }
    requires own { own < length state.now.encounter.crafts }
    requires passed { passed ≤ time.cycles }
    requires title { length title.now ≤ LABEL_BYTES }
    ensures { D.drew drawing.old drawing.new (traced outlines.Open (modelled_points axis state.now.encounter state.now.journal own passed) modelled_paint title.now ∷ []) }
{
    drawing.begin_points(Outline::Open);
    put_points(state, axis, time, own, passed, drawing);
    drawing.end_points(Outline::Open, modelled_paint(), title);
}

// Puts it where the flight departs from the planned one.
fn put_line_of<D: Drawing>(
    state: &AirState,
    axis: Span,
    time: TimeAxis,
    own: u8,
    title: &Line,
    drawing: &mut D,
)
    requires low { unsigned_abs axis.low ≤ 1068 }
    requires high { unsigned_abs axis.high ≤ 1068 }
    requires holds { HoldsModelled axis state.now.encounter state.now.journal }
    requires time { time.cycles ≡ state.now.encounter.cycles }
    requires own { own < length state.now.encounter.crafts }
    requires title { length title.now ≤ LABEL_BYTES }
    ensures { D.drew drawing.old drawing.new (modelled_line axis state.now.encounter state.now.journal own title.now (departed state.now.encounter state.now.journal own state.now.encounter.cycles)) }
{
    match departed(state, own) {
        None => {}
        Some(first) => put_trace(state, axis, time, own, first - 2, title, drawing),
    }
}

#[tactic(auto, unfolding(crate::specs::Modelled::modelled_marks))]
fn put_flight<D: Drawing>(state: &AirState, axis: Span, time: TimeAxis, own: u8, drawing: &mut D)
    requires low { unsigned_abs axis.low ≤ 1068 }
    requires high { unsigned_abs axis.high ≤ 1068 }
    requires holds { HoldsModelled axis state.now.encounter state.now.journal }
    requires time { time.cycles ≡ state.now.encounter.cycles }
    requires own { own < length state.now.encounter.crafts }
    ensures { D.drew drawing.old drawing.new (modelled_marks axis state.now.encounter state.now.journal own) }
{
    let title = modelled_title(address_of(state.enc(), own));
    put_line_of(state, axis, time, own, &title, drawing);
}

// Puts those of all aircraft.
fn put_flights<D: Drawing>(state: &AirState, axis: Span, time: TimeAxis, drawing: &mut D)
    requires low { unsigned_abs axis.low ≤ 1068 }
    requires high { unsigned_abs axis.high ≤ 1068 }
    requires holds { HoldsModelled axis state.now.encounter state.now.journal }
    requires time { time.cycles ≡ state.now.encounter.cycles }
    ensures { D.drew drawing.old drawing.new (modelled_flights axis state.now.encounter state.now.journal) }
{
    state.legal_law();
    for own in 0..state.enc().crafts().len() {
        put_flight(state, axis, time, own as u8, drawing);
    }
}

/// Puts the flights with the modelled response, of up to 8 aircraft: a dotted line for each one that isn't flown as
/// planned, from where it departs from the planned one to the end of the run.
#[tactic(auto, unfolding(crate::specs::Modelled::all_modelled_marks))]
pub(crate) fn put_modelled<D: Drawing>(
    state: &AirState,
    axis: Span,
    time: TimeAxis,
    drawing: &mut D,
)
    requires low { unsigned_abs axis.low ≤ 1068 }
    requires high { unsigned_abs axis.high ≤ 1068 }
    requires holds { length state.now.encounter.crafts ≤ 8 → HoldsModelled axis state.now.encounter state.now.journal }
    requires time { time.cycles ≡ state.now.encounter.cycles }
    ensures { D.drew drawing.old drawing.new (all_modelled_marks axis state.now.encounter state.now.journal) }
{
    if state.enc().crafts().len() <= MOST_MODELLED {
        put_flights(state, axis, time, drawing);
    }
}
