// The axis of time.
ghost use Rattle.std.specs.Prelude.{◌≡◌, ◌<◌, ◌≤◌, ◌^◌, length};
ghost use Rattle.picture.specs.Layout.{plot_bottom};
ghost use Rattle.picture.specs.Time.{axis_name, box_and_name, tick_place, time_marks};

use crate::layout::{COURSE_TOP, plot_area, plot_bottom};
use acas_base::Encounter;
use acas_lines::fixed_line;
use labels::Labels;
use page_marks::{TickPlace, ink, point_at, put_line, put_time_ticks, put_words};
use plot_axes::TimeAxis;
use svg_text::{Anchor, Drawing, Shape, Weight};

/// The axis of time of a picture.
pub(crate) fn axis_of(labels: &Labels<'_>, encounter: &Encounter) -> TimeAxis
    ensures cycles { result.cycles ≡ encounter.now.cycles }
    ensures start { result.start ≡ labels.now.start }
{
    encounter.valid_law();
    TimeAxis {
        cycles: encounter.cycles(),
        start: labels.start(),
    }
}

// Where the ticks stand.
fn tick_place(lanes: u32) -> TickPlace
    requires { lanes ≤ 16 }
    ensures value { result ≡ tick_place lanes }
    ensures top { result.top < 2 ^ 16 }
    ensures bottom { result.bottom < 2 ^ 16 }
    ensures label { result.label < 2 ^ 16 }
{
    let bottom = plot_bottom(lanes);
    TickPlace {
        top: COURSE_TOP,
        bottom: bottom + 100,
        label: bottom + 400,
        size: 260,
    }
}

// What the labels are.
fn axis_name(axis: TimeAxis) -> &'static str
    ensures text { result.now ≡ axis_name axis.start }
    ensures short { length result.now ≤ 5 }
{
    match axis.start {
        None => "cycle",
        Some(_) => "time",
    }
}

// Puts the box of the lanes, and what the labels are.
fn put_box_and_name<D: Drawing>(lanes: u32, name: &str, drawing: &mut D)
    requires lanes { lanes ≤ 16 }
    requires name { length name.now ≤ 5 }
    ensures { D.drew drawing.old drawing.new (box_and_name lanes name.now) }
{
    put_line(Shape::Rect(plot_area(lanes)), ink(), drawing);
    put_words(
        point_at(9_900, plot_bottom(lanes) + 780),
        260,
        Anchor::Middle,
        Weight::Regular,
        &fixed_line(name),
        drawing,
    );
}

/// Puts the axis of time.
pub(crate) fn put_time<D: Drawing>(axis: TimeAxis, lanes: u32, drawing: &mut D)
    requires { lanes ≤ 16 }
    ensures { D.drew drawing.old drawing.new (time_marks axis.cycles axis.start lanes) }
{
    put_time_ticks(axis, tick_place(lanes), drawing);
    put_box_and_name(lanes, axis_name(axis), drawing);
}
