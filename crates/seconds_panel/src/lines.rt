// The lines of the panel.
ghost use Rattle.std.specs.Prelude.{◌≡◌, ◌+◌, ◌<◌, ◌≤◌, ◌∷◌, [], length, map, min};
ghost use Rattle.std.specs.List.{flat_map, range_with_len};
ghost use Rattle.equal_rows.specs.Rows.{rows_at};
ghost use Rattle.seconds_panel.specs.Lines.{plot_bottom, plot_top, row_length, row_line, row_mark, row_marks, second_y, series_marks, value_point};
ghost use Rattle.seconds_panel.specs.Seconds.{goes_on, is_told};
ghost use Rattle.svg_text.specs.declared.drawing.TheConstants.{LABEL_BYTES};

use crate::rows::{begins, last_from};
use crate::seconds::Seconds;
use crate::series::Series;
use crate::texts::row_title;
use acas_text::Line;
use equal_rows::Row;
use page_marks::{point_at, put_dot};
use plot_axes::{Scale, TimeAxis};
use svg_text::{Drawing, Outline, Point};

/// How high the box is.
pub(crate) const PLOT_HEIGHT: u32 = 2_000;

/// Where it begins, below the top of the panel.
pub(crate) const PLOT_TOP: u32 = 500;

/// Where it ends.
pub(crate) const PLOT_BOTTOM: u32 = 2_500;

// The seconds at the end of the axis.
const MOST_SECONDS: u32 = 80;

// So many seconds, or those at the end of the axis.
fn cut(seconds: u32) -> u32
    ensures value { result ≡ min seconds 80 }
    ensures most { result ≤ 80 }
{
    if seconds < MOST_SECONDS {
        seconds
    } else {
        MOST_SECONDS
    }
}

/// How far down so many seconds stand.
#[tactic(auto, unfolding(crate::specs::Lines::second_y))]
pub(crate) fn second_y(top: u32, seconds: u32) -> u32
    requires { top ≤ 40000 }
    ensures value { result ≡ second_y top seconds }
    ensures most { result ≤ plot_bottom top }
{
    let scale = Scale {
        low: 0,
        high: i64::from(MOST_SECONDS),
        length: PLOT_HEIGHT,
    };
    top + PLOT_BOTTOM - scale.along(i64::from(cut(seconds)))
}

/// The aircraft's names.
#[derive(Drop)]
pub(crate) struct Names<'a> {
    pub own: &'a Line,
    pub other: &'a Line,
}

// The place of what a line tells in a cycle.
#[tactic(auto, unfolding(crate::specs::Lines::value_point))]
fn value_point(top: u32, seconds: &Seconds<'_>, series: Series, time: TimeAxis, cycle: u16) -> Point
    requires top { top ≤ 40000 }
    requires time { time.cycles ≡ seconds.now.encounter.cycles }
    requires first { 1 ≤ cycle }
    requires last { cycle ≤ seconds.now.encounter.cycles }
    ensures { result ≡ value_point top seconds.now.encounter seconds.now.pair series cycle }
{
    let value = seconds.value(series, cycle).unwrap_or(0);
    point_at(time.begin(cycle), second_y(top, value))
}

// Passes through the places of a row.
fn put_points<D: Drawing>(
    top: u32,
    seconds: &Seconds<'_>,
    series: Series,
    time: TimeAxis,
    row: Row,
    drawing: &mut D,
)
    requires top { top ≤ 40000 }
    requires time { time.cycles ≡ seconds.now.encounter.cycles }
    requires first { 1 ≤ row.first }
    requires order { row.first ≤ row.last }
    requires last { row.last ≤ seconds.now.encounter.cycles }
    ensures { D.passed drawing.old drawing.new (map (value_point top seconds.now.encounter seconds.now.pair series) (range_with_len row.first (row_length row))) }
{
    for step in 0..row.last + 1 - row.first {
        drawing.point(value_point(top, seconds, series, time, row.first + step));
    }
}

// Puts the line through them.
fn put_row_line<D: Drawing>(
    top: u32,
    seconds: &Seconds<'_>,
    series: Series,
    time: TimeAxis,
    row: Row,
    title: &Line,
    drawing: &mut D,
)
    requires top { top ≤ 40000 }
    requires time { time.cycles ≡ seconds.now.encounter.cycles }
    requires first { 1 ≤ row.first }
    requires order { row.first ≤ row.last }
    requires last { row.last ≤ seconds.now.encounter.cycles }
    requires title { length title.now ≤ LABEL_BYTES }
    ensures { D.drew drawing.old drawing.new (row_line top seconds.now.encounter seconds.now.pair series row title.now ∷ []) }
{
    drawing.begin_points(Outline::Open);
    put_points(top, seconds, series, time, row, drawing);
    drawing.end_points(Outline::Open, series.paint(), title);
}

// Puts it, or a dot where the row has one cycle.
#[tactic(auto, unfolding(crate::specs::Lines::row_mark))]
fn put_row_mark<D: Drawing>(
    top: u32,
    seconds: &Seconds<'_>,
    series: Series,
    time: TimeAxis,
    row: Row,
    title: &Line,
    drawing: &mut D,
)
    requires top { top ≤ 40000 }
    requires time { time.cycles ≡ seconds.now.encounter.cycles }
    requires first { 1 ≤ row.first }
    requires order { row.first ≤ row.last }
    requires last { row.last ≤ seconds.now.encounter.cycles }
    requires title { length title.now ≤ LABEL_BYTES }
    ensures { D.drew drawing.old drawing.new (row_mark top seconds.now.encounter seconds.now.pair series row title.now ∷ []) }
{
    if row.first == row.last {
        let point = value_point(top, seconds, series, time, row.first);
        put_dot(series.color(), point, title, drawing);
    } else {
        put_row_line(top, seconds, series, time, row, title, drawing);
    }
}

fn put_row<D: Drawing>(
    top: u32,
    seconds: &Seconds<'_>,
    names: &Names<'_>,
    series: Series,
    time: TimeAxis,
    row: Row,
    drawing: &mut D,
)
    requires top { top ≤ 40000 }
    requires own { length names.now.own.now ≤ 8 }
    requires other { length names.now.other.now ≤ 8 }
    requires time { time.cycles ≡ seconds.now.encounter.cycles }
    requires first { 1 ≤ row.first }
    requires order { row.first ≤ row.last }
    requires last { row.last ≤ seconds.now.encounter.cycles }
    ensures { D.drew drawing.old drawing.new (row_marks top seconds.now.encounter seconds.now.pair names.now.own.now names.now.other.now series row) }
{
    let title = row_title(names.own, names.other, series, row);
    put_row_mark(top, seconds, series, time, row, &title, drawing);
}

// Puts the row that begins with a cycle, if one does.
fn put_begun<D: Drawing>(
    top: u32,
    seconds: &Seconds<'_>,
    names: &Names<'_>,
    series: Series,
    time: TimeAxis,
    cycle: u16,
    drawing: &mut D,
)
    requires top { top ≤ 40000 }
    requires own { length names.now.own.now ≤ 8 }
    requires other { length names.now.other.now ≤ 8 }
    requires time { time.cycles ≡ seconds.now.encounter.cycles }
    requires first { 1 ≤ cycle }
    requires last { cycle ≤ seconds.now.encounter.cycles }
    ensures { D.drew drawing.old drawing.new (flat_map (row_marks top seconds.now.encounter seconds.now.pair names.now.own.now names.now.other.now series) (rows_at (is_told seconds.now.encounter seconds.now.pair series) (goes_on seconds.now.encounter seconds.now.pair series) seconds.now.encounter.cycles cycle)) }
{
    if begins(seconds, series, cycle) {
        let row = Row {
            first: cycle,
            last: last_from(seconds, series, cycle),
        };
        put_row(top, seconds, names, series, time, row, drawing);
    }
}

/// Puts the line of a series.
pub(crate) fn put_series<D: Drawing>(
    top: u32,
    seconds: &Seconds<'_>,
    names: &Names<'_>,
    series: Series,
    time: TimeAxis,
    drawing: &mut D,
)
    requires top { top ≤ 40000 }
    requires own { length names.now.own.now ≤ 8 }
    requires other { length names.now.other.now ≤ 8 }
    requires time { time.cycles ≡ seconds.now.encounter.cycles }
    ensures { D.drew drawing.old drawing.new (series_marks top seconds.now.encounter seconds.now.pair names.now.own.now names.now.other.now series) }
{
    for cycle in 1..time.cycles + 1 {
        put_begun(top, seconds, names, series, time, cycle, drawing);
    }
}
