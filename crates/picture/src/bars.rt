// A bar: a row of cycles in which an aircraft shows the same.
ghost use Rattle.std.specs.Prelude.{◌≡◌, ◌+◌, ◌<◌, ◌≤◌, length};
ghost use Rattle.picture.specs.Bars.{IsPlaced, advised, bar_area, bar_height, bar_marks, bar_of, bar_title, has_room, mark_text, titled_bar, word_marks, word_x, word_y};
ghost use Rattle.picture.specs.Layout.{IsLane};
ghost use Rattle.svg_text.specs.declared.drawing.TheConstants.{LABEL_BYTES};

use crate::bar::Bar;
use crate::layout::Lane;
use acas_base::Address;
use acas_lines::fixed_line;
use acas_text::Line;
use advisory_report::{Composite, has_advice, word};
use equal_rows::Row;
use page_marks::{Advised, area_at, point_at, put_box, put_over};
use plot_axes::TimeAxis;
use svg_text::{Area, Drawing};

// The room for a letter of a word.
const LETTER: u32 = 150;

// The size of its letters.
const SIZE: u16 = 220;

// ---- what it says

/// In which sense there is advice.
pub(crate) fn advised(composite: &Composite) -> Advised
    ensures { result ≡ advised composite.now }
{
    match (composite.up, composite.down) {
        (None, None) => Advised::Traffic,
        (Some(_), None) => Advised::Up,
        (None, Some(_)) => Advised::Down,
        (Some(_), Some(_)) => Advised::Both,
    }
}

fn mark_text(composite: &Composite) -> &'static str
    ensures text { result.now ≡ mark_text composite.now }
    ensures short { length result.now ≤ 12 }
{
    if !has_advice(composite) {
        return "";
    }
    if composite.corrective {
        ", corrective"
    } else {
        ", preventive"
    }
}

/// What a viewer shows of a row under the pointer.
#[tactic(auto, unfolding(crate::specs::Bars::bar_title))]
pub(crate) fn bar_title(address: Address, row: Row, composite: &Composite) -> Line
    ensures text { result ≡ bar_title address row composite.now }
    ensures short { length result ≤ LABEL_BYTES }
{
    let mut line = Line::new();
    line.text("cycles ");
    line.u16(row.first);
    line.text(" to ");
    line.u16(row.last);
    line.text(", ");
    line.address(address.value());
    line.text(", ");
    line.text(word(composite));
    line.text(mark_text(composite));
    line
}

// ---- where it stands

fn bar_height(tall: u32, composite: &Composite) -> u32
    requires { tall ≤ 400 }
    ensures value { result ≡ bar_height tall composite.now }
    ensures most { result ≤ 400 }
{
    if composite.corrective {
        tall
    } else {
        tall * 7 / 10
    }
}

fn bar_of(axis: TimeAxis, lane: Lane, row: Row, composite: &Composite) -> Bar
    requires lane { IsLane lane }
    requires first { 1 ≤ row.first }
    requires order { row.first ≤ row.last }
    requires last { row.last ≤ axis.cycles }
    ensures value { result ≡ bar_of axis.cycles lane row composite.now }
    ensures placed { IsPlaced result }
{
    let left = axis.begin(row.first);
    Bar {
        left,
        width: axis.begin(row.last + 1) - left,
        base: lane.base,
        height: bar_height(lane.tall, composite),
    }
}

fn bar_area(bar: Bar) -> Area
    requires { IsPlaced bar }
    ensures { result ≡ bar_area bar }
{
    area_at(bar.left, bar.base - bar.height, bar.width, bar.height)
}

// ---- its marks

fn has_room(bar: Bar, letters: usize) -> bool
    requires { letters ≤ 13 }
    ensures { result ≡ has_room bar letters }
{
    LETTER * letters as u32 + 80 <= bar.width
}

fn word_x(bar: Bar) -> u32
    requires { IsPlaced bar }
    ensures value { result ≡ word_x bar }
    ensures most { result ≤ 17800 }
{
    bar.left + bar.width / 2
}

fn word_y(bar: Bar) -> u32
    requires { IsPlaced bar }
    ensures value { result ≡ word_y bar }
    ensures most { result ≤ 25280 }
{
    bar.base - bar.height / 2 + 80
}

// Puts the word where there is room for it.
#[tactic(auto, unfolding(crate::specs::Bars::word_marks))]
fn put_word<D: Drawing>(bar: Bar, word: &str, title: &Line, drawing: &mut D)
    requires placed { IsPlaced bar }
    requires word { length word.now ≤ 13 }
    requires title { length title.now ≤ LABEL_BYTES }
    ensures { D.drew drawing.old drawing.new (word_marks bar word.now title.now) }
{
    if has_room(bar, word.len()) {
        put_over(
            point_at(word_x(bar), word_y(bar)),
            SIZE,
            &fixed_line(word),
            title,
            drawing,
        );
    }
}

fn put_titled<D: Drawing>(bar: Bar, composite: &Composite, title: &Line, drawing: &mut D)
    requires placed { IsPlaced bar }
    requires title { length title.now ≤ LABEL_BYTES }
    ensures { D.drew drawing.old drawing.new (titled_bar bar composite.now title.now) }
{
    put_box(advised(composite), bar_area(bar), title, drawing);
    put_word(bar, word(composite), title, drawing);
}

/// Puts the bar of a row.
#[tactic(auto, unfolding(crate::specs::Bars::bar_marks))]
pub(crate) fn put_bar<D: Drawing>(
    axis: TimeAxis,
    lane: Lane,
    address: Address,
    composite: &Composite,
    row: Row,
    drawing: &mut D,
)
    requires lane { IsLane lane }
    requires first { 1 ≤ row.first }
    requires order { row.first ≤ row.last }
    requires last { row.last ≤ axis.cycles }
    ensures { D.drew drawing.old drawing.new (bar_marks axis.cycles lane address composite.now row) }
{
    let bar = bar_of(axis, lane, row, composite);
    put_titled(bar, composite, &bar_title(address, row, composite), drawing);
}
