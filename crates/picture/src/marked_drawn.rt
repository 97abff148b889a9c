// How the marks of the labels are drawn.
ghost use Rattle.std.specs.Prelude.{◌≡◌, ◌+◌, ◌*◌, ◌<◌, ◌≤◌, ◌^◌, length, option_to_list};
ghost use Rattle.std.specs.Fmt.{decimal};
ghost use Rattle.std.specs.List.{flat_map};
ghost use Rattle.picture.specs.Marked.{IsMarked, count_among, mark_text, marked_at};
ghost use Rattle.picture.specs.MarkedDrawn.{are_beside, has_letter, is_over, is_over_some, letter_of, letter_text, letter_where, letter_x, line_at, line_of, lines_marks, list_height, list_marks, mark_title, row_at, row_number, row_of};
ghost use Rattle.picture.specs.Layout.{plot_bottom};
ghost use Rattle.svg_text.specs.declared.drawing.TheConstants.{LABEL_BYTES};

use crate::layout::{COURSE_TOP, plot_bottom};
use crate::marked::{Marked, count_among, marked_at};
use acas_text::Line;
use labels::Labels;
use page_marks::{add_words, dashed_paint, note, point_at, put_over, put_words};
use plot_axes::TimeAxis;
use svg_text::{Anchor, Dash, Drawing, Shape, Weight};

// How high a row of the list is.
const ROW: u32 = 400;

// ---- what a mark says

#[tactic(auto, unfolding(crate::specs::MarkedDrawn::letter_text))]
fn letter_text(place: usize) -> Line
    requires { place < 26 }
    ensures text { result ≡ letter_text place }
    ensures short { length result ≤ 1 }
{
    let mut line = Line::new();
    line.byte(b'A' + place as u8);
    line
}

// Its letter, its cycle and its text.
#[tactic(auto, unfolding(crate::specs::MarkedDrawn::mark_title, crate::specs::MarkedDrawn::letter_text))]
fn mark_title(labels: &Labels<'_>, marked: Marked) -> Line
    requires place { marked.place < length labels.now.marks }
    requires few { marked.place < 26 }
    ensures text { result ≡ mark_title labels.now marked }
    ensures short { length result ≤ LABEL_BYTES }
{
    let mut line = Line::new();
    line.text("mark ");
    line.byte(b'A' + marked.place as u8);
    line.text(", cycle ");
    line.u16(marked.cycle);
    line.text(", ");
    add_words(&mut line, &labels.mark_text(marked.place));
    line
}

// ---- its line and its letter

// Where its letter stands, beside those of its cycle before it.
#[tactic(auto, unfolding(crate::specs::MarkedDrawn::letter_x))]
fn letter_x(x: u32, before: u32) -> u32
    requires x { x ≤ 17800 }
    requires before { before ≤ 26 }
    ensures value { result ≡ letter_x x before }
    ensures most { result ≤ 17800 }
{
    if x < 9_900 {
        x + 180 * before
    } else {
        x - 180 * before
    }
}

// Puts a line.
fn put_line_at<D: Drawing>(lanes: u32, x: u32, title: &Line, drawing: &mut D)
    requires lanes { lanes ≤ 16 }
    requires x { x < 2 ^ 16 }
    requires title { length title.now ≤ LABEL_BYTES }
    ensures { D.drew drawing.old drawing.new (line_at lanes x title.now) }
{
    let line = Shape::Segment {
        from: point_at(x, COURSE_TOP),
        to: point_at(x, plot_bottom(lanes)),
    };
    drawing.figure(line, dashed_paint(note(), 30, Dash::Short), title);
}

// Puts a letter, where it is there.
fn put_letter_where<D: Drawing>(there: bool, at: u32, letter: &Line, title: &Line, drawing: &mut D)
    requires at { at < 2 ^ 16 }
    requires letter { length letter.now ≤ LABEL_BYTES }
    requires title { length title.now ≤ LABEL_BYTES }
    ensures { D.drew drawing.old drawing.new (letter_where there at letter.now title.now) }
{
    if there {
        put_over(point_at(at, 1_440), 240, letter, title, drawing);
    }
}

// Where the letter of a mark stands.
fn letter_of(labels: &Labels<'_>, axis: TimeAxis, marked: Marked) -> u32
    requires marked { IsMarked labels.now axis.cycles marked }
    requires few { marked.place < 26 }
    ensures value { result ≡ letter_of labels.now axis.cycles marked }
    ensures most { result ≤ 17800 }
{
    let before = count_among(labels, marked.cycle, marked.cycle, marked.place);
    letter_x(axis.begin(marked.cycle), before)
}

// Whether two letters stand beside each other.
fn are_beside(one: u32, other: u32) -> bool
    requires one { one ≤ 17800 }
    requires other { other ≤ 17800 }
    ensures { result ≡ are_beside one other }
{
    one + 180 <= other || other + 180 <= one
}

// Whether a letter at a place would lie over that of the mark at a place of the list.
fn is_over(labels: &Labels<'_>, axis: TimeAxis, at: u32, place: usize) -> bool
    requires at { at ≤ 17800 }
    requires place { place < length labels.now.marks }
    requires few { place < 26 }
    ensures { result ≡ is_over labels.now axis.cycles at (marked_at labels.now axis.cycles place) }
{
    match marked_at(labels, axis.cycles, place) {
        None => false,
        Some(other) => !are_beside(letter_of(labels, axis, other), at),
    }
}

// Whether it would lie over that of one of the first marks of the list.
fn is_over_some(labels: &Labels<'_>, axis: TimeAxis, at: u32, places: usize) -> bool
    requires at { at ≤ 17800 }
    requires places { places ≤ length labels.now.marks }
    requires few { places ≤ 26 }
    ensures { result ≡ is_over_some labels.now axis.cycles at places }
{
    let mut over = false;
    for place in 0..places {
        over = over || is_over(labels, axis, at, place);
    }
    over
}

// Whether the letter of a mark is drawn.
fn has_letter(labels: &Labels<'_>, axis: TimeAxis, marked: Marked) -> bool
    requires marked { IsMarked labels.now axis.cycles marked }
    requires few { marked.place < 26 }
    ensures { result ≡ has_letter labels.now axis.cycles marked }
{
    let at = letter_of(labels, axis, marked);
    !is_over_some(labels, axis, at, marked.place)
}

// Puts the line and the letter of a mark, where its cycle begins.
#[tactic(auto, unfolding(crate::specs::MarkedDrawn::line_of))]
fn put_line_of<D: Drawing>(
    labels: &Labels<'_>,
    axis: TimeAxis,
    lanes: u32,
    marked: Marked,
    drawing: &mut D,
)
    requires lanes { lanes ≤ 16 }
    requires marked { IsMarked labels.now axis.cycles marked }
    requires few { marked.place < 26 }
    ensures { D.drew drawing.old drawing.new (line_of labels.now axis.cycles lanes marked) }
{
    let title = mark_title(labels, marked);
    let there = has_letter(labels, axis, marked);
    let at = letter_of(labels, axis, marked);
    put_line_at(lanes, axis.begin(marked.cycle), &title, drawing);
    put_letter_where(there, at, &letter_text(marked.place), &title, drawing);
}

// Puts those of the mark at a place of the list, where it is drawn.
fn put_marked<D: Drawing>(
    labels: &Labels<'_>,
    axis: TimeAxis,
    lanes: u32,
    place: usize,
    drawing: &mut D,
)
    requires lanes { lanes ≤ 16 }
    requires place { place < length labels.now.marks }
    requires few { place < 26 }
    ensures { D.drew drawing.old drawing.new (flat_map (line_of labels.now axis.cycles lanes) (option_to_list (marked_at labels.now axis.cycles place))) }
{
    if let Some(marked) = marked_at(labels, axis.cycles, place) {
        put_line_of(labels, axis, lanes, marked, drawing);
    }
}

/// Puts a line and a letter for each mark.
pub(crate) fn put_lines<D: Drawing>(
    labels: &Labels<'_>,
    axis: TimeAxis,
    lanes: u32,
    drawing: &mut D,
)
    requires { lanes ≤ 16 }
    ensures { D.drew drawing.old drawing.new (lines_marks labels.now axis.cycles lanes) }
{
    for place in 0..labels.marks() {
        put_marked(labels, axis, lanes, place, drawing);
    }
}

// ---- the list of marks

// Puts a letter, a cycle and a text.
fn put_row_at<D: Drawing>(y: u32, letter: &Line, cycle: &Line, text: &Line, drawing: &mut D)
    requires y { y < 2 ^ 16 }
    requires letter { length letter.now ≤ LABEL_BYTES }
    requires cycle { length cycle.now ≤ LABEL_BYTES }
    requires text { length text.now ≤ LABEL_BYTES }
    ensures { D.drew drawing.old drawing.new (row_at y letter.now cycle.now text.now) }
{
    put_words(
        point_at(2_000, y),
        260,
        Anchor::Start,
        Weight::Bold,
        letter,
        drawing,
    );
    put_words(
        point_at(2_400, y),
        260,
        Anchor::Start,
        Weight::Regular,
        cycle,
        drawing,
    );
    put_words(
        point_at(3_900, y),
        260,
        Anchor::Start,
        Weight::Regular,
        text,
        drawing,
    );
}

// Puts the row of a mark.
#[tactic(auto, unfolding(crate::specs::MarkedDrawn::row_of))]
fn put_row_of<D: Drawing>(
    top: u32,
    labels: &Labels<'_>,
    axis: TimeAxis,
    marked: Marked,
    drawing: &mut D,
)
    requires top { top ≤ 41000 }
    requires axis { axis.start ≡ labels.now.start }
    requires marked { IsMarked labels.now axis.cycles marked }
    requires few { marked.place < 26 }
    ensures { D.drew drawing.old drawing.new (row_of top labels.now axis.cycles marked) }
{
    let number = count_among(labels, 1, axis.cycles, marked.place);
    put_row_at(
        top + 100 + ROW * number,
        &letter_text(marked.place),
        &axis.label(marked.cycle),
        &labels.mark_text(marked.place),
        drawing,
    );
}

// Puts the row of the mark at a place of the list, where it is drawn.
fn put_row<D: Drawing>(top: u32, labels: &Labels<'_>, axis: TimeAxis, place: usize, drawing: &mut D)
    requires top { top ≤ 41000 }
    requires axis { axis.start ≡ labels.now.start }
    requires place { place < length labels.now.marks }
    requires few { place < 26 }
    ensures { D.drew drawing.old drawing.new (flat_map (row_of top labels.now axis.cycles) (option_to_list (marked_at labels.now axis.cycles place))) }
{
    if let Some(marked) = marked_at(labels, axis.cycles, place) {
        put_row_of(top, labels, axis, marked, drawing);
    }
}

/// Puts the list of marks, from `top` downward.
pub(crate) fn put_list<D: Drawing>(top: u32, labels: &Labels<'_>, axis: TimeAxis, drawing: &mut D)
    requires top { top ≤ 41000 }
    requires axis { axis.start ≡ labels.now.start }
    ensures { D.drew drawing.old drawing.new (list_marks top labels.now axis.cycles) }
{
    for place in 0..labels.marks() {
        put_row(top, labels, axis, place, drawing);
    }
}

/// How much of the page the list takes: none where no mark is drawn.
pub(crate) fn list_height(labels: &Labels<'_>, cycles: u16) -> u32
    ensures value { result ≡ list_height labels.now cycles }
    ensures most { result ≤ 10400 }
{
    ROW * count_among(labels, 1, cycles, labels.marks())
}
