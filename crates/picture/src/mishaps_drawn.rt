// How messages that were lost or spoilt are drawn between the lanes.
ghost use Rattle.std.specs.Prelude.{◌≡◌, ◌+◌, ◌-◌, ◌<◌, ◌≤◌, ◌∷◌, [], length};
ghost use Rattle.std.specs.Fmt.{decimal};
ghost use Rattle.air_journal.specs.Airs.{address_of};
ghost use Rattle.picture.specs.MessagesDrawn.{IsShaft, head_points};
ghost use Rattle.picture.specs.Mishaps.{IsSentRow};
ghost use Rattle.picture.specs.MishapsDrawn.{count_marks, count_x, cross_at, cross_marks, drawn_row, fate_text, hollow_marks, lost_way, lost_y, numbers_text, row_shaft, row_title, sign_marks, stroke, titled_row};
ghost use Rattle.page_marks.specs.Paints.{ink, line_paint};
ghost use Rattle.svg_text.specs.Marks.{traced};
ghost use Rattle.svg_text.specs.declared.drawing.TheConstants.{LABEL_BYTES};
ghost use Rattle.svg_text.specs.declared.shapes.Outline.TheVariants as outlines;

use crate::altitude::address_of;
use crate::layout::lane_of;
use crate::messages_drawn::{Shaft, event_x, put_head_points, shaft_of};
use crate::mishaps::{SentRow, Sign};
use acas_base::{Address, Encounter};
use acas_text::Line;
use deliveries::Row;
use page_marks::{dashed_paint, ink, line_paint, point_at, put_over};
use plot_axes::TimeAxis;
use svg_text::{Dash, Drawing, Outline, Point, Shape};

// ---- what is said of a row

// The numbers of its messages.
#[tactic(auto, unfolding(crate::specs::MishapsDrawn::numbers_text))]
fn numbers_text(row: Row) -> Line
    ensures text { result ≡ numbers_text row }
    ensures short { length result ≤ 23 }
{
    let mut line = Line::new();
    if row.first == row.last {
        line.text("message ");
        line.u16(row.first);
    } else {
        line.text("messages ");
        line.u16(row.first);
        line.text(" to ");
        line.u16(row.last);
    }
    line
}

fn fate_text(sign: Sign) -> &'static str
    ensures text { result.now ≡ fate_text sign }
    ensures short { length result.now ≤ 7 }
{
    match sign {
        Sign::Cross => " lost",
        Sign::HollowHead => " spoilt",
    }
}

#[tactic(auto, unfolding(crate::specs::MishapsDrawn::row_title))]
fn row_title(sender: Address, receiver: Address, sign: Sign, sent: SentRow) -> Line
    ensures text { result ≡ row_title sender receiver sign sent }
    ensures short { length result ≤ LABEL_BYTES }
{
    let mut line = numbers_text(sent.row);
    line.text(" of ");
    line.address(sender.value());
    line.text(" to ");
    line.address(receiver.value());
    line.text(fate_text(sign));
    line.text(", cycle ");
    line.u16(sent.sent_after);
    line
}

// ---- where a lost message ends

fn lost_way(room: u32, from: u32, to: u32) -> u32
    requires { room ≤ 880 }
    ensures value { result ≡ lost_way room from to }
    ensures few { result ≤ 440 }
{
    let third = to.saturating_sub(from) / 3;
    let half = room / 2;
    if half < third { half } else { third }
}

#[tactic(auto, unfolding(crate::specs::MishapsDrawn::lost_y))]
fn lost_y(shaft: Shaft) -> u32
    requires { IsShaft shaft }
    ensures value { result ≡ lost_y shaft }
    ensures most { result ≤ 39940 }
{
    if shaft.tail_y < shaft.tip_y {
        shaft.tail_y + lost_way(shaft.room, shaft.tail_y, shaft.tip_y)
    } else {
        let back = lost_way(shaft.room, shaft.tip_y, shaft.tail_y);
        shaft.tail_y.saturating_sub(back)
    }
}

// ---- the marks

// Puts a straight line.
fn put_stroke<D: Drawing>(from: Point, to: Point, title: &Line, drawing: &mut D)
    requires { length title.now ≤ LABEL_BYTES }
    ensures { D.drew drawing.old drawing.new (stroke from to title.now ∷ []) }
{
    drawing.figure(Shape::Segment { from, to }, line_paint(ink(), 40), title);
}

// Puts two strokes that cross each other.
fn put_cross_at<D: Drawing>(x: u32, y: u32, title: &Line, drawing: &mut D)
    requires x { x ≤ 20000 }
    requires y { y ≤ 40000 }
    requires title { length title.now ≤ LABEL_BYTES }
    ensures { D.drew drawing.old drawing.new (cross_at x y title.now) }
{
    let left = x.saturating_sub(70);
    let high = y.saturating_sub(70);
    put_stroke(
        point_at(left, high),
        point_at(x + 70, y + 70),
        title,
        drawing,
    );
    put_stroke(
        point_at(left, y + 70),
        point_at(x + 70, high),
        title,
        drawing,
    );
}

// Puts a line that ends in a cross.
fn put_cross<D: Drawing>(shaft: Shaft, title: &Line, drawing: &mut D)
    requires shaft { IsShaft shaft }
    requires title { length title.now ≤ LABEL_BYTES }
    ensures { D.drew drawing.old drawing.new (cross_marks shaft title.now) }
{
    let x = shaft.tail_x;
    let y = lost_y(shaft);
    put_stroke(point_at(x, shaft.tail_y), point_at(x, y), title, drawing);
    put_cross_at(x, y, title, drawing);
}

// Puts a head that isn't filled.
fn put_empty_head<D: Drawing>(shaft: Shaft, title: &Line, drawing: &mut D)
    requires shaft { IsShaft shaft }
    requires title { length title.now ≤ LABEL_BYTES }
    ensures { D.drew drawing.old drawing.new (traced outlines.Closed (head_points shaft) (line_paint ink 30) title.now ∷ []) }
{
    drawing.begin_points(Outline::Closed);
    put_head_points(shaft, drawing);
    drawing.end_points(Outline::Closed, line_paint(ink(), 30), title);
}

// Puts a line of dashes that ends in such a head.
fn put_hollow<D: Drawing>(shaft: Shaft, title: &Line, drawing: &mut D)
    requires shaft { IsShaft shaft }
    requires title { length title.now ≤ LABEL_BYTES }
    ensures { D.drew drawing.old drawing.new (hollow_marks shaft title.now) }
{
    let line = Shape::Segment {
        from: point_at(shaft.tail_x, shaft.tail_y),
        to: point_at(shaft.tip_x, shaft.neck_y),
    };
    drawing.figure(line, dashed_paint(ink(), 40, Dash::Short), title);
    put_empty_head(shaft, title, drawing);
}

/// Puts a sign.
pub(crate) fn put_sign<D: Drawing>(sign: Sign, shaft: Shaft, title: &Line, drawing: &mut D)
    requires shaft { IsShaft shaft }
    requires title { length title.now ≤ LABEL_BYTES }
    ensures { D.drew drawing.old drawing.new (sign_marks sign shaft title.now) }
{
    match sign {
        Sign::Cross => put_cross(shaft, title, drawing),
        Sign::HollowHead => put_hollow(shaft, title, drawing),
    }
}

fn count_x(shaft: Shaft) -> u32
    requires { IsShaft shaft }
    ensures value { result ≡ count_x shaft }
    ensures most { result ≤ 18150 }
{
    if shaft.tail_y < shaft.tip_y {
        shaft.tail_x.saturating_sub(280)
    } else {
        shaft.tail_x + 280
    }
}

// How many messages there are.
fn count_text(row: Row) -> Line
    requires order { row.first ≤ row.last }
    requires few { row.last ≤ 600 }
    ensures text { result ≡ decimal ((row.last + 1) - row.first) }
    ensures short { length result ≤ LABEL_BYTES }
{
    let mut line = Line::new();
    line.u16(row.last + 1 - row.first);
    line
}

// Puts how many messages there are, where it isn't one.
#[tactic(auto, unfolding(crate::specs::MishapsDrawn::count_marks))]
fn put_count<D: Drawing>(shaft: Shaft, row: Row, title: &Line, drawing: &mut D)
    requires shaft { IsShaft shaft }
    requires order { row.first ≤ row.last }
    requires few { row.last ≤ 600 }
    requires title { length title.now ≤ LABEL_BYTES }
    ensures { D.drew drawing.old drawing.new (count_marks shaft row title.now) }
{
    if row.first == row.last {
        return;
    }
    let at = point_at(count_x(shaft), lost_y(shaft) + 80);
    put_over(at, 220, &count_text(row), title, drawing);
}

fn put_titled<D: Drawing>(sign: Sign, sent: SentRow, shaft: Shaft, title: &Line, drawing: &mut D)
    requires order { sent.row.first ≤ sent.row.last }
    requires few { sent.row.last ≤ 600 }
    requires shaft { IsShaft shaft }
    requires title { length title.now ≤ LABEL_BYTES }
    ensures { D.drew drawing.old drawing.new (titled_row sign sent shaft title.now) }
{
    put_sign(sign, shaft, title, drawing);
    put_count(shaft, sent.row, title, drawing);
}

// It stands in the cycle in which the first message was sent.
fn row_shaft(encounter: &Encounter, axis: TimeAxis, sent: SentRow) -> Shaft
    requires axis { axis.cycles ≡ encounter.now.cycles }
    requires sent { IsSentRow encounter.now sent }
    ensures value { result ≡ row_shaft encounter.now sent }
    ensures near { IsShaft result }
{
    encounter.valid_law();
    let crafts = encounter.crafts();
    let x = event_x(axis, sent.sent_after);
    shaft_of(
        x,
        x,
        lane_of(crafts, usize::from(sent.sender)),
        lane_of(crafts, usize::from(sent.receiver)),
    )
}

/// Puts the sign of a maximal row of messages, and how many there are.
#[tactic(auto, unfolding(crate::specs::MishapsDrawn::drawn_row))]
pub(crate) fn put_row<D: Drawing>(
    encounter: &Encounter,
    axis: TimeAxis,
    sign: Sign,
    sent: SentRow,
    drawing: &mut D,
)
    requires axis { axis.cycles ≡ encounter.now.cycles }
    requires sent { IsSentRow encounter.now sent }
    ensures { D.drew drawing.old drawing.new (drawn_row encounter.now sign sent) }
{
    let sender = address_of(encounter, sent.sender);
    let receiver = address_of(encounter, sent.receiver);
    put_titled(
        sign,
        sent,
        row_shaft(encounter, axis, sent),
        &row_title(sender, receiver, sign, sent),
        drawing,
    );
}
