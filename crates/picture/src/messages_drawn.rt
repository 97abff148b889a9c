// How the arrows of messages are drawn between the lanes.
ghost use Rattle.std.specs.Prelude.{◌≡◌, ◌∷◌, [], ◌≤◌, length};
ghost use Rattle.air_journal.specs.Airs.{address_of};
ghost use Rattle.picture.specs.Layout.{IsLane};
ghost use Rattle.picture.specs.Messages.{IsArrow};
ghost use Rattle.picture.specs.MessagesDrawn.{IsShaft, arrow_marks, arrow_shaft, arrow_title, color_of, down_shaft, event_x, head_points, message_text, shaft_marks, shaft_of, up_shaft};
ghost use Rattle.page_marks.specs.Paints.{filled};
ghost use Rattle.svg_text.specs.Marks.{traced};
ghost use Rattle.svg_text.specs.declared.drawing.TheConstants.{LABEL_BYTES};
ghost use Rattle.svg_text.specs.declared.shapes.Outline.TheVariants as outlines;

use crate::altitude::address_of;
use crate::layout::{Lane, lane_of};
use crate::messages_read::Arrow;
use acas_base::{Address, Encounter, Vrc};
use acas_text::Line;
use page_marks::{blue, filled, line_paint, note, point_at, vermilion};
use plot_axes::{TIME_BEGIN, TimeAxis};
use svg_text::{Color, Drawing, Outline, Shape};

/// Where an arrow stands: its tail, where its head begins, and its tip; and how far it is from the lane of its sender
/// to the next lane.
#[derive(Clone, Copy)]
pub(crate) struct Shaft {
    pub tail_x: u32,
    pub tail_y: u32,
    pub tip_x: u32,
    pub neck_y: u32,
    pub tip_y: u32,
    pub room: u32,
}

// ---- what it says

fn color_of(after: Vrc) -> Color
    ensures { result ≡ color_of after }
{
    match after {
        Vrc::Nil => note(),
        Vrc::NotBelow => blue(),
        Vrc::NotAbove => vermilion(),
    }
}

// A message, by its number and the addresses.
#[tactic(auto, unfolding(crate::specs::MessagesDrawn::message_text))]
fn message_text(sender: Address, receiver: Address, number: u16) -> Line
    ensures text { result ≡ message_text sender receiver number }
    ensures short { length result ≤ 33 }
{
    let mut line = Line::new();
    line.text("message ");
    line.u16(number);
    line.text(" of ");
    line.address(sender.value());
    line.text(" to ");
    line.address(receiver.value());
    line
}

#[tactic(auto, unfolding(crate::specs::MessagesDrawn::arrow_title))]
fn arrow_title(sender: Address, receiver: Address, arrow: Arrow) -> Line
    ensures text { result ≡ arrow_title sender receiver arrow }
    ensures short { length result ≤ LABEL_BYTES }
{
    let mut line = message_text(sender, receiver, arrow.taking.number);
    line.text(", cycles ");
    line.u16(arrow.sent_after);
    line.text(" and ");
    line.u16(arrow.taking.taken_after);
    line.text(", positions ");
    line.u32(arrow.taking.send);
    line.text(" and ");
    line.u32(arrow.taking.take);
    line
}

// ---- where it stands

/// How far to the right stands what happens after so many commits of an aircraft.
#[tactic(auto, unfolding(crate::specs::MessagesDrawn::event_x))]
pub(crate) fn event_x(axis: TimeAxis, commits: u16) -> u32
    requires { commits ≤ axis.cycles }
    ensures value { result ≡ event_x axis.cycles commits }
    ensures left { 2000 ≤ result }
    ensures right { result ≤ 17800 }
{
    if commits == 0 {
        TIME_BEGIN
    } else {
        axis.middle(commits)
    }
}

fn down_shaft(from: u32, to: u32, upper: Lane, lower: Lane) -> Shaft
    requires from_left { 2000 ≤ from }
    requires from_right { from ≤ 17800 }
    requires to_left { 2000 ≤ to }
    requires to_right { to ≤ 17800 }
    requires upper { IsLane upper }
    requires lower { IsLane lower }
    ensures value { result ≡ down_shaft from to upper lower }
    ensures near { IsShaft result }
{
    let top = lower.base - lower.tall;
    Shaft {
        tail_x: from - 70,
        tail_y: upper.base,
        tip_x: to - 70,
        neck_y: top - 180,
        tip_y: top,
        room: upper.room,
    }
}

fn up_shaft(from: u32, to: u32, lower: Lane, upper: Lane) -> Shaft
    requires from_left { 2000 ≤ from }
    requires from_right { from ≤ 17800 }
    requires to_left { 2000 ≤ to }
    requires to_right { to ≤ 17800 }
    requires lower { IsLane lower }
    requires upper { IsLane upper }
    ensures value { result ≡ up_shaft from to lower upper }
    ensures near { IsShaft result }
{
    Shaft {
        tail_x: from + 70,
        tail_y: lower.base - lower.tall,
        tip_x: to + 70,
        neck_y: upper.base + 180,
        tip_y: upper.base,
        room: lower.room,
    }
}

/// From the lane of a sender to that of a receiver.
#[tactic(auto, unfolding(crate::specs::MessagesDrawn::shaft_of))]
pub(crate) fn shaft_of(from: u32, to: u32, sender: Lane, receiver: Lane) -> Shaft
    requires from_left { 2000 ≤ from }
    requires from_right { from ≤ 17800 }
    requires to_left { 2000 ≤ to }
    requires to_right { to ≤ 17800 }
    requires sender { IsLane sender }
    requires receiver { IsLane receiver }
    ensures value { result ≡ shaft_of from to sender receiver }
    ensures near { IsShaft result }
{
    if sender.base < receiver.base {
        down_shaft(from, to, sender, receiver)
    } else {
        up_shaft(from, to, sender, receiver)
    }
}

// The shaft of an arrow.
fn arrow_shaft(encounter: &Encounter, axis: TimeAxis, arrow: Arrow) -> Shaft
    requires axis { axis.cycles ≡ encounter.now.cycles }
    requires arrow { IsArrow encounter.now arrow }
    ensures value { result ≡ arrow_shaft encounter.now arrow }
    ensures near { IsShaft result }
{
    encounter.valid_law();
    let crafts = encounter.crafts();
    shaft_of(
        event_x(axis, arrow.sent_after),
        event_x(axis, arrow.taking.taken_after),
        lane_of(crafts, usize::from(arrow.taking.sender)),
        lane_of(crafts, usize::from(arrow.taking.receiver)),
    )
}

// ---- its marks

/// Passes through the points of its head.
pub(crate) fn put_head_points<D: Drawing>(shaft: Shaft, drawing: &mut D)
    requires { IsShaft shaft }
    ensures { D.passed drawing.old drawing.new (head_points shaft) }
{
    drawing.point(point_at(shaft.tip_x - 90, shaft.neck_y));
    drawing.point(point_at(shaft.tip_x + 90, shaft.neck_y));
    drawing.point(point_at(shaft.tip_x, shaft.tip_y));
}

// Puts its head.
fn put_head<D: Drawing>(shaft: Shaft, color: Color, title: &Line, drawing: &mut D)
    requires shaft { IsShaft shaft }
    requires title { length title.now ≤ LABEL_BYTES }
    ensures { D.drew drawing.old drawing.new (traced outlines.Closed (head_points shaft) (filled color color 30) title.now ∷ []) }
{
    drawing.begin_points(Outline::Closed);
    put_head_points(shaft, drawing);
    drawing.end_points(Outline::Closed, filled(color, color, 30), title);
}

fn put_shaft<D: Drawing>(shaft: Shaft, color: Color, title: &Line, drawing: &mut D)
    requires shaft { IsShaft shaft }
    requires title { length title.now ≤ LABEL_BYTES }
    ensures { D.drew drawing.old drawing.new (shaft_marks shaft color title.now) }
{
    let line = Shape::Segment {
        from: point_at(shaft.tail_x, shaft.tail_y),
        to: point_at(shaft.tip_x, shaft.neck_y),
    };
    drawing.figure(line, line_paint(color, 40), title);
    put_head(shaft, color, title, drawing);
}

/// Puts an arrow.
#[tactic(auto, unfolding(crate::specs::MessagesDrawn::arrow_marks))]
pub(crate) fn put_arrow<D: Drawing>(
    encounter: &Encounter,
    axis: TimeAxis,
    arrow: Arrow,
    drawing: &mut D,
)
    requires axis { axis.cycles ≡ encounter.now.cycles }
    requires arrow { IsArrow encounter.now arrow }
    ensures { D.drew drawing.old drawing.new (arrow_marks encounter.now arrow) }
{
    let sender = address_of(encounter, arrow.taking.sender);
    let receiver = address_of(encounter, arrow.taking.receiver);
    put_shaft(
        arrow_shaft(encounter, axis, arrow),
        color_of(arrow.after),
        &arrow_title(sender, receiver, arrow),
        drawing,
    );
}
