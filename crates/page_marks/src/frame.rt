// What a panel stands in, and a line of one point.
ghost use Rattle.std.specs.Prelude.{◌≡◌, ◌+◌, ◌<◌, ◌≤◌, ◌^◌, ◌∷◌, [], length};
ghost use Rattle.page_marks.specs.Frame.{dot_mark, frame_marks};
ghost use Rattle.svg_text.specs.declared.drawing.TheConstants.{LABEL_BYTES};

use crate::paints::{ink, plain, put_line, put_words};
use crate::places::{area_at, point_at};
use acas_text::Line;
use svg_text::{Anchor, Color, Drawing, Point, Shape, Weight};

/// Puts the box of a panel, with a heading over it at the left and a note at the right. The box begins 500 below the
/// top of the panel.
pub fn put_frame<D: Drawing>(top: u32, height: u32, heading: &Line, note: &Line, drawing: &mut D)
    requires top { top ≤ 60000 }
    requires heading { length heading.now ≤ LABEL_BYTES }
    requires note { length note.now ≤ LABEL_BYTES }
    ensures { D.drew drawing.old drawing.new (frame_marks top height heading.now note.now) }
{
    put_words(
        point_at(2_000, top + 350),
        260,
        Anchor::Start,
        Weight::Bold,
        heading,
        drawing,
    );
    put_words(
        point_at(17_800, top + 350),
        240,
        Anchor::End,
        Weight::Regular,
        note,
        drawing,
    );
    put_line(
        Shape::Rect(area_at(2_000, top + 500, 15_800, height)),
        ink(),
        drawing,
    );
}

/// Puts a dot. It stands for a line that has one point.
pub fn put_dot<D: Drawing>(color: Color, point: Point, title: &Line, drawing: &mut D)
    requires { length title.now ≤ LABEL_BYTES }
    ensures { D.drew drawing.old drawing.new (dot_mark color point title.now ∷ []) }
{
    let dot = Shape::Circle {
        center: point,
        radius: 40,
    };
    drawing.figure(dot, plain(color), title);
}
