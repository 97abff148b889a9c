// What stands in one of two recordings alone.
ghost use Rattle.std.specs.Prelude.{◌≡◌, ◌∷◌, ◌≤◌, [], length};
ghost use Rattle.comparison.specs.Sides.{side_text, told};

use acas_lines::{LineSink, fixed_line};
use acas_text::Line;

/// One of two recordings.
#[derive(Clone, Copy)]
pub(crate) enum Side {
    /// The one that comes first.
    One,
    /// The one that comes after it.
    Other,
}

fn side_text(side: Side) -> &'static str
    ensures text { result.now ≡ side_text side }
    ensures short { length result.now ≤ 6 }
{
    match side {
        Side::One => "one,",
        Side::Other => "other,",
    }
}

/// Puts a line that a side has, behind the word of the side.
pub(crate) fn put_told<S: LineSink>(side: Side, line: &Line, sink: &mut S)
    ensures { S.took sink.old sink.new (told side (line.now ∷ [])) }
{
    sink.line(&fixed_line(side_text(side)));
    sink.line(line);
}
