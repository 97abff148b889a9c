// Places on the page.
ghost use Rattle.std.specs.Prelude.{◌≡◌, ◌<◌, ◌^◌};
ghost use Rattle.page_marks.specs.Places.{area_at, point_at};

use svg_text::{Area, Point};

/// A place, so far to the right and so far down.
pub fn point_at(x: u32, y: u32) -> Point
    requires x { x < 2 ^ 16 }
    requires y { y < 2 ^ 16 }
    ensures { result ≡ point_at x y }
{
    Point {
        x: x as i32,
        y: y as i32,
    }
}

/// A rectangle, by its upper left corner.
pub fn area_at(x: u32, y: u32, width: u32, height: u32) -> Area
    requires x { x < 2 ^ 16 }
    requires y { y < 2 ^ 16 }
    ensures { result ≡ area_at x y width height }
{
    Area {
        corner: point_at(x, y),
        width,
        height,
    }
}
