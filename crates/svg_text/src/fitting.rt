// Facts for the proof: the numbers of what a drawing is made of fit their types.
ghost use Rattle.svg_text.specs.Fitting.{FitsFrame, FitsLettering, FitsPaint, FitsShape, FitsStroke, IsArea, IsPoint};

use crate::document::Frame;
use crate::shapes::{Area, Lettering, Paint, Point, Shape, Stroke};

pub(crate) fn point_fits(point: Point)
    ensures { IsPoint point }
{
    let _x = point.x;
    let _y = point.y;
}

pub(crate) fn area_fits(area: Area)
    ensures { IsArea area }
{
    point_fits(area.corner);
    let _width = area.width;
    let _height = area.height;
}

pub(crate) fn shape_fits(shape: Shape)
    ensures { FitsShape shape }
{
    match shape {
        Shape::Rect(area) => area_fits(area),
        Shape::Segment { from, to } => {
            point_fits(from);
            point_fits(to);
        }
        Shape::Circle { center, radius } => {
            point_fits(center);
            let _radius = radius;
        }
    }
}

fn stroke_fits(stroke: Option<Stroke>)
    ensures { FitsStroke stroke }
{
    if let Some(stroke) = stroke {
        let _width = stroke.width;
    }
}

pub(crate) fn paint_fits(paint: Paint)
    ensures { FitsPaint paint }
{
    stroke_fits(paint.stroke);
}

pub(crate) fn lettering_fits(lettering: &Lettering)
    ensures { FitsLettering lettering.now }
{
    point_fits(lettering.at);
    paint_fits(lettering.paint);
    let _size = lettering.size;
}

pub(crate) fn frame_fits(frame: &Frame)
    ensures { FitsFrame frame.now }
{
    let _width = frame.width;
    let _height = frame.height;
    area_fits(frame.window);
}
