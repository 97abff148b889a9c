// Tags and their attributes.
ghost use Rattle.std.specs.Prelude.{◌≡◌, ◌+◌, ◌≤◌, ◌++◌, codes, length};
ghost use Rattle.std.specs.Fmt.{decimal, signed_decimal};
ghost use Rattle.acas_text.specs.Hex.{hex};
ghost use Rattle.acas_text.specs.declared.line.TheConstants.{LINE_BYTES};
ghost use Rattle.svg_text.specs.Attributes.{anchor_settings, area_settings, color_text, dash_settings, extent_settings, fill_setting, lettering_settings, opening, paint_settings, place_settings, place_text, point_settings, set, setting_text, settings_text, shape_element, shape_settings, stroke_settings, turn_settings, turn_text, weight_settings};
ghost use Rattle.svg_text.specs.Marks.{end_line};
ghost use Rattle.svg_text.specs.Names.{element_name};

use crate::names::{Attribute, Element};
use crate::shapes::{
    Anchor, Area, Color, Dash, Fill, Lettering, Paint, Point, Shape, Stroke, Turn, Weight,
};
use acas_text::Line;

// ---- values

/// Begins an attribute: its value follows.
#[tactic(auto, unfolding(crate::specs::Attributes::opening))]
pub(crate) fn begin_attribute(line: &mut Line, name: Attribute)
    requires { length line.old + 19 ≤ LINE_BYTES }
    ensures added { line.new ≡ line.old ++ opening name }
    ensures short { length line.new ≤ length line.old + 19 }
{
    line.text(" ");
    line.text(name.name());
    line.text("=\"");
}

/// Adds an attribute with a fixed value.
pub(crate) fn add_word(line: &mut Line, name: Attribute, value: &str)
    requires { length line.old + 20 + length value.now ≤ LINE_BYTES }
    ensures added { line.new ≡ line.old ++ setting_text (set name value.now) }
    ensures short { length line.new ≤ length line.old + 20 + length value.now }
{
    begin_attribute(line, name);
    line.text(value);
    line.text("\"");
}

/// Adds an attribute with a number.
pub(crate) fn add_number(line: &mut Line, name: Attribute, number: i32)
    requires { length line.old + 31 ≤ LINE_BYTES }
    ensures added { line.new ≡ line.old ++ setting_text (set name (signed_decimal number)) }
    ensures short { length line.new ≤ length line.old + 31 }
{
    begin_attribute(line, name);
    line.i32(number);
    line.text("\"");
}

/// Adds an attribute with a size.
pub(crate) fn add_size(line: &mut Line, name: Attribute, size: u32)
    requires { length line.old + 31 ≤ LINE_BYTES }
    ensures added { line.new ≡ line.old ++ setting_text (set name (decimal size)) }
    ensures short { length line.new ≤ length line.old + 31 }
{
    begin_attribute(line, name);
    line.u32(size);
    line.text("\"");
}

// ---- paint

// Adds the shares of a colour.
#[tactic(auto, unfolding(crate::specs::Attributes::color_text))]
fn add_color_text(line: &mut Line, color: Color)
    requires { length line.old + 7 ≤ LINE_BYTES }
    ensures added { line.new ≡ line.old ++ color_text color }
    ensures longer { length line.new ≡ length line.old + 7 }
{
    line.text("#");
    line.hex(u64::from(color.red), 2);
    line.hex(u64::from(color.green), 2);
    line.hex(u64::from(color.blue), 2);
}

fn add_color(line: &mut Line, name: Attribute, color: Color)
    requires { length line.old + 27 ≤ LINE_BYTES }
    ensures added { line.new ≡ line.old ++ setting_text (set name (color_text color)) }
    ensures short { length line.new ≤ length line.old + 27 }
{
    begin_attribute(line, name);
    add_color_text(line, color);
    line.text("\"");
}

fn add_fill(line: &mut Line, fill: Fill)
    requires { length line.old + 35 ≤ LINE_BYTES }
    ensures added { line.new ≡ line.old ++ setting_text (fill_setting fill) }
    ensures short { length line.new ≤ length line.old + 35 }
{
    match fill {
        Fill::Nothing => add_word(line, Attribute::Fill, "none"),
        Fill::Plain(color) => add_color(line, Attribute::Fill, color),
        Fill::Hatched => add_word(line, Attribute::Fill, "url(#hatching)"),
    }
}

fn add_dash(line: &mut Line, dash: Dash)
    requires { length line.old + 32 ≤ LINE_BYTES }
    ensures added { line.new ≡ line.old ++ settings_text (dash_settings dash) }
    ensures short { length line.new ≤ length line.old + 32 }
{
    match dash {
        Dash::Solid => {}
        Dash::Long => add_word(line, Attribute::StrokeDashes, "260 100"),
        Dash::Short => add_word(line, Attribute::StrokeDashes, "100 70"),
        Dash::Sparse => add_word(line, Attribute::StrokeDashes, "40 90"),
        Dash::Dotted => add_word(line, Attribute::StrokeDashes, "20 50"),
        Dash::LongAndDot => add_word(line, Attribute::StrokeDashes, "300 90 40 90"),
    }
}

fn add_stroke(line: &mut Line, stroke: Option<Stroke>)
    requires { length line.old + 90 ≤ LINE_BYTES }
    ensures added { line.new ≡ line.old ++ settings_text (stroke_settings stroke) }
    ensures short { length line.new ≤ length line.old + 90 }
{
    if let Some(stroke) = stroke {
        add_color(line, Attribute::Stroke, stroke.color);
        add_size(line, Attribute::StrokeWidth, u32::from(stroke.width));
        add_dash(line, stroke.dash);
    }
}

/// Adds how a mark is drawn.
pub(crate) fn add_paint(line: &mut Line, paint: Paint)
    requires { length line.old + 125 ≤ LINE_BYTES }
    ensures added { line.new ≡ line.old ++ settings_text (paint_settings paint) }
    ensures short { length line.new ≤ length line.old + 125 }
{
    add_fill(line, paint.fill);
    add_stroke(line, paint.stroke);
}

// ---- shapes

pub(crate) fn shape_element(shape: Shape) -> Element
    ensures { result ≡ shape_element shape }
{
    match shape {
        Shape::Rect(_) => Element::Rect,
        Shape::Segment { .. } => Element::Line,
        Shape::Circle { .. } => Element::Circle,
    }
}

// Adds where a point is.
fn add_point(line: &mut Line, x: Attribute, y: Attribute, point: Point)
    requires { length line.old + 62 ≤ LINE_BYTES }
    ensures added { line.new ≡ line.old ++ settings_text (point_settings x y point) }
    ensures short { length line.new ≤ length line.old + 62 }
{
    add_number(line, x, point.x);
    add_number(line, y, point.y);
}

// Adds how large a rectangle is.
fn add_extent(line: &mut Line, area: Area)
    requires { length line.old + 62 ≤ LINE_BYTES }
    ensures added { line.new ≡ line.old ++ settings_text (extent_settings area) }
    ensures short { length line.new ≤ length line.old + 62 }
{
    add_size(line, Attribute::Width, area.width);
    add_size(line, Attribute::Height, area.height);
}

/// Adds where a rectangle is.
pub(crate) fn add_area(line: &mut Line, area: Area)
    requires { length line.old + 124 ≤ LINE_BYTES }
    ensures added { line.new ≡ line.old ++ settings_text (area_settings area) }
    ensures short { length line.new ≤ length line.old + 124 }
{
    add_point(line, Attribute::X, Attribute::Y, area.corner);
    add_extent(line, area);
}

/// Adds where a shape is.
pub(crate) fn add_shape(line: &mut Line, shape: Shape)
    requires { length line.old + 124 ≤ LINE_BYTES }
    ensures added { line.new ≡ line.old ++ settings_text (shape_settings shape) }
    ensures short { length line.new ≤ length line.old + 124 }
{
    match shape {
        Shape::Rect(area) => add_area(line, area),
        Shape::Segment { from, to } => {
            add_point(line, Attribute::X1, Attribute::Y1, from);
            add_point(line, Attribute::X2, Attribute::Y2, to);
        }
        Shape::Circle { center, radius } => {
            add_point(line, Attribute::CenterX, Attribute::CenterY, center);
            add_size(line, Attribute::Radius, u32::from(radius));
        }
    }
}

// ---- words

fn add_anchor(line: &mut Line, anchor: Anchor)
    requires { length line.old + 26 ≤ LINE_BYTES }
    ensures added { line.new ≡ line.old ++ settings_text (anchor_settings anchor) }
    ensures short { length line.new ≤ length line.old + 26 }
{
    match anchor {
        Anchor::Start => {}
        Anchor::Middle => add_word(line, Attribute::TextAnchor, "middle"),
        Anchor::End => add_word(line, Attribute::TextAnchor, "end"),
    }
}

fn add_weight(line: &mut Line, weight: Weight)
    requires { length line.old + 24 ≤ LINE_BYTES }
    ensures added { line.new ≡ line.old ++ settings_text (weight_settings weight) }
    ensures short { length line.new ≤ length line.old + 24 }
{
    match weight {
        Weight::Regular => {}
        Weight::Bold => add_word(line, Attribute::FontWeight, "bold"),
    }
}

#[tactic(auto, unfolding(crate::specs::Attributes::place_text))]
fn add_place_text(line: &mut Line, at: Point)
    requires { length line.old + 23 ≤ LINE_BYTES }
    ensures added { line.new ≡ line.old ++ place_text at }
    ensures short { length line.new ≤ length line.old + 23 }
{
    line.i32(at.x);
    line.text(" ");
    line.i32(at.y);
}

#[tactic(auto, unfolding(crate::specs::Attributes::turn_text))]
fn add_turn_text(line: &mut Line, at: Point)
    requires { length line.old + 35 ≤ LINE_BYTES }
    ensures added { line.new ≡ line.old ++ turn_text at }
    ensures short { length line.new ≤ length line.old + 35 }
{
    line.text("rotate(-90 ");
    add_place_text(line, at);
    line.text(")");
}

fn add_turn(line: &mut Line, turn: Turn, at: Point)
    requires { length line.old + 56 ≤ LINE_BYTES }
    ensures added { line.new ≡ line.old ++ settings_text (turn_settings turn at) }
    ensures short { length line.new ≤ length line.old + 56 }
{
    match turn {
        Turn::Level => {}
        Turn::Upward => {
            begin_attribute(line, Attribute::Transform);
            add_turn_text(line, at);
            line.text("\"");
        }
    }
}

fn add_place(line: &mut Line, lettering: &Lettering)
    requires { length line.old + 93 ≤ LINE_BYTES }
    ensures added { line.new ≡ line.old ++ settings_text (place_settings lettering.now) }
    ensures short { length line.new ≤ length line.old + 93 }
{
    add_point(line, Attribute::X, Attribute::Y, lettering.at);
    add_size(line, Attribute::FontSize, u32::from(lettering.size));
}

/// Adds how words are drawn, and where.
pub(crate) fn add_lettering(line: &mut Line, lettering: &Lettering)
    requires { length line.old + 324 ≤ LINE_BYTES }
    ensures added { line.new ≡ line.old ++ settings_text (lettering_settings lettering.now) }
    ensures short { length line.new ≤ length line.old + 324 }
{
    add_place(line, lettering);
    add_anchor(line, lettering.anchor);
    add_weight(line, lettering.weight);
    add_turn(line, lettering.turn, lettering.at);
    add_paint(line, lettering.paint);
}

// ---- tags

/// Begins the first tag of an element.
pub(crate) fn begin_tag(element: Element) -> Line
    ensures text { result ≡ codes "<" ++ element_name element }
    ensures short { length result ≤ 9 }
{
    let mut line = Line::new();
    line.text("<");
    line.text(element.name());
    line
}

/// The line of the last tag of an element.
pub(crate) fn end_line(element: Element) -> Line
    ensures { result ≡ end_line element }
{
    let mut line = Line::new();
    line.text("</");
    line.text(element.name());
    line.text(">\n");
    line
}
