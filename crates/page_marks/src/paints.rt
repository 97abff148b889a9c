// How things are drawn.
ghost use Rattle.std.specs.Prelude.{◌≡◌, ◌≤◌, ◌∷◌, ◌++◌, [], length};
ghost use Rattle.page_marks.specs.Paints.{amber, blue, box_marks, box_paint, dashed_paint, filled, grid, halo, hatched, hatching, ink, letters, line_paint, note, pale_purple, plain, purple, solid, vermilion, white};
ghost use Rattle.svg_text.specs.Marks.{figure, worded};
ghost use Rattle.svg_text.specs.declared.drawing.TheConstants.{LABEL_BYTES};
ghost use Rattle.svg_text.specs.declared.shapes.Anchor.TheVariants as anchors;
ghost use Rattle.svg_text.specs.declared.shapes.Weight.TheVariants as weights;
ghost use Rattle.svg_text.specs.declared.shapes.Shape.TheVariants as shapes;

use acas_text::Line;
use svg_text::{
    Anchor, Area, Color, Dash, Drawing, Fill, Lettering, Paint, Point, Shape, Stroke, Turn, Weight,
};

/// What a box stands for: traffic alone, or advice up, down, or both.
#[derive(Clone, Copy)]
pub enum Advised {
    Traffic,
    Up,
    Down,
    Both,
}

/// Of letters and edges.
pub fn ink() -> Color
    ensures { result ≡ ink }
{
    Color {
        red: 34,
        green: 34,
        blue: 34,
    }
}

fn white() -> Color
    ensures { result ≡ white }
{
    Color {
        red: 255,
        green: 255,
        blue: 255,
    }
}

/// Of lines behind the bars.
pub fn grid() -> Color
    ensures { result ≡ grid }
{
    Color {
        red: 204,
        green: 204,
        blue: 204,
    }
}

/// Of what is beside the matter.
pub fn note() -> Color
    ensures { result ≡ note }
{
    Color {
        red: 119,
        green: 119,
        blue: 119,
    }
}

/// Of traffic.
pub fn amber() -> Color
    ensures { result ≡ amber }
{
    Color {
        red: 240,
        green: 176,
        blue: 0,
    }
}

/// Of advice up, and of what leaves up open.
pub fn blue() -> Color
    ensures { result ≡ blue }
{
    Color {
        red: 0,
        green: 114,
        blue: 178,
    }
}

/// Of advice down, and of what leaves down open.
pub fn vermilion() -> Color
    ensures { result ≡ vermilion }
{
    Color {
        red: 213,
        green: 94,
        blue: 0,
    }
}

/// Of advice up and down.
pub fn purple() -> Color
    ensures { result ≡ purple }
{
    Color {
        red: 142,
        green: 69,
        blue: 133,
    }
}

fn pale_purple() -> Color
    ensures { result ≡ pale_purple }
{
    Color {
        red: 243,
        green: 230,
        blue: 241,
    }
}

fn solid(color: Color, width: u16) -> Option<Stroke>
    ensures { result ≡ solid color width }
{
    Some(Stroke {
        color,
        width,
        dash: Dash::Solid,
    })
}

/// A line, or an edge alone.
pub fn line_paint(color: Color, width: u16) -> Paint
    ensures { result ≡ line_paint color width }
{
    Paint {
        fill: Fill::Nothing,
        stroke: solid(color, width),
    }
}

/// A line of dashes.
pub fn dashed_paint(color: Color, width: u16, dash: Dash) -> Paint
    ensures { result ≡ dashed_paint color width dash }
{
    Paint {
        fill: Fill::Nothing,
        stroke: Some(Stroke { color, width, dash }),
    }
}

/// A colour with an edge.
pub fn filled(inside: Color, edge: Color, width: u16) -> Paint
    ensures { result ≡ filled inside edge width }
{
    Paint {
        fill: Fill::Plain(inside),
        stroke: solid(edge, width),
    }
}

/// A colour without an edge.
pub fn plain(inside: Color) -> Paint
    ensures { result ≡ plain inside }
{
    Paint {
        fill: Fill::Plain(inside),
        stroke: None,
    }
}

/// White stripes alone.
pub fn hatched() -> Paint
    ensures { result ≡ hatched }
{
    Paint {
        fill: Fill::Hatched,
        stroke: None,
    }
}

fn box_paint(advised: Advised) -> Paint
    ensures { result ≡ box_paint advised }
{
    match advised {
        Advised::Traffic => filled(amber(), ink(), 12),
        Advised::Up => filled(blue(), ink(), 12),
        Advised::Down => filled(vermilion(), ink(), 12),
        Advised::Both => filled(pale_purple(), purple(), 50),
    }
}

// Puts white stripes over the box of advice to go down.
fn put_hatching<D: Drawing>(advised: Advised, area: Area, title: &Line, drawing: &mut D)
    requires { length title.now ≤ LABEL_BYTES }
    ensures { D.drew drawing.old drawing.new (hatching advised area title.now) }
{
    match advised {
        Advised::Down => drawing.figure(Shape::Rect(area), hatched(), title),
        Advised::Traffic => {}
        Advised::Up => {}
        Advised::Both => {}
    }
}

/// Puts a box that stands for this.
pub fn put_box<D: Drawing>(advised: Advised, area: Area, title: &Line, drawing: &mut D)
    requires { length title.now ≤ LABEL_BYTES }
    ensures { D.drew drawing.old drawing.new (box_marks advised area title.now) }
{
    drawing.figure(Shape::Rect(area), box_paint(advised), title);
    put_hatching(advised, area, title, drawing);
}

/// Puts a straight line, or the edge of a box.
pub fn put_line<D: Drawing>(shape: Shape, color: Color, drawing: &mut D)
    ensures { D.drew drawing.old drawing.new (figure shape (line_paint color 15) [] ∷ []) }
{
    drawing.figure(shape, line_paint(color, 15), &Line::new());
}

fn letters(at: Point, size: u16, anchor: Anchor, weight: Weight) -> Lettering
    ensures { result ≡ letters at size anchor weight }
{
    Lettering {
        at,
        size,
        anchor,
        weight,
        turn: Turn::Level,
        paint: Paint {
            fill: Fill::Plain(ink()),
            stroke: None,
        },
    }
}

fn halo(at: Point, size: u16, anchor: Anchor, weight: Weight) -> Lettering
    ensures { result ≡ halo at size anchor weight }
{
    Lettering {
        at,
        size,
        anchor,
        weight,
        turn: Turn::Level,
        paint: Paint {
            fill: Fill::Plain(white()),
            stroke: solid(white(), 70),
        },
    }
}

/// Puts words without a title.
pub fn put_words<D: Drawing>(
    at: Point,
    size: u16,
    anchor: Anchor,
    weight: Weight,
    words: &Line,
    drawing: &mut D,
)
    requires { length words.now ≤ LABEL_BYTES }
    ensures { D.drew drawing.old drawing.new (worded (letters at size anchor weight) words.now [] ∷ []) }
{
    drawing.words(&letters(at, size, anchor, weight), words, &Line::new());
}

/// Puts words over a box, with white behind them.
pub fn put_over<D: Drawing>(at: Point, size: u16, words: &Line, title: &Line, drawing: &mut D)
    requires words { length words.now ≤ LABEL_BYTES }
    requires title { length title.now ≤ LABEL_BYTES }
    ensures { D.drew drawing.old drawing.new (worded (halo at size anchors.Middle weights.Regular) words.now title.now ∷ worded (letters at size anchors.Middle weights.Regular) words.now title.now ∷ []) }
{
    drawing.words(
        &halo(at, size, Anchor::Middle, Weight::Regular),
        words,
        title,
    );
    drawing.words(
        &letters(at, size, Anchor::Middle, Weight::Regular),
        words,
        title,
    );
}
