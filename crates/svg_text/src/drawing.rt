// What takes the marks of a drawing.
ghost use Rattle.std.specs.Prelude.{◌≡◌, ◌+◌, ◌*◌, ◌≤◌, ◌++◌, ◌∷◌, [], List, ℕ, length};
ghost use Rattle.acas_text.specs.declared.line.TheConstants.{LINE_BYTES};
ghost use Rattle.svg_text.specs.Attributes.{outline_element};
ghost use Rattle.std.specs.List.{AllByRecursion};
ghost use Rattle.svg_text.specs.Fitting.{FitsMark};
ghost use Rattle.svg_text.specs.Marks.{Mark, after_points, before_points, figure, lettering_line, point_line, shape_line, title_line, title_lines, traced, words_line, worded};

use crate::attributes::{
    add_lettering, add_paint, add_shape, begin_attribute, begin_tag, end_line, shape_element,
};
use crate::escaped::add_escaped;
use crate::fitting::{lettering_fits, paint_fits, point_fits, shape_fits};
use crate::names::{Attribute, Element};
use crate::shapes::{Lettering, Outline, Paint, Point, Shape};
use acas_lines::LineSink;
use acas_text::Line;

/// The most bytes of a title, and of words.
pub const LABEL_BYTES: usize = 96;

// ---- lines

fn outline_element(outline: Outline) -> Element
    ensures { result ≡ outline_element outline }
{
    match outline {
        Outline::Open => Element::Polyline,
        Outline::Closed => Element::Polygon,
    }
}

fn shape_line(shape: Shape, paint: Paint) -> Line
    ensures { result ≡ shape_line shape paint }
{
    let mut line = begin_tag(shape_element(shape));
    add_shape(&mut line, shape);
    add_paint(&mut line, paint);
    line.text(">\n");
    line
}

fn lettering_line(lettering: &Lettering) -> Line
    ensures { result ≡ lettering_line lettering.now }
{
    let mut line = begin_tag(Element::Text);
    add_lettering(&mut line, lettering);
    line.text(">\n");
    line
}

fn words_line(words: &Line) -> Line
    requires { length words.now ≤ LABEL_BYTES }
    ensures { result ≡ words_line words.now }
{
    let mut line = Line::new();
    add_escaped(&mut line, words);
    line.text("\n");
    line
}

pub(crate) fn title_line(title: &Line) -> Line
    requires { length title.now ≤ LABEL_BYTES }
    ensures { result ≡ title_line title.now }
{
    let mut line = Line::new();
    line.text("<title>");
    add_escaped(&mut line, title);
    line.text("</title>\n");
    line
}

fn before_points_line(outline: Outline) -> Line
    ensures { result ≡ before_points outline }
{
    let mut line = begin_tag(outline_element(outline));
    begin_attribute(&mut line, Attribute::Points);
    line.text("\n");
    line
}

fn point_line(point: Point) -> Line
    ensures { result ≡ point_line point }
{
    let mut line = Line::new();
    line.i32(point.x);
    line.text(",");
    line.i32(point.y);
    line.text("\n");
    line
}

fn after_points_line(paint: Paint) -> Line
    ensures { result ≡ after_points paint }
{
    let mut line = Line::new();
    line.text("\"");
    add_paint(&mut line, paint);
    line.text(">\n");
    line
}

// Puts the line of a title, where it isn't empty.
fn put_title<S: LineSink>(sink: &mut S, title: &Line)
    requires { length title.now ≤ LABEL_BYTES }
    ensures { S.took sink.old sink.new (title_lines title.now) }
{
    if !title.bytes().is_empty() {
        sink.line(&title_line(title));
    }
}

// ---- marks

/// What takes the marks of a drawing, one after the other: every [`LineSink`], which takes their lines.
///
/// A title or words have at most `LABEL_BYTES` bytes. Their bytes may be any: `&`, `<` and `>` are written as references,
/// and what isn't printable as `?`.
pub trait Drawing {
    ghost use Rattle.svg_text.specs.declared.shapes.Outline.{Outline};
    ghost use Rattle.svg_text.specs.declared.shapes.Paint.{Paint};
    ghost use Rattle.svg_text.specs.declared.shapes.Point.{Point};

    /// Between its first and its second state it took these marks.
    ghost drew: { Self → Self → List Mark → Type 0 };

    /// Between its first and its second state it began a mark through points, or took these points, or ended the mark.
    ghost began: { Self → Self → Outline → Type 0 };

    ghost passed: { Self → Self → List Point → Type 0 };

    ghost ended: { Self → Self → Outline → Paint → List ℕ → Type 0 };

    /// Draws a shape.
    fn figure(&mut self, shape: Shape, paint: Paint, title: &Line)
        requires { length title.now ≤ LABEL_BYTES }
        ensures { drew self.old self.new (figure shape paint title.now ∷ []) };

    /// Writes words.
    fn words(&mut self, lettering: &Lettering, words: &Line, title: &Line)
        requires words { length words.now ≤ LABEL_BYTES }
        requires title { length title.now ≤ LABEL_BYTES }
        ensures { drew self.old self.new (worded lettering.now words.now title.now ∷ []) };

    /// Begins a mark through points. They follow, one by one, and then its end.
    fn begin_points(&mut self, outline: Outline)
        ensures { began self.old self.new outline };

    fn point(&mut self, point: Point)
        ensures { passed self.old self.new (point ∷ []) };

    /// Ends the mark that was begun with this outline.
    fn end_points(&mut self, outline: Outline, paint: Paint, title: &Line)
        requires { length title.now ≤ LABEL_BYTES }
        ensures { ended self.old self.new outline paint title.now };

    /// Taking no mark leaves it as it was.
    ghost nothing: { (a : Self) → drew a a [] };

    /// Some marks and then others.
    ghost then: { (a b c : Self) (xs ys : List Mark) → drew a b xs → drew b c ys → drew a c (xs ++ ys) };

    /// The same of points.
    ghost no_point: { (a : Self) → passed a a [] };

    ghost more_points: { (a b c : Self) (xs ys : List Point) → passed a b xs → passed b c ys → passed a c (xs ++ ys) };

    /// The numbers of marks that were taken fit their types.
    ghost fit: { (a b : Self) (marks : List Mark) → drew a b marks → AllByRecursion FitsMark marks };

    /// A mark through points: its beginning, the points, and its end.
    ghost whole: { (a b c d : Self) (outline : Outline) (points : List Point) (paint : Paint) (title : List ℕ)
        → began a b outline → passed b c points → ended c d outline paint title → drew a d (traced outline points paint title ∷ []) };
}

impl<S: LineSink> Drawing for S {
    ghost use Rattle.std.specs.Prelude.{◌∷◌, []};
    ghost use Rattle.std.specs.List.{AllByRecursion};
    ghost use Rattle.svg_text.specs.Fitting.{FitsMark, FitsPaint, IsPoint};
    ghost use Rattle.svg_text.specs.Marks.{before_points, ending_lines, marks_lines, point_lines};
    ghost use Rattle.svg_text.specs.Drawn.{drawn-nothing, drawn-then, drawn-whole, passed-nothing, passed-then};

    ghost drew = { λ a b marks. S.took a b (marks_lines marks) × AllByRecursion FitsMark marks };

    ghost began = { λ a b outline. S.took a b (before_points outline ∷ []) };

    ghost passed = { λ a b points. S.took a b (point_lines points) × AllByRecursion IsPoint points };

    ghost ended = { λ a b outline paint title. S.took a b (ending_lines outline paint title) × FitsPaint paint };

    fn figure(&mut self, shape: Shape, paint: Paint, title: &Line) {
        shape_fits(shape);
        paint_fits(paint);
        self.line(&shape_line(shape, paint));
        put_title(self, title);
        self.line(&end_line(shape_element(shape)));
    }

    fn words(&mut self, lettering: &Lettering, words: &Line, title: &Line) {
        lettering_fits(lettering);
        self.line(&lettering_line(lettering));
        put_title(self, title);
        self.line(&words_line(words));
        self.line(&end_line(Element::Text));
    }

    fn begin_points(&mut self, outline: Outline) {
        self.line(&before_points_line(outline));
    }

    fn point(&mut self, point: Point) {
        point_fits(point);
        self.line(&point_line(point));
    }

    fn end_points(&mut self, outline: Outline, paint: Paint, title: &Line) {
        paint_fits(paint);
        self.line(&after_points_line(paint));
        put_title(self, title);
        self.line(&end_line(outline_element(outline)));
    }

    ghost nothing = { drawn-nothing S.took S.nothing };

    ghost then = { drawn-then S.took S.then };

    ghost no_point = { passed-nothing S.took S.nothing };

    ghost more_points = { passed-then S.took S.then };

    ghost fit = { λ a b marks drew. drew.1 };

    ghost whole = { drawn-whole S.took S.then };
}
