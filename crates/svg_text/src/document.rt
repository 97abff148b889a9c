// What is round the marks of a drawing.
ghost use Rattle.std.specs.Prelude.{◌≡◌, ◌+◌, ◌≤◌, ◌++◌, ◌∷◌, [], length};
ghost use Rattle.acas_text.specs.declared.line.TheConstants.{LINE_BYTES};
ghost use Rattle.svg_text.specs.declared.drawing.TheConstants.{LABEL_BYTES};
ghost use Rattle.svg_text.specs.Attributes.{settings_text};
ghost use Rattle.svg_text.specs.Documents.{background, definition_lines, description_line, end_of_drawing, end_of_section, head_lines, kind_settings, root_settings, shown_settings, start_of_section, style_settings, view_settings, view_text, window_line};
ghost use Rattle.svg_text.specs.Fitting.{FitsFrame};
ghost use Rattle.svg_text.specs.Marks.{marks_lines, start_line};
ghost use Rattle.svg_text.specs.declared.names.Element.TheVariants as elements;

use crate::attributes::{add_area, add_size, add_word, begin_attribute, begin_tag, end_line};
use crate::drawing::{Drawing, title_line};
use crate::escaped::add_escaped;
use crate::fitting::frame_fits;
use crate::names::{Attribute, Element};
use crate::shapes::{Area, Clip, Color, Fill, Paint, Point, Shape};
use acas_lines::{LineSink, fixed_line};
use acas_text::Line;

/// How large a drawing is, and the window of its sections that are clipped.
#[derive(Clone, Copy)]
pub struct Frame {
    pub width: u32,
    pub height: u32,
    pub window: Area,
}

// ---- lines of the head

#[tactic(auto, unfolding(crate::specs::Documents::view_text))]
fn add_view_text(line: &mut Line, frame: &Frame)
    requires { length line.old + 25 ≤ LINE_BYTES }
    ensures added { line.new ≡ line.old ++ view_text frame.now }
    ensures short { length line.new ≤ length line.old + 25 }
{
    line.text("0 0 ");
    line.u32(frame.width);
    line.text(" ");
    line.u32(frame.height);
}

// Adds the view box.
#[tactic(auto, unfolding(crate::specs::Documents::view_settings))]
fn add_view(line: &mut Line, frame: &Frame)
    requires { length line.old + 45 ≤ LINE_BYTES }
    ensures added { line.new ≡ line.old ++ settings_text (view_settings frame.now) }
    ensures short { length line.new ≤ length line.old + 45 }
{
    begin_attribute(line, Attribute::ViewBox);
    add_view_text(line, frame);
    line.text("\"");
}

// Adds what kind of text it is.
#[tactic(auto, unfolding(crate::specs::Documents::kind_settings))]
fn add_kind(line: &mut Line)
    requires { length line.old + 70 ≤ LINE_BYTES }
    ensures added { line.new ≡ line.old ++ settings_text kind_settings }
    ensures short { length line.new ≤ length line.old + 70 }
{
    add_word(line, Attribute::Namespace, "http://www.w3.org/2000/svg");
    add_word(line, Attribute::Version, "1.1");
}

// Adds how large it is shown.
#[tactic(auto, unfolding(crate::specs::Documents::shown_settings))]
fn add_shown(line: &mut Line, frame: &Frame)
    requires { length line.old + 62 ≤ LINE_BYTES }
    ensures added { line.new ≡ line.old ++ settings_text (shown_settings frame.now) }
    ensures short { length line.new ≤ length line.old + 62 }
{
    add_size(line, Attribute::Width, frame.width / 20);
    add_size(line, Attribute::Height, frame.height / 20);
}

// Adds what holds for all marks.
#[tactic(auto, unfolding(crate::specs::Documents::style_settings))]
fn add_style(line: &mut Line)
    requires { length line.old + 110 ≤ LINE_BYTES }
    ensures added { line.new ≡ line.old ++ settings_text style_settings }
    ensures short { length line.new ≤ length line.old + 110 }
{
    add_word(
        line,
        Attribute::FontFamily,
        "Helvetica,Arial,'Liberation Sans','DejaVu Sans',sans-serif",
    );
    add_word(line, Attribute::LineJoin, "round");
}

fn root_line(frame: &Frame) -> Line
    ensures { result ≡ start_line elements.Svg (root_settings frame.now) }
{
    let mut line = begin_tag(Element::Svg);
    add_kind(&mut line);
    add_view(&mut line, frame);
    add_shown(&mut line, frame);
    add_style(&mut line);
    line.text(">\n");
    line
}

fn description_line(words: &Line) -> Line
    requires { length words.now ≤ LABEL_BYTES }
    ensures { result ≡ description_line words.now }
{
    let mut line = Line::new();
    line.text("<desc>");
    add_escaped(&mut line, words);
    line.text("</desc>\n");
    line
}

fn window_line(frame: &Frame) -> Line
    ensures { result ≡ window_line frame.now }
{
    let mut line = begin_tag(Element::Rect);
    add_area(&mut line, frame.window);
    line.text(">\n");
    line
}

fn section_line(clip: Clip) -> Line
    ensures { result ≡ start_of_section clip }
{
    match clip {
        Clip::Whole => fixed_line("<g>\n"),
        Clip::Window => fixed_line("<g clip-path=\"url(#window)\">\n"),
    }
}

// Puts what other marks refer to.
fn put_definitions<S: LineSink>(sink: &mut S, frame: &Frame)
    ensures { S.took sink.old sink.new (definition_lines frame.now) }
{
    sink.line(&fixed_line("<defs>\n"));
    sink.line(&fixed_line(
        "<pattern id=\"hatching\" width=\"120\" height=\"120\" patternUnits=\"userSpaceOnUse\" patternTransform=\"rotate(45)\">\n",
    ));
    sink.line(&fixed_line(
        "<rect width=\"30\" height=\"120\" fill=\"#FFFFFF\" fill-opacity=\"0.55\">\n",
    ));
    sink.line(&end_line(Element::Rect));
    sink.line(&end_line(Element::Pattern));
    sink.line(&fixed_line("<clipPath id=\"window\">\n"));
    sink.line(&window_line(frame));
    sink.line(&end_line(Element::Rect));
    sink.line(&end_line(Element::ClipPath));
    sink.line(&end_line(Element::Defs));
}

// Puts a white rectangle as large as the drawing.
fn put_background<S: LineSink>(sink: &mut S, frame: &Frame)
    ensures { S.took sink.old sink.new (marks_lines (background frame.now ∷ [])) }
{
    let area = Area {
        corner: Point { x: 0, y: 0 },
        width: frame.width,
        height: frame.height,
    };
    let white = Color {
        red: 255,
        green: 255,
        blue: 255,
    };
    let paint = Paint {
        fill: Fill::Plain(white),
        stroke: None,
    };
    sink.figure(Shape::Rect(area), paint, &Line::new());
}

// ---- the parts of a drawing

/// Begins a drawing: its title and its description for readers of screens, and a white background. Its sections follow,
/// and then its end.
pub fn begin_drawing<S: LineSink>(sink: &mut S, frame: &Frame, title: &Line, description: &Line)
    requires title { length title.now ≤ LABEL_BYTES }
    requires description { length description.now ≤ LABEL_BYTES }
    ensures head { S.took sink.old sink.new (head_lines frame.now title.now description.now) }
    ensures fits { FitsFrame frame.now }
{
    frame_fits(frame);
    sink.line(&root_line(frame));
    sink.line(&title_line(title));
    sink.line(&description_line(description));
    put_definitions(sink, frame);
    put_background(sink, frame);
}

/// Begins a section. Its marks follow, and then its end.
pub fn begin_section<S: LineSink>(sink: &mut S, clip: Clip)
    ensures { S.took sink.old sink.new (start_of_section clip ∷ []) }
{
    sink.line(&section_line(clip));
}

pub fn end_section<S: LineSink>(sink: &mut S)
    ensures { S.took sink.old sink.new (end_of_section ∷ []) }
{
    sink.line(&end_line(Element::Group));
}

pub fn end_drawing<S: LineSink>(sink: &mut S)
    ensures { S.took sink.old sink.new (end_of_drawing ∷ []) }
{
    sink.line(&end_line(Element::Svg));
}
