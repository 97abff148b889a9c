// Expected values: by hand from the rules of SVG 1.1. An XML parser reads the text, and a renderer draws it.
ghost use Rattle.std.specs.Prelude.{◌≡◌, ◌≤◌, length};

use acas_lines::LineSink;
use acas_text::Line;
use std::test::Fail;
use svg_text::{
    Anchor, Area, Clip, Color, Dash, Drawing, Fill, Frame, Lettering, Outline, Paint, Point, Shape,
    Stroke, Turn, Weight, begin_drawing, begin_section, end_drawing, end_section,
};

// The bytes of the lines that it takes.
#[derive(Drop)]
struct Page {
    bytes: [u8; 4096],
    len: usize,
}

impl LineSink for Page {
    ghost took = { λ a b lines. Unit {0} };

    fn line(&mut self, line: &Line) {
        for byte in line.bytes() {
            if self.len < self.bytes.len() {
                self.bytes[self.len] = *byte;
                self.len += 1;
            }
        }
    }

    ghost nothing = { λ a. tt };

    ghost then = { λ a b c xs ys g h. tt };
}

fn label(text: &str) -> Line
    requires { length text.now ≤ 96 }
    ensures { result ≡ text.now }
{
    let mut line = Line::new();
    line.text(text);
    line
}

const BLUE: Color = Color {
    red: 0,
    green: 0x72,
    blue: 0xB2,
};

const FRAME: Frame = Frame {
    width: 20_000,
    height: 9_000,
    window: Area {
        corner: Point { x: 400, y: -5 },
        width: 8_000,
        height: 3_600,
    },
};

const EXPECTED: &str =
    "<svg xmlns=\"http://www.w3.org/2000/svg\" version=\"1.1\" viewBox=\"0 0 20000 9000\" width=\"1000\" height=\"450\" font-family=\"Helvetica,Arial,'Liberation Sans','DejaVu Sans',sans-serif\" stroke-linejoin=\"round\">
<title>A &amp; B</title>
<desc>a &lt;b&gt; ?</desc>
<defs>
<pattern id=\"hatching\" width=\"120\" height=\"120\" patternUnits=\"userSpaceOnUse\" patternTransform=\"rotate(45)\">
<rect width=\"30\" height=\"120\" fill=\"#FFFFFF\" fill-opacity=\"0.55\">
</rect>
</pattern>
<clipPath id=\"window\">
<rect x=\"400\" y=\"-5\" width=\"8000\" height=\"3600\">
</rect>
</clipPath>
</defs>
<rect x=\"0\" y=\"0\" width=\"20000\" height=\"9000\" fill=\"#FFFFFF\">
</rect>
<g>
<circle cx=\"1\" cy=\"2\" r=\"3\" fill=\"url(#hatching)\">
<title>cycle 1</title>
</circle>
<text x=\"-7\" y=\"8\" font-size=\"280\" text-anchor=\"middle\" font-weight=\"bold\" transform=\"rotate(-90 -7 8)\" fill=\"#0072B2\">
altitude, ft
</text>
</g>
<g clip-path=\"url(#window)\">
<line x1=\"0\" y1=\"0\" x2=\"9\" y2=\"9\" fill=\"none\" stroke=\"#0072B2\" stroke-width=\"20\">
</line>
<polyline points=\"
0,0
-5,70
\" fill=\"none\" stroke=\"#0072B2\" stroke-width=\"20\" stroke-dasharray=\"40 90\">
<title>A</title>
</polyline>
</g>
</svg>
";

fn stroked(dash: Dash) -> Paint {
    Paint {
        fill: Fill::Nothing,
        stroke: Some(Stroke {
            color: BLUE,
            width: 20,
            dash,
        }),
    }
}

fn plain(fill: Fill) -> Paint {
    Paint { fill, stroke: None }
}

fn draw(page: &mut Page) {
    let none = Line::new();
    begin_drawing(page, &FRAME, &label("A & B"), &label("a <b> \t"));
    begin_section(page, Clip::Whole);
    let circle = Shape::Circle {
        center: Point { x: 1, y: 2 },
        radius: 3,
    };
    page.figure(circle, plain(Fill::Hatched), &label("cycle 1"));
    let lettering = Lettering {
        at: Point { x: -7, y: 8 },
        size: 280,
        anchor: Anchor::Middle,
        weight: Weight::Bold,
        turn: Turn::Upward,
        paint: plain(Fill::Plain(BLUE)),
    };
    page.words(&lettering, &label("altitude, ft"), &none);
    end_section(page);
    begin_section(page, Clip::Window);
    let segment = Shape::Segment {
        from: Point { x: 0, y: 0 },
        to: Point { x: 9, y: 9 },
    };
    page.figure(segment, stroked(Dash::Solid), &none);
    page.begin_points(Outline::Open);
    page.point(Point { x: 0, y: 0 });
    page.point(Point { x: -5, y: 70 });
    page.end_points(Outline::Open, stroked(Dash::Sparse), &label("A"));
    end_section(page);
    end_drawing(page);
}

#[test]
fn draws_each_kind_of_mark(rt: HostRuntime) -> Result<(), Fail> {
    let mut page = Page {
        bytes: [0; 4096],
        len: 0,
    };
    draw(&mut page);
    let text = page.bytes.get(..page.len).ok_or("too long")?;
    assert_eq!(rt; text, EXPECTED.as_bytes());
    Ok(())
}
