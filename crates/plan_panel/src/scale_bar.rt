// The scale of the plan.
ghost use Rattle.std.specs.Prelude.{◌≡◌, ◌<◌, ◌≤◌, ◌*◌, ◌^◌, length, pos};
ghost use Rattle.plan_panel.specs.Marks.{bar_at, bar_marks, bar_width, length_for};
ghost use Rattle.svg_text.specs.declared.drawing.TheConstants.{LABEL_BYTES};

use crate::chart::BOX_WIDTH;
use crate::texts::length_text;
use acas_text::Line;
use page_marks::{ink, line_paint, point_at, put_words};
use plot_axes::{Scale, least_step};
use svg_text::{Anchor, Drawing, Shape, Weight};

// Lengths in ft.
const LENGTHS: [u32; 9] = [
    1_519, 3_038, 6_076, 12_152, 30_380, 60_760, 121_520, 303_800, 607_600,
];

// The length that the bar stands for.
#[tactic(auto, unfolding(crate::specs::Marks::length_for))]
fn length_for(whole: u32) -> u32
    requires least { 6076 ≤ whole }
    requires near { whole < 2 ^ 24 }
    ensures value { result ≡ length_for whole }
    ensures some { 1 ≤ result }
    ensures short { 8 * result ≤ 3 * whole }
{
    least_step(whole, 8, &LENGTHS)
}

// How long the bar is.
#[tactic(auto, unfolding(crate::specs::Marks::bar_width))]
fn bar_width(whole: u32) -> u32
    requires least { 6076 ≤ whole }
    requires near { whole < 2 ^ 24 }
    ensures value { result ≡ bar_width whole }
    ensures short { result ≤ 8000 }
{
    let scale = Scale {
        low: 0,
        high: i64::from(whole),
        length: BOX_WIDTH,
    };
    scale.along(i64::from(length_for(whole)))
}

fn put_bar_at<D: Drawing>(top: u32, x: u32, words: &Line, drawing: &mut D)
    requires top { top ≤ 40000 }
    requires left { 400 ≤ x }
    requires right { x ≤ 8400 }
    requires words { length words.now ≤ LABEL_BYTES }
    ensures { D.drew drawing.old drawing.new (bar_at top x words.now) }
{
    let line = Shape::Segment {
        from: point_at(x, top + 270),
        to: point_at(8_400, top + 270),
    };
    drawing.figure(line, line_paint(ink(), 50), words);
    put_words(
        point_at(x - 120, top + 350),
        240,
        Anchor::End,
        Weight::Regular,
        words,
        drawing,
    );
}

/// Puts the scale of a box that holds so many feet.
pub(crate) fn put_bar<D: Drawing>(top: u32, whole: u32, drawing: &mut D)
    requires top { top ≤ 40000 }
    requires least { 6076 ≤ whole }
    requires near { whole < 2 ^ 24 }
    ensures { D.drew drawing.old drawing.new (bar_marks top whole) }
{
    let words = length_text(length_for(whole));
    put_bar_at(top, 8_400 - bar_width(whole), &words, drawing);
}
