// What the boxes, the signs, the arrows and the bands mean.
ghost use Rattle.std.specs.Prelude.{◌≡◌, ◌<◌, ◌≤◌, ◌^◌, ◌∷◌, [], length};
ghost use Rattle.picture.specs.Legend.{arrow_words, band_words, height_words, item_marks, legend_marks, modelled_words, remark, remarks_marks, sample_marks, sample_shaft};
ghost use Rattle.picture.specs.MessagesDrawn.{IsShaft};
ghost use Rattle.svg_text.specs.declared.drawing.TheConstants.{LABEL_BYTES};

use crate::messages_drawn::Shaft;
use crate::mishaps::Sign;
use crate::mishaps_drawn::put_sign;
use acas_lines::fixed_line;
use acas_text::Line;
use page_marks::{Advised, area_at, point_at, put_box, put_words};
use svg_text::{Anchor, Drawing, Weight};

// Puts a box and what it means.
fn put_item<D: Drawing>(top: u32, x: u32, advised: Advised, words: &str, drawing: &mut D)
    requires top { top ≤ 40000 }
    requires x { x ≤ 20000 }
    requires words { length words.now ≤ LABEL_BYTES }
    ensures { D.drew drawing.old drawing.new (item_marks top x advised words.now) }
{
    put_box(
        advised,
        area_at(x, top + 200, 700, 280),
        &Line::new(),
        drawing,
    );
    put_words(
        point_at(x + 850, top + 430),
        260,
        Anchor::Start,
        Weight::Regular,
        &fixed_line(words),
        drawing,
    );
}

fn sample_shaft(x: u32, y: u32) -> Shaft
    requires left { 2000 ≤ x }
    requires right { x ≤ 17000 }
    requires y { y ≤ 39000 }
    ensures value { result ≡ sample_shaft x y }
    ensures near { IsShaft result }
{
    Shaft {
        tail_x: x,
        tail_y: y,
        tip_x: x,
        neck_y: y + 220,
        tip_y: y + 400,
        room: 400,
    }
}

// Puts a sign and what it means.
fn put_sample<D: Drawing>(top: u32, x: u32, y: u32, sign: Sign, words: &str, drawing: &mut D)
    requires top { top ≤ 40000 }
    requires left { 2000 ≤ x }
    requires right { x ≤ 17000 }
    requires y { y ≤ 39000 }
    requires words { length words.now ≤ LABEL_BYTES }
    ensures { D.drew drawing.old drawing.new (sample_marks top x y sign words.now) }
{
    put_sign(sign, sample_shaft(x, y), &Line::new(), drawing);
    put_words(
        point_at(x + 200, top + 430),
        260,
        Anchor::Start,
        Weight::Regular,
        &fixed_line(words),
        drawing,
    );
}

// Puts a line of words.
fn put_remark<D: Drawing>(y: u32, words: &str, drawing: &mut D)
    requires y { y ≤ 41000 }
    requires words { length words.now ≤ LABEL_BYTES }
    ensures { D.drew drawing.old drawing.new (remark y words.now ∷ []) }
{
    put_words(
        point_at(2_000, y),
        260,
        Anchor::Start,
        Weight::Regular,
        &fixed_line(words),
        drawing,
    );
}

// Puts what the heights of bars, the arrows and the bands mean.
fn put_remarks<D: Drawing>(top: u32, drawing: &mut D)
    requires { top ≤ 38500 }
    ensures { D.drew drawing.old drawing.new (remarks_marks top) }
{
    put_remark(
        top + 900,
        "A tall bar: corrective advice. A low bar: preventive advice, or traffic alone.",
        drawing,
    );
    put_remark(
        top + 1_250,
        "An arrow: a message that changes what is in force, in the colour of the sense that it leaves.",
        drawing,
    );
    put_remark(
        top + 1_600,
        "A band above a line: up. Below it: down. Half as high: preventive advice. A stripe: traffic.",
        drawing,
    );
    put_remark(
        top + 1_950,
        "A dotted green line: the flight with the modelled response, where it isn't the planned one.",
        drawing,
    );
}

/// Puts the legend, from `top` downward.
pub(crate) fn put_legend<D: Drawing>(top: u32, drawing: &mut D)
    requires { top ≤ 38500 }
    ensures { D.drew drawing.old drawing.new (legend_marks top) }
{
    put_item(top, 2_000, Advised::Traffic, "traffic", drawing);
    put_item(top, 5_200, Advised::Up, "up", drawing);
    put_item(top, 8_400, Advised::Down, "down", drawing);
    put_item(top, 11_600, Advised::Both, "up and down", drawing);
    put_sample(top, 14_900, top + 210, Sign::Cross, "lost", drawing);
    put_sample(top, 16_800, top + 140, Sign::HollowHead, "spoilt", drawing);
    put_remarks(top, drawing);
}
