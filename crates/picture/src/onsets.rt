// Marks where traffic or advice begins, and where its sense changes.
ghost use Rattle.std.specs.Prelude.{◌≡◌, ◌≤◌, length};
ghost use Rattle.picture.specs.Onsets.{circle_mark, corner_mark, corners, diamond, downward, is_onset, is_same_kind, onset_mark, onset_marks, onset_paint, upward};
ghost use Rattle.svg_text.specs.declared.drawing.TheConstants.{LABEL_BYTES};

use crate::bars::advised;
use crate::shown::is_clear;
use acas_text::Line;
use advisory_report::{Composite, has_advice};
use page_marks::{Advised, amber, blue, filled, ink, point_at, purple, vermilion};
use svg_text::{Drawing, Outline, Paint, Shape};

fn is_same_kind(one: Advised, other: Advised) -> bool
    ensures { result ≡ is_same_kind one other }
{
    match one {
        Advised::Traffic => matches!(other, Advised::Traffic),
        Advised::Up => matches!(other, Advised::Up),
        Advised::Down => matches!(other, Advised::Down),
        Advised::Both => matches!(other, Advised::Both),
    }
}

// Whether something begins.
fn is_onset(before: &Composite, now: &Composite) -> bool
    ensures { result ≡ is_onset before.now now.now }
{
    is_clear(before) || (has_advice(now) && !is_same_kind(advised(before), advised(now)))
}

// Passes through the corners of a triangle that points upward.
fn put_upward<D: Drawing>(x: u32, y: u32, drawing: &mut D)
    requires left { 2000 ≤ x }
    requires right { x ≤ 17800 }
    requires top { 1500 ≤ y }
    requires bottom { y ≤ 4700 }
    ensures { D.passed drawing.old drawing.new (upward x y) }
{
    drawing.point(point_at(x - 110, y - 20));
    drawing.point(point_at(x + 110, y - 20));
    drawing.point(point_at(x, y - 260));
}

fn put_downward<D: Drawing>(x: u32, y: u32, drawing: &mut D)
    requires left { 2000 ≤ x }
    requires right { x ≤ 17800 }
    requires top { 1500 ≤ y }
    requires bottom { y ≤ 4700 }
    ensures { D.passed drawing.old drawing.new (downward x y) }
{
    drawing.point(point_at(x - 110, y + 20));
    drawing.point(point_at(x + 110, y + 20));
    drawing.point(point_at(x, y + 260));
}

fn put_diamond<D: Drawing>(x: u32, y: u32, drawing: &mut D)
    requires left { 2000 ≤ x }
    requires right { x ≤ 17800 }
    requires top { 1500 ≤ y }
    requires bottom { y ≤ 4700 }
    ensures { D.passed drawing.old drawing.new (diamond x y) }
{
    drawing.point(point_at(x - 110, y));
    drawing.point(point_at(x, y - 150));
    drawing.point(point_at(x + 110, y));
    drawing.point(point_at(x, y + 150));
}

// Passes through the corners of a mark of advice.
fn put_corners<D: Drawing>(x: u32, y: u32, advised: Advised, drawing: &mut D)
    requires left { 2000 ≤ x }
    requires right { x ≤ 17800 }
    requires top { 1500 ≤ y }
    requires bottom { y ≤ 4700 }
    ensures { D.passed drawing.old drawing.new (corners advised x y) }
{
    match advised {
        Advised::Traffic => {}
        Advised::Up => put_upward(x, y, drawing),
        Advised::Down => put_downward(x, y, drawing),
        Advised::Both => put_diamond(x, y, drawing),
    }
}

fn onset_paint(advised: Advised) -> Paint
    ensures { result ≡ onset_paint advised }
{
    match advised {
        Advised::Traffic => filled(amber(), ink(), 20),
        Advised::Up => filled(blue(), ink(), 20),
        Advised::Down => filled(vermilion(), ink(), 20),
        Advised::Both => filled(purple(), ink(), 20),
    }
}

fn put_circle<D: Drawing>(x: u32, y: u32, title: &Line, drawing: &mut D)
    requires left { 2000 ≤ x }
    requires right { x ≤ 17800 }
    requires top { 1500 ≤ y }
    requires bottom { y ≤ 4700 }
    requires title { length title.now ≤ LABEL_BYTES }
    ensures { D.drew drawing.old drawing.new (circle_mark x y title.now) }
{
    let circle = Shape::Circle {
        center: point_at(x, y),
        radius: 90,
    };
    drawing.figure(circle, onset_paint(Advised::Traffic), title);
}

fn put_corner_mark<D: Drawing>(x: u32, y: u32, title: &Line, advised: Advised, drawing: &mut D)
    requires left { 2000 ≤ x }
    requires right { x ≤ 17800 }
    requires top { 1500 ≤ y }
    requires bottom { y ≤ 4700 }
    requires title { length title.now ≤ LABEL_BYTES }
    ensures { D.drew drawing.old drawing.new (corner_mark x y title.now advised) }
{
    drawing.begin_points(Outline::Closed);
    put_corners(x, y, advised, drawing);
    drawing.end_points(Outline::Closed, onset_paint(advised), title);
}

// Puts the mark of what begins.
fn put_onset_mark<D: Drawing>(x: u32, y: u32, title: &Line, advised: Advised, drawing: &mut D)
    requires left { 2000 ≤ x }
    requires right { x ≤ 17800 }
    requires top { 1500 ≤ y }
    requires bottom { y ≤ 4700 }
    requires title { length title.now ≤ LABEL_BYTES }
    ensures { D.drew drawing.old drawing.new (onset_mark x y title.now advised) }
{
    match advised {
        Advised::Traffic => put_circle(x, y, title, drawing),
        Advised::Up => put_corner_mark(x, y, title, Advised::Up, drawing),
        Advised::Down => put_corner_mark(x, y, title, Advised::Down, drawing),
        Advised::Both => put_corner_mark(x, y, title, Advised::Both, drawing),
    }
}

/// Puts the mark of what begins, if something does.
#[tactic(auto, unfolding(crate::specs::Onsets::onset_marks))]
pub(crate) fn put_onset<D: Drawing>(
    x: u32,
    y: u32,
    title: &Line,
    before: &Composite,
    now: &Composite,
    drawing: &mut D,
)
    requires left { 2000 ≤ x }
    requires right { x ≤ 17800 }
    requires top { 1500 ≤ y }
    requires bottom { y ≤ 4700 }
    requires title { length title.now ≤ LABEL_BYTES }
    ensures { D.drew drawing.old drawing.new (onset_marks x y title.now before.now now.now) }
{
    if is_onset(before, now) {
        put_onset_mark(x, y, title, advised(now), drawing);
    }
}
