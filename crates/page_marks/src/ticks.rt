// The ticks of a panel.
ghost use Rattle.std.specs.Prelude.{◌≡◌, ◌+◌, ◌<◌, ◌≤◌, ◌^◌, length};
ghost use Rattle.page_marks.specs.Ticks.{time_tick, time_tick_at, time_ticks, value_tick_at};
ghost use Rattle.svg_text.specs.declared.drawing.TheConstants.{LABEL_BYTES};

use crate::paints::{grid, put_line, put_words};
use crate::places::point_at;
use crate::tick_place::TickPlace;
use acas_text::Line;
use plot_axes::TimeAxis;
use svg_text::{Anchor, Drawing, Shape, Weight};

// Puts a line and its label.
fn put_time_tick_at<D: Drawing>(place: TickPlace, x: u32, label: &Line, drawing: &mut D)
    requires top { place.top < 2 ^ 16 }
    requires bottom { place.bottom < 2 ^ 16 }
    requires words { place.label < 2 ^ 16 }
    requires x { x < 2 ^ 16 }
    requires label { length label.now ≤ LABEL_BYTES }
    ensures { D.drew drawing.old drawing.new (time_tick_at place x label.now) }
{
    let line = Shape::Segment {
        from: point_at(x, place.top),
        to: point_at(x, place.bottom),
    };
    put_line(line, grid(), drawing);
    put_words(
        point_at(x, place.label),
        place.size,
        Anchor::Middle,
        Weight::Regular,
        label,
        drawing,
    );
}

// Puts them where a tick stands.
#[tactic(auto, unfolding(crate::specs::Ticks::time_tick))]
fn put_time_tick<D: Drawing>(axis: TimeAxis, place: TickPlace, cycle: u16, drawing: &mut D)
    requires top { place.top < 2 ^ 16 }
    requires bottom { place.bottom < 2 ^ 16 }
    requires words { place.label < 2 ^ 16 }
    requires first { 1 ≤ cycle }
    requires last { cycle ≤ axis.cycles }
    ensures { D.drew drawing.old drawing.new (time_tick axis.cycles axis.start place cycle) }
{
    if axis.is_tick(cycle) {
        put_time_tick_at(place, axis.begin(cycle), &axis.label(cycle), drawing);
    }
}

/// Puts the ticks of an axis of time: a line of the grid at each, and below it the number of its cycle, or its time of
/// day where there is a clock.
pub fn put_time_ticks<D: Drawing>(axis: TimeAxis, place: TickPlace, drawing: &mut D)
    requires top { place.top < 2 ^ 16 }
    requires bottom { place.bottom < 2 ^ 16 }
    requires words { place.label < 2 ^ 16 }
    ensures { D.drew drawing.old drawing.new (time_ticks axis.cycles axis.start place) }
{
    for cycle in 1..axis.cycles + 1 {
        put_time_tick(axis, place, cycle, drawing);
    }
}

/// Puts the tick of a value: a line of the grid across the plot, so far down, and words at the left.
pub fn put_value_tick<D: Drawing>(y: u32, words: &Line, drawing: &mut D)
    requires y { y ≤ 60000 }
    requires words { length words.now ≤ LABEL_BYTES }
    ensures { D.drew drawing.old drawing.new (value_tick_at y words.now) }
{
    let line = Shape::Segment {
        from: point_at(2_000, y),
        to: point_at(17_800, y),
    };
    put_line(line, grid(), drawing);
    put_words(
        point_at(1_880, y + 80),
        240,
        Anchor::End,
        Weight::Regular,
        words,
        drawing,
    );
}
