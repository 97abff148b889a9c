// The panel.
ghost use Rattle.std.specs.Prelude.{◌≡◌, ◌+◌, ◌*◌, ◌<◌, ◌≤◌, length};
ghost use Rattle.std.specs.List.{flat_map, range_with_len};
ghost use Rattle.acas_base.specs.Encounter.{address_in};
ghost use Rattle.flight.specs.Inside.{IsInside};
ghost use Rattle.seconds_panel.specs.Own.{AreTested};
ghost use Rattle.seconds_panel.specs.Panel.{called, legend_at, legend_marks, lines_marks, named_marks, second_tick, second_ticks, seconds_marks, tick_place};
ghost use Rattle.svg_text.specs.declared.drawing.TheConstants.{LABEL_BYTES};

use crate::lines::{Names, PLOT_BOTTOM, PLOT_HEIGHT, PLOT_TOP, put_series, second_y};
use crate::own::TestedPair;
use crate::seconds::Seconds;
use crate::series::Series;
use crate::texts::{heading_text, name_text, note_text, tick_text};
use acas_base::{Address, Encounter};
use acas_text::Line;
use labels::Labels;
use page_marks::{TickPlace, point_at, put_frame, put_time_ticks, put_value_tick, put_words};
use plot_axes::TimeAxis;
use svg_text::{Anchor, Drawing, Shape, Weight};

/// How much of the page the panel takes below its top.
pub const PANEL_HEIGHT: u32 = 3_100;

// Where the ticks of time stand.
fn tick_place(top: u32) -> TickPlace
    requires { top ≤ 40000 }
    ensures { result ≡ tick_place top }
{
    TickPlace {
        top: top + PLOT_TOP,
        bottom: top + PLOT_BOTTOM,
        label: top + PLOT_BOTTOM + 300,
        size: 240,
    }
}

// Puts the tick with a number.
#[tactic(auto, unfolding(crate::specs::Panel::second_tick))]
fn put_second_tick<D: Drawing>(top: u32, number: u32, drawing: &mut D)
    requires top { top ≤ 40000 }
    requires number { number ≤ 4 }
    ensures { D.drew drawing.old drawing.new (second_tick top number) }
{
    let seconds = 20 * number;
    put_value_tick(second_y(top, seconds), &tick_text(seconds), drawing);
}

// Puts the ticks of seconds.
fn put_second_ticks<D: Drawing>(top: u32, drawing: &mut D)
    requires { top ≤ 40000 }
    ensures { D.drew drawing.old drawing.new (second_ticks top) }
{
    for number in 0..5 {
        put_second_tick(top, number, drawing);
    }
}

// Puts the name of a line, and how it is drawn.
#[tactic(auto, unfolding(crate::specs::Panel::legend_at))]
fn put_legend_at<D: Drawing>(y: u32, series: Series, drawing: &mut D)
    requires { y ≤ 50000 }
    ensures { D.drew drawing.old drawing.new (legend_at y series) }
{
    let name = name_text(series);
    put_words(
        point_at(17_900, y),
        220,
        Anchor::Start,
        Weight::Regular,
        &name,
        drawing,
    );
    let line = Shape::Segment {
        from: point_at(17_900, y + 100),
        to: point_at(19_300, y + 100),
    };
    drawing.figure(line, series.paint(), &name);
}

// Puts those of all lines.
fn put_legend<D: Drawing>(top: u32, drawing: &mut D)
    requires { top ≤ 40000 }
    ensures { D.drew drawing.old drawing.new (legend_marks top) }
{
    put_legend_at(top + 700, Series::TrafficRange, drawing);
    put_legend_at(top + 1_100, Series::TrafficTau, drawing);
    put_legend_at(top + 1_500, Series::ResolutionRange, drawing);
    put_legend_at(top + 1_900, Series::ResolutionAltitude, drawing);
    put_legend_at(top + 2_300, Series::ResolutionTau, drawing);
}

// Puts all lines.
#[tactic(auto, unfolding(crate::specs::Panel::lines_marks))]
fn put_lines<D: Drawing>(
    top: u32,
    seconds: &Seconds<'_>,
    names: &Names<'_>,
    time: TimeAxis,
    drawing: &mut D,
)
    requires top { top ≤ 40000 }
    requires own { length names.now.own.now ≤ 8 }
    requires other { length names.now.other.now ≤ 8 }
    requires time { time.cycles ≡ seconds.now.encounter.cycles }
    ensures { D.drew drawing.old drawing.new (lines_marks top seconds.now.encounter seconds.now.pair names.now.own.now names.now.other.now) }
{
    put_series(top, seconds, names, Series::TrafficTau, time, drawing);
    put_series(top, seconds, names, Series::ResolutionTau, time, drawing);
    put_series(top, seconds, names, Series::ResolutionRange, time, drawing);
    put_series(top, seconds, names, Series::TrafficRange, time, drawing);
    put_series(
        top,
        seconds,
        names,
        Series::ResolutionAltitude,
        time,
        drawing,
    );
}

// The address of an aircraft.
fn address_of(encounter: &Encounter, index: u8) -> Address
    requires { index < length encounter.now.crafts }
    ensures { result ≡ address_in encounter.now.crafts index }
{
    encounter.crafts()[usize::from(index)].address
}

// What an aircraft is called.
fn called(encounter: &Encounter, labels: &Labels<'_>, index: u8) -> Line
    requires { index < length encounter.now.crafts }
    ensures text { result ≡ called encounter.now labels.now index }
    ensures short { length result ≤ 8 }
{
    labels.name(address_of(encounter, index))
}

// Puts the panel of aircraft with these names.
fn put_named<D: Drawing>(
    top: u32,
    seconds: &Seconds<'_>,
    names: &Names<'_>,
    labels: &Labels<'_>,
    time: TimeAxis,
    drawing: &mut D,
)
    requires top { top ≤ 40000 }
    requires own { length names.now.own.now ≤ 8 }
    requires other { length names.now.other.now ≤ 8 }
    requires time { time.cycles ≡ seconds.now.encounter.cycles }
    requires start { time.start ≡ labels.now.start }
    ensures { D.drew drawing.old drawing.new (named_marks top seconds.now.encounter labels.now seconds.now.pair names.now.own.now names.now.other.now) }
{
    let heading = heading_text(names.own, names.other);
    put_second_ticks(top, drawing);
    put_time_ticks(time, tick_place(top), drawing);
    put_frame(top, PLOT_HEIGHT, &heading, &note_text(), drawing);
    put_legend(top, drawing);
    put_lines(top, seconds, names, time, drawing);
}

/// Draws the seconds that the tests of own aircraft against another one need, from `top` downward, over
/// [`PANEL_HEIGHT`]: a line through what the range test of a traffic advisory needs, one through what the range test of
/// a resolution advisory needs, and one through what its altitude test needs, and both tau. The axis ends at 80 s, where
/// more is drawn. A line has a gap where there is no such number. The heading calls the aircraft as the labels do, and
/// the axis of time has the labels' clock.
#[tactic(auto, unfolding(crate::specs::Panel::seconds_marks))]
pub fn put_seconds<D: Drawing>(
    top: u32,
    encounter: &Encounter,
    labels: &Labels<'_>,
    pair: TestedPair,
    time: TimeAxis,
    drawing: &mut D,
)
    requires top { top ≤ 40000 }
    requires pair { AreTested encounter.now pair }
    requires inside { IsInside encounter.now }
    requires time { time.cycles ≡ encounter.now.cycles }
    requires start { time.start ≡ labels.now.start }
    ensures { D.drew drawing.old drawing.new (seconds_marks top encounter.now labels.now pair) }
{
    let own = called(encounter, labels, pair.own);
    let other = called(encounter, labels, pair.other);
    let names = Names {
        own: &own,
        other: &other,
    };
    let seconds = Seconds::new(encounter, pair);
    put_named(top, &seconds, &names, labels, time, drawing);
}
