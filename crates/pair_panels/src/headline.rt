// Where the nearest pair comes nearest, in a line at the head of a page.
ghost use Rattle.std.specs.Prelude.{◌≡◌, ◌<◌, ◌≤◌, ◌^◌, length};
ghost use Rattle.pair_panels.specs.Headline.{apart_text, apart_words, end_text, headline_marks, headline_with, pair_text, pair_words};
ghost use Rattle.pair_panels.specs.Nearest.{IsPair};
ghost use Rattle.svg_text.specs.declared.drawing.TheConstants.{LABEL_BYTES};

use crate::distance::{Distance, distance_in};
use crate::nearest::NearPair;
use crate::panel::called;
use crate::texts::add_value;
use acas_base::Encounter;
use acas_text::Line;
use labels::Labels;
use page_marks::{add_words, point_at, put_words, when_text};
use plot_axes::TimeAxis;
use svg_text::{Anchor, Drawing, Weight};

// That this is the last cycle of the run, where it is.
fn end_text(cycle: u16, cycles: u16) -> &'static str
    ensures text { result.now ≡ end_text cycle cycles }
    ensures short { length result.now ≤ 20 }
{
    if cycle == cycles {
        "; the run ends there"
    } else {
        ""
    }
}

// Two aircraft with these names, and when they are nearest.
#[tactic(auto, unfolding(crate::specs::Headline::pair_text))]
fn pair_text(one: &Line, other: &Line, when: &Line, end: &str) -> Line
    requires one { length one.now ≤ 8 }
    requires other { length other.now ≤ 8 }
    requires when { length when.now ≤ 16 }
    requires end { length end.now ≤ 20 }
    ensures text { result ≡ pair_text one.now other.now when.now end.now }
    ensures short { length result ≤ LABEL_BYTES }
{
    let mut line = Line::new();
    line.text("closest as planned: ");
    add_words(&mut line, one);
    line.text(" and ");
    add_words(&mut line, other);
    line.text(", ");
    add_words(&mut line, when);
    line.text(end);
    line
}

// How far they are apart then.
#[tactic(auto, unfolding(crate::specs::Headline::apart_text))]
fn apart_text(slant: u32, vertical: u32) -> Line
    ensures text { result ≡ apart_text slant vertical }
    ensures short { length result ≤ LABEL_BYTES }
{
    let mut line = Line::new();
    add_value(&mut line, Distance::Slant, slant);
    line.text(", ");
    add_value(&mut line, Distance::Vertical, vertical);
    line
}

fn pair_words(encounter: &Encounter, labels: &Labels<'_>, pair: NearPair, time: TimeAxis) -> Line
    requires pair { IsPair encounter.now pair }
    requires time { time.cycles ≡ encounter.now.cycles }
    requires start { time.start ≡ labels.now.start }
    ensures text { result ≡ pair_words encounter.now labels.now pair }
    ensures short { length result ≤ LABEL_BYTES }
{
    pair_text(
        &called(encounter, labels, pair.one),
        &called(encounter, labels, pair.other),
        &when_text(time, pair.cycle),
        end_text(pair.cycle, time.cycles),
    )
}

fn apart_words(encounter: &Encounter, pair: NearPair) -> Line
    requires pair { IsPair encounter.now pair }
    ensures text { result ≡ apart_words encounter.now pair }
    ensures short { length result ≤ LABEL_BYTES }
{
    encounter.valid_law();
    apart_text(
        distance_in(encounter, Distance::Slant, pair, pair.cycle),
        distance_in(encounter, Distance::Vertical, pair, pair.cycle),
    )
}

// Puts the two parts of the line.
fn put_headline_with<D: Drawing>(y: u32, pair: &Line, apart: &Line, drawing: &mut D)
    requires y { y < 2 ^ 16 }
    requires pair { length pair.now ≤ LABEL_BYTES }
    requires apart { length apart.now ≤ LABEL_BYTES }
    ensures { D.drew drawing.old drawing.new (headline_with y pair.now apart.now) }
{
    put_words(
        point_at(4_000, y),
        240,
        Anchor::Start,
        Weight::Regular,
        pair,
        drawing,
    );
    put_words(
        point_at(19_600, y),
        240,
        Anchor::End,
        Weight::Regular,
        apart,
        drawing,
    );
}

/// Puts a line at `y` that tells of the nearest pair: which aircraft they are, as the labels call them, when they are
/// nearest as planned, by the cycle or the labels' clock, and their slant range and vertical distance then. Where that
/// is the last cycle, it says that the run ends there.
#[tactic(auto, unfolding(crate::specs::Headline::headline_marks))]
pub fn put_headline<D: Drawing>(
    y: u32,
    encounter: &Encounter,
    labels: &Labels<'_>,
    pair: NearPair,
    time: TimeAxis,
    drawing: &mut D,
)
    requires y { y < 2 ^ 16 }
    requires pair { IsPair encounter.now pair }
    requires time { time.cycles ≡ encounter.now.cycles }
    requires start { time.start ≡ labels.now.start }
    ensures { D.drew drawing.old drawing.new (headline_marks y encounter.now labels.now pair) }
{
    let apart = apart_words(encounter, pair);
    let nearest = pair_words(encounter, labels, pair, time);
    put_headline_with(y, &nearest, &apart, drawing);
}
