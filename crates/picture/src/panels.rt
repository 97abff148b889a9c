// The panels of the two aircraft that come nearest.
ghost use Rattle.std.specs.Prelude.{◌≡◌, ◌≤◌, IfSome};
ghost use Rattle.flight.specs.Inside.{IsInside};
ghost use Rattle.pair_panels.specs.Nearest.{IsPair};
ghost use Rattle.picture.specs.Panels.{approach_of, both_marks, panel_marks, panels_height, tested_marks, tests_height, three_marks, told_pair};
ghost use Rattle.plan_panel.specs.Marks.{IsApproach};
ghost use Rattle.seconds_panel.specs.Own.{AreTested};

use acas_base::{Encounter, Profile};
use labels::Labels;
use pair_panels::{Distance, NearPair, PANEL_HEIGHT, put_distance};
use plan_panel::Approach;
use plot_axes::TimeAxis;
use seconds_panel::{PANEL_HEIGHT as SECONDS_HEIGHT, TestedPair, own_of, put_seconds};
use svg_text::Drawing;

// How much of it the panel of the seconds takes, which tells the tests of profile 1 alone.
fn tests_height(profile: Profile) -> u32
    ensures value { result ≡ tests_height profile }
    ensures most { result ≤ 3100 }
{
    match profile {
        Profile::One => SECONDS_HEIGHT,
        Profile::Two => 0,
    }
}

// The pair that it is for, if any.
fn told_pair(profile: Profile, tested: Option<TestedPair>) -> Option<TestedPair>
    ensures { result ≡ told_pair profile tested }
{
    match profile {
        Profile::One => tested,
        Profile::Two => None,
    }
}

/// How much of the page they take: none where there is no such pair.
pub(crate) fn panels_height(profile: Profile, pair: Option<NearPair>) -> u32
    ensures value { result ≡ panels_height profile pair }
    ensures most { result ≤ 9900 }
{
    match pair {
        Some(_) => PANEL_HEIGHT + PANEL_HEIGHT + tests_height(profile),
        None => 0,
    }
}

// Puts their slant range, and below it their vertical distance.
fn put_both<D: Drawing>(
    top: u32,
    labels: &Labels<'_>,
    encounter: &Encounter,
    pair: NearPair,
    time: TimeAxis,
    drawing: &mut D,
)
    requires top { top ≤ 30000 }
    requires pair { IsPair encounter.now pair }
    requires inside { IsInside encounter.now }
    requires time { time.cycles ≡ encounter.now.cycles }
    requires start { time.start ≡ labels.now.start }
    ensures { D.drew drawing.old drawing.new (both_marks top labels.now encounter.now pair) }
{
    put_distance(top, encounter, labels, Distance::Slant, pair, time, drawing);
    let below = top + PANEL_HEIGHT;
    put_distance(
        below,
        encounter,
        labels,
        Distance::Vertical,
        pair,
        time,
        drawing,
    );
}

// Puts the seconds that the tests of own aircraft need, where one of them is active.
fn put_tested<D: Drawing>(
    top: u32,
    labels: &Labels<'_>,
    encounter: &Encounter,
    tested: Option<TestedPair>,
    time: TimeAxis,
    drawing: &mut D,
)
    requires top { top ≤ 40000 }
    requires tested { IfSome tested (AreTested encounter.now) }
    requires inside { IsInside encounter.now }
    requires time { time.cycles ≡ encounter.now.cycles }
    requires start { time.start ≡ labels.now.start }
    ensures { D.drew drawing.old drawing.new (tested_marks top labels.now encounter.now tested) }
{
    if let Some(tested) = tested {
        put_seconds(top, encounter, labels, tested, time, drawing);
    }
}

// Puts their three panels.
fn put_three<D: Drawing>(
    top: u32,
    labels: &Labels<'_>,
    encounter: &Encounter,
    pair: NearPair,
    time: TimeAxis,
    drawing: &mut D,
)
    requires top { top ≤ 30000 }
    requires pair { IsPair encounter.now pair }
    requires inside { IsInside encounter.now }
    requires time { time.cycles ≡ encounter.now.cycles }
    requires start { time.start ≡ labels.now.start }
    ensures { D.drew drawing.old drawing.new (three_marks top labels.now encounter.now pair) }
{
    put_both(top, labels, encounter, pair, time, drawing);
    let below = top + PANEL_HEIGHT + PANEL_HEIGHT;
    let either = own_of(encounter, pair.one, pair.other);
    let tested = told_pair(encounter.profile(), either);
    put_tested(below, labels, encounter, tested, time, drawing);
}

/// Puts them, where there is such a pair.
pub(crate) fn put_panels<D: Drawing>(
    top: u32,
    labels: &Labels<'_>,
    encounter: &Encounter,
    pair: Option<NearPair>,
    time: TimeAxis,
    drawing: &mut D,
)
    requires top { top ≤ 30000 }
    requires pair { IfSome pair (IsPair encounter.now) }
    requires inside { IsInside encounter.now }
    requires time { time.cycles ≡ encounter.now.cycles }
    requires start { time.start ≡ labels.now.start }
    ensures { D.drew drawing.old drawing.new (panel_marks top labels.now encounter.now pair) }
{
    if let Some(pair) = pair {
        put_three(top, labels, encounter, pair, time, drawing);
    }
}

/// Where they are nearest, for the plan.
pub(crate) fn approach_of(encounter: &Encounter, pair: Option<NearPair>) -> Option<Approach>
    requires pair { IfSome pair (IsPair encounter.now) }
    ensures value { result ≡ approach_of pair }
    ensures there { IfSome result (IsApproach encounter.now) }
{
    let _ = encounter;
    let pair = pair?;
    Some(Approach {
        one: pair.one,
        other: pair.other,
        cycle: pair.cycle,
    })
}
