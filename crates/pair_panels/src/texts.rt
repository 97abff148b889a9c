// What the panels say.
ghost use Rattle.std.specs.Prelude.{◌≡◌, ◌+◌, ◌++◌, ◌<◌, ◌≤◌, ◌^◌, length};
ghost use Rattle.acas_text.specs.declared.line.TheConstants.{LINE_BYTES};
ghost use Rattle.pair_panels.specs.Panel.{aim_text, closest_text, distance_name, feet_text, heading_text, miles_text, quarters_text, tick_text, value_text};
ghost use Rattle.svg_text.specs.declared.drawing.TheConstants.{LABEL_BYTES};

use crate::distance::Distance;
use acas_text::Line;
use page_marks::add_words;

fn distance_name(distance: Distance) -> &'static str
    ensures text { result.now ≡ distance_name distance }
    ensures short { length result.now ≤ 17 }
{
    match distance {
        Distance::Slant => "slant range",
        Distance::Vertical => "vertical distance",
    }
}

/// What a panel shows of two aircraft with these names.
#[tactic(auto, unfolding(crate::specs::Panel::heading_text))]
pub(crate) fn heading_text(one: &Line, other: &Line, distance: Distance) -> Line
    requires one { length one.now ≤ 8 }
    requires other { length other.now ≤ 8 }
    ensures text { result ≡ heading_text one.now other.now distance }
    ensures short { length result ≤ LABEL_BYTES }
{
    let mut line = Line::new();
    add_words(&mut line, one);
    line.text(" and ");
    add_words(&mut line, other);
    line.text(": ");
    line.text(distance_name(distance));
    line
}

/// Adds what a distance is.
#[tactic(auto, unfolding(crate::specs::Panel::value_text))]
pub(crate) fn add_value(line: &mut Line, distance: Distance, value: u32)
    requires room { length line.old + 31 ≤ LINE_BYTES }
    ensures added { line.new ≡ line.old ++ value_text distance value }
    ensures short { length line.new ≤ length line.old + 31 }
{
    line.text(distance_name(distance));
    line.text(" ");
    line.u32(value);
    line.text(" ft");
}

/// When two aircraft are nearest, and what a distance is then.
#[tactic(auto, unfolding(crate::specs::Panel::closest_text))]
pub(crate) fn closest_text(distance: Distance, when: &Line, value: u32) -> Line
    requires { length when.now ≤ 16 }
    ensures text { result ≡ closest_text distance when.now value }
    ensures short { length result ≤ LABEL_BYTES }
{
    let mut line = Line::new();
    line.text("closest approach: ");
    add_words(&mut line, when);
    line.text(", ");
    add_value(&mut line, distance, value);
    line
}

/// What a vertical distance is held against.
#[tactic(auto, unfolding(crate::specs::Panel::aim_text))]
pub(crate) fn aim_text(aim: u32) -> Line
    ensures text { result ≡ aim_text aim }
    ensures short { length result ≤ LABEL_BYTES }
{
    let mut line = Line::new();
    line.text("ALIM ");
    line.u32(aim);
    line.text(" ft");
    line
}

// Adds quarters of a nautical mile.
fn add_quarters(line: &mut Line, quarters: u32)
    requires few { quarters < 4 }
    requires room { length line.old + 11 ≤ LINE_BYTES }
    ensures added { line.new ≡ line.old ++ quarters_text quarters }
    ensures short { length line.new ≤ length line.old + 11 }
{
    if quarters == 0 {
        return;
    }
    line.text(".");
    line.u32(25 * quarters);
}

#[tactic(auto, unfolding(crate::specs::Panel::miles_text))]
fn miles_text(quarters: u32) -> Line
    ensures text { result ≡ miles_text quarters }
    ensures short { length result ≤ LABEL_BYTES }
{
    let mut line = Line::new();
    line.u32(quarters / 4);
    add_quarters(&mut line, quarters % 4);
    line.text(" NM");
    line
}

#[tactic(auto, unfolding(crate::specs::Panel::feet_text))]
fn feet_text(feet: u32) -> Line
    ensures text { result ≡ feet_text feet }
    ensures short { length result ≤ LABEL_BYTES }
{
    let mut line = Line::new();
    line.u32(feet);
    line.text(" ft");
    line
}

/// The distance of a tick.
pub(crate) fn tick_text(distance: Distance, feet: u32) -> Line
    ensures text { result ≡ tick_text distance feet }
    ensures short { length result ≤ LABEL_BYTES }
{
    match distance {
        Distance::Slant => miles_text(feet / 1_519),
        Distance::Vertical => feet_text(feet),
    }
}
