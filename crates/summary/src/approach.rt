// The closest approach of two aircraft.
ghost use Rattle.std.specs.Prelude.{◌≡◌, ◌+◌, ◌<◌, ◌≤◌, ◌^◌, ◌++◌, codes, length};
ghost use Rattle.acas_base.specs.Ranges.{IsCycle};
ghost use Rattle.acas_text.specs.declared.line.TheConstants.{LINE_BYTES};
ghost use Rattle.flight.specs.Approach.{range_between};
ghost use Rattle.flight.specs.Bounds.{IsReachable};
ghost use Rattle.summary.specs.Pairs.{IsNear, addresses, apart_line, below, closest_text, distance_text, end_text, horizontal, modelled_line, nearest_line, pair_line};

use crate::fields::{add_miles, address_of};
use crate::standing::Standing;
use acas_base::Encounter;
use acas_text::Line;
use flight::{Place, position, slant_range};
use response::planned_apart;

/// The slant range of two aircraft in a cycle, in ft, with its bound.
pub(crate) fn slant(encounter: &Encounter, a: u8, b: u8, cycle: u16) -> u64
    requires a { a < length encounter.now.crafts }
    requires b { b < length encounter.now.crafts }
    requires cycle { IsCycle cycle }
    ensures value { result ≡ range_between encounter.now a b cycle }
    ensures near { result < 2 ^ 32 }
{
    slant_range(position(encounter, a, cycle), position(encounter, b, cycle))
}

fn below(place: Place) -> Place
    requires { IsReachable place }
    ensures value { result ≡ below place }
    ensures reachable { IsReachable result }
{
    Place {
        x: place.x,
        y: place.y,
        z: 0,
    }
}

// How far two aircraft are apart without regard to altitude, in ft.
fn horizontal(encounter: &Encounter, a: u8, b: u8, cycle: u16) -> u64
    requires a { a < length encounter.now.crafts }
    requires b { b < length encounter.now.crafts }
    requires cycle { IsCycle cycle }
    ensures value { result ≡ horizontal encounter.now a b cycle }
    ensures near { result < 2 ^ 32 }
{
    slant_range(
        below(position(encounter, a, cycle)),
        below(position(encounter, b, cycle)),
    )
}

// Adds a distance, in ft and in nautical miles.
fn add_distance(line: &mut Line, feet: u64)
    requires near { feet < 2 ^ 32 }
    requires room { length line.old + 45 ≤ LINE_BYTES }
    ensures added { line.new ≡ line.old ++ distance_text feet }
    ensures short { length line.new ≤ length line.old + 45 }
{
    let feet = feet as u32;
    line.u32(feet);
    line.text(" ft (");
    add_miles(line, feet);
    line.text(" NM)");
}

fn end_text(cycle: u16, cycles: u16) -> &'static str
    ensures text { result.now ≡ end_text cycle cycles }
    ensures short { length result.now ≤ 20 }
{
    if cycle == cycles {
        "; the run ends there"
    } else {
        ""
    }
}

// Adds in which cycle they are nearest, and ends the line.
fn add_closest(line: &mut Line, standing: &Standing, cycles: u16)
    requires { length line.old + 60 ≤ LINE_BYTES }
    ensures { line.new ≡ line.old ++ closest_text standing.now cycles }
{
    line.text("closest as planned in cycle ");
    line.u16(standing.cycle);
    line.text(end_text(standing.cycle, cycles));
    line.text("\n");
}

/// The line with how far apart they are in that cycle.
pub(crate) fn apart_line(encounter: &Encounter, a: u8, b: u8, standing: &Standing) -> Line
    requires a { a < length encounter.now.crafts }
    requires b { b < length encounter.now.crafts }
    requires standing { IsNear encounter.now.cycles standing.now }
    requires cycles { encounter.now.cycles ≤ 600 }
    ensures { result ≡ apart_line encounter.now a b standing.now }
{
    let mut line = Line::new();
    line.text("    slant ");
    add_distance(&mut line, standing.range);
    line.text(", horizontal ");
    add_distance(&mut line, horizontal(encounter, a, b, standing.cycle));
    line.text(", vertical ");
    line.u32(planned_apart(encounter, a, b, standing.cycle));
    line.text(" ft\n");
    line
}

// Adds the addresses of two aircraft.
fn add_addresses(line: &mut Line, encounter: &Encounter, a: u8, b: u8)
    requires a { a < length encounter.now.crafts }
    requires b { b < length encounter.now.crafts }
    requires room { length line.old + 13 ≤ LINE_BYTES }
    ensures added { line.new ≡ line.old ++ addresses encounter.now a b }
    ensures short { length line.new ≤ length line.old + 13 }
{
    line.address(address_of(encounter, a).value());
    line.text(" ");
    line.address(address_of(encounter, b).value());
}

/// The line with the addresses of two aircraft that have met.
pub(crate) fn pair_line(encounter: &Encounter, a: u8, b: u8) -> Line
    requires a { a < length encounter.now.crafts }
    requires b { b < length encounter.now.crafts }
    ensures { result ≡ pair_line encounter.now a b }
{
    let mut line = Line::new();
    line.text("PAIR ");
    add_addresses(&mut line, encounter, a, b);
    line.text("\n");
    line
}

/// The line with the cycle of their closest approach.
pub(crate) fn closest_line(standing: &Standing, cycles: u16) -> Line
    ensures { result ≡ codes "  " ++ closest_text standing.now cycles }
{
    let mut line = Line::new();
    line.text("  ");
    add_closest(&mut line, standing, cycles);
    line
}

/// The same of the nearest pair, where no pair has met.
pub(crate) fn nearest_line(encounter: &Encounter, a: u8, b: u8, standing: &Standing) -> Line
    requires a { a < length encounter.now.crafts }
    requires b { b < length encounter.now.crafts }
    ensures { result ≡ nearest_line encounter.now a b standing.now }
{
    let mut line = Line::new();
    line.text("  ");
    add_addresses(&mut line, encounter, a, b);
    line.text(" ");
    add_closest(&mut line, standing, encounter.cycles());
    line
}

/// The line that tells of the modelled response.
pub(crate) fn modelled_line(feet: u32) -> Line
    ensures { result ≡ modelled_line feet }
{
    let mut line = Line::new();
    line.text("  with the modelled response: vertical ");
    line.u32(feet);
    line.text(" ft\n");
    line
}
