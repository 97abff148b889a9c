// The track of one aircraft, and its places second by second.
ghost use Rattle.std.specs.Prelude.{ℤ, ◌*ℤ◌, IsSome, ◌≡◌, ◌↔◌, ◌<◌, ◌≤◌, ◌^◌, ℕ, List, Some, All, IfOk, pos, ◌-ℤ◌, ◌<ℤ◌, ◌≤ℤ◌, unsigned_abs, length, map, true, false, IsTrue};
ghost use Rattle.std.specs.List.{AllAdjacentBelow, list_any};
ghost use Rattle.std.specs.List.Sorted.{IsPartitionPoint};
ghost use Rattle.acas_base.specs.Ranges.{IsBetween, IsCycle, IsWithin};
ghost use Rattle.flight.specs.Inside.{IsInBox};
ghost use Rattle.flight.specs.declared.place.Place.{Place};
ghost use Rattle.track_file.specs.Rounding.{mean, nearest};
ghost use Rattle.track_file.specs.Track.{IsPlaced, IsPoint, IsTime, IsCovered, IsNearTrack, IsTrack, covers, first_from, is_by, is_from, last_by, rounded, rounded_between, time_of, unit_of};
ghost use Rattle.track_file.specs.declared.track.Point.{Point};

use crate::rounding::mean;
use flight::Place;
use std::alloc::{AllocError, Global};

/// A point of a track: where an aircraft was `ms` milliseconds after cycle 1, or before it where `ms` is below 0. `x`
/// and `y` are in ft, and the altitude `z` in 1/60 ft.
#[derive(Clone, Copy)]
pub struct Point {
    pub ms: i32,
    pub x: i32,
    pub y: i32,
    pub z: i32,
}

fn is_between(low: i32, value: i32, high: i32) -> bool
    ensures { IsTrue result ↔ IsBetween low high value }
{
    low <= value && value <= high
}

// Whether the place of a point is in the box.
fn is_placed(point: &Point) -> bool
    ensures { IsTrue result ↔ IsPlaced point.now }
{
    is_between(-1_000_000, point.x, 1_000_000)
        && is_between(-1_000_000, point.y, 1_000_000)
        && is_between(-60_000, point.z, 3_600_000)
}

fn is_point(point: &Point) -> bool
    ensures { IsTrue result ↔ IsPoint point.now }
{
    is_between(-1_000_000, point.ms, 1_000_000) && is_placed(point)
}

fn are_points(points: &[Point]) -> bool
    ensures { IsTrue result ↔ All IsPoint points.now }
{
    points.iter().all(|point| is_point(point))
}

// Whether each point is later than the one before it.
fn are_rising(points: &[Point]) -> bool
    ensures { IsTrue result ↔ AllAdjacentBelow (λ (a b : Point). a.ms <ℤ b.ms) points.now (length points.now) }
{
    points.is_sorted_by(|a, b| a.ms < b.ms)
}

/// Whether points are a track: their times rise, and are within 1,000 s of cycle 1; `x` and `y` are within 1,000,000 ft
/// of zero, and the altitude is from -1,000 to 60,000 ft.
pub fn is_track(points: &[Point]) -> bool
    ensures { IsTrue result ↔ IsTrack points.now }
{
    are_points(points) && are_rising(points)
}

// The points of a track around a time. They are one point where it is at that time.
#[derive(Clone, Copy)]
struct Span {
    before: Point,
    after: Point,
}

// The time of a cycle, in ms after cycle 1.
fn time_of(cycle: u16) -> i32
    requires { IsCycle cycle }
    ensures value { result ≡ time_of cycle }
    ensures in_run { IsTime result }
{
    (1000 * u32::from(cycle - 1)) as i32
}

// How many points are at a time or before it.
fn count_by(points: &[Point], time: i32) -> usize
    requires { IsTrack points.now }
    ensures bound { result ≤ length points.now }
    ensures parted { IsPartitionPoint (λ p. is_by time p ≡ true) (λ p. is_by time p ≡ false) points.now result }
{
    points.partition_point(|point| point.ms <= time)
}

// The last point at a time or before it, and the first one at the time or after it.
fn around(points: &[Point], time: i32) -> Span
    requires track { IsTrack points.now }
    requires some_by { list_any (is_by time) points.now ≡ true }
    requires some_from { list_any (is_from time) points.now ≡ true }
    ensures before { last_by points.now time ≡ Some result.before }
    ensures after { first_from points.now time ≡ Some result.after }
    ensures first { result.before.ms ≤ℤ time }
    ensures last { time ≤ℤ result.after.ms }
    ensures from_range { IsPoint result.before }
    ensures to_range { IsPoint result.after }
{
    let count = count_by(points, time);
    let before = points[count - 1];
    if time <= before.ms {
        return Span {
            before,
            after: before,
        };
    }
    Span {
        before,
        after: points[count],
    }
}

// How far two times are apart.
fn apart(a: i32, b: i32) -> u32
    requires a { IsWithin 1000000 a }
    requires b { IsWithin 1000000 b }
    ensures value { result ≡ unsigned_abs (a -ℤ b) }
    ensures bound { result ≤ 2 ^ 22 }
{
    a.abs_diff(b)
}

// One coordinate between two values, each with a weight, rounded to a unit.
fn coordinate(first: i32, weight: u32, second: i32, other: u32, unit: u8) -> i64
    requires first { unsigned_abs first ≤ 2 ^ 22 }
    requires second { unsigned_abs second ≤ 2 ^ 22 }
    requires weight { weight ≤ 2 ^ 22 }
    requires other { other ≤ 2 ^ 22 }
    requires unit { 0 < unit }
    requires small { unit ≤ 60 }
    ensures { result ≡ nearest unit (mean first weight second other) }
{
    mean(first, weight, second, other).nearest(unit)
}

// The place in a cycle between two points.
fn rounded_between(span: &Span, cycle: u16) -> Place
    requires from { IsPoint span.now.before }
    requires to { IsPoint span.now.after }
    requires cycle { IsCycle cycle }
    ensures value { result ≡ rounded_between span.now.before span.now.after cycle }
    ensures in_box { IsInBox result }
{
    let time = time_of(cycle);
    let (before, after) = (span.before, span.after);
    let weight = apart(after.ms, time);
    let other = apart(time, before.ms);
    Place {
        x: coordinate(before.x, weight, after.x, other, 1),
        y: coordinate(before.y, weight, after.y, other, 1),
        z: coordinate(before.z, weight, after.z, other, unit_of(cycle)),
    }
}

// The unit of the altitude in a cycle, in 1/60 ft.
fn unit_of(cycle: u16) -> u8
    ensures value { result ≡ unit_of cycle }
    ensures some { 0 < result }
    ensures small { result ≤ 60 }
{
    if cycle == 1 { 60 } else { 1 }
}

// Whether some point is at a time or before it.
fn some_by(points: &[Point], time: i32) -> bool
    ensures { result ≡ list_any (is_by time) points.now }
{
    points.iter().any(|point| point.ms <= time)
}

// Whether some point is at a time or after it.
fn some_from(points: &[Point], time: i32) -> bool
    ensures { result ≡ list_any (is_from time) points.now }
{
    points.iter().any(|point| time <= point.ms)
}

/// Whether a track covers a run of some cycles: it has a point at cycle 1 or before it, and one at the last cycle or
/// after it.
pub fn covers(points: &[Point], cycles: u16) -> bool
    requires { IsCycle cycles }
    ensures { result ≡ covers points.now cycles }
{
    some_by(points, 0) && some_from(points, time_of(cycles))
}

/// The place in a cycle, rounded. Between two points the track is straight. `x` and `y` are the nearest whole feet, and
/// `z` the nearest 1/60 ft, the greater of two as near. In cycle 1 `z` is the whole foot that is nearest to the track
/// itself, since an aircraft of an encounter begins at whole feet.
pub fn rounded(points: &[Point], cycle: u16) -> Place
    requires track { IsTrack points.now }
    requires cycle { IsCycle cycle }
    requires covered { IsCovered points.now cycle }
    ensures value { result ≡ rounded points.now cycle }
    ensures in_box { IsInBox result }
{
    rounded_between(&around(points, time_of(cycle)), cycle)
}

/// Laws of rounded places.
///
/// - `covered`: a track that covers a run covers each of its cycles.
/// - `around`: in a cycle that is covered there are a last point by then and a first one from then on.
/// - `near`: each coordinate differs from the line between these two by at most half its unit, in whatever cycle.
/// - `only`: no other place is as near with whole coordinates, the altitude being in whole feet in cycle 1 and in whole
///   sixtieths later.
pub fn rounding_law()
    ensures covered { (points : List Point) (cycles cycle : ℕ) → 1 ≤ cycle → cycle ≤ cycles → covers points cycles ≡ true → IsCovered points cycle }
    ensures around { (points : List Point) (cycle : ℕ) → IsCovered points cycle → IsSome (last_by points (time_of cycle)) × IsSome (first_from points (time_of cycle)) }
    ensures near { (points : List Point) (cycle : ℕ) (a b : Point) → last_by points (time_of cycle) ≡ Some a → first_from points (time_of cycle) ≡ Some b → IsNearTrack a b cycle (rounded points cycle) }
    ensures only { (points : List Point) (cycle : ℕ) (a b : Point) (place : Place) (k : ℤ) → last_by points (time_of cycle) ≡ Some a → first_from points (time_of cycle) ≡ Some b → place.z ≡ pos (unit_of cycle) *ℤ k → IsNearTrack a b cycle place → place ≡ rounded points cycle }
{}
