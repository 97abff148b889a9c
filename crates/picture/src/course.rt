// The line of an aircraft in the box of the altitudes.
ghost use Rattle.std.specs.Prelude.{◌≡◌, ◌<◌, ◌≤◌, length, unsigned_abs};
ghost use Rattle.picture.specs.Altitude.{course_point, course_y};
ghost use Rattle.picture.specs.Bands.{edge_point, shifted};
ghost use Rattle.picture.specs.Heights.{HoldsPlanned};
ghost use Rattle.plot_axes.specs.Time.{begin_of};

use crate::altitude::{course_point, course_y};
use crate::side::Side;
use crate::span::Span;
use acas_base::Encounter;
use page_marks::point_at;
use plot_axes::TimeAxis;
use svg_text::Point;

/// An aircraft of an encounter, and the two axes by which its line is drawn.
#[derive(Clone, Copy)]
pub(crate) struct Course<'a> {
    pub encounter: &'a Encounter,
    pub axis: Span,
    pub time: TimeAxis,
    pub own: u8,

    ghost heights: { HoldsPlanned axis encounter.now },
    ghost low: { unsigned_abs axis.low ≤ 1068 },
    ghost high: { unsigned_abs axis.high ≤ 1068 },
    ghost run: { time.cycles ≡ encounter.now.cycles },
    ghost craft: { own < length encounter.now.crafts },
}

// A place so far above another one or below it.
fn shifted(side: Side, depth: u32, y: u32) -> u32
    requires depth { depth ≤ 150 }
    requires least { 1500 ≤ y }
    requires most { y ≤ 4700 }
    ensures value { result ≡ shifted side depth y }
    ensures most { result ≤ 4850 }
{
    match side {
        Side::Above => y - depth,
        Side::Below => y + depth,
    }
}

impl Course<'_> {
    /// How far down the line is in a cycle.
    pub fn y(self, cycle: u16) -> u32
        requires first { 1 ≤ cycle }
        requires last { cycle ≤ self.time.cycles }
        ensures value { result ≡ course_y self.entry.axis self.entry.encounter.now self.entry.own cycle }
        ensures least { 1500 ≤ result }
        ensures most { result ≤ 4700 }
    {
        course_y(self.encounter, self.axis, self.own, cycle)
    }

    /// Where a cycle begins.
    pub fn begin(self, cycle: u16) -> u32
        requires first { 1 ≤ cycle }
        requires last { cycle ≤ self.time.cycles }
        ensures value { result ≡ begin_of self.entry.encounter.now.cycles cycle }
        ensures left { 2000 ≤ result }
        ensures right { result ≤ 17800 }
    {
        self.time.begin(cycle)
    }

    /// Its point of a cycle.
    pub fn place(self, cycle: u16) -> Point
        requires first { 1 ≤ cycle }
        requires last { cycle ≤ self.time.cycles }
        ensures { result ≡ course_point self.entry.axis self.entry.encounter.now self.entry.own cycle }
    {
        course_point(self.encounter, self.axis, self.time, self.own, cycle)
    }

    /// A point so far above it or below it.
    #[tactic(auto, unfolding(crate::specs::Bands::edge_point))]
    pub fn beside(self, side: Side, depth: u32, cycle: u16) -> Point
        requires depth { depth ≤ 150 }
        requires first { 1 ≤ cycle }
        requires last { cycle ≤ self.time.cycles }
        ensures { result ≡ edge_point self.entry.axis self.entry.encounter.now self.entry.own side depth cycle }
    {
        point_at(self.begin(cycle), shifted(side, depth, self.y(cycle)))
    }
}
