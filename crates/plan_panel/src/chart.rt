// Where aircraft stand in the plan.
ghost use Rattle.std.specs.Prelude.{◌≡◌, ◌+◌, ◌<◌, ◌≤◌, length};
ghost use Rattle.plan_panel.specs.Places.{IsView, plan_point, view_of, x_in, y_in};

use crate::view::{View, placed, view_law};
use acas_base::Encounter;
use flight::position;
use page_marks::point_at;
use plot_axes::TimeAxis;
use svg_text::Point;

/// How wide the box is.
pub(crate) const BOX_WIDTH: u32 = 8_000;

/// How high it is.
pub(crate) const BOX_HEIGHT: u32 = 6_000;

/// Where it begins.
pub(crate) const BOX_LEFT: u32 = 400;

/// Where it begins, below the top of the panel.
pub(crate) const BOX_TOP: u32 = 500;

/// Where it ends, below the top of the panel.
pub(crate) const BOX_BOTTOM: u32 = 6_500;

/// An encounter, what its plan shows, its time, and the top of the panel.
#[derive(Clone, Copy)]
pub(crate) struct Chart<'a> {
    pub encounter: &'a Encounter,
    pub view: View,
    pub time: TimeAxis,
    pub top: u32,

    ghost view_is: { view ≡ view_of encounter.now },
    ghost axes: { IsView view },
    ghost run: { time.cycles ≡ encounter.now.cycles },
    ghost on_page: { top ≤ 40000 },
}

impl Chart<'_> {
    /// How far to the right an aircraft stands in a cycle.
    #[tactic(auto, unfolding(crate::specs::Places::x_in))]
    pub fn x(self, own: u8, cycle: u16) -> u32
        requires own { own < length self.encounter.now.crafts }
        requires first { 1 ≤ cycle }
        requires last { cycle ≤ self.time.cycles }
        ensures value { result ≡ x_in self.entry.encounter.now own cycle }
        ensures left { 800 ≤ result }
        ensures right { result ≤ 8000 }
    {
        view_law(self.encounter);
        BOX_LEFT
            + placed(
                BOX_WIDTH,
                self.view.x,
                position(self.encounter, own, cycle).x,
            )
    }

    /// How far down.
    #[tactic(auto, unfolding(crate::specs::Places::y_in))]
    pub fn y(self, own: u8, cycle: u16) -> u32
        requires own { own < length self.encounter.now.crafts }
        requires first { 1 ≤ cycle }
        requires last { cycle ≤ self.time.cycles }
        ensures value { result ≡ y_in self.entry.top self.entry.encounter.now own cycle }
        ensures above { self.entry.top + 800 ≤ result }
        ensures below { result ≤ self.entry.top + 6200 }
    {
        view_law(self.encounter);
        self.top + BOX_BOTTOM
            - placed(
                BOX_HEIGHT,
                self.view.y,
                position(self.encounter, own, cycle).y,
            )
    }

    /// Its point.
    #[tactic(auto, unfolding(crate::specs::Places::plan_point))]
    pub fn place(self, own: u8, cycle: u16) -> Point
        requires own { own < length self.encounter.now.crafts }
        requires first { 1 ≤ cycle }
        requires last { cycle ≤ self.time.cycles }
        ensures { result ≡ plan_point self.entry.top self.entry.encounter.now own cycle }
    {
        point_at(self.x(own, cycle), self.y(own, cycle))
    }
}
