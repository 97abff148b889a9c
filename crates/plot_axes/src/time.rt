// The axis of time.
ghost use Rattle.std.specs.Prelude.{◌≡◌, ◌+◌, ◌<◌, ◌≤◌, length};
ghost use Rattle.std.specs.Fmt.{decimal};
ghost use Rattle.std.specs.Option.{ForSome};
ghost use Rattle.plot_axes.specs.Time.{begin_of, is_tick, label_of, middle_of, most_ticks, name_of, tick_step};

use crate::clock::clock_text;
use crate::scale::share;
use crate::steps::least_step;
use acas_text::Line;

/// Where the axis of time begins, in units of the drawing.
pub const TIME_BEGIN: u32 = 2_000;

/// How long the axis of time is.
pub const TIME_LENGTH: u32 = 15_800;

// The steps between ticks, in seconds.
const STEPS: [u32; 7] = [1, 2, 5, 10, 20, 50, 100];

const DAY: u32 = 86_400;

/// The axis of a run: its cycles, a second each, and the second of the day in which cycle 1 is, where there is a clock.
#[derive(Clone, Copy)]
pub struct TimeAxis {
    pub cycles: u16,
    pub start: Option<u32>,

    ghost some: { 1 ≤ cycles },
    ghost few: { cycles ≤ 600 },
    ghost day: { ForSome start (λ second. second < 86400) },
}

// The number of a cycle.
fn number_text(cycle: u16) -> Line
    ensures text { result ≡ decimal cycle }
    ensures short { length result ≤ 8 }
{
    let mut line = Line::new();
    line.u16(cycle);
    line
}

impl TimeAxis {
    /// Where a cycle begins. The cycle after the last one begins where the axis ends.
    pub fn begin(self, cycle: u16) -> u32
        requires first { 1 ≤ cycle }
        requires last { cycle ≤ self.cycles + 1 }
        ensures value { result ≡ begin_of self.cycles cycle }
        ensures left { 2000 ≤ result }
        ensures right { result ≤ 17800 }
    {
        TIME_BEGIN + share(TIME_LENGTH, u64::from(self.cycles), u64::from(cycle - 1))
    }

    /// The middle of a cycle.
    pub fn middle(self, cycle: u16) -> u32
        requires first { 1 ≤ cycle }
        requires last { cycle ≤ self.cycles }
        ensures value { result ≡ middle_of self.cycles cycle }
        ensures left { 2000 ≤ result }
        ensures right { result ≤ 17800 }
    {
        (self.begin(cycle) + self.begin(cycle + 1)) / 2
    }

    // The most ticks that fit.
    fn most_ticks(self) -> u32
        ensures value { result ≡ most_ticks self.start }
        ensures few { result ≤ 14 }
    {
        if self.start.is_some() { 11 } else { 14 }
    }

    /// The step between ticks, in seconds.
    pub fn step(self) -> u32
        ensures value { result ≡ tick_step self.cycles self.start }
        ensures some { 1 ≤ result }
    {
        least_step(u32::from(self.cycles), self.most_ticks(), &STEPS)
    }

    /// What a cycle is called: its number, or its second of the day.
    pub fn name(self, cycle: u16) -> u32
        requires first { 1 ≤ cycle }
        requires last { cycle ≤ 600 }
        ensures { result ≡ name_of self.start cycle }
    {
        match self.start {
            Some(second) => (second + u32::from(cycle) - 1) % DAY,
            None => u32::from(cycle),
        }
    }

    /// What stands under a tick: the number of its cycle, or its time of day.
    pub fn label(self, cycle: u16) -> Line
        requires first { 1 ≤ cycle }
        requires last { cycle ≤ 600 }
        ensures text { result ≡ label_of self.start cycle }
        ensures short { length result ≤ 8 }
    {
        match self.start {
            Some(_) => clock_text(self.name(cycle)),
            None => number_text(cycle),
        }
    }

    /// Whether a tick stands where a cycle begins.
    pub fn is_tick(self, cycle: u16) -> bool
        requires first { 1 ≤ cycle }
        requires last { cycle ≤ 600 }
        ensures { result ≡ is_tick self.cycles self.start cycle }
    {
        self.name(cycle) % self.step() == 0
    }
}
