// What one record says.
use acas_base::{Address, CopyPlan, CraftSpec, Gains, Label, Profile};

/// What a text says of itself: its profile, its name, and the time of day in cycle 1, in seconds after midnight.
#[derive(Clone, Copy)]
pub struct Heading {
    pub profile: Option<Profile>,
    pub name: Option<Label>,
    pub clock: Option<u32>,
}

/// How many cycles a run has, and the elevation of the ground in ft.
#[derive(Clone, Copy)]
pub struct Run {
    pub cycles: u16,
    pub elevation: i32,
}

/// The gains of the range tracks and of the altitude tracks.
#[derive(Clone, Copy)]
pub struct TrackGains {
    pub range: Gains,
    pub altitude: Gains,
}

/// The rates of a leg from a cycle on: `vx` and `vy` in ft/s, `vz` in ft/min.
#[derive(Clone, Copy)]
pub struct Course {
    pub from: u16,
    pub vx: i32,
    pub vy: i32,
    pub vz: i32,
}

/// The copies of a message. Those past their count are zero.
#[derive(Clone, Copy)]
pub struct Copies {
    pub count: u8,
    pub first: CopyPlan,
    pub second: CopyPlan,
    pub third: CopyPlan,
}

/// An own aircraft and its target, or a sender and its receiver.
#[derive(Clone, Copy)]
pub struct Addresses {
    pub first: Address,
    pub second: Address,
}

/// A record of an encounter's text, read by itself. Its fields are in their ranges.
#[derive(Clone, Copy)]
pub enum Record {
    Header(u8),
    Run(Run),
    Gains(TrackGains),
    Craft(CraftSpec),
    Climb {
        address: Address,
        limit: i32,
    },
    Leg {
        address: Address,
        course: Course,
    },
    Miss {
        pair: Addresses,
        from: u16,
        to: u16,
    },
    Plan {
        pair: Addresses,
        copies: Copies,
    },
    Fate {
        pair: Addresses,
        number: u16,
        copies: Copies,
    },
    End,
    Profile(Profile),
    Name(Label),
    Clock(u32),
    Call {
        address: Address,
        sign: Label,
    },
}
