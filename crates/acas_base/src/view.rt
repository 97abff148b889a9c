// What an aircraft sees of the other ones.
use crate::{BySense, CRAFTS, Sense};

/// Vertical separations at closest approach, in 1/1024 ft, by strength, weakest first.
#[derive(Clone, Copy)]
pub struct Seps {
    pub up: [i64; 6],
    pub down: [i64; 6],
}

/// What one aircraft sees of another one in one cycle. Where it isn't tested or doesn't resolve, `side` is Up, what own
/// aircraft may do and what a sense does is false, and the numbers are 0.
///
/// The profile of an encounter decides how a view follows from what was measured. What an advisory does next follows
/// from the view alone.
#[derive(Clone, Copy)]
pub struct View {
    /// All tracks have a rate.
    pub tested: bool,
    /// The tests of a traffic advisory hold.
    pub traffic: bool,
    /// Own aircraft gives resolution advisories at its level.
    pub resolves: bool,
    /// The tests of a resolution advisory hold: one starts.
    pub threat: bool,
    /// A resolution advisory of five cycles or more goes on.
    pub lasts: bool,
    /// The other aircraft passes far away.
    pub far: bool,
    /// Own aircraft may climb.
    pub climbs: bool,
    /// Own aircraft is high enough to descend.
    pub descends: bool,
    /// Own aircraft is high enough to increase a descent.
    pub descends_faster: bool,
    /// The sense that doesn't cross the other's altitude.
    pub side: Sense,
    /// Whether a sense leads through the other's altitude.
    pub crosses: BySense,
    /// Half-seconds to closest approach.
    pub halves: u16,
    /// Whether an advisory of a sense may increase.
    pub hurries: BySense,
    /// Whether an advisory of a sense is in a vertical chase.
    pub chases: BySense,
    /// The age, in cycles, from which on an advisory may weaken.
    pub settled_at: u16,
    /// An advisory weakens only where `Level` gives ALIM.
    pub looks_ahead: bool,
    /// ALIM, the separation to aim for, in 1/1024 ft.
    pub alim: i64,
    /// A sense that can't give this separation is reversed, in 1/1024 ft.
    pub enough: i64,
    /// Own altitude minus the other's, by the tracks, in 1/1024 ft.
    pub gap: i64,
    /// Own vertical rate, in 1/1024 ft/s.
    pub rate: i64,
    /// The separations of a first response.
    pub first: Seps,
    /// The separations of a later response.
    pub later: Seps,
}

/// What the aircraft `own` sees in a cycle, by index of the other aircraft.
#[derive(Clone, Copy)]
pub struct Picture {
    pub own: u8,
    pub cycle: u16,
    pub views: [View; CRAFTS],
}
