// Advisories, and what coordinates them.
ghost use Rattle.std.specs.Prelude.{◌≡◌, ◌<◌, ◌≤◌, ◌^◌, unsigned_abs};

use crate::{Address, CRAFTS};

/// The vertical sense of an advisory.
#[derive(Clone, Copy, PartialEq, Eq)]
pub enum Sense {
    Up,
    Down,
}

impl Sense {
    ghost use Rattle.acas_base.specs.Senses.{other_sense};

    /// The other sense.
    pub fn other(self) -> Sense
        ensures { result ≡ other_sense self }
    {
        match self {
            Sense::Up => Sense::Down,
            Sense::Down => Sense::Up,
        }
    }
}

/// The strength of an advisory, weakest first. `Limit2000`, `Limit1000` and `Limit500` limit the rate against the
/// sense, in ft/min. `Level` asks for no rate against the sense. `Positive` asks for 1500 ft/min in the sense, and
/// `Increase` for 2500 ft/min (FAA, Introduction to TCAS II v7.1).
#[derive(Clone, Copy, PartialEq, Eq, PartialOrd, Ord)]
pub enum Strength {
    Limit2000,
    Limit1000,
    Limit500,
    Level,
    Positive,
    Increase,
}

impl Strength {
    ghost use Rattle.acas_base.specs.Strengths.{floor_of, place_of};

    /// Its place in the order of strengths, from 0 for the weakest.
    pub fn place(self) -> usize
        ensures value { result ≡ place_of self }
        ensures bound { result < 6 }
    {
        match self {
            Strength::Limit2000 => 0,
            Strength::Limit1000 => 1,
            Strength::Limit500 => 2,
            Strength::Level => 3,
            Strength::Positive => 4,
            Strength::Increase => 5,
        }
    }

    /// Its floor: the least vertical rate in its sense that it asks for, in 1/1024 ft/s (FAA, Introduction to TCAS II
    /// v7.1; rounded towards zero by this project's profile).
    pub fn floor(self) -> i64
        ensures value { result ≡ floor_of self }
        ensures bound { unsigned_abs result ≤ 2 ^ 16 }
    {
        match self {
            Strength::Limit2000 => -34_133,
            Strength::Limit1000 => -17_066,
            Strength::Limit500 => -8_533,
            Strength::Level => 0,
            Strength::Positive => 25_600,
            Strength::Increase => 42_666,
        }
    }
}

/// A complement that isn't renewed lapses after this many commits of its taker (this project's profile).
pub const LAPSE: u16 = 6;

/// The vertical resolution advisory complement: none, "do not pass below", which forbids the sense
/// down, or "do not pass above", which forbids up (ICAO Annex 10 vol. IV, 4.3).
#[derive(Clone, Copy, Debug, PartialEq, Eq)]
pub enum Vrc {
    Nil,
    NotBelow,
    NotAbove,
}

impl Vrc {
    ghost use Rattle.acas_base.specs.Complements.{forbids, in_force};

    /// Whether it forbids this sense to its receiver.
    pub fn forbids(self, sense: Sense) -> bool
        ensures { result ≡ forbids self sense }
    {
        match self {
            Vrc::Nil => false,
            Vrc::NotBelow => sense == Sense::Down,
            Vrc::NotAbove => sense == Sense::Up,
        }
    }

    /// The complement in force, where its taker had made `taken` commits at the take and has made `made` by now. It is
    /// this complement until it lapses, and then none.
    pub fn in_force(self, taken: u16, made: u16) -> Vrc
        ensures { result ≡ in_force self taken made }
    {
        if u32::from(made) < u32::from(taken) + u32::from(LAPSE) {
            self
        } else {
            Vrc::Nil
        }
    }
}

/// Who gives way in a pair. Of two aircraft with resolution advisories the one of lower address is `First`, and the
/// other one, which gives way, is `Second`. Against an aircraft without them the rank is `Free`.
#[derive(Clone, Copy, Debug, PartialEq, Eq)]
pub enum Rank {
    First,
    Second,
    Free,
}

/// A resolution advisory against one aircraft. `age` is in cycles, from 1. `turned` says that its sense was reversed,
/// and not for a complement; `crossing` that the sense crosses the other's altitude; `corrective` that own rate has to
/// change.
#[derive(Clone, Copy, PartialEq, Eq)]
pub struct Intent {
    pub sense: Sense,
    pub strength: Strength,
    pub age: u16,
    pub turned: bool,
    pub crossing: bool,
    pub corrective: bool,
}

/// What an aircraft advises against another one in a cycle.
#[derive(Clone, Copy, PartialEq, Eq)]
pub enum Cell {
    Clear,
    Traffic,
    Ra(Intent),
}

impl Cell {
    ghost use Rattle.acas_base.specs.Messages.{has_advisory};
    ghost use Rattle.acas_base.specs.Senses.{has_sense, sense_of};

    /// Whether it is a resolution advisory.
    pub fn has_advisory(self) -> bool
        ensures { result ≡ has_advisory self }
    {
        match self {
            Cell::Clear | Cell::Traffic => false,
            Cell::Ra(_) => true,
        }
    }

    /// The sense of its resolution advisory; none where it has no such advisory.
    pub fn sense(self) -> Option<Sense>
        ensures { result ≡ sense_of self }
    {
        match self {
            Cell::Clear | Cell::Traffic => None,
            Cell::Ra(intent) => Some(intent.sense),
        }
    }

    /// Whether it has a resolution advisory of this sense.
    pub fn has_sense(self, sense: Sense) -> bool
        ensures { result ≡ has_sense self sense }
    {
        match self {
            Cell::Clear | Cell::Traffic => false,
            Cell::Ra(intent) => intent.sense == sense,
        }
    }
}

/// What an aircraft advises in a cycle, by index of the other aircraft. The place of the aircraft itself and the places
/// past the last aircraft are Clear.
#[derive(Clone, Copy, PartialEq, Eq)]
pub struct Cells {
    pub list: [Cell; CRAFTS],
}

/// A resolution message: whether its sender has more than one threat, the complement that it cancels, the complement
/// that it sets, and its sender's address (ICAO Annex 10 vol. IV, 4.3).
#[derive(Clone, Copy, PartialEq, Eq)]
pub struct ResMsg {
    pub many: bool,
    pub cancel: Vrc,
    pub vrc: Vrc,
    pub sender: Address,
}
