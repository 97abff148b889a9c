// Aircraft and how they fly.
ghost use Rattle.std.specs.Prelude.{◌≡◌};
ghost use Rattle.std.specs.List.{list_any};
ghost use Rattle.acas_base.specs.Encounter.{is_active, is_active_at, most_crafts};

use crate::{Address, CRAFTS};

/// The most aircraft of an encounter of this version of the format: 8 in version 1, [`CRAFTS`] in
/// version 2.
pub fn most_crafts(version: u8) -> usize
    ensures { result ≡ most_crafts version }
{
    if version == 1 { 8 } else { CRAFTS }
}

/// What an aircraft carries. `Ra`: TCAS II with resolution advisories. `Ta`: traffic advisories
/// alone, at the sensitivity level of its altitude (this project's own kind). `Xpdr`: a transponder
/// alone; such an aircraft is measured by others and advises nobody.
#[derive(Clone, Copy, PartialEq, Eq)]
pub enum Kind {
    Ra,
    Ta,
    Xpdr,
}

impl Kind {
    ghost use Rattle.acas_base.specs.Encounter.{is_active_kind, is_ra_kind};

    /// Whether it advises, `Ra` or `Ta`.
    pub fn is_active(self) -> bool
        ensures { result ≡ is_active_kind self }
    {
        match self {
            Kind::Ra | Kind::Ta => true,
            Kind::Xpdr => false,
        }
    }

    /// Whether it gives resolution advisories, `Ra`.
    pub fn resolves(self) -> bool
        ensures { result ≡ is_ra_kind self }
    {
        match self {
            Kind::Ra => true,
            Kind::Ta | Kind::Xpdr => false,
        }
    }
}

/// The gains of a track, in 1/1024. They are the parts of the difference between measurement and prediction that go
/// into the estimate (`alpha`) and into the rate (`beta`). In an encounter each is at most 1024.
#[derive(Clone, Copy)]
pub struct Gains {
    pub alpha: u16,
    pub beta: u16,
}

/// The gains of the range tracks where an encounter gives none (this project's profile).
pub const USUAL_RANGE_GAINS: Gains = Gains {
    alpha: 683,
    beta: 256,
};

/// The gains of the altitude tracks where an encounter gives none (this project's profile).
pub const USUAL_ALTITUDE_GAINS: Gains = Gains {
    alpha: 512,
    beta: 128,
};

/// An aircraft, and where it is in cycle 1: `x`, `y` and altitude `alt` in ft. It may climb where it has no `ceiling`
/// (ft), or its altitude is below the ceiling.
#[derive(Clone, Copy, PartialEq, Eq)]
pub struct CraftSpec {
    pub address: Address,
    pub kind: Kind,
    pub x: i32,
    pub y: i32,
    pub alt: i32,
    pub ceiling: Option<i32>,
}

impl CraftSpec {
    ghost use Rattle.acas_base.specs.Encounter.{is_active};

    /// Whether it advises, and so makes entries of its own in the journal.
    pub fn is_active(&self) -> bool
        ensures { result ≡ is_active self.now }
    {
        self.kind.is_active()
    }
}

/// Whether the aircraft at an index is there and advises.
pub fn is_active_at(crafts: &[CraftSpec], craft: u8) -> bool
    ensures { result ≡ is_active_at crafts.now craft }
{
    match crafts.get(usize::from(craft)) {
        Some(craft) => craft.is_active(),
        None => false,
    }
}

/// Whether some aircraft advises.
pub fn some_active(crafts: &[CraftSpec]) -> bool
    ensures { result ≡ list_any is_active crafts.now }
{
    crafts.iter().any(CraftSpec::is_active)
}

/// How the aircraft with index `craft` flies from cycle `from` on, until its next leg begins: `vx` and `vy` in ft/s,
/// `vz` in ft/min.
#[derive(Clone, Copy, PartialEq, Eq)]
pub struct Leg {
    pub craft: u8,
    pub from: u16,
    pub vx: i32,
    pub vy: i32,
    pub vz: i32,
}

/// The aircraft `own` gets no reply from `target` in the cycles `from` to `to`.
#[derive(Clone, Copy, PartialEq, Eq)]
pub struct Miss {
    pub own: u8,
    pub target: u8,
    pub from: u16,
    pub to: u16,
}
