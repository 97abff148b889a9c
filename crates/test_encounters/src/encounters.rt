// Parts of small encounters, and encounters of them.
ghost use Rattle.std.specs.Prelude.{IfOk};
ghost use Rattle.flight.specs.Inside.{IsInside};

use acas_base::{
    Address, CopyPlan, CraftSpec, Encounter, Fate, Gains, Kind, Leg, Miss, Profile, Setting,
};
use flight::inside;
use std::alloc::Global;
use std::test::Fail;

/// A copy that is neither held back nor damaged.
pub const PLAIN: CopyPlan = CopyPlan { hold: 0, mask: 0 };

/// An aircraft of kind RA at x and altitude in ft, which may climb at every altitude.
pub fn aircraft(address: u32, x: i32, alt: i32) -> Result<CraftSpec, Fail> {
    Ok(CraftSpec {
        address: Address::new(address).ok_or("no address")?,
        kind: Kind::Ra,
        x,
        y: 0,
        alt,
        ceiling: None,
    })
}

/// A leg of the aircraft of this index from a cycle on, at rates in ft/s along x and in ft/min of altitude.
pub fn leg(craft: u8, from: u16, vx: i32, vz: i32) -> Leg {
    Leg {
        craft,
        from,
        vx,
        vy: 0,
        vz,
    }
}

/// The cycles in which one aircraft gets no replies from another one.
pub fn miss(own: u8, target: u8, from: u16, to: u16) -> Miss {
    Miss {
        own,
        target,
        from,
        to,
    }
}

/// The fate of a message of the first aircraft to the second one. At most two copies arrive.
pub fn fate(number: u16, copies: u8, first: CopyPlan, second: CopyPlan) -> Fate {
    Fate {
        sender: 0,
        receiver: 1,
        number,
        copies,
        first,
        second,
        third: PLAIN,
    }
}

/// An encounter of these parts, in the box or not. All its tracks have this gain; where none is given, they have the
/// usual ones.
pub fn any_encounter(
    alloc: Global,
    cycles: u16,
    gain: Option<u16>,
    crafts: &[CraftSpec],
    legs: &[Leg],
    misses: &[Miss],
    fates: &[Fate],
) -> Result<Encounter, Fail> {
    let setting = Setting {
        version: 2,
        profile: Profile::One,
        cycles,
        elevation: 0,
        range: Gains {
            alpha: gain.unwrap_or(683),
            beta: gain.unwrap_or(256),
        },
        altitude: Gains {
            alpha: gain.unwrap_or(512),
            beta: gain.unwrap_or(128),
        },
        name: None,
        clock: None,
    };
    let made = Encounter::make(
        setting,
        Vec::new(alloc),
        crafts.to_vec(alloc)?,
        legs.to_vec(alloc)?,
        misses.to_vec(alloc)?,
        Vec::new(alloc),
        fates.to_vec(alloc)?,
    );
    Ok(made.ok_or("refused")?)
}

/// The same, in the box.
pub fn encounter(
    alloc: Global,
    cycles: u16,
    gain: Option<u16>,
    crafts: &[CraftSpec],
    legs: &[Leg],
    misses: &[Miss],
    fates: &[Fate],
) -> Result<Encounter, Fail>
    ensures { IfOk result IsInside }
{
    let made = any_encounter(alloc, cycles, gain, crafts, legs, misses, fates)?;
    if inside(&made) {
        Ok(made)
    } else {
        Err("outside the box".into())
    }
}
