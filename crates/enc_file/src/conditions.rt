// What may be wrong with a record after those before it, and what it gives.
ghost use Rattle.std.specs.Prelude.{◌≡◌, ◌<◌, ◌↔◌, IsTrue, length};
ghost use Rattle.acas_base.specs.Encounter.{address_in};
ghost use Rattle.enc_file.specs.Earlier.{fate_by, index_of, leg_by, miss_by, plan_by, setting_by};
ghost use Rattle.enc_file.specs.Faults.{are_masks_bad, has_ceiling, is_mask_bad};
ghost use Rattle.enc_file.specs.Reading.{missing_after};

use crate::record::{Copies, Course, Heading, Run, TrackGains};
use crate::refusal::Code;
use acas_base::{Address, CopyPlan, CraftSpec, Fate, Leg, LinkPlan, Miss, Profile, Setting};

// The most bits that a mask flips.
const BITS: u32 = 3;

/// What is missing where no record follows the first `count` ones.
pub fn missing_after(count: u32) -> Code
    ensures { result ≡ missing_after count }
{
    if count == 0 {
        Code::Header
    } else {
        Code::NoEnd
    }
}

/// The index of the aircraft with an address.
pub fn index_of(crafts: &[CraftSpec], address: Address) -> Option<usize>
    ensures { result ≡ index_of crafts.now address }
{
    crafts.iter().position(|craft| craft.address == address)
}

// Whether the aircraft at an index, where there is one, has an address.
pub(crate) fn has_address(crafts: &[CraftSpec], craft: usize, address: Address) -> bool
    ensures { IsTrue result ↔ (craft < length crafts.now) × (address_in crafts.now craft ≡ address) }
{
    match crafts.get(craft) {
        Some(craft) => craft.address == address,
        None => false,
    }
}

pub(crate) fn has_ceiling(crafts: &[CraftSpec], craft: usize) -> bool
    ensures { result ≡ has_ceiling crafts.now craft }
{
    match crafts.get(craft) {
        Some(craft) => craft.ceiling.is_some(),
        None => false,
    }
}

fn is_mask_bad(copy: CopyPlan) -> bool
    ensures { result ≡ is_mask_bad copy }
{
    BITS < copy.mask.count_ones()
}

pub(crate) fn are_masks_bad(first: CopyPlan, second: CopyPlan, third: CopyPlan) -> bool
    ensures { result ≡ are_masks_bad first second third }
{
    is_mask_bad(first) || (is_mask_bad(second) || is_mask_bad(third))
}

pub(crate) fn leg_by(course: Course, craft: u8) -> Leg
    ensures { result ≡ leg_by course craft }
{
    Leg {
        craft,
        from: course.from,
        vx: course.vx,
        vy: course.vy,
        vz: course.vz,
    }
}

pub(crate) fn miss_by(from: u16, to: u16, own: u8, target: u8) -> Miss
    ensures { result ≡ miss_by from to own target }
{
    Miss {
        own,
        target,
        from,
        to,
    }
}

pub(crate) fn plan_by(copies: Copies, sender: u8, receiver: u8) -> LinkPlan
    ensures { result ≡ plan_by copies sender receiver }
{
    LinkPlan {
        sender,
        receiver,
        copies: copies.count,
        first: copies.first,
        second: copies.second,
        third: copies.third,
    }
}

pub(crate) fn fate_by(number: u16, copies: Copies, sender: u8, receiver: u8) -> Fate
    ensures { result ≡ fate_by number copies sender receiver }
{
    Fate {
        sender,
        receiver,
        number,
        copies: copies.count,
        first: copies.first,
        second: copies.second,
        third: copies.third,
    }
}

// Where the text gives no profile, it has profile 1: formats 1 and 2 have no record for it.
pub(crate) fn setting_by(version: u8, heading: Heading, run: Run, gains: TrackGains) -> Setting
    ensures { result ≡ setting_by version heading run gains }
{
    Setting {
        version,
        profile: heading.profile.unwrap_or(Profile::One),
        cycles: run.cycles,
        elevation: run.elevation,
        range: gains.range,
        altitude: gains.altitude,
        name: heading.name,
        clock: heading.clock,
    }
}
