// The encounter of a number.
ghost use Rattle.std.specs.Prelude.{◌≡◌, ◌≤◌, ℕ, IfOk};
ghost use Rattle.acas_base.specs.Encounter.{IsEncounter};
ghost use Rattle.acas_base.specs.Ranges.{IsCycle};
ghost use Rattle.acas_base.specs.declared.TheConstants.{CRAFTS};
ghost use Rattle.acas_base.specs.declared.setting.Profile.{Profile};
ghost use Rattle.enc_gen.specs.Generated.{generated, setting_for, version_of};
ghost use Rattle.enc_gen.specs.Near.{StaysNear, reach};
ghost use Rattle.flight.specs.Inside.{IsInside};

use crate::crafts::{crafts_of, draw_drafts, legs_of, placed};
use crate::draws::Draws;
use crate::fates::draw_fates;
use crate::misses::draw_misses;
use acas_base::{
    Encounter, Profile, Setting, USUAL_ALTITUDE_GAINS, USUAL_RANGE_GAINS, most_crafts,
};
use std::alloc::{AllocError, Global};

// The version of the format. In profile 1 it is version 1 where that has room for all aircraft, else version 2.
fn version_of(profile: Profile, crafts: u8) -> u8
    ensures { result ≡ version_of profile crafts }
{
    match profile {
        Profile::One => {
            if usize::from(crafts) <= most_crafts(1) {
                1
            } else {
                2
            }
        }
        Profile::Two => 3,
    }
}

// How it is run. It is called nothing.
fn setting_for(profile: Profile, crafts: u8, cycles: u16) -> Setting
    ensures { result ≡ setting_for profile crafts cycles }
{
    Setting {
        version: version_of(profile, crafts),
        profile,
        cycles,
        elevation: 0,
        range: USUAL_RANGE_GAINS,
        altitude: USUAL_ALTITUDE_GAINS,
        name: None,
        clock: None,
    }
}

/// The encounter of a number, with `crafts` aircraft and `cycles` cycles, for a profile. In profile 1 all aircraft meet
/// over one point, and it has version 1 up to eight aircraft, and version 2 above. In profile 2 each aircraft also
/// passes the first one sideways, up to 4 NM away, and it has version 3 (this project's profile). It is in the box, and
/// has no labels, no ceiling and no plan.
///
/// The error says that memory was wanting.
pub fn make(
    alloc: Global,
    number: u32,
    crafts: u8,
    cycles: u16,
    profile: Profile,
) -> Result<Encounter, AllocError>
    requires some { 1 ≤ crafts }
    requires few { crafts ≤ CRAFTS }
    requires cycles { IsCycle cycles }
    ensures value { IfOk result (λ encounter. encounter ≡ generated profile number crafts cycles) }
    ensures valid { IfOk result IsEncounter }
    ensures inside { IfOk result IsInside }
{
    let mut draws = Draws::new(number);
    let drafts = draw_drafts(alloc, &mut draws, crafts)?;
    let list = crafts_of(alloc, &drafts)?;
    let legs = legs_of(alloc, &drafts, cycles)?;
    let misses = draw_misses(alloc, &mut draws, &list, cycles)?;
    let fates = draw_fates(alloc, &mut draws, &list, cycles)?;
    let begin = placed(alloc, &mut draws, &drafts, profile)?;
    let plans = Vec::new(alloc);
    let calls = Vec::new(alloc);
    let setting = setting_for(profile, crafts, cycles);
    match Encounter::make(setting, calls, begin, legs, misses, plans, fates) {
        Some(encounter) => Ok(encounter),
        None => unreachable!(),
    }
}

/// A law: for either profile, any number, one to sixteen aircraft and 1 to 600 cycles, what is generated is an
/// encounter, and it is in the box. Its aircraft stay between 1,600 and 38,300 ft in altitude, and within 60,000 ft of
/// zero in x and y, or in profile 2 within 84,304 ft.
pub fn made_law()
    ensures valid { (profile : Profile) (number crafts cycles : ℕ) → 1 ≤ crafts → crafts ≤ CRAFTS → IsCycle cycles → IsEncounter (generated profile number crafts cycles) }
    ensures near { (profile : Profile) (number crafts cycles : ℕ) → crafts ≤ CRAFTS → IsCycle cycles → StaysNear (reach profile) (generated profile number crafts cycles) }
    ensures inside { (profile : Profile) (number crafts cycles : ℕ) → crafts ≤ CRAFTS → IsCycle cycles → IsInside (generated profile number crafts cycles) }
{}
