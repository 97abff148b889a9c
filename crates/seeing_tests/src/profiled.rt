// Encounters of a profile.
use acas_base::{
    CraftSpec, Encounter, Leg, Miss, Profile, Setting, USUAL_ALTITUDE_GAINS, USUAL_RANGE_GAINS,
};
use std::alloc::Global;
use std::test::Fail;

/// How an encounter of a profile is run over ground at sea level, with the usual gains.
pub(crate) fn setting(profile: Profile, cycles: u16) -> Setting {
    Setting {
        version: 3,
        profile,
        cycles,
        elevation: 0,
        range: USUAL_RANGE_GAINS,
        altitude: USUAL_ALTITUDE_GAINS,
        name: None,
        clock: None,
    }
}

/// An encounter of these parts, in which all messages arrive.
pub(crate) fn encounter_of(
    alloc: Global,
    setting: Setting,
    crafts: &[CraftSpec],
    legs: &[Leg],
    misses: &[Miss],
) -> Result<Encounter, Fail> {
    let made = Encounter::make(
        setting,
        Vec::new(alloc),
        crafts.to_vec(alloc)?,
        legs.to_vec(alloc)?,
        misses.to_vec(alloc)?,
        Vec::new(alloc),
        Vec::new(alloc),
    );
    Ok(made.ok_or("refused")?)
}
