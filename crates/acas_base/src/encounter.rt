// Encounters.
ghost use Rattle.std.specs.Prelude.{◌≡◌, ◌↔◌, IsSome, IsTrue, IfSome, IfOk};
ghost use Rattle.acas_base.specs.Encounter.{IsEncounter, encounter_of, setting_of};
ghost use Rattle.acas_base.specs.Fates.{fate_of};

use crate::checks::{are_crafts, are_labels, is_setting, suits_format};
use crate::fates::{fate_by, find_fate, find_plan, plain_fate};
use crate::records::are_all_records;
use crate::{Call, CraftSpec, Fate, Gains, Label, Leg, LinkPlan, Miss, Profile, Setting};
use std::alloc::{AllocError, Global};
use std::marker::Model;

/// Aircraft, how they fly, and what happens to their messages. All lists stand in the order of the encounter's
/// canonical text.
#[derive(Drop)]
pub struct Encounter {
    setting: Setting,
    calls: Vec<Call>,
    crafts: Vec<CraftSpec>,
    legs: Vec<Leg>,
    misses: Vec<Miss>,
    plans: Vec<LinkPlan>,
    fates: Vec<Fate>,
}

impl Model for Encounter {
    ghost use Rattle.acas_base.specs.Encounter.{Parts, IsEncounter};

    ghost Value = { Parts };

    ghost use Rattle.acas_base.specs.Kept.{parts_of};

    ghost view = { parts_of };

    ghost invariant = { λ e. IsEncounter (parts_of e) };
}

// Whether these are the parts of an encounter.
fn are_parts(
    setting: &Setting,
    calls: &[Call],
    crafts: &[CraftSpec],
    legs: &[Leg],
    misses: &[Miss],
    plans: &[LinkPlan],
    fates: &[Fate],
) -> bool
    ensures { IsTrue result ↔ IsEncounter (encounter_of setting.now calls.now crafts.now legs.now misses.now plans.now fates.now) }
{
    is_setting(setting)
        && are_crafts(setting.version, crafts)
        && suits_format(setting, calls, crafts, plans)
        && are_labels(crafts.len(), setting, calls)
        && are_all_records(crafts.len(), legs, misses, plans, fates)
}

impl Encounter {
    /// The encounter of these parts, where they are in their ranges and orders. The lists stand in the order of the
    /// canonical text. None where
    ///
    /// - a part breaks its range, or the version isn't 1, 2 or 3;
    /// - there is no aircraft, there are more than 8 in version 1 or more than [`crate::CRAFTS`], two have one address,
    ///   or none is active;
    /// - version 1 has a ceiling or a plan;
    /// - version 1 or 2 has profile 2, a name, a time of day or a call sign;
    /// - two aircraft have one call sign;
    /// - an index names no aircraft, or a pair names one aircraft twice;
    /// - a list isn't in its order, with rising keys, or a miss of a pair begins before the miss before it is over;
    /// - a fate or a plan has more than three copies, a copy past its count that isn't zero, or a mask of more than
    ///   three bits.
    pub fn make(
        setting: Setting,
        calls: Vec<Call>,
        crafts: Vec<CraftSpec>,
        legs: Vec<Leg>,
        misses: Vec<Miss>,
        plans: Vec<LinkPlan>,
        fates: Vec<Fate>,
    ) -> Option<Encounter>
        ensures some { IsSome result ↔ IsEncounter (encounter_of setting calls.items crafts.items legs.items misses.items plans.items fates.items) }
        ensures value { IfSome result (λ e. e ≡ encounter_of setting calls.items crafts.items legs.items misses.items plans.items fates.items) }
    {
        if !are_parts(&setting, &calls, &crafts, &legs, &misses, &plans, &fates) {
            return None;
        }
        Some(Encounter {
            setting,
            calls,
            crafts,
            legs,
            misses,
            plans,
            fates,
        })
    }

    /// A law: each encounter is in its ranges and orders, as [`Encounter::make`] asks.
    pub fn valid_law(&self)
        ensures { IsEncounter self.now }
    {
        // For the proof: a field is read, so the invariant is known.
        let _version = self.setting.version;
    }

    /// An equal encounter.
    pub fn copy(&self, alloc: Global) -> Result<Encounter, AllocError>
        ensures { IfOk result (λ e. e ≡ self.now) }
    {
        Ok(Encounter {
            setting: self.setting,
            calls: Vec::from_slice(alloc, &self.calls)?,
            crafts: Vec::from_slice(alloc, &self.crafts)?,
            legs: Vec::from_slice(alloc, &self.legs)?,
            misses: Vec::from_slice(alloc, &self.misses)?,
            plans: Vec::from_slice(alloc, &self.plans)?,
            fates: Vec::from_slice(alloc, &self.fates)?,
        })
    }

    /// How it is run, and what it is called.
    pub fn setting(&self) -> Setting
        ensures { result ≡ setting_of self.now }
    {
        self.setting
    }

    /// The version of its format: 1, 2 or 3.
    pub fn version(&self) -> u8
        ensures { result ≡ self.now.version }
    {
        self.setting.version
    }

    /// The rules by which its aircraft advise.
    pub fn profile(&self) -> Profile
        ensures { result ≡ self.now.profile }
    {
        self.setting.profile
    }

    /// Its name, if it has one.
    pub fn name(&self) -> Option<Label>
        ensures { result ≡ self.now.name }
    {
        self.setting.name
    }

    /// The time of day in cycle 1, in seconds after midnight, if it is given.
    pub fn clock(&self) -> Option<u32>
        ensures { result ≡ self.now.clock }
    {
        self.setting.clock
    }

    /// The call signs of aircraft, by aircraft.
    pub fn calls(&self) -> &[Call]
        ensures value { result.now ≡ self.now.calls }
        ensures valid { IsEncounter self.now }
    {
        self.calls.as_slice()
    }

    /// How many cycles it has, 1 to 600.
    pub fn cycles(&self) -> u16
        ensures value { result ≡ self.now.cycles }
        ensures valid { IsEncounter self.now }
    {
        self.setting.cycles
    }

    /// The elevation of the ground, in ft.
    pub fn ground(&self) -> i32
        ensures value { result ≡ self.now.elevation }
        ensures valid { IsEncounter self.now }
    {
        self.setting.elevation
    }

    /// The gains of the range tracks.
    pub fn range_gains(&self) -> Gains
        ensures { result ≡ self.now.range }
    {
        self.setting.range
    }

    /// The gains of the altitude tracks.
    pub fn altitude_gains(&self) -> Gains
        ensures { result ≡ self.now.altitude }
    {
        self.setting.altitude
    }

    /// The aircraft.
    pub fn crafts(&self) -> &[CraftSpec]
        ensures value { result.now ≡ self.now.crafts }
        ensures valid { IsEncounter self.now }
    {
        self.crafts.as_slice()
    }

    /// The legs, by aircraft and first cycle.
    pub fn legs(&self) -> &[Leg]
        ensures value { result.now ≡ self.now.legs }
        ensures valid { IsEncounter self.now }
    {
        self.legs.as_slice()
    }

    /// The misses, by own aircraft, target and first cycle.
    pub fn misses(&self) -> &[Miss]
        ensures value { result.now ≡ self.now.misses }
        ensures valid { IsEncounter self.now }
    {
        self.misses.as_slice()
    }

    /// The plans of links, by sender and receiver.
    pub fn plans(&self) -> &[LinkPlan]
        ensures value { result.now ≡ self.now.plans }
        ensures valid { IsEncounter self.now }
    {
        self.plans.as_slice()
    }

    /// The fates of single messages, by sender, receiver and number.
    pub fn fates(&self) -> &[Fate]
        ensures value { result.now ≡ self.now.fates }
        ensures valid { IsEncounter self.now }
    {
        self.fates.as_slice()
    }

    /// What happens to the message with this number from a sender to a receiver: its record, else its link's plan, else
    /// one copy that is neither held back nor damaged.
    pub fn fate(&self, sender: u8, receiver: u8, number: u16) -> Fate
        ensures { result ≡ fate_of self.now sender receiver number }
    {
        if let Some(fate) = find_fate(&self.fates, sender, receiver, number) {
            return fate;
        }
        match find_plan(&self.plans, sender, receiver) {
            Some(plan) => fate_by(number, plan),
            None => plain_fate(sender, receiver, number),
        }
    }
}
