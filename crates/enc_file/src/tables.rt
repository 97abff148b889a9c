// What the records so far give, and what is wrong with the next one.
ghost use Rattle.std.specs.Prelude.{◌≡◌, ◌-◌, ◌*◌, ◌<◌, ◌^◌, ◌∷◌, [], List, IfOk, Some, true};
ghost use Rattle.std.specs.List.{list_any};
ghost use Rattle.acas_base.specs.Encounter.{IsVersion, is_active};
ghost use Rattle.acas_base.specs.declared.TheConstants.{CRAFTS};
ghost use Rattle.csv.specs.Records.{fields_of};
ghost use Rattle.enc_file.specs.Earlier.{crafts_of, encounter_by, for_pair, index_of, version_of};
ghost use Rattle.enc_file.specs.Faults.{lacks_profile};
ghost use Rattle.enc_file.specs.Reading.{IsReading, read_from, refusal_after};
ghost use Rattle.enc_file.specs.Tables.{Adds, AreGoing, Holds, IsHeld, IsSoFar, Settles, Takes};
ghost use Rattle.enc_file.specs.WellRead.{IsOfFormat, IsSaid};
ghost use Rattle.enc_file.specs.declared.record.Record.{Record};

use crate::calls::{call_by, calls_by_craft, has_call, is_called};
use crate::conditions::{
    fate_by, has_address, has_ceiling, index_of, leg_by, miss_by, missing_after, plan_by,
    setting_by,
};
use crate::groups::Groups;
use crate::record::{Addresses, Copies, Course, Heading, Record, Run, TrackGains};
use crate::refusal::{Code, ReadError, Refusal};
use crate::saying::{record_of, version_in};
use acas_base::{
    Address, CRAFTS, Call, CraftSpec, Encounter, Fate, Label, Leg, LinkPlan, Miss, Profile,
    USUAL_ALTITUDE_GAINS, USUAL_RANGE_GAINS, most_crafts, some_active,
};
use csv::ByteRecord;
use flight::inside;
use std::alloc::{AllocError, Global};

// The gains of a text that gives none.
const USUAL_GAINS: TrackGains = TrackGains {
    range: USUAL_RANGE_GAINS,
    altitude: USUAL_ALTITUDE_GAINS,
};

// A text that says nothing of itself.
const NO_HEADING: Heading = Heading {
    profile: None,
    name: None,
    clock: None,
};

/// What the records of an encounter's text give, up to some record. They are read one after the other. The records of
/// each aircraft and of each pair stand in groups. So the next record is compared with the last one of its group alone.
#[derive(Drop)]
pub struct Tables {
    count: u32,
    version: u8,
    heading: Heading,
    run: Option<Run>,
    gains: Option<TrackGains>,
    crafts: Vec<CraftSpec>,
    calls: Vec<Call>,
    legs: Groups<Leg>,
    misses: Groups<Miss>,
    plans: Groups<LinkPlan>,
    fates: Groups<Fate>,
    // The aircraft of the pair that was found last, by their indices. Mostly the next record is of the same pair.
    last: (usize, usize),
    made: Option<Encounter>,
}

impl Tables {
    /// The tables before the first record. The error says that memory was wanting.
    pub fn new(alloc: Global) -> Result<Tables, AllocError>
        ensures { IfOk result (Holds []) }
    {
        Ok(Tables {
            count: 0,
            version: 0,
            heading: NO_HEADING,
            run: None,
            gains: None,
            crafts: Vec::new(alloc),
            calls: Vec::new(alloc),
            legs: Groups::new(alloc, CRAFTS)?,
            misses: Groups::new(alloc, CRAFTS * CRAFTS)?,
            plans: Groups::new(alloc, CRAFTS * CRAFTS)?,
            fates: Groups::new(alloc, CRAFTS * CRAFTS)?,
            last: (0, 0),
            made: None,
        })
    }

    /// The tables after the header of a format. The error says that memory was wanting.
    pub fn begun(alloc: Global, version: u8) -> Result<Tables, AllocError>
        requires { IsVersion version }
        ensures { IfOk result (Holds (Record.Header version ∷ [])) }
    {
        let mut tables = Tables::new(alloc)?;
        tables.version = version;
        tables.count = 1;
        Ok(tables)
    }

    /// The aircraft so far, each with its ceiling.
    pub fn crafts(&self) -> &[CraftSpec]
        ensures { (earlier : List Record) → Holds earlier self.now → result.now ≡ crafts_of earlier }
    {
        &self.crafts
    }

    // The refusal of the next record.
    fn refused(&self, code: Code) -> ReadError
        requires { self.now.count < 2 ^ 32 - 1 }
        ensures { result ≡ ReadError.Refused (refusal_after self.now.count code) }
    {
        ReadError::Refused(Refusal {
            at: self.count + 1,
            code,
        })
    }

    // The next record was counted, or it is refused for this fault.
    fn settle(&mut self, fault: Option<Code>) -> Result<(), ReadError>
        requires { self.old.count < 2 ^ 32 - 1 }
        ensures { Settles self.old fault self.new result }
    {
        match fault {
            Some(code) => Err(self.refused(code)),
            None => {
                self.count += 1;
                Ok(())
            }
        }
    }

    // The index of the aircraft with an address.
    fn index_of(&self, address: Address) -> Option<usize>
        ensures { result ≡ index_of self.now.crafts.items address }
    {
        index_of(&self.crafts, address)
    }

    // The same. The aircraft at an index is tried first.
    fn index_near(&self, guess: usize, address: Address) -> Option<usize>
        requires { IsHeld self.now }
        ensures { result ≡ index_of self.now.crafts.items address }
    {
        if has_address(&self.crafts, guess, address) {
            return Some(guess);
        }
        self.index_of(address)
    }

    // The two different aircraft with these addresses, by their indices. They are kept as the last pair.
    fn pair_of(&mut self, pair: Addresses) -> Option<(usize, usize)>
        requires { IsHeld self.old }
        ensures found { result ≡ for_pair self.old.crafts.items pair (λ first second. (first, second)) }
        ensures kept { self.new ≡ record self.old { last = self.new.last } }
        ensures count { self.new.count ≡ self.old.count }
    {
        if pair.first == pair.second {
            return None;
        }
        let first = self.index_near(self.last.0, pair.first)?;
        let second = self.index_near(self.last.1, pair.second)?;
        self.last = (first, second);
        Some((first, second))
    }

    // The first record.
    fn add_header(&mut self, row: &ByteRecord) -> Result<(), ReadError>
        requires { self.old.count ≡ 0 }
        ensures { Holds [] self.old → Takes [] (fields_of row.now) self.new result }
    {
        let Some(version) = version_in(row) else {
            return Err(self.refused(Code::Header));
        };
        self.version = version;
        self.count = 1;
        Ok(())
    }

    fn add_profile(&mut self, profile: Profile) -> Result<(), ReadError>
        requires room { self.old.count < 2 ^ 32 - 1 }
        ensures { (earlier : List Record) → AreGoing earlier → IsOfFormat (version_of earlier) (Record.Profile profile) → Holds earlier self.old → Adds earlier (Record.Profile profile) self.new result }
    {
        if self.heading.profile.is_some() {
            return Err(self.refused(Code::Repeat));
        }
        self.heading.profile = Some(profile);
        self.count += 1;
        Ok(())
    }

    fn add_name(&mut self, name: Label) -> Result<(), ReadError>
        requires room { self.old.count < 2 ^ 32 - 1 }
        requires said { IsSaid (Record.Name name) }
        ensures { (earlier : List Record) → AreGoing earlier → IsOfFormat (version_of earlier) (Record.Name name) → Holds earlier self.old → Adds earlier (Record.Name name) self.new result }
    {
        if self.heading.name.is_some() {
            return Err(self.refused(Code::Repeat));
        }
        self.heading.name = Some(name);
        self.count += 1;
        Ok(())
    }

    fn add_clock(&mut self, second: u32) -> Result<(), ReadError>
        requires room { self.old.count < 2 ^ 32 - 1 }
        requires said { IsSaid (Record.Clock second) }
        ensures { (earlier : List Record) → AreGoing earlier → IsOfFormat (version_of earlier) (Record.Clock second) → Holds earlier self.old → Adds earlier (Record.Clock second) self.new result }
    {
        if self.heading.clock.is_some() {
            return Err(self.refused(Code::Repeat));
        }
        self.heading.clock = Some(second);
        self.count += 1;
        Ok(())
    }

    fn add_run(&mut self, run: Run) -> Result<(), ReadError>
        requires room { self.old.count < 2 ^ 32 - 1 }
        requires said { IsSaid (Record.Run run) }
        ensures { (earlier : List Record) → AreGoing earlier → Holds earlier self.old → Adds earlier (Record.Run run) self.new result }
    {
        if self.run.is_some() {
            return Err(self.refused(Code::Repeat));
        }
        self.run = Some(run);
        self.count += 1;
        Ok(())
    }

    fn add_gains(&mut self, gains: TrackGains) -> Result<(), ReadError>
        requires room { self.old.count < 2 ^ 32 - 1 }
        requires said { IsSaid (Record.Gains gains) }
        ensures { (earlier : List Record) → AreGoing earlier → Holds earlier self.old → Adds earlier (Record.Gains gains) self.new result }
    {
        if self.gains.is_some() {
            return Err(self.refused(Code::Repeat));
        }
        self.gains = Some(gains);
        self.count += 1;
        Ok(())
    }

    fn add_craft(&mut self, craft: CraftSpec) -> Result<(), ReadError>
        requires room { self.old.count < 2 ^ 32 - 1 }
        requires said { IsSaid (Record.Craft craft) }
        ensures { (earlier : List Record) → AreGoing earlier → Holds earlier self.old → Adds earlier (Record.Craft craft) self.new result }
    {
        if self.index_of(craft.address).is_some() {
            return Err(self.refused(Code::Repeat));
        }
        if most_crafts(self.version) <= self.crafts.len() {
            return Err(self.refused(Code::Count));
        }
        self.crafts.push(craft)?;
        self.count += 1;
        Ok(())
    }

    fn add_call(&mut self, address: Address, sign: Label) -> Result<(), ReadError>
        requires room { self.old.count < 2 ^ 32 - 1 }
        requires held { IsHeld self.old }
        requires said { IsSaid (Record.Call address sign) }
        ensures { (earlier : List Record) → AreGoing earlier → IsOfFormat (version_of earlier) (Record.Call address sign) → Holds earlier self.old → Adds earlier (Record.Call address sign) self.new result }
    {
        if is_called(&self.calls, sign.bytes()) {
            return Err(self.refused(Code::Repeat));
        }
        let Some(craft) = self.index_of(address) else {
            return Err(self.refused(Code::Unknown));
        };
        if has_call(&self.calls, craft) {
            return Err(self.refused(Code::Repeat));
        }
        self.calls.push(call_by(sign, craft as u8))?;
        self.count += 1;
        Ok(())
    }

    fn add_climb(&mut self, address: Address, limit: i32) -> Result<(), ReadError>
        requires room { self.old.count < 2 ^ 32 - 1 }
        requires said { IsSaid (Record.Climb address limit) }
        ensures { (earlier : List Record) → AreGoing earlier → IsOfFormat (version_of earlier) (Record.Climb address limit) → Holds earlier self.old → Adds earlier (Record.Climb address limit) self.new result }
    {
        let Some(craft) = self.index_of(address) else {
            return Err(self.refused(Code::Unknown));
        };
        if has_ceiling(&self.crafts, craft) {
            return Err(self.refused(Code::Repeat));
        }
        self.crafts[craft].ceiling = Some(limit);
        self.count += 1;
        Ok(())
    }

    fn add_leg(&mut self, address: Address, course: Course) -> Result<(), ReadError>
        requires room { self.old.count < 2 ^ 32 - 1 }
        requires held { IsHeld self.old }
        requires said { IsSaid (Record.Leg address course) }
        ensures { (earlier : List Record) → AreGoing earlier → Holds earlier self.old → Adds earlier (Record.Leg address course) self.new result }
    {
        let Some(craft) = self.index_of(address) else {
            return Err(self.refused(Code::Unknown));
        };
        let fault = self.legs.add_listed(leg_by(course, craft as u8))?;
        self.settle(fault)
    }

    #[inline(always)]
    fn add_miss(&mut self, pair: Addresses, from: u16, to: u16) -> Result<(), ReadError>
        requires room { self.old.count < 2 ^ 32 - 1 }
        requires held { IsHeld self.old }
        requires said { IsSaid (Record.Miss pair from to) }
        ensures { (earlier : List Record) → AreGoing earlier → Holds earlier self.old → Adds earlier (Record.Miss pair from to) self.new result }
    {
        let Some((own, target)) = self.pair_of(pair) else {
            return Err(self.refused(Code::Unknown));
        };
        let miss = miss_by(from, to, own as u8, target as u8);
        let fault = self.misses.add_listed(miss)?;
        self.settle(fault)
    }

    fn add_plan(&mut self, pair: Addresses, copies: Copies) -> Result<(), ReadError>
        requires room { self.old.count < 2 ^ 32 - 1 }
        requires held { IsHeld self.old }
        requires said { IsSaid (Record.Plan pair copies) }
        ensures { (earlier : List Record) → AreGoing earlier → IsOfFormat (version_of earlier) (Record.Plan pair copies) → Holds earlier self.old → Adds earlier (Record.Plan pair copies) self.new result }
    {
        let Some((sender, receiver)) = self.pair_of(pair) else {
            return Err(self.refused(Code::Unknown));
        };
        let plan = plan_by(copies, sender as u8, receiver as u8);
        let fault = self.plans.add_listed(plan)?;
        self.settle(fault)
    }

    #[inline(always)]
    fn add_fate(&mut self, pair: Addresses, number: u16, copies: Copies) -> Result<(), ReadError>
        requires room { self.old.count < 2 ^ 32 - 1 }
        requires held { IsHeld self.old }
        requires said { IsSaid (Record.Fate pair number copies) }
        ensures { (earlier : List Record) → AreGoing earlier → Holds earlier self.old → Adds earlier (Record.Fate pair number copies) self.new result }
    {
        let Some((sender, receiver)) = self.pair_of(pair) else {
            return Err(self.refused(Code::Unknown));
        };
        let fate = fate_by(number, copies, sender as u8, receiver as u8);
        let fault = self.fates.add_listed(fate)?;
        self.settle(fault)
    }

    // The encounter that the records so far say, with their run.
    fn encounter_in(&self, alloc: Global, run: Run) -> Result<Encounter, AllocError>
        requires run { self.now.run ≡ Some run }
        requires active { list_any is_active self.now.crafts.items ≡ true }
        requires held { IsHeld self.now }
        ensures { (earlier : List Record) → Holds earlier self.now → IfOk result (λ e. e ≡ encounter_by earlier) }
    {
        let gains = self.gains.unwrap_or(USUAL_GAINS);
        let made = Encounter::make(
            setting_by(self.version, self.heading, run, gains),
            calls_by_craft(alloc, &self.calls)?,
            Vec::from_slice(alloc, &self.crafts)?,
            self.legs.joined(alloc)?,
            self.misses.joined(alloc)?,
            self.plans.joined(alloc)?,
            self.fates.joined(alloc)?,
        );
        match made {
            Some(encounter) => Ok(encounter),
            None => unreachable!(),
        }
    }

    // Format 3 needs a profile.
    fn lacks_profile(&self) -> bool
        ensures { (earlier : List Record) → Holds earlier self.now → result ≡ lacks_profile earlier }
    {
        3 <= self.version && self.heading.profile.is_none()
    }

    /// The encounter that the records so far say. None comes exactly where they give no run, no profile in format 3, or
    /// no aircraft of kind RA or TA. The error says that memory was wanting.
    ///
    /// Whether its aircraft stay in the box isn't asked.
    pub fn encounter(&self, alloc: Global) -> Result<Option<Encounter>, AllocError>
        requires { IsHeld self.now }
        ensures { (earlier : List Record) → Holds earlier self.now → IfOk result (IsSoFar earlier) }
    {
        let Some(run) = self.run else {
            return Ok(None);
        };
        if self.lacks_profile() {
            return Ok(None);
        }
        if !some_active(&self.crafts) {
            return Ok(None);
        }
        Ok(Some(self.encounter_in(alloc, run)?))
    }

    // The end: the encounter is made.
    fn add_end(&mut self, alloc: Global) -> Result<(), ReadError>
        requires room { self.old.count < 2 ^ 32 - 1 }
        requires held { IsHeld self.old }
        ensures { (earlier : List Record) → AreGoing earlier → Holds earlier self.old → Adds earlier Record.End self.new result }
    {
        let Some(encounter) = self.encounter(alloc)? else {
            return Err(self.refused(Code::Count));
        };
        if !inside(&encounter) {
            return Err(self.refused(Code::Box));
        }
        self.made = Some(encounter);
        self.count += 1;
        Ok(())
    }

    /// Adds a record after the header, before the end.
    ///
    /// - `Refused`: the record is wrong after those before it. It names the record's place among those that were added,
    ///   and the lowest code of its faults.
    /// - `OutOfMemory`: memory was wanting.
    #[inline(always)]
    pub fn add(&mut self, alloc: Global, now: Record) -> Result<(), ReadError>
        requires room { self.old.count < 2 ^ 32 - 1 }
        requires held { IsHeld self.old }
        requires said { IsSaid now }
        requires format { IsOfFormat self.old.version now }
        ensures { (earlier : List Record) → AreGoing earlier → Holds earlier self.old → Adds earlier now self.new result }
    {
        match now {
            Record::Header(_) => unreachable!(),
            Record::Run(run) => self.add_run(run),
            Record::Gains(gains) => self.add_gains(gains),
            Record::Craft(craft) => self.add_craft(craft),
            Record::Climb { address, limit } => self.add_climb(address, limit),
            Record::Leg { address, course } => self.add_leg(address, course),
            Record::Miss { pair, from, to } => self.add_miss(pair, from, to),
            Record::Plan { pair, copies } => self.add_plan(pair, copies),
            Record::Fate {
                pair,
                number,
                copies,
            } => self.add_fate(pair, number, copies),
            Record::End => self.add_end(alloc),
            Record::Profile(profile) => self.add_profile(profile),
            Record::Name(name) => self.add_name(name),
            Record::Clock(second) => self.add_clock(second),
            Record::Call { address, sign } => self.add_call(address, sign),
        }
    }

    /// Takes the next record, as its fields stand in the text. The errors are those of [`crate::read`], in which it is
    /// inlined.
    #[inline(always)]
    pub fn take(&mut self, alloc: Global, row: &ByteRecord) -> Result<(), ReadError>
        requires room { self.old.count < 2 ^ 32 - 1 }
        requires held { IsHeld self.old }
        ensures { (earlier : List Record) → Holds earlier self.old → Takes earlier (fields_of row.now) self.new result }
    {
        if self.count == 0 {
            return self.add_header(row);
        }
        if self.made.is_some() {
            return Err(self.refused(Code::After));
        }
        match record_of(self.version, row) {
            Ok(now) => self.add(alloc, now),
            Err(code) => Err(self.refused(code)),
        }
    }

    /// The encounter, where no record follows.
    pub(crate) fn finish(self) -> Result<Encounter, ReadError>
        requires room { self.count < 2 ^ 32 - 1 }
        ensures { (earlier : List Record) → Holds earlier self → IsReading (read_from earlier []) result }
    {
        let missing = self.refused(missing_after(self.count));
        let Tables { made, .. } = self;
        match made {
            Some(encounter) => Ok(encounter),
            None => Err(missing),
        }
    }
}
