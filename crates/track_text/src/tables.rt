// What the records of tracks so far give, and what is wrong with the next one.
ghost use Rattle.std.specs.Prelude.{◌≡◌, ◌-◌, ◌<◌, ◌^◌, [], List, IfOk, MatchResult, None, Some, false, length};
ghost use Rattle.std.specs.List.{list_any};
ghost use Rattle.csv.specs.Records.{fields_of};
ghost use Rattle.track_file.specs.Along.{craft_at};
ghost use Rattle.track_file.specs.Track.{IsPoint, IsTrack, is_from};
ghost use Rattle.track_text.specs.Conditions.{IsLowestFault, address_at};
ghost use Rattle.track_text.specs.Earlier.{is_end};
ghost use Rattle.track_text.specs.Reading.{IsMade, Refuses, refusal_after};
ghost use Rattle.track_text.specs.Tables.{Adds, AreBare, AreBegun, HoldsTracks, IsHeld, IsKept, IsTrackSaid, KeepsTracks, Takes};
ghost use Rattle.enc_file.specs.declared.record.Record.{Record};
ghost use Rattle.track_text.specs.declared.record.TrackRecord.{TrackRecord};

use crate::record::TrackRecord;
use crate::refusal::{Fault, ReadError, Refusal};
use crate::saying::{record_of, version_in};
use acas_base::{Address, CRAFTS, CraftSpec, Encounter};
use csv::ByteRecord;
use enc_file::{Code, ReadError as SharedError, Record, Tables, index_of, missing_after};
use std::alloc::{AllocError, Global};
use track_file::{Point, TrackFault, fly_along};

// Whether some point of a track is at a time or after it.
fn is_since(points: &[Point], time: i32) -> bool
    requires { IsTrack points.now }
    ensures { result ≡ list_any (is_from time) points.now }
{
    match points.last() {
        Some(point) => time <= point.ms,
        None => false,
    }
}

/// What the records of tracks so far give. Records that an encounter has, too, stand in the tables of `enc_file`, and
/// the points stand beside them, aircraft by aircraft.
#[derive(Drop)]
pub(crate) struct TrackTables {
    count: u32,
    // The version of the encounter; 0 before the header.
    version: u8,
    tables: Tables,
    tracks: Vec<Vec<Point>>,
    made: Option<Encounter>,
}

// A track without points for each aircraft that there may be.
fn no_tracks(alloc: Global) -> Result<Vec<Vec<Point>>, AllocError>
    ensures { IfOk result (λ tracks. AreBare tracks.items) }
{
    let mut tracks = Vec::new(alloc);
    for _ in 0..CRAFTS {
        tracks.push(Vec::new(alloc))?;
    }
    Ok(tracks)
}

// The number of the address of the aircraft at fault.
fn address_of(crafts: &[CraftSpec], fault: TrackFault) -> u32
    requires { craft_at fault < length crafts.now }
    ensures { address_at crafts.now (craft_at fault) ≡ Some result }
{
    crafts[usize::from(fault.craft())].address.value()
}

impl TrackTables {
    /// The tables before the first record. The error says that memory was wanting.
    pub(crate) fn new(alloc: Global) -> Result<TrackTables, AllocError>
        ensures { IfOk result (HoldsTracks []) }
    {
        Ok(TrackTables {
            count: 0,
            version: 0,
            tables: Tables::new(alloc)?,
            tracks: no_tracks(alloc)?,
            made: None,
        })
    }

    // The refusal of the next record.
    fn refused(&self, fault: Fault) -> ReadError
        requires { self.now.count < 2 ^ 32 - 1 }
        ensures { result ≡ ReadError.Refused (refusal_after self.now.count fault) }
    {
        ReadError::Refused(Refusal {
            at: self.count + 1,
            fault,
        })
    }

    // The first record.
    fn add_header(&mut self, alloc: Global, row: &ByteRecord) -> Result<(), ReadError>
        requires { self.old.count ≡ 0 }
        ensures { HoldsTracks [] self.old → Takes [] (fields_of row.now) self.new result }
    {
        let Some(version) = version_in(row) else {
            return Err(self.refused(Fault::Text(Code::Header)));
        };
        self.tables = Tables::begun(alloc, version)?;
        self.version = version;
        self.count = 1;
        Ok(())
    }

    fn add_point(&mut self, address: Address, point: Point) -> Result<(), ReadError>
        requires room { self.old.count < 2 ^ 32 - 1 }
        requires kept { IsKept self.old }
        requires point { IsPoint point }
        ensures { (earlier : List TrackRecord) → AreBegun earlier → KeepsTracks earlier self.old → Adds earlier (TrackRecord.At address point) self.new result }
    {
        let Some(craft) = index_of(self.tables.crafts(), address) else {
            return Err(self.refused(Fault::Text(Code::Unknown)));
        };
        if is_since(self.tracks[craft].as_slice(), point.ms) {
            return Err(self.refused(Fault::Text(Code::Repeat)));
        }
        self.tracks[craft].push(point)?;
        self.count += 1;
        Ok(())
    }

    // A record that an encounter has, too, but the end.
    fn add_shared(&mut self, alloc: Global, now: Record) -> Result<(), ReadError>
        requires room { self.old.count < 2 ^ 32 - 1 }
        requires kept { IsKept self.old }
        requires said { IsTrackSaid self.old.version (TrackRecord.Shared now) }
        requires more { is_end now ≡ false }
        ensures { (earlier : List TrackRecord) → AreBegun earlier → KeepsTracks earlier self.old → Adds earlier (TrackRecord.Shared now) self.new result }
    {
        match self.tables.add(alloc, now) {
            Ok(()) => {
                self.count += 1;
                Ok(())
            }
            Err(SharedError::Refused(refusal)) => Err(self.refused(Fault::Text(refusal.code))),
            Err(SharedError::OutOfMemory) => Err(ReadError::OutOfMemory),
        }
    }

    // The end: the encounter is made.
    fn add_end(&mut self, alloc: Global) -> Result<(), ReadError>
        requires room { self.old.count < 2 ^ 32 - 1 }
        requires kept { IsKept self.old }
        ensures { (earlier : List TrackRecord) → AreBegun earlier → KeepsTracks earlier self.old → Adds earlier (TrackRecord.Shared Record.End) self.new result }
    {
        let Some(encounter) = self.tables.encounter(alloc)? else {
            return Err(self.refused(Fault::Text(Code::Count)));
        };
        let count = encounter.crafts().len();
        match fly_along(alloc, &encounter, &self.tracks[..count])? {
            Ok(made) => {
                self.made = Some(made);
                self.count += 1;
                Ok(())
            }
            Err(fault) => {
                let address = address_of(encounter.crafts(), fault);
                Err(self.refused(Fault::Track(fault, address)))
            }
        }
    }

    // A record that an encounter has, too.
    fn add_record(&mut self, alloc: Global, now: Record) -> Result<(), ReadError>
        requires room { self.old.count < 2 ^ 32 - 1 }
        requires kept { IsKept self.old }
        requires said { IsTrackSaid self.old.version (TrackRecord.Shared now) }
        ensures { (earlier : List TrackRecord) → AreBegun earlier → KeepsTracks earlier self.old → Adds earlier (TrackRecord.Shared now) self.new result }
    {
        match now {
            Record::End => self.add_end(alloc),
            _ => self.add_shared(alloc, now),
        }
    }

    // A record after the header, before the end.
    fn add(&mut self, alloc: Global, now: TrackRecord) -> Result<(), ReadError>
        requires room { self.old.count < 2 ^ 32 - 1 }
        requires kept { IsKept self.old }
        requires said { IsTrackSaid self.old.version now }
        ensures { (earlier : List TrackRecord) → AreBegun earlier → KeepsTracks earlier self.old → Adds earlier now self.new result }
    {
        match now {
            TrackRecord::At { address, point } => self.add_point(address, point),
            TrackRecord::Shared(shared) => self.add_record(alloc, shared),
        }
    }

    /// Takes the next record.
    pub(crate) fn take(&mut self, alloc: Global, row: &ByteRecord) -> Result<(), ReadError>
        requires room { self.old.count < 2 ^ 32 - 1 }
        requires held { IsHeld self.old }
        ensures { (earlier : List TrackRecord) → HoldsTracks earlier self.old → Takes earlier (fields_of row.now) self.new result }
    {
        if self.count == 0 {
            return self.add_header(alloc, row);
        }
        if self.made.is_some() {
            return Err(self.refused(Fault::Text(Code::After)));
        }
        match record_of(self.version, row) {
            Ok(now) => self.add(alloc, now),
            Err(code) => Err(self.refused(Fault::Text(code))),
        }
    }

    /// The encounter, where no record follows.
    pub(crate) fn finish(self) -> Result<Encounter, ReadError>
        requires room { self.count < 2 ^ 32 - 1 }
        ensures { (earlier : List TrackRecord) → HoldsTracks earlier self → MatchResult result (IsMade earlier) (Refuses (length earlier) (IsLowestFault earlier None)) }
    {
        let missing = self.refused(Fault::Text(missing_after(self.count)));
        let TrackTables { made, .. } = self;
        match made {
            Some(encounter) => Ok(encounter),
            None => Err(missing),
        }
    }
}
