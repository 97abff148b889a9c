// What a record of tracks says by itself.
ghost use Rattle.std.specs.Prelude.{◌≡◌, ℕ, IfOk, IfSome};
ghost use Rattle.acas_base.specs.Encounter.{IsVersion};
ghost use Rattle.csv.specs.Records.{fields_of};
ghost use Rattle.track_text.specs.Saying.{craft_of, point_of, read_shared, record_of, version_in};
ghost use Rattle.track_text.specs.Tables.{IsTrackSaid};

use crate::record::TrackRecord;
use acas_base::CraftSpec;
use csv::ByteRecord;
use enc_file::{Code, Record, address_in, field, kind_in, number_in};
use track_file::Point;

/// The version of the encounter that a header stands for.
#[tactic(auto, unfolding(crate::specs::Saying::version_in))]
pub(crate) fn version_in(row: &ByteRecord) -> Option<u8>
    ensures value { result ≡ version_in (fields_of row.now) }
    ensures range { IfSome result IsVersion }
{
    if row.len() != 2 {
        return None;
    }
    if field(row, 0) != b"tracks".as_slice() {
        return None;
    }
    let format = field(row, 1);
    if format == b"1".as_slice() {
        return Some(2);
    }
    if format == b"2".as_slice() {
        return Some(3);
    }
    None
}

#[tactic(auto, unfolding(crate::specs::Saying::point_of))]
fn point_of(row: &ByteRecord) -> Result<TrackRecord, Code>
    ensures value { result ≡ point_of (fields_of row.now) }
    ensures ranges { (version : ℕ) → IfOk result (IsTrackSaid version) }
{
    if row.len() != 6 {
        return Err(Code::Fields);
    }
    let Some(ms) = number_in(field(row, 2), -1_000_000, 1_000_000) else {
        return Err(Code::Number);
    };
    let Some(x) = number_in(field(row, 3), -1_000_000, 1_000_000) else {
        return Err(Code::Number);
    };
    let Some(y) = number_in(field(row, 4), -1_000_000, 1_000_000) else {
        return Err(Code::Number);
    };
    let Some(z) = number_in(field(row, 5), -60_000, 3_600_000) else {
        return Err(Code::Number);
    };
    let Some(address) = address_in(field(row, 1)) else {
        return Err(Code::Address);
    };
    Ok(TrackRecord::At {
        address,
        point: Point { ms, x, y, z },
    })
}

#[tactic(auto, unfolding(crate::specs::Saying::craft_of))]
fn craft_of(row: &ByteRecord) -> Result<TrackRecord, Code>
    ensures value { result ≡ craft_of (fields_of row.now) }
    ensures ranges { (version : ℕ) → IfOk result (IsTrackSaid version) }
{
    if row.len() != 3 {
        return Err(Code::Fields);
    }
    let Some(kind) = kind_in(field(row, 2)) else {
        return Err(Code::Number);
    };
    let Some(address) = address_in(field(row, 1)) else {
        return Err(Code::Address);
    };
    Ok(TrackRecord::Shared(Record::Craft(CraftSpec {
        address,
        kind,
        x: 0,
        y: 0,
        alt: 0,
        ceiling: None,
    })))
}

// A record that is read as in an encounter of this format.
fn shared_of(version: u8, row: &ByteRecord) -> Result<TrackRecord, Code>
    ensures value { result ≡ read_shared version (fields_of row.now) }
    ensures ranges { IfOk result (IsTrackSaid version) }
{
    match enc_file::record_of(version, row) {
        Ok(record) => Ok(TrackRecord::Shared(record)),
        Err(code) => Err(code),
    }
}

/// A record after the header, by its kind. The header stands for this version of the encounter.
pub(crate) fn record_of(version: u8, row: &ByteRecord) -> Result<TrackRecord, Code>
    ensures value { result ≡ record_of version (fields_of row.now) }
    ensures ranges { IfOk result (IsTrackSaid version) }
{
    let kind = field(row, 0);
    if kind == b"at".as_slice() {
        return point_of(row);
    }
    if kind == b"craft".as_slice() {
        return craft_of(row);
    }
    if kind == b"leg".as_slice() {
        return Err(Code::Kind);
    }
    shared_of(version, row)
}
