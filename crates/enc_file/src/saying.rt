// What a record says by itself.
ghost use Rattle.std.specs.Prelude.{◌≡◌, ◌≤◌, ℕ, IfOk, IfSome};
ghost use Rattle.acas_base.specs.Encounter.{IsVersion};
ghost use Rattle.csv.specs.Records.{fields_of};
ghost use Rattle.enc_file.specs.Saying.{call_of, climb_of, clock_of, craft_of, end_of, fate_of, gains_of, leg_of, miss_of, name_of, of_format_2, of_format_3, plan_of, profile_of, record_of, run_of, version_in};
ghost use Rattle.enc_file.specs.WellRead.{IsOfFormat, IsSaid};

use crate::clock::clock_in;
use crate::record::{Addresses, Course, Record, Run, TrackGains};
use crate::refusal::Code;
use crate::values::{
    address_in, copies_count, copies_from, count_in, field, kind_in, label_in, number_in,
    profile_in, sign_in,
};
use acas_base::{CraftSpec, Gains};
use csv::ByteRecord;

/// The version of the format that a header says.
#[tactic(auto, unfolding(crate::specs::Saying::version_in))]
pub fn version_in(row: &ByteRecord) -> Option<u8>
    ensures value { result ≡ version_in (fields_of row.now) }
    ensures range { IfSome result IsVersion }
{
    if row.len() != 2 {
        return None;
    }
    if field(row, 0) != b"encounter".as_slice() {
        return None;
    }
    let version = count_in(field(row, 1), 1, 3)?;
    Some(version as u8)
}

#[tactic(auto, unfolding(crate::specs::Saying::run_of))]
fn run_of(row: &ByteRecord) -> Result<Record, Code>
    ensures value { result ≡ run_of (fields_of row.now) }
    ensures ranges { IfOk result IsSaid }
    ensures format { (version : ℕ) → IfOk result (IsOfFormat version) }
{
    if row.len() != 3 {
        return Err(Code::Fields);
    }
    let Some(cycles) = count_in(field(row, 1), 1, 600) else {
        return Err(Code::Number);
    };
    let Some(elevation) = number_in(field(row, 2), -1_000, 15_000) else {
        return Err(Code::Number);
    };
    Ok(Record::Run(Run { cycles, elevation }))
}

#[tactic(auto, unfolding(crate::specs::Saying::gains_of))]
fn gains_of(row: &ByteRecord) -> Result<Record, Code>
    ensures value { result ≡ gains_of (fields_of row.now) }
    ensures ranges { IfOk result IsSaid }
    ensures format { (version : ℕ) → IfOk result (IsOfFormat version) }
{
    if row.len() != 5 {
        return Err(Code::Fields);
    }
    let Some(range_alpha) = count_in(field(row, 1), 0, 1024) else {
        return Err(Code::Number);
    };
    let Some(range_beta) = count_in(field(row, 2), 0, 1024) else {
        return Err(Code::Number);
    };
    let Some(altitude_alpha) = count_in(field(row, 3), 0, 1024) else {
        return Err(Code::Number);
    };
    let Some(altitude_beta) = count_in(field(row, 4), 0, 1024) else {
        return Err(Code::Number);
    };
    Ok(Record::Gains(TrackGains {
        range: Gains {
            alpha: range_alpha,
            beta: range_beta,
        },
        altitude: Gains {
            alpha: altitude_alpha,
            beta: altitude_beta,
        },
    }))
}

#[tactic(auto, unfolding(crate::specs::Saying::craft_of))]
fn craft_of(row: &ByteRecord) -> Result<Record, Code>
    ensures value { result ≡ craft_of (fields_of row.now) }
    ensures ranges { IfOk result IsSaid }
    ensures format { (version : ℕ) → IfOk result (IsOfFormat version) }
{
    if row.len() != 6 {
        return Err(Code::Fields);
    }
    let Some(kind) = kind_in(field(row, 2)) else {
        return Err(Code::Number);
    };
    let Some(x) = number_in(field(row, 3), -1_000_000, 1_000_000) else {
        return Err(Code::Number);
    };
    let Some(y) = number_in(field(row, 4), -1_000_000, 1_000_000) else {
        return Err(Code::Number);
    };
    let Some(alt) = number_in(field(row, 5), -1_000, 60_000) else {
        return Err(Code::Number);
    };
    let Some(address) = address_in(field(row, 1)) else {
        return Err(Code::Address);
    };
    Ok(Record::Craft(CraftSpec {
        address,
        kind,
        x,
        y,
        alt,
        ceiling: None,
    }))
}

#[tactic(auto, unfolding(crate::specs::Saying::climb_of))]
fn climb_of(row: &ByteRecord) -> Result<Record, Code>
    ensures value { result ≡ climb_of (fields_of row.now) }
    ensures ranges { IfOk result IsSaid }
    ensures format { (version : ℕ) → 2 ≤ version → IfOk result (IsOfFormat version) }
{
    if row.len() != 3 {
        return Err(Code::Fields);
    }
    let Some(limit) = number_in(field(row, 2), -1_000, 60_000) else {
        return Err(Code::Number);
    };
    let Some(address) = address_in(field(row, 1)) else {
        return Err(Code::Address);
    };
    Ok(Record::Climb { address, limit })
}

#[tactic(auto, unfolding(crate::specs::Saying::leg_of))]
fn leg_of(row: &ByteRecord) -> Result<Record, Code>
    ensures value { result ≡ leg_of (fields_of row.now) }
    ensures ranges { IfOk result IsSaid }
    ensures format { (version : ℕ) → IfOk result (IsOfFormat version) }
{
    if row.len() != 6 {
        return Err(Code::Fields);
    }
    let Some(from) = count_in(field(row, 2), 1, 600) else {
        return Err(Code::Number);
    };
    let Some(vx) = number_in(field(row, 3), -2_000, 2_000) else {
        return Err(Code::Number);
    };
    let Some(vy) = number_in(field(row, 4), -2_000, 2_000) else {
        return Err(Code::Number);
    };
    let Some(vz) = number_in(field(row, 5), -10_000, 10_000) else {
        return Err(Code::Number);
    };
    let Some(address) = address_in(field(row, 1)) else {
        return Err(Code::Address);
    };
    Ok(Record::Leg {
        address,
        course: Course { from, vx, vy, vz },
    })
}

#[inline(always)]
#[tactic(auto, unfolding(crate::specs::Saying::miss_of))]
fn miss_of(row: &ByteRecord) -> Result<Record, Code>
    ensures value { result ≡ miss_of (fields_of row.now) }
    ensures ranges { IfOk result IsSaid }
    ensures format { (version : ℕ) → IfOk result (IsOfFormat version) }
{
    if row.len() != 5 {
        return Err(Code::Fields);
    }
    let Some(from) = count_in(field(row, 3), 1, 600) else {
        return Err(Code::Number);
    };
    let Some(to) = count_in(field(row, 4), 1, 600) else {
        return Err(Code::Number);
    };
    if to < from {
        return Err(Code::Number);
    }
    let Some(first) = address_in(field(row, 1)) else {
        return Err(Code::Address);
    };
    let Some(second) = address_in(field(row, 2)) else {
        return Err(Code::Address);
    };
    Ok(Record::Miss {
        pair: Addresses { first, second },
        from,
        to,
    })
}

#[tactic(auto, unfolding(crate::specs::Saying::plan_of))]
fn plan_of(row: &ByteRecord) -> Result<Record, Code>
    ensures value { result ≡ plan_of (fields_of row.now) }
    ensures ranges { IfOk result IsSaid }
    ensures format { (version : ℕ) → 2 ≤ version → IfOk result (IsOfFormat version) }
{
    let Some(count) = copies_count(3, row.len()) else {
        return Err(Code::Fields);
    };
    let Some(copies) = copies_from(row, 3, count) else {
        return Err(Code::Number);
    };
    let Some(first) = address_in(field(row, 1)) else {
        return Err(Code::Address);
    };
    let Some(second) = address_in(field(row, 2)) else {
        return Err(Code::Address);
    };
    Ok(Record::Plan {
        pair: Addresses { first, second },
        copies,
    })
}

#[inline(always)]
#[tactic(auto, unfolding(crate::specs::Saying::fate_of))]
fn fate_of(row: &ByteRecord) -> Result<Record, Code>
    ensures value { result ≡ fate_of (fields_of row.now) }
    ensures ranges { IfOk result IsSaid }
    ensures format { (version : ℕ) → IfOk result (IsOfFormat version) }
{
    let Some(count) = copies_count(4, row.len()) else {
        return Err(Code::Fields);
    };
    let Some(number) = count_in(field(row, 3), 1, 600) else {
        return Err(Code::Number);
    };
    let Some(copies) = copies_from(row, 4, count) else {
        return Err(Code::Number);
    };
    let Some(first) = address_in(field(row, 1)) else {
        return Err(Code::Address);
    };
    let Some(second) = address_in(field(row, 2)) else {
        return Err(Code::Address);
    };
    Ok(Record::Fate {
        pair: Addresses { first, second },
        number,
        copies,
    })
}

#[tactic(auto, unfolding(crate::specs::Saying::end_of))]
fn end_of(row: &ByteRecord) -> Result<Record, Code>
    ensures value { result ≡ end_of (fields_of row.now) }
    ensures ranges { IfOk result IsSaid }
    ensures format { (version : ℕ) → IfOk result (IsOfFormat version) }
{
    if row.len() != 1 {
        return Err(Code::Fields);
    }
    Ok(Record::End)
}

#[tactic(auto, unfolding(crate::specs::Saying::profile_of))]
fn profile_of(row: &ByteRecord) -> Result<Record, Code>
    ensures value { result ≡ profile_of (fields_of row.now) }
    ensures ranges { IfOk result IsSaid }
    ensures format { (version : ℕ) → 3 ≤ version → IfOk result (IsOfFormat version) }
{
    if row.len() != 2 {
        return Err(Code::Fields);
    }
    let Some(profile) = profile_in(field(row, 1)) else {
        return Err(Code::Number);
    };
    Ok(Record::Profile(profile))
}

#[tactic(auto, unfolding(crate::specs::Saying::name_of))]
fn name_of(row: &ByteRecord) -> Result<Record, Code>
    ensures value { result ≡ name_of (fields_of row.now) }
    ensures ranges { IfOk result IsSaid }
    ensures format { (version : ℕ) → 3 ≤ version → IfOk result (IsOfFormat version) }
{
    if row.len() != 2 {
        return Err(Code::Fields);
    }
    let Some(name) = label_in(field(row, 1)) else {
        return Err(Code::Number);
    };
    Ok(Record::Name(name))
}

#[tactic(auto, unfolding(crate::specs::Saying::clock_of))]
fn clock_of(row: &ByteRecord) -> Result<Record, Code>
    ensures value { result ≡ clock_of (fields_of row.now) }
    ensures ranges { IfOk result IsSaid }
    ensures format { (version : ℕ) → 3 ≤ version → IfOk result (IsOfFormat version) }
{
    if row.len() != 2 {
        return Err(Code::Fields);
    }
    let Some(second) = clock_in(field(row, 1)) else {
        return Err(Code::Number);
    };
    Ok(Record::Clock(second))
}

#[tactic(auto, unfolding(crate::specs::Saying::call_of))]
fn call_of(row: &ByteRecord) -> Result<Record, Code>
    ensures value { result ≡ call_of (fields_of row.now) }
    ensures ranges { IfOk result IsSaid }
    ensures format { (version : ℕ) → 3 ≤ version → IfOk result (IsOfFormat version) }
{
    if row.len() != 3 {
        return Err(Code::Fields);
    }
    let Some(sign) = sign_in(field(row, 2)) else {
        return Err(Code::Number);
    };
    let Some(address) = address_in(field(row, 1)) else {
        return Err(Code::Address);
    };
    Ok(Record::Call { address, sign })
}

// A record of a kind that format 3 alone has.
fn of_format_3(version: u8, row: &ByteRecord) -> Result<Record, Code>
    ensures value { result ≡ of_format_3 version (fields_of row.now) }
    ensures ranges { IfOk result IsSaid }
    ensures format { IfOk result (IsOfFormat version) }
{
    let kind = field(row, 0);
    if 3 <= version && kind == b"profile".as_slice() {
        return profile_of(row);
    }
    if 3 <= version && kind == b"name".as_slice() {
        return name_of(row);
    }
    if 3 <= version && kind == b"clock".as_slice() {
        return clock_of(row);
    }
    if 3 <= version && kind == b"call".as_slice() {
        return call_of(row);
    }
    Err(Code::Kind)
}

// A record of a kind that format 1 hasn't.
fn of_format_2(version: u8, row: &ByteRecord) -> Result<Record, Code>
    ensures value { result ≡ of_format_2 version (fields_of row.now) }
    ensures ranges { IfOk result IsSaid }
    ensures format { IfOk result (IsOfFormat version) }
{
    let kind = field(row, 0);
    if 2 <= version && kind == b"climb".as_slice() {
        return climb_of(row);
    }
    if 2 <= version && kind == b"plan".as_slice() {
        return plan_of(row);
    }
    of_format_3(version, row)
}

/// A later record, by its kind. It is inlined in the readers of encounters and of tracks, as [`crate::Tables::add`] is,
/// and so are the kinds that most records have.
#[inline(always)]
#[tactic(auto, unfolding(crate::specs::Saying::record_of))]
pub fn record_of(version: u8, row: &ByteRecord) -> Result<Record, Code>
    ensures value { result ≡ record_of version (fields_of row.now) }
    ensures ranges { IfOk result IsSaid }
    ensures format { IfOk result (IsOfFormat version) }
{
    let kind = field(row, 0);
    if kind == b"fate".as_slice() {
        return fate_of(row);
    }
    if kind == b"miss".as_slice() {
        return miss_of(row);
    }
    if kind == b"leg".as_slice() {
        return leg_of(row);
    }
    if kind == b"craft".as_slice() {
        return craft_of(row);
    }
    if kind == b"run".as_slice() {
        return run_of(row);
    }
    if kind == b"gains".as_slice() {
        return gains_of(row);
    }
    if kind == b"end".as_slice() {
        return end_of(row);
    }
    of_format_2(version, row)
}
