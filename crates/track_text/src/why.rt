// What is wrong with a record of tracks, as a value.
ghost use Rattle.std.specs.Prelude.{◌≡◌, ◌-◌, ◌<◌, ◌^◌, false, length, true};
ghost use Rattle.enc_file.specs.declared.refusal.Code.TheVariants as code;
ghost use Rattle.fault_text.specs.Lines.{fields_in};
ghost use Rattle.track_text.specs.Conditions.{is_address_wrong, is_count_wrong, is_number_wrong};
ghost use Rattle.track_text.specs.Kinds.{IsLineKind, own_names, stated_line, stated_own};
ghost use Rattle.track_text.specs.Told.{IsWrong, TellsField, TellsFields, TellsHeader};
ghost use Rattle.track_text.specs.declared.kinds.LineKind.TheVariants as of;

use crate::kinds::{LineKind, OwnKind};
use enc_file::Code;
use fault_text::{Why, count, field_why, leftmost};
use track_file::TrackFault;

/// What is wrong with a record of tracks. `found` is what stands there.
#[derive(Clone, Copy)]
pub enum TrackWhy<'a> {
    /// There is no record at all.
    NoRecord,
    /// The first record is no header.
    NoHeader { found: &'a [u8] },
    /// The first field names no kind of record of tracks. The header stands for this version of the encounter: 2 or 3.
    NoKind { version: u8, found: &'a [u8] },
    /// A record of this kind hasn't so many fields.
    FieldCount { kind: OwnKind, count: u32 },
    /// The time of a point, in ms, isn't above that of the last earlier point of its aircraft, which stands in this line.
    NotAbove { found: i32, reached: i32, line: u32 },
    /// One aircraft too many.
    ManyCrafts,
    /// What can be wrong in the text of an encounter, too.
    Shared(Why<'a>),
    /// At the end: an aircraft can't fly along its track. Beside the fault stands the number of its address.
    Track(TrackFault, u32),
}

/// What is wrong with the first record.
pub(crate) fn header_why(line: &[u8]) -> TrackWhy<'_>
    ensures { TellsHeader line.now result }
{
    if line.is_empty() {
        return TrackWhy::NoRecord;
    }
    TrackWhy::NoHeader { found: line }
}

// Which number of a record, or which kind of an aircraft, is wrong.
fn number_why(own: OwnKind, line: &[u8]) -> Why<'_>
    requires counted { is_count_wrong (stated_own own) (fields_in line.now) ≡ false }
    requires wrong { is_number_wrong (stated_own own) (fields_in line.now) ≡ true }
    ensures { TellsField code.Number (own_names own) line.now result }
{
    match leftmost(Code::Number, own.names(), line) {
        Some((name, found)) => Why::NoValue { name, found },
        None => unreachable!(),
    }
}

// Which address of a record is wrong.
fn address_why(own: OwnKind, line: &[u8]) -> Why<'_>
    requires counted { is_count_wrong (stated_own own) (fields_in line.now) ≡ false }
    requires wrong { is_address_wrong (stated_own own) (fields_in line.now) ≡ true }
    ensures { TellsField code.Address (own_names own) line.now result }
{
    match leftmost(Code::Address, own.names(), line) {
        Some((name, found)) => Why::NoAddress { name, found },
        None => unreachable!(),
    }
}

// The same of a record of tracks alone.
fn own_why(code: Code, own: OwnKind, line: &[u8]) -> TrackWhy<'_>
    requires few { length line.now < 2 ^ 32 - 1 }
    requires wrong { IsWrong code (stated_own own) (fields_in line.now) }
    ensures { TellsFields code (of.Own own) line.now result }
{
    match code {
        Code::Fields => TrackWhy::FieldCount {
            kind: own,
            count: count(line),
        },
        Code::Number => TrackWhy::Shared(number_why(own, line)),
        Code::Address => TrackWhy::Shared(address_why(own, line)),
        _ => unreachable!(),
    }
}

/// Which field of a record of this kind is wrong, or that it hasn't so many. The code is Fields, Number, Address or Mask.
pub(crate) fn fields_why(code: Code, kind: LineKind, line: &[u8]) -> TrackWhy<'_>
    requires few { length line.now < 2 ^ 32 - 1 }
    requires named { IsLineKind line.now kind }
    requires wrong { IsWrong code (stated_line kind) (fields_in line.now) }
    ensures { TellsFields code kind line.now result }
{
    match kind {
        LineKind::Own(own) => own_why(code, own, line),
        LineKind::Shared(kind) => TrackWhy::Shared(field_why(code, kind, line)),
    }
}
