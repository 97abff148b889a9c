// Why a text is refused, as a value.
ghost use Rattle.std.specs.Prelude.{◌≡◌, ◌≢◌, ◌≤◌, ◌-◌, ◌<◌, ◌^◌, Err, IfOk, false, length, true};
ghost use Rattle.enc_file.specs.Conditions.{is_address_wrong, is_count_wrong, is_masked, is_number_wrong, is_turned};
ghost use Rattle.enc_file.specs.Reading.{reading_of};
ghost use Rattle.enc_file.specs.declared.refusal.Code.TheVariants as code;
ghost use Rattle.fault_text.specs.Lines.{fields_in, file_lines};
ghost use Rattle.fault_text.specs.Names.{names_of, stated_kind};
ghost use Rattle.fault_text.specs.Told.{Explains, IsAtFault, IsExplained, IsFormat, IsHeaded, IsLeftmost, IsNamedAgainst, IsRecord, IsWrong, Tells, TellsAddress, TellsAfterEarlier, TellsHeader, TellsKind, TellsMask, TellsNumber, TellsRecord, TellsTurned};

use crate::against::against_why;
use crate::fields::{count, field, kind_of, version_of};
use crate::leaving::Axis;
use crate::lines::place_of;
use crate::names::{FieldName, RecordKind};
use crate::outside::outside_why;
use crate::search::leftmost;
use acas_text::Line;
use enc_file::{Code, Refusal, count_in, mask_in};
use std::alloc::{AllocError, Global};

/// What is wrong with a refused text, and where.
#[derive(Clone, Copy)]
pub struct Fault<'a> {
    /// The line of the file in which the refused record stands, from 1, blank lines counted. Where a record is missing,
    /// it is the line behind the last one.
    pub line: u32,
    /// What is wrong.
    pub why: Why<'a>,
}

/// What is wrong with a record. `found` is what stands there.
#[derive(Clone, Copy)]
pub enum Why<'a> {
    /// There is no record at all.
    NoRecord,
    /// The first record is no header.
    NoHeader {
        found: &'a [u8],
    },
    /// The first field names no kind of record of the text's format: 1, 2 or 3.
    NoKind {
        version: u8,
        found: &'a [u8],
    },
    /// A record of this kind hasn't so many fields.
    FieldCount {
        kind: RecordKind,
        count: u32,
    },
    /// What stands in the field is no number of its range, no kind of an aircraft, or no mask.
    NoValue {
        name: FieldName,
        found: &'a [u8],
    },
    /// The last cycle of a miss is before its first.
    Turned {
        from: u16,
        to: u16,
    },
    /// What stands in the field is no address.
    NoAddress {
        name: FieldName,
        found: &'a [u8],
    },
    /// More than three bits of the mask are 1.
    ManyBits {
        name: FieldName,
        found: &'a [u8],
        bits: u32,
    },
    /// There may be one such record alone, or one about each aircraft or pair. `refused` is the line of this record. An
    /// earlier one about the same aircraft or pair stands in `line`, the last such before this one.
    Again {
        kind: RecordKind,
        refused: &'a [u8],
        line: u32,
    },
    /// The number isn't above the one that the last earlier record of this kind about the same aircraft or pair has.
    /// That record stands in this line.
    NotAbove {
        kind: RecordKind,
        found: u16,
        reached: u16,
        line: u32,
    },
    /// The call sign is that of another aircraft. The record that says so stands in this line.
    Called {
        found: &'a [u8],
        line: u32,
    },
    /// No earlier aircraft has the address that stands in the field.
    Unknown {
        name: FieldName,
        found: &'a [u8],
    },
    /// The two addresses are equal.
    Equal {
        found: &'a [u8],
    },
    /// One aircraft too many for the text's format: 1, 2 or 3.
    ManyCrafts {
        version: u8,
    },
    /// At the end: there is no run.
    NoRun,
    /// At the end: format 3 needs a profile, and there is none.
    NoProfile,
    /// At the end: no aircraft is of kind RA or TA.
    NoneActive,
    /// At the end: an aircraft isn't in the box in some cycle of the run. Of several it is the first one of the text,
    /// and of its cycles the first one. `craft` is the field with its address.
    Outside {
        craft: &'a [u8],
        cycle: u16,
        axis: Axis,
        /// Where it is on that axis: in ft, or in 1/60 ft where it is the altitude.
        value: i32,
    },
    /// The text has no `end`.
    NoEnd,
    /// The record stands after `end`, which is in this line.
    After {
        end: u32,
    },
}

// What is wrong with the first record.
fn header_why(line: &[u8]) -> Why<'_>
    ensures { TellsHeader line.now result }
{
    if line.is_empty() {
        return Why::NoRecord;
    }
    Why::NoHeader { found: line }
}

// The cycles of a miss that ends before it begins.
fn turned_why(line: &[u8]) -> Why<'_>
    requires { is_turned (fields_in line.now) 3 4 ≡ true }
    ensures { TellsTurned line.now result }
{
    let Some(from) = count_in(field(line, 3), 1, 600) else {
        unreachable!();
    };
    let Some(to) = count_in(field(line, 4), 1, 600) else {
        unreachable!();
    };
    Why::Turned { from, to }
}

// The leftmost field of a record of this kind that fails its part of a code's condition.
fn leftmost_of(code: Code, kind: RecordKind, line: &[u8]) -> Option<(FieldName, &[u8])>
    ensures { IsLeftmost code (names_of kind) line.now result }
{
    leftmost(code, kind.names(), line)
}

// Which value of a record is wrong.
fn number_why(kind: RecordKind, line: &[u8]) -> Why<'_>
    requires counted { is_count_wrong (stated_kind kind) (fields_in line.now) ≡ false }
    requires wrong { is_number_wrong (stated_kind kind) (fields_in line.now) ≡ true }
    ensures { TellsNumber kind line.now result }
{
    match leftmost_of(Code::Number, kind, line) {
        Some((name, found)) => Why::NoValue { name, found },
        None => turned_why(line),
    }
}

// Which address of a record is wrong.
fn address_why(kind: RecordKind, line: &[u8]) -> Why<'_>
    requires counted { is_count_wrong (stated_kind kind) (fields_in line.now) ≡ false }
    requires wrong { is_address_wrong (stated_kind kind) (fields_in line.now) ≡ true }
    ensures { TellsAddress kind line.now result }
{
    match leftmost_of(Code::Address, kind, line) {
        Some((name, found)) => Why::NoAddress { name, found },
        None => unreachable!(),
    }
}

// Which mask of a record is wrong.
fn mask_why(kind: RecordKind, line: &[u8]) -> Why<'_>
    requires counted { is_count_wrong (stated_kind kind) (fields_in line.now) ≡ false }
    requires wrong { is_masked (stated_kind kind) (fields_in line.now) ≡ true }
    ensures { TellsMask kind line.now result }
{
    let Some((name, found)) = leftmost_of(Code::Mask, kind, line) else {
        unreachable!();
    };
    match mask_in(found) {
        Some(mask) => Why::ManyBits {
            name,
            found,
            bits: mask.count_ones(),
        },
        None => unreachable!(),
    }
}

/// Which field of a record of this kind is wrong, or that it hasn't so many. The code is Fields, Number, Address or
/// Mask.
pub fn field_why(code: Code, kind: RecordKind, line: &[u8]) -> Why<'_>
    requires few { length line.now < 2 ^ 32 - 1 }
    requires wrong { IsWrong code kind (fields_in line.now) }
    ensures { TellsKind code kind line.now result }
{
    match code {
        Code::Number => number_why(kind, line),
        Code::Address => address_why(kind, line),
        Code::Mask => mask_why(kind, line),
        _ => Why::FieldCount {
            kind,
            count: count(line),
        },
    }
}

// What is wrong with a record of a known kind.
fn record_why(code: Code, version: u8, line: &[u8]) -> Why<'_>
    requires few { length line.now < 2 ^ 32 - 1 }
    requires fault { IsAtFault version code (fields_in line.now) }
    ensures { TellsRecord code line.now result }
{
    let Some(kind) = kind_of(version, field(line, 0)) else {
        unreachable!();
    };
    field_why(code, kind, line)
}

// What is wrong with a record of a known kind after those before it.
fn earlier_why<'a>(text: &[u8], refusal: Refusal, version: u8, line: &'a [u8]) -> Why<'a>
    requires few { length text.now < 2 ^ 32 - 1 }
    requires version { IsFormat text.now version }
    requires against { IsNamedAgainst text.now refusal version line.now }
    ensures { TellsAfterEarlier text.now refusal line.now result }
{
    let Some(kind) = kind_of(version, field(line, 0)) else {
        unreachable!();
    };
    against_why(text, refusal, version, kind, line)
}

// The format that the first record says.
fn format_of(text: &[u8]) -> u8
    requires few { length text.now < 2 ^ 32 - 1 }
    requires headed { IsHeaded text.now }
    ensures { IsFormat text.now result }
{
    version_of(place_of(text, 1).line)
}

// What is wrong with the refused record, where it isn't that an aircraft leaves the box.
fn why_of<'a>(text: &'a [u8], refusal: Refusal, line: &'a [u8]) -> Why<'a>
    requires few { length text.now < 2 ^ 32 - 1 }
    requires part { length line.now ≤ length text.now }
    requires boxed { refusal.code ≢ code.Box }
    requires refused { reading_of text.now ≡ Err refusal }
    requires place { IsRecord (file_lines text.now) refusal.at line.now }
    ensures { Tells refusal.code text.now refusal.at line.now result }
{
    match refusal.code {
        Code::Header => header_why(line),
        Code::Kind => Why::NoKind {
            version: format_of(text),
            found: field(line, 0),
        },
        Code::Fields | Code::Number | Code::Address | Code::Mask => {
            record_why(refusal.code, format_of(text), line)
        }
        Code::Repeat | Code::Unknown | Code::Count => {
            earlier_why(text, refusal, format_of(text), line)
        }
        Code::Box => unreachable!(),
        Code::NoEnd => Why::NoEnd,
        Code::After => Why::After {
            end: place_of(text, refusal.at - 1).number,
        },
    }
}

/// What is wrong with a refused text.
///
/// It looks at one record again, and at most three times at those before it. The error says that memory was wanting:
/// where an aircraft leaves the box, the encounter is made again.
pub fn explain(alloc: Global, text: &[u8], refusal: Refusal) -> Result<Fault<'_>, AllocError>
    requires few { length text.now < 2 ^ 32 - 1 }
    requires refused { reading_of text.now ≡ Err refusal }
    ensures { IfOk result (Explains text.now refusal) }
{
    let place = place_of(text, refusal.at);
    let why = match refusal.code {
        Code::Box => outside_why(alloc, text, refusal)?,
        _ => why_of(text, refusal, place.line),
    };
    Ok(Fault {
        line: place.number,
        why,
    })
}

/// The sentence that says what is wrong with a refused text, as a line: that of the fault that [`explain`] gives.
///
/// The error says that memory was wanting.
pub fn explained(alloc: Global, text: &[u8], refusal: Refusal) -> Result<Line, AllocError>
    requires few { length text.now < 2 ^ 32 - 1 }
    requires refused { reading_of text.now ≡ Err refusal }
    ensures { IfOk result (IsExplained text.now refusal) }
{
    let fault = explain(alloc, text, refusal)?;
    Ok(fault.sentence())
}
