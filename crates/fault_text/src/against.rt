// What is wrong with a record after those before it.
ghost use Rattle.std.specs.Prelude.{◌≡◌, ◌+◌, ◌-◌, ◌≤◌, ◌<◌, ◌^◌, ℕ, IsSome, List, MatchOption, None, Option, Some, false, length, slice_get, true};
ghost use Rattle.std.specs.List.{list_any};
ghost use Rattle.enc_file.specs.Conditions.{is_stranger};
ghost use Rattle.enc_file.specs.Earlier.{version_of};
ghost use Rattle.enc_file.specs.Values.{address_in, count_in};
ghost use Rattle.enc_file.specs.Values.{field as stated_field};
ghost use Rattle.enc_file.specs.declared.record.Record.{Record};
ghost use Rattle.enc_file.specs.declared.refusal.Code.TheVariants as code;
ghost use Rattle.fault_text.specs.Before.{IsLastBefore, IsStrange, TellsCounted, TellsRepeat, TellsUnknown, alike, has_first, has_second, holds_sought, is_about, reached_place, rising_place};
ghost use Rattle.fault_text.specs.Lines.{fields_in, file_lines, written};
ghost use Rattle.fault_text.specs.Names.{names_of};
ghost use Rattle.fault_text.specs.Rows.{AreBefore, SaysRow, records_in, rises};
ghost use Rattle.fault_text.specs.Told.{IsAgainst, IsFormat, IsRefusedAgainst, TellsEarlier};
ghost use Rattle.fault_text.specs.declared.names.RecordKind.TheVariants as kind;

use crate::earlier::{Signed, Sought, has_second, last_before};
use crate::fault::Why;
use crate::fields::field;
use crate::names::{FieldName, RecordKind};
use enc_file::{Code, Refusal, address_in, count_in};

fn rises(kind: RecordKind) -> bool
    ensures { result ≡ rises kind }
{
    matches!(kind, RecordKind::Leg | RecordKind::Miss | RecordKind::Fate)
}

// The place of the number that has to exceed the earlier one, and of the one that it has to exceed.
fn rising_place(kind: RecordKind) -> usize
    ensures { result ≡ rising_place kind }
{
    match kind {
        RecordKind::Leg => 2,
        _ => 3,
    }
}

fn reached_place(kind: RecordKind) -> usize
    ensures { result ≡ reached_place kind }
{
    match kind {
        RecordKind::Leg => 2,
        RecordKind::Miss => 4,
        _ => 3,
    }
}

// The number of a record at a place.
fn number_at(line: &[u8], place: usize) -> u16
    requires { IsSome (count_in 1 600 (stated_field (fields_in line.now) place)) }
    ensures { count_in 1 600 (stated_field (fields_in line.now) place) ≡ Some result }
{
    match count_in(field(line, place), 1, 600) {
        Some(number) => number,
        None => unreachable!(),
    }
}

// Which earlier record has the call sign of this one, where none is about its aircraft. The record has the number `at`,
// and this line.
fn called_why<'a>(text: &[u8], at: u32, kind: RecordKind, line: &'a [u8]) -> Why<'a>
    requires few { length text.now < 2 ^ 32 - 1 }
    requires enough { at ≤ length (written (file_lines text.now)) + 1 }
    requires against { (earlier : List (Option Record)) × IsAgainst text.now at code.Repeat kind line.now earlier }
    requires none { IsLastBefore (holds_sought (alike kind (fields_in line.now))) (file_lines text.now) at None }
    ensures { (earlier : List (Option Record)) → IsAgainst text.now at code.Repeat kind line.now earlier → TellsRepeat text.now earlier kind (fields_in line.now) result }
{
    let found = field(line, 2);
    let Some(place) = last_before(text, at, &Signed { sign: found }) else {
        unreachable!();
    };
    Why::Called {
        found,
        line: place.number,
    }
}

/// Which earlier record a record of this kind repeats, or which number of one it doesn't exceed. The record has the
/// number `at`, and this line.
pub fn repeat_why<'a>(text: &[u8], at: u32, kind: RecordKind, line: &'a [u8]) -> Why<'a>
    requires few { length text.now < 2 ^ 32 - 1 }
    requires enough { at ≤ length (written (file_lines text.now)) + 1 }
    requires against { (earlier : List (Option Record)) × IsAgainst text.now at code.Repeat kind line.now earlier }
    ensures { (earlier : List (Option Record)) → IsAgainst text.now at code.Repeat kind line.now earlier → TellsRepeat text.now earlier kind (fields_in line.now) result }
{
    let sought = Sought::alike(kind, line);
    let Some(place) = last_before(text, at, &sought) else {
        return called_why(text, at, kind, line);
    };
    if rises(kind) {
        let found = number_at(line, rising_place(kind));
        let reached = number_at(place.line, reached_place(kind));
        return Why::NotAbove {
            kind,
            found,
            reached,
            line: place.number,
        };
    }
    Why::Again {
        kind,
        refused: line,
        line: place.number,
    }
}

/// The field at a place of the record with the number `at`, where it is an address that no earlier aircraft has.
pub fn stranger<'a>(text: &[u8], at: u32, line: &'a [u8], place: usize) -> Option<&'a [u8]>
    requires few { length text.now < 2 ^ 32 - 1 }
    requires counted { 1 ≤ at }
    requires enough { at ≤ length (written (file_lines text.now)) + 1 }
    ensures { (earlier : List (Option Record)) → AreBefore SaysRow text.now at earlier
        → MatchOption result (is_stranger (records_in earlier) (fields_in line.now) place ≡ false) (λ found. IsStrange (records_in earlier) (fields_in line.now) place found.now) }
{
    let found = field(line, place);
    let address = address_in(found)?;
    let sought = Sought {
        kind: RecordKind::Craft,
        first: Some(address),
        second: None,
    };
    match last_before(text, at, &sought) {
        Some(_) => None,
        None => Some(found),
    }
}

// The name of the address that a record says first, and of the one that it says second.
fn first_name(kind: RecordKind) -> FieldName
    requires { has_first kind ≡ true }
    ensures { slice_get (names_of kind) 0 ≡ Some result }
{
    match kind {
        RecordKind::Miss => FieldName::Own,
        RecordKind::Plan | RecordKind::Fate => FieldName::Sender,
        _ => FieldName::Address,
    }
}

fn second_name(kind: RecordKind) -> FieldName
    requires { has_second kind ≡ true }
    ensures { slice_get (names_of kind) 1 ≡ Some result }
{
    match kind {
        RecordKind::Miss => FieldName::Target,
        _ => FieldName::Receiver,
    }
}

/// Which address of a record of this kind is unknown, or that two are equal. The record has the number `at`, and this
/// line.
pub fn unknown_why<'a>(text: &[u8], at: u32, kind: RecordKind, line: &'a [u8]) -> Why<'a>
    requires few { length text.now < 2 ^ 32 - 1 }
    requires enough { at ≤ length (written (file_lines text.now)) + 1 }
    requires against { (earlier : List (Option Record)) × IsAgainst text.now at code.Unknown kind line.now earlier }
    ensures { (earlier : List (Option Record)) → IsAgainst text.now at code.Unknown kind line.now earlier → TellsUnknown (records_in earlier) kind (fields_in line.now) result }
{
    if let Some(found) = stranger(text, at, line, 1) {
        let name = first_name(kind);
        return Why::Unknown { name, found };
    }
    if has_second(kind) {
        if let Some(found) = stranger(text, at, line, 2) {
            let name = second_name(kind);
            return Why::Unknown { name, found };
        }
    }
    Why::Equal {
        found: field(line, 1),
    }
}

// Whether there is a record of a kind before the record with the number `at`.
fn is_given(text: &[u8], at: u32, kind: RecordKind) -> bool
    requires few { length text.now < 2 ^ 32 - 1 }
    requires counted { 1 ≤ at }
    requires enough { at ≤ length (written (file_lines text.now)) + 1 }
    ensures { (earlier : List (Option Record)) → AreBefore SaysRow text.now at earlier → result ≡ list_any (is_about (record { kind = kind; first = None; second = None })) (records_in earlier) }
{
    let sought = Sought {
        kind,
        first: None,
        second: None,
    };
    last_before(text, at, &sought).is_some()
}

/// What is wanting at the end, the record with the number `at`: a run; or, where there is one, the profile that format
/// 3 needs; or else an active aircraft. `version` is the format.
pub fn end_why(text: &[u8], at: u32, version: u8) -> Why<'static>
    requires few { length text.now < 2 ^ 32 - 1 }
    requires counted { 1 ≤ at }
    requires enough { at ≤ length (written (file_lines text.now)) + 1 }
    ensures { (line : List ℕ) (earlier : List (Option Record)) → version_of (records_in earlier) ≡ version → IsAgainst text.now at code.Count kind.End line earlier → TellsCounted (records_in earlier) kind.End result }
{
    if !is_given(text, at, RecordKind::Run) {
        return Why::NoRun;
    }
    if version < 3 {
        return Why::NoneActive;
    }
    if !is_given(text, at, RecordKind::Profile) {
        return Why::NoProfile;
    }
    Why::NoneActive
}

// What is too many or wanting.
fn count_why(
    text: &[u8],
    refusal: Refusal,
    version: u8,
    kind: RecordKind,
    line: &[u8],
) -> Why<'static>
    requires few { length text.now < 2 ^ 32 - 1 }
    requires code { refusal.code ≡ code.Count }
    requires version { IsFormat text.now version }
    requires against { IsRefusedAgainst text.now refusal kind line.now }
    ensures { TellsEarlier text.now refusal kind line.now result }
{
    match kind {
        RecordKind::Craft => Why::ManyCrafts { version },
        _ => end_why(text, refusal.at, version),
    }
}

/// What is wrong with a refused record after those before it. Its code is Repeat, Unknown or Count.
pub(crate) fn against_why<'a>(
    text: &[u8],
    refusal: Refusal,
    version: u8,
    kind: RecordKind,
    line: &'a [u8],
) -> Why<'a>
    requires few { length text.now < 2 ^ 32 - 1 }
    requires version { IsFormat text.now version }
    requires against { IsRefusedAgainst text.now refusal kind line.now }
    ensures { TellsEarlier text.now refusal kind line.now result }
{
    match refusal.code {
        Code::Repeat => repeat_why(text, refusal.at, kind, line),
        Code::Unknown => unknown_why(text, refusal.at, kind, line),
        Code::Count => count_why(text, refusal, version, kind, line),
        _ => unreachable!(),
    }
}
