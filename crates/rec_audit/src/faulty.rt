// Which field of an entry's line is wrong.
ghost use Rattle.std.specs.Prelude.{◌≡◌, ◌≢◌, ◌+◌, ◌-◌, ◌<◌, ◌≤◌, ◌^◌, ℕ, MatchBool, MatchOption, Some, drop, length, slice_get};
ghost use Rattle.std.specs.Fmt.{decimal};
ghost use Rattle.acas_base.specs.declared.TheConstants.{CRAFTS};
ghost use Rattle.acas_base.specs.declared.advisory.Cell.{Cell};
ghost use Rattle.acas_base.specs.declared.entry.Entry.{Entry};
ghost use Rattle.advisory_report.specs.Cells.{cell_text};
ghost use Rattle.air_journal.specs.Ranges.{IsEntry};
ghost use Rattle.rec_audit.specs.Faulty.{AreRight, IsCellText, IsDecimal, IsLeftmost, IsNamed, IsOutcome, IsValue, IsWord, TellsForm, cell_at_place, commit_field, field_at, field_count, send_field, take_field};
ghost use Rattle.rec_audit.specs.Fields.{fields_of};
ghost use Rattle.rec_text.specs.Entries.{entry_fields};
ghost use Rattle.verdict_text.specs.Sentences.{letter_of};
ghost use Rattle.verdict_text.specs.declared.spelling.EntryKind.{EntryKind};

use crate::fields::Fields;
use crate::values::{cell_of, outcome_of};
use acas_text::{parse_hex, parse_within};
use verdict_text::{EntryField, EntryKind, Why};

// How many digits the word of a message has.
const WORD_DIGITS: usize = 14;

// The kind of entry that the first field of a line names.
fn kind_of(text: &[u8]) -> Option<EntryKind>
    ensures { MatchOption result ((kind : EntryKind) → text.now ≢ letter_of kind) (λ kind. text.now ≡ letter_of kind) }
{
    match text {
        b"c" => Some(EntryKind::Commit),
        b"s" => Some(EntryKind::Send),
        b"t" => Some(EntryKind::Take),
        _ => None,
    }
}

fn is_decimal(text: &[u8], low: u32, high: u32) -> bool
    ensures { MatchBool result (IsDecimal low high text.now) (IsDecimal low high text.now → ⊥) }
{
    match parse_within(text, low, high) {
        Some(_) => true,
        None => false,
    }
}

fn is_word(text: &[u8]) -> bool
    ensures { MatchBool result (IsWord text.now) (IsWord text.now → ⊥) }
{
    match parse_hex(text, WORD_DIGITS) {
        Some(_) => true,
        None => false,
    }
}

fn is_outcome(text: &[u8]) -> bool
    ensures { MatchBool result (IsOutcome text.now) (IsOutcome text.now → ⊥) }
{
    match outcome_of(text) {
        Some(_) => true,
        None => false,
    }
}

fn is_cell(text: &[u8]) -> bool
    ensures { MatchBool result (IsCellText text.now) (IsCellText text.now → ⊥) }
{
    match cell_of(text) {
        Some(_) => true,
        None => false,
    }
}

fn is_clear(text: &[u8]) -> bool
    ensures { MatchBool result (text.now ≡ cell_text Cell.Clear) (text.now ≢ cell_text Cell.Clear) }
{
    match text {
        b"-" => true,
        _ => false,
    }
}

// Whether what stands in a field may stand there, in an encounter of `crafts` aircraft.
fn is_value(name: EntryField, crafts: u8, text: &[u8]) -> bool
    requires { 0 < crafts }
    ensures { MatchBool result (IsValue crafts name text.now) (IsValue crafts name text.now → ⊥) }
{
    match name {
        EntryField::Own => is_decimal(text, 0, u32::from(crafts) - 1),
        EntryField::Target => is_decimal(text, 0, u32::from(crafts) - 1),
        EntryField::Cycle => is_decimal(text, 1, 600),
        EntryField::Number => is_decimal(text, 1, 600),
        EntryField::Word => is_word(text),
        EntryField::Position => is_decimal(text, 0, u32::MAX),
        EntryField::Copy => is_decimal(text, 0, 2),
        EntryField::Outcome => is_outcome(text),
        EntryField::Cell { .. } => is_cell(text),
        EntryField::OwnCell { .. } => is_clear(text),
    }
}

// The cell for an aircraft, in a commit of `own`.
fn cell_at(own: u8, other: u8) -> EntryField
    ensures { result ≡ cell_at_place own other }
{
    if other == own {
        return EntryField::OwnCell { own };
    }
    EntryField::Cell { other }
}

fn commit_field(own: u8, place: u8) -> EntryField
    ensures { result ≡ commit_field own place }
{
    if place == 0 {
        return EntryField::Own;
    }
    if place == 1 {
        return EntryField::Cycle;
    }
    cell_at(own, place - 2)
}

fn send_field(place: u8) -> EntryField
    ensures { result ≡ send_field place }
{
    if place == 0 {
        return EntryField::Own;
    }
    if place == 1 {
        return EntryField::Target;
    }
    if place == 2 {
        return EntryField::Number;
    }
    EntryField::Word
}

fn take_field(place: u8) -> EntryField
    ensures { result ≡ take_field place }
{
    if place == 0 {
        return EntryField::Own;
    }
    if place == 1 {
        return EntryField::Position;
    }
    if place == 2 {
        return EntryField::Copy;
    }
    EntryField::Outcome
}

// The field at a place, from 0, behind the first field.
fn field_at(kind: EntryKind, own: u8, place: u8) -> EntryField
    ensures { result ≡ field_at kind own place }
{
    match kind {
        EntryKind::Commit => commit_field(own, place),
        EntryKind::Send => send_field(place),
        EntryKind::Take => take_field(place),
    }
}

// How many fields a line of this kind has.
fn field_count(kind: EntryKind, crafts: u8) -> u32
    ensures { result ≡ field_count kind crafts }
{
    match kind {
        EntryKind::Commit => 3 + u32::from(crafts),
        EntryKind::Send => 5,
        EntryKind::Take => 5,
    }
}

// How many fields a line has.
fn count_fields(body: &[u8]) -> u32
    requires { length body.now < 2 ^ 32 - 1 }
    ensures { result ≡ length (fields_of body.now) }
{
    let mut fields = Fields::of(body);
    let mut count = 0;
    while let Some(_) = fields.next() {
        count += 1;
    }
    count
}

// The aircraft that the second field spells. Where it spells none, it is any.
fn own_of(body: &[u8], crafts: u8) -> u8
    requires { 0 < crafts }
    ensures { (n : ℕ) → n < crafts → slice_get (fields_of body.now) 1 ≡ Some (decimal n) → result ≡ n }
{
    let mut fields = Fields::of(body);
    let _ = fields.next();
    match fields.number(0, u32::from(crafts) - 1) {
        Some(own) => own as u8,
        None => 0,
    }
}

// The leftmost field behind the first one that isn't right. A line has at most 255 fields here.
fn leftmost(kind: EntryKind, own: u8, crafts: u8, body: &[u8]) -> Option<(EntryField, &[u8])>
    requires crafts { 0 < crafts }
    requires few { length (fields_of body.now) ≤ 255 }
    ensures { MatchOption result
        (AreRight crafts kind own 0 (drop 1 (fields_of body.now)))
        (λ found. IsLeftmost crafts kind own 0 (drop 1 (fields_of body.now)) found.0 found.1.now) }
{
    let mut fields = Fields::of(body);
    let _ = fields.next();
    let mut place: u8 = 0;
    while let Some(found) = fields.next() {
        let name = field_at(kind, own, place);
        if !is_value(name, crafts, found) {
            return Some((name, found));
        }
        place += 1;
    }
    None
}

// The leftmost field that isn't right, where the kind and the number of fields are.
fn value_why(kind: EntryKind, crafts: u8, body: &[u8]) -> Why<'_>
    requires crafts { (0 < crafts) × (crafts ≤ CRAFTS) }
    requires named { IsNamed kind (fields_of body.now) }
    requires counted { length (fields_of body.now) ≡ field_count kind crafts }
    requires unspelled { (entry : Entry) → IsEntry crafts entry → entry_fields crafts entry ≢ fields_of body.now }
    ensures { TellsForm crafts (fields_of body.now) result }
{
    match leftmost(kind, own_of(body, crafts), crafts, body) {
        Some((name, found)) => Why::NoValue {
            name,
            crafts,
            found,
        },
        None => unreachable!(),
    }
}

// Tells what is wrong with the fields that follow the first one.
fn fields_why(kind: EntryKind, crafts: u8, body: &[u8]) -> Why<'_>
    requires few { length body.now < 2 ^ 32 - 1 }
    requires crafts { (0 < crafts) × (crafts ≤ CRAFTS) }
    requires named { IsNamed kind (fields_of body.now) }
    requires unspelled { (entry : Entry) → IsEntry crafts entry → entry_fields crafts entry ≢ fields_of body.now }
    ensures { TellsForm crafts (fields_of body.now) result }
{
    let fields = count_fields(body);
    if fields != field_count(kind, crafts) {
        return Why::FieldCount {
            kind,
            crafts,
            fields,
        };
    }
    value_why(kind, crafts, body)
}

/// What is wrong with a line that is no entry's, without its line feed, in an encounter of `crafts` aircraft.
pub(crate) fn form_why(crafts: u8, body: &[u8]) -> Why<'_>
    requires few { length body.now < 2 ^ 32 - 1 }
    requires crafts { (0 < crafts) × (crafts ≤ CRAFTS) }
    requires unspelled { (entry : Entry) → IsEntry crafts entry → entry_fields crafts entry ≢ fields_of body.now }
    ensures { TellsForm crafts (fields_of body.now) result }
{
    let Some(first) = Fields::of(body).next() else {
        unreachable!();
    };
    match kind_of(first) {
        Some(kind) => fields_why(kind, crafts, body),
        None => Why::NoKind { found: first },
    }
}
