// The fields of a record's line.
ghost use Rattle.std.specs.Prelude.{◌≡◌, ◌∷◌, ◌<◌, ◌-◌, ◌^◌, [], length, IsSome, MatchOption, Some};
ghost use Rattle.enc_file.specs.Conditions.{kind_named};
ghost use Rattle.enc_file.specs.Saying.{version_in};
ghost use Rattle.enc_file.specs.Values.{field};
ghost use Rattle.fault_text.specs.Lines.{fields_in};
ghost use Rattle.fault_text.specs.Told.{stated_kinds};

use crate::names::RecordKind;
use enc_file::count_in;
use memchr::{memchr, memchr_iter};
use std::marker::Model;

const COMMA: u8 = b',';

/// The fields of a line that are still to come.
#[derive(Drop)]
pub(crate) struct Fields<'a> {
    rest: Option<&'a [u8]>,
}

impl<'a> Model for Fields<'a> {
    ghost use Rattle.std.specs.Prelude.{List, ℕ};
    ghost use Rattle.fault_text.specs.Lines.{fields_left};

    ghost Value = { List (List ℕ) };

    ghost view = { λ a. fields_left a.rest };
}

impl<'a> Fields<'a> {
    /// All fields of a line.
    pub(crate) fn of(line: &'a [u8]) -> Fields<'a>
        ensures { result ≡ fields_in line.now }
    {
        Fields { rest: Some(line) }
    }

    /// The next field.
    pub(crate) fn next(&mut self) -> Option<&'a [u8]>
        ensures { MatchOption result ((self.old ≡ []) × (self.new ≡ [])) (λ field. self.old ≡ field.now ∷ self.new) }
    {
        let text = self.rest?;
        match memchr(COMMA, text) {
            Some(at) => {
                let (field, rest) = text.split_at(at);
                self.rest = Some(&rest[1..]);
                Some(field)
            }
            None => {
                self.rest = None;
                Some(text)
            }
        }
    }
}

/// How many fields a line has.
pub fn count(line: &[u8]) -> u32
    requires { length line.now < 2 ^ 32 - 1 }
    ensures { result ≡ length (fields_in line.now) }
{
    memchr_iter(COMMA, line).count() as u32 + 1
}

/// The field at a place, from 0; an empty one past the last.
pub fn field(line: &[u8], place: usize) -> &[u8]
    ensures { result.now ≡ field (fields_in line.now) place }
{
    let mut fields = Fields::of(line);
    let mut left = place;
    while left > 0 {
        let _ = fields.next();
        left -= 1;
    }
    match fields.next() {
        Some(field) => field,
        None => b"",
    }
}

/// The kind of record that a word names in a format.
pub fn kind_of(version: u8, word: &[u8]) -> Option<RecordKind>
    ensures { stated_kinds result ≡ kind_named version word.now }
{
    if word == b"run".as_slice() {
        return Some(RecordKind::Run);
    }
    if word == b"gains".as_slice() {
        return Some(RecordKind::Gains);
    }
    if word == b"craft".as_slice() {
        return Some(RecordKind::Craft);
    }
    if word == b"leg".as_slice() {
        return Some(RecordKind::Leg);
    }
    if word == b"miss".as_slice() {
        return Some(RecordKind::Miss);
    }
    if word == b"fate".as_slice() {
        return Some(RecordKind::Fate);
    }
    if word == b"end".as_slice() {
        return Some(RecordKind::End);
    }
    if version < 2 {
        return None;
    }
    if word == b"climb".as_slice() {
        return Some(RecordKind::Climb);
    }
    if word == b"plan".as_slice() {
        return Some(RecordKind::Plan);
    }
    if version < 3 {
        return None;
    }
    if word == b"profile".as_slice() {
        return Some(RecordKind::Profile);
    }
    if word == b"name".as_slice() {
        return Some(RecordKind::Name);
    }
    if word == b"clock".as_slice() {
        return Some(RecordKind::Clock);
    }
    if word == b"call".as_slice() {
        return Some(RecordKind::Call);
    }
    None
}

/// The format that a header says.
pub(crate) fn version_of(line: &[u8]) -> u8
    requires { IsSome (version_in (fields_in line.now)) }
    ensures { version_in (fields_in line.now) ≡ Some result }
{
    match count_in(field(line, 1), 1, 3) {
        Some(version) => version as u8,
        None => unreachable!(),
    }
}
