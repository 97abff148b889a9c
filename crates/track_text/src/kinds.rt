// The kinds of records that a text of tracks has.
ghost use Rattle.std.specs.Prelude.{◌≡◌, ◌≤◌, ◌<◌, ◌-◌, ◌^◌, MatchOption, None, length};
ghost use Rattle.enc_file.specs.Values.{field as stated_field};
ghost use Rattle.fault_text.specs.Lines.{fields_in};
ghost use Rattle.track_text.specs.Conditions.{kind_named};
ghost use Rattle.track_text.specs.Kinds.{IsKindNamed, own_form, own_names, own_word};
ghost use Rattle.track_text.specs.Told.{IsFormat};

use fault_text::{FieldName, RecordKind, field, kind_of, place_of};

/// A kind of record that the text of an encounter doesn't have so.
#[derive(Clone, Copy)]
pub enum OwnKind {
    Craft,
    Point,
}

/// A kind of record after the header.
#[derive(Clone, Copy)]
pub(crate) enum LineKind {
    Own(OwnKind),
    /// A kind that is as in an encounter. It is neither an aircraft nor a leg.
    Shared(RecordKind),
}

impl OwnKind {
    /// The word that names it.
    pub(crate) fn word(self) -> &'static str
        ensures text { result.now ≡ own_word self }
        ensures short { length result.now ≤ 5 }
    {
        match self {
            OwnKind::Craft => "craft",
            OwnKind::Point => "at",
        }
    }

    /// Its form.
    pub(crate) fn form(self) -> &'static str
        ensures text { result.now ≡ own_form self }
        ensures short { length result.now ≤ 30 }
    {
        match self {
            OwnKind::Craft => "craft,ADDRESS,KIND",
            OwnKind::Point => "at,ADDRESS,MS,X,Y,Z",
        }
    }

    /// Its fields after the first one.
    pub(crate) fn names(self) -> &'static [FieldName]
        ensures { result.now ≡ own_names self }
    {
        match self {
            OwnKind::Craft => &[FieldName::Address, FieldName::Kind],
            OwnKind::Point => &[
                FieldName::Address,
                FieldName::Ms,
                FieldName::X,
                FieldName::Y,
                FieldName::Z,
            ],
        }
    }
}

/// The kind that a word names, where the header stands for this version of the encounter.
pub(crate) fn word_kind(version: u8, word: &[u8]) -> Option<LineKind>
    ensures { MatchOption result (kind_named version word.now ≡ None) (IsKindNamed version word.now) }
{
    if word == b"at".as_slice() {
        return Some(LineKind::Own(OwnKind::Point));
    }
    if word == b"craft".as_slice() {
        return Some(LineKind::Own(OwnKind::Craft));
    }
    if word == b"leg".as_slice() {
        return None;
    }
    match kind_of(version, word) {
        Some(kind) => Some(LineKind::Shared(kind)),
        None => None,
    }
}

/// The kind that the first field of a line names.
pub(crate) fn line_kind(version: u8, line: &[u8]) -> Option<LineKind>
    ensures { MatchOption result (kind_named version (stated_field (fields_in line.now) 0) ≡ None) (IsKindNamed version (stated_field (fields_in line.now) 0)) }
{
    word_kind(version, field(line, 0))
}

/// The version of the encounter for which the header of a text stands.
pub(crate) fn format_of(text: &[u8]) -> u8
    requires few { length text.now < 2 ^ 32 - 1 }
    ensures { IsFormat text.now result }
{
    if field(place_of(text, 1).line, 1) == b"2".as_slice() {
        return 3;
    }
    2
}
