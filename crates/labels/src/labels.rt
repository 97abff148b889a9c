// Labels.
ghost use Rattle.std.specs.Prelude.{◌≡◌, ◌≤◌, ◌<◌, [], None, Some, drop, get_or, length, map, take, true, MatchOption};
ghost use Rattle.std.specs.Option.{ForSome};
ghost use Rattle.std.specs.String.{string_bytes};
ghost use Rattle.acas_text.specs.Hex.{hex};
ghost use Rattle.labels.specs.Labels.{after_start, are_checked, are_marks, cycle_by_clock, cycle_of, labels_in, name_count, name_of, no_labels, start_in};
ghost use Rattle.labels.specs.Parts.{value_of};

use crate::clock::clock_in;
use crate::parts::{key_of, value_of};
use crate::split::{after_start, are_apart, are_marks, name_count, start_in, value_with};
use acas_base::Address;
use acas_text::Line;
use enc_file::count_in;
use std::marker::Model;

/// The most words.
pub const MOST_WORDS: usize = 256;

/// The most marks.
pub const MOST_MARKS: usize = 26;

// The seconds of a day.
const DAY: u32 = 86_400;

/// The clock, the names and the marks of a picture. The words that say them are lent.
#[derive(Drop)]
pub struct Labels<'a> {
    start: Option<u32>,
    names: &'a [String],
    marks: &'a [String],
}

impl<'a> Model for Labels<'a> {
    ghost use Rattle.std.specs.Prelude.{map};
    ghost use Rattle.std.specs.String.{string_bytes};
    ghost use Rattle.labels.specs.Labels.{AreLabels, LabelWords};

    ghost Value = { LabelWords };

    ghost view = { λ l. record { start = l.start; names = map string_bytes l.names.now; marks = map string_bytes l.marks.now } };

    ghost invariant = { λ l. AreLabels (record { start = l.start; names = map string_bytes l.names.now; marks = map string_bytes l.marks.now }) };
}

// The words by what they say.
#[derive(Drop)]
struct Split<'a> {
    start: Option<u32>,
    names: &'a [String],
    marks: &'a [String],
}

// The parts of some words.
fn split_words<'a>(words: &'a [String]) -> Split<'a>
    ensures start { result.start ≡ start_in (map string_bytes words.now) }
    ensures names { map string_bytes result.names.now ≡ take (name_count (after_start (map string_bytes words.now))) (after_start (map string_bytes words.now)) }
    ensures marks { map string_bytes result.marks.now ≡ drop (name_count (after_start (map string_bytes words.now))) (after_start (map string_bytes words.now)) }
    ensures day { ForSome result.start (λ second. second < 86400) }
{
    let rest = after_start(words);
    let count = name_count(rest);
    Split {
        start: start_in(words),
        names: &rest[..count],
        marks: &rest[count..],
    }
}

// Whether the names and the marks are sound.
fn are_checked(parts: &Split<'_>) -> bool
    ensures { result ≡ are_checked parts.now.start (map string_bytes parts.now.names.now) (map string_bytes parts.now.marks.now) }
{
    are_apart(parts.names) && are_marks(parts.start, parts.marks) && parts.marks.len() <= MOST_MARKS
}

// A line of these bytes.
fn line_of(bytes: &[u8]) -> Line
    requires { length bytes.now ≤ 60 }
    ensures { result ≡ bytes.now }
{
    let mut line = Line::new();
    for byte in bytes {
        line.byte(*byte);
    }
    line
}

// The text of an address.
fn address_text(address: Address) -> Line
    ensures text { result ≡ hex 6 address }
    ensures short { length result ≤ 8 }
{
    let mut line = Line::new();
    line.address(address.value());
    line
}

// A word, by its place.
fn word_at(words: &[String], place: usize) -> &[u8]
    requires { place < length words.now }
    ensures { result.now ≡ get_or (map string_bytes words.now) place [] }
{
    words[place].as_bytes()
}

// The text of a mark, by its place.
fn text_at(start: Option<u32>, words: &[String], place: usize) -> Line
    requires marks { are_marks start (map string_bytes words.now) ≡ true }
    requires place { place < length words.now }
    ensures value { result ≡ value_of (get_or (map string_bytes words.now) place []) }
    ensures short { length result ≤ 60 }
{
    let _ = start;
    line_of(value_of(word_at(words, place)))
}

// The cycle that a time of day is in, where there is a clock.
fn cycle_by_clock(start: Option<u32>, second: Option<u32>) -> u32
    requires start { ForSome start (λ second. second < 86400) }
    requires second { ForSome second (λ second. second < 86400) }
    ensures value { result ≡ cycle_by_clock start second }
    ensures most { result ≤ 86400 }
{
    let Some(begun) = start else {
        return 0;
    };
    let Some(told) = second else {
        return 0;
    };
    (told + DAY - begun) % DAY + 1
}

impl<'a> Labels<'a> {
    /// No clock, no names and no marks.
    pub fn none() -> Labels<'a>
        ensures { result ≡ no_labels }
    {
        Labels {
            start: None,
            names: &[],
            marks: &[],
        }
    }

    /// The labels that words say: first the clock, if any, then names, then at most 26 marks. None where the words have
    /// another form, where an address has two names, where a mark tells a time of day and there is no clock, or where
    /// there are more than `MOST_WORDS` words.
    pub fn parse(words: &'a [String]) -> Option<Labels<'a>>
        ensures { MatchOption result (labels_in (map string_bytes words.now) ≡ None) (λ labels. labels_in (map string_bytes words.now) ≡ Some labels) }
    {
        if MOST_WORDS < words.len() {
            return None;
        }
        let parts = split_words(words);
        if are_checked(&parts) {
            return Some(Labels {
                start: parts.start,
                names: parts.names,
                marks: parts.marks,
            });
        }
        None
    }

    /// The second of the day in which cycle 1 is, where there is a clock.
    pub fn start(&self) -> Option<u32>
        ensures value { result ≡ self.now.start }
        ensures day { ForSome result (λ second. second < 86400) }
    {
        self.start
    }

    /// What an aircraft is called: its name, or its address where it has none.
    #[tactic(auto, unfolding(crate::specs::Labels::name_of))]
    pub fn name(&self, address: Address) -> Line
        ensures text { result ≡ name_of self.now address }
        ensures short { length result ≤ 8 }
    {
        let address = address_text(address);
        match value_with(self.names, address.bytes()) {
            Some(name) => line_of(name),
            None => address,
        }
    }

    /// How many marks there are.
    pub fn marks(&self) -> usize
        ensures value { result ≡ length self.now.marks }
        ensures few { result ≤ 26 }
    {
        self.marks.len()
    }

    /// The cycle of a mark, by its place in the list. It may be past the last cycle of a run.
    #[tactic(auto, unfolding(crate::specs::Labels::cycle_of))]
    pub fn mark_cycle(&self, place: usize) -> u32
        requires { place < length self.now.marks }
        ensures value { result ≡ cycle_of self.now.start (get_or self.now.marks place []) }
        ensures most { result ≤ 86400 }
    {
        let key = key_of(word_at(self.marks, place));
        match count_in(key, 1, 600) {
            Some(cycle) => u32::from(cycle),
            None => cycle_by_clock(self.start, clock_in(key)),
        }
    }

    /// The text of a mark.
    pub fn mark_text(&self, place: usize) -> Line
        requires { place < length self.now.marks }
        ensures value { result ≡ value_of (get_or self.now.marks place []) }
        ensures short { length result ≤ 60 }
    {
        text_at(self.start, self.marks, place)
    }
}
