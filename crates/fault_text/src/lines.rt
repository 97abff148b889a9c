// The lines of a file, and the records in them.
ghost use Rattle.std.specs.Prelude.{◌≡◌, ◌≤◌, ◌<◌, ◌-◌, ◌^◌, ◌∷◌, [], ℕ, List, MatchOption, false, length, map};
ghost use Rattle.csv.specs.Reading.{strip_bom};
ghost use Rattle.enc_file.specs.Records.{records_of};
ghost use Rattle.fault_text.specs.Lines.{BeginsWithEnd, IsFirstLine, Stands, begins, begins_recording, begins_tracks, fields_in, file_lines, lines_after, written};

use memchr::memchr2;
use std::marker::Model;

const LINE_FEED: u8 = b'\n';

const CARRIAGE_RETURN: u8 = b'\r';

// The end of a line that has two bytes.
const BOTH: [u8; 2] = [CARRIAGE_RETURN, LINE_FEED];

// The byte order mark of UTF-8.
const MARK: [u8; 3] = [0xEF, 0xBB, 0xBF];

/// A law: the records of a text are its lines that aren't blank. The fields of a record stand between the commas of its
/// line.
pub fn records_law()
    ensures { (text : List ℕ) → records_of text ≡ map fields_in (written (file_lines text)) }
{}

/// Where a record stands in a file.
#[derive(Clone, Copy)]
pub struct Place<'a> {
    /// The number of its line, from 1, blank lines counted. Where there is no such record, it is one more than the line
    /// of the last record.
    pub number: u32,
    /// The line, without its end; empty where there is no such record.
    pub line: &'a [u8],
}

/// A text without a byte order mark at its start.
pub fn unmarked(text: &[u8]) -> &[u8]
    ensures bare { result.now ≡ strip_bom text.now }
    ensures short { length result.now ≤ length text.now }
{
    match text.strip_prefix(&MARK) {
        Some(rest) => rest,
        None => text,
    }
}

// What stands behind the end of a line. The bytes begin with that end.
fn behind_end(bytes: &[u8]) -> &[u8]
    requires { BeginsWithEnd bytes.now }
    ensures lines { lines_after false bytes.now ≡ [] ∷ lines_after false result.now }
    ensures first { IsFirstLine bytes.now [] result.now }
    ensures shorter { length result.now < length bytes.now }
{
    match bytes.strip_prefix(&BOTH) {
        Some(rest) => rest,
        None => &bytes[1..],
    }
}

/// The first line, without its end, and what stands behind that end.
pub fn cut(bytes: &[u8]) -> (&[u8], &[u8])
    requires { 0 < length bytes.now }
    ensures first { lines_after false bytes.now ≡ result.0.now ∷ lines_after false result.1.now }
    ensures cut { IsFirstLine bytes.now result.0.now result.1.now }
    ensures part { length result.0.now ≤ length bytes.now }
    ensures shorter { length result.1.now < length bytes.now }
{
    match memchr2(LINE_FEED, CARRIAGE_RETURN, bytes) {
        Some(at) => {
            let (line, rest) = bytes.split_at(at);
            (line, behind_end(rest))
        }
        None => (bytes, &[]),
    }
}

/// The lines of a file that are still to come, each without its end. Blank lines are among them.
#[derive(Drop)]
pub struct FileLines<'a> {
    rest: &'a [u8],
}

impl<'a> Model for FileLines<'a> {
    ghost use Rattle.std.specs.Prelude.{false, List, ℕ};
    ghost use Rattle.fault_text.specs.Lines.{lines_after};

    ghost Value = { List (List ℕ) };

    ghost view = { λ a. lines_after false a.rest.now };
}

impl<'a> FileLines<'a> {
    /// All lines of a file. There are no more lines than bytes.
    pub fn of(text: &'a [u8]) -> FileLines<'a>
        ensures lines { result ≡ file_lines text.now }
        ensures few { length result ≤ length text.now }
    {
        FileLines {
            rest: unmarked(text),
        }
    }

    /// The next line.
    pub fn next(&mut self) -> Option<&'a [u8]>
        ensures { MatchOption result ((self.old ≡ []) × (self.new ≡ [])) (λ line. self.old ≡ line.now ∷ self.new) }
    {
        if self.rest.is_empty() {
            return None;
        }
        let (line, rest) = cut(self.rest);
        self.rest = rest;
        Some(line)
    }
}

/// Where the record with the number `at` stands in a file. Records are counted from 1.
pub fn place_of(text: &[u8], at: u32) -> Place<'_>
    requires few { length text.now < 2 ^ 32 - 1 }
    requires counted { 1 ≤ at }
    ensures place { Stands (file_lines text.now) at result.number result.line.now }
    ensures part { length result.line.now ≤ length text.now }
{
    let mut rest = unmarked(text);
    let mut number = 1;
    let mut behind = 1;
    let mut left = at;
    while !rest.is_empty() {
        let (line, after) = cut(rest);
        if !line.is_empty() {
            if left == 1 {
                return Place { number, line };
            }
            left -= 1;
            behind = number + 1;
        }
        number += 1;
        rest = after;
    }
    Place {
        number: behind,
        line: rest,
    }
}

/// How many records a text has.
pub(crate) fn record_count(text: &[u8]) -> u32
    requires { length text.now < 2 ^ 32 - 1 }
    ensures { result ≡ length (records_of text.now) }
{
    let mut rest = unmarked(text);
    let mut count = 0;
    while !rest.is_empty() {
        let (line, after) = cut(rest);
        if !line.is_empty() {
            count += 1;
        }
        rest = after;
    }
    count
}

// Whether bytes begin so. One byte order mark may stand before.
fn begins(bytes: &[u8], front: &[u8]) -> bool
    ensures { result ≡ begins front.now bytes.now }
{
    let rest = unmarked(bytes);
    let most = rest.len().min(front.len());
    &rest[..most] == front
}

/// Whether bytes begin as a recording. One byte order mark may stand before its first word.
pub fn begins_recording(bytes: &[u8]) -> bool
    ensures { result ≡ begins_recording bytes.now }
{
    begins(bytes, b"recording,")
}

/// Whether bytes begin as a text of tracks. One byte order mark may stand before its first word.
pub fn begins_tracks(bytes: &[u8]) -> bool
    ensures { result ≡ begins_tracks bytes.now }
{
    begins(bytes, b"tracks,")
}
