// Why a text of tracks is refused, in a sentence.
ghost use Rattle.std.specs.Prelude.{◌≡◌, ◌+◌, ◌-◌, ◌<◌, ◌≤◌, ◌^◌, ◌++◌, length};
ghost use Rattle.enc_file.specs.Records.{records_of};
ghost use Rattle.track_text.specs.Conditions.{IsRefused};
ghost use Rattle.track_text.specs.Sentences.{address_text, is_newer, kinds_text, no_kind_text, not_above_text, track_fault, track_why_text};
ghost use Rattle.track_text.specs.Telling.{IsExplained};

use crate::kinds::word_kind;
use crate::refusal::Refusal;
use crate::telling::why_of;
use crate::why::TrackWhy;
use acas_text::{LINE_BYTES, Line};
use fault_text::{add_field_count, add_shown, add_why, place_of};
use track_file::TrackFault;

// Adds the six digits of an address.
fn add_address(line: &mut Line, address: u32)
    requires { length line.old + 10 ≤ LINE_BYTES }
    ensures added { line.new ≡ line.old ++ address_text address }
    ensures short { length line.new ≤ length line.old + 10 }
{
    if address < 16_777_216 {
        line.hex(u64::from(address), 6);
    } else {
        line.u32(address);
    }
}

// Adds why an aircraft can't fly along its track.
fn add_track_fault(line: &mut Line, fault: TrackFault, address: u32)
    requires { length line.old + 300 ≤ LINE_BYTES }
    ensures added { line.new ≡ line.old ++ track_fault fault address }
    ensures short { length line.new ≤ length line.old + 300 }
{
    line.text("the track of ");
    add_address(line, address);
    match fault {
        TrackFault::Cover { .. } => {
            line.text(
                " has no point at 0 ms or before it, or none at the time of the last cycle or after it",
            );
        }
        TrackFault::Rate { cycle, .. } => {
            line.text(" is too fast for a leg from cycle ");
            line.u16(cycle);
            line.text(" to the next one: at most 2000 ft/s in x and in y, and 10000 ft/min");
        }
    }
}

// What is said of a word that is none of the kinds behind a header, which stands for this version of the encounter.
fn kinds_text(version: u8) -> &'static str
    ensures text { result.now ≡ kinds_text version }
    ensures short { length result.now ≤ 120 }
{
    if version < 3 {
        return " is no kind of record of \"tracks,1\" (run, gains, craft, climb, at, miss, plan, fate, end)";
    }
    " is no kind of record of \"tracks,2\" (profile, name, clock, run, gains, craft, call, climb, at, miss, plan, fate, end)"
}

// Whether `tracks,2` alone has a kind, and the header is `tracks,1`.
fn is_newer(version: u8, found: &[u8]) -> bool
    ensures { result ≡ is_newer version found.now }
{
    version < 3 && word_kind(3, found).is_some()
}

// What is said of a word that names no kind of record of tracks.
fn no_kind_text(version: u8, found: &[u8]) -> &'static str
    ensures text { result.now ≡ no_kind_text version found.now }
    ensures short { length result.now ≤ 120 }
{
    if found == b"tracks".as_slice() {
        return " can only be the first record";
    }
    if is_newer(version, found) {
        return " is a kind of record of \"tracks,2\" alone; the first record is \"tracks,1\"";
    }
    kinds_text(version)
}

// Adds that the time of a point isn't above that of the last point of its aircraft.
fn add_not_above(line: &mut Line, found: i32, reached: i32, number: u32)
    requires { length line.old + 90 ≤ LINE_BYTES }
    ensures added { line.new ≡ line.old ++ not_above_text found reached number }
    ensures short { length line.new ≤ length line.old + 90 }
{
    line.text("MS is ");
    line.i32(found);
    line.text(", and has to be above ");
    line.i32(reached);
    line.text(", the MS of line ");
    line.u32(number);
}

// Adds what is wrong with a record.
fn add_track_why(line: &mut Line, why: &TrackWhy<'_>)
    requires { length line.old + 300 ≤ LINE_BYTES }
    ensures added { line.new ≡ line.old ++ track_why_text why.now }
    ensures short { length line.new ≤ length line.old + 300 }
{
    match *why {
        TrackWhy::NoRecord => {
            line.text("there is no record; the first one has to be \"tracks,1\" or \"tracks,2\"");
        }
        TrackWhy::NoHeader { found } => {
            line.text("the first record has to be \"tracks,1\" or \"tracks,2\", and is ");
            add_shown(line, found);
        }
        TrackWhy::NoKind { version, found } => {
            add_shown(line, found);
            line.text(no_kind_text(version, found));
        }
        TrackWhy::FieldCount { kind, count } => {
            add_field_count(line, kind.word(), count, kind.form());
        }
        TrackWhy::NotAbove {
            found,
            reached,
            line: number,
        } => add_not_above(line, found, reached, number),
        TrackWhy::ManyCrafts => line.text("one aircraft too many: tracks have at most 16"),
        TrackWhy::Shared(shared) => add_why(line, &shared),
        TrackWhy::Track(fault, address) => add_track_fault(line, fault, address),
    }
}

/// The sentence that says why a text of tracks is refused, as a line. It names the line of the file and, of the faulty
/// fields of the record there, the leftmost one. Where an aircraft can't fly along its track, it names the aircraft, and
/// the cycle.
pub fn explained(text: &[u8], refusal: Refusal) -> Line
    requires few { length text.now < 2 ^ 32 - 1 }
    requires refused { IsRefused (records_of text.now) refusal }
    ensures { IsExplained text.now refusal result }
{
    let place = place_of(text, refusal.at);
    let why = why_of(text, refusal, place.line);
    let mut line = Line::new();
    line.text("line ");
    line.u32(place.number);
    line.text(": ");
    add_track_why(&mut line, &why);
    line.text("\n");
    line
}
