// The sentence of a fault.
ghost use Rattle.std.specs.Prelude.{◌≡◌, ◌+◌, ◌≤◌, ◌++◌, length};
ghost use Rattle.acas_text.specs.Hex.{hex};
ghost use Rattle.fault_text.specs.Sentences.{again_text, count_text, fields_text, form_text, found_text, is_later_word, is_newest_word, kinds_text, many_crafts_text, named_text, newest_text, no_kind_text, not_above_text, range_text, reached_name, reached_text, rising_name, rising_text, sentence, unit_text, wanted, why_text};

use crate::earlier::Sought;
use crate::fault::{Fault, Why};
use crate::hints::{address_hint, number_hint};
use crate::leaving_text::add_leaving;
use crate::names::{Content, FieldName, RecordKind};
use crate::shown::add_shown;
use acas_base::Address;
use acas_text::{LINE_BYTES, Line};
use enc_file::address_in;

fn unit_text(name: FieldName) -> &'static str
    ensures text { result.now ≡ unit_text name }
    ensures short { length result.now ≤ 12 }
{
    match name {
        FieldName::Ground | FieldName::X | FieldName::Y | FieldName::Alt | FieldName::Limit =>
            " ft",
        FieldName::Vx | FieldName::Vy => " ft/s",
        FieldName::Vz => " ft/min",
        FieldName::Ms => " ms",
        FieldName::Z => ", in 1/60 ft",
        _ => "",
    }
}

// Adds the numbers of a range.
fn add_range(line: &mut Line, low: i32, high: i32)
    requires { length line.old + 26 ≤ LINE_BYTES }
    ensures added { line.new ≡ line.old ++ range_text low high }
    ensures short { length line.new ≤ length line.old + 26 }
{
    line.i32(low);
    line.text(" to ");
    line.i32(high);
}

// Adds what has to stand in a field.
fn add_wanted(line: &mut Line, name: FieldName, content: Content, found: &[u8])
    requires { length line.old + 104 ≤ LINE_BYTES }
    ensures added { line.new ≡ line.old ++ wanted name content found.now }
    ensures short { length line.new ≤ length line.old + 104 }
{
    match content {
        Content::Whole { low, high } => {
            line.text("a whole number from ");
            add_range(line, low, high);
            line.text(unit_text(name));
            line.text(number_hint(found));
        }
        Content::Kind => line.text("RA, TA or XPDR"),
        Content::Mask => line.text("two digits 0-9A-F"),
        Content::Profile => line.text("1 or 2"),
        Content::Label => line.text("1 to 60 bytes from 20 to 7E hex"),
        Content::Clock => line.text("a time of day from 00:00:00 to 23:59:59"),
        Content::Sign => line.text(
            "a call sign: 1 to 8 of A-Z, 0-9 and -, and not six digits 0-9A-F",
        ),
        Content::Address => line.text("an address"),
    }
}

fn form_text(kind: RecordKind) -> &'static str
    ensures text { result.now ≡ form_text kind }
    ensures short { length result.now ≤ 70 }
{
    match kind {
        RecordKind::Run => "run,CYCLES,GROUND",
        RecordKind::Gains => "gains,ALPHA,BETA,ALPHA,BETA",
        RecordKind::Craft => "craft,ADDRESS,KIND,X,Y,ALT",
        RecordKind::Climb => "climb,ADDRESS,LIMIT",
        RecordKind::Leg => "leg,ADDRESS,FROM,VX,VY,VZ",
        RecordKind::Miss => "miss,OWN,TARGET,FROM,TO",
        RecordKind::Plan => "plan,SENDER,RECEIVER and none to three copies HOLD,MASK",
        RecordKind::Fate => "fate,SENDER,RECEIVER,NUMBER and none to three copies HOLD,MASK",
        RecordKind::End => "end",
        RecordKind::Profile => "profile,NUMBER",
        RecordKind::Name => "name,TEXT",
        RecordKind::Clock => "clock,HH:MM:SS",
        RecordKind::Call => "call,ADDRESS,NAME",
    }
}

// Whether a word names a kind that formats 2 and 3 have, and the format is 1.
fn is_later_word(version: u8, found: &[u8]) -> bool
    ensures { result ≡ is_later_word version found.now }
{
    if version != 1 {
        return false;
    }
    found == b"climb".as_slice() || found == b"plan".as_slice()
}

// Whether a word names a kind that format 3 alone has, and the format is another one.
fn is_newest_word(version: u8, found: &[u8]) -> bool
    ensures { result ≡ is_newest_word version found.now }
{
    if 3 <= version {
        return false;
    }
    found == b"profile".as_slice()
        || (found == b"name".as_slice()
            || (found == b"clock".as_slice() || found == b"call".as_slice()))
}

fn newest_text(version: u8) -> &'static str
    ensures text { result.now ≡ newest_text version }
    ensures short { length result.now ≤ 80 }
{
    if version == 1 {
        return " is a kind of record of format 3 alone; the first record is \"encounter,1\"";
    }
    " is a kind of record of format 3 alone; the first record is \"encounter,2\""
}

fn kinds_text(version: u8) -> &'static str
    ensures text { result.now ≡ kinds_text version }
    ensures short { length result.now ≤ 120 }
{
    if version == 1 {
        return " is no kind of record of format 1 (run, gains, craft, leg, miss, fate, end)";
    }
    if version == 2 {
        return " is no kind of record of format 2 (run, gains, craft, climb, leg, miss, plan, fate, end)";
    }
    " is no kind of record of format 3 (profile, name, clock, run, gains, craft, call, climb, leg, miss, plan, fate, end)"
}

// What is said of a word that names no kind of the format.
fn no_kind_text(version: u8, found: &[u8]) -> &'static str
    ensures text { result.now ≡ no_kind_text version found.now }
    ensures short { length result.now ≤ 120 }
{
    if found == b"encounter".as_slice() {
        return " can only be the first record";
    }
    if is_later_word(version, found) {
        return " is a kind of record of formats 2 and 3; the first record is \"encounter,1\"";
    }
    if is_newest_word(version, found) {
        return newest_text(version);
    }
    kinds_text(version)
}

fn fields_text(count: u32) -> &'static str
    ensures text { result.now ≡ fields_text count }
    ensures short { length result.now ≤ 30 }
{
    if count == 1 {
        return " field here, and has to be ";
    }
    " fields here, and has to be "
}

/// Adds that a record that begins with this word hasn't so many fields, and has to have this form.
pub fn add_field_count(line: &mut Line, word: &str, count: u32, form: &str)
    requires room { length line.old + 270 ≤ LINE_BYTES }
    requires short { length word.now + length form.now ≤ 80 }
    ensures added { line.new ≡ line.old ++ count_text word.now count form.now }
    ensures short { length line.new ≤ length line.old + 270 }
{
    line.text(word);
    line.text(" has ");
    line.u32(count);
    line.text(fields_text(count));
    line.text(form);
}

// Adds a field and what stands there.
fn add_found(line: &mut Line, name: FieldName, found: &[u8])
    requires { length line.old + 176 ≤ LINE_BYTES }
    ensures added { line.new ≡ line.old ++ found_text name found.now }
    ensures short { length line.new ≤ length line.old + 176 }
{
    line.text(name.text());
    line.text(" is ");
    add_shown(line, found);
}

// Adds the six digits of an address.
fn add_address(line: &mut Line, address: Address)
    requires { length line.old + 6 ≤ LINE_BYTES }
    ensures added { line.new ≡ line.old ++ hex 6 address }
    ensures short { length line.new ≤ length line.old + 6 }
{
    line.hex(u64::from(address.value()), 6);
}

// Adds an address behind some words, where there is one.
fn add_named(line: &mut Line, words: &str, address: Option<Address>)
    requires room { length line.old + 10 ≤ LINE_BYTES }
    requires few { length words.now ≤ 4 }
    ensures added { line.new ≡ line.old ++ named_text words.now address }
    ensures short { length line.new ≤ length line.old + 10 }
{
    if let Some(address) = address {
        line.text(words);
        add_address(line, address);
    }
}

// Adds that there may be one such record alone.
fn add_again(line: &mut Line, of: Sought, number: u32)
    requires { length line.old + 90 ≤ LINE_BYTES }
    ensures added { line.new ≡ line.old ++ again_text of number }
    ensures short { length line.new ≤ length line.old + 90 }
{
    line.text("a second ");
    line.text(of.kind.word());
    line.text(" record");
    add_named(line, " of ", of.first);
    add_named(line, " to ", of.second);
    line.text("; the first one is in line ");
    line.u32(number);
}

fn rising_name(kind: RecordKind) -> FieldName
    ensures { result ≡ rising_name kind }
{
    match kind {
        RecordKind::Fate => FieldName::Number,
        _ => FieldName::From,
    }
}

fn reached_name(kind: RecordKind) -> FieldName
    ensures { result ≡ reached_name kind }
{
    match kind {
        RecordKind::Fate => FieldName::Number,
        RecordKind::Miss => FieldName::To,
        _ => FieldName::From,
    }
}

// Adds the number that isn't above the earlier one.
fn add_rising(line: &mut Line, of: RecordKind, found: u16)
    requires { length line.old + 17 ≤ LINE_BYTES }
    ensures added { line.new ≡ line.old ++ rising_text of found }
    ensures short { length line.new ≤ length line.old + 17 }
{
    let name = rising_name(of);
    line.text(name.text());
    line.text(" is ");
    line.u16(found);
}

// Adds where the earlier number stands.
fn add_reached(line: &mut Line, of: RecordKind, number: u32)
    requires { length line.old + 33 ≤ LINE_BYTES }
    ensures added { line.new ≡ line.old ++ reached_text of number }
    ensures short { length line.new ≤ length line.old + 33 }
{
    let name = reached_name(of);
    line.text(", the ");
    line.text(name.text());
    line.text(" of line ");
    line.u32(number);
}

// Adds that a number isn't above the earlier one.
fn add_not_above(line: &mut Line, of: RecordKind, found: u16, reached: u16, number: u32)
    requires { length line.old + 90 ≤ LINE_BYTES }
    ensures added { line.new ≡ line.old ++ not_above_text of found reached number }
    ensures short { length line.new ≤ length line.old + 90 }
{
    add_rising(line, of, found);
    line.text(", and has to be above ");
    line.u16(reached);
    add_reached(line, of, number);
}

fn many_crafts_text(version: u8) -> &'static str
    ensures text { result.now ≡ many_crafts_text version }
    ensures short { length result.now ≤ 100 }
{
    if version == 1 {
        return "one aircraft too many: format 1 has at most 8, and format 2 has at most 16";
    }
    if version == 2 {
        return "one aircraft too many: format 2 has at most 16";
    }
    "one aircraft too many: format 3 has at most 16"
}

/// Adds what is wrong. It adds no end of the line.
pub fn add_why(line: &mut Line, why: &Why<'_>)
    requires { length line.old + 300 ≤ LINE_BYTES }
    ensures added { line.new ≡ line.old ++ why_text why.now }
    ensures short { length line.new ≤ length line.old + 300 }
{
    match *why {
        Why::NoRecord => {
            line.text(
                "there is no record; the first one has to be \"encounter,1\", \"encounter,2\" or \"encounter,3\"",
            );
        }
        Why::NoHeader { found } => {
            line.text(
                "the first record has to be \"encounter,1\", \"encounter,2\" or \"encounter,3\", and is ",
            );
            add_shown(line, found);
        }
        Why::NoKind { version, found } => {
            add_shown(line, found);
            line.text(no_kind_text(version, found));
        }
        Why::FieldCount { kind, count } => {
            add_field_count(line, kind.word(), count, form_text(kind));
        }
        Why::NoValue { name, found } => {
            add_found(line, name, found);
            line.text(", and has to be ");
            add_wanted(line, name, name.content(), found);
        }
        Why::Turned { from, to } => {
            line.text("TO is ");
            line.u16(to);
            line.text(", and may not be below FROM, ");
            line.u16(from);
        }
        Why::NoAddress { name, found } => {
            add_found(line, name, found);
            line.text(", and has to be an address: six digits 0-9A-F");
            line.text(address_hint(found));
        }
        Why::ManyBits { name, found, bits } => {
            add_found(line, name, found);
            line.text(": ");
            line.u32(bits);
            line.text(" of its bits are 1, and at most three may be");
        }
        Why::Again {
            kind,
            refused,
            line: number,
        } => add_again(line, Sought::alike(kind, refused), number),
        Why::NotAbove {
            kind,
            found,
            reached,
            line: number,
        } => add_not_above(line, kind, found, reached, number),
        Why::Called {
            found,
            line: number,
        } => {
            add_found(line, FieldName::Sign, found);
            line.text(", which is the call sign of another aircraft, in line ");
            line.u32(number);
        }
        Why::Unknown { name, found } => {
            add_found(line, name, found);
            line.text(", which has no craft record before this line");
        }
        Why::Equal { found } => {
            line.text("the two addresses are equal, ");
            add_shown(line, found);
        }
        Why::ManyCrafts { version } => line.text(many_crafts_text(version)),
        Why::NoRun => line.text("there is no run record"),
        Why::NoProfile => line.text("there is no profile record, which format 3 needs"),
        Why::NoneActive => line.text("there is no aircraft of kind RA or TA"),
        Why::Outside {
            craft,
            cycle,
            axis,
            value,
        } => {
            line.text("aircraft");
            add_named(line, " ", address_in(craft));
            add_leaving(line, cycle, axis, value);
        }
        Why::NoEnd => {
            line.text(
                "the last record has to be \"end\", and there is none; was the text cut off?",
            );
        }
        Why::After { end } => {
            line.text("a record after \"end\", which is in line ");
            line.u32(end);
        }
    }
}

impl Fault<'_> {
    /// The line that tells it.
    pub fn sentence(&self) -> Line
        ensures { result ≡ sentence self.now }
    {
        let mut line = Line::new();
        line.text("line ");
        line.u32(self.line);
        line.text(": ");
        add_why(&mut line, &self.why);
        line.text("\n");
        line
    }
}
