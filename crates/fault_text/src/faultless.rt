// What is said of an encounter in which nothing is wrong.
ghost use Rattle.std.specs.Prelude.{◌≡◌, ◌+◌, ◌-◌, ◌≤◌, ◌<◌, ◌^◌, ◌++◌, length};
ghost use Rattle.enc_file.specs.Records.{records_of};
ghost use Rattle.fault_text.specs.Faultless.{crafts_text, cycles_text, extent_text, faultless_line, is_ra, is_ta, is_xpdr, kind_count, kinds_text};

use crate::lines::record_count;
use acas_base::{CraftSpec, Encounter, Kind};
use acas_text::{LINE_BYTES, Line};

fn ra_count(crafts: &[CraftSpec]) -> usize
    ensures count { result ≡ kind_count is_ra crafts.now }
    ensures few { result ≤ length crafts.now }
{
    crafts
        .iter()
        .filter(|craft| matches!(craft.kind, Kind::Ra))
        .count()
}

fn ta_count(crafts: &[CraftSpec]) -> usize
    ensures count { result ≡ kind_count is_ta crafts.now }
    ensures few { result ≤ length crafts.now }
{
    crafts
        .iter()
        .filter(|craft| matches!(craft.kind, Kind::Ta))
        .count()
}

fn xpdr_count(crafts: &[CraftSpec]) -> usize
    ensures count { result ≡ kind_count is_xpdr crafts.now }
    ensures few { result ≤ length crafts.now }
{
    crafts
        .iter()
        .filter(|craft| matches!(craft.kind, Kind::Xpdr))
        .count()
}

// Adds how many aircraft are of each kind.
fn add_kinds(line: &mut Line, crafts: &[CraftSpec])
    requires room { length line.old + 50 ≤ LINE_BYTES }
    requires few { length crafts.now ≤ 16 }
    ensures added { line.new ≡ line.old ++ kinds_text crafts.now }
    ensures short { length line.new ≤ length line.old + 50 }
{
    line.u32(ra_count(crafts) as u32);
    line.text(" RA, ");
    line.u32(ta_count(crafts) as u32);
    line.text(" TA, ");
    line.u32(xpdr_count(crafts) as u32);
    line.text(" XPDR");
}

// Adds how many aircraft there are, and of which kinds.
fn add_crafts(line: &mut Line, crafts: &[CraftSpec])
    requires room { length line.old + 100 ≤ LINE_BYTES }
    requires few { length crafts.now ≤ 16 }
    ensures added { line.new ≡ line.old ++ crafts_text crafts.now }
    ensures short { length line.new ≤ length line.old + 100 }
{
    line.u32(crafts.len() as u32);
    line.text(" aircraft (");
    add_kinds(line, crafts);
    line.text("), ");
}

fn cycles_text(cycles: u16) -> &'static str
    ensures text { result.now ≡ cycles_text cycles }
    ensures short { length result.now ≤ 10 }
{
    if cycles == 1 { " cycle, " } else { " cycles, " }
}

// Adds how many cycles and how many records there are.
fn add_extent(line: &mut Line, cycles: u16, records: u32)
    requires { length line.old + 50 ≤ LINE_BYTES }
    ensures added { line.new ≡ line.old ++ extent_text cycles records }
    ensures short { length line.new ≤ length line.old + 50 }
{
    line.u16(cycles);
    line.text(cycles_text(cycles));
    line.u32(records);
    line.text(" records\n");
}

/// The line that says that nothing is wrong with a text that says an encounter: how many aircraft, of which kinds, how
/// many cycles, and how many records the text has. It begins with `what`, which tells what is read.
pub fn faultless_line(what: &str, encounter: &Encounter, text: &[u8]) -> Line
    requires few { length text.now < 2 ^ 32 - 1 }
    requires short { length what.now ≤ 20 }
    ensures { result ≡ faultless_line what.now encounter.now (length (records_of text.now)) }
{
    let crafts = encounter.crafts();
    let records = record_count(text);
    let cycles = encounter.cycles();
    let mut line = Line::new();
    line.text(what);
    add_crafts(&mut line, crafts);
    add_extent(&mut line, cycles, records);
    line
}
