// What a stretch shows, and what began it.
ghost use Rattle.std.specs.Prelude.{◌≡◌, ◌+◌, ◌<◌, ◌≤◌, ◌^◌, ◌++◌, codes, length, unsigned_abs};
ghost use Rattle.advisory_report.specs.Composite.{word_of};
ghost use Rattle.acas_text.specs.declared.line.TheConstants.{LINE_BYTES};
ghost use Rattle.air_journal.specs.EntryRefs.{entry_of};
ghost use Rattle.air_rules.specs.Journal.{as_sent};
ghost use Rattle.summary.specs.Lines.{advice_word, begun_text, by_message, change_text, crossing_text, distance_text, flight_text, has_alone, is_behind, is_reversed, message_text, notes, number_at, number_of, shown_text, stretch_text};

use crate::fields::{add_cycles, add_word};
use crate::told::Told;
use acas_base::{Address, Cell, Intent, Sense, Strength};
use acas_text::Line;
use advisory_report::{Composite, word};
use air_journal::{AirState, EntryRef};

/// A stretch: its first and its last cycle, the cell before it, its first cell, the message in force at its beginning,
/// and of its last cycle what is shown and by how much the modelled altitude is above the planned one, in 1/2048 ft.
#[derive(Clone, Copy)]
pub(crate) struct Stretch {
    pub first: u16,
    pub last: u16,
    pub before: Cell,
    pub cell: Cell,
    pub told: Option<Told>,
    pub composite: Composite,
    pub above: i32,
}

// ---- what began it

// The number of the message that an entry sends.
fn number_of(entry: &EntryRef<'_>) -> u16
    ensures { result ≡ number_of (as_sent (entry_of entry.now)) }
{
    match *entry {
        EntryRef::Send { number, .. } => number,
        EntryRef::Commit { .. } | EntryRef::Take { .. } => 0,
    }
}

// The number of the message that was sent at a position.
fn number_at(state: &AirState, position: u32) -> u16
    ensures { result ≡ number_at state.now.journal position }
{
    match state.entry_ref(position) {
        Some(entry) => number_of(&entry),
        None => 0,
    }
}

// Adds a message: its number, its sender, and the positions of its send and of its take.
fn add_message(line: &mut Line, number: u16, sender: Address, told: Told)
    requires { length line.old + 60 ≤ LINE_BYTES }
    ensures added { line.new ≡ line.old ++ message_text number sender told }
    ensures short { length line.new ≤ length line.old + 60 }
{
    line.text("message ");
    line.u16(number);
    line.text(" of ");
    line.address(sender.value());
    line.text(", positions ");
    line.u32(told.sent_at);
    line.text(" and ");
    line.u32(told.taken_at);
}

// Adds these words and a message, where there is one.
fn add_by_message(
    line: &mut Line,
    state: &AirState,
    sender: Address,
    words: &str,
    told: Option<Told>,
)
    requires words { length words.now ≤ 20 }
    requires room { length line.old + 80 ≤ LINE_BYTES }
    ensures added { line.new ≡ line.old ++ by_message words.now state.now.journal sender told }
    ensures short { length line.new ≤ length line.old + 80 }
{
    if let Some(told) = told {
        line.text(words);
        add_message(line, number_at(state, told.sent_at), sender, told);
    }
}

fn is_reversed(before: &Intent, now: &Intent) -> bool
    ensures { result ≡ is_reversed before.now now.now }
{
    now.turned && !before.turned
}

// Adds what began an advisory after another one.
fn add_change(
    line: &mut Line,
    state: &AirState,
    sender: Address,
    before: &Intent,
    now: &Intent,
    told: Option<Told>,
)
    requires { length line.old + 110 ≤ LINE_BYTES }
    ensures added { line.new ≡ line.old ++ change_text before.now now.now (by_message (codes " by ") state.now.journal sender told) }
    ensures short { length line.new ≤ length line.old + 110 }
{
    if before.sense == now.sense {
        if before.strength.place() < now.strength.place() {
            line.text("stronger");
        } else {
            line.text("weaker");
        }
        return;
    }
    if is_reversed(before, now) {
        line.text("REVERSED by the flight");
        return;
    }
    line.text("TURNED");
    add_by_message(line, state, sender, " by ", told);
}

// Adds what began an advisory.
fn add_begun(
    line: &mut Line,
    state: &AirState,
    sender: Address,
    before: Cell,
    now: &Intent,
    told: Option<Told>,
)
    requires { length line.old + 110 ≤ LINE_BYTES }
    ensures added { line.new ≡ line.old ++ begun_text state.now.journal sender before now.now told }
    ensures short { length line.new ≤ length line.old + 110 }
{
    match before {
        Cell::Ra(before) => add_change(line, state, sender, &before, now, told),
        Cell::Clear | Cell::Traffic => {
            line.text("new");
            add_by_message(line, state, sender, ", as told by ", told);
        }
    }
}

fn crossing_text(crossing: bool) -> &'static str
    ensures text { result.now ≡ crossing_text crossing }
    ensures short { length result.now ≤ 10 }
{
    if crossing { "; crossing" } else { "" }
}

// ---- how the flight stood to it

fn has_alone(sense: Sense, composite: &Composite) -> bool
    ensures { result ≡ has_alone sense composite.now }
{
    match sense {
        Sense::Up => composite.up.is_some() && !composite.down.is_some(),
        Sense::Down => composite.down.is_some() && !composite.up.is_some(),
    }
}

fn is_behind(sense: Sense, above: i32) -> bool
    ensures { result ≡ is_behind sense above }
{
    match sense {
        Sense::Up => 0 < above,
        Sense::Down => above < 0,
    }
}

fn add_distance(line: &mut Line, behind: bool, feet: u32)
    requires { length line.old + 60 ≤ LINE_BYTES }
    ensures added { line.new ≡ line.old ++ distance_text behind feet }
    ensures short { length line.new ≤ length line.old + 60 }
{
    if feet <= 25 {
        line.text("; as modelled");
        return;
    }
    line.text("; ");
    line.u32(feet);
    if behind {
        line.text(" ft behind the modelled response");
    } else {
        line.text(" ft beyond the modelled response");
    }
}

fn add_flight(line: &mut Line, sense: Sense, composite: &Composite, above: i32)
    requires { length line.old + 60 ≤ LINE_BYTES }
    ensures added { line.new ≡ line.old ++ flight_text sense composite.now above }
    ensures short { length line.new ≤ length line.old + 60 }
{
    if has_alone(sense, composite) {
        add_distance(line, is_behind(sense, above), above.unsigned_abs() / 2048);
    }
}

// ---- all of it

// The composite with this advice alone, whose word is told.
fn advising(sense: Sense, strength: Strength) -> Composite
    ensures { word_of result ≡ advice_word sense strength }
{
    match sense {
        Sense::Up => Composite {
            up: Some(strength),
            ..Composite::clear()
        },
        Sense::Down => Composite {
            down: Some(strength),
            ..Composite::clear()
        },
    }
}

fn advice_word(sense: Sense, strength: Strength) -> &'static str
    ensures text { result.now ≡ advice_word sense strength }
    ensures short { length result.now ≤ 13 }
{
    word(&advising(sense, strength))
}

// Adds what began an advisory, whether it crosses, and how the flight stood to it.
fn add_notes(line: &mut Line, state: &AirState, sender: Address, it: &Stretch, now: &Intent)
    requires { length line.old + 190 ≤ LINE_BYTES }
    ensures added { line.new ≡ line.old ++ notes state.now.journal sender it.now now.now }
    ensures short { length line.new ≤ length line.old + 190 }
{
    line.text("  ");
    add_begun(line, state, sender, it.before, now, it.told);
    line.text(crossing_text(now.crossing));
    add_flight(line, now.sense, &it.composite, it.above);
}

// Adds what a stretch shows.
fn add_shown(line: &mut Line, state: &AirState, sender: Address, it: &Stretch)
    requires { length line.old + 210 ≤ LINE_BYTES }
    ensures added { line.new ≡ line.old ++ shown_text state.now.journal sender it.now it.now.cell }
    ensures short { length line.new ≤ length line.old + 210 }
{
    match it.cell {
        Cell::Clear => {}
        Cell::Traffic => line.text("TRAFFIC"),
        Cell::Ra(now) => {
            add_word(line, advice_word(now.sense, now.strength));
            add_notes(line, state, sender, it, &now);
        }
    }
}

/// The line of a stretch against an aircraft of this address.
pub(crate) fn stretch_text(state: &AirState, sender: Address, it: &Stretch) -> Line
    ensures { result ≡ stretch_text state.now.journal sender it.now }
{
    let mut line = Line::new();
    line.text("    ");
    add_cycles(&mut line, it.first, it.last);
    line.text("  ");
    add_shown(&mut line, state, sender, it);
    line.text("\n");
    line
}
