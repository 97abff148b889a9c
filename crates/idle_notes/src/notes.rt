// The notes of a file, as lines.
ghost use Rattle.std.specs.Prelude.{◌≡◌, ◌+◌, ◌-◌, ◌<◌, ◌≤◌, ◌^◌, ◌∷◌, [], Some, None, length, map, option_to_list};
ghost use Rattle.fault_text.specs.Lines.{fields_in, file_lines};
ghost use Rattle.fault_text.specs.Told.{stated_kind};
ghost use Rattle.flight.specs.Inside.{IsInside};
ghost use Rattle.idle_notes.specs.Noted.{craft_notes, kind_notes};
ghost use Rattle.idle_notes.specs.Sentences.{sentence};
ghost use Rattle.idle_notes.specs.Sources.{encounter_in, journal_in};
ghost use Rattle.idle_notes.specs.Told.{AreFirsts, line_notes, more_lines, still_told};

use crate::fates::first_fates;
use crate::note::Note;
use crate::noted::{alone_note, ground_note, low_note, record_note};
use crate::source::Source;
use acas_base::{Encounter, PAIRS};
use acas_lines::{LineSink, Text};
use acas_text::Line;
use deliveries::Deliveries;
use fault_text::{FileLines, RecordKind, field, kind_of};
use itoa::Buffer;
use std::marker::Model;

// How many notes are told.
const MOST_TOLD: u64 = 40;

/// What has no effect in a file that is right, and what an aircraft of it can't do: a line each, in the order of the
/// file's lines, and at most 40. Where there are more, a line says how many more there are.
#[derive(Drop)]
pub struct Notes<'a> {
    text: &'a [u8],
    source: Source<'a>,
    firsts: [Option<u16>; PAIRS],
}

impl<'a> Model for Notes<'a> {
    ghost use Rattle.std.specs.Prelude.{◌<◌, ◌-◌, ◌^◌, length};
    ghost use Rattle.flight.specs.Inside.{IsInside};
    ghost use Rattle.idle_notes.specs.Sources.{Read, encounter_in, journal_in};
    ghost use Rattle.idle_notes.specs.Told.{AreFirsts};

    ghost Value = { Read };

    ghost view = { λ n. record { text = n.text.now; encounter = encounter_in n.source; journal = journal_in n.source } };

    ghost invariant = { λ n. (length n.text.now < 2 ^ 32 - 1) × IsInside (encounter_in n.source) × AreFirsts (encounter_in n.source) (journal_in n.source) n.firsts };
}

impl<'a> Notes<'a> {
    /// Those of the text of an encounter, and of the encounter that it says.
    pub fn of_encounter(text: &'a [u8], encounter: &'a Encounter) -> Notes<'a>
        requires few { length text.now < 2 ^ 32 - 1 }
        requires inside { IsInside encounter.now }
        ensures { result ≡ record { text = text.now; encounter = encounter.now; journal = None } }
    {
        let source = Source::Encounter(encounter);
        let firsts = first_fates(&source);
        Notes {
            text,
            source,
            firsts,
        }
    }

    /// Those of a recording, and of what became of its messages. Fates of messages that its journal doesn't send have
    /// no effect.
    pub fn of_recording(text: &'a [u8], deliveries: &'a Deliveries) -> Notes<'a>
        requires { length text.now < 2 ^ 32 - 1 }
        ensures { result ≡ record { text = text.now; encounter = deliveries.now.encounter; journal = Some deliveries.now.journal } }
    {
        deliveries.state().legal_law();
        let source = Source::Recording(deliveries);
        let firsts = first_fates(&source);
        Notes {
            text,
            source,
            firsts,
        }
    }
}

impl<'a> Notes<'a> {
    // The lines of the file.
    fn lines(&self) -> FileLines<'a>
        ensures lines { result ≡ file_lines self.now.text }
        ensures few { length result < 2 ^ 32 - 1 }
    {
        FileLines::of(self.text)
    }
}

// Puts a note, where it is there and not too many were told before it. Gives how many there are with it.
fn tell<S: LineSink>(told: u64, number: u32, note: Option<Note>, sink: &mut S) -> u64
    requires { told < 2 ^ 64 - 1 }
    ensures count { result ≡ told + length (option_to_list note) }
    ensures lines { S.took sink.old sink.new (still_told told (map (sentence number) (option_to_list note))) }
{
    match note {
        Some(note) => {
            if told < MOST_TOLD {
                sink.line(&note.sentence(number));
            }
            told + 1
        }
        None => told,
    }
}

// Puts the notes of an aircraft.
fn tell_craft<S: LineSink>(
    encounter: &Encounter,
    line: &[u8],
    told: u64,
    number: u32,
    sink: &mut S,
) -> u64
    requires few { told < 2 ^ 64 - 3 }
    requires inside { IsInside encounter.now }
    ensures count { result ≡ told + length (craft_notes encounter.now (fields_in line.now)) }
    ensures most { result ≤ told + 3 }
    ensures lines { S.took sink.old sink.new (still_told told (map (sentence number) (craft_notes encounter.now (fields_in line.now)))) }
{
    let after_low = tell(told, number, low_note(encounter, line), sink);
    let after_alone = tell(after_low, number, alone_note(encounter, line), sink);
    tell(after_alone, number, ground_note(encounter, line), sink)
}

// Puts the notes of a record of a kind.
fn tell_kind<S: LineSink>(
    notes: &Notes<'_>,
    kind: RecordKind,
    line: &[u8],
    told: u64,
    number: u32,
    sink: &mut S,
) -> u64
    requires { told < 2 ^ 64 - 3 }
    ensures count { result ≡ told + length (kind_notes notes.now.encounter notes.now.journal (stated_kind kind) (fields_in line.now)) }
    ensures most { result ≤ told + 3 }
    ensures lines { S.took sink.old sink.new (still_told told (map (sentence number) (kind_notes notes.now.encounter notes.now.journal (stated_kind kind) (fields_in line.now)))) }
{
    match kind {
        RecordKind::Craft => tell_craft(notes.source.encounter(), line, told, number, sink),
        RecordKind::Run
        | RecordKind::Gains
        | RecordKind::Profile
        | RecordKind::Name
        | RecordKind::Clock
        | RecordKind::Call
        | RecordKind::Climb
        | RecordKind::Leg
        | RecordKind::Miss
        | RecordKind::Plan
        | RecordKind::Fate
        | RecordKind::End => {
            let note = record_note(&notes.source, &notes.firsts, kind, line);
            tell(told, number, note, sink)
        }
    }
}

// Puts the notes of a line of the file.
fn tell_line<S: LineSink>(
    notes: &Notes<'_>,
    line: &[u8],
    told: u64,
    number: u32,
    sink: &mut S,
) -> u64
    requires { told < 2 ^ 64 - 3 }
    ensures count { result ≡ told + length (line_notes notes.now.encounter notes.now.journal number line.now) }
    ensures most { result ≤ told + 3 }
    ensures lines { S.took sink.old sink.new (still_told told (line_notes notes.now.encounter notes.now.journal number line.now)) }
{
    match kind_of(2, field(line, 0)) {
        Some(kind) => tell_kind(notes, kind, line, told, number, sink),
        None => told,
    }
}

// The line of how many notes aren't told.
fn more_line(more: u64) -> Line
    requires { 1 ≤ more }
    ensures { more_lines more ≡ result ∷ [] }
{
    let mut digits = Buffer::new();
    let mut line = Line::new();
    line.text("and ");
    line.text(digits.format(more));
    line.text(" more\n");
    line
}

fn put_more<S: LineSink>(told: u64, sink: &mut S)
    ensures { S.took sink.old sink.new (more_lines (told - 40)) }
{
    if told > MOST_TOLD {
        sink.line(&more_line(told - MOST_TOLD));
    }
}

impl Text for Notes<'_> {
    ghost use Rattle.idle_notes.specs.Told.{notes_text_lines};

    ghost lines = { λ n. notes_text_lines n.text n.encounter n.journal };

    fn put<S: LineSink>(&self, sink: &mut S) {
        let mut lines = self.lines();
        let mut number = 1;
        let mut told = 0;
        while let Some(line) = lines.next() {
            told = tell_line(self, line, told, number, sink);
            number += 1;
        }
        put_more(told, sink);
    }
}
