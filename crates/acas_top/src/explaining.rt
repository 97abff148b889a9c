// What is told of an input in which nothing is wrong.
ghost use Rattle.std.specs.Prelude.{◌≡◌, ◌-◌, ◌≤◌, ◌<◌, ◌^◌, length};
ghost use Rattle.acas_top.specs.Answers.{read_as};
ghost use Rattle.acas_top.specs.Explaining.{entries_text, legal_line, right_tracks_line};
ghost use Rattle.enc_file.specs.Records.{records_of};
ghost use Rattle.flight.specs.Inside.{IsInside};

use acas_base::Encounter;
use acas_lines::{LineSink, Text};
use acas_text::Line;
use deliveries::Deliveries;
use fault_text::{begins_recording, begins_tracks, faultless_line};
use idle_notes::Notes;
use std::marker::Model;

/// What bytes are read as.
#[derive(Clone, Copy)]
pub(crate) enum Subject {
    Encounter,
    Recording,
    Tracks,
}

/// What bytes are read as: their beginning tells.
pub(crate) fn read_as(bytes: &[u8]) -> Subject
    ensures { result ≡ read_as bytes.now }
{
    if begins_recording(bytes) {
        return Subject::Recording;
    }
    if begins_tracks(bytes) {
        return Subject::Tracks;
    }
    Subject::Encounter
}

/// The line that says that nothing is wrong with a text of tracks, along which the aircraft of an encounter fly.
pub(crate) fn right_tracks_line(encounter: &Encounter, text: &[u8]) -> Line
    requires { length text.now < 2 ^ 32 - 1 }
    ensures { result ≡ right_tracks_line encounter.now (length (records_of text.now)) }
{
    faultless_line("tracks: ", encounter, text)
}

/// An encounter in which nothing is wrong, with the text that says it.
#[derive(Drop)]
pub(crate) struct RightEncounter {
    text: Vec<u8>,
    encounter: Encounter,
}

impl Model for RightEncounter {
    ghost use Rattle.std.specs.Prelude.{◌-◌, ◌<◌, ◌^◌, length};
    ghost use Rattle.acas_top.specs.Explaining.{EncounterFile};
    ghost use Rattle.flight.specs.Inside.{IsInside};

    ghost Value = { EncounterFile };

    ghost view = { λ right. record { text = right.text.items; encounter = right.encounter } };

    ghost invariant = { λ right. (length right.text.items < 2 ^ 32 - 1) × IsInside right.encounter };
}

impl RightEncounter {
    pub(crate) fn new(text: Vec<u8>, encounter: Encounter) -> RightEncounter
        requires few { length text.items < 2 ^ 32 - 1 }
        requires inside { IsInside encounter }
        ensures { result ≡ record { text = text.items; encounter = encounter } }
    {
        RightEncounter { text, encounter }
    }
}

impl Text for RightEncounter {
    ghost use Rattle.acas_top.specs.Explaining.{right_encounter_lines};

    ghost lines = { right_encounter_lines };

    fn put<S: LineSink>(&self, sink: &mut S) {
        let text = self.text.as_slice();
        sink.line(&faultless_line("encounter: ", &self.encounter, text));
        Notes::of_encounter(text, &self.encounter).put(sink);
    }
}

fn entries_text(entries: u32) -> &'static str
    ensures text { result.now ≡ entries_text entries }
    ensures short { length result.now ≤ 10 }
{
    if entries == 1 {
        " entry\n"
    } else {
        " entries\n"
    }
}

// The line that says that nothing is wrong with a recording.
fn legal_line(entries: u32) -> Line
    ensures { result ≡ legal_line entries }
{
    let mut line = Line::new();
    line.text("recording: legal, ");
    line.u32(entries);
    line.text(entries_text(entries));
    line
}

/// A recording in which nothing is wrong, with its text.
#[derive(Drop)]
pub(crate) struct RightRecording {
    text: Vec<u8>,
    deliveries: Deliveries,
}

impl Model for RightRecording {
    ghost use Rattle.std.specs.Prelude.{◌-◌, ◌<◌, ◌^◌, length};
    ghost use Rattle.acas_top.specs.Explaining.{RecordingFile};

    ghost Value = { RecordingFile };

    ghost view = { λ right. record { text = right.text.items; state = right.deliveries } };

    ghost invariant = { λ right. length right.text.items < 2 ^ 32 - 1 };
}

impl RightRecording {
    pub(crate) fn new(text: Vec<u8>, deliveries: Deliveries) -> RightRecording
        requires { length text.items < 2 ^ 32 - 1 }
        ensures { result ≡ record { text = text.items; state = deliveries } }
    {
        RightRecording { text, deliveries }
    }
}

impl Text for RightRecording {
    ghost use Rattle.acas_top.specs.Explaining.{right_recording_lines};

    ghost lines = { right_recording_lines };

    fn put<S: LineSink>(&self, sink: &mut S) {
        sink.line(&legal_line(self.deliveries.state().count()));
        Notes::of_recording(self.text.as_slice(), &self.deliveries).put(sink);
    }
}
