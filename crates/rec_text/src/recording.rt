// Whole recordings.
ghost use Rattle.std.specs.Prelude.{◌≡◌};
ghost use Rattle.acas_io.specs.Stream.{Puts};
ghost use Rattle.rec_text.specs.Recording.{recording};

use crate::entries::put_entries;
use crate::report::{put_report, report_count};
use acas_io::{Failed, Sink};
use acas_lines::{LineSink, Text, count_line, fixed_line, write_text};
use air_journal::AirState;
use enc_file::CanonicalText;

/// What follows the entries in the recording of a state: how many lines the report has, these lines, and the close.
#[derive(Drop)]
pub struct Closing<'a>(pub &'a AirState);

impl Text for Closing<'_> {
    ghost use Rattle.rec_text.specs.Recording.{closing_lines};

    ghost lines = { λ c. closing_lines c.0.now.encounter c.0.now.journal };

    fn put<S: LineSink>(&self, sink: &mut S) {
        sink.line(&count_line("report", report_count(self.0)));
        put_report(self.0, sink);
        sink.line(&fixed_line("close\n"));
    }
}

/// The recording of a state as a text: a head; the canonical text of the encounter; the number of entries; the line of
/// each entry, in the order in which they were made; and the closing.
#[derive(Drop)]
pub struct Recording<'a>(pub &'a AirState);

impl Text for Recording<'_> {
    ghost use Rattle.rec_text.specs.Recording.{recording_lines};

    ghost lines = { λ r. recording_lines r.0.now.encounter r.0.now.journal };

    fn put<S: LineSink>(&self, sink: &mut S) {
        sink.line(&fixed_line("recording,1\n"));
        CanonicalText(self.0.enc()).put(sink);
        sink.line(&count_line("journal", self.0.count()));
        put_entries(self.0, sink);
        Closing(self.0).put(sink);
    }
}

/// Writes the recording of a state. It takes no memory.
///
/// `Failed` comes only where the sink's count of faults rose. Then a front of the text has been written.
pub fn write<K: Sink>(state: &AirState, sink: &mut K) -> Result<(), Failed>
    ensures { Puts (K.written sink.old) (K.written sink.new) (K.faults sink.old) (K.faults sink.new) (recording state.now.encounter state.now.journal) result }
{
    write_text(&Recording(state), sink)
}
