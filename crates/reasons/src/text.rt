// The text of the reasons of a state.
ghost use Rattle.acas_io.specs.Stream.{Puts};
ghost use Rattle.reasons.specs.Reasons.{reasons_text};

use crate::columns::names_line;
use crate::commits::{put_commits, reason_count};
use acas_io::{Failed, Sink};
use acas_lines::{LineSink, Text, count_line, write_text};
use air_journal::AirState;

/// The reasons of the cells of a state: how many lines follow the names of the columns; these names; and a line for
/// each commit, by position, and each other aircraft, by index.
#[derive(Drop)]
pub struct Reasons<'a>(pub &'a AirState);

impl Text for Reasons<'_> {
    ghost use Rattle.reasons.specs.Reasons.{reasons_lines};

    ghost lines = { λ r. reasons_lines r.0.now.encounter r.0.now.journal };

    fn put<S: LineSink>(&self, sink: &mut S) {
        sink.line(&count_line("why", reason_count(self.0)));
        sink.line(&names_line(self.0.enc().profile()));
        put_commits(self.0, sink);
    }
}

/// Writes the reasons of a state. It takes no memory.
///
/// `Failed` comes only where the sink's count of faults rose; what was written then is a front of the text.
pub fn write<K: Sink>(state: &AirState, sink: &mut K) -> Result<(), Failed>
    ensures { Puts (K.written sink.old) (K.written sink.new) (K.faults sink.old) (K.faults sink.new) (reasons_text state.now.encounter state.now.journal) result }
{
    write_text(&Reasons(state), sink)
}
