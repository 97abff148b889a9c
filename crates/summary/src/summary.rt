// The page.
ghost use Rattle.std.specs.Prelude.{◌≡◌};
ghost use Rattle.acas_io.specs.Stream.{Puts};
ghost use Rattle.summary.specs.Summary.{summary_text};

use crate::head::{Alone, Head};
use crate::page::Page;
use acas_io::{Failed, Sink};
use acas_lines::{LineSink, Text, write_text};
use air_journal::AirState;

/// The page of a state: the counts; and for each pair of aircraft of which one has traffic or advice against the other
/// one, how near they come as planned and with the modelled response, the stretches of each with what began them, and
/// the cycles in which both had one sense. Pairs with advice come first, then the nearest ones. Where there are none,
/// the page names the nearest pair.
#[derive(Drop)]
pub struct Summary<'a>(pub &'a AirState);

impl Text for Summary<'_> {
    ghost use Rattle.summary.specs.Summary.{summary_lines};

    ghost lines = { λ s. summary_lines s.0.now.encounter s.0.now.journal };

    fn put<S: LineSink>(&self, sink: &mut S) {
        Head(self.0).put(sink);
        Alone(self.0.enc().crafts().len()).put(sink);
        Page::new(self.0).put(sink);
    }
}

/// Writes the [`Summary`] of a state. It takes no memory.
///
/// `Failed` comes only where the sink's count of faults rose; what was written then is a front of the text.
pub fn write<K: Sink>(state: &AirState, sink: &mut K) -> Result<(), Failed>
    ensures { Puts (K.written sink.old) (K.written sink.new) (K.faults sink.old) (K.faults sink.new) (summary_text state.now.encounter state.now.journal) result }
{
    write_text(&Summary(state), sink)
}
