// The text of the modelled response.
ghost use Rattle.std.specs.Prelude.{◌≡◌};
ghost use Rattle.acas_io.specs.Stream.{Puts};
ghost use Rattle.response.specs.Response.{response_text};

use crate::pairs::{Pairs, count_pairs};
use acas_io::{Failed, Sink};
use acas_lines::{LineSink, Text, count_line, write_text};
use air_journal::AirState;

/// The modelled response of a state: how many pairs of aircraft there are of which one has a resolution advisory
/// against the other in some commit, and a line for each, by lower and by higher index:
/// `p,ADDRESS,ADDRESS,CYCLE,PLANNED,FLOWN`. CYCLE is the first cycle in which their slant range is least, as planned;
/// PLANNED and FLOWN are how far apart their altitudes are in it, as planned and by [`crate::flown`], in ft and rounded
/// down (this project's profile).
#[derive(Drop)]
pub struct Response<'a>(pub &'a AirState);

impl Text for Response<'_> {
    ghost use Rattle.response.specs.Response.{response_lines};

    ghost lines = { λ r. response_lines r.0.now.encounter r.0.now.journal };

    fn put<S: LineSink>(&self, sink: &mut S) {
        sink.line(&count_line("response", count_pairs(self.0)));
        Pairs(self.0).put(sink);
    }
}

/// Writes the [`Response`] of a state. It takes no memory.
///
/// `Failed` comes only where the sink's count of faults rose; what was written then is a front of the text.
pub fn write<K: Sink>(state: &AirState, sink: &mut K) -> Result<(), Failed>
    ensures { Puts (K.written sink.old) (K.written sink.new) (K.faults sink.old) (K.faults sink.new) (response_text state.now.encounter state.now.journal) result }
{
    write_text(&Response(state), sink)
}
