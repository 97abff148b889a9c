// The text of `sum`.
ghost use Rattle.std.specs.Prelude.{◌≡◌};
ghost use Rattle.acas_top.specs.Summing.{serial_line, summed_lines};

use crate::counts::add_counts;
use acas_lines::{LineSink, count_line};
use acas_text::Line;
use sweep::Counts;

fn serial_line(counts: &Counts) -> Line
    ensures { result ≡ serial_line counts.now }
{
    let mut line = Line::new();
    line.text("serial,");
    add_counts(&mut line, counts);
    line
}

/// Puts two lines: the commits of a run in threads, and the counts of the serial run.
pub(crate) fn put_summed<S: LineSink>(commits: u32, counts: &Counts, sink: &mut S)
    ensures { S.took sink.old sink.new (summed_lines commits counts.now) }
{
    sink.line(&count_line("play", commits));
    sink.line(&serial_line(counts));
}
