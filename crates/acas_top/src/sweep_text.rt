// The text of a sweep.
ghost use Rattle.std.specs.Prelude.{◌≡◌, ◌++◌, ◌∷◌, []};
ghost use Rattle.acas_top.specs.Sweeping.{number_line, number_lines, total_line};

use crate::counts::add_counts;
use crate::sweep_runs::Swept;
use acas_lines::{LineSink, Text, count_line};
use acas_text::Line;
use sweep::Counts;

fn number_line(number: u32, counts: &Counts) -> Line
    ensures { result ≡ number_line number counts.now }
{
    let mut line = Line::new();
    line.text("e");
    line.u32_field(number);
    line.text(",");
    add_counts(&mut line, counts);
    line
}

fn total_line(counts: &Counts) -> Line
    ensures { result ≡ total_line counts.now }
{
    let mut line = Line::new();
    line.text("total,");
    add_counts(&mut line, counts);
    line
}

// Puts a line for each number, from a first one on.
fn put_numbers<S: LineSink>(first: u32, list: &[Counts], sink: &mut S)
    ensures { S.took sink.old sink.new (number_lines first list.now) }
{
    let mut number = first;
    for at in 0..list.len() {
        sink.line(&number_line(number, &list[at]));
        number = number.wrapping_add(1);
    }
}

impl Text for Swept {
    ghost use Rattle.acas_top.specs.Sweeping.{swept_lines};

    ghost lines = { λ swept. swept_lines swept.first swept.count swept.list.items swept.total };

    fn put<S: LineSink>(&self, sink: &mut S) {
        sink.line(&count_line("sweep", u32::from(self.count)));
        put_numbers(self.first, &self.list, sink);
        sink.line(&total_line(&self.total));
    }
}
