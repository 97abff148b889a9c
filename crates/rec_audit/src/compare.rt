// Texts that are made again, and compared with the lines that come.
ghost use Rattle.std.specs.Prelude.{MatchBool};
ghost use Rattle.rec_audit.specs.Cursors.{Compares, StoppedIn, Took};

use crate::lines::TextLines;
use acas_lines::{LineSink, Text};
use acas_text::Line;

// Compares the lines that it takes with those that come. It stays at the first line that differs.
#[derive(Drop)]
struct Comparison<'a> {
    lines: TextLines<'a>,
    differs: bool,
}

impl LineSink for Comparison<'_> {
    ghost use Rattle.rec_audit.specs.Compared.{compares-nothing, compares-then};
    ghost use Rattle.rec_audit.specs.Cursors.{Compares};

    ghost took = { λ a b lines. Compares a.lines b.lines a.differs b.differs lines };

    ghost nothing = { λ a. compares-nothing a.lines a.differs };

    ghost then = { λ a b c xs ys g h. compares-then a.lines b.lines c.lines a.differs b.differs c.differs xs ys g h };

    fn line(&mut self, line: &Line) {
        if !self.differs {
            self.differs = !self.lines.take_line(line.bytes());
        }
    }
}

/// Takes the lines of a text where they come next. Else it takes the lines before the first one that differs or is
/// missing.
pub(crate) fn take_text<T: Text>(text: &T, lines: &mut TextLines<'_>) -> bool
    ensures { MatchBool result (Took lines.old lines.new (T.lines text.now)) (StoppedIn lines.old lines.new (T.lines text.now)) }
{
    let mut comparison = Comparison {
        lines: lines.again(),
        differs: false,
    };
    text.put(&mut comparison);
    *lines = comparison.lines;
    !comparison.differs
}
