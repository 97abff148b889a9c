// How many lines a text has.
ghost use Rattle.std.specs.Prelude.{◌≡◌, ◌<◌, ◌^◌, length};

use crate::{LineSink, Text};
use acas_text::Line;

// How many lines were put. The count is of 32 bits.
#[derive(Drop)]
struct LineCount {
    lines: u32,
}

impl LineSink for LineCount {
    ghost use Rattle.std.specs.Prelude.{◌≡◌, refl};
    ghost use Rattle.std.proofs.Common.{◌∙◌, ap};
    ghost use Rattle.acas_lines.specs.Counting.{counted, counted-append};

    ghost took = { λ a b lines. b.lines ≡ counted a.lines lines };

    fn line(&mut self, _: &Line) {
        self.lines = self.lines.saturating_add(1);
    }

    ghost nothing = { λ _. refl };

    ghost then = { λ a b c xs ys g h. h ∙ ap (λ n. counted n ys) g ∙ counted-append a.lines xs ys };
}

/// How many lines a text has, where they are fewer than 2^32. A text that begins with the number of its lines needs it
/// before the first line. It makes all lines, and takes no memory.
pub fn count_lines<T: Text>(text: &T) -> u32
    ensures { length (T.lines text.now) < 2 ^ 32 → result ≡ length (T.lines text.now) }
{
    let mut count = LineCount { lines: 0 };
    text.put(&mut count);
    count.lines
}
