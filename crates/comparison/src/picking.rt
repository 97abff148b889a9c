// One line of many.
ghost use Rattle.std.specs.Prelude.{◌≡◌};
ghost use Rattle.comparison.specs.Sides.{told};
ghost use Rattle.comparison.specs.Texts.{picked};

use crate::sides::{Side, put_told};
use acas_lines::{LineSink, Text};
use acas_text::Line;

// Hands on one of the lines that it takes, behind the word of a side: the one before which so many stand. None is
// looked for any more once it was there.
#[derive(Drop)]
struct Picking<'a, S: LineSink> {
    sink: &'a mut S,
    side: Side,
    before: Option<usize>,
}

impl<S: LineSink> LineSink for Picking<'_, S> {
    ghost use Rattle.std.specs.Prelude.{◌≡◌, refl};
    ghost use Rattle.std.proofs.Common.{◌∙◌};
    ghost use Rattle.comparison.specs.Picks.{Picks, picks-nothing, picks-then};

    ghost took = { λ a b lines. (b.sink.ghost_name ≡ a.sink.ghost_name) × Picks (S.took a.sink.now b.sink.now) a.side b.side a.before b.before lines };

    ghost nothing = { λ a. (refl, picks-nothing (S.took a.sink.now a.sink.now) a.side a.before (S.nothing a.sink.now)) };

    ghost then = { λ a b c xs ys g h.
        (h.0 ∙ g.0, picks-then (S.took a.sink.now b.sink.now) (S.took b.sink.now c.sink.now) (S.took a.sink.now c.sink.now) (S.then a.sink.now b.sink.now c.sink.now) a.side b.side c.side a.before b.before c.before xs ys g.1 h.1) };

    fn line(&mut self, line: &Line) {
        match self.before {
            None => {}
            Some(0) => {
                put_told(self.side, line, self.sink);
                self.before = None;
            }
            Some(before) => self.before = Some(before - 1),
        }
    }
}

/// Puts one line of a text, behind the word of a side: the one before which so many stand, where there is one.
pub(crate) fn put_picked<T: Text, S: LineSink>(side: Side, before: usize, text: &T, sink: &mut S)
    ensures { S.took sink.old sink.new (told side (picked (Some before) (T.lines text.now))) }
{
    let mut picking = Picking {
        sink,
        side,
        before: Some(before),
    };
    text.put(&mut picking);
}
