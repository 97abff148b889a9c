// The line of a text at a place.
ghost use Rattle.std.specs.Prelude.{◌≡◌, option_map, slice_get, take};
ghost use Rattle.verdict_text.specs.declared.wanted.TheConstants.{WANTED_BYTES};

use acas_lines::{LineSink, Text};
use acas_text::Line;
use verdict_text::Wanted;

// Keeps one line of those that it takes. So many lines come before it.
#[derive(Drop)]
struct Pick {
    before: u32,
    found: Option<Wanted>,
}

impl LineSink for Pick {
    ghost use Rattle.rec_audit.specs.Picking.{Picks, picks-nothing, picks-then};

    ghost took = { λ a b lines. Picks a.before b.before a.found b.found lines };

    ghost nothing = { λ a. picks-nothing a.before a.found };

    ghost then = { λ a b c xs ys g h. picks-then a.before b.before c.before a.found b.found c.found xs ys g h };

    fn line(&mut self, line: &Line) {
        match self.found {
            Some(_) => {}
            None => if self.before == 0 {
                self.found = Some(Wanted::of(line));
            } else {
                self.before -= 1;
            },
        }
    }
}

/// The line of a text at a place, from 0; none where the text has no line there.
pub(crate) fn line_of_text<T: Text>(text: &T, place: u32) -> Option<Wanted>
    ensures { result ≡ option_map (take WANTED_BYTES) (slice_get (T.lines text.now) place) }
{
    let mut pick = Pick {
        before: place,
        found: None,
    };
    text.put(&mut pick);
    pick.found
}
