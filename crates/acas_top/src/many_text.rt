// The text that tells what many encounters come to.
ghost use Rattle.std.specs.Prelude.{◌≡◌, ◌+◌, ◌<◌, ◌≤◌, ◌++◌, ◌∷◌, [], List, length};
ghost use Rattle.acas_top.specs.Many.{piece_line, piece_lines, sums_line, sums_of};
ghost use Rattle.acas_top.specs.declared.many.PieceRun.{PieceRun};
ghost use Rattle.outcomes.specs.Totals.{AreFew};

use crate::many::{Many, PieceRun};
use acas_lines::{LineSink, Text, count_line};
use acas_text::Line;
use outcomes::{Totals, add_piece};

/// How many pieces are refused, and how many of the others have something.
#[derive(Clone, Copy)]
pub(crate) struct Sums {
    pub(crate) refused: u32,
    pub(crate) totals: Totals,
}

// The sums of no piece.
fn no_sums() -> Sums
    ensures value { result ≡ sums_of [] }
    ensures few { AreFew result.totals }
{
    Sums {
        refused: 0,
        totals: Totals::none(),
    }
}

// The sums with one piece more.
fn sums_with(sums: Sums, it: &PieceRun) -> Sums
    requires few { AreFew sums.totals }
    requires refused { sums.refused < 4294967295 }
    requires runs { sums.totals.runs < 4294967295 }
    ensures value { (list : List PieceRun) → sums ≡ sums_of list → result ≡ sums_of (list ++ it.now ∷ []) }
    ensures few { AreFew result.totals }
    ensures refused { result.refused ≤ sums.refused + 1 }
    ensures runs { result.totals.runs ≤ sums.totals.runs + 1 }
{
    match it {
        PieceRun::Played(outcome) => Sums {
            refused: sums.refused,
            totals: sums.totals.with(outcome),
        },
        PieceRun::Faulty(_, _) => Sums {
            refused: sums.refused + 1,
            totals: sums.totals,
        },
    }
}

// The sums of all pieces.
fn sums_of(list: &[PieceRun]) -> Sums
    requires { length list.now ≤ 4096 }
    ensures { result ≡ sums_of list.now }
{
    let mut sums = no_sums();
    for at in 0..list.len() {
        sums = sums_with(sums, &list[at]);
    }
    sums
}

// The line of a piece.
fn piece_line(number: u32, it: &PieceRun) -> Line
    ensures { result ≡ piece_line number it.now }
{
    let mut line = Line::new();
    match it {
        PieceRun::Played(outcome) => {
            line.text("v,");
            line.u32(number);
            add_piece(&mut line, outcome);
        }
        PieceRun::Faulty(at, code) => {
            line.text("r,");
            line.u32(number);
            line.u32_field(*at);
            line.u32_field(u32::from(*code));
            line.text("\n");
        }
    }
    line
}

// The line of the sums.
fn sums_line(pieces: u32, sums: &Sums) -> Line
    ensures { result ≡ sums_line pieces sums.now }
{
    let mut line = Line::new();
    line.text("total");
    line.u32_field(pieces);
    line.u32_field(sums.refused);
    line.u32_field(sums.totals.advised);
    line.u32_field(sums.totals.turned);
    line.u32_field(sums.totals.reversed);
    line.u32_field(sums.totals.equal);
    line.text("\n");
    line
}

// Puts a line for each piece, in order.
fn put_pieces<S: LineSink>(list: &[PieceRun], sink: &mut S)
    requires { length list.now ≤ 4096 }
    ensures { S.took sink.old sink.new (piece_lines list.now) }
{
    for place in 0..list.len() {
        sink.line(&piece_line(place as u32 + 1, &list[place]));
    }
}

impl Text for Many {
    ghost use Rattle.acas_top.specs.Many.{many_lines};

    ghost lines = { many_lines };

    fn put<S: LineSink>(&self, sink: &mut S) {
        let list = self.list();
        let pieces = list.len() as u32;
        sink.line(&count_line("many", pieces));
        put_pieces(list, sink);
        sink.line(&sums_line(pieces, &sums_of(list)));
    }
}
