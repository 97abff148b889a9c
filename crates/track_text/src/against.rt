// What is wrong with a record of tracks after those before it.
ghost use Rattle.std.specs.Prelude.{◌≡◌, ◌≤◌, ◌<◌, ◌-◌, ◌+◌, ◌^◌, length};
ghost use Rattle.enc_file.specs.declared.refusal.Code.TheVariants as code;
ghost use Rattle.fault_text.specs.Lines.{fields_in, file_lines, written};
ghost use Rattle.track_text.specs.Kinds.{IsLineKind, stated_line};
ghost use Rattle.track_text.specs.Told.{IsAgainst, TellsEarlier, ms_in};
ghost use Rattle.track_text.specs.declared.kinds.LineKind.TheVariants as of;
ghost use Rattle.track_text.specs.declared.kinds.OwnKind.TheVariants as own;

use crate::kinds::{LineKind, OwnKind, format_of};
use crate::refusal::Refusal;
use crate::why::TrackWhy;
use acas_base::Address;
use enc_file::{Code, address_in, number_in};
use fault_text::{
    FieldName, LineTest, RecordKind, Why, end_why, field, last_before, repeat_why, stranger,
    unknown_why,
};

// The points of the aircraft with an address.
#[derive(Drop)]
struct PointOf {
    address: Address,
}

impl LineTest for PointOf {
    ghost use Rattle.fault_text.specs.Lines.{fields_in};
    ghost use Rattle.track_text.specs.Points.{row_point_of};

    ghost holds = { λ p line. row_point_of p.address (fields_in line) };

    fn is_passed(&self, line: &[u8]) -> bool {
        if field(line, 0) != b"at".as_slice() {
            return false;
        }
        match address_in(field(line, 1)) {
            Some(other) => other == self.address,
            None => false,
        }
    }
}

// The number of milliseconds that a field says.
fn ms_in(found: &[u8]) -> Option<i32>
    ensures { result ≡ ms_in found.now }
{
    number_in(found, -1_000_000, 1_000_000)
}

// The point that a point doesn't come after.
fn late_why(text: &[u8], refusal: Refusal, line: &[u8]) -> TrackWhy<'static>
    requires few { length text.now < 2 ^ 32 - 1 }
    requires against { IsAgainst text.now refusal code.Repeat (stated_line (of.Own own.Point)) line.now }
    ensures { TellsEarlier text.now refusal code.Repeat (of.Own own.Point) line.now result }
{
    let Some(address) = address_in(field(line, 1)) else {
        unreachable!();
    };
    let Some(found) = ms_in(field(line, 2)) else {
        unreachable!();
    };
    let Some(place) = last_before(text, refusal.at, &PointOf { address }) else {
        unreachable!();
    };
    let Some(reached) = ms_in(field(place.line, 2)) else {
        unreachable!();
    };
    TrackWhy::NotAbove {
        found,
        reached,
        line: place.number,
    }
}

// Which earlier record a record repeats, or doesn't come after.
fn again_why<'a>(text: &[u8], refusal: Refusal, kind: LineKind, line: &'a [u8]) -> TrackWhy<'a>
    requires few { length text.now < 2 ^ 32 - 1 }
    requires named { IsLineKind line.now kind }
    requires against { IsAgainst text.now refusal code.Repeat (stated_line kind) line.now }
    ensures { TellsEarlier text.now refusal code.Repeat kind line.now result }
{
    match kind {
        LineKind::Own(own) => match own {
            OwnKind::Point => late_why(text, refusal, line),
            OwnKind::Craft => {
                TrackWhy::Shared(repeat_why(text, refusal.at, RecordKind::Craft, line))
            }
        },
        LineKind::Shared(kind) => TrackWhy::Shared(repeat_why(text, refusal.at, kind, line)),
    }
}

// The address of a point that no earlier aircraft has.
fn stranger_why<'a>(text: &[u8], refusal: Refusal, line: &'a [u8]) -> TrackWhy<'a>
    requires few { length text.now < 2 ^ 32 - 1 }
    requires against { IsAgainst text.now refusal code.Unknown (stated_line (of.Own own.Point)) line.now }
    ensures { TellsEarlier text.now refusal code.Unknown (of.Own own.Point) line.now result }
{
    match stranger(text, refusal.at, line, 1) {
        Some(found) => TrackWhy::Shared(Why::Unknown {
            name: FieldName::Address,
            found,
        }),
        None => unreachable!(),
    }
}

// Which address of a record is unknown, or that two are equal.
fn names_why<'a>(text: &[u8], refusal: Refusal, kind: LineKind, line: &'a [u8]) -> TrackWhy<'a>
    requires few { length text.now < 2 ^ 32 - 1 }
    requires named { IsLineKind line.now kind }
    requires against { IsAgainst text.now refusal code.Unknown (stated_line kind) line.now }
    ensures { TellsEarlier text.now refusal code.Unknown kind line.now result }
{
    match kind {
        LineKind::Own(own) => match own {
            OwnKind::Point => stranger_why(text, refusal, line),
            OwnKind::Craft => unreachable!(),
        },
        LineKind::Shared(kind) => TrackWhy::Shared(unknown_why(text, refusal.at, kind, line)),
    }
}

// What is too many, or wanting at the end.
fn count_why(text: &[u8], refusal: Refusal, kind: LineKind, line: &[u8]) -> TrackWhy<'static>
    requires few { length text.now < 2 ^ 32 - 1 }
    requires named { IsLineKind line.now kind }
    requires against { IsAgainst text.now refusal code.Count (stated_line kind) line.now }
    ensures { TellsEarlier text.now refusal code.Count kind line.now result }
{
    match kind {
        LineKind::Own(own) => match own {
            OwnKind::Craft => TrackWhy::ManyCrafts,
            OwnKind::Point => unreachable!(),
        },
        LineKind::Shared(_) => TrackWhy::Shared(end_why(text, refusal.at, format_of(text))),
    }
}

/// What is wrong with a record of this kind after those before it. The code is Repeat, Unknown or Count.
pub(crate) fn against_why<'a>(
    text: &[u8],
    refusal: Refusal,
    code: Code,
    kind: LineKind,
    line: &'a [u8],
) -> TrackWhy<'a>
    requires few { length text.now < 2 ^ 32 - 1 }
    requires named { IsLineKind line.now kind }
    requires against { IsAgainst text.now refusal code (stated_line kind) line.now }
    ensures { TellsEarlier text.now refusal code kind line.now result }
{
    match code {
        Code::Repeat => again_why(text, refusal, kind, line),
        Code::Unknown => names_why(text, refusal, kind, line),
        Code::Count => count_why(text, refusal, kind, line),
        _ => unreachable!(),
    }
}
