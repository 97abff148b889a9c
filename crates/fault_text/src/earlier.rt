// The records before a refused one.
ghost use Rattle.std.specs.Prelude.{◌≡◌, ◌+◌, ◌-◌, ◌≤◌, ◌<◌, ◌^◌, ℕ, Bool, List, length};
ghost use Rattle.enc_file.specs.Values.{address_in, field};
ghost use Rattle.fault_text.specs.Before.{IsLastBefore, address_if, alike, has_first, has_second, holds_sign, holds_sought, is_asked};
ghost use Rattle.fault_text.specs.Lines.{fields_in, file_lines, written};

use crate::fields::field;
use crate::lines::{Place, cut, unmarked};
use crate::names::RecordKind;
use acas_base::Address;
use enc_file::address_in;

/// A test of the line of a record.
pub trait LineTest {
    /// The lines that pass it.
    ghost holds: { Self → List ℕ → Bool };

    /// Whether a line passes it.
    fn is_passed(&self, line: &[u8]) -> bool
        ensures { result ≡ holds self.now line.now };
}

/// The records of a kind that say these addresses. Where an address is none, all pass.
#[derive(Clone, Copy)]
pub(crate) struct Sought {
    pub(crate) kind: RecordKind,
    pub(crate) first: Option<Address>,
    pub(crate) second: Option<Address>,
}

// Whether a kind of record says an address first, and second.
fn has_first(kind: RecordKind) -> bool
    ensures { result ≡ has_first kind }
{
    !matches!(
        kind,
        RecordKind::Run
            | RecordKind::Gains
            | RecordKind::End
            | RecordKind::Profile
            | RecordKind::Name
            | RecordKind::Clock
    )
}

pub(crate) fn has_second(kind: RecordKind) -> bool
    ensures { result ≡ has_second kind }
{
    matches!(kind, RecordKind::Miss | RecordKind::Plan | RecordKind::Fate)
}

// The address that a field says, where one is asked for.
fn address_if(asked: bool, found: &[u8]) -> Option<Address>
    ensures { result ≡ address_if asked found.now }
{
    if asked { address_in(found) } else { None }
}

// Whether a field says the address that is asked for.
fn is_asked(asked: Option<Address>, found: &[u8]) -> bool
    ensures { result ≡ is_asked asked (address_in found.now) }
{
    match asked {
        Some(address) => match address_in(found) {
            Some(other) => other == address,
            None => false,
        },
        None => true,
    }
}

impl Sought {
    /// The records that are about the same aircraft or pair as this one.
    pub(crate) fn alike(kind: RecordKind, line: &[u8]) -> Sought
        ensures { result ≡ alike kind (fields_in line.now) }
    {
        Sought {
            kind,
            first: address_if(has_first(kind), field(line, 1)),
            second: address_if(has_second(kind), field(line, 2)),
        }
    }
}

impl LineTest for Sought {
    ghost holds = { holds_sought };

    fn is_passed(&self, line: &[u8]) -> bool {
        if field(line, 0) != self.kind.word().as_bytes() {
            return false;
        }
        is_asked(self.first, field(line, 1)) && is_asked(self.second, field(line, 2))
    }
}

/// The records with a call sign.
#[derive(Clone, Copy)]
pub(crate) struct Signed<'a> {
    pub(crate) sign: &'a [u8],
}

impl LineTest for Signed<'_> {
    ghost holds = { λ test line. holds_sign test.sign.now line };

    fn is_passed(&self, line: &[u8]) -> bool {
        if field(line, 0) != b"call".as_slice() {
            return false;
        }
        field(line, 2) == self.sign
    }
}

/// The last record before the one with the number `at` whose line passes a test, and this line.
pub fn last_before<'a, T: LineTest>(text: &'a [u8], at: u32, test: &T) -> Option<Place<'a>>
    requires few { length text.now < 2 ^ 32 - 1 }
    requires counted { 1 ≤ at }
    requires enough { at ≤ length (written (file_lines text.now)) + 1 }
    ensures { IsLastBefore (T.holds test.now) (file_lines text.now) at result }
{
    let mut rest = unmarked(text);
    let mut number = 1;
    let mut left = at;
    let mut found = None;
    while left > 1 {
        if rest.is_empty() {
            return found;
        }
        let (line, after) = cut(rest);
        if !line.is_empty() {
            if test.is_passed(line) {
                found = Some(Place { number, line });
            }
            left -= 1;
        }
        number += 1;
        rest = after;
    }
    found
}
