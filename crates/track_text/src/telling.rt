// What is wrong with a refused text of tracks, as a value.
ghost use Rattle.std.specs.Prelude.{◌≡◌, ◌≤◌, ◌<◌, ◌-◌, ◌^◌, length, true};
ghost use Rattle.enc_file.specs.Records.{records_of};
ghost use Rattle.fault_text.specs.Lines.{file_lines};
ghost use Rattle.fault_text.specs.Told.{IsRecord};
ghost use Rattle.track_text.specs.Conditions.{IsRefused};
ghost use Rattle.track_text.specs.Told.{Tells, is_of_earlier, is_of_fields};
ghost use Rattle.track_text.specs.declared.refusal.Fault.TheVariants as fault;

use crate::against::against_why;
use crate::kinds::{format_of, line_kind};
use crate::refusal::{Fault, Refusal};
use crate::why::{TrackWhy, fields_why, header_why};
use enc_file::Code;
use fault_text::{Why, field, place_of};

// What is wrong with the fields of the refused record.
fn record_why<'a>(text: &[u8], refusal: Refusal, code: Code, line: &'a [u8]) -> TrackWhy<'a>
    requires few { length text.now < 2 ^ 32 - 1 }
    requires part { length line.now ≤ length text.now }
    requires code { refusal.fault ≡ fault.Text code }
    requires fields { is_of_fields code ≡ true }
    requires refused { IsRefused (records_of text.now) refusal }
    requires place { IsRecord (file_lines text.now) refusal.at line.now }
    ensures { Tells text.now refusal line.now result }
{
    let Some(kind) = line_kind(format_of(text), line) else {
        unreachable!();
    };
    fields_why(code, kind, line)
}

// What is wrong with it after the records before it.
fn earlier_why<'a>(text: &[u8], refusal: Refusal, code: Code, line: &'a [u8]) -> TrackWhy<'a>
    requires few { length text.now < 2 ^ 32 - 1 }
    requires code { refusal.fault ≡ fault.Text code }
    requires earlier { is_of_earlier code ≡ true }
    requires refused { IsRefused (records_of text.now) refusal }
    requires place { IsRecord (file_lines text.now) refusal.at line.now }
    ensures { Tells text.now refusal line.now result }
{
    let Some(kind) = line_kind(format_of(text), line) else {
        unreachable!();
    };
    against_why(text, refusal, code, kind, line)
}

// What is wrong, where the text of an encounter can have the fault, too.
fn text_why<'a>(text: &[u8], refusal: Refusal, code: Code, line: &'a [u8]) -> TrackWhy<'a>
    requires few { length text.now < 2 ^ 32 - 1 }
    requires part { length line.now ≤ length text.now }
    requires code { refusal.fault ≡ fault.Text code }
    requires refused { IsRefused (records_of text.now) refusal }
    requires place { IsRecord (file_lines text.now) refusal.at line.now }
    ensures { Tells text.now refusal line.now result }
{
    match code {
        Code::Header => header_why(line),
        Code::Kind => TrackWhy::NoKind {
            version: format_of(text),
            found: field(line, 0),
        },
        Code::Fields | Code::Number | Code::Address | Code::Mask => {
            record_why(text, refusal, code, line)
        }
        Code::Repeat | Code::Unknown | Code::Count => earlier_why(text, refusal, code, line),
        Code::Box => unreachable!(),
        Code::NoEnd => TrackWhy::Shared(Why::NoEnd),
        Code::After => TrackWhy::Shared(Why::After {
            end: place_of(text, refusal.at - 1).number,
        }),
    }
}

/// What is wrong with the refused record, which stands in this line. The line is empty where there is no such record.
///
/// It looks at one record again, and at most three times at those before it.
pub(crate) fn why_of<'a>(text: &[u8], refusal: Refusal, line: &'a [u8]) -> TrackWhy<'a>
    requires few { length text.now < 2 ^ 32 - 1 }
    requires part { length line.now ≤ length text.now }
    requires refused { IsRefused (records_of text.now) refusal }
    requires place { IsRecord (file_lines text.now) refusal.at line.now }
    ensures { Tells text.now refusal line.now result }
{
    match refusal.fault {
        Fault::Text(code) => text_why(text, refusal, code, line),
        Fault::Track(fault, address) => TrackWhy::Track(fault, address),
    }
}
