// The encounter that the records before a refused `end` say.
ghost use Rattle.std.specs.Prelude.{◌≡◌, ◌-◌, ◌<◌, ◌^◌, [], Err, IfOk, length};
ghost use Rattle.enc_file.specs.Conditions.{IsRefused};
ghost use Rattle.enc_file.specs.Earlier.{encounter_by};
ghost use Rattle.enc_file.specs.Reading.{reading_of};
ghost use Rattle.enc_file.specs.Records.{records_of};
ghost use Rattle.enc_file.specs.Tables.{Holds};
ghost use Rattle.enc_file.specs.declared.refusal.Code.TheVariants as code;

use acas_base::Encounter;
use csv::ByteRecord;
use enc_file::{ReadError, Refusal, Rows, Tables};
use std::alloc::{AllocError, Global};

// The encounter that the records before a refused `end` say. `rows` has all records of the text, and the tables hold
// none of them yet.
fn encounter_among(
    alloc: Global,
    text: &[u8],
    refusal: Refusal,
    rows: &mut Rows<'_>,
    tables: &mut Tables,
    row: &mut ByteRecord,
) -> Result<Encounter, AllocError>
    requires few { length text.now < 2 ^ 32 - 1 }
    requires code { refusal.code ≡ code.Box }
    requires refused { reading_of text.now ≡ Err refusal }
    requires rows { rows.old ≡ records_of text.now }
    requires none { Holds [] tables.old }
    ensures { (r : IsRefused (records_of text.now) refusal) → IfOk result (λ e. e ≡ encounter_by r.earlier) }
{
    let mut left = refusal.at;
    while left > 1 {
        if !rows.read(row)? {
            unreachable!();
        }
        match tables.take(alloc, row) {
            Ok(()) => left -= 1,
            Err(ReadError::OutOfMemory) => return Err(AllocError),
            Err(ReadError::Refused(_)) => unreachable!(),
        }
    }
    match tables.encounter(alloc)? {
        Some(encounter) => Ok(encounter),
        None => unreachable!(),
    }
}

/// The encounter that the records before a refused `end` say, where one of its aircraft leaves the box. The error says
/// that memory was wanting.
pub(crate) fn encounter_before(
    alloc: Global,
    text: &[u8],
    refusal: Refusal,
) -> Result<Encounter, AllocError>
    requires few { length text.now < 2 ^ 32 - 1 }
    requires code { refusal.code ≡ code.Box }
    requires refused { reading_of text.now ≡ Err refusal }
    ensures { (r : IsRefused (records_of text.now) refusal) → IfOk result (λ e. e ≡ encounter_by r.earlier) }
{
    let mut tables = Tables::new(alloc)?;
    let mut rows = Rows::of(alloc, text);
    let mut row = ByteRecord::new(alloc);
    encounter_among(alloc, text, refusal, &mut rows, &mut tables, &mut row)
}
