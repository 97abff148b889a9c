// Reading an encounter.
ghost use Rattle.std.specs.Prelude.{◌-◌, ◌<◌, ◌^◌, IfOk, length};
ghost use Rattle.enc_file.specs.Reading.{IsReading, reading_of};
ghost use Rattle.flight.specs.Inside.{IsInside};

use crate::refusal::ReadError;
use crate::rows::Rows;
use crate::tables::Tables;
use acas_base::Encounter;
use csv::ByteRecord;
use std::alloc::Global;

/// The encounter that a text says, in format 1, 2 or 3.
///
/// - `Refused`: the text says no encounter. It comes exactly then. It names the first record with a fault, from 1, and
///   the lowest code of its faults.
/// - `OutOfMemory`: memory was wanting.
///
/// It reads each record once, in time linear in the bytes.
pub fn read(alloc: Global, bytes: &[u8]) -> Result<Encounter, ReadError>
    requires { length bytes.now < 2 ^ 32 - 1 }
    ensures reading { IsReading (reading_of bytes.now) result }
    ensures inside { IfOk result IsInside }
{
    let mut rows = Rows::of(alloc, bytes);
    let mut tables = Tables::new(alloc)?;
    let mut row = ByteRecord::new(alloc);
    while rows.read(&mut row)? {
        tables.take(alloc, &row)?;
    }
    tables.finish()
}
