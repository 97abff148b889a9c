// Reading tracks.
ghost use Rattle.std.specs.Prelude.{◌-◌, ◌<◌, ◌^◌, IfOk, length};
ghost use Rattle.flight.specs.Inside.{IsInside};
ghost use Rattle.track_text.specs.Reading.{IsReading};

use crate::refusal::ReadError;
use crate::tables::TrackTables;
use acas_base::Encounter;
use csv::ByteRecord;
use enc_file::Rows;
use std::alloc::Global;

/// The encounter that a text of tracks says. In each cycle of its run each aircraft is where its track is, rounded.
///
/// - `Refused`: the text says no encounter. It names the first record with a fault, from 1, and the fault with the
///   lowest number.
/// - `OutOfMemory`: memory was wanting.
///
/// It reads each record once.
pub fn read(alloc: Global, bytes: &[u8]) -> Result<Encounter, ReadError>
    requires { length bytes.now < 2 ^ 32 - 1 }
    ensures reading { IsReading bytes.now result }
    ensures inside { IfOk result IsInside }
{
    let mut rows = Rows::of(alloc, bytes);
    let mut tables = TrackTables::new(alloc)?;
    let mut row = ByteRecord::new(alloc);
    while rows.read(&mut row)? {
        tables.take(alloc, &row)?;
    }
    tables.finish()
}
