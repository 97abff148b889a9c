// Whole inputs and whole pieces.
ghost use Rattle.std.specs.Prelude.{◌≡◌, ◌<◌, ◌≤◌, OnOk, IfOk, IsErrOf, vec_len};
ghost use Rattle.acas_io.specs.Faults.{one_more};
ghost use Rattle.acas_io.specs.Stream.{Puts, Took, TookAll};

use crate::{Failed, InError, Sink, Source};
use std::alloc::Global;

// How many bytes one read may give.
const CHUNK: usize = 8192;

// For how many bytes there is room before the first read. glibc maps a block of more than 128 KiB by itself, and moves
// such a block without a copy when it grows. A page of it takes memory once something is written there.
const ROOM: usize = 32 * CHUNK;

/// Reads a source to its end, and gives all that was left, at most `limit` bytes. At first it asks for 256 KiB. What it
/// asks for later grows with what was read, and not with the limit.
///
/// - `ReadFault`: a read failed. It isn't tried again.
/// - `TooLong`: the source gave more than `limit` bytes.
/// - `OutOfMemory`: no memory was found for what the source gave.
///
/// What was read before an error is gone from the source.
pub fn read_all<S: Source>(alloc: Global, source: &mut S, limit: usize) -> Result<Vec<u8>, InError>
    ensures all { IfOk result (λ bytes. TookAll (S.left source.old) (S.left source.new) bytes.items) }
    ensures within { IfOk result (λ bytes. vec_len bytes ≤ limit) }

    // `TooLong` comes exactly where more bytes were given than the limit.
    ensures long { IsErrOf result InError.TooLong → Took (λ n. limit < n) (S.left source.old) (S.left source.new) }
    ensures fault { IsErrOf result InError.ReadFault → Took (λ n. n ≤ limit) (S.left source.old) (S.left source.new) }
    ensures memory { IsErrOf result InError.OutOfMemory → Took (λ n. n ≤ limit) (S.left source.old) (S.left source.new) }

    // A fault comes where the count rose, by the one read that failed. No other answer changes the count.
    ensures rose { IsErrOf result InError.ReadFault → S.faults source.new ≡ one_more (S.faults source.old) }
    ensures ok_count { OnOk result (S.faults source.new ≡ S.faults source.old) }
    ensures long_count { IsErrOf result InError.TooLong → S.faults source.new ≡ S.faults source.old }
    ensures memory_count { IsErrOf result InError.OutOfMemory → S.faults source.new ≡ S.faults source.old }
{
    let mut bytes = Vec::with_capacity(alloc, ROOM)?;
    let mut chunk = [0u8; CHUNK];
    loop {
        let count = match source.read(&mut chunk) {
            Ok(count) => count,
            Err(_) => return Err(InError::ReadFault),
        };
        if count == 0 {
            return Ok(bytes);
        }
        if count > limit - bytes.len() {
            return Err(InError::TooLong);
        }
        bytes.extend_from_slice(&chunk[..count])?;
    }
}

/// Writes a whole piece, in as many writes as it takes. After `Failed` a front of the piece was written. A write that
/// failed isn't tried again.
pub fn write_all<K: Sink>(sink: &mut K, piece: &[u8]) -> Result<(), Failed>
    ensures { Puts (K.written sink.old) (K.written sink.new) (K.faults sink.old) (K.faults sink.new) piece.now result }
{
    let mut at = 0;
    while at < piece.len() {
        at += sink.write(&piece[at..])?;
    }
    Ok(())
}
