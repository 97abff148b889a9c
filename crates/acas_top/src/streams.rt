// How every command reads its source and writes its sink.
ghost use Rattle.std.specs.Prelude.{◌≡◌, IfErr, IfOk, OnOk};
ghost use Rattle.acas_top.specs.Ends.{IsUnread, WasPut, WasRead, status_after};
ghost use Rattle.acas_top.specs.Given.{answer_status, answer_text};

use crate::Status;
use crate::answers::Answer;
use crate::words::Limit;
use acas_io::{Failed, InError, Sink, Source, read_all};
use acas_lines::write_text;
use std::alloc::Global;

/// Reads what a command with this limit reads, to its end: nothing where there is no limit, and else all bytes of the
/// source up to the limit. An error is the status with which the command ends.
pub(crate) fn read_input<S: Source>(
    alloc: Global,
    limit: Option<Limit>,
    source: &mut S,
) -> Result<Vec<u8>, Status>
    ensures read { IfOk result (λ bytes. WasRead limit (S.left source.old) (S.left source.new) bytes.items) }
    ensures no_fault { OnOk result (S.faults source.new ≡ S.faults source.old) }
    ensures unread { IfErr result (λ status. IsUnread status limit (S.left source.old) (S.faults source.old) (S.faults source.new)) }

    // Where there is no limit, the source isn't touched.
    ensures untouched { limit ≡ None → source.new ≡ source.old }
{
    let Some(limit) = limit else {
        return Ok(Vec::new(alloc));
    };
    match read_all(alloc, source, limit.greatest()) {
        Ok(bytes) => {
            if limit.most(bytes.as_slice()) < bytes.len() {
                return Err(Status::TooLong);
            }
            Ok(bytes)
        }
        Err(InError::ReadFault) => Err(Status::ReadFault),
        Err(InError::TooLong) => Err(Status::TooLong),
        Err(InError::OutOfMemory) => Err(Status::OutOfMemory),
    }
}

/// The status with which the command ends: that of its answer, or WriteFault where a write failed.
pub(crate) fn status_after(own: Status, put: Result<(), Failed>) -> Status
    ensures { result ≡ status_after own put }
{
    match put {
        Ok(()) => own,
        Err(_) => Status::WriteFault,
    }
}

/// Writes the answer to a command, and gives the status with which the command ends.
pub(crate) fn put_answer<K: Sink>(answer: Answer, sink: &mut K) -> Status
    ensures { WasPut result (answer_status answer) (answer_text answer) (K.written sink.old) (K.written sink.new) (K.faults sink.old) (K.faults sink.new) }
{
    let status = status_after(answer.status(), write_text(&answer, sink));
    // For the proof: without this call the answer is dropped case by case, down to the last list. The call drops it as
    // one value.
    drop(answer);
    status
}
