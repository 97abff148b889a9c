// What a text says, or why it is refused.
ghost use Rattle.std.specs.Prelude.{◌≡◌, ◌-◌, ◌<◌, ◌^◌, Err, IfErr, IfOk, length};
ghost use Rattle.acas_top.specs.Refusing.{refused_line};
ghost use Rattle.enc_file.specs.Reading.{Says, reading_of};
ghost use Rattle.flight.specs.Inside.{IsInside};

use acas_base::Encounter;
use acas_text::Line;
use enc_file::{ReadError, Refusal, read};
use std::alloc::{AllocError, Global};

/// The encounter that a text says, or its refusal. The error says that memory was wanting.
pub(crate) fn encounter_in(
    alloc: Global,
    bytes: &[u8],
) -> Result<Result<Encounter, Refusal>, AllocError>
    requires { length bytes.now < 2 ^ 32 - 1 }
    ensures says { IfOk result (λ said. IfOk said (Says bytes.now)) }
    ensures inside { IfOk result (λ said. IfOk said IsInside) }
    ensures refused { IfOk result (λ said. IfErr said (λ refusal. reading_of bytes.now ≡ Err refusal)) }
{
    match read(alloc, bytes) {
        Ok(encounter) => Ok(Ok(encounter)),
        Err(ReadError::Refused(refusal)) => Ok(Err(refusal)),
        Err(ReadError::OutOfMemory) => Err(AllocError),
    }
}

/// The line that says which record is refused, counted from 1, and with which code.
pub(crate) fn refusal_line(at: u32, code: u8) -> Line
    ensures { result ≡ refused_line at code }
{
    let mut line = Line::new();
    line.text("refused");
    line.u32_field(at);
    line.u16_field(u16::from(code));
    line.text("\n");
    line
}
