// The sentences of faults.
ghost use Rattle.std.specs.Prelude.{◌≡◌};
ghost use Rattle.rec_audit.specs.Explaining.{fault_of};
ghost use Rattle.verdict_text.specs.Sentences.{sentence};

use acas_text::Line;
use verdict_text::{Fault, Why};

/// The sentence that tells why a line is wrong.
pub(crate) fn sentence_of(line: u32, why: Why<'_>) -> Line
    ensures { result ≡ sentence (fault_of line why.entry) }
{
    Fault { line, why }.sentence()
}
