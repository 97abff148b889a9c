// The answer to `orders` and to `losses`.
ghost use Rattle.std.specs.Prelude.{◌≡◌, ℕ, ◌<◌, ◌≤◌, IfOk, List, length};
ghost use Rattle.acas_top.specs.Answers.{AnswersPlain};
ghost use Rattle.acas_top.specs.Given.{answer_status, answer_text};
ghost use Rattle.acas_top.specs.Possible.{bound_line};
ghost use Rattle.acas_top.specs.declared.words.Plain.TheVariants.{Possible};
ghost use Rattle.air_journal.specs.Airs.{air_of};
ghost use Rattle.air_rules.specs.Serial.{IsSerial};
ghost use Rattle.enc_file.specs.Reading.{Says};
ghost use Rattle.flight.specs.Inside.{IsInside};

use crate::ENCOUNTER_BYTES;
use crate::acting::acted_out;
use crate::answers::Answer;
use crate::refusal::encounter_in;
use crate::runs::serial_state;
use acas_base::Encounter;
use acas_text::Line;
use pair_ways::{Scope, TooMany};
use possibilities::{Possibilities, Stop};
use std::alloc::{AllocError, Global};

/// The line that says for which two aircraft, and after which cycle, there are more states than the search keeps.
pub(crate) fn bound_line(encounter: &Encounter, stop: &TooMany) -> Line
    requires low { stop.now.low < length encounter.now.crafts }
    requires high { stop.now.high < length encounter.now.crafts }
    ensures { result ≡ bound_line encounter.now stop.now }
{
    let crafts = encounter.crafts();
    let mut line = Line::new();
    line.text("bound");
    line.address_field(crafts[usize::from(stop.low)].address.value());
    line.address_field(crafts[usize::from(stop.high)].address.value());
    line.u16_field(stop.cycle);
    line.text("\n");
    line
}

// The answer where all that can be is found: what of it runs show is acted out.
fn answer_listed(alloc: Global, scope: Scope, possible: Possibilities) -> Result<Answer, AllocError>
    requires scope { possible.scope ≡ scope }
    requires serial { IsSerial (air_of possible.encounter) possible.journal }
    ensures { IfOk result (λ answer. (bytes : List ℕ) → Says bytes possible.encounter → AnswersPlain (Possible scope) bytes (answer_status answer) (answer_text answer)) }
{
    let possible = acted_out(alloc, scope, possible)?;
    possible.found_law();
    Ok(Answer::Listed(possible))
}

// The answer for an encounter.
fn answer_for(alloc: Global, scope: Scope, encounter: &Encounter) -> Result<Answer, AllocError>
    requires { IsInside encounter.now }
    ensures { IfOk result (λ answer. (bytes : List ℕ) → Says bytes encounter.now → AnswersPlain (Possible scope) bytes (answer_status answer) (answer_text answer)) }
{
    encounter.valid_law();
    let state = serial_state(alloc, encounter)?;
    match Possibilities::of(alloc, state, scope) {
        Ok(possible) => answer_listed(alloc, scope, possible),
        Err(Stop::TooMany(stop)) => Ok(Answer::Unmet(bound_line(encounter, &stop))),
        Err(Stop::OutOfMemory) => Err(AllocError),
    }
}

/// The answer to `orders` and to `losses`. The error says that memory was wanting.
pub(crate) fn answer_possible(
    alloc: Global,
    scope: Scope,
    bytes: &[u8],
) -> Result<Answer, AllocError>
    requires { length bytes.now ≤ ENCOUNTER_BYTES }
    ensures { IfOk result (λ answer. AnswersPlain (Possible scope) bytes.now (answer_status answer) (answer_text answer)) }
{
    match encounter_in(alloc, bytes)? {
        Ok(encounter) => answer_for(alloc, scope, &encounter),
        Err(refusal) => Ok(Answer::of_refusal(refusal)),
    }
}
