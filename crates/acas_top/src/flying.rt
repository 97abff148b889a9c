// What answers `fly`.
ghost use Rattle.std.specs.Prelude.{◌≡◌, ◌<◌, ◌≤◌, ◌^◌, List, ℕ, IfOk, None, length, map, true};
ghost use Rattle.std.specs.String.{string_bytes};
ghost use Rattle.acas_base.specs.Encounter.{address_in};
ghost use Rattle.acas_top.specs.Flying.{AnswersFlight, leaves_line, named_in, unknown_line, unnamed_in};
ghost use Rattle.acas_top.specs.Given.{answer_status, answer_text};
ghost use Rattle.address_words.specs.Addresses.{are_addresses};
ghost use Rattle.enc_file.specs.Reading.{Says};
ghost use Rattle.flight.specs.Inside.{IsInside};

use crate::ENCOUNTER_BYTES;
use crate::answers::Answer;
use crate::refusal::encounter_in;
use acas_base::{CraftSpec, Encounter};
use acas_text::Line;
use address_words::{Among, first_unknown, indices};
use followed_advice::{Leaving, fly};
use std::alloc::{AllocError, Global};

// The line that says that no aircraft of kind RA has this address.
fn unknown_line(address: &str) -> Line
    requires { length address.now ≤ 6 }
    ensures { result ≡ unknown_line address.now }
{
    let mut line = Line::new();
    line.text("unknown,");
    line.text(address);
    line.text("\n");
    line
}

// The address of the aircraft at an index; 0 where there is none.
fn address_in(crafts: &[CraftSpec], own: u8) -> u32
    ensures value { result ≡ address_in crafts.now own }
    ensures fits { result < 2 ^ 24 }
{
    match crafts.get(usize::from(own)) {
        Some(craft) => craft.address.value(),
        None => 0,
    }
}

// The line that says where the flight leaves the limits.
fn leaves_line(crafts: &[CraftSpec], leaving: Leaving) -> Line
    ensures { result ≡ leaves_line crafts.now leaving.own leaving.cycle }
{
    let mut line = Line::new();
    line.text("leaves");
    line.address_field(address_in(crafts, leaving.own));
    line.u16_field(leaving.cycle);
    line.text("\n");
    line
}

// The answer where all names are those of aircraft of kind RA.
fn answer_known(
    alloc: Global,
    names: &[String],
    encounter: &Encounter,
) -> Result<Answer, AllocError>
    requires inside { IsInside encounter.now }
    requires known { unnamed_in encounter.now (map string_bytes names.now) ≡ None }
    ensures { IfOk result (λ answer. (bytes : List ℕ) → Says bytes encounter.now → AnswersFlight (map string_bytes names.now) bytes (answer_status answer) (answer_text answer)) }
{
    let named = indices(alloc, encounter.crafts(), Among::Resolving, names)?;
    match fly(alloc, encounter, named.as_slice())? {
        Ok(written) => Ok(Answer::Made(written)),
        Err(leaving) => Ok(Answer::Unmet(leaves_line(encounter.crafts(), leaving))),
    }
}

// The answer for an encounter.
fn answer_for(alloc: Global, names: &[String], encounter: &Encounter) -> Result<Answer, AllocError>
    requires addresses { are_addresses (map string_bytes names.now) ≡ true }
    requires inside { IsInside encounter.now }
    ensures { IfOk result (λ answer. (bytes : List ℕ) → Says bytes encounter.now → AnswersFlight (map string_bytes names.now) bytes (answer_status answer) (answer_text answer)) }
{
    match first_unknown(encounter.crafts(), Among::Resolving, names) {
        Some(name) => Ok(Answer::Unmet(unknown_line(name.as_str()))),
        None => answer_known(alloc, names, encounter),
    }
}

/// The answer to `fly` with these names. The error says that memory was wanting.
pub(crate) fn answer_flight(
    alloc: Global,
    names: &[String],
    bytes: &[u8],
) -> Result<Answer, AllocError>
    requires addresses { are_addresses (map string_bytes names.now) ≡ true }
    requires few { length bytes.now ≤ ENCOUNTER_BYTES }
    ensures { IfOk result (λ answer. AnswersFlight (map string_bytes names.now) bytes.now (answer_status answer) (answer_text answer)) }
{
    match encounter_in(alloc, bytes)? {
        Ok(encounter) => answer_for(alloc, names, &encounter),
        Err(refusal) => Ok(Answer::of_refusal(refusal)),
    }
}
