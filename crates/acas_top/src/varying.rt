// What answers `vary`.
ghost use Rattle.std.specs.Prelude.{◌≡◌, ℕ, ◌<◌, ◌≤◌, ◌^◌, All, IfOk, IfSome, List, length};
ghost use Rattle.acas_top.specs.Answers.{AnswersPlain};
ghost use Rattle.acas_top.specs.Flying.{unknown_line};
ghost use Rattle.acas_text.specs.Hex.{hex};
ghost use Rattle.acas_top.specs.Given.{answer_status, answer_text};
ghost use Rattle.acas_top.specs.Varying.{AnswersChanges, index_of};
ghost use Rattle.acas_top.specs.declared.words.Plain.TheVariants.{Vary};
ghost use Rattle.enc_file.specs.Reading.{Says};
ghost use Rattle.flight.specs.Inside.{IsInside};
ghost use Rattle.run_losses.specs.Losses.{losses_of};
ghost use Rattle.variants.specs.Rows.{AreValues, exchanges_of, shifts_of};
ghost use Rattle.variants.specs.Variants.{IsSmall};
ghost use Rattle.variation_words.specs.Words.{IsInRange};

use crate::ENCOUNTER_BYTES;
use crate::answers::Answer;
use crate::refusal::encounter_in;
use crate::runs::serial_state;
use crate::varied::{VariantRuns, Varied};
use acas_base::{CraftSpec, Encounter};
use acas_lines::count_line;
use acas_text::Line;
use air_journal::AirState;
use run_losses::losses;
use std::alloc::{AllocError, Global};
use std::thread::Threads;
use variants::{Change, Quantity, Values, exchanges, shifts};
use variation_words::Variation;

// The most variants that are played.
const VARIANTS: usize = 4_096;

/// The line that says that no aircraft has this address.
pub(crate) fn unknown_line(address: u32) -> Line
    requires { address < 2 ^ 24 }
    ensures { result ≡ unknown_line (hex 6 address) }
{
    let mut line = Line::new();
    line.text("unknown");
    line.address_field(address);
    line.text("\n");
    line
}

/// The index of the aircraft with this address.
pub(crate) fn index_of(crafts: &[CraftSpec], address: u32) -> Option<usize>
    ensures value { result ≡ index_of crafts.now address }
    ensures inside { IfSome result (λ index. index < length crafts.now) }
{
    crafts
        .iter()
        .position(|craft| craft.address.value() == address)
}

// The answer for these changes of an encounter, whose serial run the state holds.
fn answer_changes<R: Threads + Sync>(
    rt: &R,
    alloc: Global,
    state: AirState,
    changes: Vec<Change>,
) -> Result<Answer, AllocError>
    requires counted { length changes.items < 2 ^ 32 }
    requires small { All IsSmall changes.items }
    ensures { IfOk result (λ answer. AnswersChanges state.encounter state.journal changes.items (answer_status answer) (answer_text answer)) }
{
    if VARIANTS < changes.len() {
        return Ok(Answer::Unmet(count_line("variants", changes.len() as u32)));
    }
    let runs = VariantRuns::new(alloc, state, changes)?;
    Ok(Answer::Varied(Varied::of(rt, alloc, runs)?))
}

// The answer where the quantity of an aircraft takes these values.
fn answer_shifts<R: Threads + Sync>(
    rt: &R,
    alloc: Global,
    state: AirState,
    quantity: Quantity,
    craft: u8,
    values: Values,
) -> Result<Answer, AllocError>
    requires { AreValues values }
    ensures { IfOk result (λ answer. AnswersChanges state.encounter state.journal (shifts_of quantity craft values) (answer_status answer) (answer_text answer)) }
{
    let changes = shifts(alloc, quantity, craft, values)?;
    answer_changes(rt, alloc, state, changes)
}

// The answer where messages of the run are lost.
fn answer_losses<R: Threads + Sync>(
    rt: &R,
    alloc: Global,
    state: AirState,
) -> Result<Answer, AllocError>
    ensures { IfOk result (λ answer. AnswersChanges state.encounter state.journal (losses_of state.encounter state.journal) (answer_status answer) (answer_text answer)) }
{
    let changes = losses(alloc, &state)?;
    answer_changes(rt, alloc, state, changes)
}

// The answer where aircraft exchange their addresses.
fn answer_exchanges<R: Threads + Sync>(
    rt: &R,
    alloc: Global,
    state: AirState,
) -> Result<Answer, AllocError>
    ensures { IfOk result (λ answer. AnswersChanges state.encounter state.journal (exchanges_of state.encounter.crafts) (answer_status answer) (answer_text answer)) }
{
    let changes = exchanges(alloc, state.enc().crafts())?;
    answer_changes(rt, alloc, state, changes)
}

// The answer for an encounter.
fn answer_for<R: Threads + Sync>(
    rt: &R,
    alloc: Global,
    variation: Variation,
    encounter: &Encounter,
) -> Result<Answer, AllocError>
    requires range { IsInRange variation }
    requires inside { IsInside encounter.now }
    ensures { IfOk result (λ answer. (bytes : List ℕ) → Says bytes encounter.now → AnswersPlain (Vary variation) bytes (answer_status answer) (answer_text answer)) }
{
    match variation {
        Variation::Shifts {
            quantity,
            address,
            values,
        } => match index_of(encounter.crafts(), address) {
            Some(craft) => answer_shifts(
                rt,
                alloc,
                serial_state(alloc, encounter)?,
                quantity,
                craft as u8,
                values,
            ),
            None => Ok(Answer::Unmet(unknown_line(address))),
        },
        Variation::Losses => answer_losses(rt, alloc, serial_state(alloc, encounter)?),
        Variation::Exchanges => answer_exchanges(rt, alloc, serial_state(alloc, encounter)?),
    }
}

/// The answer to `vary`. The error says that memory was wanting.
pub(crate) fn answer_variation<R: Threads + Sync>(
    rt: &R,
    alloc: Global,
    variation: Variation,
    bytes: &[u8],
) -> Result<Answer, AllocError>
    requires range { IsInRange variation }
    requires few { length bytes.now ≤ ENCOUNTER_BYTES }
    ensures { IfOk result (λ answer. AnswersPlain (Vary variation) bytes.now (answer_status answer) (answer_text answer)) }
{
    match encounter_in(alloc, bytes)? {
        Ok(encounter) => answer_for(rt, alloc, variation, &encounter),
        Err(refusal) => Ok(Answer::of_refusal(refusal)),
    }
}
