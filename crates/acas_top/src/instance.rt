// The answer to `instance`.
ghost use Rattle.std.specs.Prelude.{◌≡◌, ◌⊎◌, ℕ, ◌<◌, ◌≤◌, ◌^◌, ◌++◌, IfErr, IfOk, List, Ok, codes, length, true};
ghost use Rattle.acas_base.specs.declared.entry.Entry.{Entry};
ghost use Rattle.acas_top.specs.Answers.{AnswersPlain};
ghost use Rattle.acas_top.specs.Given.{answer_status, answer_text};
ghost use Rattle.acas_top.specs.Instances.{IsBegun, IsNever, IsOpen, IsShown, if_resolving, sought_in};
ghost use Rattle.acas_top.specs.Varying.{index_of};
ghost use Rattle.acas_top.specs.declared.status.Status.{Status};
ghost use Rattle.acas_top.specs.declared.words.Plain.TheVariants.{Instance};
ghost use Rattle.enc_file.specs.Reading.{Says};
ghost use Rattle.flight.specs.Inside.{IsInside};
ghost use Rattle.instances.specs.Having.{Has};
ghost use Rattle.pair_ways.specs.Asked.{IsCovered};
ghost use Rattle.report_words.specs.Wanting.{IsInRange};
ghost use Rattle.report_words.specs.declared.wanted.Wanted.{Wanted};

use crate::ENCOUNTER_BYTES;
use crate::answers::Answer;
use crate::possible::bound_line;
use crate::refusal::encounter_in;
use crate::runs::{run_law, serial_state};
use crate::varying::{index_of, unknown_line};
use acas_base::Encounter;
use acas_text::Line;
use air_journal::is_ra;
use instances::{Sought, find};
use pair_ways::Scope;
use possibilities::{Possibilities, Stop};
use report_words::Wanted;
use std::alloc::{AllocError, Global};

// The index of the aircraft of kind RA with this address.
fn resolving(encounter: &Encounter, address: u32) -> Option<u8>
    ensures { result ≡ if_resolving encounter.now (index_of encounter.now.crafts address) }
{
    encounter.valid_law();
    let own = index_of(encounter.crafts(), address)? as u8;
    if !is_ra(encounter, own) {
        return None;
    }
    Some(own)
}

// What is wanted, by the indices of the aircraft; or the first address that is the one of none.
fn sought_in(encounter: &Encounter, want: Wanted) -> Result<Sought, u32>
    requires { IsInRange want }
    ensures value { result ≡ sought_in encounter.now want }
    ensures begun { IfOk result IsBegun }
    ensures address { IfErr result (λ address. address < 2 ^ 24) }
{
    encounter.valid_law();
    match want {
        Wanted::Word {
            address,
            cycle,
            word,
        } => match index_of(encounter.crafts(), address) {
            Some(own) => Ok(Sought::Word {
                own: own as u8,
                cycle,
                word,
            }),
            None => Err(address),
        },
        Wanted::Equal { one, other, cycles } => match resolving(encounter, one) {
            Some(first) => match resolving(encounter, other) {
                Some(second) => Ok(Sought::Equal {
                    one: first,
                    other: second,
                    cycles,
                }),
                None => Err(other),
            },
            None => Err(one),
        },
    }
}

// Whether no run that is asked about has what is sought.
fn excludes(possible: &Possibilities, sought: Sought) -> bool
    requires { IsBegun sought }
    ensures { result ≡ true → (journal : List Entry) → IsCovered possible.now.scope possible.now.encounter journal → Has journal sought → ⊥ }
{
    match sought {
        Sought::Word { own, cycle, word } => possible.excludes_word(own, cycle, word),
        Sought::Equal { one, other, cycles } => possible.excludes_row(one, other, cycles),
    }
}

// A line of one word.
fn word_line(word: &str) -> Line
    requires { length word.now ≤ 10 }
    ensures { result ≡ word.now ++ codes "\n" }
{
    let mut line = Line::new();
    line.text(word);
    line.text("\n");
    line
}

// A run that has what is sought, or the line that says that there is none, or that this stays open.
fn answer_sought(
    alloc: Global,
    possible: &Possibilities,
    scope: Scope,
    sought: Sought,
) -> Result<Answer, AllocError>
    requires begun { IsBegun sought }
    requires scope { possible.now.scope ≡ scope }
    ensures status { IfOk result (λ answer. answer_status answer ≡ Status.Done) }
    ensures shows { IfOk result (λ answer. IsShown scope possible.now.encounter sought (answer_text answer) ⊎ (IsNever scope possible.now.encounter sought (answer_text answer) ⊎ IsOpen (answer_text answer))) }
{
    if excludes(possible, sought) {
        return Ok(Answer::Said(word_line("never")));
    }
    match find(alloc, possible.state(), scope, sought)? {
        None => Ok(Answer::Said(word_line("open"))),
        Some(run) => {
            // For the proof: what the rules promise of this complete journal.
            run_law(&run);
            Ok(Answer::Recorded(run))
        }
    }
}

// The answer for an encounter in which what is wanted is sought.
fn answer_known(
    alloc: Global,
    scope: Scope,
    encounter: &Encounter,
    sought: Sought,
) -> Result<Answer, AllocError>
    requires inside { IsInside encounter.now }
    requires begun { IsBegun sought }
    ensures { IfOk result (λ answer. (want : Wanted) (bytes : List ℕ) → Says bytes encounter.now → sought_in encounter.now want ≡ Ok sought → AnswersPlain (Instance scope want) bytes (answer_status answer) (answer_text answer)) }
{
    encounter.valid_law();
    let state = serial_state(alloc, encounter)?;
    match Possibilities::of(alloc, state, scope) {
        Ok(possible) => {
            possible.found_law();
            let answer = answer_sought(alloc, &possible, scope, sought);
            drop(possible);
            answer
        }
        Err(Stop::TooMany(stop)) => Ok(Answer::Unmet(bound_line(encounter, &stop))),
        Err(Stop::OutOfMemory) => Err(AllocError),
    }
}

// The answer for an encounter.
fn answer_for(
    alloc: Global,
    scope: Scope,
    want: Wanted,
    encounter: &Encounter,
) -> Result<Answer, AllocError>
    requires inside { IsInside encounter.now }
    requires range { IsInRange want }
    ensures { IfOk result (λ answer. (bytes : List ℕ) → Says bytes encounter.now → AnswersPlain (Instance scope want) bytes (answer_status answer) (answer_text answer)) }
{
    match sought_in(encounter, want) {
        Ok(sought) => answer_known(alloc, scope, encounter, sought),
        Err(address) => Ok(Answer::Unmet(unknown_line(address))),
    }
}

/// The answer to `instance`. The error says that memory was wanting.
pub(crate) fn answer_instance(
    alloc: Global,
    scope: Scope,
    want: Wanted,
    bytes: &[u8],
) -> Result<Answer, AllocError>
    requires range { IsInRange want }
    requires few { length bytes.now ≤ ENCOUNTER_BYTES }
    ensures { IfOk result (λ answer. AnswersPlain (Instance scope want) bytes.now (answer_status answer) (answer_text answer)) }
{
    match encounter_in(alloc, bytes)? {
        Ok(encounter) => answer_for(alloc, scope, want, &encounter),
        Err(refusal) => Ok(Answer::of_refusal(refusal)),
    }
}
