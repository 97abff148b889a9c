// The variants of an encounter, played in threads, and the text that tells them.
ghost use Rattle.std.specs.Prelude.{◌≡◌, ◌≤◌, All, IfOk, length};
ghost use Rattle.std.specs.List.{AllZip};
ghost use Rattle.acas_top.specs.Varying.{IsFound, IsPlayed, change_line, change_lines, whole_line};
ghost use Rattle.outcomes.specs.Outcomes.{IsOutcome};
ghost use Rattle.variants.specs.Variants.{IsSmall};

use crate::runs::serial_state;
use acas_base::CraftSpec;
use acas_lines::{LineSink, Text, count_line};
use acas_text::Line;
use air_journal::AirState;
use outcomes::{Crews, Heard, Outcome, Variant, add_variant, outcome_of};
use std::alloc::{AllocError, Global};
use std::marker::Model;
use std::thread::Threads;
use sweep::{Job, run};
use variants::{Change, add_value, sizes_law, varied};

/// The job of `vary`: the serial run of an encounter with one thing changed, by the place of the change.
#[derive(Drop)]
pub(crate) struct VariantRuns {
    alloc: Global,
    state: AirState,
    crews: Box<Crews>,
    changes: Vec<Change>,
}

impl Model for VariantRuns {
    ghost use Rattle.std.specs.Prelude.{◌≤◌, All, length};
    ghost use Rattle.acas_top.specs.Varying.{Base};
    ghost use Rattle.outcomes.specs.Crews.{AreCrews};
    ghost use Rattle.variants.specs.Variants.{IsSmall};

    ghost Value = { Base };

    ghost view = { λ runs. record { encounter = runs.state.encounter; journal = runs.state.journal; changes = runs.changes.items } };

    ghost invariant = { λ runs. AreCrews runs.state.journal (length runs.state.encounter.crafts) runs.state.encounter.cycles runs.crews.value × All IsSmall runs.changes.items × (length runs.changes.items ≤ 4096) };
}

impl VariantRuns {
    /// The runs of these changes of an encounter, whose serial run the state holds.
    pub(crate) fn new(
        alloc: Global,
        state: AirState,
        changes: Vec<Change>,
    ) -> Result<VariantRuns, AllocError>
        requires few { length changes.items ≤ 4096 }
        requires small { All IsSmall changes.items }
        ensures { IfOk result (λ runs. runs ≡ record { encounter = state.encounter; journal = state.journal; changes = changes.items }) }
    {
        // What all crews show in all cycles is too large to be moved with each answer.
        match Box::new(alloc, Crews::of(&state)) {
            Ok(crews) => Ok(VariantRuns {
                alloc,
                state,
                crews,
                changes,
            }),
            Err(error) => {
                drop(state);
                drop(changes);
                Err(error.into())
            }
        }
    }

    // How many changes there are.
    fn count(&self) -> u32
        ensures value { result ≡ length self.now.changes }
        ensures few { result ≤ 4096 }
    {
        self.changes.len() as u32
    }

    fn crafts(&self) -> &[CraftSpec]
        ensures { result.now ≡ self.now.encounter.crafts }
    {
        self.state.enc().crafts()
    }

    fn changes(&self) -> &[Change]
        ensures value { result.now ≡ self.now.changes }
        ensures small { All IsSmall result.now }
    {
        self.changes.as_slice()
    }

    // What the encounter as it is comes to.
    fn outcome(&self) -> Outcome
        ensures { IsOutcome self.now.encounter self.now.journal result }
    {
        outcome_of(&self.state)
    }

    // What the variant with a change comes to.
    fn played(&self, change: Change) -> Result<Option<Variant>, AllocError>
        requires { IsSmall change }
        ensures { IfOk result (IsPlayed self.now.encounter self.now.journal change) }
    {
        let Some(changed) = varied(self.alloc, self.state.enc(), change)? else {
            return Ok(None);
        };
        // For the proof: it has as many aircraft and cycles.
        sizes_law();
        let state = serial_state(self.alloc, &changed)?;
        Ok(Some(Variant {
            outcome: outcome_of(&state),
            heard: self.crews.heard(&state),
        }))
    }
}

impl Job for VariantRuns {
    ghost use Rattle.acas_top.specs.Varying.{IsGiven};

    type Given = Option<Variant>;

    ghost means = { IsGiven };

    fn one(&self, number: u32) -> Result<Option<Variant>, AllocError> {
        match self.changes.get(number as usize) {
            Some(change) => self.played(*change),
            None => Ok(None),
        }
    }
}

// What each variant comes to, in order.
fn play_all<R: Threads + Sync>(
    rt: &R,
    alloc: Global,
    runs: &VariantRuns,
) -> Result<Vec<Option<Variant>>, AllocError>
    ensures { IfOk result (λ list. AllZip (IsPlayed runs.now.encounter runs.now.journal) runs.now.changes list.items) }
{
    run(rt, alloc, 0, runs.count(), runs)
}

/// What was found of an encounter and its variants.
#[derive(Drop)]
pub(crate) struct Varied {
    runs: VariantRuns,
    outcome: Outcome,
    list: Vec<Option<Variant>>,
}

impl Model for Varied {
    ghost use Rattle.std.specs.Prelude.{◌≡◌, length};
    ghost use Rattle.acas_top.specs.Varying.{Found};

    ghost Value = { Found };

    ghost view = { λ varied. record { crafts = varied.runs.encounter.crafts; outcome = varied.outcome; changes = varied.runs.changes; list = varied.list.items } };

    ghost invariant = { λ varied. length varied.runs.changes ≡ length varied.list.items };
}

impl Varied {
    /// Plays all variants, in as many threads as there are processors.
    pub(crate) fn of<R: Threads + Sync>(
        rt: &R,
        alloc: Global,
        runs: VariantRuns,
    ) -> Result<Varied, AllocError>
        ensures { IfOk result (IsFound runs) }
    {
        let outcome = runs.outcome();
        let list = play_all(rt, alloc, &runs)?;
        Ok(Varied {
            runs,
            outcome,
            list,
        })
    }
}

// The line of the encounter as it is.
fn whole_line(outcome: &Outcome) -> Line
    ensures { result ≡ whole_line outcome.now }
{
    let mut line = Line::new();
    line.text("v,-");
    add_variant(
        &mut line,
        &Some(Variant {
            outcome: *outcome,
            heard: Heard::Same,
        }),
    );
    line
}

fn change_line(crafts: &[CraftSpec], change: &Change, given: &Option<Variant>) -> Line
    requires { IsSmall change.now }
    ensures { result ≡ change_line crafts.now change.now given.now }
{
    let mut line = Line::new();
    line.text("v,");
    add_value(&mut line, crafts, *change);
    add_variant(&mut line, given);
    line
}

// Puts a line for each change, in order.
fn put_changes<S: LineSink>(
    crafts: &[CraftSpec],
    changes: &[Change],
    list: &[Option<Variant>],
    sink: &mut S,
)
    requires small { All IsSmall changes.now }
    requires same { length changes.now ≡ length list.now }
    ensures { S.took sink.old sink.new (change_lines crafts.now changes.now list.now) }
{
    for place in 0..changes.len() {
        sink.line(&change_line(crafts, &changes[place], &list[place]));
    }
}

impl Text for Varied {
    ghost use Rattle.acas_top.specs.Varying.{varied_lines};

    ghost lines = { λ varied. varied_lines varied.crafts varied.outcome varied.changes varied.list };

    fn put<S: LineSink>(&self, sink: &mut S) {
        sink.line(&count_line("vary", self.runs.count() + 1));
        sink.line(&whole_line(&self.outcome));
        put_changes(self.runs.crafts(), self.runs.changes(), &self.list, sink);
    }
}
