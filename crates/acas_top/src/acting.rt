// Runs that are acted out, so that a list can say what they show.
ghost use Rattle.std.specs.Prelude.{◌≡◌, ◌≤◌, IfOk, IfSome, OnOk};
ghost use Rattle.acas_top.specs.Possible.{StaysFound};
ghost use Rattle.instances.specs.Having.{IsAskedRun};

use acas_base::CRAFTS;
use air_journal::AirState;
use instances::Trails;
use pair_ways::Scope;
use possibilities::Possibilities;
use report_words::{ALL_WORDS, Word};
use std::alloc::{AllocError, Global};
use std::marker::Model;

// So many runs are acted out for a list at most.
const MOST_RUNS: u16 = 256;

// What is listed, over which runs, and how many of them may still be acted out.
#[derive(Drop)]
struct Acting {
    alloc: Global,
    possible: Possibilities,
    scope: Scope,
    left: u16,
}

impl Model for Acting {
    ghost use Rattle.std.specs.Prelude.{◌≡◌};
    ghost use Rattle.possibilities.specs.Listed.{Listed};

    ghost Value = { Listed };

    ghost view = { λ a. a.possible };

    ghost invariant = { λ a. a.possible.scope ≡ a.scope };
}

impl Acting {
    // Notes what a run has, where one was found.
    fn note(&mut self, run: Option<AirState>)
        requires { IfSome run (IsAskedRun self.old.scope self.old.encounter) }
        ensures { StaysFound self.old self.new }
    {
        if let Some(run) = run {
            self.left = self.left.saturating_sub(1);
            self.possible.show(&run);
        }
    }

    // Acts out a word of an aircraft in a cycle, where no run has shown it.
    fn act_word(&mut self, trails: &Trails, cycle: u16, word: Word) -> Result<(), AllocError>
        requires encounter { trails.now.encounter ≡ self.old.encounter }
        requires scope { trails.now.scope ≡ self.old.scope }
        ensures { OnOk result (StaysFound self.old self.new) }
    {
        if self.left == 0 || !self.possible.is_unshown(trails.own(), cycle, word) {
            return Ok(());
        }
        let run = trails.with_word(self.alloc, cycle, word)?;
        self.note(run);
        Ok(())
    }

    // Acts out the words of an aircraft in a cycle.
    fn act_words(&mut self, trails: &Trails, cycle: u16) -> Result<(), AllocError>
        requires encounter { trails.now.encounter ≡ self.old.encounter }
        requires scope { trails.now.scope ≡ self.old.scope }
        ensures { OnOk result (StaysFound self.old self.new) }
    {
        for word in &ALL_WORDS {
            self.act_word(trails, cycle, *word)?;
        }
        Ok(())
    }

    // Acts out equal senses of an aircraft and another one in a cycle, where no run has shown them.
    fn act_equal(&mut self, trails: &Trails, cycle: u16, other: u8) -> Result<(), AllocError>
        requires encounter { trails.now.encounter ≡ self.old.encounter }
        requires scope { trails.now.scope ≡ self.old.scope }
        ensures { OnOk result (StaysFound self.old self.new) }
    {
        if self.left == 0 || !self.possible.is_equal_unshown(trails.own(), other, cycle) {
            return Ok(());
        }
        let run = trails.with_equal(self.alloc, other, cycle)?;
        self.note(run);
        Ok(())
    }

    // Acts out its equal senses with each other one in a cycle.
    fn act_equals(&mut self, trails: &Trails, cycle: u16) -> Result<(), AllocError>
        requires encounter { trails.now.encounter ≡ self.old.encounter }
        requires scope { trails.now.scope ≡ self.old.scope }
        ensures { OnOk result (StaysFound self.old self.new) }
    {
        for other in 0..CRAFTS {
            self.act_equal(trails, cycle, other as u8)?;
        }
        Ok(())
    }

    // Whether something of an aircraft isn't shown in a cycle.
    fn has_open(&self, own: u8, cycle: u16) -> bool {
        for word in &ALL_WORDS {
            if self.possible.is_unshown(own, cycle, *word) {
                return true;
            }
        }
        for other in 0..CRAFTS {
            if self.possible.is_equal_unshown(own, other as u8, cycle) {
                return true;
            }
        }
        false
    }

    // The last cycle, of so many, in which something of an aircraft isn't shown.
    fn last_open(&self, own: u8, cycles: u16) -> Option<u16> {
        for after in 0..cycles {
            if self.has_open(own, cycles - after) {
                return Some(cycles - after);
            }
        }
        None
    }

    // Acts out what an aircraft can have, from the last cycle to the first one. A run that shows a late word goes
    // through earlier ones.
    fn act_own(&mut self, own: u8, cycles: u16) -> Result<(), AllocError>
        ensures { OnOk result (StaysFound self.old self.new) }
    {
        let Some(last) = self.last_open(own, cycles) else {
            return Ok(());
        };
        let Some(trails) = Trails::of(self.alloc, self.possible.state(), self.scope, own)? else {
            return Ok(());
        };
        for after in 0..last {
            self.act_words(&trails, last - after)?;
            self.act_equals(&trails, last - after)?;
        }
        Ok(())
    }

    // Acts out what all aircraft can have.
    fn act_all(&mut self) -> Result<(), AllocError>
        ensures { OnOk result (StaysFound self.old self.new) }
    {
        let cycles = self.possible.state().enc().cycles();
        for own in 0..CRAFTS {
            self.act_own(own as u8, cycles)?;
        }
        Ok(())
    }
}

/// What is listed, with what the runs show that were acted out for it. The error says that memory was wanting.
pub(crate) fn acted_out(
    alloc: Global,
    scope: Scope,
    possible: Possibilities,
) -> Result<Possibilities, AllocError>
    requires { possible.scope ≡ scope }
    ensures { IfOk result (StaysFound possible) }
{
    let mut acting = Acting {
        alloc,
        possible,
        scope,
        left: MOST_RUNS,
    };
    acting.act_all()?;
    Ok(acting.possible)
}
