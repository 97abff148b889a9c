// Commits.
ghost use Rattle.std.specs.Prelude.{◌≡◌, ◌+◌, ◌<◌, MatchOption};
ghost use Rattle.air_journal.specs.Airs.{air_of};
ghost use Rattle.air_journal.specs.Calls.{Commits, Committed, Hinders, IsFree};
ghost use Rattle.air_journal.specs.Cells.{commit_cells};
ghost use Rattle.air_journal.specs.Pictures.{Suffices};
ghost use Rattle.air_rules.specs.Journal.{commits};
ghost use Rattle.air_rules.specs.Rules.{IsLegal};
ghost use Rattle.craft_view.specs.Kept.{IsActive};
ghost use Rattle.craft_view.specs.Views.{picture_after, picture_of};

use crate::answers::Commit;
use crate::crafts::count_of;
use crate::due::first_due_to;
use crate::next::{has_many, next_cells};
use crate::owing::first_owed;
use crate::pace::first_behind;
use crate::state::AirState;
use acas_base::Picture;

impl AirState {
    /// What hinders the commit of an active aircraft's next cycle, the first that does; none where
    /// [`AirState::commit`] answers Done.
    pub fn hindrance(&self, own: u8) -> Option<Commit>
        requires { IsActive self.now.encounter own }
        ensures { MatchOption result (IsFree (air_of self.now.encounter) self.now.journal own) (Hinders (air_of self.now.encounter) self.now.journal own) }
    {
        let made = self.tables.made(own).commits;
        if made >= self.encounter.cycles() {
            return Some(Commit::Over);
        }
        if let Some(owing) = first_owed(&self.encounter, &self.tables, own) {
            return Some(Commit::Owed(owing.target));
        }
        if let Some(found) = first_due_to(&self.tables, own, made, count_of(&self.encounter)) {
            return Some(Commit::Due(found.waiting.send, found.waiting.copy));
        }
        if let Some(behind) = first_behind(&self.encounter, &self.tables, made) {
            return Some(Commit::Ahead(behind.craft, behind.commits));
        }
        None
    }

    // Adds an aircraft's commit that nothing hinders.
    fn add_commit(&mut self, own: u8, pic: &Picture) -> u32
        requires active { IsActive self.old.encounter own }
        requires free { IsFree (air_of self.old.encounter) self.old.journal own }
        requires picture { Suffices self.old.encounter self.old.journal own pic.now }
        ensures encounter { self.new.encounter ≡ self.old.encounter }
        ensures commits { Committed (air_of self.old.encounter) self.old.journal own self.new.journal result }
        ensures legal { IsLegal (air_of self.new.encounter) self.new.journal }
    {
        let position = self.journal.len() as u32;
        let cycle = self.tables.made(own).commits + 1;
        let cells = next_cells(&self.encounter, &self.tables, own, pic);
        self.journal.push_commit(own, cycle, &cells);
        let many = has_many(&cells);
        let count = count_of(&self.encounter);
        self.tables.commit(own, &cells, many, count);
        position
    }

    /// Commits an active aircraft's next cycle, or says what hinders it. The picture has to be that of its
    /// next cycle, where it has cycles left.
    pub fn commit(&mut self, own: u8, pic: &Picture) -> Commit
        requires active { IsActive self.old.encounter own }
        requires picture { commits self.old.journal own < self.old.encounter.cycles → pic.now ≡ picture_of self.old.encounter own (commits self.old.journal own + 1) }
        ensures encounter { self.new.encounter ≡ self.old.encounter }
        ensures commits { Commits (air_of self.old.encounter) self.old.journal own self.new.journal result }
        ensures legal { IsLegal (air_of self.new.encounter) self.new.journal }
    {
        self.legal_law();
        match self.hindrance(own) {
            Some(answer) => answer,
            None => Commit::Done(self.add_commit(own, pic)),
        }
    }

    /// Commits an active aircraft's next cycle, as [`AirState::commit`] does, by a picture that only has the
    /// separations that the rules ask for after the cells of the aircraft's last commit.
    pub fn commit_after(&mut self, own: u8, pic: &Picture) -> Commit
        requires active { IsActive self.old.encounter own }
        requires picture { commits self.old.journal own < self.old.encounter.cycles → pic.now ≡ picture_after (commit_cells self.old.journal own (commits self.old.journal own)) self.old.encounter own (commits self.old.journal own + 1) }
        ensures encounter { self.new.encounter ≡ self.old.encounter }
        ensures commits { Commits (air_of self.old.encounter) self.old.journal own self.new.journal result }
        ensures legal { IsLegal (air_of self.new.encounter) self.new.journal }
    {
        self.legal_law();
        match self.hindrance(own) {
            Some(answer) => answer,
            None => Commit::Done(self.add_commit(own, pic)),
        }
    }
}
