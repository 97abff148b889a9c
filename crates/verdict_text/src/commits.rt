// Why a commit isn't allowed.
ghost use Rattle.std.specs.Prelude.{MatchOption};
ghost use Rattle.air_journal.specs.Airs.{air_of};
ghost use Rattle.verdict_text.specs.Causes.{BarsCommit, MayCommitNow};

use crate::causes::CommitCause;
use air_journal::{AirState, Commit};
use craft_view::is_active;

/// Why an aircraft may not commit a cycle after a journal. None where it may.
pub fn commit_cause(state: &AirState, own: u8, cycle: u16) -> Option<CommitCause>
    ensures { MatchOption result
        (MayCommitNow (air_of state.now.encounter) state.now.journal own cycle)
        (BarsCommit (air_of state.now.encounter) state.now.journal own cycle) }
{
    state.legal_law();
    if !is_active(state.enc(), own) {
        return Some(CommitCause::Inactive);
    }
    let made = state.commits(own);
    let cycles = state.enc().cycles();
    if made >= cycles {
        return Some(CommitCause::Over { cycles });
    }
    if cycle != made + 1 {
        return Some(CommitCause::OtherCycle { next: made + 1 });
    }
    match state.hindrance(own) {
        None => None,
        Some(Commit::Owed(target)) => Some(CommitCause::Owes { target }),
        Some(Commit::Due(send, copy)) => Some(CommitCause::Due { send, copy }),
        Some(Commit::Ahead(other, commits)) => Some(CommitCause::Ahead { other, commits }),
        Some(Commit::Over) | Some(Commit::Done(_)) => unreachable!(),
    }
}
