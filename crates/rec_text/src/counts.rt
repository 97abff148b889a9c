// How many entries of each kind a journal has.
ghost use Rattle.std.specs.Prelude.{◌≡◌, ◌+◌, ◌-◌, ◌<◌, ◌^◌};
ghost use Rattle.air_journal.specs.EntryRefs.{entry_of};
ghost use Rattle.rec_text.specs.EntryCounts.{entry_counts, with_entry};

use air_journal::{AirState, EntryRef};

/// How many commits, sends and takes a journal has.
#[derive(Clone, Copy)]
pub struct EntryCounts {
    pub commits: u32,
    pub sends: u32,
    pub takes: u32,
}

// The counts with one entry more.
fn with_entry(counts: EntryCounts, entry: &EntryRef<'_>) -> EntryCounts
    requires { counts.commits + counts.sends + counts.takes < 2 ^ 32 - 1 }
    ensures { result ≡ with_entry counts (entry_of entry.now) }
{
    let mut more = counts;
    match entry {
        EntryRef::Commit { .. } => more.commits += 1,
        EntryRef::Send { .. } => more.sends += 1,
        EntryRef::Take { .. } => more.takes += 1,
    }
    more
}

/// How many entries of each kind the journal of a state has.
pub fn entry_counts(state: &AirState) -> EntryCounts
    ensures { result ≡ entry_counts state.now.journal }
{
    let mut counts = EntryCounts {
        commits: 0,
        sends: 0,
        takes: 0,
    };
    for at in 0..state.count() {
        if let Some(entry) = state.entry_ref(at) {
            counts = with_entry(counts, &entry);
        }
    }
    counts
}
