// What a run counts.
ghost use Rattle.std.specs.Prelude.{◌≡◌, ◌++◌, ◌+◌, ◌≤◌, IfOk, length};
ghost use Rattle.acas_text.specs.declared.line.TheConstants.{LINE_BYTES};
ghost use Rattle.acas_top.specs.Counted.{AreSerial, counts_of, counts_text};
ghost use Rattle.acas_top.specs.declared.counts.TheConstants.{COUNTS_BYTES};
ghost use Rattle.flight.specs.Inside.{IsInside};

use crate::runs::serial_state;
use acas_base::Encounter;
use acas_text::{Line, U32_BYTES};
use air_journal::AirState;
use rec_text::{entry_counts, report_count};
use std::alloc::{AllocError, Global};
use sweep::Counts;

/// The counts of a run: its entries of each kind, and the lines of its report.
pub(crate) fn counts_of(state: &AirState) -> Counts
    ensures { result ≡ counts_of state.now.encounter state.now.journal }
{
    let entries = entry_counts(state);
    Counts {
        commits: entries.commits,
        sends: entries.sends,
        takes: entries.takes,
        lines: report_count(state),
    }
}

/// The counts of the serial run of an encounter.
pub(crate) fn serial_counts(alloc: Global, encounter: &Encounter) -> Result<Counts, AllocError>
    requires { IsInside encounter.now }
    ensures { IfOk result (λ counts. AreSerial encounter.now counts) }
{
    let state = serial_state(alloc, encounter)?;
    Ok(counts_of(&state))
}

/// The most bytes of counts: four numbers, each followed by a comma or a line feed.
const COUNTS_BYTES: usize = 4 * (U32_BYTES + 1);

/// Adds the counts and a line feed.
pub(crate) fn add_counts(line: &mut Line, counts: &Counts)
    requires { length line.old + COUNTS_BYTES ≤ LINE_BYTES }
    ensures { line.new ≡ line.old ++ counts_text counts.now }
{
    line.u32(counts.commits);
    line.u32_field(counts.sends);
    line.u32_field(counts.takes);
    line.u32_field(counts.lines);
    line.text("\n");
}
