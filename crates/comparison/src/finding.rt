// What differs between two recordings.
ghost use Rattle.std.specs.Prelude.{◌≡◌, IfOk};
ghost use Rattle.comparison.specs.Found.{IsFound, IsRunFound, IsRunFoundWhereAlike, is_equal, is_same_run};

use crate::alike::are_alike;
use crate::cells::{CellPlace, first_cell};
use crate::encounters::first_difference;
use crate::messages::are_same_messages;
use crate::reports::are_same_reports;
use air_journal::AirState;
use std::alloc::{AllocError, Global};

/// What is found of two runs that have as many cycles and the same aircraft.
#[derive(Clone, Copy)]
pub struct RunFound {
    /// The first cell that differs, by cycle, by aircraft and by the one that it is for; none where none does.
    pub cell: Option<CellPlace>,
    /// The reports have the same lines.
    pub same_report: bool,
    /// Each message has the same word, and each copy the same take.
    pub same_messages: bool,
}

/// What is found where two recordings are compared.
#[derive(Clone, Copy)]
pub struct Found {
    /// How many lines of the encounters' canonical texts stand before the first one that differs; none where none does.
    pub encounter: Option<usize>,
    /// What is found of the runs; none where these can't be compared, since a line `run` or `craft` differs.
    pub run: Option<RunFound>,
}

fn is_same_run(run: &Option<RunFound>) -> bool
    ensures { result ≡ is_same_run run.now }
{
    match run {
        Some(run) => run.cell.is_none() && run.same_report && run.same_messages,
        None => false,
    }
}

impl Found {
    ghost use Rattle.comparison.specs.Found.{is_equal};

    /// Whether nothing differs.
    pub fn is_equal(&self) -> bool
        ensures { result ≡ is_equal self.now }
    {
        self.encounter.is_none() && is_same_run(&self.run)
    }
}

// What is found of the runs.
fn compare_runs(alloc: Global, one: &AirState, other: &AirState) -> Result<RunFound, AllocError>
    ensures { IfOk result (IsRunFound one.now other.now) }
{
    Ok(RunFound {
        cell: first_cell(one, other),
        same_report: are_same_reports(one, other),
        same_messages: are_same_messages(alloc, one, other)?,
    })
}

fn compare_where_alike(
    alloc: Global,
    one: &AirState,
    other: &AirState,
) -> Result<Option<RunFound>, AllocError>
    ensures { IfOk result (IsRunFoundWhereAlike one.now other.now) }
{
    if !are_alike(one.enc(), other.enc()) {
        return Ok(None);
    }
    Ok(Some(compare_runs(alloc, one, other)?))
}

/// Compares two states of the air, whose journals may have their entries in any order.
///
/// It takes memory for the text of one of the encounters, and for as many messages as an encounter can have; and none
/// by the number of entries. It takes time linear in the two recordings.
pub fn compare(alloc: Global, one: &AirState, other: &AirState) -> Result<Found, AllocError>
    ensures { IfOk result (IsFound one.now other.now) }
{
    Ok(Found {
        encounter: first_difference(alloc, one.enc(), other.enc())?,
        run: compare_where_alike(alloc, one, other)?,
    })
}
