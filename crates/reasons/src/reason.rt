// A reason: what a line tells of a cell.
use crate::rules::Rule;
use crate::shown::{Continued, Shown};
use crate::told::Told;
use acas_base::{Address, Cell};

/// Why the cell of a commit against another aircraft is what it is.
#[derive(Clone, Copy)]
pub struct Reason {
    /// The position of the commit in the journal.
    pub position: u32,
    /// Its cycle.
    pub cycle: u16,
    /// The address of the aircraft that commits.
    pub own: Address,
    /// The address of the other one.
    pub other: Address,
    /// What own aircraft saw of it.
    pub seen: Shown,
    /// What an advisory may go on with, where there was one.
    pub continued: Option<Continued>,
    /// Which complement was in force from it.
    pub told: Option<Told>,
    /// The cell of the cycle before.
    pub before: Cell,
    /// The cell of the commit.
    pub cell: Cell,
    /// The rule by which it followed.
    pub rule: Rule,
}
