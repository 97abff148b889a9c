// A call: what a crew hears after a commit.
use advisory_report::{Aural, Composite};

/// What an aircraft's crew hears in a cycle, and what the aircraft shows then.
#[derive(Clone, Copy)]
pub(crate) struct Call {
    pub cycle: u16,
    pub own: u8,
    pub shown: Composite,
    pub heard: Aural,
}
