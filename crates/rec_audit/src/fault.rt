// What is wrong.
use crate::verdict::Reason;

/// The first wrong line, from 1, and why it is wrong.
#[derive(Clone, Copy)]
pub(crate) struct Fault {
    pub line: u32,
    pub reason: Reason,
}
