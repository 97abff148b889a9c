// A row of cycles.

/// A row of cycles: the first and the last of them.
#[derive(Clone, Copy)]
pub struct Row {
    pub first: u16,
    pub last: u16,
}
