// The ticks of an axis.

/// The ticks of an axis: a step in ft, and how many steps it has.
#[derive(Clone, Copy)]
pub(crate) struct Ticks {
    pub step: u32,
    pub count: u32,
}
