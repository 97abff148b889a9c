// The two sides of a line.

/// Above a line or below it.
#[derive(Clone, Copy)]
pub(crate) enum Side {
    Above,
    Below,
}
