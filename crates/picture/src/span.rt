// A least and a greatest number.

/// The least and the greatest of some altitudes, or the ends of an axis of altitudes.
#[derive(Clone, Copy)]
pub(crate) struct Span {
    pub low: i64,
    pub high: i64,
}
