// Which aircraft of an encounter can be named.

/// Which aircraft of an encounter can be named.
#[derive(Clone, Copy)]
pub enum Among {
    /// Any one.
    Any,
    /// Those of kind RA.
    Resolving,
}
