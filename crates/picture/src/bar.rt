// Where a bar stands.

/// Where a bar stands: its left edge and its width, its base, and how tall it is.
#[derive(Clone, Copy)]
pub(crate) struct Bar {
    pub left: u32,
    pub width: u32,
    pub base: u32,
    pub height: u32,
}
