// Where ticks stand.

/// Where the ticks of time stand on the page, in units of the drawing.
#[derive(Clone, Copy)]
pub struct TickPlace {
    /// How far down their lines begin.
    pub top: u32,
    /// How far down they end.
    pub bottom: u32,
    /// How far down the labels stand.
    pub label: u32,
    /// The size of their letters.
    pub size: u16,
}
