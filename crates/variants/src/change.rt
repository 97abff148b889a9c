// What is changed in an encounter.

/// A coordinate of where an aircraft begins, in ft.
#[derive(Clone, Copy)]
pub enum Axis {
    X,
    Y,
    Altitude,
}

/// What a value of a row changes. `Start`: where an aircraft begins, by so many ft along an axis. `Late`: when it flies,
/// by so many cycles.
#[derive(Clone, Copy)]
pub enum Quantity {
    Start(Axis),
    Late,
}

/// The aircraft with index `craft` begins elsewhere, or flies later, by `value`.
#[derive(Clone, Copy)]
pub struct Shift {
    pub quantity: Quantity,
    pub craft: u8,
    pub value: i64,
}

/// The messages `first` to `last`, by their numbers, from one aircraft to another one are lost.
#[derive(Clone, Copy)]
pub struct Loss {
    pub sender: u8,
    pub receiver: u8,
    pub first: u16,
    pub last: u16,
}

/// Two aircraft, by their indices, exchange their addresses.
#[derive(Clone, Copy)]
pub struct Exchange {
    pub one: u8,
    pub two: u8,
}

/// The one thing that is changed in an encounter.
#[derive(Clone, Copy)]
pub enum Change {
    Shifted(Shift),
    Lost(Loss),
    Exchanged(Exchange),
}
