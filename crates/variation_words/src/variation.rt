// What is changed in an encounter, over a row of values.

use variants::{Quantity, Values};

/// What is changed in an encounter, and over which values.
#[derive(Clone, Copy)]
pub enum Variation {
    /// `alt`, `x`, `y` or `late`: a quantity of the aircraft with an address of 24 bits, by each value of a row.
    Shifts {
        quantity: Quantity,
        address: u32,
        values: Values,
    },
    /// `lose`: one message of the run after the other is lost, and then the first ones of each pair.
    Losses,
    /// `swap`: each two aircraft of kind RA exchange their addresses.
    Exchanges,
}
