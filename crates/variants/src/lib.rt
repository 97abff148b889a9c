//! Encounters with one thing changed.
#![tactic(auto)]

mod change;
mod drawn;
mod flights;
mod laws;
mod losses;
mod making;
mod rows;
mod swapping;
mod text;

pub use change::{Axis, Change, Exchange, Loss, Quantity, Shift};
pub use laws::{late_law, loss_law, one_variant_law, sizes_law};
pub use making::varied;
pub use rows::{Values, exchanges, shifts};
pub use text::{VALUE_BYTES, add_value};
