//! Everything that an encounter's aircraft can advise: which words each of them can have in each cycle, over all orders
//! of their steps, and where losses are asked about, over all patterns of lost messages besides. A caller may show
//! runs. Then it is told which of these words some run has.
#![tactic(auto)]

mod excluding;
mod filling;
mod laws;
mod listing;
mod mark;
mod marked;
mod marking;
mod possibilities;
mod rows;
mod showing;
mod tables;
mod words;

pub use laws::never_law;
pub use possibilities::Possibilities;
pub use rows::Stop;
