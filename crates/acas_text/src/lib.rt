//! Numbers and short lines as text.
//!
//! A number is written and read as a plain decimal, or in a fixed count of hexadecimal digits. `Line` collects such
//! parts. For each kind of part a constant has the most bytes that it adds, and a caller shows that the parts fit by
//! adding these up.
#![tactic(auto)]

mod decimal;
mod hexadecimal;
mod line;

pub use decimal::{parse, parse_within};
pub use hexadecimal::parse_hex;
pub use line::{ADDRESS_BYTES, I32_BYTES, LINE_BYTES, Line, TENTHS_BYTES, U16_BYTES, U32_BYTES};
