//! The text of an encounter: read from bytes, and written in its one canonical form.
#![tactic(auto)]

mod calls;
mod canonical;
mod clock;
mod conditions;
mod groups;
mod laws;
mod reading;
mod record;
mod refusal;
mod rows;
mod saying;
mod spelling;
mod tables;
mod values;

pub use canonical::{CanonicalText, write};
pub use clock::clock_in;
pub use conditions::{index_of, missing_after};
pub use laws::{canonical_records_law, canonical_text_law, passed_law, refusal_law};
pub use reading::read;
pub use record::{Addresses, Copies, Course, Heading, Record, Run, TrackGains};
pub use refusal::{Code, ReadError, Refusal};
pub use rows::Rows;
pub use saying::{record_of, version_in};
pub use tables::Tables;
pub use values::{
    address_in, count_in, field, kind_in, label_in, mask_in, number_in, profile_in, sign_in,
};
