//! Plain data of encounters that several crates share, and the definitions of them that several contracts cite.
#![tactic(auto)]

mod address;
mod advisory;
mod checks;
mod choice;
mod craft;
mod encounter;
mod entry;
mod fates;
mod keys;
mod label;
mod level;
mod link;
mod pairs;
mod records;
mod separations;
mod setting;
mod strengths;
mod view;

pub use address::Address;
pub use advisory::{Cell, Cells, Intent, Rank, ResMsg, Sense, Strength, Vrc};
pub use choice::{BySense, Choice};
pub use craft::{
    CraftSpec, Gains, Kind, Leg, Miss, USUAL_ALTITUDE_GAINS, USUAL_RANGE_GAINS, is_active_at,
    most_crafts, some_active,
};
pub use encounter::Encounter;
pub use entry::Entry;
pub use label::{Call, LABEL_BYTES, Label, NAME_BYTES, is_call_sign, is_name};
pub use level::{Level, Row};
pub use link::{CopyPlan, Fate, LinkPlan};
pub use pairs::{PAIRS, pair_of};
pub use records::Record;
pub use separations::{gives_alim, separation};
pub use setting::{Profile, Setting};
pub use strengths::{allowed, meets_floor, strongest};
pub use view::{Picture, Seps, View};

/// The most aircraft of an encounter. It is also the number of views in a picture, and of cells in a commit.
pub const CRAFTS: usize = 16;

// The format of an encounter's text promises sixteen.
const _: () = prove!(CRAFTS == 16);
