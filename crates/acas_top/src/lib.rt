//! The program over any source and any sink. It is given the words of a command line, reads bytes from the source,
//! writes bytes to the sink, and ends with one status.
#![tactic(auto)]

mod acting;
mod answers;
mod counts;
mod drawing;
mod explaining;
mod flying;
mod instance;
mod many;
mod many_text;
mod pages;
mod plain_program;
mod possible;
mod program;
mod refusal;
mod runs;
mod status;
mod streams;
mod summing;
mod sweep_runs;
mod sweep_text;
mod telling;
mod threaded;
mod varied;
mod varying;
mod verdict;
mod words;

pub use plain_program::{acas_plain, one_status_law};
pub use program::acas;
pub use status::Status;
pub use words::{ENCOUNTER_BYTES, Limit, Page, Plain, RECORDING_BYTES, Threaded, Tool};
