//! What plays an encounter to its end. `serial` does so in one fixed order. `play` has a worker for each active
//! aircraft, over one shared journal (`specs/Workers`).
#![tactic(auto)]

mod rounds;
mod serial_run;
mod threaded_run;
mod worker;

pub use serial_run::serial;
pub use threaded_run::{play, played_law};
pub use worker::Pause;
