//! Sources and sinks of bytes, and two calls: one reads a whole input, the other writes a whole piece.
//!
//! Each source and sink counts its faults. The count rises at each failed call and at no other one. So a caller can
//! show that a read or a write has failed, and that none has.
//!
//! `MemSource`, `MemSink`, `SureSource` and `SureSink` are in memory, and all their bytes are known. `StdSource` and
//! `StdSink` stand at the program's edge, over a `Reader` and a `Writer`. Every reader and writer of std is one.
#![tactic(auto)]

mod device;
mod memory;
mod std_sink;
mod std_source;
mod stream;
mod sure;
mod whole;

pub use device::{Reader, Writer};
pub use memory::{MemSink, MemSource};
pub use std_sink::StdSink;
pub use std_source::StdSource;
pub use stream::{Failed, InError, Sink, Source};
pub use sure::{SureSink, SureSource};
pub use whole::{read_all, write_all};
