//! The two ends of a program: where its bytes come from, where they go, and the loops that read and write them
//! whole.
#![tactic(auto)]

mod memory;
mod sink;
mod source;
mod std_stream;
mod transfer;

pub use memory::{MemorySink, MemorySource, SteadySource};
pub use sink::Sink;
pub use source::{Failed, Source};
pub use std_stream::{StdSink, StdSource};
pub use transfer::{ReadError, read_within, write_whole};
