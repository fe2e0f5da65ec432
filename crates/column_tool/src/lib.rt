//! The program as one call: from the bytes of a document to a printed column.
#![tactic(auto)]

mod outcome;
mod program;
mod reply;
mod text;

pub use column_document::{DocError, DocFault, Field, parse_document, read_document};
pub use column_port::{
    Failed, MemorySink, MemorySource, Sink, Source, StdSink, StdSource, SteadySource,
};
pub use outcome::Outcome;
pub use program::{LIMIT, run};
pub use text::{refusal_text, text_of};
