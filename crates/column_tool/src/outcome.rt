//! How a run ends.

ghost use Rattle.std.specs.Prelude.{◌≡◌};

use column_document::DocFault;
use column_relayout::{AnyArray, ColumnError};

/// How a run ended.
#[derive(Drop)]
pub enum Outcome {
    /// The column that the document's plan leads to, of which the whole text was written.
    Done(AnyArray),
    /// The parts or a step of the plan are refused. Never holds want of memory.
    Refused(ColumnError),
    /// The bytes are no document.
    BadDocument(DocFault),
    /// The words ask for nothing that there is.
    Usage,
    /// A read failed.
    ReadFault,
    /// A write failed.
    WriteFault,
    /// The document has more than 16,777,216 bytes.
    TooLong,
    /// A growth found no memory.
    NoMemory,
}

impl Outcome {
    ghost use Rattle.column_tool.specs.Outcomes.{status_of};

    /// The status that the program ends with.
    pub fn code(&self) -> u8
        ensures { result ≡ status_of self.now }
    {
        match self {
            Outcome::Done(_) => 0,
            Outcome::Refused(_) => 1,
            Outcome::BadDocument(_) => 2,
            Outcome::Usage => 3,
            Outcome::ReadFault => 4,
            Outcome::WriteFault => 5,
            Outcome::TooLong => 6,
            Outcome::NoMemory => 7,
        }
    }
}
