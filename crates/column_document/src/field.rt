//! The fields of a document, and what can be wrong with one.

use std::alloc::AllocError;

/// A field of a document, in the order in which fields are read.
#[derive(Clone, Copy, Debug, PartialEq, Eq)]
pub enum Field {
    /// The kind of column.
    Kind,
    /// The offsets of a kind with offsets.
    Offsets,
    /// The value bytes.
    Values,
    /// The width of a slot of fixed width.
    Width,
    /// The views of a kind with views.
    Views,
    /// The buffers of a kind with views.
    Buffers,
    /// Whole numbers.
    Numbers,
    /// A flag for each slot.
    Validity,
    /// The steps to take.
    Plan,
}

impl Field {
    ghost use Rattle.std.specs.Prelude.{◌≡◌};
    ghost use Rattle.column_document.specs.Fields.{field_name};

    /// The name of the field in a document.
    pub fn name(&self) -> &'static str
        ensures { result.now ≡ field_name self.now }
    {
        match self {
            Field::Kind => "kind",
            Field::Offsets => "offsets",
            Field::Values => "values",
            Field::Width => "width",
            Field::Views => "views",
            Field::Buffers => "buffers",
            Field::Numbers => "numbers",
            Field::Validity => "validity",
            Field::Plan => "plan",
        }
    }
}

/// What is wrong with a document.
#[derive(Clone, Copy, Debug, PartialEq, Eq)]
pub enum DocFault {
    /// The bytes are no JSON text.
    Json,
    /// The first field that is missing or has no good value.
    BadField(Field),
    /// A word of the document is not built yet. Every word is built, so this can no longer come.
    Unbuilt,
}

/// Why a document gave no parts and plan.
#[derive(Clone, Copy, Debug, PartialEq, Eq)]
pub enum DocError {
    /// A growth found no memory.
    NoMemory,
    /// The document has this fault.
    Fault(DocFault),
}

impl From<DocFault> for DocError {
    ghost use Rattle.std.specs.Prelude.{◌≡◌};
    ghost use Rattle.column_document.specs.declared.field.DocError.TheVariants.{Fault};

    ghost from_gives = { λ fault error. error ≡ Fault fault };

    fn from(fault: DocFault) -> DocError {
        DocError::Fault(fault)
    }
}

impl From<AllocError> for DocError {
    ghost use Rattle.std.specs.Prelude.{◌≡◌};
    ghost use Rattle.column_document.specs.declared.field.DocError.TheVariants.{NoMemory};

    ghost from_gives = { λ _ error. error ≡ NoMemory };

    fn from(_error: AllocError) -> DocError {
        DocError::NoMemory
    }
}
