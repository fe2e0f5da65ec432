//! Columns of texts with offsets, of 32 bits or of 64, and their builders. Arrow columnar format, "Variable-size Binary
//! Layout".
#![tactic(auto)]

mod array;
mod builder;
mod constructors;
mod convert;
mod iterator;
mod laws;
mod operations;
mod values_builder;

pub use array::Utf8Array;
pub use builder::MutableUtf8Array;
pub use convert::try_into_utf8;
pub use iterator::{MutableUtf8ValuesIter, Utf8ValuesIter};
pub use laws::no_fault_is_sound;
pub use operations::Utf8Operation;
pub use values_builder::MutableUtf8ValuesArray;
