//! Offsets into value bytes, and the checks of raw parts.
//!
//! Arrow columnar format, "Variable-size Binary Layout".
#![tactic(auto)]

mod buffer;
mod checks;
mod container;
mod convert;
mod debug;
mod growth;
mod iterator;
mod keys;
mod leaf;
mod offsets;
mod operations;
mod text;

pub use buffer::OffsetsBuffer;
pub use checks::{
    check_offsets, check_offsets_bounds, no_fault_is_sound, try_check_offsets,
    try_check_offsets_bounds,
};
pub use container::OffsetsContainer;
pub use iterator::{Lengths, OffsetAndLengthIter};
pub use keys::{IndexKey, check_indexes};
pub use leaf::LeafRanges;
pub use offsets::Offsets;
pub use operations::OffsetsOperation;
pub use text::{check_utf8, slots_decide, slots_end_to_end, try_check_utf8};
