//! Columns of byte strings of one width, and their builder. Arrow columnar format, "Fixed-size Primitive Layout".
#![tactic(auto)]

mod array;
mod builder;
mod constructors;
mod equality;
mod iterator;
mod laws;
mod operations;
mod types;

pub use array::FixedSizeBinaryArray;
pub use builder::MutableFixedSizeBinaryArray;
pub use laws::{
    bytes_of_a_slot, equal_where_rows_are, first_slots_are_first, flags_of_slice,
    joined_slots_are_both, no_fault_is_sound, push_adds_a_slot, pushes_add_slots,
    pushes_keep_the_width, rows_fit_together, same_lists_same_slots, slice_is_part, slices_are_one,
    slot_of_slice, slots_are_counted, split_is_whole,
};
pub use operations::FixedOperation;
