//! Columns of truth values, and their builder. Arrow columnar format, "Fixed-size Primitive Layout".
#![tactic(auto)]

mod array;
mod builder;
mod constructors;
mod debug;
mod iterator;
mod laws;
mod operations;

pub use array::BooleanArray;
pub use builder::MutableBooleanArray;
pub use debug::write_value;
pub use laws::{
    first_slots_are_first, flags_of_slice, frozen_slots_are_same, no_fault_is_sound,
    push_adds_a_slot, pushes_add_slots, rows_are_bytes, slice_is_part, slices_are_one,
    slot_of_slice, slots_are_counted, split_is_whole,
};
pub use operations::BooleanOperation;
