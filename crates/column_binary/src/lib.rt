//! Columns of byte strings with offsets, of 32 bits or of 64, and their builders. Arrow columnar format, "Variable-size
//! Binary Layout".
#![tactic(auto)]

mod array;
mod builder;
mod constructors;
mod iterator;
mod laws;
mod operations;
mod types;
mod values_builder;

pub use array::BinaryArray;
pub use builder::MutableBinaryArray;
pub use iterator::{BinaryValueIter, MutableBinaryValuesIter};
pub use laws::{
    first_slots_are_first, flags_of_slice, frozen_slots_are_same, joined_slots_are_both,
    no_fault_is_sound, push_adds_a_slot, pushes_add_slots, rows_fit_together,
    same_lists_same_slots, slice_is_part, slices_are_one, slot_of_slice, slots_are_counted,
    split_is_whole, used_slots_are_same,
};
pub use operations::BinaryOperation;
pub use types::{check_offset_type, offset_dtype};
pub use values_builder::MutableBinaryValuesArray;
