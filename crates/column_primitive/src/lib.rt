//! Columns of numbers of a fixed number of bytes, and their builders. Arrow columnar format, "Fixed-size Primitive
//! Layout".
#![tactic(auto)]

mod aliases;
mod array;
mod builder;
mod constructors;
mod equality;
mod freezing;
mod into_iter;
mod iterator;
mod laws;
mod operations;
mod signs;
mod types;

pub use aliases::{
    DaysMsArray, DaysMsVec, Int8Array, Int8Vec, Int16Array, Int16Vec, Int32Array, Int32Vec,
    Int64Array, Int64Vec, Int128Array, Int128Vec, MonthsDaysNsArray, MonthsDaysNsVec, UInt8Array,
    UInt8Vec, UInt16Array, UInt16Vec, UInt32Array, UInt32Vec, UInt64Array, UInt64Vec,
};
pub use array::PrimitiveArray;
pub use builder::MutablePrimitiveArray;
pub use into_iter::PrimitiveIntoIter;
pub use iterator::{MutablePrimitiveValuesIter, PrimitiveValuesIter};
pub use laws::{
    constant_slots_are_alike, equal_where_rows_are, first_slots_are_first, flags_of_slice,
    frozen_slots_are_same, joined_slots_are_both, no_fault_is_sound, push_adds_a_slot,
    rows_are_never_refused, same_lists_same_slots, set_changes_a_slot, slice_is_part,
    slices_are_one, slot_is_number, slot_of_slice, slots_are_counted, slots_are_rows,
    split_is_whole, values_need_no_validity,
};
pub use operations::NumberOperation;
pub use types::check_number_type;
