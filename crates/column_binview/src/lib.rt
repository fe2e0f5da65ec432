//! Columns of byte strings and of texts behind views. Arrow columnar format, "Variable-size Binary View Layout".
#![tactic(auto)]

mod apply;
mod array;
mod builder;
mod builder_laws;
mod constructors;
mod convert;
mod equality;
mod gather;
mod iterator;
mod laws;
mod len_iter;
mod lengths;
mod operations;
mod parts;
mod sources;
mod values;

pub use array::{BinaryViewArray, BinaryViewArrayGeneric, Utf8ViewArray};
pub use builder::{MutableBinaryViewArray, MutablePlBinary, MutablePlString};
pub use builder_laws::{
    buffers_append, builder_of_lists_is_sound, calls_append_together, equal_slots_append,
    gathering_is_refused_only_for_many_slots, given_rows_are_fine, given_views_are_fine,
    one_slot_is_changed, pushed_rows_append, rows_are_refused_for_length_or_number,
    rows_overflow_alone, sources_stay, values_need_no_validity,
};
pub use iterator::{BinaryViewValueIter, MutableBinaryViewValueIter};
pub use laws::{
    contents_are_slots, equal_where_rows_are, flags_of_slice, no_fault_is_sound, slice_is_part,
    slices_are_one, slot_of_slice, slots_are_counted, split_is_whole, texts_are_byte_strings,
};
pub use len_iter::LenIter;
pub use operations::ViewOperation;
