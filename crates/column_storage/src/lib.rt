//! Shared parts of columns, seen as lists: buffers of values, validity bitmaps and the buffers of views.
#![tactic(auto)]

mod accessor;
mod bitmap;
mod bitmap_iter;
mod buffer;
mod data_buffers;
mod growing_validity;
mod laws;
mod listed;
mod mutable_array;
mod mutable_bitmap;
mod non_null_values_iter;
mod operations;
mod true_idx_iter;
mod validity;
mod values_iter;
mod zip_validity;

pub use accessor::{ArrayAccessor, Values};
pub use bitmap::Bitmap;
pub use bitmap_iter::BitmapIter;
pub use buffer::Buffer;
pub use data_buffers::{DataBuffers, MAX_BUFFERS};
pub use growing_validity::{
    add_flags, apply_flags, check_flags, clone_flags, extend_constant_flags, flag_at,
    flags_into_mut, freeze_flags, pop_flag, push_null_flag, push_valid_flag, reserve_flags,
    room_for_flags, set_flag, shrink_flags, truncate_flags,
};
pub use laws::{
    flags_of_part, frozen_slots_are_same, no_fault_is_as_many, nulls_of_slots, rows_of_slots,
    same_flags_same_slots, slot_is_added, slot_is_flag_and_value, slot_of_slice,
    slots_are_cut_back, slots_are_joined, slots_are_values, slots_of_slice, slots_of_split,
    slots_of_two_slices,
};
pub use listed::{Flags, FlagsBack, Listed, ListedBack, Rest};
pub use mutable_array::MutableArray;
pub use mutable_bitmap::MutableBitmap;
pub use non_null_values_iter::NonNullValuesIter;
pub use operations::BitOperation;
pub use true_idx_iter::TrueIdxIter;
pub use validity::{check_validity, is_valid_at, null_count, share_validity, slice_validity};
pub use values_iter::ArrayValuesIter;
pub use zip_validity::ZipValidity;
