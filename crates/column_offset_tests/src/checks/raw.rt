//! Raw numbers, texts and keys.

use crate::cases::{error, shared as share};
use crate::checks::shared;
use column_base::{Cause, Offset, PolarsError};
use column_offset::{
    IndexKey, Offsets, check_indexes, check_offsets, check_offsets_bounds, check_utf8,
    no_fault_is_sound, try_check_offsets, try_check_offsets_bounds, try_check_utf8,
};
use std::alloc::Global;

// ---- raw numbers

fn numbers_are_told<O: Offset>(numbers: &[O], cause: Option<Cause>) -> bool {
    check_offsets(numbers).err() == cause && try_check_offsets(numbers).err() == error(cause)
}

fn vector_is_told<O: Offset>(
    alloc: Global,
    numbers: &[O],
    cause: Option<Cause>,
) -> Result<bool, PolarsError> {
    let numbers = Vec::from_slice(alloc, numbers)?;
    Ok(Offsets::try_from(numbers).err() == error(cause))
}

pub fn bound_is_told<O: Offset>(
    alloc: Global,
    numbers: &[O],
    count: usize,
    cause: Option<Cause>,
) -> Result<bool, PolarsError> {
    let offsets = share(alloc, numbers)?;
    offsets.known();
    Ok(
        check_offsets_bounds(offsets.as_slice(), count).err() == cause
            && try_check_offsets_bounds(offsets.as_slice(), count).err() == error(cause),
    )
}

/// Raw numbers that the check lets through are made offsets without a second one.
fn checked_once<O: Offset>(alloc: Global, numbers: &[O]) -> Result<bool, PolarsError> {
    let items = Vec::from_slice(alloc, numbers)?;
    if try_check_offsets(items.as_slice()).is_err() {
        return Ok(false);
    }
    no_fault_is_sound();
    let offsets = Offsets::new_unchecked(items);
    offsets.known();
    Ok(offsets.as_slice() == numbers)
}

/// The check, and each constructor that makes it.
pub fn are_told<O: Offset>(
    alloc: Global,
    numbers: &[O],
    cause: Option<Cause>,
) -> Result<bool, PolarsError> {
    Ok(
        numbers_are_told(numbers, cause)
            && vector_is_told(alloc, numbers, cause)?
            && shared::vector_is_told(alloc, numbers, cause)?
            && shared::buffer_is_told(alloc, numbers, cause)?
            && checked_once(alloc, numbers)? == cause.is_none(),
    )
}

// ---- texts

pub fn cut_is_told<O: Offset>(
    alloc: Global,
    numbers: &[O],
    values: &[u8],
    cause: Option<Cause>,
) -> Result<bool, PolarsError> {
    let offsets = share(alloc, numbers)?;
    Ok(
        check_utf8(offsets.as_slice(), values).err() == cause
            && try_check_utf8(offsets.as_slice(), values).err() == error(cause),
    )
}

// ---- keys

pub fn keys_are_told<K: IndexKey>(keys: &[K], len: usize, cause: Option<Cause>) -> bool {
    check_indexes(keys, len).err() == error(cause)
}

/// Keys within, and the first one past three values.
pub fn keys_are_tried<K: IndexKey>(within: &[K], past: &[K]) -> bool {
    keys_are_told(within, 3, None)
        && keys_are_told(past, 3, Some(Cause::KeyOutOfRange { key: 3, len: 3 }))
}

/// A negative key.
pub fn is_refused<K: IndexKey>(keys: &[K]) -> bool {
    keys_are_told(keys, 3, Some(Cause::KeyNotUsize))
}
