//! Offsets that grow.

use crate::cases::{error, growing, pair_is, shared};
use column_base::{Cause, Offset, PolarsError};
use column_offset::{Offsets, OffsetsContainer, OffsetsOperation};
use std::alloc::Global;

// ---- constructors

fn are_new<O: Offset>(alloc: Global, numbers: &[O]) -> Result<bool, PolarsError> {
    Ok(Offsets::<O>::new(alloc)?.as_slice() == numbers)
}

fn are_zeros<O: Offset>(alloc: Global, count: usize, numbers: &[O]) -> Result<bool, PolarsError> {
    if count > 9 {
        return Ok(false);
    }
    Ok(Offsets::<O>::new_zeroed(alloc, count)?.as_slice() == numbers)
}

fn are_from_lengths<O: Offset>(alloc: Global, numbers: &[O]) -> Result<bool, PolarsError> {
    Ok(Offsets::<O>::try_from_lengths(alloc, [2usize, 0, 3].into_iter())?.as_slice() == numbers)
}

fn are_from_items<O: Offset>(alloc: Global, numbers: &[O]) -> Result<bool, PolarsError> {
    Ok(Offsets::<O>::try_from_iter(alloc, [2usize, 0, 3])?.as_slice() == numbers)
}

pub fn are_made(alloc: Global) -> Result<bool, PolarsError> {
    Ok(
        are_new(alloc, &[0i32])?
            && are_new(alloc, &[0i64])?
            && are_zeros(alloc, 2, &[0i32, 0, 0])?
            && are_from_lengths(alloc, &[0i32, 2, 2, 5])?
            && are_from_items(alloc, &[0i64, 2, 2, 5])?,
    )
}

// ---- readers

/// Readers of 1, 3, 3, 7.
fn are_read<O: Offset>(offsets: &Offsets<O>) -> bool {
    offsets.len() == 4
        && offsets.len_proxy() == 3
        && pair_is(offsets.start_end(0), 1, 3)
        && pair_is(offsets.start_end_unchecked(2), 3, 7)
        && offsets.length_at(1) == 0
        && offsets.length_at(2) == 4
        && OffsetsContainer::last(offsets) == 7
        && OffsetsContainer::as_slice(offsets).len() == 4
}

fn ends_are<O: Offset>(offsets: &Offsets<O>, first: O, last: O) -> bool {
    *offsets.first() == first && *offsets.last() == last
}

pub fn are_readable(alloc: Global) -> Result<bool, PolarsError> {
    let offsets = growing(alloc, &[1i32, 3, 3, 7])?;
    Ok(are_read(&offsets) && ends_are(&offsets, 1, 7))
}

pub fn are_readable_wide(alloc: Global) -> Result<bool, PolarsError> {
    let offsets = growing(alloc, &[1i64, 3, 3, 7])?;
    Ok(are_read(&offsets) && ends_are(&offsets, 1, 7))
}

fn are_handed_back<O: Offset>(alloc: Global, numbers: &[O]) -> Result<bool, PolarsError> {
    Ok(growing(alloc, numbers)?.into_inner().as_slice() == numbers)
}

// ---- room

fn room_is_made<O: Offset>(alloc: Global) -> Result<bool, PolarsError> {
    let mut offsets = Offsets::<O>::with_capacity(alloc, 3)?;
    if offsets.capacity() < 3 || offsets.reserve(5).is_err() {
        return Ok(false);
    }
    let before = offsets.capacity();
    offsets.shrink_to_fit();
    Ok(before >= 5 && offsets.capacity() <= before && offsets.len() == 1)
}

// ---- writers

pub fn push_gives<O: Offset>(
    alloc: Global,
    numbers: &[O],
    length: usize,
    cause: Option<Cause>,
    left: &[O],
) -> Result<bool, PolarsError> {
    let mut offsets = growing(alloc, numbers)?;
    Ok(offsets.try_push(length).err() == error(cause) && offsets.as_slice() == left)
}

fn pop_gives<O: Offset>(
    alloc: Global,
    numbers: &[O],
    last: Option<O>,
    left: &[O],
) -> Result<bool, PolarsError> {
    let mut offsets = growing(alloc, numbers)?;
    Ok(offsets.pop() == last && offsets.as_slice() == left)
}

fn constant_gives<O: Offset>(
    alloc: Global,
    numbers: &[O],
    count: usize,
    left: &[O],
) -> Result<bool, PolarsError> {
    let mut offsets = growing(alloc, numbers)?;
    Ok(offsets.extend_constant(count).is_ok() && offsets.as_slice() == left)
}

fn lengths_give<O: Offset>(
    alloc: Global,
    numbers: &[O],
    lengths: [usize; 2],
    cause: Option<Cause>,
    left: &[O],
) -> Result<bool, PolarsError> {
    let mut offsets = growing(alloc, numbers)?;
    Ok(
        offsets.try_extend_from_lengths(lengths.into_iter()).err() == error(cause)
            && offsets.as_slice() == left,
    )
}

fn others_add<O: Offset>(
    alloc: Global,
    numbers: &[O],
    other: &Offsets<O>,
    cause: Option<Cause>,
    left: &[O],
) -> Result<bool, PolarsError> {
    let mut offsets = growing(alloc, numbers)?;
    Ok(offsets.try_extend_from_self(other).err() == error(cause) && offsets.as_slice() == left)
}

fn others_give<O: Offset>(
    alloc: Global,
    numbers: &[O],
    other: &[O],
    cause: Option<Cause>,
    left: &[O],
) -> Result<bool, PolarsError> {
    let other = growing(alloc, other)?;
    others_add(alloc, numbers, &other, cause, left)
}

/// One slot of 5, 7, 9, from the middle on.
fn part_gives<O: Offset>(
    alloc: Global,
    numbers: &[O],
    other: &[O],
    left: &[O],
) -> Result<bool, PolarsError> {
    let other = shared(alloc, other)?;
    if other.len() != 3 {
        return Ok(false);
    }
    let mut offsets = growing(alloc, numbers)?;
    Ok(offsets.try_extend_from_slice(&other, 1, 1).is_ok() && offsets.as_slice() == left)
}

/// Slots are taken, and slots of no bytes are added.
pub fn are_popped_and_padded(alloc: Global) -> Result<bool, PolarsError> {
    Ok(
        pop_gives(alloc, &[0i32], None, &[0])?
            && pop_gives(alloc, &[0i32, 3], Some(3), &[0])?
            && pop_gives(alloc, &[0i64], None, &[0])?
            && pop_gives(alloc, &[0i64, 3, 4], Some(4), &[0, 3])?
            && constant_gives(alloc, &[0i32, 3], 2, &[0, 3, 3, 3])?
            && constant_gives(alloc, &[0i32, 2, 2, 5], 2, &[0, 2, 2, 5, 5, 5])?,
    )
}

/// Lengths and the slots of others are added, or nothing is changed.
pub fn are_extended(alloc: Global) -> Result<bool, PolarsError> {
    let over = Some(Cause::Overflow);
    Ok(
        lengths_give(alloc, &[0i32, 1], [4, 0], None, &[0, 1, 5, 5])?
            && lengths_give(alloc, &[2147483646i32], [1, 1], over, &[2147483646])?
            && others_give(alloc, &[0i32, 1], &[5, 7], None, &[0, 1, 3])?
            && others_give(alloc, &[2147483646i32], &[0, 2], over, &[2147483646])?
            && part_gives(alloc, &[0i32, 1], &[5, 7, 9], &[0, 1, 3])?,
    )
}

// ---- copies and equality

fn copy_is<O: Offset>(offsets: &Offsets<O>) -> Result<bool, PolarsError> {
    Ok(offsets.try_clone()? == *offsets)
}

fn copy_gives<O: Offset>(alloc: Global, numbers: &[O]) -> Result<bool, PolarsError> {
    let offsets = growing(alloc, numbers)?;
    copy_is(&offsets)
}

pub fn are_kept(alloc: Global) -> Result<bool, PolarsError> {
    Ok(
        are_handed_back(alloc, &[1i32, 3, 3, 7])?
            && copy_gives(alloc, &[1i32, 3, 3, 7])?
            && copy_gives(alloc, &[1i64, 3, 3, 7])?
            && room_is_made::<i32>(alloc)?,
    )
}

// ---- widths

fn widened_is(alloc: Global, numbers: &[i32], wide: &[i64]) -> Result<bool, PolarsError> {
    Ok(Offsets::<i64>::widen(alloc, growing(alloc, numbers)?)?.as_slice() == wide)
}

fn narrowed_is(alloc: Global, numbers: &[i64], narrow: &[i32]) -> Result<bool, PolarsError> {
    Ok(Offsets::<i32>::narrow(alloc, growing(alloc, numbers)?)?.as_slice() == narrow)
}

fn narrow_is_told(
    alloc: Global,
    numbers: &[i64],
    cause: Option<Cause>,
) -> Result<bool, PolarsError> {
    Ok(Offsets::<i32>::narrow(alloc, growing(alloc, numbers)?).err() == error(cause))
}

fn comes_back(alloc: Global, numbers: &[i32]) -> Result<bool, PolarsError> {
    Ok(Offsets::<i32>::widen_and_narrow(alloc, growing(alloc, numbers)?)?.as_slice() == numbers)
}

pub fn change_their_width(alloc: Global) -> Result<bool, PolarsError> {
    let over = Some(Cause::Overflow);
    Ok(
        widened_is(alloc, &[0, 1, 3], &[0, 1, 3])?
            && narrowed_is(alloc, &[0, 1, 3], &[0, 1, 3])?
            && narrow_is_told(alloc, &[9223372036854775807], over)?
            && comes_back(alloc, &[0, 1, 2147483647])?,
    )
}

// ---- operations

fn operations_give<O: Offset>(
    alloc: Global,
    operations: &[OffsetsOperation],
    numbers: &[O],
) -> Result<bool, PolarsError> {
    Ok(Offsets::<O>::replay(alloc, operations)?.as_slice() == numbers)
}

fn operations_are_told<O: Offset>(
    alloc: Global,
    operations: &[OffsetsOperation],
    cause: Option<Cause>,
) -> bool {
    Offsets::<O>::replay(alloc, operations).err() == error(cause)
}

pub fn operations_leave_their_slots(alloc: Global) -> Result<bool, PolarsError> {
    let some = [
        OffsetsOperation::Pop,
        OffsetsOperation::Push(2),
        OffsetsOperation::Push(4),
        OffsetsOperation::Pop,
        OffsetsOperation::Push(0),
        OffsetsOperation::Push(3),
    ];
    let past = [
        OffsetsOperation::Push(2147483647),
        OffsetsOperation::Pop,
        OffsetsOperation::Push(2147483647),
        OffsetsOperation::Push(1),
        OffsetsOperation::Pop,
    ];
    Ok(
        operations_give(alloc, &some, &[0i32, 2, 2, 5])?
            && operations_are_told::<i32>(alloc, &past, Some(Cause::Overflow))
            && operations_give(alloc, &past, &[0i64, 2147483647])?,
    )
}

// ---- text

pub fn debug_is(alloc: Global, numbers: &[i32], text: &str) -> Result<bool, PolarsError> {
    let offsets = growing(alloc, numbers)?;
    Ok(format!(in alloc; "{offsets:?}")?.as_str() == text)
}
