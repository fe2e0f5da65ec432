//! Offsets that are shared, and their slots one by one.

use crate::cases::{error, hint_is, next_pair_is, pair_is, shared};
use column_base::{Cause, Offset, PolarsError, Splitable};
use column_offset::{Offsets, OffsetsBuffer, OffsetsContainer};
use column_storage::Buffer;
use std::alloc::Global;

// ---- constructors

fn are_new<O: Offset>(alloc: Global, numbers: &[O]) -> Result<bool, PolarsError> {
    Ok(OffsetsBuffer::<O>::new(alloc)?.as_slice() == numbers)
}

fn one_is(alloc: Global, length: i64, numbers: &[i64]) -> Result<bool, PolarsError> {
    if length < 0 {
        return Ok(false);
    }
    Ok(OffsetsBuffer::<i64>::one_with_length(alloc, length)?.as_slice() == numbers)
}

pub fn vector_is_told<O: Offset>(
    alloc: Global,
    numbers: &[O],
    cause: Option<Cause>,
) -> Result<bool, PolarsError> {
    let numbers = Vec::from_slice(alloc, numbers)?;
    Ok(OffsetsBuffer::try_from_vec(alloc, numbers).err() == error(cause))
}

pub fn buffer_is_told<O: Offset>(
    alloc: Global,
    numbers: &[O],
    cause: Option<Cause>,
) -> Result<bool, PolarsError> {
    let numbers = Buffer::from_vec(alloc, Vec::from_slice(alloc, numbers)?)?;
    Ok(OffsetsBuffer::try_from_buffer(numbers).err() == error(cause))
}

/// The numbers of shared offsets make offsets again, without a check.
fn are_made_again<O: Offset>(alloc: Global, numbers: &[O]) -> Result<bool, PolarsError> {
    let items = shared(alloc, numbers)?.into_inner();
    Ok(OffsetsBuffer::new_unchecked(items).as_slice() == numbers)
}

/// Offsets that were shared grow by one slot, and are shared again.
fn are_grown<O: Offset>(
    alloc: Global,
    numbers: &[O],
    length: usize,
    left: &[O],
) -> Result<bool, PolarsError> {
    let mut offsets: Offsets<O> = shared(alloc, numbers)?.into_mut(alloc)?;
    if offsets.try_push(length).is_err() {
        return Ok(false);
    }
    Ok(OffsetsBuffer::from_offsets(alloc, offsets)?.as_slice() == left)
}

pub fn are_made(alloc: Global) -> Result<bool, PolarsError> {
    Ok(
        are_new(alloc, &[0i32])?
            && one_is(alloc, 5, &[0, 5])?
            && are_made_again(alloc, &[1i32, 3, 3, 7])?
            && are_grown(alloc, &[0i32, 2], 1, &[0, 2, 3])?,
    )
}

// ---- readers

/// Readers of 1, 3, 3, 7.
fn are_read<O: Offset>(offsets: &OffsetsBuffer<O>) -> bool {
    offsets.len() == 4
        && offsets.len_proxy() == 3
        && pair_is(offsets.start_end(0), 1, 3)
        && pair_is(offsets.start_end_unchecked(2), 3, 7)
        && offsets.length_at(1) == 0
        && offsets.length_at(2) == 4
        && offsets.delta(0, 0) == 2
        && offsets.delta(1, 2) == 4
        && OffsetsContainer::last(offsets) == 7
        && OffsetsContainer::as_slice(offsets).len() == 4
        && offsets.buffer().len() == 4
}

fn ends_are<O: Offset>(offsets: &OffsetsBuffer<O>, first: O, last: O, range: O) -> bool {
    *offsets.first() == first && *offsets.last() == last && offsets.range() == range
}

// ---- slots one by one, and None again and again

/// The lengths of 1, 3, 3, 7.
fn lengths_are<O: Offset>(offsets: &OffsetsBuffer<O>) -> bool {
    let mut lengths = offsets.lengths();
    hint_is(lengths.size_hint(), 3)
        && lengths.len() == 3
        && lengths.next() == Some(2)
        && lengths.next() == Some(0)
        && hint_is(lengths.size_hint(), 1)
        && lengths.next() == Some(4)
        && lengths.next().is_none()
        && lengths.next().is_none()
        && lengths.len() == 0
}

/// Where the slots of 1, 3, 3, 7 start, and their lengths.
fn pairs_are<O: Offset>(offsets: &OffsetsBuffer<O>) -> bool {
    let mut pairs = offsets.offset_and_length_iter();
    hint_is(pairs.size_hint(), 3)
        && pairs.len() == 3
        && next_pair_is(pairs.next(), 1, 2)
        && next_pair_is(pairs.next(), 3, 0)
        && next_pair_is(pairs.next(), 3, 4)
        && pairs.next().is_none()
        && pairs.next().is_none()
        && hint_is(pairs.size_hint(), 0)
}

pub fn are_readable(alloc: Global) -> Result<bool, PolarsError> {
    let offsets = shared(alloc, &[1i32, 3, 3, 7])?;
    Ok(
        are_read(&offsets)
            && ends_are(&offsets, 1, 7, 6)
            && lengths_are(&offsets)
            && pairs_are(&offsets),
    )
}

pub fn are_readable_wide(alloc: Global) -> Result<bool, PolarsError> {
    let offsets = shared(alloc, &[1i64, 3, 3, 7])?;
    Ok(
        are_read(&offsets)
            && ends_are(&offsets, 1, 7, 6)
            && lengths_are(&offsets)
            && pairs_are(&offsets)
            && lengths_are_collected(alloc, &offsets, &[2, 0, 4])?,
    )
}

fn lengths_are_collected(
    alloc: Global,
    offsets: &OffsetsBuffer<i64>,
    wanted: &[usize],
) -> Result<bool, PolarsError> {
    let lengths: Vec<usize> = offsets.lengths().collect(alloc)?;
    Ok(lengths.as_slice() == wanted)
}

// ---- parts

fn part_is<O: Offset>(
    alloc: Global,
    numbers: &[O],
    from: usize,
    count: usize,
    part: &[O],
) -> Result<bool, PolarsError> {
    let mut offsets = shared(alloc, numbers)?;
    if count == 0 || from > offsets.len() || count > offsets.len() - from {
        return Ok(false);
    }
    offsets.slice(from, count);
    Ok(offsets.as_slice() == part)
}

fn unchecked_part_is<O: Offset>(
    alloc: Global,
    numbers: &[O],
    from: usize,
    count: usize,
    part: &[O],
) -> Result<bool, PolarsError> {
    let mut offsets = shared(alloc, numbers)?;
    if count == 0 || from > offsets.len() || count > offsets.len() - from {
        return Ok(false);
    }
    offsets.slice_unchecked(from, count);
    Ok(offsets.as_slice() == part)
}

/// Parts of 1, 3, 3, 7.
pub fn both_parts_are(
    alloc: Global,
    from: usize,
    count: usize,
    part: &[i32],
) -> Result<bool, PolarsError> {
    Ok(
        part_is(alloc, &[1, 3, 3, 7], from, count, part)?
            && unchecked_part_is(alloc, &[1, 3, 3, 7], from, count, part)?,
    )
}

fn share_is<O: Offset>(
    alloc: Global,
    offsets: &OffsetsBuffer<O>,
    numbers: &[O],
) -> Result<bool, PolarsError> {
    let share = offsets.try_clone(alloc)?;
    Ok(share == *offsets && share.as_slice() == numbers)
}

fn share_gives<O: Offset>(alloc: Global, numbers: &[O]) -> Result<bool, PolarsError> {
    let offsets = shared(alloc, numbers)?;
    share_is(alloc, &offsets, numbers)
}

pub fn are_shared(alloc: Global) -> Result<bool, PolarsError> {
    Ok(share_gives(alloc, &[1i32, 3, 3, 7])? && share_gives(alloc, &[1i64, 3, 3, 7])?)
}

fn bounds_are<O: Offset>(offsets: &OffsetsBuffer<O>, within: usize, past: usize) -> bool {
    offsets.check_bound(within) && !offsets.check_bound(past)
}

fn halves_are<O: Offset>(
    alloc: Global,
    offsets: &OffsetsBuffer<O>,
    place: usize,
    front: &[O],
    back: &[O],
) -> Result<bool, PolarsError> {
    if !offsets.check_bound(place) {
        return Ok(false);
    }
    let (one, other) = offsets.split_at(alloc, place)?;
    Ok(one.as_slice() == front && other.as_slice() == back)
}

fn unchecked_halves_are<O: Offset>(
    alloc: Global,
    offsets: &OffsetsBuffer<O>,
    place: usize,
    front: &[O],
    back: &[O],
) -> Result<bool, PolarsError> {
    if !offsets.check_bound(place) {
        return Ok(false);
    }
    let (one, other) = offsets.split_at_unchecked(alloc, place)?;
    Ok(one.as_slice() == front && other.as_slice() == back)
}

/// Halves of 0, 2, 5.
pub fn both_halves_are(
    alloc: Global,
    place: usize,
    front: &[i32],
    back: &[i32],
) -> Result<bool, PolarsError> {
    let offsets = shared(alloc, &[0i32, 2, 5])?;
    Ok(
        bounds_are(&offsets, 2, 3)
            && halves_are(alloc, &offsets, place, front, back)?
            && unchecked_halves_are(alloc, &offsets, place, front, back)?,
    )
}

// ---- widths

fn widened_is(alloc: Global, numbers: &[i32], wide: &[i64]) -> Result<bool, PolarsError> {
    let offsets = shared(alloc, numbers)?;
    Ok(OffsetsBuffer::<i64>::widen(alloc, &offsets)?.as_slice() == wide)
}

fn narrowed_is(alloc: Global, numbers: &[i64], narrow: &[i32]) -> Result<bool, PolarsError> {
    let offsets = shared(alloc, numbers)?;
    Ok(OffsetsBuffer::<i32>::narrow(alloc, &offsets)?.as_slice() == narrow)
}

fn narrow_is_told(
    alloc: Global,
    numbers: &[i64],
    cause: Option<Cause>,
) -> Result<bool, PolarsError> {
    let offsets = shared(alloc, numbers)?;
    Ok(OffsetsBuffer::<i32>::narrow(alloc, &offsets).err() == error(cause))
}

fn comes_back(alloc: Global, numbers: &[i32]) -> Result<bool, PolarsError> {
    let offsets = shared(alloc, numbers)?;
    Ok(OffsetsBuffer::<i32>::widen_and_narrow(alloc, &offsets)? == offsets)
}

pub fn change_their_width(alloc: Global) -> Result<bool, PolarsError> {
    let over = Some(Cause::Overflow);
    Ok(
        widened_is(alloc, &[0, 2147483647], &[0, 2147483647])?
            && narrowed_is(alloc, &[0, 2147483647], &[0, 2147483647])?
            && narrow_is_told(alloc, &[0, 2147483648], over)?
            && comes_back(alloc, &[0, 1, 2147483647])?,
    )
}

// ---- text

pub fn debug_is(alloc: Global, numbers: &[i32], text: &str) -> Result<bool, PolarsError> {
    let offsets = shared(alloc, numbers)?;
    Ok(format!(in alloc; "{offsets:?}")?.as_str() == text)
}
