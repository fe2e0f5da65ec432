//! Buffers.

ghost use Rattle.std.specs.Prelude.{◌+◌, ◌≤◌, length};

use crate::cases::{four, numbers, two_buffers};
use column_base::PolarsError;
use column_storage::{ArrayAccessor, Buffer, DataBuffers};
use std::alloc::Global;

fn numbers_are(buffer: &Buffer<i32>, wanted: &[i32]) -> bool {
    buffer.len() == wanted.len()
        && ArrayAccessor::len(buffer) == wanted.len()
        && buffer.is_empty() == wanted.is_empty()
        && buffer.as_slice() == wanted
}

// ---- parts

/// How a part is taken.
#[derive(Clone, Copy, Debug)]
pub enum Call {
    Sliced,
    Slice,
    SliceUnchecked,
}

fn kept(mut buffer: Buffer<i32>, from: usize, count: usize) -> Buffer<i32>
    requires { from + count ≤ length buffer }
{
    buffer.slice(from, count);
    buffer
}

fn kept_unchecked(mut buffer: Buffer<i32>, from: usize, count: usize) -> Buffer<i32>
    requires { from + count ≤ length buffer }
{
    buffer.slice_unchecked(from, count);
    buffer
}

fn part(buffer: Buffer<i32>, call: Call, from: usize, count: usize) -> Buffer<i32>
    requires { from + count ≤ length buffer }
{
    match call {
        Call::Sliced => buffer.sliced(from, count),
        Call::Slice => kept(buffer, from, count),
        Call::SliceUnchecked => kept_unchecked(buffer, from, count),
    }
}

fn part_is(buffer: Buffer<i32>, call: Call, from: usize, count: usize, wanted: &[i32]) -> bool {
    from <= buffer.len()
        && count <= buffer.len() - from
        && numbers_are(&part(buffer, call, from, count), wanted)
}

/// Of four numbers.
pub fn four_give(
    alloc: Global,
    call: Call,
    from: usize,
    count: usize,
    wanted: &[i32],
) -> Result<bool, PolarsError> {
    Ok(part_is(four(alloc)?, call, from, count, wanted))
}

fn share_stays(alloc: Global, buffer: &Buffer<i32>) -> Result<bool, PolarsError> {
    Ok(
        part_is(buffer.try_clone(alloc)?, Call::Slice, 1, 2, &[20, 30])
            && numbers_are(buffer, &[10, 20, 30, 40]),
    )
}

/// A slice of a share: the whole stays as it was.
pub fn four_stay(alloc: Global) -> Result<bool, PolarsError> {
    share_stays(alloc, &four(alloc)?)
}

fn halves_are(
    alloc: Global,
    buffer: &Buffer<i32>,
    place: usize,
    front: &[i32],
    back: &[i32],
) -> Result<bool, PolarsError> {
    if place > buffer.len() {
        return Ok(false);
    }
    let (one, other) = buffer.split_at(alloc, place)?;
    Ok(numbers_are(&one, front) && numbers_are(&other, back))
}

pub fn four_split(
    alloc: Global,
    place: usize,
    front: &[i32],
    back: &[i32],
) -> Result<bool, PolarsError> {
    halves_are(alloc, &four(alloc)?, place, front, back)
}

// ---- vectors

fn middle_is_vector(alloc: Global, buffer: Buffer<i32>) -> Result<bool, PolarsError> {
    if buffer.len() != 4 {
        return Ok(false);
    }
    Ok(buffer.sliced(1, 2).make_mut(alloc)?.as_slice() == [20, 30].as_slice())
}

/// A vector that no other buffer shares is cut in place.
pub fn own_vector_is_cut(alloc: Global) -> Result<bool, PolarsError> {
    middle_is_vector(alloc, four(alloc)?)
}

fn share_is_copied(alloc: Global, buffer: &Buffer<i32>) -> Result<bool, PolarsError> {
    middle_is_vector(alloc, buffer.try_clone(alloc)?)
}

/// One that is shared is copied.
pub fn shared_vector_is_copied(alloc: Global) -> Result<bool, PolarsError> {
    share_is_copied(alloc, &four(alloc)?)
}

pub fn none_is_empty(alloc: Global) -> Result<bool, PolarsError> {
    Ok(numbers_are(&Buffer::new(alloc)?, &[]))
}

pub fn slice_is_copied(alloc: Global) -> Result<bool, PolarsError> {
    Ok(numbers_are(&numbers(alloc, &[-2, 7])?, &[-2, 7]))
}

pub fn vector_comes_or_goes_back(alloc: Global) -> Result<bool, PolarsError> {
    match Buffer::from_vec_or_back(alloc, vec![in alloc; -2i32, 7]?) {
        Ok(buffer) => Ok(numbers_are(&buffer, &[-2, 7])),
        Err(_vector) => Ok(false),
    }
}

// ---- lists of buffers

// as a number that fits 32 bits
fn count_of(buffers: &DataBuffers) -> i32 {
    buffers.known();
    buffers.len() as i32
}

fn two_are(buffers: &DataBuffers) -> bool {
    count_of(buffers) == 2
        && buffers.len() == 2
        && !buffers.is_empty()
        && buffers.total_len() == 3
        && buffers.get(1).as_slice() == [1u8, 4].as_slice()
}

pub fn two_buffers_are_counted(alloc: Global) -> Result<bool, PolarsError> {
    Ok(two_are(&two_buffers(alloc)?))
}

fn share_is(alloc: Global, buffers: &DataBuffers) -> Result<bool, PolarsError> {
    Ok(two_are(&buffers.try_clone(alloc)?))
}

pub fn two_buffers_are_shared(alloc: Global) -> Result<bool, PolarsError> {
    share_is(alloc, &two_buffers(alloc)?)
}

fn vector_has_two(alloc: Global, buffers: &DataBuffers) -> Result<bool, PolarsError> {
    Ok(buffers.to_vec(alloc)?.len() == 2)
}

pub fn two_buffers_are_a_vector(alloc: Global) -> Result<bool, PolarsError> {
    vector_has_two(alloc, &two_buffers(alloc)?)
}

fn are_none(buffers: &DataBuffers) -> bool {
    buffers.is_empty() && buffers.len() == 0 && buffers.total_len() == 0
}

pub fn no_buffers_are_empty(alloc: Global) -> Result<bool, PolarsError> {
    Ok(are_none(&DataBuffers::empty(alloc)?))
}
