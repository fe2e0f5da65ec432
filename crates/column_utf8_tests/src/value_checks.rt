//! What a builder of values that are texts is seen to be: one truth value for each group of calls.

use crate::builder_checks::{is_asked, is_text, lists_are as rows_are, offsets_of};
use crate::cases::{VALUES, lists_of};
use crate::checks::texts_are;
use column_base::{ArrowDataType, Cause, Offset, PolarsError, TryExtendFromSelf, TryPush};
use column_checks::{Flags, gives, gives_back};
use column_utf8::{MutableUtf8Array, MutableUtf8ValuesArray};
use std::alloc::Global;

// ---- lists

pub fn lists_are<O: Offset>(
    builder: &MutableUtf8ValuesArray<O>,
    offsets: &[O],
    values: &[u8],
) -> bool {
    builder.offsets().as_slice() == offsets
        && builder.values().as_slice() == values
        && builder.validity().is_none()
        && builder.len() + 1 == offsets.len()
        && builder.is_empty() == (offsets.len() == 1)
        && builder.capacity() >= builder.len()
}

pub fn three_values<O: Offset>(builder: &MutableUtf8ValuesArray<O>, offsets: &[O; 4]) -> bool {
    lists_are(builder, offsets, b"hithere")
}

// ---- values that are pushed

fn pushed(alloc: Global) -> Result<MutableUtf8ValuesArray<i64>, PolarsError> {
    let mut builder = MutableUtf8ValuesArray::with_capacity(alloc, 3)?;
    push_values(&mut builder)?;
    Ok(builder)
}

fn push_values(builder: &mut MutableUtf8ValuesArray<i64>) -> Result<(), PolarsError> {
    builder.push("hi")?;
    builder.push_null()?;
    builder.try_push("there")
}

pub fn pushes_leave(alloc: Global) -> Result<bool, PolarsError> {
    Ok(three_values(&pushed(alloc)?, &[0, 2, 2, 7]))
}

// ---- values that are taken

fn is_popped(
    builder: &mut MutableUtf8ValuesArray<i64>,
    wanted: Option<&str>,
) -> Result<bool, PolarsError> {
    Ok(is_text(builder.pop()?, wanted))
}

// the second is empty, and not None
fn are_popped(builder: &mut MutableUtf8ValuesArray<i64>) -> Result<bool, PolarsError> {
    Ok(
        is_popped(builder, Some("there"))?
            && is_popped(builder, Some(""))?
            && is_popped(builder, Some("hi"))?
            && is_popped(builder, None)?
            && lists_are(builder, &[0], b""),
    )
}

/// The values come back last to first, then none, and nothing is left.
pub fn pops_give(alloc: Global) -> Result<bool, PolarsError> {
    let mut builder = pushed(alloc)?;
    are_popped(&mut builder)
}

// ---- lists that are given

/// Two slots that end at byte 3.
pub fn lists_are_told(
    alloc: Global,
    values: &[u8],
    dtype: ArrowDataType,
    cause: Option<Cause>,
) -> Result<bool, PolarsError> {
    let offsets = offsets_of(alloc, &[0, 1, 3])?;
    let bytes = Vec::from_slice(alloc, values)?;
    Ok(
        match MutableUtf8ValuesArray::try_new(dtype, offsets, bytes) {
            Ok(builder) => cause.is_none() && lists_are(&builder, &[0, 1, 3], values),
            Err(error) => cause.map(PolarsError::ComputeError) == Some(error),
        },
    )
}

fn is_taken_again(builder: MutableUtf8ValuesArray<i64>) -> bool {
    let (dtype, offsets, values) = builder.into_inner();
    three_values(
        &MutableUtf8ValuesArray::new_unchecked(dtype, offsets, values),
        &[0, 2, 2, 7],
    )
}

/// The lists that are handed back make the same builder.
fn lists_are_taken_again(alloc: Global) -> Result<bool, PolarsError> {
    Ok(is_taken_again(pushed(alloc)?))
}

// ---- slots of another builder

fn are_joined(
    builder: &mut MutableUtf8ValuesArray<i64>,
    other: &MutableUtf8ValuesArray<i64>,
) -> Result<bool, PolarsError> {
    TryExtendFromSelf::try_extend_from_self(builder, other)?;
    Ok(lists_are(builder, &[0, 2, 2, 7, 9, 9, 14], b"hitherehithere"))
}

/// The slots of two builders, through the trait.
pub fn both_are(alloc: Global) -> Result<bool, PolarsError> {
    let other = pushed(alloc)?;
    let mut builder = pushed(alloc)?;
    are_joined(&mut builder, &other)
}

// ---- arrays and builders of rows

fn frozen_is(alloc: Global) -> Result<bool, PolarsError> {
    let wanted = lists_of(&[0, 2, 2, 7], b"hithere", None);
    Ok(texts_are(&pushed(alloc)?.freeze()?, wanted))
}

fn takes_a_null(builder: &mut MutableUtf8Array<i64>) -> Result<bool, PolarsError> {
    builder.push_null()?;
    let flags: Flags<'_> = Some(&[true, true, true, false]);
    Ok(rows_are(builder, &[0, 2, 2, 7, 7], b"hithere", flags))
}

/// The same slots, and a null after them.
fn nullable_is(alloc: Global) -> Result<bool, PolarsError> {
    let mut builder = pushed(alloc)?.into_nullable();
    takes_a_null(&mut builder)
}

// ---- readers and room

fn value_is(builder: &MutableUtf8ValuesArray<i64>, i: usize, text: &str) -> bool {
    i < builder.len() && builder.value(i) == text && builder.value_unchecked(i) == text
}

fn values_are_given(builder: &MutableUtf8ValuesArray<i64>) -> bool {
    gives(builder.iter(), &VALUES)
        && gives(builder.into_iter(), &VALUES)
        && gives_back(builder.values_iter(), &["there", "", "hi"])
}

fn values_are_there(builder: &MutableUtf8ValuesArray<i64>) -> Result<bool, PolarsError> {
    Ok(
        value_is(builder, 1, "")
            && value_is(builder, 2, "there")
            && builder.dtype() == ArrowDataType::LargeUtf8
            && MutableUtf8ValuesArray::<i64>::default_dtype() == ArrowDataType::LargeUtf8
            && values_are_given(builder)
            && copy_is(builder)?,
    )
}

fn copy_is(builder: &MutableUtf8ValuesArray<i64>) -> Result<bool, PolarsError> {
    Ok(three_values(&builder.try_clone()?, &[0, 2, 2, 7]))
}

fn values_are_read(alloc: Global) -> Result<bool, PolarsError> {
    values_are_there(&pushed(alloc)?)
}

fn builders_are_asked(alloc: Global) -> Result<bool, PolarsError> {
    let mut builder = MutableUtf8ValuesArray::<i32>::with_capacities(alloc, 1, 1)?;
    let is = is_asked(&mut builder)?;
    Ok(is && lists_are(&builder, &[0, 0], b""))
}

fn room_is_made(alloc: Global) -> Result<bool, PolarsError> {
    let mut builder = pushed(alloc)?;
    builder.reserve(40, 90)?;
    let room = builder.capacity() >= 43;
    builder.shrink_to_fit();
    Ok(room && three_values(&builder, &[0, 2, 2, 7]))
}

// ---- together

/// Each call between builders, and to arrays.
pub fn arrays_are(alloc: Global) -> Result<bool, PolarsError> {
    Ok(frozen_is(alloc)? && nullable_is(alloc)? && lists_are_taken_again(alloc)?)
}

/// Each reader, and the room.
pub fn builders_are_read(alloc: Global) -> Result<bool, PolarsError> {
    Ok(values_are_read(alloc)? && builders_are_asked(alloc)? && room_is_made(alloc)?)
}
