//! What a builder of byte strings is seen to be: one truth value for each group of calls.

ghost use Rattle.std.specs.Prelude.{◌≡◌, length};

use crate::cases::{ROWS, VALUES, four};
use crate::checks::lists_are as array_is;
use column_base::{ArrowDataType, Cause, Offset, PolarsError, TryPush};
use column_binary::MutableBinaryArray;
use column_checks::{Flags, gives, grown_flags_are};
use column_offset::Offsets;
use column_storage::{MutableArray, MutableBitmap, check_flags};
use std::alloc::Global;

// ---- lists

pub fn lists_are<O: Offset>(
    builder: &MutableBinaryArray<O>,
    offsets: &[O],
    values: &[u8],
    flags: Flags<'_>,
) -> bool {
    builder.offsets().as_slice() == offsets
        && builder.values().as_slice() == values
        && grown_flags_are(builder.validity(), flags)
        && builder.len() + 1 == offsets.len()
        && builder.is_empty() == (offsets.len() == 1)
        && builder.capacity() >= builder.len()
}

pub fn three_rows<O: Offset>(builder: &MutableBinaryArray<O>, offsets: &[O; 4]) -> bool {
    lists_are(builder, offsets, &[1, 2, 3], Some(&[true, false, true]))
}

// ---- rows that are pushed

fn pushed(alloc: Global) -> Result<MutableBinaryArray<i32>, PolarsError> {
    let mut builder = MutableBinaryArray::new(alloc)?;
    push_rows(&mut builder)?;
    Ok(builder)
}

fn push_rows(builder: &mut MutableBinaryArray<i32>) -> Result<(), PolarsError> {
    builder.push_value(&[1, 2])?;
    builder.push_null()?;
    builder.push(Some(&[3]))
}

pub fn pushes_leave(alloc: Global) -> Result<bool, PolarsError> {
    Ok(three_rows(&pushed(alloc)?, &[0, 2, 2, 3]))
}

// one row after another, through the trait
fn try_rows<'a, B: TryPush<Option<&'a [u8]>>>(builder: &mut B) -> Result<(), PolarsError> {
    let [first, second, third] = ROWS;
    builder.try_push(first)?;
    builder.try_push(second)?;
    builder.try_push(third)
}

pub fn tries_leave(alloc: Global) -> Result<bool, PolarsError> {
    let mut builder = MutableBinaryArray::<i64>::with_capacities(alloc, 3, 3)?;
    Ok(try_rows(&mut builder).is_ok() && three_rows(&builder, &[0, 2, 2, 3]))
}

/// A null first, last and alone makes the validity.
pub fn nulls_leave(
    alloc: Global,
    rows: [Option<&[u8]>; 2],
    flags: Flags<'_>,
) -> Result<bool, PolarsError> {
    let mut builder = MutableBinaryArray::<i32>::with_capacity(alloc, 2)?;
    Ok(
        are_pushed(&mut builder, rows)
            && grown_flags_are(builder.validity(), flags)
            && builder.len() == 2,
    )
}

fn are_pushed(builder: &mut MutableBinaryArray<i32>, rows: [Option<&[u8]>; 2]) -> bool {
    let [first, second] = rows;
    builder.push(first).is_ok() && builder.push(second).is_ok()
}

// ---- rows that are taken

pub fn is_row(row: Option<Vec<u8>>, wanted: Option<&[u8]>) -> bool {
    match row {
        Some(bytes) => wanted == Some(bytes.as_slice()),
        None => wanted.is_none(),
    }
}

fn is_popped(
    builder: &mut MutableBinaryArray<i32>,
    wanted: Option<&[u8]>,
) -> Result<bool, PolarsError> {
    Ok(is_row(builder.pop()?, wanted))
}

// the rows come back last to first, then none
fn are_popped(builder: &mut MutableBinaryArray<i32>) -> Result<bool, PolarsError> {
    Ok(
        is_popped(builder, Some(&[3]))?
            && is_popped(builder, None)?
            && is_popped(builder, Some(&[1, 2]))?
            && is_popped(builder, None)?
            && lists_are(builder, &[0], b"", Some(&[])),
    )
}

pub fn pops_give(alloc: Global) -> Result<bool, PolarsError> {
    let mut builder = pushed(alloc)?;
    are_popped(&mut builder)
}

// ---- lists that are given

pub fn offsets_of(alloc: Global, numbers: &[i32]) -> Result<Offsets<i32>, PolarsError> {
    Offsets::try_from(Vec::from_slice(alloc, numbers)?)
}

fn flags_of(alloc: Global, flags: Flags<'_>) -> Result<Option<MutableBitmap>, PolarsError> {
    match flags {
        Some(flags) => Ok(Some(bits_of(alloc, flags)?)),
        None => Ok(None),
    }
}

fn bits_of(alloc: Global, flags: &[bool]) -> Result<MutableBitmap, PolarsError> {
    let mut bits = MutableBitmap::new(alloc);
    for flag in flags {
        bits.push(*flag)?;
    }
    Ok(bits)
}

// two slots that end at byte 3
fn of_lists(
    alloc: Global,
    values: &[u8],
    flags: Flags<'_>,
    dtype: ArrowDataType,
) -> Result<MutableBinaryArray<i32>, PolarsError> {
    let offsets = offsets_of(alloc, &[0, 1, 3])?;
    let values = Vec::from_slice(alloc, values)?;
    MutableBinaryArray::try_new(dtype, offsets, values, flags_of(alloc, flags)?)
}

/// Two slots that end at byte 3.
pub fn lists_are_told(
    alloc: Global,
    values: &[u8],
    flags: Flags<'_>,
    dtype: ArrowDataType,
    cause: Option<Cause>,
) -> bool {
    match of_lists(alloc, values, flags, dtype) {
        Ok(builder) => cause.is_none() && lists_are(&builder, &[0, 1, 3], values, flags),
        Err(error) => cause.map(PolarsError::ComputeError) == Some(error),
    }
}

fn is_handed_back(builder: MutableBinaryArray<i32>) -> bool {
    let (dtype, offsets, values, validity) = builder.into_inner();
    dtype == ArrowDataType::Binary
        && offsets.as_slice() == [0, 2, 2, 3].as_slice()
        && values.as_slice() == [1, 2, 3].as_slice()
        && grown_flags_are(validity.as_ref(), Some(&[true, false, true]))
}

fn lists_are_handed_back(alloc: Global) -> Result<bool, PolarsError> {
    Ok(is_handed_back(pushed(alloc)?))
}

// ---- slots of another builder

// two slots, before whose first offset a byte lies
fn others_of(alloc: Global, flags: Flags<'_>) -> Result<MutableBinaryArray<i32>, PolarsError> {
    let offsets = offsets_of(alloc, &[1, 1, 3])?;
    let values = Vec::from_slice(alloc, b"xyz")?;
    let validity = flags_of(alloc, flags)?;
    MutableBinaryArray::try_new(ArrowDataType::Binary, offsets, values, validity)
}

/// The slots of two builders, with a validity exactly where one of them has one.
pub fn both_are(
    alloc: Global,
    flags: Flags<'_>,
    others: Flags<'_>,
    wanted: Flags<'_>,
) -> Result<bool, PolarsError> {
    let other = others_of(alloc, others)?;
    let mut builder = of_lists(alloc, b"abc", flags, ArrowDataType::Binary)?;
    are_joined(&mut builder, &other, wanted)
}

fn are_joined(
    builder: &mut MutableBinaryArray<i32>,
    other: &MutableBinaryArray<i32>,
    wanted: Flags<'_>,
) -> Result<bool, PolarsError> {
    builder.try_extend_from_self(other)?;
    Ok(lists_are(builder, &[0, 1, 3, 3, 5], b"abcyz", wanted))
}

// ---- arrays of builders, and builders of arrays

fn frozen_is(alloc: Global) -> Result<bool, PolarsError> {
    let flags: Flags<'_> = Some(&[true, false, true]);
    Ok(array_is(&pushed(alloc)?.freeze()?, &[0, 2, 2, 3], &[1, 2, 3], flags))
}

fn first(alloc: Global) -> Result<MutableBinaryArray<i32>, PolarsError> {
    let mut builder = pushed(alloc)?;
    let _ = builder.pop()?;
    let _ = builder.pop()?;
    Ok(builder)
}

/// A validity without a null is dropped.
fn frozen_without_nulls_is(alloc: Global) -> Result<bool, PolarsError> {
    Ok(array_is(&first(alloc)?.freeze()?, &[0, 2], &[1, 2], None))
}

/// The value bytes after the last offset are cut off.
fn mutable_is(alloc: Global) -> Result<bool, PolarsError> {
    let builder = four(alloc)?.into_mut(alloc)?;
    let flags: Flags<'_> = Some(&[true, false, true, true]);
    Ok(lists_are(&builder, &[1, 3, 4, 4, 6], b"xabcde", flags))
}

// ---- readers, room, flags

fn row_is(builder: &MutableBinaryArray<i32>, i: usize, row: Option<&[u8]>, bytes: &[u8]) -> bool {
    i < builder.len()
        && builder.get(i) == row
        && builder.is_valid(i) == row.is_some()
        && builder.value(i) == bytes
        && builder.value_unchecked(i) == bytes
}

fn rows_are_given(builder: &MutableBinaryArray<i32>) -> bool {
    gives(builder.iter(), &ROWS) && gives(builder.values_iter(), &VALUES)
}

fn rows_are_there(builder: &MutableBinaryArray<i32>) -> Result<bool, PolarsError> {
    Ok(
        row_is(builder, 0, Some(&[1, 2]), &[1, 2])
            && row_is(builder, 1, None, b"")
            && builder.dtype() == ArrowDataType::Binary
            && MutableBinaryArray::<i32>::default_dtype() == ArrowDataType::Binary
            && rows_are_given(builder)
            && copy_is(builder)?,
    )
}

fn copy_is(builder: &MutableBinaryArray<i32>) -> Result<bool, PolarsError> {
    Ok(three_rows(&builder.try_clone()?, &[0, 2, 2, 3]))
}

fn rows_are_read(alloc: Global) -> Result<bool, PolarsError> {
    rows_are_there(&pushed(alloc)?)
}

/// Through the bound that every builder has.
pub fn is_asked<B: MutableArray>(builder: &mut B) -> Result<bool, PolarsError> {
    builder.push_null()?;
    builder.reserve_slots(3)?;
    builder.shrink_to_fit();
    Ok(builder.dtype() == ArrowDataType::Binary && !builder.is_empty())
}

fn builders_are_asked(alloc: Global) -> Result<bool, PolarsError> {
    let mut builder = MutableBinaryArray::<i32>::new(alloc)?;
    let is = is_asked(&mut builder)?;
    Ok(is && lists_are(&builder, &[0, 0], b"", Some(&[false])))
}

fn room_is_made(alloc: Global) -> Result<bool, PolarsError> {
    let mut builder = pushed(alloc)?;
    builder.reserve(40, 90)?;
    let room = builder.capacity() >= 43;
    builder.shrink_to_fit();
    Ok(room && three_rows(&builder, &[0, 2, 2, 3]))
}

// the flags of two slots, turned round
fn turned(mut bits: MutableBitmap) -> MutableBitmap
    ensures { length result.bits ≡ length bits.bits }
{
    if bits.len() == 2 {
        let first = bits.get(0);
        bits.set(0, bits.get(1));
        bits.set(1, first);
    }
    bits
}

/// Flags are turned round where there are some.
pub fn flags_are_turned(
    alloc: Global,
    flags: Flags<'_>,
    wanted: Flags<'_>,
) -> Result<bool, PolarsError> {
    let mut builder = of_lists(alloc, b"abc", flags, ArrowDataType::Binary)?;
    builder.apply_validity(turned);
    Ok(lists_are(&builder, &[0, 1, 3], b"abc", wanted))
}

fn is_beside(
    builder: MutableBinaryArray<i32>,
    bits: Option<MutableBitmap>,
    others: Flags<'_>,
) -> bool {
    match check_flags(bits.as_ref(), builder.len()) {
        Ok(()) => lists_are(&builder.with_validity(bits), &[0, 1, 3], b"abc", others),
        Err(_) => false,
    }
}

fn is_set(
    builder: &mut MutableBinaryArray<i32>,
    bits: Option<MutableBitmap>,
    others: Flags<'_>,
) -> bool {
    match check_flags(bits.as_ref(), builder.len()) {
        Ok(()) => builder.set_validity(bits),
        Err(_) => return false,
    }
    lists_are(builder, &[0, 1, 3], b"abc", others)
}

/// Other flags stand beside the same bytes.
pub fn flags_are_other(
    alloc: Global,
    flags: Flags<'_>,
    others: Flags<'_>,
) -> Result<bool, PolarsError> {
    let bits = flags_of(alloc, others)?;
    Ok(is_beside(
        of_lists(alloc, b"abc", flags, ArrowDataType::Binary)?,
        bits,
        others,
    ))
}

/// Other flags are put in place of those that there were.
pub fn flags_are_set(
    alloc: Global,
    flags: Flags<'_>,
    others: Flags<'_>,
) -> Result<bool, PolarsError> {
    let bits = flags_of(alloc, others)?;
    let mut builder = of_lists(alloc, b"abc", flags, ArrowDataType::Binary)?;
    Ok(is_set(&mut builder, bits, others))
}

// ---- together

/// Each call between builders and arrays.
pub fn arrays_are(alloc: Global) -> Result<bool, PolarsError> {
    Ok(
        frozen_is(alloc)?
            && frozen_without_nulls_is(alloc)?
            && mutable_is(alloc)?
            && lists_are_handed_back(alloc)?,
    )
}

/// Each reader, and the room.
pub fn builders_are_read(alloc: Global) -> Result<bool, PolarsError> {
    Ok(rows_are_read(alloc)? && builders_are_asked(alloc)? && room_is_made(alloc)?)
}
