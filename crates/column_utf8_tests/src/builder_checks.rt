//! What a builder of texts is seen to be: one truth value for each group of calls.

ghost use Rattle.std.specs.Prelude.{◌≡◌, length};

use crate::cases::{ROWS, VALUES, four, lists_of};
use crate::checks::texts_are;
use column_base::{ArrowDataType, Cause, Offset, PolarsError, TryPush};
use column_checks::{Flags, gives, grown_flags_are};
use column_offset::Offsets;
use column_storage::{MutableArray, MutableBitmap, check_flags};
use column_utf8::MutableUtf8Array;
use std::alloc::Global;

// ---- lists

pub fn lists_are<O: Offset>(
    builder: &MutableUtf8Array<O>,
    offsets: &[O],
    values: &[u8],
    flags: Flags<'_>,
) -> bool {
    builder.offsets().as_slice() == offsets
        && builder.values().as_slice() == values
        && grown_flags_are(builder.validity(), flags)
        && builder.len() + 1 == offsets.len()
        && builder.is_empty() == (offsets.len() == 1)
        && builder.capacity() >= builder.len()
}

pub fn three_rows<O: Offset>(builder: &MutableUtf8Array<O>, offsets: &[O; 4]) -> bool {
    lists_are(builder, offsets, b"hithere", Some(&[true, false, true]))
}

// ---- rows that are pushed

fn pushed(alloc: Global) -> Result<MutableUtf8Array<i32>, PolarsError> {
    let mut builder = MutableUtf8Array::new(alloc)?;
    push_rows(&mut builder)?;
    Ok(builder)
}

fn push_rows(builder: &mut MutableUtf8Array<i32>) -> Result<(), PolarsError> {
    builder.push_value("hi")?;
    builder.push_null()?;
    builder.push(Some("there"))
}

pub fn pushes_leave(alloc: Global) -> Result<bool, PolarsError> {
    Ok(three_rows(&pushed(alloc)?, &[0, 2, 2, 7]))
}

// one row after another, through the trait
fn try_rows<'a, B: TryPush<Option<&'a str>>>(builder: &mut B) -> Result<(), PolarsError> {
    let [first, second, third] = ROWS;
    builder.try_push(first)?;
    builder.try_push(second)?;
    builder.try_push(third)
}

pub fn tries_leave(alloc: Global) -> Result<bool, PolarsError> {
    let mut builder = MutableUtf8Array::<i64>::with_capacities(alloc, 3, 7)?;
    Ok(try_rows(&mut builder).is_ok() && three_rows(&builder, &[0, 2, 2, 7]))
}

/// A null first, last and alone makes the validity.
pub fn nulls_leave(
    alloc: Global,
    rows: [Option<&str>; 2],
    flags: Flags<'_>,
) -> Result<bool, PolarsError> {
    let mut builder = MutableUtf8Array::<i32>::with_capacity(alloc, 2)?;
    Ok(
        are_pushed(&mut builder, rows)
            && grown_flags_are(builder.validity(), flags)
            && builder.len() == 2,
    )
}

fn are_pushed(builder: &mut MutableUtf8Array<i32>, rows: [Option<&str>; 2]) -> bool {
    let [first, second] = rows;
    builder.push(first).is_ok() && builder.push(second).is_ok()
}

// ---- rows that are taken

pub fn is_text(row: Option<String>, wanted: Option<&str>) -> bool {
    match row {
        Some(text) => wanted == Some(text.as_str()),
        None => wanted.is_none(),
    }
}

fn is_popped(
    builder: &mut MutableUtf8Array<i32>,
    wanted: Option<&str>,
) -> Result<bool, PolarsError> {
    Ok(is_text(builder.pop()?, wanted))
}

// the rows come back last to first, then none
fn are_popped(builder: &mut MutableUtf8Array<i32>) -> Result<bool, PolarsError> {
    Ok(
        is_popped(builder, Some("there"))?
            && is_popped(builder, None)?
            && is_popped(builder, Some("hi"))?
            && is_popped(builder, None)?
            && lists_are(builder, &[0], b"", Some(&[])),
    )
}

pub fn pops_give(alloc: Global) -> Result<bool, PolarsError> {
    let mut builder = pushed(alloc)?;
    are_popped(&mut builder)
}

// ---- lists that are given

pub fn offsets_of(alloc: Global, numbers: &[i32]) -> Result<Offsets<i32>, PolarsError> {
    Offsets::try_from(Vec::from_slice(alloc, numbers)?)
}

fn flags_of(alloc: Global, flags: Flags<'_>) -> Result<Option<MutableBitmap>, PolarsError> {
    match flags {
        Some(flags) => Ok(Some(bits_of(alloc, flags)?)),
        None => Ok(None),
    }
}

fn bits_of(alloc: Global, flags: &[bool]) -> Result<MutableBitmap, PolarsError> {
    let mut bits = MutableBitmap::new(alloc);
    for flag in flags {
        bits.push(*flag)?;
    }
    Ok(bits)
}

// two slots that end at byte 3
fn of_lists(
    alloc: Global,
    values: &[u8],
    flags: Flags<'_>,
    dtype: ArrowDataType,
) -> Result<MutableUtf8Array<i32>, PolarsError> {
    let offsets = offsets_of(alloc, &[0, 1, 3])?;
    let values = Vec::from_slice(alloc, values)?;
    MutableUtf8Array::try_new(dtype, offsets, values, flags_of(alloc, flags)?)
}

/// Two slots that end at byte 3.
pub fn lists_are_told(
    alloc: Global,
    values: &[u8],
    flags: Flags<'_>,
    dtype: ArrowDataType,
    cause: Option<Cause>,
) -> bool {
    match of_lists(alloc, values, flags, dtype) {
        Ok(builder) => cause.is_none() && lists_are(&builder, &[0, 1, 3], values, flags),
        Err(error) => cause.map(PolarsError::ComputeError) == Some(error),
    }
}

// the lists that are handed back make the same builder
fn is_taken_again(builder: MutableUtf8Array<i32>) -> bool {
    let (dtype, offsets, values, validity) = builder.into_inner();
    three_rows(
        &MutableUtf8Array::new_unchecked(dtype, offsets, values, validity),
        &[0, 2, 2, 7],
    )
}

fn is_handed_back(builder: MutableUtf8Array<i32>) -> bool {
    let (dtype, offsets, values, validity) = builder.into_data();
    dtype == ArrowDataType::Utf8
        && offsets.as_slice() == [0, 2, 2, 7].as_slice()
        && values.as_slice() == b"hithere".as_slice()
        && grown_flags_are(validity.as_ref(), Some(&[true, false, true]))
}

/// The lists that are handed back, and the same builder made of them.
fn lists_are_taken_again(alloc: Global) -> Result<bool, PolarsError> {
    Ok(is_taken_again(pushed(alloc)?) && is_handed_back(pushed(alloc)?))
}

// ---- slots of another builder

/// The slots of two builders, with a validity exactly where one of them has one.
pub fn both_are(
    alloc: Global,
    flags: Flags<'_>,
    others: Flags<'_>,
    wanted: Flags<'_>,
) -> Result<bool, PolarsError> {
    let other = of_lists(alloc, b"xyz", others, ArrowDataType::Utf8)?;
    let mut builder = of_lists(alloc, "aé".as_bytes(), flags, ArrowDataType::Utf8)?;
    are_joined(&mut builder, &other, wanted)
}

fn are_joined(
    builder: &mut MutableUtf8Array<i32>,
    other: &MutableUtf8Array<i32>,
    wanted: Flags<'_>,
) -> Result<bool, PolarsError> {
    builder.try_extend_from_self(other)?;
    Ok(lists_are(builder, &[0, 1, 3, 4, 6], "aéxyz".as_bytes(), wanted))
}

// ---- arrays of builders, and builders of arrays

fn frozen_is(alloc: Global) -> Result<bool, PolarsError> {
    let flags: Flags<'_> = Some(&[true, false, true]);
    let wanted = lists_of(&[0, 2, 2, 7], b"hithere", flags);
    Ok(texts_are(&pushed(alloc)?.freeze()?, wanted))
}

fn first(alloc: Global) -> Result<MutableUtf8Array<i32>, PolarsError> {
    let mut builder = pushed(alloc)?;
    let _ = builder.pop()?;
    let _ = builder.pop()?;
    Ok(builder)
}

/// A validity without a null is dropped.
fn frozen_without_nulls_is(alloc: Global) -> Result<bool, PolarsError> {
    Ok(texts_are(&first(alloc)?.freeze()?, lists_of(&[0, 2], b"hi", None)))
}

/// The value bytes after the last offset are cut off; the one before the first, which is no text, stays.
fn mutable_is(alloc: Global) -> Result<bool, PolarsError> {
    let builder = four::<i32>(alloc)?.into_mut(alloc)?;
    let flags: Flags<'_> = Some(&[true, false, true, true]);
    let values = b"\x80\xC3\xA9x\xE2\x82\xACb";
    Ok(lists_are(&builder, &[1, 3, 4, 4, 8], values, flags))
}

// ---- readers, room, flags

fn row_is(builder: &MutableUtf8Array<i32>, i: usize, row: Option<&str>, text: &str) -> bool {
    i < builder.len()
        && builder.get(i) == row
        && builder.is_valid(i) == row.is_some()
        && builder.value(i) == text
        && builder.value_unchecked(i) == text
}

fn rows_are_given(builder: &MutableUtf8Array<i32>) -> bool {
    gives(builder.iter(), &ROWS)
        && gives(builder.into_iter(), &ROWS)
        && gives(builder.values_iter(), &VALUES)
}

fn rows_are_there(builder: &MutableUtf8Array<i32>) -> Result<bool, PolarsError> {
    Ok(
        row_is(builder, 0, Some("hi"), "hi")
            && row_is(builder, 1, None, "")
            && builder.dtype() == ArrowDataType::Utf8
            && MutableUtf8Array::<i32>::default_dtype() == ArrowDataType::Utf8
            && rows_are_given(builder)
            && copy_is(builder)?,
    )
}

fn copy_is(builder: &MutableUtf8Array<i32>) -> Result<bool, PolarsError> {
    Ok(three_rows(&builder.try_clone()?, &[0, 2, 2, 7]))
}

fn rows_are_read(alloc: Global) -> Result<bool, PolarsError> {
    rows_are_there(&pushed(alloc)?)
}

/// Through the bound that every builder has.
pub fn is_asked<B: MutableArray>(builder: &mut B) -> Result<bool, PolarsError> {
    builder.push_null()?;
    builder.reserve_slots(3)?;
    builder.shrink_to_fit();
    Ok(builder.dtype() == ArrowDataType::Utf8 && !builder.is_empty())
}

fn builders_are_asked(alloc: Global) -> Result<bool, PolarsError> {
    let mut builder = MutableUtf8Array::<i32>::new(alloc)?;
    let is = is_asked(&mut builder)?;
    Ok(is && lists_are(&builder, &[0, 0], b"", Some(&[false])))
}

fn room_is_made(alloc: Global) -> Result<bool, PolarsError> {
    let mut builder = pushed(alloc)?;
    builder.reserve(40, 90)?;
    let room = builder.capacity() >= 43;
    builder.shrink_to_fit();
    Ok(room && three_rows(&builder, &[0, 2, 2, 7]))
}

// the flags of two slots, turned round
fn turned(mut bits: MutableBitmap) -> MutableBitmap
    ensures { length result.bits ≡ length bits.bits }
{
    if bits.len() == 2 {
        let first = bits.get(0);
        bits.set(0, bits.get(1));
        bits.set(1, first);
    }
    bits
}

/// Flags are turned round where there are some.
pub fn flags_are_turned(
    alloc: Global,
    flags: Flags<'_>,
    wanted: Flags<'_>,
) -> Result<bool, PolarsError> {
    let mut builder = of_lists(alloc, b"abc", flags, ArrowDataType::Utf8)?;
    builder.apply_validity(turned);
    Ok(lists_are(&builder, &[0, 1, 3], b"abc", wanted))
}

fn is_beside(
    builder: MutableUtf8Array<i32>,
    bits: Option<MutableBitmap>,
    others: Flags<'_>,
) -> bool {
    match check_flags(bits.as_ref(), builder.len()) {
        Ok(()) => lists_are(&builder.with_validity(bits), &[0, 1, 3], b"abc", others),
        Err(_) => false,
    }
}

fn is_set(
    builder: &mut MutableUtf8Array<i32>,
    bits: Option<MutableBitmap>,
    others: Flags<'_>,
) -> bool {
    match check_flags(bits.as_ref(), builder.len()) {
        Ok(()) => builder.set_validity(bits),
        Err(_) => return false,
    }
    lists_are(builder, &[0, 1, 3], b"abc", others)
}

/// Other flags stand beside the same bytes.
pub fn flags_are_other(
    alloc: Global,
    flags: Flags<'_>,
    others: Flags<'_>,
) -> Result<bool, PolarsError> {
    let bits = flags_of(alloc, others)?;
    Ok(is_beside(
        of_lists(alloc, b"abc", flags, ArrowDataType::Utf8)?,
        bits,
        others,
    ))
}

/// Other flags are put in place of those that there were.
pub fn flags_are_set(
    alloc: Global,
    flags: Flags<'_>,
    others: Flags<'_>,
) -> Result<bool, PolarsError> {
    let bits = flags_of(alloc, others)?;
    let mut builder = of_lists(alloc, b"abc", flags, ArrowDataType::Utf8)?;
    Ok(is_set(&mut builder, bits, others))
}

// ---- together

/// Each call between builders and arrays.
pub fn arrays_are(alloc: Global) -> Result<bool, PolarsError> {
    Ok(
        frozen_is(alloc)?
            && frozen_without_nulls_is(alloc)?
            && mutable_is(alloc)?
            && lists_are_taken_again(alloc)?,
    )
}

/// Each reader, and the room.
pub fn builders_are_read(alloc: Global) -> Result<bool, PolarsError> {
    Ok(rows_are_read(alloc)? && builders_are_asked(alloc)? && room_is_made(alloc)?)
}
