//! What rows are seen to be, and what they leave: one truth value for each group of calls, and no assertion.

use crate::cases::{
    ABC, FOUR, LONG, MIXED, NONE, PAIRS, VIEWED, fixed, four, large, long, mixed, none, numbers,
    pairs, viewed,
};
use column_base::{Cause, PolarsError};
use column_binary::{BinaryArray, MutableBinaryArray};
use column_binview::{BinaryViewArray, MutablePlBinary};
use column_checks::{Flags, flags_are};
use column_fixed::MutableFixedSizeBinaryArray;
use column_rows::{
    ByteRows, RowBuilder, RowList, are_of_view, are_of_width, bytes_within, push_rows,
    views_of_rows, views_with_rows,
};
use std::alloc::Global;

// ---- rows that are read

/// Whether there are rows of these lengths.
pub fn lengths_are<R: RowList>(rows: &R, wanted: &[Option<usize>]) -> bool {
    if rows.count() != wanted.len() {
        return false;
    }
    for i in 0..wanted.len() {
        if rows.row_length(i) != wanted[i] {
            return false;
        }
    }
    true
}

/// Whether these are the rows.
pub fn rows_are<R: ByteRows>(rows: &R, wanted: &[Option<&[u8]>]) -> bool {
    if rows.count() != wanted.len() {
        return false;
    }
    for i in 0..wanted.len() {
        if rows.row(i) != wanted[i] {
            return false;
        }
    }
    true
}

/// Whether rows with offsets are read: a null slot is missing, whatever bytes it has.
pub fn offset_rows_are_read(alloc: Global) -> Result<bool, PolarsError> {
    let rows = four(alloc)?;
    Ok(rows_are(&rows, &FOUR) && lengths_are(&rows, &[Some(2), None, Some(0), Some(2)]))
}

/// The same of the large layout.
pub fn large_rows_are_read(alloc: Global) -> Result<bool, PolarsError> {
    let rows = large(alloc)?;
    Ok(rows_are(&rows, &[Some(b"ab"), None]) && lengths_are(&rows, &[Some(2), None]))
}

/// The same of rows behind views.
pub fn view_rows_are_read(alloc: Global) -> Result<bool, PolarsError> {
    let rows = viewed(alloc)?;
    Ok(rows_are(&rows, &VIEWED) && lengths_are(&rows, &[Some(3), None, Some(13)]))
}

/// The same of rows of one width.
pub fn fixed_rows_are_read(alloc: Global) -> Result<bool, PolarsError> {
    let rows = fixed(alloc)?;
    Ok(rows_are(&rows, &PAIRS) && lengths_are(&rows, &[Some(2), None, Some(2)]))
}

/// Whether numbers have eight bytes.
pub fn numbers_are_read(alloc: Global) -> Result<bool, PolarsError> {
    let rows = numbers(alloc)?;
    Ok(lengths_are(&rows, &[Some(8), None, Some(8)]))
}

// ---- what rows have together

fn room_is<R: RowList>(rows: &R, bytes: usize) -> bool {
    bytes_within(rows, bytes) == Some(bytes)
        && bytes_within(rows, usize::MAX) == Some(bytes)
        && (bytes == 0 || bytes_within(rows, bytes - 1).is_none())
}

/// Whether the widths of rows are told, and how many bytes they have.
pub fn widths_are_told(alloc: Global) -> Result<bool, PolarsError> {
    let rows = pairs(alloc)?;
    Ok(
        are_of_width(&rows, 2)
            && !are_of_width(&rows, 3)
            && !are_of_width(&rows, 0)
            && are_of_view(&rows)
            && room_is(&rows, 4),
    )
}

/// The same of rows of different lengths.
pub fn lengths_are_told(alloc: Global) -> Result<bool, PolarsError> {
    let rows = mixed(alloc)?;
    Ok(!are_of_width(&rows, 13) && are_of_view(&rows) && room_is(&rows, 29))
}

/// The same of no rows, which have every width.
pub fn no_rows_are_told(alloc: Global) -> Result<bool, PolarsError> {
    let rows = none(alloc)?;
    Ok(are_of_width(&rows, 5) && are_of_view(&rows) && room_is(&rows, 0))
}

/// The same of numbers.
pub fn numbers_are_told(alloc: Global) -> Result<bool, PolarsError> {
    let rows = numbers(alloc)?;
    Ok(are_of_width(&rows, 8) && !are_of_width(&rows, 2) && room_is(&rows, 16))
}

// ---- builders

fn one_more<B: RowBuilder>(builder: &mut B, row: Option<&[u8]>) -> bool {
    builder.push_row(row).is_ok()
}

/// Whether rows are pushed to a builder with offsets.
pub fn rows_go_behind_offsets(alloc: Global) -> Result<bool, PolarsError> {
    let mut builder = MutableBinaryArray::<i64>::new(alloc)?;
    let pushed = one_more(&mut builder, Some(b"ab")) && one_more(&mut builder, None);
    push_offset_rows(alloc, &mut builder)?;
    Ok(pushed && offset_builder_is(builder))
}

fn push_offset_rows(
    alloc: Global,
    builder: &mut MutableBinaryArray<i64>,
) -> Result<(), PolarsError> {
    push_rows(builder, &pairs(alloc)?)
}

fn offset_builder_is(builder: MutableBinaryArray<i64>) -> bool {
    match builder.freeze() {
        Ok(array) => rows_are(&array, &[Some(b"ab"), None, Some(b"ab"), None, Some(b"cd")]),
        Err(_) => false,
    }
}

/// Whether rows are pushed to a builder of views.
pub fn rows_go_behind_views(alloc: Global) -> Result<bool, PolarsError> {
    let mut builder = MutablePlBinary::new(alloc);
    let pushed = one_more(&mut builder, Some(LONG)) && one_more(&mut builder, None);
    push_view_rows(alloc, &mut builder)?;
    Ok(pushed && view_builder_is(builder))
}

fn push_view_rows(alloc: Global, builder: &mut MutablePlBinary) -> Result<(), PolarsError> {
    push_rows(builder, &pairs(alloc)?)
}

fn view_builder_is(builder: MutablePlBinary) -> bool {
    match builder.freeze() {
        Ok(array) => rows_are(&array, &[Some(LONG), None, Some(b"ab"), None, Some(b"cd")]),
        Err(_) => false,
    }
}

/// Whether rows are pushed to a builder of one width.
pub fn rows_go_into_one_width(alloc: Global) -> Result<bool, PolarsError> {
    let mut builder = MutableFixedSizeBinaryArray::new(alloc, 2);
    let pushed = one_more(&mut builder, Some(b"xy")) && one_more(&mut builder, None);
    push_fixed_rows(alloc, &mut builder)?;
    Ok(pushed && fixed_builder_is(builder))
}

fn push_fixed_rows(
    alloc: Global,
    builder: &mut MutableFixedSizeBinaryArray,
) -> Result<(), PolarsError> {
    push_rows(builder, &pairs(alloc)?)
}

fn fixed_builder_is(builder: MutableFixedSizeBinaryArray) -> bool {
    match builder.freeze() {
        Ok(array) => rows_are(&array, &[Some(b"xy"), None, Some(b"ab"), None, Some(b"cd")]),
        Err(_) => false,
    }
}

fn is_refused(builder: &mut MutableFixedSizeBinaryArray, rows: &BinaryArray<i32>) -> bool {
    match push_rows(builder, rows) {
        Ok(()) => false,
        Err(error) => error == PolarsError::ComputeError(Cause::WrongLength),
    }
}

/// Whether a row of another length is refused, after the rows before it.
pub fn wrong_rows_are_refused(alloc: Global) -> Result<bool, PolarsError> {
    let rows = four(alloc)?;
    Ok(refuses(alloc, &rows))
}

fn refuses(alloc: Global, rows: &BinaryArray<i32>) -> bool {
    let mut builder = MutableFixedSizeBinaryArray::new(alloc, 2);
    is_refused(&mut builder, rows) && builder.len() == 2
}

// ---- rows behind views

/// Whether an array has these views and this one buffer at a place.
fn lists_are(
    array: &BinaryViewArray,
    views: &[[u8; 16]],
    buffers: &[&[u8]],
    flags: Flags<'_>,
) -> bool {
    if array.len() != views.len() || array.data_buffers().len() != buffers.len() {
        return false;
    }
    for i in 0..views.len() {
        if array.views().as_slice()[i].to_le() != views[i] {
            return false;
        }
    }
    for i in 0..buffers.len() {
        if array.data_buffers().get(i).as_slice() != buffers[i] {
            return false;
        }
    }
    flags_are(array.validity(), flags)
}

/// Whether rows behind views have one buffer of the long ones, and a missing row no bytes.
pub fn views_are_made(alloc: Global) -> Result<bool, PolarsError> {
    let rows = mixed(alloc)?;
    made_of_rows(alloc, &rows)
}

fn made_of_rows<R: ByteRows>(alloc: Global, rows: &R) -> Result<bool, PolarsError> {
    if !are_of_view(rows) {
        return Ok(false);
    }
    let array = views_of_rows(alloc, rows)?;
    Ok(
        rows_are(&array, &MIXED)
            && lists_are(
                &array,
                &[ABC, NONE, long(b"abcd", 0, 0), long(b"nopq", 0, 13)],
                &[b"abcdefghijklmnopqrstuvwxyz"],
                Some(&[true, false, true, true]),
            ),
    )
}

/// Whether no rows make an array without buffers.
pub fn no_views_are_made(alloc: Global) -> Result<bool, PolarsError> {
    let rows = none(alloc)?;
    made_of_none(alloc, &rows)
}

fn made_of_none<R: ByteRows>(alloc: Global, rows: &R) -> Result<bool, PolarsError> {
    if !are_of_view(rows) {
        return Ok(false);
    }
    let array = views_of_rows(alloc, rows)?;
    Ok(lists_are(&array, &[], &[], None))
}

/// Whether rows come after the slots of an array, whose views and buffer stay, with those of null slots.
pub fn views_are_added(alloc: Global) -> Result<bool, PolarsError> {
    let rows = mixed(alloc)?;
    added_to_views(alloc, &rows)
}

fn added_to_views<R: ByteRows>(alloc: Global, rows: &R) -> Result<bool, PolarsError> {
    if !are_of_view(rows) {
        return Ok(false);
    }
    let array = views_with_rows(alloc, viewed(alloc)?, rows)?;
    Ok(lists_are(
        &array,
        &[
            ABC,
            long(b"abcd", 0, 1),
            long(b"abcd", 0, 1),
            ABC,
            NONE,
            long(b"abcd", 1, 0),
            long(b"nopq", 1, 13),
        ],
        &[b"xabcdefghijklmy", b"abcdefghijklmnopqrstuvwxyz"],
        Some(&[true, false, true, true, false, true, true]),
    ))
}

/// Whether an array to which no rows are added stays as it is.
pub fn no_views_are_added(alloc: Global) -> Result<bool, PolarsError> {
    let rows = none(alloc)?;
    none_added(alloc, &rows)
}

fn none_added<R: ByteRows>(alloc: Global, rows: &R) -> Result<bool, PolarsError> {
    if !are_of_view(rows) {
        return Ok(false);
    }
    let array = views_with_rows(alloc, viewed(alloc)?, rows)?;
    Ok(lists_are(
        &array,
        &[ABC, long(b"abcd", 0, 1), long(b"abcd", 0, 1)],
        &[b"xabcdefghijklmy"],
        Some(&[true, false, true]),
    ))
}
