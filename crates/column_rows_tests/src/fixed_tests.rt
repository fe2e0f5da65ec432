//! Rows as byte strings of one width and as numbers: what they are seen to be, and the tests.

ghost use Rattle.std.specs.Prelude.{◌<◌};

use column_base::{ArrowDataType, PolarsError};
use column_checks::{Flags, bitmap};
use column_fixed::{FixedSizeBinaryArray, MutableFixedSizeBinaryArray};
use column_primitive::Int64Array;
use column_rows::{
    ByteRows, are_of_width, bytes_of_numbers, fixed_of_rows, fixed_with_rows, numbers_of_rows,
    numbers_with_rows,
};
use column_storage::Buffer;
use std::alloc::Global;
use std::test::Fail;

/// A flag beside the bytes of a slot.
type Slots<'a> = &'a [(bool, &'a [u8])];

/// Rows of optional byte strings.
type Rows<'a> = &'a [Option<&'a [u8]>];

// ---- arrays

/// A slot of each row.
fn array(alloc: Global, width: usize, rows: Rows<'_>) -> Result<FixedSizeBinaryArray, PolarsError>
    requires { 0 < width }
{
    let mut builder = MutableFixedSizeBinaryArray::new(alloc, width);
    for row in rows {
        builder.try_push(*row)?;
    }
    builder.freeze()
}

/// Dates in milliseconds: 7, and null over -2.
fn dates(alloc: Global) -> Result<Int64Array, PolarsError> {
    let flags: Flags<'_> = Some(&[true, false]);
    let numbers = Buffer::from_vec(alloc, Vec::from_slice(alloc, &[7, -2])?)?;
    Int64Array::try_new(ArrowDataType::Date64, numbers, bitmap(alloc, flags)?)
}

/// Plain numbers that are all valid.
fn plain(alloc: Global, numbers: &[i64]) -> Result<Int64Array, PolarsError> {
    let numbers = Buffer::from_vec(alloc, Vec::from_slice(alloc, numbers)?)?;
    Int64Array::try_new(ArrowDataType::Int64, numbers, None)
}

// ---- what arrays are seen to be

fn slots_are(array: &FixedSizeBinaryArray, width: usize, wanted: Slots<'_>) -> bool {
    if array.size() != width || array.len() != wanted.len() {
        return false;
    }
    for i in 0..wanted.len() {
        let (valid, bytes) = wanted[i];
        if array.is_valid(i) != valid || array.value(i) != bytes {
            return false;
        }
    }
    true
}

/// A null slot has the number zero, unless it stood there before.
fn numbers_are(array: &Int64Array, dtype: ArrowDataType, wanted: &[(bool, i64)]) -> bool {
    if array.dtype() != dtype || array.len() != wanted.len() {
        return false;
    }
    for i in 0..wanted.len() {
        let (valid, number) = wanted[i];
        if array.is_valid(i) != valid || array.value(i) != number {
            return false;
        }
    }
    true
}

// ---- calls

fn are_written<R: ByteRows>(
    alloc: Global,
    width: usize,
    rows: &R,
    wanted: Slots<'_>,
) -> Result<bool, PolarsError> {
    let Some(_bytes) = rows.count().checked_mul(width) else {
        return Ok(false);
    };
    if width == 0 || !are_of_width(rows, width) {
        return Ok(false);
    }
    let array = fixed_of_rows(alloc, width, rows)?;
    Ok(slots_are(&array, width, wanted))
}

/// Appended to the row "ab" and a null one.
fn are_appended<R: ByteRows>(
    alloc: Global,
    rows: &R,
    wanted: Slots<'_>,
) -> Result<bool, PolarsError> {
    let old = array(alloc, 2, &[Some(b"ab"), None])?;
    if !are_of_width(rows, old.size()) {
        return Ok(false);
    }
    let array = fixed_with_rows(alloc, old, rows)?;
    Ok(slots_are(&array, 2, wanted))
}

fn are_numbers<R: ByteRows>(
    alloc: Global,
    rows: &R,
    wanted: &[(bool, i64)],
) -> Result<bool, PolarsError> {
    if !are_of_width(rows, 8) {
        return Ok(false);
    }
    let array = numbers_of_rows(alloc, rows)?;
    Ok(numbers_are(&array, ArrowDataType::Int64, wanted))
}

/// Appended to two dates.
fn are_dates<R: ByteRows>(
    alloc: Global,
    rows: &R,
    wanted: &[(bool, i64)],
) -> Result<bool, PolarsError> {
    if !are_of_width(rows, 8) {
        return Ok(false);
    }
    let array = numbers_with_rows(alloc, dates(alloc)?, rows)?;
    Ok(numbers_are(&array, ArrowDataType::Date64, wanted))
}

fn have_bytes(alloc: Global, numbers: &Int64Array, wanted: Slots<'_>) -> Result<bool, PolarsError> {
    let array = bytes_of_numbers(alloc, numbers)?;
    Ok(slots_are(&array, 8, wanted))
}

// ---- the tests

#[test]
fn rows_of_one_width_are_written(rt: HostRuntime) -> Result<(), Fail> {
    let three = array(rt.alloc(), 3, &[Some(b"abc"), None, Some(&[0, 255, 1])])?;
    assert!(rt;
        are_written(
            rt.alloc(),
            3,
            &three,
            &[(true, b"abc"), (false, &[0, 0, 0]), (true, &[0, 255, 1])]
        )?
    );
    Ok(())
}

#[test]
fn rows_of_one_byte_are_written(rt: HostRuntime) -> Result<(), Fail> {
    let one = array(rt.alloc(), 1, &[None, Some(b"a")])?;
    assert!(rt; are_written(rt.alloc(), 1, &one, &[(false, &[0]), (true, b"a")])?);
    Ok(())
}

#[test]
fn no_rows_are_no_slots(rt: HostRuntime) -> Result<(), Fail> {
    let none = array(rt.alloc(), 8, &[])?;
    assert!(rt; are_written(rt.alloc(), 3, &none, &[])?);
    assert!(rt; are_numbers(rt.alloc(), &none, &[])?);
    assert!(rt; are_appended(rt.alloc(), &none, &[(true, b"ab"), (false, &[0, 0])])?);
    assert!(rt; are_dates(rt.alloc(), &none, &[(true, 7), (false, -2)])?);
    Ok(())
}

#[test]
fn rows_are_appended_to_slots(rt: HostRuntime) -> Result<(), Fail> {
    let rows = array(rt.alloc(), 2, &[None, Some(b"cd")])?;
    assert!(rt;
        are_appended(
            rt.alloc(),
            &rows,
            &[
                (true, b"ab"),
                (false, &[0, 0]),
                (false, &[0, 0]),
                (true, b"cd")
            ]
        )?
    );
    Ok(())
}

#[test]
fn rows_of_eight_bytes_are_numbers(rt: HostRuntime) -> Result<(), Fail> {
    let rows = array(
        rt.alloc(),
        8,
        &[
            Some(&[255, 255, 255, 255, 255, 255, 255, 127]),
            None,
            Some(&[0, 0, 0, 0, 0, 0, 0, 128]),
            Some(&[2, 1, 0, 0, 0, 0, 0, 0]),
        ],
    )?;
    assert!(rt;
        are_numbers(
            rt.alloc(),
            &rows,
            &[
                (true, 9_223_372_036_854_775_807),
                (false, 0),
                (true, -9_223_372_036_854_775_808),
                (true, 258)
            ]
        )?
    );
    assert!(rt;
        are_dates(
            rt.alloc(),
            &rows,
            &[
                (true, 7),
                (false, -2),
                (true, 9_223_372_036_854_775_807),
                (false, 0),
                (true, -9_223_372_036_854_775_808),
                (true, 258)
            ]
        )?
    );
    Ok(())
}

#[test]
fn numbers_are_rows_of_eight_bytes(rt: HostRuntime) -> Result<(), Fail> {
    let numbers = plain(
        rt.alloc(),
        &[9_223_372_036_854_775_807, -9_223_372_036_854_775_808, 258],
    )?;
    assert!(rt;
        have_bytes(
            rt.alloc(),
            &numbers,
            &[
                (true, &[255, 255, 255, 255, 255, 255, 255, 127]),
                (true, &[0, 0, 0, 0, 0, 0, 0, 128]),
                (true, &[2, 1, 0, 0, 0, 0, 0, 0])
            ]
        )?
    );
    Ok(())
}

// a null slot keeps the number that stands there
#[test]
fn nulls_have_the_bytes_of_their_number(rt: HostRuntime) -> Result<(), Fail> {
    let numbers = dates(rt.alloc())?;
    assert!(rt;
        have_bytes(
            rt.alloc(),
            &numbers,
            &[
                (true, &[7, 0, 0, 0, 0, 0, 0, 0]),
                (false, &[254, 255, 255, 255, 255, 255, 255, 255])
            ]
        )?
    );
    Ok(())
}

#[test]
fn no_numbers_are_no_rows(rt: HostRuntime) -> Result<(), Fail> {
    let numbers = plain(rt.alloc(), &[])?;
    assert!(rt; have_bytes(rt.alloc(), &numbers, &[])?);
    Ok(())
}
