//! What builders and arrays of byte strings take of items, whatever number of them is told: a truth value for each call.

use crate::builder_checks::{lists_are, three_rows};
use crate::cases::{Hinted, ROWS, VALUES};
use crate::checks;
use crate::value_checks::{lists_are as values_are, three_values};
use column_base::{ExtendError, Offset, PolarsError, TryExtend};
use column_binary::{BinaryArray, BinaryOperation, MutableBinaryArray, MutableBinaryValuesArray};
use column_checks::Flags;
use std::alloc::Global;

fn told<T: Copy>(items: &[T], least: usize) -> Hinted<'_, T> {
    Hinted { items, least }
}

// three rows, or their values where there are no flags
fn array_has<O: Offset>(array: &BinaryArray<O>, offsets: &[O; 4], flags: Flags<'_>) -> bool {
    checks::lists_are(array, offsets, &[1, 2, 3], flags)
}

fn array_is<O: Offset>(
    array: Result<BinaryArray<O>, PolarsError>,
    offsets: &[O; 4],
    flags: Flags<'_>,
) -> Result<bool, PolarsError> {
    Ok(array_has(&array?, offsets, flags))
}

fn builder_is<O: Offset>(
    builder: Result<MutableBinaryArray<O>, PolarsError>,
    offsets: &[O; 4],
    flags: Flags<'_>,
) -> Result<bool, PolarsError> {
    Ok(lists_are(&builder?, offsets, &[1, 2, 3], flags))
}

fn value_builder_is<O: Offset>(
    builder: Result<MutableBinaryValuesArray<O>, PolarsError>,
    offsets: &[O; 4],
) -> Result<bool, PolarsError> {
    Ok(three_values(&builder?, offsets))
}

const NULL: Flags<'static> = Some(&[true, false, true]);

// ---- rows

/// A call that makes a builder or an array of rows, or adds them to a builder.
#[derive(Clone, Copy, Debug)]
pub enum OfRows {
    Plain,
    Try,
    Trusted,
    TrustedUnchecked,
}

fn builder_of_rows(
    alloc: Global,
    call: OfRows,
    least: usize,
) -> Result<MutableBinaryArray<i32>, PolarsError> {
    let rows = told(&ROWS, least);
    match call {
        OfRows::Plain => MutableBinaryArray::from_iter(alloc, rows),
        OfRows::Try => MutableBinaryArray::try_from_iter(alloc, rows),
        OfRows::Trusted => MutableBinaryArray::from_trusted_len_iter(alloc, rows),
        OfRows::TrustedUnchecked => MutableBinaryArray::from_trusted_len_iter_unchecked(
            alloc, rows,
        ),
    }
}

pub fn builder_of_rows_is(alloc: Global, call: OfRows, least: usize) -> Result<bool, PolarsError> {
    builder_is(builder_of_rows(alloc, call, least), &[0, 2, 2, 3], NULL)
}

fn add_rows(
    builder: &mut MutableBinaryArray<i32>,
    call: OfRows,
    least: usize,
) -> Result<(), PolarsError> {
    let rows = told(&ROWS, least);
    match call {
        OfRows::Plain => builder.extend(rows),
        OfRows::Try => builder.try_extend(rows),
        OfRows::Trusted => builder.extend_trusted_len(rows),
        OfRows::TrustedUnchecked => builder.extend_trusted_len_unchecked(rows),
    }
}

pub fn rows_are_added(alloc: Global, call: OfRows, least: usize) -> Result<bool, PolarsError> {
    let mut builder = MutableBinaryArray::new(alloc)?;
    Ok(add_rows(&mut builder, call, least).is_ok() && three_rows(&builder, &[0, 2, 2, 3]))
}

fn array_of_rows(
    alloc: Global,
    call: OfRows,
    least: usize,
) -> Result<BinaryArray<i64>, PolarsError> {
    let rows = told(&ROWS, least);
    match call {
        OfRows::Plain | OfRows::Try => BinaryArray::from_iter(alloc, rows),
        OfRows::Trusted => BinaryArray::from_trusted_len_iter(alloc, rows),
        OfRows::TrustedUnchecked => BinaryArray::from_trusted_len_iter_unchecked(alloc, rows),
    }
}

pub fn array_of_rows_is(alloc: Global, call: OfRows, least: usize) -> Result<bool, PolarsError> {
    array_is(array_of_rows(alloc, call, least), &[0, 2, 2, 3], NULL)
}

// ---- values, as slots of a builder of rows or of an array

/// A call that makes a builder or an array of values, or adds them to a builder.
#[derive(Clone, Copy, Debug)]
pub enum OfValues {
    Values,
    Trusted,
    TrustedUnchecked,
}

fn builder_of_values(
    alloc: Global,
    call: OfValues,
    least: usize,
) -> Result<MutableBinaryArray<i32>, PolarsError> {
    let values = told(&VALUES, least);
    match call {
        OfValues::Values => MutableBinaryArray::from_iter_values(alloc, values),
        OfValues::Trusted => MutableBinaryArray::from_trusted_len_values_iter(alloc, values),
        OfValues::TrustedUnchecked => {
            MutableBinaryArray::from_trusted_len_values_iter_unchecked(alloc, values)
        }
    }
}

pub fn builder_of_values_is(
    alloc: Global,
    call: OfValues,
    least: usize,
) -> Result<bool, PolarsError> {
    builder_is(builder_of_values(alloc, call, least), &[0, 2, 2, 3], None)
}

fn add_values(
    builder: &mut MutableBinaryArray<i32>,
    call: OfValues,
    least: usize,
) -> Result<(), PolarsError> {
    let values = told(&VALUES, least);
    match call {
        OfValues::Values => builder.extend_values(values),
        OfValues::Trusted => builder.extend_trusted_len_values(values),
        OfValues::TrustedUnchecked => builder.extend_trusted_len_values_unchecked(values),
    }
}

pub fn values_are_added(alloc: Global, call: OfValues, least: usize) -> Result<bool, PolarsError> {
    let mut builder = MutableBinaryArray::new(alloc)?;
    Ok(
        add_values(&mut builder, call, least).is_ok()
            && lists_are(&builder, &[0, 2, 2, 3], &[1, 2, 3], None),
    )
}

fn array_of_values(
    alloc: Global,
    call: OfValues,
    least: usize,
) -> Result<BinaryArray<i32>, PolarsError> {
    let values = told(&VALUES, least);
    match call {
        OfValues::Values => BinaryArray::from_iter_values(alloc, values),
        _ => BinaryArray::from_trusted_len_values_iter(alloc, values),
    }
}

pub fn array_of_values_is(
    alloc: Global,
    call: OfValues,
    least: usize,
) -> Result<bool, PolarsError> {
    array_is(array_of_values(alloc, call, least), &[0, 2, 2, 3], None)
}

// ---- values, in a builder of values

/// A call of the builder of values.
#[derive(Clone, Copy, Debug)]
pub enum ValueCall {
    Plain,
    Try,
    Values,
    TrustedValues,
    TrustedValuesUnchecked,
    Trusted,
    TrustedUnchecked,
}

fn value_builder(
    alloc: Global,
    call: ValueCall,
    least: usize,
) -> Result<MutableBinaryValuesArray<i64>, PolarsError> {
    let values = told(&VALUES, least);
    match call {
        ValueCall::Plain => MutableBinaryValuesArray::from_iter(alloc, values),
        ValueCall::Try => MutableBinaryValuesArray::try_from_iter(alloc, values),
        ValueCall::Values => MutableBinaryValuesArray::from_iter_values(alloc, values),
        ValueCall::TrustedValues => {
            MutableBinaryValuesArray::from_trusted_len_values_iter(alloc, values)
        }
        ValueCall::TrustedValuesUnchecked => {
            MutableBinaryValuesArray::from_trusted_len_values_iter_unchecked(alloc, values)
        }
        ValueCall::Trusted => MutableBinaryValuesArray::from_trusted_len_iter(alloc, values),
        ValueCall::TrustedUnchecked => {
            MutableBinaryValuesArray::from_trusted_len_iter_unchecked(alloc, values)
        }
    }
}

pub fn builder_of_call_is(
    alloc: Global,
    call: ValueCall,
    least: usize,
) -> Result<bool, PolarsError> {
    value_builder_is(value_builder(alloc, call, least), &[0, 2, 2, 3])
}

fn take_values(
    builder: &mut MutableBinaryValuesArray<i32>,
    call: ValueCall,
    least: usize,
) -> Result<(), PolarsError> {
    let values = told(&VALUES, least);
    match call {
        ValueCall::Plain => builder.extend(values),
        ValueCall::Try => builder.try_extend(values),
        ValueCall::Values => builder.extend_values(values),
        ValueCall::TrustedValues => builder.extend_trusted_len_values(values),
        ValueCall::TrustedValuesUnchecked => builder.extend_trusted_len_values_unchecked(values),
        ValueCall::Trusted => builder.extend_trusted_len(values),
        ValueCall::TrustedUnchecked => builder.extend_trusted_len_unchecked(values),
    }
}

pub fn values_are_taken(alloc: Global, call: ValueCall, least: usize) -> Result<bool, PolarsError> {
    let mut builder = MutableBinaryValuesArray::new(alloc)?;
    Ok(take_values(&mut builder, call, least).is_ok() && three_values(&builder, &[0, 2, 2, 3]))
}

// ---- items that may be errors

/// A row, or an error in its place.
pub type Row<'a> = Result<Option<&'a [u8]>, u8>;

/// A value, or an error in its place.
pub type Value<'a> = Result<&'a [u8], u8>;

// what is told of items, of which one is the error 9 or none is
fn is_told(told: Result<(), ExtendError<u8>>, fails: bool) -> bool {
    match told {
        Ok(()) => !fails,
        Err(error) => fails && is_nine(error),
    }
}

fn is_nine(error: ExtendError<u8>) -> bool {
    matches!(error, ExtendError::Item(9))
}

/// The rows before an error are added, and all where there is none.
pub fn rows_before_are(
    alloc: Global,
    rows: &[Row<'_>],
    fails: bool,
    offsets: &[i32],
    values: &[u8],
    flags: Flags<'_>,
) -> Result<bool, PolarsError> {
    let mut builder = MutableBinaryArray::<i32>::new(alloc)?;
    let answer = builder.extend_fallible(told(rows, 0));
    Ok(is_told(answer, fails) && lists_are(&builder, offsets, values, flags))
}

fn array_of_items(
    alloc: Global,
    rows: &[Row<'_>],
    unchecked: bool,
) -> Result<BinaryArray<i64>, ExtendError<u8>> {
    let rows = told(rows, 0);
    if unchecked {
        BinaryArray::try_from_trusted_len_iter_unchecked(alloc, rows)
    } else {
        BinaryArray::try_from_trusted_len_iter(alloc, rows)
    }
}

/// The array of rows of which none is an error, and else the error.
pub fn array_of_items_is(alloc: Global, rows: &[Row<'_>], fails: bool, unchecked: bool) -> bool {
    match array_of_items(alloc, rows, unchecked) {
        Ok(array) => !fails && array_has(&array, &[0, 2, 2, 3], NULL),
        Err(error) => fails && is_nine(error),
    }
}

fn builder_of_items(
    alloc: Global,
    rows: &[Row<'_>],
    unchecked: bool,
) -> Result<MutableBinaryArray<i64>, ExtendError<u8>> {
    let rows = told(rows, 0);
    if unchecked {
        MutableBinaryArray::try_from_trusted_len_iter_unchecked(alloc, rows)
    } else {
        MutableBinaryArray::try_from_trusted_len_iter(alloc, rows)
    }
}

/// The same of the builder.
pub fn builder_of_items_is(alloc: Global, rows: &[Row<'_>], fails: bool, unchecked: bool) -> bool {
    match builder_of_items(alloc, rows, unchecked) {
        Ok(builder) => !fails && three_rows(&builder, &[0, 2, 2, 3]),
        Err(error) => fails && is_nine(error),
    }
}

/// The values before an error are added, and all where there is none.
pub fn values_before_are(
    alloc: Global,
    values: &[Value<'_>],
    fails: bool,
    offsets: &[i64],
    bytes: &[u8],
) -> Result<bool, PolarsError> {
    let mut builder = MutableBinaryValuesArray::<i64>::new(alloc)?;
    let answer = builder.extend_fallible(told(values, 0));
    Ok(is_told(answer, fails) && values_are(&builder, offsets, bytes))
}

fn value_builder_of_items(
    alloc: Global,
    values: &[Value<'_>],
    unchecked: bool,
) -> Result<MutableBinaryValuesArray<i32>, ExtendError<u8>> {
    let values = told(values, 0);
    if unchecked {
        MutableBinaryValuesArray::try_from_trusted_len_iter_unchecked(alloc, values)
    } else {
        MutableBinaryValuesArray::try_from_trusted_len_iter(alloc, values)
    }
}

/// The builder of values of which none is an error, and else the error.
pub fn value_builder_of_items_is(
    alloc: Global,
    values: &[Value<'_>],
    fails: bool,
    unchecked: bool,
) -> bool {
    match value_builder_of_items(alloc, values, unchecked) {
        Ok(builder) => !fails && three_values(&builder, &[0, 2, 2, 3]),
        Err(error) => fails && is_nine(error),
    }
}

// ---- owned items

fn owned_values(alloc: Global) -> Result<Vec<Vec<u8>>, PolarsError> {
    let mut values = Vec::new(alloc);
    for value in VALUES {
        values.push(Vec::from_slice(alloc, value)?)?;
    }
    Ok(values)
}

fn owned(alloc: Global, row: Option<&[u8]>) -> Result<Option<Vec<u8>>, PolarsError> {
    match row {
        Some(bytes) => Ok(Some(Vec::from_slice(alloc, bytes)?)),
        None => Ok(None),
    }
}

fn owned_rows(alloc: Global) -> Result<Vec<Option<Vec<u8>>>, PolarsError> {
    let mut rows = Vec::new(alloc);
    for row in ROWS {
        rows.push(owned(alloc, row)?)?;
    }
    Ok(rows)
}

fn all_of_values_are(alloc: Global, values: &[Vec<u8>]) -> Result<bool, PolarsError> {
    Ok(
        builder_is(
            MutableBinaryArray::<i32>::from_slice(alloc, values),
            &[0, 2, 2, 3],
            None,
        )? && value_builder_is(
            MutableBinaryValuesArray::<i32>::from_slice(alloc, values),
            &[0, 2, 2, 3],
        )? && value_builder_is(
            MutableBinaryValuesArray::<i64>::from(alloc, values),
            &[0, 2, 2, 3],
        )? && array_is(
            BinaryArray::<i32>::from_slice(alloc, values),
            &[0, 2, 2, 3],
            None,
        )?,
    )
}

/// Each call over owned values.
pub fn owned_values_are(alloc: Global) -> Result<bool, PolarsError> {
    all_of_values_are(alloc, &owned_values(alloc)?)
}

fn all_of_rows_are(alloc: Global, rows: &[Option<Vec<u8>>]) -> Result<bool, PolarsError> {
    Ok(
        builder_is(
            MutableBinaryArray::<i32>::from(alloc, rows),
            &[0, 2, 2, 3],
            NULL,
        )? && array_is(BinaryArray::<i64>::from(alloc, rows), &[0, 2, 2, 3], NULL)?,
    )
}

/// Each call over owned rows.
pub fn owned_rows_are(alloc: Global) -> Result<bool, PolarsError> {
    all_of_rows_are(alloc, &owned_rows(alloc)?)
}

// ---- operations

fn pushed(alloc: Global, row: Option<&[u8]>) -> Result<BinaryOperation, PolarsError> {
    match row {
        Some(bytes) => Ok(BinaryOperation::Push(Vec::from_slice(alloc, bytes)?)),
        None => Ok(BinaryOperation::PushNull),
    }
}

// three rows, one more, and that one taken
fn operations(alloc: Global) -> Result<Vec<BinaryOperation>, PolarsError> {
    let mut operations = Vec::new(alloc);
    for row in ROWS {
        operations.push(pushed(alloc, row)?)?;
    }
    operations.push(pushed(alloc, Some(b"x"))?)?;
    operations.push(BinaryOperation::Pop)?;
    Ok(operations)
}

fn all_are_replayed(alloc: Global, operations: &[BinaryOperation]) -> Result<bool, PolarsError> {
    Ok(
        array_is(
            MutableBinaryArray::<i32>::replay(alloc, operations),
            &[0, 2, 2, 3],
            NULL,
        )? && array_is(
            MutableBinaryValuesArray::<i64>::replay(alloc, operations),
            &[0, 2, 2, 3],
            None,
        )?,
    )
}

/// Operations on an empty builder leave their slots.
pub fn operations_are_replayed(alloc: Global) -> Result<bool, PolarsError> {
    all_are_replayed(alloc, &operations(alloc)?)
}
