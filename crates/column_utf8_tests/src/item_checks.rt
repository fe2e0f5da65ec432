//! What builders and arrays of texts take of items, whatever number of them is told: a truth value for each call.

use crate::builder_checks::{lists_are, three_rows};
use crate::cases::{Hinted, ROWS, VALUES, lists_of};
use crate::checks::texts_are;
use crate::value_checks::{lists_are as values_are, three_values};
use column_base::{ExtendError, Offset, PolarsError, TryExtend};
use column_checks::Flags;
use column_utf8::{MutableUtf8Array, MutableUtf8ValuesArray, Utf8Array, Utf8Operation};
use std::alloc::Global;

fn told<T: Copy>(items: &[T], least: usize) -> Hinted<'_, T> {
    Hinted { items, least }
}

// three rows, or their values where there are no flags
fn array_has<O: Offset>(array: &Utf8Array<O>, flags: Flags<'_>) -> bool {
    texts_are(array, lists_of(&[0, 2, 2, 7], b"hithere", flags))
}

fn array_is<O: Offset>(
    array: Result<Utf8Array<O>, PolarsError>,
    flags: Flags<'_>,
) -> Result<bool, PolarsError> {
    Ok(array_has(&array?, flags))
}

fn builder_is<O: Offset>(
    builder: Result<MutableUtf8Array<O>, PolarsError>,
    offsets: &[O; 4],
    flags: Flags<'_>,
) -> Result<bool, PolarsError> {
    Ok(lists_are(&builder?, offsets, b"hithere", flags))
}

fn value_builder_is<O: Offset>(
    builder: Result<MutableUtf8ValuesArray<O>, PolarsError>,
    offsets: &[O; 4],
) -> Result<bool, PolarsError> {
    Ok(three_values(&builder?, offsets))
}

const NULL: Flags<'static> = Some(&[true, false, true]);

// ---- rows

/// A call that makes a builder or an array of rows, or adds them to a builder.
#[derive(Clone, Copy, Debug)]
pub enum OfRows {
    Plain,
    Try,
    Trusted,
    TrustedUnchecked,
}

fn builder_of_rows(
    alloc: Global,
    call: OfRows,
    least: usize,
) -> Result<MutableUtf8Array<i32>, PolarsError> {
    let rows = told(&ROWS, least);
    match call {
        OfRows::Plain => MutableUtf8Array::from_iter(alloc, rows),
        OfRows::Try => MutableUtf8Array::try_from_iter(alloc, rows),
        OfRows::Trusted => MutableUtf8Array::from_trusted_len_iter(alloc, rows),
        OfRows::TrustedUnchecked => MutableUtf8Array::from_trusted_len_iter_unchecked(alloc, rows),
    }
}

pub fn builder_of_rows_is(alloc: Global, call: OfRows, least: usize) -> Result<bool, PolarsError> {
    builder_is(builder_of_rows(alloc, call, least), &[0, 2, 2, 7], NULL)
}

fn add_rows(
    builder: &mut MutableUtf8Array<i32>,
    call: OfRows,
    least: usize,
) -> Result<(), PolarsError> {
    let rows = told(&ROWS, least);
    match call {
        OfRows::Plain => builder.extend(rows),
        OfRows::Try => builder.try_extend(rows),
        OfRows::Trusted => builder.extend_trusted_len(rows),
        OfRows::TrustedUnchecked => builder.extend_trusted_len_unchecked(rows),
    }
}

pub fn rows_are_added(alloc: Global, call: OfRows, least: usize) -> Result<bool, PolarsError> {
    let mut builder = MutableUtf8Array::new(alloc)?;
    Ok(add_rows(&mut builder, call, least).is_ok() && three_rows(&builder, &[0, 2, 2, 7]))
}

fn array_of_rows(alloc: Global, call: OfRows, least: usize) -> Result<Utf8Array<i64>, PolarsError> {
    let rows = told(&ROWS, least);
    match call {
        OfRows::Plain | OfRows::Try => Utf8Array::from_iter(alloc, rows),
        OfRows::Trusted => Utf8Array::from_trusted_len_iter(alloc, rows),
        OfRows::TrustedUnchecked => Utf8Array::from_trusted_len_iter_unchecked(alloc, rows),
    }
}

pub fn array_of_rows_is(alloc: Global, call: OfRows, least: usize) -> Result<bool, PolarsError> {
    array_is(array_of_rows(alloc, call, least), NULL)
}

// ---- values, as slots of a builder of rows or of an array

/// A call that makes a builder or an array of values, or adds them to a builder.
#[derive(Clone, Copy, Debug)]
pub enum OfValues {
    Values,
    Trusted,
    TrustedUnchecked,
}

fn builder_of_values(
    alloc: Global,
    call: OfValues,
    least: usize,
) -> Result<MutableUtf8Array<i32>, PolarsError> {
    let values = told(&VALUES, least);
    match call {
        OfValues::Values => MutableUtf8Array::from_iter_values(alloc, values),
        OfValues::Trusted => MutableUtf8Array::from_trusted_len_values_iter(alloc, values),
        OfValues::TrustedUnchecked => {
            MutableUtf8Array::from_trusted_len_values_iter_unchecked(alloc, values)
        }
    }
}

pub fn builder_of_values_is(
    alloc: Global,
    call: OfValues,
    least: usize,
) -> Result<bool, PolarsError> {
    builder_is(builder_of_values(alloc, call, least), &[0, 2, 2, 7], None)
}

fn add_values(
    builder: &mut MutableUtf8Array<i32>,
    call: OfValues,
    least: usize,
) -> Result<(), PolarsError> {
    let values = told(&VALUES, least);
    match call {
        OfValues::Values => builder.extend_values(values),
        OfValues::Trusted => builder.extend_trusted_len_values(values),
        OfValues::TrustedUnchecked => builder.extend_trusted_len_values_unchecked(values),
    }
}

pub fn values_are_added(alloc: Global, call: OfValues, least: usize) -> Result<bool, PolarsError> {
    let mut builder = MutableUtf8Array::new(alloc)?;
    Ok(
        add_values(&mut builder, call, least).is_ok()
            && lists_are(&builder, &[0, 2, 2, 7], b"hithere", None),
    )
}

fn array_of_values(
    alloc: Global,
    call: OfValues,
    least: usize,
) -> Result<Utf8Array<i32>, PolarsError> {
    let values = told(&VALUES, least);
    match call {
        OfValues::Values => Utf8Array::from_iter_values(alloc, values),
        _ => Utf8Array::from_trusted_len_values_iter(alloc, values),
    }
}

pub fn array_of_values_is(
    alloc: Global,
    call: OfValues,
    least: usize,
) -> Result<bool, PolarsError> {
    array_is(array_of_values(alloc, call, least), None)
}

// ---- values, in a builder of values

/// A call of the builder of values.
#[derive(Clone, Copy, Debug)]
pub enum ValueCall {
    Plain,
    Try,
    Values,
    TrustedValues,
    TrustedValuesUnchecked,
    Trusted,
    TrustedUnchecked,
}

fn value_builder(
    alloc: Global,
    call: ValueCall,
    least: usize,
) -> Result<MutableUtf8ValuesArray<i64>, PolarsError> {
    let values = told(&VALUES, least);
    match call {
        ValueCall::Plain => MutableUtf8ValuesArray::from_iter(alloc, values),
        ValueCall::Try => MutableUtf8ValuesArray::try_from_iter(alloc, values),
        ValueCall::Values => MutableUtf8ValuesArray::from_iter_values(alloc, values),
        ValueCall::TrustedValues => {
            MutableUtf8ValuesArray::from_trusted_len_values_iter(alloc, values)
        }
        ValueCall::TrustedValuesUnchecked => {
            MutableUtf8ValuesArray::from_trusted_len_values_iter_unchecked(alloc, values)
        }
        ValueCall::Trusted => MutableUtf8ValuesArray::from_trusted_len_iter(alloc, values),
        ValueCall::TrustedUnchecked => {
            MutableUtf8ValuesArray::from_trusted_len_iter_unchecked(alloc, values)
        }
    }
}

pub fn builder_of_call_is(
    alloc: Global,
    call: ValueCall,
    least: usize,
) -> Result<bool, PolarsError> {
    value_builder_is(value_builder(alloc, call, least), &[0, 2, 2, 7])
}

fn take_values(
    builder: &mut MutableUtf8ValuesArray<i32>,
    call: ValueCall,
    least: usize,
) -> Result<(), PolarsError> {
    let values = told(&VALUES, least);
    match call {
        ValueCall::Plain => builder.extend(values),
        ValueCall::Try => builder.try_extend(values),
        ValueCall::Values => builder.extend_values(values),
        ValueCall::TrustedValues => builder.extend_trusted_len_values(values),
        ValueCall::TrustedValuesUnchecked => builder.extend_trusted_len_values_unchecked(values),
        ValueCall::Trusted => builder.extend_trusted_len(values),
        ValueCall::TrustedUnchecked => builder.extend_trusted_len_unchecked(values),
    }
}

pub fn values_are_taken(alloc: Global, call: ValueCall, least: usize) -> Result<bool, PolarsError> {
    let mut builder = MutableUtf8ValuesArray::new(alloc)?;
    Ok(take_values(&mut builder, call, least).is_ok() && three_values(&builder, &[0, 2, 2, 7]))
}

// ---- items that may be errors

/// A row, or an error in its place.
pub type Row<'a> = Result<Option<&'a str>, u8>;

/// A value, or an error in its place.
pub type Value<'a> = Result<&'a str, u8>;

// what is told of items, of which one is the error 9 or none is
fn is_told(told: Result<(), ExtendError<u8>>, fails: bool) -> bool {
    match told {
        Ok(()) => !fails,
        Err(error) => fails && is_nine(error),
    }
}

fn is_nine(error: ExtendError<u8>) -> bool {
    matches!(error, ExtendError::Item(9))
}

/// The rows before an error are added, and all where there is none.
pub fn rows_before_are(
    alloc: Global,
    rows: &[Row<'_>],
    fails: bool,
    offsets: &[i32],
    values: &[u8],
    flags: Flags<'_>,
) -> Result<bool, PolarsError> {
    let mut builder = MutableUtf8Array::<i32>::new(alloc)?;
    let answer = builder.extend_fallible(told(rows, 0));
    Ok(is_told(answer, fails) && lists_are(&builder, offsets, values, flags))
}

fn array_of_items(
    alloc: Global,
    rows: &[Row<'_>],
    unchecked: bool,
) -> Result<Utf8Array<i64>, ExtendError<u8>> {
    let rows = told(rows, 0);
    if unchecked {
        Utf8Array::try_from_trusted_len_iter_unchecked(alloc, rows)
    } else {
        Utf8Array::try_from_trusted_len_iter(alloc, rows)
    }
}

/// The array of rows of which none is an error, and else the error.
pub fn array_of_items_is(alloc: Global, rows: &[Row<'_>], fails: bool, unchecked: bool) -> bool {
    match array_of_items(alloc, rows, unchecked) {
        Ok(array) => !fails && array_has(&array, NULL),
        Err(error) => fails && is_nine(error),
    }
}

fn builder_of_items(
    alloc: Global,
    rows: &[Row<'_>],
    unchecked: bool,
) -> Result<MutableUtf8Array<i64>, ExtendError<u8>> {
    let rows = told(rows, 0);
    if unchecked {
        MutableUtf8Array::try_from_trusted_len_iter_unchecked(alloc, rows)
    } else {
        MutableUtf8Array::try_from_trusted_len_iter(alloc, rows)
    }
}

/// The same of the builder.
pub fn builder_of_items_is(alloc: Global, rows: &[Row<'_>], fails: bool, unchecked: bool) -> bool {
    match builder_of_items(alloc, rows, unchecked) {
        Ok(builder) => !fails && three_rows(&builder, &[0, 2, 2, 7]),
        Err(error) => fails && is_nine(error),
    }
}

/// The values before an error are added, and all where there is none.
pub fn values_before_are(
    alloc: Global,
    values: &[Value<'_>],
    fails: bool,
    offsets: &[i64],
    bytes: &[u8],
) -> Result<bool, PolarsError> {
    let mut builder = MutableUtf8ValuesArray::<i64>::new(alloc)?;
    let answer = builder.extend_fallible(told(values, 0));
    Ok(is_told(answer, fails) && values_are(&builder, offsets, bytes))
}

fn value_builder_of_items(
    alloc: Global,
    values: &[Value<'_>],
    unchecked: bool,
) -> Result<MutableUtf8ValuesArray<i32>, ExtendError<u8>> {
    let values = told(values, 0);
    if unchecked {
        MutableUtf8ValuesArray::try_from_trusted_len_iter_unchecked(alloc, values)
    } else {
        MutableUtf8ValuesArray::try_from_trusted_len_iter(alloc, values)
    }
}

/// The builder of values of which none is an error, and else the error.
pub fn value_builder_of_items_is(
    alloc: Global,
    values: &[Value<'_>],
    fails: bool,
    unchecked: bool,
) -> bool {
    match value_builder_of_items(alloc, values, unchecked) {
        Ok(builder) => !fails && three_values(&builder, &[0, 2, 2, 7]),
        Err(error) => fails && is_nine(error),
    }
}

// ---- owned items

fn owned_values(alloc: Global) -> Result<Vec<String>, PolarsError> {
    let mut values = Vec::new(alloc);
    for value in VALUES {
        values.push(String::from_str(alloc, value)?)?;
    }
    Ok(values)
}

fn owned(alloc: Global, row: Option<&str>) -> Result<Option<String>, PolarsError> {
    match row {
        Some(text) => Ok(Some(String::from_str(alloc, text)?)),
        None => Ok(None),
    }
}

fn owned_rows(alloc: Global) -> Result<Vec<Option<String>>, PolarsError> {
    let mut rows = Vec::new(alloc);
    for row in ROWS {
        rows.push(owned(alloc, row)?)?;
    }
    Ok(rows)
}

fn all_of_values_are(alloc: Global, values: &[String]) -> Result<bool, PolarsError> {
    Ok(
        builder_is(
            MutableUtf8Array::<i32>::from_slice(alloc, values),
            &[0, 2, 2, 7],
            None,
        )? && value_builder_is(
            MutableUtf8ValuesArray::<i32>::from_slice(alloc, values),
            &[0, 2, 2, 7],
        )? && value_builder_is(
            MutableUtf8ValuesArray::<i64>::from(alloc, values),
            &[0, 2, 2, 7],
        )? && array_is(Utf8Array::<i32>::from_slice(alloc, values), None)?,
    )
}

/// Each call over owned values.
pub fn owned_values_are(alloc: Global) -> Result<bool, PolarsError> {
    all_of_values_are(alloc, &owned_values(alloc)?)
}

fn all_of_rows_are(alloc: Global, rows: &[Option<String>]) -> Result<bool, PolarsError> {
    Ok(
        builder_is(
            MutableUtf8Array::<i32>::from(alloc, rows),
            &[0, 2, 2, 7],
            NULL,
        )? && array_is(Utf8Array::<i64>::from(alloc, rows), NULL)?,
    )
}

/// Each call over owned rows.
pub fn owned_rows_are(alloc: Global) -> Result<bool, PolarsError> {
    all_of_rows_are(alloc, &owned_rows(alloc)?)
}

// ---- operations

fn pushed(alloc: Global, row: Option<&str>) -> Result<Utf8Operation, PolarsError> {
    match row {
        Some(text) => Ok(Utf8Operation::Push(String::from_str(alloc, text)?)),
        None => Ok(Utf8Operation::PushNull),
    }
}

// three rows, one more, and that one taken
fn operations(alloc: Global) -> Result<Vec<Utf8Operation>, PolarsError> {
    let mut operations = Vec::new(alloc);
    for row in [Some("hi"), None, Some("there"), Some("é")] {
        operations.push(pushed(alloc, row)?)?;
    }
    operations.push(Utf8Operation::Pop)?;
    Ok(operations)
}

fn all_are_replayed(alloc: Global, operations: &[Utf8Operation]) -> Result<bool, PolarsError> {
    Ok(
        array_is(MutableUtf8Array::<i32>::replay(alloc, operations), NULL)?
            && array_is(
                MutableUtf8ValuesArray::<i64>::replay(alloc, operations),
                None,
            )?,
    )
}

/// Operations on an empty builder leave their slots.
pub fn operations_are_replayed(alloc: Global) -> Result<bool, PolarsError> {
    all_are_replayed(alloc, &operations(alloc)?)
}
