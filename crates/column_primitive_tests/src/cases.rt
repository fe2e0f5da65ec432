//! Arrays and builders for the tests.

use column_base::{ArrowDataType, NativeType, PolarsError};
use column_checks::{Flags, bitmap, flags_are, grown_flags_are};
use column_primitive::{Int32Array, Int32Vec, MutablePrimitiveArray, PrimitiveArray};
use column_storage::{Buffer, MutableBitmap};
use std::alloc::Global;

/// Three rows, the second of them null.
pub const ROWS: [Option<i32>; 3] = [Some(1), None, Some(10)];

/// The array of these parts.
pub fn array(
    alloc: Global,
    dtype: ArrowDataType,
    numbers: &[i32],
    flags: Flags<'_>,
) -> Result<Int32Array, PolarsError> {
    let values = Buffer::from_vec(alloc, Vec::from_slice(alloc, numbers)?)?;
    PrimitiveArray::try_new(dtype, values, bitmap(alloc, flags)?)
}

/// Four dates: 7, null over -2, 0 and 9.
pub fn four(alloc: Global) -> Result<Int32Array, PolarsError> {
    let flags: Flags<'_> = Some(&[true, false, true, true]);
    array(alloc, ArrowDataType::Date32, &[7, -2, 0, 9], flags)
}

/// A builder of these dates without nulls.
pub fn dates(alloc: Global, numbers: &[i32]) -> Result<Int32Vec, PolarsError> {
    MutablePrimitiveArray::try_new(
        ArrowDataType::Date32,
        Vec::from_slice(alloc, numbers)?,
        None,
    )
}

/// Flags of a builder.
pub fn grown(alloc: Global, bits: &[bool]) -> Result<MutableBitmap, PolarsError> {
    let mut flags = MutableBitmap::new(alloc);
    for bit in bits {
        flags.push(*bit)?;
    }
    Ok(flags)
}

/// Whether an array has this data type, these numbers, and these flags exactly where some are wanted.
pub fn array_is<T: NativeType>(
    array: &PrimitiveArray<T>,
    dtype: ArrowDataType,
    numbers: &[T],
    flags: Flags<'_>,
) -> bool {
    array.dtype() == dtype
        && array.values().as_slice() == numbers
        && flags_are(array.validity(), flags)
        && array.len() == numbers.len()
        && array.is_empty() == numbers.is_empty()
}

/// The same of a builder.
pub fn builder_is<T: NativeType>(
    builder: &MutablePrimitiveArray<T>,
    dtype: ArrowDataType,
    numbers: &[T],
    flags: Flags<'_>,
) -> bool {
    builder.dtype() == dtype
        && builder.values().as_slice() == numbers
        && grown_flags_are(builder.validity(), flags)
        && builder.len() == numbers.len()
        && builder.is_empty() == numbers.is_empty()
        && builder.capacity() >= builder.len()
}
