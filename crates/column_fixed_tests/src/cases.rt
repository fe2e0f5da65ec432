//! Arrays and builders for the tests.

use column_base::{ArrowDataType, PolarsError};
use column_checks::{Flags, bitmap};
use column_fixed::{FixedSizeBinaryArray, MutableFixedSizeBinaryArray};
use column_storage::{Buffer, MutableBitmap};
use std::alloc::Global;

/// Byte strings of two bytes.
pub const TWO: ArrowDataType = ArrowDataType::FixedSizeBinary(2);

/// Four rows of two bytes, the second of them null.
pub const ROWS: [Option<&[u8]>; 4] = [Some(b"ab"), None, Some(b"cd"), Some(b"ef")];

/// The array of these lists.
pub fn array(
    alloc: Global,
    dtype: ArrowDataType,
    values: &[u8],
    flags: Flags<'_>,
) -> Result<FixedSizeBinaryArray, PolarsError> {
    let values = Buffer::from_vec(alloc, Vec::from_slice(alloc, values)?)?;
    FixedSizeBinaryArray::try_new(dtype, values, bitmap(alloc, flags)?)
}

/// Four slots: "ab", null over "xy", "cd" and "ef".
pub fn four(alloc: Global) -> Result<FixedSizeBinaryArray, PolarsError> {
    let flags: Flags<'_> = Some(&[true, false, true, true]);
    array(alloc, TWO, b"abxycdef", flags)
}

/// The rows 0102 and null.
pub fn pair(alloc: Global) -> Result<MutableFixedSizeBinaryArray, PolarsError> {
    let mut builder = MutableFixedSizeBinaryArray::new(alloc, 2);
    builder.try_push(Some(&[1, 2]))?;
    builder.push_null()?;
    Ok(builder)
}

/// The flags of a builder.
pub fn grown(alloc: Global, flags: Flags<'_>) -> Result<Option<MutableBitmap>, PolarsError> {
    let Some(flags) = flags else {
        return Ok(None);
    };
    let mut bits = MutableBitmap::new(alloc);
    for flag in flags {
        bits.push(*flag)?;
    }
    Ok(Some(bits))
}

/// The builder of these lists.
pub fn of_lists(
    alloc: Global,
    dtype: ArrowDataType,
    values: &[u8],
    flags: Flags<'_>,
) -> Result<MutableFixedSizeBinaryArray, PolarsError> {
    let bits = grown(alloc, flags)?;
    MutableFixedSizeBinaryArray::try_new(dtype, Vec::from_slice(alloc, values)?, bits)
}
