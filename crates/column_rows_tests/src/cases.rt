//! Rows and arrays for the tests.

use column_base::{ArrowDataType, Offset, PolarsError};
use column_binary::BinaryArray;
use column_binview::BinaryViewArray;
use column_checks::{Flags, bitmap};
use column_fixed::FixedSizeBinaryArray;
use column_offset::OffsetsBuffer;
use column_primitive::{Int64Array, PrimitiveArray};
use column_storage::{Buffer, DataBuffers};
use column_view::View;
use std::alloc::Global;

/// Thirteen bytes.
pub const LONG: &[u8] = b"abcdefghijklm";

/// The rows of the four slots with offsets.
pub const FOUR: [Option<&[u8]>; 4] = [Some(b"ab"), None, Some(b""), Some(b"de")];

/// The rows of the slots with long ones.
pub const MIXED: [Option<&[u8]>; 4] = [Some(b"abc"), None, Some(LONG), Some(b"nopqrstuvwxyz")];

/// The rows of the slots of two bytes.
pub const PAIRS: [Option<&[u8]>; 3] = [Some(b"ab"), None, Some(b"cd")];

/// The rows of the slots behind views.
pub const VIEWED: [Option<&[u8]>; 3] = [Some(b"abc"), None, Some(LONG)];

fn buffer<T: Copy>(alloc: Global, values: &[T]) -> Result<Buffer<T>, PolarsError> {
    Buffer::from_vec(alloc, Vec::from_slice(alloc, values)?)
}

/// The array of these lists.
pub fn array<O: Offset>(
    alloc: Global,
    offsets: &[O],
    values: &[u8],
    flags: Flags<'_>,
    dtype: ArrowDataType,
) -> Result<BinaryArray<O>, PolarsError> {
    let offsets = OffsetsBuffer::try_from_buffer(buffer(alloc, offsets)?)?;
    BinaryArray::try_new(
        dtype,
        offsets,
        buffer(alloc, values)?,
        bitmap(alloc, flags)?,
    )
}

/// Four slots: "ab", null over "c", "" and "de"; a byte stands before the first and two after the last.
pub fn four(alloc: Global) -> Result<BinaryArray<i32>, PolarsError> {
    let flags: Flags<'_> = Some(&[true, false, true, true]);
    array(
        alloc,
        &[1, 3, 4, 4, 6],
        b"xabcdeyz",
        flags,
        ArrowDataType::Binary,
    )
}

/// Two slots in the large layout: "ab" and null over "c".
pub fn large(alloc: Global) -> Result<BinaryArray<i64>, PolarsError> {
    let flags: Flags<'_> = Some(&[true, false]);
    array(alloc, &[0, 2, 3], b"abc", flags, ArrowDataType::LargeBinary)
}

/// Three slots: "ab", null over "xyz" and "cd".
pub fn pairs(alloc: Global) -> Result<BinaryArray<i32>, PolarsError> {
    let flags: Flags<'_> = Some(&[true, false, true]);
    array(
        alloc,
        &[0, 2, 5, 7],
        b"abxyzcd",
        flags,
        ArrowDataType::Binary,
    )
}

/// Four slots: "abc", null over "xy", and twice thirteen bytes.
pub fn mixed(alloc: Global) -> Result<BinaryArray<i32>, PolarsError> {
    let flags: Flags<'_> = Some(&[true, false, true, true]);
    let values = b"abcxyabcdefghijklmnopqrstuvwxyz";
    array(
        alloc,
        &[0, 3, 5, 18, 31],
        values,
        flags,
        ArrowDataType::Binary,
    )
}

/// No slots.
pub fn none(alloc: Global) -> Result<BinaryArray<i32>, PolarsError> {
    array(alloc, &[0], b"", None, ArrowDataType::Binary)
}

/// Three slots of two bytes: "ab", null over "xy" and "cd".
pub fn fixed(alloc: Global) -> Result<FixedSizeBinaryArray, PolarsError> {
    let flags: Flags<'_> = Some(&[true, false, true]);
    let values = buffer(alloc, b"abxycd")?;
    FixedSizeBinaryArray::try_new(
        ArrowDataType::FixedSizeBinary(2),
        values,
        bitmap(alloc, flags)?,
    )
}

/// Three numbers: 7, null over -2, and 9.
pub fn numbers(alloc: Global) -> Result<Int64Array, PolarsError> {
    let flags: Flags<'_> = Some(&[true, false, true]);
    let values = buffer(alloc, &[7i64, -2, 9])?;
    PrimitiveArray::try_new(ArrowDataType::Int64, values, bitmap(alloc, flags)?)
}

/// The view of "abc".
pub const ABC: [u8; 16] = [3, 0, 0, 0, b'a', b'b', b'c', 0, 0, 0, 0, 0, 0, 0, 0, 0];

/// The view of no bytes.
pub const NONE: [u8; 16] = [0; 16];

/// A view of thirteen bytes that begin with these four, at a place of a buffer.
pub fn long(first: &[u8; 4], index: u8, start: u8) -> [u8; 16] {
    [
        13, 0, 0, 0, first[0], first[1], first[2], first[3], index, 0, 0, 0, start, 0, 0, 0,
    ]
}

fn views(alloc: Global, bytes: &[[u8; 16]]) -> Result<Buffer<View>, PolarsError> {
    let mut views = Vec::with_capacity(alloc, bytes.len())?;
    for bytes in bytes {
        views.push(View::from_le(*bytes))?;
    }
    Buffer::from_vec(alloc, views)
}

/// Three slots behind views: "abc", null over the thirteen bytes, and those, which stand in a buffer after a byte.
pub fn viewed(alloc: Global) -> Result<BinaryViewArray, PolarsError> {
    let flags: Flags<'_> = Some(&[true, false, true]);
    let views = views(alloc, &[ABC, long(b"abcd", 0, 1), long(b"abcd", 0, 1)])?;
    let bytes = buffer(alloc, b"xabcdefghijklmy")?;
    let buffers = DataBuffers::from_vec(alloc, vec![in alloc; bytes]?)?;
    BinaryViewArray::try_new(
        ArrowDataType::BinaryView,
        views,
        buffers,
        bitmap(alloc, flags)?,
    )
}
