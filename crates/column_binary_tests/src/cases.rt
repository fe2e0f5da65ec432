//! Arrays for the tests.

use column_base::{ArrowDataType, Offset, PolarsError};
use column_binary::BinaryArray;
use column_checks::{Flags, bitmap};
use column_offset::OffsetsBuffer;
use column_storage::Buffer;
use std::alloc::Global;

/// The value bytes of the four slots.
pub const BYTES: &[u8] = b"xabcdeyz";

pub fn buffer<T: Copy>(alloc: Global, values: &[T]) -> Result<Buffer<T>, PolarsError> {
    Buffer::from_vec(alloc, Vec::from_slice(alloc, values)?)
}

/// The array of these lists.
pub fn array<O: Offset>(
    alloc: Global,
    offsets: &[O],
    values: &[u8],
    flags: Flags<'_>,
    dtype: ArrowDataType,
) -> Result<BinaryArray<O>, PolarsError> {
    let offsets = OffsetsBuffer::try_from_buffer(buffer(alloc, offsets)?)?;
    BinaryArray::try_new(
        dtype,
        offsets,
        buffer(alloc, values)?,
        bitmap(alloc, flags)?,
    )
}

/// Four slots: "ab", null over "c", "" and "de"; a byte stands before the first and two after the last.
pub fn four(alloc: Global) -> Result<BinaryArray<i32>, PolarsError> {
    let flags: Flags<'_> = Some(&[true, false, true, true]);
    array(alloc, &[1, 3, 4, 4, 6], BYTES, flags, ArrowDataType::Binary)
}

/// The same four slots in the large layout, all of them valid.
pub fn four_large(alloc: Global) -> Result<BinaryArray<i64>, PolarsError> {
    array(
        alloc,
        &[1, 3, 4, 4, 6],
        BYTES,
        None,
        ArrowDataType::LargeBinary,
    )
}

/// Three rows, the second of them null.
pub const ROWS: [Option<&[u8]>; 3] = [Some(&[1, 2]), None, Some(&[3])];

/// Their values, an empty one for the null.
pub const VALUES: [&[u8]; 3] = [&[1, 2], &[], &[3]];

/// The items of a slice, one by one, whose least number is told as any: less than there are, or more.
#[derive(Drop)]
pub struct Hinted<'a, T: Copy> {
    pub items: &'a [T],
    pub least: usize,
}

impl<'a, T: Copy> Iterator for Hinted<'a, T> {
    ghost use Rattle.std.specs.Prelude.{◌+◌, length};
    ghost use Rattle.std.specs.Iterator.{YieldsFirst, at_most};

    type Item = T;

    ghost next_gives = { YieldsFirst (λ s. s.items.now) };

    ghost remaining = { λ s. at_most (length s.items.now + s.least) };

    fn next(&mut self) -> Option<T> {
        let (first, rest) = self.items.split_first()?;
        self.items = rest;
        Some(*first)
    }

    fn size_hint(&self) -> (usize, Option<usize>) {
        (self.least, None)
    }
}
