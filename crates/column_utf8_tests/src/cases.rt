//! Lists as they are written down, and the arrays that they make.

use column_base::{ArrowDataType, Cause, Offset, PolarsError};
use column_binary::BinaryArray;
use column_checks::{Flags, bitmap};
use column_offset::OffsetsBuffer;
use column_storage::Buffer;
use column_utf8::Utf8Array;
use std::alloc::Global;

/// The lists of an array, whatever the width of its offsets.
#[derive(Clone, Copy)]
pub struct Lists<'a> {
    pub offsets: &'a [usize],
    pub values: &'a [u8],
    pub flags: Flags<'a>,
}

pub fn lists_of<'a>(offsets: &'a [usize], values: &'a [u8], flags: Flags<'a>) -> Lists<'a> {
    Lists {
        offsets,
        values,
        flags,
    }
}

/// Four slots: "é", null over "x", "" and "€b". A byte stands before the first and two after the last that are no text.
pub const FOUR: Lists<'static> = Lists {
    offsets: &[1, 3, 4, 4, 8],
    values: b"\x80\xC3\xA9x\xE2\x82\xACb\x80\xFF",
    flags: Some(&[true, false, true, true]),
};

fn offsets<O: Offset>(alloc: Global, places: &[usize]) -> Result<Buffer<O>, PolarsError> {
    let mut offsets = Vec::with_capacity(alloc, places.len())?;
    for place in places {
        match O::from_usize(*place) {
            Some(offset) => offsets.push(offset)?,
            None => return Err(Cause::Overflow.into()),
        }
    }
    Buffer::from_vec(alloc, offsets)
}

fn values(alloc: Global, bytes: &[u8]) -> Result<Buffer<u8>, PolarsError> {
    Buffer::from_vec(alloc, Vec::from_slice(alloc, bytes)?)
}

/// The texts of these lists, or why they are refused.
pub fn texts<O: Offset>(
    alloc: Global,
    lists: Lists<'_>,
    dtype: ArrowDataType,
) -> Result<Utf8Array<O>, PolarsError> {
    let offsets = OffsetsBuffer::try_from_buffer(offsets(alloc, lists.offsets)?)?;
    let flags = bitmap(alloc, lists.flags)?;
    Utf8Array::try_new(dtype, offsets, values(alloc, lists.values)?, flags)
}

/// The texts of these raw lists, or why they are refused.
pub fn raw_texts<O: Offset>(
    alloc: Global,
    lists: Lists<'_>,
) -> Result<Result<Utf8Array<O>, Cause>, PolarsError> {
    let offsets = offsets(alloc, lists.offsets)?;
    let flags = bitmap(alloc, lists.flags)?;
    Ok(Utf8Array::try_from_parts(offsets, values(alloc, lists.values)?, flags))
}

/// The byte strings of these lists.
pub fn byte_strings<O: Offset>(
    alloc: Global,
    lists: Lists<'_>,
) -> Result<BinaryArray<O>, PolarsError> {
    let offsets = OffsetsBuffer::try_from_buffer(offsets(alloc, lists.offsets)?)?;
    let flags = bitmap(alloc, lists.flags)?;
    let dtype = BinaryArray::<O>::default_dtype();
    BinaryArray::try_new(dtype, offsets, values(alloc, lists.values)?, flags)
}

pub fn four<O: Offset>(alloc: Global) -> Result<Utf8Array<O>, PolarsError> {
    texts(alloc, FOUR, Utf8Array::<O>::default_dtype())
}

/// Three rows, the second of them null.
pub const ROWS: [Option<&str>; 3] = [Some("hi"), None, Some("there")];

/// Their values, an empty one for the null.
pub const VALUES: [&str; 3] = ["hi", "", "there"];

/// The items of a slice, one by one, whose least number is told as any: less than there are, or more.
#[derive(Drop)]
pub struct Hinted<'a, T: Copy> {
    pub items: &'a [T],
    pub least: usize,
}

impl<'a, T: Copy> Iterator for Hinted<'a, T> {
    ghost use Rattle.std.specs.Prelude.{◌+◌, length};
    ghost use Rattle.std.specs.Iterator.{YieldsFirst, at_most};

    type Item = T;

    ghost next_gives = { YieldsFirst (λ s. s.items.now) };

    ghost remaining = { λ s. at_most (length s.items.now + s.least) };

    fn next(&mut self) -> Option<T> {
        let (first, rest) = self.items.split_first()?;
        self.items = rest;
        Some(*first)
    }

    fn size_hint(&self) -> (usize, Option<usize>) {
        (self.least, None)
    }
}
