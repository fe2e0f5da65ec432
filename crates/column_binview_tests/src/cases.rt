//! Arrays for the tests.

use column_base::{ArrowDataType, PolarsError, ViewKind};
use column_binview::{BinaryViewArray, BinaryViewArrayGeneric, Utf8ViewArray};
use column_checks::{Flags, bitmap};
use column_storage::{Bitmap, Buffer, DataBuffers};
use column_view::View;
use std::alloc::Global;

/// Thirteen bytes.
pub const LONG: &[u8] = b"abcdefghijklm";

/// The view of "abc".
pub const ABC: [u8; 16] = [3, 0, 0, 0, b'a', b'b', b'c', 0, 0, 0, 0, 0, 0, 0, 0, 0];

/// A view that holds the first twelve bytes.
pub const TWELVE: [u8; 16] = [
    12, 0, 0, 0, 97, 98, 99, 100, 101, 102, 103, 104, 105, 106, 107, 108,
];

/// The view of no bytes.
pub const NONE: [u8; 16] = [0; 16];

/// A view of the thirteen bytes at a place of a buffer.
pub fn long(index: u8, start: u8) -> [u8; 16] {
    [
        13, 0, 0, 0, b'a', b'b', b'c', b'd', index, 0, 0, 0, start, 0, 0, 0,
    ]
}

fn views(alloc: Global, bytes: &[[u8; 16]]) -> Result<Buffer<View>, PolarsError> {
    let mut views = Vec::with_capacity(alloc, bytes.len())?;
    for bytes in bytes {
        views.push(View::from_le(*bytes))?;
    }
    Buffer::from_vec(alloc, views)
}

fn one_buffer(alloc: Global, bytes: &[u8]) -> Result<DataBuffers, PolarsError> {
    let bytes = Buffer::from_vec(alloc, Vec::from_slice(alloc, bytes)?)?;
    DataBuffers::from_vec(alloc, vec![in alloc; bytes]?)
}

/// The lists of an array over one buffer, or over none.
pub fn lists(
    alloc: Global,
    bytes: &[[u8; 16]],
    buffer: Option<&[u8]>,
    flags: Flags<'_>,
) -> Result<(Buffer<View>, DataBuffers, Option<Bitmap>), PolarsError> {
    let buffers = match buffer {
        Some(buffer) => one_buffer(alloc, buffer)?,
        None => DataBuffers::empty(alloc)?,
    };
    Ok((views(alloc, bytes)?, buffers, bitmap(alloc, flags)?))
}

/// The array of these lists.
pub fn array<K: ViewKind>(
    alloc: Global,
    bytes: &[[u8; 16]],
    buffer: Option<&[u8]>,
    flags: Flags<'_>,
) -> Result<BinaryViewArrayGeneric<K>, PolarsError> {
    let (views, buffers, validity) = lists(alloc, bytes, buffer, flags)?;
    BinaryViewArrayGeneric::try_new(ArrowDataType::Unknown, views, buffers, validity)
}

/// The views of the four slots.
pub const FOUR: [[u8; 16]; 4] = [
    [3, 0, 0, 0, 97, 98, 99, 0, 0, 0, 0, 0, 0, 0, 0, 0],
    [13, 0, 0, 0, 97, 98, 99, 100, 0, 0, 0, 0, 1, 0, 0, 0],
    [0; 16],
    [
        12, 0, 0, 0, 97, 98, 99, 100, 101, 102, 103, 104, 105, 106, 107, 108,
    ],
];

/// Four slots: "abc", null over the thirteen bytes, "" and the first twelve of them.
pub fn four(alloc: Global) -> Result<BinaryViewArray, PolarsError> {
    array(
        alloc,
        &FOUR,
        Some(b"xabcdefghijklmy"),
        Some(&[true, false, true, true]),
    )
}

/// The same views as texts, all of them valid.
pub fn four_texts(alloc: Global) -> Result<Utf8ViewArray, PolarsError> {
    array(alloc, &FOUR, Some(b"xabcdefghijklmy"), None)
}
