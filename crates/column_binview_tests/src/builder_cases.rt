//! Builders, sources and values for the tests.

use column_base::PolarsError;
use column_binview::{MutableBinaryViewArray, MutablePlBinary};
use column_storage::{Buffer, DataBuffers};
use column_view::View;
use std::alloc::Global;

/// Three bytes.
pub const SHORT: &[u8] = b"abc";

/// Thirteen bytes, twice.
pub const TWICE: &[u8] = b"abcdefghijklmabcdefghijklm";

/// Thirteen bytes of one letter.
pub const A: &[u8] = b"aaaaaaaaaaaaa";

pub const B: &[u8] = b"bbbbbbbbbbbbb";

pub const C: &[u8] = b"ccccccccccccc";

/// The view of thirteen bytes of one letter, at the start of a buffer.
pub fn of(letter: u8, index: u8) -> [u8; 16] {
    [
        13, 0, 0, 0, letter, letter, letter, letter, index, 0, 0, 0, 0, 0, 0, 0,
    ]
}

/// A buffer of the bytes.
pub fn buffer(alloc: Global, bytes: &[u8]) -> Result<Buffer<u8>, PolarsError> {
    Buffer::from_vec(alloc, Vec::from_slice(alloc, bytes)?)
}

/// A source of three buffers.
pub fn source(alloc: Global) -> Result<DataBuffers, PolarsError> {
    DataBuffers::from_vec(
        alloc,
        vec![in alloc; buffer(alloc, A)?, buffer(alloc, B)?, buffer(alloc, C)?]?,
    )
}

/// The builder of values of these lengths, one after another.
pub fn stored(alloc: Global, lengths: &[usize]) -> Result<MutablePlBinary, PolarsError> {
    let mut builder = MutableBinaryViewArray::new(alloc);
    for length in lengths {
        let value = vec![in alloc; 0x78u8; *length]?;
        builder.push_value(value.as_slice())?;
    }
    Ok(builder)
}
