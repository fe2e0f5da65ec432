//! Values, blocks and views for the tests.

use column_base::PolarsError;
use column_blocks::Blocks;
use column_storage::{Buffer, DataBuffers};
use column_view::View;
use std::alloc::Global;

/// Thirteen bytes.
pub const LONG: &[u8] = b"abcdefghijklm";

/// The view of no bytes.
pub const NONE: [u8; 16] = [0; 16];

/// The view of "abc".
pub const SHORT: [u8; 16] = [3, 0, 0, 0, b'a', b'b', b'c', 0, 0, 0, 0, 0, 0, 0, 0, 0];

/// A view of thirteen bytes that begin with "abcd", at a place of a buffer.
pub fn long(index: u8, start: u8) -> [u8; 16] {
    [
        13, 0, 0, 0, b'a', b'b', b'c', b'd', index, 0, 0, 0, start, 0, 0, 0,
    ]
}

/// A view of the bytes.
pub fn view(bytes: [u8; 16]) -> View {
    View::from_le(bytes)
}

/// A buffer of the bytes.
pub fn buffer(alloc: Global, bytes: &[u8]) -> Result<Buffer<u8>, PolarsError> {
    Buffer::from_vec(alloc, Vec::from_slice(alloc, bytes)?)
}

/// The blocks of values of these lengths, stored one after another.
pub fn stored(alloc: Global, lengths: &[usize]) -> Result<Blocks, PolarsError> {
    let mut blocks = Blocks::new(alloc);
    for length in lengths {
        let value = vec![in alloc; 0x78u8; *length]?;
        let _view = blocks.store(&value)?;
    }
    Ok(blocks)
}

/// A source of one buffer: one byte, and after it the thirteen.
pub fn source(alloc: Global) -> Result<DataBuffers, PolarsError> {
    DataBuffers::from_vec(alloc, vec![in alloc; buffer(alloc, b"xabcdefghijklm")?]?)
}
