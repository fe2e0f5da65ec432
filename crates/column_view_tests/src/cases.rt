//! Views and buffers for the tests.

use column_base::PolarsError;
use column_storage::{Buffer, DataBuffers};
use column_view::View;
use std::alloc::Global;

/// Thirteen bytes.
pub const LONG: &[u8] = b"abcdefghijklm";

/// No buffer, one buffer, or two of which the first is empty.
#[derive(Clone, Copy, Debug)]
pub enum Held<'a> {
    None,
    One(&'a [u8]),
    Second(&'a [u8]),
}

fn buffer(alloc: Global, bytes: &[u8]) -> Result<Buffer<u8>, PolarsError> {
    Buffer::from_vec(alloc, Vec::from_slice(alloc, bytes)?)
}

/// The buffers.
pub fn buffers_of(alloc: Global, held: Held<'_>) -> Result<DataBuffers, PolarsError> {
    match held {
        Held::None => DataBuffers::empty(alloc),
        Held::One(bytes) => DataBuffers::from_vec(alloc, vec![in alloc; buffer(alloc, bytes)?]?),
        Held::Second(bytes) => second(alloc, bytes),
    }
}

fn second(alloc: Global, bytes: &[u8]) -> Result<DataBuffers, PolarsError> {
    let mut all = Vec::with_capacity(alloc, 2)?;
    all.push(buffer(alloc, b"")?)?;
    all.push(buffer(alloc, bytes)?)?;
    if all.len() == 2 {
        DataBuffers::from_vec(alloc, all)
    } else {
        Err(PolarsError::NoMemory)
    }
}

/// A view of thirteen bytes that begin with "abcd", at a place of a buffer.
pub fn long(index: u8, start: u8) -> [u8; 16] {
    [
        13, 0, 0, 0, b'a', b'b', b'c', b'd', index, 0, 0, 0, start, 0, 0, 0,
    ]
}

/// The view of "abc".
pub const SHORT: [u8; 16] = [3, 0, 0, 0, b'a', b'b', b'c', 0, 0, 0, 0, 0, 0, 0, 0, 0];

/// A view of the bytes.
pub fn view(bytes: [u8; 16]) -> View {
    View::from_le(bytes)
}
