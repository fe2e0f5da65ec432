//! Buffers and bitmaps for the tests.

use column_base::PolarsError;
use column_storage::{Bitmap, Buffer, DataBuffers};
use std::alloc::Global;

/// The numbers of a slice.
pub fn numbers(alloc: Global, values: &[i32]) -> Result<Buffer<i32>, PolarsError> {
    Buffer::from_vec(alloc, Vec::from_slice(alloc, values)?)
}

/// 10, 20, 30, 40.
pub fn four(alloc: Global) -> Result<Buffer<i32>, PolarsError> {
    numbers(alloc, &[10, 20, 30, 40])
}

/// Set, not set, set, set.
pub fn flags(alloc: Global) -> Result<Bitmap, PolarsError> {
    Bitmap::from_bools(alloc, &[true, false, true, true])
}

fn bytes(alloc: Global, values: &[u8]) -> Result<Buffer<u8>, PolarsError> {
    Buffer::from_vec(alloc, Vec::from_slice(alloc, values)?)
}

fn both(alloc: Global, one: Buffer<u8>, other: Buffer<u8>) -> Result<DataBuffers, PolarsError> {
    DataBuffers::from_vec(alloc, vec![in alloc; one, other]?)
}

/// The bytes 3, and 1, 4.
pub fn two_buffers(alloc: Global) -> Result<DataBuffers, PolarsError> {
    both(alloc, bytes(alloc, &[3])?, bytes(alloc, &[1, 4])?)
}
