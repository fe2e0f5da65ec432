//! Offsets for the tests.

use column_base::{Cause, Offset, PolarsError};
use column_offset::{Offsets, OffsetsBuffer};
use std::alloc::Global;

/// Offsets that grow.
pub fn growing<O: Offset>(alloc: Global, numbers: &[O]) -> Result<Offsets<O>, PolarsError> {
    Offsets::try_from(Vec::from_slice(alloc, numbers)?)
}

/// Offsets that are shared.
pub fn shared<O: Offset>(alloc: Global, numbers: &[O]) -> Result<OffsetsBuffer<O>, PolarsError> {
    OffsetsBuffer::try_from_vec(alloc, Vec::from_slice(alloc, numbers)?)
}

/// The error of a cause.
pub fn error(cause: Option<Cause>) -> Option<PolarsError> {
    cause.map(PolarsError::ComputeError)
}

/// Whether a pair is these two numbers.
pub fn pair_is(pair: (usize, usize), first: usize, second: usize) -> bool {
    pair.0 == first && pair.1 == second
}

/// Whether there is a pair, of these two numbers.
pub fn next_pair_is(pair: Option<(usize, usize)>, first: usize, second: usize) -> bool {
    match pair {
        Some(pair) => pair_is(pair, first, second),
        None => false,
    }
}

/// Whether so many items are left, exactly.
pub fn hint_is(hint: (usize, Option<usize>), left: usize) -> bool {
    hint.0 == left && hint.1 == Some(left)
}
