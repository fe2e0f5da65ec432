//! Slots of slots.

use crate::cases::{hint_is, shared};
use column_base::{Offset, PolarsError};
use column_offset::OffsetsBuffer;
use std::alloc::Global;
use std::ops::Range;

fn range_is(range: Option<Range<usize>>, start: usize, end: usize) -> bool {
    match range {
        Some(range) => range.start == start && range.end == end,
        None => false,
    }
}

/// The ranges of 0, 2, 3 over 0, 4, 5, 9.
fn leaves_are<O: Offset>(levels: &[OffsetsBuffer<O>]) -> bool {
    if levels.len() != 2 || levels[0].last().to_usize() >= levels[1].len() {
        return false;
    }
    let full = OffsetsBuffer::leaf_full_start_end(levels);
    let mut ranges = OffsetsBuffer::leaf_ranges_iter(levels);
    full.start == 0
        && full.end == 9
        && hint_is(ranges.size_hint(), 2)
        && range_is(ranges.next(), 0, 5)
        && range_is(ranges.next(), 5, 9)
        && ranges.next().is_none()
        && ranges.next().is_none()
}

pub fn levels_are_read<O: Offset>(
    alloc: Global,
    outer: &[O],
    inner: &[O],
) -> Result<bool, PolarsError> {
    let levels = [shared(alloc, outer)?, shared(alloc, inner)?];
    Ok(leaves_are(&levels))
}
