//! What blocks, views and sources are seen to be: one truth value for each group of calls, and no assertion.

use crate::cases::{LONG, NONE, SHORT, buffer, long, source, stored, view};
use column_base::PolarsError;
use column_blocks::{Blocks, Sources, ViewRows, stored_view_says_its_bytes, take_view};
use column_checks::{Flags, grown_flags_are};
use column_storage::{Buffer, MutableBitmap};
use column_view::{View, no_fault_in_each};
use std::alloc::Global;

// ---- blocks

fn lengths_are(blocks: &Blocks, wanted: &[usize]) -> bool {
    if blocks.len() != wanted.len() {
        return false;
    }
    for i in 0..wanted.len() {
        if blocks.get(i).len() != wanted[i] {
            return false;
        }
    }
    true
}

fn sum_of(lengths: &[usize]) -> u128 {
    let mut sum = 0u128;
    for length in lengths {
        sum = sum.saturating_add(*length as u128);
    }
    sum
}

fn rule_is(blocks: &Blocks, wanted: &[usize]) -> bool {
    lengths_are(blocks, wanted)
        && blocks.completed_buffers().len() + usize::from(!wanted.is_empty()) == wanted.len()
        && blocks.total_buffer_len() == sum_of(wanted)
}

/// Whether values of these lengths give buffers of those, of which the last is in progress.
pub fn rule_gives(alloc: Global, lengths: &[usize], wanted: &[usize]) -> Result<bool, PolarsError> {
    Ok(rule_is(&stored(alloc, lengths)?, wanted))
}

fn views_stand(blocks: &mut Blocks) -> Result<bool, PolarsError> {
    let short = blocks.store(b"abc")?;
    let twelve = blocks.store(b"abcdefghijkl")?;
    let first = blocks.store(LONG)?;
    let second = blocks.store(LONG)?;
    Ok(
        short.to_le() == SHORT
            && twelve == View::new_inline(b"abcdefghijkl")
            && first.to_le() == long(1, 0)
            && second.to_le() == long(1, 13)
            && lengths_are(blocks, &[1, 26]),
    )
}

/// Whether a value of 12 bytes stands in its view, and one of 13 in a block.
pub fn views_are_given(alloc: Global) -> Result<bool, PolarsError> {
    let mut blocks = Blocks::from_buffers(vec![in alloc; buffer(alloc, b"x")?]?);
    views_stand(&mut blocks)
}

fn is_read_again(blocks: &mut Blocks, bytes: &[u8]) -> Result<bool, PolarsError> {
    blocks.known();
    let view = blocks.store(bytes)?;
    stored_view_says_its_bytes();
    no_fault_in_each();
    Ok(blocks.value_from_view_unchecked(&view) == bytes)
}

/// Whether a short value and a long one are read again by their views.
pub fn values_are_read_again(alloc: Global) -> Result<bool, PolarsError> {
    let mut blocks = Blocks::new(alloc);
    Ok(is_read_again(&mut blocks, b"abc")? && is_read_again(&mut blocks, LONG)?)
}

fn are_finished(blocks: &mut Blocks) -> bool {
    matches!(blocks.finish_in_progress(), Ok(true))
        && matches!(blocks.finish_in_progress(), Ok(false))
}

// the number of the buffer in which a value is stored
fn buffer_of(blocks: &mut Blocks, bytes: &[u8]) -> Result<u32, PolarsError> {
    Ok(blocks.store(bytes)?.buffer_idx())
}

fn least_room_is(blocks: &mut Blocks, most: &[u8]) -> Result<bool, PolarsError> {
    Ok(
        buffer_of(blocks, most)? == 2
            && buffer_of(blocks, LONG)? == 2
            && buffer_of(blocks, LONG)? == 3
            && lengths_are(blocks, &[8_192, 13, 8_192, 13]),
    )
}

fn all_are_finished(blocks: &mut Blocks, most: &[u8]) -> Result<bool, PolarsError> {
    if !are_finished(blocks) {
        return Ok(false);
    }
    least_room_is(blocks, most)
}

/// Whether an empty block is not finished, one that is not empty is once, and the next begins with the least room.
pub fn blocks_are_finished(alloc: Global) -> Result<bool, PolarsError> {
    let most = vec![in alloc; 0x78u8; 8_179]?;
    let mut blocks = stored(alloc, &[8_192, 13])?;
    all_are_finished(&mut blocks, &most)
}

fn are_pushed(
    blocks: &mut Blocks,
    none: Buffer<u8>,
    some: Buffer<u8>,
) -> Result<bool, PolarsError> {
    let first = blocks.push_buffer(none)?;
    let view = blocks.store(LONG)?;
    let second = blocks.push_buffer(some)?;
    let next = blocks.store(LONG)?;
    Ok(
        first == 0
            && second == 2
            && view.to_le() == long(1, 0)
            && next.to_le() == long(3, 0)
            && lengths_are(blocks, &[0, 13, 3, 13])
            && blocks.total_buffer_len() == 29,
    )
}

/// Whether a buffer that is pushed, also an empty one, comes after the block, which is finished.
pub fn buffers_are_pushed(alloc: Global) -> Result<bool, PolarsError> {
    let mut blocks = Blocks::new(alloc);
    are_pushed(&mut blocks, buffer(alloc, b"")?, buffer(alloc, b"xyz")?)
}

fn are_two(blocks: Blocks) -> Result<bool, PolarsError> {
    let buffers = blocks.into_buffers()?;
    Ok(buffers.len() == 2 && buffers[0].len() == 8_192 && buffers[1].len() == 26)
}

fn next_is(blocks: &mut Blocks) -> bool {
    match blocks.store(LONG) {
        Ok(view) => view.to_le() == long(1, 13),
        Err(_) => false,
    }
}

fn goes_on(blocks: Blocks) -> Result<bool, PolarsError> {
    let mut blocks = blocks;
    if !next_is(&mut blocks) {
        return Ok(false);
    }
    are_two(blocks)
}

fn copy_of(blocks: &Blocks) -> Result<bool, PolarsError> {
    goes_on(blocks.try_clone()?)
}

/// Whether a copy has the same buffers and goes on as the first would.
pub fn copy_goes_on(alloc: Global) -> Result<bool, PolarsError> {
    copy_of(&stored(alloc, &[8_192, 13])?)
}

// ---- views beside their flags

fn rows_are(rows: &ViewRows, views: &[[u8; 16]], flags: Flags<'_>, bytes: u128) -> bool {
    if rows.len() != views.len() || rows.is_empty() != views.is_empty() {
        return false;
    }
    for i in 0..views.len() {
        if rows.views()[i].to_le() != views[i] {
            return false;
        }
    }
    grown_flags_are(rows.validity(), flags) && rows.total_bytes_len() == bytes
}

fn are_added(rows: &mut ViewRows) -> bool {
    rows.reserve(1).is_ok()
        && rows.capacity() >= 1
        && rows.push(view(SHORT)).is_ok()
        && rows_are(rows, &[SHORT], None, 3)
        && rows.push_null().is_ok()
        && rows.push(view(long(0, 0))).is_ok()
}

fn three_are(rows: &ViewRows) -> bool {
    let flags: Flags<'_> = Some(&[true, false, true]);
    rows_are(rows, &[SHORT, NONE, long(0, 0)], flags, 16)
        && rows.len() == 3
        && rows.is_valid(0)
        && !rows.is_valid(1)
}

/// Whether views are pushed, and a validity is made at the first null.
pub fn rows_are_pushed(alloc: Global) -> bool {
    let mut rows = ViewRows::new(alloc);
    are_added(&mut rows) && three_are(&rows)
}

fn are_extended(rows: &mut ViewRows) -> bool {
    rows.extend_constant(0, View::zeroed(), false).is_ok()
        && rows.extend_constant(2, view(long(0, 0)), true).is_ok()
        && rows_are(rows, &[long(0, 0), long(0, 0)], None, 26)
        && rows.extend_constant(1, View::zeroed(), false).is_ok()
        && rows.extend_constant(1, view(SHORT), true).is_ok()
}

/// Whether equal slots are added, none of them too, and a validity is made where they are null.
pub fn rows_are_extended(alloc: Global) -> bool {
    let mut rows = ViewRows::new(alloc);
    let views = [long(0, 0), long(0, 0), NONE, SHORT];
    are_extended(&mut rows) && rows_are(&rows, &views, Some(&[true, true, false, true]), 29)
}

fn view_is_set(rows: &mut ViewRows, to: View) -> bool {
    if rows.len() != 2 {
        return false;
    }
    rows.set_view(1, to);
    true
}

fn flag_is_set(rows: &mut ViewRows, to: bool) -> bool {
    rows.len() == 2 && rows.set_valid(0, to).is_ok()
}

fn are_changed(rows: &mut ViewRows) -> bool {
    view_is_set(rows, view(long(0, 0)))
        && flag_is_set(rows, true)
        && rows_are(rows, &[SHORT, long(0, 0)], None, 16)
        && flag_is_set(rows, false)
        && view_is_set(rows, View::zeroed())
        && rows_are(rows, &[SHORT, NONE], Some(&[false, true]), 3)
        && flag_is_set(rows, true)
        && rows_are(rows, &[SHORT, NONE], Some(&[true, true]), 3)
}

/// Whether another view, and another flag, is put into a slot, and the sum with it.
pub fn slots_are_changed(alloc: Global) -> Result<bool, PolarsError> {
    let mut rows = ViewRows::from_parts(vec![in alloc; view(SHORT), view(SHORT)]?, None);
    Ok(are_changed(&mut rows))
}

fn has_other_flags(rows: &mut ViewRows, bits: MutableBitmap) -> bool {
    if rows.len() != 1 || bits.len() != 1 {
        return false;
    }
    rows.set_validity(Some(bits));
    rows.apply_validity(|bits| bits);
    rows.shrink_to_fit();
    rows_are(rows, &[SHORT], Some(&[true]), 3)
}

fn parts_are(rows: ViewRows) -> bool {
    let (views, validity) = rows.into_parts();
    views.len() == 1 && grown_flags_are(validity.as_ref(), Some(&[true]))
}

fn is_flagged(rows: ViewRows, bits: MutableBitmap) -> bool {
    let mut rows = rows;
    has_other_flags(&mut rows, bits) && parts_are(rows)
}

fn copy_is_flagged(alloc: Global, rows: &ViewRows) -> Result<bool, PolarsError> {
    Ok(is_flagged(rows.try_clone()?, MutableBitmap::from_len_set(alloc, 1)?))
}

/// Whether other flags stand beside a copy of the views, and its parts come back.
pub fn flags_are_changed(alloc: Global) -> Result<bool, PolarsError> {
    copy_is_flagged(
        alloc,
        &ViewRows::from_parts(vec![in alloc; view(SHORT)]?, None),
    )
}

// ---- sources

/// Whether the buffer of a view is taken once, and only for a long view.
pub fn buffers_are_taken_once(alloc: Global) -> Result<bool, PolarsError> {
    let mut sources = Sources::new(alloc);
    let number = sources.add_source(source(alloc)?)?;
    taken_once(alloc, &mut sources, number)
}

fn taken_once(alloc: Global, sources: &mut Sources, number: u32) -> Result<bool, PolarsError> {
    let mut blocks = stored(alloc, &[13])?;
    all_are_taken(&mut blocks, sources, number)
}

fn all_are_taken(
    blocks: &mut Blocks,
    sources: &mut Sources,
    number: u32,
) -> Result<bool, PolarsError> {
    Ok(
        taken(blocks, sources, SHORT, number)? == Some(view(SHORT))
            && blocks.completed_buffers().is_empty()
            && taken(blocks, sources, long(0, 1), number)? == Some(view(long(1, 1)))
            && taken(blocks, sources, long(0, 1), number)? == Some(view(long(1, 1)))
            && copy_has_place(sources, number)?
            && lengths_are(blocks, &[13, 14]),
    )
}

fn copy_has_place(sources: &Sources, number: u32) -> Result<bool, PolarsError> {
    let copy = sources.try_clone()?;
    Ok(place_is(sources, number, Some(1)) && place_is(&copy, number, Some(1)))
}

fn place_is(sources: &Sources, number: u32, wanted: Option<u32>) -> bool {
    (number as usize) < sources.len()
        && sources.get(number).len() == 1
        && sources.place(number, 0) == wanted
}

// The view that is taken, or None where it has a fault over its source.
fn taken(
    blocks: &mut Blocks,
    sources: &mut Sources,
    bytes: [u8; 16],
    number: u32,
) -> Result<Option<View>, PolarsError> {
    if number as usize >= sources.len() {
        return Ok(None);
    }
    let views = [view(bytes)];
    if column_view::check_views(&views, sources.get(number), false).is_err() {
        return Ok(None);
    }
    Ok(Some(take_view(blocks, sources, views[0], number)?))
}
