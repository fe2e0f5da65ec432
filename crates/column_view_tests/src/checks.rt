//! What views are seen to be: one truth value for each group of calls, and no assertion.

ghost use Rattle.std.specs.Prelude.{◌≡◌, ◌<◌, ◌≤◌, None};
ghost use Rattle.column_view.specs.ViewFaults.{layout_fault};

use crate::cases::{Held, LONG, SHORT, buffers_of, long, view};
use column_base::{Cause, PolarsError};
use column_storage::DataBuffers;
use column_view::{
    View, check_contents, check_views, no_fault_in_each, sum_of_lengths, validate_binary_view,
    validate_utf8_only, validate_utf8_view,
};
use std::alloc::Global;

// ---- constructors and readers

fn parts_are(view: &View, length: u32, prefix: u32, index: u32, start: u32) -> bool {
    view.length() == length
        && view.prefix() == prefix
        && view.buffer_idx() == index
        && view.offset() == start
}

pub fn short_is() -> bool {
    let made = View::new_inline(b"abc");
    made.to_le() == SHORT
        && View::new_inline_unchecked(b"abc") == made
        && View::new_from_bytes(b"abc", 7, 9) == made
        && parts_are(&made, 3, 0x0063_6261, 0, 0)
        && !made.is_long()
}

pub fn twelve_is() -> bool {
    let made = View::new_from_bytes(b"abcdefghijkl", 7, 9);
    made.to_le()
        == [
            12, 0, 0, 0, 97, 98, 99, 100, 101, 102, 103, 104, 105, 106, 107, 108,
        ]
        && made == View::new_inline(b"abcdefghijkl")
        && !made.is_long()
}

pub fn long_is() -> bool {
    let made = View::new_from_bytes(LONG, 2, 0x0102_0304);
    made.to_le() == [13, 0, 0, 0, 97, 98, 99, 100, 2, 0, 0, 0, 4, 3, 2, 1]
        && made == View::new_noninline_unchecked(LONG, 2, 0x0102_0304)
        && parts_are(&made, 13, 0x6463_6261, 2, 0x0102_0304)
        && made.is_long()
}

pub fn other_place_is() -> bool {
    let made = view(long(2, 5)).with_buffer_idx(u32::MAX);
    made.to_le() == [13, 0, 0, 0, 97, 98, 99, 100, 255, 255, 255, 255, 5, 0, 0, 0]
        && made != view(long(2, 5))
}

pub fn numbers_are() -> bool {
    let made = View::from_u128(0x0F0E_0D0C_0B0A_0908_0706_0504_0302_0100);
    made.to_le() == [0, 1, 2, 3, 4, 5, 6, 7, 8, 9, 10, 11, 12, 13, 14, 15]
        && made.as_u128() == 0x0F0E_0D0C_0B0A_0908_0706_0504_0302_0100
        && View::zeroed().as_u128() == 0
        && View::zeroed() == View::new_inline(b"")
        && View::MAX_INLINE_SIZE == 12
}

// a view without a fault, and its content in these buffers
fn content_is(view: &View, buffers: &DataBuffers, bytes: &[u8]) -> bool
    requires { layout_fault view.now buffers.now ≡ None }
{
    view.get_slice_unchecked(buffers) == bytes
}

/// Whether a view holds these bytes.
pub fn inlined_is(made: &View, bytes: &[u8]) -> bool {
    made.length() <= 12 && made.get_inlined_slice_unchecked() == bytes
}

/// Whether one view, where it has no fault, has this content.
pub fn one_content_is(
    alloc: Global,
    made: View,
    held: Held<'_>,
    bytes: &[u8],
) -> Result<bool, PolarsError> {
    let buffers = buffers_of(alloc, held)?;
    no_fault_in_each();
    Ok(check_views(&[made], &buffers, false).is_ok() && content_is(&made, &buffers, bytes))
}

pub fn contents_are(alloc: Global) -> Result<bool, PolarsError> {
    let buffers = buffers_of(alloc, Held::Second(b"xabcdefghijklmy"))?;
    let short = [view(SHORT)];
    let named = [view(long(1, 1))];
    Ok(check_views(&short, &buffers, true).is_ok() && check_views(&named, &buffers, true).is_ok())
}

pub fn lengths_are_added() -> bool {
    let most = view([255; 16]);
    sum_of_lengths(&[]) == 0
        && sum_of_lengths(&[view(SHORT), view(long(1, 1)), view(SHORT)]) == 19
        && sum_of_lengths(&[most, most]) == 8_589_934_590
}

// ---- faults

fn error_of(cause: Cause) -> PolarsError {
    match cause {
        Cause::ViewIndex | Cause::BufferSlice => PolarsError::OutOfBounds(cause),
        _ => PolarsError::ComputeError(cause),
    }
}

/// Views as byte strings and as texts, whether the checks answer these causes.
pub fn faults_are(
    alloc: Global,
    views: &[View],
    buffers: Held<'_>,
    binary: Option<Cause>,
    text: Option<Cause>,
) -> Result<bool, PolarsError> {
    let buffers = buffers_of(alloc, buffers)?;
    Ok(
        check_views(views, &buffers, false).err() == binary
            && check_views(views, &buffers, true).err() == text
            && validate_binary_view(views, &buffers).err() == binary.map(error_of)
            && validate_utf8_view(views, &buffers).err() == text.map(error_of),
    )
}

/// Of views without another fault, whether their contents are UTF-8.
pub fn texts_are(
    alloc: Global,
    views: &[View],
    buffers: Held<'_>,
    good: bool,
) -> Result<bool, PolarsError> {
    let buffers = buffers_of(alloc, buffers)?;
    Ok(
        check_views(views, &buffers, false).is_ok()
            && check_contents(views, &buffers).is_ok() == good
            && validate_utf8_only(views, &buffers).is_ok() == good,
    )
}

// ---- the plain cut

// the view of `width` bytes that count up from `first`
fn counted(first: u8, width: u8) -> [u8; 16]
    requires { width ≤ 12 }
{
    let mut bytes = [0u8; 16];
    bytes[0] = width;
    for i in 0..width {
        bytes[4 + i as usize] = first.wrapping_add(i);
    }
    bytes
}

/// Whether so many items of a width, of bytes that count up, give their views after one that was there.
pub fn cut_is(alloc: Global, rows: u8, width: u8) -> Result<bool, PolarsError>
    requires some { 0 < width }
    requires short { width ≤ 12 }
{
    let mut bytes = Vec::new(alloc);
    for i in 0..rows as usize * width as usize {
        bytes.push((i % 256) as u8)?;
    }
    let mut views = vec![in alloc; View::zeroed()]?;
    if bytes.len() % width as usize != 0 {
        return Ok(false);
    }
    View::extend_with_inlinable_strided(&mut views, &bytes, width)?;
    Ok(views_are(&views, rows, width))
}

fn views_are(views: &[View], rows: u8, width: u8) -> bool
    requires { width ≤ 12 }
{
    if views.len() != rows as usize + 1 || views[0] != View::zeroed() {
        return false;
    }
    for i in 0..rows {
        if views[i as usize + 1].to_le() != counted(i.wrapping_mul(width), width) {
            return false;
        }
    }
    true
}
