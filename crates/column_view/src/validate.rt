//! The checks of raw views.

ghost use Rattle.std.specs.Prelude.{◌≡◌, ◌<◌, ◌≤◌, ◌==◌, not, None, true, false, ⊤};
ghost use Rattle.std.specs.List.{list_any};
ghost use Rattle.column_base.specs.Answers.{Gives, GivesCause, ◌or_else◌};
ghost use Rattle.column_view.specs.Views.{view_length};
ghost use Rattle.column_view.specs.ViewFaults.{inline_fault, long_fault, layout_fault, content_fault, view_fault, views_fault, contents_fault};

use crate::view::View;
use column_base::{Cause, PolarsError, is_utf8};
use column_storage::DataBuffers;

/// Whether each view names a value. One pass, with no memory.
///
/// The first fault of the first view that has one. Of a view that holds its content `NonZeroPadding`, where a byte after
/// the content is not 0; of a long one `ViewIndex` where its buffer is not there, `BufferSlice` where its range ends
/// past the buffer, `PrefixMismatch` where its prefix is not the first four bytes of the range.
pub fn validate_binary_view(views: &[View], buffers: &DataBuffers) -> Result<(), PolarsError>
    ensures { Gives result (views_fault false views.now buffers.now) (λ _. ⊤) }
{
    check_views(views, buffers, false)?;
    Ok(())
}

/// The same of text: besides, of each view, `InvalidUtf8` where its content is not UTF-8.
pub fn validate_utf8_view(views: &[View], buffers: &DataBuffers) -> Result<(), PolarsError>
    ensures { Gives result (views_fault true views.now buffers.now) (λ _. ⊤) }
{
    check_views(views, buffers, true)?;
    Ok(())
}

/// Whether the content of each view is UTF-8: `InvalidUtf8` where one is not. One pass, with no memory.
pub fn validate_utf8_only(views: &[View], buffers: &DataBuffers) -> Result<(), PolarsError>
    requires { views_fault false views.now buffers.now ≡ None }
    ensures { Gives result (contents_fault views.now buffers.now) (λ _. ⊤) }
{
    check_contents(views, buffers)?;
    Ok(())
}

/// Whether each view names a value, and a text where `is_text`: the cause that [`validate_binary_view`] or
/// [`validate_utf8_view`] gives.
#[tactic(auto, using(crate::proofs::FaultsLemmas::faults))]
pub fn check_views(views: &[View], buffers: &DataBuffers, is_text: bool) -> Result<(), Cause>
    ensures { GivesCause result (views_fault is_text views.now buffers.now) (λ _. ⊤) }
{
    for view in views {
        validate_view(view, buffers, is_text)?;
    }
    Ok(())
}

/// Whether the content of each view is UTF-8: the cause that [`validate_utf8_only`] gives.
#[tactic(auto, using(crate::proofs::FaultsLemmas::faults))]
pub fn check_contents(views: &[View], buffers: &DataBuffers) -> Result<(), Cause>
    requires { views_fault false views.now buffers.now ≡ None }
    ensures { GivesCause result (contents_fault views.now buffers.now) (λ _. ⊤) }
{
    for view in views {
        validate_content(view, buffers, true)?;
    }
    Ok(())
}

// The faults of a view: those of its layout, and then of its content.
fn validate_view(view: &View, buffers: &DataBuffers, is_text: bool) -> Result<(), Cause>
    ensures { GivesCause result (view_fault is_text view.now buffers.now) (λ _. ⊤) }
{
    validate_layout(view, buffers)?;
    validate_content(view, buffers, is_text)
}

// Whether the content of a view is UTF-8 where it is text.
#[tactic(auto, unfolding(crate::specs::ViewFaults::content_fault))]
fn validate_content(view: &View, buffers: &DataBuffers, is_text: bool) -> Result<(), Cause>
    requires { layout_fault view.now buffers.now ≡ None }
    ensures { GivesCause result (content_fault is_text view.now buffers.now) (λ _. ⊤) }
{
    if is_text && !is_utf8(view.get_slice_unchecked(buffers)) {
        return Err(Cause::InvalidUtf8);
    }
    Ok(())
}

// The faults of the layout of a view.
#[tactic(auto, unfolding(crate::specs::ViewFaults::layout_fault))]
fn validate_layout(view: &View, buffers: &DataBuffers) -> Result<(), Cause>
    ensures { GivesCause result (layout_fault view.now buffers.now) (λ _. ⊤) }
{
    if view.is_long() {
        validate_long(view, buffers)
    } else {
        validate_padding(view)
    }
}

// Whether the bytes after the content of a view that holds it are 0.
#[tactic(auto, using(crate::proofs::ViewsLemmas::reading))]
fn validate_padding(view: &View) -> Result<(), Cause>
    requires { view_length view.now ≤ 12 }
    ensures { GivesCause result (inline_fault view.now) (λ _. ⊤) }
{
    let bytes = view.to_le();
    if has_other_than_zero(&bytes[4 + view.length() as usize..]) {
        return Err(Cause::NonZeroPadding);
    }
    Ok(())
}

// Whether a byte is not 0.
fn has_other_than_zero(bytes: &[u8]) -> bool
    ensures { result ≡ list_any (λ byte. not (byte == 0)) bytes.now }
{
    bytes.iter().any(|byte| *byte != 0)
}

// Whether the buffer of a long view is there, its range lies within, and its prefix begins the range.
#[tactic(auto, using(crate::proofs::ViewsLemmas::reading))]
fn validate_long(view: &View, buffers: &DataBuffers) -> Result<(), Cause>
    requires { 12 < view_length view.now }
    ensures { GivesCause result (long_fault view.now buffers.now) (λ _. ⊤) }
{
    let index = view.buffer_idx() as usize;
    if buffers.len() <= index {
        return Err(Cause::ViewIndex);
    }
    let buffer = buffers.get(index).as_slice();
    let start = view.offset() as usize;
    let end = start + view.length() as usize;
    if buffer.len() < end {
        return Err(Cause::BufferSlice);
    }
    if view.to_le()[4..8] != buffer[start..end][..4] {
        return Err(Cause::PrefixMismatch);
    }
    Ok(())
}
