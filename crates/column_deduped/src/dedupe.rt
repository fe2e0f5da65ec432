//! The buffers of an array of views, each once.

ghost use Rattle.std.specs.Prelude.{◌≡◌, None};
ghost use Rattle.column_base.specs.Answers.{Answers};
ghost use Rattle.column_view.specs.ViewFaults.{views_fault};
ghost use Rattle.column_binview.specs.Slots.{view_lists};
ghost use Rattle.column_binview.specs.Builders.{lists_of};
ghost use Rattle.column_deduped.specs.Deduped.{deduped};

use column_base::{PolarsError, ViewKind};
use column_binview::{BinaryViewArrayGeneric, MutableBinaryViewArray};
use column_storage::DataBuffers;
use column_view::View;
use std::alloc::Global;

/// The same slots over the buffers that long views name, each once, in the order of first naming; views of null slots count.
/// An array without buffers stays as it is.
///
/// One pass over the views and one over the buffers, which copies no byte of a buffer. `NoMemory` where there is none for
/// the views, for a place of each buffer or for those that stay, or where the count of a buffer's owners is full.
pub fn deduped<K: ViewKind>(
    alloc: Global,
    array: BinaryViewArrayGeneric<K>,
) -> Result<BinaryViewArrayGeneric<K>, PolarsError>
    ensures { Answers result None (λ a. a ≡ deduped array) }
{
    array.known();
    if array.data_buffers().is_empty() {
        return Ok(array);
    }
    let (views, buffers, validity) = array.into_lists();
    let builder = renamed::<K>(alloc, views.as_slice(), buffers)?;
    let made = builder.freeze()?;
    Ok(made.with_validity(validity))
}

// The builder of a valid slot for each view, over the buffers that long views name.
fn renamed<K: ViewKind>(
    alloc: Global,
    views: &[View],
    buffers: DataBuffers,
) -> Result<MutableBinaryViewArray<K>, PolarsError>
    requires { views_fault K.IS_UTF8 views.now buffers ≡ None }
    ensures { Answers result None (λ b. lists_of b ≡ deduped (view_lists views.now buffers None)) }
{
    buffers.known();
    let mut builder = MutableBinaryViewArray::with_capacity(alloc, views.len())?;
    let source = builder.add_source(buffers)?;
    for view in views {
        builder.push_view_unchecked_dedupe(*view, source)?;
    }
    Ok(builder)
}
