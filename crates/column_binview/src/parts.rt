//! What is read of views and buffers, and arrays of other views.

ghost use Rattle.std.specs.Prelude.{◌≡◌, ℕ, ◌<◌, pos, List, length, map, None};
ghost use Rattle.column_base.specs.Answers.{Answers};
ghost use Rattle.column_base.specs.Slots.{slot_at};
ghost use Rattle.column_storage.specs.Bits.{flags_of, valid_values};
ghost use Rattle.column_storage.specs.Iterators.{valid_values_left, value_slots_left};
ghost use Rattle.column_view.specs.Views.{view_length};
ghost use Rattle.column_view.specs.ViewFaults.{view_fault};
ghost use Rattle.column_binview.specs.Slots.{view_slots, view_count};
ghost use Rattle.column_binview.specs.Iterators.{lengths_left};
ghost use Rattle.column_binview.specs.Updates.{view_at, AreMadeOf};

use crate::array::BinaryViewArrayGeneric;
use crate::len_iter::LenIter;
use column_base::{PolarsError, ViewKind};
use column_storage::{Buffer, NonNullValuesIter};
use column_view::View;
use std::alloc::Global;

impl<K: ViewKind> BinaryViewArrayGeneric<K> {
    /// The number of bytes of each slot, of null ones too, first to last, from both ends.
    pub fn len_iter(&self) -> LenIter<'_>
        ensures { lengths_left result ≡ map view_length self.now.views }
    {
        LenIter::new(self.views().as_slice())
    }

    /// The view of each valid slot, first to last.
    pub fn non_null_views_iter(&self) -> NonNullValuesIter<'_, Buffer<View>>
        ensures views { valid_values_left result ≡ valid_values (flags_of (view_count self.now) self.now.flags) self.now.views }
        ensures slots { value_slots_left result ≡ view_count self.now }
    {
        self.known();
        NonNullValuesIter::new(self.views(), self.validity())
    }

    /// The number of bytes of each buffer, first to last.
    ///
    /// `NoMemory` where there is none for the numbers.
    pub fn variadic_buffer_lengths(&self, alloc: Global) -> Result<Vec<i64>, PolarsError>
        ensures { Answers result None (λ lengths. lengths.items ≡ map (λ buffer. pos (length buffer)) self.now.buffers) }
    {
        let buffers = self.data_buffers();
        let mut lengths = Vec::with_capacity(alloc, buffers.len())?;
        for i in 0..buffers.len() {
            lengths.push(signed_len(buffers.get(i)))?;
        }
        Ok(lengths)
    }

    /// The views as a vector of its own.
    ///
    /// The vector is kept where no other array shares it, and is copied otherwise. `NoMemory` where there is none for the
    /// copy.
    pub fn into_views(self, alloc: Global) -> Result<Vec<View>, PolarsError>
        ensures { Answers result None (λ views. views.items ≡ self.views) }
    {
        let (views, _, _) = self.into_lists();
        views.make_mut(alloc)
    }
}

// The number of bytes of a buffer, as a signed number.
fn signed_len(buffer: &Buffer<u8>) -> i64
    ensures { result ≡ pos (length buffer.now) }
{
    buffer.as_slice().len() as i64
}
