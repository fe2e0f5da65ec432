//! Arrays of other views over the same buffers.

ghost use Rattle.std.specs.Prelude.{◌≡◌, ℕ, ◌<◌, List, None};
ghost use Rattle.column_base.specs.Answers.{Answers};
ghost use Rattle.column_base.specs.Slots.{slot_at};
ghost use Rattle.column_view.specs.ViewFaults.{view_fault};
ghost use Rattle.column_binview.specs.Slots.{view_lists, view_slots, view_count};
ghost use Rattle.column_binview.specs.Updates.{view_at, AreMadeOf};

use crate::array::BinaryViewArrayGeneric;
use column_base::{PolarsError, ViewType};
use column_storage::{Buffer, share_validity};
use column_view::View;
use std::alloc::Global;

impl<'a, K: ViewType<'a>> BinaryViewArrayGeneric<K> {
    /// The slots of the views that `update_view` gives for each view and its value, first to last, null slots too, over the
    /// same buffers and beside the same flags.
    ///
    /// `NoMemory` where there is none for the views, or where a count of owners is full.
    pub fn apply_views<F: Fn(View, K::Item) -> View>(
        &'a self,
        alloc: Global,
        update_view: F,
    ) -> Result<Self, PolarsError>
        requires callable { F.IsAlwaysCallable update_view }
        requires fine { (i : ℕ) (item : K.Item) (new : List ℕ) → i < view_count self.now → K.item_bytes item ≡ (slot_at (view_slots self.now) i).bytes
            → F.post update_view (view_at self.now.views i) item new → view_fault K.IS_UTF8 new self.now.buffers ≡ None }
        ensures { Answers result None (λ a. (a ≡ view_lists a.views self.now.buffers self.now.flags)
            × AreMadeOf (λ view bytes new. (item : K.Item) × (K.item_bytes item ≡ bytes) × F.post update_view view item new) self.now (view_count self.now) a.views) }
    {
        self.known();
        let mut views = Vec::with_capacity(alloc, self.len())?;
        for i in 0..self.len() {
            let view = self.views().as_slice()[i];
            views.push(update_view(view, self.value(i)))?;
        }
        let validity = share_validity(alloc, self.validity())?;
        let buffers = self.data_buffers().try_clone(alloc)?;
        Ok(Self::of_lists(Buffer::from_vec(alloc, views)?, buffers, validity, None))
    }
}
