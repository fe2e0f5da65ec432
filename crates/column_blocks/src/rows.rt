//! Views that grow beside their flags.

ghost use Rattle.std.specs.Prelude.{◌≡◌, ◌+◌, ◌<◌, ◌≤◌, ◌==◌, length, true, false, None, Some, OnErr, OnOk, IsOk, MatchOption, replicate};
ghost use Rattle.std.specs.Option.{option_copied};
ghost use Rattle.column_base.specs.Answers.{Answers};
ghost use Rattle.column_storage.specs.Bits.{GrowingBits, bits_given, spare_beside};
ghost use Rattle.column_storage.specs.Validity.{AreFlagsOf, is_valid_at};
ghost use Rattle.column_blocks.specs.Rows.{flagged_views, no_views, view_bytes, null_view, pushed_view, extended_view, changed_view, with_flag, with_flags};

use crate::views::CountedViews;
use column_base::PolarsError;
use column_storage::{
    MutableBitmap, apply_flags, clone_flags, extend_constant_flags, flag_at, push_null_flag,
    push_valid_flag, reserve_flags, set_flag, shrink_flags,
};
use column_view::View;
use std::alloc::Global;
use std::marker::Model;

/// The views of a builder, and a flag for each where a validity is given, which is made at the first null.
///
/// A refused call leaves both as they were. Arrow columnar format, "Variable-size Binary View Layout" and "Validity
/// bitmaps".
#[derive(Drop)]
pub struct ViewRows {
    views: CountedViews,
    validity: Option<MutableBitmap>,
}

impl Model for ViewRows {
    ghost use Rattle.std.specs.Prelude.{length};
    ghost use Rattle.column_storage.specs.Bits.{bits_given, spare_beside};
    ghost use Rattle.column_storage.specs.Validity.{AreFlagsOf};
    ghost use Rattle.column_blocks.specs.Rows.{GrowingRows, flagged_views};

    ghost Value = { GrowingRows };

    ghost view = { λ r. record { rows = flagged_views r.views.views (bits_given r.validity); spare = spare_beside r.validity r.views.spare } };

    ghost invariant = { λ r. AreFlagsOf (length r.views.views) (bits_given r.validity) };
}

// ---- constructors

impl ViewRows {
    /// No views. Takes no memory.
    pub fn new(alloc: Global) -> Self
        ensures { result.rows ≡ no_views }
    {
        ViewRows {
            views: CountedViews::of(Vec::new(alloc)),
            validity: None,
        }
    }

    /// These views, and flags where a validity is given. One pass over the views. Takes no memory.
    pub fn from_parts(views: Vec<View>, validity: Option<MutableBitmap>) -> Self
        requires { AreFlagsOf (length views.items) (bits_given validity) }
        ensures { result.rows ≡ flagged_views views.items (bits_given validity) }
    {
        ViewRows {
            views: CountedViews::of(views),
            validity,
        }
    }

    /// A copy of the views and the flags.
    ///
    /// `NoMemory` where there is none for it.
    pub fn try_clone(&self) -> Result<Self, PolarsError>
        ensures { Answers result None (λ r. r.rows ≡ self.now.rows) }
    {
        let views = self.views.try_clone()?;
        let validity = clone_flags(self.validity.as_ref())?;
        Ok(ViewRows { views, validity })
    }
}

// ---- readers

impl ViewRows {
    /// Tells proofs that flags that are given are as many as the views.
    pub fn known(&self)
        ensures { AreFlagsOf (length self.now.rows.views) self.now.rows.flags }
    {
        let _ = &self.views;
    }

    /// The number of views.
    pub fn len(&self) -> usize
        ensures { result ≡ length self.now.rows.views }
    {
        self.views.len()
    }

    /// Whether there is no view.
    pub fn is_empty(&self) -> bool
        ensures { result ≡ (length self.now.rows.views == 0) }
    {
        self.len() == 0
    }

    /// For how many views and flags there is memory.
    pub fn capacity(&self) -> usize
        ensures { result ≡ length self.now.rows.views + self.now.spare }
    {
        let capacity = self.views.capacity();
        match &self.validity {
            Some(bits) => capacity.min(bits.capacity()),
            None => capacity,
        }
    }

    /// The views.
    pub fn views(&self) -> &[View]
        ensures { result.now ≡ self.now.rows.views }
    {
        self.views.as_slice()
    }

    /// The validity, where one was made or given.
    pub fn validity(&self) -> Option<&MutableBitmap>
        ensures { bits_given (option_copied result) ≡ self.now.rows.flags }
    {
        self.validity.as_ref()
    }

    /// Whether slot `i` is valid: each is where no validity is given.
    pub fn is_valid(&self, i: usize) -> bool
        requires { i < length self.now.rows.views }
        ensures { result ≡ is_valid_at self.now.rows.flags i }
    {
        flag_at(self.validity.as_ref(), i)
    }

    /// The bytes of all slots together, of null ones too, as their views count them, in constant time.
    pub fn total_bytes_len(&self) -> u128
        ensures { result ≡ view_bytes self.now.rows }
    {
        self.views.bytes()
    }

    /// The views and the validity. Takes no memory.
    pub fn into_parts(self) -> (Vec<View>, Option<MutableBitmap>)
        ensures rows { flagged_views result.0.items (bits_given result.1) ≡ self.rows }
        ensures flagged { AreFlagsOf (length result.0.items) (bits_given result.1) }
    {
        let ViewRows { views, validity } = self;
        (views.into_vec(), validity)
    }
}

// ---- slots more

impl ViewRows {
    /// Makes room for `additional` more views and their flags.
    ///
    /// `NoMemory` where there is none for them, and never where the room is there.
    pub fn reserve(&mut self, additional: usize) -> Result<(), PolarsError>
        ensures answer { Answers result None (λ _. additional ≤ self.new.spare) }
        ensures spare_serves { additional ≤ self.old.spare → IsOk result }
        ensures spare_kept { self.old.spare ≤ self.new.spare }
        ensures same { self.new.rows ≡ self.old.rows }
    {
        self.views.reserve(additional)?;
        reserve_flags(&mut self.validity, additional)?;
        Ok(())
    }

    /// Adds the view of a valid slot.
    ///
    /// `NoMemory` where there is none for it, and never where there is room.
    #[tactic(auto, using(crate::proofs::RowsLemmas::pushes))]
    pub fn push(&mut self, view: View) -> Result<(), PolarsError>
        ensures answer { Answers result None (λ _. self.new.rows ≡ pushed_view self.old.rows view true) }
        ensures spare_serves { 1 ≤ self.old.spare → IsOk result }
        ensures spare_left { OnOk result (self.old.spare ≤ self.new.spare + 1) }
        ensures unchanged { OnErr result (self.new.rows ≡ self.old.rows) }
    {
        self.views.reserve(1)?;
        reserve_flags(&mut self.validity, 1)?;
        self.views.push(view);
        push_valid_flag(&mut self.validity);
        Ok(())
    }

    /// Adds a null slot, whose view has no bytes, and makes a validity where there is none.
    ///
    /// `NoMemory` where there is none for the slot or the validity.
    #[tactic(auto, using(crate::proofs::RowsLemmas::pushes))]
    pub fn push_null(&mut self) -> Result<(), PolarsError>
        ensures answer { Answers result None (λ _. self.new.rows ≡ pushed_view self.old.rows null_view false) }
        ensures unchanged { OnErr result (self.new.rows ≡ self.old.rows) }
    {
        self.views.reserve(1)?;
        push_null_flag(self.views.allocator(), &mut self.validity, self.views.len())?;
        self.views.push(View::zeroed());
        Ok(())
    }

    /// Adds `additional` slots with one view, valid or null, and makes a validity where there is none and some are null.
    ///
    /// `NoMemory` where there is none for the slots or the validity, and never for valid slots where there is room.
    #[tactic(auto, using(crate::proofs::RowsLemmas::constants))]
    pub fn extend_constant(
        &mut self,
        additional: usize,
        view: View,
        is_valid: bool,
    ) -> Result<(), PolarsError>
        ensures answer { Answers result None (λ _. self.new.rows ≡ extended_view self.old.rows additional view is_valid) }
        ensures spare_serves { is_valid ≡ true → additional ≤ self.old.spare → IsOk result }
        ensures unchanged { OnErr result (self.new.rows ≡ self.old.rows) }
    {
        self.views.reserve(additional)?;
        extend_constant_flags(
            self.views.allocator(),
            &mut self.validity,
            self.views.len(),
            additional,
            is_valid,
        )?;
        self.views.extend_constant(additional, view);
        Ok(())
    }
}

// ---- changes

impl ViewRows {
    /// Puts another view in slot `i`, which is valid or null as before. Takes no memory.
    #[tactic(auto, using(crate::proofs::RowsLemmas::changes))]
    pub fn set_view(&mut self, i: usize, view: View)
        requires { i < length self.old.rows.views }
        ensures { self.new.rows ≡ changed_view self.old.rows i view }
    {
        self.views.set(i, view);
    }

    /// Makes slot `i` valid or null, and a validity where there is none and the slot becomes null. Its view stays.
    ///
    /// `NoMemory` where there is none for the validity.
    #[tactic(auto, using(crate::proofs::RowsLemmas::changes))]
    pub fn set_valid(&mut self, i: usize, is_valid: bool) -> Result<(), PolarsError>
        requires { i < length self.old.rows.views }
        ensures answer { Answers result None (λ _. self.new.rows ≡ with_flag self.old.rows i is_valid) }
        ensures unchanged { OnErr result (self.new.rows ≡ self.old.rows) }
    {
        set_flag(
            self.views.allocator(),
            &mut self.validity,
            self.views.len(),
            i,
            is_valid,
        )
    }

    /// Puts other flags in place of those that there were, or none. Takes no memory.
    pub fn set_validity(&mut self, validity: Option<MutableBitmap>)
        requires { AreFlagsOf (length self.old.rows.views) (bits_given validity) }
        ensures { self.new.rows ≡ with_flags self.old.rows (bits_given validity) }
    {
        self.validity = validity;
    }

    /// Puts what `f` makes of the validity in its place, where there is one. Where there is none, `f` is not called.
    pub fn apply_validity<F: FnOnce(MutableBitmap) -> MutableBitmap>(&mut self, f: F)
        requires can { F.IsAlwaysCallable f }
        requires length { (bits made : GrowingBits) → self.old.rows.flags ≡ Some bits.bits → F.post f bits made → length made.bits ≡ length bits.bits }
        ensures { MatchOption self.old.rows.flags (self.new.rows ≡ self.old.rows) (λ flags. (bits made : GrowingBits) × (bits.bits ≡ flags) × F.post f bits made × (self.new.rows ≡ with_flags self.old.rows (Some made.bits))) }
    {
        apply_flags(&mut self.validity, f);
    }

    /// Gives back memory that no slot needs, where the allocator takes it.
    pub fn shrink_to_fit(&mut self)
        ensures { self.new.rows ≡ self.old.rows }
    {
        self.views.shrink_to_fit();
        shrink_flags(&mut self.validity);
    }
}
