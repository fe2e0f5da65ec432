//! Views of registered sources, as a builder takes them: their buffers once, or their bytes.

ghost use Rattle.std.specs.Prelude.{◌≡◌, ◌<◌, length, None, OnErr, IfSome};
ghost use Rattle.std.specs.Iterator.{IsFinite};
ghost use Rattle.column_base.specs.Answers.{Answers};
ghost use Rattle.column_base.specs.Pushes.{ExtendsBy};
ghost use Rattle.column_view.specs.ViewFaults.{view_fault};
ghost use Rattle.column_blocks.specs.Sources.{source_at};
ghost use Rattle.column_binview.specs.SourceViews.{AreFineViews, AreFineRows, view_growth, view_row_fault, pushed_view_row, view_row_growth, copy_growth};

use crate::builder::MutableBinaryViewArray;
use column_base::{PolarsError, ViewKind};
use column_view::View;

impl<K: ViewKind> MutableBinaryViewArray<K> {
    // Adds a slot of what a view of a source says, or a null slot.
    fn push_view_row(&mut self, view: Option<View>, source: u32) -> Result<(), PolarsError>
        requires source { source < length self.old.bytes.taken.sources }
        requires fine { IfSome view (λ view. view_fault K.IS_UTF8 view (source_at self.old.bytes.taken source) ≡ None) }
        ensures answer { Answers result (view_row_fault source self.old view) (λ _. self.new ≡ pushed_view_row source self.old view) }
        ensures unchanged { OnErr result (self.new ≡ self.old) }
    {
        match view {
            Some(view) => self.push_view(view, source),
            None => self.push_null(),
        }
    }

    /// Adds a slot of each optional view of a source: as [`MutableBinaryViewArray::push_view`] does, or a null slot where
    /// there is none.
    ///
    /// Refuses a view as `push_view` does. The slots before it are added then.
    pub fn extend_views<I: Iterator<Item = Option<View>> + Drop>(
        &mut self,
        iterator: I,
        source: u32,
    ) -> Result<(), PolarsError>
        requires can { I.can_next iterator }
        requires ends { IsFinite (I.remaining iterator) }
        requires source { source < length self.old.bytes.taken.sources }
        requires fine { AreFineRows K.IS_UTF8 (source_at self.old.bytes.taken source) I.next_gives iterator }
        ensures { ExtendsBy (view_row_growth source) (λ view. view) I.next_gives iterator self.old self.new result }
    {
        for view in iterator {
            self.push_view_row(view, source)?;
        }
        Ok(())
    }

    /// The same as [`MutableBinaryViewArray::extend_views`].
    pub fn extend_views_trusted_len<I: Iterator<Item = Option<View>> + Drop>(
        &mut self,
        iterator: I,
        source: u32,
    ) -> Result<(), PolarsError>
        requires can { I.can_next iterator }
        requires ends { IsFinite (I.remaining iterator) }
        requires source { source < length self.old.bytes.taken.sources }
        requires fine { AreFineRows K.IS_UTF8 (source_at self.old.bytes.taken source) I.next_gives iterator }
        ensures { ExtendsBy (view_row_growth source) (λ view. view) I.next_gives iterator self.old self.new result }
    {
        self.extend_views(iterator, source)
    }

    /// Adds a valid slot of each view of a source, as [`MutableBinaryViewArray::push_view`] does.
    ///
    /// Refuses a view as `push_view` does. The slots before it are added then.
    pub fn extend_non_null_views<I: Iterator<Item = View> + Drop>(
        &mut self,
        iterator: I,
        source: u32,
    ) -> Result<(), PolarsError>
        requires can { I.can_next iterator }
        requires ends { IsFinite (I.remaining iterator) }
        requires source { source < length self.old.bytes.taken.sources }
        requires fine { AreFineViews K.IS_UTF8 (source_at self.old.bytes.taken source) I.next_gives iterator }
        ensures { ExtendsBy (view_growth source) (λ view. view) I.next_gives iterator self.old self.new result }
    {
        for view in iterator {
            self.push_view(view, source)?;
        }
        Ok(())
    }

    /// The same as [`MutableBinaryViewArray::extend_non_null_views`].
    pub fn extend_non_null_views_trusted_len<I: Iterator<Item = View> + Drop>(
        &mut self,
        iterator: I,
        source: u32,
    ) -> Result<(), PolarsError>
        requires can { I.can_next iterator }
        requires ends { IsFinite (I.remaining iterator) }
        requires source { source < length self.old.bytes.taken.sources }
        requires fine { AreFineViews K.IS_UTF8 (source_at self.old.bytes.taken source) I.next_gives iterator }
        ensures { ExtendsBy (view_growth source) (λ view. view) I.next_gives iterator self.old self.new result }
    {
        self.extend_non_null_views(iterator, source)
    }

    /// The same as [`MutableBinaryViewArray::extend_non_null_views`], where there is no validity.
    pub fn extend_non_null_views_unchecked_dedupe<I: Iterator<Item = View> + Drop>(
        &mut self,
        iterator: I,
        source: u32,
    ) -> Result<(), PolarsError>
        requires can { I.can_next iterator }
        requires ends { IsFinite (I.remaining iterator) }
        requires source { source < length self.old.bytes.taken.sources }
        requires fine { AreFineViews K.IS_UTF8 (source_at self.old.bytes.taken source) I.next_gives iterator }
        requires no_flags { self.old.rows.flags ≡ None }
        ensures { ExtendsBy (view_growth source) (λ view. view) I.next_gives iterator self.old self.new result }
    {
        self.extend_non_null_views(iterator, source)
    }

    /// Adds a valid slot of each view of a source, as [`MutableBinaryViewArray::push_view_unchecked`] does, so that bytes are
    /// copied. There is no validity.
    ///
    /// Refuses a view as `push_view_unchecked` does. The slots before it are added then.
    pub fn extend_non_null_views_unchecked<I: Iterator<Item = View> + Drop>(
        &mut self,
        iterator: I,
        source: u32,
    ) -> Result<(), PolarsError>
        requires can { I.can_next iterator }
        requires ends { IsFinite (I.remaining iterator) }
        requires source { source < length self.old.bytes.taken.sources }
        requires fine { AreFineViews K.IS_UTF8 (source_at self.old.bytes.taken source) I.next_gives iterator }
        requires no_flags { self.old.rows.flags ≡ None }
        ensures { ExtendsBy (copy_growth source) (λ view. view) I.next_gives iterator self.old self.new result }
    {
        for view in iterator {
            self.push_copied(view, source)?;
        }
        Ok(())
    }
}
