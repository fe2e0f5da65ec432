//! The builder of arrays of views: how it is made, read and frozen, and how it takes values.

ghost use Rattle.std.specs.Prelude.{◌≡◌, ◌^◌, ◌<◌, ◌≤◌, ◌==◌, not, true, false, length, drop, option_map, None, Some, ⊤, OnErr, MatchOption};
ghost use Rattle.std.specs.Option.{option_copied};
ghost use Rattle.column_base.specs.Answers.{Answers, GivesCause};
ghost use Rattle.column_base.specs.Slots.{slot_at};
ghost use Rattle.column_base.specs.Utf8.{CanHold};
ghost use Rattle.column_storage.specs.Bits.{GrowingBits, bits_given};
ghost use Rattle.column_storage.specs.Validity.{AreFlagsOf};
ghost use Rattle.column_view.specs.Views.{view_content};
ghost use Rattle.column_view.specs.ViewFaults.{layout_fault, content_fault, view_fault, views_fault, contents_fault};
ghost use Rattle.column_blocks.specs.Blocks.{buffers_of, block_bytes, full_fault, store_fault};
ghost use Rattle.column_blocks.specs.Rows.{view_bytes, changed_view, with_flag, with_flags};
ghost use Rattle.column_blocks.specs.Sources.{source_at, view_take_fault};
ghost use Rattle.column_binview.specs.Slots.{view_lists, view_count, view_slots, AreSoundViews};
ghost use Rattle.column_binview.specs.Builders.{view_builder, lists_of, builder_of, no_slots, IsSoundBuilder, with_rows, pushed_value, pushed_null, pushed_row, row_fault, extended_row, finished_builder, with_buffer, with_source, source_content, pushed_source_view};

use crate::array::BinaryViewArrayGeneric;
use column_base::{
    ArrowDataType, BinaryKind, Cause, PolarsError, Utf8Kind, ViewKind, ViewType, is_utf8,
};
use column_blocks::{Blocks, Sources, ViewRows, take_view};
use column_storage::{Bitmap, Buffer, DataBuffers, MutableArray, MutableBitmap};
use column_view::View;
use std::alloc::Global;
use std::marker::{Model, PhantomData};

/// A column of optional byte strings or texts behind views that grows, semantically a `Vec<Option<Vec<u8>>>`.
///
/// It keeps its allocator. A value of at most 12 bytes stands in its view. The bytes of a longer one go to the end of the
/// block in progress where they have room there, and else begin a new block, whose room is twice that of the one before,
/// between 8,192 and 16,777,216 bytes, and at least the value's length. Buffers that were added or taken come between
/// finished blocks, in the order of calls, and none of the blocks is empty. A validity that is there has a flag for each
/// slot; it is made at the first null. A refused call leaves slots, buffers and the block as they were, unless it takes
/// items one after another. Arrow columnar format, "Variable-size Binary View Layout".
#[derive(Drop)]
pub struct MutableBinaryViewArray<K: ViewKind> {
    rows: ViewRows,
    blocks: Blocks,
    sources: Sources,
    kind: PhantomData<K>,
}

impl<K: ViewKind> Model for MutableBinaryViewArray<K> {
    ghost use Rattle.column_blocks.specs.Sources.{builder_bytes};
    ghost use Rattle.column_binview.specs.Builders.{ViewBuilder, view_builder, IsSoundBuilder};

    ghost Value = { ViewBuilder };

    ghost view = { λ b. view_builder b.rows.rows (builder_bytes b.blocks b.sources) };

    ghost invariant = { λ b. IsSoundBuilder K.IS_UTF8 (view_builder b.rows.rows (builder_bytes b.blocks b.sources)) };
}

/// The builder of byte strings behind views.
pub type MutablePlBinary = MutableBinaryViewArray<BinaryKind>;

/// The builder of texts behind views.
pub type MutablePlString = MutableBinaryViewArray<Utf8Kind>;

// ---- constructors

impl<K: ViewKind> MutableBinaryViewArray<K> {
    /// No slots. Takes no memory.
    pub fn new(alloc: Global) -> Self
        ensures { result ≡ no_slots }
    {
        MutableBinaryViewArray {
            rows: ViewRows::new(alloc),
            blocks: Blocks::new(alloc),
            sources: Sources::new(alloc),
            kind: PhantomData,
        }
    }

    /// No slots, with room for the views of `capacity` slots.
    ///
    /// `NoMemory` where there is none for them.
    pub fn with_capacity(alloc: Global, capacity: usize) -> Result<Self, PolarsError>
        ensures { Answers result None (λ b. b ≡ no_slots) }
    {
        let mut builder = Self::new(alloc);
        builder.reserve(capacity)?;
        Ok(builder)
    }

    // The builder of these lists, whose buffers are finished. One pass over views and buffers. Takes no memory.
    pub(crate) fn of(
        views: Vec<View>,
        buffers: Vec<Buffer<u8>>,
        validity: Option<MutableBitmap>,
    ) -> Self
        requires { AreSoundViews K.IS_UTF8 (view_lists views.items buffers.items (bits_given validity)) }
        ensures { result ≡ builder_of (view_lists views.items buffers.items (bits_given validity)) }
    {
        let sources = Sources::new(*views.allocator());
        MutableBinaryViewArray {
            rows: ViewRows::from_parts(views, validity),
            blocks: Blocks::from_buffers(buffers),
            sources,
            kind: PhantomData,
        }
    }

    /// A copy of the builder: its slots, its buffers, the block in progress, its sources, and which of their buffers were
    /// taken.
    ///
    /// Finished buffers share their memory. `NoMemory` where there is none for the rest, or where the count of a buffer's
    /// owners is full.
    pub fn try_clone(&self) -> Result<Self, PolarsError>
        ensures { Answers result None (λ b. b ≡ self.now) }
    {
        Ok(MutableBinaryViewArray {
            rows: self.rows.try_clone()?,
            blocks: self.blocks.try_clone()?,
            sources: self.sources.try_clone()?,
            kind: PhantomData,
        })
    }
}

// ---- readers

impl<K: ViewKind> MutableBinaryViewArray<K> {
    /// Tells proofs that the array that it is is sound, that each buffer that was taken stands at its place, and that there
    /// are as many slots as views.
    #[tactic(auto, using(crate::proofs::SlotsLemmas::counts))]
    pub fn known(&self)
        ensures sound { IsSoundBuilder K.IS_UTF8 self.now }
        ensures count { length (view_slots (lists_of self.now)) ≡ view_count (lists_of self.now) }
    {
        let _ = &self.rows;
    }

    /// The number of slots.
    pub fn len(&self) -> usize
        ensures slots { result ≡ length (view_slots (lists_of self.now)) }
        ensures count { result ≡ view_count (lists_of self.now) }
    {
        self.known();
        self.rows.len()
    }

    /// Whether there is no slot.
    pub fn is_empty(&self) -> bool
        ensures { result ≡ (view_count (lists_of self.now) == 0) }
    {
        self.len() == 0
    }

    /// For how many slots there is memory, but for the bytes of long values.
    pub fn capacity(&self) -> usize
        ensures { view_count (lists_of self.now) ≤ result }
    {
        self.rows.capacity()
    }

    /// The data type, which is the one of the kind.
    pub fn dtype(&self) -> ArrowDataType
        ensures { result ≡ K.DATA_TYPE }
    {
        K::DATA_TYPE
    }

    /// The views, one for each slot.
    pub fn views(&self) -> &[View]
        ensures { result.now ≡ self.now.rows.views }
    {
        self.rows.views()
    }

    /// The validity, where one was made or given.
    pub fn validity(&self) -> Option<&MutableBitmap>
        ensures { bits_given (option_copied result) ≡ self.now.rows.flags }
    {
        self.rows.validity()
    }

    /// The finished buffers. The block in progress is not among them.
    pub fn completed_buffers(&self) -> &[Buffer<u8>]
        ensures { result.now ≡ self.now.bytes.blocks.finished }
    {
        self.blocks.completed_buffers()
    }

    /// The bytes of all slots together, of null ones too, as their views count them, in constant time.
    pub fn total_bytes_len(&self) -> u128
        ensures { result ≡ view_bytes self.now.rows }
    {
        self.rows.total_bytes_len()
    }

    /// The bytes of all buffers together, the block in progress among them, in constant time.
    pub fn total_buffer_len(&self) -> u128
        ensures { result ≡ block_bytes self.now.bytes.blocks }
    {
        self.blocks.total_buffer_len()
    }

    /// The bytes of slot `i`; a null slot that was not pushed may have bytes too. In constant time.
    pub fn value_bytes(&self, i: usize) -> &[u8]
        requires { i < view_count (lists_of self.now) }
        ensures bytes { result.now ≡ (slot_at (view_slots (lists_of self.now)) i).bytes }
        ensures held { CanHold K.IS_UTF8 result.now }
    {
        self.known();
        self.blocks.value_from_view_unchecked(&self.rows.views()[i])
    }

    /// The parts: the views, and the finished buffers once the block is finished. Takes no memory but for that.
    ///
    /// `NoMemory` where there is none for the last buffer.
    pub fn take(self) -> Result<(Vec<View>, Vec<Buffer<u8>>), PolarsError>
        ensures { Answers result None (λ parts. (parts.0.items ≡ self.rows.views) × (parts.1.items ≡ buffers_of self.bytes.blocks)) }
    {
        let MutableBinaryViewArray {
            rows,
            blocks,
            sources: _,
            kind: _,
        } = self;
        let (views, _) = rows.into_parts();
        let buffers = blocks.into_buffers()?;
        Ok((views, buffers))
    }

    /// The array of these slots, once the block is finished. No byte is copied, and a validity stays.
    ///
    /// `NoMemory` where there is none for the last buffer or the counts of owners.
    pub fn freeze(self) -> Result<BinaryViewArrayGeneric<K>, PolarsError>
        ensures { Answers result None (λ a. a ≡ lists_of self) }
    {
        let MutableBinaryViewArray {
            rows,
            blocks,
            sources: _,
            kind: _,
        } = self;
        let total_bytes_len = rows.total_bytes_len();
        let (views, validity) = rows.into_parts();
        let alloc = blocks.allocator();
        let buffers = DataBuffers::from_vec(alloc, blocks.into_buffers()?)?;
        let views = Buffer::from_vec(alloc, views)?;
        let validity = frozen_validity(validity)?;
        Ok(BinaryViewArrayGeneric::of_lists(views, buffers, validity, Some(total_bytes_len)))
    }

    /// The same as [`MutableBinaryViewArray::freeze`]. The data type has no effect.
    pub fn freeze_with_dtype(
        self,
        dtype: ArrowDataType,
    ) -> Result<BinaryViewArrayGeneric<K>, PolarsError>
        ensures { Answers result None (λ a. a ≡ lists_of self) }
    {
        let _ = dtype;
        self.freeze()
    }
}

// A validity, which is not changed any more.
fn frozen_validity(validity: Option<MutableBitmap>) -> Result<Option<Bitmap>, PolarsError>
    ensures { Answers result None (λ bits. bits ≡ bits_given validity) }
{
    match validity {
        Some(bits) => Ok(Some(bits.freeze()?)),
        None => Ok(None),
    }
}

// ---- slots more

impl<K: ViewKind> MutableBinaryViewArray<K> {
    /// Makes room for the views of `additional` more slots.
    ///
    /// `NoMemory` where there is none for them.
    pub fn reserve(&mut self, additional: usize) -> Result<(), PolarsError>
        ensures answer { Answers result None (λ _. ⊤) }
        ensures same { self.new ≡ self.old }
    {
        self.rows.reserve(additional)?;
        Ok(())
    }

    // Adds a valid slot of these bytes.
    pub(crate) fn push_bytes(&mut self, value: &[u8]) -> Result<(), PolarsError>
        requires { CanHold K.IS_UTF8 value.now }
        ensures answer { Answers result (store_fault self.old.bytes.blocks value.now) (λ _. self.new ≡ pushed_value self.old value.now) }
        ensures unchanged { OnErr result (self.new ≡ self.old) }
    {
        self.rows.reserve(1)?;
        let view = self.blocks.store(value)?;
        self.rows.push(view)?;
        Ok(())
    }

    /// Adds a null slot without bytes, and makes a validity where there is none.
    ///
    /// `NoMemory` where there is none for the slot or the validity.
    pub fn push_null(&mut self) -> Result<(), PolarsError>
        ensures answer { Answers result None (λ _. self.new ≡ pushed_null self.old) }
        ensures unchanged { OnErr result (self.new ≡ self.old) }
    {
        self.rows.push_null()?;
        Ok(())
    }

    /// Finishes the block in progress where it is not empty, and says whether it was not. No block is in progress then.
    ///
    /// `NoMemory` where there is none for the buffer.
    pub fn finish_in_progress(&mut self) -> Result<bool, PolarsError>
        ensures answer { Answers result None (λ finished. (finished ≡ not (length self.old.bytes.blocks.block == 0)) × (self.new ≡ finished_builder self.old)) }
        ensures unchanged { OnErr result (self.new ≡ self.old) }
    {
        let was_there = self.blocks.finish_in_progress()?;
        Ok(was_there)
    }

    /// Finishes the block in progress where it is not empty, adds a finished buffer, and says at which place it is.
    ///
    /// `Overflow` where there are as many buffers as there may be, `MAX_BUFFERS`; then `NoMemory` where there is none for
    /// the buffer.
    pub fn push_buffer(&mut self, buffer: Buffer<u8>) -> Result<u32, PolarsError>
        ensures answer { Answers result (full_fault self.old.bytes.blocks) (λ place. (place ≡ length (buffers_of self.old.bytes.blocks)) × (self.new ≡ with_buffer self.old buffer)) }
        ensures unchanged { OnErr result (self.new ≡ self.old) }
    {
        let place = self.blocks.push_buffer(buffer)?;
        Ok(place)
    }
}

impl<'a, K: ViewType<'a>> MutableBinaryViewArray<K> {
    /// Adds a valid slot of a value.
    ///
    /// `Overflow` where the value has 2 ^ 32 bytes or more, or has more than 12 where there are as many buffers as there may
    /// be; then `NoMemory` where there is none for the slot or the bytes. A value of at most 12 bytes is refused for want of
    /// memory alone.
    pub fn push_value(&mut self, value: K::Item) -> Result<(), PolarsError>
        ensures answer { Answers result (store_fault self.old.bytes.blocks (K.item_bytes value)) (λ _. self.new ≡ pushed_value self.old (K.item_bytes value)) }
        ensures unchanged { OnErr result (self.new ≡ self.old) }
    {
        self.push_bytes(K::to_bytes(value))
    }

    /// The same as [`MutableBinaryViewArray::push_value`], where there is no validity.
    pub fn push_value_ignore_validity(&mut self, value: K::Item) -> Result<(), PolarsError>
        requires { self.old.rows.flags ≡ None }
        ensures answer { Answers result (store_fault self.old.bytes.blocks (K.item_bytes value)) (λ _. self.new ≡ pushed_value self.old (K.item_bytes value)) }
        ensures unchanged { OnErr result (self.new ≡ self.old) }
    {
        self.push_value(value)
    }

    /// Adds a slot of a row: of its value, or a null slot without bytes.
    ///
    /// Refuses a value as [`MutableBinaryViewArray::push_value`] does.
    pub fn push(&mut self, value: Option<K::Item>) -> Result<(), PolarsError>
        ensures answer { Answers result (row_fault self.old (option_map K.item_bytes value)) (λ _. self.new ≡ pushed_row self.old (option_map K.item_bytes value)) }
        ensures unchanged { OnErr result (self.new ≡ self.old) }
    {
        match value {
            Some(value) => self.push_value(value),
            None => self.push_null(),
        }
    }
}

// ---- views of sources

impl<K: ViewKind> MutableBinaryViewArray<K> {
    /// Registers buffers that views to be pushed name, and answers how many sources there were before. That number is the
    /// source's.
    ///
    /// `NoMemory` where there is none for a place of each buffer.
    pub fn add_source(&mut self, buffers: DataBuffers) -> Result<u32, PolarsError>
        requires { length self.old.bytes.taken.sources < 2 ^ 32 }
        ensures answer { Answers result None (λ source. (source ≡ length self.old.bytes.taken.sources) × (self.new ≡ with_source self.old buffers)) }
        ensures unchanged { OnErr result (self.new ≡ self.old) }
    {
        self.sources.known();
        let source = self.sources.add_source(buffers)?;
        Ok(source)
    }

    /// The number of sources.
    pub fn source_count(&self) -> usize
        ensures { result ≡ length self.now.bytes.taken.sources }
    {
        self.sources.len()
    }

    /// The buffers of a source.
    pub fn source(&self, source: u32) -> &DataBuffers
        requires { source < length self.now.bytes.taken.sources }
        ensures { result.now ≡ source_at self.now.bytes.taken source }
    {
        self.sources.get(source)
    }

    /// Adds a valid slot of what a view of a source says. The buffer that a long view names is taken where it was not yet,
    /// once the block in progress is finished, and no byte is copied; a short view stays as it is, and changes no buffer.
    ///
    /// `Overflow` where a buffer is to be taken and there are as many as there may be; then `NoMemory` where there is none
    /// for the slot or the buffer, or where the count of its owners is full.
    pub fn push_view(&mut self, view: View, source: u32) -> Result<(), PolarsError>
        requires source { source < length self.old.bytes.taken.sources }
        requires fine { view_fault K.IS_UTF8 view (source_at self.old.bytes.taken source) ≡ None }
        ensures answer { Answers result (view_take_fault self.old.bytes view source) (λ _. self.new ≡ pushed_source_view self.old view source) }
        ensures unchanged { OnErr result (self.new ≡ self.old) }
    {
        view.known();
        self.rows.reserve(1)?;
        let taken = take_view(&mut self.blocks, &mut self.sources, view, source)?;
        self.rows.push(taken)?;
        Ok(())
    }

    /// The same as [`MutableBinaryViewArray::push_view`], where there is no validity.
    pub fn push_view_unchecked_dedupe(&mut self, view: View, source: u32) -> Result<(), PolarsError>
        requires source { source < length self.old.bytes.taken.sources }
        requires fine { view_fault K.IS_UTF8 view (source_at self.old.bytes.taken source) ≡ None }
        requires no_flags { self.old.rows.flags ≡ None }
        ensures answer { Answers result (view_take_fault self.old.bytes view source) (λ _. self.new ≡ pushed_source_view self.old view source) }
        ensures unchanged { OnErr result (self.new ≡ self.old) }
    {
        self.push_view(view, source)
    }

    /// Adds a valid slot of what a view of a source says, whose bytes are copied where they are more than 12. No buffer is
    /// taken. There is no validity.
    ///
    /// `Overflow` where bytes are to be copied and there are as many buffers as there may be; then `NoMemory` where there is
    /// none for the slot or the bytes.
    pub fn push_view_unchecked(&mut self, view: View, source: u32) -> Result<(), PolarsError>
        requires source { source < length self.old.bytes.taken.sources }
        requires fine { view_fault K.IS_UTF8 view (source_at self.old.bytes.taken source) ≡ None }
        requires no_flags { self.old.rows.flags ≡ None }
        ensures answer { Answers result (store_fault self.old.bytes.blocks (source_content self.old view source)) (λ _. self.new ≡ pushed_value self.old (source_content self.old view source)) }
        ensures unchanged { OnErr result (self.new ≡ self.old) }
    {
        self.push_copied(view, source)
    }

    // Adds a valid slot of a view of a source, whose bytes are copied.
    pub(crate) fn push_copied(&mut self, view: View, source: u32) -> Result<(), PolarsError>
        requires source { source < length self.old.bytes.taken.sources }
        requires fine { view_fault K.IS_UTF8 view (source_at self.old.bytes.taken source) ≡ None }
        ensures answer { Answers result (store_fault self.old.bytes.blocks (source_content self.old view source)) (λ _. self.new ≡ pushed_value self.old (source_content self.old view source)) }
        ensures unchanged { OnErr result (self.new ≡ self.old) }
    {
        self.rows.reserve(1)?;
        let view = self
            .blocks
            .store(view.get_slice_unchecked(self.sources.get(source)))?;
        self.rows.push(view)?;
        Ok(())
    }
}

// ---- slots that are alike, and changes

impl<K: ViewKind> MutableBinaryViewArray<K> {
    // Adds valid slots of these bytes, which are stored once.
    pub(crate) fn extend_bytes(
        &mut self,
        additional: usize,
        value: &[u8],
    ) -> Result<(), PolarsError>
        requires { CanHold K.IS_UTF8 value.now }
        ensures answer { Answers result (store_fault self.old.bytes.blocks value.now) (λ _. self.new ≡ extended_row self.old additional (Some value.now)) }
        ensures unchanged { OnErr result (self.new ≡ self.old) }
    {
        self.rows.reserve(additional)?;
        let view = self.blocks.store(value)?;
        self.rows.extend_constant(additional, view, true)?;
        Ok(())
    }

    /// Adds `additional` null slots without bytes, and makes a validity where there is none and some are added.
    ///
    /// `NoMemory` where there is none for the slots or the validity.
    pub fn extend_null(&mut self, additional: usize) -> Result<(), PolarsError>
        ensures answer { Answers result None (λ _. self.new ≡ extended_row self.old additional None) }
        ensures unchanged { OnErr result (self.new ≡ self.old) }
    {
        self.rows
            .extend_constant(additional, View::zeroed(), false)?;
        Ok(())
    }

    /// Puts another view in slot `i`, over the buffers that there are: the finished ones, and then the block in progress.
    /// The slot stays valid or null. Takes no memory.
    pub fn set_view(&mut self, i: usize, view: View)
        requires within { i < view_count (lists_of self.old) }
        requires fine { view_fault K.IS_UTF8 view (buffers_of self.old.bytes.blocks) ≡ None }
        ensures { self.new ≡ with_rows self.old (changed_view self.old.rows i view) }
    {
        self.rows.set_view(i, view);
    }

    /// Makes slot `i` valid or null, and a validity where there is none and the slot becomes null. Its view stays.
    ///
    /// `NoMemory` where there is none for the validity.
    pub fn set_valid(&mut self, i: usize, flag: bool) -> Result<(), PolarsError>
        requires { i < view_count (lists_of self.old) }
        ensures answer { Answers result None (λ _. self.new ≡ with_rows self.old (with_flag self.old.rows i flag)) }
        ensures unchanged { OnErr result (self.new ≡ self.old) }
    {
        self.rows.set_valid(i, flag)?;
        Ok(())
    }

    /// Other flags beside the same views, or all slots valid where no validity is given. Takes no memory.
    pub fn with_validity(self, validity: Option<MutableBitmap>) -> Self
        requires { AreFlagsOf (view_count (lists_of self)) (bits_given validity) }
        ensures { result ≡ with_rows self (with_flags self.rows (bits_given validity)) }
    {
        let mut builder = self;
        builder.set_validity(validity);
        builder
    }

    /// Puts other flags in place of those that there were, as [`MutableBinaryViewArray::with_validity`] does.
    pub fn set_validity(&mut self, validity: Option<MutableBitmap>)
        requires { AreFlagsOf (view_count (lists_of self.old)) (bits_given validity) }
        ensures { self.new ≡ with_rows self.old (with_flags self.old.rows (bits_given validity)) }
    {
        self.rows.set_validity(validity);
    }

    /// Puts what `f` makes of the validity in its place, where there is one. Where there is none, `f` is not called.
    pub fn apply_validity<F: FnOnce(MutableBitmap) -> MutableBitmap>(&mut self, f: F)
        requires can { F.IsAlwaysCallable f }
        requires length { (bits made : GrowingBits) → self.old.rows.flags ≡ Some bits.bits → F.post f bits made → length made.bits ≡ length bits.bits }
        ensures { MatchOption self.old.rows.flags (self.new ≡ self.old) (λ flags. (bits made : GrowingBits) × (bits.bits ≡ flags) × F.post f bits made × (self.new ≡ with_rows self.old (with_flags self.old.rows (Some made.bits)))) }
    {
        self.rows.apply_validity(f);
    }

    /// Gives back memory that no slot needs, where the allocator takes it. The room of the block in progress stays.
    pub fn shrink_to_fit(&mut self)
        ensures { self.new ≡ self.old }
    {
        self.rows.shrink_to_fit();
    }
}

impl<'a, K: ViewType<'a>> MutableBinaryViewArray<K> {
    /// The value of slot `i`; a null slot has a value too.
    pub fn value(&'a self, i: usize) -> K::Item
        requires { i < view_count (lists_of self.now) }
        ensures { K.item_bytes result ≡ (slot_at (view_slots (lists_of self.now)) i).bytes }
    {
        K::from_bytes_unchecked(self.value_bytes(i))
    }

    /// The same as [`MutableBinaryViewArray::value`].
    pub fn value_unchecked(&'a self, i: usize) -> K::Item
        requires { i < view_count (lists_of self.now) }
        ensures { K.item_bytes result ≡ (slot_at (view_slots (lists_of self.now)) i).bytes }
    {
        self.value(i)
    }

    /// What a view says over the buffers that there are: the finished ones, and then the block in progress.
    pub fn value_from_view_unchecked(&'a self, view: &'a View) -> K::Item
        requires { view_fault K.IS_UTF8 view.now (buffers_of self.now.bytes.blocks) ≡ None }
        ensures { K.item_bytes result ≡ view_content view.now (buffers_of self.now.bytes.blocks) }
    {
        K::from_bytes_unchecked(self.content_of(view))
    }

    /// Adds `additional` valid slots of a value, whose bytes are stored once, also for none, or null slots.
    ///
    /// Refuses a value as [`MutableBinaryViewArray::push_value`] does.
    pub fn extend_constant(
        &mut self,
        additional: usize,
        value: Option<K::Item>,
    ) -> Result<(), PolarsError>
        ensures answer { Answers result (row_fault self.old (option_map K.item_bytes value)) (λ _. self.new ≡ extended_row self.old additional (option_map K.item_bytes value)) }
        ensures unchanged { OnErr result (self.new ≡ self.old) }
    {
        match value {
            Some(value) => self.extend_bytes(additional, K::to_bytes(value)),
            None => self.extend_null(additional),
        }
    }
}

impl<K: ViewKind> MutableBinaryViewArray<K> {
    // The bytes that a view says over the buffers that there are.
    fn content_of<'b>(&'b self, view: &'b View) -> &'b [u8]
        requires { view_fault K.IS_UTF8 view.now (buffers_of self.now.bytes.blocks) ≡ None }
        ensures bytes { result.now ≡ view_content view.now (buffers_of self.now.bytes.blocks) }
        ensures held { CanHold K.IS_UTF8 result.now }
    {
        self.blocks.value_from_view_unchecked(view)
    }
}

impl<K: ViewKind> MutableArray for MutableBinaryViewArray<K> {
    ghost use Rattle.std.specs.Prelude.{None, ⊤};
    ghost use Rattle.column_binview.specs.Slots.{view_count};
    ghost use Rattle.column_binview.specs.Builders.{lists_of};

    ghost data_type = { λ _. K.DATA_TYPE };

    ghost slot_count = { λ builder. view_count (lists_of builder) };

    ghost flags = { λ builder. builder.rows.flags };

    ghost null = { None };

    // a builder of views does not tell its room
    ghost has_room = { λ _ _. ⊤ };

    fn dtype(&self) -> ArrowDataType {
        MutableBinaryViewArray::dtype(self)
    }

    fn len(&self) -> usize {
        MutableBinaryViewArray::len(self)
    }

    fn validity(&self) -> Option<&MutableBitmap> {
        MutableBinaryViewArray::validity(self)
    }

    fn push_null(&mut self) -> Result<(), PolarsError> {
        MutableBinaryViewArray::push_null(self)
    }

    fn reserve_slots(&mut self, additional: usize) -> Result<(), PolarsError> {
        self.reserve(additional)
    }

    fn shrink_to_fit(&mut self) {
        MutableBinaryViewArray::shrink_to_fit(self);
    }
}

// ---- texts, inside

impl MutablePlBinary {
    // Whether each slot from a place on is UTF-8.
    pub(crate) fn check_texts(&self, from: usize) -> Result<(), Cause>
        requires { from ≤ length self.now.rows.views }
        ensures { GivesCause result (contents_fault (drop from self.now.rows.views) (buffers_of self.now.bytes.blocks)) (λ _. ⊤) }
    {
        self.known();
        check_contents_of(&self.rows.views()[from..], &self.blocks)
    }
}

// Whether the content of each view is UTF-8.
#[tactic(auto, using(column_view::proofs::FaultsLemmas::faults))]
fn check_contents_of(views: &[View], blocks: &Blocks) -> Result<(), Cause>
    requires { views_fault false views.now (buffers_of blocks.now) ≡ None }
    ensures { GivesCause result (contents_fault views.now (buffers_of blocks.now)) (λ _. ⊤) }
{
    for view in views {
        check_content(view, blocks)?;
    }
    Ok(())
}

// Whether the content of a view is UTF-8.
#[tactic(auto, unfolding(column_view::specs::ViewFaults::content_fault))]
fn check_content(view: &View, blocks: &Blocks) -> Result<(), Cause>
    requires { layout_fault view.now (buffers_of blocks.now) ≡ None }
    ensures { GivesCause result (content_fault true view.now (buffers_of blocks.now)) (λ _. ⊤) }
{
    if !is_utf8(blocks.value_from_view_unchecked(view)) {
        return Err(Cause::InvalidUtf8);
    }
    Ok(())
}
