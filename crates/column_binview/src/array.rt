//! The array: its constructors, its readers, and its cheap changes.

ghost use Rattle.std.specs.Prelude.{◌≡◌, ◌+◌, ◌<◌, ◌≤◌, ◌==◌, not, [], false, length as list_length, replicate, count_by, option_map, sum_by, ⊤, None, Some, IfSome};
ghost use Rattle.std.specs.Option.{option_copied};
ghost use Rattle.column_base.specs.Answers.{Gives, GivesCause, Answers};
ghost use Rattle.column_base.specs.Slots.{slot_at};
ghost use Rattle.column_storage.specs.Validity.{AreFlagsOf, flags_fault};
ghost use Rattle.column_view.specs.Views.{view_length};
ghost use Rattle.column_view.specs.ViewFaults.{views_fault};
ghost use Rattle.column_binview.specs.Slots.{view_lists, view_slots, view_count, view_array_fault, AreSoundViews, IsViewPart, bytes_len, buffer_len};

use column_base::{ArrowDataType, BinaryKind, Cause, PolarsError, Splitable, Utf8Kind, ViewKind};
use column_storage::{
    Bitmap, Buffer, DataBuffers, check_validity, is_valid_at, null_count, share_validity,
    slice_validity,
};
use column_view::{View, check_views, sum_of_lengths};
use std::alloc::Global;
use std::marker::{Model, PhantomData};

/// A column of optional byte strings or texts, semantically an immutable `Vec<Option<Vec<u8>>>`.
///
/// Each slot has a view of 16 bytes, which holds a value of at most 12 bytes and names the place of a longer one in the
/// buffers. A slice or a share costs the same whatever the number of slots, but for the flags that a slice counts. No
/// view has a fault, and a validity that is given has a flag for each slot. Arrow columnar format, "Variable-size Binary
/// View Layout".
#[derive(Drop)]
pub struct BinaryViewArrayGeneric<K: ViewKind> {
    views: Buffer<View>,
    buffers: DataBuffers,
    validity: Option<Bitmap>,
    // the bytes of all slots together, where they were counted
    total_bytes_len: Option<u128>,
    // the bytes of all buffers together
    total_buffer_len: u128,
    kind: PhantomData<K>,
}

impl<K: ViewKind> Model for BinaryViewArrayGeneric<K> {
    ghost use Rattle.column_binview.specs.Slots.{ViewLists, view_lists, AreSoundViews, AreSums};

    ghost Value = { ViewLists };

    ghost view = { λ a. view_lists a.views a.buffers a.validity };

    ghost invariant = { λ a. let lists = view_lists a.views a.buffers a.validity in AreSoundViews K.IS_UTF8 lists × AreSums lists a.total_bytes_len a.total_buffer_len };
}

/// A column of optional byte strings behind views.
pub type BinaryViewArray = BinaryViewArrayGeneric<BinaryKind>;

/// A column of optional texts behind views.
pub type Utf8ViewArray = BinaryViewArrayGeneric<Utf8Kind>;

// ---- constructors

impl<K: ViewKind> BinaryViewArrayGeneric<K> {
    /// The column of these lists. One pass over the views. Takes no memory.
    ///
    /// The first fault of the first view that has one: of a view that holds its value `NonZeroPadding` where a byte after
    /// it is not 0; of a long one `ViewIndex` where its buffer is not there, `BufferSlice` where its range ends past the
    /// buffer, and `PrefixMismatch` where its prefix is not the first four bytes of the range; and then of each
    /// `InvalidUtf8` where it is text and not UTF-8. Then `ValidityLength` where a validity is given whose length is not
    /// the number of views. Null slots are looked at too. The data type has no effect.
    pub fn try_new(
        dtype: ArrowDataType,
        views: Buffer<View>,
        buffers: DataBuffers,
        validity: Option<Bitmap>,
    ) -> Result<Self, PolarsError>
        ensures { let lists = view_lists views buffers validity in Gives result (view_array_fault K.IS_UTF8 lists) (λ a. a ≡ lists) }
    {
        let _ = dtype;
        Ok(Self::try_from_parts(views, buffers, validity)?)
    }

    /// The same as [`BinaryViewArrayGeneric::try_new`], with the bare cause.
    pub fn try_from_parts(
        views: Buffer<View>,
        buffers: DataBuffers,
        validity: Option<Bitmap>,
    ) -> Result<Self, Cause>
        ensures { let lists = view_lists views buffers validity in GivesCause result (view_array_fault K.IS_UTF8 lists) (λ a. a ≡ lists) }
    {
        check_lists(K::IS_UTF8, &views, &buffers, validity.as_ref())?;
        let total_bytes_len = Some(sum_of_lengths(views.as_slice()));
        Ok(Self::of_lists(views, buffers, validity, total_bytes_len))
    }

    /// The same as [`BinaryViewArrayGeneric::try_new`], of lists without a fault.
    pub fn new(
        dtype: ArrowDataType,
        views: Buffer<View>,
        buffers: DataBuffers,
        validity: Option<Bitmap>,
    ) -> Self
        requires { view_array_fault K.IS_UTF8 (view_lists views buffers validity) ≡ None }
        ensures { result ≡ view_lists views buffers validity }
    {
        match Self::try_new(dtype, views, buffers, validity) {
            Ok(array) => array,
            Err(_) => unreachable!(),
        }
    }

    /// The column of these sound lists, with the bytes of all slots together and those of all buffers, without a look at
    /// them. Takes no memory.
    pub fn new_unchecked(
        dtype: ArrowDataType,
        views: Buffer<View>,
        buffers: DataBuffers,
        validity: Option<Bitmap>,
        total_bytes_len: u128,
        total_buffer_len: u128,
    ) -> Self
        requires sound { AreSoundViews K.IS_UTF8 (view_lists views buffers validity) }
        requires slots { total_bytes_len ≡ sum_by view_length views }
        requires buffers { total_buffer_len ≡ sum_by list_length buffers }
        ensures { result ≡ view_lists views buffers validity }
    {
        let _ = dtype;
        BinaryViewArrayGeneric {
            views,
            buffers,
            validity,
            total_bytes_len: Some(total_bytes_len),
            total_buffer_len,
            kind: PhantomData,
        }
    }

    /// The column of these sound lists, without a look at the views. The bytes of all buffers are counted where they are
    /// not given. Takes no memory.
    pub fn new_unchecked_unknown_md(
        dtype: ArrowDataType,
        views: Buffer<View>,
        buffers: DataBuffers,
        validity: Option<Bitmap>,
        total_buffer_len: Option<u128>,
    ) -> Self
        requires sound { AreSoundViews K.IS_UTF8 (view_lists views buffers validity) }
        requires buffers { IfSome total_buffer_len (λ n. n ≡ sum_by list_length buffers) }
        ensures { result ≡ view_lists views buffers validity }
    {
        let _ = dtype;
        let total_buffer_len = match total_buffer_len {
            Some(total) => total,
            None => buffers.total_len(),
        };
        BinaryViewArrayGeneric {
            views,
            buffers,
            validity,
            total_bytes_len: None,
            total_buffer_len,
            kind: PhantomData,
        }
    }

    /// The column without slots. The data type has no effect.
    ///
    /// `NoMemory` where there is none for the counts of owners.
    pub fn new_empty(alloc: Global, dtype: ArrowDataType) -> Result<Self, PolarsError>
        ensures { Answers result None (λ a. a ≡ view_lists [] [] None) }
    {
        let _ = dtype;
        Self::tell_empty();
        let views = Buffer::new(alloc)?;
        Ok(Self::of_lists(views, DataBuffers::empty(alloc)?, None, Some(0)))
    }

    /// `length` null slots without bytes. The data type has no effect.
    ///
    /// `NoMemory` where there is none for their views and flags.
    pub fn new_null(alloc: Global, dtype: ArrowDataType, length: usize) -> Result<Self, PolarsError>
        ensures { Answers result None (λ a. a ≡ view_lists (replicate length (replicate 16 0)) [] (Some (replicate length false))) }
    {
        let _ = dtype;
        Self::tell_null(length);
        let views = Buffer::from_vec(alloc, vec![in alloc; View::zeroed(); length]?)?;
        let total_bytes_len = Some(sum_of_lengths(views.as_slice()));
        let validity = Some(Bitmap::new_zeroed(alloc, length)?);
        Ok(Self::of_lists(views, DataBuffers::empty(alloc)?, validity, total_bytes_len))
    }

    // Tells proofs that lists without slots are sound.
    #[tactic(auto, using(crate::proofs::SlotsLemmas::nulls))]
    fn tell_empty()
        ensures { AreSoundViews K.IS_UTF8 (view_lists [] [] None) }
    {}

    // Tells proofs that lists of null slots are sound.
    #[tactic(auto, using(crate::proofs::SlotsLemmas::nulls))]
    fn tell_null(length: usize)
        ensures { AreSoundViews K.IS_UTF8 (view_lists (replicate length (replicate 16 0)) [] (Some (replicate length false))) }
    {}

    // The column of these sound lists, whose buffers are counted.
    pub(crate) fn of_lists(
        views: Buffer<View>,
        buffers: DataBuffers,
        validity: Option<Bitmap>,
        total_bytes_len: Option<u128>,
    ) -> Self
        requires sound { AreSoundViews K.IS_UTF8 (view_lists views buffers validity) }
        requires slots { IfSome total_bytes_len (λ n. n ≡ sum_by view_length views) }
        ensures { result ≡ view_lists views buffers validity }
    {
        let total_buffer_len = buffers.total_len();
        BinaryViewArrayGeneric {
            views,
            buffers,
            validity,
            total_bytes_len,
            total_buffer_len,
            kind: PhantomData,
        }
    }

    /// The same column, which shares the memory of this one.
    ///
    /// Copies no slot and takes no memory. `NoMemory` where a count of owners is full.
    pub fn try_clone(&self, alloc: Global) -> Result<Self, PolarsError>
        ensures { Answers result None (λ a. a ≡ self.now) }
    {
        Ok(BinaryViewArrayGeneric {
            views: self.views.try_clone(alloc)?,
            buffers: self.buffers.try_clone(alloc)?,
            validity: share_validity(alloc, self.validity.as_ref())?,
            total_bytes_len: self.total_bytes_len,
            total_buffer_len: self.total_buffer_len,
            kind: PhantomData,
        })
    }
}

// ---- readers

impl<K: ViewKind> BinaryViewArrayGeneric<K> {
    /// Tells proofs that the lists are sound, and that there are as many slots as views.
    #[tactic(auto, using(crate::proofs::SlotsLemmas::counts))]
    pub fn known(&self)
        ensures sound { AreSoundViews K.IS_UTF8 self.now }
        ensures flagged { AreFlagsOf (view_count self.now) self.now.flags }
        ensures count { list_length (view_slots self.now) ≡ view_count self.now }
    {
        let _ = &self.views;
    }

    /// The number of slots.
    #[tactic(auto, using(crate::proofs::SlotsLemmas::counts))]
    pub fn len(&self) -> usize
        ensures slots { result ≡ list_length (view_slots self.now) }
        ensures count { result ≡ view_count self.now }
    {
        self.known();
        self.views.len()
    }

    /// Whether there is no slot.
    pub fn is_empty(&self) -> bool
        ensures { result ≡ (view_count self.now == 0) }
    {
        self.len() == 0
    }

    /// The data type, which is the one of the kind.
    pub fn dtype(&self) -> ArrowDataType
        ensures { result ≡ K.DATA_TYPE }
    {
        K::DATA_TYPE
    }

    /// The views, one for each slot.
    pub fn views(&self) -> &Buffer<View>
        ensures { result.now ≡ self.now.views }
    {
        &self.views
    }

    /// The buffers, also those that no view names.
    pub fn data_buffers(&self) -> &DataBuffers
        ensures { result.now ≡ self.now.buffers }
    {
        &self.buffers
    }

    /// The validity, where one is given.
    pub fn validity(&self) -> Option<&Bitmap>
        ensures { option_map (λ bits. bits.now) result ≡ self.now.flags }
    {
        self.validity.as_ref()
    }

    /// The number of null slots, in constant time.
    #[tactic(auto, using(crate::proofs::SlotsLemmas::counts))]
    pub fn null_count(&self) -> usize
        ensures { result ≡ count_by (λ slot. not slot.valid) (view_slots self.now) }
    {
        self.known();
        null_count(self.validity())
    }

    /// Whether slot `i` is valid.
    #[tactic(auto, using(crate::proofs::SlotsLemmas::places))]
    pub fn is_valid(&self, i: usize) -> bool
        requires { i < view_count self.now }
        ensures { result ≡ (slot_at (view_slots self.now) i).valid }
    {
        self.known();
        is_valid_at(self.validity(), i)
    }

    /// Whether slot `i` is null.
    pub fn is_null(&self, i: usize) -> bool
        requires { i < view_count self.now }
        ensures { result ≡ not (slot_at (view_slots self.now) i).valid }
    {
        !self.is_valid(i)
    }

    /// The bytes of all slots together, of null ones too, as their views count them. Where they were not counted yet,
    /// which is after a slice, one pass over the views.
    pub fn total_bytes_len(&self) -> u128
        ensures { result ≡ bytes_len self.now }
    {
        match self.total_bytes_len {
            Some(total) => total,
            None => sum_of_lengths(self.views.as_slice()),
        }
    }

    /// The bytes of all buffers together, in constant time.
    pub fn total_buffer_len(&self) -> u128
        ensures { result ≡ buffer_len self.now }
    {
        self.total_buffer_len
    }

    /// The lists and both sums: the views, the buffers, the validity, the bytes of all slots together, and those of all
    /// buffers. Takes no memory.
    pub fn into_inner(self) -> (Buffer<View>, DataBuffers, Option<Bitmap>, u128, u128)
        ensures views { result.0 ≡ self.views }
        ensures buffers { result.1 ≡ self.buffers }
        ensures flags { result.2 ≡ self.flags }
        ensures slot_bytes { result.3 ≡ bytes_len self }
        ensures buffer_bytes { result.4 ≡ buffer_len self }
        ensures sound { AreSoundViews K.IS_UTF8 (view_lists result.0 result.1 result.2) }
    {
        let total_bytes_len = self.total_bytes_len();
        let BinaryViewArrayGeneric {
            views,
            buffers,
            validity,
            total_bytes_len: _,
            total_buffer_len,
            kind: _,
        } = self;
        (views, buffers, validity, total_bytes_len, total_buffer_len)
    }

    /// The lists alone: the views, the buffers and the validity. Takes no memory and counts nothing.
    pub fn into_lists(self) -> (Buffer<View>, DataBuffers, Option<Bitmap>)
        ensures views { result.0 ≡ self.views }
        ensures buffers { result.1 ≡ self.buffers }
        ensures flags { result.2 ≡ self.flags }
        ensures sound { AreSoundViews K.IS_UTF8 (view_lists result.0 result.1 result.2) }
    {
        let BinaryViewArrayGeneric {
            views,
            buffers,
            validity,
            total_bytes_len: _,
            total_buffer_len: _,
            kind: _,
        } = self;
        (views, buffers, validity)
    }
}

// ---- slices

#[tactic(auto, using(crate::proofs::SlotsLemmas::slices), unfolding(crate::specs::Slots::sliced_views))]
impl<K: ViewKind> BinaryViewArrayGeneric<K> {
    /// The `length` slots from slot `offset` on, sharing views and buffers.
    ///
    /// Takes no memory. `offset` and `length` count slots. Where a validity is given, the flags of the part or those
    /// cut off are counted, whichever are fewer; the validity is dropped where all slots of the part are valid. The bytes
    /// of the slots are not counted anew.
    pub fn sliced(self, offset: usize, length: usize) -> Self
        requires { offset + length ≤ view_count self }
        ensures { IsViewPart K.IS_UTF8 self offset length result }
    {
        let mut array = self;
        array.slice(offset, length);
        array
    }

    /// The same as [`BinaryViewArrayGeneric::sliced`].
    pub fn sliced_unchecked(self, offset: usize, length: usize) -> Self
        requires { offset + length ≤ view_count self }
        ensures { IsViewPart K.IS_UTF8 self offset length result }
    {
        self.sliced(offset, length)
    }

    /// Keeps the `length` slots from slot `offset` on, as [`BinaryViewArrayGeneric::sliced`] does.
    pub fn slice(&mut self, offset: usize, length: usize)
        requires { offset + length ≤ view_count self.old }
        ensures { IsViewPart K.IS_UTF8 self.old offset length self.new }
    {
        self.total_bytes_len = None;
        self.views.slice(offset, length);
        slice_validity(&mut self.validity, offset, length);
    }

    /// The same as [`BinaryViewArrayGeneric::slice`].
    pub fn slice_unchecked(&mut self, offset: usize, length: usize)
        requires { offset + length ≤ view_count self.old }
        ensures { IsViewPart K.IS_UTF8 self.old offset length self.new }
    {
        self.slice(offset, length);
    }
}

impl<K: ViewKind> Splitable for BinaryViewArrayGeneric<K> {
    ghost use Rattle.std.specs.Prelude.{◌-◌, ◌≤◌, None};
    ghost use Rattle.column_base.specs.Answers.{Answers};
    ghost use Rattle.column_binview.specs.Slots.{view_count, sliced_views, IsViewPart};

    ghost slot_count = { λ a. view_count a };

    ghost front = { λ a place. sliced_views a 0 place };

    ghost back = { λ a place. sliced_views a place (view_count a - place) };

    fn check_bound(&self, offset: usize) -> bool {
        offset <= self.len()
    }

    fn split_at(&self, alloc: Global, offset: usize) -> Result<(Self, Self), PolarsError>
        requires { offset ≤ view_count self.now }
        ensures { Answers result None (λ parts. IsViewPart K.IS_UTF8 self.now 0 offset parts.0 × IsViewPart K.IS_UTF8 self.now offset (view_count self.now - offset) parts.1) }
    {
        let front = self.try_clone(alloc)?.sliced(0, offset);
        let back = self.try_clone(alloc)?.sliced(offset, self.len() - offset);
        Ok((front, back))
    }

    fn split_at_unchecked(&self, alloc: Global, offset: usize) -> Result<(Self, Self), PolarsError>
        requires { offset ≤ view_count self.now }
        ensures { Answers result None (λ parts. IsViewPart K.IS_UTF8 self.now 0 offset parts.0 × IsViewPart K.IS_UTF8 self.now offset (view_count self.now - offset) parts.1) }
    {
        self.split_at(alloc, offset)
    }
}

// ---- other flags

impl<K: ViewKind> BinaryViewArrayGeneric<K> {
    /// The same bytes beside other flags, or all of them valid where no validity is given. Takes no memory.
    pub fn with_validity(self, validity: Option<Bitmap>) -> Self
        requires { AreFlagsOf (view_count self) validity }
        ensures { result ≡ view_lists self.views self.buffers validity }
    {
        let mut array = self;
        array.set_validity(validity);
        array
    }

    /// Puts other flags in place of those that there were, as [`BinaryViewArrayGeneric::with_validity`] does.
    pub fn set_validity(&mut self, validity: Option<Bitmap>)
        requires { AreFlagsOf (view_count self.old) validity }
        ensures { self.new ≡ view_lists self.old.views self.old.buffers validity }
    {
        self.validity = validity;
    }

    /// The validity, where one was given. All slots are valid then.
    pub fn take_validity(&mut self) -> Option<Bitmap>
        ensures taken { result ≡ self.old.flags }
        ensures rest { self.new ≡ view_lists self.old.views self.old.buffers None }
    {
        self.validity.take()
    }
}

// ---- the same lists

impl<K: ViewKind> BinaryViewArrayGeneric<K> {
    // The same lists as an array of another kind, which may hold the values.
    pub(crate) fn of_kind<L: ViewKind>(self) -> BinaryViewArrayGeneric<L>
        requires { AreSoundViews L.IS_UTF8 self }
        ensures { result ≡ self }
    {
        let BinaryViewArrayGeneric {
            views,
            buffers,
            validity,
            total_bytes_len,
            total_buffer_len,
            kind: _,
        } = self;
        BinaryViewArrayGeneric {
            views,
            buffers,
            validity,
            total_bytes_len,
            total_buffer_len,
            kind: PhantomData,
        }
    }
}

// Whether raw lists are sound: the first fault of the first view that has one, then `ValidityLength`.
#[tactic(auto, using(crate::proofs::SlotsLemmas::fine))]
fn check_lists(
    is_text: bool,
    views: &Buffer<View>,
    buffers: &DataBuffers,
    validity: Option<&Bitmap>,
) -> Result<(), Cause>
    ensures { let lists = view_lists views.now buffers.now (option_copied validity.entry) in GivesCause result (view_array_fault is_text lists) (λ _. AreSoundViews is_text lists) }
{
    buffers.known();
    check_views(views.as_slice(), buffers, is_text)?;
    check_validity(validity, views.len())?;
    Ok(())
}
