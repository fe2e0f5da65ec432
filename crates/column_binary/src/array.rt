//! The array: its constructors, its readers, and its cheap changes.

ghost use Rattle.std.specs.Prelude.{◌≡◌, ◌+◌, ◌^◌, ◌<◌, ◌≤◌, ◌≤ℤ◌, ◌==◌, not, pos, [], ◌∷◌, false, length as list_length, map, replicate, count_by, option_map, None, Some};
ghost use Rattle.std.specs.Option.{option_copied};
ghost use Rattle.column_base.specs.Answers.{Gives, GivesCause, Answers, ◌or_else◌};
ghost use Rattle.column_base.specs.Slots.{slot_at, row_of};
ghost use Rattle.column_storage.specs.Validity.{AreFlagsOf};
ghost use Rattle.column_offset.specs.Offsets.{last_of, offsets_fault};
ghost use Rattle.column_binary.specs.Types.{offset_type, type_fault};
ghost use Rattle.column_binary.specs.Slots.{offset_lists, offset_slots, slot_count, array_fault, AreSoundLists, IsPart};
ghost use Rattle.column_binary.specs.Rows.{used_lists};

use crate::builder::MutableBinaryArray;
use crate::types::{check_offset_type, offset_dtype};
use column_base::{ArrowDataType, Cause, Offset, PolarsError, Splitable};
use column_offset::{Offsets, OffsetsBuffer, check_offsets, check_offsets_bounds};
use column_storage::{
    Bitmap, Buffer, check_validity, flags_into_mut, is_valid_at, null_count, share_validity,
    slice_validity,
};
use std::alloc::Global;
use std::marker::Model;

/// A column of optional byte strings, semantically an immutable `Vec<Option<Vec<u8>>>`.
///
/// A slice or a share costs the same whatever the number of slots, but for the flags that a slice counts. The offsets
/// are sound, the last is at most the number of value bytes, and a validity that is given has a flag for each slot.
/// Arrow columnar format, "Variable-size Binary Layout".
#[derive(Drop)]
pub struct BinaryArray<O: Offset> {
    offsets: OffsetsBuffer<O>,
    values: Buffer<u8>,
    validity: Option<Bitmap>,
}

impl<O: Offset> Model for BinaryArray<O> {
    ghost use Rattle.column_binary.specs.Slots.{OffsetLists, offset_lists, AreSoundLists};

    ghost Value = { OffsetLists };

    ghost view = { λ a. offset_lists a.offsets a.values a.validity };

    ghost invariant = { λ a. AreSoundLists (offset_lists a.offsets a.values a.validity) };
}

// ---- constructors

impl<O: Offset> BinaryArray<O> {
    /// The column of these lists. Takes no memory.
    ///
    /// The first that stands of `OffsetsExceedValues` where the last offset is greater than the number of value bytes,
    /// `ValidityLength` where a validity is given whose length is not the number of slots, and `WrongDataType` where
    /// the data type lies in another physical type.
    pub fn try_new(
        dtype: ArrowDataType,
        offsets: OffsetsBuffer<O>,
        values: Buffer<u8>,
        validity: Option<Bitmap>,
    ) -> Result<Self, PolarsError>
        ensures { let lists = offset_lists offsets values validity in Gives result (array_fault lists or_else type_fault O.IS_LARGE false dtype) (λ a. a ≡ lists) }
    {
        check_lists(&offsets, &values, validity.as_ref())?;
        check_offset_type(dtype, O::IS_LARGE, false)?;
        Ok(BinaryArray {
            offsets,
            values,
            validity,
        })
    }

    /// The column of these raw lists, whose numbers are looked at too. One pass, with no memory.
    ///
    /// The first that stands of `OffsetsEmpty`, `OffsetsNegative`, `OffsetsNotMonotone`, `OffsetsExceedValues` where
    /// the last offset is greater than the number of value bytes, and `ValidityLength` where a validity is given whose
    /// length is not the number of slots.
    #[tactic(auto, using(column_offset::proofs::OffsetsLemmas::sound_where_no_fault))]
    pub fn try_from_parts(
        offsets: Buffer<O>,
        values: Buffer<u8>,
        validity: Option<Bitmap>,
    ) -> Result<Self, Cause>
        ensures { let lists = offset_lists (map O.int offsets) values validity in GivesCause result (offsets_fault lists.offsets or_else array_fault lists) (λ a. a ≡ lists) }
    {
        check_offsets(offsets.as_slice())?;
        let offsets = OffsetsBuffer::new_unchecked(offsets);
        check_lists(&offsets, &values, validity.as_ref())?;
        Ok(BinaryArray {
            offsets,
            values,
            validity,
        })
    }

    /// The same as [`BinaryArray::try_new`], of lists and a data type without a fault.
    pub fn new(
        dtype: ArrowDataType,
        offsets: OffsetsBuffer<O>,
        values: Buffer<u8>,
        validity: Option<Bitmap>,
    ) -> Self
        requires lists { array_fault (offset_lists offsets values validity) ≡ None }
        requires own { type_fault O.IS_LARGE false dtype ≡ None }
        ensures { result ≡ offset_lists offsets values validity }
    {
        match BinaryArray::try_new(dtype, offsets, values, validity) {
            Ok(array) => array,
            Err(_) => unreachable!(),
        }
    }

    /// The column of these sound lists, without a look at them. Takes no memory.
    pub fn new_unchecked(
        dtype: ArrowDataType,
        offsets: OffsetsBuffer<O>,
        values: Buffer<u8>,
        validity: Option<Bitmap>,
    ) -> Self
        requires sound { AreSoundLists (offset_lists offsets values validity) }
        requires own { type_fault O.IS_LARGE false dtype ≡ None }
        ensures { result ≡ offset_lists offsets values validity }
    {
        let _ = dtype;
        BinaryArray {
            offsets,
            values,
            validity,
        }
    }

    /// The column without slots.
    ///
    /// `NoMemory` where there is none for its one offset.
    pub fn new_empty(alloc: Global, dtype: ArrowDataType) -> Result<Self, PolarsError>
        requires { type_fault O.IS_LARGE false dtype ≡ None }
        ensures { Answers result None (λ a. a ≡ offset_lists (pos 0 ∷ []) [] None) }
    {
        Ok(BinaryArray {
            offsets: OffsetsBuffer::new(alloc)?,
            values: Buffer::new(alloc)?,
            validity: None,
        })
    }

    /// `length` null slots without bytes.
    ///
    /// `NoMemory` where there is none for their offsets and flags.
    pub fn new_null(alloc: Global, dtype: ArrowDataType, length: usize) -> Result<Self, PolarsError>
        requires { type_fault O.IS_LARGE false dtype ≡ None }
        ensures { Answers result None (λ a. a ≡ offset_lists (replicate (length + 1) (pos 0)) [] (Some (replicate length false))) }
    {
        Ok(BinaryArray {
            offsets: OffsetsBuffer::from_offsets(alloc, Offsets::new_zeroed(alloc, length)?)?,
            values: Buffer::new(alloc)?,
            validity: Some(Bitmap::new_zeroed(alloc, length)?),
        })
    }

    /// The same column, which shares the memory of this one.
    ///
    /// Copies no slot and takes no memory. `NoMemory` where a count of owners is full.
    pub fn try_clone(&self, alloc: Global) -> Result<Self, PolarsError>
        ensures { Answers result None (λ a. a ≡ self.now) }
    {
        Ok(BinaryArray {
            offsets: self.offsets.try_clone(alloc)?,
            values: self.values.try_clone(alloc)?,
            validity: share_validity(alloc, self.validity.as_ref())?,
        })
    }

    /// The data type of byte strings with offsets of this width.
    pub fn default_dtype() -> ArrowDataType
        ensures dtype { result ≡ offset_type O.IS_LARGE false }
        ensures own { type_fault O.IS_LARGE false result ≡ None }
    {
        offset_dtype(O::IS_LARGE, false)
    }
}

// ---- readers

impl<O: Offset> BinaryArray<O> {
    /// Tells proofs that the lists are sound, that there are as many slots as are counted, that one more is a `usize`,
    /// and that the last offset, and so each, is a value of its type.
    #[tactic(auto, using(crate::proofs::SlotsLemmas::counts))]
    pub fn known(&self)
        ensures sound { AreSoundLists self.now }
        ensures within_type { last_of self.now.offsets ≤ℤ pos O.GREATEST }
        ensures count { list_length (offset_slots self.now) ≡ slot_count self.now }
        ensures fits { slot_count self.now + 1 < 2 ^ 64 }
    {
        self.offsets.known();
    }

    /// The number of slots.
    #[tactic(auto, using(crate::proofs::SlotsLemmas::counts))]
    pub fn len(&self) -> usize
        ensures slots { result ≡ list_length (offset_slots self.now) }
        ensures count { result ≡ slot_count self.now }
    {
        self.offsets.len_proxy()
    }

    /// Whether there is no slot.
    pub fn is_empty(&self) -> bool
        ensures { result ≡ (slot_count self.now == 0) }
    {
        self.len() == 0
    }

    /// The data type, which is the one of byte strings with offsets of this width.
    pub fn dtype(&self) -> ArrowDataType
        ensures dtype { result ≡ offset_type O.IS_LARGE false }
        ensures own { type_fault O.IS_LARGE false result ≡ None }
    {
        Self::default_dtype()
    }

    /// The offsets, one more than there are slots.
    pub fn offsets(&self) -> &OffsetsBuffer<O>
        ensures { result.now ≡ self.now.offsets }
    {
        &self.offsets
    }

    /// The value bytes, also those before the first offset and after the last.
    pub fn values(&self) -> &Buffer<u8>
        ensures { result.now ≡ self.now.values }
    {
        &self.values
    }

    /// The validity, where one is given.
    pub fn validity(&self) -> Option<&Bitmap>
        ensures { option_map (λ bits. bits.now) result ≡ self.now.flags }
    {
        self.validity.as_ref()
    }

    /// The number of null slots, in constant time.
    #[tactic(auto, using(crate::proofs::SlotsLemmas::counts))]
    pub fn null_count(&self) -> usize
        ensures { result ≡ count_by (λ slot. not slot.valid) (offset_slots self.now) }
    {
        self.known();
        null_count(self.validity())
    }

    /// Whether slot `i` is valid.
    #[tactic(auto, using(crate::proofs::SlotsLemmas::places))]
    pub fn is_valid(&self, i: usize) -> bool
        requires { i < slot_count self.now }
        ensures { result ≡ (slot_at (offset_slots self.now) i).valid }
    {
        is_valid_at(self.validity.as_ref(), i)
    }

    /// Whether slot `i` is null.
    pub fn is_null(&self, i: usize) -> bool
        requires { i < slot_count self.now }
        ensures { result ≡ not (slot_at (offset_slots self.now) i).valid }
    {
        !self.is_valid(i)
    }

    /// The bytes of slot `i`; a null slot has bytes too.
    #[tactic(auto, using(crate::proofs::SlotsLemmas::places))]
    pub fn value(&self, i: usize) -> &[u8]
        requires { i < slot_count self.now }
        ensures { result.now ≡ (slot_at (offset_slots self.now) i).bytes }
    {
        let (start, end) = self.offsets.start_end(i);
        &self.values.as_slice()[start..end]
    }

    /// The same as [`BinaryArray::value`].
    pub fn value_unchecked(&self, i: usize) -> &[u8]
        requires { i < slot_count self.now }
        ensures { result.now ≡ (slot_at (offset_slots self.now) i).bytes }
    {
        self.value(i)
    }

    /// The bytes of slot `i`, or None where it is null.
    pub fn get(&self, i: usize) -> Option<&[u8]>
        requires { i < slot_count self.now }
        ensures { option_map (λ bytes. bytes.now) result ≡ row_of (slot_at (offset_slots self.now) i) }
    {
        if self.is_valid(i) {
            Some(self.value(i))
        } else {
            None
        }
    }

    /// The lists: the data type, the offsets, the value bytes and the validity. Takes no memory.
    pub fn into_inner(self) -> (ArrowDataType, OffsetsBuffer<O>, Buffer<u8>, Option<Bitmap>)
        ensures dtype { result.0 ≡ offset_type O.IS_LARGE false }
        ensures own { type_fault O.IS_LARGE false result.0 ≡ None }
        ensures offsets { result.1 ≡ self.offsets }
        ensures values { result.2 ≡ self.values }
        ensures flags { result.3 ≡ self.flags }
        ensures sound { AreSoundLists (offset_lists result.1 result.2 result.3) }
    {
        let BinaryArray {
            offsets,
            values,
            validity,
        } = self;
        (Self::default_dtype(), offsets, values, validity)
    }
}

// ---- a builder of the same slots

impl<O: Offset> BinaryArray<O> {
    /// The same slots, to be changed: the same offsets and flags, and the value bytes up to the last offset.
    ///
    /// Each list is kept where no other column shares it, and is copied otherwise. `NoMemory` where there is none for
    /// the copies.
    pub fn into_mut(self, alloc: Global) -> Result<MutableBinaryArray<O>, PolarsError>
        ensures { Answers result None (λ b. b.lists ≡ used_lists self) }
    {
        let BinaryArray {
            offsets,
            values,
            validity,
        } = self;
        let end = offsets.last().to_usize();
        let values = values.sliced(0, end).make_mut(alloc)?;
        let offsets = offsets.into_mut(alloc)?;
        let validity = flags_into_mut(alloc, validity)?;
        Ok(MutableBinaryArray::of(offsets, values, validity))
    }
}

// ---- slices

#[tactic(auto, using(crate::proofs::SlotsLemmas::slices), unfolding(crate::specs::Slots::sliced_lists))]
impl<O: Offset> BinaryArray<O> {
    /// The `length` slots from slot `offset` on, sharing offsets and value bytes.
    ///
    /// Takes no memory. `offset` and `length` count slots. Where a validity is given, the flags of the part or those
    /// cut off are counted, whichever are fewer; the validity is dropped where all slots of the part are valid.
    pub fn sliced(self, offset: usize, length: usize) -> Self
        requires { offset + length ≤ slot_count self }
        ensures { IsPart self offset length result }
    {
        let mut array = self;
        array.slice(offset, length);
        array
    }

    /// The same as [`BinaryArray::sliced`].
    pub fn sliced_unchecked(self, offset: usize, length: usize) -> Self
        requires { offset + length ≤ slot_count self }
        ensures { IsPart self offset length result }
    {
        self.sliced(offset, length)
    }

    /// Keeps the `length` slots from slot `offset` on, as [`BinaryArray::sliced`] does.
    pub fn slice(&mut self, offset: usize, length: usize)
        requires { offset + length ≤ slot_count self.old }
        ensures { IsPart self.old offset length self.new }
    {
        self.known();
        self.offsets.slice(offset, length + 1);
        slice_validity(&mut self.validity, offset, length);
    }

    /// The same as [`BinaryArray::slice`].
    pub fn slice_unchecked(&mut self, offset: usize, length: usize)
        requires { offset + length ≤ slot_count self.old }
        ensures { IsPart self.old offset length self.new }
    {
        self.slice(offset, length);
    }
}

impl<O: Offset> Splitable for BinaryArray<O> {
    ghost use Rattle.std.specs.Prelude.{◌-◌, ◌≤◌, None};
    ghost use Rattle.column_base.specs.Answers.{Answers};
    ghost use Rattle.column_binary.specs.Slots.{slot_count, sliced_lists, IsPart};

    ghost slot_count = { λ a. slot_count a };

    ghost front = { λ a place. sliced_lists a 0 place };

    ghost back = { λ a place. sliced_lists a place (slot_count a - place) };

    fn check_bound(&self, offset: usize) -> bool {
        offset <= self.len()
    }

    fn split_at(&self, alloc: Global, offset: usize) -> Result<(Self, Self), PolarsError>
        requires { offset ≤ slot_count self.now }
        ensures { Answers result None (λ parts. IsPart self.now 0 offset parts.0 × IsPart self.now offset (slot_count self.now - offset) parts.1) }
    {
        let front = self.try_clone(alloc)?.sliced(0, offset);
        let back = self.try_clone(alloc)?.sliced(offset, self.len() - offset);
        Ok((front, back))
    }

    fn split_at_unchecked(&self, alloc: Global, offset: usize) -> Result<(Self, Self), PolarsError>
        requires { offset ≤ slot_count self.now }
        ensures { Answers result None (λ parts. IsPart self.now 0 offset parts.0 × IsPart self.now offset (slot_count self.now - offset) parts.1) }
    {
        self.split_at(alloc, offset)
    }
}

// ---- other flags

impl<O: Offset> BinaryArray<O> {
    /// The same bytes beside other flags, or all of them valid where no validity is given. Takes no memory.
    pub fn with_validity(self, validity: Option<Bitmap>) -> Self
        requires { AreFlagsOf (slot_count self) validity }
        ensures { result ≡ offset_lists self.offsets self.values validity }
    {
        let mut array = self;
        array.set_validity(validity);
        array
    }

    /// Puts other flags in place of those that there were, as [`BinaryArray::with_validity`] does.
    pub fn set_validity(&mut self, validity: Option<Bitmap>)
        requires { AreFlagsOf (slot_count self.old) validity }
        ensures { self.new ≡ offset_lists self.old.offsets self.old.values validity }
    {
        self.validity = validity;
    }

    /// The validity, where one was given. All slots are valid then.
    pub fn take_validity(&mut self) -> Option<Bitmap>
        ensures taken { result ≡ self.old.flags }
        ensures rest { self.new ≡ offset_lists self.old.offsets self.old.values None }
    {
        self.validity.take()
    }
}

/// Whether lists with sound offsets are sound: the first that stands of `OffsetsExceedValues` and `ValidityLength`.
#[tactic(auto, using(crate::proofs::SlotsLemmas::fine))]
fn check_lists<O: Offset>(
    offsets: &OffsetsBuffer<O>,
    values: &Buffer<u8>,
    validity: Option<&Bitmap>,
) -> Result<(), Cause>
    ensures { let lists = offset_lists offsets.now values.now (option_copied validity.entry) in GivesCause result (array_fault lists) (λ _. AreSoundLists lists) }
{
    check_offsets_bounds(offsets.as_slice(), values.len())?;
    check_validity(validity, offsets.len_proxy())?;
    Ok(())
}
