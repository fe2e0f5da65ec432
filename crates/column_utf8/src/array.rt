//! The array: its constructors, its readers, and its cheap changes.

ghost use Rattle.std.specs.Prelude.{◌≡◌, ◌+◌, ◌<◌, ◌≤◌, ◌≤ℤ◌, ◌==◌, not, pos, [], ◌∷◌, true, false, length as list_length, map, replicate, count_by, option_map, None, Some, IfSome, MatchOption};
ghost use Rattle.std.specs.Option.{option_copied};
ghost use Rattle.column_base.specs.Answers.{Gives, GivesCause, Answers, ◌or_else◌};
ghost use Rattle.column_base.specs.Slots.{slot_at, row_of};
ghost use Rattle.column_storage.specs.Validity.{AreFlagsOf};
ghost use Rattle.column_offset.specs.Offsets.{last_of, offsets_fault};
ghost use Rattle.column_binary.specs.Slots.{offset_lists, offset_slots, slot_count, IsPart};
ghost use Rattle.column_binary.specs.Types.{offset_type, type_fault};
ghost use Rattle.column_binary.specs.Rows.{used_lists};
ghost use Rattle.column_utf8.specs.Texts.{text_array_fault, AreSoundTexts};

use crate::builder::MutableUtf8Array;
use column_base::{ArrowDataType, Cause, Offset, PolarsError, Splitable, str_of};
use column_binary::{BinaryArray, check_offset_type, offset_dtype};
use column_offset::{OffsetsBuffer, check_offsets, check_utf8};
use column_storage::{Bitmap, Buffer, check_validity};
use std::alloc::Global;
use std::marker::Model;

/// A column of optional texts, semantically an immutable `Vec<Option<String>>`.
///
/// A slice or a share costs the same whatever the number of slots, but for the flags that a slice counts. The offsets
/// are sound, the last is at most the number of value bytes, each slot by itself is UTF-8, a null one too, and a
/// validity that is given has a flag for each slot. Arrow columnar format, "Variable-size Binary Layout"; Unicode,
/// table 3-7.
#[derive(Drop)]
pub struct Utf8Array<O: Offset> {
    pub(crate) array: BinaryArray<O>,
}

impl<O: Offset> Model for Utf8Array<O> {
    ghost use Rattle.column_binary.specs.Slots.{OffsetLists};
    ghost use Rattle.column_utf8.specs.Texts.{AreSoundTexts};

    ghost Value = { OffsetLists };

    ghost view = { λ a. a.array };

    ghost invariant = { λ a. AreSoundTexts a.array };
}

// ---- constructors

impl<O: Offset> Utf8Array<O> {
    /// The column of these lists. One pass over the slots, with no memory.
    ///
    /// The first that stands of `OffsetsExceedValues` where the last offset is greater than the number of value bytes,
    /// `InvalidUtf8` where the bytes of all slots are not UTF-8 end to end, `CharBoundary` where some slot by itself is
    /// not, `ValidityLength` where a validity is given whose length is not the number of slots, and `WrongDataType`
    /// where the data type lies in another physical type. Null slots are looked at too; bytes before the first offset
    /// and after the last are not.
    pub fn try_new(
        dtype: ArrowDataType,
        offsets: OffsetsBuffer<O>,
        values: Buffer<u8>,
        validity: Option<Bitmap>,
    ) -> Result<Self, PolarsError>
        ensures { let lists = offset_lists offsets values validity in Gives result (text_array_fault lists or_else type_fault O.IS_LARGE true dtype) (λ a. a ≡ lists) }
    {
        check_texts(&offsets, &values, validity.as_ref())?;
        check_offset_type(dtype, O::IS_LARGE, true)?;
        Ok(Utf8Array::of_lists(offsets, values, validity))
    }

    /// The column of these raw lists, whose numbers are looked at too. One pass over the numbers and one over the slots,
    /// with no memory.
    ///
    /// The first that stands of `OffsetsEmpty`, `OffsetsNegative`, `OffsetsNotMonotone`, `OffsetsExceedValues` where
    /// the last offset is greater than the number of value bytes, `InvalidUtf8` where the bytes of all slots are not
    /// UTF-8 end to end, `CharBoundary` where some slot by itself is not, and `ValidityLength` where a validity is
    /// given whose length is not the number of slots. Null slots are looked at too; bytes before the first offset and
    /// after the last are not.
    #[tactic(auto, using(column_offset::proofs::OffsetsLemmas::sound_where_no_fault))]
    pub fn try_from_parts(
        offsets: Buffer<O>,
        values: Buffer<u8>,
        validity: Option<Bitmap>,
    ) -> Result<Self, Cause>
        ensures { let lists = offset_lists (map O.int offsets) values validity in GivesCause result (offsets_fault lists.offsets or_else text_array_fault lists) (λ a. a ≡ lists) }
    {
        check_offsets(offsets.as_slice())?;
        let offsets = OffsetsBuffer::new_unchecked(offsets);
        check_texts(&offsets, &values, validity.as_ref())?;
        Ok(Utf8Array::of_lists(offsets, values, validity))
    }

    /// The same as [`Utf8Array::try_new`], of lists and a data type without a fault.
    pub fn new(
        dtype: ArrowDataType,
        offsets: OffsetsBuffer<O>,
        values: Buffer<u8>,
        validity: Option<Bitmap>,
    ) -> Self
        requires lists { text_array_fault (offset_lists offsets values validity) ≡ None }
        requires own { type_fault O.IS_LARGE true dtype ≡ None }
        ensures { result ≡ offset_lists offsets values validity }
    {
        match Utf8Array::try_new(dtype, offsets, values, validity) {
            Ok(array) => array,
            Err(_) => unreachable!(),
        }
    }

    /// The column of these sound texts, without a look at them. Takes no memory.
    pub fn new_unchecked(
        dtype: ArrowDataType,
        offsets: OffsetsBuffer<O>,
        values: Buffer<u8>,
        validity: Option<Bitmap>,
    ) -> Self
        requires sound { AreSoundTexts (offset_lists offsets values validity) }
        requires own { type_fault O.IS_LARGE true dtype ≡ None }
        ensures { result ≡ offset_lists offsets values validity }
    {
        let _ = dtype;
        Utf8Array::of_lists(offsets, values, validity)
    }

    /// The column without slots.
    ///
    /// `NoMemory` where there is none for its one offset.
    pub fn new_empty(alloc: Global, dtype: ArrowDataType) -> Result<Self, PolarsError>
        requires { type_fault O.IS_LARGE true dtype ≡ None }
        ensures { Answers result None (λ a. a ≡ offset_lists (pos 0 ∷ []) [] None) }
    {
        let array = BinaryArray::new_empty(alloc, BinaryArray::<O>::default_dtype())?;
        array.known();
        Ok(Utf8Array::of(array))
    }

    /// `length` null slots without bytes.
    ///
    /// `NoMemory` where there is none for their offsets and flags.
    pub fn new_null(alloc: Global, dtype: ArrowDataType, length: usize) -> Result<Self, PolarsError>
        requires { type_fault O.IS_LARGE true dtype ≡ None }
        ensures { Answers result None (λ a. a ≡ offset_lists (replicate (length + 1) (pos 0)) [] (Some (replicate length false))) }
    {
        let array = BinaryArray::new_null(alloc, BinaryArray::<O>::default_dtype(), length)?;
        array.known();
        Ok(Utf8Array::of(array))
    }

    /// The same column, which shares the memory of this one.
    ///
    /// Copies no slot and takes no memory. `NoMemory` where a count of owners is full.
    pub fn try_clone(&self, alloc: Global) -> Result<Self, PolarsError>
        ensures { Answers result None (λ a. a ≡ self.now) }
    {
        let array = self.array.try_clone(alloc)?;
        Ok(Utf8Array::of(array))
    }

    /// The data type of texts with offsets of this width.
    pub fn default_dtype() -> ArrowDataType
        ensures dtype { result ≡ offset_type O.IS_LARGE true }
        ensures own { type_fault O.IS_LARGE true result ≡ None }
    {
        offset_dtype(O::IS_LARGE, true)
    }

    // The column of lists that are texts.
    fn of_lists(offsets: OffsetsBuffer<O>, values: Buffer<u8>, validity: Option<Bitmap>) -> Self
        requires { AreSoundTexts (offset_lists offsets values validity) }
        ensures { result ≡ offset_lists offsets values validity }
    {
        let dtype = BinaryArray::<O>::default_dtype();
        Utf8Array::of(BinaryArray::new_unchecked(dtype, offsets, values, validity))
    }

    // Byte strings each of which is UTF-8, as texts.
    pub(crate) fn of(array: BinaryArray<O>) -> Self
        requires { AreSoundTexts array }
        ensures same { result ≡ array }
    {
        Utf8Array { array }
    }
}

// ---- readers

impl<O: Offset> Utf8Array<O> {
    /// Tells proofs that the lists are sound and each slot is UTF-8, that there are as many slots as are counted, and
    /// that the last offset, and so each, is a value of its type.
    pub fn known(&self)
        ensures sound { AreSoundTexts self.now }
        ensures within_type { last_of self.now.offsets ≤ℤ pos O.GREATEST }
        ensures count { list_length (offset_slots self.now) ≡ slot_count self.now }
    {
        self.array.known();
    }

    /// The number of slots.
    pub fn len(&self) -> usize
        ensures slots { result ≡ list_length (offset_slots self.now) }
        ensures count { result ≡ slot_count self.now }
    {
        self.array.len()
    }

    /// Whether there is no slot.
    pub fn is_empty(&self) -> bool
        ensures { result ≡ (slot_count self.now == 0) }
    {
        self.array.is_empty()
    }

    /// The data type, which is the one of texts with offsets of this width.
    pub fn dtype(&self) -> ArrowDataType
        ensures dtype { result ≡ offset_type O.IS_LARGE true }
        ensures own { type_fault O.IS_LARGE true result ≡ None }
    {
        Self::default_dtype()
    }

    /// The offsets, one more than there are slots.
    pub fn offsets(&self) -> &OffsetsBuffer<O>
        ensures { result.now ≡ self.now.offsets }
    {
        self.array.offsets()
    }

    /// The value bytes, also those before the first offset and after the last.
    pub fn values(&self) -> &Buffer<u8>
        ensures { result.now ≡ self.now.values }
    {
        self.array.values()
    }

    /// The validity, where one is given.
    pub fn validity(&self) -> Option<&Bitmap>
        ensures { option_map (λ bits. bits.now) result ≡ self.now.flags }
    {
        self.array.validity()
    }

    /// The number of null slots, in constant time.
    pub fn null_count(&self) -> usize
        ensures { result ≡ count_by (λ slot. not slot.valid) (offset_slots self.now) }
    {
        self.array.null_count()
    }

    /// Whether slot `i` is valid.
    pub fn is_valid(&self, i: usize) -> bool
        requires { i < slot_count self.now }
        ensures { result ≡ (slot_at (offset_slots self.now) i).valid }
    {
        self.array.is_valid(i)
    }

    /// Whether slot `i` is null.
    pub fn is_null(&self, i: usize) -> bool
        requires { i < slot_count self.now }
        ensures { result ≡ not (slot_at (offset_slots self.now) i).valid }
    {
        self.array.is_null(i)
    }

    /// The text of slot `i`; a null slot has a text too.
    #[tactic(auto, using(crate::proofs::TextsLemmas::places))]
    pub fn value(&self, i: usize) -> &str
        requires { i < slot_count self.now }
        ensures { result.now ≡ (slot_at (offset_slots self.now) i).bytes }
    {
        self.known();
        str_of(self.array.value(i))
    }

    /// The same as [`Utf8Array::value`].
    pub fn value_unchecked(&self, i: usize) -> &str
        requires { i < slot_count self.now }
        ensures { result.now ≡ (slot_at (offset_slots self.now) i).bytes }
    {
        self.value(i)
    }

    /// The text of slot `i`, or None where it is null.
    pub fn get(&self, i: usize) -> Option<&str>
        requires { i < slot_count self.now }
        ensures { option_map (λ text. text.now) result ≡ row_of (slot_at (offset_slots self.now) i) }
    {
        if self.is_valid(i) {
            Some(self.value(i))
        } else {
            None
        }
    }

    /// The lists: the data type, the offsets, the value bytes and the validity. Takes no memory.
    pub fn into_inner(self) -> (ArrowDataType, OffsetsBuffer<O>, Buffer<u8>, Option<Bitmap>)
        ensures dtype { result.0 ≡ offset_type O.IS_LARGE true }
        ensures own { type_fault O.IS_LARGE true result.0 ≡ None }
        ensures offsets { result.1 ≡ self.offsets }
        ensures values { result.2 ≡ self.values }
        ensures flags { result.3 ≡ self.flags }
        ensures sound { AreSoundTexts (offset_lists result.1 result.2 result.3) }
    {
        let Utf8Array { array } = self;
        let (_, offsets, values, validity) = array.into_inner();
        (Self::default_dtype(), offsets, values, validity)
    }

    /// The same slots as byte strings, lent. Takes no memory.
    pub fn as_binary(&self) -> &BinaryArray<O>
        ensures { result.now ≡ self.now }
    {
        &self.array
    }
}

// ---- a builder of the same slots

impl<O: Offset> Utf8Array<O> {
    /// The same slots, to be changed: the same offsets and flags, and the value bytes up to the last offset.
    ///
    /// Each list is kept where no other column shares it, and is copied otherwise. `NoMemory` where there is none for
    /// the copies.
    #[tactic(auto, using(crate::proofs::BuilderLemmas::texts_used))]
    pub fn into_mut(self, alloc: Global) -> Result<MutableUtf8Array<O>, PolarsError>
        ensures { Answers result None (λ b. b.lists ≡ used_lists self) }
    {
        let Utf8Array { array } = self;
        let array = array.into_mut(alloc)?;
        Ok(MutableUtf8Array::of(array))
    }
}

// ---- slices

#[tactic(auto, using(crate::proofs::TextsLemmas::slices))]
impl<O: Offset> Utf8Array<O> {
    /// The `length` slots from slot `offset` on, sharing offsets and value bytes.
    ///
    /// Takes no memory. `offset` and `length` count slots. Where a validity is given, the flags of the part or those
    /// cut off are counted, whichever are fewer; the validity is dropped where all slots of the part are valid.
    pub fn sliced(self, offset: usize, length: usize) -> Self
        requires { offset + length ≤ slot_count self }
        ensures part { IsPart self offset length result }
        ensures texts { AreSoundTexts result }
    {
        let Utf8Array { array } = self;
        Utf8Array::of(array.sliced(offset, length))
    }

    /// The same as [`Utf8Array::sliced`].
    pub fn sliced_unchecked(self, offset: usize, length: usize) -> Self
        requires { offset + length ≤ slot_count self }
        ensures part { IsPart self offset length result }
        ensures texts { AreSoundTexts result }
    {
        self.sliced(offset, length)
    }

    /// Keeps the `length` slots from slot `offset` on, as [`Utf8Array::sliced`] does.
    pub fn slice(&mut self, offset: usize, length: usize)
        requires { offset + length ≤ slot_count self.old }
        ensures part { IsPart self.old offset length self.new }
        ensures texts { AreSoundTexts self.new }
    {
        self.array.slice(offset, length);
    }

    /// The same as [`Utf8Array::slice`].
    pub fn slice_unchecked(&mut self, offset: usize, length: usize)
        requires { offset + length ≤ slot_count self.old }
        ensures part { IsPart self.old offset length self.new }
        ensures texts { AreSoundTexts self.new }
    {
        self.slice(offset, length);
    }
}

impl<O: Offset> Splitable for Utf8Array<O> {
    ghost use Rattle.std.specs.Prelude.{◌-◌, ◌≤◌, None, IfOk};
    ghost use Rattle.column_base.specs.Answers.{Answers};
    ghost use Rattle.column_binary.specs.Slots.{slot_count, sliced_lists, IsPart};
    ghost use Rattle.column_utf8.specs.Texts.{AreSoundTexts};

    ghost slot_count = { λ a. slot_count a };

    ghost front = { λ a place. sliced_lists a 0 place };

    ghost back = { λ a place. sliced_lists a place (slot_count a - place) };

    fn check_bound(&self, offset: usize) -> bool {
        offset <= self.len()
    }

    fn split_at(&self, alloc: Global, offset: usize) -> Result<(Self, Self), PolarsError>
        requires { offset ≤ slot_count self.now }
        ensures parts { Answers result None (λ parts. IsPart self.now 0 offset parts.0 × IsPart self.now offset (slot_count self.now - offset) parts.1) }
        ensures texts { IfOk result (λ parts. AreSoundTexts parts.0 × AreSoundTexts parts.1) }
    {
        let front = self.try_clone(alloc)?.sliced(0, offset);
        let back = self.try_clone(alloc)?.sliced(offset, self.len() - offset);
        Ok((front, back))
    }

    fn split_at_unchecked(&self, alloc: Global, offset: usize) -> Result<(Self, Self), PolarsError>
        requires { offset ≤ slot_count self.now }
        ensures parts { Answers result None (λ parts. IsPart self.now 0 offset parts.0 × IsPart self.now offset (slot_count self.now - offset) parts.1) }
        ensures texts { IfOk result (λ parts. AreSoundTexts parts.0 × AreSoundTexts parts.1) }
    {
        self.split_at(alloc, offset)
    }
}

// ---- other flags

#[tactic(auto, using(crate::proofs::TextsLemmas::flags))]
impl<O: Offset> Utf8Array<O> {
    /// The same bytes beside other flags, or all of them valid where no validity is given. Takes no memory.
    pub fn with_validity(self, validity: Option<Bitmap>) -> Self
        requires { AreFlagsOf (slot_count self) validity }
        ensures { result ≡ offset_lists self.offsets self.values validity }
    {
        let mut array = self;
        array.set_validity(validity);
        array
    }

    /// Puts other flags in place of those that there were, as [`Utf8Array::with_validity`] does.
    pub fn set_validity(&mut self, validity: Option<Bitmap>)
        requires { AreFlagsOf (slot_count self.old) validity }
        ensures { self.new ≡ offset_lists self.old.offsets self.old.values validity }
    {
        self.array.set_validity(validity);
        self.array.known();
    }

    /// The validity, where one was given. All slots are valid then.
    pub fn take_validity(&mut self) -> Option<Bitmap>
        ensures taken { result ≡ self.old.flags }
        ensures rest { self.new ≡ offset_lists self.old.offsets self.old.values None }
    {
        let validity = self.array.take_validity();
        self.array.known();
        validity
    }
}

#[tactic(auto, using(crate::proofs::TextsLemmas::flags))]
impl<O: Offset> Utf8Array<O> {
    /// Puts what `f` makes of the validity in its place. Where no validity is given, `f` is not called, and the column
    /// stays as it is.
    ///
    /// `f` keeps the length of a validity.
    pub fn apply_validity<F: FnOnce(Bitmap) -> Bitmap>(&mut self, f: F)
        requires { IfSome self.old.flags (λ flags. F.pre f flags × ((new : _) → F.post f flags new → list_length new ≡ list_length flags)) }
        ensures { MatchOption self.old.flags (self.new ≡ self.old) (λ flags. (new : _) × F.post f flags new × (self.new ≡ offset_lists self.old.offsets self.old.values (Some new))) }
    {
        self.known();
        if let Some(bits) = self.take_validity() {
            self.set_validity(Some(f(bits)));
        }
    }
}

/// Whether lists with sound offsets are texts: the first that stands of `OffsetsExceedValues`, `InvalidUtf8`,
/// `CharBoundary` and `ValidityLength`.
fn check_texts<O: Offset>(
    offsets: &OffsetsBuffer<O>,
    values: &Buffer<u8>,
    validity: Option<&Bitmap>,
) -> Result<(), Cause>
    ensures { let lists = offset_lists offsets.now values.now (option_copied validity.entry) in GivesCause result (text_array_fault lists) (λ _. AreSoundTexts lists) }
{
    check_utf8(offsets.as_slice(), values.as_slice())?;
    check_validity(validity, offsets.len_proxy())?;
    Ok(())
}
