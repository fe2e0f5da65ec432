//! The builder of texts with offsets: how it is made, read and changed.

ghost use Rattle.std.specs.Prelude.{◌≡◌, ◌+◌, ◌^◌, ◌-◌, ◌<◌, ◌≤◌, ◌≤ℤ◌, ◌==◌, pos, true, length, option_map, None, Some, ⊤, OnOk, OnErr, IsOk, IfSome, MatchOption, Err};
ghost use Rattle.std.specs.Option.{option_copied};
ghost use Rattle.std.specs.Str.{IsUtf8};
ghost use Rattle.std.specs.String.{string_bytes};
ghost use Rattle.column_base.specs.declared.errors.Cause.TheVariants.{Overflow};
ghost use Rattle.column_base.specs.Answers.{Gives, Answers, ◌or_else◌};
ghost use Rattle.column_base.specs.Errors.{error_of};
ghost use Rattle.column_base.specs.Slots.{slot_at, row_of};
ghost use Rattle.column_storage.specs.Bits.{GrowingBits, bits_given};
ghost use Rattle.column_storage.specs.Validity.{AreFlagsOf};
ghost use Rattle.column_offset.specs.Offsets.{last_of, bounds_fault};
ghost use Rattle.column_offset.specs.Text.{pieces, texts_fault};
ghost use Rattle.column_binary.specs.Types.{offset_type, type_fault};
ghost use Rattle.column_binary.specs.Slots.{offset_lists, slot_count, offset_slots};
ghost use Rattle.column_binary.specs.Rows.{AreFullLists, KeepsSpare, no_slots, pushed_row, row_fault, first_slots, last_row, frozen_lists, joined_lists, join_fault, full_fault};
ghost use Rattle.column_utf8.specs.Texts.{AreTexts, text_builder_fault};

use crate::array::Utf8Array;
use column_base::{
    ArrowDataType, Cause, Growing, Offset, PolarsError, TryExtendFromSelf, TryPush, str_of,
};
use column_binary::{MutableBinaryArray, check_offset_type};
use column_offset::{Offsets, check_utf8, try_check_offsets_bounds};
use column_storage::{Buffer, MutableArray, MutableBitmap, check_flags};
use std::alloc::Global;
use std::marker::Model;

/// A column of optional texts that grows, semantically a `Vec<Option<String>>`.
///
/// A [`MutableBinaryArray`] each slot of which is UTF-8, a null one too. A refused call leaves the slots as they were,
/// and at least the room that there was. Arrow columnar format, "Variable-size Binary Layout"; Unicode, table 3-7.
#[derive(Drop)]
pub struct MutableUtf8Array<O: Offset> {
    array: MutableBinaryArray<O>,
}

impl<O: Offset> Model for MutableUtf8Array<O> {
    ghost use Rattle.column_binary.specs.Rows.{GrowingLists};
    ghost use Rattle.column_utf8.specs.Texts.{AreTexts};

    ghost Value = { GrowingLists };

    ghost view = { λ b. b.array };

    ghost invariant = { λ b. AreTexts b.array.lists };
}

// ---- constructors

impl<O: Offset> MutableUtf8Array<O> {
    /// No slots.
    ///
    /// `NoMemory` where there is none for the one offset.
    pub fn new(alloc: Global) -> Result<Self, PolarsError>
        ensures { Answers result None (λ b. b.lists ≡ no_slots) }
    {
        Self::with_capacities(alloc, 0, 0)
    }

    /// No slots, with room for `capacity` slots.
    ///
    /// `NoMemory` where there is none for them.
    pub fn with_capacity(alloc: Global, capacity: usize) -> Result<Self, PolarsError>
        ensures { Answers result None (λ b. (b.lists ≡ no_slots) × (capacity ≤ b.spare_slots)) }
    {
        Self::with_capacities(alloc, capacity, 0)
    }

    /// No slots, with room for `capacity` slots of `values` bytes together.
    ///
    /// `NoMemory` where there is none for them.
    #[tactic(auto, using(crate::proofs::BuilderLemmas::texts_none))]
    pub fn with_capacities(
        alloc: Global,
        capacity: usize,
        values: usize,
    ) -> Result<Self, PolarsError>
        ensures { Answers result None (λ b. (b.lists ≡ no_slots) × (capacity ≤ b.spare_slots) × (values ≤ b.spare_bytes)) }
    {
        let array = MutableBinaryArray::with_capacities(alloc, capacity, values)?;
        Ok(MutableUtf8Array { array })
    }

    /// The builder of these lists. One pass over the slots, with no memory.
    ///
    /// The first that stands of `OffsetsExceedValues` where the last offset is greater than the number of value bytes,
    /// `OffsetsNotFull` where it is less, `InvalidUtf8` where the bytes of all slots are not UTF-8 end to end,
    /// `CharBoundary` where some slot by itself is not, `WrongDataType` where the data type lies in another physical
    /// type, and `ValidityLength` where a validity is given whose length is not the number of slots. Null slots are
    /// looked at too; bytes before the first offset are not.
    pub fn try_new(
        dtype: ArrowDataType,
        offsets: Offsets<O>,
        values: Vec<u8>,
        validity: Option<MutableBitmap>,
    ) -> Result<Self, PolarsError>
        ensures { let lists = offset_lists offsets.offsets values.items (bits_given validity) in Gives result (text_builder_fault lists (type_fault O.IS_LARGE true dtype)) (λ b. b.lists ≡ lists) }
    {
        check_full_texts(&offsets, &values)?;
        check_offset_type(dtype, O::IS_LARGE, true)?;
        check_flags(validity.as_ref(), offsets.len_proxy())?;
        offsets.known();
        Ok(Self::new_unchecked(dtype, offsets, values, validity))
    }

    /// The builder of these texts, without a look at them. Takes no memory.
    pub fn new_unchecked(
        dtype: ArrowDataType,
        offsets: Offsets<O>,
        values: Vec<u8>,
        validity: Option<MutableBitmap>,
    ) -> Self
        requires full { AreFullLists (offset_lists offsets.offsets values.items (bits_given validity)) }
        requires texts { AreTexts (offset_lists offsets.offsets values.items (bits_given validity)) }
        requires own { type_fault O.IS_LARGE true dtype ≡ None }
        ensures { result.lists ≡ offset_lists offsets.offsets values.items (bits_given validity) }
    {
        let _ = dtype;
        let dtype = MutableBinaryArray::<O>::default_dtype();
        match MutableBinaryArray::try_new(dtype, offsets, values, validity) {
            Ok(array) => MutableUtf8Array { array },
            Err(_) => unreachable!(),
        }
    }

    // Byte strings each of which is UTF-8, as texts.
    pub(crate) fn of(array: MutableBinaryArray<O>) -> Self
        requires { AreTexts array.lists }
        ensures { result ≡ array }
    {
        MutableUtf8Array { array }
    }

    /// The data type of texts with offsets of this width.
    pub fn default_dtype() -> ArrowDataType
        ensures dtype { result ≡ offset_type O.IS_LARGE true }
        ensures own { type_fault O.IS_LARGE true result ≡ None }
    {
        Utf8Array::<O>::default_dtype()
    }

    /// A copy of the builder.
    ///
    /// `NoMemory` where there is none for it.
    pub fn try_clone(&self) -> Result<Self, PolarsError>
        ensures { Answers result None (λ b. b.lists ≡ self.now.lists) }
    {
        let array = self.array.try_clone()?;
        Ok(MutableUtf8Array { array })
    }
}

// ---- readers

impl<O: Offset> MutableUtf8Array<O> {
    /// Tells proofs that the lists are sound, the last offset is the number of value bytes and each slot is UTF-8, that
    /// there are as many slots as are counted, that one more is a `usize`, and that the last offset, and so each, is a
    /// value of its type.
    pub fn known(&self)
        ensures full { AreFullLists self.now.lists }
        ensures texts { AreTexts self.now.lists }
        ensures within_type { last_of self.now.lists.offsets ≤ℤ pos O.GREATEST }
        ensures count { length (offset_slots self.now.lists) ≡ slot_count self.now.lists }
        ensures fits { slot_count self.now.lists + 1 < 2 ^ 64 }
    {
        self.array.known();
    }

    /// The number of slots.
    pub fn len(&self) -> usize
        ensures slots { result ≡ length (offset_slots self.now.lists) }
        ensures count { result ≡ slot_count self.now.lists }
    {
        self.array.len()
    }

    /// Whether there is no slot.
    pub fn is_empty(&self) -> bool
        ensures { result ≡ (slot_count self.now.lists == 0) }
    {
        self.len() == 0
    }

    /// The data type, which is the one of texts with offsets of this width.
    pub fn dtype(&self) -> ArrowDataType
        ensures dtype { result ≡ offset_type O.IS_LARGE true }
        ensures own { type_fault O.IS_LARGE true result ≡ None }
    {
        Self::default_dtype()
    }

    /// The offsets, one more than there are slots.
    pub fn offsets(&self) -> &Offsets<O>
        ensures { result.now.offsets ≡ self.now.lists.offsets }
    {
        self.array.offsets()
    }

    /// The value bytes, as many as the last offset says.
    pub fn values(&self) -> &Vec<u8>
        ensures { result.now.items ≡ self.now.lists.values }
    {
        self.array.values()
    }

    /// The validity, where one was made or given.
    pub fn validity(&self) -> Option<&MutableBitmap>
        ensures { bits_given (option_copied result) ≡ self.now.lists.flags }
    {
        self.array.validity()
    }

    /// For how many slots there is memory.
    pub fn capacity(&self) -> usize
        ensures { result ≡ slot_count self.now.lists + self.now.spare_slots }
    {
        self.array.capacity()
    }

    /// Whether slot `i` is valid.
    pub fn is_valid(&self, i: usize) -> bool
        requires { i < slot_count self.now.lists }
        ensures { result ≡ (slot_at (offset_slots self.now.lists) i).valid }
    {
        self.array.is_valid(i)
    }

    /// The text of slot `i`; a null slot that was not pushed may have a text too.
    #[tactic(auto, using(crate::proofs::BuilderLemmas::text_of))]
    pub fn value(&self, i: usize) -> &str
        requires { i < slot_count self.now.lists }
        ensures { result.now ≡ (slot_at (offset_slots self.now.lists) i).bytes }
    {
        self.known();
        str_of(self.array.value(i))
    }

    /// The same as [`MutableUtf8Array::value`].
    pub fn value_unchecked(&self, i: usize) -> &str
        requires { i < slot_count self.now.lists }
        ensures { result.now ≡ (slot_at (offset_slots self.now.lists) i).bytes }
    {
        self.value(i)
    }

    /// The text of slot `i`, or None where it is null.
    pub fn get(&self, i: usize) -> Option<&str>
        requires { i < slot_count self.now.lists }
        ensures { option_map (λ text. text.now) result ≡ row_of (slot_at (offset_slots self.now.lists) i) }
    {
        if self.is_valid(i) {
            Some(self.value(i))
        } else {
            None
        }
    }

    /// The lists: the data type, the offsets, the value bytes and the validity. Takes no memory.
    pub fn into_inner(self) -> (ArrowDataType, Offsets<O>, Vec<u8>, Option<MutableBitmap>)
        ensures dtype { result.0 ≡ offset_type O.IS_LARGE true }
        ensures own { type_fault O.IS_LARGE true result.0 ≡ None }
        ensures lists { offset_lists result.1.offsets result.2.items (bits_given result.3) ≡ self.lists }
        ensures full { AreFullLists self.lists }
        ensures texts { AreTexts self.lists }
    {
        let MutableUtf8Array { array } = self;
        let (_, offsets, values, validity) = array.into_inner();
        (Self::default_dtype(), offsets, values, validity)
    }

    /// The same as [`MutableUtf8Array::into_inner`].
    pub fn into_data(self) -> (ArrowDataType, Offsets<O>, Vec<u8>, Option<MutableBitmap>)
        ensures dtype { result.0 ≡ offset_type O.IS_LARGE true }
        ensures own { type_fault O.IS_LARGE true result.0 ≡ None }
        ensures lists { offset_lists result.1.offsets result.2.items (bits_given result.3) ≡ self.lists }
        ensures full { AreFullLists self.lists }
        ensures texts { AreTexts self.lists }
    {
        self.into_inner()
    }

    /// Other flags beside the same bytes, or all slots valid where no validity is given. Takes no memory.
    pub fn with_validity(self, validity: Option<MutableBitmap>) -> Self
        requires { AreFlagsOf (slot_count self.lists) (bits_given validity) }
        ensures { result.lists ≡ offset_lists self.lists.offsets self.lists.values (bits_given validity) }
    {
        let mut builder = self;
        builder.set_validity(validity);
        builder
    }

    /// Puts other flags in place of those that there were, as [`MutableUtf8Array::with_validity`] does.
    #[tactic(auto, using(crate::proofs::BuilderLemmas::texts_flags))]
    pub fn set_validity(&mut self, validity: Option<MutableBitmap>)
        requires { AreFlagsOf (slot_count self.old.lists) (bits_given validity) }
        ensures { self.new.lists ≡ offset_lists self.old.lists.offsets self.old.lists.values (bits_given validity) }
    {
        self.array.known();
        self.array.set_validity(validity);
    }

    /// Puts what `f` makes of the validity in its place, where there is one. Where there is none, `f` is not called.
    #[tactic(auto, using(crate::proofs::BuilderLemmas::texts_flags))]
    pub fn apply_validity<F: FnOnce(MutableBitmap) -> MutableBitmap>(&mut self, f: F)
        requires can { F.IsAlwaysCallable f }
        requires length { (bits made : GrowingBits) → self.old.lists.flags ≡ Some bits.bits → F.post f bits made → length made.bits ≡ length bits.bits }
        ensures { MatchOption self.old.lists.flags (self.new.lists ≡ self.old.lists) (λ flags. (bits made : GrowingBits) × (bits.bits ≡ flags) × F.post f bits made × (self.new.lists ≡ offset_lists self.old.lists.offsets self.old.lists.values (Some made.bits))) }
    {
        self.array.known();
        self.array.apply_validity(f);
        self.array.known();
    }

    /// Gives back memory that no slot needs, where the allocator takes it.
    pub fn shrink_to_fit(&mut self)
        ensures { self.new.lists ≡ self.old.lists }
    {
        self.array.shrink_to_fit();
    }

    /// The array of these slots, whose offsets and value bytes are not copied. A validity without a null is dropped.
    ///
    /// In constant time. `NoMemory` where there is none for the counts of owners.
    #[tactic(auto, using(crate::proofs::BuilderLemmas::texts_frozen))]
    pub fn freeze(self) -> Result<Utf8Array<O>, PolarsError>
        ensures { Answers result None (λ a. a ≡ frozen_lists self.lists) }
    {
        let MutableUtf8Array { array } = self;
        array.known();
        let array = array.freeze()?;
        array.known();
        Ok(Utf8Array::of(array))
    }
}

// ---- a slot more, a slot less

impl<O: Offset> MutableUtf8Array<O> {
    /// Makes room for `additional` more slots of `additional_values` bytes together.
    ///
    /// `NoMemory` where there is none for them, and never where the room is there.
    pub fn reserve(
        &mut self,
        additional: usize,
        additional_values: usize,
    ) -> Result<(), PolarsError>
        ensures answer { Answers result None (λ _. (additional ≤ self.new.spare_slots) × (additional_values ≤ self.new.spare_bytes)) }
        ensures spare_serves { additional ≤ self.old.spare_slots → additional_values ≤ self.old.spare_bytes → IsOk result }
        ensures spare_kept { KeepsSpare self.old self.new }
        ensures same { self.new.lists ≡ self.old.lists }
    {
        self.array.reserve(additional, additional_values)
    }

    /// Adds a valid slot of this text.
    ///
    /// `Overflow` where the new last offset passes the type, then `NoMemory` where there is none for the slot, and
    /// never where there is room.
    #[tactic(auto, using(crate::proofs::BuilderLemmas::texts_value))]
    pub fn push_value(&mut self, value: &str) -> Result<(), PolarsError>
        ensures answer { Answers result (row_fault O.GREATEST self.old.lists (Some value.now)) (λ _. self.new.lists ≡ pushed_row self.old.lists (Some value.now)) }
        ensures spare_serves { 1 ≤ self.old.spare_slots → length value.now ≤ self.old.spare_bytes → Gives result (row_fault O.GREATEST self.old.lists (Some value.now)) (λ _. ⊤) }
        ensures spare_left { OnOk result ((self.old.spare_slots ≤ self.new.spare_slots + 1) × (self.old.spare_bytes ≤ self.new.spare_bytes + length value.now)) }
        ensures spare_kept { OnErr result (KeepsSpare self.old self.new) }
        ensures unchanged { OnErr result (self.new.lists ≡ self.old.lists) }
        ensures untouched { result ≡ Err (error_of Overflow) → self.new ≡ self.old }
    {
        self.array.known();
        self.array.push_value(value.as_bytes())?;
        Ok(())
    }

    /// Adds a null slot without bytes, and makes a validity where there is none.
    ///
    /// `NoMemory` where there is none for the slot or the validity.
    #[tactic(auto, using(crate::proofs::BuilderLemmas::texts_null))]
    pub fn push_null(&mut self) -> Result<(), PolarsError>
        ensures answer { Answers result None (λ _. self.new.lists ≡ pushed_row self.old.lists None) }
        ensures spare_kept { OnErr result (KeepsSpare self.old self.new) }
        ensures unchanged { OnErr result (self.new.lists ≡ self.old.lists) }
    {
        self.array.known();
        self.array.push_null()?;
        Ok(())
    }

    /// Adds a slot of a row: of its text, or a null slot without bytes.
    ///
    /// `Overflow` where the new last offset passes the type, then `NoMemory` where there is none for the slot.
    pub fn push(&mut self, value: Option<&str>) -> Result<(), PolarsError>
        ensures answer { Answers result (row_fault O.GREATEST self.old.lists (option_copied value.entry)) (λ _. self.new.lists ≡ pushed_row self.old.lists (option_copied value.entry)) }
        ensures spare_serves { IfSome value.entry (λ text. 1 ≤ self.old.spare_slots → length text.now ≤ self.old.spare_bytes → Gives result (row_fault O.GREATEST self.old.lists (Some text.now)) (λ _. ⊤)) }
        ensures spare_left { IfSome value.entry (λ text. OnOk result ((self.old.spare_slots ≤ self.new.spare_slots + 1) × (self.old.spare_bytes ≤ self.new.spare_bytes + length text.now))) }
        ensures spare_kept { OnErr result (KeepsSpare self.old self.new) }
        ensures unchanged { OnErr result (self.new.lists ≡ self.old.lists) }
        ensures untouched { result ≡ Err (error_of Overflow) → self.new ≡ self.old }
    {
        match value {
            Some(text) => self.push_value(text),
            None => self.push_null(),
        }
    }

    /// Takes the last slot, and gives its text: None where it is null, or where there is none.
    ///
    /// `NoMemory` where there is none for the text, and the slot stays.
    #[tactic(auto, using(crate::proofs::BuilderLemmas::texts_first, crate::proofs::BuilderLemmas::last_text))]
    pub fn pop(&mut self) -> Result<Option<String>, PolarsError>
        ensures answer { Answers result None (λ row. (option_map string_bytes row ≡ last_row self.old.lists) × (self.new.lists ≡ first_slots self.old.lists (slot_count self.old.lists - 1))) }
        ensures spare_kept { KeepsSpare self.old self.new }
        ensures unchanged { OnErr result (self.new.lists ≡ self.old.lists) }
    {
        self.array.known();
        match self.array.pop()? {
            Some(bytes) => Ok(Some(string_of(bytes))),
            None => Ok(None),
        }
    }

    /// Adds the slots of another builder: one copy of its value bytes, and its offsets and flags, each in one pass.
    ///
    /// `Overflow` where the new last offset passes the type, then `NoMemory` where there is none for the slots.
    #[tactic(auto, using(crate::proofs::BuilderLemmas::texts_joined))]
    pub fn try_extend_from_self(&mut self, other: &Self) -> Result<(), PolarsError>
        ensures answer { Answers result (join_fault O.GREATEST self.old.lists other.now.lists) (λ _. self.new.lists ≡ joined_lists self.old.lists other.now.lists) }
        ensures spare_kept { OnErr result (KeepsSpare self.old self.new) }
        ensures unchanged { OnErr result (self.new.lists ≡ self.old.lists) }
        ensures untouched { result ≡ Err (error_of Overflow) → self.new ≡ self.old }
    {
        self.array.known();
        other.known();
        self.array.try_extend_from_self(&other.array)?;
        Ok(())
    }
}

/// UTF-8 as text of its own. Takes no memory and no time.
pub(crate) fn string_of(bytes: Vec<u8>) -> String
    requires { IsUtf8 bytes.items }
    ensures { string_bytes result ≡ bytes.items }
{
    // SAFETY: the bytes are UTF-8, by what is required.
    unsafe { String::from_utf8_unchecked(bytes) }
}

/// Whether the bytes of a builder are all of its slots and each slot is UTF-8: the first that stands of
/// `OffsetsExceedValues`, `OffsetsNotFull`, `InvalidUtf8` and `CharBoundary`.
#[tactic(auto, unfolding(column_offset::specs::Text::cut_fault))]
pub(crate) fn check_full_texts<O: Offset>(
    offsets: &Offsets<O>,
    values: &[u8],
) -> Result<(), PolarsError>
    ensures { Gives result (bounds_fault offsets.now.offsets (length values.now) or_else full_fault offsets.now.offsets (length values.now) or_else texts_fault (pieces offsets.now.offsets values.now)) (λ _. ⊤) }
{
    try_check_offsets_bounds(offsets.as_slice(), values.len())?;
    if offsets.last().to_usize() < values.len() {
        return Err(Cause::OffsetsNotFull.into());
    }
    check_utf8(offsets.as_slice(), values)?;
    Ok(())
}

impl<O: Offset> Growing for MutableUtf8Array<O> {
    ghost use Rattle.column_binary.specs.Rows.{row_growth};

    // seen as the lists of an array
    type Lists = Utf8Array<O>;

    // seen as the bytes of a valid row
    type Row = Option<Buffer<u8>>;

    ghost lists = { λ b. b.lists };

    ghost growth = { row_growth O.GREATEST };
}

impl<O: Offset> TryExtendFromSelf for MutableUtf8Array<O> {
    ghost use Rattle.std.specs.Prelude.{⊤};
    ghost use Rattle.column_binary.specs.Rows.{joined_lists, join_fault};

    ghost fits = { λ _ _. ⊤ };

    ghost join_fault = { join_fault O.GREATEST };

    ghost joined = { joined_lists };

    fn try_extend_from_self(&mut self, other: &Self) -> Result<(), PolarsError> {
        MutableUtf8Array::try_extend_from_self(self, other)
    }
}

impl<'b, O: Offset> TryPush<Option<&'b str>> for MutableUtf8Array<O> {
    ghost use Rattle.std.specs.Option.{option_copied};

    ghost shown = { option_copied };

    fn try_push(&mut self, item: Option<&'b str>) -> Result<(), PolarsError> {
        self.push(item)
    }
}

impl<'b, O: Offset> TryPush<&'b str> for MutableUtf8Array<O> {
    ghost use Rattle.std.specs.Prelude.{Some};

    ghost shown = { λ text. Some text.now };

    fn try_push(&mut self, item: &'b str) -> Result<(), PolarsError> {
        self.push_value(item)
    }
}

impl<O: Offset> MutableArray for MutableUtf8Array<O> {
    ghost use Rattle.std.specs.Prelude.{◌≤◌, true, None};
    ghost use Rattle.column_binary.specs.Types.{offset_type};
    ghost use Rattle.column_binary.specs.Slots.{slot_count};

    ghost data_type = { λ _. offset_type O.IS_LARGE true };

    ghost slot_count = { λ lists. slot_count lists };

    ghost flags = { λ lists. lists.flags };

    ghost null = { None };

    ghost has_room = { λ b additional. additional ≤ b.spare_slots };

    fn dtype(&self) -> ArrowDataType {
        MutableUtf8Array::dtype(self)
    }

    fn len(&self) -> usize {
        MutableUtf8Array::len(self)
    }

    fn validity(&self) -> Option<&MutableBitmap> {
        MutableUtf8Array::validity(self)
    }

    fn push_null(&mut self) -> Result<(), PolarsError> {
        MutableUtf8Array::push_null(self)
    }

    fn reserve_slots(&mut self, additional: usize) -> Result<(), PolarsError> {
        self.reserve(additional, 0)
    }

    fn shrink_to_fit(&mut self) {
        MutableUtf8Array::shrink_to_fit(self);
    }
}
