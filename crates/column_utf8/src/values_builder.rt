//! The builder of texts without nulls.

ghost use Rattle.std.specs.Prelude.{◌≡◌, ◌+◌, ◌^◌, ◌-◌, ◌<◌, ◌≤◌, ◌≤ℤ◌, ◌==◌, pos, true, [], length, option_map, None, Some, ⊤, OnOk, OnErr, IsOk, IfOk, MatchOption, Err};
ghost use Rattle.std.specs.String.{string_bytes};
ghost use Rattle.column_base.specs.declared.errors.Cause.TheVariants.{Overflow};
ghost use Rattle.column_base.specs.Answers.{Gives, Answers};
ghost use Rattle.column_base.specs.Errors.{error_of};
ghost use Rattle.column_base.specs.Slots.{slot_at};
ghost use Rattle.column_offset.specs.Offsets.{last_of};
ghost use Rattle.column_binary.specs.Types.{offset_type, type_fault};
ghost use Rattle.column_binary.specs.Slots.{offset_lists, slot_count, offset_slots};
ghost use Rattle.column_binary.specs.Rows.{AreFullLists, KeepsSpare, no_slots, pushed_row, row_fault, first_slots, last_row, joined_lists, join_fault};
ghost use Rattle.column_utf8.specs.Texts.{AreTexts, text_builder_fault};

use crate::array::Utf8Array;
use crate::builder::{MutableUtf8Array, check_full_texts, string_of};
use column_base::{
    ArrowDataType, Cause, Growing, Offset, PolarsError, TryExtendFromSelf, TryPush, str_of,
};
use column_binary::{MutableBinaryValuesArray, check_offset_type};
use column_offset::Offsets;
use column_storage::{Buffer, MutableArray, MutableBitmap};
use std::alloc::Global;
use std::marker::Model;

/// A column of texts that grows, semantically a `Vec<String>`.
///
/// A [`MutableUtf8Array`] that has no validity; a null is pushed as an empty text.
#[derive(Drop)]
pub struct MutableUtf8ValuesArray<O: Offset> {
    array: MutableBinaryValuesArray<O>,
}

impl<O: Offset> Model for MutableUtf8ValuesArray<O> {
    ghost use Rattle.column_binary.specs.Rows.{GrowingLists};
    ghost use Rattle.column_utf8.specs.Texts.{AreTexts};

    ghost Value = { GrowingLists };

    ghost view = { λ b. b.array };

    ghost invariant = { λ b. AreTexts b.array.lists };
}

// ---- constructors

impl<O: Offset> MutableUtf8ValuesArray<O> {
    /// No slots.
    ///
    /// `NoMemory` where there is none for the one offset.
    pub fn new(alloc: Global) -> Result<Self, PolarsError>
        ensures { Answers result None (λ b. b.lists ≡ no_slots) }
    {
        Self::with_capacities(alloc, 0, 0)
    }

    /// No slots, with room for `capacity` slots.
    ///
    /// `NoMemory` where there is none for them.
    pub fn with_capacity(alloc: Global, capacity: usize) -> Result<Self, PolarsError>
        ensures { Answers result None (λ b. (b.lists ≡ no_slots) × (capacity ≤ b.spare_slots)) }
    {
        Self::with_capacities(alloc, capacity, 0)
    }

    /// No slots, with room for `capacity` slots of `values` bytes together.
    ///
    /// `NoMemory` where there is none for them.
    #[tactic(auto, using(crate::proofs::BuilderLemmas::texts_none))]
    pub fn with_capacities(
        alloc: Global,
        capacity: usize,
        values: usize,
    ) -> Result<Self, PolarsError>
        ensures { Answers result None (λ b. (b.lists ≡ no_slots) × (capacity ≤ b.spare_slots) × (values ≤ b.spare_bytes)) }
    {
        let array = MutableBinaryValuesArray::with_capacities(alloc, capacity, values)?;
        Ok(MutableUtf8ValuesArray { array })
    }

    /// The builder of these lists. One pass over the slots, with no memory.
    ///
    /// The first that stands of `OffsetsExceedValues` where the last offset is greater than the number of value bytes,
    /// `OffsetsNotFull` where it is less, `InvalidUtf8` where the bytes of all slots are not UTF-8 end to end,
    /// `CharBoundary` where some slot by itself is not, and `WrongDataType` where the data type lies in another physical
    /// type. Bytes before the first offset are not looked at.
    #[tactic(auto, using(crate::proofs::BuilderLemmas::texts_fine))]
    pub fn try_new(
        dtype: ArrowDataType,
        offsets: Offsets<O>,
        values: Vec<u8>,
    ) -> Result<Self, PolarsError>
        ensures { let lists = offset_lists offsets.offsets values.items None in Gives result (text_builder_fault lists (type_fault O.IS_LARGE true dtype)) (λ b. b.lists ≡ lists) }
    {
        check_full_texts(&offsets, &values)?;
        check_offset_type(dtype, O::IS_LARGE, true)?;
        let dtype = MutableBinaryValuesArray::<O>::default_dtype();
        let array = MutableBinaryValuesArray::try_new(dtype, offsets, values)?;
        array.known();
        Ok(MutableUtf8ValuesArray { array })
    }

    /// The builder of these texts, without a look at them. Takes no memory.
    pub fn new_unchecked(dtype: ArrowDataType, offsets: Offsets<O>, values: Vec<u8>) -> Self
        requires full { AreFullLists (offset_lists offsets.offsets values.items None) }
        requires texts { AreTexts (offset_lists offsets.offsets values.items None) }
        requires own { type_fault O.IS_LARGE true dtype ≡ None }
        ensures { result.lists ≡ offset_lists offsets.offsets values.items None }
    {
        let _ = dtype;
        let dtype = MutableBinaryValuesArray::<O>::default_dtype();
        match MutableBinaryValuesArray::try_new(dtype, offsets, values) {
            Ok(array) => MutableUtf8ValuesArray { array },
            Err(_) => unreachable!(),
        }
    }

    /// The data type of texts with offsets of this width.
    pub fn default_dtype() -> ArrowDataType
        ensures dtype { result ≡ offset_type O.IS_LARGE true }
        ensures own { type_fault O.IS_LARGE true result ≡ None }
    {
        Utf8Array::<O>::default_dtype()
    }

    /// A copy of the builder.
    ///
    /// `NoMemory` where there is none for it.
    pub fn try_clone(&self) -> Result<Self, PolarsError>
        ensures { Answers result None (λ b. b.lists ≡ self.now.lists) }
    {
        let array = self.array.try_clone()?;
        Ok(MutableUtf8ValuesArray { array })
    }
}

// ---- readers

impl<O: Offset> MutableUtf8ValuesArray<O> {
    /// Tells proofs what [`MutableUtf8Array::known`] does, and that there is no validity.
    pub fn known(&self)
        ensures full { AreFullLists self.now.lists }
        ensures texts { AreTexts self.now.lists }
        ensures within_type { last_of self.now.lists.offsets ≤ℤ pos O.GREATEST }
        ensures count { length (offset_slots self.now.lists) ≡ slot_count self.now.lists }
        ensures fits { slot_count self.now.lists + 1 < 2 ^ 64 }
        ensures flags { self.now.lists.flags ≡ None }
    {
        self.array.known();
    }

    /// The number of slots.
    pub fn len(&self) -> usize
        ensures slots { result ≡ length (offset_slots self.now.lists) }
        ensures count { result ≡ slot_count self.now.lists }
    {
        self.array.len()
    }

    /// Whether there is no slot.
    pub fn is_empty(&self) -> bool
        ensures { result ≡ (slot_count self.now.lists == 0) }
    {
        self.len() == 0
    }

    /// The data type, which is the one of texts with offsets of this width.
    pub fn dtype(&self) -> ArrowDataType
        ensures dtype { result ≡ offset_type O.IS_LARGE true }
        ensures own { type_fault O.IS_LARGE true result ≡ None }
    {
        Self::default_dtype()
    }

    /// The offsets, one more than there are slots.
    pub fn offsets(&self) -> &Offsets<O>
        ensures { result.now.offsets ≡ self.now.lists.offsets }
    {
        self.array.offsets()
    }

    /// The value bytes, as many as the last offset says.
    pub fn values(&self) -> &Vec<u8>
        ensures { result.now.items ≡ self.now.lists.values }
    {
        self.array.values()
    }

    /// None: no slot is null.
    pub fn validity(&self) -> Option<&MutableBitmap>
        ensures result { result ≡ None }
        ensures flags { self.now.lists.flags ≡ None }
    {
        self.known();
        None
    }

    /// For how many slots there is memory.
    pub fn capacity(&self) -> usize
        ensures { result ≡ slot_count self.now.lists + self.now.spare_slots }
    {
        self.array.capacity()
    }

    /// The text of slot `i`.
    #[tactic(auto, using(crate::proofs::BuilderLemmas::text_of))]
    pub fn value(&self, i: usize) -> &str
        requires { i < slot_count self.now.lists }
        ensures { result.now ≡ (slot_at (offset_slots self.now.lists) i).bytes }
    {
        self.known();
        str_of(self.array.value(i))
    }

    /// The same as [`MutableUtf8ValuesArray::value`].
    pub fn value_unchecked(&self, i: usize) -> &str
        requires { i < slot_count self.now.lists }
        ensures { result.now ≡ (slot_at (offset_slots self.now.lists) i).bytes }
    {
        self.value(i)
    }

    /// The lists: the data type, the offsets and the value bytes. Takes no memory.
    pub fn into_inner(self) -> (ArrowDataType, Offsets<O>, Vec<u8>)
        ensures dtype { result.0 ≡ offset_type O.IS_LARGE true }
        ensures own { type_fault O.IS_LARGE true result.0 ≡ None }
        ensures lists { offset_lists result.1.offsets result.2.items None ≡ self.lists }
        ensures full { AreFullLists self.lists }
        ensures texts { AreTexts self.lists }
    {
        let MutableUtf8ValuesArray { array } = self;
        let (_, offsets, values) = array.into_inner();
        (Self::default_dtype(), offsets, values)
    }

    /// The same slots in a builder that takes nulls. Takes no memory.
    pub fn into_nullable(self) -> MutableUtf8Array<O>
        ensures same { result ≡ self }
        ensures flags { result.lists.flags ≡ None }
    {
        let MutableUtf8ValuesArray { array } = self;
        MutableUtf8Array::of(array.into_nullable())
    }

    /// The array of these slots, whose offsets and value bytes are not copied. It has no validity.
    ///
    /// `NoMemory` where there is none for the counts of owners.
    #[tactic(auto, using(crate::proofs::BuilderLemmas::texts_values))]
    pub fn freeze(self) -> Result<Utf8Array<O>, PolarsError>
        ensures answer { Answers result None (λ a. a ≡ self.lists) }
        ensures flags { self.lists.flags ≡ None }
    {
        let MutableUtf8ValuesArray { array } = self;
        array.known();
        let array = array.freeze()?;
        array.known();
        Ok(Utf8Array::of(array))
    }

    /// Gives back memory that no slot needs, where the allocator takes it.
    pub fn shrink_to_fit(&mut self)
        ensures { self.new.lists ≡ self.old.lists }
    {
        self.array.shrink_to_fit();
    }
}

// ---- a slot more, a slot less

impl<O: Offset> MutableUtf8ValuesArray<O> {
    /// Makes room for `additional` more slots of `additional_values` bytes together.
    ///
    /// `NoMemory` where there is none for them, and never where the room is there.
    pub fn reserve(
        &mut self,
        additional: usize,
        additional_values: usize,
    ) -> Result<(), PolarsError>
        ensures answer { Answers result None (λ _. (additional ≤ self.new.spare_slots) × (additional_values ≤ self.new.spare_bytes)) }
        ensures spare_serves { additional ≤ self.old.spare_slots → additional_values ≤ self.old.spare_bytes → IsOk result }
        ensures spare_kept { KeepsSpare self.old self.new }
        ensures same { self.new.lists ≡ self.old.lists }
    {
        self.array.reserve(additional, additional_values)
    }

    /// Adds a slot of this text.
    ///
    /// `Overflow` where the new last offset passes the type, then `NoMemory` where there is none for the slot, and
    /// never where there is room.
    #[tactic(auto, using(crate::proofs::BuilderLemmas::texts_value))]
    pub fn push(&mut self, value: &str) -> Result<(), PolarsError>
        ensures answer { Answers result (row_fault O.GREATEST self.old.lists (Some value.now)) (λ _. self.new.lists ≡ pushed_row self.old.lists (Some value.now)) }
        ensures spare_serves { 1 ≤ self.old.spare_slots → length value.now ≤ self.old.spare_bytes → Gives result (row_fault O.GREATEST self.old.lists (Some value.now)) (λ _. ⊤) }
        ensures spare_left { OnOk result ((self.old.spare_slots ≤ self.new.spare_slots + 1) × (self.old.spare_bytes ≤ self.new.spare_bytes + length value.now)) }
        ensures spare_kept { OnErr result (KeepsSpare self.old self.new) }
        ensures unchanged { OnErr result (self.new.lists ≡ self.old.lists) }
        ensures untouched { result ≡ Err (error_of Overflow) → self.new ≡ self.old }
    {
        self.array.known();
        self.array.push(value.as_bytes())?;
        Ok(())
    }

    /// Adds a slot without bytes.
    ///
    /// `NoMemory` where there is none for the slot, and never where there is room.
    #[tactic(auto, using(crate::proofs::BuilderLemmas::texts_value))]
    pub fn push_null(&mut self) -> Result<(), PolarsError>
        ensures answer { Answers result None (λ _. self.new.lists ≡ pushed_row self.old.lists (Some [])) }
        ensures spare_serves { 1 ≤ self.old.spare_slots → IsOk result }
        ensures spare_left { OnOk result ((self.old.spare_slots ≤ self.new.spare_slots + 1) × (self.old.spare_bytes ≤ self.new.spare_bytes)) }
        ensures spare_kept { OnErr result (KeepsSpare self.old self.new) }
        ensures unchanged { OnErr result (self.new.lists ≡ self.old.lists) }
    {
        self.array.known();
        self.array.push_null()?;
        Ok(())
    }

    /// Takes the last slot, and gives its text: None exactly where there is none.
    ///
    /// `NoMemory` where there is none for the text, and the slot stays.
    #[tactic(auto, using(crate::proofs::BuilderLemmas::texts_first, crate::proofs::BuilderLemmas::last_text))]
    pub fn pop(&mut self) -> Result<Option<String>, PolarsError>
        ensures answer { Answers result None (λ row. (option_map string_bytes row ≡ last_row self.old.lists) × (self.new.lists ≡ first_slots self.old.lists (slot_count self.old.lists - 1))) }
        ensures none { IfOk result (λ row. MatchOption row (slot_count self.old.lists ≡ 0) (λ _. 0 < slot_count self.old.lists)) }
        ensures spare_kept { KeepsSpare self.old self.new }
        ensures unchanged { OnErr result (self.new.lists ≡ self.old.lists) }
    {
        self.array.known();
        match self.array.pop()? {
            Some(bytes) => Ok(Some(string_of(bytes))),
            None => Ok(None),
        }
    }

    /// Adds the slots of another builder: one copy of its value bytes, and its offsets in one pass.
    ///
    /// `Overflow` where the new last offset passes the type, then `NoMemory` where there is none for the slots.
    #[tactic(auto, using(crate::proofs::BuilderLemmas::texts_joined))]
    pub fn try_extend_from_self(&mut self, other: &Self) -> Result<(), PolarsError>
        ensures answer { Answers result (join_fault O.GREATEST self.old.lists other.now.lists) (λ _. self.new.lists ≡ joined_lists self.old.lists other.now.lists) }
        ensures spare_kept { OnErr result (KeepsSpare self.old self.new) }
        ensures unchanged { OnErr result (self.new.lists ≡ self.old.lists) }
        ensures untouched { result ≡ Err (error_of Overflow) → self.new ≡ self.old }
    {
        self.array.known();
        other.known();
        self.array.try_extend_from_self(&other.array)?;
        Ok(())
    }
}

impl<O: Offset> Growing for MutableUtf8ValuesArray<O> {
    ghost use Rattle.column_binary.specs.Rows.{row_growth};

    // seen as the lists of an array
    type Lists = Utf8Array<O>;

    // seen as the bytes of a valid row
    type Row = Option<Buffer<u8>>;

    ghost lists = { λ b. b.lists };

    ghost growth = { row_growth O.GREATEST };
}

impl<O: Offset> TryExtendFromSelf for MutableUtf8ValuesArray<O> {
    ghost use Rattle.std.specs.Prelude.{⊤};
    ghost use Rattle.column_binary.specs.Rows.{joined_lists, join_fault};

    ghost fits = { λ _ _. ⊤ };

    ghost join_fault = { join_fault O.GREATEST };

    ghost joined = { joined_lists };

    fn try_extend_from_self(&mut self, other: &Self) -> Result<(), PolarsError> {
        MutableUtf8ValuesArray::try_extend_from_self(self, other)
    }
}

impl<'b, O: Offset> TryPush<&'b str> for MutableUtf8ValuesArray<O> {
    ghost use Rattle.std.specs.Prelude.{Some};

    ghost shown = { λ text. Some text.now };

    fn try_push(&mut self, item: &'b str) -> Result<(), PolarsError> {
        self.push(item)
    }
}

impl<O: Offset> MutableArray for MutableUtf8ValuesArray<O> {
    ghost use Rattle.std.specs.Prelude.{◌≤◌, true, [], Some};
    ghost use Rattle.column_binary.specs.Types.{offset_type};
    ghost use Rattle.column_binary.specs.Slots.{slot_count};

    ghost data_type = { λ _. offset_type O.IS_LARGE true };

    ghost slot_count = { λ lists. slot_count lists };

    ghost flags = { λ lists. lists.flags };

    ghost null = { Some [] };

    ghost has_room = { λ b additional. additional ≤ b.spare_slots };

    fn dtype(&self) -> ArrowDataType {
        MutableUtf8ValuesArray::dtype(self)
    }

    fn len(&self) -> usize {
        MutableUtf8ValuesArray::len(self)
    }

    fn validity(&self) -> Option<&MutableBitmap> {
        MutableUtf8ValuesArray::validity(self)
    }

    fn push_null(&mut self) -> Result<(), PolarsError> {
        MutableUtf8ValuesArray::push_null(self)
    }

    fn reserve_slots(&mut self, additional: usize) -> Result<(), PolarsError> {
        self.reserve(additional, 0)
    }

    fn shrink_to_fit(&mut self) {
        MutableUtf8ValuesArray::shrink_to_fit(self);
    }
}
