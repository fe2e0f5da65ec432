//! The builder of byte strings without nulls.

ghost use Rattle.std.specs.Prelude.{◌≡◌, ◌+◌, ◌^◌, ◌-◌, ◌<◌, ◌≤◌, ◌≤ℤ◌, ◌==◌, pos, false, [], length, option_map, None, Some, ⊤, OnOk, OnErr, IsOk, IfOk, MatchOption, Err};
ghost use Rattle.column_base.specs.declared.errors.Cause.TheVariants.{Overflow};
ghost use Rattle.column_base.specs.Answers.{Gives, Answers};
ghost use Rattle.column_base.specs.Errors.{error_of};
ghost use Rattle.column_base.specs.Slots.{slot_at};
ghost use Rattle.column_offset.specs.Offsets.{last_of};
ghost use Rattle.column_binary.specs.Types.{offset_type, type_fault};
ghost use Rattle.column_binary.specs.Slots.{offset_lists, slot_count, offset_slots};
ghost use Rattle.column_binary.specs.Rows.{AreFullLists, KeepsSpare, no_slots, pushed_row, row_fault, first_slots, last_row, joined_lists, join_fault, builder_fault};

use crate::array::BinaryArray;
use crate::builder::MutableBinaryArray;
use column_base::{ArrowDataType, Growing, Offset, PolarsError, TryExtendFromSelf, TryPush};
use column_offset::Offsets;
use column_storage::{Buffer, MutableArray, MutableBitmap};
use std::alloc::Global;
use std::marker::Model;

/// A column of byte strings that grows, semantically a `Vec<Vec<u8>>`.
///
/// A [`MutableBinaryArray`] that has no validity; a null is pushed as an empty value.
#[derive(Drop)]
pub struct MutableBinaryValuesArray<O: Offset> {
    array: MutableBinaryArray<O>,
}

impl<O: Offset> Model for MutableBinaryValuesArray<O> {
    ghost use Rattle.std.specs.Prelude.{◌≡◌, None};
    ghost use Rattle.column_binary.specs.Rows.{GrowingLists};

    ghost Value = { GrowingLists };

    ghost view = { λ b. b.array };

    ghost invariant = { λ b. b.array.lists.flags ≡ None };
}

// ---- constructors

impl<O: Offset> MutableBinaryValuesArray<O> {
    /// No slots.
    ///
    /// `NoMemory` where there is none for the one offset.
    pub fn new(alloc: Global) -> Result<Self, PolarsError>
        ensures { Answers result None (λ b. b.lists ≡ no_slots) }
    {
        Self::with_capacities(alloc, 0, 0)
    }

    /// No slots, with room for `capacity` slots.
    ///
    /// `NoMemory` where there is none for them.
    pub fn with_capacity(alloc: Global, capacity: usize) -> Result<Self, PolarsError>
        ensures { Answers result None (λ b. (b.lists ≡ no_slots) × (capacity ≤ b.spare_slots)) }
    {
        Self::with_capacities(alloc, capacity, 0)
    }

    /// No slots, with room for `capacity` slots of `values` bytes together.
    ///
    /// `NoMemory` where there is none for them.
    pub fn with_capacities(
        alloc: Global,
        capacity: usize,
        values: usize,
    ) -> Result<Self, PolarsError>
        ensures { Answers result None (λ b. (b.lists ≡ no_slots) × (capacity ≤ b.spare_slots) × (values ≤ b.spare_bytes)) }
    {
        let array = MutableBinaryArray::with_capacities(alloc, capacity, values)?;
        Ok(MutableBinaryValuesArray { array })
    }

    /// The builder of these lists. Takes no memory.
    ///
    /// The first that stands of `OffsetsExceedValues` where the last offset is greater than the number of value bytes,
    /// `OffsetsNotFull` where it is less, and `WrongDataType` where the data type lies in another physical type.
    pub fn try_new(
        dtype: ArrowDataType,
        offsets: Offsets<O>,
        values: Vec<u8>,
    ) -> Result<Self, PolarsError>
        ensures { let lists = offset_lists offsets.offsets values.items None in Gives result (builder_fault lists (type_fault O.IS_LARGE false dtype)) (λ b. b.lists ≡ lists) }
    {
        let array = MutableBinaryArray::try_new(dtype, offsets, values, None)?;
        Ok(MutableBinaryValuesArray { array })
    }

    /// The data type of byte strings with offsets of this width.
    pub fn default_dtype() -> ArrowDataType
        ensures dtype { result ≡ offset_type O.IS_LARGE false }
        ensures own { type_fault O.IS_LARGE false result ≡ None }
    {
        BinaryArray::<O>::default_dtype()
    }

    /// A copy of the builder.
    ///
    /// `NoMemory` where there is none for it.
    pub fn try_clone(&self) -> Result<Self, PolarsError>
        ensures { Answers result None (λ b. b.lists ≡ self.now.lists) }
    {
        let array = self.array.try_clone()?;
        Ok(MutableBinaryValuesArray { array })
    }
}

// ---- readers

impl<O: Offset> MutableBinaryValuesArray<O> {
    /// Tells proofs what [`MutableBinaryArray::known`] does, and that there is no validity.
    pub fn known(&self)
        ensures full { AreFullLists self.now.lists }
        ensures within_type { last_of self.now.lists.offsets ≤ℤ pos O.GREATEST }
        ensures count { length (offset_slots self.now.lists) ≡ slot_count self.now.lists }
        ensures fits { slot_count self.now.lists + 1 < 2 ^ 64 }
        ensures flags { self.now.lists.flags ≡ None }
    {
        self.array.known();
    }

    /// The number of slots.
    pub fn len(&self) -> usize
        ensures slots { result ≡ length (offset_slots self.now.lists) }
        ensures count { result ≡ slot_count self.now.lists }
    {
        self.array.len()
    }

    /// Whether there is no slot.
    pub fn is_empty(&self) -> bool
        ensures { result ≡ (slot_count self.now.lists == 0) }
    {
        self.len() == 0
    }

    /// The data type, which is the one of byte strings with offsets of this width.
    pub fn dtype(&self) -> ArrowDataType
        ensures dtype { result ≡ offset_type O.IS_LARGE false }
        ensures own { type_fault O.IS_LARGE false result ≡ None }
    {
        Self::default_dtype()
    }

    /// The offsets, one more than there are slots.
    pub fn offsets(&self) -> &Offsets<O>
        ensures { result.now.offsets ≡ self.now.lists.offsets }
    {
        self.array.offsets()
    }

    /// The value bytes, as many as the last offset says.
    pub fn values(&self) -> &Vec<u8>
        ensures { result.now.items ≡ self.now.lists.values }
    {
        self.array.values()
    }

    /// None: no slot is null.
    pub fn validity(&self) -> Option<&MutableBitmap>
        ensures result { result ≡ None }
        ensures flags { self.now.lists.flags ≡ None }
    {
        self.known();
        None
    }

    /// For how many slots there is memory.
    pub fn capacity(&self) -> usize
        ensures { result ≡ slot_count self.now.lists + self.now.spare_slots }
    {
        self.array.capacity()
    }

    /// The bytes of slot `i`.
    pub fn value(&self, i: usize) -> &[u8]
        requires { i < slot_count self.now.lists }
        ensures { result.now ≡ (slot_at (offset_slots self.now.lists) i).bytes }
    {
        self.array.value(i)
    }

    /// The same as [`MutableBinaryValuesArray::value`].
    pub fn value_unchecked(&self, i: usize) -> &[u8]
        requires { i < slot_count self.now.lists }
        ensures { result.now ≡ (slot_at (offset_slots self.now.lists) i).bytes }
    {
        self.value(i)
    }

    /// The lists: the data type, the offsets and the value bytes. Takes no memory.
    pub fn into_inner(self) -> (ArrowDataType, Offsets<O>, Vec<u8>)
        ensures dtype { result.0 ≡ offset_type O.IS_LARGE false }
        ensures own { type_fault O.IS_LARGE false result.0 ≡ None }
        ensures lists { offset_lists result.1.offsets result.2.items None ≡ self.lists }
        ensures full { AreFullLists self.lists }
    {
        self.known();
        let (dtype, offsets, values, _) = self.array.into_inner();
        (dtype, offsets, values)
    }

    /// The same slots in a builder that takes nulls. Takes no memory.
    pub fn into_nullable(self) -> MutableBinaryArray<O>
        ensures same { result ≡ self }
        ensures flags { result.lists.flags ≡ None }
    {
        let MutableBinaryValuesArray { array } = self;
        array
    }

    /// The array of these slots, whose offsets and value bytes are not copied. It has no validity.
    ///
    /// `NoMemory` where there is none for the counts of owners.
    #[tactic(auto, using(crate::proofs::ValuesLemmas::values))]
    pub fn freeze(self) -> Result<BinaryArray<O>, PolarsError>
        ensures answer { Answers result None (λ a. a ≡ self.lists) }
        ensures flags { self.lists.flags ≡ None }
    {
        self.known();
        self.array.freeze()
    }

    /// Gives back memory that no slot needs, where the allocator takes it.
    pub fn shrink_to_fit(&mut self)
        ensures { self.new.lists ≡ self.old.lists }
    {
        self.array.shrink_to_fit();
    }
}

// ---- a slot more, a slot less

#[tactic(auto, using(crate::proofs::ValuesLemmas::values))]
impl<O: Offset> MutableBinaryValuesArray<O> {
    /// Makes room for `additional` more slots of `additional_values` bytes together.
    ///
    /// `NoMemory` where there is none for them, and never where the room is there.
    pub fn reserve(
        &mut self,
        additional: usize,
        additional_values: usize,
    ) -> Result<(), PolarsError>
        ensures answer { Answers result None (λ _. (additional ≤ self.new.spare_slots) × (additional_values ≤ self.new.spare_bytes)) }
        ensures spare_serves { additional ≤ self.old.spare_slots → additional_values ≤ self.old.spare_bytes → IsOk result }
        ensures spare_kept { KeepsSpare self.old self.new }
        ensures same { self.new.lists ≡ self.old.lists }
    {
        self.array.reserve(additional, additional_values)
    }

    /// Adds a slot of these bytes.
    ///
    /// `Overflow` where the new last offset passes the type, then `NoMemory` where there is none for the slot, and
    /// never where there is room.
    pub fn push(&mut self, value: &[u8]) -> Result<(), PolarsError>
        ensures answer { Answers result (row_fault O.GREATEST self.old.lists (Some value.now)) (λ _. self.new.lists ≡ pushed_row self.old.lists (Some value.now)) }
        ensures spare_serves { 1 ≤ self.old.spare_slots → length value.now ≤ self.old.spare_bytes → Gives result (row_fault O.GREATEST self.old.lists (Some value.now)) (λ _. ⊤) }
        ensures spare_left { OnOk result ((self.old.spare_slots ≤ self.new.spare_slots + 1) × (self.old.spare_bytes ≤ self.new.spare_bytes + length value.now)) }
        ensures spare_kept { OnErr result (KeepsSpare self.old self.new) }
        ensures unchanged { OnErr result (self.new.lists ≡ self.old.lists) }
        ensures untouched { result ≡ Err (error_of Overflow) → self.new ≡ self.old }
    {
        self.array.push_value(value)
    }

    /// Adds a slot without bytes.
    ///
    /// `NoMemory` where there is none for the slot, and never where there is room.
    pub fn push_null(&mut self) -> Result<(), PolarsError>
        ensures answer { Answers result None (λ _. self.new.lists ≡ pushed_row self.old.lists (Some [])) }
        ensures spare_serves { 1 ≤ self.old.spare_slots → IsOk result }
        ensures spare_left { OnOk result ((self.old.spare_slots ≤ self.new.spare_slots + 1) × (self.old.spare_bytes ≤ self.new.spare_bytes)) }
        ensures spare_kept { OnErr result (KeepsSpare self.old self.new) }
        ensures unchanged { OnErr result (self.new.lists ≡ self.old.lists) }
    {
        let _last = self.array.offsets().last().to_usize();
        self.push(&[])
    }

    /// Takes the last slot, and gives its bytes: None exactly where there is none.
    ///
    /// `NoMemory` where there is none for the bytes, and the slot stays.
    pub fn pop(&mut self) -> Result<Option<Vec<u8>>, PolarsError>
        ensures answer { Answers result None (λ row. (option_map (λ bytes. bytes.items) row ≡ last_row self.old.lists) × (self.new.lists ≡ first_slots self.old.lists (slot_count self.old.lists - 1))) }
        ensures none { IfOk result (λ row. MatchOption row (slot_count self.old.lists ≡ 0) (λ _. 0 < slot_count self.old.lists)) }
        ensures spare_kept { KeepsSpare self.old self.new }
        ensures unchanged { OnErr result (self.new.lists ≡ self.old.lists) }
    {
        self.array.known();
        self.array.pop()
    }

    /// Adds the slots of another builder: one copy of its value bytes, and its offsets in one pass.
    ///
    /// `Overflow` where the new last offset passes the type, then `NoMemory` where there is none for the slots.
    pub fn try_extend_from_self(&mut self, other: &Self) -> Result<(), PolarsError>
        ensures answer { Answers result (join_fault O.GREATEST self.old.lists other.now.lists) (λ _. self.new.lists ≡ joined_lists self.old.lists other.now.lists) }
        ensures spare_kept { OnErr result (KeepsSpare self.old self.new) }
        ensures unchanged { OnErr result (self.new.lists ≡ self.old.lists) }
        ensures untouched { result ≡ Err (error_of Overflow) → self.new ≡ self.old }
    {
        self.array.try_extend_from_self(&other.array)
    }
}

impl<O: Offset> Growing for MutableBinaryValuesArray<O> {
    ghost use Rattle.column_binary.specs.Rows.{row_growth};

    // seen as the lists of an array
    type Lists = BinaryArray<O>;

    // seen as the bytes of a valid row
    type Row = Option<Buffer<u8>>;

    ghost lists = { λ b. b.lists };

    ghost growth = { row_growth O.GREATEST };
}

impl<O: Offset> TryExtendFromSelf for MutableBinaryValuesArray<O> {
    ghost use Rattle.std.specs.Prelude.{⊤};
    ghost use Rattle.column_binary.specs.Rows.{joined_lists, join_fault};

    ghost fits = { λ _ _. ⊤ };

    ghost join_fault = { join_fault O.GREATEST };

    ghost joined = { joined_lists };

    fn try_extend_from_self(&mut self, other: &Self) -> Result<(), PolarsError> {
        MutableBinaryValuesArray::try_extend_from_self(self, other)
    }
}

impl<'b, O: Offset> TryPush<&'b [u8]> for MutableBinaryValuesArray<O> {
    ghost use Rattle.std.specs.Prelude.{Some};

    ghost shown = { λ bytes. Some bytes.now };

    fn try_push(&mut self, item: &'b [u8]) -> Result<(), PolarsError> {
        self.push(item)
    }
}

impl<O: Offset> MutableArray for MutableBinaryValuesArray<O> {
    ghost use Rattle.std.specs.Prelude.{◌≤◌, false, [], Some};
    ghost use Rattle.column_binary.specs.Types.{offset_type};
    ghost use Rattle.column_binary.specs.Slots.{slot_count};

    ghost data_type = { λ _. offset_type O.IS_LARGE false };

    ghost slot_count = { λ lists. slot_count lists };

    ghost flags = { λ lists. lists.flags };

    ghost null = { Some [] };

    ghost has_room = { λ b additional. additional ≤ b.spare_slots };

    fn dtype(&self) -> ArrowDataType {
        MutableBinaryValuesArray::dtype(self)
    }

    fn len(&self) -> usize {
        MutableBinaryValuesArray::len(self)
    }

    fn validity(&self) -> Option<&MutableBitmap> {
        MutableBinaryValuesArray::validity(self)
    }

    fn push_null(&mut self) -> Result<(), PolarsError> {
        MutableBinaryValuesArray::push_null(self)
    }

    fn reserve_slots(&mut self, additional: usize) -> Result<(), PolarsError> {
        self.reserve(additional, 0)
    }

    fn shrink_to_fit(&mut self) {
        MutableBinaryValuesArray::shrink_to_fit(self);
    }
}
