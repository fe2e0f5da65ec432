//! The builder of byte strings with offsets: how it is made, read and changed.

ghost use Rattle.std.specs.Prelude.{◌≡◌, ◌+◌, ◌^◌, ◌-◌, ◌<◌, ◌≤◌, ◌≤ℤ◌, ◌+ℤ◌, ◌==◌, pos, false, length, option_map, None, Some, ⊤, OnOk, OnErr, IsOk, IfSome, MatchOption, Err};
ghost use Rattle.std.specs.List.{concat};
ghost use Rattle.std.specs.Option.{option_copied};
ghost use Rattle.column_base.specs.declared.errors.Cause.TheVariants.{Overflow};
ghost use Rattle.column_base.specs.Answers.{Gives, Answers};
ghost use Rattle.column_base.specs.Errors.{error_of};
ghost use Rattle.column_base.specs.Slots.{slot_at, row_of};
ghost use Rattle.column_storage.specs.Bits.{GrowingBits, bits_given};
ghost use Rattle.column_storage.specs.Validity.{AreFlagsOf};
ghost use Rattle.column_offset.specs.Growth.{limit_fault};
ghost use Rattle.column_offset.specs.Offsets.{last_of};
ghost use Rattle.column_offset.specs.Text.{pieces};
ghost use Rattle.column_binary.specs.Types.{offset_type, type_fault};
ghost use Rattle.column_binary.specs.Slots.{offset_lists, slot_count, offset_slots};
ghost use Rattle.column_binary.specs.Rows.{AreFullLists, KeepsSpare, no_slots, pushed_row, row_fault, first_slots, last_row, frozen_lists, joined_lists, join_fault, builder_fault};

use crate::array::BinaryArray;
use crate::types::check_offset_type;
use column_base::{ArrowDataType, Cause, Growing, Offset, PolarsError, TryExtendFromSelf, TryPush};
use column_offset::{Offsets, OffsetsBuffer, try_check_offsets_bounds};
use column_storage::{
    Buffer, MutableArray, MutableBitmap, add_flags, apply_flags, check_flags, clone_flags, flag_at,
    freeze_flags, pop_flag, push_null_flag, push_valid_flag, reserve_flags, room_for_flags,
    shrink_flags,
};
use std::alloc::Global;
use std::marker::Model;

/// A column of optional byte strings that grows, semantically a `Vec<Option<Vec<u8>>>`.
///
/// It keeps its allocator. The offsets are sound, the last is the number of value bytes, and a validity that is there
/// has a flag for each slot; it is made at the first null. A refused call leaves the slots as they were, and at least
/// the room that there was. Arrow columnar format, "Variable-size Binary Layout".
#[derive(Drop)]
pub struct MutableBinaryArray<O: Offset> {
    offsets: Offsets<O>,
    values: Vec<u8>,
    validity: Option<MutableBitmap>,
}

impl<O: Offset> Model for MutableBinaryArray<O> {
    ghost use Rattle.std.specs.Prelude.{◌-◌};
    ghost use Rattle.std.specs.Vec.{vec_len, vec_capacity};
    ghost use Rattle.column_storage.specs.Bits.{bits_given, spare_beside};
    ghost use Rattle.column_binary.specs.Slots.{offset_lists};
    ghost use Rattle.column_binary.specs.Rows.{GrowingLists, AreFullLists};

    ghost Value = { GrowingLists };

    ghost view = { λ b. record {
      lists = offset_lists b.offsets.offsets b.values.items (bits_given b.validity);
      spare_slots = spare_beside b.validity b.offsets.spare;
      spare_bytes = vec_capacity b.values - vec_len b.values;
    } };

    ghost invariant = { λ b. AreFullLists (offset_lists b.offsets.offsets b.values.items (bits_given b.validity)) };
}

// ---- constructors

impl<O: Offset> MutableBinaryArray<O> {
    /// No slots.
    ///
    /// `NoMemory` where there is none for the one offset.
    pub fn new(alloc: Global) -> Result<Self, PolarsError>
        ensures { Answers result None (λ b. b.lists ≡ no_slots) }
    {
        Self::with_capacities(alloc, 0, 0)
    }

    /// No slots, with room for `capacity` slots.
    ///
    /// `NoMemory` where there is none for them.
    pub fn with_capacity(alloc: Global, capacity: usize) -> Result<Self, PolarsError>
        ensures { Answers result None (λ b. (b.lists ≡ no_slots) × (capacity ≤ b.spare_slots)) }
    {
        Self::with_capacities(alloc, capacity, 0)
    }

    /// No slots, with room for `capacity` slots of `values` bytes together.
    ///
    /// `NoMemory` where there is none for them.
    pub fn with_capacities(
        alloc: Global,
        capacity: usize,
        values: usize,
    ) -> Result<Self, PolarsError>
        ensures { Answers result None (λ b. (b.lists ≡ no_slots) × (capacity ≤ b.spare_slots) × (values ≤ b.spare_bytes)) }
    {
        Ok(MutableBinaryArray {
            offsets: Offsets::with_capacity(alloc, capacity)?,
            values: Vec::with_capacity(alloc, values)?,
            validity: None,
        })
    }

    /// The builder of these lists. Takes no memory.
    ///
    /// The first that stands of `OffsetsExceedValues` where the last offset is greater than the number of value bytes,
    /// `OffsetsNotFull` where it is less, `WrongDataType` where the data type lies in another physical type, and
    /// `ValidityLength` where a validity is given whose length is not the number of slots.
    #[tactic(auto, using(crate::proofs::FirstLemmas::fine))]
    pub fn try_new(
        dtype: ArrowDataType,
        offsets: Offsets<O>,
        values: Vec<u8>,
        validity: Option<MutableBitmap>,
    ) -> Result<Self, PolarsError>
        ensures { let lists = offset_lists offsets.offsets values.items (bits_given validity) in Gives result (builder_fault lists (type_fault O.IS_LARGE false dtype)) (λ b. b.lists ≡ lists) }
    {
        try_check_offsets_bounds(offsets.as_slice(), values.len())?;
        if offsets.last().to_usize() < values.len() {
            return Err(Cause::OffsetsNotFull.into());
        }
        check_offset_type(dtype, O::IS_LARGE, false)?;
        check_flags(validity.as_ref(), offsets.len_proxy())?;
        Ok(MutableBinaryArray {
            offsets,
            values,
            validity,
        })
    }

    // The builder of these lists, without a look at them. Takes no memory.
    pub(crate) fn of(offsets: Offsets<O>, values: Vec<u8>, validity: Option<MutableBitmap>) -> Self
        requires { AreFullLists (offset_lists offsets.offsets values.items (bits_given validity)) }
        ensures { result.lists ≡ offset_lists offsets.offsets values.items (bits_given validity) }
    {
        MutableBinaryArray {
            offsets,
            values,
            validity,
        }
    }

    /// The data type of byte strings with offsets of this width.
    pub fn default_dtype() -> ArrowDataType
        ensures dtype { result ≡ offset_type O.IS_LARGE false }
        ensures own { type_fault O.IS_LARGE false result ≡ None }
    {
        BinaryArray::<O>::default_dtype()
    }

    /// A copy of the builder.
    ///
    /// `NoMemory` where there is none for it.
    pub fn try_clone(&self) -> Result<Self, PolarsError>
        ensures { Answers result None (λ b. b.lists ≡ self.now.lists) }
    {
        let offsets = self.offsets.try_clone()?;
        let values = Vec::from_slice(*self.values.allocator(), &self.values)?;
        let validity = clone_flags(self.validity.as_ref())?;
        Ok(MutableBinaryArray {
            offsets,
            values,
            validity,
        })
    }
}

// ---- readers

impl<O: Offset> MutableBinaryArray<O> {
    /// Tells proofs that the lists are sound and the last offset is the number of value bytes, that there are as many
    /// slots as are counted, that one more is a `usize`, and that the last offset, and so each, is a value of its type.
    #[tactic(auto, using(crate::proofs::SlotsLemmas::counts))]
    pub fn known(&self)
        ensures full { AreFullLists self.now.lists }
        ensures within_type { last_of self.now.lists.offsets ≤ℤ pos O.GREATEST }
        ensures count { length (offset_slots self.now.lists) ≡ slot_count self.now.lists }
        ensures fits { slot_count self.now.lists + 1 < 2 ^ 64 }
    {
        self.offsets.known();
        let _count = self.offsets.len();
        let _values = &self.values;
    }

    /// The number of slots.
    #[tactic(auto, using(crate::proofs::SlotsLemmas::counts))]
    pub fn len(&self) -> usize
        ensures slots { result ≡ length (offset_slots self.now.lists) }
        ensures count { result ≡ slot_count self.now.lists }
    {
        self.offsets.len_proxy()
    }

    /// Whether there is no slot.
    pub fn is_empty(&self) -> bool
        ensures { result ≡ (slot_count self.now.lists == 0) }
    {
        self.len() == 0
    }

    /// The data type, which is the one of byte strings with offsets of this width.
    pub fn dtype(&self) -> ArrowDataType
        ensures dtype { result ≡ offset_type O.IS_LARGE false }
        ensures own { type_fault O.IS_LARGE false result ≡ None }
    {
        Self::default_dtype()
    }

    /// The offsets, one more than there are slots.
    pub fn offsets(&self) -> &Offsets<O>
        ensures { result.now.offsets ≡ self.now.lists.offsets }
    {
        &self.offsets
    }

    /// The value bytes, as many as the last offset says.
    pub fn values(&self) -> &Vec<u8>
        ensures { result.now.items ≡ self.now.lists.values }
    {
        &self.values
    }

    /// The validity, where one was made or given.
    pub fn validity(&self) -> Option<&MutableBitmap>
        ensures { bits_given (option_copied result) ≡ self.now.lists.flags }
    {
        self.validity.as_ref()
    }

    /// For how many slots there is memory.
    #[tactic(auto, using(crate::proofs::FirstLemmas::room))]
    pub fn capacity(&self) -> usize
        ensures { result ≡ slot_count self.now.lists + self.now.spare_slots }
    {
        let capacity = self.offsets.capacity();
        match &self.validity {
            Some(bits) => capacity.min(bits.capacity()),
            None => capacity,
        }
    }

    /// Whether slot `i` is valid.
    #[tactic(auto, using(crate::proofs::SlotsLemmas::places))]
    pub fn is_valid(&self, i: usize) -> bool
        requires { i < slot_count self.now.lists }
        ensures { result ≡ (slot_at (offset_slots self.now.lists) i).valid }
    {
        flag_at(self.validity.as_ref(), i)
    }

    /// The bytes of slot `i`; a null slot that was not pushed may have bytes too.
    #[tactic(auto, using(crate::proofs::SlotsLemmas::places))]
    pub fn value(&self, i: usize) -> &[u8]
        requires { i < slot_count self.now.lists }
        ensures { result.now ≡ (slot_at (offset_slots self.now.lists) i).bytes }
    {
        let (start, end) = self.offsets.start_end(i);
        &self.values[start..end]
    }

    /// The same as [`MutableBinaryArray::value`].
    pub fn value_unchecked(&self, i: usize) -> &[u8]
        requires { i < slot_count self.now.lists }
        ensures { result.now ≡ (slot_at (offset_slots self.now.lists) i).bytes }
    {
        self.value(i)
    }

    /// The bytes of slot `i`, or None where it is null.
    pub fn get(&self, i: usize) -> Option<&[u8]>
        requires { i < slot_count self.now.lists }
        ensures { option_map (λ bytes. bytes.now) result ≡ row_of (slot_at (offset_slots self.now.lists) i) }
    {
        if self.is_valid(i) {
            Some(self.value(i))
        } else {
            None
        }
    }

    /// The lists: the data type, the offsets, the value bytes and the validity. Takes no memory.
    pub fn into_inner(self) -> (ArrowDataType, Offsets<O>, Vec<u8>, Option<MutableBitmap>)
        ensures dtype { result.0 ≡ offset_type O.IS_LARGE false }
        ensures own { type_fault O.IS_LARGE false result.0 ≡ None }
        ensures lists { offset_lists result.1.offsets result.2.items (bits_given result.3) ≡ self.lists }
        ensures full { AreFullLists self.lists }
    {
        let MutableBinaryArray {
            offsets,
            values,
            validity,
        } = self;
        (Self::default_dtype(), offsets, values, validity)
    }

    /// Other flags beside the same bytes, or all slots valid where no validity is given. Takes no memory.
    pub fn with_validity(self, validity: Option<MutableBitmap>) -> Self
        requires { AreFlagsOf (slot_count self.lists) (bits_given validity) }
        ensures { result.lists ≡ offset_lists self.lists.offsets self.lists.values (bits_given validity) }
    {
        let mut builder = self;
        builder.set_validity(validity);
        builder
    }

    /// Puts other flags in place of those that there were, as [`MutableBinaryArray::with_validity`] does.
    pub fn set_validity(&mut self, validity: Option<MutableBitmap>)
        requires { AreFlagsOf (slot_count self.old.lists) (bits_given validity) }
        ensures { self.new.lists ≡ offset_lists self.old.lists.offsets self.old.lists.values (bits_given validity) }
    {
        self.validity = validity;
    }

    /// Puts what `f` makes of the validity in its place, where there is one. Where there is none, `f` is not called.
    pub fn apply_validity<F: FnOnce(MutableBitmap) -> MutableBitmap>(&mut self, f: F)
        requires can { F.IsAlwaysCallable f }
        requires length { (bits made : GrowingBits) → self.old.lists.flags ≡ Some bits.bits → F.post f bits made → length made.bits ≡ length bits.bits }
        ensures { MatchOption self.old.lists.flags (self.new.lists ≡ self.old.lists) (λ flags. (bits made : GrowingBits) × (bits.bits ≡ flags) × F.post f bits made × (self.new.lists ≡ offset_lists self.old.lists.offsets self.old.lists.values (Some made.bits))) }
    {
        apply_flags(&mut self.validity, f);
    }

    /// Gives back memory that no slot needs, where the allocator takes it.
    pub fn shrink_to_fit(&mut self)
        ensures { self.new.lists ≡ self.old.lists }
    {
        self.offsets.shrink_to_fit();
        self.values.shrink_to_fit();
        shrink_flags(&mut self.validity);
    }

    /// The array of these slots, whose offsets and value bytes are not copied. A validity without a null is dropped.
    ///
    /// In constant time. `NoMemory` where there is none for the counts of owners.
    #[tactic(auto, using(crate::proofs::FirstLemmas::freezing))]
    pub fn freeze(self) -> Result<BinaryArray<O>, PolarsError>
        ensures { Answers result None (λ a. a ≡ frozen_lists self.lists) }
    {
        let MutableBinaryArray {
            offsets,
            values,
            validity,
        } = self;
        let alloc = *values.allocator();
        let offsets = OffsetsBuffer::from_offsets(alloc, offsets)?;
        let values = Buffer::from_vec(alloc, values)?;
        let validity = freeze_flags(validity)?;
        Ok(BinaryArray::new_unchecked(BinaryArray::<O>::default_dtype(), offsets, values, validity))
    }
}

// ---- a slot more, a slot less

impl<O: Offset> MutableBinaryArray<O> {
    /// Makes room for `additional` more slots of `additional_values` bytes together.
    ///
    /// `NoMemory` where there is none for them, and never where the room is there.
    pub fn reserve(
        &mut self,
        additional: usize,
        additional_values: usize,
    ) -> Result<(), PolarsError>
        ensures answer { Answers result None (λ _. (additional ≤ self.new.spare_slots) × (additional_values ≤ self.new.spare_bytes)) }
        ensures spare_serves { additional ≤ self.old.spare_slots → additional_values ≤ self.old.spare_bytes → IsOk result }
        ensures spare_kept { KeepsSpare self.old self.new }
        ensures same { self.new.lists ≡ self.old.lists }
    {
        self.offsets.reserve(additional)?;
        reserve_flags(&mut self.validity, additional)?;
        self.values.reserve(additional_values)?;
        Ok(())
    }

    /// Adds a valid slot of these bytes.
    ///
    /// `Overflow` where the new last offset passes the type, then `NoMemory` where there is none for the slot, and
    /// never where there is room.
    #[tactic(auto, using(crate::proofs::RowsLemmas::rows))]
    pub fn push_value(&mut self, value: &[u8]) -> Result<(), PolarsError>
        ensures answer { Answers result (row_fault O.GREATEST self.old.lists (Some value.now)) (λ _. self.new.lists ≡ pushed_row self.old.lists (Some value.now)) }
        ensures spare_serves { 1 ≤ self.old.spare_slots → length value.now ≤ self.old.spare_bytes → Gives result (row_fault O.GREATEST self.old.lists (Some value.now)) (λ _. ⊤) }
        ensures spare_left { OnOk result ((self.old.spare_slots ≤ self.new.spare_slots + 1) × (self.old.spare_bytes ≤ self.new.spare_bytes + length value.now)) }
        ensures spare_kept { OnErr result (KeepsSpare self.old self.new) }
        ensures unchanged { OnErr result (self.new.lists ≡ self.old.lists) }
        ensures untouched { result ≡ Err (error_of Overflow) → self.new ≡ self.old }
    {
        check_limit(&self.offsets, value.len())?;
        reserve_flags(&mut self.validity, 1)?;
        self.values.reserve(value.len())?;
        self.offsets.try_push(value.len())?;
        self.values.extend_from_slice(value)?;
        push_valid_flag(&mut self.validity);
        Ok(())
    }

    /// Adds a null slot without bytes, and makes a validity where there is none.
    ///
    /// `NoMemory` where there is none for the slot or the validity.
    #[tactic(auto, using(crate::proofs::RowsLemmas::rows))]
    pub fn push_null(&mut self) -> Result<(), PolarsError>
        ensures answer { Answers result None (λ _. self.new.lists ≡ pushed_row self.old.lists None) }
        ensures spare_kept { OnErr result (KeepsSpare self.old self.new) }
        ensures unchanged { OnErr result (self.new.lists ≡ self.old.lists) }
    {
        let count = self.offsets.len_proxy();
        let alloc = *self.values.allocator();
        self.offsets.reserve(1)?;
        push_null_flag(alloc, &mut self.validity, count)?;
        self.offsets.extend_constant(1)?;
        Ok(())
    }

    /// Adds a slot of a row: of its bytes, or a null slot without bytes.
    ///
    /// `Overflow` where the new last offset passes the type, then `NoMemory` where there is none for the slot.
    pub fn push(&mut self, value: Option<&[u8]>) -> Result<(), PolarsError>
        ensures answer { Answers result (row_fault O.GREATEST self.old.lists (option_copied value.entry)) (λ _. self.new.lists ≡ pushed_row self.old.lists (option_copied value.entry)) }
        ensures spare_serves { IfSome value.entry (λ bytes. 1 ≤ self.old.spare_slots → length bytes.now ≤ self.old.spare_bytes → Gives result (row_fault O.GREATEST self.old.lists (Some bytes.now)) (λ _. ⊤)) }
        ensures spare_left { IfSome value.entry (λ bytes. OnOk result ((self.old.spare_slots ≤ self.new.spare_slots + 1) × (self.old.spare_bytes ≤ self.new.spare_bytes + length bytes.now))) }
        ensures spare_kept { OnErr result (KeepsSpare self.old self.new) }
        ensures unchanged { OnErr result (self.new.lists ≡ self.old.lists) }
        ensures untouched { result ≡ Err (error_of Overflow) → self.new ≡ self.old }
    {
        match value {
            Some(bytes) => self.push_value(bytes),
            None => self.push_null(),
        }
    }

    /// Takes the last slot, and gives its bytes: None where it is null, or where there is none.
    ///
    /// `NoMemory` where there is none for the bytes, and the slot stays.
    #[tactic(auto, using(crate::proofs::FirstLemmas::firsts))]
    pub fn pop(&mut self) -> Result<Option<Vec<u8>>, PolarsError>
        ensures answer { Answers result None (λ row. (option_map (λ bytes. bytes.items) row ≡ last_row self.old.lists) × (self.new.lists ≡ first_slots self.old.lists (slot_count self.old.lists - 1))) }
        ensures spare_kept { KeepsSpare self.old self.new }
        ensures unchanged { OnErr result (self.new.lists ≡ self.old.lists) }
    {
        let count = self.len();
        if count == 0 {
            return Ok(None);
        }
        let row = copied_row(*self.values.allocator(), self.get(count - 1))?;
        self.drop_last();
        Ok(row)
    }

    // Takes the last slot.
    #[tactic(auto, using(crate::proofs::FirstLemmas::firsts), unfolding(crate::specs::Rows::first_slots))]
    fn drop_last(&mut self)
        requires { 0 < slot_count self.old.lists }
        ensures slots { self.new.lists ≡ first_slots self.old.lists (slot_count self.old.lists - 1) }
        ensures spare_kept { KeepsSpare self.old self.new }
    {
        let (start, _) = self.offsets.start_end(self.offsets.len_proxy() - 1);
        let _ = self.offsets.pop();
        self.values.truncate(start);
        pop_flag(&mut self.validity);
    }
}

// ---- the slots of another builder

impl<O: Offset> MutableBinaryArray<O> {
    /// Adds the slots of another builder: one copy of its value bytes, and its offsets and flags, each in one pass.
    ///
    /// `Overflow` where the new last offset passes the type, then `NoMemory` where there is none for the slots.
    #[tactic(auto, using(crate::proofs::JoinLemmas::joining), unfolding(crate::specs::Rows::joined_lists))]
    pub fn try_extend_from_self(&mut self, other: &Self) -> Result<(), PolarsError>
        ensures answer { Answers result (join_fault O.GREATEST self.old.lists other.now.lists) (λ _. self.new.lists ≡ joined_lists self.old.lists other.now.lists) }
        ensures spare_kept { OnErr result (KeepsSpare self.old self.new) }
        ensures unchanged { OnErr result (self.new.lists ≡ self.old.lists) }
        ensures untouched { result ≡ Err (error_of Overflow) → self.new ≡ self.old }
    {
        let alloc = *self.values.allocator();
        let count = self.offsets.len_proxy();
        other.known();
        let added = other.len();
        let bytes = other.slot_bytes();
        check_limit(&self.offsets, bytes.len())?;
        self.values.reserve(bytes.len())?;
        let made = room_for_flags(
            alloc,
            &mut self.validity,
            count,
            added,
            other.validity.is_some(),
        )?;
        self.offsets.reserve(added)?;
        self.offsets.try_extend_from_self(&other.offsets)?;
        self.values.extend_from_slice(bytes)?;
        add_flags(&mut self.validity, made, other.validity.as_ref(), added);
        Ok(())
    }

    // The bytes of the slots, end to end.
    #[tactic(auto, using(crate::proofs::JoinLemmas::joining))]
    fn slot_bytes(&self) -> &[u8]
        ensures { result.now ≡ concat (pieces self.now.lists.offsets self.now.lists.values) }
    {
        let start = self.offsets.first().to_usize();
        &self.values[start..]
    }
}

/// Whether a slot of `length` bytes may follow: `Overflow` where the new last offset passes the type.
fn check_limit<O: Offset>(offsets: &Offsets<O>, length: usize) -> Result<(), PolarsError>
    ensures { Gives result (limit_fault O.GREATEST (last_of offsets.now.offsets +ℤ pos length)) (λ _. ⊤) }
{
    if length > O::GREATEST - offsets.last().to_usize() {
        return Err(Cause::Overflow.into());
    }
    Ok(())
}

/// A copy of a row.
fn copied_row(alloc: Global, row: Option<&[u8]>) -> Result<Option<Vec<u8>>, PolarsError>
    ensures { Answers result None (λ copy. option_map (λ bytes. bytes.items) copy ≡ option_copied row.entry) }
{
    match row {
        Some(bytes) => Ok(Some(Vec::from_slice(alloc, bytes)?)),
        None => Ok(None),
    }
}

impl<O: Offset> Growing for MutableBinaryArray<O> {
    ghost use Rattle.column_binary.specs.Rows.{row_growth};

    // seen as the lists of an array
    type Lists = BinaryArray<O>;

    // seen as the bytes of a valid row
    type Row = Option<Buffer<u8>>;

    ghost lists = { λ b. b.lists };

    ghost growth = { row_growth O.GREATEST };
}

impl<O: Offset> TryExtendFromSelf for MutableBinaryArray<O> {
    ghost use Rattle.std.specs.Prelude.{⊤};
    ghost use Rattle.column_binary.specs.Rows.{joined_lists, join_fault};

    ghost fits = { λ _ _. ⊤ };

    ghost join_fault = { join_fault O.GREATEST };

    ghost joined = { joined_lists };

    fn try_extend_from_self(&mut self, other: &Self) -> Result<(), PolarsError> {
        MutableBinaryArray::try_extend_from_self(self, other)
    }
}

impl<'b, O: Offset> TryPush<Option<&'b [u8]>> for MutableBinaryArray<O> {
    ghost use Rattle.std.specs.Option.{option_copied};

    ghost shown = { option_copied };

    fn try_push(&mut self, item: Option<&'b [u8]>) -> Result<(), PolarsError> {
        self.push(item)
    }
}

impl<'b, O: Offset> TryPush<&'b [u8]> for MutableBinaryArray<O> {
    ghost use Rattle.std.specs.Prelude.{Some};

    ghost shown = { λ bytes. Some bytes.now };

    fn try_push(&mut self, item: &'b [u8]) -> Result<(), PolarsError> {
        self.push_value(item)
    }
}

impl<O: Offset> MutableArray for MutableBinaryArray<O> {
    ghost use Rattle.std.specs.Prelude.{◌≤◌, false, None};
    ghost use Rattle.column_binary.specs.Types.{offset_type};
    ghost use Rattle.column_binary.specs.Slots.{slot_count};

    ghost data_type = { λ _. offset_type O.IS_LARGE false };

    ghost slot_count = { λ lists. slot_count lists };

    ghost flags = { λ lists. lists.flags };

    ghost null = { None };

    ghost has_room = { λ b additional. additional ≤ b.spare_slots };

    fn dtype(&self) -> ArrowDataType {
        MutableBinaryArray::dtype(self)
    }

    fn len(&self) -> usize {
        MutableBinaryArray::len(self)
    }

    fn validity(&self) -> Option<&MutableBitmap> {
        MutableBinaryArray::validity(self)
    }

    fn push_null(&mut self) -> Result<(), PolarsError> {
        MutableBinaryArray::push_null(self)
    }

    fn reserve_slots(&mut self, additional: usize) -> Result<(), PolarsError> {
        self.reserve(additional, 0)
    }

    fn shrink_to_fit(&mut self) {
        MutableBinaryArray::shrink_to_fit(self);
    }
}
