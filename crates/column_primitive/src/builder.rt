//! The builder of numbers: how it is made, read and changed.

ghost use Rattle.std.specs.Prelude.{◌≡◌, ◌+◌, ◌^◌, ◌-◌, ◌<◌, ◌≤◌, ◌==◌, [], length, option_map, slice_get, unwrap_or, None, Some, OnOk, OnErr, IsOk, IfSome, MatchOption};
ghost use Rattle.std.specs.Option.{option_copied};
ghost use Rattle.std.specs.Borrow.{Lends, Array, sem};
ghost use Rattle.column_base.specs.DataTypes.{default_type};
ghost use Rattle.column_base.specs.Answers.{Gives, Answers};
ghost use Rattle.column_base.specs.Slots.{slot_at};
ghost use Rattle.column_storage.specs.Bits.{GrowingBits, bits_given};
ghost use Rattle.column_storage.specs.Validity.{AreFlagsOf};
ghost use Rattle.column_primitive.specs.Types.{number_type_fault};
ghost use Rattle.column_primitive.specs.Numbers.{number_lists, number_array, number_slots, number_count, number_at, number_array_fault, AreSoundNumbers, IsSoundArray};
ghost use Rattle.column_primitive.specs.contracts.builder.MutablePrimitiveArray.{the_row};
ghost use Rattle.column_primitive.specs.Rows.{no_numbers, stored, pushed_row, first_array, frozen_array, joined_array, extended_row, changed_row, with_numbers, with_flags, rewritten, LeavesNumbers};

use crate::array::PrimitiveArray;
use crate::types::check_number_type;
use column_base::{ArrowDataType, Growing, NativeType, PolarsError, TryExtendFromSelf, TryPush};
use column_storage::{
    Buffer, MutableArray, MutableBitmap, add_flags, apply_flags, check_flags, clone_flags,
    extend_constant_flags, flag_at, freeze_flags, push_null_flag, push_valid_flag, reserve_flags,
    room_for_flags, set_flag, shrink_flags, truncate_flags,
};
use std::alloc::Global;
use std::marker::Model;
use std::mem;

/// A column of optional numbers that grows, semantically a `Vec<Option<T>>`.
///
/// It keeps its allocator. The data type lies in the physical type of the numbers, and a validity that is there has a
/// flag for each slot; it is made at the first null. A refused call leaves the slots as they were, and at least the room
/// that there was, unless it says otherwise. Arrow columnar format, "Fixed-size Primitive Layout".
#[derive(Drop)]
pub struct MutablePrimitiveArray<T: NativeType> {
    dtype: ArrowDataType,
    values: Vec<T>,
    validity: Option<MutableBitmap>,
}

impl<T: NativeType> Model for MutablePrimitiveArray<T> {
    ghost use Rattle.std.specs.Prelude.{◌-◌};
    ghost use Rattle.std.specs.Vec.{vec_len, vec_capacity};
    ghost use Rattle.column_storage.specs.Bits.{bits_given, spare_beside};
    ghost use Rattle.column_primitive.specs.Numbers.{number_lists, number_array, IsSoundArray};
    ghost use Rattle.column_primitive.specs.Rows.{GrowingNumbers};

    ghost Value = { GrowingNumbers T };

    ghost view = { λ b. record {
      array = number_array b.dtype (number_lists b.values.items (bits_given b.validity));
      spare = spare_beside b.validity (vec_capacity b.values - vec_len b.values);
    } };

    ghost invariant = { λ b. IsSoundArray T.PRIMITIVE (number_array b.dtype (number_lists b.values.items (bits_given b.validity))) };
}

// ---- constructors

impl<T: NativeType> MutablePrimitiveArray<T> {
    /// No slots, of plain numbers. Takes no memory.
    pub fn new(alloc: Global) -> Self
        ensures { result.array ≡ no_numbers (default_type T.PRIMITIVE) }
    {
        Self::from_dtype(alloc, Self::default_dtype())
    }

    /// No slots, of a data type. Takes no memory.
    pub fn from_dtype(alloc: Global, dtype: ArrowDataType) -> Self
        requires { number_type_fault T.PRIMITIVE dtype ≡ None }
        ensures { result.array ≡ no_numbers dtype }
    {
        MutablePrimitiveArray {
            dtype,
            values: Vec::new(alloc),
            validity: None,
        }
    }

    /// No slots, of plain numbers, with room for `capacity` slots.
    ///
    /// `NoMemory` where there is none for them.
    pub fn with_capacity(alloc: Global, capacity: usize) -> Result<Self, PolarsError>
        ensures { Answers result None (λ b. (b.array ≡ no_numbers (default_type T.PRIMITIVE)) × (capacity ≤ b.spare)) }
    {
        Self::with_capacity_from(alloc, capacity, Self::default_dtype())
    }

    /// No slots, of a data type, with room for `capacity` slots.
    ///
    /// `NoMemory` where there is none for them.
    pub fn with_capacity_from(
        alloc: Global,
        capacity: usize,
        dtype: ArrowDataType,
    ) -> Result<Self, PolarsError>
        requires { number_type_fault T.PRIMITIVE dtype ≡ None }
        ensures { Answers result None (λ b. (b.array ≡ no_numbers dtype) × (capacity ≤ b.spare)) }
    {
        Ok(MutablePrimitiveArray {
            dtype,
            values: Vec::with_capacity(alloc, capacity)?,
            validity: None,
        })
    }

    /// The builder of these numbers, which mean what the data type says. Takes no memory.
    ///
    /// The first that stands of `ValidityLength` where a validity is given whose length is not the number of slots, and
    /// `WrongDataType` where the data type lies in another physical type.
    #[tactic(auto, using(crate::proofs::NumbersLemmas::fine))]
    pub fn try_new(
        dtype: ArrowDataType,
        values: Vec<T>,
        validity: Option<MutableBitmap>,
    ) -> Result<Self, PolarsError>
        ensures { let array = number_array dtype (number_lists values.items (bits_given validity)) in Gives result (number_array_fault T.PRIMITIVE array) (λ b. b.array ≡ array) }
    {
        check_flags(validity.as_ref(), values.len())?;
        check_number_type(dtype, T::PRIMITIVE)?;
        Ok(MutablePrimitiveArray {
            dtype,
            values,
            validity,
        })
    }

    // The builder of these parts, without a look at them. Takes no memory.
    pub(crate) fn of(dtype: ArrowDataType, values: Vec<T>, validity: Option<MutableBitmap>) -> Self
        requires { IsSoundArray T.PRIMITIVE (number_array dtype (number_lists values.items (bits_given validity))) }
        ensures { result.array ≡ number_array dtype (number_lists values.items (bits_given validity)) }
    {
        MutablePrimitiveArray {
            dtype,
            values,
            validity,
        }
    }

    /// A valid slot of each number, which are plain numbers. Takes no memory, and copies no number.
    pub fn from_vec(values: Vec<T>) -> Self
        ensures { result.array ≡ number_array (default_type T.PRIMITIVE) (number_lists values.items None) }
    {
        MutablePrimitiveArray {
            dtype: Self::default_dtype(),
            values,
            validity: None,
        }
    }

    /// The data type of plain numbers of this type.
    pub fn default_dtype() -> ArrowDataType
        ensures dtype { result ≡ default_type T.PRIMITIVE }
        ensures own { number_type_fault T.PRIMITIVE result ≡ None }
    {
        PrimitiveArray::<T>::default_dtype()
    }

    /// A copy of the builder.
    ///
    /// `NoMemory` where there is none for it.
    pub fn try_clone(&self) -> Result<Self, PolarsError>
        ensures { Answers result None (λ b. b.array ≡ self.now.array) }
    {
        let values = Vec::from_slice(*self.values.allocator(), &self.values)?;
        let validity = clone_flags(self.validity.as_ref())?;
        Ok(MutablePrimitiveArray {
            dtype: self.dtype,
            values,
            validity,
        })
    }
}

// ---- readers

impl<T: NativeType> MutablePrimitiveArray<T> {
    /// Tells proofs that the data type and the lists are sound, that there are as many slots as are counted, and that
    /// their number is a `usize`.
    #[tactic(auto, using(crate::proofs::NumbersLemmas::counts))]
    pub fn known(&self)
        ensures own { number_type_fault T.PRIMITIVE self.now.array.dtype ≡ None }
        ensures sound { AreSoundNumbers self.now.array.lists }
        ensures count { length (number_slots T.le_bytes self.now.array.lists) ≡ number_count self.now.array.lists }
        ensures fits { number_count self.now.array.lists < 2 ^ 64 }
    {
        let _count = self.values.len();
    }

    /// The number of slots.
    #[tactic(auto, using(crate::proofs::NumbersLemmas::counts))]
    pub fn len(&self) -> usize
        ensures slots { result ≡ length (number_slots T.le_bytes self.now.array.lists) }
        ensures count { result ≡ number_count self.now.array.lists }
    {
        self.values.len()
    }

    /// Whether there is no slot.
    pub fn is_empty(&self) -> bool
        ensures { result ≡ (number_count self.now.array.lists == 0) }
    {
        self.len() == 0
    }

    /// The data type.
    pub fn dtype(&self) -> ArrowDataType
        ensures dtype { result ≡ self.now.array.dtype }
        ensures own { number_type_fault T.PRIMITIVE result ≡ None }
    {
        self.dtype
    }

    /// The numbers; a null slot has one too.
    pub fn values(&self) -> &Vec<T>
        ensures { result.now.items ≡ self.now.array.lists.numbers }
    {
        &self.values
    }

    /// The validity, where one was made or given.
    pub fn validity(&self) -> Option<&MutableBitmap>
        ensures { bits_given (option_copied result) ≡ self.now.array.lists.flags }
    {
        self.validity.as_ref()
    }

    /// For how many slots there is memory.
    #[tactic(auto, using(crate::proofs::RowsLemmas::room))]
    pub fn capacity(&self) -> usize
        ensures { result ≡ number_count self.now.array.lists + self.now.spare }
    {
        let capacity = self.values.capacity();
        match &self.validity {
            Some(bits) => capacity.min(bits.capacity()),
            None => capacity,
        }
    }

    /// Whether slot `i` is valid.
    #[tactic(auto, using(crate::proofs::NumbersLemmas::places))]
    pub fn is_valid(&self, i: usize) -> bool
        requires { i < number_count self.now.array.lists }
        ensures { result ≡ (slot_at (number_slots T.le_bytes self.now.array.lists) i).valid }
    {
        flag_at(self.validity.as_ref(), i)
    }

    /// The number of slot `i`; a null slot has one too.
    pub fn value(&self, i: usize) -> T
        requires { i < number_count self.now.array.lists }
        ensures { slice_get self.now.array.lists.numbers i ≡ Some result }
    {
        self.values[i]
    }

    /// The number of slot `i`, or None where it is null.
    pub fn get(&self, i: usize) -> Option<T>
        requires { i < number_count self.now.array.lists }
        ensures { result ≡ number_at self.now.array.lists i }
    {
        if flag_at(self.validity.as_ref(), i) {
            Some(self.value(i))
        } else {
            None
        }
    }

    /// The parts: the data type, the numbers and the validity. Takes no memory.
    pub fn into_inner(self) -> (ArrowDataType, Vec<T>, Option<MutableBitmap>)
        ensures parts { number_array result.0 (number_lists result.1.items (bits_given result.2)) ≡ self.array }
        ensures sound { IsSoundArray T.PRIMITIVE self.array }
    {
        let MutablePrimitiveArray {
            dtype,
            values,
            validity,
        } = self;
        (dtype, values, validity)
    }

    /// The array of these slots, whose numbers are not copied. A validity without a null is dropped.
    ///
    /// In constant time. `NoMemory` where there is none for the counts of owners.
    #[tactic(auto, using(crate::proofs::RowsLemmas::freezing))]
    pub fn freeze(self) -> Result<PrimitiveArray<T>, PolarsError>
        ensures { Answers result None (λ a. a ≡ frozen_array self.array) }
    {
        let MutablePrimitiveArray {
            dtype,
            values,
            validity,
        } = self;
        let alloc = *values.allocator();
        let values = Buffer::from_vec(alloc, values)?;
        let validity = freeze_flags(validity)?;
        Ok(PrimitiveArray::new_unchecked(dtype, values, validity))
    }
}

// ---- other flags, other numbers, another data type

impl<T: NativeType> MutablePrimitiveArray<T> {
    /// Other flags beside the same numbers, or all slots valid where no validity is given. Takes no memory.
    pub fn with_validity(self, validity: Option<MutableBitmap>) -> Self
        requires { AreFlagsOf (number_count self.array.lists) (bits_given validity) }
        ensures { result.array ≡ with_flags self.array (bits_given validity) }
    {
        let mut builder = self;
        builder.set_validity(validity);
        builder
    }

    /// Puts other flags in place of those that there were, as [`MutablePrimitiveArray::with_validity`] does.
    pub fn set_validity(&mut self, validity: Option<MutableBitmap>)
        requires { AreFlagsOf (number_count self.old.array.lists) (bits_given validity) }
        ensures { self.new.array ≡ with_flags self.old.array (bits_given validity) }
    {
        self.validity = validity;
    }

    /// Puts what `f` makes of the validity in its place, where there is one. Where there is none, `f` is not called.
    pub fn apply_validity<F: FnOnce(MutableBitmap) -> MutableBitmap>(&mut self, f: F)
        requires can { F.IsAlwaysCallable f }
        requires length { (bits made : GrowingBits) → self.old.array.lists.flags ≡ Some bits.bits → F.post f bits made → length made.bits ≡ length bits.bits }
        ensures { MatchOption self.old.array.lists.flags (self.new.array ≡ self.old.array) (λ flags. (bits made : GrowingBits) × (bits.bits ≡ flags) × F.post f bits made × (self.new.array ≡ with_flags self.old.array (Some made.bits))) }
    {
        apply_flags(&mut self.validity, f);
    }

    /// Puts other numbers, as many, in place of those that there were. Takes no memory.
    pub fn set_values(&mut self, values: Vec<T>)
        requires { length values.items ≡ number_count self.old.array.lists }
        ensures { self.new.array ≡ with_numbers self.old.array values.items }
    {
        self.values = values;
    }

    /// The same slots, which mean what another data type says. Takes no memory.
    pub fn to(self, dtype: ArrowDataType) -> Self
        requires { number_type_fault T.PRIMITIVE dtype ≡ None }
        ensures { result.array ≡ number_array dtype self.array.lists }
    {
        let mut builder = self;
        builder.dtype = dtype;
        builder
    }

    /// Gives back memory that no slot needs, where the allocator takes it.
    pub fn shrink_to_fit(&mut self)
        ensures { self.new.array ≡ self.old.array }
    {
        self.values.shrink_to_fit();
        shrink_flags(&mut self.validity);
    }

    /// Takes all slots, and the validity. The memory of the numbers and the data type stay.
    pub fn clear(&mut self)
        ensures array { self.new.array ≡ no_numbers self.old.array.dtype }
        ensures spare_kept { self.old.spare ≤ self.new.spare }
    {
        self.values.clear();
        self.validity = None;
    }

    /// Makes slot `index` another row: valid with this number, or null, with the number zero. A validity is made at the
    /// first null.
    ///
    /// `NoMemory` where there is none for a validity that is made.
    #[tactic(auto, using(crate::proofs::RowsLemmas::changes))]
    pub fn set(&mut self, index: usize, value: Option<T>) -> Result<(), PolarsError>
        requires { index < number_count self.old.array.lists }
        ensures answer { Answers result None (λ _. self.new.array ≡ changed_row T.zero_value self.old.array index value) }
        ensures unchanged { OnErr result (self.new ≡ self.old) }
    {
        let alloc = *self.values.allocator();
        let count = self.values.len();
        set_flag(alloc, &mut self.validity, count, index, value.is_some())?;
        self.values[index] = or_zero(value);
        Ok(())
    }

    /// The same as [`MutablePrimitiveArray::set`].
    pub fn set_unchecked(&mut self, index: usize, value: Option<T>) -> Result<(), PolarsError>
        requires { index < number_count self.old.array.lists }
        ensures answer { Answers result None (λ _. self.new.array ≡ changed_row T.zero_value self.old.array index value) }
        ensures unchanged { OnErr result (self.new ≡ self.old) }
    {
        self.set(index, value)
    }
}

// The number that is stored for a row: zero for a null.
fn or_zero<T: NativeType>(row: Option<T>) -> T
    ensures { result ≡ stored T.zero_value row }
{
    match row {
        Some(value) => value,
        None => T::zero(),
    }
}

// ---- a slot more, a slot less

impl<T: NativeType> MutablePrimitiveArray<T> {
    /// Makes room for `additional` more slots.
    ///
    /// `NoMemory` where there is none for them, and never where the room is there.
    pub fn reserve(&mut self, additional: usize) -> Result<(), PolarsError>
        ensures answer { Answers result None (λ _. additional ≤ self.new.spare) }
        ensures spare_serves { additional ≤ self.old.spare → IsOk result }
        ensures spare_kept { self.old.spare ≤ self.new.spare }
        ensures same { self.new.array ≡ self.old.array }
    {
        self.values.reserve(additional)?;
        reserve_flags(&mut self.validity, additional)?;
        Ok(())
    }

    /// Adds a valid slot of this number.
    ///
    /// `NoMemory` where there is none for the slot, and never where there is room.
    #[tactic(auto, using(crate::proofs::RowsLemmas::rows))]
    pub fn push_value(&mut self, value: T) -> Result<(), PolarsError>
        ensures answer { Answers result None (λ _. self.new.array ≡ pushed_row T.zero_value self.old.array (Some value)) }
        ensures spare_serves { 1 ≤ self.old.spare → IsOk result }
        ensures spare_left { OnOk result (self.old.spare ≤ self.new.spare + 1) }
        ensures spare_kept { OnErr result (self.old.spare ≤ self.new.spare) }
        ensures unchanged { OnErr result (self.new.array ≡ self.old.array) }
    {
        reserve_flags(&mut self.validity, 1)?;
        self.values.push(value)?;
        push_valid_flag(&mut self.validity);
        Ok(())
    }

    /// Adds a null slot, whose number is zero, and makes a validity where there is none.
    ///
    /// `NoMemory` where there is none for the slot or the validity.
    #[tactic(auto, using(crate::proofs::RowsLemmas::rows))]
    pub fn push_null(&mut self) -> Result<(), PolarsError>
        ensures answer { Answers result None (λ _. self.new.array ≡ pushed_row T.zero_value self.old.array None) }
        ensures spare_kept { OnErr result (self.old.spare ≤ self.new.spare) }
        ensures unchanged { OnErr result (self.new.array ≡ self.old.array) }
    {
        let count = self.values.len();
        let alloc = *self.values.allocator();
        self.values.reserve(1)?;
        push_null_flag(alloc, &mut self.validity, count)?;
        self.values.push(T::zero())?;
        Ok(())
    }

    /// Adds a slot of a row: of its number, or a null slot, whose number is zero.
    ///
    /// `NoMemory` where there is none for the slot, and never for a number where there is room.
    pub fn push(&mut self, value: Option<T>) -> Result<(), PolarsError>
        ensures answer { Answers result None (λ _. self.new.array ≡ pushed_row T.zero_value self.old.array value) }
        ensures spare_serves { IfSome value (λ _. 1 ≤ self.old.spare → IsOk result) }
        ensures spare_left { IfSome value (λ _. OnOk result (self.old.spare ≤ self.new.spare + 1)) }
        ensures spare_kept { OnErr result (self.old.spare ≤ self.new.spare) }
        ensures unchanged { OnErr result (self.new.array ≡ self.old.array) }
    {
        match value {
            Some(value) => self.push_value(value),
            None => self.push_null(),
        }
    }

    /// Takes the last slot, and gives its number: None where it is null, or where there is none.
    #[tactic(auto, using(crate::proofs::RowsLemmas::firsts))]
    pub fn pop(&mut self) -> Option<T>
        ensures row { let lists = self.old.array.lists in result ≡ number_at lists (number_count lists - 1) }
        ensures rest { self.new.array ≡ first_array self.old.array (number_count self.old.array.lists - 1) }
        ensures spare_kept { self.old.spare ≤ self.new.spare }
    {
        let count = self.len();
        if count == 0 {
            self.truncate(0);
            return None;
        }
        let row = self.get(count - 1);
        self.truncate(count - 1);
        row
    }

    // Keeps the first `count` slots.
    #[tactic(auto, using(crate::proofs::RowsLemmas::firsts), unfolding(crate::specs::Rows::first_numbers))]
    fn truncate(&mut self, count: usize)
        requires { count ≤ number_count self.old.array.lists }
        ensures slots { self.new.array ≡ first_array self.old.array count }
        ensures spare_kept { self.old.spare ≤ self.new.spare }
    {
        self.values.truncate(count);
        truncate_flags(&mut self.validity, count);
    }
}

// ---- more slots at once

impl<T: NativeType> MutablePrimitiveArray<T> {
    /// Adds `additional` slots of one row.
    ///
    /// `NoMemory` where there is none for the slots, or for a validity that is made.
    #[tactic(auto, using(crate::proofs::RowsLemmas::extending))]
    pub fn extend_constant(
        &mut self,
        additional: usize,
        value: Option<T>,
    ) -> Result<(), PolarsError>
        ensures answer { Answers result None (λ _. self.new.array ≡ extended_row T.zero_value self.old.array additional value) }
        ensures spare_kept { OnErr result (self.old.spare ≤ self.new.spare) }
        ensures unchanged { OnErr result (self.new.array ≡ self.old.array) }
    {
        let alloc = *self.values.allocator();
        let count = self.values.len();
        self.values.reserve(additional)?;
        extend_constant_flags(
            alloc,
            &mut self.validity,
            count,
            additional,
            value.is_some(),
        )?;
        self.values.resize(count + additional, or_zero(value))?;
        Ok(())
    }

    /// Adds a valid slot of each number, in one copy.
    ///
    /// `NoMemory` where there is none for the slots.
    #[tactic(auto, using(crate::proofs::RowsLemmas::joining))]
    pub fn extend_from_slice(&mut self, items: &[T]) -> Result<(), PolarsError>
        ensures answer { Answers result None (λ _. self.new.array ≡ joined_array self.old.array (number_lists items.now None)) }
        ensures spare_kept { OnErr result (self.old.spare ≤ self.new.spare) }
        ensures unchanged { OnErr result (self.new.array ≡ self.old.array) }
    {
        let added = items.len();
        reserve_flags(&mut self.validity, added)?;
        self.values.extend_from_slice(items)?;
        add_flags(&mut self.validity, None, None, added);
        Ok(())
    }

    /// Adds the slots of another builder: one copy of its numbers, and its flags in one pass. The data type stays.
    ///
    /// `NoMemory` where there is none for the slots.
    #[tactic(auto, using(crate::proofs::RowsLemmas::joining))]
    pub fn try_extend_from_self(&mut self, other: &Self) -> Result<(), PolarsError>
        ensures answer { Answers result None (λ _. self.new.array ≡ joined_array self.old.array other.now.array.lists) }
        ensures spare_kept { OnErr result (self.old.spare ≤ self.new.spare) }
        ensures unchanged { OnErr result (self.new.array ≡ self.old.array) }
    {
        let alloc = *self.values.allocator();
        let count = self.values.len();
        other.known();
        let added = other.len();
        let made = room_for_flags(
            alloc,
            &mut self.validity,
            count,
            added,
            other.validity.is_some(),
        )?;
        self.values.extend_from_slice(&other.values)?;
        add_flags(&mut self.validity, made, other.validity.as_ref(), added);
        Ok(())
    }
}

impl<T: NativeType> Growing for MutablePrimitiveArray<T> {
    ghost use Rattle.column_primitive.specs.Rows.{row_growth};

    // seen as the array of these slots
    type Lists = PrimitiveArray<T>;

    type Row = Option<T>;

    ghost lists = { λ b. b.array };

    ghost growth = { row_growth T.zero_value };
}

impl<T: NativeType> TryExtendFromSelf for MutablePrimitiveArray<T> {
    ghost use Rattle.std.specs.Prelude.{⊤, None};
    ghost use Rattle.column_primitive.specs.Rows.{joined_array};

    ghost fits = { λ _ _. ⊤ };

    ghost join_fault = { λ _ _. None };

    ghost joined = { λ array others. joined_array array others.lists };

    fn try_extend_from_self(&mut self, other: &Self) -> Result<(), PolarsError> {
        MutablePrimitiveArray::try_extend_from_self(self, other)
    }
}

impl<T: NativeType> TryPush<Option<T>> for MutablePrimitiveArray<T> {
    ghost shown = { λ row. row };

    fn try_push(&mut self, item: Option<T>) -> Result<(), PolarsError> {
        self.push(item)
    }
}

impl<T: NativeType> TryPush<T> for MutablePrimitiveArray<T> {
    ghost use Rattle.std.specs.Prelude.{Some};

    ghost shown = { λ value. Some value };

    fn try_push(&mut self, item: T) -> Result<(), PolarsError> {
        self.push_value(item)
    }
}

impl<T: NativeType> MutableArray for MutablePrimitiveArray<T> {
    ghost use Rattle.std.specs.Prelude.{◌≤◌, None};
    ghost use Rattle.column_primitive.specs.Numbers.{number_count};

    ghost data_type = { λ array. array.dtype };

    ghost slot_count = { λ array. number_count array.lists };

    ghost flags = { λ array. array.lists.flags };

    ghost null = { None };

    ghost has_room = { λ b additional. additional ≤ b.spare };

    fn dtype(&self) -> ArrowDataType {
        MutablePrimitiveArray::dtype(self)
    }

    fn len(&self) -> usize {
        MutablePrimitiveArray::len(self)
    }

    fn validity(&self) -> Option<&MutableBitmap> {
        MutablePrimitiveArray::validity(self)
    }

    fn push_null(&mut self) -> Result<(), PolarsError> {
        MutablePrimitiveArray::push_null(self)
    }

    fn reserve_slots(&mut self, additional: usize) -> Result<(), PolarsError> {
        self.reserve(additional)
    }

    fn shrink_to_fit(&mut self) {
        MutablePrimitiveArray::shrink_to_fit(self);
    }
}

// ---- the numbers in place, and as an array

impl<T: NativeType> MutablePrimitiveArray<T> {
    /// The numbers, to be changed in place. Their count, the flags and the data type stay.
    pub fn values_mut_slice(&mut self) -> &mut [T]
        ensures* writes_back { sem 𝓛 (Lends (the_row T.row T.NativeType.own T.PartialEq) (Array T.row 0) self.entry result (rewritten self.old)) }
        ensures value { result.now ≡ self.old.array.lists.numbers }
    {
        self.values.as_mut_slice()
    }

    /// Lets `f` change the numbers in place. Their count, the flags and the data type stay.
    pub fn apply_values<F: Fn(&mut [T])>(&mut self, f: F)
        requires { F.IsAlwaysCallable f }
        ensures { (numbers : _) × LeavesNumbers F.Fn f self.old.array.lists.numbers numbers × (self.new ≡ rewritten self.old numbers) }
    {
        f(self.values.as_mut_slice());
    }

    // Takes the array of these slots out of the builder, which has no slots then.
    pub(crate) fn take_frozen(&mut self) -> Result<PrimitiveArray<T>, PolarsError>
        ensures answer { Answers result None (λ array. array ≡ frozen_array self.old.array) }
        ensures emptied { self.new.array ≡ no_numbers self.old.array.dtype }
    {
        self.known();
        let alloc = *self.values.allocator();
        let empty = Self::from_dtype(alloc, self.dtype);
        mem::replace(self, empty).freeze()
    }

    // Puts the slots of an array in place of those that there were.
    pub(crate) fn put_back(&mut self, array: PrimitiveArray<T>) -> Result<(), PolarsError>
        ensures answer { Answers result None (λ _. self.new.array ≡ array) }
        ensures unchanged { OnErr result (self.new.array ≡ self.old.array) }
    {
        let alloc = *self.values.allocator();
        *self = array.into_mut(alloc)?;
        Ok(())
    }
}
