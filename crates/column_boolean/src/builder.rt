//! The builder of truth values: how it is made, read and changed.

ghost use Rattle.std.specs.Prelude.{◌≡◌, ◌+◌, ◌-◌, ◌<◌, ◌≤◌, ◌==◌, ◌++◌, false, length, length as list_length, replicate, None, Some, OnOk, OnErr, IsOk, IfSome, MatchOption};
ghost use Rattle.std.specs.Option.{option_copied};
ghost use Rattle.column_base.specs.declared.datatypes.ArrowDataType.TheVariants as types;
ghost use Rattle.column_base.specs.Answers.{Answers};
ghost use Rattle.column_base.specs.Pushes.{grown};
ghost use Rattle.column_storage.specs.Bits.{GrowingBits, bits_given, flags_of, spare_beside};
ghost use Rattle.column_storage.specs.Validity.{AreFlagsOf};
ghost use Rattle.column_boolean.specs.Slots.{boolean_lists, boolean_slots, boolean_count, type_fault, AreSoundBooleans};
ghost use Rattle.column_boolean.specs.Rows.{no_slots, boolean_at, pushed_row, row_growth, first_booleans, frozen_lists};

use crate::array::BooleanArray;
use column_base::{ArrowDataType, Growing, PolarsError, TryPush};
use column_storage::{
    MutableArray, MutableBitmap, add_flags, apply_flags, clone_flags, extend_constant_flags,
    flag_at, freeze_flags, push_null_flag, push_valid_flag, reserve_flags, shrink_flags,
    truncate_flags,
};
use std::alloc::Global;
use std::marker::Model;

/// A column of optional truth values that grows, semantically a `Vec<Option<bool>>`.
///
/// It keeps its allocator. A validity that is there has a flag for each slot; it is made at the first null. A refused call
/// leaves the slots as they were, and at least the room that there was. Arrow columnar format, "Fixed-size Primitive
/// Layout".
#[derive(Drop)]
pub struct MutableBooleanArray {
    values: MutableBitmap,
    validity: Option<MutableBitmap>,
    alloc: Global,
}

impl Model for MutableBooleanArray {
    ghost use Rattle.column_storage.specs.Bits.{bits_given, spare_beside};
    ghost use Rattle.column_boolean.specs.Slots.{boolean_lists, AreSoundBooleans};
    ghost use Rattle.column_boolean.specs.Rows.{GrowingBooleans};

    ghost Value = { GrowingBooleans };

    ghost view = { λ b. record {
      lists = boolean_lists b.values.bits (bits_given b.validity);
      spare = spare_beside b.validity b.values.spare;
    } };

    ghost invariant = { λ b. AreSoundBooleans (boolean_lists b.values.bits (bits_given b.validity)) };
}

// ---- constructors

impl MutableBooleanArray {
    /// No slots. Takes no memory.
    pub fn new(alloc: Global) -> Self
        ensures { result.lists ≡ no_slots }
    {
        MutableBooleanArray {
            values: MutableBitmap::new(alloc),
            validity: None,
            alloc,
        }
    }

    /// No slots, with room for `capacity` slots.
    ///
    /// `NoMemory` where there is none for them.
    pub fn with_capacity(alloc: Global, capacity: usize) -> Result<Self, PolarsError>
        ensures { Answers result None (λ b. (b.lists ≡ no_slots) × (capacity ≤ b.spare)) }
    {
        Ok(MutableBooleanArray {
            values: MutableBitmap::with_capacity(alloc, capacity)?,
            validity: None,
            alloc,
        })
    }

    /// A copy of the builder.
    ///
    /// `NoMemory` where there is none for it.
    pub fn try_clone(&self) -> Result<Self, PolarsError>
        ensures { Answers result None (λ b. b.lists ≡ self.now.lists) }
    {
        let values = self.values.try_clone()?;
        let validity = clone_flags(self.validity.as_ref())?;
        Ok(MutableBooleanArray {
            values,
            validity,
            alloc: self.alloc,
        })
    }
}

// ---- readers

impl MutableBooleanArray {
    /// Tells proofs that the lists are sound, and that there are as many slots as are counted.
    #[tactic(auto, using(crate::proofs::SlotsLemmas::counts))]
    pub fn known(&self)
        ensures sound { AreSoundBooleans self.now.lists }
        ensures count { length (boolean_slots self.now.lists) ≡ boolean_count self.now.lists }
    {
        let _count = self.values.len();
    }

    /// The number of slots.
    #[tactic(auto, using(crate::proofs::SlotsLemmas::counts))]
    pub fn len(&self) -> usize
        ensures slots { result ≡ length (boolean_slots self.now.lists) }
        ensures count { result ≡ boolean_count self.now.lists }
    {
        self.values.len()
    }

    /// Whether there is no slot.
    pub fn is_empty(&self) -> bool
        ensures { result ≡ (boolean_count self.now.lists == 0) }
    {
        self.len() == 0
    }

    /// The data type, which is the one of truth values.
    pub fn dtype(&self) -> ArrowDataType
        ensures dtype { result ≡ types.Boolean }
        ensures own { type_fault result ≡ None }
    {
        ArrowDataType::Boolean
    }

    /// The truth values, of null slots too.
    pub fn values(&self) -> &MutableBitmap
        ensures { result.now.bits ≡ self.now.lists.values }
    {
        &self.values
    }

    /// The validity, where one was made or given.
    pub fn validity(&self) -> Option<&MutableBitmap>
        ensures { bits_given (option_copied result) ≡ self.now.lists.flags }
    {
        self.validity.as_ref()
    }

    /// Other flags beside the same truth values, or all slots valid where no validity is given. Takes no memory.
    pub fn with_validity(self, validity: Option<MutableBitmap>) -> Self
        requires { AreFlagsOf (boolean_count self.lists) (bits_given validity) }
        ensures { result.lists ≡ boolean_lists self.lists.values (bits_given validity) }
    {
        let mut builder = self;
        builder.set_validity(validity);
        builder
    }

    /// Puts other flags in place of those that there were, as [`MutableBooleanArray::with_validity`] does.
    pub fn set_validity(&mut self, validity: Option<MutableBitmap>)
        requires { AreFlagsOf (boolean_count self.old.lists) (bits_given validity) }
        ensures { self.new.lists ≡ boolean_lists self.old.lists.values (bits_given validity) }
    {
        self.validity = validity;
    }

    /// Puts what `f` makes of the validity in its place, where there is one. Where there is none, `f` is not called.
    pub fn apply_validity<F: FnOnce(MutableBitmap) -> MutableBitmap>(&mut self, f: F)
        requires can { F.IsAlwaysCallable f }
        requires length { (bits made : GrowingBits) → self.old.lists.flags ≡ Some bits.bits → F.post f bits made → list_length made.bits ≡ list_length bits.bits }
        ensures { MatchOption self.old.lists.flags (self.new.lists ≡ self.old.lists) (λ flags. (bits made : GrowingBits) × (bits.bits ≡ flags) × F.post f bits made × (self.new.lists ≡ boolean_lists self.old.lists.values (Some made.bits))) }
    {
        apply_flags(&mut self.validity, f);
    }

    /// Gives back memory that no slot needs, where the allocator takes it.
    pub fn shrink_to_fit(&mut self)
        ensures { self.new.lists ≡ self.old.lists }
    {
        self.values.shrink_to_fit();
        shrink_flags(&mut self.validity);
    }

    /// The array of these slots, whose truth values are not copied. A validity without a null is dropped.
    ///
    /// In constant time. `NoMemory` where there is none for the counts of owners.
    #[tactic(auto, using(crate::proofs::RowsLemmas::freezing))]
    pub fn freeze(self) -> Result<BooleanArray, PolarsError>
        ensures { Answers result None (λ a. a ≡ frozen_lists self.lists) }
    {
        let MutableBooleanArray {
            values,
            validity,
            alloc: _,
        } = self;
        let values = values.freeze()?;
        let validity = freeze_flags(validity)?;
        Ok(BooleanArray::of(values, validity))
    }
}

// ---- more slots

impl MutableBooleanArray {
    /// Makes room for `additional` more slots.
    ///
    /// `NoMemory` where there is none for them, and never where the room is there.
    pub fn reserve(&mut self, additional: usize) -> Result<(), PolarsError>
        ensures answer { Answers result None (λ _. additional ≤ self.new.spare) }
        ensures spare_serves { additional ≤ self.old.spare → IsOk result }
        ensures spare_kept { self.old.spare ≤ self.new.spare }
        ensures same { self.new.lists ≡ self.old.lists }
    {
        reserve_flags(&mut self.validity, additional)?;
        self.values.reserve(additional)?;
        Ok(())
    }

    /// Adds a valid slot of this truth value.
    ///
    /// `NoMemory` where there is none for the slot, and never where there is room.
    #[tactic(auto, using(crate::proofs::RowsLemmas::rows))]
    pub fn push_value(&mut self, value: bool) -> Result<(), PolarsError>
        ensures answer { Answers result None (λ _. self.new.lists ≡ pushed_row self.old.lists (Some value)) }
        ensures spare_serves { 1 ≤ self.old.spare → IsOk result }
        ensures spare_left { OnOk result (self.old.spare ≤ self.new.spare + 1) }
        ensures spare_kept { OnErr result (self.old.spare ≤ self.new.spare) }
        ensures unchanged { OnErr result (self.new.lists ≡ self.old.lists) }
    {
        reserve_flags(&mut self.validity, 1)?;
        self.values.push(value)?;
        push_valid_flag(&mut self.validity);
        Ok(())
    }

    /// Adds a null slot, which is false, and makes a validity where there is none.
    ///
    /// `NoMemory` where there is none for the slot or the validity.
    #[tactic(auto, using(crate::proofs::RowsLemmas::rows))]
    pub fn push_null(&mut self) -> Result<(), PolarsError>
        ensures answer { Answers result None (λ _. self.new.lists ≡ pushed_row self.old.lists None) }
        ensures spare_kept { OnErr result (self.old.spare ≤ self.new.spare) }
        ensures unchanged { OnErr result (self.new.lists ≡ self.old.lists) }
    {
        let count = self.values.len();
        self.values.reserve(1)?;
        push_null_flag(self.alloc, &mut self.validity, count)?;
        self.values.push(false)?;
        Ok(())
    }

    /// Adds a slot of a row: of its truth value, or a null slot, which is false.
    ///
    /// `NoMemory` where there is none for the slot.
    pub fn push(&mut self, value: Option<bool>) -> Result<(), PolarsError>
        ensures answer { Answers result None (λ _. self.new.lists ≡ pushed_row self.old.lists value) }
        ensures spare_serves { IfSome value (λ _. 1 ≤ self.old.spare → IsOk result) }
        ensures spare_left { IfSome value (λ _. OnOk result (self.old.spare ≤ self.new.spare + 1)) }
        ensures spare_kept { OnErr result (self.old.spare ≤ self.new.spare) }
        ensures unchanged { OnErr result (self.new.lists ≡ self.old.lists) }
    {
        match value {
            Some(value) => self.push_value(value),
            None => self.push_null(),
        }
    }

    /// Takes the last slot, and gives its truth value: None where it is null, or where there is none.
    #[tactic(auto, using(crate::proofs::RowsLemmas::firsts))]
    pub fn pop(&mut self) -> Option<bool>
        ensures row { let lists = self.old.lists in result ≡ boolean_at lists (boolean_count lists - 1) }
        ensures rest { self.new.lists ≡ first_booleans self.old.lists (boolean_count self.old.lists - 1) }
        ensures spare_kept { self.old.spare ≤ self.new.spare }
    {
        let count = self.len();
        if count == 0 {
            self.truncate(0);
            return None;
        }
        let row = self.row(count - 1);
        self.truncate(count - 1);
        row
    }

    // The truth value of slot `i`, or None where it is null.
    fn row(&self, i: usize) -> Option<bool>
        requires { i < boolean_count self.now.lists }
        ensures { result ≡ boolean_at self.now.lists i }
    {
        if flag_at(self.validity.as_ref(), i) {
            Some(self.values.get(i))
        } else {
            None
        }
    }

    // Keeps the first `count` slots.
    #[tactic(auto, using(crate::proofs::RowsLemmas::firsts), unfolding(crate::specs::Rows::first_booleans))]
    fn truncate(&mut self, count: usize)
        requires { count ≤ boolean_count self.old.lists }
        ensures slots { self.new.lists ≡ first_booleans self.old.lists count }
        ensures spare_kept { self.old.spare ≤ self.new.spare }
    {
        self.values.truncate(count);
        truncate_flags(&mut self.validity, count);
    }

    /// Adds `additional` slots of one row.
    ///
    /// `NoMemory` where there is none for the slots.
    pub fn extend_constant(
        &mut self,
        additional: usize,
        value: Option<bool>,
    ) -> Result<(), PolarsError>
        ensures answer { Answers result None (λ _. self.new.lists ≡ grown row_growth self.old.lists (replicate additional value)) }
        ensures spare_kept { OnErr result (self.old.spare ≤ self.new.spare) }
        ensures unchanged { OnErr result (self.new.lists ≡ self.old.lists) }
    {
        match value {
            Some(value) => self.extend_valid(additional, value),
            None => self.extend_null(additional),
        }
    }

    // Adds valid slots of one truth value.
    #[tactic(auto, using(crate::proofs::RowsLemmas::constants))]
    fn extend_valid(&mut self, additional: usize, value: bool) -> Result<(), PolarsError>
        ensures answer { Answers result None (λ _. self.new.lists ≡ grown row_growth self.old.lists (replicate additional (Some value))) }
        ensures spare_kept { OnErr result (self.old.spare ≤ self.new.spare) }
        ensures unchanged { OnErr result (self.new.lists ≡ self.old.lists) }
    {
        reserve_flags(&mut self.validity, additional)?;
        self.values.extend_constant(additional, value)?;
        add_flags(&mut self.validity, None, None, additional);
        Ok(())
    }

    // Adds null slots.
    #[tactic(auto, using(crate::proofs::RowsLemmas::constants))]
    fn extend_null(&mut self, additional: usize) -> Result<(), PolarsError>
        ensures answer { Answers result None (λ _. self.new.lists ≡ grown row_growth self.old.lists (replicate additional None)) }
        ensures spare_kept { OnErr result (self.old.spare ≤ self.new.spare) }
        ensures unchanged { OnErr result (self.new.lists ≡ self.old.lists) }
    {
        if additional == 0 {
            return Ok(());
        }
        let count = self.values.len();
        self.values.reserve(additional)?;
        extend_constant_flags(self.alloc, &mut self.validity, count, additional, false)?;
        self.values.extend_constant(additional, false)?;
        Ok(())
    }
}

impl Growing for MutableBooleanArray {
    ghost use Rattle.column_boolean.specs.Rows.{row_growth};

    // seen as the lists of an array
    type Lists = BooleanArray;

    type Row = Option<bool>;

    ghost lists = { λ b. b.lists };

    ghost growth = { row_growth };
}

impl TryPush<Option<bool>> for MutableBooleanArray {
    ghost shown = { λ row. row };

    fn try_push(&mut self, item: Option<bool>) -> Result<(), PolarsError> {
        self.push(item)
    }
}

impl MutableArray for MutableBooleanArray {
    ghost use Rattle.std.specs.Prelude.{◌≤◌, None};
    ghost use Rattle.column_base.specs.declared.datatypes.ArrowDataType.TheVariants as types;
    ghost use Rattle.column_boolean.specs.Slots.{boolean_count};

    ghost data_type = { λ _. types.Boolean };

    ghost slot_count = { λ lists. boolean_count lists };

    ghost flags = { λ lists. lists.flags };

    ghost null = { None };

    ghost has_room = { λ b additional. additional ≤ b.spare };

    fn dtype(&self) -> ArrowDataType {
        MutableBooleanArray::dtype(self)
    }

    fn len(&self) -> usize {
        MutableBooleanArray::len(self)
    }

    fn validity(&self) -> Option<&MutableBitmap> {
        MutableBooleanArray::validity(self)
    }

    fn push_null(&mut self) -> Result<(), PolarsError> {
        MutableBooleanArray::push_null(self)
    }

    fn reserve_slots(&mut self, additional: usize) -> Result<(), PolarsError> {
        self.reserve(additional)
    }

    fn shrink_to_fit(&mut self) {
        MutableBooleanArray::shrink_to_fit(self);
    }
}
