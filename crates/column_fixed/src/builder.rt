//! The builder of byte strings of one width: how it is made, read and changed.

ghost use Rattle.std.specs.Prelude.{◌≡◌, ◌+◌, ◌*◌, ◌/◌, ◌^◌, ◌-◌, ◌<◌, ◌≤◌, ◌==◌, length, length as list_length, option_map, None, Some, ⊤, OnOk, OnErr, IsOk, IfSome, MatchOption, Err};
ghost use Rattle.std.specs.Option.{option_copied};
ghost use Rattle.std.specs.Vec.{vec_len, vec_capacity};
ghost use Rattle.column_base.specs.declared.errors.Cause.TheVariants.{WrongLength};
ghost use Rattle.column_base.specs.Answers.{Gives, Answers, GivesCause, ◌or_else◌};
ghost use Rattle.column_base.specs.Errors.{error_of};
ghost use Rattle.column_base.specs.Slots.{slot_at, row_of};
ghost use Rattle.column_storage.specs.Bits.{GrowingBits, bits_given};
ghost use Rattle.column_storage.specs.Validity.{AreFlagsOf};
ghost use Rattle.std.specs.Borrow.{Lends, Array, sem, u8 as byte};
ghost use Rattle.column_fixed.specs.contracts.builder.MutableFixedSizeBinaryArray.{the_row};
ghost use Rattle.column_fixed.specs.Types.{fixed_type, width_of, type_fault};
ghost use Rattle.column_fixed.specs.Slots.{fixed_lists, fixed_slots, fixed_count, fixed_fault, AreSoundFixed};
ghost use Rattle.column_fixed.specs.Rows.{no_slots, pushed_row, row_fault, first_slots, last_row, joined_lists, with_values};

use crate::array::FixedSizeBinaryArray;
use crate::types::{count_slots, width_of_type};
use column_base::{ArrowDataType, Cause, Growing, PolarsError, TryExtendFromSelf, TryPush};
use column_storage::{
    Bitmap, Buffer, MutableArray, MutableBitmap, add_flags, apply_flags, check_flags, clone_flags,
    flag_at, pop_flag, push_null_flag, push_valid_flag, reserve_flags, room_for_flags,
    shrink_flags,
};
use std::alloc::Global;
use std::marker::Model;

/// A column of optional byte strings of one width that grows, semantically a `Vec<Option<Vec<u8>>>`.
///
/// It keeps its allocator. The width is above 0 and divides the number of value bytes, and a validity that is there has a
/// flag for each slot; it is made at the first null. A refused call leaves the slots as they were, and at least the room
/// that there was. Arrow columnar format, "Fixed-size Primitive Layout".
#[derive(Drop)]
pub struct MutableFixedSizeBinaryArray {
    size: usize,
    values: Vec<u8>,
    validity: Option<MutableBitmap>,
}

impl Model for MutableFixedSizeBinaryArray {
    ghost use Rattle.std.specs.Prelude.{◌-◌, ◌/◌};
    ghost use Rattle.std.specs.Vec.{vec_len, vec_capacity};
    ghost use Rattle.column_storage.specs.Bits.{bits_given, spare_beside};
    ghost use Rattle.column_fixed.specs.Slots.{fixed_lists, AreSoundFixed};
    ghost use Rattle.column_fixed.specs.Rows.{GrowingFixed};

    ghost Value = { GrowingFixed };

    ghost view = { λ b. record {
      lists = fixed_lists b.size b.values.items (bits_given b.validity);
      spare = spare_beside b.validity ((vec_capacity b.values - vec_len b.values) / b.size);
    } };

    ghost invariant = { λ b. AreSoundFixed (fixed_lists b.size b.values.items (bits_given b.validity)) };
}

// ---- constructors

impl MutableFixedSizeBinaryArray {
    /// No slots of this width. Takes no memory.
    #[tactic(auto, using(crate::proofs::SlotsLemmas::nulls))]
    pub fn new(alloc: Global, size: usize) -> Self
        requires { 0 < size }
        ensures { result.lists ≡ no_slots size }
    {
        MutableFixedSizeBinaryArray {
            size,
            values: Vec::new(alloc),
            validity: None,
        }
    }

    /// No slots of this width, with room for `capacity` slots.
    ///
    /// `NoMemory` where there is none for them.
    #[tactic(auto, using(crate::proofs::RowsLemmas::rooms, crate::proofs::SlotsLemmas::nulls))]
    pub fn with_capacity(alloc: Global, size: usize, capacity: usize) -> Result<Self, PolarsError>
        requires positive { 0 < size }
        requires fits { capacity * size < 2 ^ 64 }
        ensures { Answers result None (λ b. (b.lists ≡ no_slots size) × (capacity ≤ b.spare)) }
    {
        Ok(MutableFixedSizeBinaryArray {
            size,
            values: Vec::with_capacity(alloc, capacity * size)?,
            validity: None,
        })
    }

    /// The builder of these lists, of the width that the data type tells. Takes no memory.
    ///
    /// The first that stands of `WrongDataType` where the data type lies in another physical type, `SizeZero` where the
    /// width is 0, `NotMultiple` where it does not divide the number of value bytes, and `ValidityLength` where a
    /// validity is given whose length is not the number of slots.
    pub fn try_new(
        dtype: ArrowDataType,
        values: Vec<u8>,
        validity: Option<MutableBitmap>,
    ) -> Result<Self, PolarsError>
        ensures { let lists = fixed_lists (width_of dtype) values.items (bits_given validity) in Gives result (type_fault dtype or_else fixed_fault lists) (λ b. b.lists ≡ lists) }
    {
        let size = width_of_type(dtype)?;
        check_growing(size, values.as_slice(), validity.as_ref())?;
        Ok(MutableFixedSizeBinaryArray {
            size,
            values,
            validity,
        })
    }

    /// A copy of the builder.
    ///
    /// `NoMemory` where there is none for it.
    pub fn try_clone(&self) -> Result<Self, PolarsError>
        ensures { Answers result None (λ b. b.lists ≡ self.now.lists) }
    {
        let values = Vec::from_slice(*self.values.allocator(), &self.values)?;
        let validity = clone_flags(self.validity.as_ref())?;
        Ok(MutableFixedSizeBinaryArray {
            size: self.size,
            values,
            validity,
        })
    }
}

// Whether lists are sound: the first that stands of `SizeZero`, `NotMultiple` and `ValidityLength`.
fn check_growing(size: usize, values: &[u8], validity: Option<&MutableBitmap>) -> Result<(), Cause>
    ensures { let lists = fixed_lists size values.now (bits_given (option_copied validity.entry)) in GivesCause result (fixed_fault lists) (λ _. AreSoundFixed lists) }
{
    let count = count_slots(size, values.len())?;
    check_flags(validity, count)?;
    Ok(())
}

// ---- readers

impl MutableFixedSizeBinaryArray {
    /// Tells proofs that the lists are sound, that there are as many slots as are counted, and that their width and the
    /// number of their bytes are a `usize`.
    #[tactic(auto, using(crate::proofs::SlotsLemmas::counts))]
    pub fn known(&self)
        ensures sound { AreSoundFixed self.now.lists }
        ensures count { length (fixed_slots self.now.lists) ≡ fixed_count self.now.lists }
        ensures width { self.now.lists.width < 2 ^ 64 }
        ensures fits { length self.now.lists.values < 2 ^ 64 }
    {
        let _bytes = self.values.len();
        let _size = self.size;
    }

    /// The number of slots.
    #[tactic(auto, using(crate::proofs::SlotsLemmas::counts))]
    pub fn len(&self) -> usize
        ensures slots { result ≡ length (fixed_slots self.now.lists) }
        ensures count { result ≡ fixed_count self.now.lists }
    {
        self.values.len() / self.size
    }

    /// Whether there is no slot.
    pub fn is_empty(&self) -> bool
        ensures { result ≡ (fixed_count self.now.lists == 0) }
    {
        self.len() == 0
    }

    /// The width of a slot in bytes.
    pub fn size(&self) -> usize
        ensures size { result ≡ self.now.lists.width }
        ensures positive { 0 < result }
    {
        self.size
    }

    /// The data type, which is the one of byte strings of this width.
    pub fn dtype(&self) -> ArrowDataType
        ensures dtype { result ≡ fixed_type self.now.lists.width }
        ensures own { type_fault result ≡ None }
    {
        ArrowDataType::FixedSizeBinary(self.size)
    }

    /// The value bytes, those of each slot after those of the one before it.
    pub fn values(&self) -> &Vec<u8>
        ensures { result.now.items ≡ self.now.lists.values }
    {
        &self.values
    }

    /// The value bytes, to be changed in their places.
    pub fn values_mut_slice(&mut self) -> &mut [u8]
        ensures* writes_back { sem 𝓛 (Lends the_row (Array byte 0) self.entry result (with_values self.old)) }
        ensures value { result.now ≡ self.old.lists.values }
    {
        self.values.as_mut_slice()
    }

    /// The validity, where one was made or given.
    pub fn validity(&self) -> Option<&MutableBitmap>
        ensures { bits_given (option_copied result) ≡ self.now.lists.flags }
    {
        self.validity.as_ref()
    }

    /// For how many slots there is memory.
    #[tactic(auto, using(crate::proofs::RowsLemmas::rooms_of_less))]
    pub fn capacity(&self) -> usize
        ensures { result ≡ fixed_count self.now.lists + self.now.spare }
    {
        let capacity = slots_for(&self.values, self.size);
        match &self.validity {
            Some(bits) => capacity.min(bits.capacity()),
            None => capacity,
        }
    }

    /// Whether slot `i` is valid.
    #[tactic(auto, using(crate::proofs::SlotsLemmas::places))]
    pub fn is_valid(&self, i: usize) -> bool
        requires { i < fixed_count self.now.lists }
        ensures { result ≡ (slot_at (fixed_slots self.now.lists) i).valid }
    {
        flag_at(self.validity.as_ref(), i)
    }

    /// The bytes of slot `i`; a null slot has bytes too.
    #[tactic(auto, using(crate::proofs::SlotsLemmas::places))]
    pub fn value(&self, i: usize) -> &[u8]
        requires { i < fixed_count self.now.lists }
        ensures { result.now ≡ (slot_at (fixed_slots self.now.lists) i).bytes }
    {
        self.known();
        let start = i * self.size;
        &self.values[start..start + self.size]
    }

    /// The same as [`MutableFixedSizeBinaryArray::value`].
    pub fn value_unchecked(&self, i: usize) -> &[u8]
        requires { i < fixed_count self.now.lists }
        ensures { result.now ≡ (slot_at (fixed_slots self.now.lists) i).bytes }
    {
        self.value(i)
    }

    /// The bytes of slot `i`, or None where it is null.
    pub fn get(&self, i: usize) -> Option<&[u8]>
        requires { i < fixed_count self.now.lists }
        ensures { option_map (λ bytes. bytes.now) result ≡ row_of (slot_at (fixed_slots self.now.lists) i) }
    {
        if self.is_valid(i) {
            Some(self.value(i))
        } else {
            None
        }
    }

    /// The lists: the data type, the value bytes and the validity. Takes no memory.
    pub fn into_inner(self) -> (ArrowDataType, Vec<u8>, Option<MutableBitmap>)
        ensures dtype { result.0 ≡ fixed_type self.lists.width }
        ensures own { type_fault result.0 ≡ None }
        ensures lists { fixed_lists self.lists.width result.1.items (bits_given result.2) ≡ self.lists }
        ensures sound { AreSoundFixed self.lists }
    {
        let MutableFixedSizeBinaryArray {
            size,
            values,
            validity,
        } = self;
        (ArrowDataType::FixedSizeBinary(size), values, validity)
    }

    /// Other flags beside the same bytes, or all slots valid where no validity is given. Takes no memory.
    pub fn with_validity(self, validity: Option<MutableBitmap>) -> Self
        requires { AreFlagsOf (fixed_count self.lists) (bits_given validity) }
        ensures { result.lists ≡ fixed_lists self.lists.width self.lists.values (bits_given validity) }
    {
        let mut builder = self;
        builder.set_validity(validity);
        builder
    }

    /// Puts other flags in place of those that there were, as [`MutableFixedSizeBinaryArray::with_validity`] does.
    pub fn set_validity(&mut self, validity: Option<MutableBitmap>)
        requires { AreFlagsOf (fixed_count self.old.lists) (bits_given validity) }
        ensures { self.new.lists ≡ fixed_lists self.old.lists.width self.old.lists.values (bits_given validity) }
    {
        self.validity = validity;
    }

    /// Puts what `f` makes of the validity in its place, where there is one. Where there is none, `f` is not called.
    pub fn apply_validity<F: FnOnce(MutableBitmap) -> MutableBitmap>(&mut self, f: F)
        requires can { F.IsAlwaysCallable f }
        requires length { (bits made : GrowingBits) → self.old.lists.flags ≡ Some bits.bits → F.post f bits made → list_length made.bits ≡ list_length bits.bits }
        ensures { MatchOption self.old.lists.flags (self.new.lists ≡ self.old.lists) (λ flags. (bits made : GrowingBits) × (bits.bits ≡ flags) × F.post f bits made × (self.new.lists ≡ fixed_lists self.old.lists.width self.old.lists.values (Some made.bits))) }
    {
        apply_flags(&mut self.validity, f);
    }

    /// Gives back memory that no slot needs, where the allocator takes it.
    pub fn shrink_to_fit(&mut self)
        ensures { self.new.lists ≡ self.old.lists }
    {
        self.values.shrink_to_fit();
        shrink_flags(&mut self.validity);
    }

    /// The array of these slots, whose value bytes and flags are not copied. A validity stays, also one without a null.
    ///
    /// In constant time. `NoMemory` where there is none for the counts of owners.
    pub fn freeze(self) -> Result<FixedSizeBinaryArray, PolarsError>
        ensures { Answers result None (λ a. a ≡ self.lists) }
    {
        let MutableFixedSizeBinaryArray {
            size,
            values,
            validity,
        } = self;
        let alloc = *values.allocator();
        let values = Buffer::from_vec(alloc, values)?;
        let validity = kept_flags(validity)?;
        Ok(FixedSizeBinaryArray::of(size, values, validity))
    }
}

// For how many slots of a width a vector has memory.
#[tactic(auto, using(crate::proofs::RowsLemmas::capacities))]
fn slots_for(values: &Vec<u8>, size: usize) -> usize
    requires positive { 0 < size }
    requires whole { length values.now.items / size * size ≡ length values.now.items }
    ensures { result ≡ length values.now.items / size + (vec_capacity values.now - vec_len values.now) / size }
{
    values.capacity() / size
}

// The validity of an array, where one is given.
fn kept_flags(validity: Option<MutableBitmap>) -> Result<Option<Bitmap>, PolarsError>
    ensures { Answers result None (λ kept. kept ≡ bits_given validity) }
{
    match validity {
        Some(bits) => Ok(Some(bits.freeze()?)),
        None => Ok(None),
    }
}

// ---- a slot more, a slot less

impl MutableFixedSizeBinaryArray {
    /// Makes room for `additional` more slots.
    ///
    /// `NoMemory` where there is none for them, and never where the room is there.
    #[tactic(auto, using(crate::proofs::RowsLemmas::rooms))]
    pub fn reserve(&mut self, additional: usize) -> Result<(), PolarsError>
        ensures answer { Answers result None (λ _. additional ≤ self.new.spare) }
        ensures spare_serves { additional ≤ self.old.spare → IsOk result }
        ensures spare_kept { self.old.spare ≤ self.new.spare }
        ensures same { self.new.lists ≡ self.old.lists }
    {
        let Some(bytes) = additional.checked_mul(self.size) else {
            return Err(PolarsError::NoMemory);
        };
        reserve_flags(&mut self.validity, additional)?;
        self.values.reserve(bytes)?;
        Ok(())
    }

    // Adds a valid slot of these bytes.
    #[tactic(auto, using(crate::proofs::RowsLemmas::rows))]
    fn push_bytes(&mut self, bytes: &[u8]) -> Result<(), PolarsError>
        ensures answer { Answers result (row_fault self.old.lists (Some bytes.now)) (λ _. self.new.lists ≡ pushed_row self.old.lists (Some bytes.now)) }
        ensures spare_serves { 1 ≤ self.old.spare → Gives result (row_fault self.old.lists (Some bytes.now)) (λ _. ⊤) }
        ensures spare_left { OnOk result (self.old.spare ≤ self.new.spare + 1) }
        ensures spare_kept { OnErr result (self.old.spare ≤ self.new.spare) }
        ensures unchanged { OnErr result (self.new.lists ≡ self.old.lists) }
        ensures untouched { result ≡ Err (error_of WrongLength) → self.new ≡ self.old }
    {
        if bytes.len() != self.size {
            return Err(Cause::WrongLength.into());
        }
        reserve_flags(&mut self.validity, 1)?;
        self.values.reserve(bytes.len())?;
        self.values.extend_from_slice(bytes)?;
        push_valid_flag(&mut self.validity);
        Ok(())
    }

    /// Adds a null slot of zeros, and makes a validity where there is none.
    ///
    /// `NoMemory` where there is none for the slot or the validity.
    #[tactic(auto, using(crate::proofs::RowsLemmas::rows))]
    pub fn push_null(&mut self) -> Result<(), PolarsError>
        ensures answer { Answers result None (λ _. self.new.lists ≡ pushed_row self.old.lists None) }
        ensures spare_kept { OnErr result (self.old.spare ≤ self.new.spare) }
        ensures unchanged { OnErr result (self.new.lists ≡ self.old.lists) }
    {
        let count = self.len();
        let alloc = *self.values.allocator();
        self.values.reserve(self.size)?;
        push_null_flag(alloc, &mut self.validity, count)?;
        let end = self.values.len() + self.size;
        self.values.resize(end, 0)?;
        Ok(())
    }

    /// Adds a slot of a row: of its bytes, or a null slot of zeros.
    ///
    /// `WrongLength` where the bytes are not as many as the width says, then `NoMemory` where there is none for the slot.
    pub fn try_push(&mut self, value: Option<&[u8]>) -> Result<(), PolarsError>
        ensures answer { Answers result (row_fault self.old.lists (option_copied value.entry)) (λ _. self.new.lists ≡ pushed_row self.old.lists (option_copied value.entry)) }
        ensures spare_serves { IfSome value.entry (λ bytes. 1 ≤ self.old.spare → Gives result (row_fault self.old.lists (Some bytes.now)) (λ _. ⊤)) }
        ensures spare_left { IfSome value.entry (λ bytes. OnOk result (self.old.spare ≤ self.new.spare + 1)) }
        ensures spare_kept { OnErr result (self.old.spare ≤ self.new.spare) }
        ensures unchanged { OnErr result (self.new.lists ≡ self.old.lists) }
        ensures untouched { result ≡ Err (error_of WrongLength) → self.new ≡ self.old }
    {
        match value {
            Some(bytes) => self.push_bytes(bytes),
            None => self.push_null(),
        }
    }

    /// The same as [`MutableFixedSizeBinaryArray::try_push`], of a row of the right length.
    ///
    /// `NoMemory` where there is none for the slot.
    pub fn push(&mut self, value: Option<&[u8]>) -> Result<(), PolarsError>
        requires { row_fault self.old.lists (option_copied value) ≡ None }
        ensures answer { Answers result None (λ _. self.new.lists ≡ pushed_row self.old.lists (option_copied value.entry)) }
        ensures spare_serves { IfSome value.entry (λ bytes. 1 ≤ self.old.spare → IsOk result) }
        ensures spare_left { IfSome value.entry (λ bytes. OnOk result (self.old.spare ≤ self.new.spare + 1)) }
        ensures spare_kept { OnErr result (self.old.spare ≤ self.new.spare) }
        ensures unchanged { OnErr result (self.new.lists ≡ self.old.lists) }
    {
        self.try_push(value)
    }

    /// Takes the last slot, and gives its bytes: None where it is null, or where there is none.
    ///
    /// `NoMemory` where there is none for the bytes, and the slot stays.
    #[tactic(auto, using(crate::proofs::RowsLemmas::firsts))]
    pub fn pop(&mut self) -> Result<Option<Vec<u8>>, PolarsError>
        ensures answer { Answers result None (λ row. (option_map (λ bytes. bytes.items) row ≡ last_row self.old.lists) × (self.new.lists ≡ first_slots self.old.lists (fixed_count self.old.lists - 1))) }
        ensures spare_kept { self.old.spare ≤ self.new.spare }
        ensures unchanged { OnErr result (self.new.lists ≡ self.old.lists) }
    {
        let count = self.len();
        if count == 0 {
            return Ok(None);
        }
        let row = copied_row(*self.values.allocator(), self.get(count - 1))?;
        self.drop_last();
        Ok(row)
    }

    // Takes the last slot.
    #[tactic(auto, using(crate::proofs::RowsLemmas::firsts), unfolding(crate::specs::Rows::first_slots))]
    fn drop_last(&mut self)
        requires { 0 < fixed_count self.old.lists }
        ensures slots { self.new.lists ≡ first_slots self.old.lists (fixed_count self.old.lists - 1) }
        ensures spare_kept { self.old.spare ≤ self.new.spare }
    {
        let start = self.values.len() - self.size;
        self.values.truncate(start);
        pop_flag(&mut self.validity);
    }
}

// A copy of a row.
fn copied_row(alloc: Global, row: Option<&[u8]>) -> Result<Option<Vec<u8>>, PolarsError>
    ensures { Answers result None (λ copy. option_map (λ bytes. bytes.items) copy ≡ option_copied row.entry) }
{
    match row {
        Some(bytes) => Ok(Some(Vec::from_slice(alloc, bytes)?)),
        None => Ok(None),
    }
}

// ---- the slots of another builder

impl MutableFixedSizeBinaryArray {
    /// Adds the slots of another builder of the same width: one copy of its value bytes, and one of its flags.
    ///
    /// `NoMemory` where there is none for the slots.
    #[tactic(auto, using(crate::proofs::RowsLemmas::joining))]
    pub fn try_extend_from_self(&mut self, other: &Self) -> Result<(), PolarsError>
        requires { self.old.lists.width ≡ other.now.lists.width }
        ensures answer { Answers result None (λ _. self.new.lists ≡ joined_lists self.old.lists other.now.lists) }
        ensures spare_kept { OnErr result (self.old.spare ≤ self.new.spare) }
        ensures unchanged { OnErr result (self.new.lists ≡ self.old.lists) }
    {
        let alloc = *self.values.allocator();
        let count = self.len();
        other.known();
        let added = other.len();
        self.values.reserve(other.values.len())?;
        let made = room_for_flags(
            alloc,
            &mut self.validity,
            count,
            added,
            other.validity.is_some(),
        )?;
        self.values.extend_from_slice(&other.values)?;
        add_flags(&mut self.validity, made, other.validity.as_ref(), added);
        Ok(())
    }
}

impl Growing for MutableFixedSizeBinaryArray {
    ghost use Rattle.column_fixed.specs.Rows.{row_growth};

    // seen as the lists of an array
    type Lists = FixedSizeBinaryArray;

    // seen as the bytes of a valid row
    type Row = Option<Buffer<u8>>;

    ghost lists = { λ b. b.lists };

    ghost growth = { row_growth };
}

impl TryExtendFromSelf for MutableFixedSizeBinaryArray {
    ghost use Rattle.std.specs.Prelude.{◌≡◌, None};
    ghost use Rattle.column_fixed.specs.Rows.{joined_lists};

    // both have the same width
    ghost fits = { λ lists others. lists.width ≡ others.width };

    ghost join_fault = { λ _ _. None };

    ghost joined = { joined_lists };

    fn try_extend_from_self(&mut self, other: &Self) -> Result<(), PolarsError> {
        MutableFixedSizeBinaryArray::try_extend_from_self(self, other)
    }
}

impl<'b> TryPush<Option<&'b [u8]>> for MutableFixedSizeBinaryArray {
    ghost use Rattle.std.specs.Option.{option_copied};

    ghost shown = { option_copied };

    fn try_push(&mut self, item: Option<&'b [u8]>) -> Result<(), PolarsError> {
        MutableFixedSizeBinaryArray::try_push(self, item)
    }
}

impl MutableArray for MutableFixedSizeBinaryArray {
    ghost use Rattle.std.specs.Prelude.{◌≤◌, None};
    ghost use Rattle.column_fixed.specs.Types.{fixed_type};
    ghost use Rattle.column_fixed.specs.Slots.{fixed_count};

    ghost data_type = { λ lists. fixed_type lists.width };

    ghost slot_count = { λ lists. fixed_count lists };

    ghost flags = { λ lists. lists.flags };

    ghost null = { None };

    ghost has_room = { λ b additional. additional ≤ b.spare };

    fn dtype(&self) -> ArrowDataType {
        MutableFixedSizeBinaryArray::dtype(self)
    }

    fn len(&self) -> usize {
        MutableFixedSizeBinaryArray::len(self)
    }

    fn validity(&self) -> Option<&MutableBitmap> {
        MutableFixedSizeBinaryArray::validity(self)
    }

    fn push_null(&mut self) -> Result<(), PolarsError> {
        MutableFixedSizeBinaryArray::push_null(self)
    }

    fn reserve_slots(&mut self, additional: usize) -> Result<(), PolarsError> {
        self.reserve(additional)
    }

    fn shrink_to_fit(&mut self) {
        MutableFixedSizeBinaryArray::shrink_to_fit(self);
    }
}
