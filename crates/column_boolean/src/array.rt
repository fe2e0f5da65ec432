//! The array: its constructors, its readers, and its cheap changes.

ghost use Rattle.std.specs.Prelude.{◌≡◌, ◌+◌, ◌-◌, ◌<◌, ◌≤◌, ◌==◌, not, [], false, length as list_length, replicate, count_by, option_map, slice_get, ⊤, None, Some};
ghost use Rattle.std.specs.Option.{option_copied};
ghost use Rattle.column_base.specs.declared.datatypes.ArrowDataType.TheVariants as types;
ghost use Rattle.column_base.specs.Answers.{Gives, GivesCause, Answers, ◌or_else◌};
ghost use Rattle.column_base.specs.Slots.{slot_at};
ghost use Rattle.column_storage.specs.Validity.{AreFlagsOf};
ghost use Rattle.column_boolean.specs.Slots.{boolean_lists, boolean_slots, boolean_count, boolean_fault, type_fault, byte_of, AreSoundBooleans, IsPart};
ghost use Rattle.column_boolean.specs.Rows.{boolean_rows};

use column_base::{ArrowDataType, Cause, PhysicalType, PolarsError, Splitable};
use column_storage::{
    Bitmap, check_validity, is_valid_at, null_count, share_validity, slice_validity,
};
use std::alloc::Global;
use std::marker::Model;

/// A column of optional truth values, semantically an immutable `Vec<Option<bool>>`.
///
/// A share costs the same whatever the number of slots, and so does a slice but for what it counts. A validity that is
/// given has a flag for each slot. Arrow columnar format, "Fixed-size Primitive Layout".
#[derive(Drop)]
pub struct BooleanArray {
    values: Bitmap,
    validity: Option<Bitmap>,
}

impl Model for BooleanArray {
    ghost use Rattle.column_boolean.specs.Slots.{BooleanLists, boolean_lists, AreSoundBooleans};

    ghost Value = { BooleanLists };

    ghost view = { λ a. boolean_lists a.values a.validity };

    ghost invariant = { λ a. AreSoundBooleans (boolean_lists a.values a.validity) };
}

// ---- constructors

impl BooleanArray {
    /// The column of these lists. Takes no memory.
    ///
    /// The first that stands of `ValidityLength` where a validity is given whose length is not the number of slots, and
    /// `WrongDataType` where the data type lies in another physical type.
    #[tactic(auto, using(crate::proofs::SlotsLemmas::fine))]
    pub fn try_new(
        dtype: ArrowDataType,
        values: Bitmap,
        validity: Option<Bitmap>,
    ) -> Result<Self, PolarsError>
        ensures { let lists = boolean_lists values validity in Gives result (boolean_fault lists or_else type_fault dtype) (λ a. a ≡ lists) }
    {
        check_validity(validity.as_ref(), values.len())?;
        check_type(dtype)?;
        Ok(BooleanArray { values, validity })
    }

    /// The same as [`BooleanArray::try_new`], of lists and a data type without a fault.
    pub fn new(dtype: ArrowDataType, values: Bitmap, validity: Option<Bitmap>) -> Self
        requires lists { boolean_fault (boolean_lists values validity) ≡ None }
        requires own { type_fault dtype ≡ None }
        ensures { result ≡ boolean_lists values validity }
    {
        match BooleanArray::try_new(dtype, values, validity) {
            Ok(array) => array,
            Err(_) => unreachable!(),
        }
    }

    // The column of these sound lists, without a look at them. Takes no memory.
    pub(crate) fn of(values: Bitmap, validity: Option<Bitmap>) -> Self
        requires { AreSoundBooleans (boolean_lists values validity) }
        ensures { result ≡ boolean_lists values validity }
    {
        BooleanArray { values, validity }
    }

    /// The column without slots.
    ///
    /// `NoMemory` where there is none for the count of owners.
    pub fn new_empty(alloc: Global, dtype: ArrowDataType) -> Result<Self, PolarsError>
        requires { type_fault dtype ≡ None }
        ensures { Answers result None (λ a. a ≡ boolean_lists [] None) }
    {
        let _ = dtype;
        Ok(BooleanArray {
            values: Bitmap::new_zeroed(alloc, 0)?,
            validity: None,
        })
    }

    /// `length` null slots, each of which is false.
    ///
    /// `NoMemory` where there is none for their truth values and flags.
    pub fn new_null(alloc: Global, dtype: ArrowDataType, length: usize) -> Result<Self, PolarsError>
        requires { type_fault dtype ≡ None }
        ensures { Answers result None (λ a. a ≡ boolean_lists (replicate length false) (Some (replicate length false))) }
    {
        let _ = dtype;
        let values = Bitmap::new_zeroed(alloc, length)?;
        let validity = Bitmap::new_zeroed(alloc, length)?;
        Ok(BooleanArray {
            values,
            validity: Some(validity),
        })
    }

    /// The same column, which shares the memory of this one.
    ///
    /// Copies no slot and takes no memory. `NoMemory` where a count of owners is full.
    pub fn try_clone(&self, alloc: Global) -> Result<Self, PolarsError>
        ensures { Answers result None (λ a. a ≡ self.now) }
    {
        Ok(BooleanArray {
            values: self.values.try_clone(alloc)?,
            validity: share_validity(alloc, self.validity.as_ref())?,
        })
    }
}

// ---- readers

impl BooleanArray {
    /// Tells proofs that the lists are sound, and that there are as many slots as are counted.
    #[tactic(auto, using(crate::proofs::SlotsLemmas::counts))]
    pub fn known(&self)
        ensures sound { AreSoundBooleans self.now }
        ensures count { list_length (boolean_slots self.now) ≡ boolean_count self.now }
    {
        let _count = self.values.len();
    }

    /// The number of slots.
    #[tactic(auto, using(crate::proofs::SlotsLemmas::counts))]
    pub fn len(&self) -> usize
        ensures slots { result ≡ list_length (boolean_slots self.now) }
        ensures count { result ≡ boolean_count self.now }
    {
        self.values.len()
    }

    /// Whether there is no slot.
    pub fn is_empty(&self) -> bool
        ensures { result ≡ (boolean_count self.now == 0) }
    {
        self.len() == 0
    }

    /// The data type, which is the one of truth values.
    pub fn dtype(&self) -> ArrowDataType
        ensures dtype { result ≡ types.Boolean }
        ensures own { type_fault result ≡ None }
    {
        ArrowDataType::Boolean
    }

    /// The truth values, of null slots too.
    pub fn values(&self) -> &Bitmap
        ensures { result.now ≡ self.now.values }
    {
        &self.values
    }

    /// The validity, where one is given.
    pub fn validity(&self) -> Option<&Bitmap>
        ensures { option_map (λ bits. bits.now) result ≡ self.now.flags }
    {
        self.validity.as_ref()
    }

    /// The number of null slots, in constant time.
    #[tactic(auto, using(crate::proofs::SlotsLemmas::counts))]
    pub fn null_count(&self) -> usize
        ensures { result ≡ count_by (λ slot. not slot.valid) (boolean_slots self.now) }
    {
        self.known();
        null_count(self.validity())
    }

    /// Whether slot `i` is valid.
    #[tactic(auto, using(crate::proofs::SlotsLemmas::places))]
    pub fn is_valid(&self, i: usize) -> bool
        requires { i < boolean_count self.now }
        ensures { result ≡ (slot_at (boolean_slots self.now) i).valid }
    {
        is_valid_at(self.validity.as_ref(), i)
    }

    /// Whether slot `i` is null.
    pub fn is_null(&self, i: usize) -> bool
        requires { i < boolean_count self.now }
        ensures { result ≡ not (slot_at (boolean_slots self.now) i).valid }
    {
        !self.is_valid(i)
    }

    /// The truth value of slot `i`; a null slot has one too.
    #[tactic(auto, using(crate::proofs::SlotsLemmas::places))]
    pub fn value(&self, i: usize) -> bool
        requires { i < boolean_count self.now }
        ensures value { slice_get self.now.values i ≡ Some result }
        ensures slot { (slot_at (boolean_slots self.now) i).bytes ≡ byte_of result }
    {
        self.values.get_bit(i)
    }

    /// The same as [`BooleanArray::value`].
    pub fn value_unchecked(&self, i: usize) -> bool
        requires { i < boolean_count self.now }
        ensures value { slice_get self.now.values i ≡ Some result }
        ensures slot { (slot_at (boolean_slots self.now) i).bytes ≡ byte_of result }
    {
        self.value(i)
    }

    /// The truth value of slot `i`, or None where it is null.
    #[tactic(auto, using(crate::proofs::SlotsLemmas::rows))]
    pub fn get(&self, i: usize) -> Option<bool>
        requires { i < boolean_count self.now }
        ensures { slice_get (boolean_rows self.now) i ≡ Some result }
    {
        let value = self.value(i);
        if is_valid_at(self.validity.as_ref(), i) {
            Some(value)
        } else {
            None
        }
    }
}

// ---- slices

#[tactic(auto, using(crate::proofs::SlotsLemmas::slices), unfolding(crate::specs::Slots::sliced_booleans))]
impl BooleanArray {
    /// The `length` slots from slot `offset` on, sharing the truth values.
    ///
    /// Takes no memory. `offset` and `length` count slots. The truth values of the part or those cut off are counted, whichever
    /// are fewer, and so are its flags where a validity is given; the validity is dropped where all slots of the part are
    /// valid.
    pub fn sliced(self, offset: usize, length: usize) -> Self
        requires { offset + length ≤ boolean_count self }
        ensures { IsPart self offset length result }
    {
        let mut array = self;
        array.slice(offset, length);
        array
    }

    /// The same as [`BooleanArray::sliced`].
    pub fn sliced_unchecked(self, offset: usize, length: usize) -> Self
        requires { offset + length ≤ boolean_count self }
        ensures { IsPart self offset length result }
    {
        self.sliced(offset, length)
    }

    /// Keeps the `length` slots from slot `offset` on, as [`BooleanArray::sliced`] does.
    pub fn slice(&mut self, offset: usize, length: usize)
        requires { offset + length ≤ boolean_count self.old }
        ensures { IsPart self.old offset length self.new }
    {
        self.values.slice(offset, length);
        slice_validity(&mut self.validity, offset, length);
    }

    /// The same as [`BooleanArray::slice`].
    pub fn slice_unchecked(&mut self, offset: usize, length: usize)
        requires { offset + length ≤ boolean_count self.old }
        ensures { IsPart self.old offset length self.new }
    {
        self.slice(offset, length);
    }
}

impl Splitable for BooleanArray {
    ghost use Rattle.std.specs.Prelude.{◌-◌, ◌≤◌, None};
    ghost use Rattle.column_base.specs.Answers.{Answers};
    ghost use Rattle.column_boolean.specs.Slots.{boolean_count, sliced_booleans, IsPart};

    ghost slot_count = { λ a. boolean_count a };

    ghost front = { λ a place. sliced_booleans a 0 place };

    ghost back = { λ a place. sliced_booleans a place (boolean_count a - place) };

    fn check_bound(&self, offset: usize) -> bool {
        offset <= self.len()
    }

    fn split_at(&self, alloc: Global, offset: usize) -> Result<(Self, Self), PolarsError>
        requires { offset ≤ boolean_count self.now }
        ensures { Answers result None (λ parts. IsPart self.now 0 offset parts.0 × IsPart self.now offset (boolean_count self.now - offset) parts.1) }
    {
        let front = self.try_clone(alloc)?.sliced(0, offset);
        let back = self.try_clone(alloc)?.sliced(offset, self.len() - offset);
        Ok((front, back))
    }

    fn split_at_unchecked(&self, alloc: Global, offset: usize) -> Result<(Self, Self), PolarsError>
        requires { offset ≤ boolean_count self.now }
        ensures { Answers result None (λ parts. IsPart self.now 0 offset parts.0 × IsPart self.now offset (boolean_count self.now - offset) parts.1) }
    {
        self.split_at(alloc, offset)
    }
}

// ---- other flags

impl BooleanArray {
    /// The same truth values beside other flags, or all of them valid where no validity is given. Takes no memory.
    pub fn with_validity(self, validity: Option<Bitmap>) -> Self
        requires { AreFlagsOf (boolean_count self) validity }
        ensures { result ≡ boolean_lists self.values validity }
    {
        let mut array = self;
        array.set_validity(validity);
        array
    }

    /// Puts other flags in place of those that there were, as [`BooleanArray::with_validity`] does.
    pub fn set_validity(&mut self, validity: Option<Bitmap>)
        requires { AreFlagsOf (boolean_count self.old) validity }
        ensures { self.new ≡ boolean_lists self.old.values validity }
    {
        self.validity = validity;
    }

    /// The validity, where one was given. All slots are valid then.
    pub fn take_validity(&mut self) -> Option<Bitmap>
        ensures taken { result ≡ self.old.flags }
        ensures rest { self.new ≡ boolean_lists self.old.values None }
    {
        self.validity.take()
    }
}

// Whether a data type is that of truth values: `WrongDataType` where it is not.
fn check_type(dtype: ArrowDataType) -> Result<(), Cause>
    ensures { GivesCause result (type_fault dtype) (λ _. ⊤) }
{
    match dtype.to_physical_type() {
        PhysicalType::Boolean => Ok(()),
        _ => Err(Cause::WrongDataType),
    }
}
