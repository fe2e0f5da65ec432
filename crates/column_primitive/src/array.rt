//! The array: its constructors, its readers, and its cheap changes.

ghost use Rattle.std.specs.Prelude.{◌≡◌, ◌+◌, ◌<◌, ◌≤◌, ◌^◌, ◌==◌, not, [], false, length as list_length, replicate, count_by, option_map, slice_get, None, Some, IfSome, MatchOption};
ghost use Rattle.std.specs.Option.{option_copied};
ghost use Rattle.column_base.specs.DataTypes.{default_type};
ghost use Rattle.column_base.specs.Answers.{Gives, GivesCause, Answers};
ghost use Rattle.column_base.specs.Slots.{slot_at};
ghost use Rattle.column_storage.specs.Validity.{AreFlagsOf};
ghost use Rattle.column_primitive.specs.Types.{number_type_fault};
ghost use Rattle.column_primitive.specs.Numbers.{number_lists, number_array, number_slots, number_count, number_at, number_array_fault, AreSoundNumbers, IsSoundArray, IsNumberPart};

use crate::builder::MutablePrimitiveArray;
use crate::types::{check_number_type, number_dtype};
use column_base::{ArrowDataType, Cause, NativeType, PolarsError, Splitable};
use column_storage::{
    Bitmap, Buffer, check_validity, flags_into_mut, is_valid_at, null_count, share_validity,
    slice_validity,
};
use std::alloc::Global;
use std::marker::Model;

/// A column of optional numbers, semantically an immutable `Vec<Option<T>>`.
///
/// A slice or a share costs the same whatever the number of slots, but for the flags that a slice counts. The data type
/// lies in the physical type of the numbers, and a validity that is given has a flag for each slot. Arrow columnar
/// format, "Fixed-size Primitive Layout".
#[derive(Drop)]
pub struct PrimitiveArray<T: NativeType> {
    dtype: ArrowDataType,
    values: Buffer<T>,
    validity: Option<Bitmap>,
}

impl<T: NativeType> Model for PrimitiveArray<T> {
    ghost use Rattle.column_primitive.specs.Numbers.{NumberArray, number_array, number_lists, IsSoundArray};

    ghost Value = { NumberArray T };

    ghost view = { λ a. number_array a.dtype (number_lists a.values a.validity) };

    ghost invariant = { λ a. IsSoundArray T.PRIMITIVE (number_array a.dtype (number_lists a.values a.validity)) };
}

// ---- constructors

impl<T: NativeType> PrimitiveArray<T> {
    /// The column of these numbers, which mean what the data type says. Takes no memory.
    ///
    /// The first that stands of `ValidityLength` where a validity is given whose length is not the number of slots, and
    /// `WrongDataType` where the data type lies in another physical type.
    #[tactic(auto, using(crate::proofs::NumbersLemmas::fine))]
    pub fn try_new(
        dtype: ArrowDataType,
        values: Buffer<T>,
        validity: Option<Bitmap>,
    ) -> Result<Self, PolarsError>
        ensures { let array = number_array dtype (number_lists values validity) in Gives result (number_array_fault T.PRIMITIVE array) (λ a. a ≡ array) }
    {
        check_validity(validity.as_ref(), values.len())?;
        check_number_type(dtype, T::PRIMITIVE)?;
        Ok(PrimitiveArray {
            dtype,
            values,
            validity,
        })
    }

    /// The same as [`PrimitiveArray::try_new`].
    pub fn from_inner(
        dtype: ArrowDataType,
        values: Buffer<T>,
        validity: Option<Bitmap>,
    ) -> Result<Self, PolarsError>
        ensures { let array = number_array dtype (number_lists values validity) in Gives result (number_array_fault T.PRIMITIVE array) (λ a. a ≡ array) }
    {
        PrimitiveArray::try_new(dtype, values, validity)
    }

    /// The same as [`PrimitiveArray::try_new`], of parts without a fault.
    pub fn new(dtype: ArrowDataType, values: Buffer<T>, validity: Option<Bitmap>) -> Self
        requires { number_array_fault T.PRIMITIVE (number_array dtype (number_lists values validity)) ≡ None }
        ensures { result ≡ number_array dtype (number_lists values validity) }
    {
        match PrimitiveArray::try_new(dtype, values, validity) {
            Ok(array) => array,
            Err(_) => unreachable!(),
        }
    }

    /// The column of these sound parts, without a look at them. Takes no memory.
    pub fn new_unchecked(dtype: ArrowDataType, values: Buffer<T>, validity: Option<Bitmap>) -> Self
        requires { IsSoundArray T.PRIMITIVE (number_array dtype (number_lists values validity)) }
        ensures { result ≡ number_array dtype (number_lists values validity) }
    {
        PrimitiveArray {
            dtype,
            values,
            validity,
        }
    }

    /// The same as [`PrimitiveArray::new_unchecked`].
    pub fn from_inner_unchecked(
        dtype: ArrowDataType,
        values: Buffer<T>,
        validity: Option<Bitmap>,
    ) -> Self
        requires { IsSoundArray T.PRIMITIVE (number_array dtype (number_lists values validity)) }
        ensures { result ≡ number_array dtype (number_lists values validity) }
    {
        PrimitiveArray::new_unchecked(dtype, values, validity)
    }

    /// The column without slots.
    ///
    /// `NoMemory` where there is none for the count of owners.
    pub fn new_empty(alloc: Global, dtype: ArrowDataType) -> Result<Self, PolarsError>
        requires { number_type_fault T.PRIMITIVE dtype ≡ None }
        ensures { Answers result None (λ a. a ≡ number_array dtype (number_lists [] None)) }
    {
        Ok(PrimitiveArray {
            dtype,
            values: Buffer::new(alloc)?,
            validity: None,
        })
    }

    /// `length` null slots, whose number is zero.
    ///
    /// `NoMemory` where there is none for their numbers and flags.
    #[tactic(auto, using(crate::proofs::NumbersLemmas::null_numbers))]
    pub fn new_null(alloc: Global, dtype: ArrowDataType, length: usize) -> Result<Self, PolarsError>
        requires { number_type_fault T.PRIMITIVE dtype ≡ None }
        ensures { Answers result None (λ a. a ≡ number_array dtype (number_lists (replicate length T.zero_value) (Some (replicate length false)))) }
    {
        Ok(PrimitiveArray {
            dtype,
            values: Buffer::from_vec(alloc, repeated(alloc, T::zero(), length)?)?,
            validity: Some(Bitmap::new_zeroed(alloc, length)?),
        })
    }

    /// The same column, which shares the memory of this one.
    ///
    /// Copies no slot and takes no memory. `NoMemory` where a count of owners is full.
    pub fn try_clone(&self, alloc: Global) -> Result<Self, PolarsError>
        ensures { Answers result None (λ a. a ≡ self.now) }
    {
        Ok(PrimitiveArray {
            dtype: self.dtype,
            values: self.values.try_clone(alloc)?,
            validity: share_validity(alloc, self.validity.as_ref())?,
        })
    }

    /// The data type of plain numbers of this type.
    pub fn default_dtype() -> ArrowDataType
        ensures dtype { result ≡ default_type T.PRIMITIVE }
        ensures own { number_type_fault T.PRIMITIVE result ≡ None }
    {
        number_dtype(T::PRIMITIVE)
    }
}

/// `length` times the same number.
///
/// `NoMemory` where there is none for them.
pub(crate) fn repeated<T: NativeType>(
    alloc: Global,
    value: T,
    length: usize,
) -> Result<Vec<T>, PolarsError>
    ensures { Answers result None (λ values. values.items ≡ replicate length value) }
{
    let mut values = Vec::with_capacity(alloc, length)?;
    values.resize(length, value)?;
    Ok(values)
}

// ---- readers

impl<T: NativeType> PrimitiveArray<T> {
    /// Tells proofs that the data type and the lists are sound, that there are as many slots as are counted, and that
    /// their number is a `usize`.
    #[tactic(auto, using(crate::proofs::NumbersLemmas::counts))]
    pub fn known(&self)
        ensures own { number_type_fault T.PRIMITIVE self.now.dtype ≡ None }
        ensures sound { AreSoundNumbers self.now.lists }
        ensures count { list_length (number_slots T.le_bytes self.now.lists) ≡ number_count self.now.lists }
        ensures fits { number_count self.now.lists < 2 ^ 64 }
    {
        let _count = self.values.len();
    }

    /// The number of slots.
    #[tactic(auto, using(crate::proofs::NumbersLemmas::counts))]
    pub fn len(&self) -> usize
        ensures slots { result ≡ list_length (number_slots T.le_bytes self.now.lists) }
        ensures count { result ≡ number_count self.now.lists }
    {
        self.values.len()
    }

    /// Whether there is no slot.
    pub fn is_empty(&self) -> bool
        ensures { result ≡ (number_count self.now.lists == 0) }
    {
        self.len() == 0
    }

    /// The data type.
    pub fn dtype(&self) -> ArrowDataType
        ensures dtype { result ≡ self.now.dtype }
        ensures own { number_type_fault T.PRIMITIVE result ≡ None }
    {
        self.dtype
    }

    /// The numbers; a null slot has one too.
    pub fn values(&self) -> &Buffer<T>
        ensures { result.now ≡ self.now.lists.numbers }
    {
        &self.values
    }

    /// The validity, where one is given.
    pub fn validity(&self) -> Option<&Bitmap>
        ensures { option_map (λ bits. bits.now) result ≡ self.now.lists.flags }
    {
        self.validity.as_ref()
    }

    /// The number of null slots, in constant time.
    #[tactic(auto, using(crate::proofs::NumbersLemmas::counts))]
    pub fn null_count(&self) -> usize
        ensures { result ≡ count_by (λ slot. not slot.valid) (number_slots T.le_bytes self.now.lists) }
    {
        self.known();
        null_count(self.validity())
    }

    /// Whether slot `i` is valid.
    #[tactic(auto, using(crate::proofs::NumbersLemmas::places))]
    pub fn is_valid(&self, i: usize) -> bool
        requires { i < number_count self.now.lists }
        ensures { result ≡ (slot_at (number_slots T.le_bytes self.now.lists) i).valid }
    {
        is_valid_at(self.validity.as_ref(), i)
    }

    /// Whether slot `i` is null.
    pub fn is_null(&self, i: usize) -> bool
        requires { i < number_count self.now.lists }
        ensures { result ≡ not (slot_at (number_slots T.le_bytes self.now.lists) i).valid }
    {
        !self.is_valid(i)
    }

    /// The number of slot `i`; a null slot has one too.
    pub fn value(&self, i: usize) -> T
        requires { i < number_count self.now.lists }
        ensures { slice_get self.now.lists.numbers i ≡ Some result }
    {
        self.values.as_slice()[i]
    }

    /// The same as [`PrimitiveArray::value`].
    pub fn value_unchecked(&self, i: usize) -> T
        requires { i < number_count self.now.lists }
        ensures { slice_get self.now.lists.numbers i ≡ Some result }
    {
        self.value(i)
    }

    /// The number of slot `i`, or None where it is null.
    pub fn get(&self, i: usize) -> Option<T>
        requires { i < number_count self.now.lists }
        ensures { result ≡ number_at self.now.lists i }
    {
        if is_valid_at(self.validity.as_ref(), i) {
            Some(self.value(i))
        } else {
            None
        }
    }

    /// The parts: the data type, the numbers and the validity. Takes no memory.
    pub fn into_inner(self) -> (ArrowDataType, Buffer<T>, Option<Bitmap>)
        ensures parts { number_array result.0 (number_lists result.1 result.2) ≡ self }
        ensures sound { IsSoundArray T.PRIMITIVE self }
    {
        let PrimitiveArray {
            dtype,
            values,
            validity,
        } = self;
        (dtype, values, validity)
    }
}

// ---- a builder of the same slots

impl<T: NativeType> PrimitiveArray<T> {
    /// The same slots of the same data type, to be changed.
    ///
    /// The numbers and the flags are kept where no other column shares them, and are copied otherwise. `NoMemory` where
    /// there is none for the copies.
    pub fn into_mut(self, alloc: Global) -> Result<MutablePrimitiveArray<T>, PolarsError>
        ensures { Answers result None (λ b. b.array ≡ self) }
    {
        let PrimitiveArray {
            dtype,
            values,
            validity,
        } = self;
        let values = values.make_mut(alloc)?;
        let validity = flags_into_mut(alloc, validity)?;
        Ok(MutablePrimitiveArray::of(dtype, values, validity))
    }
}

// ---- slices

#[tactic(auto, using(crate::proofs::NumbersLemmas::slices), unfolding(crate::specs::Numbers::sliced_numbers))]
impl<T: NativeType> PrimitiveArray<T> {
    /// The `length` slots from slot `offset` on, which share the numbers.
    ///
    /// Takes no memory. `offset` and `length` count slots. Where a validity is given, the flags of the part or those
    /// cut off are counted, whichever are fewer; the validity is dropped where all slots of the part are valid.
    pub fn sliced(self, offset: usize, length: usize) -> Self
        requires { offset + length ≤ number_count self.lists }
        ensures { IsNumberPart T.le_bytes self offset length result }
    {
        let mut array = self;
        array.slice(offset, length);
        array
    }

    /// The same as [`PrimitiveArray::sliced`].
    pub fn sliced_unchecked(self, offset: usize, length: usize) -> Self
        requires { offset + length ≤ number_count self.lists }
        ensures { IsNumberPart T.le_bytes self offset length result }
    {
        self.sliced(offset, length)
    }

    /// Keeps the `length` slots from slot `offset` on, as [`PrimitiveArray::sliced`] does.
    pub fn slice(&mut self, offset: usize, length: usize)
        requires { offset + length ≤ number_count self.old.lists }
        ensures { IsNumberPart T.le_bytes self.old offset length self.new }
    {
        self.known();
        self.values.slice(offset, length);
        slice_validity(&mut self.validity, offset, length);
    }

    /// The same as [`PrimitiveArray::slice`].
    pub fn slice_unchecked(&mut self, offset: usize, length: usize)
        requires { offset + length ≤ number_count self.old.lists }
        ensures { IsNumberPart T.le_bytes self.old offset length self.new }
    {
        self.slice(offset, length);
    }
}

impl<T: NativeType> Splitable for PrimitiveArray<T> {
    ghost use Rattle.std.specs.Prelude.{◌-◌, ◌≤◌, None};
    ghost use Rattle.column_base.specs.Answers.{Answers};
    ghost use Rattle.column_primitive.specs.Numbers.{number_count, sliced_array, IsNumberPart};

    ghost slot_count = { λ a. number_count a.lists };

    ghost front = { λ a place. sliced_array a 0 place };

    ghost back = { λ a place. sliced_array a place (number_count a.lists - place) };

    fn check_bound(&self, offset: usize) -> bool {
        offset <= self.len()
    }

    fn split_at(&self, alloc: Global, offset: usize) -> Result<(Self, Self), PolarsError>
        requires { offset ≤ number_count self.now.lists }
        ensures { Answers result None (λ parts. IsNumberPart T.le_bytes self.now 0 offset parts.0 × IsNumberPart T.le_bytes self.now offset (number_count self.now.lists - offset) parts.1) }
    {
        let front = self.try_clone(alloc)?.sliced(0, offset);
        let back = self.try_clone(alloc)?.sliced(offset, self.len() - offset);
        Ok((front, back))
    }

    fn split_at_unchecked(&self, alloc: Global, offset: usize) -> Result<(Self, Self), PolarsError>
        requires { offset ≤ number_count self.now.lists }
        ensures { Answers result None (λ parts. IsNumberPart T.le_bytes self.now 0 offset parts.0 × IsNumberPart T.le_bytes self.now offset (number_count self.now.lists - offset) parts.1) }
    {
        self.split_at(alloc, offset)
    }
}

// ---- other flags, other numbers, another data type

impl<T: NativeType> PrimitiveArray<T> {
    /// The same numbers beside other flags, or all of them valid where no validity is given. Takes no memory.
    pub fn with_validity(self, validity: Option<Bitmap>) -> Self
        requires { AreFlagsOf (number_count self.lists) validity }
        ensures { result ≡ number_array self.dtype (number_lists self.lists.numbers validity) }
    {
        let mut array = self;
        array.set_validity(validity);
        array
    }

    /// Puts other flags in place of those that there were, as [`PrimitiveArray::with_validity`] does.
    pub fn set_validity(&mut self, validity: Option<Bitmap>)
        requires { AreFlagsOf (number_count self.old.lists) validity }
        ensures { self.new ≡ number_array self.old.dtype (number_lists self.old.lists.numbers validity) }
    {
        self.validity = validity;
    }

    /// The validity, where one was given. All slots are valid then.
    pub fn take_validity(&mut self) -> Option<Bitmap>
        ensures taken { result ≡ self.old.lists.flags }
        ensures rest { self.new ≡ number_array self.old.dtype (number_lists self.old.lists.numbers None) }
    {
        self.validity.take()
    }

    /// Puts what `f` makes of the validity in its place. Where no validity is given, `f` is not called, and the column
    /// stays as it is.
    ///
    /// `f` keeps the length of a validity.
    pub fn apply_validity<F: FnOnce(Bitmap) -> Bitmap>(&mut self, f: F)
        requires { IfSome self.old.lists.flags (λ flags. F.pre f flags × ((new : _) → F.post f flags new → list_length new ≡ list_length flags)) }
        ensures { MatchOption self.old.lists.flags (self.new ≡ self.old) (λ flags. (new : _) × F.post f flags new × (self.new ≡ number_array self.old.dtype (number_lists self.old.lists.numbers (Some new)))) }
    {
        self.known();
        if let Some(bits) = self.take_validity() {
            self.set_validity(Some(f(bits)));
        }
    }

    /// Other numbers, as many, beside the same flags. Takes no memory.
    pub fn with_values(self, values: Buffer<T>) -> Self
        requires { list_length values ≡ number_count self.lists }
        ensures { result ≡ number_array self.dtype (number_lists values self.lists.flags) }
    {
        let mut array = self;
        array.set_values(values);
        array
    }

    /// Puts other numbers, as many, in place of those that there were, as [`PrimitiveArray::with_values`] does.
    pub fn set_values(&mut self, values: Buffer<T>)
        requires { list_length values ≡ number_count self.old.lists }
        ensures { self.new ≡ number_array self.old.dtype (number_lists values self.old.lists.flags) }
    {
        self.values = values;
    }

    /// The same slots, which mean what another data type says. Takes no memory.
    pub fn to(self, dtype: ArrowDataType) -> Self
        requires { number_type_fault T.PRIMITIVE dtype ≡ None }
        ensures { result ≡ number_array dtype self.lists }
    {
        let mut array = self;
        array.dtype = dtype;
        array
    }

    /// The same number in each slot, with the same data type and flags.
    ///
    /// `NoMemory` where there is none for the numbers.
    #[tactic(auto, using(crate::proofs::NumbersLemmas::filled))]
    pub fn fill_with(self, alloc: Global, value: T) -> Result<Self, PolarsError>
        ensures { Answers result None (λ a. a ≡ number_array self.dtype (number_lists (replicate (number_count self.lists) value) self.lists.flags)) }
    {
        let values = repeated(alloc, value, self.len())?;
        let values = Buffer::from_vec(alloc, values)?;
        Ok(self.with_values(values))
    }
}
