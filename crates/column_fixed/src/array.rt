//! The array: its constructors, its readers, and its cheap changes.

ghost use Rattle.std.specs.Prelude.{◌≡◌, ◌+◌, ◌*◌, ◌^◌, ◌-◌, ◌<◌, ◌≤◌, ◌==◌, not, [], false, length as list_length, replicate, count_by, option_map, None, Some};
ghost use Rattle.std.specs.Option.{option_copied};
ghost use Rattle.column_base.specs.Answers.{Gives, GivesCause, Answers, ◌or_else◌};
ghost use Rattle.column_base.specs.Slots.{slot_at, row_of};
ghost use Rattle.column_storage.specs.Validity.{AreFlagsOf};
ghost use Rattle.column_fixed.specs.Types.{fixed_type, width_of, type_fault};
ghost use Rattle.column_fixed.specs.Slots.{fixed_lists, fixed_slots, fixed_count, fixed_fault, AreSoundFixed, IsPart};

use crate::types::{count_slots, width_of_type};
use column_base::{ArrowDataType, Cause, PolarsError, Splitable};
use column_storage::{
    Bitmap, Buffer, check_validity, is_valid_at, null_count, share_validity, slice_validity,
};
use std::alloc::Global;
use std::marker::Model;

/// A column of optional byte strings of one width, semantically an immutable `Vec<Option<Vec<u8>>>`.
///
/// A slice or a share costs the same whatever the number of slots, but for the flags that a slice counts. The width is
/// above 0 and divides the number of value bytes, and a validity that is given has a flag for each slot. Arrow columnar
/// format, "Fixed-size Primitive Layout".
#[derive(Drop)]
pub struct FixedSizeBinaryArray {
    size: usize,
    values: Buffer<u8>,
    validity: Option<Bitmap>,
}

impl Model for FixedSizeBinaryArray {
    ghost use Rattle.column_fixed.specs.Slots.{FixedLists, fixed_lists, AreSoundFixed};

    ghost Value = { FixedLists };

    ghost view = { λ a. fixed_lists a.size a.values a.validity };

    ghost invariant = { λ a. AreSoundFixed (fixed_lists a.size a.values a.validity) };
}

// ---- constructors

impl FixedSizeBinaryArray {
    /// The column of these lists, of the width that the data type tells. Takes no memory.
    ///
    /// The first that stands of `WrongDataType` where the data type lies in another physical type, `SizeZero` where the
    /// width is 0, `NotMultiple` where it does not divide the number of value bytes, and `ValidityLength` where a
    /// validity is given whose length is not the number of slots.
    pub fn try_new(
        dtype: ArrowDataType,
        values: Buffer<u8>,
        validity: Option<Bitmap>,
    ) -> Result<Self, PolarsError>
        ensures { let lists = fixed_lists (width_of dtype) values validity in Gives result (type_fault dtype or_else fixed_fault lists) (λ a. a ≡ lists) }
    {
        let size = width_of_type(dtype)?;
        check_lists(size, &values, validity.as_ref())?;
        Ok(FixedSizeBinaryArray {
            size,
            values,
            validity,
        })
    }

    /// The same as [`FixedSizeBinaryArray::try_new`], of a data type and lists without a fault.
    pub fn new(dtype: ArrowDataType, values: Buffer<u8>, validity: Option<Bitmap>) -> Self
        requires own { type_fault dtype ≡ None }
        requires lists { fixed_fault (fixed_lists (width_of dtype) values validity) ≡ None }
        ensures { result ≡ fixed_lists (width_of dtype) values validity }
    {
        match FixedSizeBinaryArray::try_new(dtype, values, validity) {
            Ok(array) => array,
            Err(_) => unreachable!(),
        }
    }

    // The column of these sound lists, without a look at them. Takes no memory.
    pub(crate) fn of(size: usize, values: Buffer<u8>, validity: Option<Bitmap>) -> Self
        requires { AreSoundFixed (fixed_lists size values validity) }
        ensures { result ≡ fixed_lists size values validity }
    {
        FixedSizeBinaryArray {
            size,
            values,
            validity,
        }
    }

    /// The column without slots.
    ///
    /// `NoMemory` where there is none for the count of owners.
    #[tactic(auto, using(crate::proofs::SlotsLemmas::nulls))]
    pub fn new_empty(alloc: Global, dtype: ArrowDataType) -> Result<Self, PolarsError>
        requires own { type_fault dtype ≡ None }
        requires positive { 0 < width_of dtype }
        ensures { Answers result None (λ a. a ≡ fixed_lists (width_of dtype) [] None) }
    {
        let size = Self::get_size(&dtype);
        Ok(FixedSizeBinaryArray::of(size, Buffer::new(alloc)?, None))
    }

    /// `length` null slots, of zeros.
    ///
    /// `NoMemory` where there is none for their bytes and flags.
    #[tactic(auto, using(crate::proofs::SlotsLemmas::nulls))]
    pub fn new_null(alloc: Global, dtype: ArrowDataType, length: usize) -> Result<Self, PolarsError>
        requires own { type_fault dtype ≡ None }
        requires positive { 0 < width_of dtype }
        requires fits { length * width_of dtype < 2 ^ 64 }
        ensures { Answers result None (λ a. a ≡ fixed_lists (width_of dtype) (replicate (length * width_of dtype) 0) (Some (replicate length false))) }
    {
        let size = Self::get_size(&dtype);
        let values = Buffer::from_vec(alloc, vec![in alloc; 0; length * size]?)?;
        let validity = Bitmap::new_zeroed(alloc, length)?;
        Ok(FixedSizeBinaryArray::of(size, values, Some(validity)))
    }

    /// The same column, which shares the memory of this one.
    ///
    /// Copies no slot and takes no memory. `NoMemory` where a count of owners is full.
    pub fn try_clone(&self, alloc: Global) -> Result<Self, PolarsError>
        ensures { Answers result None (λ a. a ≡ self.now) }
    {
        Ok(FixedSizeBinaryArray {
            size: self.size,
            values: self.values.try_clone(alloc)?,
            validity: share_validity(alloc, self.validity.as_ref())?,
        })
    }

    /// The width of a slot in bytes that a data type tells.
    pub fn get_size(dtype: &ArrowDataType) -> usize
        requires own { type_fault dtype.now ≡ None }
        requires positive { 0 < width_of dtype.now }
        ensures { result ≡ width_of dtype.now }
    {
        match width_of_type(*dtype) {
            Ok(size) => size,
            Err(_) => unreachable!(),
        }
    }

    /// The same column with this data type, which is its own: there is one for each width.
    pub fn to(self, dtype: ArrowDataType) -> Self
        requires { dtype ≡ fixed_type self.width }
        ensures { result ≡ self }
    {
        let _ = dtype;
        self
    }
}

// ---- readers

impl FixedSizeBinaryArray {
    /// Tells proofs that the lists are sound, that there are as many slots as are counted, and that their width and the
    /// number of their bytes are a `usize`.
    #[tactic(auto, using(crate::proofs::SlotsLemmas::counts))]
    pub fn known(&self)
        ensures sound { AreSoundFixed self.now }
        ensures count { list_length (fixed_slots self.now) ≡ fixed_count self.now }
        ensures width { self.now.width < 2 ^ 64 }
        ensures fits { list_length self.now.values < 2 ^ 64 }
    {
        let _bytes = self.values.len();
        let _size = self.size;
    }

    /// The number of slots.
    #[tactic(auto, using(crate::proofs::SlotsLemmas::counts))]
    pub fn len(&self) -> usize
        ensures slots { result ≡ list_length (fixed_slots self.now) }
        ensures count { result ≡ fixed_count self.now }
    {
        self.values.len() / self.size
    }

    /// Whether there is no slot.
    pub fn is_empty(&self) -> bool
        ensures { result ≡ (fixed_count self.now == 0) }
    {
        self.len() == 0
    }

    /// The width of a slot in bytes.
    pub fn size(&self) -> usize
        ensures size { result ≡ self.now.width }
        ensures positive { 0 < result }
    {
        self.size
    }

    /// The data type, which is the one of byte strings of this width.
    pub fn dtype(&self) -> ArrowDataType
        ensures dtype { result ≡ fixed_type self.now.width }
        ensures own { type_fault result ≡ None }
    {
        ArrowDataType::FixedSizeBinary(self.size)
    }

    /// The value bytes, those of each slot after those of the one before it.
    pub fn values(&self) -> &Buffer<u8>
        ensures { result.now ≡ self.now.values }
    {
        &self.values
    }

    /// The validity, where one is given.
    pub fn validity(&self) -> Option<&Bitmap>
        ensures { option_map (λ bits. bits.now) result ≡ self.now.flags }
    {
        self.validity.as_ref()
    }

    /// The number of null slots, in constant time.
    #[tactic(auto, using(crate::proofs::SlotsLemmas::counts))]
    pub fn null_count(&self) -> usize
        ensures { result ≡ count_by (λ slot. not slot.valid) (fixed_slots self.now) }
    {
        self.known();
        null_count(self.validity())
    }

    /// Whether slot `i` is valid.
    #[tactic(auto, using(crate::proofs::SlotsLemmas::places))]
    pub fn is_valid(&self, i: usize) -> bool
        requires { i < fixed_count self.now }
        ensures { result ≡ (slot_at (fixed_slots self.now) i).valid }
    {
        is_valid_at(self.validity.as_ref(), i)
    }

    /// Whether slot `i` is null.
    pub fn is_null(&self, i: usize) -> bool
        requires { i < fixed_count self.now }
        ensures { result ≡ not (slot_at (fixed_slots self.now) i).valid }
    {
        !self.is_valid(i)
    }

    /// The bytes of slot `i`; a null slot has bytes too.
    #[tactic(auto, using(crate::proofs::SlotsLemmas::places))]
    pub fn value(&self, i: usize) -> &[u8]
        requires { i < fixed_count self.now }
        ensures { result.now ≡ (slot_at (fixed_slots self.now) i).bytes }
    {
        self.known();
        let start = i * self.size;
        &self.values.as_slice()[start..start + self.size]
    }

    /// The same as [`FixedSizeBinaryArray::value`].
    pub fn value_unchecked(&self, i: usize) -> &[u8]
        requires { i < fixed_count self.now }
        ensures { result.now ≡ (slot_at (fixed_slots self.now) i).bytes }
    {
        self.value(i)
    }

    /// The bytes of slot `i`, or None where it is null.
    pub fn get(&self, i: usize) -> Option<&[u8]>
        requires { i < fixed_count self.now }
        ensures { option_map (λ bytes. bytes.now) result ≡ row_of (slot_at (fixed_slots self.now) i) }
    {
        if self.is_valid(i) {
            Some(self.value(i))
        } else {
            None
        }
    }

    /// The lists: the data type, the value bytes and the validity. Takes no memory.
    pub fn into_inner(self) -> (ArrowDataType, Buffer<u8>, Option<Bitmap>)
        ensures dtype { result.0 ≡ fixed_type self.width }
        ensures own { type_fault result.0 ≡ None }
        ensures values { result.1 ≡ self.values }
        ensures flags { result.2 ≡ self.flags }
        ensures sound { AreSoundFixed (fixed_lists self.width result.1 result.2) }
    {
        let FixedSizeBinaryArray {
            size,
            values,
            validity,
        } = self;
        (ArrowDataType::FixedSizeBinary(size), values, validity)
    }
}

// ---- slices

#[tactic(auto, using(crate::proofs::SlotsLemmas::slices), unfolding(crate::specs::Slots::sliced_fixed))]
impl FixedSizeBinaryArray {
    /// The `length` slots from slot `offset` on, sharing value bytes.
    ///
    /// Takes no memory. `offset` and `length` count slots. Where a validity is given, the flags of the part or those
    /// cut off are counted, whichever are fewer; the validity is dropped where all slots of the part are valid.
    pub fn sliced(self, offset: usize, length: usize) -> Self
        requires { offset + length ≤ fixed_count self }
        ensures { IsPart self offset length result }
    {
        let mut array = self;
        array.slice(offset, length);
        array
    }

    /// The same as [`FixedSizeBinaryArray::sliced`].
    pub fn sliced_unchecked(self, offset: usize, length: usize) -> Self
        requires { offset + length ≤ fixed_count self }
        ensures { IsPart self offset length result }
    {
        self.sliced(offset, length)
    }

    /// Keeps the `length` slots from slot `offset` on, as [`FixedSizeBinaryArray::sliced`] does.
    pub fn slice(&mut self, offset: usize, length: usize)
        requires { offset + length ≤ fixed_count self.old }
        ensures { IsPart self.old offset length self.new }
    {
        self.known();
        self.values.slice(offset * self.size, length * self.size);
        slice_validity(&mut self.validity, offset, length);
    }

    /// The same as [`FixedSizeBinaryArray::slice`].
    pub fn slice_unchecked(&mut self, offset: usize, length: usize)
        requires { offset + length ≤ fixed_count self.old }
        ensures { IsPart self.old offset length self.new }
    {
        self.slice(offset, length);
    }
}

impl Splitable for FixedSizeBinaryArray {
    ghost use Rattle.std.specs.Prelude.{◌-◌, ◌≤◌, None};
    ghost use Rattle.column_base.specs.Answers.{Answers};
    ghost use Rattle.column_fixed.specs.Slots.{fixed_count, sliced_fixed, IsPart};

    ghost slot_count = { λ a. fixed_count a };

    ghost front = { λ a place. sliced_fixed a 0 place };

    ghost back = { λ a place. sliced_fixed a place (fixed_count a - place) };

    fn check_bound(&self, offset: usize) -> bool {
        offset <= self.len()
    }

    fn split_at(&self, alloc: Global, offset: usize) -> Result<(Self, Self), PolarsError>
        requires { offset ≤ fixed_count self.now }
        ensures { Answers result None (λ parts. IsPart self.now 0 offset parts.0 × IsPart self.now offset (fixed_count self.now - offset) parts.1) }
    {
        let front = self.try_clone(alloc)?.sliced(0, offset);
        let back = self.try_clone(alloc)?.sliced(offset, self.len() - offset);
        Ok((front, back))
    }

    fn split_at_unchecked(&self, alloc: Global, offset: usize) -> Result<(Self, Self), PolarsError>
        requires { offset ≤ fixed_count self.now }
        ensures { Answers result None (λ parts. IsPart self.now 0 offset parts.0 × IsPart self.now offset (fixed_count self.now - offset) parts.1) }
    {
        self.split_at(alloc, offset)
    }
}

// ---- other flags

impl FixedSizeBinaryArray {
    /// The same bytes beside other flags, or all of them valid where no validity is given. Takes no memory.
    pub fn with_validity(self, validity: Option<Bitmap>) -> Self
        requires { AreFlagsOf (fixed_count self) validity }
        ensures { result ≡ fixed_lists self.width self.values validity }
    {
        let mut array = self;
        array.set_validity(validity);
        array
    }

    /// Puts other flags in place of those that there were, as [`FixedSizeBinaryArray::with_validity`] does.
    pub fn set_validity(&mut self, validity: Option<Bitmap>)
        requires { AreFlagsOf (fixed_count self.old) validity }
        ensures { self.new ≡ fixed_lists self.old.width self.old.values validity }
    {
        self.validity = validity;
    }

    /// The validity, where one was given. All slots are valid then.
    pub fn take_validity(&mut self) -> Option<Bitmap>
        ensures taken { result ≡ self.old.flags }
        ensures rest { self.new ≡ fixed_lists self.old.width self.old.values None }
    {
        self.validity.take()
    }
}

// Whether lists are sound: the first that stands of `SizeZero`, `NotMultiple` and `ValidityLength`.
fn check_lists(size: usize, values: &Buffer<u8>, validity: Option<&Bitmap>) -> Result<(), Cause>
    ensures { let lists = fixed_lists size values.now (option_copied validity.entry) in GivesCause result (fixed_fault lists) (λ _. AreSoundFixed lists) }
{
    let count = count_slots(size, values.len())?;
    check_validity(validity, count)?;
    Ok(())
}
