//! Going over the slots of an array or a builder.

ghost use Rattle.std.specs.Prelude.{◌≡◌, length, slice_get, Some};
ghost use Rattle.std.specs.List.{filter_map};
ghost use Rattle.column_base.specs.Slots.{values_of, row_of, rows_of};
ghost use Rattle.column_storage.specs.Iterators.{rows_left, values_left, valid_values_left, value_slots_left};
ghost use Rattle.column_binary.specs.Slots.{offset_slots};

use crate::array::BinaryArray;
use crate::builder::MutableBinaryArray;
use crate::values_builder::MutableBinaryValuesArray;
use column_base::Offset;
use column_storage::{
    ArrayAccessor, ArrayValuesIter, BitmapIter, Buffer, NonNullValuesIter, Values, ZipValidity,
};

/// The bytes of each slot that is left of an array, of null ones too.
pub type BinaryValueIter<'a, O> = ArrayValuesIter<'a, BinaryArray<O>>;

impl<O: Offset> Values for BinaryArray<O> {
    ghost use Rattle.column_base.specs.Slots.{values_of};
    ghost use Rattle.column_binary.specs.Slots.{offset_slots};

    // seen as a list of bytes
    type Shown = Buffer<u8>;

    ghost items = { λ a. values_of (offset_slots a) };
}

#[tactic(auto, using(crate::proofs::SlotsLemmas::values))]
impl<'a, O: Offset + 'static> ArrayAccessor<'a> for BinaryArray<O> {
    type Item = &'a [u8];

    ghost shown = { λ bytes. bytes.now };

    fn value_unchecked(&'a self, index: usize) -> &'a [u8] {
        self.known();
        self.value(index)
    }

    fn len(&self) -> usize
        ensures { result ≡ length (values_of (offset_slots self.now)) }
    {
        BinaryArray::len(self)
    }
}

#[tactic(auto, using(crate::proofs::SlotsLemmas::values))]
impl<O: Offset + 'static> BinaryArray<O> {
    /// The rows, first to last, from both ends: the bytes of each slot, or None where it is null.
    pub fn iter(&self) -> ZipValidity<&[u8], BinaryValueIter<'_, O>, BitmapIter<'_>>
        ensures { rows_left result ≡ rows_of (offset_slots self.now) }
    {
        self.known();
        ZipValidity::new_with_validity(self.values_iter(), self.validity())
    }

    /// The bytes of each slot, first to last, from both ends; a null slot has bytes too.
    pub fn values_iter(&self) -> BinaryValueIter<'_, O>
        ensures { values_left result ≡ values_of (offset_slots self.now) }
    {
        ArrayValuesIter::new(self)
    }

    /// The bytes of each valid slot, first to last.
    pub fn non_null_values_iter(&self) -> NonNullValuesIter<'_, BinaryArray<O>>
        ensures values { valid_values_left result ≡ filter_map row_of (offset_slots self.now) }
        ensures slots { value_slots_left result ≡ length (offset_slots self.now) }
    {
        self.known();
        NonNullValuesIter::new(self, self.validity())
    }
}

impl<'a, O: Offset + 'static> IntoIterator for &'a BinaryArray<O> {
    type Item = Option<&'a [u8]>;

    type IntoIter = ZipValidity<&'a [u8], BinaryValueIter<'a, O>, BitmapIter<'a>>;

    // the rows, first to last
    ghost into_iter_gives = { λ array it. rows_left it ≡ rows_of (offset_slots array.now) };

    fn into_iter(self) -> ZipValidity<&'a [u8], BinaryValueIter<'a, O>, BitmapIter<'a>> {
        self.iter()
    }
}

// ---- the builders

/// The bytes of each slot that is left of a builder of values.
pub type MutableBinaryValuesIter<'a, O> = ArrayValuesIter<'a, MutableBinaryValuesArray<O>>;

impl<O: Offset> Values for MutableBinaryArray<O> {
    ghost use Rattle.column_base.specs.Slots.{values_of};
    ghost use Rattle.column_binary.specs.Slots.{offset_slots};

    // seen as a list of bytes
    type Shown = Buffer<u8>;

    ghost items = { λ b. values_of (offset_slots b.lists) };
}

#[tactic(auto, using(crate::proofs::SlotsLemmas::values))]
impl<'a, O: Offset + 'static> ArrayAccessor<'a> for MutableBinaryArray<O> {
    type Item = &'a [u8];

    ghost shown = { λ bytes. bytes.now };

    fn value_unchecked(&'a self, index: usize) -> &'a [u8] {
        self.known();
        self.value(index)
    }

    fn len(&self) -> usize
        ensures { result ≡ length (values_of (offset_slots self.now.lists)) }
    {
        MutableBinaryArray::len(self)
    }
}

#[tactic(auto, using(crate::proofs::SlotsLemmas::values))]
impl<O: Offset + 'static> MutableBinaryArray<O> {
    /// The rows, first to last, from both ends: the bytes of each slot, or None where it is null.
    pub fn iter(
        &self,
    ) -> ZipValidity<&[u8], ArrayValuesIter<'_, MutableBinaryArray<O>>, BitmapIter<'_>>
        ensures { rows_left result ≡ rows_of (offset_slots self.now.lists) }
    {
        self.known();
        match self.validity() {
            Some(bits) => ZipValidity::new(self.values_iter(), Some(bits.iter())),
            None => ZipValidity::new(self.values_iter(), None),
        }
    }

    /// The bytes of each slot, first to last, from both ends; a null slot that was not pushed may have bytes too.
    pub fn values_iter(&self) -> ArrayValuesIter<'_, MutableBinaryArray<O>>
        ensures { values_left result ≡ values_of (offset_slots self.now.lists) }
    {
        ArrayValuesIter::new(self)
    }
}

impl<O: Offset> Values for MutableBinaryValuesArray<O> {
    ghost use Rattle.column_base.specs.Slots.{values_of};
    ghost use Rattle.column_binary.specs.Slots.{offset_slots};

    // seen as a list of bytes
    type Shown = Buffer<u8>;

    ghost items = { λ b. values_of (offset_slots b.lists) };
}

#[tactic(auto, using(crate::proofs::SlotsLemmas::values))]
impl<'a, O: Offset + 'static> ArrayAccessor<'a> for MutableBinaryValuesArray<O> {
    type Item = &'a [u8];

    ghost shown = { λ bytes. bytes.now };

    fn value_unchecked(&'a self, index: usize) -> &'a [u8] {
        self.known();
        self.value(index)
    }

    fn len(&self) -> usize
        ensures { result ≡ length (values_of (offset_slots self.now.lists)) }
    {
        MutableBinaryValuesArray::len(self)
    }
}

impl<O: Offset + 'static> MutableBinaryValuesArray<O> {
    /// The bytes of each slot, first to last, from both ends.
    pub fn iter(&self) -> MutableBinaryValuesIter<'_, O>
        ensures { values_left result ≡ values_of (offset_slots self.now.lists) }
    {
        ArrayValuesIter::new(self)
    }

    /// The same as [`MutableBinaryValuesArray::iter`].
    pub fn values_iter(&self) -> MutableBinaryValuesIter<'_, O>
        ensures { values_left result ≡ values_of (offset_slots self.now.lists) }
    {
        self.iter()
    }
}

impl<'a, O: Offset + 'static> IntoIterator for &'a MutableBinaryValuesArray<O> {
    type Item = &'a [u8];

    type IntoIter = MutableBinaryValuesIter<'a, O>;

    // the values, first to last
    ghost into_iter_gives = { λ array it. values_left it ≡ values_of (offset_slots array.now.lists) };

    fn into_iter(self) -> MutableBinaryValuesIter<'a, O> {
        self.iter()
    }
}
