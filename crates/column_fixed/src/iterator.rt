//! Going over the slots of an array or a builder.

ghost use Rattle.std.specs.Prelude.{◌≡◌, length};
ghost use Rattle.std.specs.List.{filter_map};
ghost use Rattle.column_base.specs.Slots.{values_of, row_of, rows_of};
ghost use Rattle.column_storage.specs.Iterators.{rows_left, values_left, valid_values_left, value_slots_left};
ghost use Rattle.column_fixed.specs.Slots.{fixed_slots};

use crate::array::FixedSizeBinaryArray;
use crate::builder::MutableFixedSizeBinaryArray;
use column_storage::{
    ArrayAccessor, ArrayValuesIter, BitmapIter, Buffer, NonNullValuesIter, Values, ZipValidity,
};

impl Values for FixedSizeBinaryArray {
    ghost use Rattle.column_base.specs.Slots.{values_of};
    ghost use Rattle.column_fixed.specs.Slots.{fixed_slots};

    // seen as a list of bytes
    type Shown = Buffer<u8>;

    ghost items = { λ a. values_of (fixed_slots a) };
}

#[tactic(auto, using(crate::proofs::SlotsLemmas::values))]
impl<'a> ArrayAccessor<'a> for FixedSizeBinaryArray {
    type Item = &'a [u8];

    ghost shown = { λ bytes. bytes.now };

    fn value_unchecked(&'a self, index: usize) -> &'a [u8] {
        self.known();
        self.value(index)
    }

    fn len(&self) -> usize
        ensures { result ≡ length (values_of (fixed_slots self.now)) }
    {
        FixedSizeBinaryArray::len(self)
    }
}

#[tactic(auto, using(crate::proofs::SlotsLemmas::values))]
impl FixedSizeBinaryArray {
    /// The rows, first to last, from both ends: the bytes of each slot, or None where it is null.
    pub fn iter(
        &self,
    ) -> ZipValidity<&[u8], ArrayValuesIter<'_, FixedSizeBinaryArray>, BitmapIter<'_>>
        ensures { rows_left result ≡ rows_of (fixed_slots self.now) }
    {
        self.known();
        ZipValidity::new_with_validity(self.values_iter(), self.validity())
    }

    /// The bytes of each slot, first to last, from both ends; a null slot has bytes too.
    pub fn values_iter(&self) -> ArrayValuesIter<'_, FixedSizeBinaryArray>
        ensures { values_left result ≡ values_of (fixed_slots self.now) }
    {
        ArrayValuesIter::new(self)
    }

    /// The bytes of each valid slot, first to last.
    pub fn non_null_values_iter(&self) -> NonNullValuesIter<'_, FixedSizeBinaryArray>
        ensures values { valid_values_left result ≡ filter_map row_of (fixed_slots self.now) }
        ensures slots { value_slots_left result ≡ length (fixed_slots self.now) }
    {
        self.known();
        NonNullValuesIter::new(self, self.validity())
    }
}

impl<'a> IntoIterator for &'a FixedSizeBinaryArray {
    type Item = Option<&'a [u8]>;

    type IntoIter = ZipValidity<
        &'a [u8],
        ArrayValuesIter<'a, FixedSizeBinaryArray>,
        BitmapIter<'a>,
    >;

    // the rows, first to last
    ghost into_iter_gives = { λ array it. rows_left it ≡ rows_of (fixed_slots array.now) };

    fn into_iter(
        self,
    ) -> ZipValidity<&'a [u8], ArrayValuesIter<'a, FixedSizeBinaryArray>, BitmapIter<'a>> {
        self.iter()
    }
}

// ---- the builder

impl Values for MutableFixedSizeBinaryArray {
    ghost use Rattle.column_base.specs.Slots.{values_of};
    ghost use Rattle.column_fixed.specs.Slots.{fixed_slots};

    // seen as a list of bytes
    type Shown = Buffer<u8>;

    ghost items = { λ b. values_of (fixed_slots b.lists) };
}

#[tactic(auto, using(crate::proofs::SlotsLemmas::values))]
impl<'a> ArrayAccessor<'a> for MutableFixedSizeBinaryArray {
    type Item = &'a [u8];

    ghost shown = { λ bytes. bytes.now };

    fn value_unchecked(&'a self, index: usize) -> &'a [u8] {
        self.known();
        self.value(index)
    }

    fn len(&self) -> usize
        ensures { result ≡ length (values_of (fixed_slots self.now.lists)) }
    {
        MutableFixedSizeBinaryArray::len(self)
    }
}

#[tactic(auto, using(crate::proofs::SlotsLemmas::values))]
impl MutableFixedSizeBinaryArray {
    /// The rows, first to last, from both ends: the bytes of each slot, or None where it is null.
    pub fn iter(
        &self,
    ) -> ZipValidity<&[u8], ArrayValuesIter<'_, MutableFixedSizeBinaryArray>, BitmapIter<'_>>
        ensures { rows_left result ≡ rows_of (fixed_slots self.now.lists) }
    {
        self.known();
        match self.validity() {
            Some(bits) => ZipValidity::new(self.iter_values(), Some(bits.iter())),
            None => ZipValidity::new(self.iter_values(), None),
        }
    }

    /// The bytes of each slot, first to last, from both ends; a null slot has bytes too.
    pub fn iter_values(&self) -> ArrayValuesIter<'_, MutableFixedSizeBinaryArray>
        ensures { values_left result ≡ values_of (fixed_slots self.now.lists) }
    {
        ArrayValuesIter::new(self)
    }
}

impl<'a> IntoIterator for &'a MutableFixedSizeBinaryArray {
    type Item = Option<&'a [u8]>;

    type IntoIter = ZipValidity<
        &'a [u8],
        ArrayValuesIter<'a, MutableFixedSizeBinaryArray>,
        BitmapIter<'a>,
    >;

    // the rows, first to last
    ghost into_iter_gives = { λ builder it. rows_left it ≡ rows_of (fixed_slots builder.now.lists) };

    fn into_iter(
        self,
    ) -> ZipValidity<&'a [u8], ArrayValuesIter<'a, MutableFixedSizeBinaryArray>, BitmapIter<'a>> {
        self.iter()
    }
}
