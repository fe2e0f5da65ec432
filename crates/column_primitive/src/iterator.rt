//! Going over the slots of an array or a builder.

ghost use Rattle.std.specs.Prelude.{◌≡◌, length, slice_get, Some};
ghost use Rattle.column_storage.specs.Iterators.{rows_left, values_left, valid_values_left, value_slots_left};
ghost use Rattle.column_primitive.specs.Numbers.{number_slots, number_rows, valid_numbers};

use crate::array::PrimitiveArray;
use crate::builder::MutablePrimitiveArray;
use column_base::NativeType;
use column_storage::{
    ArrayAccessor, ArrayValuesIter, BitmapIter, NonNullValuesIter, Values, ZipValidity,
};

/// The number of each slot that is left of an array, of null ones too.
pub type PrimitiveValuesIter<'a, T> = ArrayValuesIter<'a, PrimitiveArray<T>>;

/// The number of each slot that is left of a builder, of null ones too.
pub type MutablePrimitiveValuesIter<'a, T> = ArrayValuesIter<'a, MutablePrimitiveArray<T>>;

impl<T: NativeType> Values for PrimitiveArray<T> {
    type Shown = T;

    ghost items = { λ a. a.lists.numbers };
}

impl<'a, T: NativeType + 'static> ArrayAccessor<'a> for PrimitiveArray<T> {
    ghost use Rattle.std.specs.Prelude.{◌≡◌, length};

    type Item = T;

    ghost shown = { λ value. value };

    fn value_unchecked(&'a self, index: usize) -> T {
        self.value(index)
    }

    fn len(&self) -> usize
        ensures { result ≡ length self.now.lists.numbers }
    {
        PrimitiveArray::len(self)
    }
}

impl<T: NativeType + 'static> PrimitiveArray<T> {
    /// The rows, first to last, from both ends: the number of each slot, or None where it is null.
    pub fn iter(&self) -> ZipValidity<T, PrimitiveValuesIter<'_, T>, BitmapIter<'_>>
        ensures { rows_left result ≡ number_rows self.now.lists }
    {
        self.known();
        ZipValidity::new_with_validity(self.values_iter(), self.validity())
    }

    /// The number of each slot, first to last, from both ends; a null slot has one too.
    pub fn values_iter(&self) -> PrimitiveValuesIter<'_, T>
        ensures { values_left result ≡ self.now.lists.numbers }
    {
        ArrayValuesIter::new(self)
    }

    /// The number of each valid slot, first to last.
    pub fn non_null_values_iter(&self) -> NonNullValuesIter<'_, PrimitiveArray<T>>
        ensures values { valid_values_left result ≡ valid_numbers self.now.lists }
        ensures slots { value_slots_left result ≡ length self.now.lists.numbers }
    {
        self.known();
        NonNullValuesIter::new(self, self.validity())
    }
}

impl<'a, T: NativeType + 'static> IntoIterator for &'a PrimitiveArray<T> {
    type Item = Option<T>;

    type IntoIter = ZipValidity<T, PrimitiveValuesIter<'a, T>, BitmapIter<'a>>;

    // the rows, first to last
    ghost into_iter_gives = { λ array it. rows_left it ≡ number_rows array.now.lists };

    fn into_iter(self) -> ZipValidity<T, PrimitiveValuesIter<'a, T>, BitmapIter<'a>> {
        self.iter()
    }
}

// ---- the builder

impl<T: NativeType> Values for MutablePrimitiveArray<T> {
    type Shown = T;

    ghost items = { λ b. b.array.lists.numbers };
}

impl<'a, T: NativeType + 'static> ArrayAccessor<'a> for MutablePrimitiveArray<T> {
    ghost use Rattle.std.specs.Prelude.{◌≡◌, length};

    type Item = T;

    ghost shown = { λ value. value };

    fn value_unchecked(&'a self, index: usize) -> T {
        self.value(index)
    }

    fn len(&self) -> usize
        ensures { result ≡ length self.now.array.lists.numbers }
    {
        MutablePrimitiveArray::len(self)
    }
}

impl<T: NativeType + 'static> MutablePrimitiveArray<T> {
    /// The rows, first to last, from both ends: the number of each slot, or None where it is null.
    pub fn iter(&self) -> ZipValidity<T, MutablePrimitiveValuesIter<'_, T>, BitmapIter<'_>>
        ensures { rows_left result ≡ number_rows self.now.array.lists }
    {
        self.known();
        match self.validity() {
            Some(bits) => ZipValidity::new(self.values_iter(), Some(bits.iter())),
            None => ZipValidity::new(self.values_iter(), None),
        }
    }

    /// The number of each slot, first to last, from both ends; a null slot has one too.
    pub fn values_iter(&self) -> MutablePrimitiveValuesIter<'_, T>
        ensures { values_left result ≡ self.now.array.lists.numbers }
    {
        ArrayValuesIter::new(self)
    }
}
