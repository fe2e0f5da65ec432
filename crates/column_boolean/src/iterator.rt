//! Going over the slots of an array.

ghost use Rattle.std.specs.Prelude.{◌≡◌, length};
ghost use Rattle.column_storage.specs.Bits.{flags_of, valid_values};
ghost use Rattle.column_storage.specs.Iterators.{bits_left, rows_left, valid_values_left, value_slots_left};
ghost use Rattle.column_boolean.specs.Slots.{boolean_count};
ghost use Rattle.column_boolean.specs.Rows.{boolean_rows};

use crate::array::BooleanArray;
use column_storage::{ArrayAccessor, BitmapIter, NonNullValuesIter, Values, ZipValidity};

impl Values for BooleanArray {
    type Shown = bool;

    ghost items = { λ a. a.values };
}

impl<'a> ArrayAccessor<'a> for BooleanArray {
    ghost use Rattle.std.specs.Prelude.{◌≡◌, length};

    type Item = bool;

    ghost shown = { λ value. value };

    fn value_unchecked(&'a self, index: usize) -> bool {
        self.value(index)
    }

    fn len(&self) -> usize
        ensures { result ≡ length self.now.values }
    {
        BooleanArray::len(self)
    }
}

impl BooleanArray {
    /// The rows, first to last, from both ends: the truth value of each slot, or None where it is null.
    pub fn iter(&self) -> ZipValidity<bool, BitmapIter<'_>, BitmapIter<'_>>
        ensures { rows_left result ≡ boolean_rows self.now }
    {
        self.known();
        ZipValidity::new_with_validity(self.values_iter(), self.validity())
    }

    /// The truth value of each slot, first to last, from both ends; a null slot has one too.
    pub fn values_iter(&self) -> BitmapIter<'_>
        ensures { bits_left result ≡ self.now.values }
    {
        self.values().iter()
    }

    /// The truth value of each valid slot, first to last.
    pub fn non_null_values_iter(&self) -> NonNullValuesIter<'_, BooleanArray>
        ensures values { valid_values_left result ≡ valid_values (flags_of (boolean_count self.now) self.now.flags) self.now.values }
        ensures slots { value_slots_left result ≡ boolean_count self.now }
    {
        self.known();
        NonNullValuesIter::new(self, self.validity())
    }
}

impl<'a> IntoIterator for &'a BooleanArray {
    type Item = Option<bool>;

    type IntoIter = ZipValidity<bool, BitmapIter<'a>, BitmapIter<'a>>;

    // the rows, first to last
    ghost into_iter_gives = { λ array it. rows_left it ≡ boolean_rows array.now };

    fn into_iter(self) -> ZipValidity<bool, BitmapIter<'a>, BitmapIter<'a>> {
        self.iter()
    }
}
