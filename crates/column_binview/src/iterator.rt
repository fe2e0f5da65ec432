//! Going over the slots of an array.

ghost use Rattle.std.specs.Prelude.{◌≡◌, length, slice_get, Some};
ghost use Rattle.std.specs.List.{filter_map};
ghost use Rattle.column_base.specs.Slots.{values_of, row_of, rows_of};
ghost use Rattle.column_storage.specs.Iterators.{rows_left, values_left, valid_values_left, value_slots_left};
ghost use Rattle.column_binview.specs.Slots.{view_slots};
ghost use Rattle.column_binview.specs.Builders.{lists_of};

use crate::array::{BinaryViewArray, BinaryViewArrayGeneric, Utf8ViewArray};
use crate::builder::{MutableBinaryViewArray, MutablePlBinary, MutablePlString};
use column_base::{BinaryKind, Utf8Kind, ViewKind};
use column_storage::{
    ArrayAccessor, ArrayValuesIter, BitmapIter, Buffer, NonNullValuesIter, Values, ZipValidity,
};

/// The value of each slot that is left of an array, of null ones too.
pub type BinaryViewValueIter<'a, K> = ArrayValuesIter<'a, BinaryViewArrayGeneric<K>>;

impl<K: ViewKind> Values for BinaryViewArrayGeneric<K> {
    ghost use Rattle.column_base.specs.Slots.{values_of};
    ghost use Rattle.column_binview.specs.Slots.{view_slots};

    // seen as a list of bytes
    type Shown = Buffer<u8>;

    ghost items = { λ a. values_of (view_slots a) };
}

// ---- byte strings

#[tactic(auto, using(crate::proofs::SlotsLemmas::values))]
impl<'a> ArrayAccessor<'a> for BinaryViewArray {
    type Item = &'a [u8];

    ghost shown = { λ bytes. bytes.now };

    fn value_unchecked(&'a self, index: usize) -> &'a [u8] {
        self.known();
        self.value(index)
    }

    fn len(&self) -> usize
        ensures { result ≡ length (values_of (view_slots self.now)) }
    {
        BinaryViewArrayGeneric::len(self)
    }
}

#[tactic(auto, using(crate::proofs::SlotsLemmas::values))]
impl BinaryViewArrayGeneric<BinaryKind> {
    /// The rows, first to last, from both ends: the bytes of each slot, or None where it is null.
    pub fn iter(&self) -> ZipValidity<&[u8], BinaryViewValueIter<'_, BinaryKind>, BitmapIter<'_>>
        ensures { rows_left result ≡ rows_of (view_slots self.now) }
    {
        self.known();
        ZipValidity::new_with_validity(self.values_iter(), self.validity())
    }

    /// The bytes of each slot, first to last, from both ends; a null slot has bytes too.
    pub fn values_iter(&self) -> BinaryViewValueIter<'_, BinaryKind>
        ensures { values_left result ≡ values_of (view_slots self.now) }
    {
        ArrayValuesIter::new(self)
    }

    /// The bytes of each valid slot, first to last.
    pub fn non_null_values_iter(&self) -> NonNullValuesIter<'_, BinaryViewArray>
        ensures values { valid_values_left result ≡ filter_map row_of (view_slots self.now) }
        ensures slots { value_slots_left result ≡ length (view_slots self.now) }
    {
        self.known();
        NonNullValuesIter::new(self, self.validity())
    }
}

impl<'a> IntoIterator for &'a BinaryViewArray {
    type Item = Option<&'a [u8]>;

    type IntoIter = ZipValidity<&'a [u8], BinaryViewValueIter<'a, BinaryKind>, BitmapIter<'a>>;

    // the rows, first to last
    ghost into_iter_gives = { λ array it. rows_left it ≡ rows_of (view_slots array.now) };

    fn into_iter(
        self,
    ) -> ZipValidity<&'a [u8], BinaryViewValueIter<'a, BinaryKind>, BitmapIter<'a>> {
        self.iter()
    }
}

// ---- texts

#[tactic(auto, using(crate::proofs::SlotsLemmas::values))]
impl<'a> ArrayAccessor<'a> for Utf8ViewArray {
    type Item = &'a str;

    ghost shown = { λ text. text.now };

    fn value_unchecked(&'a self, index: usize) -> &'a str {
        self.known();
        self.value(index)
    }

    fn len(&self) -> usize
        ensures { result ≡ length (values_of (view_slots self.now)) }
    {
        BinaryViewArrayGeneric::len(self)
    }
}

#[tactic(auto, using(crate::proofs::SlotsLemmas::values))]
impl BinaryViewArrayGeneric<Utf8Kind> {
    /// The rows, first to last, from both ends: the text of each slot, or None where it is null.
    pub fn iter(&self) -> ZipValidity<&str, BinaryViewValueIter<'_, Utf8Kind>, BitmapIter<'_>>
        ensures { rows_left result ≡ rows_of (view_slots self.now) }
    {
        self.known();
        ZipValidity::new_with_validity(self.values_iter(), self.validity())
    }

    /// The text of each slot, first to last, from both ends; a null slot has a text too.
    pub fn values_iter(&self) -> BinaryViewValueIter<'_, Utf8Kind>
        ensures { values_left result ≡ values_of (view_slots self.now) }
    {
        ArrayValuesIter::new(self)
    }

    /// The text of each valid slot, first to last.
    pub fn non_null_values_iter(&self) -> NonNullValuesIter<'_, Utf8ViewArray>
        ensures values { valid_values_left result ≡ filter_map row_of (view_slots self.now) }
        ensures slots { value_slots_left result ≡ length (view_slots self.now) }
    {
        self.known();
        NonNullValuesIter::new(self, self.validity())
    }
}

impl<'a> IntoIterator for &'a Utf8ViewArray {
    type Item = Option<&'a str>;

    type IntoIter = ZipValidity<&'a str, BinaryViewValueIter<'a, Utf8Kind>, BitmapIter<'a>>;

    // the rows, first to last
    ghost into_iter_gives = { λ array it. rows_left it ≡ rows_of (view_slots array.now) };

    fn into_iter(self) -> ZipValidity<&'a str, BinaryViewValueIter<'a, Utf8Kind>, BitmapIter<'a>> {
        self.iter()
    }
}

// ---- builders

/// The value of each slot that is left of a builder, of null ones too.
pub type MutableBinaryViewValueIter<'a, K> = ArrayValuesIter<'a, MutableBinaryViewArray<K>>;

impl<K: ViewKind> Values for MutableBinaryViewArray<K> {
    ghost use Rattle.column_base.specs.Slots.{values_of};
    ghost use Rattle.column_binview.specs.Slots.{view_slots};
    ghost use Rattle.column_binview.specs.Builders.{lists_of};

    // seen as a list of bytes
    type Shown = Buffer<u8>;

    ghost items = { λ b. values_of (view_slots (lists_of b)) };
}

#[tactic(auto, using(crate::proofs::SlotsLemmas::values))]
impl<'a> ArrayAccessor<'a> for MutablePlBinary {
    type Item = &'a [u8];

    ghost shown = { λ bytes. bytes.now };

    fn value_unchecked(&'a self, index: usize) -> &'a [u8] {
        self.known();
        self.value(index)
    }

    fn len(&self) -> usize
        ensures { result ≡ length (values_of (view_slots (lists_of self.now))) }
    {
        MutableBinaryViewArray::len(self)
    }
}

#[tactic(auto, using(crate::proofs::SlotsLemmas::values))]
impl<'a> ArrayAccessor<'a> for MutablePlString {
    type Item = &'a str;

    ghost shown = { λ text. text.now };

    fn value_unchecked(&'a self, index: usize) -> &'a str {
        self.known();
        self.value(index)
    }

    fn len(&self) -> usize
        ensures { result ≡ length (values_of (view_slots (lists_of self.now))) }
    {
        MutableBinaryViewArray::len(self)
    }
}

impl MutableBinaryViewArray<BinaryKind> {
    /// The bytes of each slot, first to last, from both ends; a null slot that was not pushed may have bytes too.
    pub fn values_iter(&self) -> MutableBinaryViewValueIter<'_, BinaryKind>
        ensures { values_left result ≡ values_of (view_slots (lists_of self.now)) }
    {
        ArrayValuesIter::new(self)
    }
}

impl MutableBinaryViewArray<Utf8Kind> {
    /// The text of each slot, first to last, from both ends; a null slot that was not pushed may have a text too.
    pub fn values_iter(&self) -> MutableBinaryViewValueIter<'_, Utf8Kind>
        ensures { values_left result ≡ values_of (view_slots (lists_of self.now)) }
    {
        ArrayValuesIter::new(self)
    }
}
