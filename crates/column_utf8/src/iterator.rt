//! Going over the slots of an array or a builder.

ghost use Rattle.std.specs.Prelude.{◌≡◌, length};
ghost use Rattle.std.specs.List.{filter_map};
ghost use Rattle.column_base.specs.Slots.{values_of, row_of, rows_of};
ghost use Rattle.column_storage.specs.Iterators.{rows_left, values_left, valid_values_left, value_slots_left};
ghost use Rattle.column_binary.specs.Slots.{offset_slots};

use crate::array::Utf8Array;
use crate::builder::MutableUtf8Array;
use crate::values_builder::MutableUtf8ValuesArray;
use column_base::Offset;
use column_storage::{
    ArrayAccessor, ArrayValuesIter, BitmapIter, Buffer, NonNullValuesIter, Values, ZipValidity,
};

/// The text of each slot that is left of an array, of null ones too.
pub type Utf8ValuesIter<'a, O> = ArrayValuesIter<'a, Utf8Array<O>>;

impl<O: Offset> Values for Utf8Array<O> {
    ghost use Rattle.column_base.specs.Slots.{values_of};
    ghost use Rattle.column_binary.specs.Slots.{offset_slots};

    // seen as a list of bytes
    type Shown = Buffer<u8>;

    ghost items = { λ a. values_of (offset_slots a) };
}

#[tactic(auto, using(column_binary::proofs::SlotsLemmas::values))]
impl<'a, O: Offset + 'static> ArrayAccessor<'a> for Utf8Array<O> {
    type Item = &'a str;

    ghost shown = { λ text. text.now };

    fn value_unchecked(&'a self, index: usize) -> &'a str {
        self.known();
        self.value(index)
    }

    fn len(&self) -> usize
        ensures { result ≡ length (values_of (offset_slots self.now)) }
    {
        Utf8Array::len(self)
    }
}

#[tactic(auto, using(column_binary::proofs::SlotsLemmas::values))]
impl<O: Offset + 'static> Utf8Array<O> {
    /// The rows, first to last, from both ends: the text of each slot, or None where it is null.
    pub fn iter(&self) -> ZipValidity<&str, Utf8ValuesIter<'_, O>, BitmapIter<'_>>
        ensures { rows_left result ≡ rows_of (offset_slots self.now) }
    {
        self.known();
        ZipValidity::new_with_validity(self.values_iter(), self.validity())
    }

    /// The text of each slot, first to last, from both ends; a null slot has a text too.
    pub fn values_iter(&self) -> Utf8ValuesIter<'_, O>
        ensures { values_left result ≡ values_of (offset_slots self.now) }
    {
        ArrayValuesIter::new(self)
    }

    /// The text of each valid slot, first to last.
    pub fn non_null_values_iter(&self) -> NonNullValuesIter<'_, Utf8Array<O>>
        ensures values { valid_values_left result ≡ filter_map row_of (offset_slots self.now) }
        ensures slots { value_slots_left result ≡ length (offset_slots self.now) }
    {
        self.known();
        NonNullValuesIter::new(self, self.validity())
    }
}

impl<'a, O: Offset + 'static> IntoIterator for &'a Utf8Array<O> {
    type Item = Option<&'a str>;

    type IntoIter = ZipValidity<&'a str, Utf8ValuesIter<'a, O>, BitmapIter<'a>>;

    // the rows, first to last
    ghost into_iter_gives = { λ array it. rows_left it ≡ rows_of (offset_slots array.now) };

    fn into_iter(self) -> ZipValidity<&'a str, Utf8ValuesIter<'a, O>, BitmapIter<'a>> {
        self.iter()
    }
}

// ---- the builders

impl<O: Offset> Values for MutableUtf8Array<O> {
    ghost use Rattle.column_base.specs.Slots.{values_of};
    ghost use Rattle.column_binary.specs.Slots.{offset_slots};

    // seen as a list of bytes
    type Shown = Buffer<u8>;

    ghost items = { λ b. values_of (offset_slots b.lists) };
}

#[tactic(auto, using(column_binary::proofs::SlotsLemmas::values))]
impl<'a, O: Offset + 'static> ArrayAccessor<'a> for MutableUtf8Array<O> {
    type Item = &'a str;

    ghost shown = { λ text. text.now };

    fn value_unchecked(&'a self, index: usize) -> &'a str {
        self.known();
        self.value(index)
    }

    fn len(&self) -> usize
        ensures { result ≡ length (values_of (offset_slots self.now.lists)) }
    {
        MutableUtf8Array::len(self)
    }
}

#[tactic(auto, using(column_binary::proofs::SlotsLemmas::values))]
impl<O: Offset + 'static> MutableUtf8Array<O> {
    /// The rows, first to last, from both ends: the text of each slot, or None where it is null.
    pub fn iter(
        &self,
    ) -> ZipValidity<&str, ArrayValuesIter<'_, MutableUtf8Array<O>>, BitmapIter<'_>>
        ensures { rows_left result ≡ rows_of (offset_slots self.now.lists) }
    {
        self.known();
        match self.validity() {
            Some(bits) => ZipValidity::new(self.values_iter(), Some(bits.iter())),
            None => ZipValidity::new(self.values_iter(), None),
        }
    }

    /// The text of each slot, first to last, from both ends; a null slot that was not pushed may have a text too.
    pub fn values_iter(&self) -> ArrayValuesIter<'_, MutableUtf8Array<O>>
        ensures { values_left result ≡ values_of (offset_slots self.now.lists) }
    {
        ArrayValuesIter::new(self)
    }
}

impl<'a, O: Offset + 'static> IntoIterator for &'a MutableUtf8Array<O> {
    type Item = Option<&'a str>;

    type IntoIter = ZipValidity<&'a str, ArrayValuesIter<'a, MutableUtf8Array<O>>, BitmapIter<'a>>;

    // the rows, first to last
    ghost into_iter_gives = { λ builder it. rows_left it ≡ rows_of (offset_slots builder.now.lists) };

    fn into_iter(
        self,
    ) -> ZipValidity<&'a str, ArrayValuesIter<'a, MutableUtf8Array<O>>, BitmapIter<'a>> {
        self.iter()
    }
}

/// The text of each slot that is left of a builder of values.
pub type MutableUtf8ValuesIter<'a, O> = ArrayValuesIter<'a, MutableUtf8ValuesArray<O>>;

impl<O: Offset> Values for MutableUtf8ValuesArray<O> {
    ghost use Rattle.column_base.specs.Slots.{values_of};
    ghost use Rattle.column_binary.specs.Slots.{offset_slots};

    // seen as a list of bytes
    type Shown = Buffer<u8>;

    ghost items = { λ b. values_of (offset_slots b.lists) };
}

#[tactic(auto, using(column_binary::proofs::SlotsLemmas::values))]
impl<'a, O: Offset + 'static> ArrayAccessor<'a> for MutableUtf8ValuesArray<O> {
    type Item = &'a str;

    ghost shown = { λ text. text.now };

    fn value_unchecked(&'a self, index: usize) -> &'a str {
        self.known();
        self.value(index)
    }

    fn len(&self) -> usize
        ensures { result ≡ length (values_of (offset_slots self.now.lists)) }
    {
        MutableUtf8ValuesArray::len(self)
    }
}

impl<O: Offset + 'static> MutableUtf8ValuesArray<O> {
    /// The text of each slot, first to last, from both ends.
    pub fn iter(&self) -> MutableUtf8ValuesIter<'_, O>
        ensures { values_left result ≡ values_of (offset_slots self.now.lists) }
    {
        ArrayValuesIter::new(self)
    }

    /// The same as [`MutableUtf8ValuesArray::iter`].
    pub fn values_iter(&self) -> MutableUtf8ValuesIter<'_, O>
        ensures { values_left result ≡ values_of (offset_slots self.now.lists) }
    {
        self.iter()
    }
}

impl<'a, O: Offset + 'static> IntoIterator for &'a MutableUtf8ValuesArray<O> {
    type Item = &'a str;

    type IntoIter = MutableUtf8ValuesIter<'a, O>;

    // the values, first to last
    ghost into_iter_gives = { λ builder it. values_left it ≡ values_of (offset_slots builder.now.lists) };

    fn into_iter(self) -> MutableUtf8ValuesIter<'a, O> {
        self.iter()
    }
}
