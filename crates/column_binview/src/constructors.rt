//! Slots of the items of an iterator or a slice: builders and arrays that are made of them, and builders that take them at
//! their end. Each call pushes one item after another, and asks no iterator how many it has.

ghost use Rattle.std.specs.Prelude.{◌≡◌, map, option_map, Some};
ghost use Rattle.std.specs.Iterator.{IsFinite, IsFiniteIterable};
ghost use Rattle.std.specs.String.{string_bytes};
ghost use Rattle.column_base.specs.Answers.{Answers};
ghost use Rattle.column_base.specs.Pushes.{ExtendsBy, MadeBy, grown, growth_fault};
ghost use Rattle.column_binview.specs.Builders.{lists_of, no_slots, row_growth};

use crate::array::{BinaryViewArray, Utf8ViewArray};
use crate::builder::{MutableBinaryViewArray, MutablePlBinary, MutablePlString};
use column_base::{Growing, PolarsError, TryPush, ViewKind, ViewType, with_each};
use column_storage::Buffer;
use std::alloc::Global;

// ---- items

impl<K: ViewKind> Growing for MutableBinaryViewArray<K> {
    ghost use Rattle.column_binview.specs.Builders.{row_growth};

    // seen as the builder itself
    type Lists = MutableBinaryViewArray<K>;

    // seen as the bytes of a valid row
    type Row = Option<Buffer<u8>>;

    ghost lists = { λ b. b };

    ghost growth = { row_growth };
}

impl<'b> TryPush<Option<&'b [u8]>> for MutablePlBinary {
    ghost use Rattle.std.specs.Option.{option_copied};

    ghost shown = { option_copied };

    fn try_push(&mut self, item: Option<&'b [u8]>) -> Result<(), PolarsError> {
        self.push(item)
    }
}

impl<'b> TryPush<&'b [u8]> for MutablePlBinary {
    ghost use Rattle.std.specs.Prelude.{Some};

    ghost shown = { λ bytes. Some bytes.now };

    fn try_push(&mut self, item: &'b [u8]) -> Result<(), PolarsError> {
        self.push_value(item)
    }
}

impl<'b> TryPush<Option<&'b str>> for MutablePlString {
    ghost use Rattle.std.specs.Option.{option_copied};

    ghost shown = { option_copied };

    fn try_push(&mut self, item: Option<&'b str>) -> Result<(), PolarsError> {
        self.push(item)
    }
}

impl<'b> TryPush<&'b str> for MutablePlString {
    ghost use Rattle.std.specs.Prelude.{Some};

    ghost shown = { λ text. Some text.now };

    fn try_push(&mut self, item: &'b str) -> Result<(), PolarsError> {
        self.push_value(item)
    }
}

impl<'b> TryPush<&'b Vec<u8>> for MutablePlBinary {
    ghost use Rattle.std.specs.Prelude.{Some};

    ghost shown = { λ bytes. Some bytes.now.items };

    fn try_push(&mut self, item: &'b Vec<u8>) -> Result<(), PolarsError> {
        self.push_value(item.as_slice())
    }
}

impl<'b> TryPush<&'b Option<Vec<u8>>> for MutablePlBinary {
    ghost use Rattle.std.specs.Prelude.{option_map};

    ghost shown = { λ row. option_map (λ bytes. bytes.items) row.now };

    fn try_push(&mut self, item: &'b Option<Vec<u8>>) -> Result<(), PolarsError> {
        match item {
            Some(bytes) => self.push_value(bytes.as_slice()),
            None => self.push_null(),
        }
    }
}

impl<'b> TryPush<&'b String> for MutablePlString {
    ghost use Rattle.std.specs.Prelude.{Some};
    ghost use Rattle.std.specs.String.{string_bytes};

    ghost shown = { λ text. Some (string_bytes text.now) };

    fn try_push(&mut self, item: &'b String) -> Result<(), PolarsError> {
        self.push_value(item.as_str())
    }
}

impl<'b> TryPush<&'b Option<String>> for MutablePlString {
    ghost use Rattle.std.specs.Prelude.{option_map};
    ghost use Rattle.std.specs.String.{string_bytes};

    ghost shown = { λ row. option_map string_bytes row.now };

    fn try_push(&mut self, item: &'b Option<String>) -> Result<(), PolarsError> {
        match item {
            Some(text) => self.push_value(text.as_str()),
            None => self.push_null(),
        }
    }
}

// Adds a slot of each row, in order.
fn push_each_row<'a, K: ViewType<'a>, I: Iterator<Item = Option<K::Item>> + Drop>(
    builder: &mut MutableBinaryViewArray<K>,
    rows: I,
) -> Result<(), PolarsError>
    requires can { I.can_next rows }
    requires ends { IsFinite (I.remaining rows) }
    ensures { ExtendsBy row_growth (option_map K.item_bytes) I.next_gives rows builder.old builder.new result }
{
    for row in rows {
        builder.push(row)?;
    }
    Ok(())
}

// Adds a valid slot of each value, in order.
fn push_each_value<'a, K: ViewType<'a>, I: Iterator<Item = K::Item> + Drop>(
    builder: &mut MutableBinaryViewArray<K>,
    values: I,
) -> Result<(), PolarsError>
    requires can { I.can_next values }
    requires ends { IsFinite (I.remaining values) }
    ensures { ExtendsBy row_growth (λ value. Some (K.item_bytes value)) I.next_gives values builder.old builder.new result }
{
    for value in values {
        builder.push_value(value)?;
    }
    Ok(())
}

// ---- more slots

impl<'a, K: ViewType<'a>> MutableBinaryViewArray<K> {
    /// Adds a slot of each row.
    ///
    /// Refuses a row as [`MutableBinaryViewArray::push`] does. The rows before it are added then.
    pub fn extend<I: IntoIterator<Item = Option<K::Item>>>(
        &mut self,
        iter: I,
    ) -> Result<(), PolarsError>
    where
        I::IntoIter: Drop,
        requires { IsFiniteIterable I.into_iter_gives I.IntoIter.can_next I.IntoIter.remaining iter }
        ensures { (items : I.IntoIter) × I.into_iter_gives iter items × ExtendsBy row_growth (option_map K.item_bytes) I.IntoIter.next_gives items self.old self.new result }
    {
        push_each_row(self, iter.into_iter())
    }

    /// The same as [`MutableBinaryViewArray::extend`], of an iterator.
    pub fn extend_trusted_len<I: Iterator<Item = Option<K::Item>> + Drop>(
        &mut self,
        iterator: I,
    ) -> Result<(), PolarsError>
        requires can { I.can_next iterator }
        requires ends { IsFinite (I.remaining iterator) }
        ensures { ExtendsBy row_growth (option_map K.item_bytes) I.next_gives iterator self.old self.new result }
    {
        push_each_row(self, iterator)
    }

    /// Adds a valid slot of each value.
    ///
    /// Refuses a value as [`MutableBinaryViewArray::push_value`] does. The values before it are added then.
    pub fn extend_values<I: IntoIterator<Item = K::Item>>(
        &mut self,
        iter: I,
    ) -> Result<(), PolarsError>
    where
        I::IntoIter: Drop,
        requires { IsFiniteIterable I.into_iter_gives I.IntoIter.can_next I.IntoIter.remaining iter }
        ensures { (items : I.IntoIter) × I.into_iter_gives iter items × ExtendsBy row_growth (λ value. Some (K.item_bytes value)) I.IntoIter.next_gives items self.old self.new result }
    {
        push_each_value(self, iter.into_iter())
    }

    /// The same as [`MutableBinaryViewArray::extend_values`], of an iterator.
    pub fn extend_trusted_len_values<I: Iterator<Item = K::Item> + Drop>(
        &mut self,
        iterator: I,
    ) -> Result<(), PolarsError>
        requires can { I.can_next iterator }
        requires ends { IsFinite (I.remaining iterator) }
        ensures { ExtendsBy row_growth (λ value. Some (K.item_bytes value)) I.next_gives iterator self.old self.new result }
    {
        push_each_value(self, iterator)
    }
}

// ---- made of items

impl<'a, K: ViewType<'a>> MutableBinaryViewArray<K> {
    /// A slot of each row.
    ///
    /// Refuses a row as [`MutableBinaryViewArray::push`] does.
    pub fn from_iter<I: IntoIterator<Item = Option<K::Item>>>(
        alloc: Global,
        iter: I,
    ) -> Result<Self, PolarsError>
    where
        I::IntoIter: Drop,
        requires { IsFiniteIterable I.into_iter_gives I.IntoIter.can_next I.IntoIter.remaining iter }
        ensures { (items : I.IntoIter) × I.into_iter_gives iter items × MadeBy row_growth (option_map K.item_bytes) I.IntoIter.next_gives items no_slots (λ b builder. b ≡ builder) result }
    {
        let mut builder = Self::new(alloc);
        push_each_row(&mut builder, iter.into_iter())?;
        Ok(builder)
    }

    /// The same as [`MutableBinaryViewArray::from_iter`], of an iterator.
    pub fn from_iterator<I: Iterator<Item = Option<K::Item>> + Drop>(
        alloc: Global,
        iterator: I,
    ) -> Result<Self, PolarsError>
        requires can { I.can_next iterator }
        requires ends { IsFinite (I.remaining iterator) }
        ensures { MadeBy row_growth (option_map K.item_bytes) I.next_gives iterator no_slots (λ b builder. b ≡ builder) result }
    {
        let mut builder = Self::new(alloc);
        push_each_row(&mut builder, iterator)?;
        Ok(builder)
    }

    /// A valid slot of each value.
    ///
    /// Refuses a value as [`MutableBinaryViewArray::push_value`] does.
    pub fn from_values_iter<I: Iterator<Item = K::Item> + Drop>(
        alloc: Global,
        iterator: I,
    ) -> Result<Self, PolarsError>
        requires can { I.can_next iterator }
        requires ends { IsFinite (I.remaining iterator) }
        ensures { MadeBy row_growth (λ value. Some (K.item_bytes value)) I.next_gives iterator no_slots (λ b builder. b ≡ builder) result }
    {
        let mut builder = Self::new(alloc);
        push_each_value(&mut builder, iterator)?;
        Ok(builder)
    }
}

impl MutablePlBinary {
    /// A slot of each row.
    ///
    /// Refuses a row as [`MutableBinaryViewArray::push`] does.
    pub fn from(alloc: Global, slice: &[Option<Vec<u8>>]) -> Result<Self, PolarsError>
        ensures { let rows = map (option_map (λ bytes. bytes.items)) slice.now in Answers result (growth_fault row_growth no_slots rows) (λ b. b ≡ grown row_growth no_slots rows) }
    {
        with_each(Self::with_capacity(alloc, slice.len())?, slice.iter())
    }

    // A valid slot of each value.
    fn from_values(alloc: Global, slice: &[Vec<u8>]) -> Result<Self, PolarsError>
        ensures { let rows = map (λ bytes. Some bytes.items) slice.now in Answers result (growth_fault row_growth no_slots rows) (λ b. b ≡ grown row_growth no_slots rows) }
    {
        with_each(Self::with_capacity(alloc, slice.len())?, slice.iter())
    }
}

impl MutablePlString {
    /// A slot of each row.
    ///
    /// Refuses a row as [`MutableBinaryViewArray::push`] does.
    pub fn from(alloc: Global, slice: &[Option<String>]) -> Result<Self, PolarsError>
        ensures { let rows = map (option_map string_bytes) slice.now in Answers result (growth_fault row_growth no_slots rows) (λ b. b ≡ grown row_growth no_slots rows) }
    {
        with_each(Self::with_capacity(alloc, slice.len())?, slice.iter())
    }

    // A valid slot of each value.
    fn from_values(alloc: Global, slice: &[String]) -> Result<Self, PolarsError>
        ensures { let rows = map (λ text. Some (string_bytes text)) slice.now in Answers result (growth_fault row_growth no_slots rows) (λ b. b ≡ grown row_growth no_slots rows) }
    {
        with_each(Self::with_capacity(alloc, slice.len())?, slice.iter())
    }
}

// ---- arrays

impl BinaryViewArray {
    /// A slot of each row. There is a validity exactly where a row is null.
    ///
    /// `Overflow` where a value has 2 ^ 32 bytes or more, or has more than 12 where there are as many buffers as there may
    /// be; `NoMemory` where there is none for the slots.
    pub fn from_slice(alloc: Global, slice: &[Option<Vec<u8>>]) -> Result<Self, PolarsError>
        ensures { let rows = map (option_map (λ bytes. bytes.items)) slice.now in Answers result (growth_fault row_growth no_slots rows) (λ a. a ≡ lists_of (grown row_growth no_slots rows)) }
    {
        MutablePlBinary::from(alloc, slice)?.freeze()
    }

    /// A valid slot of each value, without a validity, as [`BinaryViewArray::from_slice`] makes one of a row.
    pub fn from_slice_values(alloc: Global, slice: &[Vec<u8>]) -> Result<Self, PolarsError>
        ensures { let rows = map (λ bytes. Some bytes.items) slice.now in Answers result (growth_fault row_growth no_slots rows) (λ a. a ≡ lists_of (grown row_growth no_slots rows)) }
    {
        MutablePlBinary::from_values(alloc, slice)?.freeze()
    }
}

impl Utf8ViewArray {
    /// A slot of each row. There is a validity exactly where a row is null.
    ///
    /// `Overflow` where a text has 2 ^ 32 bytes or more, or has more than 12 where there are as many buffers as there may be;
    /// `NoMemory` where there is none for the slots.
    pub fn from_slice(alloc: Global, slice: &[Option<String>]) -> Result<Self, PolarsError>
        ensures { let rows = map (option_map string_bytes) slice.now in Answers result (growth_fault row_growth no_slots rows) (λ a. a ≡ lists_of (grown row_growth no_slots rows)) }
    {
        MutablePlString::from(alloc, slice)?.freeze()
    }

    /// A valid slot of each text, without a validity, as [`Utf8ViewArray::from_slice`] makes one of a row.
    pub fn from_slice_values(alloc: Global, slice: &[String]) -> Result<Self, PolarsError>
        ensures { let rows = map (λ text. Some (string_bytes text)) slice.now in Answers result (growth_fault row_growth no_slots rows) (λ a. a ≡ lists_of (grown row_growth no_slots rows)) }
    {
        MutablePlString::from_values(alloc, slice)?.freeze()
    }
}
