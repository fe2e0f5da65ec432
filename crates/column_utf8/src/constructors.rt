//! Slots of the items of an iterator or a slice: builders and arrays that are made of them, and builders that take
//! them at their end. Each call pushes one item after another, and asks no iterator how many it has.

ghost use Rattle.std.specs.Prelude.{◌≡◌, ◌≤◌, map, option_map, Some, None};
ghost use Rattle.std.specs.Iterator.{IsFinite, IsFiniteIterable};
ghost use Rattle.std.specs.Option.{option_copied};
ghost use Rattle.std.specs.String.{string_bytes};
ghost use Rattle.column_base.specs.Answers.{Answers};
ghost use Rattle.column_base.specs.Pushes.{ExtendsBy, ExtendsByOk, MadeBy, MadeByOk, grown, growth_fault};
ghost use Rattle.column_binary.specs.Rows.{no_slots, row_growth, frozen_lists};

use crate::array::Utf8Array;
use crate::builder::MutableUtf8Array;
use crate::values_builder::MutableUtf8ValuesArray;
use column_base::{
    ExtendError, Offset, PolarsError, TryExtend, TryPush, push_each, push_each_ok, with_each,
    with_each_ok,
};
use std::alloc::Global;

// ---- owned items

impl<'b, O: Offset> TryPush<&'b String> for MutableUtf8Array<O> {
    ghost use Rattle.std.specs.Prelude.{Some};
    ghost use Rattle.std.specs.String.{string_bytes};

    ghost shown = { λ text. Some (string_bytes text.now) };

    fn try_push(&mut self, item: &'b String) -> Result<(), PolarsError> {
        self.push_value(item.as_str())
    }
}

impl<'b, O: Offset> TryPush<&'b Option<String>> for MutableUtf8Array<O> {
    ghost use Rattle.std.specs.Prelude.{option_map};
    ghost use Rattle.std.specs.String.{string_bytes};

    ghost shown = { λ row. option_map string_bytes row.now };

    fn try_push(&mut self, item: &'b Option<String>) -> Result<(), PolarsError> {
        match item {
            Some(text) => self.push_value(text.as_str()),
            None => self.push_null(),
        }
    }
}

impl<'b, O: Offset> TryPush<&'b String> for MutableUtf8ValuesArray<O> {
    ghost use Rattle.std.specs.Prelude.{Some};
    ghost use Rattle.std.specs.String.{string_bytes};

    ghost shown = { λ text. Some (string_bytes text.now) };

    fn try_push(&mut self, item: &'b String) -> Result<(), PolarsError> {
        self.push(item.as_str())
    }
}

// For how many bytes room is made: those of the texts, and no more than the type allows.
fn bytes_of<O: Offset>(values: &[String]) -> usize
    ensures { result ≤ O.GREATEST }
{
    let mut bytes: usize = 0;
    for value in values {
        bytes = bytes.saturating_add(value.len());
    }
    bytes.min(O::GREATEST)
}

// The same of rows.
fn bytes_of_rows<O: Offset>(rows: &[Option<String>]) -> usize
    ensures { result ≤ O.GREATEST }
{
    let mut bytes: usize = 0;
    for row in rows {
        if let Some(value) = row {
            bytes = bytes.saturating_add(value.len());
        }
    }
    bytes.min(O::GREATEST)
}

// ---- the builder of rows: more slots

impl<O: Offset> MutableUtf8Array<O> {
    /// Adds a slot of each row.
    ///
    /// `Overflow` where the bytes of all rows pass the type after those that there are, `NoMemory` where there is none
    /// for a slot. The rows before the one at which it came are added.
    pub fn extend<'b, I: IntoIterator<Item = Option<&'b str>>>(
        &mut self,
        iter: I,
    ) -> Result<(), PolarsError>
    where
        I::IntoIter: Drop,
        requires { IsFiniteIterable I.into_iter_gives I.IntoIter.can_next I.IntoIter.remaining iter }
        ensures { (items : I.IntoIter) × I.into_iter_gives iter items × ExtendsBy (row_growth O.GREATEST) option_copied I.IntoIter.next_gives items self.old.lists self.new.lists result }
    {
        self.try_extend(iter)
    }

    /// Adds a valid slot of each value, as [`MutableUtf8Array::extend`] does of each row.
    pub fn extend_values<'b, I: IntoIterator<Item = &'b str>>(
        &mut self,
        iter: I,
    ) -> Result<(), PolarsError>
    where
        I::IntoIter: Drop,
        requires { IsFiniteIterable I.into_iter_gives I.IntoIter.can_next I.IntoIter.remaining iter }
        ensures { (items : I.IntoIter) × I.into_iter_gives iter items × ExtendsBy (row_growth O.GREATEST) (λ text. Some text.now) I.IntoIter.next_gives items self.old.lists self.new.lists result }
    {
        self.try_extend(iter)
    }

    /// Adds a slot of each row, up to the first item that is an error.
    ///
    /// `Item` of that error, or the refusal of the first row that is refused, as by [`MutableUtf8Array::extend`],
    /// whichever item comes first. The rows before it are added.
    pub fn extend_fallible<'b, E, I: IntoIterator<Item = Result<Option<&'b str>, E>>>(
        &mut self,
        iter: I,
    ) -> Result<(), ExtendError<E>>
    where
        I::IntoIter: Drop,
        requires { IsFiniteIterable I.into_iter_gives I.IntoIter.can_next I.IntoIter.remaining iter }
        ensures { (items : I.IntoIter) × I.into_iter_gives iter items × ExtendsByOk (row_growth O.GREATEST) option_copied I.IntoIter.next_gives items self.old.lists self.new.lists result }
    {
        push_each_ok(self, iter.into_iter())
    }

    /// The same as [`MutableUtf8Array::extend`], of an iterator.
    pub fn extend_trusted_len<'b, I: Iterator<Item = Option<&'b str>> + Drop>(
        &mut self,
        iterator: I,
    ) -> Result<(), PolarsError>
        requires can { I.can_next iterator }
        requires ends { IsFinite (I.remaining iterator) }
        ensures { ExtendsBy (row_growth O.GREATEST) option_copied I.next_gives iterator self.old.lists self.new.lists result }
    {
        push_each(self, iterator)
    }

    /// The same as [`MutableUtf8Array::extend_trusted_len`].
    pub fn extend_trusted_len_unchecked<'b, I: Iterator<Item = Option<&'b str>> + Drop>(
        &mut self,
        iterator: I,
    ) -> Result<(), PolarsError>
        requires can { I.can_next iterator }
        requires ends { IsFinite (I.remaining iterator) }
        ensures { ExtendsBy (row_growth O.GREATEST) option_copied I.next_gives iterator self.old.lists self.new.lists result }
    {
        self.extend_trusted_len(iterator)
    }

    /// The same as [`MutableUtf8Array::extend_values`], of an iterator.
    pub fn extend_trusted_len_values<'b, I: Iterator<Item = &'b str> + Drop>(
        &mut self,
        iterator: I,
    ) -> Result<(), PolarsError>
        requires can { I.can_next iterator }
        requires ends { IsFinite (I.remaining iterator) }
        ensures { ExtendsBy (row_growth O.GREATEST) (λ text. Some text.now) I.next_gives iterator self.old.lists self.new.lists result }
    {
        push_each(self, iterator)
    }

    /// The same as [`MutableUtf8Array::extend_trusted_len_values`].
    pub fn extend_trusted_len_values_unchecked<'b, I: Iterator<Item = &'b str> + Drop>(
        &mut self,
        iterator: I,
    ) -> Result<(), PolarsError>
        requires can { I.can_next iterator }
        requires ends { IsFinite (I.remaining iterator) }
        ensures { ExtendsBy (row_growth O.GREATEST) (λ text. Some text.now) I.next_gives iterator self.old.lists self.new.lists result }
    {
        self.extend_trusted_len_values(iterator)
    }
}

// ---- the builder of rows: made of items

impl<O: Offset> MutableUtf8Array<O> {
    /// A valid slot of each value.
    ///
    /// `Overflow` where the bytes of all values pass the type, `NoMemory` where there is none for the slots.
    pub fn from_slice(alloc: Global, slice: &[String]) -> Result<Self, PolarsError>
        ensures { let rows = map (λ text. Some (string_bytes text)) slice.now in Answers result (growth_fault (row_growth O.GREATEST) no_slots rows) (λ b. b.lists ≡ grown (row_growth O.GREATEST) no_slots rows) }
    {
        with_each(
            Self::with_capacities(alloc, slice.len(), bytes_of::<O>(slice))?,
            slice.iter(),
        )
    }

    /// A slot of each row.
    ///
    /// `Overflow` where the bytes of all rows pass the type, `NoMemory` where there is none for the slots.
    pub fn from(alloc: Global, slice: &[Option<String>]) -> Result<Self, PolarsError>
        ensures { let rows = map (option_map string_bytes) slice.now in Answers result (growth_fault (row_growth O.GREATEST) no_slots rows) (λ b. b.lists ≡ grown (row_growth O.GREATEST) no_slots rows) }
    {
        with_each(
            Self::with_capacities(alloc, slice.len(), bytes_of_rows::<O>(slice))?,
            slice.iter(),
        )
    }

    /// A slot of each row.
    ///
    /// `Overflow` where the bytes of all rows pass the type, `NoMemory` where there is none for the slots.
    pub fn from_iter<'b, I: IntoIterator<Item = Option<&'b str>>>(
        alloc: Global,
        iter: I,
    ) -> Result<Self, PolarsError>
    where
        I::IntoIter: Drop,
        requires { IsFiniteIterable I.into_iter_gives I.IntoIter.can_next I.IntoIter.remaining iter }
        ensures { (items : I.IntoIter) × I.into_iter_gives iter items × MadeBy (row_growth O.GREATEST) option_copied I.IntoIter.next_gives items no_slots (λ b lists. b.lists ≡ lists) result }
    {
        let items = iter.into_iter();
        with_each(Self::new(alloc)?, items)
    }

    /// The same as [`MutableUtf8Array::from_iter`].
    pub fn try_from_iter<'b, I: IntoIterator<Item = Option<&'b str>>>(
        alloc: Global,
        iter: I,
    ) -> Result<Self, PolarsError>
    where
        I::IntoIter: Drop,
        requires { IsFiniteIterable I.into_iter_gives I.IntoIter.can_next I.IntoIter.remaining iter }
        ensures { (items : I.IntoIter) × I.into_iter_gives iter items × MadeBy (row_growth O.GREATEST) option_copied I.IntoIter.next_gives items no_slots (λ b lists. b.lists ≡ lists) result }
    {
        Self::from_iter(alloc, iter)
    }

    /// A valid slot of each value.
    ///
    /// `Overflow` where the bytes of all values pass the type, `NoMemory` where there is none for the slots.
    pub fn from_iter_values<'b, I: Iterator<Item = &'b str> + Drop>(
        alloc: Global,
        iterator: I,
    ) -> Result<Self, PolarsError>
        requires can { I.can_next iterator }
        requires ends { IsFinite (I.remaining iterator) }
        ensures { MadeBy (row_growth O.GREATEST) (λ text. Some text.now) I.next_gives iterator no_slots (λ b lists. b.lists ≡ lists) result }
    {
        with_each(Self::new(alloc)?, iterator)
    }

    /// The same as [`MutableUtf8Array::from_iter_values`].
    pub fn from_trusted_len_values_iter<'b, I: Iterator<Item = &'b str> + Drop>(
        alloc: Global,
        iterator: I,
    ) -> Result<Self, PolarsError>
        requires can { I.can_next iterator }
        requires ends { IsFinite (I.remaining iterator) }
        ensures { MadeBy (row_growth O.GREATEST) (λ text. Some text.now) I.next_gives iterator no_slots (λ b lists. b.lists ≡ lists) result }
    {
        Self::from_iter_values(alloc, iterator)
    }

    /// The same as [`MutableUtf8Array::from_iter_values`].
    pub fn from_trusted_len_values_iter_unchecked<'b, I: Iterator<Item = &'b str> + Drop>(
        alloc: Global,
        iterator: I,
    ) -> Result<Self, PolarsError>
        requires can { I.can_next iterator }
        requires ends { IsFinite (I.remaining iterator) }
        ensures { MadeBy (row_growth O.GREATEST) (λ text. Some text.now) I.next_gives iterator no_slots (λ b lists. b.lists ≡ lists) result }
    {
        Self::from_iter_values(alloc, iterator)
    }

    /// The same as [`MutableUtf8Array::from_iter`], of an iterator.
    pub fn from_trusted_len_iter<'b, I: Iterator<Item = Option<&'b str>> + Drop>(
        alloc: Global,
        iterator: I,
    ) -> Result<Self, PolarsError>
        requires can { I.can_next iterator }
        requires ends { IsFinite (I.remaining iterator) }
        ensures { MadeBy (row_growth O.GREATEST) option_copied I.next_gives iterator no_slots (λ b lists. b.lists ≡ lists) result }
    {
        with_each(Self::new(alloc)?, iterator)
    }

    /// The same as [`MutableUtf8Array::from_trusted_len_iter`].
    pub fn from_trusted_len_iter_unchecked<'b, I: Iterator<Item = Option<&'b str>> + Drop>(
        alloc: Global,
        iterator: I,
    ) -> Result<Self, PolarsError>
        requires can { I.can_next iterator }
        requires ends { IsFinite (I.remaining iterator) }
        ensures { MadeBy (row_growth O.GREATEST) option_copied I.next_gives iterator no_slots (λ b lists. b.lists ≡ lists) result }
    {
        Self::from_trusted_len_iter(alloc, iterator)
    }

    /// A slot of each row, where no item is an error.
    ///
    /// `Item` of the first error, or `Overflow` where the bytes of the rows before it pass the type, `NoMemory` where
    /// there is none for the slots.
    pub fn try_from_trusted_len_iter<'b, E, I: Iterator<Item = Result<Option<&'b str>, E>> + Drop>(
        alloc: Global,
        iterator: I,
    ) -> Result<Self, ExtendError<E>>
        requires can { I.can_next iterator }
        requires ends { IsFinite (I.remaining iterator) }
        ensures { MadeByOk (row_growth O.GREATEST) option_copied I.next_gives iterator no_slots (λ b lists. b.lists ≡ lists) result }
    {
        with_each_ok(Self::new(alloc)?, iterator)
    }

    /// The same as [`MutableUtf8Array::try_from_trusted_len_iter`].
    pub fn try_from_trusted_len_iter_unchecked<
        'b,
        E,
        I: Iterator<Item = Result<Option<&'b str>, E>> + Drop,
    >(alloc: Global, iterator: I) -> Result<Self, ExtendError<E>>
        requires can { I.can_next iterator }
        requires ends { IsFinite (I.remaining iterator) }
        ensures { MadeByOk (row_growth O.GREATEST) option_copied I.next_gives iterator no_slots (λ b lists. b.lists ≡ lists) result }
    {
        Self::try_from_trusted_len_iter(alloc, iterator)
    }
}

// ---- the builder of values: more slots

impl<O: Offset> MutableUtf8ValuesArray<O> {
    /// Adds a slot of each value.
    ///
    /// `Overflow` where the bytes of all values pass the type after those that there are, `NoMemory` where there is none
    /// for a slot. The values before the one at which it came are added.
    pub fn extend<'b, I: IntoIterator<Item = &'b str>>(
        &mut self,
        iter: I,
    ) -> Result<(), PolarsError>
    where
        I::IntoIter: Drop,
        requires { IsFiniteIterable I.into_iter_gives I.IntoIter.can_next I.IntoIter.remaining iter }
        ensures { (items : I.IntoIter) × I.into_iter_gives iter items × ExtendsBy (row_growth O.GREATEST) (λ text. Some text.now) I.IntoIter.next_gives items self.old.lists self.new.lists result }
    {
        self.try_extend(iter)
    }

    /// The same as [`MutableUtf8ValuesArray::extend`].
    pub fn extend_values<'b, I: IntoIterator<Item = &'b str>>(
        &mut self,
        iter: I,
    ) -> Result<(), PolarsError>
    where
        I::IntoIter: Drop,
        requires { IsFiniteIterable I.into_iter_gives I.IntoIter.can_next I.IntoIter.remaining iter }
        ensures { (items : I.IntoIter) × I.into_iter_gives iter items × ExtendsBy (row_growth O.GREATEST) (λ text. Some text.now) I.IntoIter.next_gives items self.old.lists self.new.lists result }
    {
        self.try_extend(iter)
    }

    /// Adds a slot of each value, up to the first item that is an error.
    ///
    /// `Item` of that error, or the refusal of the first value that is refused, as by
    /// [`MutableUtf8ValuesArray::extend`], whichever item comes first. The values before it are added.
    pub fn extend_fallible<'b, E, I: IntoIterator<Item = Result<&'b str, E>>>(
        &mut self,
        iter: I,
    ) -> Result<(), ExtendError<E>>
    where
        I::IntoIter: Drop,
        requires { IsFiniteIterable I.into_iter_gives I.IntoIter.can_next I.IntoIter.remaining iter }
        ensures { (items : I.IntoIter) × I.into_iter_gives iter items × ExtendsByOk (row_growth O.GREATEST) (λ text. Some text.now) I.IntoIter.next_gives items self.old.lists self.new.lists result }
    {
        push_each_ok(self, iter.into_iter())
    }

    /// The same as [`MutableUtf8ValuesArray::extend`], of an iterator.
    pub fn extend_trusted_len<'b, I: Iterator<Item = &'b str> + Drop>(
        &mut self,
        iterator: I,
    ) -> Result<(), PolarsError>
        requires can { I.can_next iterator }
        requires ends { IsFinite (I.remaining iterator) }
        ensures { ExtendsBy (row_growth O.GREATEST) (λ text. Some text.now) I.next_gives iterator self.old.lists self.new.lists result }
    {
        push_each(self, iterator)
    }

    /// The same as [`MutableUtf8ValuesArray::extend_trusted_len`].
    pub fn extend_trusted_len_unchecked<'b, I: Iterator<Item = &'b str> + Drop>(
        &mut self,
        iterator: I,
    ) -> Result<(), PolarsError>
        requires can { I.can_next iterator }
        requires ends { IsFinite (I.remaining iterator) }
        ensures { ExtendsBy (row_growth O.GREATEST) (λ text. Some text.now) I.next_gives iterator self.old.lists self.new.lists result }
    {
        self.extend_trusted_len(iterator)
    }

    /// The same as [`MutableUtf8ValuesArray::extend_trusted_len`].
    pub fn extend_trusted_len_values<'b, I: Iterator<Item = &'b str> + Drop>(
        &mut self,
        iterator: I,
    ) -> Result<(), PolarsError>
        requires can { I.can_next iterator }
        requires ends { IsFinite (I.remaining iterator) }
        ensures { ExtendsBy (row_growth O.GREATEST) (λ text. Some text.now) I.next_gives iterator self.old.lists self.new.lists result }
    {
        self.extend_trusted_len(iterator)
    }

    /// The same as [`MutableUtf8ValuesArray::extend_trusted_len`].
    pub fn extend_trusted_len_values_unchecked<'b, I: Iterator<Item = &'b str> + Drop>(
        &mut self,
        iterator: I,
    ) -> Result<(), PolarsError>
        requires can { I.can_next iterator }
        requires ends { IsFinite (I.remaining iterator) }
        ensures { ExtendsBy (row_growth O.GREATEST) (λ text. Some text.now) I.next_gives iterator self.old.lists self.new.lists result }
    {
        self.extend_trusted_len(iterator)
    }
}

// ---- the builder of values: made of items

impl<O: Offset> MutableUtf8ValuesArray<O> {
    /// A slot of each value.
    ///
    /// `Overflow` where the bytes of all values pass the type, `NoMemory` where there is none for the slots.
    pub fn from_slice(alloc: Global, slice: &[String]) -> Result<Self, PolarsError>
        ensures { let rows = map (λ text. Some (string_bytes text)) slice.now in Answers result (growth_fault (row_growth O.GREATEST) no_slots rows) (λ b. b.lists ≡ grown (row_growth O.GREATEST) no_slots rows) }
    {
        with_each(
            Self::with_capacities(alloc, slice.len(), bytes_of::<O>(slice))?,
            slice.iter(),
        )
    }

    /// The same as [`MutableUtf8ValuesArray::from_slice`].
    pub fn from(alloc: Global, slice: &[String]) -> Result<Self, PolarsError>
        ensures { let rows = map (λ text. Some (string_bytes text)) slice.now in Answers result (growth_fault (row_growth O.GREATEST) no_slots rows) (λ b. b.lists ≡ grown (row_growth O.GREATEST) no_slots rows) }
    {
        Self::from_slice(alloc, slice)
    }

    /// A slot of each value.
    ///
    /// `Overflow` where the bytes of all values pass the type, `NoMemory` where there is none for the slots.
    pub fn from_iter<'b, I: IntoIterator<Item = &'b str>>(
        alloc: Global,
        iter: I,
    ) -> Result<Self, PolarsError>
    where
        I::IntoIter: Drop,
        requires { IsFiniteIterable I.into_iter_gives I.IntoIter.can_next I.IntoIter.remaining iter }
        ensures { (items : I.IntoIter) × I.into_iter_gives iter items × MadeBy (row_growth O.GREATEST) (λ text. Some text.now) I.IntoIter.next_gives items no_slots (λ b lists. b.lists ≡ lists) result }
    {
        let items = iter.into_iter();
        with_each(Self::new(alloc)?, items)
    }

    /// The same as [`MutableUtf8ValuesArray::from_iter`].
    pub fn try_from_iter<'b, I: IntoIterator<Item = &'b str>>(
        alloc: Global,
        iter: I,
    ) -> Result<Self, PolarsError>
    where
        I::IntoIter: Drop,
        requires { IsFiniteIterable I.into_iter_gives I.IntoIter.can_next I.IntoIter.remaining iter }
        ensures { (items : I.IntoIter) × I.into_iter_gives iter items × MadeBy (row_growth O.GREATEST) (λ text. Some text.now) I.IntoIter.next_gives items no_slots (λ b lists. b.lists ≡ lists) result }
    {
        Self::from_iter(alloc, iter)
    }

    /// The same as [`MutableUtf8ValuesArray::from_iter`], of an iterator.
    pub fn from_iter_values<'b, I: Iterator<Item = &'b str> + Drop>(
        alloc: Global,
        iterator: I,
    ) -> Result<Self, PolarsError>
        requires can { I.can_next iterator }
        requires ends { IsFinite (I.remaining iterator) }
        ensures { MadeBy (row_growth O.GREATEST) (λ text. Some text.now) I.next_gives iterator no_slots (λ b lists. b.lists ≡ lists) result }
    {
        with_each(Self::new(alloc)?, iterator)
    }

    /// The same as [`MutableUtf8ValuesArray::from_iter_values`].
    pub fn from_trusted_len_values_iter<'b, I: Iterator<Item = &'b str> + Drop>(
        alloc: Global,
        iterator: I,
    ) -> Result<Self, PolarsError>
        requires can { I.can_next iterator }
        requires ends { IsFinite (I.remaining iterator) }
        ensures { MadeBy (row_growth O.GREATEST) (λ text. Some text.now) I.next_gives iterator no_slots (λ b lists. b.lists ≡ lists) result }
    {
        Self::from_iter_values(alloc, iterator)
    }

    /// The same as [`MutableUtf8ValuesArray::from_iter_values`].
    pub fn from_trusted_len_values_iter_unchecked<'b, I: Iterator<Item = &'b str> + Drop>(
        alloc: Global,
        iterator: I,
    ) -> Result<Self, PolarsError>
        requires can { I.can_next iterator }
        requires ends { IsFinite (I.remaining iterator) }
        ensures { MadeBy (row_growth O.GREATEST) (λ text. Some text.now) I.next_gives iterator no_slots (λ b lists. b.lists ≡ lists) result }
    {
        Self::from_iter_values(alloc, iterator)
    }

    /// The same as [`MutableUtf8ValuesArray::from_iter_values`].
    pub fn from_trusted_len_iter<'b, I: Iterator<Item = &'b str> + Drop>(
        alloc: Global,
        iterator: I,
    ) -> Result<Self, PolarsError>
        requires can { I.can_next iterator }
        requires ends { IsFinite (I.remaining iterator) }
        ensures { MadeBy (row_growth O.GREATEST) (λ text. Some text.now) I.next_gives iterator no_slots (λ b lists. b.lists ≡ lists) result }
    {
        Self::from_iter_values(alloc, iterator)
    }

    /// The same as [`MutableUtf8ValuesArray::from_iter_values`].
    pub fn from_trusted_len_iter_unchecked<'b, I: Iterator<Item = &'b str> + Drop>(
        alloc: Global,
        iterator: I,
    ) -> Result<Self, PolarsError>
        requires can { I.can_next iterator }
        requires ends { IsFinite (I.remaining iterator) }
        ensures { MadeBy (row_growth O.GREATEST) (λ text. Some text.now) I.next_gives iterator no_slots (λ b lists. b.lists ≡ lists) result }
    {
        Self::from_iter_values(alloc, iterator)
    }

    /// A slot of each value, where no item is an error.
    ///
    /// `Item` of the first error, or `Overflow` where the bytes of the values before it pass the type, `NoMemory` where
    /// there is none for the slots.
    pub fn try_from_trusted_len_iter<'b, E, I: Iterator<Item = Result<&'b str, E>> + Drop>(
        alloc: Global,
        iterator: I,
    ) -> Result<Self, ExtendError<E>>
        requires can { I.can_next iterator }
        requires ends { IsFinite (I.remaining iterator) }
        ensures { MadeByOk (row_growth O.GREATEST) (λ text. Some text.now) I.next_gives iterator no_slots (λ b lists. b.lists ≡ lists) result }
    {
        with_each_ok(Self::new(alloc)?, iterator)
    }

    /// The same as [`MutableUtf8ValuesArray::try_from_trusted_len_iter`].
    pub fn try_from_trusted_len_iter_unchecked<
        'b,
        E,
        I: Iterator<Item = Result<&'b str, E>> + Drop,
    >(alloc: Global, iterator: I) -> Result<Self, ExtendError<E>>
        requires can { I.can_next iterator }
        requires ends { IsFinite (I.remaining iterator) }
        ensures { MadeByOk (row_growth O.GREATEST) (λ text. Some text.now) I.next_gives iterator no_slots (λ b lists. b.lists ≡ lists) result }
    {
        Self::try_from_trusted_len_iter(alloc, iterator)
    }
}

// ---- the array

impl<O: Offset> Utf8Array<O> {
    /// A valid slot of each value, without a validity.
    ///
    /// `Overflow` where the bytes of all values pass the type, `NoMemory` where there is none for the slots.
    pub fn from_slice(alloc: Global, slice: &[String]) -> Result<Self, PolarsError>
        ensures { let rows = map (λ text. Some (string_bytes text)) slice.now in Answers result (growth_fault (row_growth O.GREATEST) no_slots rows) (λ a. (a ≡ grown (row_growth O.GREATEST) no_slots rows) × (a.flags ≡ None)) }
    {
        MutableUtf8ValuesArray::from_slice(alloc, slice)?.freeze()
    }

    /// A slot of each row. There is a validity exactly where one is null.
    ///
    /// `Overflow` where the bytes of all rows pass the type, `NoMemory` where there is none for the slots.
    pub fn from(alloc: Global, slice: &[Option<String>]) -> Result<Self, PolarsError>
        ensures { let rows = map (option_map string_bytes) slice.now in Answers result (growth_fault (row_growth O.GREATEST) no_slots rows) (λ a. a ≡ frozen_lists (grown (row_growth O.GREATEST) no_slots rows)) }
    {
        MutableUtf8Array::from(alloc, slice)?.freeze()
    }

    /// A slot of each row. There is a validity exactly where one is null.
    ///
    /// `Overflow` where the bytes of all rows pass the type, `NoMemory` where there is none for the slots.
    pub fn from_iter<'b, I: IntoIterator<Item = Option<&'b str>>>(
        alloc: Global,
        iter: I,
    ) -> Result<Self, PolarsError>
    where
        I::IntoIter: Drop,
        requires { IsFiniteIterable I.into_iter_gives I.IntoIter.can_next I.IntoIter.remaining iter }
        ensures { (items : I.IntoIter) × I.into_iter_gives iter items × MadeBy (row_growth O.GREATEST) option_copied I.IntoIter.next_gives items no_slots (λ a lists. a ≡ frozen_lists lists) result }
    {
        let builder = MutableUtf8Array::from_iter(alloc, iter)?;
        let array = builder.freeze()?;
        Ok(array)
    }

    /// A valid slot of each value, without a validity.
    ///
    /// `Overflow` where the bytes of all values pass the type, `NoMemory` where there is none for the slots.
    pub fn from_iter_values<'b, I: Iterator<Item = &'b str> + Drop>(
        alloc: Global,
        iterator: I,
    ) -> Result<Self, PolarsError>
        requires can { I.can_next iterator }
        requires ends { IsFinite (I.remaining iterator) }
        ensures { MadeBy (row_growth O.GREATEST) (λ text. Some text.now) I.next_gives iterator no_slots (λ a lists. (a ≡ lists) × (a.flags ≡ None)) result }
    {
        MutableUtf8ValuesArray::from_iter_values(alloc, iterator)?.freeze()
    }

    /// The same as [`Utf8Array::from_iter_values`].
    pub fn from_trusted_len_values_iter<'b, I: Iterator<Item = &'b str> + Drop>(
        alloc: Global,
        iterator: I,
    ) -> Result<Self, PolarsError>
        requires can { I.can_next iterator }
        requires ends { IsFinite (I.remaining iterator) }
        ensures { MadeBy (row_growth O.GREATEST) (λ text. Some text.now) I.next_gives iterator no_slots (λ a lists. (a ≡ lists) × (a.flags ≡ None)) result }
    {
        Self::from_iter_values(alloc, iterator)
    }

    /// The same as [`Utf8Array::from_iter`], of an iterator.
    pub fn from_trusted_len_iter<'b, I: Iterator<Item = Option<&'b str>> + Drop>(
        alloc: Global,
        iterator: I,
    ) -> Result<Self, PolarsError>
        requires can { I.can_next iterator }
        requires ends { IsFinite (I.remaining iterator) }
        ensures { MadeBy (row_growth O.GREATEST) option_copied I.next_gives iterator no_slots (λ a lists. a ≡ frozen_lists lists) result }
    {
        MutableUtf8Array::from_trusted_len_iter(alloc, iterator)?.freeze()
    }

    /// The same as [`Utf8Array::from_trusted_len_iter`].
    pub fn from_trusted_len_iter_unchecked<'b, I: Iterator<Item = Option<&'b str>> + Drop>(
        alloc: Global,
        iterator: I,
    ) -> Result<Self, PolarsError>
        requires can { I.can_next iterator }
        requires ends { IsFinite (I.remaining iterator) }
        ensures { MadeBy (row_growth O.GREATEST) option_copied I.next_gives iterator no_slots (λ a lists. a ≡ frozen_lists lists) result }
    {
        Self::from_trusted_len_iter(alloc, iterator)
    }

    /// A slot of each row, where no item is an error. There is a validity exactly where a row is null.
    ///
    /// `Item` of the first error, or `Overflow` where the bytes of the rows before it pass the type, `NoMemory` where
    /// there is none for the slots.
    pub fn try_from_trusted_len_iter<'b, E, I: Iterator<Item = Result<Option<&'b str>, E>> + Drop>(
        alloc: Global,
        iterator: I,
    ) -> Result<Self, ExtendError<E>>
        requires can { I.can_next iterator }
        requires ends { IsFinite (I.remaining iterator) }
        ensures { MadeByOk (row_growth O.GREATEST) option_copied I.next_gives iterator no_slots (λ a lists. a ≡ frozen_lists lists) result }
    {
        let builder = MutableUtf8Array::try_from_trusted_len_iter(alloc, iterator)?;
        let array = builder.freeze()?;
        Ok(array)
    }

    /// The same as [`Utf8Array::try_from_trusted_len_iter`].
    pub fn try_from_trusted_len_iter_unchecked<
        'b,
        E,
        I: Iterator<Item = Result<Option<&'b str>, E>> + Drop,
    >(alloc: Global, iterator: I) -> Result<Self, ExtendError<E>>
        requires can { I.can_next iterator }
        requires ends { IsFinite (I.remaining iterator) }
        ensures { MadeByOk (row_growth O.GREATEST) option_copied I.next_gives iterator no_slots (λ a lists. a ≡ frozen_lists lists) result }
    {
        Self::try_from_trusted_len_iter(alloc, iterator)
    }
}
