//! Slots of the items of an iterator or a slice: builders and arrays that are made of them, and builders that take
//! them at their end. Each call pushes one item after another, and asks no iterator how many it has.

ghost use Rattle.std.specs.Prelude.{◌≡◌, ◌≤◌, map, option_map, Some, None};
ghost use Rattle.std.specs.Iterator.{IsFinite, IsFiniteIterable};
ghost use Rattle.std.specs.Option.{option_copied};
ghost use Rattle.column_base.specs.Answers.{Answers};
ghost use Rattle.column_base.specs.Pushes.{ExtendsBy, ExtendsByOk, MadeBy, MadeByOk, grown, growth_fault};
ghost use Rattle.column_binary.specs.Rows.{no_slots, row_growth, frozen_lists};

use crate::array::BinaryArray;
use crate::builder::MutableBinaryArray;
use crate::values_builder::MutableBinaryValuesArray;
use column_base::{
    ExtendError, Offset, PolarsError, TryExtend, TryPush, push_each, push_each_ok, with_each,
    with_each_ok,
};
use std::alloc::Global;

// ---- owned items

impl<'b, O: Offset> TryPush<&'b Vec<u8>> for MutableBinaryArray<O> {
    ghost use Rattle.std.specs.Prelude.{Some};

    ghost shown = { λ bytes. Some bytes.now.items };

    fn try_push(&mut self, item: &'b Vec<u8>) -> Result<(), PolarsError> {
        self.push_value(item.as_slice())
    }
}

impl<'b, O: Offset> TryPush<&'b Option<Vec<u8>>> for MutableBinaryArray<O> {
    ghost use Rattle.std.specs.Prelude.{option_map};

    ghost shown = { λ row. option_map (λ bytes. bytes.items) row.now };

    fn try_push(&mut self, item: &'b Option<Vec<u8>>) -> Result<(), PolarsError> {
        match item {
            Some(bytes) => self.push_value(bytes.as_slice()),
            None => self.push_null(),
        }
    }
}

impl<'b, O: Offset> TryPush<&'b Vec<u8>> for MutableBinaryValuesArray<O> {
    ghost use Rattle.std.specs.Prelude.{Some};

    ghost shown = { λ bytes. Some bytes.now.items };

    fn try_push(&mut self, item: &'b Vec<u8>) -> Result<(), PolarsError> {
        self.push(item.as_slice())
    }
}

// For how many bytes room is made: those of the values, and no more than the type allows.
fn bytes_of<O: Offset>(values: &[Vec<u8>]) -> usize
    ensures { result ≤ O.GREATEST }
{
    let mut bytes: usize = 0;
    for value in values {
        bytes = bytes.saturating_add(value.len());
    }
    bytes.min(O::GREATEST)
}

// The same of rows.
fn bytes_of_rows<O: Offset>(rows: &[Option<Vec<u8>>]) -> usize
    ensures { result ≤ O.GREATEST }
{
    let mut bytes: usize = 0;
    for row in rows {
        if let Some(value) = row {
            bytes = bytes.saturating_add(value.len());
        }
    }
    bytes.min(O::GREATEST)
}

// ---- the builder of rows: more slots

impl<O: Offset> MutableBinaryArray<O> {
    /// Adds a slot of each row.
    ///
    /// `Overflow` where the bytes of all rows pass the type after those that there are, `NoMemory` where there is none
    /// for a slot. The rows before the one at which it came are added.
    pub fn extend<'b, I: IntoIterator<Item = Option<&'b [u8]>>>(
        &mut self,
        iter: I,
    ) -> Result<(), PolarsError>
    where
        I::IntoIter: Drop,
        requires { IsFiniteIterable I.into_iter_gives I.IntoIter.can_next I.IntoIter.remaining iter }
        ensures { (items : I.IntoIter) × I.into_iter_gives iter items × ExtendsBy (row_growth O.GREATEST) option_copied I.IntoIter.next_gives items self.old.lists self.new.lists result }
    {
        self.try_extend(iter)
    }

    /// Adds a valid slot of each value, as [`MutableBinaryArray::extend`] does of each row.
    pub fn extend_values<'b, I: IntoIterator<Item = &'b [u8]>>(
        &mut self,
        iter: I,
    ) -> Result<(), PolarsError>
    where
        I::IntoIter: Drop,
        requires { IsFiniteIterable I.into_iter_gives I.IntoIter.can_next I.IntoIter.remaining iter }
        ensures { (items : I.IntoIter) × I.into_iter_gives iter items × ExtendsBy (row_growth O.GREATEST) (λ bytes. Some bytes.now) I.IntoIter.next_gives items self.old.lists self.new.lists result }
    {
        self.try_extend(iter)
    }

    /// Adds a slot of each row, up to the first item that is an error.
    ///
    /// `Item` of that error, or the refusal of the first row that is refused, as by [`MutableBinaryArray::extend`],
    /// whichever item comes first. The rows before it are added.
    pub fn extend_fallible<'b, E, I: IntoIterator<Item = Result<Option<&'b [u8]>, E>>>(
        &mut self,
        iter: I,
    ) -> Result<(), ExtendError<E>>
    where
        I::IntoIter: Drop,
        requires { IsFiniteIterable I.into_iter_gives I.IntoIter.can_next I.IntoIter.remaining iter }
        ensures { (items : I.IntoIter) × I.into_iter_gives iter items × ExtendsByOk (row_growth O.GREATEST) option_copied I.IntoIter.next_gives items self.old.lists self.new.lists result }
    {
        push_each_ok(self, iter.into_iter())
    }

    /// The same as [`MutableBinaryArray::extend`], of an iterator.
    pub fn extend_trusted_len<'b, I: Iterator<Item = Option<&'b [u8]>> + Drop>(
        &mut self,
        iterator: I,
    ) -> Result<(), PolarsError>
        requires can { I.can_next iterator }
        requires ends { IsFinite (I.remaining iterator) }
        ensures { ExtendsBy (row_growth O.GREATEST) option_copied I.next_gives iterator self.old.lists self.new.lists result }
    {
        push_each(self, iterator)
    }

    /// The same as [`MutableBinaryArray::extend_trusted_len`].
    pub fn extend_trusted_len_unchecked<'b, I: Iterator<Item = Option<&'b [u8]>> + Drop>(
        &mut self,
        iterator: I,
    ) -> Result<(), PolarsError>
        requires can { I.can_next iterator }
        requires ends { IsFinite (I.remaining iterator) }
        ensures { ExtendsBy (row_growth O.GREATEST) option_copied I.next_gives iterator self.old.lists self.new.lists result }
    {
        self.extend_trusted_len(iterator)
    }

    /// The same as [`MutableBinaryArray::extend_values`], of an iterator.
    pub fn extend_trusted_len_values<'b, I: Iterator<Item = &'b [u8]> + Drop>(
        &mut self,
        iterator: I,
    ) -> Result<(), PolarsError>
        requires can { I.can_next iterator }
        requires ends { IsFinite (I.remaining iterator) }
        ensures { ExtendsBy (row_growth O.GREATEST) (λ bytes. Some bytes.now) I.next_gives iterator self.old.lists self.new.lists result }
    {
        push_each(self, iterator)
    }

    /// The same as [`MutableBinaryArray::extend_trusted_len_values`].
    pub fn extend_trusted_len_values_unchecked<'b, I: Iterator<Item = &'b [u8]> + Drop>(
        &mut self,
        iterator: I,
    ) -> Result<(), PolarsError>
        requires can { I.can_next iterator }
        requires ends { IsFinite (I.remaining iterator) }
        ensures { ExtendsBy (row_growth O.GREATEST) (λ bytes. Some bytes.now) I.next_gives iterator self.old.lists self.new.lists result }
    {
        self.extend_trusted_len_values(iterator)
    }
}

// ---- the builder of rows: made of items

impl<O: Offset> MutableBinaryArray<O> {
    /// A valid slot of each value.
    ///
    /// `Overflow` where the bytes of all values pass the type, `NoMemory` where there is none for the slots.
    pub fn from_slice(alloc: Global, slice: &[Vec<u8>]) -> Result<Self, PolarsError>
        ensures { let rows = map (λ bytes. Some bytes.items) slice.now in Answers result (growth_fault (row_growth O.GREATEST) no_slots rows) (λ b. b.lists ≡ grown (row_growth O.GREATEST) no_slots rows) }
    {
        with_each(
            Self::with_capacities(alloc, slice.len(), bytes_of::<O>(slice))?,
            slice.iter(),
        )
    }

    /// A slot of each row.
    ///
    /// `Overflow` where the bytes of all rows pass the type, `NoMemory` where there is none for the slots.
    pub fn from(alloc: Global, slice: &[Option<Vec<u8>>]) -> Result<Self, PolarsError>
        ensures { let rows = map (option_map (λ bytes. bytes.items)) slice.now in Answers result (growth_fault (row_growth O.GREATEST) no_slots rows) (λ b. b.lists ≡ grown (row_growth O.GREATEST) no_slots rows) }
    {
        with_each(
            Self::with_capacities(alloc, slice.len(), bytes_of_rows::<O>(slice))?,
            slice.iter(),
        )
    }

    /// A slot of each row.
    ///
    /// `Overflow` where the bytes of all rows pass the type, `NoMemory` where there is none for the slots.
    pub fn from_iter<'b, I: IntoIterator<Item = Option<&'b [u8]>>>(
        alloc: Global,
        iter: I,
    ) -> Result<Self, PolarsError>
    where
        I::IntoIter: Drop,
        requires { IsFiniteIterable I.into_iter_gives I.IntoIter.can_next I.IntoIter.remaining iter }
        ensures { (items : I.IntoIter) × I.into_iter_gives iter items × MadeBy (row_growth O.GREATEST) option_copied I.IntoIter.next_gives items no_slots (λ b lists. b.lists ≡ lists) result }
    {
        let items = iter.into_iter();
        with_each(Self::new(alloc)?, items)
    }

    /// The same as [`MutableBinaryArray::from_iter`].
    pub fn try_from_iter<'b, I: IntoIterator<Item = Option<&'b [u8]>>>(
        alloc: Global,
        iter: I,
    ) -> Result<Self, PolarsError>
    where
        I::IntoIter: Drop,
        requires { IsFiniteIterable I.into_iter_gives I.IntoIter.can_next I.IntoIter.remaining iter }
        ensures { (items : I.IntoIter) × I.into_iter_gives iter items × MadeBy (row_growth O.GREATEST) option_copied I.IntoIter.next_gives items no_slots (λ b lists. b.lists ≡ lists) result }
    {
        Self::from_iter(alloc, iter)
    }

    /// A valid slot of each value.
    ///
    /// `Overflow` where the bytes of all values pass the type, `NoMemory` where there is none for the slots.
    pub fn from_iter_values<'b, I: Iterator<Item = &'b [u8]> + Drop>(
        alloc: Global,
        iterator: I,
    ) -> Result<Self, PolarsError>
        requires can { I.can_next iterator }
        requires ends { IsFinite (I.remaining iterator) }
        ensures { MadeBy (row_growth O.GREATEST) (λ bytes. Some bytes.now) I.next_gives iterator no_slots (λ b lists. b.lists ≡ lists) result }
    {
        with_each(Self::new(alloc)?, iterator)
    }

    /// The same as [`MutableBinaryArray::from_iter_values`].
    pub fn from_trusted_len_values_iter<'b, I: Iterator<Item = &'b [u8]> + Drop>(
        alloc: Global,
        iterator: I,
    ) -> Result<Self, PolarsError>
        requires can { I.can_next iterator }
        requires ends { IsFinite (I.remaining iterator) }
        ensures { MadeBy (row_growth O.GREATEST) (λ bytes. Some bytes.now) I.next_gives iterator no_slots (λ b lists. b.lists ≡ lists) result }
    {
        Self::from_iter_values(alloc, iterator)
    }

    /// The same as [`MutableBinaryArray::from_iter_values`].
    pub fn from_trusted_len_values_iter_unchecked<'b, I: Iterator<Item = &'b [u8]> + Drop>(
        alloc: Global,
        iterator: I,
    ) -> Result<Self, PolarsError>
        requires can { I.can_next iterator }
        requires ends { IsFinite (I.remaining iterator) }
        ensures { MadeBy (row_growth O.GREATEST) (λ bytes. Some bytes.now) I.next_gives iterator no_slots (λ b lists. b.lists ≡ lists) result }
    {
        Self::from_iter_values(alloc, iterator)
    }

    /// The same as [`MutableBinaryArray::from_iter`], of an iterator.
    pub fn from_trusted_len_iter<'b, I: Iterator<Item = Option<&'b [u8]>> + Drop>(
        alloc: Global,
        iterator: I,
    ) -> Result<Self, PolarsError>
        requires can { I.can_next iterator }
        requires ends { IsFinite (I.remaining iterator) }
        ensures { MadeBy (row_growth O.GREATEST) option_copied I.next_gives iterator no_slots (λ b lists. b.lists ≡ lists) result }
    {
        with_each(Self::new(alloc)?, iterator)
    }

    /// The same as [`MutableBinaryArray::from_trusted_len_iter`].
    pub fn from_trusted_len_iter_unchecked<'b, I: Iterator<Item = Option<&'b [u8]>> + Drop>(
        alloc: Global,
        iterator: I,
    ) -> Result<Self, PolarsError>
        requires can { I.can_next iterator }
        requires ends { IsFinite (I.remaining iterator) }
        ensures { MadeBy (row_growth O.GREATEST) option_copied I.next_gives iterator no_slots (λ b lists. b.lists ≡ lists) result }
    {
        Self::from_trusted_len_iter(alloc, iterator)
    }

    /// A slot of each row, where no item is an error.
    ///
    /// `Item` of the first error, or `Overflow` where the bytes of the rows before it pass the type, `NoMemory` where
    /// there is none for the slots.
    pub fn try_from_trusted_len_iter<'b, E, I: Iterator<Item = Result<Option<&'b [u8]>, E>> + Drop>(
        alloc: Global,
        iterator: I,
    ) -> Result<Self, ExtendError<E>>
        requires can { I.can_next iterator }
        requires ends { IsFinite (I.remaining iterator) }
        ensures { MadeByOk (row_growth O.GREATEST) option_copied I.next_gives iterator no_slots (λ b lists. b.lists ≡ lists) result }
    {
        with_each_ok(Self::new(alloc)?, iterator)
    }

    /// The same as [`MutableBinaryArray::try_from_trusted_len_iter`].
    pub fn try_from_trusted_len_iter_unchecked<
        'b,
        E,
        I: Iterator<Item = Result<Option<&'b [u8]>, E>> + Drop,
    >(alloc: Global, iterator: I) -> Result<Self, ExtendError<E>>
        requires can { I.can_next iterator }
        requires ends { IsFinite (I.remaining iterator) }
        ensures { MadeByOk (row_growth O.GREATEST) option_copied I.next_gives iterator no_slots (λ b lists. b.lists ≡ lists) result }
    {
        Self::try_from_trusted_len_iter(alloc, iterator)
    }
}

// ---- the builder of values: more slots

impl<O: Offset> MutableBinaryValuesArray<O> {
    /// Adds a slot of each value.
    ///
    /// `Overflow` where the bytes of all values pass the type after those that there are, `NoMemory` where there is none
    /// for a slot. The values before the one at which it came are added.
    pub fn extend<'b, I: IntoIterator<Item = &'b [u8]>>(
        &mut self,
        iter: I,
    ) -> Result<(), PolarsError>
    where
        I::IntoIter: Drop,
        requires { IsFiniteIterable I.into_iter_gives I.IntoIter.can_next I.IntoIter.remaining iter }
        ensures { (items : I.IntoIter) × I.into_iter_gives iter items × ExtendsBy (row_growth O.GREATEST) (λ bytes. Some bytes.now) I.IntoIter.next_gives items self.old.lists self.new.lists result }
    {
        self.try_extend(iter)
    }

    /// The same as [`MutableBinaryValuesArray::extend`].
    pub fn extend_values<'b, I: IntoIterator<Item = &'b [u8]>>(
        &mut self,
        iter: I,
    ) -> Result<(), PolarsError>
    where
        I::IntoIter: Drop,
        requires { IsFiniteIterable I.into_iter_gives I.IntoIter.can_next I.IntoIter.remaining iter }
        ensures { (items : I.IntoIter) × I.into_iter_gives iter items × ExtendsBy (row_growth O.GREATEST) (λ bytes. Some bytes.now) I.IntoIter.next_gives items self.old.lists self.new.lists result }
    {
        self.try_extend(iter)
    }

    /// Adds a slot of each value, up to the first item that is an error.
    ///
    /// `Item` of that error, or the refusal of the first value that is refused, as by
    /// [`MutableBinaryValuesArray::extend`], whichever item comes first. The values before it are added.
    pub fn extend_fallible<'b, E, I: IntoIterator<Item = Result<&'b [u8], E>>>(
        &mut self,
        iter: I,
    ) -> Result<(), ExtendError<E>>
    where
        I::IntoIter: Drop,
        requires { IsFiniteIterable I.into_iter_gives I.IntoIter.can_next I.IntoIter.remaining iter }
        ensures { (items : I.IntoIter) × I.into_iter_gives iter items × ExtendsByOk (row_growth O.GREATEST) (λ bytes. Some bytes.now) I.IntoIter.next_gives items self.old.lists self.new.lists result }
    {
        push_each_ok(self, iter.into_iter())
    }

    /// The same as [`MutableBinaryValuesArray::extend`], of an iterator.
    pub fn extend_trusted_len<'b, I: Iterator<Item = &'b [u8]> + Drop>(
        &mut self,
        iterator: I,
    ) -> Result<(), PolarsError>
        requires can { I.can_next iterator }
        requires ends { IsFinite (I.remaining iterator) }
        ensures { ExtendsBy (row_growth O.GREATEST) (λ bytes. Some bytes.now) I.next_gives iterator self.old.lists self.new.lists result }
    {
        push_each(self, iterator)
    }

    /// The same as [`MutableBinaryValuesArray::extend_trusted_len`].
    pub fn extend_trusted_len_unchecked<'b, I: Iterator<Item = &'b [u8]> + Drop>(
        &mut self,
        iterator: I,
    ) -> Result<(), PolarsError>
        requires can { I.can_next iterator }
        requires ends { IsFinite (I.remaining iterator) }
        ensures { ExtendsBy (row_growth O.GREATEST) (λ bytes. Some bytes.now) I.next_gives iterator self.old.lists self.new.lists result }
    {
        self.extend_trusted_len(iterator)
    }

    /// The same as [`MutableBinaryValuesArray::extend_trusted_len`].
    pub fn extend_trusted_len_values<'b, I: Iterator<Item = &'b [u8]> + Drop>(
        &mut self,
        iterator: I,
    ) -> Result<(), PolarsError>
        requires can { I.can_next iterator }
        requires ends { IsFinite (I.remaining iterator) }
        ensures { ExtendsBy (row_growth O.GREATEST) (λ bytes. Some bytes.now) I.next_gives iterator self.old.lists self.new.lists result }
    {
        self.extend_trusted_len(iterator)
    }

    /// The same as [`MutableBinaryValuesArray::extend_trusted_len`].
    pub fn extend_trusted_len_values_unchecked<'b, I: Iterator<Item = &'b [u8]> + Drop>(
        &mut self,
        iterator: I,
    ) -> Result<(), PolarsError>
        requires can { I.can_next iterator }
        requires ends { IsFinite (I.remaining iterator) }
        ensures { ExtendsBy (row_growth O.GREATEST) (λ bytes. Some bytes.now) I.next_gives iterator self.old.lists self.new.lists result }
    {
        self.extend_trusted_len(iterator)
    }
}

// ---- the builder of values: made of items

impl<O: Offset> MutableBinaryValuesArray<O> {
    /// A slot of each value.
    ///
    /// `Overflow` where the bytes of all values pass the type, `NoMemory` where there is none for the slots.
    pub fn from_slice(alloc: Global, slice: &[Vec<u8>]) -> Result<Self, PolarsError>
        ensures { let rows = map (λ bytes. Some bytes.items) slice.now in Answers result (growth_fault (row_growth O.GREATEST) no_slots rows) (λ b. b.lists ≡ grown (row_growth O.GREATEST) no_slots rows) }
    {
        with_each(
            Self::with_capacities(alloc, slice.len(), bytes_of::<O>(slice))?,
            slice.iter(),
        )
    }

    /// The same as [`MutableBinaryValuesArray::from_slice`].
    pub fn from(alloc: Global, slice: &[Vec<u8>]) -> Result<Self, PolarsError>
        ensures { let rows = map (λ bytes. Some bytes.items) slice.now in Answers result (growth_fault (row_growth O.GREATEST) no_slots rows) (λ b. b.lists ≡ grown (row_growth O.GREATEST) no_slots rows) }
    {
        Self::from_slice(alloc, slice)
    }

    /// A slot of each value.
    ///
    /// `Overflow` where the bytes of all values pass the type, `NoMemory` where there is none for the slots.
    pub fn from_iter<'b, I: IntoIterator<Item = &'b [u8]>>(
        alloc: Global,
        iter: I,
    ) -> Result<Self, PolarsError>
    where
        I::IntoIter: Drop,
        requires { IsFiniteIterable I.into_iter_gives I.IntoIter.can_next I.IntoIter.remaining iter }
        ensures { (items : I.IntoIter) × I.into_iter_gives iter items × MadeBy (row_growth O.GREATEST) (λ bytes. Some bytes.now) I.IntoIter.next_gives items no_slots (λ b lists. b.lists ≡ lists) result }
    {
        let items = iter.into_iter();
        with_each(Self::new(alloc)?, items)
    }

    /// The same as [`MutableBinaryValuesArray::from_iter`].
    pub fn try_from_iter<'b, I: IntoIterator<Item = &'b [u8]>>(
        alloc: Global,
        iter: I,
    ) -> Result<Self, PolarsError>
    where
        I::IntoIter: Drop,
        requires { IsFiniteIterable I.into_iter_gives I.IntoIter.can_next I.IntoIter.remaining iter }
        ensures { (items : I.IntoIter) × I.into_iter_gives iter items × MadeBy (row_growth O.GREATEST) (λ bytes. Some bytes.now) I.IntoIter.next_gives items no_slots (λ b lists. b.lists ≡ lists) result }
    {
        Self::from_iter(alloc, iter)
    }

    /// The same as [`MutableBinaryValuesArray::from_iter`], of an iterator.
    pub fn from_iter_values<'b, I: Iterator<Item = &'b [u8]> + Drop>(
        alloc: Global,
        iterator: I,
    ) -> Result<Self, PolarsError>
        requires can { I.can_next iterator }
        requires ends { IsFinite (I.remaining iterator) }
        ensures { MadeBy (row_growth O.GREATEST) (λ bytes. Some bytes.now) I.next_gives iterator no_slots (λ b lists. b.lists ≡ lists) result }
    {
        with_each(Self::new(alloc)?, iterator)
    }

    /// The same as [`MutableBinaryValuesArray::from_iter_values`].
    pub fn from_trusted_len_values_iter<'b, I: Iterator<Item = &'b [u8]> + Drop>(
        alloc: Global,
        iterator: I,
    ) -> Result<Self, PolarsError>
        requires can { I.can_next iterator }
        requires ends { IsFinite (I.remaining iterator) }
        ensures { MadeBy (row_growth O.GREATEST) (λ bytes. Some bytes.now) I.next_gives iterator no_slots (λ b lists. b.lists ≡ lists) result }
    {
        Self::from_iter_values(alloc, iterator)
    }

    /// The same as [`MutableBinaryValuesArray::from_iter_values`].
    pub fn from_trusted_len_values_iter_unchecked<'b, I: Iterator<Item = &'b [u8]> + Drop>(
        alloc: Global,
        iterator: I,
    ) -> Result<Self, PolarsError>
        requires can { I.can_next iterator }
        requires ends { IsFinite (I.remaining iterator) }
        ensures { MadeBy (row_growth O.GREATEST) (λ bytes. Some bytes.now) I.next_gives iterator no_slots (λ b lists. b.lists ≡ lists) result }
    {
        Self::from_iter_values(alloc, iterator)
    }

    /// The same as [`MutableBinaryValuesArray::from_iter_values`].
    pub fn from_trusted_len_iter<'b, I: Iterator<Item = &'b [u8]> + Drop>(
        alloc: Global,
        iterator: I,
    ) -> Result<Self, PolarsError>
        requires can { I.can_next iterator }
        requires ends { IsFinite (I.remaining iterator) }
        ensures { MadeBy (row_growth O.GREATEST) (λ bytes. Some bytes.now) I.next_gives iterator no_slots (λ b lists. b.lists ≡ lists) result }
    {
        Self::from_iter_values(alloc, iterator)
    }

    /// The same as [`MutableBinaryValuesArray::from_iter_values`].
    pub fn from_trusted_len_iter_unchecked<'b, I: Iterator<Item = &'b [u8]> + Drop>(
        alloc: Global,
        iterator: I,
    ) -> Result<Self, PolarsError>
        requires can { I.can_next iterator }
        requires ends { IsFinite (I.remaining iterator) }
        ensures { MadeBy (row_growth O.GREATEST) (λ bytes. Some bytes.now) I.next_gives iterator no_slots (λ b lists. b.lists ≡ lists) result }
    {
        Self::from_iter_values(alloc, iterator)
    }

    /// A slot of each value, where no item is an error.
    ///
    /// `Item` of the first error, or `Overflow` where the bytes of the values before it pass the type, `NoMemory` where
    /// there is none for the slots.
    pub fn try_from_trusted_len_iter<'b, E, I: Iterator<Item = Result<&'b [u8], E>> + Drop>(
        alloc: Global,
        iterator: I,
    ) -> Result<Self, ExtendError<E>>
        requires can { I.can_next iterator }
        requires ends { IsFinite (I.remaining iterator) }
        ensures { MadeByOk (row_growth O.GREATEST) (λ bytes. Some bytes.now) I.next_gives iterator no_slots (λ b lists. b.lists ≡ lists) result }
    {
        with_each_ok(Self::new(alloc)?, iterator)
    }

    /// The same as [`MutableBinaryValuesArray::try_from_trusted_len_iter`].
    pub fn try_from_trusted_len_iter_unchecked<
        'b,
        E,
        I: Iterator<Item = Result<&'b [u8], E>> + Drop,
    >(alloc: Global, iterator: I) -> Result<Self, ExtendError<E>>
        requires can { I.can_next iterator }
        requires ends { IsFinite (I.remaining iterator) }
        ensures { MadeByOk (row_growth O.GREATEST) (λ bytes. Some bytes.now) I.next_gives iterator no_slots (λ b lists. b.lists ≡ lists) result }
    {
        Self::try_from_trusted_len_iter(alloc, iterator)
    }
}

// ---- the array

impl<O: Offset> BinaryArray<O> {
    /// A valid slot of each value, without a validity.
    ///
    /// `Overflow` where the bytes of all values pass the type, `NoMemory` where there is none for the slots.
    pub fn from_slice(alloc: Global, slice: &[Vec<u8>]) -> Result<Self, PolarsError>
        ensures { let rows = map (λ bytes. Some bytes.items) slice.now in Answers result (growth_fault (row_growth O.GREATEST) no_slots rows) (λ a. (a ≡ grown (row_growth O.GREATEST) no_slots rows) × (a.flags ≡ None)) }
    {
        MutableBinaryValuesArray::from_slice(alloc, slice)?.freeze()
    }

    /// A slot of each row. There is a validity exactly where one is null.
    ///
    /// `Overflow` where the bytes of all rows pass the type, `NoMemory` where there is none for the slots.
    pub fn from(alloc: Global, slice: &[Option<Vec<u8>>]) -> Result<Self, PolarsError>
        ensures { let rows = map (option_map (λ bytes. bytes.items)) slice.now in Answers result (growth_fault (row_growth O.GREATEST) no_slots rows) (λ a. a ≡ frozen_lists (grown (row_growth O.GREATEST) no_slots rows)) }
    {
        MutableBinaryArray::from(alloc, slice)?.freeze()
    }

    /// A slot of each row. There is a validity exactly where one is null.
    ///
    /// `Overflow` where the bytes of all rows pass the type, `NoMemory` where there is none for the slots.
    pub fn from_iter<'b, I: IntoIterator<Item = Option<&'b [u8]>>>(
        alloc: Global,
        iter: I,
    ) -> Result<Self, PolarsError>
    where
        I::IntoIter: Drop,
        requires { IsFiniteIterable I.into_iter_gives I.IntoIter.can_next I.IntoIter.remaining iter }
        ensures { (items : I.IntoIter) × I.into_iter_gives iter items × MadeBy (row_growth O.GREATEST) option_copied I.IntoIter.next_gives items no_slots (λ a lists. a ≡ frozen_lists lists) result }
    {
        MutableBinaryArray::from_iter(alloc, iter)?.freeze()
    }

    /// A valid slot of each value, without a validity.
    ///
    /// `Overflow` where the bytes of all values pass the type, `NoMemory` where there is none for the slots.
    pub fn from_iter_values<'b, I: Iterator<Item = &'b [u8]> + Drop>(
        alloc: Global,
        iterator: I,
    ) -> Result<Self, PolarsError>
        requires can { I.can_next iterator }
        requires ends { IsFinite (I.remaining iterator) }
        ensures { MadeBy (row_growth O.GREATEST) (λ bytes. Some bytes.now) I.next_gives iterator no_slots (λ a lists. (a ≡ lists) × (a.flags ≡ None)) result }
    {
        MutableBinaryValuesArray::from_iter_values(alloc, iterator)?.freeze()
    }

    /// The same as [`BinaryArray::from_iter_values`].
    pub fn from_trusted_len_values_iter<'b, I: Iterator<Item = &'b [u8]> + Drop>(
        alloc: Global,
        iterator: I,
    ) -> Result<Self, PolarsError>
        requires can { I.can_next iterator }
        requires ends { IsFinite (I.remaining iterator) }
        ensures { MadeBy (row_growth O.GREATEST) (λ bytes. Some bytes.now) I.next_gives iterator no_slots (λ a lists. (a ≡ lists) × (a.flags ≡ None)) result }
    {
        Self::from_iter_values(alloc, iterator)
    }

    /// The same as [`BinaryArray::from_iter`], of an iterator.
    pub fn from_trusted_len_iter<'b, I: Iterator<Item = Option<&'b [u8]>> + Drop>(
        alloc: Global,
        iterator: I,
    ) -> Result<Self, PolarsError>
        requires can { I.can_next iterator }
        requires ends { IsFinite (I.remaining iterator) }
        ensures { MadeBy (row_growth O.GREATEST) option_copied I.next_gives iterator no_slots (λ a lists. a ≡ frozen_lists lists) result }
    {
        MutableBinaryArray::from_trusted_len_iter(alloc, iterator)?.freeze()
    }

    /// The same as [`BinaryArray::from_trusted_len_iter`].
    pub fn from_trusted_len_iter_unchecked<'b, I: Iterator<Item = Option<&'b [u8]>> + Drop>(
        alloc: Global,
        iterator: I,
    ) -> Result<Self, PolarsError>
        requires can { I.can_next iterator }
        requires ends { IsFinite (I.remaining iterator) }
        ensures { MadeBy (row_growth O.GREATEST) option_copied I.next_gives iterator no_slots (λ a lists. a ≡ frozen_lists lists) result }
    {
        Self::from_trusted_len_iter(alloc, iterator)
    }

    /// A slot of each row, where no item is an error. There is a validity exactly where a row is null.
    ///
    /// `Item` of the first error, or `Overflow` where the bytes of the rows before it pass the type, `NoMemory` where
    /// there is none for the slots.
    pub fn try_from_trusted_len_iter<'b, E, I: Iterator<Item = Result<Option<&'b [u8]>, E>> + Drop>(
        alloc: Global,
        iterator: I,
    ) -> Result<Self, ExtendError<E>>
        requires can { I.can_next iterator }
        requires ends { IsFinite (I.remaining iterator) }
        ensures { MadeByOk (row_growth O.GREATEST) option_copied I.next_gives iterator no_slots (λ a lists. a ≡ frozen_lists lists) result }
    {
        let builder = MutableBinaryArray::try_from_trusted_len_iter(alloc, iterator)?;
        let array = builder.freeze()?;
        Ok(array)
    }

    /// The same as [`BinaryArray::try_from_trusted_len_iter`].
    pub fn try_from_trusted_len_iter_unchecked<
        'b,
        E,
        I: Iterator<Item = Result<Option<&'b [u8]>, E>> + Drop,
    >(alloc: Global, iterator: I) -> Result<Self, ExtendError<E>>
        requires can { I.can_next iterator }
        requires ends { IsFinite (I.remaining iterator) }
        ensures { MadeByOk (row_growth O.GREATEST) option_copied I.next_gives iterator no_slots (λ a lists. a ≡ frozen_lists lists) result }
    {
        Self::try_from_trusted_len_iter(alloc, iterator)
    }
}
