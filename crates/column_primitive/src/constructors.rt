//! Slots of the items of an iterator or a slice: builders and arrays that are made of them, and builders that take
//! them at their end. Each call over an iterator pushes one item after another, and asks it not how many it has.

ghost use Rattle.std.specs.Prelude.{◌≡◌, Some, None};
ghost use Rattle.std.specs.Iterator.{IsFinite, IsFiniteIterable};
ghost use Rattle.column_base.specs.DataTypes.{default_type};
ghost use Rattle.column_base.specs.Answers.{Answers};
ghost use Rattle.column_base.specs.Pushes.{ExtendsBy, ExtendsByOk, MadeBy, MadeByOk, grown};
ghost use Rattle.column_primitive.specs.Numbers.{number_lists, number_array};
ghost use Rattle.column_primitive.specs.Rows.{no_numbers, row_growth, frozen_array};

use crate::array::PrimitiveArray;
use crate::builder::MutablePrimitiveArray;
use column_base::{
    ExtendError, NativeType, PolarsError, TryExtend, TryPush, push_each, with_each, with_each_ok,
};
use column_storage::Buffer;
use std::alloc::Global;

impl<'b, T: NativeType> TryPush<&'b Option<T>> for MutablePrimitiveArray<T> {
    ghost shown = { λ row. row.now };

    fn try_push(&mut self, item: &'b Option<T>) -> Result<(), PolarsError> {
        self.push(*item)
    }
}

// ---- the builder: more slots

impl<T: NativeType> MutablePrimitiveArray<T> {
    /// Adds a slot of each row.
    ///
    /// `NoMemory` where there is none for a slot. The rows before it are added.
    pub fn extend<I: IntoIterator<Item = Option<T>>>(&mut self, iter: I) -> Result<(), PolarsError>
    where
        I::IntoIter: Drop,
        requires { IsFiniteIterable I.into_iter_gives I.IntoIter.can_next I.IntoIter.remaining iter }
        ensures { (items : I.IntoIter) × I.into_iter_gives iter items × ExtendsBy (row_growth T.zero_value) (λ row. row) I.IntoIter.next_gives items self.old.array self.new.array result }
    {
        self.try_extend(iter)
    }

    /// Adds a valid slot of each number, as [`MutablePrimitiveArray::extend`] does of each row.
    pub fn extend_values<I: IntoIterator<Item = T>>(&mut self, iter: I) -> Result<(), PolarsError>
    where
        I::IntoIter: Drop,
        requires { IsFiniteIterable I.into_iter_gives I.IntoIter.can_next I.IntoIter.remaining iter }
        ensures { (items : I.IntoIter) × I.into_iter_gives iter items × ExtendsBy (row_growth T.zero_value) (λ value. Some value) I.IntoIter.next_gives items self.old.array self.new.array result }
    {
        self.try_extend(iter)
    }

    /// The same as [`MutablePrimitiveArray::extend`], of an iterator.
    pub fn extend_trusted_len<I: Iterator<Item = Option<T>> + Drop>(
        &mut self,
        iterator: I,
    ) -> Result<(), PolarsError>
        requires can { I.can_next iterator }
        requires ends { IsFinite (I.remaining iterator) }
        ensures { ExtendsBy (row_growth T.zero_value) (λ row. row) I.next_gives iterator self.old.array self.new.array result }
    {
        push_each(self, iterator)
    }

    /// The same as [`MutablePrimitiveArray::extend_trusted_len`].
    pub fn extend_trusted_len_unchecked<I: Iterator<Item = Option<T>> + Drop>(
        &mut self,
        iterator: I,
    ) -> Result<(), PolarsError>
        requires can { I.can_next iterator }
        requires ends { IsFinite (I.remaining iterator) }
        ensures { ExtendsBy (row_growth T.zero_value) (λ row. row) I.next_gives iterator self.old.array self.new.array result }
    {
        self.extend_trusted_len(iterator)
    }

    /// The same as [`MutablePrimitiveArray::extend_values`], of an iterator.
    pub fn extend_trusted_len_values<I: Iterator<Item = T> + Drop>(
        &mut self,
        iterator: I,
    ) -> Result<(), PolarsError>
        requires can { I.can_next iterator }
        requires ends { IsFinite (I.remaining iterator) }
        ensures { ExtendsBy (row_growth T.zero_value) (λ value. Some value) I.next_gives iterator self.old.array self.new.array result }
    {
        push_each(self, iterator)
    }
}

// ---- the builder: made of items

impl<T: NativeType> MutablePrimitiveArray<T> {
    /// A valid slot of each number, in one copy.
    ///
    /// `NoMemory` where there is none for them.
    pub fn from_slice(alloc: Global, slice: &[T]) -> Result<Self, PolarsError>
        ensures { Answers result None (λ b. b.array ≡ number_array (default_type T.PRIMITIVE) (number_lists slice.now None)) }
    {
        Ok(Self::from_vec(Vec::from_slice(alloc, slice)?))
    }

    /// A slot of each row.
    ///
    /// `NoMemory` where there is none for the slots.
    pub fn from(alloc: Global, slice: &[Option<T>]) -> Result<Self, PolarsError>
        ensures { Answers result None (λ b. b.array ≡ grown (row_growth T.zero_value) (no_numbers (default_type T.PRIMITIVE)) slice.now) }
    {
        with_each(Self::with_capacity(alloc, slice.len())?, slice.iter())
    }

    /// A slot of each row.
    ///
    /// `NoMemory` where there is none for the slots.
    pub fn from_iter<I: IntoIterator<Item = Option<T>>>(
        alloc: Global,
        iter: I,
    ) -> Result<Self, PolarsError>
    where
        I::IntoIter: Drop,
        requires { IsFiniteIterable I.into_iter_gives I.IntoIter.can_next I.IntoIter.remaining iter }
        ensures { (items : I.IntoIter) × I.into_iter_gives iter items × MadeBy (row_growth T.zero_value) (λ row. row) I.IntoIter.next_gives items (no_numbers (default_type T.PRIMITIVE)) (λ b array. b.array ≡ array) result }
    {
        with_each(Self::new(alloc), iter.into_iter())
    }

    /// The same as [`MutablePrimitiveArray::from_iter`], of an iterator.
    pub fn from_trusted_len_iter<I: Iterator<Item = Option<T>> + Drop>(
        alloc: Global,
        iterator: I,
    ) -> Result<Self, PolarsError>
        requires can { I.can_next iterator }
        requires ends { IsFinite (I.remaining iterator) }
        ensures { MadeBy (row_growth T.zero_value) (λ row. row) I.next_gives iterator (no_numbers (default_type T.PRIMITIVE)) (λ b array. b.array ≡ array) result }
    {
        with_each(Self::new(alloc), iterator)
    }

    /// The same as [`MutablePrimitiveArray::from_trusted_len_iter`].
    pub fn from_trusted_len_iter_unchecked<I: Iterator<Item = Option<T>> + Drop>(
        alloc: Global,
        iterator: I,
    ) -> Result<Self, PolarsError>
        requires can { I.can_next iterator }
        requires ends { IsFinite (I.remaining iterator) }
        ensures { MadeBy (row_growth T.zero_value) (λ row. row) I.next_gives iterator (no_numbers (default_type T.PRIMITIVE)) (λ b array. b.array ≡ array) result }
    {
        Self::from_trusted_len_iter(alloc, iterator)
    }

    /// A valid slot of each number.
    ///
    /// `NoMemory` where there is none for the slots.
    pub fn from_trusted_len_values_iter<I: Iterator<Item = T> + Drop>(
        alloc: Global,
        iterator: I,
    ) -> Result<Self, PolarsError>
        requires can { I.can_next iterator }
        requires ends { IsFinite (I.remaining iterator) }
        ensures { MadeBy (row_growth T.zero_value) (λ value. Some value) I.next_gives iterator (no_numbers (default_type T.PRIMITIVE)) (λ b array. b.array ≡ array) result }
    {
        with_each(Self::new(alloc), iterator)
    }

    /// The same as [`MutablePrimitiveArray::from_trusted_len_values_iter`].
    pub fn from_trusted_len_values_iter_unchecked<I: Iterator<Item = T> + Drop>(
        alloc: Global,
        iterator: I,
    ) -> Result<Self, PolarsError>
        requires can { I.can_next iterator }
        requires ends { IsFinite (I.remaining iterator) }
        ensures { MadeBy (row_growth T.zero_value) (λ value. Some value) I.next_gives iterator (no_numbers (default_type T.PRIMITIVE)) (λ b array. b.array ≡ array) result }
    {
        Self::from_trusted_len_values_iter(alloc, iterator)
    }

    /// A slot of each row, where no item is an error.
    ///
    /// `Item` of the first error, `NoMemory` where there is none for the slots.
    pub fn try_from_trusted_len_iter<E, I: Iterator<Item = Result<Option<T>, E>> + Drop>(
        alloc: Global,
        iterator: I,
    ) -> Result<Self, ExtendError<E>>
        requires can { I.can_next iterator }
        requires ends { IsFinite (I.remaining iterator) }
        ensures { MadeByOk (row_growth T.zero_value) (λ row. row) I.next_gives iterator (no_numbers (default_type T.PRIMITIVE)) (λ b array. b.array ≡ array) result }
    {
        with_each_ok(Self::new(alloc), iterator)
    }

    /// The same as [`MutablePrimitiveArray::try_from_trusted_len_iter`].
    pub fn try_from_trusted_len_iter_unchecked<E, I: Iterator<Item = Result<Option<T>, E>> + Drop>(
        alloc: Global,
        iterator: I,
    ) -> Result<Self, ExtendError<E>>
        requires can { I.can_next iterator }
        requires ends { IsFinite (I.remaining iterator) }
        ensures { MadeByOk (row_growth T.zero_value) (λ row. row) I.next_gives iterator (no_numbers (default_type T.PRIMITIVE)) (λ b array. b.array ≡ array) result }
    {
        Self::try_from_trusted_len_iter(alloc, iterator)
    }
}

// ---- the array

impl<T: NativeType> PrimitiveArray<T> {
    /// A valid slot of each number, which are not copied, without a validity.
    ///
    /// `NoMemory` where there is none for the count of owners.
    pub fn from_vec(alloc: Global, values: Vec<T>) -> Result<Self, PolarsError>
        ensures { Answers result None (λ a. a ≡ number_array (default_type T.PRIMITIVE) (number_lists values.items None)) }
    {
        let values = Buffer::from_vec(alloc, values)?;
        Ok(PrimitiveArray::new_unchecked(Self::default_dtype(), values, None))
    }

    /// A valid slot of each number, in one copy, without a validity.
    ///
    /// `NoMemory` where there is none for them.
    pub fn from_slice(alloc: Global, slice: &[T]) -> Result<Self, PolarsError>
        ensures { Answers result None (λ a. a ≡ number_array (default_type T.PRIMITIVE) (number_lists slice.now None)) }
    {
        PrimitiveArray::from_vec(alloc, Vec::from_slice(alloc, slice)?)
    }

    /// A slot of each row. There is a validity exactly where one is null.
    ///
    /// `NoMemory` where there is none for the slots.
    pub fn from(alloc: Global, slice: &[Option<T>]) -> Result<Self, PolarsError>
        ensures { Answers result None (λ a. a ≡ frozen_array (grown (row_growth T.zero_value) (no_numbers (default_type T.PRIMITIVE)) slice.now)) }
    {
        MutablePrimitiveArray::from(alloc, slice)?.freeze()
    }

    /// A valid slot of each number, without a validity.
    ///
    /// `NoMemory` where there is none for the slots.
    pub fn from_values<I: IntoIterator<Item = T>>(
        alloc: Global,
        iter: I,
    ) -> Result<Self, PolarsError>
    where
        I::IntoIter: Drop,
        requires { IsFiniteIterable I.into_iter_gives I.IntoIter.can_next I.IntoIter.remaining iter }
        ensures { (items : I.IntoIter) × I.into_iter_gives iter items × MadeBy (row_growth T.zero_value) (λ value. Some value) I.IntoIter.next_gives items (no_numbers (default_type T.PRIMITIVE)) (λ a array. a ≡ frozen_array array) result }
    {
        PrimitiveArray::from_trusted_len_values_iter(alloc, iter.into_iter())
    }

    /// A slot of each row. There is a validity exactly where one is null.
    ///
    /// `NoMemory` where there is none for the slots.
    pub fn from_iter<I: IntoIterator<Item = Option<T>>>(
        alloc: Global,
        iter: I,
    ) -> Result<Self, PolarsError>
    where
        I::IntoIter: Drop,
        requires { IsFiniteIterable I.into_iter_gives I.IntoIter.can_next I.IntoIter.remaining iter }
        ensures { (items : I.IntoIter) × I.into_iter_gives iter items × MadeBy (row_growth T.zero_value) (λ row. row) I.IntoIter.next_gives items (no_numbers (default_type T.PRIMITIVE)) (λ a array. a ≡ frozen_array array) result }
    {
        MutablePrimitiveArray::from_iter(alloc, iter)?.freeze()
    }

    /// The same as [`PrimitiveArray::from_values`], of an iterator.
    pub fn from_trusted_len_values_iter<I: Iterator<Item = T> + Drop>(
        alloc: Global,
        iterator: I,
    ) -> Result<Self, PolarsError>
        requires can { I.can_next iterator }
        requires ends { IsFinite (I.remaining iterator) }
        ensures { MadeBy (row_growth T.zero_value) (λ value. Some value) I.next_gives iterator (no_numbers (default_type T.PRIMITIVE)) (λ a array. a ≡ frozen_array array) result }
    {
        MutablePrimitiveArray::from_trusted_len_values_iter(alloc, iterator)?.freeze()
    }

    /// The same as [`PrimitiveArray::from_trusted_len_values_iter`].
    pub fn from_trusted_len_values_iter_unchecked<I: Iterator<Item = T> + Drop>(
        alloc: Global,
        iterator: I,
    ) -> Result<Self, PolarsError>
        requires can { I.can_next iterator }
        requires ends { IsFinite (I.remaining iterator) }
        ensures { MadeBy (row_growth T.zero_value) (λ value. Some value) I.next_gives iterator (no_numbers (default_type T.PRIMITIVE)) (λ a array. a ≡ frozen_array array) result }
    {
        Self::from_trusted_len_values_iter(alloc, iterator)
    }

    /// The same as [`PrimitiveArray::from_iter`], of an iterator.
    pub fn from_trusted_len_iter<I: Iterator<Item = Option<T>> + Drop>(
        alloc: Global,
        iterator: I,
    ) -> Result<Self, PolarsError>
        requires can { I.can_next iterator }
        requires ends { IsFinite (I.remaining iterator) }
        ensures { MadeBy (row_growth T.zero_value) (λ row. row) I.next_gives iterator (no_numbers (default_type T.PRIMITIVE)) (λ a array. a ≡ frozen_array array) result }
    {
        MutablePrimitiveArray::from_trusted_len_iter(alloc, iterator)?.freeze()
    }

    /// The same as [`PrimitiveArray::from_trusted_len_iter`].
    pub fn from_trusted_len_iter_unchecked<I: Iterator<Item = Option<T>> + Drop>(
        alloc: Global,
        iterator: I,
    ) -> Result<Self, PolarsError>
        requires can { I.can_next iterator }
        requires ends { IsFinite (I.remaining iterator) }
        ensures { MadeBy (row_growth T.zero_value) (λ row. row) I.next_gives iterator (no_numbers (default_type T.PRIMITIVE)) (λ a array. a ≡ frozen_array array) result }
    {
        Self::from_trusted_len_iter(alloc, iterator)
    }
}
