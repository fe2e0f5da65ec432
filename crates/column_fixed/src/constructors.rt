//! Slots of the items of an iterator or a slice: builders and arrays that are made of them. No call asks an iterator how
//! many items it has.

ghost use Rattle.std.specs.Prelude.{◌≡◌, ◌<◌, Some, None, Err, OnErr};
ghost use Rattle.std.specs.Iterator.{IsFiniteIterable};
ghost use Rattle.std.specs.Option.{option_copied};
ghost use Rattle.std.specs.List.{concat};
ghost use Rattle.column_base.specs.declared.errors.PolarsError.TheVariants.{NoMemory};
ghost use Rattle.column_base.specs.Answers.{Answers};
ghost use Rattle.column_base.specs.Pushes.{MadeBy, grown};
ghost use Rattle.column_fixed.specs.Slots.{fixed_lists};
ghost use Rattle.column_fixed.specs.Rows.{no_slots, pushed_row, row_fault, row_growth, NoneIsRefused};

use crate::array::FixedSizeBinaryArray;
use crate::builder::MutableFixedSizeBinaryArray;
use column_base::{PolarsError, with_each};
use column_storage::Buffer;
use std::alloc::Global;

impl MutableFixedSizeBinaryArray {
    /// A slot of each row.
    ///
    /// `WrongLength` where the bytes of a row are not as many as `size` says, `NoMemory` where there is none for the
    /// slots.
    pub fn try_from_iter<'b, I: IntoIterator<Item = Option<&'b [u8]>>>(
        alloc: Global,
        iter: I,
        size: usize,
    ) -> Result<Self, PolarsError>
    where
        I::IntoIter: Drop,
        requires positive { 0 < size }
        requires ends { IsFiniteIterable I.into_iter_gives I.IntoIter.can_next I.IntoIter.remaining iter }
        ensures { (items : I.IntoIter) × I.into_iter_gives iter items × MadeBy row_growth option_copied I.IntoIter.next_gives items (no_slots size) (λ b lists. b.lists ≡ lists) result }
    {
        let items = iter.into_iter();
        with_each(Self::new(alloc, size), items)
    }
}

// ---- rows that are arrays of bytes

// No object has more bytes, so that there is no row of more.
const MOST_BYTES: usize = usize::MAX / 2;

impl MutableFixedSizeBinaryArray {
    /// A slot of each row, of `N` bytes. The type of a row tells its length, so that none is refused.
    ///
    /// `NoMemory` where there is none for the slots.
    pub fn from<const N: usize>(
        alloc: Global,
        slice: &[Option<[u8; N]>],
    ) -> Result<Self, PolarsError>
        requires { 0 < N }
        ensures { Answers result None (λ b. b.lists ≡ grown row_growth (no_slots N) slice.now) }
    {
        let mut builder = Self::new(alloc, N);
        builder.reserve(slice.len())?;
        for row in slice {
            if N > MOST_BYTES {
                return Err(PolarsError::NoMemory);
            }
            builder.push_row(row)?;
        }
        Ok(builder)
    }

    // Adds a slot of a row whose type tells that it is of the width.
    fn push_row<const N: usize>(&mut self, row: &Option<[u8; N]>) -> Result<(), PolarsError>
        requires { self.old.lists.width ≡ N }
        ensures { Answers result None (λ _. self.new.lists ≡ pushed_row self.old.lists row.now) }
    {
        match row {
            Some(bytes) => self.push_array(bytes),
            None => self.push_null(),
        }
    }

    // Adds a valid slot of bytes whose type tells that they are as many as the width says.
    #[tactic(auto, using(crate::proofs::RowsLemmas::fitting))]
    fn push_array<const N: usize>(&mut self, bytes: &[u8; N]) -> Result<(), PolarsError>
        requires { self.old.lists.width ≡ N }
        ensures { Answers result None (λ _. self.new.lists ≡ pushed_row self.old.lists (Some bytes.now)) }
    {
        self.push(Some(bytes.as_slice()))
    }
}

impl FixedSizeBinaryArray {
    /// A slot of each row. There is a validity exactly where one is null.
    ///
    /// `WrongLength` where the bytes of a row are not as many as `size` says, `NoMemory` where there is none for the
    /// slots.
    pub fn try_from_iter<'b, I: IntoIterator<Item = Option<&'b [u8]>>>(
        alloc: Global,
        iter: I,
        size: usize,
    ) -> Result<Self, PolarsError>
    where
        I::IntoIter: Drop,
        requires positive { 0 < size }
        requires ends { IsFiniteIterable I.into_iter_gives I.IntoIter.can_next I.IntoIter.remaining iter }
        ensures { (items : I.IntoIter) × I.into_iter_gives iter items × MadeBy row_growth option_copied I.IntoIter.next_gives items (no_slots size) (λ a lists. a ≡ lists) result }
    {
        MutableFixedSizeBinaryArray::try_from_iter(alloc, iter, size)?.freeze()
    }

    /// A valid slot of each value, without a validity. One copy of all bytes.
    ///
    /// `NoMemory` where there is none for the slots.
    pub fn from_slice<const N: usize>(alloc: Global, a: &[[u8; N]]) -> Result<Self, PolarsError>
        requires { 0 < N }
        ensures { Answers result None (λ array. array ≡ fixed_lists N (concat a.now) None) }
    {
        let values = Vec::from_slice(alloc, a.as_flattened())?;
        let values = Buffer::from_vec(alloc, values)?;
        Ok(FixedSizeBinaryArray::of(N, values, None))
    }

    /// A slot of each row, of `N` bytes. There is a validity exactly where one is null. The type of a row tells its length,
    /// so that none is refused.
    ///
    /// `NoMemory` where there is none for the slots.
    pub fn from<const N: usize>(
        alloc: Global,
        slice: &[Option<[u8; N]>],
    ) -> Result<Self, PolarsError>
        requires { 0 < N }
        ensures { Answers result None (λ a. a ≡ grown row_growth (no_slots N) slice.now) }
    {
        MutableFixedSizeBinaryArray::from(alloc, slice)?.freeze()
    }

    /// The same as [`FixedSizeBinaryArray::try_from_iter`], of rows of the right length.
    ///
    /// `NoMemory` where there is none for the slots.
    pub fn from_iter<'b, I: IntoIterator<Item = Option<&'b [u8]>>>(
        alloc: Global,
        iter: I,
        size: usize,
    ) -> Result<Self, PolarsError>
    where
        I::IntoIter: Drop,
        requires positive { 0 < size }
        requires ends { IsFiniteIterable I.into_iter_gives I.IntoIter.can_next I.IntoIter.remaining iter }
        requires fit { (items : I.IntoIter) → I.into_iter_gives iter items → NoneIsRefused (row_fault (no_slots size)) option_copied I.IntoIter.next_gives items }
        ensures made { (items : I.IntoIter) × I.into_iter_gives iter items × MadeBy row_growth option_copied I.IntoIter.next_gives items (no_slots size) (λ a lists. a ≡ lists) result }
        ensures memory { OnErr result (result ≡ Err NoMemory) }
    {
        Self::try_from_iter(alloc, iter, size)
    }
}
