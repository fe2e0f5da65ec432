//! Arrays of the items of a slice.

ghost use Rattle.std.specs.Prelude.{◌≡◌, None};
ghost use Rattle.column_base.specs.Answers.{Answers};
ghost use Rattle.column_base.specs.Pushes.{grown};
ghost use Rattle.column_boolean.specs.Slots.{boolean_lists};
ghost use Rattle.column_boolean.specs.Rows.{no_slots, row_growth, frozen_lists};

use crate::array::BooleanArray;
use crate::builder::MutableBooleanArray;
use column_base::{PolarsError, TryPush, with_each};
use column_storage::Bitmap;
use std::alloc::Global;

impl<'b> TryPush<&'b Option<bool>> for MutableBooleanArray {
    ghost shown = { λ row. row.now };

    fn try_push(&mut self, item: &'b Option<bool>) -> Result<(), PolarsError> {
        self.push(*item)
    }
}

impl BooleanArray {
    /// A valid slot of each truth value, without a validity. One copy of all.
    ///
    /// `NoMemory` where there is none for the slots.
    pub fn from_slice(alloc: Global, slice: &[bool]) -> Result<Self, PolarsError>
        ensures { Answers result None (λ a. a ≡ boolean_lists slice.now None) }
    {
        Ok(BooleanArray::of(Bitmap::from_bools(alloc, slice)?, None))
    }

    /// A slot of each row. There is a validity exactly where one is null.
    ///
    /// `NoMemory` where there is none for the slots.
    pub fn from(alloc: Global, slice: &[Option<bool>]) -> Result<Self, PolarsError>
        ensures { Answers result None (λ a. a ≡ frozen_lists (grown row_growth no_slots slice.now)) }
    {
        rows_of(alloc, slice)?.freeze()
    }
}

// A builder of a slot of each row.
fn rows_of(alloc: Global, slice: &[Option<bool>]) -> Result<MutableBooleanArray, PolarsError>
    ensures { Answers result None (λ b. b.lists ≡ grown row_growth no_slots slice.now) }
{
    with_each(
        MutableBooleanArray::with_capacity(alloc, slice.len())?,
        slice.iter(),
    )
}
