//! Rows behind views.

ghost use Rattle.std.specs.Prelude.{◌≡◌, ℕ, ◌+◌, ◌<◌, ◌++◌, true, false, List, length, map, Option, Some, None};
ghost use Rattle.std.specs.List.{list_all};
ghost use Rattle.column_base.specs.declared.errors.Cause.{Cause};
ghost use Rattle.column_base.specs.declared.errors.Cause.TheVariants as causes;
ghost use Rattle.column_base.specs.Pushes.{grown, growth_fault};
ghost use Rattle.column_storage.specs.declared.data_buffers.TheConstants.{MAX_BUFFERS};
ghost use Rattle.column_binview.specs.Slots.{ViewLists, view_slots, AreSoundViews};
ghost use Rattle.column_binview.specs.Builders.{builder_of, lists_of, row_growth, slot_of, written_rows};
ghost use Rattle.column_rows.specs.Rows.{is_of_view};
ghost use Rattle.column_rows.specs.Views.{Hold, AreAppended, Overflows};

use crate::push::push_rows;
use crate::row_list::ByteRows;
use column_base::PolarsError;
use column_binview::{
    BinaryViewArray, MutablePlBinary, builder_of_lists_is_sound, pushed_rows_append,
    rows_overflow_alone,
};
use column_blocks::calls_append;
use std::alloc::Global;

// Law of rows that are pushed to the builder of sound lists: what they leave, and where one of them is refused.
fn rows_are_appended()
    ensures appended { (old : ViewLists) (rows : List (Option (List ℕ))) → AreSoundViews false old → growth_fault row_growth (builder_of old) rows ≡ None
        → let new = lists_of (grown row_growth (builder_of old) rows) in (view_slots new ≡ view_slots old ++ map slot_of rows) × AreAppended old rows new }
    ensures refused { (old : ViewLists) (rows : List (Option (List ℕ))) (cause : Cause) → list_all is_of_view rows ≡ true → growth_fault row_growth (builder_of old) rows ≡ Some cause
        → (cause ≡ causes.Overflow) × (MAX_BUFFERS < length old.buffers + length (written_rows rows)) }
{
    pushed_rows_append();
    builder_of_lists_is_sound();
    rows_overflow_alone();
    calls_append();
}

/// A slot of each row behind views: valid, with its bytes, or null without bytes. The buffers are, end to end, the rows
/// that have more than 12 bytes, none of them is empty, and they are at most as many.
///
/// `Overflow` only where more such rows are given than there may be buffers; `NoMemory` where there is none for the slots.
pub fn views_of_rows<R: ByteRows>(alloc: Global, rows: &R) -> Result<BinaryViewArray, PolarsError>
    requires { list_all is_of_view (R.rows rows.now) ≡ true }
    ensures { let all = R.rows rows.now in Overflows result (MAX_BUFFERS < length (written_rows all)) (λ a. (view_slots a ≡ map slot_of all) × Hold a.buffers (written_rows all)) }
{
    rows_are_appended();
    let mut builder = MutablePlBinary::with_capacity(alloc, rows.count())?;
    push_rows(&mut builder, rows)?;
    builder.freeze()
}

/// The slots of the array, and after them one of each row. The array's views and buffers are the first ones, and the
/// further buffers are, end to end, the rows that have more than 12 bytes: none of them is empty, and they are at most as
/// many.
///
/// `Overflow` only where the array's buffers and such rows are together more than there may be buffers; `NoMemory` where
/// there is none for the slots.
pub fn views_with_rows<R: ByteRows>(
    alloc: Global,
    array: BinaryViewArray,
    rows: &R,
) -> Result<BinaryViewArray, PolarsError>
    requires { list_all is_of_view (R.rows rows.now) ≡ true }
    ensures { let all = R.rows rows.now in Overflows result (MAX_BUFFERS < length array.buffers + length (written_rows all)) (λ a. (view_slots a ≡ view_slots array ++ map slot_of all) × AreAppended array all a) }
{
    rows_are_appended();
    array.known();
    let mut builder = array.make_mut(alloc)?;
    builder.reserve(rows.count())?;
    push_rows(&mut builder, rows)?;
    builder.freeze()
}
