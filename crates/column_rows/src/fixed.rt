//! Rows as byte strings of one width.

ghost use Rattle.std.specs.Prelude.{◌≡◌, ◌*◌, ◌^◌, ◌<◌, ◌++◌, true, length, map, None};
ghost use Rattle.std.specs.List.{list_all};
ghost use Rattle.column_base.specs.Answers.{Answers};
ghost use Rattle.column_fixed.specs.Slots.{fixed_slots};
ghost use Rattle.column_fixed.specs.Rows.{is_of_width, slot_of};

use crate::push::push_rows;
use crate::row_list::ByteRows;
use column_base::PolarsError;
use column_fixed::{
    FixedSizeBinaryArray, MutableFixedSizeBinaryArray, no_fault_is_sound, pushes_add_slots,
    pushes_keep_the_width, rows_fit_together,
};
use column_storage::flags_into_mut;
use std::alloc::Global;

/// A slot of each row, of `width` bytes: valid, with its bytes, or null, with zeros.
///
/// `NoMemory` where there is none for the slots.
pub fn fixed_of_rows<R: ByteRows>(
    alloc: Global,
    width: usize,
    rows: &R,
) -> Result<FixedSizeBinaryArray, PolarsError>
    requires positive { 0 < width }
    requires widths { list_all (is_of_width width) (R.rows rows.now) ≡ true }
    requires fits { length (R.rows rows.now) * width < 2 ^ 64 }
    ensures { Answers result None (λ a. (a.width ≡ width) × (fixed_slots a ≡ map (slot_of width) (R.rows rows.now))) }
{
    let mut builder = MutableFixedSizeBinaryArray::with_capacity(alloc, width, rows.count())?;
    push_fitting(&mut builder, rows)?;
    let array = builder.freeze()?;
    Ok(array)
}

/// The slots of the array, and after them one of each row.
///
/// `NoMemory` where there is none for the slots.
pub fn fixed_with_rows<R: ByteRows>(
    alloc: Global,
    array: FixedSizeBinaryArray,
    rows: &R,
) -> Result<FixedSizeBinaryArray, PolarsError>
    requires { list_all (is_of_width array.width) (R.rows rows.now) ≡ true }
    ensures { Answers result None (λ a. (a.width ≡ array.width) × (fixed_slots a ≡ fixed_slots array ++ map (slot_of array.width) (R.rows rows.now))) }
{
    let mut builder = growing(alloc, array)?;
    builder.reserve(rows.count())?;
    push_fitting(&mut builder, rows)?;
    let array = builder.freeze()?;
    Ok(array)
}

// The same slots, to be changed. The memory is kept where no other array shares it, and is copied otherwise.
//
// `NoMemory` where there is none for the copies.
fn growing(
    alloc: Global,
    array: FixedSizeBinaryArray,
) -> Result<MutableFixedSizeBinaryArray, PolarsError>
    ensures { Answers result None (λ b. b.lists ≡ array) }
{
    no_fault_is_sound();
    let (dtype, values, validity) = array.into_inner();
    let values = values.make_mut(alloc)?;
    let validity = flags_into_mut(alloc, validity)?;
    match MutableFixedSizeBinaryArray::try_new(dtype, values, validity) {
        Ok(builder) => Ok(builder),
        Err(_) => unreachable!(),
    }
}

// Adds a slot of each row, of which none is refused.
//
// `NoMemory` where there is none for a slot.
fn push_fitting<R: ByteRows>(
    builder: &mut MutableFixedSizeBinaryArray,
    rows: &R,
) -> Result<(), PolarsError>
    requires { list_all (is_of_width builder.old.lists.width) (R.rows rows.now) ≡ true }
    ensures { Answers result None (λ _. (builder.new.lists.width ≡ builder.old.lists.width) × (fixed_slots builder.new.lists ≡ fixed_slots builder.old.lists ++ map (slot_of builder.old.lists.width) (R.rows rows.now))) }
{
    builder.known();
    rows_fit_together();
    pushes_keep_the_width();
    pushes_add_slots();
    push_rows(builder, rows)
}
