//! The step that appends rows.

ghost use Rattle.std.specs.Prelude.{◌≡◌, ◌++◌, ◌+◌, ◌*◌, ◌^◌, ◌<◌, ◌≤◌, nat_lt, true, false, pos, map, length, Some, None, MatchOption};
ghost use Rattle.column_base.specs.Answers.{Answers, AnswersFirst};
ghost use Rattle.column_offset.specs.Offsets.{offset_at};
ghost use Rattle.column_offset.specs.Text.{are_well_formed_utf8};
ghost use Rattle.column_binary.specs.Slots.{offset_slots};
ghost use Rattle.column_binary.specs.Rows.{slot_of};
ghost use Rattle.column_fixed.specs.Slots.{fixed_count};
ghost use Rattle.column_rows.specs.Rows.{given_rows};
ghost use Rattle.column_relayout.specs.declared.steps.Step.TheVariants.{Append};
ghost use Rattle.column_relayout.specs.Columns.{offset_column, view_column, fixed_column, number_column};
ghost use Rattle.column_relayout.specs.Written.{bytes_in, written_lists, bytes_fault, HoldSlots};
ghost use Rattle.column_relayout.specs.Arrays.{lists_of};
ghost use Rattle.column_relayout.specs.Relayouts.{AnswersStep, StepAnswers};

use crate::arrays::Column;
use crate::columns::AnyArray;
use crate::rows::Rows;
use crate::written::{taken_over, used_bytes};
use column_base::{Cause, Offset, PolarsError, is_utf8};
use column_binary::{BinaryArray, MutableBinaryArray};
use column_binview::{BinaryViewArray, Utf8ViewArray};
use column_fixed::FixedSizeBinaryArray;
use column_primitive::Int64Array;
use column_rows::{
    are_of_view, are_of_width, bytes_within, fixed_with_rows, numbers_with_rows, push_rows,
    views_with_rows,
};
use column_utf8::Utf8Array;
use std::alloc::Global;

/// The slots as they are, and after them one of each row: valid, with its bytes, or null where the row is missing, with
/// zeros where slots have a width and else without bytes. The column is consumed.
///
/// With offsets, these begin at 0 afterwards; where they did before, the memory of lists that no other column shares is
/// kept. With views the column's views and buffers stay, and the further buffers are, end to end, the rows that have more
/// than 12 bytes.
///
/// `InvalidUtf8` where the column is one of texts and a row is not UTF-8. `WrongLength` where slots have a width, of 8
/// bytes for numbers, and a row has another length. `Overflow` with offsets where the bytes of all slots and rows together
/// pass the greatest offset; of byte strings of one width where all slots have 2 ^ 64 bytes or more together; with views
/// where a row has 2 ^ 32 bytes or more, or else only where buffers and long rows together are more than there may be
/// buffers. `NoMemory` where there is none for the lists, and never where there is a cause but for the number of buffers.
pub fn step_append(alloc: Global, column: AnyArray, rows: &Rows) -> Result<AnyArray, PolarsError>
    ensures { StepAnswers (lists_of column) (Append rows.now) result }
{
    match column {
        AnyArray::Binary32(array) => Ok(AnyArray::Binary32(append_bytes(alloc, array, rows)?)),
        AnyArray::Binary64(array) => Ok(AnyArray::Binary64(append_bytes(alloc, array, rows)?)),
        AnyArray::Utf8_32(array) => Ok(AnyArray::Utf8_32(append_texts(alloc, array, rows)?)),
        AnyArray::Utf8_64(array) => Ok(AnyArray::Utf8_64(append_texts(alloc, array, rows)?)),
        AnyArray::BinView(array) => Ok(AnyArray::BinView(append_views(alloc, array, rows)?)),
        AnyArray::Utf8View(array) => {
            Ok(AnyArray::Utf8View(append_text_views(alloc, array, rows)?))
        }
        AnyArray::Fixed(array) => Ok(AnyArray::Fixed(append_fixed(alloc, array, rows)?)),
        AnyArray::Int64(array) => Ok(AnyArray::Int64(append_numbers(alloc, array, rows)?)),
    }
}

// ---- with offsets

fn append_bytes<O: Offset>(
    alloc: Global,
    array: BinaryArray<O>,
    rows: &Rows,
) -> Result<BinaryArray<O>, PolarsError>
    ensures { AnswersStep (λ new. offset_column O.IS_LARGE false new) (offset_column O.IS_LARGE false array) (Append rows.now) result }
{
    let new = appended(alloc, array, rows)?;
    Column::known(&new);
    Ok(new)
}

fn append_texts<O: Offset>(
    alloc: Global,
    array: Utf8Array<O>,
    rows: &Rows,
) -> Result<Utf8Array<O>, PolarsError>
    ensures { AnswersStep (λ new. offset_column O.IS_LARGE true new) (offset_column O.IS_LARGE true array) (Append rows.now) result }
{
    array.known();
    if !are_texts(rows) {
        return Err(Cause::InvalidUtf8.into());
    }
    let (_, offsets, values, validity) = appended(alloc, array.into_binary(), rows)?.into_inner();
    let texts = Utf8Array::new_unchecked(
        Utf8Array::<O>::default_dtype(),
        offsets,
        values,
        validity,
    );
    Column::known(&texts);
    Ok(texts)
}

/// Whether each row that is given is UTF-8.
fn are_texts(rows: &Rows) -> bool
    ensures { result ≡ are_well_formed_utf8 (given_rows rows.now) }
{
    for i in 0..rows.len() {
        if let Some(bytes) = rows.get(i) {
            let fine = is_utf8(bytes);
            if !fine {
                return false;
            }
        }
    }
    true
}

/// The slots, and after them those of the rows, with offsets from 0.
///
/// `Overflow` where their bytes together pass the greatest offset.
fn appended<O: Offset>(
    alloc: Global,
    array: BinaryArray<O>,
    rows: &Rows,
) -> Result<BinaryArray<O>, PolarsError>
    ensures { let slots = offset_slots array ++ map slot_of rows.now in AnswersFirst result (bytes_fault (Some O.GREATEST) slots) (λ new. new ≡ written_lists slots) }
{
    match bytes_within(rows, O::GREATEST - used_bytes(&array).len()) {
        Some(bytes) => fitting(alloc, array, rows, bytes),
        None => Err(Cause::Overflow.into()),
    }
}

fn fitting<O: Offset>(
    alloc: Global,
    array: BinaryArray<O>,
    rows: &Rows,
    bytes: usize,
) -> Result<BinaryArray<O>, PolarsError>
    requires { bytes_in (offset_slots array ++ map slot_of rows.now) ≤ O.GREATEST }
    ensures { let slots = offset_slots array ++ map slot_of rows.now in Answers result None (λ new. new ≡ written_lists slots) }
{
    let mut builder = growing(alloc, array, rows.len(), bytes)?;
    push_rows(&mut builder, rows)?;
    builder.known();
    builder.freeze()
}

/// A builder of the column's slots with offsets from 0, with room for `more` slots of `more_bytes` bytes.
///
/// The memory is kept where the first offset is 0 and no other column shares it, and is copied otherwise.
fn growing<O: Offset>(
    alloc: Global,
    array: BinaryArray<O>,
    more: usize,
    more_bytes: usize,
) -> Result<MutableBinaryArray<O>, PolarsError>
    ensures { Answers result None (λ builder. HoldSlots builder.lists (offset_slots array)) }
{
    array.known();
    if array.offsets().first().to_usize() == 0 {
        kept(alloc, array, more, more_bytes)
    } else {
        taken_over(alloc, &array, more, more_bytes)
    }
}

fn kept<O: Offset>(
    alloc: Global,
    array: BinaryArray<O>,
    more: usize,
    more_bytes: usize,
) -> Result<MutableBinaryArray<O>, PolarsError>
    requires { offset_at array.offsets 0 ≡ pos 0 }
    ensures { Answers result None (λ builder. HoldSlots builder.lists (offset_slots array)) }
{
    array.known();
    let mut builder = array.into_mut(alloc)?;
    builder.reserve(more, more_bytes)?;
    Ok(builder)
}

// ---- with views

fn append_views(
    alloc: Global,
    array: BinaryViewArray,
    rows: &Rows,
) -> Result<BinaryViewArray, PolarsError>
    ensures { AnswersStep (λ new. view_column false new) (view_column false array) (Append rows.now) result }
{
    array.known();
    if !are_of_view(rows) {
        return Err(Cause::Overflow.into());
    }
    let new = views_with_rows(alloc, array, rows)?;
    Column::known(&new);
    Ok(new)
}

fn append_text_views(
    alloc: Global,
    array: Utf8ViewArray,
    rows: &Rows,
) -> Result<Utf8ViewArray, PolarsError>
    ensures { AnswersStep (λ new. view_column true new) (view_column true array) (Append rows.now) result }
{
    Column::known(&array);
    if !are_texts(rows) {
        return Err(Cause::InvalidUtf8.into());
    }
    if !are_of_view(rows) {
        return Err(Cause::Overflow.into());
    }
    let bytes = views_with_rows(alloc, array.into_binview(), rows)?;
    bytes.known();
    let texts = bytes.to_utf8view_unchecked(alloc)?;
    Column::known(&texts);
    Ok(texts)
}

// ---- with a width

fn append_fixed(
    alloc: Global,
    array: FixedSizeBinaryArray,
    rows: &Rows,
) -> Result<FixedSizeBinaryArray, PolarsError>
    ensures { AnswersStep (λ new. fixed_column new) (fixed_column array) (Append rows.now) result }
{
    let width = array.size();
    if !are_of_width(rows, width) {
        return Err(Cause::WrongLength.into());
    }
    if !have_room(array.len(), rows.len(), width) {
        return Err(Cause::Overflow.into());
    }
    let new = fixed_with_rows(alloc, array, rows)?;
    Column::known(&new);
    Ok(new)
}

/// Whether so many slots and so many more, of a width each, have fewer than 2 ^ 64 bytes.
#[tactic(auto, using(crate::proofs::AppendLemmas::none_fits))]
fn have_room(slots: usize, more: usize, width: usize) -> bool
    requires { 0 < width }
    ensures { result ≡ nat_lt ((slots + more) * width) (2 ^ 64) }
{
    match slots.checked_add(more) {
        Some(all) => all.checked_mul(width).is_some(),
        None => false,
    }
}

fn append_numbers(alloc: Global, array: Int64Array, rows: &Rows) -> Result<Int64Array, PolarsError>
    ensures { AnswersStep (λ new. number_column new) (number_column array) (Append rows.now) result }
{
    if !are_of_width(rows, 8) {
        return Err(Cause::WrongLength.into());
    }
    let new = numbers_with_rows(alloc, array, rows)?;
    Column::known(&new);
    Ok(new)
}
