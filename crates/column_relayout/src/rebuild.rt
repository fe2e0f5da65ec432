//! The step that writes a column anew.

ghost use Rattle.std.specs.Prelude.{◌≡◌, ◌≤◌, true, false, None, Some};
ghost use Rattle.column_base.specs.Answers.{Answers, AnswersFirst};
ghost use Rattle.column_binary.specs.Slots.{offset_slots};
ghost use Rattle.column_binview.specs.Slots.{view_slots};
ghost use Rattle.column_relayout.specs.declared.steps.Step.TheVariants.{Rebuild};
ghost use Rattle.column_relayout.specs.Kinds.{kind_of, offset_kind};
ghost use Rattle.column_relayout.specs.Columns.{offset_column, view_column, number_column};
ghost use Rattle.column_relayout.specs.Written.{bytes_in, written_slots, written_lists, bytes_fault, HoldSlots};
ghost use Rattle.column_relayout.specs.Arrays.{lists_of};
ghost use Rattle.column_relayout.specs.Relayouts.{AnswersStep, StepAnswers};

use crate::arrays::Column;
use crate::columns::AnyArray;
use crate::kind::Kind;
use crate::write_rows::{rows_builder, write_cause, write_rows, written};
use crate::written::{taken_over, used_bytes};
use column_base::{Cause, Offset, PolarsError};
use column_binary::{BinaryArray, MutableBinaryArray};
use column_binview::Utf8ViewArray;
use column_primitive::Int64Array;
use column_rows::bytes_of_numbers;
use column_utf8::Utf8Array;
use std::alloc::Global;

/// The valid slots as they are, and null ones with zeros where the kind has a width and else without bytes, in a column of
/// the kind, whose lists are new. The column is consumed.
///
/// `SizeZero` where the kind is one of byte strings of no bytes, and else `WrongKind` where it is one of texts and the
/// column is not. Else `WrongLength` where the kind has a width, of 8 bytes for numbers, and a valid slot has another
/// length. Else `Overflow`: into offsets where the bytes of the valid slots together pass the greatest offset, into byte
/// strings of one width where all slots have 2 ^ 64 bytes or more together, into views where a valid slot has 2 ^ 32 bytes
/// or more, or else only where more valid slots have more than 12 bytes than there may be buffers. `NoMemory` where there
/// is none for the lists, and never where there is a cause but for the number of buffers.
#[tactic(auto, using(crate::proofs::RebuildLemmas::rows_answer))]
pub fn step_rebuild(alloc: Global, column: AnyArray, kind: Kind) -> Result<AnyArray, PolarsError>
    ensures { StepAnswers (lists_of column) (Rebuild kind) result }
{
    match column {
        AnyArray::Binary32(array) => rebuild_bytes(alloc, array, kind),
        AnyArray::Binary64(array) => rebuild_bytes(alloc, array, kind),
        AnyArray::Utf8_32(array) => rebuild_texts(alloc, array, kind),
        AnyArray::Utf8_64(array) => rebuild_texts(alloc, array, kind),
        AnyArray::BinView(array) => write_rows(alloc, &array, false, kind),
        AnyArray::Utf8View(array) => rebuild_text_views(alloc, array, kind),
        AnyArray::Fixed(array) => write_rows(alloc, &array, false, kind),
        AnyArray::Int64(array) => rebuild_numbers(alloc, &array, kind),
    }
}

#[tactic(auto, using(crate::proofs::RebuildLemmas::bytes_answer))]
fn rebuild_bytes<O: Offset>(
    alloc: Global,
    array: BinaryArray<O>,
    kind: Kind,
) -> Result<AnyArray, PolarsError>
    ensures { StepAnswers (offset_column O.IS_LARGE false array) (Rebuild kind) result }
{
    match kind {
        Kind::Binary32 => Ok(AnyArray::Binary32(bytes_to_bytes(alloc, array, kind)?)),
        Kind::Binary64 => Ok(AnyArray::Binary64(bytes_to_bytes(alloc, array, kind)?)),
        Kind::Utf8_32 | Kind::Utf8_64 | Kind::BinView | Kind::Utf8View => {
            write_rows(alloc, &array, false, kind)
        }
        Kind::Fixed(_) | Kind::Int64 => write_rows(alloc, &array, false, kind),
    }
}

#[tactic(auto, using(crate::proofs::RebuildLemmas::bytes_answer))]
fn rebuild_texts<O: Offset>(
    alloc: Global,
    array: Utf8Array<O>,
    kind: Kind,
) -> Result<AnyArray, PolarsError>
    ensures { StepAnswers (offset_column O.IS_LARGE true array) (Rebuild kind) result }
{
    match kind {
        Kind::Binary32 => Ok(AnyArray::Binary32(texts_to_bytes(alloc, array, kind)?)),
        Kind::Binary64 => Ok(AnyArray::Binary64(texts_to_bytes(alloc, array, kind)?)),
        Kind::Utf8_32 => Ok(AnyArray::Utf8_32(texts_to_texts(alloc, array, kind)?)),
        Kind::Utf8_64 => Ok(AnyArray::Utf8_64(texts_to_texts(alloc, array, kind)?)),
        Kind::BinView | Kind::Utf8View | Kind::Fixed(_) | Kind::Int64 => {
            texts_to_others(alloc, array, kind)
        }
    }
}

fn texts_to_others<O: Offset>(
    alloc: Global,
    array: Utf8Array<O>,
    kind: Kind,
) -> Result<AnyArray, PolarsError>
    ensures { StepAnswers (offset_column O.IS_LARGE true array) (Rebuild kind) result }
{
    array.known();
    let bytes = array.into_binary();
    write_rows(alloc, &bytes, true, kind)
}

fn rebuild_text_views(
    alloc: Global,
    array: Utf8ViewArray,
    kind: Kind,
) -> Result<AnyArray, PolarsError>
    ensures { StepAnswers (view_column true array) (Rebuild kind) result }
{
    Column::known(&array);
    let bytes = array.into_binview();
    write_rows(alloc, &bytes, true, kind)
}

fn rebuild_numbers(alloc: Global, array: &Int64Array, kind: Kind) -> Result<AnyArray, PolarsError>
    ensures { StepAnswers (number_column array.now) (Rebuild kind) result }
{
    match write_cause(array, false, kind) {
        Some(cause) => Err(cause.into()),
        None => {
            let bytes = bytes_of_numbers(alloc, array)?;
            written(alloc, &bytes, false, kind)
        }
    }
}

fn bytes_to_bytes<O: Offset, P: Offset>(
    alloc: Global,
    array: BinaryArray<O>,
    _kind: Kind,
) -> Result<BinaryArray<P>, PolarsError>
    requires { kind_of _kind ≡ offset_kind P.IS_LARGE false }
    ensures { AnswersStep (λ new. offset_column P.IS_LARGE false new) (offset_column O.IS_LARGE false array) (Rebuild _kind) result }
{
    let new = rewritten(alloc, &array)?;
    Column::known(&new);
    Ok(new)
}

fn texts_to_bytes<O: Offset, P: Offset>(
    alloc: Global,
    array: Utf8Array<O>,
    _kind: Kind,
) -> Result<BinaryArray<P>, PolarsError>
    requires { kind_of _kind ≡ offset_kind P.IS_LARGE false }
    ensures { AnswersStep (λ new. offset_column P.IS_LARGE false new) (offset_column O.IS_LARGE true array) (Rebuild _kind) result }
{
    let new = rewritten(alloc, &array.into_binary())?;
    Column::known(&new);
    Ok(new)
}

fn texts_to_texts<O: Offset, P: Offset>(
    alloc: Global,
    array: Utf8Array<O>,
    _kind: Kind,
) -> Result<Utf8Array<P>, PolarsError>
    requires { kind_of _kind ≡ offset_kind P.IS_LARGE true }
    ensures { AnswersStep (λ new. offset_column P.IS_LARGE true new) (offset_column O.IS_LARGE true array) (Rebuild _kind) result }
{
    array.known();
    let (_, offsets, values, validity) = rewritten(alloc, &array.into_binary())?.into_inner();
    let texts = Utf8Array::new_unchecked(
        Utf8Array::<P>::default_dtype(),
        offsets,
        values,
        validity,
    );
    Column::known(&texts);
    Ok(texts)
}

/// The slots written anew, with offsets of another width.
///
/// `Overflow` where the bytes of the valid ones together pass its greatest value.
fn rewritten<O: Offset, P: Offset>(
    alloc: Global,
    array: &BinaryArray<O>,
) -> Result<BinaryArray<P>, PolarsError>
    ensures { let slots = written_slots (offset_slots array.now) in AnswersFirst result (bytes_fault (Some P.GREATEST) slots) (λ new. new ≡ written_lists slots) }
{
    let bytes = valid_bytes(array);
    if bytes > P::GREATEST {
        return Err(Cause::Overflow.into());
    }
    fitting(alloc, array, bytes)
}

fn fitting<O: Offset, P: Offset>(
    alloc: Global,
    array: &BinaryArray<O>,
    bytes: usize,
) -> Result<BinaryArray<P>, PolarsError>
    requires bytes { bytes ≡ bytes_in (written_slots (offset_slots array.now)) }
    requires within { bytes ≤ P.GREATEST }
    ensures { let slots = written_slots (offset_slots array.now) in Answers result None (λ new. new ≡ written_lists slots) }
{
    let builder = valid_slots(alloc, array, bytes)?;
    builder.freeze()
}

/// A builder of the slots: taken over where no bytes lie in null ones.
fn valid_slots<O: Offset, P: Offset>(
    alloc: Global,
    array: &BinaryArray<O>,
    bytes: usize,
) -> Result<MutableBinaryArray<P>, PolarsError>
    requires bytes { bytes ≡ bytes_in (written_slots (offset_slots array.now)) }
    requires within { bytes ≤ P.GREATEST }
    ensures { Answers result None (λ builder. HoldSlots builder.lists (written_slots (offset_slots array.now))) }
{
    if bytes == used_bytes(array).len() {
        taken_over(alloc, array, 0, 0)
    } else {
        rows_builder(alloc, array, bytes)
    }
}

/// How many bytes the valid slots have together.
fn valid_bytes<O: Offset>(array: &BinaryArray<O>) -> usize
    ensures { result ≡ bytes_in (written_slots (offset_slots array.now)) }
{
    let mut bytes = used_bytes(array).len();
    if array.null_count() == 0 {
        return bytes;
    }
    for i in 0..array.len() {
        if array.is_null(i) {
            bytes -= array.value(i).len();
        }
    }
    bytes
}
