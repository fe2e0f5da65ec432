//! Rows into a column of any kind.

ghost use Rattle.std.specs.Prelude.{◌≡◌, ◌*◌, ◌^◌, ◌<◌, ◌≤◌, Bool, true, false, not, map, length, Some, None};
ghost use Rattle.std.specs.List.{list_all};
ghost use Rattle.column_base.specs.declared.errors.Cause.TheVariants.{WrongKind};
ghost use Rattle.column_base.specs.Answers.{Answers, cause_if, ◌or_else◌};
ghost use Rattle.column_offset.specs.Text.{are_well_formed_utf8};
ghost use Rattle.column_binary.specs.Rows.{slot_of};
ghost use Rattle.column_fixed.specs.Rows.{is_of_width};
ghost use Rattle.column_base.specs.Kinds as kinds;
ghost use Rattle.column_rows.specs.Rows.{given_rows, bytes_in_rows, is_of_view};
ghost use Rattle.column_rows.specs.Views.{Overflows};
ghost use Rattle.column_relayout.specs.Kinds.{kind_of, offset_kind, view_kind};
ghost use Rattle.column_relayout.specs.Columns.{offset_column, view_column, fixed_column, number_column};
ghost use Rattle.column_relayout.specs.Written.{write_fault, bytes_fault, view_fault, length_fault, HoldSlots};
ghost use Rattle.column_relayout.specs.Rebuilds.{AreWritten, PassBuffers, AnswersRows};
ghost use Rattle.column_relayout.specs.Arrays.{lists_of};

use crate::arrays::Column;
use crate::columns::AnyArray;
use crate::kind::Kind;
use column_base::{Cause, Offset, PolarsError};
use column_binary::{BinaryArray, MutableBinaryArray};
use column_binview::{BinaryViewArray, Utf8ViewArray};
use column_fixed::FixedSizeBinaryArray;
use column_primitive::Int64Array;
use column_rows::{
    ByteRows, RowList, are_of_view, are_of_width, bytes_within, fixed_of_rows, numbers_of_rows,
    push_rows, views_of_rows,
};
use column_utf8::Utf8Array;
use std::alloc::Global;

/// The rows, which are those of texts where `text` says so, in a column of the kind.
pub(crate) fn write_rows<R: ByteRows>(
    alloc: Global,
    rows: &R,
    text: bool,
    kind: Kind,
) -> Result<AnyArray, PolarsError>
    requires { text ≡ true → are_well_formed_utf8 (given_rows (R.rows rows.now)) ≡ true }
    ensures { AnswersRows text (R.rows rows.now) (kind_of kind) result }
{
    if let Some(cause) = write_cause(rows, text, kind) {
        return Err(cause.into());
    }
    written(alloc, rows, text, kind)
}

// ---- why not

/// Why the rows are not written into a column of the kind. Takes no memory.
pub(crate) fn write_cause<R: RowList>(rows: &R, text: bool, kind: Kind) -> Option<Cause>
    ensures { result ≡ write_fault text (R.rows rows.now) (kind_of kind) }
{
    match kind {
        Kind::Binary32 => bytes_cause(rows, i32::GREATEST),
        Kind::Binary64 => bytes_cause(rows, i64::GREATEST),
        Kind::Utf8_32 => if_text(text, bytes_cause(rows, i32::GREATEST)),
        Kind::Utf8_64 => if_text(text, bytes_cause(rows, i64::GREATEST)),
        Kind::BinView => view_cause(rows),
        Kind::Utf8View => if_text(text, view_cause(rows)),
        Kind::Fixed(width) => fixed_cause(rows, width),
        Kind::Int64 => length_cause(rows, 8),
    }
}

/// The cause, where slots are texts, and else that they are none.
fn if_text(text: bool, cause: Option<Cause>) -> Option<Cause>
    ensures { result ≡ (cause_if (not text) WrongKind or_else cause) }
{
    if text { cause } else { Some(Cause::WrongKind) }
}

#[tactic(auto, using(crate::proofs::RebuildLemmas::bytes_causes))]
fn bytes_cause<R: RowList>(rows: &R, greatest: usize) -> Option<Cause>
    ensures { result ≡ bytes_fault (Some greatest) (map slot_of (R.rows rows.now)) }
{
    match bytes_within(rows, greatest) {
        Some(_) => None,
        None => Some(Cause::Overflow),
    }
}

fn view_cause<R: RowList>(rows: &R) -> Option<Cause>
    ensures { result ≡ view_fault (R.rows rows.now) }
{
    if are_of_view(rows) {
        None
    } else {
        Some(Cause::Overflow)
    }
}

fn length_cause<R: RowList>(rows: &R, width: usize) -> Option<Cause>
    ensures { result ≡ length_fault (Some width) (R.rows rows.now) }
{
    if are_of_width(rows, width) {
        None
    } else {
        Some(Cause::WrongLength)
    }
}

fn fixed_cause<R: RowList>(rows: &R, width: usize) -> Option<Cause>
    ensures { (text : Bool) → result ≡ write_fault text (R.rows rows.now) (kinds.Fixed width) }
{
    if width == 0 {
        return Some(Cause::SizeZero);
    }
    if !are_of_width(rows, width) {
        return Some(Cause::WrongLength);
    }
    match rows.count().checked_mul(width) {
        Some(_) => None,
        None => Some(Cause::Overflow),
    }
}

// ---- what is written

/// The rows in a column of the kind, where there is no cause why not.
pub(crate) fn written<R: ByteRows>(
    alloc: Global,
    rows: &R,
    _text: bool,
    kind: Kind,
) -> Result<AnyArray, PolarsError>
    requires fault { write_fault _text (R.rows rows.now) (kind_of kind) ≡ None }
    requires texts { _text ≡ true → are_well_formed_utf8 (given_rows (R.rows rows.now)) ≡ true }
    ensures { let all = R.rows rows.now in Overflows result (PassBuffers (kind_of kind) all) (λ column. AreWritten (kind_of kind) all (lists_of column)) }
{
    match kind {
        Kind::Binary32 => Ok(AnyArray::Binary32(bytes_of_rows(alloc, rows)?)),
        Kind::Binary64 => Ok(AnyArray::Binary64(bytes_of_rows(alloc, rows)?)),
        Kind::Utf8_32 => Ok(AnyArray::Utf8_32(texts_of_rows(alloc, rows)?)),
        Kind::Utf8_64 => Ok(AnyArray::Utf8_64(texts_of_rows(alloc, rows)?)),
        Kind::BinView => Ok(AnyArray::BinView(byte_views_of_rows(alloc, rows)?)),
        Kind::Utf8View => Ok(AnyArray::Utf8View(text_views_of_rows(alloc, rows)?)),
        Kind::Fixed(width) => Ok(AnyArray::Fixed(fixed(alloc, rows, width)?)),
        Kind::Int64 => Ok(AnyArray::Int64(numbers(alloc, rows)?)),
    }
}

fn bytes_of_rows<R: ByteRows, P: Offset>(
    alloc: Global,
    rows: &R,
) -> Result<BinaryArray<P>, PolarsError>
    requires { bytes_in_rows (R.rows rows.now) ≤ P.GREATEST }
    ensures { let all = R.rows rows.now in Answers result None (λ new. AreWritten (offset_kind P.IS_LARGE false) all (offset_column P.IS_LARGE false new)) }
{
    let bytes = bytes_within(rows, P::GREATEST).unwrap_or(0);
    let new = rows_builder(alloc, rows, bytes)?.freeze()?;
    Column::known(&new);
    Ok(new)
}

fn texts_of_rows<R: ByteRows, P: Offset>(
    alloc: Global,
    rows: &R,
) -> Result<Utf8Array<P>, PolarsError>
    requires within { bytes_in_rows (R.rows rows.now) ≤ P.GREATEST }
    requires texts { are_well_formed_utf8 (given_rows (R.rows rows.now)) ≡ true }
    ensures { let all = R.rows rows.now in Answers result None (λ new. AreWritten (offset_kind P.IS_LARGE true) all (offset_column P.IS_LARGE true new)) }
{
    let bytes = bytes_of_rows::<R, P>(alloc, rows)?;
    let (_, offsets, values, validity) = bytes.into_inner();
    let texts = Utf8Array::new_unchecked(
        Utf8Array::<P>::default_dtype(),
        offsets,
        values,
        validity,
    );
    Column::known(&texts);
    Ok(texts)
}

/// A builder of a slot of each row, with room for `bytes` bytes.
pub(crate) fn rows_builder<R: ByteRows, P: Offset>(
    alloc: Global,
    rows: &R,
    bytes: usize,
) -> Result<MutableBinaryArray<P>, PolarsError>
    requires { bytes_in_rows (R.rows rows.now) ≤ P.GREATEST }
    ensures { Answers result None (λ builder. HoldSlots builder.lists (map slot_of (R.rows rows.now))) }
{
    let mut builder = MutableBinaryArray::with_capacities(alloc, rows.count(), bytes)?;
    push_rows(&mut builder, rows)?;
    builder.known();
    Ok(builder)
}

fn byte_views_of_rows<R: ByteRows>(alloc: Global, rows: &R) -> Result<BinaryViewArray, PolarsError>
    requires { list_all is_of_view (R.rows rows.now) ≡ true }
    ensures { let all = R.rows rows.now in Overflows result (PassBuffers kinds.BinView all) (λ new. AreWritten kinds.BinView all (view_column false new)) }
{
    let new = views_of_rows(alloc, rows)?;
    Column::known(&new);
    Ok(new)
}

fn text_views_of_rows<R: ByteRows>(alloc: Global, rows: &R) -> Result<Utf8ViewArray, PolarsError>
    requires viewed { list_all is_of_view (R.rows rows.now) ≡ true }
    requires texts { are_well_formed_utf8 (given_rows (R.rows rows.now)) ≡ true }
    ensures { let all = R.rows rows.now in Overflows result (PassBuffers kinds.Utf8View all) (λ new. AreWritten kinds.Utf8View all (view_column true new)) }
{
    let bytes = views_of_rows(alloc, rows)?;
    bytes.known();
    let texts = bytes.to_utf8view_unchecked(alloc)?;
    Column::known(&texts);
    Ok(texts)
}

fn fixed<R: ByteRows>(
    alloc: Global,
    rows: &R,
    width: usize,
) -> Result<FixedSizeBinaryArray, PolarsError>
    requires positive { 0 < width }
    requires widths { list_all (is_of_width width) (R.rows rows.now) ≡ true }
    requires fits { length (R.rows rows.now) * width < 2 ^ 64 }
    ensures { let all = R.rows rows.now in Answers result None (λ new. AreWritten (kinds.Fixed width) all (fixed_column new)) }
{
    let new = fixed_of_rows(alloc, width, rows)?;
    Column::known(&new);
    Ok(new)
}

fn numbers<R: ByteRows>(alloc: Global, rows: &R) -> Result<Int64Array, PolarsError>
    requires { list_all (is_of_width 8) (R.rows rows.now) ≡ true }
    ensures { let all = R.rows rows.now in Answers result None (λ new. AreWritten kinds.Int64 all (number_column new)) }
{
    let new = numbers_of_rows(alloc, rows)?;
    Column::known(&new);
    Ok(new)
}
