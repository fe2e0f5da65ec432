//! Parts into columns.

ghost use Rattle.std.specs.Prelude.{◌≡◌};
ghost use Rattle.column_base.specs.Answers.{GivesCause};
ghost use Rattle.column_base.specs.declared.datatypes.ArrowDataType.TheVariants as types;
ghost use Rattle.column_base.specs.declared.datatypes.PrimitiveType.TheVariants as primitives;
ghost use Rattle.column_fixed.specs.Slots.{fixed_lists, fixed_fault};
ghost use Rattle.column_primitive.specs.Numbers.{number_lists, number_array, number_array_fault};
ghost use Rattle.column_relayout.specs.Columns.{parts_fault, IsWellFormed};
ghost use Rattle.column_relayout.specs.Arrays.{lists_of, lists_of_parts};

use crate::columns::{AnyArray, RawColumn};
use column_base::{ArrowDataType, Cause, PolarsError};
use column_binary::BinaryArray;
use column_binview::{BinaryViewArray, Utf8ViewArray};
use column_fixed::FixedSizeBinaryArray;
use column_primitive::Int64Array;
use column_storage::{Bitmap, Buffer};
use column_utf8::Utf8Array;

/// The column of these parts, which are consumed. Takes no memory.
///
/// The first fault that stands, in this order: `OffsetsEmpty`, `OffsetsNegative`, `OffsetsNotMonotone`,
/// `OffsetsExceedValues`, of texts `InvalidUtf8` and `CharBoundary`, `ValidityLength`. Of views the fault of the first
/// that has one, and then `ValidityLength`: of a view that is not long `NonZeroPadding`, of a long one `ViewIndex`,
/// `BufferSlice` and `PrefixMismatch`, and of texts then `InvalidUtf8`. Of byte strings of one width `SizeZero` where
/// it is 0, `NotMultiple` where it does not divide the number of value bytes, and `ValidityLength`, of numbers
/// `ValidityLength`.
pub fn assemble(parts: RawColumn) -> Result<AnyArray, Cause>
    ensures answer { let lists = lists_of_parts parts in GivesCause result (parts_fault lists) (λ column. (lists_of column ≡ lists) × IsWellFormed lists) }
{
    let column = match parts {
        RawColumn::Offset32 {
            text: false,
            offsets,
            values,
            validity,
        } => AnyArray::Binary32(BinaryArray::try_from_parts(offsets, values, validity)?),
        RawColumn::Offset32 {
            text: true,
            offsets,
            values,
            validity,
        } => AnyArray::Utf8_32(Utf8Array::try_from_parts(offsets, values, validity)?),
        RawColumn::Offset64 {
            text: false,
            offsets,
            values,
            validity,
        } => AnyArray::Binary64(BinaryArray::try_from_parts(offsets, values, validity)?),
        RawColumn::Offset64 {
            text: true,
            offsets,
            values,
            validity,
        } => AnyArray::Utf8_64(Utf8Array::try_from_parts(offsets, values, validity)?),
        RawColumn::View {
            text: false,
            views,
            buffers,
            validity,
        } => AnyArray::BinView(BinaryViewArray::try_from_parts(views, buffers, validity)?),
        RawColumn::View {
            text: true,
            views,
            buffers,
            validity,
        } => AnyArray::Utf8View(Utf8ViewArray::try_from_parts(views, buffers, validity)?),
        RawColumn::Fixed {
            width,
            values,
            validity,
        } => AnyArray::Fixed(fixed(width, values, validity)?),
        RawColumn::Int64 { numbers, validity } => AnyArray::Int64(int64(numbers, validity)?),
    };
    column.known();
    Ok(column)
}

/// The column of byte strings of this width.
///
/// The first that stands of `SizeZero`, `NotMultiple` and `ValidityLength`.
fn fixed(
    width: usize,
    values: Buffer<u8>,
    validity: Option<Bitmap>,
) -> Result<FixedSizeBinaryArray, Cause>
    ensures { let lists = fixed_lists width values validity in GivesCause result (fixed_fault lists) (λ array. array ≡ lists) }
{
    let dtype = ArrowDataType::FixedSizeBinary(width);
    match FixedSizeBinaryArray::try_new(dtype, values, validity) {
        Ok(array) => Ok(array),
        Err(PolarsError::ComputeError(cause) | PolarsError::OutOfBounds(cause)) => Err(cause),
        Err(PolarsError::NoMemory) => unreachable!(),
    }
}

/// The column of these numbers, which mean what plain ones of their type do.
///
/// `ValidityLength` where a validity is given whose length is not the number of slots.
fn int64(numbers: Buffer<i64>, validity: Option<Bitmap>) -> Result<Int64Array, Cause>
    ensures { let array = number_array types.Int64 (number_lists numbers validity) in GivesCause result (number_array_fault primitives.Int64 array) (λ a. a ≡ array) }
{
    match Int64Array::try_new(ArrowDataType::Int64, numbers, validity) {
        Ok(array) => Ok(array),
        Err(PolarsError::ComputeError(cause) | PolarsError::OutOfBounds(cause)) => Err(cause),
        Err(PolarsError::NoMemory) => unreachable!(),
    }
}
