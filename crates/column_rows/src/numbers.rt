//! Rows as signed numbers of 64 bits.

ghost use Rattle.std.specs.Prelude.{◌≡◌, ◌++◌, true, map, length, pos, None};
ghost use Rattle.std.specs.Int.{w64};
ghost use Rattle.std.specs.List.{list_all, concat};
ghost use Rattle.std.specs.Option.{option_copied};
ghost use Rattle.column_base.specs.Answers.{Answers};
ghost use Rattle.column_base.specs.Native.{signed_bytes};
ghost use Rattle.column_base.specs.declared.datatypes.ArrowDataType.TheVariants as types;
ghost use Rattle.column_fixed.specs.Slots.{fixed_slots};
ghost use Rattle.column_fixed.specs.Rows.{is_of_width, slot_of};
ghost use Rattle.column_primitive.specs.Numbers.{number_slots};
ghost use Rattle.column_primitive.specs.Rows.{slot_of as number_slot};

use crate::row_list::ByteRows;
use column_base::{ArrowDataType, PolarsError};
use column_fixed::{FixedSizeBinaryArray, no_fault_is_sound};
use column_primitive::{
    Int64Array, MutablePrimitiveArray, frozen_slots_are_same, push_adds_a_slot,
};
use column_storage::{Buffer, share_validity};
use std::alloc::Global;

/// A number of each row of 8 bytes, little-endian, in two's complement: valid, or null, with zero.
///
/// `NoMemory` where there is none for the slots.
pub fn numbers_of_rows<R: ByteRows>(alloc: Global, rows: &R) -> Result<Int64Array, PolarsError>
    requires { list_all (is_of_width 8) (R.rows rows.now) ≡ true }
    ensures { Answers result None (λ a. (a.dtype ≡ types.Int64) × (number_slots (signed_bytes w64) a.lists ≡ map (slot_of 8) (R.rows rows.now))) }
{
    let mut builder = MutablePrimitiveArray::with_capacity(alloc, rows.count())?;
    push_numbers(&mut builder, rows)?;
    let array = frozen(builder)?;
    Ok(array)
}

/// The slots of the array, and after them a number of each row.
///
/// `NoMemory` where there is none for the slots.
pub fn numbers_with_rows<R: ByteRows>(
    alloc: Global,
    array: Int64Array,
    rows: &R,
) -> Result<Int64Array, PolarsError>
    requires { list_all (is_of_width 8) (R.rows rows.now) ≡ true }
    ensures { Answers result None (λ a. (a.dtype ≡ array.dtype) × (number_slots (signed_bytes w64) a.lists ≡ number_slots (signed_bytes w64) array.lists ++ map (slot_of 8) (R.rows rows.now))) }
{
    let mut builder = array.into_mut(alloc)?;
    builder.reserve(rows.count())?;
    push_numbers(&mut builder, rows)?;
    let array = frozen(builder)?;
    Ok(array)
}

// The array of a builder's slots.
//
// `NoMemory` where there is none for the counts of owners.
fn frozen(builder: MutablePrimitiveArray<i64>) -> Result<Int64Array, PolarsError>
    ensures { Answers result None (λ a. (a.dtype ≡ builder.array.dtype) × (number_slots (signed_bytes w64) a.lists ≡ number_slots (signed_bytes w64) builder.array.lists)) }
{
    builder.known();
    frozen_slots_are_same::<i64>();
    let array = builder.freeze()?;
    Ok(array)
}

// Adds a number of each row.
//
// `NoMemory` where there is none for a slot.
fn push_numbers<R: ByteRows>(
    builder: &mut MutablePrimitiveArray<i64>,
    rows: &R,
) -> Result<(), PolarsError>
    requires { list_all (is_of_width 8) (R.rows rows.now) ≡ true }
    ensures { Answers result None (λ _. (builder.new.array.dtype ≡ builder.old.array.dtype) × (number_slots (signed_bytes w64) builder.new.array.lists ≡ number_slots (signed_bytes w64) builder.old.array.lists ++ map (slot_of 8) (R.rows rows.now))) }
{
    push_adds_a_slot::<i64>();
    for i in 0..rows.count() {
        builder.known();
        builder.push(number_of_row(rows.row(i)))?;
    }
    Ok(())
}

// The number of a row of 8 bytes, or None where it is missing.
fn number_of_row(row: Option<&[u8]>) -> Option<i64>
    requires { is_of_width 8 (option_copied row) ≡ true }
    ensures { number_slot (signed_bytes w64) (pos 0) result ≡ slot_of 8 (option_copied row.entry) }
{
    match row {
        Some(bytes) => Some(number_of(bytes)),
        None => None,
    }
}

// The number that 8 bytes are, little-endian, in two's complement.
fn number_of(bytes: &[u8]) -> i64
    requires { length bytes.now ≡ 8 }
    ensures { signed_bytes w64 result ≡ bytes.now }
{
    match bytes.as_array() {
        Some(array) => i64::from_le_bytes(*array),
        None => unreachable!(),
    }
}

/// The same slots as byte strings of 8 bytes: each number's, little-endian, in two's complement.
///
/// `NoMemory` where there is none for the bytes, or where the count of the validity's owners is full.
pub fn bytes_of_numbers(
    alloc: Global,
    array: &Int64Array,
) -> Result<FixedSizeBinaryArray, PolarsError>
    ensures { Answers result None (λ a. (a.width ≡ 8) × (fixed_slots a ≡ number_slots (signed_bytes w64) array.now.lists)) }
{
    array.known();
    let bytes = bytes_of_each(alloc, array.values().as_slice())?;
    let values = Buffer::from_vec(alloc, bytes)?;
    let validity = share_validity(alloc, array.validity())?;
    no_fault_is_sound();
    Ok(FixedSizeBinaryArray::new(ArrowDataType::FixedSizeBinary(8), values, validity))
}

// The bytes of each number, little-endian, in two's complement, end to end.
//
// `NoMemory` where there is none for them.
fn bytes_of_each(alloc: Global, numbers: &[i64]) -> Result<Vec<u8>, PolarsError>
    ensures { Answers result None (λ bytes. bytes.items ≡ concat (map (signed_bytes w64) numbers.now)) }
{
    let Some(size) = numbers.len().checked_mul(8) else {
        return Err(PolarsError::NoMemory);
    };
    let mut bytes = Vec::with_capacity(alloc, size)?;
    for number in numbers {
        bytes.extend_from_slice(&number.to_le_bytes())?;
    }
    Ok(bytes)
}
