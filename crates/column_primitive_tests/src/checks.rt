//! What the calls answer: one truth value for each group of calls.

ghost use Rattle.std.specs.Prelude.{◌≡◌, ◌+◌, ◌≤◌, length};
ghost use Rattle.column_primitive.specs.Numbers.{number_count};

use crate::cases::{ROWS, array, array_is, builder_is, dates, four, grown};
use column_base::{
    ArrowDataType, ExtendError, NativeType, PolarsError, PrimitiveType, TryExtend,
    TryExtendFromSelf, TryPush,
};
use column_checks::{Flags, Half, bitmap, ends_are, flags_are, gives, gives_back, half_of};
use column_primitive::{
    Int8Array, Int16Array, Int32Array, Int32Vec, Int64Array, MutablePrimitiveArray,
    NumberOperation, PrimitiveArray, UInt8Array, UInt16Array, UInt32Array, UInt64Array,
    check_number_type,
};
use column_storage::{Bitmap, Buffer, MutableArray, MutableBitmap, check_flags, check_validity};
use std::alloc::Global;

// ---- parts

/// Why the array of two numbers is refused, and why its builder is, where they are.
pub fn refusals(
    alloc: Global,
    dtype: ArrowDataType,
    flags: Flags<'_>,
) -> Result<bool, PolarsError> {
    let of_array = array(alloc, dtype, &[1, 2], flags).err();
    let bits = match flags {
        Some(bits) => Some(grown(alloc, bits)?),
        None => None,
    };
    let values = Vec::from_slice(alloc, &[1, 2])?;
    let of_builder = Int32Vec::try_new(dtype, values, bits).err();
    Ok(of_array == of_builder)
}

pub fn refusal(alloc: Global, dtype: ArrowDataType, flags: Flags<'_>) -> Option<PolarsError> {
    array(alloc, dtype, &[1, 2], flags).err()
}

// ---- the array

pub fn four_is_read(four: &Int32Array) -> bool {
    four.len() == 4
        && four.null_count() == 1
        && four.is_valid(0)
        && four.is_null(1)
        && four.value(1) == -2
        && four.value_unchecked(3) == 9
        && four.get(0) == Some(7)
        && four.get(1).is_none()
}

pub fn four_is_gone_over(four: &Int32Array) -> bool {
    gives(four.iter(), &[Some(7), None, Some(0), Some(9)])
        && gives_back(four.iter(), &[Some(9), Some(0), None, Some(7)])
        && gives(four.values_iter(), &[7, -2, 0, 9])
        && gives(four.non_null_values_iter(), &[7, 0, 9])
}

pub fn four_ends_are(four: &Int32Array) -> bool {
    ends_are(four.iter(), [Some(7), None, Some(0), Some(9)])
        && ends_are(four.values_iter(), [7, -2, 0, 9])
}

pub fn four_is_consumed(four: Int32Array) -> bool {
    let mut rows = four.into_iter();
    rows.len() == 4
        && rows.next() == Some(Some(7))
        && rows.next_back() == Some(Some(9))
        && rows.next() == Some(None)
        && rows.next_back() == Some(Some(0))
        && rows.next().is_none()
        && rows.next_back().is_none()
        && rows.next().is_none()
}

pub fn middle_is(four: Int32Array) -> bool {
    let flags: Flags<'_> = Some(&[false, true]);
    four.len() == 4 && array_is(&four.sliced(1, 2), ArrowDataType::Date32, &[-2, 0], flags)
}

pub fn valid_end_is(four: Int32Array) -> bool {
    let mut part = four;
    if part.len() != 4 {
        return false;
    }
    part.slice(2, 2);
    array_is(&part, ArrowDataType::Date32, &[0, 9], None)
}

pub fn half_is(
    alloc: Global,
    half: Half,
    numbers: &[i32],
    flags: Flags<'_>,
) -> Result<bool, PolarsError> {
    let whole = four(alloc)?;
    if whole.len() != 4 {
        return Ok(false);
    }
    let part = half_of(alloc, &whole, half, 2)?;
    Ok(array_is(&part, ArrowDataType::Date32, numbers, flags))
}

pub fn share_is(alloc: Global) -> Result<bool, PolarsError> {
    let share = four(alloc)?.try_clone(alloc)?;
    Ok(four_is_read(&share))
}

pub fn filled_is(alloc: Global, four: Int32Array) -> Result<bool, PolarsError> {
    let filled = four.fill_with(alloc, 5)?;
    let flags: Flags<'_> = Some(&[true, false, true, true]);
    Ok(array_is(&filled, ArrowDataType::Date32, &[5, 5, 5, 5], flags))
}

pub fn empty_is(alloc: Global) -> Result<bool, PolarsError> {
    let empty = Int32Array::new_empty(alloc, ArrowDataType::Date32)?;
    Ok(array_is(&empty, ArrowDataType::Date32, &[], None))
}

pub fn nulls_are(alloc: Global) -> Result<bool, PolarsError> {
    let nulls = Int32Array::new_null(alloc, ArrowDataType::Date32, 2)?;
    let flags: Flags<'_> = Some(&[false, false]);
    Ok(array_is(&nulls, ArrowDataType::Date32, &[0, 0], flags))
}

// ---- rows that arrays are made of

/// Whether an array is that of the three rows.
fn three_rows(array: &Int32Array) -> bool {
    let flags: Flags<'_> = Some(&[true, false, true]);
    array_is(array, ArrowDataType::Int32, &[1, 0, 10], flags)
}

pub fn array_of_slice_of_rows_is(alloc: Global) -> Result<bool, PolarsError> {
    Ok(three_rows(&PrimitiveArray::from(alloc, &ROWS)?))
}

pub fn array_of_rows_is(alloc: Global) -> Result<bool, PolarsError> {
    Ok(three_rows(&PrimitiveArray::from_iter(alloc, ROWS)?))
}

pub fn array_of_trusted_rows_is(alloc: Global) -> Result<bool, PolarsError> {
    let array = PrimitiveArray::from_trusted_len_iter_unchecked(alloc, ROWS.into_iter())?;
    Ok(three_rows(&array))
}

pub fn array_of_values_is(alloc: Global) -> Result<bool, PolarsError> {
    let array = Int32Array::from_values(alloc, [1, 2, 3])?;
    Ok(array_is(&array, ArrowDataType::Int32, &[1, 2, 3], None))
}

pub fn array_of_vec_is(alloc: Global) -> Result<bool, PolarsError> {
    let values = Vec::from_slice(alloc, &[1, 2, 3])?;
    let array = Int32Array::from_vec(alloc, values)?;
    Ok(array_is(&array, ArrowDataType::Int32, &[1, 2, 3], None))
}

pub fn array_of_slice_is(alloc: Global) -> Result<bool, PolarsError> {
    let array = Int32Array::from_slice(alloc, &[1, 2, 3])?;
    Ok(array_is(&array, ArrowDataType::Int32, &[1, 2, 3], None))
}

// ---- the builder

pub fn pushes_leave(alloc: Global) -> Result<bool, PolarsError> {
    let mut builder = Int32Vec::with_capacity(alloc, 3)?;
    builder.push_value(4)?;
    builder.push(None)?;
    builder.push(Some(6))?;
    let flags: Flags<'_> = Some(&[true, false, true]);
    Ok(builder_is(&builder, ArrowDataType::Int32, &[4, 0, 6], flags))
}

/// The numbers 1 and 2, the second made null, and taken one by one.
pub fn pops_give(alloc: Global) -> Result<bool, PolarsError> {
    let mut builder = Int32Vec::from_slice(alloc, &[1, 2])?;
    builder.set(1, None)?;
    let flags: Flags<'_> = Some(&[true, false]);
    Ok(
        builder_is(&builder, ArrowDataType::Int32, &[1, 0], flags)
            && builder.pop().is_none()
            && builder.pop() == Some(1)
            && builder.pop().is_none()
            && builder.is_empty(),
    )
}

pub fn constants_leave(alloc: Global) -> Result<bool, PolarsError> {
    let mut builder = dates(alloc, &[1])?;
    builder.extend_constant(0, None)?;
    builder.extend_constant(2, Some(7))?;
    let all_valid = builder_is(&builder, ArrowDataType::Date32, &[1, 7, 7], None);
    builder.extend_constant(1, None)?;
    let flags: Flags<'_> = Some(&[true, true, true, false]);
    Ok(all_valid && builder_is(&builder, ArrowDataType::Date32, &[1, 7, 7, 0], flags))
}

pub fn both_are(alloc: Global) -> Result<bool, PolarsError> {
    let mut builder = dates(alloc, &[5])?;
    builder.try_extend_from_self(&Int32Vec::from(alloc, &ROWS)?)?;
    builder.extend_from_slice(&[8, 9])?;
    let flags: Flags<'_> = Some(&[true, true, false, true, true, true]);
    Ok(builder_is(&builder, ArrowDataType::Date32, &[5, 1, 0, 10, 8, 9], flags))
}

pub fn rows_are_added(alloc: Global) -> Result<bool, PolarsError> {
    let mut builder = Int32Vec::new(alloc);
    builder.extend(ROWS)?;
    builder.extend_values([3])?;
    builder.extend_trusted_len_unchecked([None, Some(4)].into_iter())?;
    let flags: Flags<'_> = Some(&[true, false, true, true, false, true]);
    Ok(builder_is(&builder, ArrowDataType::Int32, &[1, 0, 10, 3, 0, 4], flags))
}

pub fn numbers_are_changed(alloc: Global) -> Result<bool, PolarsError> {
    let mut builder = dates(alloc, &[1, 2])?;
    builder.apply_values(|numbers: &mut [i32]| {
        for number in numbers.iter_mut() {
            *number = 6;
        }
    });
    let changed = builder_is(&builder, ArrowDataType::Date32, &[6, 6], None);
    for number in builder.values_mut_slice().iter_mut() {
        *number = 4;
    }
    Ok(changed && builder_is(&builder, ArrowDataType::Date32, &[4, 4], None))
}

pub fn cleared_is(alloc: Global) -> Result<bool, PolarsError> {
    let mut builder = Int32Vec::from(alloc, &ROWS)?.to(ArrowDataType::Date32);
    builder.clear();
    Ok(builder_is(&builder, ArrowDataType::Date32, &[], None))
}

/// The slots as before, although the closure keeps a share of them.
pub fn frozen_for_a_while_is(alloc: Global) -> Result<bool, PolarsError> {
    let mut builder = Int32Vec::from(alloc, &ROWS)?.to(ArrowDataType::Date32);
    let kept = builder.with_freeze(|array: &Int32Array| array.try_clone(alloc))??;
    builder.push_value(2)?;
    let flags: Flags<'_> = Some(&[true, false, true]);
    let more: Flags<'_> = Some(&[true, false, true, true]);
    Ok(
        array_is(&kept, ArrowDataType::Date32, &[1, 0, 10], flags)
            && builder_is(&builder, ArrowDataType::Date32, &[1, 0, 10, 2], more),
    )
}

pub fn frozen_without_nulls_is(alloc: Global) -> Result<bool, PolarsError> {
    let mut builder = dates(alloc, &[1, 2])?;
    if builder.is_empty() {
        return Ok(false);
    }
    builder.set(0, None)?;
    builder.set(0, Some(3))?;
    let array = builder.freeze()?;
    Ok(array_is(&array, ArrowDataType::Date32, &[3, 2], None))
}

pub fn mutable_is(alloc: Global, four: Int32Array) -> Result<bool, PolarsError> {
    let builder = four.into_mut(alloc)?;
    let flags: Flags<'_> = Some(&[true, false, true, true]);
    Ok(builder_is(&builder, ArrowDataType::Date32, &[7, -2, 0, 9], flags))
}

pub fn equal_by_rows(alloc: Global) -> Result<bool, PolarsError> {
    let rows = Int32Vec::from(alloc, &ROWS)?;
    let mut same = dates(alloc, &[1, 2, 10])?;
    if same.len() != 3 {
        return Ok(false);
    }
    let differs = rows != same;
    same.set(1, None)?;
    Ok(differs && rows == same)
}

// ---- each type of numbers, through its bound

/// Whether numbers come out of an array as they went in.
pub fn numbers_stay<T: NativeType>(alloc: Global, numbers: &[T]) -> Result<bool, PolarsError> {
    let array = PrimitiveArray::from_slice(alloc, numbers)?;
    let builder = array.into_mut(alloc)?;
    Ok(builder_is(&builder, T::PRIMITIVE.dtype(), numbers, None))
}

/// Whether plain numbers of a type have this data type.
pub fn is_default<T: NativeType>(dtype: ArrowDataType) -> bool {
    PrimitiveArray::<T>::default_dtype() == dtype
        && MutablePrimitiveArray::<T>::default_dtype() == dtype
}

// whether a data type is laid out as numbers of a type exactly where these are wanted
fn agrees(dtype: ArrowDataType, primitive: PrimitiveType, wanted: Option<PrimitiveType>) -> bool {
    check_number_type(dtype, primitive).is_ok() == (wanted == Some(primitive))
}

/// Whether a data type is laid out as numbers of this type, and of no other.
pub fn is_laid_out_as(dtype: ArrowDataType, wanted: Option<PrimitiveType>) -> bool {
    agrees(dtype, PrimitiveType::Int8, wanted)
        && agrees(dtype, PrimitiveType::Int16, wanted)
        && agrees(dtype, PrimitiveType::Int32, wanted)
        && agrees(dtype, PrimitiveType::Int64, wanted)
        && agrees(dtype, PrimitiveType::Int128, wanted)
        && agrees(dtype, PrimitiveType::UInt8, wanted)
        && agrees(dtype, PrimitiveType::UInt16, wanted)
        && agrees(dtype, PrimitiveType::UInt32, wanted)
        && agrees(dtype, PrimitiveType::UInt64, wanted)
        && agrees(dtype, PrimitiveType::DaysMs, wanted)
        && agrees(dtype, PrimitiveType::MonthDayNano, wanted)
}

// ---- the same bytes, signed and unsigned

pub fn bytes_stay_8(alloc: Global) -> Result<bool, PolarsError> {
    let array = Int8Array::from(alloc, &[Some(-1), None, Some(i8::MIN), Some(5)])?;
    let flags: Flags<'_> = Some(&[true, false, true, true]);
    let array = array.to_unsigned(alloc)?;
    Ok(array_is(&array, ArrowDataType::UInt8, &[255, 0, 128, 5], flags))
}

pub fn bytes_are_signed_8(alloc: Global) -> Result<bool, PolarsError> {
    let array = UInt8Array::from(alloc, &[Some(255), None, Some(128), Some(5)])?;
    let flags: Flags<'_> = Some(&[true, false, true, true]);
    let array = array.to_signed(alloc)?;
    Ok(array_is(&array, ArrowDataType::Int8, &[-1, 0, i8::MIN, 5], flags))
}

pub fn bytes_stay_16(alloc: Global) -> Result<bool, PolarsError> {
    let array = Int16Array::from_slice(alloc, &[-2, i16::MIN])?;
    let array = array.to_unsigned(alloc)?;
    Ok(array_is(&array, ArrowDataType::UInt16, &[65534, 32768], None))
}

pub fn bytes_are_signed_16(alloc: Global) -> Result<bool, PolarsError> {
    let array = UInt16Array::from_slice(alloc, &[65534, 32768])?;
    let array = array.to_signed(alloc)?;
    Ok(array_is(&array, ArrowDataType::Int16, &[-2, i16::MIN], None))
}

/// The data type is that of plain numbers, whatever it was.
pub fn bytes_stay_32(alloc: Global) -> Result<bool, PolarsError> {
    let array = array(alloc, ArrowDataType::Date32, &[-2, i32::MAX], None)?;
    let array = array.to_unsigned(alloc)?;
    Ok(array_is(
        &array,
        ArrowDataType::UInt32,
        &[4294967294, 2147483647],
        None,
    ))
}

pub fn bytes_are_signed_32(alloc: Global) -> Result<bool, PolarsError> {
    let array = UInt32Array::from_slice(alloc, &[4294967294, 2147483647])?;
    let array = array.to_signed(alloc)?;
    Ok(array_is(&array, ArrowDataType::Int32, &[-2, i32::MAX], None))
}

pub fn bytes_stay_64(alloc: Global) -> Result<bool, PolarsError> {
    let array = Int64Array::from_slice(alloc, &[-1, 0])?;
    let array = array.to_unsigned(alloc)?;
    Ok(array_is(
        &array,
        ArrowDataType::UInt64,
        &[18446744073709551615, 0],
        None,
    ))
}

pub fn bytes_are_signed_64(alloc: Global) -> Result<bool, PolarsError> {
    let array = UInt64Array::from_slice(alloc, &[18446744073709551615, 0])?;
    let array = array.to_signed(alloc)?;
    Ok(array_is(&array, ArrowDataType::Int64, &[-1, 0], None))
}

// ---- other flags, other numbers, and parts, of an array

const FOUR: [i32; 4] = [7, -2, 0, 9];

const FLAGS: Flags<'static> = Some(&[true, false, true, true]);

fn is_four(array: &Int32Array, flags: Flags<'_>) -> bool {
    array_is(array, ArrowDataType::Date32, &FOUR, flags)
}

// an array of the parts that it hands back
fn is_again(array: Int32Array) -> bool {
    let (dtype, values, bits) = array.into_inner();
    is_four(&PrimitiveArray::new_unchecked(dtype, values, bits), FLAGS)
}

fn is_inner_again(array: Int32Array) -> bool {
    let (dtype, values, bits) = array.into_inner();
    is_four(
        &PrimitiveArray::from_inner_unchecked(dtype, values, bits),
        FLAGS,
    )
}

fn is_new_again(array: Int32Array) -> bool {
    let (dtype, values, bits) = array.into_inner();
    match PrimitiveArray::from_inner(dtype, values, bits) {
        Ok(array) => is_four(&array, FLAGS),
        Err(_) => false,
    }
}

/// Dates without a null, by the call that asks for parts without a fault.
pub fn new_is(alloc: Global) -> Result<bool, PolarsError> {
    let values = Buffer::from_vec(alloc, Vec::from_slice(alloc, &FOUR)?)?;
    let array = PrimitiveArray::new(ArrowDataType::Date32, values, None);
    Ok(is_four(&array, None))
}

pub fn four_are_again(alloc: Global) -> Result<bool, PolarsError> {
    Ok(is_again(four(alloc)?) && is_inner_again(four(alloc)?) && is_new_again(four(alloc)?))
}

fn with_is(array: Int32Array, bits: Option<Bitmap>, flags: Flags<'_>) -> bool {
    match check_validity(bits.as_ref(), array.len()) {
        Ok(()) => is_four(&array.with_validity(bits), flags),
        Err(_) => false,
    }
}

fn set_is(array: Int32Array, bits: Option<Bitmap>, flags: Flags<'_>) -> bool {
    let mut array = array;
    match check_validity(bits.as_ref(), array.len()) {
        Ok(()) => array.set_validity(bits),
        Err(_) => return false,
    }
    is_four(&array, flags)
}

/// Other flags stand beside the same numbers.
pub fn flags_are_other(alloc: Global, flags: Flags<'_>, set: bool) -> Result<bool, PolarsError> {
    let bits = bitmap(alloc, flags)?;
    let array = four(alloc)?;
    Ok(if set {
        set_is(array, bits, flags)
    } else {
        with_is(array, bits, flags)
    })
}

pub fn taken_is(alloc: Global) -> Result<bool, PolarsError> {
    let mut array = four(alloc)?;
    let taken = array.take_validity();
    Ok(flags_are(taken.as_ref(), FLAGS) && array.take_validity().is_none() && is_four(&array, None))
}

// the flags themselves
fn same_flags(bits: Bitmap) -> Bitmap
    ensures { result ≡ bits }
{
    bits
}

pub fn applied_is(alloc: Global) -> Result<bool, PolarsError> {
    let mut array = four(alloc)?;
    array.apply_validity(same_flags);
    let same = is_four(&array, FLAGS);
    let _ = array.take_validity();
    array.apply_validity(same_flags);
    Ok(same && is_four(&array, None))
}

const OTHERS: [i32; 4] = [1, 2, 3, 4];

/// Other numbers stand beside the same flags.
pub fn numbers_are_other(alloc: Global, set: bool) -> Result<bool, PolarsError> {
    let others = Buffer::from_vec(alloc, Vec::from_slice(alloc, &OTHERS)?)?;
    let mut array = four(alloc)?;
    if others.len() != array.len() {
        return Ok(false);
    }
    if set {
        array.set_values(others);
    } else {
        array = array.with_values(others);
    }
    Ok(array_is(&array, ArrowDataType::Date32, &OTHERS, FLAGS))
}

pub fn meaning_is_other(alloc: Global) -> Result<bool, PolarsError> {
    let array = four(alloc)?.to(ArrowDataType::Int32);
    Ok(array_is(&array, ArrowDataType::Int32, &FOUR, FLAGS))
}

pub fn unchecked_parts_are(alloc: Global) -> Result<bool, PolarsError> {
    let mut part = four(alloc)?;
    if part.len() != 4 {
        return Ok(false);
    }
    part.slice_unchecked(1, 3);
    let two: Flags<'_> = Some(&[false, true]);
    if part.len() != 3 {
        return Ok(false);
    }
    Ok(array_is(
        &part.sliced_unchecked(0, 2),
        ArrowDataType::Date32,
        &[-2, 0],
        two,
    ))
}

// ---- rows of an iterator

/// A call that makes a builder or an array of rows, or adds rows to a builder.
#[derive(Clone, Copy, Debug)]
pub enum Rows {
    Iter,
    TryExtend,
    Trusted,
    TrustedUnchecked,
}

fn builder_of_rows(alloc: Global, call: Rows) -> Result<Int32Vec, PolarsError> {
    let rows = ROWS.iter().copied();
    match call {
        Rows::Iter | Rows::TryExtend => MutablePrimitiveArray::from_iter(alloc, rows),
        Rows::Trusted => MutablePrimitiveArray::from_trusted_len_iter(alloc, rows),
        Rows::TrustedUnchecked => {
            MutablePrimitiveArray::from_trusted_len_iter_unchecked(alloc, rows)
        }
    }
}

/// Whether a builder is that of the three rows.
fn built_three(builder: &Int32Vec) -> bool {
    let flags: Flags<'_> = Some(&[true, false, true]);
    builder_is(builder, ArrowDataType::Int32, &[1, 0, 10], flags)
}

pub fn builder_of_rows_is(alloc: Global, call: Rows) -> Result<bool, PolarsError> {
    Ok(built_three(&builder_of_rows(alloc, call)?))
}

fn extended(builder: &mut Int32Vec, call: Rows) -> Result<(), PolarsError> {
    let rows = ROWS.iter().copied();
    match call {
        Rows::Iter => builder.extend(rows),
        Rows::TryExtend => builder.try_extend(rows),
        Rows::Trusted => builder.extend_trusted_len(rows),
        Rows::TrustedUnchecked => builder.extend_trusted_len_unchecked(rows),
    }
}

pub fn builder_takes_rows(alloc: Global, call: Rows) -> Result<bool, PolarsError> {
    let mut builder = Int32Vec::new(alloc);
    extended(&mut builder, call)?;
    Ok(built_three(&builder))
}

pub fn array_of_trusted_is(alloc: Global) -> Result<bool, PolarsError> {
    let rows = ROWS.iter().copied();
    Ok(three_rows(&PrimitiveArray::from_trusted_len_iter(alloc, rows)?))
}

/// A call over numbers.
#[derive(Clone, Copy, Debug)]
pub enum Numbers {
    Trusted,
    TrustedUnchecked,
}

pub fn builder_of_numbers_is(alloc: Global, call: Numbers) -> Result<bool, PolarsError> {
    let numbers = [1, 2, 3].into_iter();
    let mut builder = match call {
        Numbers::Trusted => Int32Vec::from_trusted_len_values_iter(alloc, numbers)?,
        Numbers::TrustedUnchecked => {
            Int32Vec::from_trusted_len_values_iter_unchecked(alloc, numbers)?
        }
    };
    builder.extend_trusted_len_values([4].into_iter())?;
    Ok(builder_is(&builder, ArrowDataType::Int32, &[1, 2, 3, 4], None))
}

pub fn array_of_numbers_is(alloc: Global, call: Numbers) -> Result<bool, PolarsError> {
    let numbers = [1, 2, 3].into_iter();
    let array = match call {
        Numbers::Trusted => Int32Array::from_trusted_len_values_iter(alloc, numbers)?,
        Numbers::TrustedUnchecked => {
            Int32Array::from_trusted_len_values_iter_unchecked(alloc, numbers)?
        }
    };
    Ok(array_is(&array, ArrowDataType::Int32, &[1, 2, 3], None))
}

/// The rows up to the one at which an error stands, none where it stands at 3.
fn fallible(at: usize) -> [Result<Option<i32>, u8>; 3] {
    let [first, second, third] = ROWS;
    [
        if at == 0 { Err(9) } else { Ok(first) },
        if at == 1 { Err(9) } else { Ok(second) },
        if at == 2 { Err(9) } else { Ok(third) },
    ]
}

pub fn builder_of_fallible_is(alloc: Global, at: usize, unchecked: bool) -> bool {
    let items = fallible(at);
    let items = items.iter().copied();
    let result = if unchecked {
        Int32Vec::try_from_trusted_len_iter_unchecked(alloc, items)
    } else {
        Int32Vec::try_from_trusted_len_iter(alloc, items)
    };
    match result {
        Ok(builder) => at == 3 && built_three(&builder),
        Err(ExtendError::Item(error)) => at < 3 && error == 9,
        Err(ExtendError::Polars(_)) => false,
    }
}

// ---- what a builder reads, its room, its flags

pub fn rows_are_read(builder: &Int32Vec) -> bool {
    builder.len() == 3
        && builder.is_valid(0)
        && !builder.is_valid(1)
        && builder.value(1) == 0
        && builder.get(1).is_none()
        && builder.get(2) == Some(10)
}

pub fn rows_are_given(builder: &Int32Vec) -> bool {
    gives(builder.iter(), &ROWS)
        && gives_back(builder.iter(), &[Some(10), None, Some(1)])
        && gives(builder.values_iter(), &[1, 0, 10])
}

pub fn three(alloc: Global) -> Result<Int32Vec, PolarsError> {
    Int32Vec::from(alloc, &ROWS)
}

// a builder of the parts that it hands back
fn is_built_again(builder: Int32Vec) -> bool {
    let (dtype, values, bits) = builder.into_inner();
    match Int32Vec::try_new(dtype, values, bits) {
        Ok(builder) => built_three(&builder),
        Err(_) => false,
    }
}

pub fn three_are_built_again(alloc: Global) -> Result<bool, PolarsError> {
    Ok(is_built_again(three(alloc)?) && built_three(&three(alloc)?.try_clone()?))
}

pub fn room_is_made(alloc: Global) -> Result<bool, PolarsError> {
    let mut builder = three(alloc)?;
    builder.reserve(40)?;
    let room = builder.capacity() >= 43;
    builder.shrink_to_fit();
    Ok(room && built_three(&builder))
}

/// Builders of dates without slots, with room and without.
pub fn empty_builders_are(alloc: Global) -> Result<bool, PolarsError> {
    let builder = Int32Vec::with_capacity_from(alloc, 5, ArrowDataType::Date32)?;
    let room = builder.capacity() >= 5;
    Ok(room && builder_is(&builder, ArrowDataType::Date32, &[], None) && empty_builder_is(alloc))
}

fn empty_builder_is(alloc: Global) -> bool {
    let builder = Int32Vec::from_dtype(alloc, ArrowDataType::Date32);
    builder_is(&builder, ArrowDataType::Date32, &[], None)
}

pub fn set_is_unchecked(alloc: Global) -> Result<bool, PolarsError> {
    let mut builder = three(alloc)?;
    if builder.len() != 3 {
        return Ok(false);
    }
    builder.set_unchecked(1, Some(4))?;
    let flags: Flags<'_> = Some(&[true, true, true]);
    Ok(builder_is(&builder, ArrowDataType::Int32, &[1, 4, 10], flags))
}

pub fn builder_takes_numbers(alloc: Global) -> Result<bool, PolarsError> {
    let mut builder = three(alloc)?;
    let others = Vec::from_slice(alloc, &[5, 6, 7])?;
    if others.len() != builder.len() {
        return Ok(false);
    }
    builder.set_values(others);
    let flags: Flags<'_> = Some(&[true, false, true]);
    Ok(builder_is(&builder, ArrowDataType::Int32, &[5, 6, 7], flags))
}

/// Other flags stand beside the same numbers of a builder.
pub fn builder_takes_flags(alloc: Global, bits: &[bool]) -> Result<bool, PolarsError> {
    let builder = dates(alloc, &[1, 2])?;
    let flags = Some(grown(alloc, bits)?);
    match check_flags(flags.as_ref(), builder.len()) {
        Ok(()) => Ok(builder_is(
            &builder.with_validity(flags),
            ArrowDataType::Date32,
            &[1, 2],
            Some(bits),
        )),
        Err(_) => Ok(false),
    }
}

// the flags of two slots, turned round
fn turned(mut bits: MutableBitmap) -> MutableBitmap
    ensures { length result.bits ≡ length bits.bits }
{
    if bits.len() == 2 {
        let first = bits.get(0);
        bits.set(0, bits.get(1));
        bits.set(1, first);
    }
    bits
}

/// Flags are turned round where there are some.
pub fn flags_are_turned(alloc: Global) -> Result<bool, PolarsError> {
    let mut builder = dates(alloc, &[1, 2])?;
    builder.apply_validity(turned);
    let none = builder_is(&builder, ArrowDataType::Date32, &[1, 2], None);
    builder.push(None)?;
    let _ = builder.pop();
    builder.apply_validity(turned);
    let flags: Flags<'_> = Some(&[true, true]);
    Ok(none && builder_is(&builder, ArrowDataType::Date32, &[1, 2], flags))
}

pub fn flags_of_a_null_are_turned(alloc: Global) -> Result<bool, PolarsError> {
    let mut builder = Int32Vec::from(alloc, &[Some(3), None])?;
    builder.apply_validity(turned);
    let flags: Flags<'_> = Some(&[false, true]);
    Ok(builder_is(&builder, ArrowDataType::Int32, &[3, 0], flags))
}

// ---- through the bounds of every builder

fn is_asked<B: MutableArray>(builder: &mut B) -> Result<bool, PolarsError> {
    builder.push_null()?;
    builder.reserve_slots(3)?;
    builder.shrink_to_fit();
    Ok(
        builder.dtype() == ArrowDataType::Int32
            && builder.len() == 1
            && !builder.is_empty()
            && builder.validity().is_some(),
    )
}

pub fn builder_is_asked(alloc: Global) -> Result<bool, PolarsError> {
    let mut builder = Int32Vec::new(alloc);
    let is = is_asked(&mut builder)?;
    Ok(is && builder_is(&builder, ArrowDataType::Int32, &[0], Some(&[false])))
}

fn takes<B: TryExtend<Option<i32>>>(builder: &mut B) -> Result<(), PolarsError> {
    builder.try_push(Some(1))?;
    builder.try_extend([None, Some(10)])
}

pub fn rows_are_taken(alloc: Global) -> Result<bool, PolarsError> {
    let mut builder = Int32Vec::new(alloc);
    takes(&mut builder)?;
    Ok(built_three(&builder))
}

fn takes_numbers<B: TryExtend<i32>>(builder: &mut B) -> Result<(), PolarsError> {
    builder.try_push(1)?;
    builder.try_extend([2, 3])
}

pub fn numbers_are_taken(alloc: Global) -> Result<bool, PolarsError> {
    let mut builder = Int32Vec::new(alloc);
    takes_numbers(&mut builder)?;
    Ok(builder_is(&builder, ArrowDataType::Int32, &[1, 2, 3], None))
}

/// The slots of two builders, through the trait.
pub fn slots_are_joined(alloc: Global) -> Result<bool, PolarsError> {
    let mut builder = dates(alloc, &[5])?;
    TryExtendFromSelf::try_extend_from_self(&mut builder, &Int32Vec::from_slice(alloc, &[6])?)?;
    Ok(builder_is(&builder, ArrowDataType::Date32, &[5, 6], None))
}

// ---- the law of builders

/// A pop on nothing, a null that is taken again, and what stands after it.
pub fn replayed_is(alloc: Global) -> Result<bool, PolarsError> {
    let operations = [
        NumberOperation::Pop,
        NumberOperation::Push(1),
        NumberOperation::PushNull,
        NumberOperation::Pop,
        NumberOperation::Push(-7),
    ];
    let array = Int32Vec::replay(alloc, &operations)?;
    Ok(array_is(&array, ArrowDataType::Int32, &[1, -7], None))
}

pub fn replayed_with_a_null_is(alloc: Global) -> Result<bool, PolarsError> {
    let operations = [NumberOperation::PushNull, NumberOperation::Push(3)];
    let array = Int32Vec::replay(alloc, &operations)?;
    Ok(array_is(&array, ArrowDataType::Int32, &[0, 3], Some(&[false, true])))
}
