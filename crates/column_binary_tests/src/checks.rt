//! What an array is seen to be: one truth value for each group of calls, and no assertion.

ghost use Rattle.std.specs.Prelude.{◌+◌, ◌≤◌};
ghost use Rattle.column_binary.specs.Slots.{slot_count};

use crate::cases::{BYTES, array, buffer, four, four_large};
use column_base::{ArrowDataType, Cause, Offset, PolarsError, Splitable};
use column_binary::{BinaryArray, no_fault_is_sound};
use column_checks::{Flags, Half, bitmap, ends_are, flags_are, gives, half_of};
use column_storage::{ArrayAccessor, ArrayValuesIter, Bitmap, Listed, check_validity};
use std::alloc::Global;

// ---- lists

pub fn lists_are<O: Offset>(
    array: &BinaryArray<O>,
    offsets: &[O],
    values: &[u8],
    flags: Flags<'_>,
) -> bool {
    array.offsets().as_slice() == offsets
        && array.values().as_slice() == values
        && flags_are(array.validity(), flags)
        && array.len() + 1 == offsets.len()
        && array.is_empty() == (offsets.len() == 1)
}

// ---- constructors

pub fn is_told<O: Offset>(
    alloc: Global,
    offsets: &[O],
    values: &[u8],
    flags: Flags<'_>,
    dtype: ArrowDataType,
    cause: Option<Cause>,
) -> bool {
    match array(alloc, offsets, values, flags, dtype) {
        Ok(array) => cause.is_none() && lists_are(&array, offsets, values, flags),
        Err(error) => cause.map(PolarsError::ComputeError) == Some(error),
    }
}

// over three bytes
fn raw_array<O: Offset>(
    alloc: Global,
    offsets: &[O],
    flags: Flags<'_>,
) -> Result<Result<BinaryArray<O>, Cause>, PolarsError> {
    let offsets = buffer(alloc, offsets)?;
    let validity = bitmap(alloc, flags)?;
    Ok(BinaryArray::try_from_parts(offsets, buffer(alloc, b"abc")?, validity))
}

pub fn raw_is_told<O: Offset>(
    alloc: Global,
    offsets: &[O],
    flags: Flags<'_>,
    cause: Option<Cause>,
) -> Result<bool, PolarsError> {
    Ok(match raw_array(alloc, offsets, flags)? {
        Ok(array) => cause.is_none() && lists_are(&array, offsets, b"abc", flags),
        Err(fault) => cause == Some(fault),
    })
}

fn dtype_is<O: Offset>(array: &BinaryArray<O>, dtype: ArrowDataType) -> bool {
    array.dtype() == dtype && BinaryArray::<O>::default_dtype() == dtype
}

pub fn empty_is(alloc: Global) -> Result<bool, PolarsError> {
    let array = BinaryArray::<i32>::new_empty(alloc, ArrowDataType::Binary)?;
    Ok(lists_are(&array, &[0], b"", None))
}

pub fn no_nulls_are(alloc: Global) -> Result<bool, PolarsError> {
    let array = BinaryArray::<i64>::new_null(alloc, ArrowDataType::LargeBinary, 0)?;
    Ok(lists_are(&array, &[0], b"", Some(&[])))
}

pub fn nulls_are(alloc: Global) -> Result<bool, PolarsError> {
    let array = BinaryArray::<i32>::new_null(alloc, ArrowDataType::Binary, 2)?;
    Ok(lists_are(&array, &[0, 0, 0], b"", Some(&[false, false])) && array.null_count() == 2)
}

// ---- readers by place

fn slot_is<O: Offset>(array: &BinaryArray<O>, i: usize, valid: bool, bytes: &[u8]) -> bool {
    i < array.len()
        && array.is_valid(i) == valid
        && array.is_null(i) != valid
        && array.value(i) == bytes
        && array.value_unchecked(i) == bytes
        && array.get(i) == (if valid { Some(bytes) } else { None })
}

fn slots_are<O: Offset>(array: &BinaryArray<O>, nulls: usize, second: bool) -> bool {
    array.len() == 4
        && array.null_count() == nulls
        && slot_is(array, 0, true, b"ab")
        && slot_is(array, 1, second, b"c")
        && slot_is(array, 2, true, b"")
        && slot_is(array, 3, true, b"de")
}

// through the bound that the iterators go by
fn places_are<'a, A: ArrayAccessor<'a, Item = &'a [u8]>>(array: &'a A) -> bool {
    ArrayAccessor::len(array) == 4
        && ArrayAccessor::value_unchecked(array, 1) == b"c".as_slice()
        && ArrayValuesIter::new(array).nth(3) == Some(b"de".as_slice())
        && ArrayValuesIter::new(array).nth_back(3) == Some(b"ab".as_slice())
}

pub fn four_are_read(array: &BinaryArray<i32>) -> bool {
    slots_are(array, 1, false) && places_are(array) && dtype_is(array, ArrowDataType::Binary)
}

pub fn four_large_are_read(array: &BinaryArray<i64>) -> bool {
    slots_are(array, 0, true) && places_are(array) && dtype_is(array, ArrowDataType::LargeBinary)
}

// ---- iterators

const ROWS: [Option<&[u8]>; 4] = [Some(b"ab"), None, Some(b""), Some(b"de")];

const LARGE_ROWS: [Option<&[u8]>; 4] = [Some(b"ab"), Some(b"c"), Some(b""), Some(b"de")];

const VALUES: [&[u8]; 4] = [b"ab", b"c", b"", b"de"];

pub fn rows_are(array: &BinaryArray<i32>) -> bool {
    gives(array.into_iter(), &ROWS) && ends_are(array.iter(), ROWS)
}

/// Whether the iterators of an array of four slots, of which the second is null, answer None for good, at their own types.
pub fn iterators_end(array: &BinaryArray<i32>) -> bool {
    rows_end(array) && values_end(array) && valid_values_end(array)
}

fn rows_end(array: &BinaryArray<i32>) -> bool {
    let mut rows = array.iter();
    rows.nth(3) == Some(Some(b"de".as_slice()))
        && rows.next().is_none()
        && rows.next_back().is_none()
        && rows.next_back().is_none()
        && rows.next().is_none()
}

fn values_end(array: &BinaryArray<i32>) -> bool {
    let mut values = array.values_iter();
    values.nth(3) == Some(b"de".as_slice())
        && values.next_back().is_none()
        && values.next().is_none()
        && values.next_back().is_none()
}

fn valid_values_end(array: &BinaryArray<i32>) -> bool {
    let mut values = array.non_null_values_iter();
    values.nth(2) == Some(b"de".as_slice()) && values.next().is_none() && values.next().is_none()
}

/// Whether a `for` over the array comes to this row.
pub fn has_row(array: &BinaryArray<i32>, wanted: Option<&[u8]>) -> bool {
    for row in array {
        if row == wanted {
            return true;
        }
    }
    false
}

pub fn values_are(array: &BinaryArray<i32>) -> bool {
    ends_are(array.values_iter(), VALUES)
        && gives(array.non_null_values_iter(), &[b"ab", b"", b"de"])
        && ends_after(array.non_null_values_iter(), b"de")
}

// past all but the last item, which is given once, and None from then on
fn ends_after<'a, I: Listed<Item = &'a [u8]>>(iter: I, last: &[u8]) -> bool
    requires { (s : I) → I.can_next s }
{
    let mut iter = iter;
    iter.nth(2) == Some(last) && iter.next().is_none() && iter.next().is_none()
}

pub fn large_rows_are(array: &BinaryArray<i64>) -> bool {
    gives(array.into_iter(), &LARGE_ROWS)
}

pub fn large_values_are(array: &BinaryArray<i64>) -> bool {
    let valid = array.non_null_values_iter();
    valid.size_hint() == (4, Some(4))
        && gives(valid, &VALUES)
        && ends_are(array.values_iter(), VALUES)
}

// ---- parts

/// How a part is taken.
#[derive(Clone, Copy, Debug)]
pub enum Call {
    Sliced,
    SlicedUnchecked,
    Slice,
    SliceUnchecked,
}

fn part<O: Offset>(array: BinaryArray<O>, call: Call, from: usize, length: usize) -> BinaryArray<O>
    requires { from + length ≤ slot_count array }
{
    match call {
        Call::Sliced => array.sliced(from, length),
        Call::SlicedUnchecked => array.sliced_unchecked(from, length),
        Call::Slice => kept(array, from, length),
        Call::SliceUnchecked => kept_unchecked(array, from, length),
    }
}

fn kept<O: Offset>(mut array: BinaryArray<O>, from: usize, length: usize) -> BinaryArray<O>
    requires { from + length ≤ slot_count array }
{
    array.slice(from, length);
    array
}

fn kept_unchecked<O: Offset>(
    mut array: BinaryArray<O>,
    from: usize,
    length: usize,
) -> BinaryArray<O>
    requires { from + length ≤ slot_count array }
{
    array.slice_unchecked(from, length);
    array
}

fn part_is<O: Offset>(
    array: BinaryArray<O>,
    call: Call,
    (from, length): (usize, usize),
    offsets: &[O],
    values: &[u8],
    flags: Flags<'_>,
) -> bool {
    from <= array.len()
        && length <= array.len() - from
        && lists_are(&part(array, call, from, length), offsets, values, flags)
}

pub fn four_give(
    alloc: Global,
    call: Call,
    range: (usize, usize),
    offsets: &[i32],
    flags: Flags<'_>,
) -> Result<bool, PolarsError> {
    Ok(part_is(four(alloc)?, call, range, offsets, BYTES, flags))
}

fn second_part_is(array: BinaryArray<i64>) -> bool {
    let mut array = array;
    if array.len() != 4 {
        return false;
    }
    array.slice(1, 3);
    part_is(array, Call::Slice, (1, 2), &[4, 4, 6], BYTES, None)
}

pub fn slices_follow(alloc: Global) -> Result<bool, PolarsError> {
    Ok(second_part_is(four_large(alloc)?))
}

pub fn none_of_none_is(alloc: Global) -> Result<bool, PolarsError> {
    let none = BinaryArray::<i32>::new_null(alloc, ArrowDataType::Binary, 0)?;
    Ok(part_is(none, Call::SliceUnchecked, (0, 0), &[0], b"", None))
}

fn half_is<O: Offset>(
    alloc: Global,
    array: &BinaryArray<O>,
    (which, place): (Half, usize),
    offsets: &[O],
    flags: Flags<'_>,
) -> Result<bool, PolarsError> {
    if !array.check_bound(place) {
        return Ok(false);
    }
    let part = half_of(alloc, array, which, place)?;
    Ok(lists_are(&part, offsets, BYTES, flags))
}

pub fn four_cut(
    alloc: Global,
    half: (Half, usize),
    offsets: &[i32],
    flags: Flags<'_>,
) -> Result<bool, PolarsError> {
    half_is(alloc, &four(alloc)?, half, offsets, flags)
}

pub fn four_large_cut(
    alloc: Global,
    half: (Half, usize),
    offsets: &[i64],
) -> Result<bool, PolarsError> {
    half_is(alloc, &four_large(alloc)?, half, offsets, None)
}

pub fn bounds_are(array: &BinaryArray<i64>) -> bool {
    array.known();
    array.check_bound(4) && !array.check_bound(5)
}

// ---- shared and handed back

// taken apart and put together again
fn is_again<O: Offset>(array: BinaryArray<O>, offsets: &[O], flags: Flags<'_>) -> bool {
    let (dtype, all, values, bits) = array.into_inner();
    dtype == BinaryArray::<O>::default_dtype()
        && lists_are(
            &BinaryArray::new_unchecked(dtype, all, values, bits),
            offsets,
            BYTES,
            flags,
        )
}

// the same, by the call that asks for lists without a fault
fn is_new_again<O: Offset>(array: BinaryArray<O>, offsets: &[O], flags: Flags<'_>) -> bool {
    let (dtype, all, values, bits) = array.into_inner();
    no_fault_is_sound();
    lists_are(
        &BinaryArray::new(dtype, all, values, bits),
        offsets,
        BYTES,
        flags,
    )
}

// a share, and the lists that it hands back
fn share_is<O: Offset>(
    alloc: Global,
    array: &BinaryArray<O>,
    offsets: &[O],
    flags: Flags<'_>,
) -> Result<bool, PolarsError> {
    Ok(
        is_again(array.try_clone(alloc)?, offsets, flags)
            && is_new_again(array.try_clone(alloc)?, offsets, flags),
    )
}

pub fn four_are_shared(alloc: Global, flags: Flags<'_>) -> Result<bool, PolarsError> {
    share_is(alloc, &four(alloc)?, &[1, 3, 4, 4, 6], flags)
}

pub fn four_large_are_shared(alloc: Global) -> Result<bool, PolarsError> {
    share_is(alloc, &four_large(alloc)?, &[1, 3, 4, 4, 6], None)
}

// ---- other flags

fn with_is(array: BinaryArray<i32>, bits: Option<Bitmap>, flags: Flags<'_>) -> bool {
    match check_validity(bits.as_ref(), array.len()) {
        Ok(()) => lists_are(&array.with_validity(bits), &[1, 3, 4, 4, 6], BYTES, flags),
        Err(_) => false,
    }
}

fn set_is(array: BinaryArray<i32>, bits: Option<Bitmap>, flags: Flags<'_>) -> bool {
    let mut array = array;
    match check_validity(bits.as_ref(), array.len()) {
        Ok(()) => array.set_validity(bits),
        Err(_) => return false,
    }
    lists_are(&array, &[1, 3, 4, 4, 6], BYTES, flags)
}

pub fn four_with(alloc: Global, flags: Flags<'_>) -> Result<bool, PolarsError> {
    let bits = bitmap(alloc, flags)?;
    Ok(with_is(four(alloc)?, bits, flags))
}

pub fn four_set(alloc: Global, flags: Flags<'_>) -> Result<bool, PolarsError> {
    let bits = bitmap(alloc, flags)?;
    Ok(set_is(four(alloc)?, bits, flags))
}

pub fn taken_is(array: BinaryArray<i32>, flags: Flags<'_>) -> bool {
    let mut array = array;
    let taken = array.take_validity();
    flags_are(taken.as_ref(), flags)
        && array.take_validity().is_none()
        && lists_are(&array, &[1, 3, 4, 4, 6], BYTES, None)
}
