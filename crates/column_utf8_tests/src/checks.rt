//! What texts are seen to be: one truth value for each group of calls, and no assertion.

ghost use Rattle.std.specs.Prelude.{◌+◌, ◌≤◌};
ghost use Rattle.column_binary.specs.Slots.{slot_count};

use crate::cases::{FOUR, Lists, byte_strings, four, lists_of, raw_texts, texts};
use column_base::{ArrowDataType, Cause, Offset, PolarsError, Splitable};
use column_binary::BinaryArray;
use column_checks::{Flags, Half, bitmap, ends_are, flags_are, gives, gives_back, half_of};
use column_offset::OffsetsBuffer;
use column_storage::{ArrayAccessor, ArrayValuesIter, Bitmap, Buffer};
use column_utf8::{Utf8Array, no_fault_is_sound, try_into_utf8};
use std::alloc::Global;

// ---- lists

fn parts_are<O: Offset>(
    offsets: &OffsetsBuffer<O>,
    values: &Buffer<u8>,
    validity: Option<&Bitmap>,
    wanted: Lists<'_>,
) -> bool {
    let places = wanted.offsets.iter().map(|place| O::from_usize(*place));
    offsets
        .as_slice()
        .iter()
        .map(|offset| Some(*offset))
        .eq(places)
        && values.as_slice() == wanted.values
        && flags_are(validity, wanted.flags)
}

pub fn texts_are<O: Offset>(array: &Utf8Array<O>, wanted: Lists<'_>) -> bool {
    parts_are(array.offsets(), array.values(), array.validity(), wanted)
        && array.len() == wanted.offsets.len().saturating_sub(1)
        && array.is_empty() == (wanted.offsets.len() == 1)
}

fn byte_strings_are<O: Offset>(array: &BinaryArray<O>, wanted: Lists<'_>) -> bool {
    parts_are(array.offsets(), array.values(), array.validity(), wanted)
}

// ---- constructors

fn is_told<O: Offset>(
    alloc: Global,
    lists: Lists<'_>,
    dtype: ArrowDataType,
    cause: Option<Cause>,
) -> bool {
    match texts::<O>(alloc, lists, dtype) {
        Ok(array) => cause.is_none() && texts_are(&array, lists),
        Err(error) => cause.map(PolarsError::ComputeError) == Some(error),
    }
}

/// At both widths, with the data type of texts of that width, or of the other one.
pub fn are_told(alloc: Global, lists: Lists<'_>, is_own: bool, cause: Option<Cause>) -> bool {
    let (own, other) = (ArrowDataType::Utf8, ArrowDataType::LargeUtf8);
    let (small, wide) = if is_own { (own, other) } else { (other, own) };
    is_told::<i32>(alloc, lists, small, cause) && is_told::<i64>(alloc, lists, wide, cause)
}

pub fn dtype_is_refused(alloc: Global, dtype: ArrowDataType) -> bool {
    let wrong = Some(Cause::WrongDataType);
    is_told::<i32>(alloc, FOUR, dtype, wrong) && is_told::<i64>(alloc, FOUR, dtype, wrong)
}

fn raw_is_told<O: Offset>(
    alloc: Global,
    lists: Lists<'_>,
    cause: Option<Cause>,
) -> Result<bool, PolarsError> {
    Ok(match raw_texts::<O>(alloc, lists)? {
        Ok(array) => cause.is_none() && texts_are(&array, lists),
        Err(fault) => cause == Some(fault),
    })
}

pub fn raw_are_told(
    alloc: Global,
    lists: Lists<'_>,
    cause: Option<Cause>,
) -> Result<bool, PolarsError> {
    Ok(raw_is_told::<i32>(alloc, lists, cause)? && raw_is_told::<i64>(alloc, lists, cause)?)
}

fn dtype_is<O: Offset>(array: &Utf8Array<O>, dtype: ArrowDataType) -> bool {
    array.dtype() == dtype && Utf8Array::<O>::default_dtype() == dtype
}

pub fn empty_is<O: Offset>(alloc: Global) -> Result<bool, PolarsError> {
    let array = Utf8Array::<O>::new_empty(alloc, Utf8Array::<O>::default_dtype())?;
    Ok(texts_are(&array, lists_of(&[0], b"", None)))
}

pub fn nulls_are<O: Offset>(alloc: Global) -> Result<bool, PolarsError> {
    let array = Utf8Array::<O>::new_null(alloc, Utf8Array::<O>::default_dtype(), 2)?;
    Ok(
        texts_are(&array, lists_of(&[0, 0, 0], b"", Some(&[false, false])))
            && array.null_count() == 2,
    )
}

pub fn no_nulls_are(alloc: Global) -> Result<bool, PolarsError> {
    let array = Utf8Array::<i64>::new_null(alloc, ArrowDataType::LargeUtf8, 0)?;
    Ok(texts_are(&array, lists_of(&[0], b"", Some(&[]))))
}

// ---- taken apart, and put together again

fn is_handed_back<O: Offset>(array: Utf8Array<O>) -> bool {
    let (dtype, offsets, values, validity) = array.into_inner();
    dtype == Utf8Array::<O>::default_dtype()
        && parts_are(&offsets, &values, validity.as_ref(), FOUR)
}

fn is_made_again<O: Offset>(array: Utf8Array<O>) -> bool {
    let (dtype, offsets, values, validity) = array.into_inner();
    no_fault_is_sound();
    texts_are(&Utf8Array::new(dtype, offsets, values, validity), FOUR)
}

fn is_taken_again<O: Offset>(array: Utf8Array<O>) -> bool {
    let (dtype, offsets, values, validity) = array.into_inner();
    texts_are(
        &Utf8Array::new_unchecked(dtype, offsets, values, validity),
        FOUR,
    )
}

fn share_is<O: Offset>(alloc: Global, array: &Utf8Array<O>) -> Result<bool, PolarsError> {
    let shared = array.try_clone(alloc)?;
    Ok(texts_are(&shared, FOUR))
}

/// Each way to take four slots apart and to put them together again.
pub fn four_are_put_together<O: Offset>(alloc: Global) -> Result<bool, PolarsError> {
    Ok(
        is_handed_back(four::<O>(alloc)?)
            && is_made_again(four::<O>(alloc)?)
            && is_taken_again(four::<O>(alloc)?),
    )
}

// ---- readers by place

fn slot_is<O: Offset>(array: &Utf8Array<O>, i: usize, valid: bool, text: &str) -> bool {
    i < array.len()
        && array.is_valid(i) == valid
        && array.is_null(i) != valid
        && array.value(i) == text
        && array.value_unchecked(i) == text
        && array.get(i) == (if valid { Some(text) } else { None })
}

fn slots_are<O: Offset>(array: &Utf8Array<O>) -> bool {
    array.len() == 4
        && array.null_count() == 1
        && slot_is(array, 0, true, "é")
        && slot_is(array, 1, false, "x")
        && slot_is(array, 2, true, "")
        && slot_is(array, 3, true, "€b")
}

// ---- iterators

const ROWS: [Option<&str>; 4] = [Some("é"), None, Some(""), Some("€b")];

const VALUES: [&str; 4] = ["é", "x", "", "€b"];

fn rows_are(array: &Utf8Array<i32>) -> bool {
    gives(array.into_iter(), &ROWS) && ends_are(array.iter(), ROWS)
}

fn values_are(array: &Utf8Array<i32>) -> bool {
    gives(array.values_iter(), &VALUES) && gives(array.non_null_values_iter(), &["é", "", "€b"])
}

fn large_rows_are(array: &Utf8Array<i64>) -> bool {
    gives(array.iter(), &ROWS) && gives(array.into_iter(), &ROWS)
}

fn large_values_are(array: &Utf8Array<i64>) -> bool {
    gives_back(array.values_iter(), &["€b", "", "x", "é"]) && ends_are(array.values_iter(), VALUES)
}

/// Through the bound that the iterators go by.
fn places_are<'a, A: ArrayAccessor<'a, Item = &'a str>>(array: &'a A) -> bool {
    ArrayAccessor::len(array) == 4
        && ArrayAccessor::value_unchecked(array, 1) == "x"
        && ArrayValuesIter::new(array).nth(3) == Some("€b")
        && ArrayValuesIter::new(array).nth_back(3) == Some("é")
}

pub fn four_are_read(array: &Utf8Array<i32>) -> bool {
    slots_are(array)
        && dtype_is(array, ArrowDataType::Utf8)
        && rows_are(array)
        && values_are(array)
        && places_are(array)
}

pub fn four_large_are_read(array: &Utf8Array<i64>) -> bool {
    slots_are(array)
        && dtype_is(array, ArrowDataType::LargeUtf8)
        && large_rows_are(array)
        && large_values_are(array)
        && places_are(array)
}

// ---- parts

/// How a part is taken.
#[derive(Clone, Copy, Debug)]
pub enum Call {
    Sliced,
    SlicedUnchecked,
    Slice,
    SliceUnchecked,
}

fn part<O: Offset>(array: Utf8Array<O>, call: Call, from: usize, length: usize) -> Utf8Array<O>
    requires { from + length ≤ slot_count array }
{
    match call {
        Call::Sliced => array.sliced(from, length),
        Call::SlicedUnchecked => array.sliced_unchecked(from, length),
        Call::Slice => kept(array, from, length),
        Call::SliceUnchecked => kept_unchecked(array, from, length),
    }
}

fn kept<O: Offset>(mut array: Utf8Array<O>, from: usize, length: usize) -> Utf8Array<O>
    requires { from + length ≤ slot_count array }
{
    array.slice(from, length);
    array
}

fn kept_unchecked<O: Offset>(mut array: Utf8Array<O>, from: usize, length: usize) -> Utf8Array<O>
    requires { from + length ≤ slot_count array }
{
    array.slice_unchecked(from, length);
    array
}

fn part_is<O: Offset>(
    array: Utf8Array<O>,
    call: Call,
    (from, length): (usize, usize),
    wanted: Lists<'_>,
) -> bool {
    from <= array.len()
        && length <= array.len() - from
        && texts_are(&part(array, call, from, length), wanted)
}

/// Of four slots at both widths.
pub fn four_give(
    alloc: Global,
    call: Call,
    range: (usize, usize),
    wanted: Lists<'_>,
) -> Result<bool, PolarsError> {
    Ok(
        part_is(four::<i32>(alloc)?, call, range, wanted)
            && part_is(four::<i64>(alloc)?, call, range, wanted),
    )
}

fn second_part_is(array: Utf8Array<i64>) -> bool {
    let mut array = array;
    if array.len() != 4 {
        return false;
    }
    array.slice(1, 3);
    part_is(
        array,
        Call::Sliced,
        (1, 2),
        lists_of(&[4, 4, 8], FOUR.values, None),
    )
}

pub fn slices_follow(alloc: Global) -> Result<bool, PolarsError> {
    Ok(second_part_is(four::<i64>(alloc)?))
}

fn half_is<O: Offset>(
    alloc: Global,
    array: &Utf8Array<O>,
    half: Half,
    place: usize,
    wanted: Lists<'_>,
) -> Result<bool, PolarsError> {
    if !array.check_bound(place) {
        return Ok(false);
    }
    let part = half_of(alloc, array, half, place)?;
    Ok(texts_are(&part, wanted))
}

/// Of four slots at both widths.
pub fn four_cut(
    alloc: Global,
    (half, place): (Half, usize),
    wanted: Lists<'_>,
) -> Result<bool, PolarsError> {
    Ok(
        half_is(alloc, &four::<i32>(alloc)?, half, place, wanted)?
            && half_is(alloc, &four::<i64>(alloc)?, half, place, wanted)?,
    )
}

// ---- other flags

fn beside(flags: Flags<'_>) -> Lists<'_> {
    lists_of(FOUR.offsets, FOUR.values, flags)
}

pub fn with_is(alloc: Global, flags: Flags<'_>) -> Result<bool, PolarsError> {
    let bits = bitmap(alloc, flags)?;
    Ok(is_beside(four(alloc)?, bits, flags))
}

fn is_beside(array: Utf8Array<i32>, bits: Option<Bitmap>, flags: Flags<'_>) -> bool {
    if let Some(bits) = &bits {
        if bits.len() != array.len() {
            return false;
        }
    }
    texts_are(&array.with_validity(bits), beside(flags))
}

pub fn set_is(alloc: Global, flags: Flags<'_>) -> Result<bool, PolarsError> {
    let bits = bitmap(alloc, flags)?;
    Ok(is_set(four(alloc)?, bits, flags))
}

fn is_set(array: Utf8Array<i64>, bits: Option<Bitmap>, flags: Flags<'_>) -> bool {
    let mut array = array;
    if let Some(bits) = &bits {
        if bits.len() != array.len() {
            return false;
        }
    }
    array.set_validity(bits);
    texts_are(&array, beside(flags))
}

pub fn taken_is(array: Utf8Array<i32>) -> bool {
    let mut array = array;
    let taken = array.take_validity();
    flags_are(taken.as_ref(), FOUR.flags)
        && array.take_validity().is_none()
        && texts_are(&array, beside(None))
}

pub fn applied_is(alloc: Global, flags: &[bool]) -> Result<bool, PolarsError> {
    let bits = Bitmap::from_bools(alloc, flags)?;
    Ok(is_applied(four(alloc)?, bits, flags))
}

// in place of the flags that there were
fn is_applied(array: Utf8Array<i32>, bits: Bitmap, flags: &[bool]) -> bool {
    let mut array = array;
    array.known();
    if bits.len() != array.len() {
        return false;
    }
    array.apply_validity(|_| bits);
    texts_are(&array, beside(Some(flags)))
}

// ---- byte strings and texts

fn binary_is<O: Offset>(alloc: Global, array: &Utf8Array<O>) -> Result<bool, PolarsError> {
    let shared = array.to_binary(alloc)?;
    Ok(byte_strings_are(&shared, FOUR) && byte_strings_are(array.as_binary(), FOUR))
}

/// A share of four slots, as texts and as byte strings.
pub fn four_are_shared<O: Offset>(alloc: Global) -> Result<bool, PolarsError> {
    let array = four::<O>(alloc)?;
    Ok(share_is(alloc, &array)? && binary_is(alloc, &array)?)
}

pub fn into_binary_is<O: Offset>(
    array: Utf8Array<O>,
    (from, length): (usize, usize),
    wanted: Lists<'_>,
) -> bool {
    from <= array.len()
        && length <= array.len() - from
        && byte_strings_are(&array.sliced(from, length).into_binary(), wanted)
}

fn is_converted<O: Offset>(array: BinaryArray<O>, cause: Option<Cause>, wanted: Lists<'_>) -> bool {
    match try_into_utf8(array) {
        Ok(texts) => cause.is_none() && texts_are(&texts, wanted),
        Err((back, refused)) => cause == Some(refused) && byte_strings_are(&back, wanted),
    }
}

fn part_is_converted<O: Offset>(
    array: BinaryArray<O>,
    (from, length): (usize, usize),
    cause: Option<Cause>,
    wanted: Lists<'_>,
) -> bool {
    from <= array.len()
        && length <= array.len() - from
        && is_converted(array.sliced(from, length), cause, wanted)
}

/// A slice of byte strings that is to become texts: refused for a cause, or taken where there is none. At both widths.
pub fn slice_is_converted(
    alloc: Global,
    lists: Lists<'_>,
    range: (usize, usize),
    cause: Option<Cause>,
    wanted: Lists<'_>,
) -> Result<bool, PolarsError> {
    Ok(
        part_is_converted(byte_strings::<i32>(alloc, lists)?, range, cause, wanted)
            && part_is_converted(byte_strings::<i64>(alloc, lists)?, range, cause, wanted),
    )
}
