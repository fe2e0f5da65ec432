//! What an array is seen to be: one truth value for each group of calls, and no assertion.

ghost use Rattle.std.specs.Prelude.{◌+◌, ◌≤◌};
ghost use Rattle.column_binview.specs.Slots.{view_count};

use crate::cases::{FOUR, LONG, NONE, TWELVE, array, four, four_texts, lists};
use column_base::{ArrowDataType, BinaryKind, Cause, PolarsError, Splitable, Utf8Kind, ViewKind};
use column_binview::{BinaryViewArray, BinaryViewArrayGeneric, Utf8ViewArray, no_fault_is_sound};
use column_checks::{Flags, Half, bitmap, ends_are, flags_are, gives, half_of};
use column_storage::{ArrayAccessor, Bitmap, Buffer, DataBuffers, check_validity};
use column_view::View;
use std::alloc::Global;

// ---- lists

fn views_are(views: &Buffer<View>, wanted: &[[u8; 16]]) -> bool {
    if views.len() != wanted.len() {
        return false;
    }
    for i in 0..wanted.len() {
        if views.as_slice()[i].to_le() != wanted[i] {
            return false;
        }
    }
    true
}

fn buffer_is(buffers: &DataBuffers, wanted: Option<&[u8]>) -> bool {
    match wanted {
        Some(bytes) => buffers.len() == 1 && buffers.get(0).as_slice() == bytes,
        None => buffers.is_empty(),
    }
}

fn lists_are<K: ViewKind>(
    array: &BinaryViewArrayGeneric<K>,
    views: &[[u8; 16]],
    buffer: Option<&[u8]>,
    flags: Flags<'_>,
) -> bool {
    views_are(array.views(), views)
        && buffer_is(array.data_buffers(), buffer)
        && flags_are(array.validity(), flags)
        && array.len() == views.len()
        && array.is_empty() == views.is_empty()
}

fn sums_are<K: ViewKind>(array: &BinaryViewArrayGeneric<K>, slots: u128, buffers: u128) -> bool {
    array.total_bytes_len() == slots && array.total_buffer_len() == buffers
}

// ---- constructors

fn error_of(cause: Cause) -> PolarsError {
    match cause {
        Cause::ViewIndex | Cause::BufferSlice => PolarsError::OutOfBounds(cause),
        _ => PolarsError::ComputeError(cause),
    }
}

pub fn is_told<K: ViewKind>(
    alloc: Global,
    views: &[[u8; 16]],
    buffer: Option<&[u8]>,
    flags: Flags<'_>,
    cause: Option<Cause>,
) -> bool {
    match array::<K>(alloc, views, buffer, flags) {
        Ok(array) => cause.is_none() && lists_are(&array, views, buffer, flags),
        Err(error) => cause.map(error_of) == Some(error),
    }
}

pub fn raw_is_told(
    alloc: Global,
    views: &[[u8; 16]],
    flags: Flags<'_>,
    cause: Option<Cause>,
) -> Result<bool, PolarsError> {
    let (all, buffers, validity) = lists(alloc, views, None, flags)?;
    Ok(BinaryViewArray::try_from_parts(all, buffers, validity).err() == cause)
}

pub fn empty_is(alloc: Global) -> Result<bool, PolarsError> {
    let array = Utf8ViewArray::new_empty(alloc, ArrowDataType::Utf8View)?;
    Ok(lists_are(&array, &[], None, None) && sums_are(&array, 0, 0))
}

pub fn nulls_are(alloc: Global) -> Result<bool, PolarsError> {
    let array = BinaryViewArray::new_null(alloc, ArrowDataType::BinaryView, 2)?;
    Ok(
        lists_are(&array, &[NONE, NONE], None, Some(&[false, false]))
            && sums_are(&array, 0, 0)
            && array.null_count() == 2,
    )
}

// ---- readers by place

fn slot_is(array: &BinaryViewArray, i: usize, valid: bool, bytes: &[u8]) -> bool {
    i < array.len()
        && array.is_valid(i) == valid
        && array.is_null(i) != valid
        && array.value(i) == bytes
        && array.value_unchecked(i) == bytes
        && array.value_bytes(i) == bytes
        && array.get(i) == (if valid { Some(bytes) } else { None })
}

pub fn four_are_read(array: &BinaryViewArray) -> bool {
    array.null_count() == 1
        && array.dtype() == ArrowDataType::BinaryView
        && slot_is(array, 0, true, b"abc")
        && slot_is(array, 1, false, LONG)
        && slot_is(array, 2, true, b"")
        && slot_is(array, 3, true, b"abcdefghijkl")
        && sums_are(array, 28, 15)
}

pub fn texts_are_read(array: &Utf8ViewArray) -> bool {
    array.dtype() == ArrowDataType::Utf8View
        && array.len() == 4
        && array.value(1) == "abcdefghijklm"
        && array.get(0) == Some("abc")
        && ArrayAccessor::len(array) == 4
}

// ---- iterators

pub fn rows_are(array: &BinaryViewArray) -> bool {
    let rows: [Option<&[u8]>; 4] = [Some(b"abc"), None, Some(b""), Some(b"abcdefghijkl")];
    gives(array.into_iter(), &rows) && ends_are(array.iter(), rows)
}

pub fn values_are(array: &BinaryViewArray) -> bool {
    let values: [&[u8]; 4] = [b"abc", LONG, b"", b"abcdefghijkl"];
    ends_are(array.values_iter(), values)
        && gives(
            array.non_null_values_iter(),
            &[b"abc", b"", b"abcdefghijkl"],
        )
}

pub fn text_rows_are(array: &Utf8ViewArray) -> bool {
    let rows = [
        Some("abc"),
        Some("abcdefghijklm"),
        Some(""),
        Some("abcdefghijkl"),
    ];
    gives(array.into_iter(), &rows) && ends_are(array.iter(), rows)
}

pub fn text_values_are(array: &Utf8ViewArray) -> bool {
    let values = ["abc", "abcdefghijklm", "", "abcdefghijkl"];
    ends_are(array.values_iter(), values) && gives(array.non_null_values_iter(), &values)
}

pub fn views_are_given(array: &BinaryViewArray) -> bool {
    let valid = [
        View::from_le(FOUR[0]),
        View::from_le(FOUR[2]),
        View::from_le(FOUR[3]),
    ];
    ends_are(array.len_iter(), [3, 13, 0, 12]) && gives(array.non_null_views_iter(), &valid)
}

// ---- parts

/// How a part is taken.
#[derive(Clone, Copy, Debug)]
pub enum Call {
    Sliced,
    SlicedUnchecked,
    Slice,
    SliceUnchecked,
}

fn part(array: BinaryViewArray, call: Call, from: usize, length: usize) -> BinaryViewArray
    requires { from + length ≤ view_count array }
{
    match call {
        Call::Sliced => array.sliced(from, length),
        Call::SlicedUnchecked => array.sliced_unchecked(from, length),
        Call::Slice => kept(array, from, length),
        Call::SliceUnchecked => kept_unchecked(array, from, length),
    }
}

fn kept(mut array: BinaryViewArray, from: usize, length: usize) -> BinaryViewArray
    requires { from + length ≤ view_count array }
{
    array.slice(from, length);
    array
}

fn kept_unchecked(mut array: BinaryViewArray, from: usize, length: usize) -> BinaryViewArray
    requires { from + length ≤ view_count array }
{
    array.slice_unchecked(from, length);
    array
}

fn part_is(
    array: BinaryViewArray,
    call: Call,
    (from, length): (usize, usize),
    views: &[[u8; 16]],
    flags: Flags<'_>,
    bytes: u128,
) -> bool {
    if from > array.len() || length > array.len() - from {
        return false;
    }
    let part = part(array, call, from, length);
    lists_are(&part, views, Some(b"xabcdefghijklmy"), flags) && sums_are(&part, bytes, 15)
}

pub fn four_give(
    alloc: Global,
    call: Call,
    range: (usize, usize),
    views: &[[u8; 16]],
    flags: Flags<'_>,
    bytes: u128,
) -> Result<bool, PolarsError> {
    Ok(part_is(four(alloc)?, call, range, views, flags, bytes))
}

pub fn four_cut(
    alloc: Global,
    half: Half,
    place: usize,
    views: &[[u8; 16]],
    flags: Flags<'_>,
) -> Result<bool, PolarsError> {
    let array = four(alloc)?;
    if !array.check_bound(place) {
        return Ok(false);
    }
    let part = half_of(alloc, &array, half, place)?;
    Ok(lists_are(&part, views, Some(b"xabcdefghijklmy"), flags))
}

// ---- other flags, and shares

pub fn other_flags_are(array: BinaryViewArray) -> bool {
    let mut array = array;
    let taken = array.take_validity();
    flags_are(taken.as_ref(), Some(&[true, false, true, true]))
        && array.validity().is_none()
        && is_again(array)
}

fn is_again(array: BinaryViewArray) -> bool {
    let (views, buffers, validity, slots, bytes) = array.into_inner();
    let again = BinaryViewArray::new_unchecked(
        ArrowDataType::Unknown,
        views,
        buffers,
        validity,
        slots,
        bytes,
    );
    slots == 28 && bytes == 15 && lists_are(&again, &FOUR, Some(b"xabcdefghijklmy"), None)
}

fn with_is(array: BinaryViewArray, bits: Option<Bitmap>, flags: Flags<'_>) -> bool {
    match check_validity(bits.as_ref(), array.len()) {
        Ok(()) => lists_are(
            &array.with_validity(bits),
            &FOUR,
            Some(b"xabcdefghijklmy"),
            flags,
        ),
        Err(_) => false,
    }
}

fn set_is(array: BinaryViewArray, bits: Option<Bitmap>, flags: Flags<'_>) -> bool {
    let mut array = array;
    match check_validity(bits.as_ref(), array.len()) {
        Ok(()) => array.set_validity(bits),
        Err(_) => return false,
    }
    lists_are(&array, &FOUR, Some(b"xabcdefghijklmy"), flags)
}

/// The four with other flags, put there by value or by reference.
pub fn four_take(alloc: Global, flags: Flags<'_>, set: bool) -> Result<bool, PolarsError> {
    let bits = bitmap(alloc, flags)?;
    let array = four(alloc)?;
    Ok(if set {
        set_is(array, bits, flags)
    } else {
        with_is(array, bits, flags)
    })
}

/// The four, taken apart and made of their lists once more.
pub fn four_again(alloc: Global) -> Result<bool, PolarsError> {
    let (views, buffers, validity) = four(alloc)?.into_lists();
    no_fault_is_sound();
    let few = buffers.len() <= 1;
    let again = BinaryViewArray::new(ArrowDataType::Unknown, views, buffers, validity);
    Ok(few && four_are_read(&again))
}

pub fn share_is(alloc: Global, array: &BinaryViewArray) -> Result<bool, PolarsError> {
    let (views, buffers, validity) = array.try_clone(alloc)?.into_lists();
    let again = BinaryViewArray::new_unchecked_unknown_md(
        ArrowDataType::Unknown,
        views,
        buffers,
        validity,
        None,
    );
    Ok(again == *array && sums_are(&again, 28, 15))
}

pub fn lengths_are(alloc: Global, array: &BinaryViewArray) -> Result<bool, PolarsError> {
    let lengths = array.variadic_buffer_lengths(alloc)?;
    Ok(lengths.len() == 1 && lengths[0] == 15)
}

pub fn views_are_handed(alloc: Global) -> Result<bool, PolarsError> {
    let views = four(alloc)?.into_views(alloc)?;
    Ok(views.len() == 4 && views[1].to_le() == FOUR[1])
}

// ---- conversions

pub fn round_is(alloc: Global, array: &Utf8ViewArray) -> Result<bool, PolarsError> {
    let strings = array.to_binview(alloc)?;
    let texts = strings.to_utf8view(alloc)?;
    Ok(
        strings.validate_utf8().is_ok()
            && lists_are(&strings, &FOUR, Some(b"xabcdefghijklmy"), None)
            && texts == *array,
    )
}

/// The same as texts without a look at them, where a look has found texts.
pub fn unchecked_is(alloc: Global) -> Result<bool, PolarsError> {
    let array = four(alloc)?;
    if array.validate_utf8().is_err() {
        return Ok(false);
    }
    let texts = array.to_utf8view_unchecked(alloc)?;
    Ok(lists_are(
        &texts,
        &FOUR,
        Some(b"xabcdefghijklmy"),
        Some(&[true, false, true, true]),
    ))
}

pub fn law_is(alloc: Global, array: &Utf8ViewArray) -> Result<bool, PolarsError> {
    Ok(array.through_binview(alloc)? == *array)
}

pub fn moved_is(array: Utf8ViewArray) -> bool {
    match array.into_binview().try_into_utf8view() {
        Ok(texts) => lists_are(&texts, &FOUR, Some(b"xabcdefghijklmy"), None),
        Err(_) => false,
    }
}

// a null slot that is no text
pub fn refused_is(alloc: Global) -> Result<bool, PolarsError> {
    let bad = [1, 0, 0, 0, 255, 0, 0, 0, 0, 0, 0, 0, 0, 0, 0, 0];
    let array = array::<BinaryKind>(alloc, &[TWELVE, bad], None, Some(&[true, false]))?;
    Ok(
        array.validate_utf8().is_err()
            && array.to_utf8view(alloc).err() == Some(PolarsError::ComputeError(Cause::InvalidUtf8))
            && back_is(array, &[TWELVE, bad], Some(&[true, false])),
    )
}

fn back_is(array: BinaryViewArray, views: &[[u8; 16]], flags: Flags<'_>) -> bool {
    match array.try_into_utf8view() {
        Ok(_) => false,
        Err((back, cause)) => cause == Cause::InvalidUtf8 && lists_are(&back, views, None, flags),
    }
}

// ---- equality

/// Whether an array of these views, this buffer and these flags equals the four.
pub fn equals_four(
    alloc: Global,
    views: &[[u8; 16]],
    buffer: &[u8],
    flags: Flags<'_>,
) -> Result<bool, PolarsError> {
    let other = array::<BinaryKind>(alloc, views, Some(buffer), flags)?;
    let array = four(alloc)?;
    Ok(array == other && other == array)
}

// ---- other views

pub fn applied_is(alloc: Global) -> Result<bool, PolarsError> {
    let array = four_texts(alloc)?;
    array.known();
    let same = array.apply_views(alloc, |view, _text| view)?;
    Ok(same == array && sums_are(&same, 28, 15))
}

pub fn kinds_are() -> bool {
    !BinaryKind::IS_UTF8 && Utf8Kind::IS_UTF8
}
