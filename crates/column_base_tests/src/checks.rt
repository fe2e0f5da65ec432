//! What single values are seen to be: one truth value for each group of calls, and no assertion.

ghost use Rattle.column_base.specs.Utf8.{CanHold};

use column_base::{
    ArrowDataType, BinaryKind, Cause, NativeType, Offset, PhysicalType, PolarsError, PrimitiveType,
    Utf8Kind, ViewKind, ViewOwned, ViewType, days_ms, is_utf8, months_days_ns, str_of,
};
use std::alloc::Global;

// ---- causes and errors

pub fn cause_is(cause: Cause, name: &[u8], is_out_of_bounds: bool) -> bool {
    let error = if is_out_of_bounds {
        PolarsError::OutOfBounds(cause)
    } else {
        PolarsError::ComputeError(cause)
    };
    cause.name().as_bytes() == name && PolarsError::from(cause) == error
}

// ---- data types

pub fn lies_in(dtype: ArrowDataType, physical: PhysicalType) -> bool {
    dtype.to_physical_type() == physical && dtype.to_logical_type() == dtype
}

// ---- numbers, through their bounds

// a number has these bytes, then zeros, and is read back from them
pub fn bytes_are<T: NativeType>(number: T, wanted: &[u8]) -> bool {
    let mut bytes = [0; 16];
    if wanted.len() > 16 {
        return false;
    }
    bytes[..wanted.len()].copy_from_slice(wanted);
    number.known();
    T::SIZE == wanted.len() && number.to_le16() == bytes && T::from_le16(bytes) == number
}

// a type's least number, its zero and its greatest number
pub fn ends_are<T: NativeType>(
    primitive: PrimitiveType,
    least: (T, &[u8]),
    zero: (T, &[u8]),
    greatest: (T, &[u8]),
) -> bool {
    T::PRIMITIVE == primitive
        && T::zero() == zero.0
        && bytes_are(least.0, least.1)
        && bytes_are(zero.0, zero.1)
        && bytes_are(greatest.0, greatest.1)
}

pub fn days_are(interval: days_ms, days: i32, milliseconds: i32) -> bool {
    interval.days() == days && interval.milliseconds() == milliseconds
}

pub fn months_are(interval: months_days_ns, months: i32, days: i32, ns: i64) -> bool {
    interval.months() == months && interval.days() == days && interval.ns() == ns
}

// the greatest offset is one, what is past it is none, and so is its sum with 1
pub fn ends_at<O: Offset>(greatest: usize, past: usize) -> bool {
    O::GREATEST == greatest && O::from_usize(past).is_none() && sums_end::<O>()
}

fn sums_end<O: Offset>() -> bool {
    let greatest = O::from_as_usize(O::GREATEST);
    O::from_usize(O::GREATEST) == Some(greatest)
        && greatest.checked_add(&O::zero()) == Some(greatest)
        && greatest.checked_add(&O::from_as_usize(1)).is_none()
}

pub fn place_is<O: Offset>(place: usize) -> bool {
    match O::from_usize(place) {
        Some(offset) => offset >= O::zero() && offset.to_usize() == place,
        None => false,
    }
}

// ---- texts

pub fn text_is(bytes: &[u8], wanted: bool) -> bool {
    is_utf8(bytes) == wanted && (!wanted || is_read(bytes))
}

fn is_read(bytes: &[u8]) -> bool {
    is_utf8(bytes) && str_of(bytes).as_bytes() == bytes
}

// both parts of a cut are UTF-8
pub fn cut_is(bytes: &[u8], place: usize, wanted: bool) -> bool {
    place <= bytes.len() && (is_utf8(&bytes[..place]) && is_utf8(&bytes[place..])) == wanted
}

// ---- kinds of views, through their bounds

pub fn kind_is<K: ViewKind>(is_utf8: bool, dtype: ArrowDataType) -> bool {
    K::IS_UTF8 == is_utf8 && K::DATA_TYPE == dtype
}

// bytes are a value of the kind, whose bytes they are, or none
pub fn kind_takes<'a, K: ViewType<'a>>(bytes: &'a [u8], wanted: bool) -> bool {
    match K::from_bytes(bytes) {
        Some(item) => wanted && K::to_bytes(item) == bytes && is_taken::<K>(bytes),
        None => !wanted,
    }
}

fn is_taken<'a, K: ViewType<'a>>(bytes: &'a [u8]) -> bool
    requires { CanHold K.IS_UTF8 bytes.now }
{
    K::to_bytes(K::from_bytes_unchecked(bytes)) == bytes && K::dtype() == K::DATA_TYPE
}

pub fn bytes_are_copied(alloc: Global, bytes: &[u8]) -> Result<bool, PolarsError> {
    Ok(BinaryKind::into_owned(alloc, bytes)?.as_slice() == bytes)
}

pub fn text_is_copied(alloc: Global, text: &str) -> Result<bool, PolarsError> {
    Ok(Utf8Kind::into_owned(alloc, text)?.as_str() == text)
}
