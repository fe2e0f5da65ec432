//! Validities.

use column_base::{Cause, PolarsError};
use column_checks::gives;
use column_storage::{
    Bitmap, check_validity, is_valid_at, null_count, share_validity, slice_validity,
};
use std::alloc::Global;

fn bits(alloc: Global) -> Result<Bitmap, PolarsError> {
    Bitmap::from_bools(alloc, &[true, false, true, true, false])
}

// The number of null slots of a part, or None where no validity is kept.
fn nulls_of_part(validity: Bitmap, from: usize, length: usize) -> Option<usize> {
    if from > validity.len() || length > validity.len() - from {
        return None;
    }
    let mut part = Some(validity);
    slice_validity(&mut part, from, length);
    Some(null_count(Some(&part?)))
}

pub fn part_has(
    alloc: Global,
    from: usize,
    length: usize,
    nulls: Option<usize>,
) -> Result<bool, PolarsError> {
    Ok(nulls_of_part(bits(alloc)?, from, length) == nulls)
}

pub fn set_part_has_none(alloc: Global) -> Result<bool, PolarsError> {
    Ok(nulls_of_part(Bitmap::new_with_value(alloc, true, 3)?, 0, 3).is_none())
}

pub fn none_has_no_part() -> bool {
    let mut part = None;
    slice_validity(&mut part, 3, 4);
    part.is_none() && null_count(None) == 0
}

pub fn nulls_are_counted(alloc: Global) -> Result<bool, PolarsError> {
    Ok(null_count(Some(&bits(alloc)?)) == 2)
}

// ---- the length, the flags, a share

pub fn none_is_checked(count: usize) -> bool {
    check_validity(None, count).is_ok() && is_valid_at(None, count)
}

pub fn length_is_checked(
    alloc: Global,
    count: usize,
    cause: Option<Cause>,
) -> Result<bool, PolarsError> {
    Ok(check_validity(Some(&bits(alloc)?), count).err() == cause)
}

fn flag_is(validity: &Bitmap, i: usize, wanted: bool) -> bool {
    i < validity.len() && is_valid_at(Some(validity), i) == wanted
}

fn bits_are_read(validity: &Bitmap) -> bool {
    flag_is(validity, 0, true) && flag_is(validity, 1, false) && flag_is(validity, 4, false)
}

pub fn flags_are_read(alloc: Global) -> Result<bool, PolarsError> {
    Ok(bits_are_read(&bits(alloc)?))
}

fn share_is(
    alloc: Global,
    validity: Option<&Bitmap>,
    wanted: &[bool],
) -> Result<bool, PolarsError> {
    match share_validity(alloc, validity)? {
        Some(share) => Ok(gives(share.iter(), wanted)),
        None => Ok(false),
    }
}

pub fn validity_is_shared(alloc: Global) -> Result<bool, PolarsError> {
    share_is(
        alloc,
        Some(&bits(alloc)?),
        &[true, false, true, true, false],
    )
}

pub fn none_is_shared(alloc: Global) -> Result<bool, PolarsError> {
    Ok(share_validity(alloc, None)?.is_none())
}
