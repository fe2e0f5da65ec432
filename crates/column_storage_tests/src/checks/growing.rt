//! Validities that grow, and bits that take others.

use column_base::{Cause, PolarsError, TryExtend, TryExtendFromSelf, TryPush};
use column_checks::{Flags, gives, grown_flags_are};
use column_storage::{
    MutableBitmap, add_flags, apply_flags, check_flags, clone_flags, extend_constant_flags,
    flag_at, flags_into_mut, freeze_flags, pop_flag, push_null_flag, push_valid_flag,
    reserve_flags, room_for_flags, set_flag, shrink_flags, truncate_flags,
};
use std::alloc::Global;

// ---- validities

fn add(
    alloc: Global,
    validity: &mut Option<MutableBitmap>,
    count: usize,
    flag: bool,
) -> Result<(), PolarsError> {
    if !flag {
        return push_null_flag(alloc, validity, count);
    }
    reserve_flags(validity, 1)?;
    push_valid_flag(validity);
    Ok(())
}

// The validity of slots that were pushed one after another.
fn pushed(alloc: Global, flags: &[bool]) -> Result<Option<MutableBitmap>, PolarsError> {
    let mut validity = None;
    for (count, flag) in flags.iter().enumerate() {
        add(alloc, &mut validity, count, *flag)?;
    }
    Ok(validity)
}

pub fn pushes_leave(alloc: Global, flags: &[bool], wanted: Flags<'_>) -> Result<bool, PolarsError> {
    Ok(grown_flags_are(pushed(alloc, flags)?.as_ref(), wanted))
}

pub fn pop_leaves(alloc: Global, flags: &[bool], wanted: Flags<'_>) -> Result<bool, PolarsError> {
    let mut validity = pushed(alloc, flags)?;
    pop_flag(&mut validity);
    Ok(grown_flags_are(validity.as_ref(), wanted))
}

pub fn cut_leaves(
    alloc: Global,
    flags: &[bool],
    count: usize,
    wanted: Flags<'_>,
) -> Result<bool, PolarsError> {
    let mut validity = pushed(alloc, flags)?;
    truncate_flags(&mut validity, count);
    shrink_flags(&mut validity);
    Ok(grown_flags_are(validity.as_ref(), wanted))
}

pub fn constant_leaves(
    alloc: Global,
    flags: &[bool],
    added: usize,
    flag: bool,
    wanted: Flags<'_>,
) -> Result<bool, PolarsError> {
    let mut validity = pushed(alloc, flags)?;
    extend_constant_flags(alloc, &mut validity, flags.len(), added, flag)?;
    Ok(grown_flags_are(validity.as_ref(), wanted))
}

pub fn set_leaves(
    alloc: Global,
    flags: &[bool],
    index: usize,
    flag: bool,
    wanted: Flags<'_>,
) -> Result<bool, PolarsError> {
    let mut validity = pushed(alloc, flags)?;
    if check_flags(validity.as_ref(), flags.len()).is_err() || index >= flags.len() {
        return Ok(false);
    }
    set_flag(alloc, &mut validity, flags.len(), index, flag)?;
    Ok(grown_flags_are(validity.as_ref(), wanted))
}

// The flags of `count` slots, and after them those of `added` others.
fn join(
    alloc: Global,
    validity: &mut Option<MutableBitmap>,
    count: usize,
    others: Option<&MutableBitmap>,
    added: usize,
) -> Result<bool, PolarsError> {
    if check_flags(others, added).is_err() {
        return Ok(false);
    }
    let made = room_for_flags(alloc, validity, count, added, others.is_some())?;
    add_flags(validity, made, others, added);
    Ok(true)
}

fn joined_are(
    alloc: Global,
    flags: &[bool],
    others: Option<&MutableBitmap>,
    added: usize,
    wanted: Flags<'_>,
) -> Result<bool, PolarsError> {
    let mut validity = pushed(alloc, flags)?;
    Ok(
        join(alloc, &mut validity, flags.len(), others, added)?
            && grown_flags_are(validity.as_ref(), wanted),
    )
}

pub fn both_leave(
    alloc: Global,
    flags: &[bool],
    others: &[bool],
    wanted: Flags<'_>,
) -> Result<bool, PolarsError> {
    let validity = pushed(alloc, others)?;
    joined_are(alloc, flags, validity.as_ref(), others.len(), wanted)
}

// ---- what is read of them

fn flag_is(validity: Option<&MutableBitmap>, count: usize, i: usize, wanted: bool) -> bool {
    i < count && check_flags(validity, count).is_ok() && flag_at(validity, i) == wanted
}

fn two_are_read(validity: Option<&MutableBitmap>) -> bool {
    flag_is(validity, 2, 0, true)
        && flag_is(validity, 2, 1, false)
        && flag_is(None, 2, 1, true)
        && check_flags(validity, 3).err() == Some(Cause::ValidityLength)
}

pub fn flags_are_read(alloc: Global) -> Result<bool, PolarsError> {
    Ok(two_are_read(pushed(alloc, &[true, false])?.as_ref()))
}

fn copy_is(validity: Option<&MutableBitmap>, wanted: Flags<'_>) -> Result<bool, PolarsError> {
    Ok(grown_flags_are(clone_flags(validity)?.as_ref(), wanted))
}

pub fn flags_are_copied(alloc: Global) -> Result<bool, PolarsError> {
    copy_is(
        pushed(alloc, &[true, false])?.as_ref(),
        Some(&[true, false]),
    )
}

pub fn none_is_copied() -> Result<bool, PolarsError> {
    copy_is(None, None)
}

// The first flags, frozen, and changed into ones that grow.
pub fn frozen_are(
    alloc: Global,
    flags: &[bool],
    count: usize,
    wanted: Flags<'_>,
) -> Result<bool, PolarsError> {
    let mut validity = pushed(alloc, flags)?;
    truncate_flags(&mut validity, count);
    let frozen = freeze_flags(validity)?;
    Ok(grown_flags_are(flags_into_mut(alloc, frozen)?.as_ref(), wanted))
}

fn without_nulls(bits: MutableBitmap) -> MutableBitmap {
    let mut bits = bits;
    for i in 0..bits.len() {
        if i < bits.len() {
            bits.set(i, true);
        }
    }
    bits
}

pub fn changed_are(alloc: Global, flags: &[bool], wanted: Flags<'_>) -> Result<bool, PolarsError> {
    let mut validity = pushed(alloc, flags)?;
    apply_flags(&mut validity, without_nulls);
    Ok(grown_flags_are(validity.as_ref(), wanted))
}

// ---- bits

fn joined<B: TryExtendFromSelf>(builder: &mut B, other: &B) -> bool
    requires { B.fits (B.lists builder.old) (B.lists other.now) }
{
    builder.try_extend_from_self(other).is_ok()
}

fn twice_are(bits: &mut MutableBitmap, other: &MutableBitmap, wanted: &[bool]) -> bool {
    joined(bits, other) && bits.try_extend_from_self(other).is_ok() && gives(bits.iter(), wanted)
}

fn bits_take(alloc: Global, other: &MutableBitmap) -> Result<bool, PolarsError> {
    let mut bits = MutableBitmap::from_len_set(alloc, 1)?;
    Ok(
        bits.try_push(false).is_ok()
            && twice_are(&mut bits, other, &[true, false, true, true, true, true]),
    )
}

pub fn bits_are_joined(alloc: Global) -> Result<bool, PolarsError> {
    bits_take(alloc, &MutableBitmap::from_len_set(alloc, 2)?)
}

fn three_are_cut(bits: &mut MutableBitmap) -> bool {
    let is_added = bits.try_extend([true, false, true]).is_ok();
    bits.truncate(2);
    is_added
}

pub fn bits_are_cut(alloc: Global) -> Result<bool, PolarsError> {
    let mut bits = MutableBitmap::with_capacity(alloc, 3)?;
    Ok(three_are_cut(&mut bits) && bits.capacity() >= 3 && gives(bits.iter(), &[true, false]))
}
