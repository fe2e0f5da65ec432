//! The tests: each asserts what a check of `checks` says.

use crate::checks::{
    Call, builder_is_asked, builder_takes_flags, empty_is, flags_are_other, flags_are_turned,
    four_are_read, four_give, grown_is, grown_with_nulls_is, half_is, is_told, new_is, nulls_are,
    options_are, part_is, pop_gives, pops_give, replayed_is, replayed_with_a_null_is, room_is_made,
    rows_are_taken, rows_give, share_is, slices_are, taken_is, text_is, value_text_is,
};
use column_base::{ArrowDataType, Cause};
use column_checks::{Flags, Half};
use std::test::Fail;

#[test]
fn the_first_refusal_is_told(rt: HostRuntime) {
    let one: Flags<'_> = Some(&[true]);
    let table: [(ArrowDataType, &[bool], Flags<'_>, Option<Cause>); 5] = [
        (ArrowDataType::Boolean, &[true, false], None, None),
        (ArrowDataType::Boolean, &[true], one, None),
        (
            ArrowDataType::Boolean,
            &[],
            one,
            Some(Cause::ValidityLength),
        ),
        (
            ArrowDataType::Int8,
            &[true],
            one,
            Some(Cause::WrongDataType),
        ),
        (ArrowDataType::Int8, &[], one, Some(Cause::ValidityLength)),
    ];
    for (dtype, values, flags, cause) in table {
        assert!(rt;
            is_told(rt.alloc(), dtype, values, flags, cause),
            "{values:?}"
        );
    }
}

#[test]
fn arrays_are_made(rt: HostRuntime) -> Result<(), Fail> {
    let alloc = rt.alloc();
    assert!(rt; empty_is(alloc)? && nulls_are(alloc)? && slices_are(alloc)? && options_are(alloc)?);
    Ok(())
}

#[test]
fn slots_are_read(rt: HostRuntime) -> Result<(), Fail> {
    let alloc = rt.alloc();
    assert!(rt; four_are_read(alloc)? && four_give(alloc)?);
    assert!(rt; half_is(alloc, Half::Front, 2, &[true, true], Some(&[true, false]))?);
    assert!(rt; half_is(alloc, Half::BackUnchecked, 2, &[false, true], None)?);
    Ok(())
}

#[test]
fn arrays_are_shared(rt: HostRuntime) -> Result<(), Fail> {
    let alloc = rt.alloc();
    assert!(rt; share_is(alloc)? && new_is(alloc)? && rows_give(alloc)?);
    Ok(())
}

#[test]
fn parts_are_cut(rt: HostRuntime) -> Result<(), Fail> {
    let alloc = rt.alloc();
    let middle: Flags<'_> = Some(&[false, true]);
    assert!(rt; part_is(alloc, Call::Sliced, (1, 2), &[true, false], middle)?);
    assert!(rt; part_is(alloc, Call::SlicedUnchecked, (2, 2), &[false, true], None)?);
    assert!(rt; part_is(alloc, Call::Slice, (4, 0), &[], None)?);
    assert!(rt; part_is(alloc, Call::SliceUnchecked, (0, 1), &[true], None)?);
    Ok(())
}

#[test]
fn flags_are_changed(rt: HostRuntime) -> Result<(), Fail> {
    let alloc = rt.alloc();
    let last: Flags<'_> = Some(&[true, true, true, false]);
    assert!(rt; flags_are_other(alloc, last, true)? && flags_are_other(alloc, None, false)?);
    assert!(rt; flags_are_other(alloc, last, false)? && flags_are_other(alloc, None, true)?);
    assert!(rt; !flags_are_other(alloc, Some(&[true]), true)? && taken_is(alloc)?);
    Ok(())
}

#[test]
fn builders_are_popped(rt: HostRuntime) -> Result<(), Fail> {
    let alloc = rt.alloc();
    assert!(rt; pops_give(alloc)? && pop_gives(alloc)?);
    assert!(rt; replayed_is(alloc)? && replayed_with_a_null_is(alloc)?);
    Ok(())
}

#[test]
fn builders_are_asked(rt: HostRuntime) -> Result<(), Fail> {
    let alloc = rt.alloc();
    assert!(rt; builder_is_asked(alloc)? && rows_are_taken(alloc)? && room_is_made(alloc)?);
    Ok(())
}

#[test]
fn flags_of_builders_are_changed(rt: HostRuntime) -> Result<(), Fail> {
    let alloc = rt.alloc();
    assert!(rt; flags_are_turned(alloc, true, Some(&[false, true]))?);
    assert!(rt; flags_are_turned(alloc, false, None)?);
    assert!(rt; builder_takes_flags(alloc, Some(&[false, false]))?);
    assert!(rt; builder_takes_flags(alloc, None)? && !builder_takes_flags(alloc, Some(&[true]))?);
    Ok(())
}

#[test]
fn builders_freeze(rt: HostRuntime) -> Result<(), Fail> {
    assert!(rt; grown_is(rt.alloc())? && grown_with_nulls_is(rt.alloc())?);
    Ok(())
}

#[test]
fn texts_are_printed(rt: HostRuntime) -> Result<(), Fail> {
    assert!(rt; text_is(rt.alloc())? && value_text_is(rt.alloc())?);
    Ok(())
}
