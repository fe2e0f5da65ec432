//! The tests: each asserts what a check of `checks` says.

use crate::cases::{TWO, four, pair};
use crate::checks::{
    Call, both_are, builder_is_asked, builder_is_told, builder_of_arrays_is, builder_of_rows_is,
    builder_takes_flags, empty_is, flags_are_other, flags_are_turned, four_are_again,
    four_are_read, giant_null_is_refused, half_is, is_told, kept_part_is, nulls_are, options_are,
    pair_gives, pair_is, pair_is_built_again, pair_is_cut, pair_is_read, part_is, pops_give,
    pushes_are_replayed, replayed_is, room_is_made, row_before_the_refused_stays, row_is_pushed,
    rows_are, rows_are_compared, rows_are_taken, rows_give, rows_give_back, share_is, slices_are,
    taken_is, three_are_refused, values_give, width_is_told, wrong_push_is_not_replayed,
    wrong_row_is_refused, wrong_rows_are_refused,
};
use column_base::{ArrowDataType, Cause};
use column_checks::{Flags, Half};
use std::test::Fail;

#[test]
fn the_first_refusal_is_told(rt: HostRuntime) {
    let one: Flags<'_> = Some(&[true]);
    let wide = ArrowDataType::FixedSizeBinary(usize::MAX);
    let none = ArrowDataType::FixedSizeBinary(0);
    let table: [(
        ArrowDataType,
        &[u8],
        Flags<'_>,
        Result<(usize, usize), Cause>,
    ); 9] = [
        (TWO, b"abcd", None, Ok((2, 2))),
        (TWO, b"ab", one, Ok((2, 1))),
        (wide, b"", None, Ok((usize::MAX, 0))),
        (wide, b"a", None, Err(Cause::NotMultiple)),
        (
            ArrowDataType::Binary,
            b"abc",
            one,
            Err(Cause::WrongDataType),
        ),
        (none, b"abc", one, Err(Cause::SizeZero)),
        (none, b"", None, Err(Cause::SizeZero)),
        (TWO, b"abc", None, Err(Cause::NotMultiple)),
        (TWO, b"abcd", one, Err(Cause::ValidityLength)),
    ];
    for (dtype, values, flags, wanted) in table {
        assert!(rt;
            is_told(rt.alloc(), dtype, values, flags, wanted),
            "{values:?}"
        );
    }
}

#[test]
fn arrays_are_made(rt: HostRuntime) -> Result<(), Fail> {
    let alloc = rt.alloc();
    assert!(rt; empty_is(alloc)? && nulls_are(alloc)? && slices_are(alloc)?);
    assert!(rt; options_are(alloc)? && rows_are(alloc)? && wrong_rows_are_refused(alloc));
    Ok(())
}

#[test]
fn slots_are_read(rt: HostRuntime) -> Result<(), Fail> {
    assert!(rt; four_are_read(rt.alloc())?);
    let array = four(rt.alloc())?;
    assert!(rt; rows_give(&array) && values_give(&array));
    Ok(())
}

#[test]
fn parts_are_cut_at_slots(rt: HostRuntime) -> Result<(), Fail> {
    let alloc = rt.alloc();
    assert!(rt;
        part_is(alloc, 0, 1, b"ab", None)? && part_is(alloc, 1, 2, b"xycd", Some(&[false, true]))?
    );
    assert!(rt; half_is(alloc, Half::Front, 2, b"abxy", Some(&[true, false]), 2)?);
    assert!(rt; half_is(alloc, Half::BackUnchecked, 3, b"ef", None, 1)?);
    Ok(())
}

#[test]
fn rows_are_pushed(rt: HostRuntime) -> Result<(), Fail> {
    let alloc = rt.alloc();
    assert!(rt; pair_is(alloc)? && three_are_refused(alloc)? && pops_give(alloc)?);
    assert!(rt; pair_is_cut(alloc, Half::Front)? && pair_is_cut(alloc, Half::Back)?);
    Ok(())
}

#[test]
fn builders_are_changed(rt: HostRuntime) -> Result<(), Fail> {
    let alloc = rt.alloc();
    assert!(rt; both_are(alloc)? && rows_are_compared(alloc)?);
    let builder = pair(alloc)?;
    assert!(rt; pair_gives(&builder) && giant_null_is_refused(alloc));
    assert!(rt; replayed_is(alloc)? && room_is_made(alloc)?);
    Ok(())
}

#[test]
fn the_first_refusal_of_a_builder_is_told(rt: HostRuntime) {
    let alloc = rt.alloc();
    let one: Flags<'_> = Some(&[true]);
    let none = ArrowDataType::FixedSizeBinary(0);
    assert!(rt; builder_is_told(alloc, TWO, b"ab", one, Ok(1)));
    assert!(rt; builder_is_told(alloc, none, b"abc", one, Err(Cause::SizeZero)));
    assert!(rt; builder_is_told(alloc, TWO, b"abc", one, Err(Cause::NotMultiple)));
    assert!(rt; builder_is_told(alloc, TWO, b"abcd", one, Err(Cause::ValidityLength)));
    assert!(rt;
        builder_is_told(
            alloc,
            ArrowDataType::Utf8,
            b"abc",
            one,
            Err(Cause::WrongDataType)
        )
    );
}

#[test]
fn parts_are_kept(rt: HostRuntime) -> Result<(), Fail> {
    let alloc = rt.alloc();
    let front: Flags<'_> = Some(&[true, false]);
    assert!(rt; kept_part_is(alloc, Call::SlicedUnchecked, (0, 2), b"abxy", front)?);
    assert!(rt; kept_part_is(alloc, Call::Slice, (2, 2), b"cdef", None)?);
    assert!(rt; kept_part_is(alloc, Call::SliceUnchecked, (4, 0), b"", None)?);
    Ok(())
}

#[test]
fn arrays_are_shared(rt: HostRuntime) -> Result<(), Fail> {
    let alloc = rt.alloc();
    assert!(rt; share_is(alloc)? && four_are_again(alloc)?);
    assert!(rt; width_is_told(alloc)? && rows_give_back(alloc)?);
    Ok(())
}

#[test]
fn flags_are_changed(rt: HostRuntime) -> Result<(), Fail> {
    let alloc = rt.alloc();
    let last: Flags<'_> = Some(&[true, true, true, false]);
    assert!(rt; flags_are_other(alloc, last, true)? && flags_are_other(alloc, None, false)?);
    assert!(rt; flags_are_other(alloc, last, false)? && flags_are_other(alloc, None, true)?);
    assert!(rt; !flags_are_other(alloc, Some(&[true]), true)? && taken_is(alloc)?);
    Ok(())
}

#[test]
fn builders_are_made_of_rows(rt: HostRuntime) -> Result<(), Fail> {
    let alloc = rt.alloc();
    assert!(rt; builder_of_arrays_is(alloc)? && builder_of_rows_is(alloc)?);
    assert!(rt; row_is_pushed(alloc)? && wrong_row_is_refused(alloc));
    assert!(rt; pair_is_built_again(alloc)?);
    let builder = pair(alloc)?;
    assert!(rt; pair_is_read(&builder));
    Ok(())
}

#[test]
fn flags_of_builders_are_changed(rt: HostRuntime) -> Result<(), Fail> {
    let alloc = rt.alloc();
    assert!(rt; flags_are_turned(alloc, Some(&[true, false]), Some(&[false, true]))?);
    assert!(rt; flags_are_turned(alloc, None, None)?);
    assert!(rt; builder_takes_flags(alloc, Some(&[false, false]))?);
    assert!(rt; builder_takes_flags(alloc, None)? && !builder_takes_flags(alloc, Some(&[true]))?);
    Ok(())
}

#[test]
fn builders_are_asked(rt: HostRuntime) -> Result<(), Fail> {
    let alloc = rt.alloc();
    assert!(rt; builder_is_asked(alloc)? && rows_are_taken(alloc)?);
    assert!(rt; row_before_the_refused_stays(alloc));
    assert!(rt; pushes_are_replayed(alloc)? && wrong_push_is_not_replayed(alloc)?);
    Ok(())
}
