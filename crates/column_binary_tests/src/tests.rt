//! The tests: each asserts what a check of `checks` says.

use crate::cases::{four, four_large};
use crate::checks::{
    Call, bounds_are, empty_is, four_are_read, four_are_shared, four_cut, four_give,
    four_large_are_read, four_large_are_shared, four_large_cut, four_set, four_with, has_row,
    is_told, iterators_end, large_rows_are, large_values_are, no_nulls_are, none_of_none_is,
    nulls_are, raw_is_told, rows_are, slices_follow, taken_is, values_are,
};
use column_base::{ArrowDataType, Cause};
use column_binary::{
    flags_of_slice, same_lists_same_slots, slice_is_part, slices_are_one, slot_of_slice,
    slots_are_counted, split_is_whole,
};
use column_checks::{Flags, Half};
use std::test::Fail;

const ALL: Flags<'static> = Some(&[true, false, true, true]);

// ---- constructors

#[test]
fn the_first_refusal_is_told(rt: HostRuntime) {
    let (binary, large) = (ArrowDataType::Binary, ArrowDataType::LargeBinary);
    let exceeds = Some(Cause::OffsetsExceedValues);
    let length = Some(Cause::ValidityLength);
    let one: Flags<'_> = Some(&[true]);
    let two: Flags<'_> = Some(&[false, true]);
    let three: Flags<'_> = Some(&[true, false, true]);
    // two slots that end at byte 3, in the data type of their width or of the other
    let table: [(&[u8], Flags<'_>, bool, Option<Cause>); 11] = [
        (b"abc", None, true, None),
        (b"abcd", two, true, None),
        (b"ab", None, true, exceeds),
        (b"", two, true, exceeds),
        (b"abc", one, true, length),
        (b"abc", three, true, length),
        (b"abc", two, false, Some(Cause::WrongDataType)),
        (b"ab", one, true, exceeds),
        (b"ab", two, false, exceeds),
        (b"abc", three, false, length),
        (b"ab", three, false, exceeds),
    ];
    for (values, flags, own, cause) in table {
        let (small, wide) = if own {
            (binary, large)
        } else {
            (large, binary)
        };
        assert!(rt;
            is_told::<i32>(rt.alloc(), &[0, 1, 3], values, flags, small, cause)
                && is_told::<i64>(rt.alloc(), &[0, 1, 3], values, flags, wide, cause),
            "{values:?}"
        );
    }
}

#[test]
fn no_other_data_type_is_taken(rt: HostRuntime) {
    let wrong = Some(Cause::WrongDataType);
    for dtype in [
        ArrowDataType::Utf8,
        ArrowDataType::LargeUtf8,
        ArrowDataType::BinaryView,
        ArrowDataType::Utf8View,
        ArrowDataType::FixedSizeBinary(1),
        ArrowDataType::Boolean,
        ArrowDataType::UInt8,
        ArrowDataType::Unknown,
    ] {
        assert!(rt;
            is_told::<i32>(rt.alloc(), &[0, 1], b"a", None, dtype, wrong)
                && is_told::<i64>(rt.alloc(), &[0, 1], b"a", None, dtype, wrong),
            "{dtype:?}"
        );
    }
}

#[test]
fn the_first_fault_of_raw_lists_is_told(rt: HostRuntime) -> Result<(), Fail> {
    let one: Flags<'_> = Some(&[true]);
    // over three bytes
    let table: [(&[i32], Flags<'_>, Option<Cause>); 11] = [
        (&[0], None, None),
        (&[0, 0], None, None),
        (&[1, 3], one, None),
        (&[], one, Some(Cause::OffsetsEmpty)),
        (&[-1, 0], None, Some(Cause::OffsetsNegative)),
        (&[-1, -2, 4], one, Some(Cause::OffsetsNegative)),
        (&[0, 2, 1], one, Some(Cause::OffsetsNotMonotone)),
        (&[0, 5, 4], one, Some(Cause::OffsetsNotMonotone)),
        (&[0, 2, 4], one, Some(Cause::OffsetsExceedValues)),
        (&[0, 2, 3], one, Some(Cause::ValidityLength)),
        (&[0], one, Some(Cause::ValidityLength)),
    ];
    for (offsets, flags, cause) in table {
        assert!(rt;
            raw_is_told(rt.alloc(), offsets, flags, cause)?,
            "{offsets:?}"
        );
    }
    Ok(())
}

#[test]
fn the_first_fault_of_large_raw_lists_is_told(rt: HostRuntime) -> Result<(), Fail> {
    // over three bytes
    let table: [(&[i64], Option<Cause>); 5] = [
        (&[1, 3], None),
        (&[], Some(Cause::OffsetsEmpty)),
        (&[-1, -2, 4], Some(Cause::OffsetsNegative)),
        (&[0, 5_000_000_000, 4], Some(Cause::OffsetsNotMonotone)),
        (&[0, 5_000_000_000], Some(Cause::OffsetsExceedValues)),
    ];
    for (offsets, cause) in table {
        assert!(rt;
            raw_is_told(rt.alloc(), offsets, None, cause)?,
            "{offsets:?}"
        );
    }
    Ok(())
}

#[test]
fn arrays_without_bytes(rt: HostRuntime) -> Result<(), Fail> {
    assert!(rt; empty_is(rt.alloc())?);
    assert!(rt; no_nulls_are(rt.alloc())?);
    assert!(rt; nulls_are(rt.alloc())?);
    Ok(())
}

// ---- readers and iterators

#[test]
fn four_slots_are_read(rt: HostRuntime) -> Result<(), Fail> {
    let array = four(rt.alloc())?;
    assert!(rt; four_are_read(&array));
    assert!(rt; rows_are(&array) && values_are(&array) && iterators_end(&array));
    assert!(rt;
        has_row(&array, Some(b"de")) && has_row(&array, None) && !has_row(&array, Some(b"c"))
    );
    Ok(())
}

#[test]
fn four_large_slots_are_read(rt: HostRuntime) -> Result<(), Fail> {
    let array = four_large(rt.alloc())?;
    assert!(rt; four_large_are_read(&array) && bounds_are(&array));
    assert!(rt; large_rows_are(&array) && large_values_are(&array));
    Ok(())
}

// ---- parts

#[test]
fn the_slices_share_their_bytes(rt: HostRuntime) -> Result<(), Fail> {
    let table: [((usize, usize), &[i32], Flags<'_>); 7] = [
        ((0, 4), &[1, 3, 4, 4, 6], ALL),
        ((1, 3), &[3, 4, 4, 6], Some(&[false, true, true])),
        ((1, 1), &[3, 4], Some(&[false])),
        ((0, 1), &[1, 3], None),
        ((2, 2), &[4, 4, 6], None),
        ((4, 0), &[6], None),
        ((1, 0), &[3], None),
    ];
    for (range, offsets, flags) in table {
        for call in [
            Call::Sliced,
            Call::SlicedUnchecked,
            Call::Slice,
            Call::SliceUnchecked,
        ] {
            assert!(rt;
                four_give(rt.alloc(), call, range, offsets, flags)?,
                "{range:?} {call:?}"
            );
        }
    }
    Ok(())
}

#[test]
fn slices_follow_one_another(rt: HostRuntime) -> Result<(), Fail> {
    assert!(rt; slices_follow(rt.alloc())?);
    assert!(rt; none_of_none_is(rt.alloc())?);
    slots_are_counted();
    same_lists_same_slots();
    flags_of_slice();
    slice_is_part();
    slot_of_slice();
    slices_are_one();
    split_is_whole();
    Ok(())
}

#[test]
fn a_list_that_can_be_cut_is_cut(rt: HostRuntime) -> Result<(), Fail> {
    let table: [((Half, usize), &[i32], Flags<'_>); 4] = [
        ((Half::Front, 2), &[1, 3, 4], Some(&[true, false])),
        ((Half::Back, 2), &[4, 4, 6], None),
        ((Half::FrontUnchecked, 1), &[1, 3], None),
        (
            (Half::BackUnchecked, 1),
            &[3, 4, 4, 6],
            Some(&[false, true, true]),
        ),
    ];
    for (half, offsets, flags) in table {
        assert!(rt; four_cut(rt.alloc(), half, offsets, flags)?, "{half:?}");
    }
    Ok(())
}

#[test]
fn arrays_are_cut_at_their_ends(rt: HostRuntime) -> Result<(), Fail> {
    let table: [((Half, usize), &[i64]); 4] = [
        ((Half::Front, 4), &[1, 3, 4, 4, 6]),
        ((Half::Back, 4), &[6]),
        ((Half::FrontUnchecked, 0), &[1]),
        ((Half::BackUnchecked, 0), &[1, 3, 4, 4, 6]),
    ];
    for (half, offsets) in table {
        assert!(rt; four_large_cut(rt.alloc(), half, offsets)?, "{half:?}");
    }
    Ok(())
}

#[test]
fn lists_are_shared_and_handed_back(rt: HostRuntime) -> Result<(), Fail> {
    assert!(rt; four_are_shared(rt.alloc(), ALL)?);
    assert!(rt; four_large_are_shared(rt.alloc())?);
    Ok(())
}

// ---- other flags

#[test]
fn other_flags_stand_beside_the_same_bytes(rt: HostRuntime) -> Result<(), Fail> {
    let table: [Flags<'_>; 3] = [Some(&[false; 4]), Some(&[true; 4]), None];
    for flags in table {
        assert!(rt; four_with(rt.alloc(), flags)? && four_set(rt.alloc(), flags)?);
    }
    assert!(rt; taken_is(four(rt.alloc())?, ALL));
    Ok(())
}
