//! The tests: each asserts what a check of `checks` says.

use crate::cases::{FOUR, four, lists_of};
use crate::checks::{
    Call, applied_is, are_told, dtype_is_refused, empty_is, four_are_put_together, four_are_read,
    four_are_shared, four_cut, four_give, four_large_are_read, into_binary_is, no_nulls_are,
    nulls_are, raw_are_told, set_is, slice_is_converted, slices_follow, taken_is, with_is,
};
use column_base::{ArrowDataType, Cause};
use column_checks::{Flags, Half};
use std::test::Fail;

// ---- constructors

#[test]
fn texts_are_told_by_their_slots(rt: HostRuntime) {
    let one: Flags<'_> = Some(&[true]);
    let two: Flags<'_> = Some(&[true, false]);
    let nulls: Flags<'_> = Some(&[false, false]);
    let three: Flags<'_> = Some(&[true, false, true]);
    let exceeds = Some(Cause::OffsetsExceedValues);
    let (invalid, boundary) = (Some(Cause::InvalidUtf8), Some(Cause::CharBoundary));
    let table: [(&[usize], &[u8], Option<&[bool]>, Option<Cause>); 20] = [
        (&[0, 1, 3], b"a\xC3\xA9", None, None),
        (&[0, 1, 3], b"a\xC3\xA9", two, None),
        // bytes that no slot has
        (&[1, 2], b"\xFFa\xFF", None, None),
        (&[0, 1, 2], b"ab\xFF", None, None),
        (&[1, 3], b"\x80\xC3\xA9\x80", one, None),
        (&[1, 1], b"\xC3\xFF", None, None),
        (&[1], b"\xC3\xA9", None, None),
        (&[2], b"\xFF\xFF", None, None),
        // past the values
        (&[0, 1, 3], b"a\xC3", None, exceeds),
        (&[5], b"abc", None, exceeds),
        (&[1], b"", None, exceeds),
        // no UTF-8 end to end
        (&[0, 1, 2], b"a\xC3\xA9", None, invalid),
        (&[0, 2], b"\xC3\x28", None, invalid),
        (&[0, 1, 2], b"a\xFF", two, invalid),
        (&[0, 1, 2], b"\xFF\xFF", nulls, invalid),
        (
            &[0, 4, 5, 7],
            b"a\xE2\x82\xAC\xF0\x9F\x98\x80",
            three,
            invalid,
        ),
        // cut inside a character
        (&[0, 1, 2], b"\xC3\xA9", None, boundary),
        (&[0, 1, 2], b"\xC3\xA9", nulls, boundary),
        (&[1, 2, 3], b"\x80\xC3\xA9\x80", two, boundary),
        (
            &[0, 4, 5, 8],
            b"a\xE2\x82\xAC\xF0\x9F\x98\x80",
            three,
            boundary,
        ),
    ];
    for (offsets, values, flags, cause) in table {
        let lists = lists_of(offsets, values, flags);
        assert!(rt; are_told(rt.alloc(), lists, true, cause), "{values:?}");
    }
}

#[test]
fn the_first_refusal_is_told(rt: HostRuntime) {
    let one: Flags<'_> = Some(&[true]);
    let two: Flags<'_> = Some(&[true, false]);
    let three: Flags<'_> = Some(&[true, false, true]);
    let (exceeds, length) = (Cause::OffsetsExceedValues, Cause::ValidityLength);
    let (invalid, boundary) = (Cause::InvalidUtf8, Cause::CharBoundary);
    let dtype = Cause::WrongDataType;
    // the lists, whether the data type is the one of texts of that width, and the cause
    let table: [(&[usize], &[u8], Option<&[bool]>, bool, Cause); 17] = [
        (&[0, 1, 3], b"a\xC3\xA9", one, true, length),
        (&[0, 1, 3], b"a\xC3\xA9", three, true, length),
        (&[0], b"", one, true, length),
        (&[0, 1, 3], b"a\xC3\xA9", two, false, dtype),
        // two faults and more
        (&[0, 1, 3], b"\xFF\xFF", None, true, exceeds),
        (&[0, 1, 2, 9], b"\xC3\xA9", None, true, exceeds),
        (&[0, 1, 3], b"ab", one, true, exceeds),
        (&[0, 1, 3], b"ab", two, false, exceeds),
        (&[0, 1, 2], b"\xFF", three, false, exceeds),
        (&[0, 2, 3], b"\xC3\xA9\xA9", None, true, invalid),
        (&[0, 1, 2], b"a\xFF", one, true, invalid),
        (&[0, 1, 2], b"a\xFF", two, false, invalid),
        (&[0, 1, 2], b"\xFF\xFF", three, false, invalid),
        (&[0, 1, 2], b"\xC3\xA9", three, true, boundary),
        (&[0, 1, 2], b"\xC3\xA9", two, false, boundary),
        (&[0, 1, 2], b"\xC3\xA9", one, false, boundary),
        (&[0, 1, 2], b"ab", three, false, length),
    ];
    for (offsets, values, flags, is_own, cause) in table {
        let lists = lists_of(offsets, values, flags);
        assert!(rt;
            are_told(rt.alloc(), lists, is_own, Some(cause)),
            "{values:?}"
        );
    }
}

#[test]
fn sequences_are_those_of_the_standard(rt: HostRuntime) {
    let two: Flags<'_> = Some(&[true, false]);
    let table: [(&[u8], bool); 30] = [
        (b"", true),
        (b"\x00\x7F", true),
        (b"\xC2\x80", true),
        (b"\xDF\xBF", true),
        (b"\xE0\xA0\x80", true),
        (b"\xED\x9F\xBF", true),
        (b"\xEE\x80\x80", true),
        (b"\xEF\xBF\xBF", true),
        (b"\xF0\x90\x80\x80", true),
        (b"\xF4\x8F\xBF\xBF", true),
        // by itself, or without its end
        (b"\x80", false),
        (b"\xBF", false),
        (b"\xC2", false),
        (b"\xE2\x82", false),
        (b"\xF0\x9F\x98", false),
        (b"\xC2\x80\x80", false),
        (b"\xE2\x82a", false),
        // overlong
        (b"\xC0\x80", false),
        (b"\xC1\xBF", false),
        (b"\xE0\x80\x80", false),
        (b"\xE0\x9F\xBF", false),
        (b"\xF0\x80\x80\x80", false),
        (b"\xF0\x8F\xBF\xBF", false),
        // surrogates
        (b"\xED\xA0\x80", false),
        (b"\xED\xBF\xBF", false),
        (b"\xED\xA0\xBD\xED\xB8\x80", false),
        // past the last code point
        (b"\xF4\x90\x80\x80", false),
        (b"\xF5\x80\x80\x80", false),
        (b"\xFE", false),
        (b"\xFF", false),
    ];
    for (values, is_text) in table {
        let offsets = [0, 0, values.len()];
        let cause = if is_text {
            None
        } else {
            Some(Cause::InvalidUtf8)
        };
        assert!(rt;
            are_told(rt.alloc(), lists_of(&offsets, values, two), true, cause),
            "{values:?}"
        );
    }
}

#[test]
fn no_other_data_type_is_taken(rt: HostRuntime) {
    for dtype in [
        ArrowDataType::Binary,
        ArrowDataType::LargeBinary,
        ArrowDataType::BinaryView,
        ArrowDataType::Utf8View,
        ArrowDataType::FixedSizeBinary(1),
        ArrowDataType::Boolean,
        ArrowDataType::UInt8,
        ArrowDataType::Unknown,
    ] {
        assert!(rt; dtype_is_refused(rt.alloc(), dtype), "{dtype:?}");
    }
}

#[test]
fn the_first_fault_of_raw_lists_is_told(rt: HostRuntime) -> Result<(), Fail> {
    let one: Flags<'_> = Some(&[true]);
    let table: [(&[usize], &[u8], Flags<'_>, Option<Cause>); 8] = [
        (&[1, 3], b"\x80\xC3\xA9\x80", one, None),
        (&[2], b"\xFF\xFF", None, None),
        (&[], b"", one, Some(Cause::OffsetsEmpty)),
        (&[0, 3, 2], b"\xFF", one, Some(Cause::OffsetsNotMonotone)),
        (
            &[0, 1, 3],
            b"\xFF\xFF",
            one,
            Some(Cause::OffsetsExceedValues),
        ),
        (&[0, 1, 2], b"a\xFF", one, Some(Cause::InvalidUtf8)),
        (&[0, 1, 2], b"\xC3\xA9", one, Some(Cause::CharBoundary)),
        (&[0, 1, 2], b"ab", one, Some(Cause::ValidityLength)),
    ];
    for (offsets, values, flags, cause) in table {
        let lists = lists_of(offsets, values, flags);
        assert!(rt; raw_are_told(rt.alloc(), lists, cause)?, "{values:?}");
    }
    Ok(())
}

#[test]
fn texts_without_bytes(rt: HostRuntime) -> Result<(), Fail> {
    assert!(rt; empty_is::<i32>(rt.alloc())? && empty_is::<i64>(rt.alloc())?);
    assert!(rt; nulls_are::<i32>(rt.alloc())? && nulls_are::<i64>(rt.alloc())?);
    assert!(rt; no_nulls_are(rt.alloc())?);
    Ok(())
}

#[test]
fn texts_are_taken_apart_and_put_together(rt: HostRuntime) -> Result<(), Fail> {
    assert!(rt; four_are_put_together::<i32>(rt.alloc())?);
    assert!(rt; four_are_put_together::<i64>(rt.alloc())?);
    Ok(())
}

#[test]
fn texts_are_shared(rt: HostRuntime) -> Result<(), Fail> {
    assert!(rt; four_are_shared::<i32>(rt.alloc())?);
    assert!(rt; four_are_shared::<i64>(rt.alloc())?);
    Ok(())
}

// ---- readers and iterators

#[test]
fn four_slots_are_read(rt: HostRuntime) -> Result<(), Fail> {
    assert!(rt; four_are_read(&four(rt.alloc())?));
    Ok(())
}

#[test]
fn four_large_slots_are_read(rt: HostRuntime) -> Result<(), Fail> {
    assert!(rt; four_large_are_read(&four(rt.alloc())?));
    Ok(())
}

// ---- parts

#[test]
fn the_slices_share_their_bytes(rt: HostRuntime) -> Result<(), Fail> {
    let table: [((usize, usize), &[usize], Flags<'_>); 7] = [
        ((0, 4), FOUR.offsets, FOUR.flags),
        ((1, 3), &[3, 4, 4, 8], Some(&[false, true, true])),
        ((1, 1), &[3, 4], Some(&[false])),
        ((0, 1), &[1, 3], None),
        ((2, 2), &[4, 4, 8], None),
        ((4, 0), &[8], None),
        ((1, 0), &[3], None),
    ];
    for (range, offsets, flags) in table {
        let wanted = lists_of(offsets, FOUR.values, flags);
        for call in [
            Call::Sliced,
            Call::SlicedUnchecked,
            Call::Slice,
            Call::SliceUnchecked,
        ] {
            assert!(rt;
                four_give(rt.alloc(), call, range, wanted)?,
                "{range:?} {call:?}"
            );
        }
    }
    Ok(())
}

#[test]
fn slices_follow_one_another(rt: HostRuntime) -> Result<(), Fail> {
    assert!(rt; slices_follow(rt.alloc())?);
    Ok(())
}

#[test]
fn texts_are_cut_in_two(rt: HostRuntime) -> Result<(), Fail> {
    let table: [((Half, usize), &[usize], Flags<'_>); 8] = [
        ((Half::Front, 2), &[1, 3, 4], Some(&[true, false])),
        ((Half::Back, 2), &[4, 4, 8], None),
        ((Half::FrontUnchecked, 2), &[1, 3, 4], Some(&[true, false])),
        ((Half::BackUnchecked, 2), &[4, 4, 8], None),
        ((Half::Front, 0), &[1], None),
        ((Half::Back, 0), FOUR.offsets, FOUR.flags),
        ((Half::FrontUnchecked, 4), FOUR.offsets, FOUR.flags),
        ((Half::BackUnchecked, 4), &[8], None),
    ];
    for (half, offsets, flags) in table {
        let wanted = lists_of(offsets, FOUR.values, flags);
        assert!(rt; four_cut(rt.alloc(), half, wanted)?, "{half:?}");
    }
    assert!(rt; !four_cut(rt.alloc(), (Half::Front, 5), FOUR)?);
    Ok(())
}

// ---- other flags

#[test]
fn other_flags_stand_beside_the_same_bytes(rt: HostRuntime) -> Result<(), Fail> {
    let table: [Flags<'_>; 3] = [Some(&[false; 4]), Some(&[true; 4]), None];
    for flags in table {
        assert!(rt; with_is(rt.alloc(), flags)? && set_is(rt.alloc(), flags)?);
    }
    assert!(rt; taken_is(four(rt.alloc())?));
    assert!(rt; applied_is(rt.alloc(), &[false, true, true, false])?);
    Ok(())
}

// ---- byte strings and texts

#[test]
fn texts_are_byte_strings(rt: HostRuntime) -> Result<(), Fail> {
    let part = lists_of(&[3, 4, 4], FOUR.values, Some(&[false, true]));
    assert!(rt; into_binary_is(four::<i32>(rt.alloc())?, (0, 4), FOUR));
    assert!(rt; into_binary_is(four::<i64>(rt.alloc())?, (1, 2), part));
    Ok(())
}

// of a slice the range, the cause, the offsets and the flags
type Slices<'a, const N: usize> = [((usize, usize), Option<Cause>, &'a [usize], Flags<'a>); N];

#[test]
fn byte_strings_are_texts(rt: HostRuntime) -> Result<(), Fail> {
    let table: Slices<'_, 4> = [
        ((0, 4), None, FOUR.offsets, FOUR.flags),
        ((1, 2), None, &[3, 4, 4], Some(&[false, true])),
        ((2, 2), None, &[4, 4, 8], None),
        ((4, 0), None, &[8], None),
    ];
    for (range, cause, offsets, flags) in table {
        let wanted = lists_of(offsets, FOUR.values, flags);
        assert!(rt;
            slice_is_converted(rt.alloc(), FOUR, range, cause, wanted)?,
            "{range:?}"
        );
    }
    Ok(())
}

#[test]
fn byte_strings_that_are_no_texts_come_back(rt: HostRuntime) -> Result<(), Fail> {
    let invalid = Some(Cause::InvalidUtf8);
    let lists = lists_of(&[0, 1, 2], b"a\xFF", Some(&[true, false]));
    let table: Slices<'_, 3> = [
        ((0, 2), invalid, &[0, 1, 2], Some(&[true, false])),
        ((1, 1), invalid, &[1, 2], Some(&[false])),
        ((0, 1), None, &[0, 1], None),
    ];
    for (range, cause, offsets, flags) in table {
        let wanted = lists_of(offsets, lists.values, flags);
        assert!(rt;
            slice_is_converted(rt.alloc(), lists, range, cause, wanted)?,
            "{range:?}"
        );
    }
    Ok(())
}

#[test]
fn byte_strings_that_are_cut_inside_a_character_come_back(rt: HostRuntime) -> Result<(), Fail> {
    let (invalid, boundary) = (Some(Cause::InvalidUtf8), Some(Cause::CharBoundary));
    let lists = lists_of(&[0, 1, 2, 3], b"\xC3\xA9a", Some(&[false, false, true]));
    let table: Slices<'_, 5> = [
        ((0, 3), boundary, lists.offsets, lists.flags),
        ((0, 2), boundary, &[0, 1, 2], Some(&[false, false])),
        ((0, 1), invalid, &[0, 1], Some(&[false])),
        ((1, 2), invalid, &[1, 2, 3], Some(&[false, true])),
        ((2, 1), None, &[2, 3], None),
    ];
    for (range, cause, offsets, flags) in table {
        let wanted = lists_of(offsets, lists.values, flags);
        assert!(rt;
            slice_is_converted(rt.alloc(), lists, range, cause, wanted)?,
            "{range:?}"
        );
    }
    Ok(())
}

#[test]
fn byte_strings_without_nulls_come_back(rt: HostRuntime) -> Result<(), Fail> {
    let (invalid, boundary) = (Some(Cause::InvalidUtf8), Some(Cause::CharBoundary));
    let lists = lists_of(&[1, 2, 3], b"\x80\xC3\xA9\x80", None);
    assert!(rt; slice_is_converted(rt.alloc(), lists, (0, 2), boundary, lists)?);
    let last = lists_of(&[2, 3], lists.values, None);
    assert!(rt; slice_is_converted(rt.alloc(), lists, (1, 1), invalid, last)?);
    Ok(())
}
