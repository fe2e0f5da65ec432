//! Which parts become columns, and which fault of the others is told.

use crate::cases::ColumnLists::{self, BinView, Fixed, Int64, Utf8View};
use crate::cases::{ABC, EMPTY, lists_of};
use crate::checks::{all_are_told, parts_are_told, wide_is_told, words_are};
use column_base::Cause;
use column_checks::Flags;
use column_relayout::{
    last_dedupe_names_all_buffers, last_step_after_light_ones, last_step_is_taken, light_plans_cut,
    light_plans_cut_once, light_plans_keep_bytes, light_steps_cut_what_a_step_left,
    light_steps_cut_what_was_written, no_fault_is_well_formed, relays_lead, written_slots_are_same,
};
use std::test::Fail;

#[test]
fn kinds_have_words(rt: HostRuntime) {
    assert!(rt; words_are());
    no_fault_is_well_formed();
    relays_lead();
    light_plans_cut();
    light_plans_cut_once();
    light_plans_keep_bytes();
    last_step_is_taken();
    last_step_after_light_ones();
    light_steps_cut_what_a_step_left();
    light_steps_cut_what_was_written();
    last_dedupe_names_all_buffers();
    written_slots_are_same();
}

// Bytes before the first and after the last offset need not be UTF-8, and flags that are all set are kept.
const PARTS: [(&[i32], &[u8], Flags<'_>); 10] = [
    (&[0], b"", None),
    (&[0], b"", Some(&[])),
    (&[1], b"\xff\xff", None),
    (&[2, 2], b"\xff\xff\xff", Some(&[false])),
    (&[1, 3, 3, 4], b"\xffabc\xff", Some(&[true, false, true])),
    (&[0, 1, 2], b"ab", Some(&[true, true])),
    (&[0, 1, 3], b"a\xc3\xa9", None),
    (&[2, 5, 9], b"\xc3\xa9\xe2\x82\xac\xf0\x9f\x98\x80", None),
    (&[1], b"\xff\xff", Some(&[])),
    (&[1, 1], b"\xff\xff", Some(&[false])),
];

#[test]
fn parts_become_columns(rt: HostRuntime) -> Result<(), Fail> {
    for (offsets, values, flags) in PARTS {
        let own = lists_of(offsets, values, flags);
        assert!(rt;
            all_are_told(rt.alloc(), own, None, None)?,
            "{offsets:?} {values:?}"
        );
    }
    Ok(())
}

const FAULTS: [(&[i32], &[u8], Flags<'_>, Cause); 8] = [
    (&[], b"", None, Cause::OffsetsEmpty),
    (&[-1, 0], b"", None, Cause::OffsetsNegative),
    (&[0, 2, 1], b"ab", None, Cause::OffsetsNotMonotone),
    (&[0, 3], b"ab", None, Cause::OffsetsExceedValues),
    (&[0, 2147483647], b"ab", None, Cause::OffsetsExceedValues),
    (&[0, 1], b"a", Some(&[]), Cause::ValidityLength),
    (&[0, 1], b"a", Some(&[true, true]), Cause::ValidityLength),
    (&[0], b"", Some(&[true]), Cause::ValidityLength),
];

#[test]
fn a_fault_of_parts_is_told(rt: HostRuntime) -> Result<(), Fail> {
    for (offsets, values, flags, cause) in FAULTS {
        let own = lists_of(offsets, values, flags);
        let fault = Some(cause);
        assert!(rt;
            all_are_told(rt.alloc(), own, fault, fault)?,
            "{offsets:?} {values:?}"
        );
    }
    Ok(())
}

const TWO_FAULTS: [(&[i32], &[u8], Flags<'_>, Cause); 9] = [
    (&[], b"", Some(&[true]), Cause::OffsetsEmpty),
    (&[-1, -2], b"", None, Cause::OffsetsNegative),
    (&[-1, 3], b"ab", None, Cause::OffsetsNegative),
    (&[-1, 1], b"a", Some(&[]), Cause::OffsetsNegative),
    (&[0, 4, 3], b"ab", None, Cause::OffsetsNotMonotone),
    (&[0, 2, 1], b"\xff\xff", None, Cause::OffsetsNotMonotone),
    (&[0, 2, 1], b"ab", Some(&[]), Cause::OffsetsNotMonotone),
    (&[0, 3], b"\xff\xff", None, Cause::OffsetsExceedValues),
    (&[0, 3], b"ab", Some(&[]), Cause::OffsetsExceedValues),
];

#[test]
fn the_first_fault_of_two_is_told(rt: HostRuntime) -> Result<(), Fail> {
    for (offsets, values, flags, cause) in TWO_FAULTS {
        let own = lists_of(offsets, values, flags);
        let fault = Some(cause);
        assert!(rt;
            all_are_told(rt.alloc(), own, fault, fault)?,
            "{offsets:?} {values:?}"
        );
    }
    Ok(())
}

const TEXT_FAULTS: [(&[i32], &[u8], Flags<'_>, Cause); 10] = [
    (&[0, 1], b"\xff", None, Cause::InvalidUtf8),
    (&[0, 2], b"a\xc3\xa9", None, Cause::InvalidUtf8),
    (&[1, 2], b"\xc3\xa9", None, Cause::InvalidUtf8),
    (&[0, 1, 2], b"\xc3\xa9", None, Cause::CharBoundary),
    (
        &[0, 0, 1],
        b"\xff",
        Some(&[true, false]),
        Cause::InvalidUtf8,
    ),
    (
        &[0, 1, 2],
        b"\xc3\xa9",
        Some(&[false, false]),
        Cause::CharBoundary,
    ),
    (&[0, 1, 3], b"\xc3\xa9\xff", None, Cause::InvalidUtf8),
    (&[0, 1], b"\xff", Some(&[false]), Cause::InvalidUtf8),
    (&[0, 3], b"\xed\xa0\x80", None, Cause::InvalidUtf8),
    (&[0, 2, 4], b"a\xf0\x9f\x98\x80", None, Cause::InvalidUtf8),
];

#[test]
fn a_fault_of_texts_is_told(rt: HostRuntime) -> Result<(), Fail> {
    // Null slots are looked at too.
    for (offsets, values, flags, cause) in TEXT_FAULTS {
        let own = lists_of(offsets, values, flags);
        assert!(rt;
            all_are_told(rt.alloc(), own, None, Some(cause))?,
            "{offsets:?} {values:?}"
        );
    }
    Ok(())
}

#[test]
fn texts_are_looked_at_before_flags(rt: HostRuntime) -> Result<(), Fail> {
    let length = Some(Cause::ValidityLength);
    let own = lists_of(&[0, 1], b"\xff", Some(&[]));
    assert!(rt; all_are_told(rt.alloc(), own, length, Some(Cause::InvalidUtf8))?);
    let own = lists_of(&[0, 1, 2], b"\xc3\xa9", Some(&[true]));
    assert!(rt; all_are_told(rt.alloc(), own, length, Some(Cause::CharBoundary))?);
    Ok(())
}

const WIDE: [(&[i64], Cause); 4] = [
    (&[0, 4294967296], Cause::OffsetsExceedValues),
    (&[0, 9223372036854775807], Cause::OffsetsExceedValues),
    (&[-9223372036854775808, 0], Cause::OffsetsNegative),
    (&[4294967296, 4294967295], Cause::OffsetsNotMonotone),
];

#[test]
fn wide_offsets_are_read_whole(rt: HostRuntime) -> Result<(), Fail> {
    for (offsets, cause) in WIDE {
        assert!(rt;
            wide_is_told(rt.alloc(), false, offsets, cause)?,
            "{offsets:?}"
        );
        assert!(rt;
            wide_is_told(rt.alloc(), true, offsets, cause)?,
            "{offsets:?}"
        );
    }
    Ok(())
}

// ---- the other layouts

const OTHERS: [(ColumnLists<'_>, Option<Cause>); 31] = [
    (Fixed(3, b"abcdef", None), None),
    (Fixed(3, b"abcdef", Some(&[true, false])), None),
    (Fixed(3, b"abcdef", Some(&[true, true])), None),
    (Fixed(1, b"", Some(&[])), None),
    (Fixed(usize::MAX, b"", None), None),
    (Fixed(0, b"", None), Some(Cause::SizeZero)),
    (Fixed(0, b"abc", Some(&[true])), Some(Cause::SizeZero)),
    (Fixed(3, b"abcdefg", None), Some(Cause::NotMultiple)),
    (Fixed(3, b"ab", None), Some(Cause::NotMultiple)),
    (
        Fixed(usize::MAX, b"ab", Some(&[])),
        Some(Cause::NotMultiple),
    ),
    (
        Fixed(3, b"abcdefg", Some(&[true])),
        Some(Cause::NotMultiple),
    ),
    (
        Fixed(3, b"abcdef", Some(&[true])),
        Some(Cause::ValidityLength),
    ),
    (
        Fixed(3, b"abcdef", Some(&[true, true, true])),
        Some(Cause::ValidityLength),
    ),
    (Fixed(3, b"", Some(&[false])), Some(Cause::ValidityLength)),
    (Int64(&[], None), None),
    (Int64(&[i64::MAX, i64::MIN], None), None),
    (Int64(&[-1, 7], Some(&[false, true])), None),
    (Int64(&[], Some(&[true])), Some(Cause::ValidityLength)),
    (Int64(&[-1, 7], Some(&[])), Some(Cause::ValidityLength)),
    (
        Int64(&[-1, 7], Some(&[true, true, true])),
        Some(Cause::ValidityLength),
    ),
    (BinView(&[], &[], Some(&[])), None),
    (
        BinView(&[ABC, EMPTY], &[b"\xff"], Some(&[false, true])),
        None,
    ),
    (
        Utf8View(
            &[b"\x02\0\0\0\xc3\xa9\0\0\0\0\0\0\0\0\0\0"],
            &[b"\xff"],
            None,
        ),
        None,
    ),
    (
        BinView(&[b"\x01\0\0\0\xff\0\0\0\0\0\0\0\0\0\0\0"], &[], None),
        None,
    ),
    (
        Utf8View(
            &[b"\x01\0\0\0\xff\0\0\0\0\0\0\0\0\0\0\0"],
            &[],
            Some(&[false]),
        ),
        Some(Cause::InvalidUtf8),
    ),
    (
        BinView(&[b"\x03\0\0\0abc\x01\0\0\0\0\0\0\0\0"], &[], None),
        Some(Cause::NonZeroPadding),
    ),
    (
        BinView(
            &[b"\x0d\0\0\0abcd\0\0\0\0\0\0\0\0"],
            &[b"abcdefghijklm"],
            None,
        ),
        None,
    ),
    (
        BinView(
            &[b"\x0d\0\0\0abcd\x01\0\0\0\0\0\0\0"],
            &[b"abcdefghijklm"],
            None,
        ),
        Some(Cause::ViewIndex),
    ),
    (
        BinView(
            &[b"\x0d\0\0\0abcd\0\0\0\0\x01\0\0\0"],
            &[b"abcdefghijklm"],
            None,
        ),
        Some(Cause::BufferSlice),
    ),
    (
        BinView(
            &[b"\x0d\0\0\0abce\0\0\0\0\0\0\0\0"],
            &[b"abcdefghijklm"],
            None,
        ),
        Some(Cause::PrefixMismatch),
    ),
    (
        Utf8View(&[ABC], &[], Some(&[])),
        Some(Cause::ValidityLength),
    ),
];

#[test]
fn parts_of_other_layouts_are_told(rt: HostRuntime) -> Result<(), Fail> {
    for (own, fault) in OTHERS {
        assert!(rt; parts_are_told(rt.alloc(), own, fault)?, "{fault:?}");
    }
    Ok(())
}
