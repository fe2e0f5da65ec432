//! The tests: each asserts what a check of `checks` says.

use crate::checks::{growing, levels, raw, shared};
use column_base::Cause;
use column_offset::{slots_decide, slots_end_to_end};
use std::test::Fail;

// ---- raw numbers

const NUMBERS: [(&[i64], Option<Cause>); 7] = [
    (&[], Some(Cause::OffsetsEmpty)),
    (&[-1, -2], Some(Cause::OffsetsNegative)),
    (&[0, 3, 2], Some(Cause::OffsetsNotMonotone)),
    (&[0, 2, -1], Some(Cause::OffsetsNotMonotone)),
    (&[0], None),
    (&[0, 2, 2, 5], None),
    (&[5, 5, 9223372036854775807], None),
];

#[test]
fn numbers_are_checked_in_order(rt: HostRuntime) -> Result<(), Fail> {
    for (numbers, cause) in NUMBERS {
        assert!(rt; raw::are_told(rt.alloc(), numbers, cause)?, "{numbers:?}");
    }
    Ok(())
}

const NARROW: [(&[i32], Option<Cause>); 5] = [
    (&[], Some(Cause::OffsetsEmpty)),
    (&[-1, -2], Some(Cause::OffsetsNegative)),
    (&[0, 3, 2], Some(Cause::OffsetsNotMonotone)),
    (&[0, 2, 5], None),
    (&[0, 2147483647], None),
];

#[test]
fn narrow_numbers_are_checked_in_order(rt: HostRuntime) -> Result<(), Fail> {
    for (numbers, cause) in NARROW {
        assert!(rt; raw::are_told(rt.alloc(), numbers, cause)?, "{numbers:?}");
    }
    Ok(())
}

const BOUNDS: [(&[i32], usize, Option<Cause>); 4] = [
    (&[0, 2, 5], 5, None),
    (&[0, 2, 5], 4, Some(Cause::OffsetsExceedValues)),
    (&[3], 3, None),
    (&[3], 2, Some(Cause::OffsetsExceedValues)),
];

#[test]
fn offsets_lie_within_their_values(rt: HostRuntime) -> Result<(), Fail> {
    for (numbers, count, cause) in BOUNDS {
        assert!(rt;
            raw::bound_is_told(rt.alloc(), numbers, count, cause)?,
            "{numbers:?}"
        );
    }
    Ok(())
}

// ---- texts

const TEXT: [u8; 10] = [0x61, 0xC3, 0xA9, 0xE2, 0x82, 0xAC, 0xF0, 0x9F, 0x98, 0x80];

const CUTS: [(i32, Option<Cause>); 11] = [
    (0, None),
    (1, None),
    (2, Some(Cause::CharBoundary)),
    (3, None),
    (4, Some(Cause::CharBoundary)),
    (5, Some(Cause::CharBoundary)),
    (6, None),
    (7, Some(Cause::CharBoundary)),
    (8, Some(Cause::CharBoundary)),
    (9, Some(Cause::CharBoundary)),
    (10, None),
];

#[test]
fn text_is_cut_between_characters(rt: HostRuntime) -> Result<(), Fail> {
    for (place, cause) in CUTS {
        assert!(rt;
            raw::cut_is_told(rt.alloc(), &[0, place, 10], &TEXT, cause)?,
            "{place}"
        );
    }
    Ok(())
}

const TEXTS: [(&[i64], &[u8], Option<Cause>); 7] = [
    (&[0, 2], &[0x61, 0xC3, 0xA9], Some(Cause::InvalidUtf8)),
    (
        &[0, 2, 4],
        &[0x61, 0xC3, 0xA9],
        Some(Cause::OffsetsExceedValues),
    ),
    (&[2, 3], &[0x61, 0xC3, 0xA9], Some(Cause::InvalidUtf8)),
    (&[0, 1], &[0x61, 0xA9], None),
    (&[0, 1, 1], &[0x61, 0x80, 0xBF], None),
    (&[1], &[0x61, 0xA9], None),
    (&[1, 2], &[0xA9, 0x61, 0xA9], None),
];

#[test]
fn faults_of_text_come_in_order(rt: HostRuntime) -> Result<(), Fail> {
    for (numbers, values, cause) in TEXTS {
        assert!(rt;
            raw::cut_is_told(rt.alloc(), numbers, values, cause)?,
            "{numbers:?}"
        );
    }
    slots_decide();
    slots_end_to_end();
    Ok(())
}

// ---- keys

#[test]
fn keys_end_at_their_types(rt: HostRuntime) {
    let negative = Some(Cause::KeyNotUsize);
    let past = |key: usize, len: usize| Some(Cause::KeyOutOfRange { key, len });
    assert!(rt;
        raw::keys_are_told(&[0, i8::MAX, i8::MIN], 128, negative)
            && raw::keys_are_told(&[0, i16::MAX, -1], 32768, negative)
            && raw::keys_are_told(&[i32::MAX, i32::MIN], 2147483648, negative)
            && raw::keys_are_told(&[0, i64::MAX], usize::MAX, None)
    );
    assert!(rt;
        raw::keys_are_told(&[0u8, 255], 255, past(255, 255))
            && raw::keys_are_told(&[0, u8::MAX], 256, None)
            && raw::keys_are_told(&[0, u16::MAX], 65536, None)
            && raw::keys_are_told(&[u32::MAX], 4294967295, past(4294967295, 4294967295))
            && raw::keys_are_told(&[u64::MAX], usize::MAX, past(usize::MAX, usize::MAX))
    );
}

#[test]
fn greatest_keys_pass_as_many_slots(rt: HostRuntime) {
    let past = |key: usize| Some(Cause::KeyOutOfRange { key, len: key });
    assert!(rt;
        raw::keys_are_told(&[i8::MAX], 127, past(127))
            && raw::keys_are_told(&[i16::MAX], 32767, past(32767))
            && raw::keys_are_told(&[i32::MAX], 2147483647, past(2147483647))
            && raw::keys_are_told(&[i64::MAX], 9223372036854775807, past(9223372036854775807))
    );
    assert!(rt;
        raw::keys_are_told(&[u16::MAX], 65535, past(65535))
            && raw::keys_are_told(&[u32::MAX], 4294967296, None)
    );
}

#[test]
fn the_first_bad_key_answers(rt: HostRuntime) {
    let five = Some(Cause::KeyOutOfRange { key: 5, len: 3 });
    let negative = Some(Cause::KeyNotUsize);
    assert!(rt;
        raw::keys_are_told(&[0u16, 2, 5, 9], 3, five)
            && raw::keys_are_told(&[0i8, 2, -1], 3, negative)
            && raw::keys_are_told(&[0i16, 5, -1], 3, five)
            && raw::keys_are_told(&[0i32, -1, 5], 3, negative)
    );
}

#[test]
fn keys_are_tried_below_and_past(rt: HostRuntime) {
    assert!(rt;
        raw::keys_are_tried(&[0i8, 2], &[3])
            && raw::keys_are_tried(&[0i16, 2], &[3])
            && raw::keys_are_tried(&[0i32, 2], &[3])
            && raw::keys_are_tried(&[0i64, 2], &[3])
    );
    assert!(rt;
        raw::keys_are_tried(&[0u8, 2], &[3])
            && raw::keys_are_tried(&[0u16, 2], &[3])
            && raw::keys_are_tried(&[0u32, 2], &[3])
            && raw::keys_are_tried(&[0u64, 2], &[3])
    );
    assert!(rt;
        raw::is_refused(&[i8::MIN])
            && raw::is_refused(&[-1i8])
            && raw::is_refused(&[i16::MIN])
            && raw::is_refused(&[-1i16])
            && raw::is_refused(&[i32::MIN])
            && raw::is_refused(&[-1i32])
            && raw::is_refused(&[i64::MIN])
            && raw::is_refused(&[-1i64])
    );
}

// ---- offsets that grow

#[test]
fn growing_offsets_are_made_and_read(rt: HostRuntime) -> Result<(), Fail> {
    assert!(rt; growing::are_made(rt.alloc())?);
    assert!(rt; growing::are_readable(rt.alloc())?);
    assert!(rt; growing::are_readable_wide(rt.alloc())?);
    assert!(rt; growing::are_kept(rt.alloc())?);
    Ok(())
}

const PUSHES: [(&[i32], usize, Option<Cause>, &[i32]); 5] = [
    (&[0], 3, None, &[0, 3]),
    (&[2147483646], 2, Some(Cause::Overflow), &[2147483646]),
    (&[2147483646], 0, None, &[2147483646, 2147483646]),
    (&[2147483646], 1, None, &[2147483646, 2147483647]),
    (&[0], usize::MAX, Some(Cause::Overflow), &[0]),
];

#[test]
fn a_push_adds_a_slot_or_changes_nothing(rt: HostRuntime) -> Result<(), Fail> {
    for (numbers, length, cause, left) in PUSHES {
        assert!(rt;
            growing::push_gives(rt.alloc(), numbers, length, cause, left)?,
            "{numbers:?}"
        );
    }
    Ok(())
}

const WIDE_PUSHES: [(&[i64], usize, Option<Cause>, &[i64]); 4] = [
    (&[0], 3, None, &[0, 3]),
    (
        &[9223372036854775806],
        2,
        Some(Cause::Overflow),
        &[9223372036854775806],
    ),
    (
        &[9223372036854775806],
        1,
        None,
        &[9223372036854775806, 9223372036854775807],
    ),
    (&[0], usize::MAX, Some(Cause::Overflow), &[0]),
];

#[test]
fn wide_offsets_end_at_their_type(rt: HostRuntime) -> Result<(), Fail> {
    for (numbers, length, cause, left) in WIDE_PUSHES {
        assert!(rt;
            growing::push_gives(rt.alloc(), numbers, length, cause, left)?,
            "{numbers:?}"
        );
    }
    Ok(())
}

#[test]
fn slots_are_taken_and_added(rt: HostRuntime) -> Result<(), Fail> {
    assert!(rt; growing::are_popped_and_padded(rt.alloc())?);
    assert!(rt; growing::are_extended(rt.alloc())?);
    assert!(rt; growing::operations_leave_their_slots(rt.alloc())?);
    Ok(())
}

#[test]
fn offsets_change_their_width(rt: HostRuntime) -> Result<(), Fail> {
    assert!(rt; growing::change_their_width(rt.alloc())?);
    assert!(rt; shared::change_their_width(rt.alloc())?);
    Ok(())
}

#[test]
fn offsets_have_a_debug_text(rt: HostRuntime) -> Result<(), Fail> {
    assert!(rt; growing::debug_is(rt.alloc(), &[0, 0], "Offsets([0, 0])")?);
    assert!(rt; shared::debug_is(rt.alloc(), &[0, 2], "OffsetsBuffer([0, 2])")?);
    Ok(())
}

// ---- offsets that are shared

#[test]
fn shared_offsets_are_made_and_read(rt: HostRuntime) -> Result<(), Fail> {
    assert!(rt; shared::are_made(rt.alloc())?);
    assert!(rt; shared::are_readable(rt.alloc())?);
    assert!(rt; shared::are_readable_wide(rt.alloc())?);
    assert!(rt; shared::are_shared(rt.alloc())?);
    Ok(())
}

const PARTS: [(usize, usize, &[i32]); 4] = [
    (0, 4, &[1, 3, 3, 7]),
    (1, 2, &[3, 3]),
    (3, 1, &[7]),
    (2, 2, &[3, 7]),
];

#[test]
fn parts_share_their_offsets(rt: HostRuntime) -> Result<(), Fail> {
    for (from, count, part) in PARTS {
        assert!(rt;
            shared::both_parts_are(rt.alloc(), from, count, part)?,
            "{from}"
        );
    }
    Ok(())
}

const SPLITS: [(usize, &[i32], &[i32]); 3] = [
    (0, &[0], &[0, 2, 5]),
    (1, &[0, 2], &[2, 5]),
    (2, &[0, 2, 5], &[5]),
];

#[test]
fn splits_repeat_the_middle_offset(rt: HostRuntime) -> Result<(), Fail> {
    for (place, front, back) in SPLITS {
        assert!(rt;
            shared::both_halves_are(rt.alloc(), place, front, back)?,
            "{place}"
        );
    }
    Ok(())
}

#[test]
fn nested_slots_reach_their_values(rt: HostRuntime) -> Result<(), Fail> {
    assert!(rt; levels::levels_are_read(rt.alloc(), &[0i32, 2, 3], &[0, 4, 5, 9])?);
    Ok(())
}
