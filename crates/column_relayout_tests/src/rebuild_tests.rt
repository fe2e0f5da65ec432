//! The step that writes a column anew, from each kind into each.

use crate::cases::ColumnLists::{
    self, BinView, Binary32, Binary64, Fixed, Int64, Utf8_32, Utf8_64, Utf8View,
};
use crate::cases::Planned::Rebuild;
use crate::cases::{ABC, EMPTY, kind_in};
use crate::checks::{
    buffers_hold, is_rebuilt, plan_leads, step_leads, step_refuses, step_wants_memory,
};
use column_base::Cause;
use column_relayout::Kind;
use std::test::Fail;

// "abcdefgh", null over bytes, and "ABCDEFGH".
const SHORT: [ColumnLists<'_>; 8] = [
    Binary32(
        &[1, 9, 10, 18],
        b"xabcdefghyABCDEFGHz",
        Some(&[true, false, true]),
    ),
    Binary64(
        &[1, 9, 10, 18],
        b"xabcdefghyABCDEFGHz",
        Some(&[true, false, true]),
    ),
    Utf8_32(
        &[1, 9, 10, 18],
        b"\xffabcdefghyABCDEFGH\xff",
        Some(&[true, false, true]),
    ),
    Utf8_64(
        &[1, 9, 10, 18],
        b"\xffabcdefghyABCDEFGH\xff",
        Some(&[true, false, true]),
    ),
    BinView(
        &[
            b"\x08\0\0\0abcdefgh\0\0\0\0",
            ABC,
            b"\x08\0\0\0ABCDEFGH\0\0\0\0",
        ],
        &[b"unused"],
        Some(&[true, false, true]),
    ),
    Utf8View(
        &[
            b"\x08\0\0\0abcdefgh\0\0\0\0",
            ABC,
            b"\x08\0\0\0ABCDEFGH\0\0\0\0",
        ],
        &[],
        Some(&[true, false, true]),
    ),
    Fixed(8, b"abcdefghyyyyyyyyABCDEFGH", Some(&[true, false, true])),
    Int64(
        &[7523094288207667809, 7, 5208208757389214273],
        Some(&[true, false, true]),
    ),
];

const SHORT_ANEW: [ColumnLists<'_>; 8] = [
    Binary32(
        &[0, 8, 8, 16],
        b"abcdefghABCDEFGH",
        Some(&[true, false, true]),
    ),
    Binary64(
        &[0, 8, 8, 16],
        b"abcdefghABCDEFGH",
        Some(&[true, false, true]),
    ),
    Utf8_32(
        &[0, 8, 8, 16],
        b"abcdefghABCDEFGH",
        Some(&[true, false, true]),
    ),
    Utf8_64(
        &[0, 8, 8, 16],
        b"abcdefghABCDEFGH",
        Some(&[true, false, true]),
    ),
    BinView(
        &[
            b"\x08\0\0\0abcdefgh\0\0\0\0",
            EMPTY,
            b"\x08\0\0\0ABCDEFGH\0\0\0\0",
        ],
        &[],
        Some(&[true, false, true]),
    ),
    Utf8View(
        &[
            b"\x08\0\0\0abcdefgh\0\0\0\0",
            EMPTY,
            b"\x08\0\0\0ABCDEFGH\0\0\0\0",
        ],
        &[],
        Some(&[true, false, true]),
    ),
    Fixed(
        8,
        b"abcdefgh\0\0\0\0\0\0\0\0ABCDEFGH",
        Some(&[true, false, true]),
    ),
    Int64(
        &[7523094288207667809, 0, 5208208757389214273],
        Some(&[true, false, true]),
    ),
];

#[test]
fn each_kind_is_rebuilt_in_each(rt: HostRuntime) -> Result<(), Fail> {
    for own in SHORT {
        let kind = kind_in(own);
        for wanted in SHORT_ANEW {
            let next = kind_in(wanted);
            assert!(rt; is_rebuilt(rt.alloc(), own, wanted)?, "{kind:?} {next:?}");
        }
    }
    Ok(())
}

// Thirteen bytes, and null over thirteen more.
const LONG_SLOTS: [ColumnLists<'_>; 7] = [
    Binary32(
        &[0, 13, 26],
        b"abcdefghijklmnopqrstuvwxyz",
        Some(&[true, false]),
    ),
    Binary64(
        &[0, 13, 26],
        b"abcdefghijklmnopqrstuvwxyz",
        Some(&[true, false]),
    ),
    Utf8_32(
        &[0, 13, 26],
        b"abcdefghijklmnopqrstuvwxyz",
        Some(&[true, false]),
    ),
    Utf8_64(
        &[0, 13, 26],
        b"abcdefghijklmnopqrstuvwxyz",
        Some(&[true, false]),
    ),
    BinView(
        &[
            b"\x0d\0\0\0abcd\0\0\0\0\0\0\0\0",
            b"\x0d\0\0\0nopq\0\0\0\0\x0d\0\0\0",
        ],
        &[b"abcdefghijklmnopqrstuvwxyz"],
        Some(&[true, false]),
    ),
    Utf8View(
        &[
            b"\x0d\0\0\0abcd\x01\0\0\0\x02\0\0\0",
            b"\x0d\0\0\0nopq\0\0\0\0\0\0\0\0",
        ],
        &[b"nopqrstuvwxyz", b"\xff\xffabcdefghijklm"],
        Some(&[true, false]),
    ),
    Fixed(13, b"abcdefghijklmnopqrstuvwxyz", Some(&[true, false])),
];

const LONG_SLOTS_ANEW: [ColumnLists<'_>; 7] = [
    Binary32(&[0, 13, 13], b"abcdefghijklm", Some(&[true, false])),
    Binary64(&[0, 13, 13], b"abcdefghijklm", Some(&[true, false])),
    Utf8_32(&[0, 13, 13], b"abcdefghijklm", Some(&[true, false])),
    Utf8_64(&[0, 13, 13], b"abcdefghijklm", Some(&[true, false])),
    BinView(
        &[b"\x0d\0\0\0abcd\0\0\0\0\0\0\0\0", EMPTY],
        &[b"abcdefghijklm"],
        Some(&[true, false]),
    ),
    Utf8View(
        &[b"\x0d\0\0\0abcd\0\0\0\0\0\0\0\0", EMPTY],
        &[b"abcdefghijklm"],
        Some(&[true, false]),
    ),
    Fixed(
        13,
        b"abcdefghijklm\0\0\0\0\0\0\0\0\0\0\0\0\0",
        Some(&[true, false]),
    ),
];

#[test]
fn long_slots_are_rebuilt(rt: HostRuntime) -> Result<(), Fail> {
    for own in LONG_SLOTS {
        let kind = kind_in(own);
        for wanted in LONG_SLOTS_ANEW {
            let next = kind_in(wanted);
            assert!(rt; is_rebuilt(rt.alloc(), own, wanted)?, "{kind:?} {next:?}");
        }
    }
    Ok(())
}

#[test]
fn long_slots_have_another_length(rt: HostRuntime) -> Result<(), Fail> {
    for own in LONG_SLOTS {
        let kind = kind_in(own);
        for next in [Kind::Int64, Kind::Fixed(12), Kind::Fixed(14)] {
            assert!(rt;
                step_refuses(rt.alloc(), own, Rebuild(next), Cause::WrongLength)?,
                "{kind:?} {next:?}"
            );
        }
    }
    Ok(())
}

// Thirteen bytes, fourteen, and the thirteen again.
const THREE_LONG: ColumnLists<'_> = Utf8_64(
    &[1, 14, 28, 41],
    b"-aaaaaaaaaaaaabbbbbbbbbbbbbbaaaaaaaaaaaaa",
    None,
);

#[test]
fn several_long_slots_are_end_to_end(rt: HostRuntime) -> Result<(), Fail> {
    let bytes = b"aaaaaaaaaaaaabbbbbbbbbbbbbbaaaaaaaaaaaaa";
    let plan = [Rebuild(Kind::Utf8View), Rebuild(Kind::Utf8_32)];
    let slots = Utf8_32(&[0, 13, 27, 40], bytes, None);
    assert!(rt; buffers_hold(rt.alloc(), THREE_LONG, Rebuild(Kind::BinView), bytes, 3)?);
    assert!(rt; buffers_hold(rt.alloc(), THREE_LONG, Rebuild(Kind::Utf8View), bytes, 3)?);
    assert!(rt; plan_leads(rt.alloc(), THREE_LONG, &plan, slots)?);
    Ok(())
}

// ---- slots of a width

const OF_A_WIDTH: [(ColumnLists<'_>, ColumnLists<'_>); 13] = [
    (
        Binary32(&[0, 8, 8], b"\x01\0\0\0\0\0\0\0", Some(&[true, false])),
        Int64(&[1, 0], Some(&[true, false])),
    ),
    // A null slot may have any length.
    (
        Binary32(&[0, 3, 5], b"cdeab", Some(&[true, false])),
        Fixed(3, b"cde\0\0\0", Some(&[true, false])),
    ),
    (
        Utf8_64(&[0, 2, 5], b"abcde", Some(&[false, true])),
        Fixed(3, b"\0\0\0cde", Some(&[false, true])),
    ),
    (
        BinView(&[ABC, EMPTY, ABC], &[], Some(&[true, false, true])),
        Fixed(3, b"abc\0\0\0abc", Some(&[true, false, true])),
    ),
    (
        Utf8View(&[EMPTY], &[], Some(&[false])),
        Int64(&[0], Some(&[false])),
    ),
    (
        Fixed(2, b"abcd", Some(&[false, false])),
        Fixed(3, b"\0\0\0\0\0\0", Some(&[false, false])),
    ),
    (
        Fixed(2, b"abcd", Some(&[false, false])),
        Int64(&[0, 0], Some(&[false, false])),
    ),
    (Int64(&[5], Some(&[false])), Fixed(1, b"\0", Some(&[false]))),
    (
        Int64(&[-1, i64::MIN], None),
        Fixed(
            8,
            b"\xff\xff\xff\xff\xff\xff\xff\xff\0\0\0\0\0\0\0\x80",
            None,
        ),
    ),
    // Slots of any width, where there is none.
    (Binary64(&[2], b"ab", None), Fixed(usize::MAX, b"", None)),
    (
        Utf8View(&[], &[b"\xff"], None),
        Fixed(usize::MAX, b"", None),
    ),
    (Int64(&[], None), Fixed(1, b"", None)),
    (Fixed(3, b"", None), Int64(&[], None)),
];

#[test]
fn slots_get_a_width(rt: HostRuntime) -> Result<(), Fail> {
    for (own, wanted) in OF_A_WIDTH {
        let kind = kind_in(own);
        let next = kind_in(wanted);
        assert!(rt;
            step_leads(rt.alloc(), own, Rebuild(next), wanted)?,
            "{kind:?} {next:?}"
        );
    }
    Ok(())
}

const WRONG_LENGTHS: [(ColumnLists<'_>, Kind); 11] = [
    (Binary32(&[0, 7], b"\x01\0\0\0\0\0\0", None), Kind::Int64),
    // The first slot, or the last one.
    (Binary32(&[0, 2, 5], b"abcde", None), Kind::Fixed(3)),
    (Utf8_64(&[0, 3, 5], b"abcde", None), Kind::Fixed(3)),
    (
        BinView(&[ABC, b"\x08\0\0\0abcdefgh\0\0\0\0"], &[], None),
        Kind::Int64,
    ),
    (
        Utf8View(&[b"\x08\0\0\0abcdefgh\0\0\0\0", ABC], &[], None),
        Kind::Int64,
    ),
    // Only the null slot has the length.
    (
        Binary64(&[0, 2, 5], b"abcde", Some(&[true, false])),
        Kind::Fixed(3),
    ),
    (Fixed(3, b"abcdef", Some(&[false, true])), Kind::Int64),
    (Fixed(3, b"abc", None), Kind::Fixed(2)),
    (Int64(&[1], None), Kind::Fixed(7)),
    (Int64(&[1], None), Kind::Fixed(9)),
    // No bytes.
    (Utf8_32(&[0, 0], b"", None), Kind::Fixed(1)),
];

#[test]
fn slots_of_another_length_are_refused(rt: HostRuntime) -> Result<(), Fail> {
    for (own, next) in WRONG_LENGTHS {
        let kind = kind_in(own);
        assert!(rt;
            step_refuses(rt.alloc(), own, Rebuild(next), Cause::WrongLength)?,
            "{kind:?} {next:?}"
        );
    }
    for own in SHORT {
        let kind = kind_in(own);
        assert!(rt;
            step_refuses(rt.alloc(), own, Rebuild(Kind::Fixed(0)), Cause::SizeZero)?,
            "{kind:?}"
        );
    }
    Ok(())
}

// One null slot.
const NULL: [ColumnLists<'_>; 8] = [
    Binary32(&[0, 0], b"", Some(&[false])),
    Binary64(&[0, 1], b"a", Some(&[false])),
    Utf8_32(&[0, 0], b"", Some(&[false])),
    Utf8_64(&[0, 1], b"a", Some(&[false])),
    BinView(&[ABC], &[], Some(&[false])),
    Utf8View(&[EMPTY], &[], Some(&[false])),
    Fixed(1, b"a", Some(&[false])),
    Int64(&[7], Some(&[false])),
];

#[test]
fn the_greatest_width_finds_no_memory(rt: HostRuntime) -> Result<(), Fail> {
    for own in NULL {
        let kind = kind_in(own);
        assert!(rt;
            step_wants_memory(rt.alloc(), own, Rebuild(Kind::Fixed(usize::MAX)))?,
            "{kind:?}"
        );
    }
    Ok(())
}

// Two null slots.
const NULLS: [ColumnLists<'_>; 4] = [
    Binary32(&[0, 0, 0], b"", Some(&[false, false])),
    Utf8View(&[ABC, ABC], &[], Some(&[false, false])),
    Fixed(1, b"ab", Some(&[false, false])),
    Int64(&[7, 7], Some(&[false, false])),
];

#[test]
fn more_bytes_than_can_be_counted_are_refused(rt: HostRuntime) -> Result<(), Fail> {
    for own in NULLS {
        let kind = kind_in(own);
        for next in [
            Kind::Fixed(usize::MAX),
            Kind::Fixed(9_223_372_036_854_775_808),
        ] {
            assert!(rt;
                step_refuses(rt.alloc(), own, Rebuild(next), Cause::Overflow)?,
                "{kind:?} {next:?}"
            );
        }
    }
    Ok(())
}

// ---- what is left out

const ANEW: [(ColumnLists<'_>, ColumnLists<'_>); 8] = [
    // Flags that are all set, and bytes of no slot.
    (
        Binary32(&[1, 2], b"xay", Some(&[true])),
        Binary32(&[0, 1], b"a", None),
    ),
    (
        Utf8_64(&[1, 2], b"\xffa\xff", Some(&[true])),
        Utf8_64(&[0, 1], b"a", None),
    ),
    (
        Utf8View(&[ABC], &[b"unused"], Some(&[true])),
        Utf8View(&[ABC], &[], None),
    ),
    (Binary64(&[3], b"abc", Some(&[])), BinView(&[], &[], None)),
    (Fixed(5, b"", None), Binary32(&[0], b"", None)),
    (BinView(&[], &[b"abc"], None), Binary64(&[0], b"", None)),
    (Int64(&[], None), BinView(&[], &[], None)),
    // An empty slot is none that is null.
    (
        Utf8_32(&[0, 0, 0], b"", Some(&[true, false])),
        Utf8View(&[EMPTY, EMPTY], &[], Some(&[true, false])),
    ),
];

#[test]
fn what_no_slot_holds_is_left_out(rt: HostRuntime) -> Result<(), Fail> {
    for (own, wanted) in ANEW {
        let kind = kind_in(own);
        let next = kind_in(wanted);
        assert!(rt;
            step_leads(rt.alloc(), own, Rebuild(next), wanted)?,
            "{kind:?} {next:?}"
        );
    }
    Ok(())
}
