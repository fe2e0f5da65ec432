//! Plans of several steps.

use crate::cases::ColumnLists::{
    self, BinView, Binary32, Binary64, Fixed, Int64, Utf8_32, Utf8_64, Utf8View,
};
use crate::cases::Planned::{
    self, Append, Dedupe, Gc, Left, Rebuild, Right, Slice, ToBinary, ToUtf8,
};
use crate::cases::{ABC, EMPTY, LONG, Lists, Span, cut_character, eight, framed, kind_in, span_of};
use crate::checks::{both_lead, both_refuse, first_steps, plan_leads, plan_refuses};
use column_base::Cause;
use column_relayout::{ColumnError, Kind};
use std::test::Fail;

// ---- light steps

#[test]
fn plans_tell_the_first_refused_step(rt: HostRuntime) -> Result<(), Fail> {
    let far = usize::MAX;
    let framed = framed();
    let cut = cut_character();
    let table: [(Lists<'_>, &[Planned<'_>], usize, Cause); 17] = [
        (framed, &[ToUtf8], 0, Cause::InvalidUtf8),
        (framed, &[Right(1), ToUtf8, Left(9)], 1, Cause::InvalidUtf8),
        (framed, &[Left(3), ToUtf8, ToUtf8], 1, Cause::InvalidUtf8),
        (framed, &[Left(9), ToUtf8], 0, Cause::StepRange),
        (
            framed,
            &[Slice(1, 2), ToBinary, Left(9)],
            1,
            Cause::WrongKind,
        ),
        (cut, &[ToUtf8], 0, Cause::CharBoundary),
        (cut, &[Left(2), ToUtf8], 1, Cause::CharBoundary),
        (cut, &[Slice(1, 2), ToUtf8], 1, Cause::InvalidUtf8),
        (
            cut,
            &[Right(2), ToUtf8, ToUtf8, Left(9)],
            2,
            Cause::WrongKind,
        ),
        (
            cut,
            &[Right(2), ToUtf8, ToBinary, ToBinary],
            3,
            Cause::WrongKind,
        ),
        (
            cut,
            &[Right(2), ToUtf8, Right(2), ToUtf8],
            2,
            Cause::StepRange,
        ),
        (
            cut,
            &[Slice(1, 1), Slice(0, 1), Slice(1, 1), Slice(9, 9)],
            2,
            Cause::StepRange,
        ),
        (cut, &[Slice(1, 2), Slice(3, 0)], 1, Cause::StepRange),
        (cut, &[Slice(1, 2), Slice(far, 1)], 1, Cause::StepRange),
        (cut, &[Left(2), Left(3)], 1, Cause::StepRange),
        (cut, &[Right(2), Right(2)], 1, Cause::StepRange),
        (cut, &[Slice(3, 0), Right(far)], 1, Cause::StepRange),
    ];
    for (own, plan, at, cause) in table {
        assert!(rt; both_refuse(rt.alloc(), own, plan, (at, cause))?, "{at}");
    }
    Ok(())
}

#[test]
fn plans_lead_to_columns(rt: HostRuntime) -> Result<(), Fail> {
    let framed = framed();
    let cut = cut_character();
    // Whether the slots are texts then, and which of them are left.
    let table: [(Lists<'_>, &[Planned<'_>], bool, Span); 8] = [
        (framed, &[Slice(1, 2), ToUtf8], true, span_of(1, 2, false)),
        (
            framed,
            &[Right(1), Left(2), ToUtf8],
            true,
            span_of(1, 2, false),
        ),
        (
            framed,
            &[Left(1), Left(0), ToUtf8],
            true,
            span_of(0, 0, false),
        ),
        (cut, &[Right(2), ToUtf8], true, span_of(2, 1, false)),
        (cut, &[], false, span_of(0, 3, true)),
        (
            cut,
            &[Slice(1, 2), Slice(1, 1), Left(1)],
            false,
            span_of(2, 1, false),
        ),
        (
            cut,
            &[Slice(1, 2), Slice(2, 0), Right(0)],
            false,
            span_of(3, 0, false),
        ),
        (cut, &[Left(2), Right(1)], false, span_of(1, 1, true)),
    ];
    for (own, plan, text, left) in table {
        assert!(rt;
            both_lead(rt.alloc(), own, plan, (false, text), left)?,
            "{}",
            left.from
        );
    }
    Ok(())
}

const OF_BYTES: [Planned<'_>; 10] = [
    Slice(0, 8),
    ToUtf8,
    Right(1),
    Left(6),
    ToBinary,
    Slice(1, 5),
    Right(1),
    ToUtf8,
    Slice(1, 3),
    Right(1),
];

const OF_TEXTS: [Planned<'_>; 10] = [
    Slice(0, 8),
    ToBinary,
    Right(1),
    Left(6),
    ToUtf8,
    Slice(1, 5),
    Right(1),
    ToBinary,
    Slice(1, 3),
    Right(1),
];

// How many of the steps are taken; whether the kind is another then than at first; the slots that are left.
const TEN: [(usize, bool, Span); 10] = [
    (
        1,
        false,
        Span {
            from: 0,
            count: 8,
            flagged: true,
        },
    ),
    (
        2,
        true,
        Span {
            from: 0,
            count: 8,
            flagged: true,
        },
    ),
    (
        3,
        true,
        Span {
            from: 1,
            count: 7,
            flagged: true,
        },
    ),
    (
        4,
        true,
        Span {
            from: 1,
            count: 6,
            flagged: true,
        },
    ),
    (
        5,
        false,
        Span {
            from: 1,
            count: 6,
            flagged: true,
        },
    ),
    (
        6,
        false,
        Span {
            from: 2,
            count: 5,
            flagged: true,
        },
    ),
    (
        7,
        false,
        Span {
            from: 3,
            count: 4,
            flagged: true,
        },
    ),
    (
        8,
        true,
        Span {
            from: 3,
            count: 4,
            flagged: true,
        },
    ),
    (
        9,
        true,
        Span {
            from: 4,
            count: 3,
            flagged: true,
        },
    ),
    (
        10,
        true,
        Span {
            from: 5,
            count: 2,
            flagged: false,
        },
    ),
];

#[test]
fn ten_light_steps_move_no_byte(rt: HostRuntime) -> Result<(), Fail> {
    for (count, is_other, left) in TEN {
        let plan = first_steps(&OF_BYTES, count);
        assert!(rt;
            both_lead(rt.alloc(), eight(), plan, (false, is_other), left)?,
            "{count}"
        );
        let plan = first_steps(&OF_TEXTS, count);
        assert!(rt;
            both_lead(rt.alloc(), eight(), plan, (true, !is_other), left)?,
            "{count}"
        );
    }
    Ok(())
}

const OF_OTHERS: [(ColumnLists<'_>, &[Planned<'_>], ColumnLists<'_>); 7] = [
    (
        Fixed(2, b"aabbccdd", Some(&[true, false, true, true])),
        &[Right(4), Left(0)],
        Fixed(2, b"", None),
    ),
    (
        BinView(&[LONG, ABC, EMPTY], &[b"-abcdefghijklm-"], None),
        &[Right(1), ToUtf8, Left(1)],
        Utf8View(&[ABC], &[b"-abcdefghijklm-"], None),
    ),
    (
        Utf8View(&[LONG, ABC, EMPTY], &[b"-abcdefghijklm-"], None),
        &[ToBinary, Left(1)],
        BinView(&[LONG], &[b"-abcdefghijklm-"], None),
    ),
    (
        Fixed(2, b"aabbccdd", Some(&[true, false, true, true])),
        &[Slice(1, 3), Right(1), Left(1)],
        Fixed(2, b"cc", None),
    ),
    (
        Int64(&[1, -2, 3, -4], Some(&[true, false, true, true])),
        &[Slice(1, 3), Right(1), Left(1)],
        Int64(&[3], None),
    ),
    // Views keep all their buffers.
    (
        BinView(
            &[LONG, ABC, EMPTY],
            &[b"-abcdefghijklm-", b"\xff"],
            Some(&[true, true, true]),
        ),
        &[ToUtf8, Slice(0, 2), ToBinary],
        BinView(&[LONG, ABC], &[b"-abcdefghijklm-", b"\xff"], None),
    ),
    (
        BinView(
            &[LONG, ABC, EMPTY],
            &[b"-abcdefghijklm-"],
            Some(&[true, true, false]),
        ),
        &[Right(1), ToUtf8, Right(2)],
        Utf8View(&[], &[b"-abcdefghijklm-"], None),
    ),
];

#[test]
fn plans_cut_other_layouts(rt: HostRuntime) -> Result<(), Fail> {
    for (own, plan, wanted) in OF_OTHERS {
        let kind = kind_in(own);
        assert!(rt; plan_leads(rt.alloc(), own, plan, wanted)?, "{kind:?}");
    }
    Ok(())
}

// ---- steps that write anew, and light ones before and after them

const WRITTEN: [(ColumnLists<'_>, &[Planned<'_>], ColumnLists<'_>); 13] = [
    // A cut keeps the buffers, the old one and the further one.
    (
        BinView(
            &[b"\x0c\0\0\0abcdefghijkl", b"\x0d\0\0\0abcd\0\0\0\0\0\0\0\0"],
            &[b"abcdefghijklm"],
            None,
        ),
        &[Append(&[Some(b"abcdefghijklmn")]), Left(1)],
        BinView(
            &[b"\x0c\0\0\0abcdefghijkl"],
            &[b"abcdefghijklm", b"abcdefghijklmn"],
            None,
        ),
    ),
    // And all the bytes that were written.
    (
        Binary64(
            &[0, 1, 2, 4],
            b"\xaa\xbb\xcc\xdd",
            Some(&[true, false, true]),
        ),
        &[
            Slice(1, 2),
            Append(&[Some(b"\xee"), Some(b""), None]),
            Left(1),
        ],
        Binary64(&[0, 1], b"\xbb\xcc\xdd\xee", Some(&[false])),
    ),
    (
        Binary32(
            &[0, 1, 2, 4],
            b"\xaa\xbb\xcc\xdd",
            Some(&[true, false, true]),
        ),
        &[
            Slice(1, 2),
            Append(&[Some(b"\xee"), Some(b""), None]),
            Left(1),
        ],
        Binary32(&[0, 1], b"\xbb\xcc\xdd\xee", Some(&[false])),
    ),
    (
        Utf8View(
            &[
                b"\x04\0\0\0Oslo\0\0\0\0\0\0\0\0",
                b"\x0d\0\0\0San \0\0\0\0\0\0\0\0",
                b"\0\0\0\0\0\0\0\0\0\0\0\0\0\0\0\0",
            ],
            &[b"San Francisco"],
            Some(&[true, true, false]),
        ),
        &[Left(2), Rebuild(Kind::Utf8_64)],
        Utf8_64(&[0, 4, 17], b"OsloSan Francisco", None),
    ),
    (
        Utf8_32(&[1, 3, 3, 4], b"\xffabc\xff", Some(&[true, false, true])),
        &[
            Append(&[Some(b"de"), None]),
            Rebuild(Kind::Binary64),
            Right(3),
        ],
        Binary64(&[3, 5, 5], b"abcde", Some(&[true, false])),
    ),
    (
        BinView(
            &[b"\x0d\0\0\0aaaa\x01\0\0\0\x02\0\0\0", ABC],
            &[b"x", b"zzaaaaaaaaaaaaa"],
            None,
        ),
        &[Gc, Right(1), ToUtf8],
        Utf8View(&[ABC], &[b"aaaaaaaaaaaaa"], None),
    ),
    (
        BinView(
            &[
                b"\x0d\0\0\0cccc\x02\0\0\0\0\0\0\0",
                b"\x0d\0\0\0aaaa\0\0\0\0\0\0\0\0",
                b"\x0d\0\0\0cccc\x02\0\0\0\0\0\0\0",
            ],
            &[b"aaaaaaaaaaaaa", b"bbbbbbbbbbbbb", b"ccccccccccccc"],
            None,
        ),
        &[Dedupe, Left(1)],
        BinView(
            &[b"\x0d\0\0\0cccc\0\0\0\0\0\0\0\0"],
            &[b"ccccccccccccc", b"aaaaaaaaaaaaa"],
            None,
        ),
    ),
    // Only what was not cut away before names a buffer.
    (
        BinView(
            &[
                b"\x0d\0\0\0cccc\x02\0\0\0\0\0\0\0",
                b"\x0d\0\0\0aaaa\0\0\0\0\0\0\0\0",
                b"\x0d\0\0\0cccc\x02\0\0\0\0\0\0\0",
            ],
            &[b"aaaaaaaaaaaaa", b"bbbbbbbbbbbbb", b"ccccccccccccc"],
            None,
        ),
        &[Right(1), Left(1), Dedupe],
        BinView(
            &[b"\x0d\0\0\0aaaa\0\0\0\0\0\0\0\0"],
            &[b"aaaaaaaaaaaaa"],
            None,
        ),
    ),
    (
        Binary32(&[0, 13, 14], b"aaaaaaaaaaaaab", None),
        &[Rebuild(Kind::BinView), Right(1)],
        BinView(
            &[b"\x01\0\0\0b\0\0\0\0\0\0\0\0\0\0\0"],
            &[b"aaaaaaaaaaaaa"],
            None,
        ),
    ),
    // Slots of one length are cut with their bytes, or numbers.
    (
        Fixed(2, b"aabbcc", None),
        &[Append(&[None]), Right(2)],
        Fixed(2, b"cc\0\0", Some(&[true, false])),
    ),
    (
        Utf8_32(&[0, 2, 4], b"abcd", None),
        &[Rebuild(Kind::Fixed(2)), Left(1), Append(&[Some(b"ef")])],
        Fixed(2, b"abef", None),
    ),
    (
        Int64(&[1, 2], None),
        &[
            Append(&[Some(b"abcdefgh"), None]),
            Slice(1, 3),
            Rebuild(Kind::Binary32),
        ],
        Binary32(
            &[0, 8, 16, 16],
            b"\x02\0\0\0\0\0\0\0abcdefgh",
            Some(&[true, true, false]),
        ),
    ),
    // Each of the steps that write anew.
    (
        BinView(
            &[
                b"\x0d\0\0\0cccc\x02\0\0\0\0\0\0\0",
                b"\x0d\0\0\0aaaa\0\0\0\0\0\0\0\0",
                b"\x0d\0\0\0cccc\x02\0\0\0\0\0\0\0",
            ],
            &[b"aaaaaaaaaaaaa", b"bbbbbbbbbbbbb", b"ccccccccccccc"],
            None,
        ),
        &[
            Dedupe,
            Append(&[Some(b"abcdefghijklmn")]),
            Gc,
            ToUtf8,
            Rebuild(Kind::Utf8_64),
            Right(2),
        ],
        Utf8_64(
            &[26, 39, 53],
            b"cccccccccccccaaaaaaaaaaaaacccccccccccccabcdefghijklmn",
            None,
        ),
    ),
];

#[test]
fn plans_write_anew(rt: HostRuntime) -> Result<(), Fail> {
    for (own, plan, wanted) in WRITTEN {
        let steps = plan.len();
        assert!(rt; plan_leads(rt.alloc(), own, plan, wanted)?, "{steps}");
    }
    Ok(())
}

const REFUSED: [(ColumnLists<'_>, &[Planned<'_>], ColumnError); 23] = [
    (
        Binary32(&[0, 2, 2, 3], b"\x01\x02\x03", Some(&[true, false, true])),
        &[ToBinary],
        ColumnError::Step(0, Cause::WrongKind),
    ),
    (
        Binary32(&[0, 2, 2, 3], b"\x01\x02\x03", Some(&[true, false, true])),
        &[Rebuild(Kind::Utf8_32)],
        ColumnError::Step(0, Cause::WrongKind),
    ),
    (
        Binary32(&[0, 2, 2, 3], b"\x01\x02\x03", Some(&[true, false, true])),
        &[Rebuild(Kind::Fixed(0))],
        ColumnError::Step(0, Cause::SizeZero),
    ),
    (
        Binary32(&[0, 2, 2, 3], b"\x01\x02\x03", Some(&[true, false])),
        &[Gc],
        ColumnError::Parts(Cause::ValidityLength),
    ),
    (
        Utf8_32(&[0, 2, 2, 7], b"hithere", Some(&[true, false, true])),
        &[Append(&[Some(b"\xff")])],
        ColumnError::Step(0, Cause::InvalidUtf8),
    ),
    (
        Fixed(3, b"\x01\x02\x03\x04\x05\x06", None),
        &[Append(&[Some(b"\x01")])],
        ColumnError::Step(0, Cause::WrongLength),
    ),
    (
        Fixed(3, b"aabb", None),
        &[Rebuild(Kind::Fixed(0))],
        ColumnError::Parts(Cause::NotMultiple),
    ),
    // The first step that is refused, whichever it is.
    (
        Binary32(&[0, 1], b"a", None),
        &[Left(9), Gc],
        ColumnError::Step(0, Cause::StepRange),
    ),
    (
        Binary32(&[0, 1], b"a", None),
        &[Left(1), Gc, Left(9)],
        ColumnError::Step(1, Cause::WrongKind),
    ),
    (
        Binary32(&[0, 1], b"a", None),
        &[Left(1), Rebuild(Kind::BinView), Gc, Rebuild(Kind::Utf8View)],
        ColumnError::Step(3, Cause::WrongKind),
    ),
    (
        Binary32(&[0, 1], b"a", None),
        &[Rebuild(Kind::BinView), Append(&[Some(b"\xff")]), ToUtf8],
        ColumnError::Step(2, Cause::InvalidUtf8),
    ),
    // A character lies in a slot and a row.
    (
        Binary32(&[0, 1], b"\xc3", None),
        &[Append(&[Some(b"\xa9")]), ToUtf8],
        ColumnError::Step(1, Cause::CharBoundary),
    ),
    // What a step left is what the next one meets.
    (
        Int64(&[1], None),
        &[Append(&[None]), Left(3)],
        ColumnError::Step(1, Cause::StepRange),
    ),
    (
        Int64(&[1], None),
        &[Append(&[None]), Left(2), Dedupe],
        ColumnError::Step(2, Cause::WrongKind),
    ),
    (
        BinView(&[ABC], &[], None),
        &[Rebuild(Kind::Fixed(3)), Append(&[Some(b"ab")])],
        ColumnError::Step(1, Cause::WrongLength),
    ),
    (
        BinView(&[ABC], &[], None),
        &[
            Dedupe,
            ToUtf8,
            Append(&[Some(b"a")]),
            Rebuild(Kind::Fixed(3)),
        ],
        ColumnError::Step(3, Cause::WrongLength),
    ),
    // The light steps alone, over slots of one length.
    (
        Fixed(2, b"aabb", None),
        &[Right(1), Slice(1, 1)],
        ColumnError::Step(1, Cause::StepRange),
    ),
    (
        Int64(&[1, -2], None),
        &[Right(1), Slice(1, 1)],
        ColumnError::Step(1, Cause::StepRange),
    ),
    (
        Fixed(2, b"aabb", None),
        &[ToBinary, Left(9)],
        ColumnError::Step(0, Cause::WrongKind),
    ),
    (
        Int64(&[1, -2], None),
        &[ToBinary, Left(9)],
        ColumnError::Step(0, Cause::WrongKind),
    ),
    (
        Fixed(2, b"aabb", None),
        &[Left(0), ToUtf8],
        ColumnError::Step(1, Cause::WrongKind),
    ),
    (
        Int64(&[1, -2], None),
        &[Left(0), ToUtf8],
        ColumnError::Step(1, Cause::WrongKind),
    ),
    // A want of memory ends the plan.
    (
        Fixed(1, b"a", Some(&[false])),
        &[Left(1), Rebuild(Kind::Fixed(usize::MAX)), Left(9)],
        ColumnError::NoMemory,
    ),
];

#[test]
fn plans_that_write_anew_are_refused(rt: HostRuntime) -> Result<(), Fail> {
    for (own, plan, refusal) in REFUSED {
        assert!(rt;
            plan_refuses(rt.alloc(), own, plan, refusal)?,
            "{refusal:?}"
        );
    }
    Ok(())
}
