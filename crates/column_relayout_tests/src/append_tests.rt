//! Rows, and the step that appends them.

use crate::cases::ColumnLists::{
    self, BinView, Binary32, Binary64, Fixed, Int64, Utf8_32, Utf8_64, Utf8View,
};
use crate::cases::Planned::{self, Append, Rebuild};
use crate::cases::{ABC, EMPTY, kind_in, lists_of, three};
use crate::checks::{
    all_lead, buffers_hold, no_rows_are, plan_leads, pushed_rows_are, rows_with_room_are,
    step_leads, step_refuses, step_wants_memory,
};
use column_base::Cause;
use column_relayout::Kind;
use std::test::Fail;

#[test]
fn rows_are_read(rt: HostRuntime) -> Result<(), Fail> {
    assert!(rt; pushed_rows_are(rt.alloc())?);
    assert!(rt; rows_with_room_are(rt.alloc())?);
    assert!(rt; no_rows_are(rt.alloc()));
    Ok(())
}

// ---- with offsets

#[test]
fn rows_follow_in_each_kind_with_offsets(rt: HostRuntime) -> Result<(), Fail> {
    let rows: &[Option<&[u8]>] = &[Some(b"de"), Some(b""), None];
    let wanted = lists_of(
        &[0, 2, 2, 3, 5, 5, 5],
        b"abcde",
        Some(&[true, false, true, true, true, false]),
    );
    assert!(rt; all_lead(rt.alloc(), three(), Append(rows), wanted)?);
    let alone = lists_of(&[0, 2, 2, 3], b"abc", Some(&[true, false, true]));
    assert!(rt; all_lead(rt.alloc(), three(), Append(&[]), alone)?);
    let bare = lists_of(&[1, 2], b"\xffa\xff", None);
    let longer = lists_of(&[0, 1, 3], b"a\xc3\xa9", None);
    assert!(rt; all_lead(rt.alloc(), bare, Append(&[Some(b"\xc3\xa9")]), longer)?);
    let null = lists_of(&[0, 1, 1], b"a", Some(&[true, false]));
    assert!(rt; all_lead(rt.alloc(), bare, Append(&[None]), null)?);
    Ok(())
}

const WITH_OFFSETS: [(ColumnLists<'_>, &[Planned<'_>], ColumnLists<'_>); 5] = [
    // A byte lies before the slots that were cut out, and the null one keeps its byte.
    (
        Binary64(
            &[0, 1, 2, 4],
            b"\xaa\xbb\xcc\xdd",
            Some(&[true, false, true]),
        ),
        &[
            Planned::Slice(1, 2),
            Append(&[Some(b"\xee"), Some(b""), None]),
        ],
        Binary64(
            &[0, 1, 3, 4, 4, 4],
            b"\xbb\xcc\xdd\xee",
            Some(&[false, true, true, true, false]),
        ),
    ),
    (
        Binary32(
            &[0, 1, 2, 4],
            b"\xaa\xbb\xcc\xdd",
            Some(&[true, false, true]),
        ),
        &[
            Planned::Slice(1, 2),
            Append(&[Some(b"\xee"), Some(b""), None]),
        ],
        Binary32(
            &[0, 1, 3, 4, 4, 4],
            b"\xbb\xcc\xdd\xee",
            Some(&[false, true, true, true, false]),
        ),
    ),
    (
        Binary32(
            &[0, 1, 2, 4],
            b"\xaa\xbb\xcc\xdd",
            Some(&[true, false, true]),
        ),
        &[Planned::Slice(1, 2), Append(&[None, None])],
        Binary32(
            &[0, 1, 3, 3, 3],
            b"\xbb\xcc\xdd",
            Some(&[false, true, false, false]),
        ),
    ),
    (
        Binary64(
            &[0, 1, 2, 4],
            b"\xaa\xbb\xcc\xdd",
            Some(&[true, false, true]),
        ),
        &[Planned::Slice(1, 2), Append(&[])],
        Binary64(&[0, 1, 3], b"\xbb\xcc\xdd", Some(&[false, true])),
    ),
    // Byte strings need not be texts.
    (
        Binary32(&[3], b"abc", None),
        &[Append(&[Some(b"\xc3"), Some(b"\xa9")])],
        Binary32(&[0, 1, 2], b"\xc3\xa9", None),
    ),
];

#[test]
fn rows_follow_slots_that_were_cut(rt: HostRuntime) -> Result<(), Fail> {
    for (own, plan, wanted) in WITH_OFFSETS {
        let kind = kind_in(own);
        assert!(rt; plan_leads(rt.alloc(), own, plan, wanted)?, "{kind:?}");
    }
    Ok(())
}

// ---- the other layouts

const OTHERS: [(ColumnLists<'_>, &[Option<&[u8]>], ColumnLists<'_>); 14] = [
    // The old buffer stays, and a further one holds the long row.
    (
        BinView(
            &[b"\x0c\0\0\0abcdefghijkl", b"\x0d\0\0\0abcd\0\0\0\0\0\0\0\0"],
            &[b"abcdefghijklm"],
            None,
        ),
        &[Some(b"abcdefghijklmn")],
        BinView(
            &[
                b"\x0c\0\0\0abcdefghijkl",
                b"\x0d\0\0\0abcd\0\0\0\0\0\0\0\0",
                b"\x0e\0\0\0abcd\x01\0\0\0\0\0\0\0",
            ],
            &[b"abcdefghijklm", b"abcdefghijklmn"],
            None,
        ),
    ),
    // A given row, an empty one and a missing one. The null slot keeps its bytes, and buffers that no view names stay.
    (
        BinView(&[EMPTY, ABC], &[b"unused", b""], Some(&[true, false])),
        &[Some(b"\xff"), Some(b""), None],
        BinView(
            &[
                EMPTY,
                ABC,
                b"\x01\0\0\0\xff\0\0\0\0\0\0\0\0\0\0\0",
                EMPTY,
                EMPTY,
            ],
            &[b"unused", b""],
            Some(&[true, false, true, true, false]),
        ),
    ),
    (
        Utf8View(&[ABC], &[], None),
        &[Some(b"\xc3\xa9"), Some(b""), None],
        Utf8View(
            &[ABC, b"\x02\0\0\0\xc3\xa9\0\0\0\0\0\0\0\0\0\0", EMPTY, EMPTY],
            &[],
            Some(&[true, true, true, false]),
        ),
    ),
    // What lies in the buffers need not be text.
    (
        Utf8View(&[ABC], &[b"\xff", b""], None),
        &[Some(b"abcdefghijkl"), Some(b"abcdefghijk\xc3\xa9")],
        Utf8View(
            &[
                ABC,
                b"\x0c\0\0\0abcdefghijkl",
                b"\x0d\0\0\0abcd\x02\0\0\0\0\0\0\0",
            ],
            &[b"\xff", b"", b"abcdefghijk\xc3\xa9"],
            None,
        ),
    ),
    (
        BinView(&[], &[], None),
        &[None],
        BinView(&[EMPTY], &[], Some(&[false])),
    ),
    (
        Utf8View(&[ABC], &[b"unused"], Some(&[false])),
        &[],
        Utf8View(&[ABC], &[b"unused"], Some(&[false])),
    ),
    // A missing row has zeros where slots have a width. The null slot keeps its bytes.
    (
        Fixed(2, b"aabb", Some(&[true, false])),
        &[Some(b"cd"), None],
        Fixed(2, b"aabbcd\0\0", Some(&[true, false, true, false])),
    ),
    (
        Fixed(3, b"", None),
        &[None, Some(b"abc")],
        Fixed(3, b"\0\0\0abc", Some(&[false, true])),
    ),
    (
        Fixed(3, b"abc", None),
        &[Some(b"\xff\0a")],
        Fixed(3, b"abc\xff\0a", None),
    ),
    (
        Fixed(usize::MAX, b"", None),
        &[],
        Fixed(usize::MAX, b"", None),
    ),
    (
        Int64(&[1, 7], Some(&[true, false])),
        &[Some(b"abcdefgh"), None],
        Int64(
            &[1, 7, 7523094288207667809, 0],
            Some(&[true, false, true, false]),
        ),
    ),
    (
        Int64(&[], None),
        &[
            Some(b"\xff\xff\xff\xff\xff\xff\xff\xff"),
            Some(b"\0\0\0\0\0\0\0\x80"),
        ],
        Int64(&[-1, i64::MIN], None),
    ),
    (
        Int64(&[5], None),
        &[None],
        Int64(&[5, 0], Some(&[true, false])),
    ),
    (
        Int64(&[5], Some(&[false])),
        &[],
        Int64(&[5], Some(&[false])),
    ),
];

#[test]
fn rows_follow_in_other_layouts(rt: HostRuntime) -> Result<(), Fail> {
    for (own, rows, wanted) in OTHERS {
        let kind = kind_in(own);
        assert!(rt;
            step_leads(rt.alloc(), own, Append(rows), wanted)?,
            "{kind:?}"
        );
    }
    Ok(())
}

// A view of the one buffer.
const ONE: ColumnLists<'_> = BinView(
    &[b"\x0d\0\0\0aaaa\0\0\0\0\0\0\0\0"],
    &[b"aaaaaaaaaaaaa"],
    None,
);

const LONG_ROWS: &[Option<&[u8]>] = &[Some(b"bbbbbbbbbbbbb"), None, Some(b"cccccccccccccc")];

#[test]
fn several_long_rows_are_end_to_end(rt: HostRuntime) -> Result<(), Fail> {
    let bytes = b"aaaaaaaaaaaaabbbbbbbbbbbbbcccccccccccccc";
    assert!(rt; buffers_hold(rt.alloc(), ONE, Append(LONG_ROWS), bytes, 3)?);
    let plan = [Append(LONG_ROWS), Rebuild(Kind::Binary64)];
    let flags: &[bool] = &[true, true, false, true];
    let slots = Binary64(&[0, 13, 26, 26, 40], bytes, Some(flags));
    assert!(rt; plan_leads(rt.alloc(), ONE, &plan, slots)?);
    Ok(())
}

// ---- refusals

const REFUSED: [(ColumnLists<'_>, &[Option<&[u8]>], Cause); 14] = [
    (
        Utf8_32(&[0, 2, 2, 7], b"hithere", Some(&[true, false, true])),
        &[Some(b"\xff")],
        Cause::InvalidUtf8,
    ),
    (
        Utf8_64(&[0], b"", None),
        &[Some(b"a"), None, Some(b"\xff")],
        Cause::InvalidUtf8,
    ),
    (
        Utf8View(&[ABC], &[], None),
        &[Some(b"\xff"), Some(b"a")],
        Cause::InvalidUtf8,
    ),
    // Each row is to be a text by itself.
    (
        Utf8_32(&[0], b"", None),
        &[Some(b"\xc3"), Some(b"\xa9")],
        Cause::InvalidUtf8,
    ),
    (
        Utf8_64(&[0], b"", None),
        &[Some(b"a"), Some(b"\xa9")],
        Cause::InvalidUtf8,
    ),
    (
        Utf8View(&[], &[], None),
        &[Some(b"abcdefghijkl\xc3"), Some(b"\xa9")],
        Cause::InvalidUtf8,
    ),
    (
        Fixed(3, b"\x01\x02\x03\x04\x05\x06", None),
        &[Some(b"\x01")],
        Cause::WrongLength,
    ),
    (
        Fixed(3, b"", None),
        &[Some(b"abc"), None, Some(b"ab")],
        Cause::WrongLength,
    ),
    (
        Fixed(3, b"", None),
        &[Some(b"abcd"), Some(b"abc")],
        Cause::WrongLength,
    ),
    (Fixed(1, b"", None), &[Some(b"")], Cause::WrongLength),
    (
        Int64(&[1], None),
        &[Some(b"abcdefgh"), Some(b"abcdefg")],
        Cause::WrongLength,
    ),
    (
        Int64(&[1], None),
        &[None, Some(b"abcdefghi")],
        Cause::WrongLength,
    ),
    (Int64(&[], None), &[Some(b"")], Cause::WrongLength),
    // Two slots of so many bytes pass what can be counted.
    (Fixed(usize::MAX, b"", None), &[None, None], Cause::Overflow),
];

#[test]
fn rows_are_refused(rt: HostRuntime) -> Result<(), Fail> {
    for (own, rows, cause) in REFUSED {
        let kind = kind_in(own);
        assert!(rt;
            step_refuses(rt.alloc(), own, Append(rows), cause)?,
            "{kind:?}"
        );
    }
    // One such slot can be counted, and there is no memory for it.
    let widest = Fixed(usize::MAX, b"", None);
    assert!(rt; step_wants_memory(rt.alloc(), widest, Append(&[None]))?);
    Ok(())
}
