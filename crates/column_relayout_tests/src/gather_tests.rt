//! The steps that make the buffers of views anew.

use crate::cases::ColumnLists::{
    self, BinView, Binary32, Binary64, Fixed, Int64, Utf8_32, Utf8_64, Utf8View,
};
use crate::cases::Planned::{Dedupe, Gc, Rebuild};
use crate::cases::{ABC, EMPTY, kind_in};
use crate::checks::{buffers_hold, is_deduped, plan_leads, step_leads, step_refuses};
use column_base::Cause;
use column_relayout::Kind;
use std::test::Fail;

const GATHERED: [(ColumnLists<'_>, ColumnLists<'_>); 8] = [
    // The bytes of the null slot are kept, and the two before them are not.
    (
        BinView(
            &[b"\x0d\0\0\0aaaa\0\0\0\0\x02\0\0\0"],
            &[b"zzaaaaaaaaaaaaa"],
            Some(&[false]),
        ),
        BinView(
            &[b"\x0d\0\0\0aaaa\0\0\0\0\0\0\0\0"],
            &[b"aaaaaaaaaaaaa"],
            Some(&[false]),
        ),
    ),
    // A column without buffers is not looked at: flags that are all set stay too.
    (
        BinView(&[ABC, EMPTY], &[], Some(&[true, true])),
        BinView(&[ABC, EMPTY], &[], Some(&[true, true])),
    ),
    (Utf8View(&[], &[], None), Utf8View(&[], &[], None)),
    (
        Utf8View(&[ABC], &[], Some(&[false])),
        Utf8View(&[ABC], &[], Some(&[false])),
    ),
    // No slot is long.
    (
        BinView(&[ABC], &[b"unused", b""], None),
        BinView(&[ABC], &[], None),
    ),
    (
        Utf8View(
            &[b"\x0c\0\0\0abcdefghijkl", ABC],
            &[b"\xff"],
            Some(&[true, false]),
        ),
        Utf8View(&[b"\x0c\0\0\0abcdefghijkl", ABC], &[], Some(&[true, false])),
    ),
    (
        BinView(&[], &[b"aaaaaaaaaaaaa"], None),
        BinView(&[], &[], None),
    ),
    // What lies round the text is none.
    (
        Utf8View(
            &[ABC, b"\x0d\0\0\0aaaa\x01\0\0\0\x01\0\0\0"],
            &[b"", b"\xffaaaaaaaaaaaaa\xff"],
            None,
        ),
        Utf8View(
            &[ABC, b"\x0d\0\0\0aaaa\0\0\0\0\0\0\0\0"],
            &[b"aaaaaaaaaaaaa"],
            None,
        ),
    ),
];

#[test]
fn buffers_are_the_long_slots(rt: HostRuntime) -> Result<(), Fail> {
    for (own, wanted) in GATHERED {
        let kind = kind_in(own);
        assert!(rt; step_leads(rt.alloc(), own, Gc, wanted)?, "{kind:?}");
    }
    Ok(())
}

// Thirteen bytes, a short value, null over fourteen bytes, and the thirteen bytes again.
const FOUR: ColumnLists<'_> = BinView(
    &[
        b"\x0d\0\0\0bbbb\x01\0\0\0\x01\0\0\0",
        ABC,
        b"\x0e\0\0\0aaaa\0\0\0\0\0\0\0\0",
        b"\x0d\0\0\0bbbb\x01\0\0\0\x01\0\0\0",
    ],
    &[b"aaaaaaaaaaaaaab", b"xbbbbbbbbbbbbby"],
    Some(&[true, true, false, true]),
);

#[test]
fn several_long_slots_are_end_to_end(rt: HostRuntime) -> Result<(), Fail> {
    let bytes = b"bbbbbbbbbbbbbaaaaaaaaaaaaaabbbbbbbbbbbbb";
    assert!(rt; buffers_hold(rt.alloc(), FOUR, Gc, bytes, 3)?);
    let valid = b"bbbbbbbbbbbbbabcbbbbbbbbbbbbb";
    let flags: &[bool] = &[true, true, false, true];
    let slots = Binary32(&[0, 13, 16, 16, 29], valid, Some(flags));
    assert!(rt; plan_leads(rt.alloc(), FOUR, &[Gc, Rebuild(Kind::Binary32)], slots)?);
    Ok(())
}

const DEDUPED: [(ColumnLists<'_>, ColumnLists<'_>); 8] = [
    // The second buffer is named by no view, and the third one first.
    (
        BinView(
            &[
                b"\x0d\0\0\0cccc\x02\0\0\0\0\0\0\0",
                b"\x0d\0\0\0aaaa\0\0\0\0\0\0\0\0",
                b"\x0d\0\0\0cccc\x02\0\0\0\0\0\0\0",
            ],
            &[b"aaaaaaaaaaaaa", b"bbbbbbbbbbbbb", b"ccccccccccccc"],
            None,
        ),
        BinView(
            &[
                b"\x0d\0\0\0cccc\0\0\0\0\0\0\0\0",
                b"\x0d\0\0\0aaaa\x01\0\0\0\0\0\0\0",
                b"\x0d\0\0\0cccc\0\0\0\0\0\0\0\0",
            ],
            &[b"ccccccccccccc", b"aaaaaaaaaaaaa"],
            None,
        ),
    ),
    // The view of the null slot names the second buffer first.
    (
        Utf8View(
            &[
                b"\x0d\0\0\0bbbb\x01\0\0\0\0\0\0\0",
                b"\x0d\0\0\0aaaa\0\0\0\0\0\0\0\0",
            ],
            &[b"aaaaaaaaaaaaa", b"bbbbbbbbbbbbb"],
            Some(&[false, true]),
        ),
        Utf8View(
            &[
                b"\x0d\0\0\0bbbb\0\0\0\0\0\0\0\0",
                b"\x0d\0\0\0aaaa\x01\0\0\0\0\0\0\0",
            ],
            &[b"bbbbbbbbbbbbb", b"aaaaaaaaaaaaa"],
            Some(&[false, true]),
        ),
    ),
    // Two places of one buffer. Buffers stay whole, and so do the starts.
    (
        BinView(
            &[
                b"\x0d\0\0\0aaaa\x01\0\0\0\x03\0\0\0",
                ABC,
                b"\x0e\0\0\0aaaa\x01\0\0\0\x02\0\0\0",
            ],
            &[b"", b"zzaaaaaaaaaaaaaaz"],
            Some(&[true, true, true]),
        ),
        BinView(
            &[
                b"\x0d\0\0\0aaaa\0\0\0\0\x03\0\0\0",
                ABC,
                b"\x0e\0\0\0aaaa\0\0\0\0\x02\0\0\0",
            ],
            &[b"zzaaaaaaaaaaaaaaz"],
            Some(&[true, true, true]),
        ),
    ),
    // Equal buffers at two places stay two.
    (
        BinView(
            &[
                b"\x0d\0\0\0aaaa\x01\0\0\0\0\0\0\0",
                b"\x0d\0\0\0aaaa\0\0\0\0\0\0\0\0",
            ],
            &[b"aaaaaaaaaaaaa", b"aaaaaaaaaaaaa"],
            None,
        ),
        BinView(
            &[
                b"\x0d\0\0\0aaaa\0\0\0\0\0\0\0\0",
                b"\x0d\0\0\0aaaa\x01\0\0\0\0\0\0\0",
            ],
            &[b"aaaaaaaaaaaaa", b"aaaaaaaaaaaaa"],
            None,
        ),
    ),
    // No view is long.
    (
        BinView(&[ABC, EMPTY], &[b"unused", b""], None),
        BinView(&[ABC, EMPTY], &[], None),
    ),
    (Utf8View(&[], &[b"\xff"], None), Utf8View(&[], &[], None)),
    (
        Utf8View(&[ABC], &[], Some(&[false])),
        Utf8View(&[ABC], &[], Some(&[false])),
    ),
    (BinView(&[], &[], Some(&[])), BinView(&[], &[], Some(&[]))),
];

#[test]
fn buffers_are_those_that_views_name(rt: HostRuntime) -> Result<(), Fail> {
    for (own, wanted) in DEDUPED {
        let kind = kind_in(own);
        assert!(rt; step_leads(rt.alloc(), own, Dedupe, wanted)?, "{kind:?}");
    }
    Ok(())
}

#[test]
fn an_array_is_deduplicated_by_its_call(rt: HostRuntime) -> Result<(), Fail> {
    let [first, _, third, _, _, _, _, last] = DEDUPED;
    assert!(rt; is_deduped(rt.alloc(), first.0, first.1)?);
    assert!(rt; is_deduped(rt.alloc(), third.0, third.1)?);
    assert!(rt; is_deduped(rt.alloc(), last.0, last.1)?);
    Ok(())
}

const WITHOUT_VIEWS: [ColumnLists<'_>; 6] = [
    Binary32(&[0, 2, 2, 3], b"\x01\x02\x03", Some(&[true, false, true])),
    Binary64(&[0], b"", None),
    Utf8_32(&[0, 1], b"a", None),
    Utf8_64(&[0, 1], b"a", None),
    Fixed(3, b"abc", None),
    Int64(&[], None),
];

#[test]
fn only_views_have_buffers(rt: HostRuntime) -> Result<(), Fail> {
    for own in WITHOUT_VIEWS {
        let kind = kind_in(own);
        assert!(rt;
            step_refuses(rt.alloc(), own, Gc, Cause::WrongKind)?
                && step_refuses(rt.alloc(), own, Dedupe, Cause::WrongKind)?,
            "{kind:?}"
        );
    }
    Ok(())
}
