//! Cuts of columns, by their calls and by plans of one step.

use crate::cases::ColumnLists::{self, BinView, Fixed, Int64, Utf8View};
use crate::cases::Planned::{self, Left, Right, Slice};
use crate::cases::{ABC, EMPTY, LONG, Lists, Span, kind_in, lists_of, span_of, three, without};
use crate::checks::{all_cut, all_pass, step_leads, step_refuses};
use column_base::Cause;
use std::test::Fail;

const CUTS: [(Planned<'_>, Span); 17] = [
    (
        Slice(0, 3),
        Span {
            from: 0,
            count: 3,
            flagged: true,
        },
    ),
    (
        Slice(0, 2),
        Span {
            from: 0,
            count: 2,
            flagged: true,
        },
    ),
    (
        Slice(1, 2),
        Span {
            from: 1,
            count: 2,
            flagged: true,
        },
    ),
    (
        Slice(1, 1),
        Span {
            from: 1,
            count: 1,
            flagged: true,
        },
    ),
    (
        Slice(0, 1),
        Span {
            from: 0,
            count: 1,
            flagged: false,
        },
    ),
    (
        Slice(2, 1),
        Span {
            from: 2,
            count: 1,
            flagged: false,
        },
    ),
    (
        Slice(0, 0),
        Span {
            from: 0,
            count: 0,
            flagged: false,
        },
    ),
    (
        Slice(1, 0),
        Span {
            from: 1,
            count: 0,
            flagged: false,
        },
    ),
    (
        Slice(3, 0),
        Span {
            from: 3,
            count: 0,
            flagged: false,
        },
    ),
    (
        Left(0),
        Span {
            from: 0,
            count: 0,
            flagged: false,
        },
    ),
    (
        Left(1),
        Span {
            from: 0,
            count: 1,
            flagged: false,
        },
    ),
    (
        Left(2),
        Span {
            from: 0,
            count: 2,
            flagged: true,
        },
    ),
    (
        Left(3),
        Span {
            from: 0,
            count: 3,
            flagged: true,
        },
    ),
    (
        Right(0),
        Span {
            from: 0,
            count: 3,
            flagged: true,
        },
    ),
    (
        Right(1),
        Span {
            from: 1,
            count: 2,
            flagged: true,
        },
    ),
    (
        Right(2),
        Span {
            from: 2,
            count: 1,
            flagged: false,
        },
    ),
    (
        Right(3),
        Span {
            from: 3,
            count: 0,
            flagged: false,
        },
    ),
];

#[test]
fn cuts_are_the_slots_they_name(rt: HostRuntime) -> Result<(), Fail> {
    for (step, left) in CUTS {
        assert!(rt; all_cut(rt.alloc(), three(), step, left)?, "{}", left.from);
    }
    Ok(())
}

#[test]
fn flags_that_are_all_set_are_dropped(rt: HostRuntime) -> Result<(), Fail> {
    let valid = lists_of(&[0, 1, 2], b"ab", Some(&[true, true]));
    let bare = lists_of(&[0, 1, 2], b"ab", None);
    let without = without();
    let table: [(Lists<'_>, Planned<'_>, Span); 9] = [
        (valid, Slice(0, 2), span_of(0, 2, false)),
        (valid, Left(2), span_of(0, 2, false)),
        (valid, Right(0), span_of(0, 2, false)),
        (bare, Slice(1, 1), span_of(1, 1, false)),
        (bare, Left(1), span_of(0, 1, false)),
        (bare, Right(1), span_of(1, 1, false)),
        (without, Slice(0, 0), span_of(0, 0, false)),
        (without, Left(0), span_of(0, 0, false)),
        (without, Right(0), span_of(0, 0, false)),
    ];
    for (own, step, left) in table {
        assert!(rt; all_cut(rt.alloc(), own, step, left)?, "{}", left.from);
    }
    Ok(())
}

#[test]
fn cuts_past_the_end_are_refused(rt: HostRuntime) -> Result<(), Fail> {
    let far = usize::MAX;
    for step in [
        Slice(0, 4),
        Slice(1, 3),
        Slice(3, 1),
        Slice(4, 0),
        Slice(0, far),
        Slice(1, far),
        Slice(far, 0),
        Slice(far, 1),
        Slice(far, 3),
        Slice(far, far),
        Left(4),
        Left(far),
        Right(4),
        Right(far),
    ] {
        assert!(rt; all_pass(rt.alloc(), three(), step)?);
    }
    for step in [
        Slice(0, 1),
        Slice(1, 0),
        Slice(far, 1),
        Left(1),
        Right(1),
        Right(far),
    ] {
        assert!(rt; all_pass(rt.alloc(), without(), step)?);
    }
    Ok(())
}

// ---- the other layouts

const CUTS_OF_OTHERS: [(ColumnLists<'_>, Planned<'_>, ColumnLists<'_>); 12] = [
    // Value bytes of slots of one width are cut with their slots.
    (
        Fixed(2, b"aabbccdd", Some(&[true, false, true, true])),
        Left(2),
        Fixed(2, b"aabb", Some(&[true, false])),
    ),
    (
        Fixed(2, b"aabbccdd", Some(&[true, false, true, true])),
        Right(1),
        Fixed(2, b"bbccdd", Some(&[false, true, true])),
    ),
    (
        Fixed(2, b"aabbccdd", Some(&[true, false, true, true])),
        Slice(1, 2),
        Fixed(2, b"bbcc", Some(&[false, true])),
    ),
    (
        Fixed(2, b"aabbccdd", Some(&[true, false, true, true])),
        Right(2),
        Fixed(2, b"ccdd", None),
    ),
    // And so are numbers.
    (
        Int64(&[1, -2, 3, -4], Some(&[true, false, true, true])),
        Left(2),
        Int64(&[1, -2], Some(&[true, false])),
    ),
    (
        Int64(&[1, -2, 3, -4], Some(&[true, false, true, true])),
        Right(1),
        Int64(&[-2, 3, -4], Some(&[false, true, true])),
    ),
    (
        Int64(&[1, -2, 3, -4], Some(&[true, false, true, true])),
        Slice(1, 2),
        Int64(&[-2, 3], Some(&[false, true])),
    ),
    (
        Int64(&[1, -2, 3, -4], Some(&[true, false, true, true])),
        Right(4),
        Int64(&[], None),
    ),
    // Buffers stay whole, also those that no view names.
    (
        BinView(&[LONG, ABC, EMPTY], &[b"-abcdefghijklm-", b""], None),
        Left(1),
        BinView(&[LONG], &[b"-abcdefghijklm-", b""], None),
    ),
    (
        BinView(
            &[LONG, ABC, EMPTY],
            &[b"-abcdefghijklm-", b""],
            Some(&[true, true, false]),
        ),
        Slice(1, 2),
        BinView(
            &[ABC, EMPTY],
            &[b"-abcdefghijklm-", b""],
            Some(&[true, false]),
        ),
    ),
    (
        Utf8View(
            &[LONG, ABC, EMPTY],
            &[b"-abcdefghijklm-"],
            Some(&[true, true, false]),
        ),
        Left(2),
        Utf8View(&[LONG, ABC], &[b"-abcdefghijklm-"], None),
    ),
    (
        Utf8View(&[LONG, ABC, EMPTY], &[b"-abcdefghijklm-"], None),
        Right(3),
        Utf8View(&[], &[b"-abcdefghijklm-"], None),
    ),
];

#[test]
fn other_layouts_are_cut(rt: HostRuntime) -> Result<(), Fail> {
    for (own, step, wanted) in CUTS_OF_OTHERS {
        let kind = kind_in(own);
        assert!(rt; step_leads(rt.alloc(), own, step, wanted)?, "{kind:?}");
    }
    Ok(())
}

const TWO: [ColumnLists<'_>; 4] = [
    Fixed(2, b"aabb", None),
    Int64(&[1, -2], None),
    BinView(&[ABC, EMPTY], &[], None),
    Utf8View(&[LONG, ABC], &[b"-abcdefghijklm-"], None),
];

#[test]
fn cuts_of_other_layouts_past_the_end_are_refused(rt: HostRuntime) -> Result<(), Fail> {
    let far = usize::MAX;
    for own in TWO {
        let kind = kind_in(own);
        for step in [Left(3), Right(3), Slice(2, 1), Slice(far, 2)] {
            assert!(rt;
                step_refuses(rt.alloc(), own, step, Cause::StepRange)?,
                "{kind:?}"
            );
        }
    }
    Ok(())
}
