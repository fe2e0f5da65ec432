//! Byte strings that become texts, and texts that become byte strings.

use crate::cases::ColumnLists::{self, BinView, Fixed, Int64, Utf8View};
use crate::cases::Planned::{ToBinary, ToUtf8};
use crate::cases::{ABC, EMPTY, LONG, kind_in, lists_of};
use crate::checks::{all_convert, converts, step_refuses};
use column_base::Cause;
use column_checks::Flags;
use std::test::Fail;

// Bytes before the first and after the last offset need not be UTF-8.
const TEXTS: [(&[i32], &[u8], Flags<'_>); 11] = [
    (&[0], b"", None),
    (&[0], b"", Some(&[])),
    (&[1], b"\xff\xff", None),
    (&[1], b"\xff\xff", Some(&[])),
    (&[1, 1], b"\xff\xff", Some(&[false])),
    (&[2, 2], b"\xff\xff\xff", Some(&[false])),
    (&[1, 3, 3, 4], b"\xffabc\xff", Some(&[true, false, true])),
    (&[0, 2, 2, 7], b"hithere", Some(&[true, false, true])),
    (&[0, 1, 2], b"ab", Some(&[true, true])),
    (&[0, 1, 3], b"a\xc3\xa9", None),
    (&[2, 5, 9], b"\xc3\xa9\xe2\x82\xac\xf0\x9f\x98\x80", None),
];

#[test]
fn texts_are_byte_strings_and_back(rt: HostRuntime) -> Result<(), Fail> {
    for (offsets, values, flags) in TEXTS {
        let own = lists_of(offsets, values, flags);
        assert!(rt;
            all_convert(rt.alloc(), own, None)?,
            "{offsets:?} {values:?}"
        );
    }
    Ok(())
}

// Null slots are looked at too.
const NO_TEXTS: [(&[i32], &[u8], Flags<'_>, Cause); 10] = [
    (&[0, 1], b"\xff", None, Cause::InvalidUtf8),
    (&[0, 2], b"a\xc3\xa9", None, Cause::InvalidUtf8),
    (&[1, 2], b"\xc3\xa9", None, Cause::InvalidUtf8),
    (&[0, 1, 2], b"\xc3\xa9", None, Cause::CharBoundary),
    (
        &[0, 0, 1],
        b"\xff",
        Some(&[true, false]),
        Cause::InvalidUtf8,
    ),
    (
        &[0, 1, 2],
        b"\xc3\xa9",
        Some(&[false, false]),
        Cause::CharBoundary,
    ),
    (&[0, 1, 3], b"\xc3\xa9\xff", None, Cause::InvalidUtf8),
    (&[0, 1], b"\xff", Some(&[false]), Cause::InvalidUtf8),
    (&[0, 3], b"\xed\xa0\x80", None, Cause::InvalidUtf8),
    (&[0, 2, 4], b"a\xf0\x9f\x98\x80", None, Cause::InvalidUtf8),
];

#[test]
fn byte_strings_that_are_no_texts_stay(rt: HostRuntime) -> Result<(), Fail> {
    for (offsets, values, flags, cause) in NO_TEXTS {
        let own = lists_of(offsets, values, flags);
        assert!(rt;
            all_convert(rt.alloc(), own, Some(cause))?,
            "{offsets:?} {values:?}"
        );
    }
    Ok(())
}

// ---- the other layouts

#[test]
fn views_are_texts_and_back(rt: HostRuntime) -> Result<(), Fail> {
    let views: &[&[u8; 16]] = &[LONG, ABC, EMPTY];
    let buffers: &[&[u8]] = &[b"\xffabcdefghijklm\xff", b""];
    let flags: Flags<'_> = Some(&[true, true, false]);
    let bytes = BinView(views, buffers, flags);
    assert!(rt; converts(rt.alloc(), bytes, Utf8View(views, buffers, flags), None)?);
    Ok(())
}

const NO_TEXT_VIEWS: [ColumnLists<'_>; 3] = [
    BinView(
        &[ABC, b"\x01\0\0\0\xff\0\0\0\0\0\0\0\0\0\0\0"],
        &[],
        Some(&[true, false]),
    ),
    BinView(
        &[b"\x0d\0\0\0abcd\0\0\0\0\0\0\0\0"],
        &[b"abcdefghijkl\xc3\xa9"],
        None,
    ),
    // One character lies in two slots.
    BinView(
        &[
            b"\x01\0\0\0\xc3\0\0\0\0\0\0\0\0\0\0\0",
            b"\x01\0\0\0\xa9\0\0\0\0\0\0\0\0\0\0\0",
        ],
        &[],
        None,
    ),
];

#[test]
fn views_of_what_is_no_text_stay(rt: HostRuntime) -> Result<(), Fail> {
    for own in NO_TEXT_VIEWS {
        let kind = kind_in(own);
        assert!(rt;
            step_refuses(rt.alloc(), own, ToUtf8, Cause::InvalidUtf8)?
                && step_refuses(rt.alloc(), own, ToBinary, Cause::WrongKind)?,
            "{kind:?}"
        );
    }
    Ok(())
}

const OF_ONE_LENGTH: [ColumnLists<'_>; 2] = [Fixed(2, b"aabb", None), Int64(&[1, -2], None)];

#[test]
fn slots_of_one_length_are_no_texts(rt: HostRuntime) -> Result<(), Fail> {
    for own in OF_ONE_LENGTH {
        let kind = kind_in(own);
        assert!(rt;
            step_refuses(rt.alloc(), own, ToUtf8, Cause::WrongKind)?
                && step_refuses(rt.alloc(), own, ToBinary, Cause::WrongKind)?,
            "{kind:?}"
        );
    }
    Ok(())
}
