//! The tests: each asserts what a check of `checks` says.

use crate::cases::{Held, LONG, SHORT, long, view};
use crate::checks::{
    contents_are, cut_is, faults_are, inlined_is, lengths_are_added, long_is, numbers_are,
    one_content_is, other_place_is, short_is, texts_are, twelve_is,
};
use column_base::Cause;
use column_view::{
    View, inline_views_are_contents, made_view_says_its_bytes, other_place_keeps_the_rest,
    texts_are_byte_strings,
};
use std::test::Fail;

#[test]
fn views_are_made(rt: HostRuntime) {
    assert!(rt; short_is() && twelve_is() && long_is());
    assert!(rt; other_place_is() && numbers_are());
    assert!(rt; lengths_are_added());
}

#[test]
fn contents_are_read(rt: HostRuntime) -> Result<(), Fail> {
    let good = contents_are(rt.alloc())?;
    let held = Held::Second(b"xabcdefghijklmy");
    let short = one_content_is(rt.alloc(), view(SHORT), held, b"abc")?;
    let named = one_content_is(rt.alloc(), view(long(1, 1)), held, LONG)?;
    assert!(rt; good && short && named && inlined_is(&view(SHORT), b"abc"));
    Ok(())
}

#[test]
fn the_first_fault_is_told(rt: HostRuntime) -> Result<(), Fail> {
    let (index, slice) = (Some(Cause::ViewIndex), Some(Cause::BufferSlice));
    let (prefix, padding) = (Some(Cause::PrefixMismatch), Some(Cause::NonZeroPadding));
    let utf8 = Some(Cause::InvalidUtf8);
    let most = [255u8; 4];
    let table: [([u8; 16], Held<'_>, Option<Cause>, Option<Cause>); 18] = [
        (SHORT, Held::None, None, None),
        // a byte after the content, the first and the last, and where the content is no text
        (
            [3, 0, 0, 0, 97, 98, 99, 1, 0, 0, 0, 0, 0, 0, 0, 0],
            Held::None,
            padding,
            padding,
        ),
        (
            [3, 0, 0, 0, 97, 98, 99, 0, 0, 0, 0, 0, 0, 0, 0, 1],
            Held::None,
            padding,
            padding,
        ),
        (
            [1, 0, 0, 0, 255, 0, 0, 0, 1, 0, 0, 0, 0, 0, 0, 0],
            Held::None,
            padding,
            padding,
        ),
        (
            [1, 0, 0, 0, 255, 0, 0, 0, 0, 0, 0, 0, 0, 0, 0, 0],
            Held::None,
            None,
            utf8,
        ),
        // no padding, no text
        (
            [
                12, 0, 0, 0, 97, 98, 99, 100, 101, 102, 103, 104, 105, 106, 107, 255,
            ],
            Held::None,
            None,
            utf8,
        ),
        // the range ends at the buffer's end, and one byte past
        (long(0, 0), Held::One(LONG), None, None),
        (long(0, 1), Held::One(b"xabcdefghijklm"), None, None),
        (long(0, 1), Held::One(LONG), slice, slice),
        (long(0, 0), Held::One(b""), slice, slice),
        // the buffer is not there
        (long(0, 0), Held::None, index, index),
        (long(1, 0), Held::One(LONG), index, index),
        (long(1, 0), Held::Second(LONG), None, None),
        // the prefix, and beside it a content that is no text
        (long(0, 0), Held::One(b"abceefghijklm"), prefix, prefix),
        (long(0, 0), Held::One(b"abceefghijkl\xFF"), prefix, prefix),
        (long(0, 0), Held::One(b"abcdefghijkl\xFF"), None, utf8),
        // text that the view cuts inside a character
        (
            long(0, 0),
            Held::One("abcdefghijkl\u{e9}".as_bytes()),
            None,
            utf8,
        ),
        // index and start at their greatest
        (
            [
                13, 0, 0, 0, 97, 98, 99, 100, most[0], most[1], most[2], most[3], most[0], most[1],
                most[2], most[3],
            ],
            Held::One(LONG),
            index,
            index,
        ),
    ];
    for (bytes, buffers, binary, text) in table {
        let told = faults_are(rt.alloc(), &[view(bytes)], buffers, binary, text)?;
        assert!(rt; told, "{bytes:?}");
    }
    Ok(())
}

#[test]
fn greatest_sums_do_not_wrap(rt: HostRuntime) -> Result<(), Fail> {
    let slice = Some(Cause::BufferSlice);
    let start = [13, 0, 0, 0, 97, 98, 99, 100, 0, 0, 0, 0, 255, 255, 255, 255];
    let length = [255, 255, 255, 255, 97, 98, 99, 100, 0, 0, 0, 0, 1, 0, 0, 0];
    for bytes in [start, length] {
        let told = faults_are(rt.alloc(), &[view(bytes)], Held::One(LONG), slice, slice)?;
        assert!(rt; told, "{bytes:?}");
    }
    Ok(())
}

#[test]
fn the_first_view_with_a_fault_counts(rt: HostRuntime) -> Result<(), Fail> {
    let padded = view([0, 0, 0, 0, 1, 0, 0, 0, 0, 0, 0, 0, 0, 0, 0, 0]);
    let (index, padding) = (Some(Cause::ViewIndex), Some(Cause::NonZeroPadding));
    let first = faults_are(
        rt.alloc(),
        &[view(SHORT), view(long(0, 0)), padded],
        Held::None,
        index,
        index,
    )?;
    let second = faults_are(
        rt.alloc(),
        &[padded, view(long(0, 0))],
        Held::None,
        padding,
        padding,
    )?;
    let shared = faults_are(
        rt.alloc(),
        &[view(long(0, 0)), view(long(0, 0))],
        Held::One(LONG),
        None,
        None,
    )?;
    assert!(rt; first && second && shared);
    Ok(())
}

#[test]
fn contents_alone_are_checked(rt: HostRuntime) -> Result<(), Fail> {
    let none = texts_are(rt.alloc(), &[], Held::None, true)?;
    let good = texts_are(
        rt.alloc(),
        &[view(SHORT), view(long(0, 0))],
        Held::One(LONG),
        true,
    )?;
    let bad = texts_are(
        rt.alloc(),
        &[view(SHORT), view(long(0, 0))],
        Held::One(b"abcdefghijkl\xFF"),
        false,
    )?;
    assert!(rt; none && good && bad);
    Ok(())
}

#[test]
fn each_width_is_cut(rt: HostRuntime) -> Result<(), Fail> {
    for width in 1..=12u8 {
        for rows in 0..=40u8 {
            let cut = cut_is(rt.alloc(), rows, width)?;
            assert!(rt; cut, "{width} {rows}");
        }
    }
    Ok(())
}

#[test]
fn the_laws_are_there(rt: HostRuntime) {
    made_view_says_its_bytes();
    inline_views_are_contents();
    other_place_keeps_the_rest();
    texts_are_byte_strings();
    assert!(rt; View::MAX_INLINE_SIZE == 12);
}
