//! The tests: each asserts what a check of `checks` says.

use crate::cases::{ABC, FOUR, LONG, NONE, TWELVE, four, four_texts, long};
use crate::checks::{
    Call, applied_is, empty_is, equals_four, four_again, four_are_read, four_cut, four_give,
    four_take, is_told, kinds_are, law_is, lengths_are, moved_is, nulls_are, other_flags_are,
    raw_is_told, refused_is, round_is, rows_are, share_is, text_rows_are, text_values_are,
    texts_are_read, unchecked_is, values_are, views_are_given, views_are_handed,
};
use column_base::{BinaryKind, Cause, Utf8Kind};
use column_binview::{
    contents_are_slots, equal_where_rows_are, flags_of_slice, no_fault_is_sound, slice_is_part,
    slices_are_one, slot_of_slice, slots_are_counted, split_is_whole, texts_are_byte_strings,
};
use column_checks::{Flags, Half};
use std::test::Fail;

// ---- constructors

#[test]
fn the_first_refusal_is_told(rt: HostRuntime) {
    let padded = [3, 0, 0, 0, 97, 98, 99, 0, 1, 0, 0, 0, 0, 0, 0, 0];
    let (one, two): (Flags<'_>, Flags<'_>) = (Some(&[false]), Some(&[false, true]));
    let buffer = Some(LONG);
    // views over the thirteen bytes, or over no buffer
    let table: [([u8; 16], Option<&[u8]>, Flags<'_>, Option<Cause>); 10] = [
        (TWELVE, None, None, None),
        (long(0, 0), buffer, one, None),
        (padded, None, one, Some(Cause::NonZeroPadding)),
        (long(1, 0), buffer, one, Some(Cause::ViewIndex)),
        (long(0, 1), buffer, one, Some(Cause::BufferSlice)),
        (
            long(0, 0),
            Some(b"abceefghijklm"),
            one,
            Some(Cause::PrefixMismatch),
        ),
        (ABC, None, two, Some(Cause::ValidityLength)),
        (ABC, None, Some(&[]), Some(Cause::ValidityLength)),
        (padded, None, two, Some(Cause::NonZeroPadding)),
        (long(0, 0), None, two, Some(Cause::ViewIndex)),
    ];
    for (view, buffer, flags, cause) in table {
        assert!(rt;
            is_told::<BinaryKind>(rt.alloc(), &[view], buffer, flags, cause)
                && is_told::<Utf8Kind>(rt.alloc(), &[view], buffer, flags, cause),
            "{view:?}"
        );
    }
}

#[test]
fn null_texts_are_checked(rt: HostRuntime) {
    let bad: &[u8] = b"abcdefghijkl\xFF";
    let none: Flags<'_> = Some(&[false]);
    let utf8 = Some(Cause::InvalidUtf8);
    assert!(rt; is_told::<BinaryKind>(rt.alloc(), &[long(0, 0)], Some(bad), none, None));
    assert!(rt; is_told::<Utf8Kind>(rt.alloc(), &[long(0, 0)], Some(bad), none, utf8));
    assert!(rt; is_told::<Utf8Kind>(rt.alloc(), &[long(0, 0)], Some(bad), Some(&[]), utf8));
}

#[test]
fn raw_lists_are_told(rt: HostRuntime) -> Result<(), Fail> {
    let good = raw_is_told(rt.alloc(), &[ABC, NONE], Some(&[true, false]), None)?;
    let bad = raw_is_told(
        rt.alloc(),
        &[ABC, long(0, 0)],
        Some(&[]),
        Some(Cause::ViewIndex),
    )?;
    assert!(rt; good && bad && kinds_are());
    Ok(())
}

#[test]
fn arrays_without_values(rt: HostRuntime) -> Result<(), Fail> {
    let empty = empty_is(rt.alloc())?;
    let nulls = nulls_are(rt.alloc())?;
    assert!(rt; empty && nulls);
    Ok(())
}

// ---- readers and iterators

#[test]
fn slots_are_read(rt: HostRuntime) -> Result<(), Fail> {
    let array = four(rt.alloc())?;
    assert!(rt;
        four_are_read(&array) && rows_are(&array) && values_are(&array) && views_are_given(&array)
    );
    Ok(())
}

#[test]
fn texts_are_read_too(rt: HostRuntime) -> Result<(), Fail> {
    let array = four_texts(rt.alloc())?;
    assert!(rt; texts_are_read(&array) && text_rows_are(&array) && text_values_are(&array));
    Ok(())
}

// ---- parts

#[test]
fn parts_keep_the_buffers(rt: HostRuntime) -> Result<(), Fail> {
    let null: Flags<'_> = Some(&[false, true]);
    let table: [(Call, (usize, usize), &[[u8; 16]], Flags<'_>, u128); 5] = [
        (Call::Sliced, (1, 2), &[long(0, 1), NONE], null, 13),
        (Call::SlicedUnchecked, (2, 2), &[NONE, TWELVE], None, 12),
        (
            Call::Slice,
            (0, 4),
            &FOUR,
            Some(&[true, false, true, true]),
            28,
        ),
        (Call::Slice, (4, 0), &[], None, 0),
        (Call::SliceUnchecked, (0, 1), &[ABC], None, 3),
    ];
    for (call, range, views, flags, bytes) in table {
        let part = four_give(rt.alloc(), call, range, views, flags, bytes)?;
        assert!(rt; part, "{range:?}");
    }
    Ok(())
}

#[test]
fn halves_keep_the_buffers(rt: HostRuntime) -> Result<(), Fail> {
    let front = four_cut(rt.alloc(), Half::Front, 0, &[], None)?;
    let back = four_cut(rt.alloc(), Half::Back, 2, &[NONE, TWELVE], None)?;
    assert!(rt; front && back);
    Ok(())
}

// ---- shared, taken apart and put together

#[test]
fn lists_are_handed_back(rt: HostRuntime) -> Result<(), Fail> {
    let array = four(rt.alloc())?;
    let share = share_is(rt.alloc(), &array)?;
    let lengths = lengths_are(rt.alloc(), &array)?;
    let views = views_are_handed(rt.alloc())?;
    assert!(rt; share && lengths && views && other_flags_are(array));
    Ok(())
}

#[test]
fn other_flags_are_taken(rt: HostRuntime) -> Result<(), Fail> {
    let none = four_take(rt.alloc(), None, false)?;
    let some = four_take(rt.alloc(), Some(&[false, true, true, true]), true)?;
    let again = four_again(rt.alloc())?;
    assert!(rt; none && some && again);
    Ok(())
}

// ---- conversions

#[test]
fn round_trips(rt: HostRuntime) -> Result<(), Fail> {
    let array = four_texts(rt.alloc())?;
    let round = round_is(rt.alloc(), &array)?;
    let law = law_is(rt.alloc(), &array)?;
    let unchecked = unchecked_is(rt.alloc())?;
    assert!(rt; round && law && unchecked && moved_is(array));
    Ok(())
}

#[test]
fn what_is_no_text_comes_back(rt: HostRuntime) -> Result<(), Fail> {
    let refused = refused_is(rt.alloc())?;
    assert!(rt; refused);
    Ok(())
}

// ---- equality

#[test]
fn equal_rows_are_equal(rt: HostRuntime) -> Result<(), Fail> {
    let flags: Flags<'_> = Some(&[true, false, true, true]);
    // the null slot holds other bytes, and the buffer is another
    let other = equals_four(rt.alloc(), &[ABC, NONE, NONE, TWELVE], b"", flags)?;
    let valid = equals_four(rt.alloc(), &FOUR, b"xabcdefghijklmy", None)?;
    let fewer = equals_four(
        rt.alloc(),
        &[ABC, NONE, NONE],
        b"",
        Some(&[true, false, true]),
    )?;
    let differs = equals_four(rt.alloc(), &[ABC, NONE, ABC, TWELVE], b"", flags)?;
    assert!(rt; other && !valid && !fewer && !differs);
    Ok(())
}

#[test]
fn other_views_are_given(rt: HostRuntime) -> Result<(), Fail> {
    let applied = applied_is(rt.alloc())?;
    assert!(rt; applied);
    no_fault_is_sound();
    slots_are_counted();
    texts_are_byte_strings();
    contents_are_slots();
    flags_of_slice();
    slice_is_part();
    slot_of_slice();
    slices_are_one();
    split_is_whole();
    equal_where_rows_are();
    Ok(())
}
