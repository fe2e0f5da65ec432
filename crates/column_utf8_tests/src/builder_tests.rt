//! The tests of the builders: each asserts what a check of `builder_checks`, `value_checks` or `item_checks` says.

use crate::builder_checks::{
    self, both_are, flags_are_other, flags_are_set, flags_are_turned, lists_are_told, nulls_leave,
    pops_give, pushes_leave, tries_leave,
};
use crate::item_checks::{
    OfRows, OfValues, Row, Value, ValueCall, array_of_items_is, array_of_rows_is,
    array_of_values_is, builder_of_call_is, builder_of_items_is, builder_of_rows_is,
    builder_of_values_is, operations_are_replayed, owned_rows_are, owned_values_are,
    rows_are_added, rows_before_are, value_builder_of_items_is, values_are_added, values_are_taken,
    values_before_are,
};
use crate::value_checks;
use column_base::{ArrowDataType, Cause};
use column_checks::Flags;
use std::test::Fail;

#[test]
fn the_first_refusal_of_builders_is_told(rt: HostRuntime) -> Result<(), Fail> {
    let (small, large) = (ArrowDataType::Utf8, ArrowDataType::LargeUtf8);
    let exceeds = Some(Cause::OffsetsExceedValues);
    let not_full = Some(Cause::OffsetsNotFull);
    let invalid = Some(Cause::InvalidUtf8);
    let boundary = Some(Cause::CharBoundary);
    let dtype = Some(Cause::WrongDataType);
    let length = Some(Cause::ValidityLength);
    let one: Flags<'_> = Some(&[true]);
    let two: Flags<'_> = Some(&[false, true]);
    let table: [(&[u8], Flags<'_>, ArrowDataType, Option<Cause>); 10] = [
        (b"abc", None, small, None),
        (b"a\xC3\xA9", two, small, None),
        (b"\xFFb", one, large, exceeds),
        (b"\xFFbcd", one, large, not_full),
        (b"\xFFbc", one, large, invalid),
        (b"\xFFbc", Some(&[false, true]), small, invalid),
        (b"\xC3\xA9a", one, large, boundary),
        (b"abc", one, large, dtype),
        (b"abc", two, ArrowDataType::Binary, dtype),
        (b"abc", one, small, length),
    ];
    for (values, flags, dtype, cause) in table {
        assert!(rt;
            lists_are_told(rt.alloc(), values, flags, dtype, cause),
            "{values:?}"
        );
    }
    Ok(())
}

#[test]
fn the_first_refusal_of_values_is_told(rt: HostRuntime) -> Result<(), Fail> {
    let (small, large) = (ArrowDataType::Utf8, ArrowDataType::LargeUtf8);
    let table: [(&[u8], ArrowDataType, Option<Cause>); 6] = [
        (b"abc", small, None),
        (b"\xFFb", large, Some(Cause::OffsetsExceedValues)),
        (b"\xFFbcd", large, Some(Cause::OffsetsNotFull)),
        (b"\xFFbc", large, Some(Cause::InvalidUtf8)),
        (b"\xC3\xA9a", large, Some(Cause::CharBoundary)),
        (b"abc", large, Some(Cause::WrongDataType)),
    ];
    for (values, dtype, cause) in table {
        assert!(rt;
            value_checks::lists_are_told(rt.alloc(), values, dtype, cause)?,
            "{values:?}"
        );
    }
    Ok(())
}

#[test]
fn pushes_leave_their_slots(rt: HostRuntime) -> Result<(), Fail> {
    assert!(rt; pushes_leave(rt.alloc())?);
    assert!(rt; value_checks::pushes_leave(rt.alloc())?);
    assert!(rt; tries_leave(rt.alloc())?);
    Ok(())
}

#[test]
fn a_null_makes_the_validity(rt: HostRuntime) -> Result<(), Fail> {
    let table: [([Option<&str>; 2], Flags<'_>); 4] = [
        ([Some("é"), Some("€")], None),
        ([Some("é"), None], Some(&[true, false])),
        ([None, Some("€")], Some(&[false, true])),
        ([None, None], Some(&[false, false])),
    ];
    for (rows, flags) in table {
        assert!(rt; nulls_leave(rt.alloc(), rows, flags)?, "{flags:?}");
    }
    Ok(())
}

#[test]
fn pops_give_the_rows(rt: HostRuntime) -> Result<(), Fail> {
    assert!(rt; pops_give(rt.alloc())?);
    assert!(rt; value_checks::pops_give(rt.alloc())?);
    Ok(())
}

#[test]
fn slots_of_two_are_in_order(rt: HostRuntime) -> Result<(), Fail> {
    let some: Flags<'_> = Some(&[true, false]);
    assert!(rt; both_are(rt.alloc(), None, None, None)?);
    assert!(rt; both_are(rt.alloc(), some, None, Some(&[true, false, true, true]))?);
    assert!(rt; both_are(rt.alloc(), None, some, Some(&[true, true, true, false]))?);
    assert!(rt; both_are(rt.alloc(), some, some, Some(&[true, false, true, false]))?);
    assert!(rt; value_checks::both_are(rt.alloc())?);
    Ok(())
}

#[test]
fn arrays_have_the_slots(rt: HostRuntime) -> Result<(), Fail> {
    assert!(rt; builder_checks::arrays_are(rt.alloc())?);
    assert!(rt; value_checks::arrays_are(rt.alloc())?);
    Ok(())
}

// no number of items, one that is too small, the right one, and one that is too great
const TOLD: [usize; 4] = [0, 1, 3, usize::MAX];

#[test]
fn rows_are_taken_from_iterators(rt: HostRuntime) -> Result<(), Fail> {
    for call in [
        OfRows::Plain,
        OfRows::Try,
        OfRows::Trusted,
        OfRows::TrustedUnchecked,
    ] {
        for least in TOLD {
            assert!(rt;
                builder_of_rows_is(rt.alloc(), call, least)?
                    && array_of_rows_is(rt.alloc(), call, least)?
                    && rows_are_added(rt.alloc(), call, least)?,
                "{call:?} {least}"
            );
        }
    }
    Ok(())
}

#[test]
fn values_are_taken_from_iterators(rt: HostRuntime) -> Result<(), Fail> {
    for call in [
        OfValues::Values,
        OfValues::Trusted,
        OfValues::TrustedUnchecked,
    ] {
        for least in TOLD {
            assert!(rt;
                builder_of_values_is(rt.alloc(), call, least)?
                    && array_of_values_is(rt.alloc(), call, least)?
                    && values_are_added(rt.alloc(), call, least)?,
                "{call:?} {least}"
            );
        }
    }
    Ok(())
}

#[test]
fn value_builders_take_from_iterators(rt: HostRuntime) -> Result<(), Fail> {
    for call in [
        ValueCall::Plain,
        ValueCall::Try,
        ValueCall::Values,
        ValueCall::TrustedValues,
        ValueCall::TrustedValuesUnchecked,
        ValueCall::Trusted,
        ValueCall::TrustedUnchecked,
    ] {
        for least in TOLD {
            assert!(rt;
                builder_of_call_is(rt.alloc(), call, least)?
                    && values_are_taken(rt.alloc(), call, least)?,
                "{call:?} {least}"
            );
        }
    }
    Ok(())
}

// rows, and what is kept of them
const KEPT: [(&[Row<'_>], &[i32], &[u8], Flags<'_>); 4] = [
    (&[Err(9), Ok(None), Ok(Some("there"))], &[0], b"", None),
    (&[Ok(Some("hi")), Err(9), Err(8)], &[0, 2], b"hi", None),
    (
        &[Ok(Some("hi")), Ok(None), Err(9)],
        &[0, 2, 2],
        b"hi",
        Some(&[true, false]),
    ),
    (
        &[Ok(Some("hi")), Ok(None), Ok(Some("there"))],
        &[0, 2, 2, 7],
        b"hithere",
        Some(&[true, false, true]),
    ),
];

#[test]
fn rows_before_an_error_are_kept(rt: HostRuntime) -> Result<(), Fail> {
    for (rows, offsets, values, flags) in KEPT {
        let fails = offsets.len() < 4;
        assert!(rt;
            rows_before_are(rt.alloc(), rows, fails, offsets, values, flags)?
                && array_of_items_is(rt.alloc(), rows, fails, false)
                && array_of_items_is(rt.alloc(), rows, fails, true)
                && builder_of_items_is(rt.alloc(), rows, fails, false)
                && builder_of_items_is(rt.alloc(), rows, fails, true),
            "{offsets:?}"
        );
    }
    Ok(())
}

#[test]
fn values_before_an_error_are_kept(rt: HostRuntime) -> Result<(), Fail> {
    let table: [(&[Value<'_>], &[i64], &[u8]); 4] = [
        (&[Err(9), Ok(""), Ok("there")], &[0], b""),
        (&[Ok("hi"), Err(9), Err(8)], &[0, 2], b"hi"),
        (&[Ok("hi"), Ok(""), Err(9)], &[0, 2, 2], b"hi"),
        (&[Ok("hi"), Ok(""), Ok("there")], &[0, 2, 2, 7], b"hithere"),
    ];
    for (values, offsets, bytes) in table {
        let fails = offsets.len() < 4;
        assert!(rt;
            values_before_are(rt.alloc(), values, fails, offsets, bytes)?
                && value_builder_of_items_is(rt.alloc(), values, fails, false)
                && value_builder_of_items_is(rt.alloc(), values, fails, true),
            "{offsets:?}"
        );
    }
    Ok(())
}

#[test]
fn owned_items_are_taken(rt: HostRuntime) -> Result<(), Fail> {
    assert!(rt; owned_values_are(rt.alloc())?);
    assert!(rt; owned_rows_are(rt.alloc())?);
    assert!(rt; operations_are_replayed(rt.alloc())?);
    Ok(())
}

#[test]
fn builders_are_read(rt: HostRuntime) -> Result<(), Fail> {
    assert!(rt; builder_checks::builders_are_read(rt.alloc())?);
    assert!(rt; value_checks::builders_are_read(rt.alloc())?);
    Ok(())
}

#[test]
fn flags_are_changed(rt: HostRuntime) -> Result<(), Fail> {
    let some: Flags<'_> = Some(&[false, true]);
    let turned: Flags<'_> = Some(&[true, false]);
    for (flags, turned, others) in [(some, turned, None), (None, None, some)] {
        assert!(rt;
            flags_are_turned(rt.alloc(), flags, turned)?
                && flags_are_other(rt.alloc(), flags, others)?
                && flags_are_set(rt.alloc(), flags, others)?,
            "{flags:?}"
        );
    }
    Ok(())
}
