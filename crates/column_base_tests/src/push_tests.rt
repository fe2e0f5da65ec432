//! The tests of lists that take items: each asserts what a check of `pushes` says.

use crate::cases::Digits;
use crate::pushes::{Stop, both_are, items_leave, items_stop, push_leaves, refusal_is};
use column_base::{Cause, PolarsError};
use std::test::Fail;

const PAST: Option<PolarsError> = Some(PolarsError::ComputeError(Cause::Overflow));

#[test]
fn items_are_pushed_up_to_a_refusal(rt: HostRuntime) -> Result<(), Fail> {
    let table: [(&[u8], &[u8], Option<PolarsError>); 6] = [
        (&[], &[7], None),
        (&[1, 2, 3], &[7, 1, 2, 3], None),
        (&[10, 2, 3], &[7], PAST),
        (&[1, 10, 3], &[7, 1], PAST),
        (&[1, 2, 10], &[7, 1, 2], PAST),
        (&[1, 255, 254], &[7, 1], PAST),
    ];
    for (items, wanted, error) in table {
        assert!(rt; items_leave(rt.alloc(), items, wanted, error)?, "{items:?}");
    }
    Ok(())
}

#[test]
fn items_are_pushed_up_to_an_error(rt: HostRuntime) -> Result<(), Fail> {
    let past = Stop::Polars(PolarsError::ComputeError(Cause::Overflow));
    let table: [(&[Result<u8, i32>], &[u8], Stop); 7] = [
        (&[], &[7], Stop::None),
        (&[Ok(1), Ok(2), Ok(3)], &[7, 1, 2, 3], Stop::None),
        (&[Err(-5), Ok(2), Ok(3)], &[7], Stop::Item(-5)),
        (&[Ok(1), Err(-5), Err(-6)], &[7, 1], Stop::Item(-5)),
        (&[Ok(1), Ok(2), Err(-5)], &[7, 1, 2], Stop::Item(-5)),
        (&[Ok(1), Ok(10), Err(-5)], &[7, 1], past),
        (&[Ok(1), Err(-5), Ok(10)], &[7, 1], Stop::Item(-5)),
    ];
    for (items, wanted, stop) in table {
        assert!(rt; items_stop(rt.alloc(), items, wanted, stop)?, "{wanted:?}");
    }
    Ok(())
}

#[test]
fn items_are_pushed_through_a_bound(rt: HostRuntime) -> Result<(), Fail> {
    assert!(rt; push_leaves(rt.alloc(), 9, &[7, 9], None)?);
    assert!(rt; push_leaves(rt.alloc(), 10, &[7], PAST)?);
    assert!(rt; refusal_is(PolarsError::NoMemory));
    Ok(())
}

#[test]
fn lists_take_those_of_others(rt: HostRuntime) -> Result<(), Fail> {
    let two = Digits::of(rt.alloc(), &[1, 2])?;
    assert!(rt; both_are(rt.alloc(), &two, &[7, 8, 1, 2])?);
    let none = Digits::of(rt.alloc(), &[])?;
    assert!(rt; both_are(rt.alloc(), &none, &[7, 8])?);
    Ok(())
}
