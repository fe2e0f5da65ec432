use crate::cases::{flags, four};
use crate::checks::ends::iterators_end;
use crate::checks::iterators::{
    all_places_are, all_values_are, bits_are, flagged_rows_are, places_are, rows_of_no_flags_are,
    rows_without_flags_are, values_are, values_are_passed_over,
    values_are_passed_over_from_the_back,
};
use std::test::Fail;

#[test]
fn values_come_in_order(rt: HostRuntime) -> Result<(), Fail> {
    assert!(rt; values_are(&four(rt.alloc())?));
    assert!(rt; values_are_passed_over(&four(rt.alloc())?));
    assert!(rt; values_are_passed_over_from_the_back(&four(rt.alloc())?));
    Ok(())
}

#[test]
fn bits_come_in_order(rt: HostRuntime) -> Result<(), Fail> {
    assert!(rt; bits_are(&flags(rt.alloc())?));
    assert!(rt; places_are(&flags(rt.alloc())?) && all_places_are());
    Ok(())
}

#[test]
fn rows_come_in_order(rt: HostRuntime) -> Result<(), Fail> {
    assert!(rt; rows_without_flags_are(&four(rt.alloc())?));
    assert!(rt; rows_of_no_flags_are(&four(rt.alloc())?));
    assert!(rt; all_values_are(&four(rt.alloc())?));
    assert!(rt; flagged_rows_are(rt.alloc(), &four(rt.alloc())?)?);
    Ok(())
}

#[test]
fn none_comes_for_good(rt: HostRuntime) -> Result<(), Fail> {
    assert!(rt; iterators_end(rt.alloc())?);
    Ok(())
}
