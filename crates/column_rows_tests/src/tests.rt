//! The tests: each asserts what a check of `checks` says.

use crate::checks::{
    fixed_rows_are_read, large_rows_are_read, lengths_are_told, no_rows_are_told,
    no_views_are_added, no_views_are_made, numbers_are_read, numbers_are_told,
    offset_rows_are_read, rows_go_behind_offsets, rows_go_behind_views, rows_go_into_one_width,
    view_rows_are_read, views_are_added, views_are_made, widths_are_told, wrong_rows_are_refused,
};
use std::test::Fail;

#[test]
fn rows_are_read(rt: HostRuntime) -> Result<(), Fail> {
    let alloc = rt.alloc();
    assert!(rt; offset_rows_are_read(alloc)? && large_rows_are_read(alloc)?);
    assert!(rt; view_rows_are_read(alloc)? && fixed_rows_are_read(alloc)?);
    assert!(rt; numbers_are_read(alloc)?);
    Ok(())
}

#[test]
fn rows_are_measured(rt: HostRuntime) -> Result<(), Fail> {
    let alloc = rt.alloc();
    assert!(rt; widths_are_told(alloc)? && lengths_are_told(alloc)?);
    assert!(rt; no_rows_are_told(alloc)? && numbers_are_told(alloc)?);
    Ok(())
}

#[test]
fn rows_are_pushed(rt: HostRuntime) -> Result<(), Fail> {
    let alloc = rt.alloc();
    assert!(rt; rows_go_behind_offsets(alloc)? && rows_go_behind_views(alloc)?);
    assert!(rt; rows_go_into_one_width(alloc)? && wrong_rows_are_refused(alloc)?);
    Ok(())
}

#[test]
fn rows_stand_behind_views(rt: HostRuntime) -> Result<(), Fail> {
    let alloc = rt.alloc();
    assert!(rt; views_are_made(alloc)? && no_views_are_made(alloc)?);
    assert!(rt; views_are_added(alloc)? && no_views_are_added(alloc)?);
    Ok(())
}
