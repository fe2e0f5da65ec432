//! What lists take from iterators, and what they refuse.

use crate::cases::{Digits, Hinted};
use column_base::{
    ExtendError, Growing, PolarsError, TryExtend, TryExtendFromSelf, TryPush, push_each,
    push_each_ok, with_each, with_each_ok,
};
use std::alloc::Global;

// No item is told, one too few, and more than there is memory for.
const LEAST: [usize; 3] = [0, 1, usize::MAX];

/// Each item is pushed to 7, whatever least number of them is told.
pub fn items_leave(
    alloc: Global,
    items: &[u8],
    wanted: &[u8],
    error: Option<PolarsError>,
) -> Result<bool, PolarsError> {
    for least in LEAST {
        let leaves = pushes_leave(alloc, least, items, wanted, error)?
            && extension_leaves(alloc, least, items, wanted, error)?
            && list_is(alloc, least, items, wanted, error)?;
        if !leaves {
            return Ok(false);
        }
    }
    Ok(true)
}

fn pushes_leave(
    alloc: Global,
    least: usize,
    items: &[u8],
    wanted: &[u8],
    error: Option<PolarsError>,
) -> Result<bool, PolarsError> {
    let mut digits = Digits::of(alloc, &[7])?;
    Ok(push_each(&mut digits, Hinted { items, least }).err() == error && digits.are(wanted))
}

// The same by the call of every list.
fn extension_leaves(
    alloc: Global,
    least: usize,
    items: &[u8],
    wanted: &[u8],
    error: Option<PolarsError>,
) -> Result<bool, PolarsError> {
    let mut digits = Digits::of(alloc, &[7])?;
    Ok(digits.try_extend(Hinted { items, least }).err() == error && digits.are(wanted))
}

// The same, where a refused item leaves no list.
fn list_is(
    alloc: Global,
    least: usize,
    items: &[u8],
    wanted: &[u8],
    error: Option<PolarsError>,
) -> Result<bool, PolarsError> {
    Ok(
        match with_each(Digits::of(alloc, &[7])?, Hinted { items, least }) {
            Ok(digits) => error.is_none() && digits.are(wanted),
            Err(other) => Some(other) == error,
        },
    )
}

// ---- items that may be errors

/// Why not all items were pushed: an item that is an error, or a refusal.
#[derive(Clone, Copy, PartialEq, Eq)]
pub enum Stop {
    None,
    Item(i32),
    Polars(PolarsError),
}

/// Each good item is pushed to 7 up to the first that is an error, whatever least number of items is told.
pub fn items_stop(
    alloc: Global,
    items: &[Result<u8, i32>],
    wanted: &[u8],
    stop: Stop,
) -> Result<bool, PolarsError> {
    for least in LEAST {
        let stops = pushes_stop(alloc, least, items, wanted, stop)?
            && list_stops(alloc, least, items, wanted, stop)?;
        if !stops {
            return Ok(false);
        }
    }
    Ok(true)
}

fn stop_of(pushed: Result<(), ExtendError<i32>>) -> Stop {
    match pushed {
        Ok(()) => Stop::None,
        Err(ExtendError::Item(error)) => Stop::Item(error),
        Err(ExtendError::Polars(error)) => Stop::Polars(error),
    }
}

fn pushes_stop(
    alloc: Global,
    least: usize,
    items: &[Result<u8, i32>],
    wanted: &[u8],
    stop: Stop,
) -> Result<bool, PolarsError> {
    let mut digits = Digits::of(alloc, &[7])?;
    Ok(stop_of(push_each_ok(&mut digits, Hinted { items, least })) == stop && digits.are(wanted))
}

// The same, where what stops the pushes leaves no list.
fn list_stops(
    alloc: Global,
    least: usize,
    items: &[Result<u8, i32>],
    wanted: &[u8],
    stop: Stop,
) -> Result<bool, PolarsError> {
    Ok(
        match with_each_ok(Digits::of(alloc, &[7])?, Hinted { items, least }) {
            Ok(digits) => stop == Stop::None && digits.are(wanted),
            Err(error) => stop_of(Err(error)) == stop,
        },
    )
}

pub fn refusal_is(error: PolarsError) -> bool {
    stop_of(Err(ExtendError::from(error))) == Stop::Polars(error)
}

// ---- through the bounds

fn add<T, B: TryPush<T>>(builder: &mut B, item: T) -> Result<(), PolarsError> {
    builder.try_push(item)
}

pub fn push_leaves(
    alloc: Global,
    item: u8,
    wanted: &[u8],
    error: Option<PolarsError>,
) -> Result<bool, PolarsError> {
    let mut digits = Digits::of(alloc, &[7])?;
    Ok(add(&mut digits, item).err() == error && digits.are(wanted))
}

fn join<B: TryExtendFromSelf + Growing>(builder: &mut B, other: &B) -> Result<(), PolarsError>
    requires { B.fits (B.lists builder.old) (B.lists other.now) }
{
    builder.try_extend_from_self(other)
}

fn joined_are(digits: &mut Digits, other: &Digits, wanted: &[u8]) -> bool {
    other.len() <= digits.len() && join(digits, other).is_ok() && digits.are(wanted)
}

pub fn both_are(alloc: Global, other: &Digits, wanted: &[u8]) -> Result<bool, PolarsError> {
    let mut digits = Digits::of(alloc, &[7, 8])?;
    Ok(joined_are(&mut digits, other, wanted))
}
