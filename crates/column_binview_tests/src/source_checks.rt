//! What a builder takes of an iterator over views of a source: one truth value for each group of calls, and no assertion.

ghost use Rattle.std.specs.Prelude.{◌≡◌, ◌<◌, false, length, None};
ghost use Rattle.std.specs.List.{filter_map};
ghost use Rattle.column_view.specs.ViewFaults.{views_fault};
ghost use Rattle.column_blocks.specs.Sources.{source_at};

use crate::builder_cases::{C, of, source};
use crate::builder_checks::builder_is;
use crate::cases::{ABC, NONE};
use column_base::PolarsError;
use column_binview::{MutablePlBinary, given_rows_are_fine, given_views_are_fine};
use column_view::View;
use std::alloc::Global;
use std::vec::IntoIter;

/// Which call takes views of a source.
#[derive(Clone, Copy)]
pub enum Given {
    Take,
    TakeTrusted,
    TakeUnchecked,
    Copy,
}

/// Whether views of a source that an iterator gives take each buffer once, in the order of first naming, and a short view
/// takes none; or, where bytes are copied, none is taken.
pub fn views_are_taken(
    alloc: Global,
    given: Given,
    views: &[[u8; 16]],
    finished: &[&[u8]],
    buffer_bytes: u128,
) -> Result<bool, PolarsError> {
    let mut builder = MutablePlBinary::new(alloc);
    let number = builder.add_source(source(alloc)?)?;
    let items = vec![in alloc;
        View::from_le(of(b'c', 2)),
        View::from_le(of(b'a', 0)),
        View::from_le(of(b'c', 2)),
        View::from_le(ABC),
    ]?;
    let taken = take_views(&mut builder, items, number, given)?;
    Ok(taken && builder_is(&builder, views, finished, None, (42, buffer_bytes)))
}

// Takes views, and says whether they had no fault over their source.
fn take_views(
    builder: &mut MutablePlBinary,
    views: Vec<View>,
    number: u32,
    given: Given,
) -> Result<bool, PolarsError> {
    if number as usize >= builder.source_count()
        || builder.validity().is_some()
        || column_view::check_views(&views, builder.source(number), false).is_err()
    {
        return Ok(false);
    }
    extended(builder, views, number, given)?;
    Ok(true)
}

// The call over an iterator of these views.
fn extended(
    builder: &mut MutablePlBinary,
    views: Vec<View>,
    number: u32,
    given: Given,
) -> Result<(), PolarsError>
    requires source { number < length builder.old.bytes.taken.sources }
    requires no_flags { builder.old.rows.flags ≡ None }
    requires fine { views_fault false views.items (source_at builder.old.bytes.taken number) ≡ None }
{
    given_views_are_fine::<IntoIter<View, Global>>();
    let views = views.into_iter();
    match given {
        Given::Take => builder.extend_non_null_views(views, number),
        Given::TakeTrusted => builder.extend_non_null_views_trusted_len(views, number),
        Given::TakeUnchecked => builder.extend_non_null_views_unchecked_dedupe(views, number),
        Given::Copy => builder.extend_non_null_views_unchecked(views, number),
    }
}

/// Whether a view that is missing is a null slot, after one whose buffer is taken.
pub fn missing_are_null(alloc: Global, is_trusted: bool) -> Result<bool, PolarsError> {
    let mut builder = MutablePlBinary::new(alloc);
    let number = builder.add_source(source(alloc)?)?;
    let taken = take_rows(alloc, &mut builder, of(b'c', 2), number, is_trusted)?;
    let views = [of(b'c', 0), NONE];
    Ok(taken && builder_is(&builder, &views, &[C], Some(&[true, false]), (13, 13)))
}

// Takes a view and then none, and says whether it had no fault over its source.
fn take_rows(
    alloc: Global,
    builder: &mut MutablePlBinary,
    bytes: [u8; 16],
    number: u32,
    is_trusted: bool,
) -> Result<bool, PolarsError> {
    let view = View::from_le(bytes);
    if number as usize >= builder.source_count()
        || column_view::check_views(&[view], builder.source(number), false).is_err()
    {
        return Ok(false);
    }
    let rows = vec![in alloc; Some(view), None]?;
    extended_by_rows(builder, rows, number, is_trusted)?;
    Ok(true)
}

// The call over an iterator of these optional views.
fn extended_by_rows(
    builder: &mut MutablePlBinary,
    rows: Vec<Option<View>>,
    number: u32,
    is_trusted: bool,
) -> Result<(), PolarsError>
    requires source { number < length builder.old.bytes.taken.sources }
    requires fine { views_fault false (filter_map (λ row. row) rows.items) (source_at builder.old.bytes.taken number) ≡ None }
{
    given_rows_are_fine::<IntoIter<Option<View>, Global>>();
    let rows = rows.into_iter();
    if is_trusted {
        builder.extend_views_trusted_len(rows, number)
    } else {
        builder.extend_views(rows, number)
    }
}
