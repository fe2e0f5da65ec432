//! What columns, steps and plans are seen to give: one truth value for each, and no assertion.

use crate::cases::ColumnLists::{
    self, BinView, Binary32, Binary64, Fixed, Int64, Utf8_32, Utf8_64, Utf8View,
};
use crate::cases::Planned::{
    self, Append, Dedupe, Gc, Left, Rebuild, Right, Slice, ToBinary, ToUtf8,
};
use crate::cases::{
    Lists, Span, kind_in, of_offsets, part_of, parts_of, plan_of, rows_of, wide_parts,
};
use column_base::{ArrowDataType, Cause, PolarsError};
use column_checks::flags_are;
use column_deduped::deduped;
use column_relayout::{
    AnyArray, ColumnError, Kind, Rows, assemble, relayout, step_append, step_dedupe, step_gc,
    step_left, step_rebuild, step_right, step_slice, step_to_binary, step_to_utf8,
};
use column_storage::{Bitmap, DataBuffers};
use column_view::View;
use std::alloc::Global;

pub fn words_are() -> bool {
    Kind::Binary32.name() == "binary32"
        && Kind::Binary64.name() == "binary64"
        && Kind::Utf8_32.name() == "utf8_32"
        && Kind::Utf8_64.name() == "utf8_64"
        && Kind::BinView.name() == "binview"
        && Kind::Utf8View.name() == "utf8view"
        && Kind::Fixed(3).name() == "fixed"
        && Kind::Int64.name() == "int64"
}

// ---- lists

fn kind_of(column: &AnyArray) -> Kind {
    match column {
        AnyArray::Binary32(_) => Kind::Binary32,
        AnyArray::Binary64(_) => Kind::Binary64,
        AnyArray::Utf8_32(_) => Kind::Utf8_32,
        AnyArray::Utf8_64(_) => Kind::Utf8_64,
        AnyArray::BinView(_) => Kind::BinView,
        AnyArray::Utf8View(_) => Kind::Utf8View,
        AnyArray::Fixed(array) => Kind::Fixed(array.size()),
        AnyArray::Int64(_) => Kind::Int64,
    }
}

fn wide_are(offsets: &[i64], wanted: &[i32]) -> bool {
    offsets
        .iter()
        .copied()
        .eq(wanted.iter().map(|offset| i64::from(*offset)))
}

fn offsets_are(column: &AnyArray, wanted: &[i32]) -> bool {
    match column {
        AnyArray::Binary32(array) => array.offsets().as_slice() == wanted,
        AnyArray::Binary64(array) => wide_are(array.offsets().as_slice(), wanted),
        AnyArray::Utf8_32(array) => array.offsets().as_slice() == wanted,
        AnyArray::Utf8_64(array) => wide_are(array.offsets().as_slice(), wanted),
        _ => false,
    }
}

fn values_of(column: &AnyArray) -> &[u8] {
    match column {
        AnyArray::Binary32(array) => array.values().as_slice(),
        AnyArray::Binary64(array) => array.values().as_slice(),
        AnyArray::Utf8_32(array) => array.values().as_slice(),
        AnyArray::Utf8_64(array) => array.values().as_slice(),
        AnyArray::Fixed(array) => array.values().as_slice(),
        _ => &[],
    }
}

fn validity_of(column: &AnyArray) -> Option<&Bitmap> {
    match column {
        AnyArray::Binary32(array) => array.validity(),
        AnyArray::Binary64(array) => array.validity(),
        AnyArray::Utf8_32(array) => array.validity(),
        AnyArray::Utf8_64(array) => array.validity(),
        AnyArray::BinView(array) => array.validity(),
        AnyArray::Utf8View(array) => array.validity(),
        AnyArray::Fixed(array) => array.validity(),
        AnyArray::Int64(array) => array.validity(),
    }
}

fn views_are(views: &[View], wanted: &[&[u8; 16]]) -> bool {
    if views.len() != wanted.len() {
        return false;
    }
    for i in 0..wanted.len() {
        if views[i].to_le() != *wanted[i] {
            return false;
        }
    }
    true
}

fn buffers_are(buffers: &DataBuffers, wanted: &[&[u8]]) -> bool {
    if buffers.len() != wanted.len() {
        return false;
    }
    for i in 0..wanted.len() {
        if buffers.get(i).as_slice() != wanted[i] {
            return false;
        }
    }
    true
}

fn view_lists_are(column: &AnyArray, views: &[&[u8; 16]], buffers: &[&[u8]]) -> bool {
    match column {
        AnyArray::BinView(array) => {
            views_are(array.views().as_slice(), views) && buffers_are(array.data_buffers(), buffers)
        }
        AnyArray::Utf8View(array) => {
            views_are(array.views().as_slice(), views) && buffers_are(array.data_buffers(), buffers)
        }
        _ => false,
    }
}

fn numbers_are(column: &AnyArray, numbers: &[i64]) -> bool {
    match column {
        AnyArray::Int64(array) => {
            array.dtype() == ArrowDataType::Int64 && array.values().as_slice() == numbers
        }
        _ => false,
    }
}

fn lists_are(column: &AnyArray, wanted: ColumnLists<'_>) -> bool {
    match wanted {
        Binary32(offsets, values, flags)
        | Binary64(offsets, values, flags)
        | Utf8_32(offsets, values, flags)
        | Utf8_64(offsets, values, flags) => {
            offsets_are(column, offsets)
                && values_of(column) == values
                && flags_are(validity_of(column), flags)
        }
        BinView(views, buffers, flags) | Utf8View(views, buffers, flags) => {
            view_lists_are(column, views, buffers) && flags_are(validity_of(column), flags)
        }
        Fixed(_, values, flags) => {
            values_of(column) == values && flags_are(validity_of(column), flags)
        }
        Int64(numbers, flags) => {
            numbers_are(column, numbers) && flags_are(validity_of(column), flags)
        }
    }
}

/// Whether the column has this kind and these lists.
fn column_is(column: &AnyArray, wanted: ColumnLists<'_>) -> bool {
    kind_of(column) == kind_in(wanted) && lists_are(column, wanted)
}

// ---- parts

fn assembled_is(
    alloc: Global,
    own: ColumnLists<'_>,
    fault: Option<Cause>,
) -> Result<bool, PolarsError> {
    match assemble(parts_of(alloc, own)?) {
        Ok(column) => Ok(fault.is_none() && column_is(&column, own)),
        Err(cause) => Ok(fault == Some(cause)),
    }
}

/// Whether the lists become a column, by themselves and by a plan without steps, or are refused so. A refusal of parts
/// comes before one of a step.
pub fn parts_are_told(
    alloc: Global,
    own: ColumnLists<'_>,
    fault: Option<Cause>,
) -> Result<bool, PolarsError> {
    match fault {
        Some(cause) => Ok(
            assembled_is(alloc, own, fault)?
                && plan_refuses(alloc, own, &[Left(9)], ColumnError::Parts(cause))?,
        ),
        None => Ok(assembled_is(alloc, own, fault)? && plan_leads(alloc, own, &[], own)?),
    }
}

/// Whether byte strings and texts of these offsets of 64 bits are refused so.
pub fn wide_is_told(
    alloc: Global,
    text: bool,
    offsets: &[i64],
    cause: Cause,
) -> Result<bool, PolarsError> {
    let parts = wide_parts(alloc, text, Vec::from_slice(alloc, offsets)?, b"ab", None)?;
    Ok(assemble(parts).err() == Some(cause))
}

// ---- plans

fn is_led(answer: Result<AnyArray, ColumnError>, wanted: ColumnLists<'_>) -> bool {
    match answer {
        Ok(column) => column_is(&column, wanted),
        Err(_) => false,
    }
}

/// Whether the plan leads to a column of these lists.
pub fn plan_leads(
    alloc: Global,
    own: ColumnLists<'_>,
    plan: &[Planned<'_>],
    wanted: ColumnLists<'_>,
) -> Result<bool, PolarsError> {
    let plan = plan_of(alloc, plan)?;
    let parts = parts_of(alloc, own)?;
    Ok(is_led(relayout(alloc, parts, &plan), wanted))
}

/// Whether the plan is refused so.
pub fn plan_refuses(
    alloc: Global,
    own: ColumnLists<'_>,
    plan: &[Planned<'_>],
    refusal: ColumnError,
) -> Result<bool, PolarsError> {
    let plan = plan_of(alloc, plan)?;
    let parts = parts_of(alloc, own)?;
    Ok(relayout(alloc, parts, &plan).err() == Some(refusal))
}

// ---- steps, by their calls and by plans of one

fn column_of(alloc: Global, own: ColumnLists<'_>) -> Result<AnyArray, PolarsError> {
    let column = assemble(parts_of(alloc, own)?)?;
    column.known();
    Ok(column)
}

fn followed(
    alloc: Global,
    column: AnyArray,
    given: &[Option<&[u8]>],
) -> Result<AnyArray, PolarsError> {
    let rows = rows_of(alloc, given)?;
    step_append(alloc, column, &rows)
}

fn by_its_call(
    alloc: Global,
    column: AnyArray,
    step: Planned<'_>,
) -> Result<AnyArray, PolarsError> {
    match step {
        Slice(offset, length) => Ok(step_slice(column, offset, length)?),
        Left(count) => Ok(step_left(column, count)?),
        Right(count) => Ok(step_right(column, count)?),
        ToUtf8 => Ok(step_to_utf8(column)?),
        ToBinary => Ok(step_to_binary(column)?),
        Gc => step_gc(alloc, column),
        Dedupe => step_dedupe(alloc, column),
        Append(rows) => followed(alloc, column, rows),
        Rebuild(kind) => step_rebuild(alloc, column, kind),
    }
}

fn is_left(answer: Result<AnyArray, PolarsError>, wanted: ColumnLists<'_>) -> bool {
    match answer {
        Ok(column) => column_is(&column, wanted),
        Err(_) => false,
    }
}

fn call_leads(
    alloc: Global,
    own: ColumnLists<'_>,
    step: Planned<'_>,
    wanted: ColumnLists<'_>,
) -> Result<bool, PolarsError> {
    let column = column_of(alloc, own)?;
    Ok(is_left(by_its_call(alloc, column, step), wanted))
}

fn call_refuses(
    alloc: Global,
    own: ColumnLists<'_>,
    step: Planned<'_>,
    error: PolarsError,
) -> Result<bool, PolarsError> {
    let column = column_of(alloc, own)?;
    Ok(by_its_call(alloc, column, step).err() == Some(error))
}

/// Whether the step leaves a column of these lists.
pub fn step_leads(
    alloc: Global,
    own: ColumnLists<'_>,
    step: Planned<'_>,
    wanted: ColumnLists<'_>,
) -> Result<bool, PolarsError> {
    Ok(call_leads(alloc, own, step, wanted)? && plan_leads(alloc, own, &[step], wanted)?)
}

/// Whether the step is refused so.
pub fn step_refuses(
    alloc: Global,
    own: ColumnLists<'_>,
    step: Planned<'_>,
    cause: Cause,
) -> Result<bool, PolarsError> {
    Ok(
        call_refuses(alloc, own, step, cause.into())?
            && plan_refuses(alloc, own, &[step], ColumnError::Step(0, cause))?,
    )
}

/// Whether the step finds no memory.
pub fn step_wants_memory(
    alloc: Global,
    own: ColumnLists<'_>,
    step: Planned<'_>,
) -> Result<bool, PolarsError> {
    Ok(
        call_refuses(alloc, own, step, PolarsError::NoMemory)?
            && plan_refuses(alloc, own, &[step], ColumnError::NoMemory)?,
    )
}

// ---- byte strings and texts, with offsets of both widths

/// Whether byte strings and texts of these lists become columns, or are refused so.
pub fn all_are_told(
    alloc: Global,
    own: Lists<'_>,
    of_bytes: Option<Cause>,
    of_texts: Option<Cause>,
) -> Result<bool, PolarsError> {
    Ok(
        parts_are_told(alloc, of_offsets(false, false, own), of_bytes)?
            && parts_are_told(alloc, of_offsets(true, false, own), of_bytes)?
            && parts_are_told(alloc, of_offsets(false, true, own), of_texts)?
            && parts_are_told(alloc, of_offsets(true, true, own), of_texts)?,
    )
}

/// Whether byte strings are none of texts, and become texts, and byte strings again, or are refused so.
pub fn converts(
    alloc: Global,
    bytes: ColumnLists<'_>,
    texts: ColumnLists<'_>,
    fault: Option<Cause>,
) -> Result<bool, PolarsError> {
    let no_texts = step_refuses(alloc, bytes, ToBinary, Cause::WrongKind)?;
    match fault {
        Some(cause) => Ok(no_texts && step_refuses(alloc, bytes, ToUtf8, cause)?),
        None => Ok(
            no_texts
                && step_leads(alloc, bytes, ToUtf8, texts)?
                && plan_leads(alloc, bytes, &[ToUtf8, ToBinary], bytes)?
                && converts_back(alloc, bytes, texts)?,
        ),
    }
}

// Whether texts are no byte strings, and become them, and texts again.
fn converts_back(
    alloc: Global,
    bytes: ColumnLists<'_>,
    texts: ColumnLists<'_>,
) -> Result<bool, PolarsError> {
    Ok(
        step_refuses(alloc, texts, ToUtf8, Cause::WrongKind)?
            && step_leads(alloc, texts, ToBinary, bytes)?
            && plan_leads(alloc, texts, &[ToBinary, ToUtf8], texts)?,
    )
}

/// Whether columns of these lists convert; byte strings are refused so as texts.
pub fn all_convert(
    alloc: Global,
    own: Lists<'_>,
    fault: Option<Cause>,
) -> Result<bool, PolarsError> {
    Ok(
        converts(
            alloc,
            of_offsets(false, false, own),
            of_offsets(false, true, own),
            fault,
        )? && converts(
            alloc,
            of_offsets(true, false, own),
            of_offsets(true, true, own),
            fault,
        )?,
    )
}

/// Whether the plan leads from texts, or byte strings, to a span of them as texts, or byte strings.
pub fn both_lead(
    alloc: Global,
    own: Lists<'_>,
    plan: &[Planned<'_>],
    texts: (bool, bool),
    left: Span,
) -> Result<bool, PolarsError> {
    let part = part_of(own, left);
    Ok(
        plan_leads(
            alloc,
            of_offsets(false, texts.0, own),
            plan,
            of_offsets(false, texts.1, part),
        )? && plan_leads(
            alloc,
            of_offsets(true, texts.0, own),
            plan,
            of_offsets(true, texts.1, part),
        )?,
    )
}

/// Whether the plan over byte strings is refused at this step so.
pub fn both_refuse(
    alloc: Global,
    own: Lists<'_>,
    plan: &[Planned<'_>],
    refused: (usize, Cause),
) -> Result<bool, PolarsError> {
    let refusal = ColumnError::Step(refused.0, refused.1);
    Ok(
        plan_refuses(alloc, of_offsets(false, false, own), plan, refusal)?
            && plan_refuses(alloc, of_offsets(true, false, own), plan, refusal)?,
    )
}

fn cut_is(
    alloc: Global,
    text: bool,
    own: Lists<'_>,
    step: Planned<'_>,
    part: Lists<'_>,
) -> Result<bool, PolarsError> {
    Ok(
        step_leads(
            alloc,
            of_offsets(false, text, own),
            step,
            of_offsets(false, text, part),
        )? && step_leads(
            alloc,
            of_offsets(true, text, own),
            step,
            of_offsets(true, text, part),
        )?,
    )
}

/// Whether the step leaves the span, in each kind.
pub fn all_cut(
    alloc: Global,
    own: Lists<'_>,
    step: Planned<'_>,
    left: Span,
) -> Result<bool, PolarsError> {
    let part = part_of(own, left);
    Ok(cut_is(alloc, false, own, step, part)? && cut_is(alloc, true, own, step, part)?)
}

/// Whether the step leaves these lists, in each kind.
pub fn all_lead(
    alloc: Global,
    own: Lists<'_>,
    step: Planned<'_>,
    wanted: Lists<'_>,
) -> Result<bool, PolarsError> {
    Ok(cut_is(alloc, false, own, step, wanted)? && cut_is(alloc, true, own, step, wanted)?)
}

/// Whether the cut reaches past the end, in each kind.
pub fn all_pass(alloc: Global, own: Lists<'_>, step: Planned<'_>) -> Result<bool, PolarsError> {
    let cause = Cause::StepRange;
    Ok(
        step_refuses(alloc, of_offsets(false, false, own), step, cause)?
            && step_refuses(alloc, of_offsets(true, false, own), step, cause)?
            && step_refuses(alloc, of_offsets(false, true, own), step, cause)?
            && step_refuses(alloc, of_offsets(true, true, own), step, cause)?,
    )
}

/// The first steps, as many as these.
pub fn first_steps<'a>(plan: &'a [Planned<'a>], count: usize) -> &'a [Planned<'a>] {
    if count <= plan.len() {
        &plan[..count]
    } else {
        plan
    }
}

// ---- buffers that are made anew

// what is left of the bytes after those of a buffer, where they begin with it and it is not empty
fn rest_after<'a>(bytes: &'a [u8], buffer: &[u8]) -> Option<&'a [u8]> {
    if buffer.is_empty() {
        return None;
    }
    if buffer.len() > bytes.len() {
        return None;
    }
    if &bytes[..buffer.len()] == buffer {
        Some(&bytes[buffer.len()..])
    } else {
        None
    }
}

fn hold(buffers: &DataBuffers, bytes: &[u8]) -> bool {
    let mut left = bytes;
    for i in 0..buffers.len() {
        match rest_after(left, buffers.get(i).as_slice()) {
            Some(rest) => left = rest,
            None => return false,
        }
    }
    left.is_empty()
}

fn columns_buffers_hold(column: &AnyArray, bytes: &[u8], most: usize) -> bool {
    match column {
        AnyArray::BinView(array) => {
            array.data_buffers().len() <= most && hold(array.data_buffers(), bytes)
        }
        AnyArray::Utf8View(array) => {
            array.data_buffers().len() <= most && hold(array.data_buffers(), bytes)
        }
        _ => false,
    }
}

/// Whether a step leaves buffers that are, end to end, these bytes, where none is empty and there are at most so many.
pub fn buffers_hold(
    alloc: Global,
    own: ColumnLists<'_>,
    step: Planned<'_>,
    bytes: &[u8],
    most: usize,
) -> Result<bool, PolarsError> {
    let column = column_of(alloc, own)?;
    let column = by_its_call(alloc, column, step)?;
    Ok(columns_buffers_hold(&column, bytes, most))
}

/// Whether the call itself leaves these lists of an array of byte strings.
pub fn is_deduped(
    alloc: Global,
    own: ColumnLists<'_>,
    wanted: ColumnLists<'_>,
) -> Result<bool, PolarsError> {
    match column_of(alloc, own)? {
        AnyArray::BinView(array) => {
            let column = AnyArray::BinView(deduped(alloc, array)?);
            Ok(column_is(&column, wanted))
        }
        _ => Ok(false),
    }
}

// ---- rows

// a row of two bytes, and one that is missing
fn are_two(rows: &Rows) -> bool {
    rows.len() == 2
        && !rows.is_empty()
        && rows.get(0) == Some(b"de".as_slice())
        && rows.get(1).is_none()
}

/// Whether rows that are pushed are read again, and none where none is pushed.
pub fn pushed_rows_are(alloc: Global) -> Result<bool, PolarsError> {
    let rows = rows_of(alloc, &[Some(b"de"), None])?;
    Ok(are_two(&rows))
}

/// Whether there are no rows where none is pushed.
pub fn no_rows_are(alloc: Global) -> bool {
    let rows = Rows::new(alloc);
    rows.is_empty() && rows.len() == 0
}

/// Whether rows that are pushed where there is room for them are read again.
pub fn rows_with_room_are(alloc: Global) -> Result<bool, PolarsError> {
    let mut rows = Rows::with_capacity(alloc, 2)?;
    rows.push(Some(b"de"))?;
    rows.push(None)?;
    Ok(are_two(&rows))
}

// ---- columns that are written anew

fn is_text(own: ColumnLists<'_>) -> bool {
    match own {
        Utf8_32(_, _, _) | Utf8_64(_, _, _) | Utf8View(_, _, _) => true,
        _ => false,
    }
}

/// Whether the column is written anew into these lists, of whatever kind, or is refused since they are texts and it is
/// none.
pub fn is_rebuilt(
    alloc: Global,
    own: ColumnLists<'_>,
    wanted: ColumnLists<'_>,
) -> Result<bool, PolarsError> {
    let step = Rebuild(kind_in(wanted));
    if is_text(wanted) && !is_text(own) {
        step_refuses(alloc, own, step, Cause::WrongKind)
    } else {
        step_leads(alloc, own, step, wanted)
    }
}
