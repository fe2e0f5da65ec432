//! Lists, parts and steps for the tests.

use column_base::PolarsError;
use column_checks::{Flags, bitmap};
use column_relayout::{Kind, RawColumn, Rows, Step};
use column_storage::{Buffer, DataBuffers, MAX_BUFFERS};
use column_view::View;
use std::alloc::Global;

/// The lists of a column with offsets of any kind. Offsets of 64 bits are these numbers too.
#[derive(Clone, Copy)]
pub struct Lists<'a> {
    pub offsets: &'a [i32],
    pub values: &'a [u8],
    pub flags: Flags<'a>,
}

pub fn lists_of<'a>(offsets: &'a [i32], values: &'a [u8], flags: Flags<'a>) -> Lists<'a> {
    Lists {
        offsets,
        values,
        flags,
    }
}

/// Three slots, whose bytes lie between two that are no text.
pub fn three() -> Lists<'static> {
    lists_of(&[1, 3, 3, 4], b"\xffabc\xff", Some(&[true, false, true]))
}

/// No slot, within bytes that are no text.
pub fn without() -> Lists<'static> {
    lists_of(&[2], b"\xff\xff\xff", Some(&[]))
}

/// The first slot is not UTF-8, and neither is the last.
pub fn framed() -> Lists<'static> {
    lists_of(&[0, 1, 2, 4, 5], b"\xffa\xc3\xa9\xff", None)
}

/// One character lies in two slots.
pub fn cut_character() -> Lists<'static> {
    lists_of(&[0, 1, 2, 3], b"\xc3\xa9a", Some(&[false, false, true]))
}

/// Eight slots, three of which are null.
pub fn eight() -> Lists<'static> {
    lists_of(
        &[1, 2, 4, 4, 7, 8, 10, 14, 14],
        b"\xffa\xc3\xa9\xe2\x82\xacbcd\xf0\x9f\x98\x80\xff",
        Some(&[true, false, true, true, false, true, true, false]),
    )
}

/// The slots that are left of the first ones: from which on, how many, and whether they have flags.
#[derive(Clone, Copy)]
pub struct Span {
    pub from: usize,
    pub count: usize,
    pub flagged: bool,
}

pub fn span_of(from: usize, count: usize, flagged: bool) -> Span {
    Span {
        from,
        count,
        flagged,
    }
}

fn flags_of(flags: &[bool], span: Span) -> Flags<'_> {
    if span.flagged && span.count <= flags.len() && span.from <= flags.len() - span.count {
        Some(&flags[span.from..span.from + span.count])
    } else {
        None
    }
}

fn offsets_of(offsets: &[i32], span: Span) -> &[i32] {
    if span.count < offsets.len() && span.from < offsets.len() - span.count {
        &offsets[span.from..span.from + span.count + 1]
    } else {
        offsets
    }
}

/// The lists of a span of slots: their offsets, first and last included, all the value bytes, and their flags.
pub fn part_of(own: Lists<'_>, span: Span) -> Lists<'_> {
    let flags = match own.flags {
        Some(flags) => flags_of(flags, span),
        None => None,
    };
    lists_of(offsets_of(own.offsets, span), own.values, flags)
}

/// Parts with offsets of 64 bits.
pub fn wide_parts(
    alloc: Global,
    text: bool,
    offsets: Vec<i64>,
    values: &[u8],
    flags: Flags<'_>,
) -> Result<RawColumn, PolarsError> {
    Ok(RawColumn::Offset64 {
        text,
        offsets: Buffer::from_vec(alloc, offsets)?,
        values: Buffer::from_vec(alloc, Vec::from_slice(alloc, values)?)?,
        validity: bitmap(alloc, flags)?,
    })
}

fn narrow_parts(alloc: Global, text: bool, own: Lists<'_>) -> Result<RawColumn, PolarsError> {
    Ok(RawColumn::Offset32 {
        text,
        offsets: Buffer::from_vec(alloc, Vec::from_slice(alloc, own.offsets)?)?,
        values: Buffer::from_vec(alloc, Vec::from_slice(alloc, own.values)?)?,
        validity: bitmap(alloc, own.flags)?,
    })
}

fn widened(alloc: Global, offsets: &[i32]) -> Result<Vec<i64>, PolarsError> {
    let mut wide = Vec::new(alloc);
    for offset in offsets {
        wide.push(i64::from(*offset))?;
    }
    Ok(wide)
}

// The parts of this width, byte strings or texts, and these lists.
fn offset_parts(
    alloc: Global,
    large: bool,
    text: bool,
    own: Lists<'_>,
) -> Result<RawColumn, PolarsError> {
    if large {
        let offsets = widened(alloc, own.offsets)?;
        wide_parts(alloc, text, offsets, own.values, own.flags)
    } else {
        narrow_parts(alloc, text, own)
    }
}

// ---- columns of every kind

/// The view of no bytes.
pub const EMPTY: &[u8; 16] = &[0; 16];

/// The view of "abc".
pub const ABC: &[u8; 16] = b"\x03\0\0\0abc\0\0\0\0\0\0\0\0\0";

/// The view of the thirteen bytes from "abcd" on that stand behind one byte of the first buffer.
pub const LONG: &[u8; 16] = b"\x0d\0\0\0abcd\0\0\0\0\x01\0\0\0";

/// A column's kind and lists: offsets and value bytes, the bytes of views and buffers, a width and value bytes, or
/// numbers; and flags.
#[derive(Clone, Copy)]
pub enum ColumnLists<'a> {
    Binary32(&'a [i32], &'a [u8], Flags<'a>),
    Binary64(&'a [i32], &'a [u8], Flags<'a>),
    Utf8_32(&'a [i32], &'a [u8], Flags<'a>),
    Utf8_64(&'a [i32], &'a [u8], Flags<'a>),
    BinView(&'a [&'a [u8; 16]], &'a [&'a [u8]], Flags<'a>),
    Utf8View(&'a [&'a [u8; 16]], &'a [&'a [u8]], Flags<'a>),
    Fixed(usize, &'a [u8], Flags<'a>),
    Int64(&'a [i64], Flags<'a>),
}

/// The column of byte strings, or of texts, with offsets of this width.
pub fn of_offsets(large: bool, text: bool, own: Lists<'_>) -> ColumnLists<'_> {
    if large {
        if text {
            ColumnLists::Utf8_64(own.offsets, own.values, own.flags)
        } else {
            ColumnLists::Binary64(own.offsets, own.values, own.flags)
        }
    } else {
        if text {
            ColumnLists::Utf8_32(own.offsets, own.values, own.flags)
        } else {
            ColumnLists::Binary32(own.offsets, own.values, own.flags)
        }
    }
}

pub fn kind_in(own: ColumnLists<'_>) -> Kind {
    match own {
        ColumnLists::Binary32(_, _, _) => Kind::Binary32,
        ColumnLists::Binary64(_, _, _) => Kind::Binary64,
        ColumnLists::Utf8_32(_, _, _) => Kind::Utf8_32,
        ColumnLists::Utf8_64(_, _, _) => Kind::Utf8_64,
        ColumnLists::BinView(_, _, _) => Kind::BinView,
        ColumnLists::Utf8View(_, _, _) => Kind::Utf8View,
        ColumnLists::Fixed(width, _, _) => Kind::Fixed(width),
        ColumnLists::Int64(_, _) => Kind::Int64,
    }
}

fn views_of(alloc: Global, all: &[&[u8; 16]]) -> Result<Buffer<View>, PolarsError> {
    let mut views = Vec::with_capacity(alloc, all.len())?;
    for bytes in all {
        views.push(View::from_le(**bytes))?;
    }
    Buffer::from_vec(alloc, views)
}

fn bytes_of(alloc: Global, bytes: &[u8]) -> Result<Buffer<u8>, PolarsError> {
    Buffer::from_vec(alloc, Vec::from_slice(alloc, bytes)?)
}

fn buffers_of(alloc: Global, all: &[&[u8]]) -> Result<DataBuffers, PolarsError> {
    let mut buffers = Vec::new(alloc);
    for bytes in all {
        buffers.push(bytes_of(alloc, *bytes)?)?;
    }
    if buffers.len() > MAX_BUFFERS {
        return Err(PolarsError::NoMemory);
    }
    DataBuffers::from_vec(alloc, buffers)
}

fn view_parts(
    alloc: Global,
    text: bool,
    views: &[&[u8; 16]],
    buffers: &[&[u8]],
    flags: Flags<'_>,
) -> Result<RawColumn, PolarsError> {
    Ok(RawColumn::View {
        text,
        views: views_of(alloc, views)?,
        buffers: buffers_of(alloc, buffers)?,
        validity: bitmap(alloc, flags)?,
    })
}

fn fixed_parts(
    alloc: Global,
    width: usize,
    values: &[u8],
    flags: Flags<'_>,
) -> Result<RawColumn, PolarsError> {
    Ok(RawColumn::Fixed {
        width,
        values: bytes_of(alloc, values)?,
        validity: bitmap(alloc, flags)?,
    })
}

fn number_parts(
    alloc: Global,
    numbers: &[i64],
    flags: Flags<'_>,
) -> Result<RawColumn, PolarsError> {
    Ok(RawColumn::Int64 {
        numbers: Buffer::from_vec(alloc, Vec::from_slice(alloc, numbers)?)?,
        validity: bitmap(alloc, flags)?,
    })
}

/// The parts of these lists.
pub fn parts_of(alloc: Global, own: ColumnLists<'_>) -> Result<RawColumn, PolarsError> {
    match own {
        ColumnLists::Binary32(offsets, values, flags) => {
            offset_parts(alloc, false, false, lists_of(offsets, values, flags))
        }
        ColumnLists::Binary64(offsets, values, flags) => {
            offset_parts(alloc, true, false, lists_of(offsets, values, flags))
        }
        ColumnLists::Utf8_32(offsets, values, flags) => {
            offset_parts(alloc, false, true, lists_of(offsets, values, flags))
        }
        ColumnLists::Utf8_64(offsets, values, flags) => {
            offset_parts(alloc, true, true, lists_of(offsets, values, flags))
        }
        ColumnLists::BinView(views, buffers, flags) => view_parts(
            alloc, false, views, buffers, flags,
        ),
        ColumnLists::Utf8View(views, buffers, flags) => view_parts(
            alloc, true, views, buffers, flags,
        ),
        ColumnLists::Fixed(width, values, flags) => fixed_parts(alloc, width, values, flags),
        ColumnLists::Int64(numbers, flags) => number_parts(alloc, numbers, flags),
    }
}

// ---- steps

/// A step as it is written down, which a table can hold and several plans can have.
#[derive(Clone, Copy)]
pub enum Planned<'a> {
    Slice(usize, usize),
    Left(usize),
    Right(usize),
    ToUtf8,
    ToBinary,
    Gc,
    Dedupe,
    Append(&'a [Option<&'a [u8]>]),
    Rebuild(Kind),
}

/// The rows, each of which is pushed.
pub fn rows_of(alloc: Global, given: &[Option<&[u8]>]) -> Result<Rows, PolarsError> {
    let mut rows = Rows::new(alloc);
    for row in given {
        rows.push(*row)?;
    }
    Ok(rows)
}

fn step_of(alloc: Global, planned: Planned<'_>) -> Result<Step, PolarsError> {
    match planned {
        Planned::Slice(offset, length) => Ok(Step::Slice(offset, length)),
        Planned::Left(count) => Ok(Step::Left(count)),
        Planned::Right(count) => Ok(Step::Right(count)),
        Planned::ToUtf8 => Ok(Step::ToUtf8),
        Planned::ToBinary => Ok(Step::ToBinary),
        Planned::Gc => Ok(Step::Gc),
        Planned::Dedupe => Ok(Step::Dedupe),
        Planned::Append(rows) => Ok(Step::Append(rows_of(alloc, rows)?)),
        Planned::Rebuild(kind) => Ok(Step::Rebuild(kind)),
    }
}

/// The plan of these steps.
pub fn plan_of(alloc: Global, steps: &[Planned<'_>]) -> Result<Vec<Step>, PolarsError> {
    let mut plan = Vec::with_capacity(alloc, steps.len())?;
    for step in steps {
        plan.push(step_of(alloc, *step)?)?;
    }
    Ok(plan)
}
