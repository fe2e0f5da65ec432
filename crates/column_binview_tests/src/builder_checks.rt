//! What a builder is seen to be: one truth value for each group of calls, and no assertion.

ghost use Rattle.std.specs.Prelude.{◌+◌, ◌≤◌};

use crate::builder_cases::{A, B, SHORT, TWICE, buffer, of, source, stored};
use crate::cases::{ABC, LONG, NONE, long};
use column_base::{
    ArrowDataType, BinaryKind, Cause, PolarsError, TryExtend, Utf8Kind, ViewKind, ViewType,
};
use column_binview::{
    BinaryViewArray, BinaryViewArrayGeneric, MutableBinaryViewArray, MutablePlBinary,
    MutablePlString, Utf8ViewArray, ViewOperation,
};
use column_checks::{Flags, flags_are, gives, grown_flags_are};
use column_storage::{Buffer, DataBuffers, MutableArray, MutableBitmap};
use column_view::View;
use std::alloc::Global;

// ---- lists

fn views_are(views: &[View], wanted: &[[u8; 16]]) -> bool {
    if views.len() != wanted.len() {
        return false;
    }
    for i in 0..wanted.len() {
        if views[i].to_le() != wanted[i] {
            return false;
        }
    }
    true
}

fn finished_are(buffers: &[Buffer<u8>], wanted: &[&[u8]]) -> bool {
    if buffers.len() != wanted.len() {
        return false;
    }
    for i in 0..wanted.len() {
        if buffers[i].as_slice() != wanted[i] {
            return false;
        }
    }
    true
}

fn buffers_are(buffers: &DataBuffers, wanted: &[&[u8]]) -> bool {
    if buffers.len() != wanted.len() {
        return false;
    }
    for i in 0..wanted.len() {
        if buffers.get(i).as_slice() != wanted[i] {
            return false;
        }
    }
    true
}

/// Whether an array has these views, buffers and flags.
fn array_is<K: ViewKind>(
    array: &BinaryViewArrayGeneric<K>,
    views: &[[u8; 16]],
    buffers: &[&[u8]],
    flags: Flags<'_>,
) -> bool {
    views_are(array.views().as_slice(), views)
        && buffers_are(array.data_buffers(), buffers)
        && flags_are(array.validity(), flags)
}

/// Whether a builder has these views, finished buffers, flags and sums.
pub fn builder_is<K: ViewKind>(
    builder: &MutableBinaryViewArray<K>,
    views: &[[u8; 16]],
    finished: &[&[u8]],
    flags: Flags<'_>,
    sums: (u128, u128),
) -> bool {
    builder.len() == views.len()
        && builder.is_empty() == views.is_empty()
        && builder.capacity() >= views.len()
        && builder.dtype() == K::DATA_TYPE
        && views_are(builder.views(), views)
        && finished_are(builder.completed_buffers(), finished)
        && grown_flags_are(builder.validity(), flags)
        && builder.total_bytes_len() == sums.0
        && builder.total_buffer_len() == sums.1
}

// ---- values

fn push_rows<'a, K: ViewType<'a>>(
    builder: &mut MutableBinaryViewArray<K>,
    short: K::Item,
    value: K::Item,
) -> Result<(), PolarsError> {
    builder.reserve(4)?;
    builder.push_value(short)?;
    builder.push_value(value)?;
    builder.push_null()?;
    builder.push(Some(value))
}

/// The views of the four slots: a short value, a long one, a null and the long one again.
const FOUR: [[u8; 16]; 4] = [
    [3, 0, 0, 0, 97, 98, 99, 0, 0, 0, 0, 0, 0, 0, 0, 0],
    [13, 0, 0, 0, 97, 98, 99, 100, 0, 0, 0, 0, 0, 0, 0, 0],
    [0; 16],
    [13, 0, 0, 0, 97, 98, 99, 100, 0, 0, 0, 0, 13, 0, 0, 0],
];

const FLAGS: [bool; 4] = [true, true, false, true];

/// Whether values and a null are pushed.
pub fn rows_are_pushed<'a, K: ViewType<'a>>(
    alloc: Global,
    short: K::Item,
    value: K::Item,
) -> Result<bool, PolarsError> {
    let mut builder = MutableBinaryViewArray::<K>::with_capacity(alloc, 1)?;
    push_rows(&mut builder, short, value)?;
    Ok(builder_is(&builder, &FOUR, &[], Some(&FLAGS), (29, 26)))
}

/// Whether a copy of such a builder is frozen.
pub fn rows_are_frozen(alloc: Global) -> Result<bool, PolarsError> {
    let mut builder = MutablePlBinary::new(alloc);
    push_rows(&mut builder, SHORT, LONG)?;
    let array = builder
        .try_clone()?
        .freeze_with_dtype(ArrowDataType::Unknown)?;
    Ok(array_is(&array, &FOUR, &[TWICE], Some(&FLAGS)))
}

/// Whether such a builder is taken apart.
pub fn rows_are_taken(alloc: Global) -> Result<bool, PolarsError> {
    let mut builder = MutablePlBinary::new(alloc);
    push_rows(&mut builder, SHORT, LONG)?;
    let (views, buffers) = builder.take()?;
    Ok(views_are(&views, &FOUR) && finished_are(&buffers, &[TWICE]))
}

/// Whether a value is pushed where there is no validity, and read.
pub fn values_are_read(alloc: Global) -> Result<bool, PolarsError> {
    let mut builder = MutablePlBinary::new(alloc);
    builder.push_value_ignore_validity(LONG)?;
    Ok(
        builder.len() == 1
            && builder.value(0) == LONG
            && builder.value_unchecked(0) == LONG
            && builder.value_bytes(0) == LONG
            && gives(builder.values_iter(), &[LONG]),
    )
}

/// Whether texts are read.
pub fn texts_are_read(alloc: Global) -> Result<bool, PolarsError> {
    let mut builder = MutablePlString::new(alloc);
    builder.push_value("abc")?;
    Ok(gives(builder.values_iter(), &["abc"]))
}

/// Whether equal slots are added, and the bytes of a long value once, also for none.
pub fn equal_slots_are_added(alloc: Global, count: usize) -> Result<bool, PolarsError> {
    let mut builder = MutablePlBinary::new(alloc);
    builder.extend_constant(count, Some(LONG))?;
    Ok(
        builder.len() == count
            && builder.validity().is_none()
            && builder.total_bytes_len() == 13 * count as u128
            && builder.total_buffer_len() == 13,
    )
}

/// Whether null slots are added, and no validity is made for none.
pub fn nulls_are_added(alloc: Global, count: usize) -> Result<bool, PolarsError> {
    let mut builder = MutablePlBinary::new(alloc);
    builder.extend_null(count)?;
    builder.extend_constant(0, None)?;
    Ok(builder.len() == count && builder.validity().is_some() == (count > 0))
}

/// Whether values of these lengths give buffers of those, of which the last is the block in progress.
pub fn rule_gives(alloc: Global, lengths: &[usize], wanted: &[usize]) -> Result<bool, PolarsError> {
    let (_, buffers) = stored(alloc, lengths)?.take()?;
    Ok(lengths_are(&buffers, wanted))
}

fn lengths_are(buffers: &[Buffer<u8>], wanted: &[usize]) -> bool {
    if buffers.len() != wanted.len() {
        return false;
    }
    for i in 0..wanted.len() {
        if buffers[i].len() != wanted[i] {
            return false;
        }
    }
    true
}

/// Whether the block is finished once, and before a buffer that is added.
pub fn buffers_are_added(alloc: Global) -> Result<bool, PolarsError> {
    let mut builder = MutablePlBinary::new(alloc);
    let added = add_buffers(alloc, &mut builder)?;
    Ok(added && builder_is(&builder, &[long(0, 0)], &[LONG, b"x"], None, (13, 14)))
}

fn add_buffers(alloc: Global, builder: &mut MutablePlBinary) -> Result<bool, PolarsError> {
    let none = builder.finish_in_progress()?;
    builder.push_value(LONG)?;
    let some = builder.finish_in_progress()?;
    let place = builder.push_buffer(buffer(alloc, b"x")?)?;
    Ok(!none && some && place == 1)
}

// ---- changes

/// Whether a slot gets another view over the buffers that there are, and a view is read over them.
pub fn views_are_put(alloc: Global) -> Result<bool, PolarsError> {
    let mut builder = MutablePlBinary::new(alloc);
    builder.push_value(A)?;
    builder.push_null()?;
    let put = put(&mut builder, 1, of(b'a', 0))?;
    let views = [of(b'a', 0), of(b'a', 0)];
    Ok(put && builder_is(&builder, &views, &[], Some(&[true, false]), (26, 13)))
}

// Puts a view into a slot, and says whether it had no fault and was read before.
fn put(builder: &mut MutablePlBinary, i: usize, bytes: [u8; 16]) -> Result<bool, PolarsError> {
    let array = builder.try_clone()?.freeze()?;
    let view = View::from_le(bytes);
    let views = [view];
    if i >= builder.len()
        || column_view::check_views(&views, array.data_buffers(), false).is_err()
    {
        return Ok(false);
    }
    let count = builder.value_from_view_unchecked(&view).len();
    builder.set_view(i, view);
    Ok(count == 13)
}

/// Whether a slot gets another flag, and a validity is made at the first null.
pub fn flags_are_put(alloc: Global, flag: bool) -> Result<bool, PolarsError> {
    let mut builder = MutablePlBinary::new(alloc);
    builder.push_value(A)?;
    if builder.len() == 0 {
        return Ok(false);
    }
    builder.set_valid(0, flag)?;
    Ok(builder.validity().is_none() == flag && flagged(&mut builder))
}

fn flagged(builder: &mut MutablePlBinary) -> bool {
    builder.shrink_to_fit();
    builder.apply_validity(|bits| bits);
    builder.set_validity(None);
    builder.validity().is_none()
}

/// Whether a builder takes no validity.
pub fn no_flags_are_put(alloc: Global) -> bool {
    let builder = MutablePlBinary::new(alloc).with_validity(None);
    builder.validity().is_none()
}

// ---- views of sources

/// How a view of a source is pushed.
#[derive(Clone, Copy)]
pub enum Way {
    Take,
    TakeUnchecked,
    Copy,
}

/// Whether views of a source take each buffer once, in the order of first naming, and a short view takes none; or, where
/// bytes are copied, none is taken.
pub fn source_is_used(
    alloc: Global,
    way: Way,
    views: &[[u8; 16]],
    finished: &[&[u8]],
    buffer_bytes: u128,
) -> Result<bool, PolarsError> {
    let mut builder = MutablePlBinary::new(alloc);
    let number = builder.add_source(source(alloc)?)?;
    let pushed = push_source_views(&mut builder, number, way)?;
    Ok(pushed && builder_is(&builder, views, finished, None, (42, buffer_bytes)))
}

fn push_source_views(
    builder: &mut MutablePlBinary,
    number: u32,
    way: Way,
) -> Result<bool, PolarsError> {
    let first = push_source_view(builder, of(b'c', 2), number, way)?;
    let second = push_source_view(builder, of(b'a', 0), number, way)?;
    let again = push_source_view(builder, of(b'c', 2), number, way)?;
    let short = push_source_view(builder, ABC, number, way)?;
    Ok(first && second && again && short)
}

/// Whether a copy of a builder knows which buffers were taken.
pub fn copy_knows_its_sources(alloc: Global) -> Result<bool, PolarsError> {
    let mut builder = MutablePlBinary::new(alloc);
    let number = builder.add_source(source(alloc)?)?;
    let first = push_source_view(&mut builder, of(b'b', 1), number, Way::Take)?;
    let mut copy = builder.try_clone()?;
    let again = push_source_view(&mut copy, of(b'b', 1), number, Way::Take)?;
    let views = [of(b'b', 0), of(b'b', 0)];
    Ok(first && again && builder_is(&copy, &views, &[B], None, (26, 13)))
}

// Pushes a view, and says whether it had no fault over its source.
fn push_source_view(
    builder: &mut MutablePlBinary,
    bytes: [u8; 16],
    number: u32,
    way: Way,
) -> Result<bool, PolarsError> {
    if number as usize >= builder.source_count() || builder.validity().is_some() {
        return Ok(false);
    }
    let views = [View::from_le(bytes)];
    if column_view::check_views(&views, builder.source(number), false).is_err() {
        return Ok(false);
    }
    match way {
        Way::Take => builder.push_view(views[0], number)?,
        Way::TakeUnchecked => builder.push_view_unchecked_dedupe(views[0], number)?,
        Way::Copy => builder.push_view_unchecked(views[0], number)?,
    }
    Ok(true)
}

// ---- lengths and texts

fn values_are(builder: &MutablePlBinary, wanted: &[&[u8]]) -> bool {
    if builder.len() != wanted.len() {
        return false;
    }
    for i in 0..wanted.len() {
        if builder.value_bytes(i) != wanted[i] {
            return false;
        }
    }
    true
}

/// Whether bytes are cut into short values, long ones and both, after a null where there is one.
pub fn cuts_give(alloc: Global, is_null: bool, wanted: &[&[u8]]) -> Result<bool, PolarsError> {
    let mut builder = MutablePlBinary::new(alloc);
    if is_null {
        builder.push_null()?;
    }
    cut_all(&mut builder)?;
    Ok(builder.validity().is_some() == is_null && values_are(&builder, wanted))
}

fn cut_all(builder: &mut MutablePlBinary) -> Result<(), PolarsError> {
    builder.extend_from_lengths(b"", &[])?;
    builder.extend_from_lengths(b"abcdefhix", &[3, 3, 3])?;
    builder.extend_from_lengths(b"abcdefgxyza1234abcd", &[3, 4, 12])?;
    builder.extend_from_lengths(b"abcdefghijklmaaaaaaaaaaaaa", &[13, 13])?;
    builder.extend_from_lengths_with_stats(b"abcabcdefghijklm", &[3, 13], 3, 13, 16)
}

/// Whether the slots from a place on are texts.
pub fn texts_are_told(
    alloc: Global,
    from: usize,
    cause: Option<Cause>,
) -> Result<bool, PolarsError> {
    let mut builder = MutablePlBinary::new(alloc);
    builder.push_value(b"\xFF")?;
    builder.push_value(LONG)?;
    if from > builder.len() {
        return Ok(false);
    }
    match builder.validate_utf8(0, from) {
        Ok(()) => Ok(cause.is_none()),
        Err(error) => Ok(cause.map(PolarsError::ComputeError) == Some(error)),
    }
}

// ---- items

const ROWS: [Option<&[u8]>; 2] = [Some(LONG), None];

fn is_made(builder: &MutablePlBinary) -> bool {
    builder_is(
        builder,
        &[long(0, 0), NONE],
        &[],
        Some(&[true, false]),
        (13, 13),
    )
}

/// How a builder grows by rows.
#[derive(Clone, Copy)]
pub enum Call {
    Extend,
    ExtendTrusted,
    TryExtend,
}

/// Whether a builder grows by two rows by this call.
pub fn rows_extend(alloc: Global, call: Call) -> Result<bool, PolarsError> {
    let mut builder = MutablePlBinary::new(alloc);
    extend_by(&mut builder, call)?;
    Ok(is_made(&builder))
}

fn extend_by(builder: &mut MutablePlBinary, call: Call) -> Result<(), PolarsError> {
    match call {
        Call::Extend => builder.extend(ROWS.iter().copied()),
        Call::ExtendTrusted => builder.extend_trusted_len(ROWS.iter().copied()),
        Call::TryExtend => builder.try_extend(ROWS.iter().copied()),
    }
}

/// Whether a builder is made of two rows.
pub fn rows_make(alloc: Global) -> Result<bool, PolarsError> {
    let first = MutablePlBinary::from_iter(alloc, ROWS.iter().copied())?;
    Ok(is_made(&first))
}

pub fn rows_make_too(alloc: Global) -> Result<bool, PolarsError> {
    let builder = MutablePlBinary::from_iterator(alloc, ROWS.iter().copied())?;
    Ok(is_made(&builder))
}

/// Whether a builder grows by values, after those that it was made of.
pub fn values_make(alloc: Global) -> Result<bool, PolarsError> {
    let values: [&[u8]; 2] = [SHORT, LONG];
    let mut builder = MutablePlBinary::from_values_iter(alloc, values.iter().copied())?;
    builder.extend_values(values.iter().copied())?;
    builder.extend_trusted_len_values(values.iter().copied())?;
    Ok(values_are(&builder, &[SHORT, LONG, SHORT, LONG, SHORT, LONG]))
}

/// Whether builders and arrays are made of owned rows and values.
pub fn owned_rows_make(alloc: Global) -> Result<bool, PolarsError> {
    let rows = [Some(Vec::from_slice(alloc, LONG)?), None];
    let builder = MutablePlBinary::from(alloc, &rows)?;
    Ok(is_made(&builder))
}

pub fn owned_rows_make_arrays(alloc: Global) -> Result<bool, PolarsError> {
    let rows = [Some(Vec::from_slice(alloc, LONG)?), None];
    let array = BinaryViewArray::from_slice(alloc, &rows)?;
    Ok(array_is(&array, &[long(0, 0), NONE], &[LONG], Some(&[true, false])))
}

pub fn owned_values_make(alloc: Global) -> Result<bool, PolarsError> {
    let values = [Vec::from_slice(alloc, LONG)?];
    let array = BinaryViewArray::from_slice_values(alloc, &values)?;
    Ok(array_is(&array, &[long(0, 0)], &[LONG], None))
}

/// The same of texts.
pub fn owned_texts_make(alloc: Global) -> Result<bool, PolarsError> {
    let rows = [Some(String::from_str(alloc, "abc")?), None];
    let builder = MutablePlString::from(alloc, &rows)?;
    Ok(builder_is(&builder, &[ABC, NONE], &[], Some(&[true, false]), (3, 0)))
}

pub fn owned_texts_make_arrays(alloc: Global) -> Result<bool, PolarsError> {
    let rows = [Some(String::from_str(alloc, "abc")?), None];
    let array = Utf8ViewArray::from_slice(alloc, &rows)?;
    Ok(array_is(&array, &[ABC, NONE], &[], Some(&[true, false])))
}

pub fn owned_text_values_make(alloc: Global) -> Result<bool, PolarsError> {
    let values = [String::from_str(alloc, "abc")?];
    let array = Utf8ViewArray::from_slice_values(alloc, &values)?;
    Ok(array_is(&array, &[ABC], &[], None))
}

/// Whether a builder is read and grows as any builder of a column.
pub fn binary_grows(alloc: Global) -> Result<bool, PolarsError> {
    column_grows(&mut MutablePlBinary::new(alloc))
}

fn column_grows<M: MutableArray>(builder: &mut M) -> Result<bool, PolarsError> {
    builder.reserve_slots(1)?;
    builder.push_null()?;
    builder.shrink_to_fit();
    Ok(
        builder.dtype() == ArrowDataType::BinaryView
            && builder.len() > 0
            && !builder.is_empty()
            && builder.validity().is_some(),
    )
}

// ---- arrays

/// Whether a builder of an array goes on after its buffers, with a block of its own.
pub fn array_goes_on(alloc: Global, array: BinaryViewArray) -> Result<bool, PolarsError> {
    let mut builder = array.make_mut(alloc)?;
    builder.push_value(A)?;
    Ok(builder_is(
        &builder,
        &[long(0, 0), of(b'a', 1)],
        &[LONG],
        None,
        (26, 26),
    ))
}

/// Whether the buffers of these lists are made anew of the long slots.
pub fn gathers(
    alloc: Global,
    array: BinaryViewArray,
    views: &[[u8; 16]],
    buffers: &[&[u8]],
    flags: Flags<'_>,
) -> Result<bool, PolarsError> {
    let array = array.gc(alloc)?;
    Ok(array_is(&array, views, buffers, flags))
}

/// Whether an array of one long value after a buffer of so many bytes is made anew.
pub fn is_gathered(alloc: Global, bytes: usize) -> Result<bool, PolarsError> {
    let array = wasteful(alloc, bytes)?.maybe_gc(alloc)?;
    Ok(array.data_buffers().len() == 1)
}

fn wasteful(alloc: Global, bytes: usize) -> Result<BinaryViewArray, PolarsError> {
    let mut builder = MutablePlBinary::new(alloc);
    let unused = vec![in alloc; 0x78u8; bytes]?;
    let _place = builder.push_buffer(Buffer::from_vec(alloc, unused)?)?;
    builder.push_value(LONG)?;
    let array = builder.freeze()?;
    Ok(array)
}

// ---- operations in a row

/// Whether operations on an empty builder give the array of the slots that they leave.
pub fn replay_gives(alloc: Global) -> Result<bool, PolarsError> {
    let value = Vec::from_slice(alloc, LONG)?;
    let operations = [ViewOperation::PushNull, ViewOperation::Repeat(2, value)];
    let array = MutablePlBinary::replay(alloc, &operations)?;
    let views = [NONE, long(0, 0), long(0, 0)];
    Ok(array_is(&array, &views, &[LONG], Some(&[false, true, true])))
}

/// The same of texts.
pub fn text_replay_gives(alloc: Global) -> Result<bool, PolarsError> {
    let operations = [ViewOperation::Push(String::from_str(alloc, "abc")?)];
    let array = MutablePlString::replay(alloc, &operations)?;
    Ok(array_is(&array, &[ABC], &[], None))
}
