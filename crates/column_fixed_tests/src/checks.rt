//! What arrays and builders are seen to be: one truth value for each group of calls, and no assertion.

ghost use Rattle.std.specs.Prelude.{◌≡◌, ◌+◌, ◌≤◌, ◌<◌, length};
ghost use Rattle.column_fixed.specs.Slots.{fixed_count};

use crate::cases::{ROWS, TWO, array, four, grown, of_lists, pair};
use column_base::{
    ArrowDataType, Cause, PolarsError, Splitable, TryExtend, TryExtendFromSelf, TryPush,
};
use column_checks::{
    Flags, Half, bitmap, ends_are, flags_are, gives, gives_back, grown_flags_are, half_of,
};
use column_fixed::{
    FixedOperation, FixedSizeBinaryArray, MutableFixedSizeBinaryArray, no_fault_is_sound,
};
use column_storage::{Bitmap, MutableArray, MutableBitmap, check_flags, check_validity};
use std::alloc::Global;

// ---- lists

fn lists_are(
    array: &FixedSizeBinaryArray,
    size: usize,
    values: &[u8],
    flags: Flags<'_>,
    count: usize,
) -> bool {
    array.size() == size
        && array.values().as_slice() == values
        && flags_are(array.validity(), flags)
        && array.len() == count
        && array.is_empty() == (count == 0)
        && array.dtype() == ArrowDataType::FixedSizeBinary(size)
}

fn grown_are(
    builder: &MutableFixedSizeBinaryArray,
    values: &[u8],
    flags: Flags<'_>,
    count: usize,
) -> bool {
    builder.size() == 2
        && builder.values().as_slice() == values
        && grown_flags_are(builder.validity(), flags)
        && builder.len() == count
        && builder.is_empty() == (count == 0)
        && builder.capacity() >= count
        && builder.dtype() == TWO
}

// ---- constructors

pub fn is_told(
    alloc: Global,
    dtype: ArrowDataType,
    values: &[u8],
    flags: Flags<'_>,
    wanted: Result<(usize, usize), Cause>,
) -> bool {
    match (array(alloc, dtype, values, flags), wanted) {
        (Ok(array), Ok((size, count))) => lists_are(&array, size, values, flags, count),
        (Err(error), Err(cause)) => error == PolarsError::ComputeError(cause),
        _ => false,
    }
}

/// The same of a builder.
pub fn builder_is_told(
    alloc: Global,
    dtype: ArrowDataType,
    values: &[u8],
    flags: Flags<'_>,
    wanted: Result<usize, Cause>,
) -> bool {
    match (of_lists(alloc, dtype, values, flags), wanted) {
        (Ok(builder), Ok(count)) => grown_are(&builder, values, flags, count),
        (Err(error), Err(cause)) => error == PolarsError::ComputeError(cause),
        _ => false,
    }
}

pub fn nulls_are(alloc: Global) -> Result<bool, PolarsError> {
    let array = FixedSizeBinaryArray::new_null(alloc, TWO, 2)?;
    let flags: Flags<'_> = Some(&[false, false]);
    Ok(lists_are(&array, 2, &[0; 4], flags, 2) && array.null_count() == 2)
}

pub fn empty_is(alloc: Global) -> Result<bool, PolarsError> {
    let array = FixedSizeBinaryArray::new_empty(alloc, TWO)?;
    Ok(lists_are(&array, 2, b"", None, 0))
}

pub fn slices_are(alloc: Global) -> Result<bool, PolarsError> {
    let array = FixedSizeBinaryArray::from_slice(alloc, &[[1, 2], [3, 4]])?;
    Ok(lists_are(&array, 2, &[1, 2, 3, 4], None, 2))
}

pub fn options_are(alloc: Global) -> Result<bool, PolarsError> {
    let array = FixedSizeBinaryArray::from(alloc, &[Some([1, 2]), None])?;
    Ok(lists_are(&array, 2, &[1, 2, 0, 0], Some(&[true, false]), 2))
}

pub fn rows_are(alloc: Global) -> Result<bool, PolarsError> {
    let array = FixedSizeBinaryArray::try_from_iter(alloc, ROWS.iter().copied(), 2)?;
    let flags: Flags<'_> = Some(&[true, false, true, true]);
    Ok(lists_are(&array, 2, b"ab\0\0cdef", flags, 4))
}

pub fn wrong_rows_are_refused(alloc: Global) -> bool {
    match FixedSizeBinaryArray::try_from_iter(alloc, ROWS.iter().copied(), 3) {
        Ok(_) => false,
        Err(error) => error == PolarsError::ComputeError(Cause::WrongLength),
    }
}

// ---- readers

pub fn four_are_read(alloc: Global) -> Result<bool, PolarsError> {
    let array = four(alloc)?;
    Ok(
        array.len() == 4
            && array.value(1) == b"xy".as_slice()
            && array.value_unchecked(3) == b"ef".as_slice()
            && array.get(1).is_none()
            && array.get(2) == Some(b"cd".as_slice())
            && array.is_null(1)
            && array.is_valid(0)
            && array.null_count() == 1,
    )
}

const VALUES: [&[u8]; 4] = [b"ab", b"xy", b"cd", b"ef"];

pub fn rows_give(array: &FixedSizeBinaryArray) -> bool {
    gives(array.into_iter(), &ROWS) && ends_are(array.iter(), ROWS)
}

pub fn values_give(array: &FixedSizeBinaryArray) -> bool {
    ends_are(array.values_iter(), VALUES)
        && gives(array.non_null_values_iter(), &[b"ab", b"cd", b"ef"])
}

/// The rows 0102 and null, by the builder's own iterators.
pub fn pair_gives(builder: &MutableFixedSizeBinaryArray) -> bool {
    gives(builder.into_iter(), &[Some(&[1, 2]), None])
        && gives(builder.iter_values(), &[&[1, 2], &[0, 0]])
}

/// A null of the greatest width finds no memory, and the builder is as it was.
pub fn giant_null_is_refused(alloc: Global) -> bool {
    let mut builder = MutableFixedSizeBinaryArray::new(alloc, usize::MAX);
    match builder.push_null() {
        Ok(()) => false,
        Err(error) => error == PolarsError::NoMemory && builder.is_empty(),
    }
}

// ---- slices

pub fn part_is(
    alloc: Global,
    offset: usize,
    length: usize,
    values: &[u8],
    flags: Flags<'_>,
) -> Result<bool, PolarsError> {
    let array = four(alloc)?;
    Ok(
        offset <= array.len()
            && length <= array.len() - offset
            && lists_are(&array.sliced(offset, length), 2, values, flags, length),
    )
}

pub fn half_is(
    alloc: Global,
    half: Half,
    place: usize,
    values: &[u8],
    flags: Flags<'_>,
    count: usize,
) -> Result<bool, PolarsError> {
    let array = four(alloc)?;
    Ok(
        array.check_bound(place)
            && lists_are(
                &half_of(alloc, &array, half, place)?,
                2,
                values,
                flags,
                count,
            ),
    )
}

/// A call that cuts a part out of an array.
#[derive(Clone, Copy, Debug)]
pub enum Call {
    SlicedUnchecked,
    Slice,
    SliceUnchecked,
}

fn part(array: FixedSizeBinaryArray, call: Call, from: usize, length: usize) -> FixedSizeBinaryArray
    requires { from + length ≤ fixed_count array }
{
    match call {
        Call::SlicedUnchecked => array.sliced_unchecked(from, length),
        Call::Slice => kept(array, from, length),
        Call::SliceUnchecked => kept_unchecked(array, from, length),
    }
}

fn kept(mut array: FixedSizeBinaryArray, from: usize, length: usize) -> FixedSizeBinaryArray
    requires { from + length ≤ fixed_count array }
{
    array.slice(from, length);
    array
}

fn kept_unchecked(
    mut array: FixedSizeBinaryArray,
    from: usize,
    length: usize,
) -> FixedSizeBinaryArray
    requires { from + length ≤ fixed_count array }
{
    array.slice_unchecked(from, length);
    array
}

/// The same as [`part_is`], by the other calls.
pub fn kept_part_is(
    alloc: Global,
    call: Call,
    (from, length): (usize, usize),
    values: &[u8],
    flags: Flags<'_>,
) -> Result<bool, PolarsError> {
    let array = four(alloc)?;
    Ok(
        from <= array.len()
            && length <= array.len() - from
            && lists_are(&part(array, call, from, length), 2, values, flags, length),
    )
}

// ---- shares, parts and other flags

const BYTES: &[u8] = b"abxycdef";

const FLAGS: Flags<'static> = Some(&[true, false, true, true]);

pub fn share_is(alloc: Global) -> Result<bool, PolarsError> {
    let share = four(alloc)?.try_clone(alloc)?;
    Ok(lists_are(&share, 2, BYTES, FLAGS, 4))
}

// an array of the parts that it hands back
fn is_again(array: FixedSizeBinaryArray) -> bool {
    let (dtype, values, bits) = array.into_inner();
    no_fault_is_sound();
    lists_are(
        &FixedSizeBinaryArray::new(dtype, values, bits),
        2,
        BYTES,
        FLAGS,
        4,
    )
}

pub fn four_are_again(alloc: Global) -> Result<bool, PolarsError> {
    Ok(is_again(four(alloc)?))
}

/// An array takes its own data type, which tells its width.
pub fn width_is_told(alloc: Global) -> Result<bool, PolarsError> {
    let array = four(alloc)?;
    if array.size() != 2 {
        return Ok(false);
    }
    Ok(FixedSizeBinaryArray::get_size(&TWO) == 2 && lists_are(&array.to(TWO), 2, BYTES, FLAGS, 4))
}

pub fn rows_give_back(alloc: Global) -> Result<bool, PolarsError> {
    let array = four(alloc)?;
    Ok(gives_back(array.iter(), &[Some(b"ef"), Some(b"cd"), None, Some(b"ab")]))
}

fn with_is(array: FixedSizeBinaryArray, bits: Option<Bitmap>, flags: Flags<'_>) -> bool {
    match check_validity(bits.as_ref(), array.len()) {
        Ok(()) => lists_are(&array.with_validity(bits), 2, BYTES, flags, 4),
        Err(_) => false,
    }
}

fn set_is(array: FixedSizeBinaryArray, bits: Option<Bitmap>, flags: Flags<'_>) -> bool {
    let mut array = array;
    match check_validity(bits.as_ref(), array.len()) {
        Ok(()) => array.set_validity(bits),
        Err(_) => return false,
    }
    lists_are(&array, 2, BYTES, flags, 4)
}

/// Other flags stand beside the same bytes.
pub fn flags_are_other(alloc: Global, flags: Flags<'_>, set: bool) -> Result<bool, PolarsError> {
    let bits = bitmap(alloc, flags)?;
    let array = four(alloc)?;
    Ok(if set {
        set_is(array, bits, flags)
    } else {
        with_is(array, bits, flags)
    })
}

pub fn taken_is(alloc: Global) -> Result<bool, PolarsError> {
    let mut array = four(alloc)?;
    let taken = array.take_validity();
    Ok(
        flags_are(taken.as_ref(), FLAGS)
            && array.take_validity().is_none()
            && lists_are(&array, 2, BYTES, None, 4),
    )
}

// ---- the builder

pub fn pair_is(alloc: Global) -> Result<bool, PolarsError> {
    let builder = pair(alloc)?;
    Ok(grown_are(&builder, &[1, 2, 0, 0], Some(&[true, false]), 2))
}

/// A row of three bytes is refused, and the builder is as it was.
pub fn three_are_refused(alloc: Global) -> Result<bool, PolarsError> {
    let mut builder = pair(alloc)?;
    let refused = match builder.try_push(Some(&[7, 8, 9])) {
        Ok(()) => false,
        Err(error) => error == PolarsError::ComputeError(Cause::WrongLength),
    };
    Ok(refused && grown_are(&builder, &[1, 2, 0, 0], Some(&[true, false]), 2))
}

/// A split of the rows 0102 and null at 2.
pub fn pair_is_cut(alloc: Global, half: Half) -> Result<bool, PolarsError> {
    let array = pair(alloc)?.freeze()?;
    if !array.check_bound(2) {
        return Ok(false);
    }
    let part = half_of(alloc, &array, half, 2)?;
    Ok(match half {
        Half::Front | Half::FrontUnchecked => {
            lists_are(&part, 2, &[1, 2, 0, 0], Some(&[true, false]), 2)
        }
        Half::Back | Half::BackUnchecked => lists_are(&part, 2, b"", None, 0),
    })
}

/// The null comes as None, then the bytes, then None again.
pub fn pops_give(alloc: Global) -> Result<bool, PolarsError> {
    let mut builder = pair(alloc)?;
    let null = builder.pop()?;
    let first = builder.pop()?;
    let none = builder.pop()?;
    Ok(
        null.is_none()
            && first.is_some_and(|bytes| bytes.as_slice() == [1, 2].as_slice())
            && none.is_none()
            && grown_are(&builder, b"", Some(&[]), 0),
    )
}

pub fn both_are(alloc: Global) -> Result<bool, PolarsError> {
    let mut builder = MutableFixedSizeBinaryArray::with_capacity(alloc, 2, 4)?;
    builder.push_null()?;
    let other = pair(alloc)?;
    if other.size() != builder.size() {
        return Ok(false);
    }
    TryExtendFromSelf::try_extend_from_self(&mut builder, &other)?;
    let flags: Flags<'_> = Some(&[false, true, false]);
    Ok(grown_are(&builder, &[0, 0, 1, 2, 0, 0], flags, 3))
}

/// Rows are compared: bytes of nulls are not.
pub fn rows_are_compared(alloc: Global) -> Result<bool, PolarsError> {
    let one = pair(alloc)?;
    let mut other = pair(alloc)?;
    let same = one == other;
    let bytes = other.values_mut_slice();
    if bytes.len() == 4 {
        bytes[3] = 9;
    }
    let still = one == other;
    other.push_null()?;
    Ok(same && still && !(one == other))
}

pub fn replayed_is(alloc: Global) -> Result<bool, PolarsError> {
    let operations = vec![in alloc;
        FixedOperation::PushNull,
        FixedOperation::Pop,
        FixedOperation::PushNull,
    ]?;
    let array = MutableFixedSizeBinaryArray::replay(alloc, 2, &operations)?;
    Ok(lists_are(&array, 2, &[0, 0], Some(&[false]), 1))
}

pub fn room_is_made(alloc: Global) -> Result<bool, PolarsError> {
    let mut builder = pair(alloc)?;
    builder.reserve_slots(5)?;
    let room = builder.capacity() >= 7;
    builder.shrink_to_fit();
    Ok(
        room && grown_are(
            &builder.try_clone()?,
            &[1, 2, 0, 0],
            Some(&[true, false]),
            2,
        ),
    )
}

// ---- rows that a builder is made of, and reads

/// Whether a builder is that of the rows 0102 and null.
fn is_pair(builder: &MutableFixedSizeBinaryArray) -> bool {
    grown_are(builder, &[1, 2, 0, 0], Some(&[true, false]), 2)
}

pub fn builder_of_arrays_is(alloc: Global) -> Result<bool, PolarsError> {
    Ok(is_pair(&MutableFixedSizeBinaryArray::from(alloc, &[Some([1, 2]), None])?))
}

pub fn builder_of_rows_is(alloc: Global) -> Result<bool, PolarsError> {
    let rows: [Option<&[u8]>; 2] = [Some(&[1, 2]), None];
    Ok(is_pair(&MutableFixedSizeBinaryArray::try_from_iter(alloc, rows, 2)?))
}

/// Of three rows the second is refused, and no builder is made.
pub fn wrong_row_is_refused(alloc: Global) -> bool {
    let rows: [Option<&[u8]>; 3] = [None, Some(&[1]), Some(&[2, 3])];
    match MutableFixedSizeBinaryArray::try_from_iter(alloc, rows, 2) {
        Ok(_) => false,
        Err(error) => error == PolarsError::ComputeError(Cause::WrongLength),
    }
}

pub fn row_is_pushed(alloc: Global) -> Result<bool, PolarsError> {
    let mut builder = MutableFixedSizeBinaryArray::new(alloc, 2);
    builder.push(Some(&[1, 2]))?;
    builder.push(None)?;
    Ok(is_pair(&builder))
}

pub fn pair_is_read(builder: &MutableFixedSizeBinaryArray) -> bool {
    builder.len() == 2
        && builder.is_valid(0)
        && !builder.is_valid(1)
        && builder.value(0) == [1, 2].as_slice()
        && builder.value_unchecked(1) == [0, 0].as_slice()
        && builder.get(0) == Some([1, 2].as_slice())
        && builder.get(1).is_none()
}

// a builder of the parts that it hands back
fn is_built_again(builder: MutableFixedSizeBinaryArray) -> bool {
    let (dtype, values, bits) = builder.into_inner();
    match MutableFixedSizeBinaryArray::try_new(dtype, values, bits) {
        Ok(builder) => is_pair(&builder),
        Err(_) => false,
    }
}

pub fn pair_is_built_again(alloc: Global) -> Result<bool, PolarsError> {
    Ok(is_built_again(pair(alloc)?))
}

// ---- flags of a builder

// the flags of two slots, turned round
fn turned(mut bits: MutableBitmap) -> MutableBitmap
    ensures { length result.bits ≡ length bits.bits }
{
    if bits.len() == 2 {
        let first = bits.get(0);
        bits.set(0, bits.get(1));
        bits.set(1, first);
    }
    bits
}

/// Flags are turned round where there are some.
pub fn flags_are_turned(
    alloc: Global,
    flags: Flags<'_>,
    wanted: Flags<'_>,
) -> Result<bool, PolarsError> {
    let mut builder = of_lists(alloc, TWO, b"abcd", flags)?;
    builder.apply_validity(turned);
    Ok(grown_are(&builder, b"abcd", wanted, 2))
}

/// Other flags stand beside the same bytes of a builder.
pub fn builder_takes_flags(alloc: Global, flags: Flags<'_>) -> Result<bool, PolarsError> {
    let builder = pair(alloc)?;
    let bits = grown(alloc, flags)?;
    match check_flags(bits.as_ref(), builder.len()) {
        Ok(()) => Ok(grown_are(&builder.with_validity(bits), &[1, 2, 0, 0], flags, 2)),
        Err(_) => Ok(false),
    }
}

// ---- through the bounds of every builder

fn is_asked<B: MutableArray>(builder: &mut B) -> Result<bool, PolarsError> {
    builder.push_null()?;
    builder.reserve_slots(3)?;
    builder.shrink_to_fit();
    Ok(
        builder.dtype() == TWO
            && builder.len() == 1
            && !builder.is_empty()
            && builder.validity().is_some(),
    )
}

pub fn builder_is_asked(alloc: Global) -> Result<bool, PolarsError> {
    let mut builder = MutableFixedSizeBinaryArray::new(alloc, 2);
    let is = is_asked(&mut builder)?;
    Ok(is && grown_are(&builder, &[0, 0], Some(&[false]), 1))
}

fn takes<'b, B: TryExtend<Option<&'b [u8]>>>(
    builder: &mut B,
    row: &'b [u8],
) -> Result<(), PolarsError> {
    builder.try_push(Some(row))?;
    builder.try_extend([None, Some(row)])
}

pub fn rows_are_taken(alloc: Global) -> Result<bool, PolarsError> {
    let mut builder = MutableFixedSizeBinaryArray::new(alloc, 2);
    takes(&mut builder, b"ab")?;
    let flags: Flags<'_> = Some(&[true, false, true]);
    Ok(grown_are(&builder, b"ab\0\0ab", flags, 3))
}

/// The first of the rows that is of another length is refused, and the row before it stays.
pub fn row_before_the_refused_stays(alloc: Global) -> bool {
    let mut builder = MutableFixedSizeBinaryArray::new(alloc, 2);
    let rows: [Option<&[u8]>; 3] = [Some(b"ab"), Some(b"abc"), None];
    match builder.try_extend(rows) {
        Ok(()) => false,
        Err(error) => {
            error == PolarsError::ComputeError(Cause::WrongLength)
                && grown_are(&builder, b"ab", None, 1)
        }
    }
}

// ---- the law of builders

fn operations(alloc: Global, last: &[u8]) -> Result<Vec<FixedOperation>, PolarsError> {
    let first = Vec::from_slice(alloc, b"ab")?;
    let mut operations = Vec::new(alloc);
    operations.push(FixedOperation::Pop)?;
    operations.push(FixedOperation::Push(first))?;
    operations.push(FixedOperation::Push(Vec::from_slice(alloc, last)?))?;
    Ok(operations)
}

pub fn pushes_are_replayed(alloc: Global) -> Result<bool, PolarsError> {
    let operations = operations(alloc, b"cd")?;
    let array = MutableFixedSizeBinaryArray::replay(alloc, 2, &operations)?;
    Ok(lists_are(&array, 2, b"abcd", None, 2))
}

/// A push of three bytes is refused.
pub fn wrong_push_is_not_replayed(alloc: Global) -> Result<bool, PolarsError> {
    let operations = operations(alloc, b"cde")?;
    Ok(
        match MutableFixedSizeBinaryArray::replay(alloc, 2, &operations) {
            Ok(_) => false,
            Err(error) => error == PolarsError::ComputeError(Cause::WrongLength),
        },
    )
}
