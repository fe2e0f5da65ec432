//! What arrays and builders are seen to be: one truth value for each group of calls, and no assertion.

ghost use Rattle.std.specs.Prelude.{◌≡◌, ◌+◌, ◌≤◌, length};
ghost use Rattle.column_boolean.specs.Slots.{boolean_count};

use column_base::{ArrowDataType, Cause, PolarsError, Splitable, TryExtend, TryPush};
use column_boolean::{BooleanArray, BooleanOperation, MutableBooleanArray, write_value};
use column_checks::{
    Flags, Half, bitmap, ends_are, flags_are, gives, gives_back, grown_flags_are, half_of,
};
use column_storage::{Bitmap, MutableArray, MutableBitmap, check_flags, check_validity};
use std::alloc::Global;

pub const FLAGS: Flags<'static> = Some(&[true, false, true, true]);

fn lists_are(array: &BooleanArray, values: &[bool], flags: Flags<'_>) -> bool {
    gives(array.values().iter(), values)
        && flags_are(array.validity(), flags)
        && array.len() == values.len()
        && array.is_empty() == values.is_empty()
        && array.dtype() == ArrowDataType::Boolean
}

fn array(
    alloc: Global,
    dtype: ArrowDataType,
    values: &[bool],
    flags: Flags<'_>,
) -> Result<BooleanArray, PolarsError> {
    BooleanArray::try_new(
        dtype,
        Bitmap::from_bools(alloc, values)?,
        bitmap(alloc, flags)?,
    )
}

// true, null over true, false and true
fn four(alloc: Global) -> Result<BooleanArray, PolarsError> {
    array(
        alloc,
        ArrowDataType::Boolean,
        &[true, true, false, true],
        FLAGS,
    )
}

pub fn is_told(
    alloc: Global,
    dtype: ArrowDataType,
    values: &[bool],
    flags: Flags<'_>,
    cause: Option<Cause>,
) -> bool {
    match array(alloc, dtype, values, flags) {
        Ok(array) => cause.is_none() && lists_are(&array, values, flags),
        Err(error) => cause.map(PolarsError::ComputeError) == Some(error),
    }
}

pub fn nulls_are(alloc: Global) -> Result<bool, PolarsError> {
    let array = BooleanArray::new_null(alloc, ArrowDataType::Boolean, 2)?;
    Ok(lists_are(&array, &[false, false], Some(&[false, false])) && array.null_count() == 2)
}

pub fn empty_is(alloc: Global) -> Result<bool, PolarsError> {
    Ok(lists_are(
        &BooleanArray::new_empty(alloc, ArrowDataType::Boolean)?,
        &[],
        None,
    ))
}

pub fn slices_are(alloc: Global) -> Result<bool, PolarsError> {
    Ok(lists_are(
        &BooleanArray::from_slice(alloc, &[true, false])?,
        &[true, false],
        None,
    ))
}

pub fn options_are(alloc: Global) -> Result<bool, PolarsError> {
    let array = BooleanArray::from(alloc, &[Some(true), None])?;
    Ok(lists_are(&array, &[true, false], Some(&[true, false])))
}

pub fn four_are_read(alloc: Global) -> Result<bool, PolarsError> {
    let array = four(alloc)?;
    Ok(
        array.len() == 4
            && array.value(1)
            && array.get(1).is_none()
            && array.get(2) == Some(false)
            && array.is_null(1)
            && array.is_valid(3)
            && array.null_count() == 1,
    )
}

pub fn four_give(alloc: Global) -> Result<bool, PolarsError> {
    let array = four(alloc)?;
    Ok(
        ends_are(array.iter(), [Some(true), None, Some(false), Some(true)])
            && ends_are(array.values_iter(), [true, true, false, true])
            && gives(array.non_null_values_iter(), &[true, false, true]),
    )
}

pub fn half_is(
    alloc: Global,
    half: Half,
    place: usize,
    values: &[bool],
    flags: Flags<'_>,
) -> Result<bool, PolarsError> {
    let array = four(alloc)?;
    Ok(array.check_bound(place) && lists_are(&half_of(alloc, &array, half, place)?, values, flags))
}

// ---- shares, parts and other flags

const VALUES: [bool; 4] = [true, true, false, true];

pub fn share_is(alloc: Global) -> Result<bool, PolarsError> {
    let share = four(alloc)?.try_clone(alloc)?;
    Ok(lists_are(&share, &VALUES, FLAGS))
}

/// The array of these lists by the call that asks for lists without a fault.
pub fn new_is(alloc: Global) -> Result<bool, PolarsError> {
    let values = Bitmap::from_bools(alloc, &[true, false])?;
    let array = BooleanArray::new(ArrowDataType::Boolean, values, None);
    Ok(lists_are(&array, &[true, false], None) && array.len() == 2 && !array.value_unchecked(1))
}

pub fn rows_give(alloc: Global) -> Result<bool, PolarsError> {
    let array = four(alloc)?;
    Ok(
        gives(
            (&array).into_iter(),
            &[Some(true), None, Some(false), Some(true)],
        ) && gives_back(array.iter(), &[Some(true), Some(false), None, Some(true)]),
    )
}

/// A call that cuts a part out of an array.
#[derive(Clone, Copy, Debug)]
pub enum Call {
    Sliced,
    SlicedUnchecked,
    Slice,
    SliceUnchecked,
}

fn part(array: BooleanArray, call: Call, from: usize, length: usize) -> BooleanArray
    requires { from + length ≤ boolean_count array }
{
    match call {
        Call::Sliced => array.sliced(from, length),
        Call::SlicedUnchecked => array.sliced_unchecked(from, length),
        Call::Slice => kept(array, from, length),
        Call::SliceUnchecked => kept_unchecked(array, from, length),
    }
}

fn kept(mut array: BooleanArray, from: usize, length: usize) -> BooleanArray
    requires { from + length ≤ boolean_count array }
{
    array.slice(from, length);
    array
}

fn kept_unchecked(mut array: BooleanArray, from: usize, length: usize) -> BooleanArray
    requires { from + length ≤ boolean_count array }
{
    array.slice_unchecked(from, length);
    array
}

pub fn part_is(
    alloc: Global,
    call: Call,
    (from, length): (usize, usize),
    values: &[bool],
    flags: Flags<'_>,
) -> Result<bool, PolarsError> {
    let array = four(alloc)?;
    Ok(
        from <= array.len()
            && length <= array.len() - from
            && lists_are(&part(array, call, from, length), values, flags),
    )
}

fn with_is(array: BooleanArray, bits: Option<Bitmap>, flags: Flags<'_>) -> bool {
    match check_validity(bits.as_ref(), array.len()) {
        Ok(()) => lists_are(&array.with_validity(bits), &VALUES, flags),
        Err(_) => false,
    }
}

fn set_is(array: BooleanArray, bits: Option<Bitmap>, flags: Flags<'_>) -> bool {
    let mut array = array;
    match check_validity(bits.as_ref(), array.len()) {
        Ok(()) => array.set_validity(bits),
        Err(_) => return false,
    }
    lists_are(&array, &VALUES, flags)
}

/// Other flags stand beside the same truth values.
pub fn flags_are_other(alloc: Global, flags: Flags<'_>, set: bool) -> Result<bool, PolarsError> {
    let bits = bitmap(alloc, flags)?;
    let array = four(alloc)?;
    Ok(if set {
        set_is(array, bits, flags)
    } else {
        with_is(array, bits, flags)
    })
}

pub fn taken_is(alloc: Global) -> Result<bool, PolarsError> {
    let mut array = four(alloc)?;
    let taken = array.take_validity();
    Ok(
        flags_are(taken.as_ref(), FLAGS)
            && array.take_validity().is_none()
            && lists_are(&array, &VALUES, None),
    )
}

// ---- the builder

/// Whether a builder has these truth values, and these flags exactly where some are wanted.
fn builder_is(builder: &MutableBooleanArray, values: &[bool], flags: Flags<'_>) -> bool {
    gives(builder.values().iter(), values)
        && grown_flags_are(builder.validity(), flags)
        && builder.len() == values.len()
        && builder.is_empty() == values.is_empty()
        && builder.dtype() == ArrowDataType::Boolean
}

fn flags_of(alloc: Global, flags: Flags<'_>) -> Result<Option<MutableBitmap>, PolarsError> {
    let Some(flags) = flags else {
        return Ok(None);
    };
    let mut bits = MutableBitmap::new(alloc);
    for flag in flags {
        bits.push(*flag)?;
    }
    Ok(Some(bits))
}

// true, and false, which is null where flags are wanted
fn two(alloc: Global, with_null: bool) -> Result<MutableBooleanArray, PolarsError> {
    let mut builder = MutableBooleanArray::new(alloc);
    builder.push_value(true)?;
    builder.push(if with_null { None } else { Some(false) })?;
    Ok(builder)
}

/// The null comes as None, then the truth value, then None again.
pub fn pops_give(alloc: Global) -> Result<bool, PolarsError> {
    let mut builder = two(alloc, true)?;
    Ok(
        builder.pop().is_none()
            && builder.pop() == Some(true)
            && builder.pop().is_none()
            && builder_is(&builder, &[], Some(&[])),
    )
}

/// Without a validity the last truth value comes, and none is made.
pub fn pop_gives(alloc: Global) -> Result<bool, PolarsError> {
    let mut builder = two(alloc, false)?;
    Ok(builder.pop() == Some(false) && builder_is(&builder, &[true], None))
}

/// A pop on nothing, a null that is taken again, and what stands after it.
pub fn replayed_is(alloc: Global) -> Result<bool, PolarsError> {
    let operations = [
        BooleanOperation::Pop,
        BooleanOperation::Push(true),
        BooleanOperation::PushNull,
        BooleanOperation::Pop,
        BooleanOperation::Push(false),
    ];
    let array = MutableBooleanArray::replay(alloc, &operations)?;
    Ok(lists_are(&array, &[true, false], None))
}

pub fn replayed_with_a_null_is(alloc: Global) -> Result<bool, PolarsError> {
    let operations = [BooleanOperation::PushNull, BooleanOperation::Push(true)];
    let array = MutableBooleanArray::replay(alloc, &operations)?;
    Ok(lists_are(&array, &[false, true], Some(&[false, true])))
}

// through the bound that every builder has
fn is_asked<B: MutableArray>(builder: &mut B) -> Result<bool, PolarsError> {
    builder.push_null()?;
    builder.reserve_slots(3)?;
    builder.shrink_to_fit();
    Ok(
        builder.dtype() == ArrowDataType::Boolean
            && builder.len() == 1
            && !builder.is_empty()
            && builder.validity().is_some(),
    )
}

pub fn builder_is_asked(alloc: Global) -> Result<bool, PolarsError> {
    let mut builder = MutableBooleanArray::new(alloc);
    let is = is_asked(&mut builder)?;
    Ok(is && builder_is(&builder, &[false], Some(&[false])))
}

// through the bounds for rows
fn takes<B: TryExtend<Option<bool>>>(builder: &mut B) -> Result<(), PolarsError> {
    builder.try_push(Some(true))?;
    builder.try_extend([None, Some(true)])
}

pub fn rows_are_taken(alloc: Global) -> Result<bool, PolarsError> {
    let mut builder = MutableBooleanArray::new(alloc);
    takes(&mut builder)?;
    let flags: Flags<'_> = Some(&[true, false, true]);
    Ok(builder_is(&builder, &[true, false, true], flags))
}

pub fn room_is_made(alloc: Global) -> Result<bool, PolarsError> {
    let mut builder = two(alloc, true)?;
    builder.reserve(40)?;
    builder.shrink_to_fit();
    Ok(builder_is(&builder, &[true, false], Some(&[true, false])))
}

// the flags of two slots, turned round
fn turned(mut bits: MutableBitmap) -> MutableBitmap
    ensures { length result.bits ≡ length bits.bits }
{
    if bits.len() == 2 {
        let first = bits.get(0);
        bits.set(0, bits.get(1));
        bits.set(1, first);
    }
    bits
}

/// Flags are turned round where there are some.
pub fn flags_are_turned(
    alloc: Global,
    with_null: bool,
    wanted: Flags<'_>,
) -> Result<bool, PolarsError> {
    let mut builder = two(alloc, with_null)?;
    builder.apply_validity(turned);
    Ok(builder_is(&builder, &[true, false], wanted))
}

/// Other flags stand beside the same truth values of a builder.
pub fn builder_takes_flags(alloc: Global, flags: Flags<'_>) -> Result<bool, PolarsError> {
    let builder = two(alloc, true)?;
    let bits = flags_of(alloc, flags)?;
    match check_flags(bits.as_ref(), builder.len()) {
        Ok(()) => Ok(builder_is(&builder.with_validity(bits), &[true, false], flags)),
        Err(_) => Ok(false),
    }
}

/// A validity without a null is dropped.
pub fn grown_is(alloc: Global) -> Result<bool, PolarsError> {
    let mut builder = MutableBooleanArray::with_capacity(alloc, 3)?;
    builder.push_value(true)?;
    builder.push(Some(false))?;
    builder.extend_constant(2, Some(true))?;
    Ok(lists_are(&builder.freeze()?, &[true, false, true, true], None))
}

pub fn grown_with_nulls_is(alloc: Global) -> Result<bool, PolarsError> {
    let mut builder = MutableBooleanArray::new(alloc);
    builder.push(Some(true))?;
    builder.push_null()?;
    builder.extend_constant(2, None)?;
    let array = builder.try_clone()?.freeze()?;
    Ok(lists_are(
        &array,
        &[true, false, false, false],
        Some(&[true, false, false, false]),
    ))
}

pub fn text_is(alloc: Global) -> Result<bool, PolarsError> {
    let array = BooleanArray::from(alloc, &[Some(true), None])?;
    let text = format!(in alloc; "{array:?}")?;
    Ok(text.as_str() == "BooleanArray[true, None]")
}

pub fn value_text_is(alloc: Global) -> Result<bool, PolarsError> {
    let array = BooleanArray::from(alloc, &[Some(false), None])?;
    let mut text = String::new(alloc);
    Ok(
        array.len() == 2
            && write_value(&array, 0, &mut text).is_ok()
            && write_value(&array, 1, &mut text).is_ok()
            && text.as_str() == "falseNone",
    )
}
