//! Bitmaps, and lists of truth values that grow.

ghost use Rattle.std.specs.Prelude.{◌+◌, ◌≡◌, ◌≤◌, ◌++◌, ◌∷◌, [], true, false, length};

use crate::cases::flags;
use column_base::PolarsError;
use column_checks::gives;
use column_storage::{BitOperation, Bitmap, MutableBitmap};
use std::alloc::Global;

fn are(bits: &Bitmap, wanted: &[bool]) -> bool {
    bits.len() == wanted.len() && bits.is_empty() == wanted.is_empty() && gives(bits.iter(), wanted)
}

// the set bits are what is left of all
fn counts_are(bits: &Bitmap, set: usize, unset: usize) -> bool {
    bits.known();
    bits.set_bits() == set && bits.unset_bits() == unset && bits.len() - bits.unset_bits() == set
}

fn bit_is(bits: &Bitmap, i: usize, wanted: bool) -> bool {
    i < bits.len() && bits.get_bit(i) == wanted
}

// ---- parts of four bits

/// How a part is taken.
#[derive(Clone, Copy, Debug)]
pub enum Call {
    Sliced,
    SlicedUnchecked,
    Slice,
    SliceUnchecked,
}

fn kept(mut bits: Bitmap, from: usize, count: usize) -> Bitmap
    requires { from + count ≤ length bits }
{
    bits.slice(from, count);
    bits
}

fn kept_unchecked(mut bits: Bitmap, from: usize, count: usize) -> Bitmap
    requires { from + count ≤ length bits }
{
    bits.slice_unchecked(from, count);
    bits
}

fn part(bits: Bitmap, call: Call, from: usize, count: usize) -> Bitmap
    requires { from + count ≤ length bits }
{
    match call {
        Call::Sliced => bits.sliced(from, count),
        Call::SlicedUnchecked => bits.sliced_unchecked(from, count),
        Call::Slice => kept(bits, from, count),
        Call::SliceUnchecked => kept_unchecked(bits, from, count),
    }
}

fn part_is(bits: Bitmap, call: Call, from: usize, count: usize, wanted: &[bool]) -> bool {
    from <= bits.len() && count <= bits.len() - from && are(&part(bits, call, from, count), wanted)
}

/// Of four bits.
pub fn four_give(
    alloc: Global,
    call: Call,
    from: usize,
    count: usize,
    wanted: &[bool],
) -> Result<bool, PolarsError> {
    Ok(part_is(flags(alloc)?, call, from, count, wanted))
}

pub fn four_are_read(bits: &Bitmap) -> bool {
    counts_are(bits, 3, 1)
        && are(bits, &[true, false, true, true])
        && bit_is(bits, 0, true)
        && bit_is(bits, 1, false)
}

fn share_stays(alloc: Global, bits: &Bitmap) -> Result<bool, PolarsError> {
    Ok(part_is(bits.try_clone(alloc)?, Call::Slice, 0, 2, &[true, false]) && counts_are(bits, 3, 1))
}

/// A slice of a share: the whole stays as it was.
pub fn four_stay(alloc: Global) -> Result<bool, PolarsError> {
    share_stays(alloc, &flags(alloc)?)
}

fn halves_are(alloc: Global, bits: &Bitmap, place: usize) -> Result<bool, PolarsError> {
    if place > bits.len() {
        return Ok(false);
    }
    let (first, rest) = bits.split_at(alloc, place)?;
    Ok(counts_are(&first, 1, 1) && counts_are(&rest, 2, 0))
}

pub fn four_split(alloc: Global) -> Result<bool, PolarsError> {
    halves_are(alloc, &flags(alloc)?, 2)
}

// ---- bits of one value

pub fn unset_bits_are(alloc: Global) -> Result<bool, PolarsError> {
    Ok(counts_are(&Bitmap::new_zeroed(alloc, 4)?, 0, 4))
}

pub fn set_bits_are(alloc: Global) -> Result<bool, PolarsError> {
    Ok(counts_are(&Bitmap::new_with_value(alloc, true, 3)?, 3, 0))
}

// ---- lists that grow

fn grown_are(bits: &MutableBitmap, wanted: &[bool], set: usize, unset: usize) -> bool {
    bits.len() == wanted.len()
        && bits.is_empty() == wanted.is_empty()
        && bits.set_bits() == set
        && bits.unset_bits() == unset
        && gives(bits.iter(), wanted)
}

fn first_is_unset(mut bits: MutableBitmap) -> bool {
    if bits.is_empty() {
        return false;
    }
    bits.set(0, false);
    !bits.get(0) && grown_are(&bits, &[false, false, true, true], 2, 2)
}

fn share_is_changed(alloc: Global, bits: &Bitmap) -> Result<bool, PolarsError> {
    Ok(first_is_unset(bits.try_clone(alloc)?.make_mut(alloc)?) && counts_are(bits, 3, 1))
}

/// The bits of a share are copied, and the others stay.
pub fn shared_bits_are_changed(alloc: Global) -> Result<bool, PolarsError> {
    share_is_changed(alloc, &flags(alloc)?)
}

/// Those that nothing shares are changed in place.
pub fn own_bits_are_changed(alloc: Global) -> Result<bool, PolarsError> {
    Ok(first_is_unset(flags(alloc)?.make_mut(alloc)?))
}

/// Bits that are changed become shared ones again.
pub fn changed_bits_are_frozen(alloc: Global) -> Result<bool, PolarsError> {
    let mut bits = flags(alloc)?.make_mut(alloc)?;
    if !bits.is_empty() {
        bits.set(0, false);
    }
    Ok(counts_are(&bits.freeze()?, 2, 2))
}

fn add_three(bits: &mut MutableBitmap) -> bool {
    bits.push(true).is_ok() && bits.extend_constant(2, false).is_ok()
}

pub fn bits_are_added(alloc: Global) -> bool {
    let mut bits = MutableBitmap::new(alloc);
    add_three(&mut bits) && grown_are(&bits, &[true, false, false], 1, 2)
}

fn all_are_taken(bits: &mut MutableBitmap) -> bool {
    bits.pop() == Some(true) && bits.pop() == Some(true) && bits.pop().is_none() && bits.is_empty()
}

pub fn bits_are_taken(alloc: Global) -> Result<bool, PolarsError> {
    Ok(all_are_taken(&mut MutableBitmap::from_len_set(alloc, 2)?))
}

fn room_goes(bits: &mut MutableBitmap) -> bool {
    let is_added = bits.push(false).is_ok();
    bits.shrink_to_fit();
    is_added
}

pub fn bits_stay_where_room_goes(alloc: Global) -> Result<bool, PolarsError> {
    let mut bits = MutableBitmap::with_capacity(alloc, 9)?;
    Ok(room_goes(&mut bits) && grown_are(&bits, &[false], 0, 1))
}

fn frozen_is(bits: MutableBitmap, wanted: &[bool]) -> Result<bool, PolarsError> {
    Ok(are(&bits.freeze()?, wanted))
}

pub fn bits_are_frozen(alloc: Global) -> Result<bool, PolarsError> {
    frozen_is(MutableBitmap::from_len_set(alloc, 3)?, &[true, true, true])
}

fn is_validity(bits: MutableBitmap) -> Result<bool, PolarsError> {
    Ok(bits.into_opt_validity()?.is_some())
}

fn with_unset(bits: &MutableBitmap) -> Result<bool, PolarsError> {
    let mut more = bits.try_clone()?;
    more.push(false)?;
    is_validity(more)
}

pub fn set_bits_are_no_validity(alloc: Global) -> Result<bool, PolarsError> {
    Ok(!is_validity(MutableBitmap::from_len_set(alloc, 2)?)?)
}

pub fn an_unset_bit_is_a_validity(alloc: Global) -> Result<bool, PolarsError> {
    with_unset(&MutableBitmap::from_len_set(alloc, 2)?)
}

fn room_is_made(bits: &mut MutableBitmap) -> Result<(), PolarsError> {
    bits.reserve(2)?;
    add_two(bits);
    Ok(())
}

pub fn room_takes_bits(alloc: Global) -> Result<bool, PolarsError> {
    let mut bits = MutableBitmap::with_capacity(alloc, 1)?;
    Ok(room_is_made(&mut bits).is_ok() && grown_are(&bits, &[true, false], 1, 1))
}

fn add_two(bits: &mut MutableBitmap)
    requires { 2 ≤ bits.old.spare }
    ensures { bits.new.bits ≡ bits.old.bits ++ true ∷ [] ++ false ∷ [] }
{
    if bits.push(true).is_err() {
        unreachable!()
    }
    if bits.push(false).is_err() {
        unreachable!()
    }
}

// ---- the law of builders

pub fn operations_leave(
    alloc: Global,
    operations: &[BitOperation],
    wanted: &[bool],
) -> Result<bool, PolarsError> {
    Ok(are(&MutableBitmap::replay(alloc, operations)?, wanted))
}
