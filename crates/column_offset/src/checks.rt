//! Checks of raw parts.

ghost use Rattle.std.specs.Prelude.{◌≡◌, ◌↔◌, ℕ, ℤ, List, None, ◌+◌, ◌<◌, ◌≤◌, pos, ◌≤ℤ◌, length, map, ⊤};
ghost use Rattle.column_base.specs.Answers.{Gives, GivesCause};
ghost use Rattle.column_offset.specs.Offsets.{nat_of, offset_at, last_of, falls, offsets_fault, bounds_fault, AreSoundOffsets};

use column_base::{Cause, Offset, PolarsError};

/// Whether numbers are sound offsets: not empty, from 0 or more, never falling.
///
/// One pass, with no memory. `OffsetsEmpty`, `OffsetsNegative` for the first number, then `OffsetsNotMonotone`. Arrow
/// columnar format, "Variable-size Binary Layout".
pub fn check_offsets<O: Offset>(offsets: &[O]) -> Result<(), Cause>
    ensures { GivesCause result (offsets_fault (map O.int offsets.now)) (λ _. ⊤) }
{
    let [first, rest @ ..] = offsets else {
        return Err(Cause::OffsetsEmpty);
    };
    if *first < O::zero() {
        return Err(Cause::OffsetsNegative);
    }
    if any_falls(*first, rest) {
        return Err(Cause::OffsetsNotMonotone);
    }
    Ok(())
}

/// Whether some number is below the one before it, the first of them after `before`. Looks at all, with no branch for each.
fn any_falls<O: Offset>(before: O, offsets: &[O]) -> bool
    ensures { result ≡ falls (O.int before) (map O.int offsets.now) }
{
    let mut last = before;
    let mut any_falls = false;
    for offset in offsets {
        any_falls |= *offset < last;
        last = *offset;
    }
    any_falls
}

/// The same as [`check_offsets`], with the cause as an error.
pub fn try_check_offsets<O: Offset>(offsets: &[O]) -> Result<(), PolarsError>
    ensures { Gives result (offsets_fault (map O.int offsets.now)) (λ _. ⊤) }
{
    Ok(check_offsets(offsets)?)
}

/// Law of sound offsets: [`try_check_offsets`] finds no fault exactly where numbers are sound offsets.
pub fn no_fault_is_sound()
    ensures { (offsets : List ℤ) → (offsets_fault offsets ≡ None) ↔ AreSoundOffsets offsets }
{}

/// Whether sound offsets lie within `values_len` values. Takes no memory.
///
/// `OffsetsExceedValues` where the last offset is greater.
pub fn check_offsets_bounds<O: Offset>(offsets: &[O], values_len: usize) -> Result<(), Cause>
    requires { AreSoundOffsets (map O.int offsets.now) }
    ensures { GivesCause result (bounds_fault (map O.int offsets.now) values_len) (λ _. ⊤) }
{
    if last_place(offsets) > values_len {
        return Err(Cause::OffsetsExceedValues);
    }
    Ok(())
}

/// The same as [`check_offsets_bounds`], with the cause as an error.
pub fn try_check_offsets_bounds<O: Offset>(
    offsets: &[O],
    values_len: usize,
) -> Result<(), PolarsError>
    requires { AreSoundOffsets (map O.int offsets.now) }
    ensures { Gives result (bounds_fault (map O.int offsets.now) values_len) (λ _. ⊤) }
{
    Ok(check_offsets_bounds(offsets, values_len)?)
}

/// Offset `index` of sound ones.
pub(crate) fn offset_of<O: Offset>(offsets: &[O], index: usize) -> &O
    requires sound { AreSoundOffsets (map O.int offsets.now) }
    requires within { index < length offsets.now }
    ensures same { O.int result.now ≡ offset_at (map O.int offsets.now) index }
    ensures starts { pos 0 ≤ℤ O.int result.now }
{
    &offsets[index]
}

/// Offset `index` of sound ones, as a place.
pub(crate) fn place<O: Offset>(offsets: &[O], index: usize) -> usize
    requires sound { AreSoundOffsets (map O.int offsets.now) }
    requires within { index < length offsets.now }
    ensures same { result ≡ nat_of (offset_at (map O.int offsets.now) index) }
    ensures limit { result ≤ O.GREATEST }
{
    offset_of(offsets, index).to_usize()
}

/// Where slot `index` of sound offsets starts and ends, as places.
#[tactic(auto, using(crate::proofs::OffsetsLemmas::sound_offsets))]
pub(crate) fn places_of<O: Offset>(offsets: &[O], index: usize) -> (usize, usize)
    requires sound { AreSoundOffsets (map O.int offsets.now) }
    requires within { index + 1 < length offsets.now }
    ensures start { result.0 ≡ nat_of (offset_at (map O.int offsets.now) index) }
    ensures end { result.1 ≡ nat_of (offset_at (map O.int offsets.now) (index + 1)) }
    ensures order { result.0 ≤ result.1 }
    ensures last { result.1 ≤ nat_of (last_of (map O.int offsets.now)) }
{
    (place(offsets, index), place(offsets, index + 1))
}

/// The last of sound offsets, as a place.
pub(crate) fn last_place<O: Offset>(offsets: &[O]) -> usize
    requires { AreSoundOffsets (map O.int offsets.now) }
    ensures same { pos result ≡ last_of (map O.int offsets.now) }
    ensures limit { result ≤ O.GREATEST }
{
    offset_of(offsets, offsets.len() - 1).to_usize()
}

/// The number of bytes from one of sound offsets up to a later one.
pub(crate) fn distance<O: Offset>(offsets: &[O], from: usize, to: usize) -> usize
    requires sound { AreSoundOffsets (map O.int offsets.now) }
    requires order { from ≤ to }
    requires within { to < length offsets.now }
    ensures same { result + nat_of (offset_at (map O.int offsets.now) from) ≡ nat_of (offset_at (map O.int offsets.now) to) }
    ensures limit { result ≤ O.GREATEST }
{
    place(offsets, to) - place(offsets, from)
}
