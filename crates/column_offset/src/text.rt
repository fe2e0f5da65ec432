//! The check of text that is cut into slots.

ghost use Rattle.std.specs.Prelude.{◌≡◌, ◌↔◌, ℕ, ℤ, ◌≤◌, ◌<◌, true, not, List, None, length, map, slice_range, ⊤};
ghost use Rattle.std.specs.List.{concat, list_any};
ghost use Rattle.column_base.specs.Answers.{Gives, GivesCause};
ghost use Rattle.column_base.specs.Utf8.{is_well_formed_utf8};
ghost use Rattle.column_offset.specs.Offsets.{nat_of, offset_at, last_of, AreSoundOffsets};
ghost use Rattle.column_offset.specs.Text.{pieces, are_well_formed_utf8, cut_fault, cuts_sequence};

use crate::checks::{check_offsets_bounds, last_place, place};
use column_base::{Cause, Offset, PolarsError, is_utf8};

/// Whether each slot of sound offsets is UTF-8 by itself.
///
/// Bytes before the first offset and after the last are not looked at. One pass over the bytes between, and one over the
/// offsets where they are UTF-8, with no memory. `OffsetsExceedValues` where the last offset is greater than the number
/// of value bytes, `InvalidUtf8` where the bytes from the first offset up to the last are not UTF-8, `CharBoundary`
/// where they are and some slot is not. Unicode, table 3-7.
#[tactic(auto, using(crate::proofs::TextLemmas::texts))]
pub fn check_utf8<O: Offset>(offsets: &[O], values: &[u8]) -> Result<(), Cause>
    requires { AreSoundOffsets (map O.int offsets.now) }
    ensures { GivesCause result (cut_fault (map O.int offsets.now) values.now) (λ _. ⊤) }
{
    check_offsets_bounds(offsets, values.len())?;
    if !is_utf8(covered_bytes(offsets, values)) {
        return Err(Cause::InvalidUtf8);
    }
    if any_slot_is_cut(offsets, values) {
        return Err(Cause::CharBoundary);
    }
    Ok(())
}

/// The same as [`check_utf8`], with the cause as an error.
pub fn try_check_utf8<O: Offset>(offsets: &[O], values: &[u8]) -> Result<(), PolarsError>
    requires { AreSoundOffsets (map O.int offsets.now) }
    ensures { Gives result (cut_fault (map O.int offsets.now) values.now) (λ _. ⊤) }
{
    Ok(check_utf8(offsets, values)?)
}

/// Law of texts in slots: of sound offsets within the value bytes, [`try_check_utf8`] finds no fault exactly where each
/// slot by itself is UTF-8, whatever stands before the first offset and after the last.
pub fn slots_decide()
    ensures { (offsets : List ℤ) (values : List ℕ) → AreSoundOffsets offsets → nat_of (last_of offsets) ≤ length values
        → (cut_fault offsets values ≡ None) ↔ (are_well_formed_utf8 (pieces offsets values) ≡ true) }
{}

/// Law of slots end to end: of sound offsets they are the bytes from the first offset up to the last.
pub fn slots_end_to_end()
    ensures { (offsets : List ℤ) (values : List ℕ) → AreSoundOffsets offsets
        → concat (pieces offsets values) ≡ slice_range values (nat_of (offset_at offsets 0)) (nat_of (last_of offsets)) }
{}

/// Whether some slot is not UTF-8, of sound offsets within the values, whose slots end to end are.
#[tactic(auto, using(crate::proofs::TextLemmas::slots_are, crate::proofs::OffsetsLemmas::sound_offsets))]
fn any_slot_is_cut<O: Offset>(offsets: &[O], values: &[u8]) -> bool
    requires sound { AreSoundOffsets (map O.int offsets.now) }
    requires within { nat_of (last_of (map O.int offsets.now)) ≤ length values.now }
    requires whole { is_well_formed_utf8 (concat (pieces (map O.int offsets.now) values.now)) ≡ true }
    ensures { are_well_formed_utf8 (pieces (map O.int offsets.now) values.now) ≡ not result }
{
    any_cuts_sequence(offsets, &values[..last_place(offsets)])
}

/// Whether one of sound offsets stands at a byte which begins no sequence. At the end of the bytes none does.
#[tactic(auto, using(crate::proofs::TextLemmas::cuts))]
fn any_cuts_sequence<O: Offset>(offsets: &[O], bytes: &[u8]) -> bool
    requires sound { AreSoundOffsets (map O.int offsets.now) }
    ensures { result ≡ list_any (cuts_sequence bytes.now) (map O.int offsets.now) }
{
    for offset in offsets {
        if let Some(0x80..=0xBF) = bytes.get(offset.to_usize()) {
            return true;
        }
    }
    false
}

/// The bytes of all slots, end to end. The offsets are sound, and within the values.
#[tactic(auto, using(crate::proofs::TextLemmas::covered_is, crate::proofs::OffsetsLemmas::sound_offsets))]
fn covered_bytes<'a, O: Offset>(offsets: &[O], values: &'a [u8]) -> &'a [u8]
    requires sound { AreSoundOffsets (map O.int offsets.now) }
    requires bounds { nat_of (last_of (map O.int offsets.now)) ≤ length values.now }
    ensures { result.now ≡ concat (pieces (map O.int offsets.now) values.now) }
{
    bytes_between(offsets, values, 0, offsets.len() - 1)
}

/// The bytes from one offset up to another one. The offsets are sound, and within the values.
fn bytes_between<'a, O: Offset>(offsets: &[O], values: &'a [u8], from: usize, to: usize) -> &'a [u8]
    requires sound { AreSoundOffsets (map O.int offsets.now) }
    requires bounds { nat_of (last_of (map O.int offsets.now)) ≤ length values.now }
    requires order { from ≤ to }
    requires within { to < length offsets.now }
    ensures { result.now ≡ slice_range values.now (nat_of (offset_at (map O.int offsets.now) from)) (nat_of (offset_at (map O.int offsets.now) to)) }
{
    let start = place(offsets, from);
    let end = place(offsets, to);
    &values[start..end]
}
