//! The slots of a column with offsets, as they are, in new lists.

ghost use Rattle.std.specs.Prelude.{◌≡◌, ◌≤◌, ◌∷◌, [], pos, sum, None};
ghost use Rattle.std.specs.List.{concat};
ghost use Rattle.column_base.specs.Answers.{Answers};
ghost use Rattle.column_base.specs.Slots.{values_of};
ghost use Rattle.column_offset.specs.Growth.{extended, lengths_of};
ghost use Rattle.column_binary.specs.Slots.{offset_slots};
ghost use Rattle.column_relayout.specs.Written.{bytes_in, HoldSlots};

use column_base::{Offset, PolarsError};
use column_binary::{BinaryArray, MutableBinaryArray};
use column_offset::{Offsets, OffsetsBuffer};
use column_storage::{flags_into_mut, share_validity};
use std::alloc::Global;

/// The bytes of all slots, end to end; a null slot has bytes too.
pub(crate) fn used_bytes<O: Offset>(array: &BinaryArray<O>) -> &[u8]
    ensures bytes { result.now ≡ concat (values_of (offset_slots array.now)) }
    ensures within_type { bytes_in (offset_slots array.now) ≤ O.GREATEST }
{
    array.known();
    let start = array.offsets().first().to_usize();
    let end = array.offsets().last().to_usize();
    &array.values().as_slice()[start..end]
}

/// The offsets from 0 of slots of the same lengths, with room for `more` slots.
pub(crate) fn offsets_over<O: Offset, P: Offset>(
    alloc: Global,
    offsets: &OffsetsBuffer<O>,
    more: usize,
) -> Result<Offsets<P>, PolarsError>
    requires { sum (lengths_of offsets.now) ≤ P.GREATEST }
    ensures { Answers result None (λ new. new.offsets ≡ extended (pos 0 ∷ []) (lengths_of offsets.now)) }
{
    let mut new = Offsets::with_capacity(alloc, offsets.len_proxy().saturating_add(more))?;
    new.try_extend_from_lengths(offsets.lengths())?;
    Ok(new)
}

/// A builder of the same slots with offsets from 0, with room for `more` slots of `more_bytes` bytes: one copy of the
/// value bytes, of the offsets and of the flags.
pub(crate) fn taken_over<O: Offset, P: Offset>(
    alloc: Global,
    array: &BinaryArray<O>,
    more: usize,
    more_bytes: usize,
) -> Result<MutableBinaryArray<P>, PolarsError>
    requires { bytes_in (offset_slots array.now) ≤ P.GREATEST }
    ensures { Answers result None (λ builder. HoldSlots builder.lists (offset_slots array.now)) }
{
    array.known();
    let bytes = used_bytes(array);
    let mut values = Vec::with_capacity(alloc, bytes.len().saturating_add(more_bytes))?;
    values.extend_from_slice(bytes)?;
    let offsets = offsets_over(alloc, array.offsets(), more)?;
    let validity = flags_into_mut(alloc, share_validity(alloc, array.validity())?)?;
    let builder = MutableBinaryArray::try_new(
        MutableBinaryArray::<P>::default_dtype(),
        offsets,
        values,
        validity,
    )?;
    builder.known();
    Ok(builder)
}
