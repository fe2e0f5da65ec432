//! Buffers that are made anew of the long slots, and arrays that become builders.

ghost use Rattle.std.specs.Prelude.{◌≡◌, ◌<◌, length, map, Some, None, Err, MatchBool, if◌then◌else◌};
ghost use Rattle.column_base.specs.declared.errors.Cause.TheVariants.{Overflow};
ghost use Rattle.column_base.specs.Errors.{error_of};
ghost use Rattle.column_base.specs.Answers.{Answers};
ghost use Rattle.column_base.specs.Pushes.{grown, growth_fault};
ghost use Rattle.column_base.specs.Slots.{values_of};
ghost use Rattle.column_storage.specs.declared.data_buffers.TheConstants.{MAX_BUFFERS};
ghost use Rattle.column_binview.specs.Slots.{view_slots};
ghost use Rattle.column_binview.specs.Builders.{builder_of, no_slots, row_growth};
ghost use Rattle.column_binview.specs.Gathered.{Gathers, IsGathered, gather_fault, long_slots, is_much_spared, is_wasteful};

use crate::array::BinaryViewArrayGeneric;
use crate::builder::MutableBinaryViewArray;
use column_base::{PolarsError, ViewKind};
use column_storage::flags_into_mut;
use std::alloc::Global;

impl<K: ViewKind> BinaryViewArrayGeneric<K> {
    /// The builder of the same slots: its views, finished buffers and flags are those of the array.
    ///
    /// Views and flags are kept where no other array shares them, and are copied otherwise. Copies no byte of a buffer.
    /// `NoMemory` where there is none for the copies, or where the count of a buffer's owners is full.
    pub fn make_mut(self, alloc: Global) -> Result<MutableBinaryViewArray<K>, PolarsError>
        ensures { Answers result None (λ b. b ≡ builder_of self) }
    {
        let (views, buffers, validity) = self.into_lists();
        let views = views.make_mut(alloc)?;
        let buffers = buffers.to_vec(alloc)?;
        let validity = flags_into_mut(alloc, validity)?;
        Ok(MutableBinaryViewArray::of(views, buffers, validity))
    }

    /// The same slots over buffers that hold the bytes of the long ones alone, null ones too, and in their order. An array
    /// without buffers stays as it is.
    ///
    /// One pass over the slots, which copies the long ones. `Overflow` where the bytes of a long slot are to be written and
    /// there are as many buffers as there may be, so only where more slots than that are long; then `NoMemory` where there
    /// is none for views and buffers.
    pub fn gc(self, alloc: Global) -> Result<Self, PolarsError>
        ensures answer { Answers result (gather_fault self) (λ a. Gathers self a) }
        ensures few { result ≡ Err (error_of Overflow) → MAX_BUFFERS < length (long_slots self) }
    {
        if self.data_buffers().is_empty() {
            return Ok(self);
        }
        gathered(alloc, self)
    }

    /// The same as [`BinaryViewArrayGeneric::gc`] where much could be spared, and else the same array.
    ///
    /// With 16 bytes for each view, of which 12 hold bytes: where the buffers have more than 16,384 bytes together, at least
    /// that many fewer would do, and views and buffers have at least four times the bytes that would do. Where the bytes of
    /// all slots were not counted yet, one pass over the views counts them.
    pub fn maybe_gc(self, alloc: Global) -> Result<Self, PolarsError>
        ensures answer { Answers result (if is_wasteful self then gather_fault self else None) (λ a. MatchBool (is_wasteful self) (Gathers self a) (a ≡ self)) }
        ensures few { result ≡ Err (error_of Overflow) → MAX_BUFFERS < length (long_slots self) }
    {
        if is_much_spared(self.len(), self.total_bytes_len(), self.total_buffer_len()) {
            self.gc(alloc)
        } else {
            Ok(self)
        }
    }
}

// Whether so many slots with so many bytes need much less than the buffers have. Compares, and adds nothing.
#[tactic(auto, using(crate::proofs::GatheredLemmas::spares))]
fn is_much_spared(count: usize, bytes: u128, buffers: u128) -> bool
    ensures { result ≡ is_much_spared count bytes buffers }
{
    let held = 12 * count as u128;
    let excess = bytes.saturating_sub(held);
    if buffers <= 16_384 || buffers - 16_384 < excess {
        return false;
    }
    4 * held <= buffers && excess <= (buffers - 4 * held) / 4
}

// The array of the same slots over new buffers.
fn gathered<K: ViewKind>(
    alloc: Global,
    array: BinaryViewArrayGeneric<K>,
) -> Result<BinaryViewArrayGeneric<K>, PolarsError>
    ensures answer { Answers result (growth_fault row_growth no_slots (map Some (values_of (view_slots array)))) (λ a. IsGathered array a) }
    ensures few { result ≡ Err (error_of Overflow) → MAX_BUFFERS < length (long_slots array) }
{
    array.known();
    let builder = copied(alloc, &array)?;
    let (_, _, validity) = array.into_lists();
    let made = builder.freeze()?;
    Ok(made.with_validity(validity))
}

// The builder of a valid slot for each slot.
fn copied<K: ViewKind>(
    alloc: Global,
    array: &BinaryViewArrayGeneric<K>,
) -> Result<MutableBinaryViewArray<K>, PolarsError>
    ensures answer { let rows = map Some (values_of (view_slots array.now)) in Answers result (growth_fault row_growth no_slots rows) (λ b. b ≡ grown row_growth no_slots rows) }
    ensures few { result ≡ Err (error_of Overflow) → MAX_BUFFERS < length (long_slots array.now) }
{
    let mut builder = MutableBinaryViewArray::with_capacity(alloc, array.len())?;
    for i in 0..array.len() {
        builder.push_bytes(array.value_bytes(i))?;
    }
    Ok(builder)
}
