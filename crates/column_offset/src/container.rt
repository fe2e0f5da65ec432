//! What offsets that grow and offsets that are shared have in common.

use crate::buffer::OffsetsBuffer;
use crate::offsets::Offsets;
use column_base::Offset;

/// Sound offsets, growing or shared.
pub trait OffsetsContainer<O: Offset> {
    ghost use Rattle.std.specs.Prelude.{◌≡◌, List, ℤ, pos, map};
    ghost use Rattle.column_offset.specs.Offsets.{AreSoundOffsets, last_of};

    // the offsets
    ghost offsets: { Self → List ℤ };

    /// The last offset, as a place.
    fn last(&self) -> usize
        ensures { pos result ≡ last_of (offsets self.now) };

    /// The offsets as a slice.
    fn as_slice(&self) -> &[O]
        ensures same { map O.int result.now ≡ offsets self.now }
        ensures sound { AreSoundOffsets (map O.int result.now) };
}

impl<O: Offset> OffsetsContainer<O> for OffsetsBuffer<O> {
    ghost offsets = { λ b. b };

    fn last(&self) -> usize {
        self.last().to_usize()
    }

    fn as_slice(&self) -> &[O] {
        self.as_slice()
    }
}

impl<O: Offset> OffsetsContainer<O> for Offsets<O> {
    ghost offsets = { λ o. o.offsets };

    fn last(&self) -> usize {
        self.last().to_usize()
    }

    fn as_slice(&self) -> &[O] {
        self.as_slice()
    }
}
