//! Offsets that are shared.

ghost use Rattle.std.specs.Prelude.{◌≡◌, ◌+◌, ◌-◌, ◌^◌, ◌≤◌, ◌<◌, length, length as list_length, map, pos, ◌≤ℤ◌, ◌+ℤ◌, [], ◌∷◌, None};
ghost use Rattle.column_base.specs.Answers.{Gives, Answers};
ghost use Rattle.column_base.specs.Lists.{sublist};
ghost use Rattle.column_offset.specs.Offsets.{AreSoundOffsets, offsets_fault, offset_at, last_of, nat_of};
ghost use Rattle.column_offset.specs.Growth.{lengths_of, starts_and_lengths_of};
ghost use Rattle.column_offset.specs.Iterators.{lengths_left, pairs_left};

use crate::checks::{distance, last_place, offset_of, places_of, try_check_offsets};
use crate::iterator::{Lengths, OffsetAndLengthIter};
use crate::offsets::Offsets;
use column_base::{Offset, PolarsError, Splitable};
use column_storage::Buffer;
use std::alloc::Global;
use std::marker::Model;

/// Sound offsets that cannot be changed, semantically the list of their numbers.
///
/// Clones and slices share their memory. The list is not empty, starts at 0 or more and never falls. Arrow columnar
/// format, "Variable-size Binary Layout".
#[derive(Drop)]
pub struct OffsetsBuffer<O: Offset> {
    offsets: Buffer<O>,
}

impl<O: Offset> Model for OffsetsBuffer<O> {
    ghost use Rattle.std.specs.Prelude.{List, ℤ, map};
    ghost use Rattle.column_offset.specs.Offsets.{AreOffsetsWithin};

    ghost Value = { List ℤ };

    ghost view = { λ b. map O.int b.offsets };

    ghost invariant = { λ b. AreOffsetsWithin O.GREATEST (map O.int b.offsets) };
}

impl<O: Offset> OffsetsBuffer<O> {
    /// The one offset 0, of no slots.
    ///
    /// `NoMemory` where there is none for it.
    pub fn new(alloc: Global) -> Result<Self, PolarsError>
        ensures { Answers result None (λ b. b ≡ pos 0 ∷ []) }
    {
        OffsetsBuffer::from_offsets(alloc, Offsets::new(alloc)?)
    }

    /// The offsets of one slot of `length` bytes.
    ///
    /// `NoMemory` where there is none for them.
    pub fn one_with_length(alloc: Global, length: O) -> Result<Self, PolarsError>
        requires { pos 0 ≤ℤ O.int length }
        ensures { Answers result None (λ b. b ≡ pos 0 ∷ O.int length ∷ []) }
    {
        let mut offsets = Vec::with_capacity(alloc, 2)?;
        offsets.push(O::zero())?;
        offsets.push(length)?;
        OffsetsBuffer::from_offsets(alloc, Offsets::new_unchecked(offsets))
    }

    /// The numbers of a vector as offsets. One pass, and the vector is not copied.
    ///
    /// `OffsetsEmpty`, `OffsetsNegative`, `OffsetsNotMonotone`, the first that stands, then `NoMemory` where there is
    /// none for the count of owners.
    pub fn try_from_vec(alloc: Global, offsets: Vec<O>) -> Result<Self, PolarsError>
        ensures { Answers result (offsets_fault (map O.int offsets.items)) (λ b. b ≡ map O.int offsets.items) }
    {
        OffsetsBuffer::from_offsets(alloc, Offsets::try_from(offsets)?)
    }

    /// The same list, to be shared. The offsets are not copied.
    ///
    /// `NoMemory` where there is none for the count of owners.
    pub fn from_offsets(alloc: Global, offsets: Offsets<O>) -> Result<Self, PolarsError>
        ensures { Answers result None (λ b. b ≡ offsets.offsets) }
    {
        offsets.known();
        Ok(OffsetsBuffer {
            offsets: Buffer::from_vec(alloc, offsets.into_inner())?,
        })
    }

    /// The same list, to be changed.
    ///
    /// The offsets are kept where no other buffer shares them, and are copied otherwise. `NoMemory` where there is none
    /// for the copy.
    pub fn into_mut(self, alloc: Global) -> Result<Offsets<O>, PolarsError>
        ensures { Answers result None (λ o. o.offsets ≡ self) }
    {
        let OffsetsBuffer { offsets } = self;
        Ok(Offsets::new_unchecked(offsets.make_mut(alloc)?))
    }

    /// The numbers as offsets. One pass, with no memory.
    ///
    /// `OffsetsEmpty`, `OffsetsNegative`, `OffsetsNotMonotone`, the first that stands.
    #[tactic(auto, using(crate::proofs::OffsetsLemmas::sound_where_no_fault))]
    pub fn try_from_buffer(offsets: Buffer<O>) -> Result<Self, PolarsError>
        ensures { Gives result (offsets_fault (map O.int offsets)) (λ b. b ≡ map O.int offsets) }
    {
        try_check_offsets(offsets.as_slice())?;
        Ok(OffsetsBuffer::new_unchecked(offsets))
    }

    /// The same as [`OffsetsBuffer::try_from_buffer`], of sound offsets.
    pub fn new_unchecked(offsets: Buffer<O>) -> Self
        requires { AreSoundOffsets (map O.int offsets) }
        ensures { result ≡ map O.int offsets }
    {
        let _last = last_place(offsets.as_slice());
        OffsetsBuffer { offsets }
    }

    /// Tells proofs that the offsets are sound, that the last one, and so each, is a value of its type, and that their
    /// number is a `usize`.
    pub fn known(&self)
        ensures sound { AreSoundOffsets self.now }
        ensures within_type { last_of self.now ≤ℤ pos O.GREATEST }
        ensures fits { length self.now < 2 ^ 64 }
    {
        let _count = self.offsets.len();
    }

    /// The number of offsets, one more than that of slots.
    pub fn len(&self) -> usize
        ensures { result ≡ length self.now }
    {
        self.offsets.len()
    }

    /// The number of slots.
    pub fn len_proxy(&self) -> usize
        ensures { result + 1 ≡ length self.now }
    {
        self.offsets.len() - 1
    }

    /// The offsets as a slice.
    pub fn as_slice(&self) -> &[O]
        ensures same { map O.int result.now ≡ self.now }
        ensures sound { AreSoundOffsets (map O.int result.now) }
    {
        self.offsets.as_slice()
    }

    /// The first offset.
    pub fn first(&self) -> &O
        ensures same { O.int result.now ≡ offset_at self.now 0 }
        ensures starts { pos 0 ≤ℤ O.int result.now }
    {
        offset_of(self.offsets.as_slice(), 0)
    }

    /// The last offset.
    pub fn last(&self) -> &O
        ensures same { O.int result.now ≡ last_of self.now }
        ensures starts { pos 0 ≤ℤ O.int result.now }
    {
        offset_of(self.offsets.as_slice(), self.offsets.len() - 1)
    }

    /// Where slot `index` starts and ends.
    pub fn start_end(&self, index: usize) -> (usize, usize)
        requires { index + 1 < length self.now }
        ensures start { result.0 ≡ nat_of (offset_at self.now index) }
        ensures end { result.1 ≡ nat_of (offset_at self.now (index + 1)) }
        ensures order { result.0 ≤ result.1 }
        ensures within { result.1 ≤ nat_of (last_of self.now) }
    {
        places_of(self.offsets.as_slice(), index)
    }

    /// The number of bytes of slot `index`.
    pub fn length_at(&self, index: usize) -> usize
        requires { index + 1 < length self.now }
        ensures { result + nat_of (offset_at self.now index) ≡ nat_of (offset_at self.now (index + 1)) }
    {
        let (start, end) = self.start_end(index);
        end - start
    }

    /// The same as [`OffsetsBuffer::start_end`].
    pub fn start_end_unchecked(&self, index: usize) -> (usize, usize)
        requires { index + 1 < length self.now }
        ensures start { result.0 ≡ nat_of (offset_at self.now index) }
        ensures end { result.1 ≡ nat_of (offset_at self.now (index + 1)) }
        ensures order { result.0 ≤ result.1 }
        ensures within { result.1 ≤ nat_of (last_of self.now) }
    {
        self.start_end(index)
    }

    /// The number of bytes of all slots: the last offset minus the first.
    pub fn range(&self) -> O
        ensures { O.int result +ℤ offset_at self.now 0 ≡ last_of self.now }
    {
        self.known();
        O::from_as_usize(distance(self.as_slice(), 0, self.len() - 1))
    }

    /// The number of bytes of the slots from `start` up to and with `end`.
    pub fn delta(&self, start: usize, end: usize) -> usize
        requires order { start ≤ end }
        requires within { end + 1 < length self.now }
        ensures { result + nat_of (offset_at self.now start) ≡ nat_of (offset_at self.now (end + 1)) }
    {
        distance(self.as_slice(), start, end + 1)
    }

    /// The lengths of the slots, first to last.
    pub fn lengths(&self) -> Lengths<'_, O>
        ensures { lengths_left result ≡ lengths_of self.now }
    {
        Lengths::new(self.as_slice())
    }

    /// Where each slot starts, and its length, first to last.
    pub fn offset_and_length_iter(&self) -> OffsetAndLengthIter<'_, O>
        ensures { pairs_left result ≡ starts_and_lengths_of self.now }
    {
        OffsetAndLengthIter::new(self.as_slice())
    }

    /// The offsets as a list of numbers.
    pub fn buffer(&self) -> &Buffer<O>
        ensures same { map O.int result.now ≡ self.now }
        ensures sound { AreSoundOffsets (map O.int result.now) }
    {
        &self.offsets
    }

    /// The offsets as a list of numbers. Takes no memory.
    pub fn into_inner(self) -> Buffer<O>
        ensures same { map O.int result ≡ self }
        ensures sound { AreSoundOffsets (map O.int result) }
    {
        let OffsetsBuffer { offsets } = self;
        offsets
    }

    /// Keeps the `length` offsets from place `offset` on, which are `length - 1` slots. Takes no memory.
    #[tactic(auto, using(column_base::proofs::ListsLemmas::sublists))]
    pub fn slice(&mut self, offset: usize, length: usize)
        requires some { 0 < length }
        requires within { offset + length ≤ list_length self.old }
        ensures { self.new ≡ sublist self.old offset length }
    {
        self.offsets.slice(offset, length);
    }

    /// The same as [`OffsetsBuffer::slice`].
    pub fn slice_unchecked(&mut self, offset: usize, length: usize)
        requires some { 0 < length }
        requires within { offset + length ≤ list_length self.old }
        ensures { self.new ≡ sublist self.old offset length }
    {
        self.slice(offset, length);
    }

    /// The same list, which shares the memory of this one.
    ///
    /// Copies no offset and takes no memory. `NoMemory` where the count of owners is full.
    pub fn try_clone(&self, alloc: Global) -> Result<Self, PolarsError>
        ensures { Answers result None (λ b. b ≡ self.now) }
    {
        Ok(OffsetsBuffer {
            offsets: self.offsets.try_clone(alloc)?,
        })
    }
}

#[tactic(auto, using(column_base::proofs::ListsLemmas::sublists))]
impl<O: Offset> Splitable for OffsetsBuffer<O> {
    ghost use Rattle.std.specs.Prelude.{◌+◌, ◌-◌, length, take, drop};

    ghost slot_count = { λ b. length b - 1 };

    // offset k stands in both parts
    ghost front = { λ b k. take (k + 1) b };

    ghost back = { λ b k. drop k b };

    fn check_bound(&self, offset: usize) -> bool {
        offset <= self.len_proxy()
    }

    fn split_at(&self, alloc: Global, offset: usize) -> Result<(Self, Self), PolarsError> {
        let mut front = self.try_clone(alloc)?;
        front.slice(0, offset + 1);
        let mut back = self.try_clone(alloc)?;
        back.slice(offset, self.len() - offset);
        Ok((front, back))
    }
}

#[tactic(auto, using(crate::proofs::EqualLemmas::equality))]
impl<O: Offset> PartialEq for OffsetsBuffer<O> {
    ghost use Rattle.std.proofs.Common.{rules};
    ghost use Rattle.std.specs.Cmp.Lexicographic.{pointwise};
    ghost use Rattle.std.specs.Cmp.Rules.{comparing};
    ghost use Rattle.std.specs.Ordering.{int_eq};

    ghost eq = { pointwise int_eq };

    ghost laws = { Prim.search (comparing, rules) };

    fn eq(&self, other: &OffsetsBuffer<O>) -> bool {
        self.as_slice() == other.as_slice()
    }
}
