//! Offsets that grow.

ghost use Rattle.std.specs.Prelude.{◌≡◌, ℕ, ◌+◌, ◌-◌, ◌<◌, ◌≤◌, ℤ, pos, ◌≤ℤ◌, ◌+ℤ◌, List, [], ◌∷◌, ◌++◌, ◌⊎◌, length, length as list_length, map, replicate, sum, None, ⊤, OnOk, OnErr, MatchOption, IsOk, Err};
ghost use Rattle.std.specs.Iterator.{IsFinite};
ghost use Rattle.column_base.specs.declared.errors.Cause.TheVariants.{Overflow};
ghost use Rattle.column_base.specs.Answers.{Gives, Answers};
ghost use Rattle.column_base.specs.Errors.{error_of};
ghost use Rattle.column_base.specs.Lists.{sublist};
ghost use Rattle.column_offset.specs.Offsets.{AreSoundOffsets, offsets_fault, offset_at, last_of, nat_of};
ghost use Rattle.column_offset.specs.Growth.{pushed, extended, lengths_of, limit_fault, ExtendsByLengths, MadeByLengths};

use crate::buffer::OffsetsBuffer;
use crate::checks::{last_place, offset_of, places_of, try_check_offsets};
use crate::growth::{push_length, push_lengths};
use crate::iterator::Lengths;
use column_base::{Offset, PolarsError};
use std::alloc::Global;
use std::marker::Model;

/// Sound offsets that grow, semantically the list of their numbers.
///
/// The list is not empty, starts at 0 or more and never falls. It keeps its allocator, and a refused call leaves it as
/// it was, with room for at least as many slots as before. Arrow columnar format, "Variable-size Binary Layout".
#[derive(Drop)]
pub struct Offsets<O: Offset> {
    offsets: Vec<O>,
}

impl<O: Offset> Model for Offsets<O> {
    ghost use Rattle.std.specs.Prelude.{◌-◌, map};
    ghost use Rattle.std.specs.Vec.{vec_len, vec_capacity};
    ghost use Rattle.column_offset.specs.Offsets.{AreOffsetsWithin};
    ghost use Rattle.column_offset.specs.Growth.{GrowingOffsets};

    ghost Value = { GrowingOffsets };

    ghost view = { λ o. record { offsets = map O.int o.offsets.items; spare = vec_capacity o.offsets - vec_len o.offsets } };

    ghost invariant = { λ o. AreOffsetsWithin O.GREATEST (map O.int o.offsets.items) };
}

impl<O: Offset> Offsets<O> {
    /// The one offset 0, of no slots.
    ///
    /// `NoMemory` where there is none for it.
    pub fn new(alloc: Global) -> Result<Self, PolarsError>
        ensures { Answers result None (λ o. o.offsets ≡ pos 0 ∷ []) }
    {
        Offsets::with_capacity(alloc, 0)
    }

    /// The one offset 0, with room for `capacity` slots.
    ///
    /// `NoMemory` where there is none for them.
    pub fn with_capacity(alloc: Global, capacity: usize) -> Result<Self, PolarsError>
        ensures { Answers result None (λ o. (o.offsets ≡ pos 0 ∷ []) × (capacity ≤ o.spare)) }
    {
        let Some(count) = capacity.checked_add(1) else {
            return Err(PolarsError::NoMemory);
        };
        let mut offsets = Vec::with_capacity(alloc, count)?;
        offsets.push(O::zero())?;
        Ok(Offsets { offsets })
    }

    /// The offsets of `length` slots of no bytes.
    ///
    /// `NoMemory` where there is none for them.
    pub fn new_zeroed(alloc: Global, length: usize) -> Result<Self, PolarsError>
        ensures { Answers result None (λ o. o.offsets ≡ replicate (length + 1) (pos 0)) }
    {
        let mut offsets = Offsets::with_capacity(alloc, length)?;
        offsets.extend_constant(length)?;
        Ok(offsets)
    }

    /// The numbers as offsets. One pass, with no memory.
    ///
    /// `OffsetsEmpty`, `OffsetsNegative`, `OffsetsNotMonotone`, the first that stands.
    #[tactic(auto, using(crate::proofs::OffsetsLemmas::sound_where_no_fault))]
    pub fn try_from(offsets: Vec<O>) -> Result<Self, PolarsError>
        ensures { Gives result (offsets_fault (map O.int offsets.items)) (λ o. o.offsets ≡ map O.int offsets.items) }
    {
        try_check_offsets(offsets.as_slice())?;
        Ok(Offsets::new_unchecked(offsets))
    }

    /// The same as [`Offsets::try_from`], of sound offsets.
    pub fn new_unchecked(offsets: Vec<O>) -> Self
        requires { AreSoundOffsets (map O.int offsets.items) }
        ensures { result.offsets ≡ map O.int offsets.items }
    {
        let _last = last_place(offsets.as_slice());
        Offsets { offsets }
    }

    /// Tells proofs that the offsets are sound, and that the last one, and so each, is a value of its type.
    pub fn known(&self)
        ensures sound { AreSoundOffsets self.now.offsets }
        ensures within_type { last_of self.now.offsets ≤ℤ pos O.GREATEST }
    {
        let _offsets = &self.offsets;
    }

    /// For how many slots there is memory.
    pub fn capacity(&self) -> usize
        ensures { result + 1 ≡ length self.now.offsets + self.now.spare }
    {
        self.offsets.capacity() - 1
    }

    /// The number of offsets, one more than that of slots.
    pub fn len(&self) -> usize
        ensures { result ≡ length self.now.offsets }
    {
        self.offsets.len()
    }

    /// The number of slots.
    pub fn len_proxy(&self) -> usize
        ensures { result + 1 ≡ length self.now.offsets }
    {
        self.offsets.len() - 1
    }

    /// The offsets as a slice.
    pub fn as_slice(&self) -> &[O]
        ensures same { map O.int result.now ≡ self.now.offsets }
        ensures sound { AreSoundOffsets (map O.int result.now) }
    {
        self.offsets.as_slice()
    }

    /// The first offset.
    pub fn first(&self) -> &O
        ensures same { O.int result.now ≡ offset_at self.now.offsets 0 }
        ensures starts { pos 0 ≤ℤ O.int result.now }
    {
        offset_of(self.offsets.as_slice(), 0)
    }

    /// The last offset.
    pub fn last(&self) -> &O
        ensures same { O.int result.now ≡ last_of self.now.offsets }
        ensures starts { pos 0 ≤ℤ O.int result.now }
    {
        offset_of(self.offsets.as_slice(), self.offsets.len() - 1)
    }

    /// Where slot `index` starts and ends.
    pub fn start_end(&self, index: usize) -> (usize, usize)
        requires { index + 1 < length self.now.offsets }
        ensures start { result.0 ≡ nat_of (offset_at self.now.offsets index) }
        ensures end { result.1 ≡ nat_of (offset_at self.now.offsets (index + 1)) }
        ensures order { result.0 ≤ result.1 }
        ensures within { result.1 ≤ nat_of (last_of self.now.offsets) }
    {
        places_of(self.offsets.as_slice(), index)
    }

    /// The same as [`Offsets::start_end`].
    pub fn start_end_unchecked(&self, index: usize) -> (usize, usize)
        requires { index + 1 < length self.now.offsets }
        ensures start { result.0 ≡ nat_of (offset_at self.now.offsets index) }
        ensures end { result.1 ≡ nat_of (offset_at self.now.offsets (index + 1)) }
        ensures order { result.0 ≤ result.1 }
        ensures within { result.1 ≤ nat_of (last_of self.now.offsets) }
    {
        self.start_end(index)
    }

    /// The number of bytes of slot `index`.
    pub fn length_at(&self, index: usize) -> usize
        requires { index + 1 < length self.now.offsets }
        ensures { result + nat_of (offset_at self.now.offsets index) ≡ nat_of (offset_at self.now.offsets (index + 1)) }
    {
        let (start, end) = self.start_end(index);
        end - start
    }

    /// The offsets as a vector. Takes no memory.
    pub fn into_inner(self) -> Vec<O>
        ensures same { map O.int result.items ≡ self.offsets }
        ensures sound { AreSoundOffsets (map O.int result.items) }
    {
        let Offsets { offsets } = self;
        offsets
    }

    /// Makes room for `additional` more slots.
    ///
    /// `NoMemory` where there is none for them, and never where the room is there.
    pub fn reserve(&mut self, additional: usize) -> Result<(), PolarsError>
        ensures answer { Answers result None (λ _. (self.new.offsets ≡ self.old.offsets) × (additional ≤ self.new.spare)) }
        ensures spare_serves { additional ≤ self.old.spare → IsOk result }
        ensures spare_kept { self.old.spare ≤ self.new.spare }
        ensures unchanged { OnErr result (self.new ≡ self.old) }
    {
        self.offsets.reserve(additional)?;
        Ok(())
    }

    /// Gives back memory that no offset needs, where the allocator takes it.
    pub fn shrink_to_fit(&mut self)
        ensures offsets { self.new.offsets ≡ self.old.offsets }
        ensures spare { self.new.spare ≤ self.old.spare }
    {
        self.offsets.shrink_to_fit();
    }

    /// Adds a slot of `length` bytes.
    ///
    /// `Overflow` where the last offset plus `length` passes the type, then `NoMemory` where there is none for the
    /// offset, and never where there is room.
    pub fn try_push(&mut self, length: usize) -> Result<(), PolarsError>
        ensures answer { Answers result (limit_fault O.GREATEST (last_of self.old.offsets +ℤ pos length)) (λ _. self.new.offsets ≡ pushed self.old.offsets length) }
        ensures spare_serves { 0 < self.old.spare → Gives result (limit_fault O.GREATEST (last_of self.old.offsets +ℤ pos length)) (λ _. ⊤) }
        ensures spare_left { OnOk result (self.old.spare ≤ self.new.spare + 1) }
        ensures spare_kept { OnErr result (self.old.spare ≤ self.new.spare) }
        ensures unchanged { OnErr result (self.new.offsets ≡ self.old.offsets) }
        ensures untouched { result ≡ Err (error_of Overflow) → self.new ≡ self.old }
    {
        push_length(&mut self.offsets, length)
    }

    /// Takes the last offset, None where there are no slots.
    pub fn pop(&mut self) -> Option<O>
        ensures offsets { MatchOption result ((length self.old.offsets ≡ 1) × (self.new.offsets ≡ self.old.offsets)) (λ last. (1 < length self.old.offsets) × (self.old.offsets ≡ self.new.offsets ++ O.int last ∷ [])) }
        ensures spare { self.old.spare ≤ self.new.spare }
    {
        if self.offsets.len() == 1 {
            return None;
        }
        self.offsets.pop()
    }

    /// Adds `additional` slots of no bytes.
    ///
    /// `NoMemory` where there is none for them, and never where there is room.
    pub fn extend_constant(&mut self, additional: usize) -> Result<(), PolarsError>
        ensures answer { Answers result None (λ _. self.new.offsets ≡ self.old.offsets ++ replicate additional (last_of self.old.offsets)) }
        ensures spare_serves { additional ≤ self.old.spare → IsOk result }
        ensures spare_left { OnOk result (self.old.spare ≤ self.new.spare + additional) }
        ensures spare_kept { OnErr result (self.old.spare ≤ self.new.spare) }
        ensures unchanged { OnErr result (self.new.offsets ≡ self.old.offsets) }
    {
        let last = *self.last();
        self.offsets.reserve(additional)?;
        let count = self.offsets.len() + additional;
        self.offsets.resize(count, last)?;
        Ok(())
    }

    /// Adds slots of these lengths.
    ///
    /// `Overflow` where the last offset plus all of them passes the type, `NoMemory` where there is none for the
    /// offsets.
    pub fn try_extend_from_lengths<I: Iterator<Item = usize> + Drop>(
        &mut self,
        lengths: I,
    ) -> Result<(), PolarsError>
        requires can { I.can_next lengths }
        requires ends { IsFinite (I.remaining lengths) }
        ensures answer { ExtendsByLengths I.next_gives lengths O.GREATEST self.old.offsets self.new.offsets result }
        ensures spare_kept { OnErr result (self.old.spare ≤ self.new.spare) }
        ensures unchanged { OnErr result (self.new.offsets ≡ self.old.offsets) }
    {
        let count = self.offsets.len();
        let added = push_lengths(&mut self.offsets, lengths);
        if added.is_err() {
            self.offsets.truncate(count);
        }
        added
    }

    /// Adds the slots of another list: offsets that rise as the other's do.
    ///
    /// `Overflow` where the last offset plus the lengths of all those slots passes the type, `NoMemory` where there is
    /// none for the offsets.
    pub fn try_extend_from_self(&mut self, other: &Self) -> Result<(), PolarsError>
        ensures answer { Answers result (limit_fault O.GREATEST (last_of self.old.offsets +ℤ pos (sum (lengths_of other.now.offsets)))) (λ _. self.new.offsets ≡ extended self.old.offsets (lengths_of other.now.offsets)) }
        ensures spare_kept { OnErr result (self.old.spare ≤ self.new.spare) }
        ensures unchanged { OnErr result (self.new.offsets ≡ self.old.offsets) }
    {
        self.try_extend_from_lengths(Lengths::new(other.as_slice()))
    }

    /// Offsets from 0 of slots of these lengths.
    ///
    /// `Overflow` where all of them together pass the type, `NoMemory` where there is none for the offsets.
    pub fn try_from_lengths<I: Iterator<Item = usize> + Drop>(
        alloc: Global,
        lengths: I,
    ) -> Result<Self, PolarsError>
        requires can { I.can_next lengths }
        requires ends { IsFinite (I.remaining lengths) }
        ensures { MadeByLengths I.next_gives lengths O.GREATEST result }
    {
        let mut offsets = Offsets::new(alloc)?;
        offsets.try_extend_from_lengths(lengths)?;
        Ok(offsets)
    }

    /// Offsets from 0 of slots of the lengths that are given.
    ///
    /// `Overflow` where all of them together pass the type, `NoMemory` where there is none for the offsets.
    pub fn try_from_iter<I: IntoIterator<Item = usize>>(
        alloc: Global,
        iter: I,
    ) -> Result<Self, PolarsError>
    where
        I::IntoIter: Drop,
        requires { (lengths : I.IntoIter) → I.into_iter_gives iter lengths → I.IntoIter.can_next lengths × IsFinite (I.IntoIter.remaining lengths) }
        ensures { (lengths : I.IntoIter) × I.into_iter_gives iter lengths × MadeByLengths I.IntoIter.next_gives lengths O.GREATEST result }
    {
        Offsets::try_from_lengths(alloc, iter.into_iter())
    }

    /// Adds `length` slots of other offsets, from slot `start` on: offsets that rise as those do.
    ///
    /// `Overflow` where the last offset plus the lengths of all those slots passes the type, `NoMemory` where there is
    /// none for the offsets.
    pub fn try_extend_from_slice(
        &mut self,
        other: &OffsetsBuffer<O>,
        start: usize,
        length: usize,
    ) -> Result<(), PolarsError>
        requires { (length ≡ 0) ⊎ (start + length < list_length other.now) }
        ensures answer { Answers result (limit_fault O.GREATEST (last_of self.old.offsets +ℤ pos (sum (sublist (lengths_of other.now) start length)))) (λ _. self.new.offsets ≡ extended self.old.offsets (sublist (lengths_of other.now) start length)) }
        ensures spare_kept { OnErr result (self.old.spare ≤ self.new.spare) }
        ensures unchanged { OnErr result (self.new.offsets ≡ self.old.offsets) }
    {
        self.try_extend_from_lengths(Lengths::new(slots_of(other.as_slice(), start, length)))
    }

    /// A copy of the list.
    ///
    /// `NoMemory` where there is none for it.
    pub fn try_clone(&self) -> Result<Self, PolarsError>
        ensures { Answers result None (λ o. o.offsets ≡ self.now.offsets) }
    {
        let offsets = Vec::from_slice(*self.offsets.allocator(), self.offsets.as_slice())?;
        Ok(Offsets { offsets })
    }
}

/// The offsets of `length` slots of sound ones, from slot `start` on.
fn slots_of<O: Offset>(offsets: &[O], start: usize, length: usize) -> &[O]
    requires sound { AreSoundOffsets (map O.int offsets.now) }
    requires within { (length ≡ 0) ⊎ (start + length < list_length offsets.now) }
    ensures sound { AreSoundOffsets (map O.int result.now) }
    ensures lengths { lengths_of (map O.int result.now) ≡ sublist (lengths_of (map O.int offsets.now)) start length }
{
    if length == 0 {
        return &offsets[..1];
    }
    &offsets[start..start + length + 1]
}

#[tactic(auto, using(crate::proofs::EqualLemmas::equality))]
impl<O: Offset> PartialEq for Offsets<O> {
    ghost use Rattle.std.proofs.Common.{rules};
    ghost use Rattle.std.specs.Cmp.Lexicographic.{pointwise};
    ghost use Rattle.std.specs.Cmp.Rules.{comparing};
    ghost use Rattle.std.specs.Ordering.{int_eq, on};

    ghost eq = { on (λ o. o.offsets) (pointwise int_eq) };

    ghost laws = { Prim.search (comparing, rules) };

    fn eq(&self, other: &Offsets<O>) -> bool {
        self.as_slice() == other.as_slice()
    }
}

#[tactic(auto, using(crate::proofs::EqualLemmas::equality))]
impl<O: Offset> Eq for Offsets<O> {
    ghost use Rattle.std.proofs.Common.{rules};
    ghost use Rattle.std.specs.Cmp.Rules.{comparing};

    ghost laws = { Prim.search (comparing, rules) };
}
