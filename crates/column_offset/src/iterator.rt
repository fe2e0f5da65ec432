//! The slots of offsets, one by one.

ghost use Rattle.std.specs.Prelude.{map};
ghost use Rattle.column_offset.specs.Offsets.{AreSoundOffsets};

use crate::checks::places_of;
use column_base::Offset;
use std::iter::FusedIterator;

/// The lengths of the slots that are left, first to last.
#[derive(Drop)]
pub struct Lengths<'a, O: Offset> {
    offsets: &'a [O],
    ghost sound: { AreSoundOffsets (map O.int offsets.now) },
}

impl<'a, O: Offset> Lengths<'a, O> {
    ghost use Rattle.std.specs.Prelude.{◌≡◌};
    ghost use Rattle.column_offset.specs.Growth.{lengths_of};
    ghost use Rattle.column_offset.specs.Iterators.{lengths_left};

    // The slots of sound offsets.
    pub(crate) fn new(offsets: &'a [O]) -> Self
        requires { AreSoundOffsets (map O.int offsets.now) }
        ensures { lengths_left result ≡ lengths_of (map O.int offsets.now) }
    {
        Lengths { offsets }
    }
}

#[tactic(auto, using(crate::proofs::SlotsLemmas::lengths))]
impl<'a, O: Offset> Iterator for Lengths<'a, O> {
    ghost use Rattle.std.specs.Prelude.{◌≡◌, length, Some, IfSome};
    ghost use Rattle.std.specs.Iterator.{YieldsFirst, item_count, UpTo};
    ghost use Rattle.std.specs.Iterator.SizeHint.{IsWithinCount};
    ghost use Rattle.column_offset.specs.Iterators.{lengths_left};

    type Item = usize;

    ghost next_gives = { YieldsFirst lengths_left };

    ghost remaining = { item_count lengths_left };

    fn next(&mut self) -> Option<usize> {
        if self.offsets.len() < 2 {
            return None;
        }
        let (start, end) = places_of(self.offsets, 0);
        self.offsets = &self.offsets[1..];
        Some(end - start)
    }

    fn size_hint(&self) -> (usize, Option<usize>)
        ensures exact { let n = length (lengths_left self.now) in result ≡ (n, Some n) }
        ensures lower { IsWithinCount result.0 (item_count lengths_left self.now) }
        ensures upper { IfSome result.1 (UpTo (item_count lengths_left self.now)) }
    {
        let left = self.offsets.len() - 1;
        (left, Some(left))
    }
}

#[tactic(auto, using(crate::proofs::SlotsLemmas::lengths))]
impl<'a, O: Offset> ExactSizeIterator for Lengths<'a, O> {
    fn len(&self) -> usize {
        self.offsets.len() - 1
    }
}

impl<'a, O: Offset> FusedIterator for Lengths<'a, O> {}

/// Where each slot that is left starts, and its length, first to last.
#[derive(Drop)]
pub struct OffsetAndLengthIter<'a, O: Offset> {
    offsets: &'a [O],
    ghost sound: { AreSoundOffsets (map O.int offsets.now) },
}

impl<'a, O: Offset> OffsetAndLengthIter<'a, O> {
    ghost use Rattle.std.specs.Prelude.{◌≡◌};
    ghost use Rattle.column_offset.specs.Growth.{starts_and_lengths_of};
    ghost use Rattle.column_offset.specs.Iterators.{pairs_left};

    // The slots of sound offsets.
    pub(crate) fn new(offsets: &'a [O]) -> Self
        requires { AreSoundOffsets (map O.int offsets.now) }
        ensures { pairs_left result ≡ starts_and_lengths_of (map O.int offsets.now) }
    {
        OffsetAndLengthIter { offsets }
    }
}

#[tactic(auto, using(crate::proofs::SlotsLemmas::pairs))]
impl<'a, O: Offset> Iterator for OffsetAndLengthIter<'a, O> {
    ghost use Rattle.std.specs.Prelude.{◌≡◌, length, Some, IfSome};
    ghost use Rattle.std.specs.Iterator.{YieldsFirst, item_count, UpTo};
    ghost use Rattle.std.specs.Iterator.SizeHint.{IsWithinCount};
    ghost use Rattle.column_offset.specs.Iterators.{pairs_left};

    type Item = (usize, usize);

    ghost next_gives = { YieldsFirst pairs_left };

    ghost remaining = { item_count pairs_left };

    fn next(&mut self) -> Option<(usize, usize)> {
        if self.offsets.len() < 2 {
            return None;
        }
        let (start, end) = places_of(self.offsets, 0);
        self.offsets = &self.offsets[1..];
        Some((start, end - start))
    }

    fn size_hint(&self) -> (usize, Option<usize>)
        ensures exact { let n = length (pairs_left self.now) in result ≡ (n, Some n) }
        ensures lower { IsWithinCount result.0 (item_count pairs_left self.now) }
        ensures upper { IfSome result.1 (UpTo (item_count pairs_left self.now)) }
    {
        let left = self.offsets.len() - 1;
        (left, Some(left))
    }
}

#[tactic(auto, using(crate::proofs::SlotsLemmas::pairs))]
impl<'a, O: Offset> ExactSizeIterator for OffsetAndLengthIter<'a, O> {
    fn len(&self) -> usize {
        self.offsets.len() - 1
    }
}

impl<'a, O: Offset> FusedIterator for OffsetAndLengthIter<'a, O> {}
