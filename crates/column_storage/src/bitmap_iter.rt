//! The bits of a bitmap, one by one.

use std::alloc::AllocError;
use std::iter::FusedIterator;

/// The bits that are left of a bitmap, from both ends. It may be copied.
pub struct BitmapIter<'a> {
    bits: &'a [bool],
}

impl<'a> BitmapIter<'a> {
    ghost use Rattle.std.specs.Prelude.{◌≡◌};
    ghost use Rattle.column_storage.specs.Iterators.{bits_left};

    // The bits of a slice.
    pub(crate) fn new(bits: &'a [bool]) -> Self
        ensures { bits_left result ≡ bits.now }
    {
        BitmapIter { bits }
    }
}

impl<'a> Clone for BitmapIter<'a> {
    ghost use Rattle.std.specs.Prelude.{◌≡◌, ⊤};

    ghost is_clone = { λ iter copy. copy ≡ iter };

    ghost is_infallible = { λ _. ⊤ };

    fn clone(&self) -> Result<Self, AllocError> {
        Ok(*self)
    }
}

impl<'a> Copy for BitmapIter<'a> {}

impl<'a> Iterator for BitmapIter<'a> {
    ghost use Rattle.std.specs.Prelude.{◌≡◌, length, Some, IfSome};
    ghost use Rattle.std.specs.Iterator.{YieldsFirst, item_count, UpTo};
    ghost use Rattle.std.specs.Iterator.SizeHint.{IsWithinCount};
    ghost use Rattle.column_storage.specs.Iterators.{bits_left};

    type Item = bool;

    ghost next_gives = { YieldsFirst bits_left };

    ghost remaining = { item_count bits_left };

    fn next(&mut self) -> Option<bool> {
        let (first, rest) = self.bits.split_first()?;
        self.bits = rest;
        Some(*first)
    }

    fn size_hint(&self) -> (usize, Option<usize>)
        ensures exact { let n = length (bits_left self.now) in result ≡ (n, Some n) }
        ensures lower { IsWithinCount result.0 (item_count bits_left self.now) }
        ensures upper { IfSome result.1 (UpTo (item_count bits_left self.now)) }
    {
        (self.bits.len(), Some(self.bits.len()))
    }
}

impl<'a> DoubleEndedIterator for BitmapIter<'a> {
    ghost use Rattle.std.specs.Iterator.{YieldsLast};
    ghost use Rattle.column_storage.specs.Iterators.{bits_left};

    ghost next_back_gives = { YieldsLast bits_left };

    fn next_back(&mut self) -> Option<bool> {
        let (last, rest) = self.bits.split_last()?;
        self.bits = rest;
        Some(*last)
    }
}

impl<'a> ExactSizeIterator for BitmapIter<'a> {
    fn len(&self) -> usize {
        self.bits.len()
    }
}

impl<'a> FusedIterator for BitmapIter<'a> {}
