//! The places of set bits, one by one.

use crate::bitmap::Bitmap;
use std::alloc::AllocError;
use std::iter::FusedIterator;

/// The places that are left of the set bits of a validity, rising. It may be copied.
///
/// Arrow columnar format, "Validity bitmaps".
pub struct TrueIdxIter<'a> {
    validity: Option<&'a Bitmap>,
    index: usize,
    len: usize,
    ghost in_range: { index ≤ len },
    ghost flagged: { length (flags_of len (option_copied validity)) ≡ len },
}

ghost use Rattle.std.specs.Prelude.{◌≡◌, ◌<◌, ◌≤◌, length, slice_get, Some, IfSome, ⊤};
ghost use Rattle.std.specs.Option.{option_copied};
ghost use Rattle.column_storage.specs.Bits.{flags_of, set_places};

#[tactic(auto, using(crate::proofs::PlacesLemmas::places))]
impl<'a> TrueIdxIter<'a> {
    ghost use Rattle.std.specs.Iterator.{YieldsFirst};
    ghost use Rattle.column_storage.specs.Iterators.{places_left, slots_left};

    /// The places below `len` whose bits are set, and all of them where no validity is given.
    pub fn new(len: usize, validity: Option<&'a Bitmap>) -> Self
        requires { IfSome validity (λ bits. length bits.now ≡ len) }
        ensures places { places_left result ≡ set_places 0 (flags_of len (option_copied validity.entry)) }
        ensures slots { slots_left result ≡ len }
        ensures same_len { result.len ≡ len }
    {
        TrueIdxIter {
            validity,
            index: 0,
            len,
        }
    }

    // The next place. Whatever holds the iterator beside an array learns that it is one of the array's.
    pub(crate) fn next_place(&mut self) -> Option<usize>
        ensures steps { YieldsFirst places_left self.old result self.new }
        ensures same_len { self.new.len ≡ self.old.len }
        ensures in_range { IfSome result (λ i. i < self.old.len) }
    {
        for index in self.index..self.len {
            if self.is_set(index) {
                self.index = index + 1;
                return Some(index);
            }
        }
        self.index = self.len;
        None
    }

    // Whether the bit at a place is set.
    fn is_set(&self, index: usize) -> bool
        requires { index < self.now.len }
        ensures { slice_get (flags_of self.now.len (option_copied self.now.validity)) index ≡ Some result }
    {
        match self.validity {
            Some(validity) => validity.get_bit(index),
            None => true,
        }
    }
}

impl<'a> Clone for TrueIdxIter<'a> {
    ghost is_clone = { λ iter copy. copy ≡ iter };

    ghost is_infallible = { λ _. ⊤ };

    fn clone(&self) -> Result<Self, AllocError> {
        Ok(*self)
    }
}

impl<'a> Copy for TrueIdxIter<'a> {}

#[tactic(auto, using(crate::proofs::PlacesLemmas::places))]
impl<'a> Iterator for TrueIdxIter<'a> {
    ghost use Rattle.std.specs.Iterator.{YieldsFirst, item_count, UpTo};
    ghost use Rattle.std.specs.Iterator.SizeHint.{IsWithinCount};
    ghost use Rattle.column_storage.specs.Iterators.{places_left, slots_left};

    type Item = usize;

    ghost next_gives = { YieldsFirst places_left };

    ghost remaining = { item_count places_left };

    fn next(&mut self) -> Option<usize> {
        self.next_place()
    }

    fn size_hint(&self) -> (usize, Option<usize>)
        ensures most { result.1 ≡ Some (slots_left self.now) }
        ensures lower { IsWithinCount result.0 (item_count places_left self.now) }
        ensures upper { IfSome result.1 (UpTo (item_count places_left self.now)) }
    {
        let left = self.len - self.index;
        match self.validity {
            Some(_) => (0, Some(left)),
            None => (left, Some(left)),
        }
    }
}

impl<'a> FusedIterator for TrueIdxIter<'a> {}
