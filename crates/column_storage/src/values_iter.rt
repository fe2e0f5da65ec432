//! The values of an array, one by one.

use crate::accessor::{ArrayAccessor, Values};
use std::alloc::AllocError;
use std::iter::FusedIterator;

/// The values that are left of an array, from both ends. It may be copied.
pub struct ArrayValuesIter<'a, A: Values> {
    array: &'a A,
    index: usize,
    end: usize,
    ghost ordered: { index ≤ end },
    ghost in_range: { end ≤ length (A.items array.now) },
}

ghost use Rattle.std.specs.Prelude.{◌≡◌, ◌+◌, ◌-◌, ◌≤◌, length, drop, take, slice_get, Some, MatchOption, IfSome, ⊤};
ghost use Rattle.std.specs.Iterator.{YieldsFirstBy, YieldsLastBy, item_count, UpTo};
ghost use Rattle.std.specs.Iterator.SizeHint.{IsWithinCount};

impl<'a, A: ArrayAccessor<'a>> ArrayValuesIter<'a, A> {
    ghost use Rattle.column_storage.specs.Iterators.{values_left};

    /// All values of an array.
    pub fn new(array: &'a A) -> Self
        ensures { values_left result ≡ A.items array.now }
    {
        let end = array.len();
        ArrayValuesIter {
            array,
            index: 0,
            end,
        }
    }

    /// Passes over `n` values and gives the next. Past the end `None`, and then nothing is left.
    #[tactic(auto, using(crate::proofs::RangesLemmas::nths))]
    pub fn nth(&mut self, n: usize) -> Option<A::Item>
        ensures item { let left = values_left self.old in MatchOption result (length left ≤ n) (λ x. slice_get left n ≡ Some (A.shown x)) }
        ensures rest { let left = values_left self.old in values_left self.new ≡ drop (n + 1) left }
    {
        if self.end - self.index <= n {
            self.index = self.end;
            return None;
        }
        let index = self.index + n;
        self.index = index + 1;
        Some(self.array.value_unchecked(index))
    }

    /// Passes over `n` values from the back and gives the next. Past the end `None`, and then nothing is left.
    #[tactic(auto, using(crate::proofs::RangesLemmas::nths))]
    pub fn nth_back(&mut self, n: usize) -> Option<A::Item>
        ensures item { let left = values_left self.old in MatchOption result (length left ≤ n) (λ x. slice_get left (length left - (n + 1)) ≡ Some (A.shown x)) }
        ensures rest { let left = values_left self.old in values_left self.new ≡ take (length left - (n + 1)) left }
    {
        if self.end - self.index <= n {
            self.end = self.index;
            return None;
        }
        let index = self.end - n - 1;
        self.end = index;
        Some(self.array.value_unchecked(index))
    }
}

impl<'a, A: Values> Clone for ArrayValuesIter<'a, A> {
    ghost is_clone = { λ iter copy. copy ≡ iter };

    ghost is_infallible = { λ _. ⊤ };

    fn clone(&self) -> Result<Self, AllocError> {
        Ok(*self)
    }
}

impl<'a, A: Values> Copy for ArrayValuesIter<'a, A> {}

#[tactic(auto, using(crate::proofs::RangesLemmas::ranges))]
impl<'a, A: ArrayAccessor<'a>> Iterator for ArrayValuesIter<'a, A> {
    ghost use Rattle.column_storage.specs.Iterators.{values_left};

    type Item = A::Item;

    ghost next_gives = { YieldsFirstBy A.shown values_left };

    ghost remaining = { item_count values_left };

    fn next(&mut self) -> Option<A::Item> {
        if self.index == self.end {
            return None;
        }
        let index = self.index;
        self.index += 1;
        Some(self.array.value_unchecked(index))
    }

    fn size_hint(&self) -> (usize, Option<usize>)
        ensures exact { let n = length (values_left self.now) in result ≡ (n, Some n) }
        ensures lower { IsWithinCount result.0 (item_count values_left self.now) }
        ensures upper { IfSome result.1 (UpTo (item_count values_left self.now)) }
    {
        let left = self.end - self.index;
        (left, Some(left))
    }
}

#[tactic(auto, using(crate::proofs::RangesLemmas::ranges))]
impl<'a, A: ArrayAccessor<'a>> DoubleEndedIterator for ArrayValuesIter<'a, A> {
    ghost use Rattle.column_storage.specs.Iterators.{values_left};

    ghost next_back_gives = { YieldsLastBy A.shown values_left };

    fn next_back(&mut self) -> Option<A::Item> {
        if self.index == self.end {
            return None;
        }
        self.end -= 1;
        Some(self.array.value_unchecked(self.end))
    }
}

impl<'a, A: ArrayAccessor<'a>> ExactSizeIterator for ArrayValuesIter<'a, A> {
    fn len(&self) -> usize {
        self.end - self.index
    }
}

impl<'a, A: ArrayAccessor<'a>> FusedIterator for ArrayValuesIter<'a, A> {}
