//! The values of an array that are not null, one by one.

use crate::accessor::{ArrayAccessor, Values};
use crate::bitmap::Bitmap;
use crate::listed::{Listed, Rest};
use crate::true_idx_iter::TrueIdxIter;
use std::alloc::AllocError;
use std::iter::FusedIterator;

/// The values that are left of the valid slots of an array, in order. It may be copied.
///
/// Arrow columnar format, "Validity bitmaps".
pub struct NonNullValuesIter<'a, A: Values> {
    accessor: &'a A,
    idxs: TrueIdxIter<'a>,
    ghost matched: { idxs.len ≡ length (A.items accessor.now) },
}

ghost use Rattle.std.specs.Prelude.{◌≡◌, length, Some, IfSome, ⊤};
ghost use Rattle.std.specs.Option.{option_copied};
ghost use Rattle.std.specs.Iterator.{YieldsFirstBy, item_count, UpTo};
ghost use Rattle.std.specs.Iterator.SizeHint.{IsWithinCount};
ghost use Rattle.column_storage.specs.Bits.{flags_of, valid_values};

#[tactic(auto, using(crate::proofs::ValuesLemmas::values))]
impl<'a, A: ArrayAccessor<'a>> NonNullValuesIter<'a, A> {
    ghost use Rattle.column_storage.specs.Iterators.{valid_values_left, value_slots_left};

    /// The values of the slots whose bits are set, and all of them where no validity is given.
    pub fn new(accessor: &'a A, validity: Option<&'a Bitmap>) -> Self
        requires { IfSome validity (λ bits. length bits.now ≡ length (A.items accessor.now)) }
        ensures values { let items = A.items accessor.now in valid_values_left result ≡ valid_values (flags_of (length items) (option_copied validity.entry)) items }
        ensures slots { value_slots_left result ≡ length (A.items accessor.now) }
    {
        NonNullValuesIter {
            accessor,
            idxs: TrueIdxIter::new(accessor.len(), validity),
        }
    }
}

impl<'a, A: Values> Clone for NonNullValuesIter<'a, A> {
    ghost is_clone = { λ iter copy. copy ≡ iter };

    ghost is_infallible = { λ _. ⊤ };

    fn clone(&self) -> Result<Self, AllocError> {
        Ok(*self)
    }
}

impl<'a, A: Values> Copy for NonNullValuesIter<'a, A> {}

#[tactic(auto, using(crate::proofs::ValuesLemmas::values))]
impl<'a, A: ArrayAccessor<'a>> Iterator for NonNullValuesIter<'a, A> {
    ghost use Rattle.column_storage.specs.Iterators.{valid_values_left, value_slots_left};

    type Item = A::Item;

    ghost next_gives = { YieldsFirstBy A.shown valid_values_left };

    ghost remaining = { item_count valid_values_left };

    fn next(&mut self) -> Option<A::Item> {
        let index = self.idxs.next_place()?;
        Some(self.accessor.value_unchecked(index))
    }

    fn size_hint(&self) -> (usize, Option<usize>)
        ensures most { result.1 ≡ Some (value_slots_left self.now) }
        ensures lower { IsWithinCount result.0 (item_count valid_values_left self.now) }
        ensures upper { IfSome result.1 (UpTo (item_count valid_values_left self.now)) }
    {
        self.idxs.size_hint()
    }
}

impl<'a, A: ArrayAccessor<'a>> FusedIterator for NonNullValuesIter<'a, A> {}

impl<'a, A: Values> Rest for NonNullValuesIter<'a, A> {
    ghost use Rattle.column_storage.specs.Iterators.{valid_values_left};

    type Shown = A::Shown;

    ghost rest = { valid_values_left };
}

impl<'a, A: ArrayAccessor<'a>> Listed for NonNullValuesIter<'a, A> {
    ghost use Rattle.std.specs.Prelude.{refl};

    ghost shown = { A.shown };

    ghost gives = { λ s r t given. given };

    ghost counted = { λ s. refl };

    ghost at_end = { λ s none. tt };
}
