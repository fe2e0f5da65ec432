//! Values beside a validity, one by one.

use crate::bitmap::Bitmap;
use crate::bitmap_iter::BitmapIter;
use crate::listed::{Flags, FlagsBack, Listed, ListedBack, Rest};
use std::iter::FusedIterator;
use std::marker::PhantomData;

/// Optional values that are left, from both ends: `None` where the bit of a value is not set. Where no bits are
/// given, each value is there.
///
/// As many bits as values are left. Once one end has answered `None`, both ends do, as often as they are called. Arrow
/// columnar format, "Validity bitmaps".
#[derive(Drop)]
pub struct ZipValidity<T, I: Rest, V: Rest<Shown = bool>> {
    values: I,
    validity: Option<V>,
    item: PhantomData<T>,
    ghost matched: { ForSome validity (λ bits. length (V.rest bits) ≡ length (I.rest values)) },
}

ghost use Rattle.std.specs.Prelude.{◌≡◌, length, Some, None, IfSome, if◌then◌else◌};
ghost use Rattle.std.specs.Option.{ForSome, option_copied, option_map};
ghost use Rattle.std.specs.Iterator.{YieldsFirstBy, YieldsLastBy, item_count};
ghost use Rattle.column_storage.specs.Bits.{given_bits, optional_values};

impl<T: Drop, I: Listed<Item = T>, V: Flags> ZipValidity<T, I, V> {
    ghost use Rattle.column_storage.specs.Iterators.{rows_left};
    ghost use Rattle.column_storage.specs.Zipped.{zipped_values, zipped_validity};

    /// The values of an iterator, each beside its bit.
    pub fn new(values: I, validity: Option<V>) -> Self
        requires { IfSome validity (λ bits. length (V.rest bits) ≡ length (I.rest values)) }
        ensures rows { rows_left result ≡ optional_values (given_bits (option_map V.rest validity)) (I.rest values) }
        ensures values { zipped_values result ≡ values }
        ensures validity { zipped_validity result ≡ validity }
    {
        ZipValidity {
            values,
            validity,
            item: PhantomData,
        }
    }
}

impl<'a, T: Drop, I: Listed<Item = T>> ZipValidity<T, I, BitmapIter<'a>> {
    ghost use Rattle.column_storage.specs.Iterators.{rows_left};
    ghost use Rattle.column_storage.specs.Zipped.{zipped_values};

    /// The values of an iterator, each beside its bit of a validity, where one is given.
    pub fn new_with_validity(values: I, validity: Option<&'a Bitmap>) -> Self
        requires { IfSome validity (λ bits. length bits.now ≡ length (I.rest values)) }
        ensures rows { rows_left result ≡ optional_values (given_bits (option_copied validity.entry)) (I.rest values) }
        ensures values { zipped_values result ≡ values }
    {
        match validity {
            Some(bits) => ZipValidity::new(values, Some(bits.iter())),
            None => ZipValidity::new(values, None),
        }
    }
}

// The value where its bit is set.
fn where_valid<T: Drop>(value: T, is_valid: bool) -> Option<T>
    ensures { result ≡ (if is_valid then Some value else None) }
{
    if is_valid { Some(value) } else { None }
}

#[tactic(auto, using(crate::proofs::OptionalLemmas::optionals))]
impl<T: Drop, I: Listed<Item = T>, V: Flags> Iterator for ZipValidity<T, I, V> {
    ghost use Rattle.column_storage.specs.Iterators.{rows_left};

    type Item = Option<T>;

    ghost can_next = { λ s. I.can_next s.values × ForSome s.validity V.can_next };

    ghost next_gives = { YieldsFirstBy (option_map I.shown) rows_left };

    ghost remaining = { item_count rows_left };

    fn next(&mut self) -> Option<Option<T>> {
        let value = self.values.next()?;
        match &mut self.validity {
            None => Some(Some(value)),
            Some(bits) => {
                let is_valid = bits.next()?;
                Some(where_valid(value, is_valid))
            }
        }
    }

    fn size_hint(&self) -> (usize, Option<usize>) {
        self.values.size_hint()
    }
}

#[tactic(auto, using(crate::proofs::OptionalLemmas::optionals))]
impl<T: Drop, I: ListedBack<Item = T>, V: FlagsBack> DoubleEndedIterator for ZipValidity<T, I, V> {
    ghost use Rattle.column_storage.specs.Iterators.{rows_left};

    ghost can_next_back = { λ s. I.can_next_back s.values × ForSome s.validity V.can_next_back };

    ghost next_back_gives = { YieldsLastBy (option_map I.shown) rows_left };

    fn next_back(&mut self) -> Option<Option<T>> {
        let value = self.values.next_back()?;
        match &mut self.validity {
            None => Some(Some(value)),
            Some(bits) => {
                let is_valid = bits.next_back()?;
                Some(where_valid(value, is_valid))
            }
        }
    }
}

impl<T: Drop, I: Listed<Item = T>, V: Flags> FusedIterator for ZipValidity<T, I, V> {}

impl<T, I: Rest, V: Rest<Shown = bool>> Rest for ZipValidity<T, I, V> {
    ghost use Rattle.column_storage.specs.Iterators.{rows_left};

    type Shown = Option<I::Shown>;

    ghost rest = { rows_left };
}

impl<T: Drop, I: Listed<Item = T>, V: Flags> Listed for ZipValidity<T, I, V> {
    ghost use Rattle.std.specs.Prelude.{refl};
    ghost use Rattle.column_storage.specs.Zipped.{no_values, no_bits};

    ghost shown = { option_map I.shown };

    ghost gives = { λ s r t given. given };

    ghost counted = { λ s. refl };

    ghost at_end = { λ s none. let values = no_values _ _ none in (I.at_end s.values values, λ bits is. V.Flags.at_end bits (no_bits _ _ (s.matched bits is) values)) };
}

impl<T: Drop, I: ListedBack<Item = T>, V: FlagsBack> ListedBack for ZipValidity<T, I, V> {
    ghost use Rattle.column_storage.specs.Zipped.{no_values, no_bits};

    ghost gives_last = { λ s r t given. given };

    ghost at_end_back = { λ s none. let values = no_values _ _ none in (I.at_end_back s.values values, λ bits is. V.at_end_back bits (no_bits _ _ (s.matched bits is) values)) };
}
