//! The rows of an array that is consumed.

use crate::array::PrimitiveArray;
use column_base::NativeType;
use std::iter::FusedIterator;

/// The rows that are left of an array that was consumed, from both ends: the number of each slot, or None where it is
/// null.
#[derive(Drop)]
pub struct PrimitiveIntoIter<T: NativeType> {
    array: PrimitiveArray<T>,
    index: usize,
    end: usize,
    ghost ordered: { index ≤ end },
    ghost in_range: { end ≤ length array.lists.numbers },
}

ghost use Rattle.std.specs.Prelude.{◌≡◌, ◌-◌, ◌≤◌, length, Some, IfSome};
ghost use Rattle.std.specs.Iterator.{YieldsFirst, YieldsLast, item_count, UpTo};
ghost use Rattle.std.specs.Iterator.SizeHint.{IsWithinCount};
ghost use Rattle.column_primitive.specs.Numbers.{number_rows};

#[tactic(auto, using(crate::proofs::RowsLemmas::row_places))]
impl<T: NativeType> IntoIterator for PrimitiveArray<T> {
    ghost use Rattle.column_primitive.specs.IntoIter.{rows_of_iter};

    type Item = Option<T>;

    type IntoIter = PrimitiveIntoIter<T>;

    // the rows, first to last
    ghost into_iter_gives = { λ array it. rows_of_iter it ≡ number_rows array.lists };

    fn into_iter(self) -> PrimitiveIntoIter<T> {
        self.known();
        let end = self.len();
        PrimitiveIntoIter {
            array: self,
            index: 0,
            end,
        }
    }
}

#[tactic(auto, using(crate::proofs::RowsLemmas::row_places))]
impl<T: NativeType> Iterator for PrimitiveIntoIter<T> {
    ghost use Rattle.column_primitive.specs.IntoIter.{rows_of_iter};

    type Item = Option<T>;

    ghost next_gives = { YieldsFirst rows_of_iter };

    ghost remaining = { item_count rows_of_iter };

    fn next(&mut self) -> Option<Option<T>> {
        if self.index == self.end {
            return None;
        }
        self.array.known();
        let index = self.index;
        self.index += 1;
        Some(self.array.get(index))
    }

    fn size_hint(&self) -> (usize, Option<usize>)
        ensures exact { let n = length (rows_of_iter self.now) in result ≡ (n, Some n) }
        ensures lower { IsWithinCount result.0 (item_count rows_of_iter self.now) }
        ensures upper { IfSome result.1 (UpTo (item_count rows_of_iter self.now)) }
    {
        let left = self.end - self.index;
        (left, Some(left))
    }
}

#[tactic(auto, using(crate::proofs::RowsLemmas::row_places))]
impl<T: NativeType> DoubleEndedIterator for PrimitiveIntoIter<T> {
    ghost use Rattle.column_primitive.specs.IntoIter.{rows_of_iter};

    ghost next_back_gives = { YieldsLast rows_of_iter };

    fn next_back(&mut self) -> Option<Option<T>> {
        if self.index == self.end {
            return None;
        }
        self.array.known();
        self.end -= 1;
        Some(self.array.get(self.end))
    }
}

#[tactic(auto, using(crate::proofs::RowsLemmas::row_places))]
impl<T: NativeType> ExactSizeIterator for PrimitiveIntoIter<T> {
    fn len(&self) -> usize {
        self.end - self.index
    }
}

impl<T: NativeType> FusedIterator for PrimitiveIntoIter<T> {}
