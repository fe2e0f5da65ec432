//! `None` for good: an iterator of each type that has answered `None` at one end is called again at each of its ends.

use crate::cases::{flags, four};
use column_base::PolarsError;
use column_storage::{
    ArrayValuesIter, Bitmap, Buffer, NonNullValuesIter, TrueIdxIter, ZipValidity,
};
use std::alloc::Global;

fn bits_end(bits: &Bitmap) -> bool {
    let mut iter = bits.iter();
    iter.next() == Some(true)
        && iter.next() == Some(false)
        && iter.next_back() == Some(true)
        && iter.next() == Some(true)
        && iter.next().is_none()
        && iter.next_back().is_none()
        && iter.next().is_none()
        && iter.next_back().is_none()
}

fn values_end(numbers: &Buffer<i32>) -> bool {
    let mut iter = ArrayValuesIter::new(numbers);
    iter.nth(3) == Some(40)
        && iter.next_back().is_none()
        && iter.next().is_none()
        && iter.next_back().is_none()
        && iter.next().is_none()
}

fn rows_end(numbers: &Buffer<i32>, flags: &Bitmap) -> bool {
    if flags.len() != numbers.len() {
        return false;
    }
    let mut rows = ZipValidity::new_with_validity(ArrayValuesIter::new(numbers), Some(flags));
    rows.size_hint() == (4, Some(4))
        && rows.next() == Some(Some(10))
        && rows.next_back() == Some(Some(40))
        && rows.nth(1) == Some(Some(30))
        && rows.next().is_none()
        && rows.next_back().is_none()
        && rows.next_back().is_none()
        && rows.next().is_none()
}

fn places_end(flags: &Bitmap) -> bool {
    let mut iter = TrueIdxIter::new(flags.len(), Some(flags));
    iter.size_hint() == (0, Some(4))
        && iter.next() == Some(0)
        && iter.size_hint() == (0, Some(3))
        && iter.next() == Some(2)
        && iter.next() == Some(3)
        && iter.next().is_none()
        && iter.next().is_none()
        && iter.size_hint() == (0, Some(0))
}

fn valid_values_end(numbers: &Buffer<i32>, flags: &Bitmap) -> bool {
    if flags.len() != numbers.len() {
        return false;
    }
    let mut iter = NonNullValuesIter::new(numbers, Some(flags));
    iter.next() == Some(10)
        && iter.next() == Some(30)
        && iter.next() == Some(40)
        && iter.next().is_none()
        && iter.next().is_none()
}

fn all_end(numbers: &Buffer<i32>, flags: &Bitmap) -> bool {
    bits_end(flags)
        && values_end(numbers)
        && rows_end(numbers, flags)
        && places_end(flags)
        && valid_values_end(numbers, flags)
}

pub fn iterators_end(alloc: Global) -> Result<bool, PolarsError> {
    let numbers = four(alloc)?;
    Ok(all_end(&numbers, &flags(alloc)?))
}
