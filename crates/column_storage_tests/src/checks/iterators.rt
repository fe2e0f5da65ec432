//! Iterators, in order and from the back.

use crate::cases::flags;
use column_base::PolarsError;
use column_checks::{ends_are, gives, gives_back};
use column_storage::{
    ArrayValuesIter, Bitmap, BitmapIter, Buffer, Listed, NonNullValuesIter, TrueIdxIter,
    ZipValidity,
};
use std::alloc::Global;

// ---- values

pub fn values_are(numbers: &Buffer<i32>) -> bool {
    let values = ArrayValuesIter::new(numbers);
    values.len() == 4
        && gives(values, &[10, 20, 30, 40])
        && gives_back(values, &[40, 30, 20, 10])
        && ends_are(values, [10, 20, 30, 40])
}

pub fn values_are_passed_over(numbers: &Buffer<i32>) -> bool {
    let mut values = ArrayValuesIter::new(numbers);
    values.nth(1) == Some(20)
        && values.nth_back(0) == Some(40)
        && values.size_hint() == (1, Some(1))
        && values.nth(usize::MAX).is_none()
}

pub fn values_are_passed_over_from_the_back(numbers: &Buffer<i32>) -> bool {
    let mut values = ArrayValuesIter::new(numbers);
    values.nth_back(2) == Some(20)
        && values.nth_back(1).is_none()
        && values.size_hint() == (0, Some(0))
}

// ---- bits

pub fn bits_are(bits: &Bitmap) -> bool {
    let all = bits.iter();
    all.len() == 4
        && gives(all, &[true, false, true, true])
        && gives_back(all, &[true, true, false, true])
        && ends_are(all, [true, false, true, true])
}

// ---- places

// an iterator with one end gives two items, and then None again and again
fn ends_after<T: Copy + PartialEq, I: Listed<Item = T>>(iter: I, wanted: [T; 2]) -> bool
    requires { (s : I) → I.can_next s }
{
    let mut iter = iter;
    let [one, two] = wanted;
    iter.next() == Some(one)
        && iter.next() == Some(two)
        && iter.next().is_none()
        && iter.next().is_none()
}

pub fn places_are(flags: &Bitmap) -> bool {
    let places = TrueIdxIter::new(flags.len(), Some(flags));
    places.size_hint() == (0, Some(4)) && gives(places, &[0, 2, 3])
}

pub fn all_places_are() -> bool {
    let places = TrueIdxIter::new(2, None);
    places.size_hint() == (2, Some(2)) && ends_after(places, [0, 1])
}

// ---- values of valid slots

fn valid_values_are(numbers: &Buffer<i32>, flags: &Bitmap) -> bool {
    if flags.len() != numbers.len() {
        return false;
    }
    let values = NonNullValuesIter::new(numbers, Some(flags));
    values.size_hint() == (0, Some(4)) && gives(values, &[10, 30, 40])
}

pub fn all_values_are(numbers: &Buffer<i32>) -> bool {
    gives(NonNullValuesIter::new(numbers, None), &[10, 20, 30, 40])
}

// ---- rows

// 10, null over 20, 30, 40
fn rows_are(numbers: &Buffer<i32>, flags: &Bitmap) -> bool {
    flags.len() == numbers.len()
        && ends_are(
            ZipValidity::new_with_validity(ArrayValuesIter::new(numbers), Some(flags)),
            [Some(10), None, Some(30), Some(40)],
        )
}

fn rows_from_the_back_are(numbers: &Buffer<i32>, flags: &Bitmap) -> bool {
    flags.len() == numbers.len()
        && gives_back(
            ZipValidity::new(ArrayValuesIter::new(numbers), Some(flags.iter())),
            &[Some(40), Some(30), None, Some(10)],
        )
}

pub fn rows_without_flags_are(numbers: &Buffer<i32>) -> bool {
    ends_are(
        ZipValidity::new_with_validity(ArrayValuesIter::new(numbers), None),
        [Some(10), Some(20), Some(30), Some(40)],
    )
}

pub fn rows_of_no_flags_are(numbers: &Buffer<i32>) -> bool {
    let no_flags: Option<BitmapIter<'_>> = None;
    gives(
        ZipValidity::new(ArrayValuesIter::new(numbers), no_flags),
        &[Some(10), Some(20), Some(30), Some(40)],
    )
}

fn flagged_are(numbers: &Buffer<i32>, flags: &Bitmap) -> bool {
    rows_are(numbers, flags)
        && rows_from_the_back_are(numbers, flags)
        && valid_values_are(numbers, flags)
}

pub fn flagged_rows_are(alloc: Global, numbers: &Buffer<i32>) -> Result<bool, PolarsError> {
    Ok(flagged_are(numbers, &flags(alloc)?))
}
