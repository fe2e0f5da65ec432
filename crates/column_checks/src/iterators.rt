//! Any iterator whose items contracts see as a list.

ghost use Rattle.std.specs.Prelude.{◌≡◌, []};

use column_storage::{Listed, ListedBack};

/// Whether an iterator gives these items, first to last.
pub fn gives<T: Copy + PartialEq, I: Listed<Item = T>>(iter: I, wanted: &[T]) -> bool
    requires { I.can_next iter }
{
    iter.eq(wanted.iter().copied())
}

/// Whether an iterator gives these items, last to first.
pub fn gives_back<T: Copy + PartialEq, I: ListedBack<Item = T>>(iter: I, wanted: &[T]) -> bool
    requires { I.can_next_back iter }
{
    iter.rev().eq(wanted.iter().copied())
}

/// Whether an iterator gives these four items when it is called at both ends in turn, and then None at both.
pub fn ends_are<T: Copy + PartialEq, I: ListedBack<Item = T>>(iter: I, wanted: [T; 4]) -> bool
    requires front { (s : I) → I.can_next s }
    requires back { (s : I) → I.can_next_back s }
{
    let mut iter = iter;
    let [one, two, three, four] = wanted;
    iter.size_hint() == (4, Some(4))
        && iter.next() == Some(one)
        && iter.next_back() == Some(four)
        && iter.next() == Some(two)
        && iter.next_back() == Some(three)
        && iter.next().is_none()
        && is_over(&mut iter)
}

/// Whether an iterator of which nothing is left answers None at both ends, again and again.
pub fn is_over<T: Drop, I: ListedBack<Item = T>>(iter: &mut I) -> bool
    requires { I.rest iter.old ≡ [] }
{
    iter.next_back().is_none()
        && iter.next().is_none()
        && iter.next().is_none()
        && iter.next_back().is_none()
}
