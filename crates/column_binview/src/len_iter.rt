//! The lengths of values, one by one.

use column_storage::{Listed, ListedBack, Rest};
use column_view::View;
use std::alloc::AllocError;
use std::iter::FusedIterator;

/// The lengths in bytes that are left of the values of an array, from both ends. It may be copied.
pub struct LenIter<'a> {
    views: &'a [View],
}

impl<'a> LenIter<'a> {
    ghost use Rattle.std.specs.Prelude.{◌≡◌, map};
    ghost use Rattle.column_view.specs.Views.{view_length};
    ghost use Rattle.column_binview.specs.Iterators.{lengths_left};

    // The lengths of views.
    pub(crate) fn new(views: &'a [View]) -> Self
        ensures { lengths_left result ≡ map view_length views.now }
    {
        LenIter { views }
    }
}

impl<'a> Clone for LenIter<'a> {
    ghost use Rattle.std.specs.Prelude.{◌≡◌, ⊤};

    ghost is_clone = { λ iter copy. copy ≡ iter };

    ghost is_infallible = { λ _. ⊤ };

    fn clone(&self) -> Result<Self, AllocError> {
        Ok(*self)
    }
}

impl<'a> Copy for LenIter<'a> {}

impl<'a> Iterator for LenIter<'a> {
    ghost use Rattle.std.specs.Prelude.{◌≡◌, length, Some, IfSome};
    ghost use Rattle.std.specs.Iterator.{YieldsFirst, item_count, UpTo};
    ghost use Rattle.std.specs.Iterator.SizeHint.{IsWithinCount};
    ghost use Rattle.column_binview.specs.Iterators.{lengths_left};

    type Item = u32;

    ghost next_gives = { YieldsFirst lengths_left };

    ghost remaining = { item_count lengths_left };

    fn next(&mut self) -> Option<u32> {
        let (first, rest) = self.views.split_first()?;
        self.views = rest;
        Some(first.length())
    }

    fn size_hint(&self) -> (usize, Option<usize>)
        ensures exact { let n = length (lengths_left self.now) in result ≡ (n, Some n) }
        ensures lower { IsWithinCount result.0 (item_count lengths_left self.now) }
        ensures upper { IfSome result.1 (UpTo (item_count lengths_left self.now)) }
    {
        (self.views.len(), Some(self.views.len()))
    }
}

#[tactic(auto, using(crate::proofs::SlotsLemmas::lengths))]
impl<'a> DoubleEndedIterator for LenIter<'a> {
    ghost use Rattle.std.specs.Iterator.{YieldsLast};
    ghost use Rattle.column_binview.specs.Iterators.{lengths_left};

    ghost next_back_gives = { YieldsLast lengths_left };

    fn next_back(&mut self) -> Option<u32> {
        let (last, rest) = self.views.split_last()?;
        self.views = rest;
        Some(last.length())
    }
}

impl<'a> ExactSizeIterator for LenIter<'a> {
    fn len(&self) -> usize {
        self.views.len()
    }
}

impl<'a> FusedIterator for LenIter<'a> {}

impl<'a> Rest for LenIter<'a> {
    ghost use Rattle.column_binview.specs.Iterators.{lengths_left};

    type Shown = u32;

    ghost rest = { lengths_left };
}

impl<'a> Listed for LenIter<'a> {
    ghost use Rattle.std.specs.Prelude.{refl};

    ghost shown = { λ len. len };

    ghost gives = { λ s r t given. given };

    ghost counted = { λ s. refl };

    ghost at_end = { λ s none. tt };
}

impl<'a> ListedBack for LenIter<'a> {
    ghost gives_last = { λ s r t given. given };

    ghost at_end_back = { λ s none. tt };
}
