//! Iterators whose remaining items contracts see as a list.

use crate::accessor::{ArrayAccessor, Values};
use crate::bitmap_iter::BitmapIter;
use crate::true_idx_iter::TrueIdxIter;
use crate::values_iter::ArrayValuesIter;

/// What contracts see of an iterator: the list of what is left.
pub trait Rest {
    ghost use Rattle.std.specs.Prelude.{List};

    /// What contracts see of one item.
    type Shown;

    ghost rest: { Self → List Self.Shown };
}

/// An iterator that gives a list, first to last. Where nothing is left it may be called again.
pub trait Listed: Iterator + Rest {
    ghost use Rattle.std.specs.Prelude.{◌≡◌, []};
    ghost use Rattle.std.specs.Iterator.{YieldsFirstBy, item_count};

    ghost shown: { Self.Item → Self.Shown };

    ghost gives: { (s : Self) (r : _) (t : Self) → Self.next_gives s r t → YieldsFirstBy shown Self.rest s r t };

    ghost counted: { (s : Self) → Self.remaining s ≡ item_count Self.rest s };

    ghost at_end: { (s : Self) → Self.rest s ≡ [] → Self.can_next s };
}

/// An iterator that gives its list from both ends. Where nothing is left it may be called again at each end.
pub trait ListedBack: Listed + DoubleEndedIterator {
    ghost use Rattle.std.specs.Prelude.{◌≡◌, []};
    ghost use Rattle.std.specs.Iterator.{YieldsLastBy};

    ghost gives_last: { (s : Self) (r : _) (t : Self) → Self.next_back_gives s r t → YieldsLastBy Self.shown Self.rest s r t };

    ghost at_end_back: { (s : Self) → Self.rest s ≡ [] → Self.can_next_back s };
}

/// An iterator that gives a list of truth values, first to last. Where nothing is left it may be called again.
pub trait Flags: Iterator<Item = bool> + Rest<Shown = bool> {
    ghost use Rattle.std.specs.Prelude.{◌≡◌, []};
    ghost use Rattle.std.specs.Iterator.{YieldsFirst};

    ghost flags: { (s : Self) (r : _) (t : Self) → Self.next_gives s r t → YieldsFirst Self.rest s r t };

    ghost at_end: { (s : Self) → Self.rest s ≡ [] → Self.can_next s };
}

/// An iterator that gives its list of truth values from both ends. Where nothing is left it may be called again at each
/// end.
pub trait FlagsBack: Flags + DoubleEndedIterator {
    ghost use Rattle.std.specs.Prelude.{◌≡◌, []};
    ghost use Rattle.std.specs.Iterator.{YieldsLast};

    ghost flags_last: { (s : Self) (r : _) (t : Self) → Self.next_back_gives s r t → YieldsLast Self.rest s r t };

    ghost at_end_back: { (s : Self) → Self.rest s ≡ [] → Self.can_next_back s };
}

impl<'a> Rest for BitmapIter<'a> {
    ghost use Rattle.column_storage.specs.Iterators.{bits_left};

    type Shown = bool;

    ghost rest = { bits_left };
}

impl<'a> Listed for BitmapIter<'a> {
    ghost use Rattle.std.specs.Prelude.{refl};

    ghost shown = { λ bit. bit };

    ghost gives = { λ s r t given. given };

    ghost counted = { λ s. refl };

    ghost at_end = { λ s none. tt };
}

impl<'a> ListedBack for BitmapIter<'a> {
    ghost gives_last = { λ s r t given. given };

    ghost at_end_back = { λ s none. tt };
}

impl<'a> Flags for BitmapIter<'a> {
    ghost flags = { λ s r t given. given };

    ghost at_end = { λ s none. tt };
}

impl<'a> FlagsBack for BitmapIter<'a> {
    ghost flags_last = { λ s r t given. given };

    ghost at_end_back = { λ s none. tt };
}

impl<'a, A: Values> Rest for ArrayValuesIter<'a, A> {
    ghost use Rattle.column_storage.specs.Iterators.{values_left};

    type Shown = A::Shown;

    ghost rest = { values_left };
}

impl<'a, A: ArrayAccessor<'a>> Listed for ArrayValuesIter<'a, A> {
    ghost use Rattle.std.specs.Prelude.{refl};

    ghost shown = { A.shown };

    ghost gives = { λ s r t given. given };

    ghost counted = { λ s. refl };

    ghost at_end = { λ s none. tt };
}

impl<'a, A: ArrayAccessor<'a>> ListedBack for ArrayValuesIter<'a, A> {
    ghost gives_last = { λ s r t given. given };

    ghost at_end_back = { λ s none. tt };
}

impl<'a> Rest for TrueIdxIter<'a> {
    ghost use Rattle.column_storage.specs.Iterators.{places_left};

    type Shown = usize;

    ghost rest = { places_left };
}

impl<'a> Listed for TrueIdxIter<'a> {
    ghost use Rattle.std.specs.Prelude.{refl};

    ghost shown = { λ place. place };

    ghost gives = { λ s r t given. given };

    ghost counted = { λ s. refl };

    ghost at_end = { λ s none. tt };
}
