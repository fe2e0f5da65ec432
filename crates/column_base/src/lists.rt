//! Laws of parts of lists. Each is the contract of a call with an empty body.

ghost use Rattle.std.specs.Prelude.{◌≡◌, ℕ, ◌+◌, ◌<◌, ◌≤◌, ◌++◌, List, length, take, drop, slice_get};
ghost use Rattle.column_base.specs.Lists.{sublist};

/// Law of slices: element `i` of a slice is the element as many places after the slice's first.
pub fn slice_reads<T>()
    ensures { (xs : List T) (from n i : ℕ) → i < n → slice_get (sublist xs from n) i ≡ slice_get xs (from + i) }
{}

/// Law of slices: a slice of a slice is one slice.
#[tactic(auto, using(crate::proofs::ListsLemmas::sublists))]
pub fn slices_are_one<T>()
    ensures { (xs : List T) (from n start m : ℕ) → start + m ≤ n
        → sublist (sublist xs from n) start m ≡ sublist xs (from + start) m }
{}

/// Law of slices: the front and the back of a split are the whole.
pub fn split_is_whole<T>()
    ensures { (xs : List T) (place : ℕ) → take place xs ++ drop place xs ≡ xs }
{}
