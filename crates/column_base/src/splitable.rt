//! Lists of slots that can be cut in two.

use crate::errors::PolarsError;
use std::alloc::Global;

/// A list of slots that can be cut in two, with both parts sharing the memory of the whole.
pub trait Splitable: Sized {
    ghost use Rattle.std.specs.Prelude.{◌≡◌, ℕ, ◌≤◌, nat_le, None};
    ghost use Rattle.column_base.specs.Answers.{Answers};

    // the number of slots
    ghost slot_count: { Self → ℕ };

    // the slots before a place
    ghost front: { Self → ℕ → Self };

    // the slots from a place on
    ghost back: { Self → ℕ → Self };

    /// Whether a cut at a place is one of the list: the place is at most the number of slots.
    fn check_bound(&self, offset: usize) -> bool
        ensures { result ≡ nat_le offset (slot_count self.now) };

    /// The slots before a place, and those from it on.
    ///
    /// Copies no slot. `NoMemory` where the parts cannot be shared.
    fn split_at(&self, alloc: Global, offset: usize) -> Result<(Self, Self), PolarsError>
        requires { offset ≤ slot_count self.now }
        ensures { Answers result None (λ parts. (parts.0 ≡ front self.now offset) × (parts.1 ≡ back self.now offset)) };

    /// The same as [`Splitable::split_at`].
    fn split_at_unchecked(&self, alloc: Global, offset: usize) -> Result<(Self, Self), PolarsError>
        requires { offset ≤ slot_count self.now }
        ensures { Answers result None (λ parts. (parts.0 ≡ front self.now offset) × (parts.1 ≡ back self.now offset)) }
    {
        self.split_at(alloc, offset)
    }
}
