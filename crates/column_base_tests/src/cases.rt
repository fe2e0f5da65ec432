//! A list that grows, and an iterator with any hint, for the tests.

ghost use Rattle.std.specs.Prelude.{◌≡◌, ◌++◌, ◌∷◌, [], nat_le, not, length, None, OnErr};
ghost use Rattle.column_base.specs.Answers.{Answers, cause_if};
ghost use Rattle.column_base.specs.declared.errors.Cause.TheVariants.{Overflow};

use column_base::{Cause, Growing, PolarsError, TryExtendFromSelf, TryPush};
use std::alloc::Global;
use std::marker::Model;

/// Digits in a row. A number past 9 is refused.
#[derive(Drop)]
pub struct Digits {
    digits: Vec<u8>,
}

impl Model for Digits {
    ghost use Rattle.std.specs.Prelude.{List, ℕ};

    ghost Value = { List ℕ };

    ghost view = { λ d. d.digits.items };
}

impl Digits {
    /// The digits of a slice, of which none is refused.
    pub fn of(alloc: Global, digits: &[u8]) -> Result<Self, PolarsError>
        ensures { Answers result None (λ made. made ≡ digits.now) }
    {
        Ok(Digits {
            digits: Vec::from_slice(alloc, digits)?,
        })
    }

    pub fn len(&self) -> usize
        ensures { result ≡ length self.now }
    {
        self.digits.len()
    }

    pub fn are(&self, wanted: &[u8]) -> bool {
        self.digits.as_slice() == wanted
    }
}

impl Growing for Digits {
    ghost use Rattle.std.specs.Prelude.{◌++◌, ◌∷◌, [], not, nat_le};
    ghost use Rattle.column_base.specs.Answers.{cause_if};
    ghost use Rattle.column_base.specs.declared.errors.Cause.TheVariants.{Overflow};

    // seen as the list of numbers
    type Lists = Digits;

    type Row = u8;

    ghost lists = { λ d. d };

    ghost growth = { record { fault = λ digits digit. cause_if (not (nat_le digit 9)) Overflow; pushed = λ digits digit. digits ++ digit ∷ [] } };
}

impl TryPush<u8> for Digits {
    ghost shown = { λ digit. digit };

    fn try_push(&mut self, item: u8) -> Result<(), PolarsError> {
        if item > 9 {
            return Err(Cause::Overflow.into());
        }
        self.digits.push(item)?;
        Ok(())
    }
}

impl TryExtendFromSelf for Digits {
    ghost use Rattle.std.specs.Prelude.{◌≤◌, ◌++◌, length, None};

    // the type's own condition: the digits that are added are no more than those that are there
    ghost fits = { λ digits others. length others ≤ length digits };

    ghost join_fault = { λ _ _. None };

    ghost joined = { λ digits others. digits ++ others };

    fn try_extend_from_self(&mut self, other: &Self) -> Result<(), PolarsError> {
        self.digits.extend_from_slice(&other.digits)?;
        Ok(())
    }
}

/// The items of a slice, one by one, whose least number is told as any: less than there are, or more.
#[derive(Drop)]
pub struct Hinted<'a, T: Copy> {
    pub items: &'a [T],
    pub least: usize,
}

impl<'a, T: Copy> Iterator for Hinted<'a, T> {
    ghost use Rattle.std.specs.Prelude.{◌+◌, length};
    ghost use Rattle.std.specs.Iterator.{YieldsFirst, at_most};

    type Item = T;

    ghost next_gives = { YieldsFirst (λ s. s.items.now) };

    ghost remaining = { λ s. at_most (length s.items.now + s.least) };

    fn next(&mut self) -> Option<T> {
        let (first, rest) = self.items.split_first()?;
        self.items = rest;
        Some(*first)
    }

    fn size_hint(&self) -> (usize, Option<usize>) {
        (self.least, None)
    }
}
