//! Truth values that grow.

ghost use Rattle.std.specs.Prelude.{◌≡◌, ◌+◌, ◌<◌, ◌≤◌, ◌==◌, ◌++◌, ◌∷◌, [], not, true, length, take, replicate, None, Some, IsOk, OnErr, OnOk, MatchOption, count_by, slice_get, slice_set};
ghost use Rattle.column_base.specs.Answers.{Answers};
ghost use Rattle.column_storage.specs.Bits.{kept_flags};
ghost use Rattle.column_storage.specs.Iterators.{bits_left};

use crate::bitmap::{Bitmap, unset_of_one_value, unset_of_part};
use crate::bitmap_iter::BitmapIter;
use column_base::{Growing, PolarsError, TryExtendFromSelf, TryPush};
use std::alloc::Global;
use std::marker::Model;

/// A list of truth values that grows, semantically a `Vec<bool>`.
///
/// It keeps its allocator, and the number of its bits that are not set. A refused call leaves the list as it was, and at
/// least the room that there was.
#[derive(Drop)]
pub struct MutableBitmap {
    values: Vec<bool>,
    unset: usize,
}

impl Model for MutableBitmap {
    ghost use Rattle.std.specs.Prelude.{◌≡◌, ◌-◌, not, count_by};
    ghost use Rattle.std.specs.Vec.{vec_len, vec_capacity};
    ghost use Rattle.column_storage.specs.Bits.{GrowingBits};

    ghost Value = { GrowingBits };

    ghost view = { λ m. record { bits = m.values.items; spare = vec_capacity m.values - vec_len m.values } };

    ghost invariant = { λ m. m.unset ≡ count_by not m.values.items };
}

impl MutableBitmap {
    /// An empty list, which keeps the allocator. Takes no memory.
    pub fn new(alloc: Global) -> Self
        ensures { result.bits ≡ [] }
    {
        MutableBitmap {
            values: Vec::new(alloc),
            unset: 0,
        }
    }

    /// An empty list with room for `capacity` bits.
    ///
    /// `NoMemory` where there is none for them.
    pub fn with_capacity(alloc: Global, capacity: usize) -> Result<Self, PolarsError>
        ensures { Answers result None (λ m. (m.bits ≡ []) × (capacity ≤ m.spare)) }
    {
        let values = Vec::with_capacity(alloc, capacity)?;
        Ok(MutableBitmap { values, unset: 0 })
    }

    /// `length` bits that are set.
    ///
    /// `NoMemory` where there is none for them.
    #[tactic(auto, using(crate::proofs::CountsLemmas::counts))]
    pub fn from_len_set(alloc: Global, length: usize) -> Result<Self, PolarsError>
        ensures { Answers result None (λ m. m.bits ≡ replicate length true) }
    {
        let values = vec![in alloc; true; length]?;
        Ok(MutableBitmap { values, unset: 0 })
    }

    // The list of a vector of which `unset` bits are not set. The vector is not copied.
    pub(crate) fn from_counted(values: Vec<bool>, unset: usize) -> Self
        requires { unset ≡ count_by not values.items }
        ensures { result.bits ≡ values.items }
    {
        MutableBitmap { values, unset }
    }

    /// Makes room for `additional` more bits.
    ///
    /// `NoMemory` where there is none for them, and never where the room is there.
    pub fn reserve(&mut self, additional: usize) -> Result<(), PolarsError>
        ensures answer { Answers result None (λ _. (self.new.bits ≡ self.old.bits) × (additional ≤ self.new.spare)) }
        ensures spare_serves { additional ≤ self.old.spare → IsOk result }
        ensures spare_kept { self.old.spare ≤ self.new.spare }
        ensures unchanged { OnErr result (self.new ≡ self.old) }
    {
        self.values.reserve(additional)?;
        Ok(())
    }

    /// Adds a bit at the end.
    ///
    /// `NoMemory` where there is none for it, and never where there is room.
    #[tactic(auto, using(crate::proofs::CountsLemmas::growing_counts))]
    pub fn push(&mut self, value: bool) -> Result<(), PolarsError>
        ensures answer { Answers result None (λ _. self.new.bits ≡ self.old.bits ++ value ∷ []) }
        ensures spare_serves { 0 < self.old.spare → IsOk result }
        ensures spare_left { OnOk result (self.old.spare ≤ self.new.spare + 1) }
        ensures unchanged { OnErr result (self.new.bits ≡ self.old.bits) }
        ensures spare_kept { OnErr result (self.old.spare ≤ self.new.spare) }
    {
        self.values.push(value)?;
        self.unset += unset_of_one_value(value, 1);
        Ok(())
    }

    /// Takes the last bit, `None` where there is none.
    #[tactic(auto, using(crate::proofs::CountsLemmas::growing_counts))]
    pub fn pop(&mut self) -> Option<bool>
        ensures bits { MatchOption result ((self.old.bits ≡ []) × (self.new.bits ≡ [])) (λ bit. self.old.bits ≡ self.new.bits ++ bit ∷ []) }
        ensures spare { self.old.spare ≤ self.new.spare }
    {
        let bit = self.values.pop()?;
        self.unset -= unset_of_one_value(bit, 1);
        Some(bit)
    }

    /// Adds `additional` bits of one value at the end.
    ///
    /// `NoMemory` where there is none for them, and never where there is room.
    #[tactic(auto, using(crate::proofs::CountsLemmas::growing_counts))]
    pub fn extend_constant(&mut self, additional: usize, value: bool) -> Result<(), PolarsError>
        ensures answer { Answers result None (λ _. self.new.bits ≡ self.old.bits ++ replicate additional value) }
        ensures spare_serves { additional ≤ self.old.spare → IsOk result }
        ensures spare_left { OnOk result (self.old.spare ≤ self.new.spare + additional) }
        ensures unchanged { OnErr result (self.new ≡ self.old) }
    {
        self.reserve(additional)?;
        let len = self.values.len() + additional;
        self.values.resize(len, value)?;
        self.unset += unset_of_one_value(value, additional);
        Ok(())
    }

    /// Adds the bits of another list at the end.
    ///
    /// `NoMemory` where there is none for them, and never where there is room.
    #[tactic(auto, using(crate::proofs::CountsLemmas::growing_counts))]
    pub fn try_extend_from_self(&mut self, other: &Self) -> Result<(), PolarsError>
        ensures answer { Answers result None (λ _. self.new.bits ≡ self.old.bits ++ other.now.bits) }
        ensures spare_serves { length other.now.bits ≤ self.old.spare → IsOk result }
        ensures spare_left { OnOk result (self.old.spare ≤ self.new.spare + length other.now.bits) }
        ensures unchanged { OnErr result (self.new ≡ self.old) }
    {
        self.reserve(other.len())?;
        self.values.extend_from_slice(&other.values)?;
        self.unset += other.unset;
        Ok(())
    }

    /// Keeps the first `len` bits, or all where there are no more.
    ///
    /// Counts the unset bits of the smaller of the part kept and the part cut off, and none where no bit is unset.
    pub fn truncate(&mut self, len: usize)
        ensures bits { self.new.bits ≡ take len self.old.bits }
        ensures spare { self.old.spare ≤ self.new.spare }
    {
        if len < self.values.len() {
            self.unset = unset_of_part(&self.values, self.unset, 0, len);
            self.values.truncate(len);
        }
    }

    /// Gives the bit at place `i` another value.
    #[tactic(auto, using(crate::proofs::CountsLemmas::growing_counts))]
    pub fn set(&mut self, i: usize, value: bool)
        requires { i < length self.old.bits }
        ensures { self.new ≡ record self.old { bits = slice_set self.old.bits i value } }
    {
        let was = self.values[i];
        self.values[i] = value;
        self.unset = self.unset - unset_of_one_value(was, 1) + unset_of_one_value(value, 1);
    }

    /// The bit at place `i`.
    pub fn get(&self, i: usize) -> bool
        requires { i < length self.now.bits }
        ensures { slice_get self.now.bits i ≡ Some result }
    {
        self.values[i]
    }

    /// The number of bits.
    pub fn len(&self) -> usize
        ensures { result ≡ length self.now.bits }
    {
        self.values.len()
    }

    /// The number of bits for which there is room, those that are there among them.
    pub fn capacity(&self) -> usize
        ensures { result ≡ length self.now.bits + self.now.spare }
    {
        self.values.capacity()
    }

    /// Whether there is no bit.
    pub fn is_empty(&self) -> bool
        ensures { result ≡ (length self.now.bits == 0) }
    {
        self.values.is_empty()
    }

    /// The number of bits that are set, in constant time.
    #[tactic(auto, using(crate::proofs::CountsLemmas::counts))]
    pub fn set_bits(&self) -> usize
        ensures { result ≡ count_by (λ b. b) self.now.bits }
    {
        self.values.len() - self.unset
    }

    /// The number of bits that are not set, in constant time.
    pub fn unset_bits(&self) -> usize
        ensures { result ≡ count_by not self.now.bits }
    {
        self.unset
    }

    /// The bits one by one, from both ends.
    pub fn iter(&self) -> BitmapIter<'_>
        ensures { bits_left result ≡ self.now.bits }
    {
        BitmapIter::new(self.values.as_slice())
    }

    /// Gives back room that is not used.
    pub fn shrink_to_fit(&mut self)
        ensures bits { self.new.bits ≡ self.old.bits }
        ensures spare { self.new.spare ≤ self.old.spare }
    {
        self.values.shrink_to_fit();
    }

    /// The list as a bitmap, whose bits are not copied, in constant time.
    ///
    /// Takes memory for the count of its owners. `NoMemory` where there is none.
    pub fn freeze(self) -> Result<Bitmap, PolarsError>
        ensures { Answers result None (λ b. b ≡ self.bits) }
    {
        let alloc = *self.values.allocator();
        Bitmap::from_counted(alloc, self.values, self.unset)
    }

    /// The list as a validity, `None` exactly where no bit is unset, in constant time.
    ///
    /// Takes memory for the count of its owners. `NoMemory` where there is none. Arrow columnar format, "Validity bitmaps".
    pub fn into_opt_validity(self) -> Result<Option<Bitmap>, PolarsError>
        ensures { Answers result None (λ validity. validity ≡ kept_flags self.bits) }
    {
        if self.unset == 0 {
            return Ok(None);
        }
        Ok(Some(self.freeze()?))
    }

    /// A copy of the list.
    ///
    /// `NoMemory` where there is none for it.
    pub fn try_clone(&self) -> Result<Self, PolarsError>
        ensures { Answers result None (λ m. m.bits ≡ self.now.bits) }
    {
        let values = Vec::from_slice(*self.values.allocator(), &self.values)?;
        Ok(MutableBitmap {
            values,
            unset: self.unset,
        })
    }
}

impl Growing for MutableBitmap {
    ghost use Rattle.column_storage.specs.Bits.{bit_growth};

    // seen as the list of bits
    type Lists = Bitmap;

    type Row = bool;

    ghost lists = { λ m. m.bits };

    ghost growth = { bit_growth };
}

impl TryPush<bool> for MutableBitmap {
    ghost shown = { λ bit. bit };

    fn try_push(&mut self, item: bool) -> Result<(), PolarsError> {
        self.push(item)
    }
}

impl TryExtendFromSelf for MutableBitmap {
    ghost use Rattle.std.specs.Prelude.{⊤, ◌++◌, None};

    ghost fits = { λ _ _. ⊤ };

    ghost join_fault = { λ _ _. None };

    ghost joined = { λ bits others. bits ++ others };

    fn try_extend_from_self(&mut self, other: &Self) -> Result<(), PolarsError> {
        MutableBitmap::try_extend_from_self(self, other)
    }
}
