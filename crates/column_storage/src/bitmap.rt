//! Truth values that are shared among columns.

ghost use Rattle.std.specs.Prelude.{◌≡◌, ◌+◌, ◌<◌, ◌≤◌, ◌==◌, not, false, length, length as list_length, replicate, take, drop, None, Some, count_by, slice_get};
ghost use Rattle.column_base.specs.Answers.{Answers};
ghost use Rattle.column_base.specs.Lists.{sublist};
ghost use Rattle.column_storage.specs.Iterators.{bits_left};

use crate::bitmap_iter::BitmapIter;
use crate::buffer::Buffer;
use crate::mutable_bitmap::MutableBitmap;
use column_base::PolarsError;
use std::alloc::Global;
use std::marker::Model;

/// A list of truth values that cannot be changed, semantically a `Vec<bool>` whose clones and slices share their
/// memory.
///
/// It keeps the number of its bits that are not set. A share takes constant time. A slice reads no more bits than it
/// cuts off, so that a chain of slices reads no more bits than the first list has. Arrow columnar format, "Validity
/// bitmaps".
#[derive(Drop)]
pub struct Bitmap {
    bits: Buffer<bool>,
    unset: usize,
}

impl Model for Bitmap {
    ghost use Rattle.std.specs.Prelude.{◌≡◌, Bool, List, not, count_by};

    ghost Value = { List Bool };

    ghost view = { λ b. b.bits };

    ghost invariant = { λ b. b.unset ≡ count_by not b.bits };
}

impl Bitmap {
    /// The list of a slice, in one copy and one pass.
    ///
    /// `NoMemory` where there is none for the copy.
    pub fn from_bools(alloc: Global, bits: &[bool]) -> Result<Self, PolarsError>
        ensures { Answers result None (λ b. b ≡ bits.now) }
    {
        let bits = Vec::from_slice(alloc, bits)?;
        Bitmap::from_vec(alloc, bits)
    }

    /// The list of a vector, which is not copied.
    ///
    /// Counts the bits that are not set, in one pass. Takes memory for the count of its owners. `NoMemory` where there
    /// is none, and the vector is then dropped.
    pub fn from_vec(alloc: Global, bits: Vec<bool>) -> Result<Self, PolarsError>
        ensures { Answers result None (λ b. b ≡ bits.items) }
    {
        let unset = count_unset(&bits);
        Bitmap::from_counted(alloc, bits, unset)
    }

    // The list of a vector of which `unset` bits are not set.
    pub(crate) fn from_counted(
        alloc: Global,
        bits: Vec<bool>,
        unset: usize,
    ) -> Result<Self, PolarsError>
        requires { unset ≡ count_by not bits.items }
        ensures { Answers result None (λ b. b ≡ bits.items) }
    {
        let bits = Buffer::from_vec(alloc, bits)?;
        Ok(Bitmap { bits, unset })
    }

    /// `length` bits that are not set.
    ///
    /// `NoMemory` where there is none for them.
    pub fn new_zeroed(alloc: Global, length: usize) -> Result<Self, PolarsError>
        ensures { Answers result None (λ b. b ≡ replicate length false) }
    {
        Bitmap::new_with_value(alloc, false, length)
    }

    /// `length` bits of one value.
    ///
    /// `NoMemory` where there is none for them.
    pub fn new_with_value(alloc: Global, value: bool, length: usize) -> Result<Self, PolarsError>
        ensures { Answers result None (λ b. b ≡ replicate length value) }
    {
        let bits = vec![in alloc; value; length]?;
        Bitmap::from_counted(alloc, bits, unset_of_one_value(value, length))
    }

    /// The number of bits.
    pub fn len(&self) -> usize
        ensures { result ≡ length self.now }
    {
        self.bits.len()
    }

    /// Whether there is no bit.
    pub fn is_empty(&self) -> bool
        ensures { result ≡ (length self.now == 0) }
    {
        self.bits.is_empty()
    }

    /// The bit at place `i`.
    pub fn get_bit(&self, i: usize) -> bool
        requires { i < length self.now }
        ensures { slice_get self.now i ≡ Some result }
    {
        self.bits.as_slice()[i]
    }

    /// The number of bits that are set, in constant time.
    #[tactic(auto, using(crate::proofs::CountsLemmas::counts))]
    pub fn set_bits(&self) -> usize
        ensures { result ≡ count_by (λ b. b) self.now }
    {
        self.bits.len() - self.unset
    }

    /// The number of bits that are not set, in constant time.
    pub fn unset_bits(&self) -> usize
        ensures { result ≡ count_by not self.now }
    {
        self.unset
    }

    /// Tells proofs that no more bits are not set than there are.
    #[tactic(auto, using(crate::proofs::CountsLemmas::counts))]
    pub fn known(&self)
        ensures { count_by not self.now ≤ length self.now }
    {}

    /// The bits one by one, from both ends.
    pub fn iter(&self) -> BitmapIter<'_>
        ensures { bits_left result ≡ self.now }
    {
        BitmapIter::new(self.bits.as_slice())
    }

    /// Keeps the `length` bits from place `offset` on.
    ///
    /// Takes no memory. Counts the unset bits of the smaller of the part kept and the parts cut off, and none where no
    /// bit is unset.
    pub fn slice(&mut self, offset: usize, length: usize)
        requires { offset + length ≤ list_length self.old }
        ensures { self.new ≡ sublist self.old offset length }
    {
        let unset = unset_of_part(self.bits.as_slice(), self.unset, offset, length);
        self.bits.slice(offset, length);
        self.unset = unset;
    }

    /// The `length` bits from place `offset` on.
    ///
    /// Takes no memory, and counts as [`Bitmap::slice`] does.
    pub fn sliced(self, offset: usize, length: usize) -> Self
        requires { offset + length ≤ list_length self }
        ensures { result ≡ sublist self offset length }
    {
        let mut part = self;
        part.slice(offset, length);
        part
    }

    /// The same as [`Bitmap::slice`].
    pub fn slice_unchecked(&mut self, offset: usize, length: usize)
        requires { offset + length ≤ list_length self.old }
        ensures { self.new ≡ sublist self.old offset length }
    {
        self.slice(offset, length);
    }

    /// The same as [`Bitmap::sliced`].
    pub fn sliced_unchecked(self, offset: usize, length: usize) -> Self
        requires { offset + length ≤ list_length self }
        ensures { result ≡ sublist self offset length }
    {
        self.sliced(offset, length)
    }

    /// The first `offset` bits, and the rest. Both share the memory of this list.
    ///
    /// Copies no bit and takes no memory. Counts the unset bits of the smaller of the two, and none where no bit is
    /// unset. `NoMemory` where the count of owners is full.
    #[tactic(auto, using(crate::proofs::CountsLemmas::counts))]
    pub fn split_at(&self, alloc: Global, offset: usize) -> Result<(Self, Self), PolarsError>
        requires { offset ≤ length self.now }
        ensures { Answers result None (λ parts. (parts.0 ≡ take offset self.now) × (parts.1 ≡ drop offset self.now)) }
    {
        let unset = unset_of_part(self.bits.as_slice(), self.unset, 0, offset);
        let (first, rest) = self.bits.split_at(alloc, offset)?;
        let first = Bitmap { bits: first, unset };
        let rest = Bitmap {
            bits: rest,
            unset: self.unset - unset,
        };
        Ok((first, rest))
    }

    /// The list as a builder, to be changed.
    ///
    /// The memory is kept where no other bitmap shares it, and is copied otherwise. `NoMemory` where there is none
    /// for the copy.
    pub fn make_mut(self, alloc: Global) -> Result<MutableBitmap, PolarsError>
        ensures { Answers result None (λ m. m.bits ≡ self) }
    {
        let unset = self.unset;
        let bits = self.bits.make_mut(alloc)?;
        Ok(MutableBitmap::from_counted(bits, unset))
    }

    /// The same list, which shares the memory of this one.
    ///
    /// Copies no bit and takes no memory. `NoMemory` where the count of owners is full.
    pub fn try_clone(&self, alloc: Global) -> Result<Self, PolarsError>
        ensures { Answers result None (λ b. b ≡ self.now) }
    {
        let bits = self.bits.try_clone(alloc)?;
        Ok(Bitmap {
            bits,
            unset: self.unset,
        })
    }
}

// The number of bits that are not set, in one pass without branches.
fn count_unset(bits: &[bool]) -> usize
    ensures { result ≡ count_by not bits.now }
{
    let mut unset = 0;
    for bit in bits {
        unset += usize::from(!*bit);
    }
    unset
}

// The number of bits that are not set among `length` bits of one value.
#[tactic(auto, using(crate::proofs::CountsLemmas::counts))]
pub(crate) fn unset_of_one_value(value: bool, length: usize) -> usize
    ensures { result ≡ count_by not (replicate length value) }
{
    if value { 0 } else { length }
}

// The number of bits that are not set among the `length` ones from place `offset` on, where `unset` of all are not
// set. Reads the smaller of this part and the two beside it.
#[tactic(auto, using(crate::proofs::CountsLemmas::counts))]
pub(crate) fn unset_of_part(bits: &[bool], unset: usize, offset: usize, length: usize) -> usize
    requires within { offset + length ≤ list_length bits.now }
    requires counted { unset ≡ count_by not bits.now }
    ensures { result ≡ count_by not (sublist bits.now offset length) }
{
    if unset == 0 {
        return 0;
    }
    let end = offset + length;
    if length <= bits.len() - length {
        return count_unset(&bits[offset..end]);
    }
    unset - count_unset(&bits[..offset]) - count_unset(&bits[end..])
}
