//! Values that are shared among columns.

ghost use Rattle.std.specs.Prelude.{◌≡◌, ◌+◌, ◌≤◌, [], length, length as list_length, take, drop, None, IfOk, IfErr, ◌==◌};
ghost use Rattle.column_base.specs.Answers.{Answers};
ghost use Rattle.column_base.specs.Lists.{sublist};

use column_base::PolarsError;
use std::alloc::Global;
use std::marker::Model;
use std::rc::Rc;

/// A list of values that cannot be changed, semantically a `Vec<T>` whose clones and slices share their memory.
///
/// A slice or a share costs the same whatever its length. Arrow columnar format, "Buffers".
#[derive(Drop)]
pub struct Buffer<T: Copy> {
    storage: Rc<Vec<T>>,
    start: usize,
    len: usize,
}

impl<T: Copy> Model for Buffer<T> {
    ghost use Rattle.std.specs.Prelude.{◌+◌, ◌≤◌, List, length};
    ghost use Rattle.column_base.specs.Lists.{sublist};

    ghost Value = { List T };

    ghost view = { λ b. sublist b.storage.value.items b.start b.len };

    ghost invariant = { λ b. b.start + b.len ≤ length b.storage.value.items };
}

#[tactic(auto, using(column_base::proofs::ListsLemmas::sublists))]
impl<T: Copy> Buffer<T> {
    /// An empty list.
    ///
    /// Takes memory for the count of its owners. `NoMemory` where there is none.
    pub fn new(alloc: Global) -> Result<Self, PolarsError>
        ensures { Answers result None (λ b. b ≡ []) }
    {
        Buffer::from_vec(alloc, Vec::new(alloc))
    }

    /// The list of a vector, which is not copied.
    ///
    /// Takes memory for the count of its owners. `NoMemory` where there is none, and the vector is then dropped.
    pub fn from_vec(alloc: Global, values: Vec<T>) -> Result<Self, PolarsError>
        ensures { Answers result None (λ b. b ≡ values.items) }
    {
        let len = values.len();
        let storage = Rc::new(alloc, values)?;
        Ok(Buffer {
            storage,
            start: 0,
            len,
        })
    }

    /// The list of a vector, which is not copied. Where there is no memory for the count of its owners, the vector
    /// comes back as it was.
    pub fn from_vec_or_back(alloc: Global, values: Vec<T>) -> Result<Self, Vec<T>>
        ensures made { IfOk result (λ b. b ≡ values.items) }
        ensures back { IfErr result (λ v. v ≡ values) }
    {
        let len = values.len();
        match Rc::new(alloc, values) {
            Ok(storage) => Ok(Buffer {
                storage,
                start: 0,
                len,
            }),
            Err(refused) => Err(refused.value),
        }
    }

    /// The number of values.
    pub fn len(&self) -> usize
        ensures { result ≡ length self.now }
    {
        self.len
    }

    /// Whether there is no value.
    pub fn is_empty(&self) -> bool
        ensures { result ≡ (length self.now == 0) }
    {
        self.len == 0
    }

    /// The values as a slice.
    pub fn as_slice(&self) -> &[T]
        ensures { result.now ≡ self.now }
    {
        &self.storage[self.start..self.start + self.len]
    }

    /// Keeps the `length` values from place `offset` on. Takes no memory.
    pub fn slice(&mut self, offset: usize, length: usize)
        requires { offset + length ≤ list_length self.old }
        ensures { self.new ≡ sublist self.old offset length }
    {
        self.start += offset;
        self.len = length;
    }

    /// The `length` values from place `offset` on. Takes no memory.
    pub fn sliced(self, offset: usize, length: usize) -> Self
        requires { offset + length ≤ list_length self }
        ensures { result ≡ sublist self offset length }
    {
        let mut part = self;
        part.slice(offset, length);
        part
    }

    /// The same as [`Buffer::slice`].
    pub fn slice_unchecked(&mut self, offset: usize, length: usize)
        requires { offset + length ≤ list_length self.old }
        ensures { self.new ≡ sublist self.old offset length }
    {
        self.slice(offset, length);
    }

    /// The first `offset` values, and the rest. Both share the memory of this list.
    ///
    /// Copies no value and takes no memory. `NoMemory` where the count of owners is full.
    pub fn split_at(&self, alloc: Global, offset: usize) -> Result<(Self, Self), PolarsError>
        requires { offset ≤ length self.now }
        ensures { Answers result None (λ parts. (parts.0 ≡ take offset self.now) × (parts.1 ≡ drop offset self.now)) }
    {
        let first = self.try_clone(alloc)?.sliced(0, offset);
        let rest = self.try_clone(alloc)?.sliced(offset, self.len - offset);
        Ok((first, rest))
    }

    /// The list as a vector of its own, to be changed.
    ///
    /// The vector is kept where no other buffer shares it, and is copied otherwise. `NoMemory` where there is none
    /// for the copy.
    pub fn make_mut(self, alloc: Global) -> Result<Vec<T>, PolarsError>
        ensures { Answers result None (λ values. values.items ≡ self) }
    {
        let Buffer {
            storage,
            start,
            len,
        } = self;
        match Rc::try_unwrap(storage) {
            Ok(values) => Ok(kept_part(values, start, len)),
            Err(shared) => Ok(Vec::from_slice(alloc, &shared[start..start + len])?),
        }
    }

    /// The same list, which shares the memory of this one.
    ///
    /// Copies no value and takes no memory. `NoMemory` where the count of owners is full.
    pub fn try_clone(&self, alloc: Global) -> Result<Self, PolarsError>
        ensures { Answers result None (λ b. b ≡ self.now) }
    {
        let storage = self.storage.clone()?;
        Ok(Buffer {
            storage,
            start: self.start,
            len: self.len,
        })
    }
}

// The part of a vector from a place on, in the vector's own memory.
#[tactic(auto, using(crate::proofs::PartsLemmas::parts))]
fn kept_part<T: Copy>(mut values: Vec<T>, start: usize, len: usize) -> Vec<T>
    requires { start + len ≤ length values.items }
    ensures { result.items ≡ sublist values.items start len }
{
    values.truncate(start + len);
    drop(values.drain(..start));
    values
}
