//! Shared lists of byte buffers.

ghost use Rattle.std.specs.Prelude.{◌≡◌, ◌≤◌, ◌<◌, ◌==◌, [], length, None, Some, slice_get, sum_by};
ghost use Rattle.column_base.specs.Answers.{Answers};

use crate::buffer::Buffer;
use column_base::PolarsError;
use std::alloc::Global;
use std::marker::Model;
use std::rc::Rc;

/// The greatest number of buffers that [`DataBuffers`] holds.
pub const MAX_BUFFERS: usize = 2_147_483_647;

/// The buffers that views name by their place, semantically a `Vec<Vec<u8>>` whose clones share their memory.
///
/// There are at most [`MAX_BUFFERS`] of them. Arrow columnar format, "Variable-size Binary View Layout".
#[derive(Drop)]
pub struct DataBuffers {
    buffers: Rc<Vec<Buffer<u8>>>,
}

impl Model for DataBuffers {
    ghost use Rattle.std.specs.Prelude.{ℕ, ◌≤◌, List, length};
    ghost use Rattle.column_storage.specs.declared.data_buffers.TheConstants.{MAX_BUFFERS};

    ghost Value = { List (List ℕ) };

    ghost view = { λ d. d.buffers.value.items };

    ghost invariant = { λ d. length d.buffers.value.items ≤ MAX_BUFFERS };
}

impl DataBuffers {
    /// The list of a vector, which is not copied.
    ///
    /// Takes memory for the count of its owners. `NoMemory` where there is none, and the vector is then dropped.
    pub fn from_vec(alloc: Global, buffers: Vec<Buffer<u8>>) -> Result<Self, PolarsError>
        requires { length buffers.items ≤ MAX_BUFFERS }
        ensures { Answers result None (λ d. d ≡ buffers.items) }
    {
        let buffers = Rc::new(alloc, buffers)?;
        Ok(DataBuffers { buffers })
    }

    /// No buffers.
    ///
    /// Takes memory for the count of its owners. `NoMemory` where there is none.
    pub fn empty(alloc: Global) -> Result<Self, PolarsError>
        ensures { Answers result None (λ d. d ≡ []) }
    {
        DataBuffers::from_vec(alloc, Vec::new(alloc))
    }

    /// The number of buffers.
    pub fn len(&self) -> usize
        ensures { result ≡ length self.now }
    {
        self.buffers.len()
    }

    /// Tells proofs that there are at most [`MAX_BUFFERS`].
    pub fn known(&self)
        ensures { length self.now ≤ MAX_BUFFERS }
    {
        let _ = &self.buffers;
    }

    /// Whether there is no buffer.
    pub fn is_empty(&self) -> bool
        ensures { result ≡ (length self.now == 0) }
    {
        self.buffers.is_empty()
    }

    /// The buffer at place `i`.
    pub fn get(&self, i: usize) -> &Buffer<u8>
        requires { i < length self.now }
        ensures { slice_get self.now i ≡ Some result.now }
    {
        &self.buffers[i]
    }

    /// The number of bytes of all buffers together, in time linear in the number of buffers.
    #[tactic(auto, using(crate::proofs::PartsLemmas::sums))]
    pub fn total_len(&self) -> u128
        ensures { result ≡ sum_by length self.now }
    {
        let mut total = 0u128;
        for buffer in self.buffers.iter() {
            total += buffer.len() as u128;
        }
        total
    }

    /// The buffers as a vector, each of which shares its memory.
    ///
    /// Copies no byte. `NoMemory` where there is none for the vector, or where the count of a buffer's owners is full.
    pub fn to_vec(&self, alloc: Global) -> Result<Vec<Buffer<u8>>, PolarsError>
        ensures { Answers result None (λ v. v.items ≡ self.now) }
    {
        let mut buffers = Vec::with_capacity(alloc, self.buffers.len())?;
        for buffer in self.buffers.iter() {
            buffers.push(buffer.try_clone(alloc)?)?;
        }
        Ok(buffers)
    }

    /// The same list, which shares the memory of this one.
    ///
    /// Copies no buffer and takes no memory. `NoMemory` where the count of owners is full.
    pub fn try_clone(&self, alloc: Global) -> Result<Self, PolarsError>
        ensures { Answers result None (λ d. d ≡ self.now) }
    {
        let buffers = self.buffers.clone()?;
        Ok(DataBuffers { buffers })
    }
}
