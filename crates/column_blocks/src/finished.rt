//! Finished buffers, and how many bytes they have together.

ghost use Rattle.std.specs.Prelude.{◌≡◌, ◌+◌, ◌*◌, ◌^◌, ◌<◌, ◌≤◌, ◌++◌, ◌∷◌, [], length, sum_by, None, OnErr, OnOk, IsOk};
ghost use Rattle.column_base.specs.Answers.{Answers};
ghost use Rattle.column_view.specs.Views.{buffer_at};

use column_base::PolarsError;
use column_storage::Buffer;
use std::alloc::Global;
use std::marker::Model;

/// Finished buffers of a builder. Their bytes are counted where they come in.
#[derive(Drop)]
pub(crate) struct FinishedBuffers {
    buffers: Vec<Buffer<u8>>,
    // the bytes of all of them together
    bytes: u128,
}

impl Model for FinishedBuffers {
    ghost use Rattle.std.specs.Prelude.{◌-◌};
    ghost use Rattle.std.specs.Vec.{vec_len, vec_capacity};
    ghost use Rattle.column_blocks.specs.Blocks.{GrowingBuffers, IsByteCount};

    ghost Value = { GrowingBuffers };

    ghost view = { λ f. record { buffers = f.buffers.items; spare = vec_capacity f.buffers - vec_len f.buffers } };

    ghost invariant = { λ f. IsByteCount f.buffers.items f.bytes };
}

impl FinishedBuffers {
    /// These buffers. One pass over them, not over their bytes. Takes no memory.
    pub(crate) fn of(buffers: Vec<Buffer<u8>>) -> Self
        ensures { result.buffers ≡ buffers.items }
    {
        let bytes = sum_of_lengths(&buffers);
        FinishedBuffers { buffers, bytes }
    }

    /// The number of buffers.
    pub(crate) fn len(&self) -> usize
        ensures { result ≡ length self.now.buffers }
    {
        self.buffers.len()
    }

    /// The bytes of all buffers together, in constant time.
    pub(crate) fn bytes(&self) -> u128
        ensures sum { result ≡ sum_by length self.now.buffers }
        ensures bound { result + 2 ^ 64 ≤ 2 ^ 128 }
    {
        let _count = self.buffers.len();
        self.bytes
    }

    /// The buffers as a slice.
    pub(crate) fn as_slice(&self) -> &[Buffer<u8>]
        ensures { result.now ≡ self.now.buffers }
    {
        &self.buffers
    }

    /// The buffer at place `i`.
    #[tactic(auto, using(column_view::proofs::ViewsLemmas::reading))]
    pub(crate) fn get(&self, i: usize) -> &[u8]
        requires { i < length self.now.buffers }
        ensures { result.now ≡ buffer_at self.now.buffers i }
    {
        self.buffers[i].as_slice()
    }

    /// Makes room for `additional` more buffers.
    ///
    /// `NoMemory` where there is none for them.
    pub(crate) fn reserve(&mut self, additional: usize) -> Result<(), PolarsError>
        ensures answer { Answers result None (λ _. additional ≤ self.new.spare) }
        ensures same { self.new.buffers ≡ self.old.buffers }
    {
        self.buffers.reserve(additional)?;
        Ok(())
    }

    /// Adds a buffer.
    ///
    /// `NoMemory` where there is none for its place, and never where there is room.
    pub(crate) fn push(&mut self, buffer: Buffer<u8>) -> Result<(), PolarsError>
        ensures answer { Answers result None (λ _. self.new.buffers ≡ self.old.buffers ++ buffer ∷ []) }
        ensures spare_serves { 0 < self.old.spare → IsOk result }
        ensures spare_left { OnOk result (self.old.spare ≤ self.new.spare + 1) }
        ensures unchanged { OnErr result (self.new.buffers ≡ self.old.buffers) }
    {
        let added = buffer.len() as u128;
        self.buffers.push(buffer)?;
        self.bytes += added;
        Ok(())
    }

    /// The same buffers, which share their memory.
    ///
    /// Copies no byte. `NoMemory` where there is none for the list, or where the count of a buffer's owners is full.
    pub(crate) fn try_clone(&self) -> Result<Self, PolarsError>
        ensures { Answers result None (λ f. f.buffers ≡ self.now.buffers) }
    {
        Ok(FinishedBuffers {
            buffers: shared(&self.buffers)?,
            bytes: self.bytes,
        })
    }

    /// The buffers as a vector. Takes no memory.
    pub(crate) fn into_vec(self) -> Vec<Buffer<u8>>
        ensures { result.items ≡ self.buffers }
    {
        let FinishedBuffers { buffers, bytes: _ } = self;
        buffers
    }
}

// The lengths of all buffers together.
#[tactic(auto, using(crate::proofs::SumsLemmas::sums))]
fn sum_of_lengths(buffers: &[Buffer<u8>]) -> u128
    ensures sum { result ≡ sum_by length buffers.now }
    ensures bound { result ≤ length buffers.now * 2 ^ 64 }
{
    let mut total = 0u128;
    for buffer in buffers {
        total += buffer.len() as u128;
    }
    total
}

// The buffers, each of which shares its memory.
fn shared(buffers: &Vec<Buffer<u8>>) -> Result<Vec<Buffer<u8>>, PolarsError>
    ensures { Answers result None (λ v. v.items ≡ buffers.now.items) }
{
    let alloc = *buffers.allocator();
    let mut all = Vec::with_capacity(alloc, buffers.len())?;
    for buffer in buffers {
        all.push(buffer.try_clone(alloc)?)?;
    }
    Ok(all)
}
