//! The bytes behind the views of a builder.

ghost use Rattle.std.specs.Prelude.{◌≡◌, ◌+◌, ◌^◌, ◌<◌, ◌≤◌, ◌==◌, [], not, length, None, OnErr, OnOk};
ghost use Rattle.column_base.specs.Answers.{Answers};
ghost use Rattle.column_view.specs.Views.{view_length, view_content, long_content, buffer_at};
ghost use Rattle.column_view.specs.ViewFaults.{layout_fault};
ghost use Rattle.column_blocks.specs.Blocks.{byte_blocks, blocks_of, buffers_of, block_bytes, room_for, written, block_finished, buffer_pushed, full_fault, stored, stored_view, store_fault, AreSoundBlocks};

use crate::finished::FinishedBuffers;
use column_base::{Cause, PolarsError};
use column_storage::{Buffer, MAX_BUFFERS};
use column_view::View;
use std::alloc::Global;
use std::marker::Model;
use std::mem;

/// The least room of a block, in bytes.
pub const DEFAULT_BLOCK_SIZE: usize = 8_192;

/// The greatest room of a block, in bytes, unless one value needs more.
pub const MAX_EXP_BLOCK_SIZE: usize = 16_777_216;

/// The buffers that the views of a builder name: finished ones, and a block in progress after them.
///
/// The bytes of a value go to the end of the block where they have room there, and else begin a new block, whose room is
/// twice that of the one before, between [`DEFAULT_BLOCK_SIZE`] and [`MAX_EXP_BLOCK_SIZE`], and at least the value's
/// length. An empty block is never finished. Bytes never move from one buffer to another, and a refused call leaves the
/// blocks as they were.
#[derive(Drop)]
pub struct Blocks {
    finished: FinishedBuffers,
    block: Vec<u8>,
    room: usize,
}

impl Model for Blocks {
    ghost use Rattle.column_blocks.specs.Blocks.{ByteBlocks, byte_blocks, AreSoundBlocks};

    ghost Value = { ByteBlocks };

    ghost view = { λ b. byte_blocks b.finished.buffers b.block.items b.room };

    ghost invariant = { λ b. AreSoundBlocks (byte_blocks b.finished.buffers b.block.items b.room) };
}

// ---- constructors and readers

#[tactic(auto, unfolding(crate::specs::Blocks::buffers_of))]
impl Blocks {
    /// No buffers. Takes no memory.
    pub fn new(alloc: Global) -> Self
        ensures { result ≡ blocks_of [] }
    {
        Blocks {
            finished: FinishedBuffers::of(Vec::new(alloc)),
            block: Vec::new(alloc),
            room: 0,
        }
    }

    /// These finished buffers, and no block in progress. One pass over the buffers, not over their bytes. Takes no memory.
    pub fn from_buffers(buffers: Vec<Buffer<u8>>) -> Self
        requires { length buffers.items ≤ MAX_BUFFERS }
        ensures { result ≡ blocks_of buffers.items }
    {
        let alloc = *buffers.allocator();
        Blocks {
            finished: FinishedBuffers::of(buffers),
            block: Vec::new(alloc),
            room: 0,
        }
    }

    /// A copy, whose finished buffers share the memory of these.
    ///
    /// Copies the bytes of the block in progress. `NoMemory` where there is none for the lists, or where the count of a
    /// buffer's owners is full.
    pub fn try_clone(&self) -> Result<Self, PolarsError>
        ensures { Answers result None (λ b. b ≡ self.now) }
    {
        let finished = self.finished.try_clone()?;
        let mut block = Vec::with_capacity(*self.block.allocator(), self.room)?;
        block.extend_from_slice(&self.block)?;
        Ok(Blocks {
            finished,
            block,
            room: self.room,
        })
    }

    /// Tells proofs that the block lies within its room, that the room is below 2 ^ 32, and that there are at most
    /// [`MAX_BUFFERS`] buffers.
    pub fn known(&self)
        ensures { AreSoundBlocks self.now }
    {
        let _ = &self.block;
    }

    /// The allocator of the blocks.
    pub fn allocator(&self) -> Global {
        *self.block.allocator()
    }

    /// The number of buffers, the block among them where it is not empty.
    #[tactic(auto, using(crate::proofs::BlocksLemmas::counting))]
    pub fn len(&self) -> usize
        ensures { result ≡ length (buffers_of self.now) }
    {
        self.finished.len() + usize::from(!self.block.is_empty())
    }

    /// The finished buffers.
    pub fn completed_buffers(&self) -> &[Buffer<u8>]
        ensures { result.now ≡ self.now.finished }
    {
        self.finished.as_slice()
    }

    /// The bytes of all buffers together, the block among them, in constant time.
    #[tactic(auto, using(crate::proofs::BlocksLemmas::sums))]
    pub fn total_buffer_len(&self) -> u128
        ensures { result ≡ block_bytes self.now }
    {
        self.finished.bytes() + self.block.len() as u128
    }

    /// The buffer at place `i`, where the block is the last if it is not empty.
    #[tactic(auto, using(crate::proofs::BlocksLemmas::places))]
    pub fn get(&self, i: usize) -> &[u8]
        requires { i < length (buffers_of self.now) }
        ensures { result.now ≡ buffer_at (buffers_of self.now) i }
    {
        if i < self.finished.len() {
            self.finished.get(i)
        } else {
            &self.block
        }
    }

    /// What a view says over these buffers.
    #[tactic(auto, unfolding(column_view::specs::Views::view_content))]
    pub fn value_from_view_unchecked<'a>(&'a self, view: &'a View) -> &'a [u8]
        requires { layout_fault view.now (buffers_of self.now) ≡ None }
        ensures { result.now ≡ view_content view.now (buffers_of self.now) }
    {
        if view.is_long() {
            self.long_value(view)
        } else {
            view.get_inlined_slice_unchecked()
        }
    }

    // The range of a buffer that a long view names.
    #[tactic(auto, using(column_view::proofs::ViewsLemmas::reading))]
    fn long_value(&self, view: &View) -> &[u8]
        requires long { 12 < view_length view.now }
        requires sound { layout_fault view.now (buffers_of self.now) ≡ None }
        ensures { result.now ≡ long_content view.now (buffers_of self.now) }
    {
        let start = view.offset() as usize;
        let end = start + view.length() as usize;
        &self.get(view.buffer_idx() as usize)[start..end]
    }
}

// ---- changes

#[tactic(auto, unfolding(crate::specs::Blocks::buffers_of))]
impl Blocks {
    /// Finishes the block where it is not empty, and says whether it was not. No block is in progress then.
    ///
    /// `NoMemory` where there is none for the buffer.
    pub fn finish_in_progress(&mut self) -> Result<bool, PolarsError>
        ensures answer { Answers result None (λ finished. (finished ≡ not (length self.old.block == 0)) × (self.new ≡ block_finished self.old)) }
        ensures unchanged { OnErr result (self.new ≡ self.old) }
    {
        let was_there = finish_block(&mut self.finished, &mut self.block, 0)?;
        self.room = 0;
        Ok(was_there)
    }

    /// Finishes the block where it is not empty, adds a finished buffer, and says at which place it is.
    ///
    /// `Overflow` where there are [`MAX_BUFFERS`] buffers, then `NoMemory` where there is none for the buffer.
    #[tactic(auto, using(crate::proofs::BlocksLemmas::counting), unfolding(crate::specs::Blocks::buffers_of))]
    pub fn push_buffer(&mut self, buffer: Buffer<u8>) -> Result<u32, PolarsError>
        ensures answer { Answers result (full_fault self.old) (λ place. (place ≡ length (buffers_of self.old)) × (self.new ≡ buffer_pushed self.old buffer)) }
        ensures unchanged { OnErr result (self.new ≡ self.old) }
    {
        let place = self.len();
        if place >= MAX_BUFFERS {
            return Err(Cause::Overflow.into());
        }
        finish_block(&mut self.finished, &mut self.block, 1)?;
        self.finished.push(buffer)?;
        self.room = 0;
        Ok(place as u32)
    }

    /// The buffers, the block after the finished ones where it is not empty.
    ///
    /// `NoMemory` where there is none for the last buffer.
    pub fn into_buffers(self) -> Result<Vec<Buffer<u8>>, PolarsError>
        ensures { Answers result None (λ buffers. buffers.items ≡ buffers_of self) }
    {
        let mut blocks = self;
        blocks.finish_in_progress()?;
        let Blocks {
            finished,
            block: _,
            room: _,
        } = blocks;
        Ok(finished.into_vec())
    }

    /// The view of a value, whose bytes are written to a block where they are more than 12.
    ///
    /// `Overflow` where the value has 2 ^ 32 bytes or more, or has more than 12 where there are [`MAX_BUFFERS`] buffers;
    /// then `NoMemory` where there is none for the bytes. A value of at most 12 bytes is never refused.
    #[tactic(auto, using(crate::proofs::BlocksLemmas::counting))]
    pub fn store(&mut self, bytes: &[u8]) -> Result<View, PolarsError>
        ensures answer { Answers result (store_fault self.old bytes.now) (λ view. (view ≡ stored_view self.old bytes.now) × (self.new ≡ stored self.old bytes.now)) }
        ensures unchanged { OnErr result (self.new ≡ self.old) }
    {
        if bytes.len() <= View::MAX_INLINE_SIZE as usize {
            return Ok(View::new_inline(bytes));
        }
        if bytes.len() > u32::MAX as usize || self.len() >= MAX_BUFFERS {
            return Err(Cause::Overflow.into());
        }
        let (buffer_idx, offset) = self.write(bytes)?;
        Ok(View::new_noninline_unchecked(bytes, buffer_idx, offset))
    }

    // Writes bytes, and says where they stand: the place of their buffer, and where they start in it.
    #[tactic(auto, using(crate::proofs::BlocksLemmas::counting), unfolding(crate::specs::Blocks::written))]
    fn write(&mut self, bytes: &[u8]) -> Result<(u32, u32), PolarsError>
        requires some { 0 < length bytes.now }
        requires fits { length bytes.now < 2 ^ 32 }
        requires free { length (buffers_of self.old) < MAX_BUFFERS }
        ensures answer { Answers result None (λ place. (self.new ≡ written self.old bytes.now) × (place.0 ≡ length self.new.finished) × (place.1 + length bytes.now ≡ length self.new.block)) }
        ensures unchanged { OnErr result (self.new ≡ self.old) }
    {
        let start = self.block.len();
        if start + bytes.len() <= self.room {
            self.block.extend_from_slice(bytes)?;
            return Ok((self.finished.len() as u32, start as u32));
        }
        self.begin(bytes)?;
        Ok((self.finished.len() as u32, 0))
    }

    // Begins a new block with these bytes.
    #[tactic(auto, using(crate::proofs::BlocksLemmas::counting), unfolding(crate::specs::Blocks::buffers_of))]
    fn begin(&mut self, bytes: &[u8]) -> Result<(), PolarsError>
        requires some { 0 < length bytes.now }
        requires fits { length bytes.now < 2 ^ 32 }
        requires free { length (buffers_of self.old) < MAX_BUFFERS }
        ensures answer { Answers result None (λ _. self.new ≡ byte_blocks (buffers_of self.old) bytes.now (room_for self.old.room (length bytes.now))) }
        ensures unchanged { OnErr result (self.new ≡ self.old) }
    {
        let room = bytes.len().max((2 * self.room).clamp(DEFAULT_BLOCK_SIZE, MAX_EXP_BLOCK_SIZE));
        let mut block = Vec::with_capacity(*self.block.allocator(), room)?;
        block.extend_from_slice(bytes)?;
        self.finish_in_progress()?;
        self.block = block;
        self.room = room;
        Ok(())
    }
}

// Finishes a block where it is not empty, says whether it was not, and makes room for further buffers.
#[tactic(auto, unfolding(crate::specs::Blocks::buffers_of))]
fn finish_block(
    finished: &mut FinishedBuffers,
    block: &mut Vec<u8>,
    additional: usize,
) -> Result<bool, PolarsError>
    requires { additional + 1 < 2 ^ 64 }
    ensures answer { Answers result None (λ was_there. (was_there ≡ not (length block.old.items == 0)) × (finished.new.buffers ≡ buffers_of (byte_blocks finished.old.buffers block.old.items 0)) × (block.new.items ≡ [])) }
    ensures spare { OnOk result (additional ≤ finished.new.spare) }
    ensures unchanged { OnErr result ((finished.new.buffers ≡ finished.old.buffers) × (block.new.items ≡ block.old.items)) }
{
    finished.reserve(additional + 1)?;
    if block.is_empty() {
        return Ok(false);
    }
    let alloc = *block.allocator();
    let whole = mem::replace(block, Vec::new(alloc));
    match Buffer::from_vec_or_back(alloc, whole) {
        Ok(buffer) => {
            finished.push(buffer)?;
            Ok(true)
        }
        Err(whole) => {
            *block = whole;
            Err(PolarsError::NoMemory)
        }
    }
}
