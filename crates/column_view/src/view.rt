//! Views: their constructors and readers.

ghost use Rattle.std.specs.Prelude.{◌≡◌, ◌<◌, ◌≤◌, ◌^◌, length, None, replicate};
ghost use Rattle.std.specs.Int.{w128, from_le_bytes, to_le_bytes};
ghost use Rattle.column_view.specs.Views.{IsView, view_length, view_prefix, view_index, view_start, is_long, view_content, inline_content, long_content, inline_view, long_view, view_of, with_index};
ghost use Rattle.column_view.specs.ViewFaults.{layout_fault};

use column_storage::DataBuffers;
use std::marker::Model;

/// The 16 bytes that say where a value is: the value itself where it has at most 12 bytes, and else the place of a
/// buffer and a place in it.
///
/// Two views are equal where their bytes are. Integers are read as unsigned. Arrow columnar format, "Variable-size
/// Binary View Layout".
#[derive(Clone, Copy, PartialEq, Eq, Debug)]
pub struct View {
    bytes: [u8; 16],
}

impl Model for View {
    ghost use Rattle.std.specs.Prelude.{ℕ, List};
    ghost use Rattle.column_view.specs.Views.{IsView};

    ghost Value = { List ℕ };

    ghost view = { λ v. v.bytes };

    ghost invariant = { λ v. IsView v.bytes };

    ghost inverse = { λ bytes. record { bytes = bytes } };
}

// ---- constructors

impl View {
    /// The greatest number of bytes that a view holds.
    pub const MAX_INLINE_SIZE: u32 = 12;

    /// The view of no bytes.
    pub fn zeroed() -> View
        ensures { result ≡ replicate 16 0 }
    {
        View { bytes: [0; 16] }
    }

    /// The view of these bytes.
    pub fn from_le(bytes: [u8; 16]) -> View
        ensures { result ≡ bytes }
    {
        View { bytes }
    }

    /// The view whose bytes are those of this number, the lowest first.
    pub fn from_u128(value: u128) -> View
        ensures { result ≡ to_le_bytes w128 value }
    {
        View {
            bytes: value.to_le_bytes(),
        }
    }

    /// The view that holds these bytes, at most 12.
    #[tactic(auto, unfolding(crate::specs::Views::inline_view))]
    pub fn new_inline(bytes: &[u8]) -> View
        requires { length bytes.now ≤ 12 }
        ensures { result ≡ inline_view bytes.now }
    {
        let mut view = [0; 16];
        view[..4].copy_from_slice(&(bytes.len() as u32).to_le_bytes());
        view[4..4 + bytes.len()].copy_from_slice(bytes);
        View { bytes: view }
    }

    /// The same as [`View::new_inline`].
    pub fn new_inline_unchecked(bytes: &[u8]) -> View
        requires { length bytes.now ≤ 12 }
        ensures { result ≡ inline_view bytes.now }
    {
        View::new_inline(bytes)
    }

    /// The view of these bytes, more than 12, which stand in the buffer at place `buffer_idx` from `offset` on.
    pub fn new_noninline_unchecked(bytes: &[u8], buffer_idx: u32, offset: u32) -> View
        requires long { 12 < length bytes.now }
        requires fits { length bytes.now < 2 ^ 32 }
        ensures { result ≡ long_view bytes.now buffer_idx offset }
    {
        View::from_le(long_bytes(bytes, buffer_idx, offset))
    }

    /// The view of these bytes: it holds them where they are at most 12, and else they stand in the buffer at place
    /// `buffer_idx` from `offset` on.
    pub fn new_from_bytes(bytes: &[u8], buffer_idx: u32, offset: u32) -> View
        requires { length bytes.now < 2 ^ 32 }
        ensures { result ≡ view_of bytes.now buffer_idx offset }
    {
        if bytes.len() <= 12 {
            View::new_inline(bytes)
        } else {
            View::new_noninline_unchecked(bytes, buffer_idx, offset)
        }
    }

    /// The same view, of the buffer at another place.
    #[tactic(auto, unfolding(crate::specs::Views::with_index))]
    pub fn with_buffer_idx(self, buffer_idx: u32) -> View
        ensures { result ≡ with_index self buffer_idx }
    {
        let mut bytes = self.bytes;
        bytes[8..12].copy_from_slice(&buffer_idx.to_le_bytes());
        View::from_le(bytes)
    }
}

// ---- readers

impl View {
    /// Tells proofs that a view has 16 bytes, each below 256.
    pub fn known(&self)
        ensures { IsView self.now }
    {
        let _ = &self.bytes;
    }

    /// The bytes of the view.
    pub fn to_le(self) -> [u8; 16]
        ensures bytes { result ≡ self }
        ensures known { IsView self }
    {
        self.bytes
    }

    /// The bytes of the view as a number, the lowest first.
    pub fn as_u128(self) -> u128
        ensures { result ≡ from_le_bytes w128 self }
    {
        u128::from_le_bytes(self.bytes)
    }

    /// The number of bytes of the value.
    #[tactic(auto, unfolding(crate::specs::Views::view_length))]
    pub fn length(&self) -> u32
        ensures { result ≡ view_length self.now }
    {
        u32::from_le_bytes([self.bytes[0], self.bytes[1], self.bytes[2], self.bytes[3]])
    }

    /// The first four bytes of a long value as a number.
    #[tactic(auto, unfolding(crate::specs::Views::view_prefix))]
    pub fn prefix(&self) -> u32
        ensures { result ≡ view_prefix self.now }
    {
        u32::from_le_bytes([self.bytes[4], self.bytes[5], self.bytes[6], self.bytes[7]])
    }

    /// The place of the buffer that a long view names.
    #[tactic(auto, unfolding(crate::specs::Views::view_index))]
    pub fn buffer_idx(&self) -> u32
        ensures { result ≡ view_index self.now }
    {
        u32::from_le_bytes([self.bytes[8], self.bytes[9], self.bytes[10], self.bytes[11]])
    }

    /// Where a long value starts in its buffer.
    #[tactic(auto, unfolding(crate::specs::Views::view_start))]
    pub fn offset(&self) -> u32
        ensures { result ≡ view_start self.now }
    {
        u32::from_le_bytes([
            self.bytes[12],
            self.bytes[13],
            self.bytes[14],
            self.bytes[15],
        ])
    }

    /// Whether the view names the bytes of a long value.
    pub fn is_long(&self) -> bool
        ensures { result ≡ is_long self.now }
    {
        self.length() > View::MAX_INLINE_SIZE
    }

    /// The content of a view that holds it.
    #[tactic(auto, using(crate::proofs::ViewsLemmas::reading))]
    pub fn get_inlined_slice_unchecked(&self) -> &[u8]
        requires { view_length self.now ≤ 12 }
        ensures { result.now ≡ inline_content self.now }
    {
        &self.bytes[4..4 + self.length() as usize]
    }

    /// The content of a view, which lies in the view or in the buffer that it names.
    #[tactic(auto, using(crate::proofs::ViewsLemmas::reading), unfolding(crate::specs::Views::view_content))]
    pub fn get_slice_unchecked<'a>(&'a self, buffers: &'a DataBuffers) -> &'a [u8]
        requires { layout_fault self.now buffers.now ≡ None }
        ensures { result.now ≡ view_content self.now buffers.now }
    {
        if self.is_long() {
            long_slice(self, buffers)
        } else {
            self.get_inlined_slice_unchecked()
        }
    }
}

// The bytes of a long view.
#[tactic(auto, unfolding(crate::specs::Views::long_view))]
fn long_bytes(bytes: &[u8], buffer_idx: u32, offset: u32) -> [u8; 16]
    requires long { 12 < length bytes.now }
    requires fits { length bytes.now < 2 ^ 32 }
    ensures { result ≡ long_view bytes.now buffer_idx offset }
{
    let mut view = [0; 16];
    view[..4].copy_from_slice(&(bytes.len() as u32).to_le_bytes());
    view[4..8].copy_from_slice(&bytes[..4]);
    view[8..12].copy_from_slice(&buffer_idx.to_le_bytes());
    view[12..].copy_from_slice(&offset.to_le_bytes());
    view
}

// The range of a buffer that a long view names.
#[tactic(auto, using(crate::proofs::ViewsLemmas::reading))]
fn long_slice<'a>(view: &View, buffers: &'a DataBuffers) -> &'a [u8]
    requires long { 12 < view_length view.now }
    requires sound { layout_fault view.now buffers.now ≡ None }
    ensures { result.now ≡ long_content view.now buffers.now }
{
    let start = view.offset() as usize;
    let end = start + view.length() as usize;
    &buffers.get(view.buffer_idx() as usize).as_slice()[start..end]
}
