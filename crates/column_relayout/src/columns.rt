//! Raw parts, and the columns that they become.

ghost use Rattle.column_relayout.specs.Columns.{IsWellFormed};
ghost use Rattle.column_relayout.specs.Arrays.{lists_of};

use crate::arrays::Column;
use column_base::Cause;
use column_binary::BinaryArray;
use column_binview::{BinaryViewArray, Utf8ViewArray};
use column_fixed::FixedSizeBinaryArray;
use column_primitive::Int64Array;
use column_storage::{Bitmap, Buffer, DataBuffers};
use column_utf8::Utf8Array;
use column_view::View;

/// The raw lists of one column, of which nothing is known yet.
#[derive(Drop)]
pub enum RawColumn {
    /// Byte strings, or texts, with offsets of 32 bits. Arrow columnar format, "Variable-size Binary Layout".
    Offset32 {
        /// Whether the slots are texts.
        text: bool,
        /// One more offset than there are slots.
        offsets: Buffer<i32>,
        /// The bytes of the slots.
        values: Buffer<u8>,
        /// A flag for each slot, where true is valid.
        validity: Option<Bitmap>,
    },
    /// The same with offsets of 64 bits.
    Offset64 {
        /// Whether the slots are texts.
        text: bool,
        /// One more offset than there are slots.
        offsets: Buffer<i64>,
        /// The bytes of the slots.
        values: Buffer<u8>,
        /// A flag for each slot, where true is valid.
        validity: Option<Bitmap>,
    },
    /// Byte strings, or texts, by views. Arrow columnar format, "Variable-size Binary View Layout".
    View {
        /// Whether the slots are texts.
        text: bool,
        /// A view for each slot.
        views: Buffer<View>,
        /// The buffers that views name.
        buffers: DataBuffers,
        /// A flag for each slot, where true is valid.
        validity: Option<Bitmap>,
    },
    /// Byte strings of one width. Arrow columnar format, "Fixed-size Primitive Layout".
    Fixed {
        /// How many bytes each slot has.
        width: usize,
        /// The bytes of the slots, those of each after those of the one before it.
        values: Buffer<u8>,
        /// A flag for each slot, where true is valid.
        validity: Option<Bitmap>,
    },
    /// Signed numbers of 64 bits. Arrow columnar format, "Fixed-size Primitive Layout".
    Int64 {
        /// A number for each slot.
        numbers: Buffer<i64>,
        /// A flag for each slot, where true is valid.
        validity: Option<Bitmap>,
    },
}

/// A column of one of the kinds.
#[derive(Drop)]
pub enum AnyArray {
    /// Byte strings with offsets of 32 bits.
    Binary32(BinaryArray<i32>),
    /// Byte strings with offsets of 64 bits.
    Binary64(BinaryArray<i64>),
    /// Texts with offsets of 32 bits.
    Utf8_32(Utf8Array<i32>),
    /// Texts with offsets of 64 bits.
    Utf8_64(Utf8Array<i64>),
    /// Byte strings by views.
    BinView(BinaryViewArray),
    /// Texts by views.
    Utf8View(Utf8ViewArray),
    /// Byte strings of one width.
    Fixed(FixedSizeBinaryArray),
    /// Signed numbers of 64 bits, with the data type that says what they mean.
    Int64(Int64Array),
}

impl AnyArray {
    /// Tells proofs that the column is well formed.
    pub fn known(&self)
        ensures { IsWellFormed (lists_of self.now) }
    {
        match self {
            AnyArray::Binary32(array) => Column::known(array),
            AnyArray::Binary64(array) => Column::known(array),
            AnyArray::Utf8_32(array) => Column::known(array),
            AnyArray::Utf8_64(array) => Column::known(array),
            AnyArray::BinView(array) => Column::known(array),
            AnyArray::Utf8View(array) => Column::known(array),
            AnyArray::Fixed(array) => Column::known(array),
            AnyArray::Int64(array) => Column::known(array),
        }
    }
}

/// Why a plan gave no column.
#[derive(Clone, Copy, Debug, PartialEq, Eq)]
pub enum ColumnError {
    /// A growth found no memory.
    NoMemory,
    /// The parts are refused.
    Parts(Cause),
    /// The step with this number, counted from 0, is refused.
    Step(usize, Cause),
}
