//! Rows that can be read one by one.

ghost use Rattle.std.specs.Prelude.{◌≡◌, ◌<◌, length, None, option_map, slice_index_or};
ghost use Rattle.std.specs.Option.{option_copied};

use column_base::Offset;
use column_binary::BinaryArray;
use column_binview::BinaryViewArray;
use column_fixed::FixedSizeBinaryArray;
use column_primitive::{Int64Array, slot_is_number};

/// Rows of which the length of each is known: the bytes of valid slots, and None for null ones.
pub trait RowList {
    ghost use Rattle.std.specs.Prelude.{ℕ, List, Option};

    ghost rows: { Self → List (Option (List ℕ)) };

    /// The number of rows.
    fn count(&self) -> usize
        ensures { result ≡ length (rows self.now) };

    /// How many bytes row `i` has, or None where it is missing.
    fn row_length(&self, i: usize) -> Option<usize>
        requires { i < length (rows self.now) }
        ensures { result ≡ option_map length (slice_index_or (rows self.now) i None) };
}

/// Rows whose bytes stand in memory.
pub trait ByteRows: RowList {
    /// The bytes of row `i`, or None where it is missing.
    fn row(&self, i: usize) -> Option<&[u8]>
        requires { i < length (Self.rows self.now) }
        ensures { option_copied result ≡ slice_index_or (Self.rows self.now) i None };
}

#[tactic(auto, using(crate::proofs::RowsLemmas::rows_of_slots))]
impl<O: Offset> RowList for BinaryArray<O> {
    ghost use Rattle.column_base.specs.Slots.{rows_of};
    ghost use Rattle.column_binary.specs.Slots.{offset_slots};

    ghost rows = { λ array. rows_of (offset_slots array) };

    fn count(&self) -> usize {
        self.len()
    }

    fn row_length(&self, i: usize) -> Option<usize> {
        self.known();
        match self.get(i) {
            Some(bytes) => Some(bytes.len()),
            None => None,
        }
    }
}

#[tactic(auto, using(crate::proofs::RowsLemmas::rows_of_slots))]
impl<O: Offset> ByteRows for BinaryArray<O> {
    fn row(&self, i: usize) -> Option<&[u8]> {
        self.known();
        self.get(i)
    }
}

#[tactic(auto, using(crate::proofs::RowsLemmas::rows_of_slots))]
impl RowList for BinaryViewArray {
    ghost use Rattle.column_base.specs.Slots.{rows_of};
    ghost use Rattle.column_binview.specs.Slots.{view_slots};

    ghost rows = { λ array. rows_of (view_slots array) };

    fn count(&self) -> usize {
        self.len()
    }

    fn row_length(&self, i: usize) -> Option<usize> {
        self.known();
        match self.get(i) {
            Some(bytes) => Some(bytes.len()),
            None => None,
        }
    }
}

#[tactic(auto, using(crate::proofs::RowsLemmas::rows_of_slots))]
impl ByteRows for BinaryViewArray {
    fn row(&self, i: usize) -> Option<&[u8]> {
        self.known();
        self.get(i)
    }
}

#[tactic(auto, using(crate::proofs::RowsLemmas::rows_of_slots))]
impl RowList for FixedSizeBinaryArray {
    ghost use Rattle.column_base.specs.Slots.{rows_of};
    ghost use Rattle.column_fixed.specs.Slots.{fixed_slots};

    ghost rows = { λ array. rows_of (fixed_slots array) };

    fn count(&self) -> usize {
        self.len()
    }

    fn row_length(&self, i: usize) -> Option<usize> {
        self.known();
        match self.get(i) {
            Some(bytes) => Some(bytes.len()),
            None => None,
        }
    }
}

#[tactic(auto, using(crate::proofs::RowsLemmas::rows_of_slots))]
impl ByteRows for FixedSizeBinaryArray {
    fn row(&self, i: usize) -> Option<&[u8]> {
        self.known();
        self.get(i)
    }
}

#[tactic(auto, using(crate::proofs::RowsLemmas::rows_of_slots))]
impl RowList for Int64Array {
    ghost use Rattle.std.specs.Int.{w64};
    ghost use Rattle.column_base.specs.Native.{signed_bytes};
    ghost use Rattle.column_base.specs.Slots.{rows_of};
    ghost use Rattle.column_primitive.specs.Numbers.{number_slots};

    ghost rows = { λ array. rows_of (number_slots (signed_bytes w64) array.lists) };

    fn count(&self) -> usize {
        self.len()
    }

    fn row_length(&self, i: usize) -> Option<usize> {
        self.known();
        slot_is_number::<i64>();
        if self.is_valid(i) { Some(8) } else { None }
    }
}
