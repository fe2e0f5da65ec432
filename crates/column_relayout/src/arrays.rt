//! Arrays as the steps of a plan meet them.

ghost use Rattle.std.specs.Prelude.{◌≡◌, ◌+◌, ◌≤◌, length as list_length};

use column_base::{Offset, ViewKind};
use column_binary::BinaryArray;
use column_binview::BinaryViewArrayGeneric;
use column_fixed::FixedSizeBinaryArray;
use column_primitive::Int64Array;
use column_utf8::Utf8Array;

/// Arrays that can be cut.
pub(crate) trait Column: Drop {
    ghost use Rattle.column_base.specs.Lists.{sublist};
    ghost use Rattle.column_relayout.specs.Columns.{RawLists, slots_of, count_of, part_of, IsWellFormed};

    ghost raw: { Self → RawLists };

    /// Tells proofs that the column is well formed.
    fn known(&self)
        ensures { IsWellFormed (raw self.now) };

    /// The number of slots.
    fn count(&self) -> usize
        ensures slots { result ≡ list_length (slots_of (raw self.now)) }
        ensures count { result ≡ count_of (raw self.now) };

    /// Keeps the `length` slots from slot `offset` on.
    fn cut(&mut self, offset: usize, length: usize)
        requires { offset + length ≤ count_of (raw self.old) }
        ensures part { raw self.new ≡ part_of (raw self.old) offset length }
        ensures slots { slots_of (raw self.new) ≡ sublist (slots_of (raw self.old)) offset length };
}

#[tactic(auto, using(crate::proofs::ColumnsLemmas::columns))]
impl<O: Offset> Column for BinaryArray<O> {
    ghost use Rattle.std.specs.Prelude.{false};
    ghost use Rattle.column_relayout.specs.Columns.{offset_column};

    ghost raw = { λ array. offset_column O.IS_LARGE false array };

    fn known(&self) {
        self.known();
    }

    fn count(&self) -> usize {
        self.len()
    }

    fn cut(&mut self, offset: usize, length: usize) {
        self.slice(offset, length);
    }
}

#[tactic(auto, using(crate::proofs::ColumnsLemmas::columns))]
impl<O: Offset> Column for Utf8Array<O> {
    ghost use Rattle.std.specs.Prelude.{true};
    ghost use Rattle.column_relayout.specs.Columns.{offset_column};

    ghost raw = { λ array. offset_column O.IS_LARGE true array };

    fn known(&self) {
        self.known();
    }

    fn count(&self) -> usize {
        self.len()
    }

    fn cut(&mut self, offset: usize, length: usize) {
        self.slice(offset, length);
    }
}

#[tactic(auto, using(crate::proofs::ColumnsLemmas::columns))]
impl<K: ViewKind> Column for BinaryViewArrayGeneric<K> {
    ghost use Rattle.column_relayout.specs.Columns.{view_column};

    ghost raw = { λ array. view_column K.IS_UTF8 array };

    fn known(&self) {
        self.known();
    }

    fn count(&self) -> usize {
        self.len()
    }

    fn cut(&mut self, offset: usize, length: usize) {
        self.slice(offset, length);
    }
}

#[tactic(auto, using(crate::proofs::ColumnsLemmas::fixed_well_formed))]
impl Column for FixedSizeBinaryArray {
    ghost use Rattle.column_relayout.specs.Columns.{fixed_column};

    ghost raw = { λ array. fixed_column array };

    fn known(&self) {
        self.known();
    }

    fn count(&self) -> usize {
        self.len()
    }

    fn cut(&mut self, offset: usize, length: usize) {
        self.slice(offset, length);
    }
}

#[tactic(auto, using(crate::proofs::ColumnsLemmas::numbers_well_formed, crate::proofs::ColumnsLemmas::number_part))]
impl Column for Int64Array {
    ghost use Rattle.column_relayout.specs.Columns.{number_column};

    ghost raw = { λ array. number_column array };

    fn known(&self) {
        self.known();
    }

    fn count(&self) -> usize {
        self.len()
    }

    fn cut(&mut self, offset: usize, length: usize) {
        self.slice(offset, length);
    }
}
