//! Equality of arrays, as equality of rows.

ghost use Rattle.std.specs.Prelude.{◌≡◌, ◌<◌, length};
ghost use Rattle.column_base.specs.Slots.{slot_at, row_of};
ghost use Rattle.column_binview.specs.Slots.{view_slots, view_count};
ghost use Rattle.column_binview.specs.Rows.{row_eq, rows_eq};

use crate::array::BinaryViewArrayGeneric;
use column_base::ViewKind;

/// Two arrays are equal where their rows are, whatever their views, buffers and null slots hold.
impl<K: ViewKind> PartialEq for BinaryViewArrayGeneric<K> {
    ghost use Rattle.std.specs.Cmp.{on_per, partial_equiv_from_equiv};
    ghost use Rattle.std.specs.Ordering.{on};
    ghost use Rattle.std.specs.Cmp.Lexicographic.{pointwise};
    ghost use Rattle.column_base.specs.Slots.{rows_of};
    ghost use Rattle.column_binview.specs.Slots.{view_slots};
    ghost use Rattle.column_binview.specs.Rows.{row_eq, rows_equiv};

    ghost eq = { on (λ a. rows_of (view_slots a)) (pointwise row_eq) };

    ghost laws = { on_per (λ a. rows_of (view_slots a)) (partial_equiv_from_equiv rows_equiv) };

    fn eq(&self, other: &BinaryViewArrayGeneric<K>) -> bool {
        same_rows(self, other)
    }
}

/// Equality of rows is an equivalence.
impl<K: ViewKind> Eq for BinaryViewArrayGeneric<K> {
    ghost use Rattle.std.specs.Cmp.{on_equiv};
    ghost use Rattle.column_base.specs.Slots.{rows_of};
    ghost use Rattle.column_binview.specs.Slots.{view_slots};
    ghost use Rattle.column_binview.specs.Rows.{rows_equiv};

    ghost laws = { on_equiv (λ a. rows_of (view_slots a)) rows_equiv };
}

// Whether the rows of two arrays are equal.
fn same_rows<K: ViewKind>(a: &BinaryViewArrayGeneric<K>, b: &BinaryViewArrayGeneric<K>) -> bool
    ensures { result ≡ rows_eq a.now b.now }
{
    a.known();
    b.known();
    if a.len() != b.len() {
        return false;
    }
    for i in 0..a.len() {
        if !same_row(a, b, i) {
            return false;
        }
    }
    true
}

// Whether row `i` of two arrays is equal.
fn same_row<K: ViewKind>(
    a: &BinaryViewArrayGeneric<K>,
    b: &BinaryViewArrayGeneric<K>,
    i: usize,
) -> bool
    requires first { i < view_count a.now }
    requires second { i < view_count b.now }
    ensures { result ≡ row_eq (row_of (slot_at (view_slots a.now) i)) (row_of (slot_at (view_slots b.now) i)) }
{
    if a.is_null(i) {
        return b.is_null(i);
    }
    b.is_valid(i) && a.value_bytes(i) == b.value_bytes(i)
}
