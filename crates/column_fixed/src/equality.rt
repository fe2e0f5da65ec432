//! Equality of builders, which is equality of their rows.

ghost use Rattle.std.specs.Prelude.{◌≡◌, ◌<◌, nat_eq};
ghost use Rattle.std.specs.Cmp.Lexicographic.{pointwise};
ghost use Rattle.std.specs.Option.{option_copied, option_eq};
ghost use Rattle.column_base.specs.Slots.{slot_at};
ghost use Rattle.column_fixed.specs.Slots.{fixed_slots, fixed_count};
ghost use Rattle.column_fixed.specs.Rows.{is_same_row, are_same_rows};

use crate::builder::MutableFixedSizeBinaryArray;

impl MutableFixedSizeBinaryArray {
    // Whether the rows are the same, in one pass.
    #[tactic(auto, using(crate::proofs::EqualLemmas::equality))]
    fn has_rows_of(&self, other: &Self) -> bool
        ensures { result ≡ are_same_rows self.now other.now }
    {
        if self.len() != other.len() {
            return false;
        }
        for i in 0..self.len() {
            if !self.has_row_of(other, i) {
                return false;
            }
        }
        true
    }

    // Whether slot `i` is null in both, or has the same bytes in both.
    fn has_row_of(&self, other: &Self, i: usize) -> bool
        requires within { i < fixed_count self.now.lists }
        requires there { i < fixed_count other.now.lists }
        ensures { result ≡ is_same_row (slot_at (fixed_slots self.now.lists) i) (slot_at (fixed_slots other.now.lists) i) }
    {
        are_same(self.get(i), other.get(i))
    }
}

// Whether two rows are both null or have the same bytes.
fn are_same(row: Option<&[u8]>, other: Option<&[u8]>) -> bool
    ensures { result ≡ option_eq (pointwise nat_eq) (option_copied row.entry) (option_copied other.entry) }
{
    match (row, other) {
        (Some(bytes), Some(others)) => bytes == others,
        (None, None) => true,
        _ => false,
    }
}

impl PartialEq for MutableFixedSizeBinaryArray {
    ghost use Rattle.std.proofs.Common.{rules};
    ghost use Rattle.std.specs.Prelude.{nat_eq};
    ghost use Rattle.std.specs.Cmp.Lexicographic.{pointwise};
    ghost use Rattle.std.specs.Cmp.Rules.{comparing};
    ghost use Rattle.std.specs.Option.{option_eq};
    ghost use Rattle.std.specs.Ordering.{on};
    ghost use Rattle.column_base.specs.Slots.{rows_of};
    ghost use Rattle.column_fixed.specs.Slots.{fixed_slots};

    // the rows are as many, and at each place both null or of the same bytes
    ghost eq = { on (λ b. rows_of (fixed_slots b.lists)) (pointwise (option_eq (pointwise nat_eq))) };

    ghost laws = { Prim.search (comparing, rules) depth 9 };

    fn eq(&self, other: &MutableFixedSizeBinaryArray) -> bool {
        self.has_rows_of(other)
    }
}

/// Equality of rows is an equivalence.
impl Eq for MutableFixedSizeBinaryArray {
    ghost use Rattle.std.specs.Cmp.{on_equiv};
    ghost use Rattle.std.specs.Cmp.Lexicographic.{nat_list_eq_equiv, options_equiv, lists_equiv};
    ghost use Rattle.column_base.specs.Slots.{rows_of};
    ghost use Rattle.column_fixed.specs.Slots.{fixed_slots};

    ghost laws = { on_equiv (λ b. rows_of (fixed_slots b.lists)) (lists_equiv (options_equiv nat_list_eq_equiv)) };
}
