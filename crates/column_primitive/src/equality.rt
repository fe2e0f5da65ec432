//! Equality of builders: their rows are equal, whatever numbers stand below nulls.

ghost use Rattle.std.specs.Prelude.{◌≡◌};
ghost use Rattle.std.specs.Option.{option_eq};

use crate::builder::MutablePrimitiveArray;
use column_base::NativeType;

#[tactic(auto, using(crate::proofs::EqualLemmas::equality))]
impl<T: NativeType> PartialEq for MutablePrimitiveArray<T> {
    ghost use Rattle.std.proofs.Common.{rules};
    ghost use Rattle.std.specs.Cmp.Lexicographic.{pointwise};
    ghost use Rattle.std.specs.Cmp.Rules.{comparing};
    ghost use Rattle.std.specs.Ordering.{on};
    ghost use Rattle.std.specs.Option.{option_eq};
    ghost use Rattle.column_primitive.specs.Numbers.{number_rows};

    ghost eq = { on (λ b. number_rows b.array.lists) (pointwise (option_eq T.eq)) };

    ghost laws = { Prim.search (comparing, rules) };

    fn eq(&self, other: &MutablePrimitiveArray<T>) -> bool {
        self.known();
        other.known();
        let count = self.len();
        if count != other.len() {
            return false;
        }
        for i in 0..count {
            if !is_same_row(self.get(i), other.get(i)) {
                return false;
            }
        }
        true
    }
}

/// Equality of rows is an equivalence.
impl<T: NativeType> Eq for MutablePrimitiveArray<T> {
    ghost use Rattle.std.specs.Cmp.{on_equiv};
    ghost use Rattle.std.specs.Cmp.Lexicographic.{options_equiv, lists_equiv};
    ghost use Rattle.column_primitive.specs.Numbers.{number_rows};

    ghost laws = { on_equiv (λ b. number_rows b.array.lists) (lists_equiv (options_equiv T.Eq.laws)) };
}

// Whether two rows are equal.
fn is_same_row<T: NativeType>(row: Option<T>, other: Option<T>) -> bool
    ensures { result ≡ option_eq T.eq row other }
{
    match (row, other) {
        (Some(row), Some(other)) => row == other,
        (None, None) => true,
        _ => false,
    }
}
