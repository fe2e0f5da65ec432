//! The bytes of views together.

ghost use Rattle.std.specs.Prelude.{◌≡◌, ◌≤◌, ◌^◌, sum_by};
ghost use Rattle.std.specs.List.{All};
ghost use Rattle.column_view.specs.Views.{view_length};

use crate::view::View;

/// The lengths of all views together, a slot's bytes counted as often as a view says them.
///
/// One pass, with no memory. No length is greater than 2 ^ 32.
#[tactic(auto, using(crate::proofs::ViewsLemmas::sums))]
pub fn sum_of_lengths(views: &[View]) -> u128
    ensures sum { result ≡ sum_by view_length views.now }
    ensures bounded { All (λ view. view_length view ≤ 2 ^ 32) views.now }
{
    let mut total = 0u128;
    for view in views {
        total += view.length() as u128;
    }
    total
}
