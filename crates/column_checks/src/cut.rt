//! Any list that can be cut in two.

ghost use Rattle.std.specs.Prelude.{◌≤◌};

use column_base::{PolarsError, Splitable};
use std::alloc::Global;

/// A half of the slots, and by which call.
#[derive(Clone, Copy, Debug)]
pub enum Half {
    Front,
    FrontUnchecked,
    Back,
    BackUnchecked,
}

/// The half before a place, or from it on.
pub fn half_of<S: Splitable + Drop>(
    alloc: Global,
    list: &S,
    half: Half,
    place: usize,
) -> Result<S, PolarsError>
    requires { place ≤ S.slot_count list.now }
{
    let (front, back) = match half {
        Half::Front | Half::Back => list.split_at(alloc, place)?,
        Half::FrontUnchecked | Half::BackUnchecked => list.split_at_unchecked(alloc, place)?,
    };
    Ok(match half {
        Half::Front | Half::FrontUnchecked => front,
        Half::Back | Half::BackUnchecked => back,
    })
}
