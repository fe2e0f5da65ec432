//! What the tests of several crates ask of any iterator, of any list that can be cut, and of flags: one truth value for
//! each group of calls. Only tests use it.
#![tactic(auto)]

mod cut;
mod flags;
mod iterators;

pub use cut::{Half, half_of};
pub use flags::{Flags, bitmap, flags_are, grown_flags_are};
pub use iterators::{ends_are, gives, gives_back, is_over};
