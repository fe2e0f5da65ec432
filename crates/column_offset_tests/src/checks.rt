//! What offsets are seen to be: one bool for each group of calls, and no assertion.

pub mod growing;
pub mod levels;
pub mod raw;
pub mod shared;
