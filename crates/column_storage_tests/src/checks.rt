//! What buffers, bitmaps and iterators are seen to be: one bool for each group of calls, and no assertion.

pub mod bits;
pub mod buffers;
pub mod ends;
pub mod growing;
pub mod iterators;
pub mod validity;
