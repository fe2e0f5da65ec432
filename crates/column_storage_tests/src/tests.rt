//! The tests: each asserts what a check of `checks` says.

mod bits;
mod buffers;
mod growing;
mod iterators;
mod laws;
mod validity;
