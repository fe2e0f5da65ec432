//! What is inside the builder of view arrays: blocks of bytes, views beside their flags, and the sources of buffers that are
//! taken.
#![tactic(auto)]

mod blocks;
mod finished;
mod laws;
mod rows;
mod sources;
mod views;

pub use blocks::{Blocks, DEFAULT_BLOCK_SIZE, MAX_EXP_BLOCK_SIZE};
pub use laws::{
    blocks_stay_sound, calls_append, stored_view_says_its_bytes, taken_buffers_stay,
    taken_view_says_the_same, views_stay,
};
pub use rows::ViewRows;
pub use sources::{Sources, take_view};
