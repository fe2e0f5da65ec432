//! Arrays of views whose buffers are those that long views name, each once.
#![tactic(auto)]

mod dedupe;
mod laws;

pub use dedupe::deduped;
pub use laws::{deduped_slots_are_same, names_of_deduped};
