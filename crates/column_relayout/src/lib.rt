//! Raw parts into columns, and plans of steps over them: a cheap change of layout never changes a row.
#![tactic(auto)]

mod append;
mod arrays;
mod assembly;
mod columns;
mod conversion;
mod cut;
mod gather;
mod kind;
mod laws;
mod plan;
mod rebuild;
mod rows;
mod steps;
mod write_rows;
mod written;

pub use append::step_append;
pub use assembly::assemble;
pub use columns::{AnyArray, ColumnError, RawColumn};
pub use conversion::{step_to_binary, step_to_utf8};
pub use cut::{step_left, step_right, step_slice};
pub use gather::{step_dedupe, step_gc};
pub use kind::Kind;
pub use laws::{
    last_dedupe_names_all_buffers, last_step_after_light_ones, last_step_is_taken, light_plans_cut,
    light_plans_cut_once, light_plans_keep_bytes, light_steps_cut_what_a_step_left,
    light_steps_cut_what_was_written, no_fault_is_well_formed, relays_lead, written_slots_are_same,
};
pub use plan::relayout;
pub use rebuild::step_rebuild;
pub use rows::Rows;
pub use steps::Step;
