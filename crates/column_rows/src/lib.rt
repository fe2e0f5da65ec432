//! Rows of optional byte strings: read from the slots of each layout, and written into each.
#![tactic(auto)]

mod checks;
mod fixed;
mod numbers;
mod push;
mod row_list;
mod views;

pub use checks::{are_of_view, are_of_width, bytes_within};
pub use fixed::{fixed_of_rows, fixed_with_rows};
pub use numbers::{bytes_of_numbers, numbers_of_rows, numbers_with_rows};
pub use push::{RowBuilder, push_rows};
pub use row_list::{ByteRows, RowList};
pub use views::{views_of_rows, views_with_rows};
