//! Documents: what bytes, as JSON, say of the raw parts of a column and of a plan.
#![tactic(auto)]

mod document;
mod field;
mod from_json;
mod json;
mod offset_number;
mod rows;
mod steps;

pub use document::{parse_document, read_document};
pub use field::{DocError, DocFault, Field};
