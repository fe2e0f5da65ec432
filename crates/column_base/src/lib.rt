//! What every crate of the library speaks: refusals and their causes, numbers and offsets, data types, and the words
//! of contracts.
#![tactic(auto)]

mod datatypes;
mod errors;
mod intervals;
mod lists;
mod native;
mod offset;
mod push;
mod splitable;
mod utf8;
mod view_kind;

pub use datatypes::{ArrowDataType, IntervalUnit, PhysicalType, PrimitiveType, TimeUnit};
pub use errors::{Cause, PolarsError};
pub use intervals::{days_ms, months_days_ns};
pub use lists::{slice_reads, slices_are_one, split_is_whole};
pub use native::NativeType;
pub use offset::Offset;
pub use push::{
    ExtendError, Growing, TryExtend, TryExtendFromSelf, TryPush, push_each, push_each_ok,
    with_each, with_each_ok,
};
pub use splitable::Splitable;
pub use utf8::{is_utf8, str_of, utf8_cut, utf8_is_text};
pub use view_kind::{BinaryKind, Utf8Kind, ViewKind, ViewOwned, ViewType};
