//! Arrays and builders of each type of numbers, by name.

use crate::array::PrimitiveArray;
use crate::builder::MutablePrimitiveArray;
use column_base::{days_ms, months_days_ns};

/// A column of optional signed numbers of 8 bits.
pub type Int8Array = PrimitiveArray<i8>;

/// A column of optional signed numbers of 16 bits.
pub type Int16Array = PrimitiveArray<i16>;

/// A column of optional signed numbers of 32 bits.
pub type Int32Array = PrimitiveArray<i32>;

/// A column of optional signed numbers of 64 bits.
pub type Int64Array = PrimitiveArray<i64>;

/// A column of optional signed numbers of 128 bits.
pub type Int128Array = PrimitiveArray<i128>;

/// A column of optional unsigned numbers of 8 bits.
pub type UInt8Array = PrimitiveArray<u8>;

/// A column of optional unsigned numbers of 16 bits.
pub type UInt16Array = PrimitiveArray<u16>;

/// A column of optional unsigned numbers of 32 bits.
pub type UInt32Array = PrimitiveArray<u32>;

/// A column of optional unsigned numbers of 64 bits.
pub type UInt64Array = PrimitiveArray<u64>;

/// A column of optional days and milliseconds.
pub type DaysMsArray = PrimitiveArray<days_ms>;

/// A column of optional months, days and nanoseconds.
pub type MonthsDaysNsArray = PrimitiveArray<months_days_ns>;

/// A builder of a column of optional signed numbers of 8 bits.
pub type Int8Vec = MutablePrimitiveArray<i8>;

/// A builder of a column of optional signed numbers of 16 bits.
pub type Int16Vec = MutablePrimitiveArray<i16>;

/// A builder of a column of optional signed numbers of 32 bits.
pub type Int32Vec = MutablePrimitiveArray<i32>;

/// A builder of a column of optional signed numbers of 64 bits.
pub type Int64Vec = MutablePrimitiveArray<i64>;

/// A builder of a column of optional signed numbers of 128 bits.
pub type Int128Vec = MutablePrimitiveArray<i128>;

/// A builder of a column of optional unsigned numbers of 8 bits.
pub type UInt8Vec = MutablePrimitiveArray<u8>;

/// A builder of a column of optional unsigned numbers of 16 bits.
pub type UInt16Vec = MutablePrimitiveArray<u16>;

/// A builder of a column of optional unsigned numbers of 32 bits.
pub type UInt32Vec = MutablePrimitiveArray<u32>;

/// A builder of a column of optional unsigned numbers of 64 bits.
pub type UInt64Vec = MutablePrimitiveArray<u64>;

/// A builder of a column of optional days and milliseconds.
pub type DaysMsVec = MutablePrimitiveArray<days_ms>;

/// A builder of a column of optional months, days and nanoseconds.
pub type MonthsDaysNsVec = MutablePrimitiveArray<months_days_ns>;
