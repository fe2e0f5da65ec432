//! Data types, and the physical types that they are laid out in.

/// The unit of a time, a timestamp or a duration. Arrow columnar format, "Data Types".
#[derive(Clone, Copy, Debug, PartialEq, Eq)]
pub enum TimeUnit {
    /// Seconds.
    Second,
    /// Thousandths of a second.
    Millisecond,
    /// Millionths of a second.
    Microsecond,
    /// Billionths of a second.
    Nanosecond,
}

/// The unit of a calendar interval. Arrow columnar format, "Data Types".
#[derive(Clone, Copy, Debug, PartialEq, Eq)]
pub enum IntervalUnit {
    /// Whole months.
    YearMonth,
    /// Days and milliseconds.
    DayTime,
    /// Months, days and nanoseconds.
    MonthDayNano,
}

/// The types of numbers of a fixed number of bytes. Arrow columnar format, "Fixed-size Primitive Layout".
#[derive(Clone, Copy, Debug, PartialEq, Eq)]
pub enum PrimitiveType {
    /// Signed, 8 bits.
    Int8,
    /// Signed, 16 bits.
    Int16,
    /// Signed, 32 bits.
    Int32,
    /// Signed, 64 bits.
    Int64,
    /// Signed, 128 bits.
    Int128,
    /// Unsigned, 8 bits.
    UInt8,
    /// Unsigned, 16 bits.
    UInt16,
    /// Unsigned, 32 bits.
    UInt32,
    /// Unsigned, 64 bits.
    UInt64,
    /// Days and milliseconds, signed, 32 bits each.
    DaysMs,
    /// Months and days, signed, 32 bits each, and nanoseconds, signed, 64 bits.
    MonthDayNano,
}

/// What the slots of an array mean. Arrow columnar format, "Data Types".
#[derive(Clone, Copy, Debug, PartialEq, Eq)]
pub enum ArrowDataType {
    /// A truth value.
    Boolean,
    /// A signed number of 8 bits.
    Int8,
    /// A signed number of 16 bits.
    Int16,
    /// A signed number of 32 bits.
    Int32,
    /// A signed number of 64 bits.
    Int64,
    /// A signed number of 128 bits.
    Int128,
    /// An unsigned number of 8 bits.
    UInt8,
    /// An unsigned number of 16 bits.
    UInt16,
    /// An unsigned number of 32 bits.
    UInt32,
    /// An unsigned number of 64 bits.
    UInt64,
    /// A point in time, without a time zone.
    Timestamp(TimeUnit),
    /// Days since 1970.
    Date32,
    /// Milliseconds since 1970.
    Date64,
    /// A time of day, of 32 bits.
    Time32(TimeUnit),
    /// A time of day, of 64 bits.
    Time64(TimeUnit),
    /// A length of time.
    Duration(TimeUnit),
    /// A calendar interval.
    Interval(IntervalUnit),
    /// Bytes, with offsets of 32 bits.
    Binary,
    /// Bytes, with offsets of 64 bits.
    LargeBinary,
    /// Bytes, as many in each slot as is given.
    FixedSizeBinary(usize),
    /// Text, with offsets of 32 bits.
    Utf8,
    /// Text, with offsets of 64 bits.
    LargeUtf8,
    /// Bytes, by views.
    BinaryView,
    /// Text, by views.
    Utf8View,
    /// A decimal number: how many digits it has, and how many of them stand behind the point.
    Decimal(usize, usize),
    /// Not known.
    Unknown,
}

/// How slots lie in memory. Arrow columnar format, "Physical Memory Layout".
#[derive(Clone, Copy, Debug, PartialEq, Eq)]
pub enum PhysicalType {
    /// Truth values.
    Boolean,
    /// Numbers.
    Primitive(PrimitiveType),
    /// Bytes, with offsets of 32 bits.
    Binary,
    /// Bytes, with offsets of 64 bits.
    LargeBinary,
    /// Bytes, as many in each slot.
    FixedSizeBinary,
    /// Text, with offsets of 32 bits.
    Utf8,
    /// Text, with offsets of 64 bits.
    LargeUtf8,
    /// Bytes, by views.
    BinaryView,
    /// Text, by views.
    Utf8View,
    /// Not known: this library's own.
    Unknown,
}

impl PrimitiveType {
    ghost use Rattle.std.specs.Prelude.{◌≡◌};
    ghost use Rattle.column_base.specs.DataTypes.{default_type};

    /// The data type of plain numbers of this type.
    pub fn dtype(self) -> ArrowDataType
        ensures { result ≡ default_type self }
    {
        match self {
            PrimitiveType::Int8 => ArrowDataType::Int8,
            PrimitiveType::Int16 => ArrowDataType::Int16,
            PrimitiveType::Int32 => ArrowDataType::Int32,
            PrimitiveType::Int64 => ArrowDataType::Int64,
            PrimitiveType::Int128 => ArrowDataType::Int128,
            PrimitiveType::UInt8 => ArrowDataType::UInt8,
            PrimitiveType::UInt16 => ArrowDataType::UInt16,
            PrimitiveType::UInt32 => ArrowDataType::UInt32,
            PrimitiveType::UInt64 => ArrowDataType::UInt64,
            PrimitiveType::DaysMs => ArrowDataType::Interval(IntervalUnit::DayTime),
            PrimitiveType::MonthDayNano => ArrowDataType::Interval(IntervalUnit::MonthDayNano),
        }
    }
}

impl ArrowDataType {
    ghost use Rattle.std.specs.Prelude.{◌≡◌};
    ghost use Rattle.column_base.specs.DataTypes.{physical_type};

    /// The physical type that arrays of this data type are laid out in.
    pub fn to_physical_type(&self) -> PhysicalType
        ensures { result ≡ physical_type self.now }
    {
        match self {
            ArrowDataType::Boolean => PhysicalType::Boolean,
            ArrowDataType::Int8 => PhysicalType::Primitive(PrimitiveType::Int8),
            ArrowDataType::Int16 => PhysicalType::Primitive(PrimitiveType::Int16),
            ArrowDataType::Int32
            | ArrowDataType::Date32
            | ArrowDataType::Time32(_)
            | ArrowDataType::Interval(IntervalUnit::YearMonth) => {
                PhysicalType::Primitive(PrimitiveType::Int32)
            }
            ArrowDataType::Int64
            | ArrowDataType::Date64
            | ArrowDataType::Timestamp(_)
            | ArrowDataType::Time64(_)
            | ArrowDataType::Duration(_) => PhysicalType::Primitive(PrimitiveType::Int64),
            ArrowDataType::Int128 | ArrowDataType::Decimal(_, _) => {
                PhysicalType::Primitive(PrimitiveType::Int128)
            }
            ArrowDataType::UInt8 => PhysicalType::Primitive(PrimitiveType::UInt8),
            ArrowDataType::UInt16 => PhysicalType::Primitive(PrimitiveType::UInt16),
            ArrowDataType::UInt32 => PhysicalType::Primitive(PrimitiveType::UInt32),
            ArrowDataType::UInt64 => PhysicalType::Primitive(PrimitiveType::UInt64),
            ArrowDataType::Interval(IntervalUnit::DayTime) => {
                PhysicalType::Primitive(PrimitiveType::DaysMs)
            }
            ArrowDataType::Interval(IntervalUnit::MonthDayNano) => {
                PhysicalType::Primitive(PrimitiveType::MonthDayNano)
            }
            ArrowDataType::Binary => PhysicalType::Binary,
            ArrowDataType::LargeBinary => PhysicalType::LargeBinary,
            ArrowDataType::FixedSizeBinary(_) => PhysicalType::FixedSizeBinary,
            ArrowDataType::Utf8 => PhysicalType::Utf8,
            ArrowDataType::LargeUtf8 => PhysicalType::LargeUtf8,
            ArrowDataType::BinaryView => PhysicalType::BinaryView,
            ArrowDataType::Utf8View => PhysicalType::Utf8View,
            ArrowDataType::Unknown => PhysicalType::Unknown,
        }
    }

    /// The data type itself: no data type here stands for another one.
    pub fn to_logical_type(&self) -> ArrowDataType
        ensures { result ≡ self.now }
    {
        *self
    }
}
