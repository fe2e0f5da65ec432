//! What a call of the library refuses, and why.

ghost use Rattle.std.specs.Prelude.{◌≡◌};
ghost use Rattle.column_base.specs.declared.errors.PolarsError.TheVariants.{NoMemory};

use std::alloc::{AllocError, AllocFailed};

/// Why parts, a step or a call is refused.
///
/// The variants stand in the order in which the documentation lists them, which is also the order of their texts
/// in [`Cause::name`].
#[derive(Clone, Copy, Debug, PartialEq, Eq)]
pub enum Cause {
    /// The offsets are an empty list: n slots have n + 1 offsets.
    OffsetsEmpty,
    /// The first offset is below 0.
    OffsetsNegative,
    /// Some offset is below the one before it.
    OffsetsNotMonotone,
    /// The last offset is greater than the number of value bytes.
    OffsetsExceedValues,
    /// In a builder, the last offset is below the number of value bytes.
    OffsetsNotFull,
    /// A validity is given whose length is not the number of slots.
    ValidityLength,
    /// A fixed width is 0.
    SizeZero,
    /// The number of value bytes is no multiple of a width above 0.
    NotMultiple,
    /// Text that has to be UTF-8 is not: the bytes from the first to the last offset, or the content of a view.
    InvalidUtf8,
    /// The bytes from the first to the last offset are UTF-8, and some slot by itself is not.
    CharBoundary,
    /// A view of length below 12 has a byte other than 0 after its content.
    NonZeroPadding,
    /// A view longer than 12, in range, has a prefix other than the first four bytes of its range.
    PrefixMismatch,
    /// A view longer than 12 names a buffer that is not there.
    ViewIndex,
    /// The range of a view longer than 12 ends past its buffer.
    BufferSlice,
    /// The physical type of the data type is not the array's.
    WrongDataType,
    /// The length of a row is not the fixed width, or not 8 where the slots are whole numbers of 64 bits.
    WrongLength,
    /// A stated maximum is passed.
    Overflow,
    /// The first bad key is negative.
    KeyNotUsize,
    /// The first bad key is at least `len`.
    KeyOutOfRange {
        /// The key.
        key: usize,
        /// The number of values that keys may name.
        len: usize,
    },
    /// A step reaches past the number of slots.
    StepRange,
    /// A step does not fit the kind of column.
    WrongKind,
}

impl Cause {
    ghost use Rattle.column_base.specs.Errors.{name_of};

    /// The name of the variant, as it is printed.
    pub fn name(&self) -> &'static str
        ensures { result.now ≡ name_of self.now }
    {
        match self {
            Cause::OffsetsEmpty => "OffsetsEmpty",
            Cause::OffsetsNegative => "OffsetsNegative",
            Cause::OffsetsNotMonotone => "OffsetsNotMonotone",
            Cause::OffsetsExceedValues => "OffsetsExceedValues",
            Cause::OffsetsNotFull => "OffsetsNotFull",
            Cause::ValidityLength => "ValidityLength",
            Cause::SizeZero => "SizeZero",
            Cause::NotMultiple => "NotMultiple",
            Cause::InvalidUtf8 => "InvalidUtf8",
            Cause::CharBoundary => "CharBoundary",
            Cause::NonZeroPadding => "NonZeroPadding",
            Cause::PrefixMismatch => "PrefixMismatch",
            Cause::ViewIndex => "ViewIndex",
            Cause::BufferSlice => "BufferSlice",
            Cause::WrongDataType => "WrongDataType",
            Cause::WrongLength => "WrongLength",
            Cause::Overflow => "Overflow",
            Cause::KeyNotUsize => "KeyNotUsize",
            Cause::KeyOutOfRange { .. } => "KeyOutOfRange",
            Cause::StepRange => "StepRange",
            Cause::WrongKind => "WrongKind",
        }
    }
}

/// What a call answers in place of a value: a cause, or that no memory was there.
///
/// A view that names a buffer or a range that is not there comes as `OutOfBounds`, every other cause as
/// `ComputeError`.
#[derive(Clone, Copy, Debug, PartialEq, Eq)]
pub enum PolarsError {
    /// The parts or arguments are refused.
    ComputeError(Cause),
    /// A view reaches outside its buffers.
    OutOfBounds(Cause),
    /// A growth found no memory.
    NoMemory,
}

impl From<Cause> for PolarsError {
    ghost use Rattle.std.specs.Prelude.{◌≡◌};
    ghost use Rattle.column_base.specs.Errors.{error_of};

    ghost from_gives = { λ cause error. error ≡ error_of cause };

    fn from(cause: Cause) -> PolarsError {
        match cause {
            Cause::ViewIndex | Cause::BufferSlice => PolarsError::OutOfBounds(cause),
            _ => PolarsError::ComputeError(cause),
        }
    }
}

impl From<AllocError> for PolarsError {
    ghost from_gives = { λ _ error. error ≡ NoMemory };

    fn from(_error: AllocError) -> PolarsError {
        PolarsError::NoMemory
    }
}

impl<T: Drop> From<AllocFailed<T>> for PolarsError {
    ghost from_gives = { λ _ error. error ≡ NoMemory };

    fn from(_error: AllocFailed<T>) -> PolarsError {
        PolarsError::NoMemory
    }
}
