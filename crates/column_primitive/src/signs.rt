//! Signed numbers as the unsigned ones of the same bytes, and back.

ghost use Rattle.std.specs.Prelude.{◌≡◌, ℕ, ◌^◌, ◌<◌, map, None};
ghost use Rattle.std.specs.Int.{w8, w16, w32, w64, cast_signed, cast_unsigned, to_le_bytes};
ghost use Rattle.column_base.specs.declared.datatypes.ArrowDataType.TheVariants.{Int8, Int16, Int32, Int64, UInt8, UInt16, UInt32, UInt64};
ghost use Rattle.column_base.specs.DataTypes.{default_type};
ghost use Rattle.column_base.specs.Answers.{Answers};
ghost use Rattle.column_base.specs.Native.{signed_bytes};
ghost use Rattle.column_primitive.specs.Numbers.{number_lists, number_array, number_slots};

use crate::array::PrimitiveArray;
use column_base::{NativeType, PolarsError};
use column_storage::Buffer;
use std::alloc::Global;

/// A number that has the bytes of one of another type.
pub(crate) trait Recast: NativeType {
    ghost use Rattle.std.specs.Prelude.{◌≡◌};

    /// The other type.
    type Other: NativeType;

    ghost recast: { Self → Self.Other };

    /// The number of the other type with the same bytes.
    fn recast(self) -> Self::Other
        ensures value { result ≡ recast self }
        ensures bytes { Self.Other.le_bytes result ≡ Self.le_bytes self };
}

// Each number as the one of the other type with the same bytes.
//
// `NoMemory` where there is none for them.
fn recast_all<T: Recast>(alloc: Global, values: &[T]) -> Result<Vec<T::Other>, PolarsError>
    ensures { Answers result None (λ recasts. (recasts.items ≡ map T.recast values.now) × (map T.Other.le_bytes recasts.items ≡ map T.le_bytes values.now)) }
{
    let mut recasts = Vec::with_capacity(alloc, values.len())?;
    for value in values {
        recasts.push(value.recast())?;
    }
    Ok(recasts)
}

// The same flags beside the numbers of the other type with the same bytes, as plain numbers.
//
// `NoMemory` where there is none for the numbers.
#[tactic(auto, using(crate::proofs::NumbersLemmas::same_bytes))]
fn recast_array<T: Recast>(
    alloc: Global,
    array: PrimitiveArray<T>,
) -> Result<PrimitiveArray<T::Other>, PolarsError>
    ensures numbers { Answers result None (λ a. a ≡ number_array (default_type T.Other.PRIMITIVE) (number_lists (map T.recast array.lists.numbers) array.lists.flags)) }
    ensures slots { Answers result None (λ a. number_slots T.Other.le_bytes a.lists ≡ number_slots T.le_bytes array.lists) }
{
    let (_, values, validity) = array.into_inner();
    let values = Buffer::from_vec(alloc, recast_all(alloc, values.as_slice())?)?;
    let dtype = PrimitiveArray::<T::Other>::default_dtype();
    Ok(PrimitiveArray::new_unchecked(dtype, values, validity))
}

impl Recast for u8 {
    ghost use Rattle.std.specs.Int.{w8, cast_signed};

    type Other = i8;

    ghost recast = { cast_signed w8 };

    #[tactic(auto, using(crate::proofs::NumbersLemmas::casts))]
    fn recast(self) -> i8 {
        self.cast_signed()
    }
}

impl PrimitiveArray<u8> {
    /// The same flags beside signed numbers of the same bytes, as plain numbers.
    ///
    /// `NoMemory` where there is none for the numbers.
    pub fn to_signed(self, alloc: Global) -> Result<PrimitiveArray<i8>, PolarsError>
        ensures numbers { Answers result None (λ a. a ≡ number_array Int8 (number_lists (map (cast_signed w8) self.lists.numbers) self.lists.flags)) }
        ensures slots { Answers result None (λ a. number_slots (signed_bytes w8) a.lists ≡ number_slots (to_le_bytes w8) self.lists) }
    {
        recast_array(alloc, self)
    }
}

impl Recast for i8 {
    ghost use Rattle.std.specs.Int.{w8, cast_unsigned};

    type Other = u8;

    ghost recast = { cast_unsigned w8 };

    fn recast(self) -> u8 {
        self.cast_unsigned()
    }
}

impl PrimitiveArray<i8> {
    /// The same flags beside unsigned numbers of the same bytes, as plain numbers.
    ///
    /// `NoMemory` where there is none for the numbers.
    pub fn to_unsigned(self, alloc: Global) -> Result<PrimitiveArray<u8>, PolarsError>
        ensures numbers { Answers result None (λ a. a ≡ number_array UInt8 (number_lists (map (cast_unsigned w8) self.lists.numbers) self.lists.flags)) }
        ensures slots { Answers result None (λ a. number_slots (to_le_bytes w8) a.lists ≡ number_slots (signed_bytes w8) self.lists) }
    {
        recast_array(alloc, self)
    }
}

impl Recast for u16 {
    ghost use Rattle.std.specs.Int.{w16, cast_signed};

    type Other = i16;

    ghost recast = { cast_signed w16 };

    #[tactic(auto, using(crate::proofs::NumbersLemmas::casts))]
    fn recast(self) -> i16 {
        self.cast_signed()
    }
}

impl PrimitiveArray<u16> {
    /// The same flags beside signed numbers of the same bytes, as plain numbers.
    ///
    /// `NoMemory` where there is none for the numbers.
    pub fn to_signed(self, alloc: Global) -> Result<PrimitiveArray<i16>, PolarsError>
        ensures numbers { Answers result None (λ a. a ≡ number_array Int16 (number_lists (map (cast_signed w16) self.lists.numbers) self.lists.flags)) }
        ensures slots { Answers result None (λ a. number_slots (signed_bytes w16) a.lists ≡ number_slots (to_le_bytes w16) self.lists) }
    {
        recast_array(alloc, self)
    }
}

impl Recast for i16 {
    ghost use Rattle.std.specs.Int.{w16, cast_unsigned};

    type Other = u16;

    ghost recast = { cast_unsigned w16 };

    fn recast(self) -> u16 {
        self.cast_unsigned()
    }
}

impl PrimitiveArray<i16> {
    /// The same flags beside unsigned numbers of the same bytes, as plain numbers.
    ///
    /// `NoMemory` where there is none for the numbers.
    pub fn to_unsigned(self, alloc: Global) -> Result<PrimitiveArray<u16>, PolarsError>
        ensures numbers { Answers result None (λ a. a ≡ number_array UInt16 (number_lists (map (cast_unsigned w16) self.lists.numbers) self.lists.flags)) }
        ensures slots { Answers result None (λ a. number_slots (to_le_bytes w16) a.lists ≡ number_slots (signed_bytes w16) self.lists) }
    {
        recast_array(alloc, self)
    }
}

impl Recast for u32 {
    ghost use Rattle.std.specs.Int.{w32, cast_signed};

    type Other = i32;

    ghost recast = { cast_signed w32 };

    #[tactic(auto, using(crate::proofs::NumbersLemmas::casts))]
    fn recast(self) -> i32 {
        self.cast_signed()
    }
}

impl PrimitiveArray<u32> {
    /// The same flags beside signed numbers of the same bytes, as plain numbers.
    ///
    /// `NoMemory` where there is none for the numbers.
    pub fn to_signed(self, alloc: Global) -> Result<PrimitiveArray<i32>, PolarsError>
        ensures numbers { Answers result None (λ a. a ≡ number_array Int32 (number_lists (map (cast_signed w32) self.lists.numbers) self.lists.flags)) }
        ensures slots { Answers result None (λ a. number_slots (signed_bytes w32) a.lists ≡ number_slots (to_le_bytes w32) self.lists) }
    {
        recast_array(alloc, self)
    }
}

impl Recast for i32 {
    ghost use Rattle.std.specs.Int.{w32, cast_unsigned};

    type Other = u32;

    ghost recast = { cast_unsigned w32 };

    fn recast(self) -> u32 {
        self.cast_unsigned()
    }
}

impl PrimitiveArray<i32> {
    /// The same flags beside unsigned numbers of the same bytes, as plain numbers.
    ///
    /// `NoMemory` where there is none for the numbers.
    pub fn to_unsigned(self, alloc: Global) -> Result<PrimitiveArray<u32>, PolarsError>
        ensures numbers { Answers result None (λ a. a ≡ number_array UInt32 (number_lists (map (cast_unsigned w32) self.lists.numbers) self.lists.flags)) }
        ensures slots { Answers result None (λ a. number_slots (to_le_bytes w32) a.lists ≡ number_slots (signed_bytes w32) self.lists) }
    {
        recast_array(alloc, self)
    }
}

impl Recast for u64 {
    ghost use Rattle.std.specs.Int.{w64, cast_signed};

    type Other = i64;

    ghost recast = { cast_signed w64 };

    #[tactic(auto, using(crate::proofs::NumbersLemmas::casts))]
    fn recast(self) -> i64 {
        self.cast_signed()
    }
}

impl PrimitiveArray<u64> {
    /// The same flags beside signed numbers of the same bytes, as plain numbers.
    ///
    /// `NoMemory` where there is none for the numbers.
    pub fn to_signed(self, alloc: Global) -> Result<PrimitiveArray<i64>, PolarsError>
        ensures numbers { Answers result None (λ a. a ≡ number_array Int64 (number_lists (map (cast_signed w64) self.lists.numbers) self.lists.flags)) }
        ensures slots { Answers result None (λ a. number_slots (signed_bytes w64) a.lists ≡ number_slots (to_le_bytes w64) self.lists) }
    {
        recast_array(alloc, self)
    }
}

impl Recast for i64 {
    ghost use Rattle.std.specs.Int.{w64, cast_unsigned};

    type Other = u64;

    ghost recast = { cast_unsigned w64 };

    fn recast(self) -> u64 {
        self.cast_unsigned()
    }
}

impl PrimitiveArray<i64> {
    /// The same flags beside unsigned numbers of the same bytes, as plain numbers.
    ///
    /// `NoMemory` where there is none for the numbers.
    pub fn to_unsigned(self, alloc: Global) -> Result<PrimitiveArray<u64>, PolarsError>
        ensures numbers { Answers result None (λ a. a ≡ number_array UInt64 (number_lists (map (cast_unsigned w64) self.lists.numbers) self.lists.flags)) }
        ensures slots { Answers result None (λ a. number_slots (to_le_bytes w64) a.lists ≡ number_slots (signed_bytes w64) self.lists) }
    {
        recast_array(alloc, self)
    }
}
