//! Numbers of a fixed number of bytes.

ghost use Rattle.std.specs.Prelude.{◌≡◌, ℕ, ◌++◌, ◌-◌, ◌^◌, ◌<◌, replicate, pos, FitsSigned, refl};
ghost use Rattle.std.specs.Int.{w8, w16, w32, w64, w128, to_le_bytes, from_le_bytes};
ghost use Rattle.column_base.specs.declared.datatypes.PrimitiveType.TheVariants.{Int8, Int16, Int32, Int64, Int128, UInt8, UInt16, UInt32, UInt64};
ghost use Rattle.column_base.specs.Native.{signed_bytes, signed_of};
ghost use Rattle.column_base.specs.NativeLaws.{signed_back, unsigned_back, same_number, same_count};

use crate::datatypes::PrimitiveType;

/// A number of a fixed number of bytes, as it lies in a buffer.
///
/// Arrow columnar format, "Fixed-size Primitive Layout" and "Byte Order": little-endian, signed numbers in two's
/// complement.
pub trait NativeType: Copy + Eq {
    ghost use Rattle.std.specs.Prelude.{◌≡◌, ℕ, ◌-◌, List, ◌++◌, length, replicate, true};
    ghost use Rattle.column_base.specs.declared.datatypes.PrimitiveType.{PrimitiveType};

    ghost PRIMITIVE: { PrimitiveType };

    ghost SIZE: { ℕ };

    // of all that contracts could name in its place, a value of the type
    ghost is_value: { Self → Type 0 };

    ghost zero_value: { Self };

    // the value's bytes, the lowest first
    ghost le_bytes: { Self → List ℕ };

    // what bytes are read as
    ghost of_le16: { List ℕ → Self };

    /// The physical type.
    const PRIMITIVE: PrimitiveType;

    /// How many bytes a value has.
    const SIZE: usize;

    /// The number 0, or 0 in each part.
    fn zero() -> Self
        ensures { result ≡ zero_value };

    /// The value's bytes, little-endian, and zeros behind them.
    fn to_le16(self) -> [u8; 16]
        ensures { result ≡ le_bytes self ++ replicate (16 - SIZE) 0 };

    /// The value that the first `SIZE` bytes are, little-endian.
    fn from_le16(bytes: [u8; 16]) -> Self
        ensures { result ≡ of_le16 bytes };

    /// Tells proofs that a value lies within the type.
    fn known(self)
        ensures { is_value self };

    ghost sized: { (x : Self) → length (le_bytes x) ≡ SIZE };

    ghost back: { (x : Self) → is_value x → of_le16 (le_bytes x ++ replicate (16 - SIZE) 0) ≡ x };

    ghost same: { (x y : Self) → Self.eq x y ≡ true → x ≡ y };
}

impl NativeType for i8 {
    ghost PRIMITIVE = { Int8 };

    ghost SIZE = { 1 };

    ghost is_value = { FitsSigned w8 };

    ghost zero_value = { pos 0 };

    ghost le_bytes = { signed_bytes w8 };

    ghost of_le16 = { signed_of w8 };

    ghost sized = { λ x. refl };

    ghost back = { signed_back w8 };

    ghost same = { same_number };

    const PRIMITIVE: PrimitiveType = PrimitiveType::Int8;

    const SIZE: usize = 1;

    fn zero() -> i8 {
        0
    }

    fn to_le16(self) -> [u8; 16] {
        let [a] = self.to_le_bytes();
        [a, 0, 0, 0, 0, 0, 0, 0, 0, 0, 0, 0, 0, 0, 0, 0]
    }

    fn from_le16(bytes: [u8; 16]) -> i8 {
        i8::from_le_bytes([bytes[0]])
    }

    fn known(self) {}
}

impl NativeType for i16 {
    ghost PRIMITIVE = { Int16 };

    ghost SIZE = { 2 };

    ghost is_value = { FitsSigned w16 };

    ghost zero_value = { pos 0 };

    ghost le_bytes = { signed_bytes w16 };

    ghost of_le16 = { signed_of w16 };

    ghost sized = { λ x. refl };

    ghost back = { signed_back w16 };

    ghost same = { same_number };

    const PRIMITIVE: PrimitiveType = PrimitiveType::Int16;

    const SIZE: usize = 2;

    fn zero() -> i16 {
        0
    }

    fn to_le16(self) -> [u8; 16] {
        let [a, b] = self.to_le_bytes();
        [a, b, 0, 0, 0, 0, 0, 0, 0, 0, 0, 0, 0, 0, 0, 0]
    }

    fn from_le16(bytes: [u8; 16]) -> i16 {
        i16::from_le_bytes([bytes[0], bytes[1]])
    }

    fn known(self) {}
}

impl NativeType for i32 {
    ghost PRIMITIVE = { Int32 };

    ghost SIZE = { 4 };

    ghost is_value = { FitsSigned w32 };

    ghost zero_value = { pos 0 };

    ghost le_bytes = { signed_bytes w32 };

    ghost of_le16 = { signed_of w32 };

    ghost sized = { λ x. refl };

    ghost back = { signed_back w32 };

    ghost same = { same_number };

    const PRIMITIVE: PrimitiveType = PrimitiveType::Int32;

    const SIZE: usize = 4;

    fn zero() -> i32 {
        0
    }

    fn to_le16(self) -> [u8; 16] {
        let [a, b, c, d] = self.to_le_bytes();
        [a, b, c, d, 0, 0, 0, 0, 0, 0, 0, 0, 0, 0, 0, 0]
    }

    fn from_le16(bytes: [u8; 16]) -> i32 {
        i32::from_le_bytes([bytes[0], bytes[1], bytes[2], bytes[3]])
    }

    fn known(self) {}
}

impl NativeType for i64 {
    ghost PRIMITIVE = { Int64 };

    ghost SIZE = { 8 };

    ghost is_value = { FitsSigned w64 };

    ghost zero_value = { pos 0 };

    ghost le_bytes = { signed_bytes w64 };

    ghost of_le16 = { signed_of w64 };

    ghost sized = { λ x. refl };

    ghost back = { signed_back w64 };

    ghost same = { same_number };

    const PRIMITIVE: PrimitiveType = PrimitiveType::Int64;

    const SIZE: usize = 8;

    fn zero() -> i64 {
        0
    }

    fn to_le16(self) -> [u8; 16] {
        let [a, b, c, d, e, f, g, h] = self.to_le_bytes();
        [a, b, c, d, e, f, g, h, 0, 0, 0, 0, 0, 0, 0, 0]
    }

    fn from_le16(bytes: [u8; 16]) -> i64 {
        i64::from_le_bytes([
            bytes[0], bytes[1], bytes[2], bytes[3], bytes[4], bytes[5], bytes[6], bytes[7],
        ])
    }

    fn known(self) {}
}

impl NativeType for i128 {
    ghost PRIMITIVE = { Int128 };

    ghost SIZE = { 16 };

    ghost is_value = { FitsSigned w128 };

    ghost zero_value = { pos 0 };

    ghost le_bytes = { signed_bytes w128 };

    ghost of_le16 = { signed_of w128 };

    ghost sized = { λ x. refl };

    ghost back = { signed_back w128 };

    ghost same = { same_number };

    const PRIMITIVE: PrimitiveType = PrimitiveType::Int128;

    const SIZE: usize = 16;

    fn zero() -> i128 {
        0
    }

    fn to_le16(self) -> [u8; 16] {
        self.to_le_bytes()
    }

    fn from_le16(bytes: [u8; 16]) -> i128 {
        i128::from_le_bytes(bytes)
    }

    fn known(self) {}
}

impl NativeType for u8 {
    ghost PRIMITIVE = { UInt8 };

    ghost SIZE = { 1 };

    ghost is_value = { λ n. n < 2 ^ 8 };

    ghost zero_value = { 0 };

    ghost le_bytes = { to_le_bytes w8 };

    ghost of_le16 = { from_le_bytes w8 };

    ghost sized = { λ x. refl };

    ghost back = { unsigned_back w8 };

    ghost same = { same_count };

    const PRIMITIVE: PrimitiveType = PrimitiveType::UInt8;

    const SIZE: usize = 1;

    fn zero() -> u8 {
        0
    }

    fn to_le16(self) -> [u8; 16] {
        let [a] = self.to_le_bytes();
        [a, 0, 0, 0, 0, 0, 0, 0, 0, 0, 0, 0, 0, 0, 0, 0]
    }

    fn from_le16(bytes: [u8; 16]) -> u8 {
        u8::from_le_bytes([bytes[0]])
    }

    fn known(self) {}
}

impl NativeType for u16 {
    ghost PRIMITIVE = { UInt16 };

    ghost SIZE = { 2 };

    ghost is_value = { λ n. n < 2 ^ 16 };

    ghost zero_value = { 0 };

    ghost le_bytes = { to_le_bytes w16 };

    ghost of_le16 = { from_le_bytes w16 };

    ghost sized = { λ x. refl };

    ghost back = { unsigned_back w16 };

    ghost same = { same_count };

    const PRIMITIVE: PrimitiveType = PrimitiveType::UInt16;

    const SIZE: usize = 2;

    fn zero() -> u16 {
        0
    }

    fn to_le16(self) -> [u8; 16] {
        let [a, b] = self.to_le_bytes();
        [a, b, 0, 0, 0, 0, 0, 0, 0, 0, 0, 0, 0, 0, 0, 0]
    }

    fn from_le16(bytes: [u8; 16]) -> u16 {
        u16::from_le_bytes([bytes[0], bytes[1]])
    }

    fn known(self) {}
}

impl NativeType for u32 {
    ghost PRIMITIVE = { UInt32 };

    ghost SIZE = { 4 };

    ghost is_value = { λ n. n < 2 ^ 32 };

    ghost zero_value = { 0 };

    ghost le_bytes = { to_le_bytes w32 };

    ghost of_le16 = { from_le_bytes w32 };

    ghost sized = { λ x. refl };

    ghost back = { unsigned_back w32 };

    ghost same = { same_count };

    const PRIMITIVE: PrimitiveType = PrimitiveType::UInt32;

    const SIZE: usize = 4;

    fn zero() -> u32 {
        0
    }

    fn to_le16(self) -> [u8; 16] {
        let [a, b, c, d] = self.to_le_bytes();
        [a, b, c, d, 0, 0, 0, 0, 0, 0, 0, 0, 0, 0, 0, 0]
    }

    fn from_le16(bytes: [u8; 16]) -> u32 {
        u32::from_le_bytes([bytes[0], bytes[1], bytes[2], bytes[3]])
    }

    fn known(self) {}
}

impl NativeType for u64 {
    ghost PRIMITIVE = { UInt64 };

    ghost SIZE = { 8 };

    ghost is_value = { λ n. n < 2 ^ 64 };

    ghost zero_value = { 0 };

    ghost le_bytes = { to_le_bytes w64 };

    ghost of_le16 = { from_le_bytes w64 };

    ghost sized = { λ x. refl };

    ghost back = { unsigned_back w64 };

    ghost same = { same_count };

    const PRIMITIVE: PrimitiveType = PrimitiveType::UInt64;

    const SIZE: usize = 8;

    fn zero() -> u64 {
        0
    }

    fn to_le16(self) -> [u8; 16] {
        let [a, b, c, d, e, f, g, h] = self.to_le_bytes();
        [a, b, c, d, e, f, g, h, 0, 0, 0, 0, 0, 0, 0, 0]
    }

    fn from_le16(bytes: [u8; 16]) -> u64 {
        u64::from_le_bytes([
            bytes[0], bytes[1], bytes[2], bytes[3], bytes[4], bytes[5], bytes[6], bytes[7],
        ])
    }

    fn known(self) {}
}
