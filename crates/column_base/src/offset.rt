//! The numbers that offsets are made of.

use crate::native::NativeType;

/// A signed number of 32 or 64 bits that counts bytes.
///
/// Arrow columnar format, "Variable-size Binary Layout": offsets are signed, of 32 bits, or of 64 in the large
/// layouts.
pub trait Offset: NativeType + Ord {
    ghost use Rattle.std.specs.Prelude.{◌≡◌, ℕ, ◌<◌, ◌≤◌, ℤ, pos, ◌+ℤ◌, ◌≤ℤ◌, Bool, ◌↔◌, IsSome, IsNone, IfSome, IsTrue};
    ghost use Rattle.std.specs.Ordering.{int_cmp, int_eq};
    ghost use Rattle.column_base.specs.Integers.{LiesWithin, greatest_offset};

    // the number
    ghost int: { Self → ℤ };

    ghost GREATEST: { ℕ };

    ghost IS_LARGE: { Bool };

    /// The greatest value of the type.
    const GREATEST: usize;

    /// Whether offsets have 64 bits, as in the large layouts.
    const IS_LARGE: bool;

    /// The number as an offset, or None where it is above the greatest value.
    fn from_usize(n: usize) -> Option<Self>
        ensures within { IsSome result ↔ (n ≤ GREATEST) }
        ensures same { IfSome result (λ offset. int offset ≡ pos n) };

    /// The number as an offset.
    fn from_as_usize(n: usize) -> Self
        requires { n ≤ GREATEST }
        ensures { int result ≡ pos n };

    /// The offset as a place in bytes.
    fn to_usize(&self) -> usize
        requires { pos 0 ≤ℤ int self.now }
        ensures same { pos result ≡ int self.now }
        ensures within { result ≤ GREATEST };

    /// The sum, or None where it lies outside the type.
    fn checked_add(&self, other: &Self) -> Option<Self>
        ensures within { IsSome result ↔ LiesWithin GREATEST (int self.now +ℤ int other.now) }
        ensures sum { IfSome result (λ offset. int offset ≡ int self.now +ℤ int other.now) };

    ghost greatest: { greatest_offset Self.IS_LARGE ≡ Self.GREATEST };

    ghost zero_is: { int Self.zero_value ≡ pos 0 };

    ghost exact: { (a b : Self) → int a ≡ int b → a ≡ b };

    ghost equal: { (a b : Self) → Self.eq a b ≡ int_eq (int a) (int b) };

    ghost ordered: { (a b : Self) → Self.cmp a b ≡ int_cmp (int a) (int b) };
}

impl Offset for i32 {
    ghost use Rattle.std.specs.Prelude.{refl, false};

    ghost int = { λ n. n };

    ghost GREATEST = { 2147483647 };

    ghost IS_LARGE = { false };

    ghost greatest = { refl };

    ghost zero_is = { refl };

    ghost exact = { λ a b same. same };

    ghost equal = { λ a b. refl };

    ghost ordered = { λ a b. refl };

    const GREATEST: usize = 2147483647;

    const IS_LARGE: bool = false;

    fn from_usize(n: usize) -> Option<i32> {
        if n <= 2147483647 {
            Some(n as i32)
        } else {
            None
        }
    }

    fn from_as_usize(n: usize) -> i32 {
        n as i32
    }

    fn to_usize(&self) -> usize {
        *self as usize
    }

    fn checked_add(&self, other: &i32) -> Option<i32> {
        i32::checked_add(*self, *other)
    }
}

impl Offset for i64 {
    ghost use Rattle.std.specs.Prelude.{refl, true};

    ghost int = { λ n. n };

    ghost GREATEST = { 9223372036854775807 };

    ghost IS_LARGE = { true };

    ghost greatest = { refl };

    ghost zero_is = { refl };

    ghost exact = { λ a b same. same };

    ghost equal = { λ a b. refl };

    ghost ordered = { λ a b. refl };

    const GREATEST: usize = 9223372036854775807;

    const IS_LARGE: bool = true;

    fn from_usize(n: usize) -> Option<i64> {
        if n <= 9223372036854775807 {
            Some(n as i64)
        } else {
            None
        }
    }

    fn from_as_usize(n: usize) -> i64 {
        n as i64
    }

    fn to_usize(&self) -> usize {
        *self as usize
    }

    fn checked_add(&self, other: &i64) -> Option<i64> {
        i64::checked_add(*self, *other)
    }
}
