//! Keys that name values of another list.

ghost use Rattle.std.specs.Prelude.{◌≡◌, map, ⊤};
ghost use Rattle.column_base.specs.Answers.{Gives};
ghost use Rattle.column_offset.specs.Keys.{keys_fault};

use column_base::{Cause, PolarsError};

/// A whole number that may name a value of a list.
pub trait IndexKey: Copy {
    ghost use Rattle.std.specs.Prelude.{◌≡◌, ℕ, ℤ, pos, ◌≤ℤ◌, ◌↔◌, IsSome, IfSome};

    // the number
    ghost int: { Self → ℤ };

    /// The place that it names, or None where it is below 0.
    fn to_index(self) -> Option<usize>
        ensures some { IsSome result ↔ (pos 0 ≤ℤ int self) }
        ensures same { IfSome result (λ index. pos index ≡ int self) };
}

/// Whether each key names one of `len` values.
///
/// One pass, with no memory. The first bad key answers: `KeyNotUsize` where it is below 0, `KeyOutOfRange` with the key
/// and `len` where it is at least `len`.
pub fn check_indexes<K: IndexKey>(keys: &[K], len: usize) -> Result<(), PolarsError>
    ensures { Gives result (keys_fault (map K.int keys.now) len) (λ _. ⊤) }
{
    for key in keys {
        match key.to_index() {
            None => return Err(Cause::KeyNotUsize.into()),
            Some(key) if key >= len => return Err(Cause::KeyOutOfRange { key, len }.into()),
            Some(_) => {}
        }
    }
    Ok(())
}

impl IndexKey for i8 {
    ghost int = { λ key. key };

    fn to_index(self) -> Option<usize> {
        if self < 0 { None } else { Some(self as usize) }
    }
}

impl IndexKey for i16 {
    ghost int = { λ key. key };

    fn to_index(self) -> Option<usize> {
        if self < 0 { None } else { Some(self as usize) }
    }
}

impl IndexKey for i32 {
    ghost int = { λ key. key };

    fn to_index(self) -> Option<usize> {
        if self < 0 { None } else { Some(self as usize) }
    }
}

impl IndexKey for i64 {
    ghost int = { λ key. key };

    fn to_index(self) -> Option<usize> {
        if self < 0 { None } else { Some(self as usize) }
    }
}

impl IndexKey for u8 {
    ghost use Rattle.std.specs.Prelude.{pos};

    ghost int = { pos };

    fn to_index(self) -> Option<usize> {
        Some(self as usize)
    }
}

impl IndexKey for u16 {
    ghost use Rattle.std.specs.Prelude.{pos};

    ghost int = { pos };

    fn to_index(self) -> Option<usize> {
        Some(self as usize)
    }
}

impl IndexKey for u32 {
    ghost use Rattle.std.specs.Prelude.{pos};

    ghost int = { pos };

    fn to_index(self) -> Option<usize> {
        Some(self as usize)
    }
}

impl IndexKey for u64 {
    ghost use Rattle.std.specs.Prelude.{pos};

    ghost int = { pos };

    fn to_index(self) -> Option<usize> {
        Some(self as usize)
    }
}
