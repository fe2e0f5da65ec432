//! What every builder of a column answers.

use crate::mutable_bitmap::MutableBitmap;
use column_base::{ArrowDataType, Growing, PolarsError};

/// A column of slots that grows.
///
/// What contracts see of its slots, and how they take one more, is said by `Growing`; here besides, which data type, how
/// many slots and which flags these have, and what is added for a null.
pub trait MutableArray: Growing {
    ghost use Rattle.std.specs.Prelude.{◌≡◌, ◌==◌, ℕ, Bool, List, Option, None, OnErr};
    ghost use Rattle.std.specs.Option.{option_copied};
    ghost use Rattle.column_base.specs.declared.datatypes.ArrowDataType.{ArrowDataType};
    ghost use Rattle.column_base.specs.Answers.{Answers};
    ghost use Rattle.column_storage.specs.Bits.{bits_given};

    // the data type of the slots
    ghost data_type: { Self.Lists → ArrowDataType };

    // the number of slots
    ghost slot_count: { Self.Lists → ℕ };

    // the flags of the slots, where a validity is given
    ghost flags: { Self.Lists → Option (List Bool) };

    // what is added for a null
    ghost null: { Self.Row };

    // there is room for as many more slots; nothing where a builder does not tell it
    ghost has_room: { Self → ℕ → Type 0 };

    /// The data type of the slots.
    fn dtype(&self) -> ArrowDataType
        ensures { result ≡ data_type (Self.lists self.now) };

    /// The number of slots.
    fn len(&self) -> usize
        ensures { result ≡ slot_count (Self.lists self.now) };

    /// Whether there is no slot.
    fn is_empty(&self) -> bool
        ensures { result ≡ (slot_count (Self.lists self.now) == 0) }
    {
        self.len() == 0
    }

    /// The validity, where one is given. Arrow columnar format, "Validity bitmaps".
    fn validity(&self) -> Option<&MutableBitmap>
        ensures { bits_given (option_copied result) ≡ flags (Self.lists self.now) };

    /// Adds a null slot; a builder without a validity adds its slot for a null.
    ///
    /// `NoMemory` where there is none for it, and no other refusal. The slots are as they were then.
    fn push_null(&mut self) -> Result<(), PolarsError>
        ensures answer { Answers result None (λ _. Self.lists self.new ≡ Self.growth.pushed (Self.lists self.old) null) }
        ensures unchanged { OnErr result (Self.lists self.new ≡ Self.lists self.old) };

    /// Makes room for `additional` more slots.
    ///
    /// `NoMemory` where there is none for them, and no other refusal.
    fn reserve_slots(&mut self, additional: usize) -> Result<(), PolarsError>
        ensures answer { Answers result None (λ _. has_room self.new additional) }
        ensures same { Self.lists self.new ≡ Self.lists self.old };

    /// Gives back room that is not used.
    fn shrink_to_fit(&mut self)
        ensures { Self.lists self.new ≡ Self.lists self.old };
}
