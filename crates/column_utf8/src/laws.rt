//! A law of the lists of texts with offsets.

ghost use Rattle.std.specs.Prelude.{◌≡◌, ◌↔◌, None};
ghost use Rattle.column_offset.specs.Offsets.{AreSoundOffsets};
ghost use Rattle.column_binary.specs.Slots.{OffsetLists};
ghost use Rattle.column_utf8.specs.Texts.{text_array_fault, AreSoundTexts};

/// Law of sound texts: over sound offsets no fault is found exactly where the lists are sound and each slot by itself is
/// UTF-8.
pub fn no_fault_is_sound()
    ensures { (lists : OffsetLists) → AreSoundOffsets lists.offsets → (text_array_fault lists ≡ None) ↔ AreSoundTexts lists }
{}
