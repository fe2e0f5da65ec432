//! Laws of arrays whose buffers were deduplicated: the slots are the same, and views name all buffers, in their order.

ghost use Rattle.std.specs.Prelude.{◌≡◌, ◌≤◌, Bool, length};
ghost use Rattle.std.specs.List.{range_with_len};
ghost use Rattle.column_binview.specs.Slots.{ViewLists, view_slots, AreSoundViews};
ghost use Rattle.column_deduped.specs.Deduped.{deduped, named};

/// Sound lists have the same slots once their buffers are deduplicated, are sound, and have no more buffers than before.
pub fn deduped_slots_are_same()
    ensures slots { (text : Bool) (lists : ViewLists) → AreSoundViews text lists → view_slots (deduped lists) ≡ view_slots lists }
    ensures sound { (text : Bool) (lists : ViewLists) → AreSoundViews text lists → AreSoundViews text (deduped lists) }
    ensures fewer { (text : Bool) (lists : ViewLists) → AreSoundViews text lists → length (deduped lists).buffers ≤ length lists.buffers }
{}

/// Once the buffers of sound lists are deduplicated, the indexes that long views hold are, each once and in the order of first
/// naming, the numbers from 0 up to, not with, the number of buffers.
pub fn names_of_deduped()
    ensures { (text : Bool) (lists : ViewLists) → AreSoundViews text lists → named (deduped lists).views ≡ range_with_len 0 (length (deduped lists).buffers) }
{}
