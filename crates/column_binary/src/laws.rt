//! Laws of lists with offsets: what their slots are, the law of slices, and how slots come and go in a builder.

ghost use Rattle.std.specs.Prelude.{◌≡◌, ◌↔◌, ℕ, ◌+◌, ◌-◌, ◌<◌, ◌≤◌, pos, ◌+ℤ◌, ◌≤ℤ◌, List, [], ◌∷◌, ◌++◌, length, map, take, sum, Option, None};
ghost use Rattle.column_base.specs.Lists.{sublist};
ghost use Rattle.column_base.specs.Slots.{slot_at};
ghost use Rattle.column_base.specs.Pushes.{grown, growth_fault};
ghost use Rattle.column_storage.specs.Bits.{flags_of};
ghost use Rattle.column_offset.specs.Offsets.{AreSoundOffsets, last_of};
ghost use Rattle.column_offset.specs.Growth.{limit_fault};
ghost use Rattle.column_binary.specs.Slots.{OffsetLists, slot_count, offset_slots, array_fault, sliced_lists, AreSoundLists};
ghost use Rattle.column_binary.specs.Rows.{AreFullLists, pushed_row, slot_of, row_length, row_growth, first_slots, used_lists, joined_lists, frozen_lists};

/// Law of sound lists: over sound offsets no fault is found exactly where the lists are sound.
pub fn no_fault_is_sound()
    ensures { (lists : OffsetLists) → AreSoundOffsets lists.offsets → (array_fault lists ≡ None) ↔ AreSoundLists lists }
{}

/// There are as many slots as are counted, one offset more, and as many flags.
pub fn slots_are_counted()
    ensures slots { (lists : OffsetLists) → AreSoundLists lists → length (offset_slots lists) ≡ slot_count lists }
    ensures offsets { (lists : OffsetLists) → AreSoundLists lists → length lists.offsets ≡ slot_count lists + 1 }
    ensures flags { (lists : OffsetLists) → AreSoundLists lists → length (flags_of (slot_count lists) lists.flags) ≡ slot_count lists }
{}

/// Lists with the same offsets, the same value bytes and the same flags, as they are read, have the same slots.
pub fn same_lists_same_slots()
    ensures { (a b : OffsetLists) → a.offsets ≡ b.offsets → a.values ≡ b.values
        → flags_of (slot_count a) a.flags ≡ flags_of (slot_count b) b.flags
        → offset_slots a ≡ offset_slots b }
{}

/// The flags that are read of a slice are those of its slots.
pub fn flags_of_slice()
    ensures { (lists : OffsetLists) (from n : ℕ) → AreSoundLists lists → from + n ≤ slot_count lists
        → flags_of n (sliced_lists lists from n).flags ≡ sublist (flags_of (slot_count lists) lists.flags) from n }
{}

/// The slots of a slice are those that it names.
pub fn slice_is_part()
    ensures { (lists : OffsetLists) (from n : ℕ) → AreSoundLists lists → from + n ≤ slot_count lists
        → offset_slots (sliced_lists lists from n) ≡ sublist (offset_slots lists) from n }
{}

/// A slot of a slice is the slot as many places on.
pub fn slot_of_slice()
    ensures { (lists : OffsetLists) (from n i : ℕ) → AreSoundLists lists → from + n ≤ slot_count lists → i < n
        → slot_at (offset_slots (sliced_lists lists from n)) i ≡ slot_at (offset_slots lists) (from + i) }
{}

/// A slice of a slice is one slice, with the same lists.
pub fn slices_are_one()
    ensures { (lists : OffsetLists) (from n start m : ℕ) → AreSoundLists lists → from + n ≤ slot_count lists → start + m ≤ n
        → sliced_lists (sliced_lists lists from n) start m ≡ sliced_lists lists (from + start) m }
{}

/// The front and the back of a split are the whole.
pub fn split_is_whole()
    ensures { (lists : OffsetLists) (place : ℕ) → AreSoundLists lists → place ≤ slot_count lists
        → offset_slots (sliced_lists lists 0 place) ++ offset_slots (sliced_lists lists place (slot_count lists - place)) ≡ offset_slots lists }
{}

/// A pushed row adds its slot.
pub fn push_adds_a_slot()
    ensures { (lists : OffsetLists) (row : Option (List ℕ)) → AreFullLists lists → offset_slots (pushed_row lists row) ≡ offset_slots lists ++ slot_of row ∷ [] }
{}

/// Rows that are pushed one after another add their slots.
pub fn pushes_add_slots()
    ensures { (greatest : ℕ) (lists : OffsetLists) (rows : List (Option (List ℕ))) → AreFullLists lists
        → offset_slots (grown (row_growth greatest) lists rows) ≡ offset_slots lists ++ map slot_of rows }
{}

/// Of rows that are pushed one after another one is refused exactly where the bytes of all together pass the type.
pub fn rows_fit_together()
    ensures { (greatest : ℕ) (lists : OffsetLists) (rows : List (Option (List ℕ))) → last_of lists.offsets ≤ℤ pos greatest
        → growth_fault (row_growth greatest) lists rows ≡ limit_fault greatest (last_of lists.offsets +ℤ pos (sum (map row_length rows))) }
{}

/// The lists of the first slots have the first of the slots.
pub fn first_slots_are_first()
    ensures { (lists : OffsetLists) (n : ℕ) → AreFullLists lists → n ≤ slot_count lists → offset_slots (first_slots lists n) ≡ take n (offset_slots lists) }
{}

/// Lists after others have the slots of both.
pub fn joined_slots_are_both()
    ensures { (lists others : OffsetLists) → AreFullLists lists → AreFullLists others → offset_slots (joined_lists lists others) ≡ offset_slots lists ++ offset_slots others }
{}

/// Frozen lists have the same slots.
pub fn frozen_slots_are_same()
    ensures { (lists : OffsetLists) → AreFullLists lists → offset_slots (frozen_lists lists) ≡ offset_slots lists }
{}

/// Value bytes past the last offset are those of no slot.
pub fn used_slots_are_same()
    ensures { (lists : OffsetLists) → AreSoundLists lists → offset_slots (used_lists lists) ≡ offset_slots lists }
{}
