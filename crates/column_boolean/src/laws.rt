//! Laws of lists of truth values: what their slots are, the law of slices, and how slots come and go in a builder.

ghost use Rattle.std.specs.Prelude.{◌≡◌, ◌↔◌, ℕ, ◌+◌, ◌-◌, ◌<◌, ◌≤◌, Bool, List, [], ◌∷◌, ◌++◌, length, map, take, option_map, Option, None};
ghost use Rattle.column_base.specs.Lists.{sublist};
ghost use Rattle.column_base.specs.Slots.{slot_at, rows_of};
ghost use Rattle.column_base.specs.Pushes.{grown};
ghost use Rattle.column_storage.specs.Bits.{flags_of};
ghost use Rattle.column_boolean.specs.Slots.{BooleanLists, boolean_count, boolean_slots, boolean_fault, byte_of, sliced_booleans, AreSoundBooleans};
ghost use Rattle.column_boolean.specs.Rows.{boolean_rows, pushed_row, row_growth, slot_of, first_booleans, frozen_lists};

/// Law of sound lists: no fault is found exactly where the lists are sound.
pub fn no_fault_is_sound()
    ensures { (lists : BooleanLists) → (boolean_fault lists ≡ None) ↔ AreSoundBooleans lists }
{}

/// There are as many slots as are counted, and as many flags.
pub fn slots_are_counted()
    ensures slots { (lists : BooleanLists) → AreSoundBooleans lists → length (boolean_slots lists) ≡ boolean_count lists }
    ensures flags { (lists : BooleanLists) → AreSoundBooleans lists → length (flags_of (boolean_count lists) lists.flags) ≡ boolean_count lists }
{}

/// The flags that are read of a slice are those of its slots.
pub fn flags_of_slice()
    ensures { (lists : BooleanLists) (from n : ℕ) → AreSoundBooleans lists → from + n ≤ boolean_count lists
        → flags_of n (sliced_booleans lists from n).flags ≡ sublist (flags_of (boolean_count lists) lists.flags) from n }
{}

/// The slots of a slice are those that it names.
pub fn slice_is_part()
    ensures { (lists : BooleanLists) (from n : ℕ) → AreSoundBooleans lists → from + n ≤ boolean_count lists
        → boolean_slots (sliced_booleans lists from n) ≡ sublist (boolean_slots lists) from n }
{}

/// A slot of a slice is the slot as many places on.
pub fn slot_of_slice()
    ensures { (lists : BooleanLists) (from n i : ℕ) → AreSoundBooleans lists → from + n ≤ boolean_count lists → i < n
        → slot_at (boolean_slots (sliced_booleans lists from n)) i ≡ slot_at (boolean_slots lists) (from + i) }
{}

/// A slice of a slice is one slice, with the same lists.
pub fn slices_are_one()
    ensures { (lists : BooleanLists) (from n start m : ℕ) → AreSoundBooleans lists → from + n ≤ boolean_count lists → start + m ≤ n
        → sliced_booleans (sliced_booleans lists from n) start m ≡ sliced_booleans lists (from + start) m }
{}

/// The front and the back of a split are the whole.
pub fn split_is_whole()
    ensures { (lists : BooleanLists) (place : ℕ) → AreSoundBooleans lists → place ≤ boolean_count lists
        → boolean_slots (sliced_booleans lists 0 place) ++ boolean_slots (sliced_booleans lists place (boolean_count lists - place)) ≡ boolean_slots lists }
{}

/// The rows of the slots are the rows of truth values, each as its byte.
pub fn rows_are_bytes()
    ensures { (lists : BooleanLists) → AreSoundBooleans lists → rows_of (boolean_slots lists) ≡ map (option_map byte_of) (boolean_rows lists) }
{}

/// A pushed row adds its slot.
pub fn push_adds_a_slot()
    ensures { (lists : BooleanLists) (row : Option Bool) → AreSoundBooleans lists → boolean_slots (pushed_row lists row) ≡ boolean_slots lists ++ slot_of row ∷ [] }
{}

/// Rows that are pushed one after another add their slots.
pub fn pushes_add_slots()
    ensures { (lists : BooleanLists) (rows : List (Option Bool)) → AreSoundBooleans lists
        → boolean_slots (grown row_growth lists rows) ≡ boolean_slots lists ++ map slot_of rows }
{}

/// The lists of the first slots have the first of the slots.
pub fn first_slots_are_first()
    ensures { (lists : BooleanLists) (n : ℕ) → n ≤ boolean_count lists → boolean_slots (first_booleans lists n) ≡ take n (boolean_slots lists) }
{}

/// Frozen lists have the same slots.
pub fn frozen_slots_are_same()
    ensures { (lists : BooleanLists) → AreSoundBooleans lists → boolean_slots (frozen_lists lists) ≡ boolean_slots lists }
{}
