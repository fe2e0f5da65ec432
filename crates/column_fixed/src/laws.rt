//! Laws of lists of one width: what their slots are, the law of slices, and how slots come and go in a builder.

ghost use Rattle.std.specs.Prelude.{◌≡◌, ◌↔◌, ℕ, ◌+◌, ◌-◌, ◌*◌, ◌<◌, ◌≤◌, true, List, [], ◌∷◌, ◌++◌, length, map, take, not, Option, None};
ghost use Rattle.std.specs.List.{list_all};
ghost use Rattle.column_base.specs.declared.errors.Cause.TheVariants.{WrongLength};
ghost use Rattle.column_base.specs.Answers.{cause_if};
ghost use Rattle.column_base.specs.Lists.{sublist};
ghost use Rattle.column_base.specs.Slots.{slot_at, rows_of};
ghost use Rattle.column_base.specs.Pushes.{grown, growth_fault};
ghost use Rattle.column_storage.specs.Bits.{flags_of};
ghost use Rattle.column_fixed.specs.Slots.{FixedLists, fixed_count, fixed_slots, fixed_fault, sliced_fixed, AreSoundFixed};
ghost use Rattle.column_fixed.specs.Rows.{GrowingFixed, pushed_row, row_fault, row_growth, slot_of, is_of_width, first_slots, joined_lists, are_same_rows};

/// Law of sound lists: no fault is found exactly where the lists are sound.
pub fn no_fault_is_sound()
    ensures { (lists : FixedLists) → (fixed_fault lists ≡ None) ↔ AreSoundFixed lists }
{}

/// There are as many slots as are counted, as many flags, and as many bytes as all slots have together.
pub fn slots_are_counted()
    ensures slots { (lists : FixedLists) → AreSoundFixed lists → length (fixed_slots lists) ≡ fixed_count lists }
    ensures bytes { (lists : FixedLists) → AreSoundFixed lists → fixed_count lists * lists.width ≡ length lists.values }
    ensures flags { (lists : FixedLists) → AreSoundFixed lists → length (flags_of (fixed_count lists) lists.flags) ≡ fixed_count lists }
{}

/// The bytes of a slot are as many as the width says, from its number times the width on.
pub fn bytes_of_a_slot()
    ensures { (lists : FixedLists) (i : ℕ) → AreSoundFixed lists → i < fixed_count lists
        → (slot_at (fixed_slots lists) i).bytes ≡ sublist lists.values (i * lists.width) lists.width }
{}

/// Lists of the same width with the same value bytes and the same flags, as they are read, have the same slots.
pub fn same_lists_same_slots()
    ensures { (a b : FixedLists) → a.width ≡ b.width → a.values ≡ b.values
        → flags_of (fixed_count a) a.flags ≡ flags_of (fixed_count b) b.flags
        → fixed_slots a ≡ fixed_slots b }
{}

/// The flags that are read of a slice are those of its slots.
pub fn flags_of_slice()
    ensures { (lists : FixedLists) (from n : ℕ) → AreSoundFixed lists → from + n ≤ fixed_count lists
        → flags_of n (sliced_fixed lists from n).flags ≡ sublist (flags_of (fixed_count lists) lists.flags) from n }
{}

/// The slots of a slice are those that it names.
pub fn slice_is_part()
    ensures { (lists : FixedLists) (from n : ℕ) → AreSoundFixed lists → from + n ≤ fixed_count lists
        → fixed_slots (sliced_fixed lists from n) ≡ sublist (fixed_slots lists) from n }
{}

/// A slot of a slice is the slot as many places on.
pub fn slot_of_slice()
    ensures { (lists : FixedLists) (from n i : ℕ) → AreSoundFixed lists → from + n ≤ fixed_count lists → i < n
        → slot_at (fixed_slots (sliced_fixed lists from n)) i ≡ slot_at (fixed_slots lists) (from + i) }
{}

/// A slice of a slice is one slice, with the same lists.
pub fn slices_are_one()
    ensures { (lists : FixedLists) (from n start m : ℕ) → AreSoundFixed lists → from + n ≤ fixed_count lists → start + m ≤ n
        → sliced_fixed (sliced_fixed lists from n) start m ≡ sliced_fixed lists (from + start) m }
{}

/// The front and the back of a split are the whole.
pub fn split_is_whole()
    ensures { (lists : FixedLists) (place : ℕ) → AreSoundFixed lists → place ≤ fixed_count lists
        → fixed_slots (sliced_fixed lists 0 place) ++ fixed_slots (sliced_fixed lists place (fixed_count lists - place)) ≡ fixed_slots lists }
{}

/// A pushed row adds its slot.
pub fn push_adds_a_slot()
    ensures { (lists : FixedLists) (row : Option (List ℕ)) → AreSoundFixed lists → row_fault lists row ≡ None
        → fixed_slots (pushed_row lists row) ≡ fixed_slots lists ++ slot_of lists.width row ∷ [] }
{}

/// Rows that are pushed one after another add their slots.
pub fn pushes_add_slots()
    ensures { (lists : FixedLists) (rows : List (Option (List ℕ))) → AreSoundFixed lists → growth_fault row_growth lists rows ≡ None
        → fixed_slots (grown row_growth lists rows) ≡ fixed_slots lists ++ map (slot_of lists.width) rows }
{}

/// Rows that are pushed leave the width.
pub fn pushes_keep_the_width()
    ensures { (lists : FixedLists) (rows : List (Option (List ℕ))) → (grown row_growth lists rows).width ≡ lists.width }
{}

/// Of rows that are pushed one after another one is refused exactly where one has another length.
pub fn rows_fit_together()
    ensures { (lists : FixedLists) (rows : List (Option (List ℕ)))
        → growth_fault row_growth lists rows ≡ cause_if (not (list_all (is_of_width lists.width) rows)) WrongLength }
{}

/// The lists of the first slots have the first of the slots.
pub fn first_slots_are_first()
    ensures { (lists : FixedLists) (n : ℕ) → AreSoundFixed lists → n ≤ fixed_count lists → fixed_slots (first_slots lists n) ≡ take n (fixed_slots lists) }
{}

/// Lists after others of the same width have the slots of both.
pub fn joined_slots_are_both()
    ensures { (lists others : FixedLists) → AreSoundFixed lists → AreSoundFixed others → lists.width ≡ others.width
        → fixed_slots (joined_lists lists others) ≡ fixed_slots lists ++ fixed_slots others }
{}

/// Law of row equality: two builders are equal exactly where their rows are, so that equality is an equivalence whatever
/// stands in null slots.
pub fn equal_where_rows_are()
    ensures rows { (a b : GrowingFixed) → (are_same_rows a b ≡ true) ↔ (rows_of (fixed_slots a.lists) ≡ rows_of (fixed_slots b.lists)) }
    ensures reflexive { (a : GrowingFixed) → are_same_rows a a ≡ true }
    ensures symmetric { (a b : GrowingFixed) → are_same_rows a b ≡ true → are_same_rows b a ≡ true }
    ensures transitive { (a b c : GrowingFixed) → are_same_rows a b ≡ true → are_same_rows b c ≡ true → are_same_rows a c ≡ true }
{}
