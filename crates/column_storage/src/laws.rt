//! Laws of slots that are flags beside values, for arrays of every layout. Each is the contract of a call with an empty
//! body. A layout says of its lists only which values they are, and that the values of a part are a part of the values.

ghost use Rattle.std.specs.Prelude.{◌≡◌, ◌↔◌, ℕ, ◌+◌, ◌<◌, ◌≤◌, ◌++◌, ◌∷◌, Bool, not, List, [], length, take, count_by, slice_index_or, Option, None, option_map};
ghost use Rattle.std.specs.List.{filter_map};
ghost use Rattle.column_base.specs.Lists.{sublist};
ghost use Rattle.column_base.specs.Slots.{slot_at, values_of, row_of, rows_of};
ghost use Rattle.column_storage.specs.Bits.{flags_of, frozen_flags, given_bits, joined_flags, optional_values, pushed_flag, sliced_flags, valid_values};
ghost use Rattle.column_storage.specs.Slots.{flagged_slots};
ghost use Rattle.column_storage.specs.Validity.{AreFlagsOf, flags_fault, is_valid_at};

/// Flags are without a fault exactly where, if they are given, they are as many as the slots.
pub fn no_fault_is_as_many()
    ensures { (n : ℕ) (flags : Option (List Bool)) → (flags_fault n flags ≡ None) ↔ AreFlagsOf n flags }
{}

/// There are as many slots as values, and these are their bytes.
pub fn slots_are_values()
    ensures count { (flags : Option (List Bool)) (values : List (List ℕ)) → AreFlagsOf (length values) flags
        → length (flagged_slots flags values) ≡ length values }
    ensures bytes { (flags : Option (List Bool)) (values : List (List ℕ)) → AreFlagsOf (length values) flags
        → values_of (flagged_slots flags values) ≡ values }
{}

/// A slot has the value at its place, and the flag there, where flags are given; else it is valid.
pub fn slot_is_flag_and_value()
    ensures bytes { (flags : Option (List Bool)) (values : List (List ℕ)) (i : ℕ) → AreFlagsOf (length values) flags → i < length values
        → (slot_at (flagged_slots flags values) i).bytes ≡ slice_index_or values i [] }
    ensures valid { (flags : Option (List Bool)) (values : List (List ℕ)) (i : ℕ) → AreFlagsOf (length values) flags → i < length values
        → (slot_at (flagged_slots flags values) i).valid ≡ is_valid_at flags i }
{}

/// Flags that are read alike beside the same values are the same slots: whether flags that are all true are given or
/// not.
pub fn same_flags_same_slots()
    ensures { (a b : Option (List Bool)) (values : List (List ℕ)) → flags_of (length values) a ≡ flags_of (length values) b
        → flagged_slots a values ≡ flagged_slots b values }
{}

/// The flags of a part are as many as it has slots, and are read as a part of the flags.
pub fn flags_of_part()
    ensures count { (flags : Option (List Bool)) (n from k : ℕ) → AreFlagsOf n flags → from + k ≤ n
        → AreFlagsOf k (sliced_flags flags from k) }
    ensures read { (flags : Option (List Bool)) (n from k : ℕ) → AreFlagsOf n flags → from + k ≤ n
        → flags_of k (sliced_flags flags from k) ≡ sublist (flags_of n flags) from k }
{}

/// Law of slices: the slots of a slice are those that it names.
pub fn slots_of_slice()
    ensures { (flags : Option (List Bool)) (values : List (List ℕ)) (from n : ℕ) → AreFlagsOf (length values) flags → from + n ≤ length values
        → flagged_slots (sliced_flags flags from n) (sublist values from n) ≡ sublist (flagged_slots flags values) from n }
{}

/// Law of slices: a slot of a slice is the slot as many places on.
pub fn slot_of_slice()
    ensures { (flags : Option (List Bool)) (values : List (List ℕ)) (from n i : ℕ) → AreFlagsOf (length values) flags → from + n ≤ length values → i < n
        → slot_at (flagged_slots (sliced_flags flags from n) (sublist values from n)) i ≡ slot_at (flagged_slots flags values) (from + i) }
{}

/// Law of slices: the flags of a slice of a slice are those of one slice, and so are its slots.
pub fn slots_of_two_slices()
    ensures flags { (flags : Option (List Bool)) (k from n start m : ℕ) → AreFlagsOf k flags → from + n ≤ k → start + m ≤ n
        → sliced_flags (sliced_flags flags from n) start m ≡ sliced_flags flags (from + start) m }
    ensures slots { (flags : Option (List Bool)) (values : List (List ℕ)) (from n start m : ℕ) → AreFlagsOf (length values) flags → from + n ≤ length values → start + m ≤ n
        → flagged_slots (sliced_flags (sliced_flags flags from n) start m) (sublist (sublist values from n) start m)
        ≡ flagged_slots (sliced_flags flags (from + start) m) (sublist values (from + start) m) }
{}

/// Law of slices: the front and the back of a split are the whole.
pub fn slots_of_split()
    ensures { (flags : Option (List Bool)) (values : List (List ℕ)) (place rest : ℕ) → AreFlagsOf (length values) flags → place + rest ≡ length values
        → flagged_slots (sliced_flags flags 0 place) (sublist values 0 place) ++ flagged_slots (sliced_flags flags place rest) (sublist values place rest)
        ≡ flagged_slots flags values }
{}

/// The rows of slots are the optional values of the bits that are given, and the rows that are not null are the values
/// whose flag is true.
pub fn rows_of_slots()
    ensures all { (flags : Option (List Bool)) (values : List (List ℕ)) → AreFlagsOf (length values) flags
        → rows_of (flagged_slots flags values) ≡ optional_values (given_bits flags) values }
    ensures valid { (flags : Option (List Bool)) (values : List (List ℕ)) → AreFlagsOf (length values) flags
        → filter_map row_of (flagged_slots flags values) ≡ valid_values (flags_of (length values) flags) values }
{}

/// As many slots are null as given bits are not set.
pub fn nulls_of_slots()
    ensures { (flags : Option (List Bool)) (values : List (List ℕ)) → AreFlagsOf (length values) flags
        → count_by (λ slot. not slot.valid) (flagged_slots flags values) ≡ count_by not (given_bits flags) }
{}

/// One slot more: with its flag the flags are as many, and the slots are those before and the new one.
#[tactic(auto, using(crate::proofs::GrowingFlagsLemmas::added_slots))]
pub fn slot_is_added()
    ensures count { (n : ℕ) (flags : Option (List Bool)) (bit : Bool) → AreFlagsOf n flags
        → AreFlagsOf (n + 1) (pushed_flag n flags bit) }
    ensures slots { (flags : Option (List Bool)) (values : List (List ℕ)) (bit : Bool) (bytes : List ℕ) → AreFlagsOf (length values) flags
        → flagged_slots (pushed_flag (length values) flags bit) (values ++ bytes ∷ [])
        ≡ flagged_slots flags values ++ record { valid = bit; bytes = bytes } ∷ [] }
{}

/// The slots of others: with their flags the flags are as many, and the slots are those before and those of the others.
#[tactic(auto, using(crate::proofs::GrowingFlagsLemmas::joined_slots))]
pub fn slots_are_joined()
    ensures count { (n : ℕ) (flags : Option (List Bool)) (m : ℕ) (others : Option (List Bool)) → AreFlagsOf n flags → AreFlagsOf m others
        → AreFlagsOf (n + m) (joined_flags n flags m others) }
    ensures slots { (flags : Option (List Bool)) (values : List (List ℕ)) (others : Option (List Bool)) (rest : List (List ℕ)) → AreFlagsOf (length values) flags
        → flagged_slots (joined_flags (length values) flags (length rest) others) (values ++ rest)
        ≡ flagged_slots flags values ++ flagged_slots others rest }
{}

/// The first slots: cut back, the flags are as many, and the slots are the first.
#[tactic(auto, using(crate::proofs::GrowingFlagsLemmas::first_slots))]
pub fn slots_are_cut_back()
    ensures count { (flags : Option (List Bool)) (n all : ℕ) → n ≤ all → AreFlagsOf all flags
        → AreFlagsOf n (option_map (take n) flags) }
    ensures slots { (flags : Option (List Bool)) (values : List (List ℕ)) (n : ℕ) → n ≤ length values
        → flagged_slots (option_map (take n) flags) (take n values) ≡ take n (flagged_slots flags values) }
{}

/// Flags that are given only where a slot is null are as many, and the slots are the same.
#[tactic(auto, using(crate::proofs::GrowingFlagsLemmas::frozen_slots))]
pub fn frozen_slots_are_same()
    ensures count { (flags : Option (List Bool)) (n : ℕ) → AreFlagsOf n flags → AreFlagsOf n (frozen_flags flags) }
    ensures slots { (flags : Option (List Bool)) (values : List (List ℕ)) → AreFlagsOf (length values) flags
        → flagged_slots (frozen_flags flags) values ≡ flagged_slots flags values }
{}
