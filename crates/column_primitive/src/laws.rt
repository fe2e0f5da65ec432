//! Laws of lists of numbers: what their slots are, and the law of slices. They hold whatever bytes a number has.

ghost use Rattle.std.specs.Prelude.{◌≡◌, ◌↔◌, ℕ, ◌+◌, ◌-◌, ◌<◌, ◌≤◌, ◌^◌, ◌++◌, ◌∷◌, [], true, List, length, map, take, replicate, option_map, slice_get, slice_set, Option, None, Some};
ghost use Rattle.std.specs.List.{All};
ghost use Rattle.column_base.specs.declared.datatypes.ArrowDataType.{ArrowDataType};
ghost use Rattle.column_base.specs.Pushes.{grown, growth_fault};
ghost use Rattle.column_base.specs.Lists.{sublist};
ghost use Rattle.column_base.specs.Slots.{slot_at, rows_of, values_of};
ghost use Rattle.column_storage.specs.Bits.{flags_of};
ghost use Rattle.column_primitive.specs.Numbers.{NumberLists, number_count, number_slots, number_fault, number_rows, AreSoundNumbers, sliced_numbers, number_lists, NumberArray, number_array};
ghost use Rattle.column_primitive.specs.Rows.{GrowingNumbers, slot_of, pushed_row, row_growth, first_numbers, frozen_array, joined_array, extended_row, changed_row, no_numbers, are_same_rows};

use column_base::NativeType;

/// Law of sound lists: no fault is found exactly where the lists are sound.
#[tactic(auto, using(crate::proofs::NumbersLemmas::no_fault_is_sound))]
pub fn no_fault_is_sound<T>()
    ensures { (lists : NumberLists T) → (number_fault lists ≡ None) ↔ AreSoundNumbers lists }
{}

/// There are as many slots as are counted, and as many flags.
#[tactic(auto, using(crate::proofs::NumbersLemmas::counted))]
pub fn slots_are_counted<T>()
    ensures slots { (bytes : T → List ℕ) (lists : NumberLists T) → AreSoundNumbers lists → length (number_slots bytes lists) ≡ number_count lists }
    ensures flags { (lists : NumberLists T) → AreSoundNumbers lists → length (flags_of (number_count lists) lists.flags) ≡ number_count lists }
{}

/// A slot has the bytes of its number, and so have all of them.
#[tactic(auto, using(crate::proofs::NumbersLemmas::numbers_of_slots))]
pub fn slot_is_number<T>()
    ensures one { (bytes : T → List ℕ) (lists : NumberLists T) (i : ℕ) (x : T) → AreSoundNumbers lists → slice_get lists.numbers i ≡ Some x
        → (slot_at (number_slots bytes lists) i).bytes ≡ bytes x }
    ensures all { (bytes : T → List ℕ) (lists : NumberLists T) → AreSoundNumbers lists
        → values_of (number_slots bytes lists) ≡ map bytes lists.numbers }
{}

/// The rows of the slots are the bytes of the optional numbers.
#[tactic(auto, using(crate::proofs::NumbersLemmas::rows_are))]
pub fn slots_are_rows<T>()
    ensures { (bytes : T → List ℕ) (lists : NumberLists T) → AreSoundNumbers lists
        → rows_of (number_slots bytes lists) ≡ map (option_map bytes) (number_rows lists) }
{}

/// Lists with the same numbers and the same flags, as they are read, have the same slots.
#[tactic(auto, using(crate::proofs::NumbersLemmas::same_slots))]
pub fn same_lists_same_slots<T>()
    ensures { (bytes : T → List ℕ) (a b : NumberLists T) → a.numbers ≡ b.numbers
        → flags_of (number_count a) a.flags ≡ flags_of (number_count b) b.flags
        → number_slots bytes a ≡ number_slots bytes b }
{}

/// The flags that are read of a slice are those of its slots.
#[tactic(auto, using(crate::proofs::NumbersLemmas::flags_of_part))]
pub fn flags_of_slice<T>()
    ensures { (lists : NumberLists T) (from n : ℕ) → AreSoundNumbers lists → from + n ≤ number_count lists
        → flags_of n (sliced_numbers lists from n).flags ≡ sublist (flags_of (number_count lists) lists.flags) from n }
{}

/// The slots of a slice are those that it names.
#[tactic(auto, using(crate::proofs::NumbersLemmas::slots_of_part))]
pub fn slice_is_part<T>()
    ensures { (bytes : T → List ℕ) (lists : NumberLists T) (from n : ℕ) → AreSoundNumbers lists → from + n ≤ number_count lists
        → number_slots bytes (sliced_numbers lists from n) ≡ sublist (number_slots bytes lists) from n }
{}

/// A slot of a slice is the slot as many places on.
#[tactic(auto, using(crate::proofs::NumbersLemmas::slot_of_slice))]
pub fn slot_of_slice<T>()
    ensures { (bytes : T → List ℕ) (lists : NumberLists T) (from n i : ℕ) → AreSoundNumbers lists → from + n ≤ number_count lists → i < n
        → slot_at (number_slots bytes (sliced_numbers lists from n)) i ≡ slot_at (number_slots bytes lists) (from + i) }
{}

/// A slice of a slice is one slice, with the same lists.
#[tactic(auto, using(crate::proofs::NumbersLemmas::slices_are_one))]
pub fn slices_are_one<T>()
    ensures { (lists : NumberLists T) (from n start m : ℕ) → AreSoundNumbers lists → from + n ≤ number_count lists → start + m ≤ n
        → sliced_numbers (sliced_numbers lists from n) start m ≡ sliced_numbers lists (from + start) m }
{}

/// The front and the back of a split are the whole.
#[tactic(auto, using(crate::proofs::NumbersLemmas::split_is_whole))]
pub fn split_is_whole<T>()
    ensures { (bytes : T → List ℕ) (lists : NumberLists T) (place : ℕ) → AreSoundNumbers lists → place ≤ number_count lists
        → number_slots bytes (sliced_numbers lists 0 place) ++ number_slots bytes (sliced_numbers lists place (number_count lists - place)) ≡ number_slots bytes lists }
{}

/// A pushed row adds its slot.
#[tactic(auto, using(crate::proofs::RowsLemmas::pushed_slots))]
pub fn push_adds_a_slot<T>()
    ensures { (bytes : T → List ℕ) (null : T) (array : NumberArray T) (row : Option T) → AreSoundNumbers array.lists
        → number_slots bytes (pushed_row null array row).lists ≡ number_slots bytes array.lists ++ slot_of bytes null row ∷ [] }
{}

/// The lists of the first slots have the first of the slots.
#[tactic(auto, using(crate::proofs::RowsLemmas::first_slots))]
pub fn first_slots_are_first<T>()
    ensures { (bytes : T → List ℕ) (lists : NumberLists T) (n : ℕ) → n ≤ number_count lists
        → number_slots bytes (first_numbers lists n) ≡ take n (number_slots bytes lists) }
{}

/// An array with the slots of another after its own has the slots of both.
#[tactic(auto, using(crate::proofs::RowsLemmas::joined_slots))]
pub fn joined_slots_are_both<T>()
    ensures { (bytes : T → List ℕ) (array : NumberArray T) (others : NumberLists T) → AreSoundNumbers array.lists
        → number_slots bytes (joined_array array others).lists ≡ number_slots bytes array.lists ++ number_slots bytes others }
{}

/// Slots of one row that are added are as many times the slot of the row.
#[tactic(auto, using(crate::proofs::RowsLemmas::extended_slots))]
pub fn constant_slots_are_alike<T>()
    ensures { (bytes : T → List ℕ) (null : T) (array : NumberArray T) (n : ℕ) (row : Option T) → AreSoundNumbers array.lists
        → number_slots bytes (extended_row null array n row).lists ≡ number_slots bytes array.lists ++ replicate n (slot_of bytes null row) }
{}

/// A slot that is made another row is the slot of the row, and each other slot stays.
#[tactic(auto, using(crate::proofs::RowsLemmas::changed_slots))]
pub fn set_changes_a_slot<T>()
    ensures { (bytes : T → List ℕ) (null : T) (array : NumberArray T) (i : ℕ) (row : Option T)
        → number_slots bytes (changed_row null array i row).lists ≡ slice_set (number_slots bytes array.lists) i (slot_of bytes null row) }
{}

/// A frozen array has the same slots.
#[tactic(auto, using(crate::proofs::RowsLemmas::frozen_slots))]
pub fn frozen_slots_are_same<T>()
    ensures { (bytes : T → List ℕ) (array : NumberArray T) → AreSoundNumbers array.lists
        → number_slots bytes (frozen_array array).lists ≡ number_slots bytes array.lists }
{}

/// No row is refused.
#[tactic(auto, using(crate::proofs::RowsLemmas::never_refused))]
pub fn rows_are_never_refused<T>()
    ensures { (null : T) (array : NumberArray T) (rows : List (Option T)) → growth_fault (row_growth null) array rows ≡ None }
{}

/// Rows without a null are their numbers, without a validity.
#[tactic(auto, using(crate::proofs::RowsLemmas::values_are_numbers))]
pub fn values_need_no_validity<T>()
    ensures { (null : T) (dtype : ArrowDataType) (values : List T) → grown (row_growth null) (no_numbers dtype) (map (λ value. Some value) values) ≡ number_array dtype (number_lists values None) }
{}

/// Law of row equality: two builders are equal exactly where their rows are, so that equality is an equivalence whatever
/// stands in null slots. Of numbers that are values of the type these are the rows of the slots.
pub fn equal_where_rows_are<T: NativeType>()
    ensures rows { (a b : GrowingNumbers T) → (are_same_rows T.eq a b ≡ true) ↔ (number_rows a.array.lists ≡ number_rows b.array.lists) }
    ensures bytes { (a b : GrowingNumbers T) → AreSoundNumbers a.array.lists → AreSoundNumbers b.array.lists
        → All T.is_value a.array.lists.numbers → All T.is_value b.array.lists.numbers
        → (are_same_rows T.eq a b ≡ true) ↔ (rows_of (number_slots T.le_bytes a.array.lists) ≡ rows_of (number_slots T.le_bytes b.array.lists)) }
    ensures reflexive { (a : GrowingNumbers T) → are_same_rows T.eq a a ≡ true }
    ensures symmetric { (a b : GrowingNumbers T) → are_same_rows T.eq a b ≡ true → are_same_rows T.eq b a ≡ true }
    ensures transitive { (a b c : GrowingNumbers T) → are_same_rows T.eq a b ≡ true → are_same_rows T.eq b c ≡ true → are_same_rows T.eq a c ≡ true }
{}
