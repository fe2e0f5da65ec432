//! Laws of lists behind views: what their slots are, the law of slices, and the law of round trips.

ghost use Rattle.std.specs.Prelude.{◌≡◌, ◌↔◌, ℕ, ◌+◌, ◌-◌, ◌<◌, ◌≤◌, Bool, true, false, not, ◌++◌, length, None};
ghost use Rattle.column_base.specs.declared.errors.Cause.TheVariants.{InvalidUtf8};
ghost use Rattle.column_base.specs.Answers.{Answers, cause_if};
ghost use Rattle.column_base.specs.Lists.{sublist};
ghost use Rattle.column_base.specs.Slots.{slot_at, rows_of, values_of};
ghost use Rattle.column_base.specs.Utf8.{are_well_formed_utf8};
ghost use Rattle.column_storage.specs.Bits.{flags_of};
ghost use Rattle.column_storage.specs.Validity.{AreFlagsOf};
ghost use Rattle.column_storage.specs.declared.data_buffers.TheConstants.{MAX_BUFFERS};
ghost use Rattle.column_view.specs.ViewFaults.{contents_fault};
ghost use Rattle.column_binview.specs.Slots.{ViewLists, view_count, view_slots, view_array_fault, sliced_views, AreSoundViews};
ghost use Rattle.column_binview.specs.Rows.{rows_eq};

use crate::array::Utf8ViewArray;
use column_base::PolarsError;
use std::alloc::Global;

/// Law of sound lists: where the buffers are not too many, no fault is found exactly where the lists are sound.
pub fn no_fault_is_sound()
    ensures { (text : Bool) (lists : ViewLists) → length lists.buffers ≤ MAX_BUFFERS → (view_array_fault text lists ≡ None) ↔ AreSoundViews text lists }
{}

/// There are as many slots as views.
pub fn slots_are_counted()
    ensures { (text : Bool) (lists : ViewLists) → AreSoundViews text lists → length (view_slots lists) ≡ view_count lists }
{}

/// Texts are byte strings.
pub fn texts_are_byte_strings()
    ensures { (text : Bool) (lists : ViewLists) → AreSoundViews text lists → AreSoundViews false lists }
{}

/// Contents are no texts exactly where some slot, also a null one, is not UTF-8; and each slot of texts is UTF-8.
#[tactic(auto, using(crate::proofs::TextsLemmas::text_slots))]
pub fn contents_are_slots()
    ensures fault { (lists : ViewLists) → AreFlagsOf (view_count lists) lists.flags
        → contents_fault lists.views lists.buffers ≡ cause_if (not (are_well_formed_utf8 (values_of (view_slots lists)))) InvalidUtf8 }
    ensures texts { (lists : ViewLists) → AreSoundViews true lists → are_well_formed_utf8 (values_of (view_slots lists)) ≡ true }
{}

/// The flags that are read of a slice are those of its slots.
pub fn flags_of_slice()
    ensures { (text : Bool) (lists : ViewLists) (from n : ℕ) → AreSoundViews text lists → from + n ≤ view_count lists
        → flags_of n (sliced_views lists from n).flags ≡ sublist (flags_of (view_count lists) lists.flags) from n }
{}

/// The slots of a slice are those that it names.
pub fn slice_is_part()
    ensures { (text : Bool) (lists : ViewLists) (from n : ℕ) → AreSoundViews text lists → from + n ≤ view_count lists
        → view_slots (sliced_views lists from n) ≡ sublist (view_slots lists) from n }
{}

/// A slot of a slice is the slot as many places on.
pub fn slot_of_slice()
    ensures { (text : Bool) (lists : ViewLists) (from n i : ℕ) → AreSoundViews text lists → from + n ≤ view_count lists → i < n
        → slot_at (view_slots (sliced_views lists from n)) i ≡ slot_at (view_slots lists) (from + i) }
{}

/// A slice of a slice is one slice, with the same lists.
pub fn slices_are_one()
    ensures { (text : Bool) (lists : ViewLists) (from n start m : ℕ) → AreSoundViews text lists → from + n ≤ view_count lists → start + m ≤ n
        → sliced_views (sliced_views lists from n) start m ≡ sliced_views lists (from + start) m }
{}

/// The front and the back of a split are the whole.
pub fn split_is_whole()
    ensures { (text : Bool) (lists : ViewLists) (place : ℕ) → AreSoundViews text lists → place ≤ view_count lists
        → view_slots (sliced_views lists 0 place) ++ view_slots (sliced_views lists place (view_count lists - place)) ≡ view_slots lists }
{}

impl Utf8ViewArray {
    /// Law of view round trips: texts to byte strings, and these to texts again, have the same slots.
    ///
    /// `NoMemory` where a count of owners is full, and nothing else.
    #[tactic(auto, using(crate::proofs::SlotsLemmas::round))]
    pub fn through_binview(&self, alloc: Global) -> Result<Utf8ViewArray, PolarsError>
        ensures { Answers result None (λ a. a ≡ self.now) }
    {
        self.known();
        self.to_binview(alloc)?.to_utf8view(alloc)
    }
}

/// Law of row equality: two arrays are equal exactly where their rows are, so that equality is an equivalence whatever the
/// layout.
pub fn equal_where_rows_are()
    ensures { (a b : ViewLists) → (rows_eq a b ≡ true) ↔ (rows_of (view_slots a) ≡ rows_of (view_slots b)) }
{}
