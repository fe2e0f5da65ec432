//! Laws of builders of views: what each call appends, that builders stay sound, and what a change leaves.

ghost use Rattle.std.specs.Prelude.{◌≡◌, ℕ, ◌+◌, ◌^◌, ◌<◌, ◌≤◌, Bool, List, [], ◌∷◌, ◌++◌, length, map, replicate, slice_get, slice_set, Option, Some, None};
ghost use Rattle.std.specs.List.{All, filter_map};
ghost use Rattle.column_base.specs.declared.errors.Cause.{Cause};
ghost use Rattle.column_base.specs.declared.errors.Cause.TheVariants.{Overflow};
ghost use Rattle.column_base.specs.Kinds.{Slot};
ghost use Rattle.column_base.specs.Pushes.{grown, growth_fault};
ghost use Rattle.column_base.specs.Slots.{slot_at, values_of};
ghost use Rattle.column_storage.specs.declared.data_buffers.TheConstants.{MAX_BUFFERS};
ghost use Rattle.column_view.specs.Views.{IsView, view_content};
ghost use Rattle.column_view.specs.ViewFaults.{view_fault, views_fault};
ghost use Rattle.column_blocks.specs.Blocks.{buffers_of, full_fault};
ghost use Rattle.column_blocks.specs.Rows.{changed_view, with_flag};
ghost use Rattle.column_blocks.specs.Sources.{SourceBuffers, BuilderBytes, source_at, source_added, view_taken, view_take_fault, taken_buffers};
ghost use Rattle.column_binview.specs.Slots.{ViewLists, view_slots, AreSoundViews};
ghost use Rattle.column_binview.specs.Builders.{ViewBuilder, lists_of, builder_of, with_rows, with_buffer, with_source, finished_builder, pushed_row, row_fault, row_growth, extended_row, source_content, pushed_source_view, slot_of, FitsView, written_row, written_rows, Appends, IsSoundBuilder};
ghost use Rattle.column_binview.specs.SourceViews.{GivesList, AreFineViews, AreFineRows};
ghost use Rattle.column_binview.specs.Gathered.{long_slots, gather_fault};

use column_view::View;

/// A pushed row adds its slot, and the bytes of a long value; rows one after another add theirs, in order.
pub fn pushed_rows_append()
    ensures row { (text : Bool) (builder : ViewBuilder) (row : Option (List ℕ)) → IsSoundBuilder text builder → row_fault builder row ≡ None
        → Appends builder (pushed_row builder row) (slot_of row ∷ []) (written_row row) }
    ensures rows { (text : Bool) (builder : ViewBuilder) (rows : List (Option (List ℕ))) → IsSoundBuilder text builder → growth_fault row_growth builder rows ≡ None
        → Appends builder (grown row_growth builder rows) (map slot_of rows) (written_rows rows) }
{}

/// Slots that are alike are added, and the bytes of a long value once, also for no slot.
pub fn equal_slots_append()
    ensures { (text : Bool) (builder : ViewBuilder) (n : ℕ) (row : Option (List ℕ)) → IsSoundBuilder text builder → row_fault builder row ≡ None
        → Appends builder (extended_row builder n row) (replicate n (slot_of row)) (written_row row) }
{}

/// A finished block adds nothing, and a buffer itself. A view of a source adds what it says, and its buffer where it is long
/// and this was not taken yet.
pub fn buffers_append()
    ensures finished { (text : Bool) (builder : ViewBuilder) → IsSoundBuilder text builder → Appends builder (finished_builder builder) [] [] }
    ensures buffer { (text : Bool) (builder : ViewBuilder) (buffer : List ℕ) → IsSoundBuilder text builder → full_fault builder.bytes.blocks ≡ None → Appends builder (with_buffer builder buffer) [] (buffer ∷ []) }
    ensures source { (builder : ViewBuilder) (buffers : List (List ℕ)) → Appends builder (with_source builder buffers) [] [] }
    ensures view { (text : Bool) (builder : ViewBuilder) (view : List ℕ) (source : ℕ) → IsView view → IsSoundBuilder text builder → view_fault text view (source_at builder.bytes.taken source) ≡ None → view_take_fault builder.bytes view source ≡ None
        → Appends builder (pushed_source_view builder view source) (slot_of (Some (source_content builder view source)) ∷ []) (taken_buffers builder.bytes view source) }
{}

/// A source that is registered has its buffers, and stays as it was where a buffer of it is taken.
pub fn sources_stay()
    ensures added { (taken : SourceBuffers) (buffers : List (List ℕ)) → source_at (source_added taken buffers) (length taken.sources) ≡ buffers }
    ensures kept { (bytes : BuilderBytes) (view : List ℕ) (source : ℕ) → (view_taken bytes view source).taken.sources ≡ bytes.taken.sources }
{}

/// No call adds nothing, and one call after another adds what both do.
pub fn calls_append_together()
    ensures none { (builder : ViewBuilder) → Appends builder builder [] [] }
    ensures both { (a b c : ViewBuilder) (one two : List Slot) (first second : List (List ℕ)) → Appends a b one first → Appends b c two second → Appends a c (one ++ two) (first ++ second) }
{}

/// A builder of sound lists is sound and has their slots, and is the array that they are.
pub fn builder_of_lists_is_sound()
    ensures sound { (text : Bool) (lists : ViewLists) → AreSoundViews text lists → IsSoundBuilder text (builder_of lists) }
    ensures same { (lists : ViewLists) → lists_of (builder_of lists) ≡ lists }
{}

/// Another view in a slot changes its bytes alone, and another flag its flag alone.
pub fn one_slot_is_changed()
    ensures view { (text : Bool) (builder : ViewBuilder) (i : ℕ) (view : List ℕ) → IsSoundBuilder text builder
        → view_slots (lists_of (with_rows builder (changed_view builder.rows i view))) ≡ slice_set (view_slots (lists_of builder)) i (record { valid = (slot_at (view_slots (lists_of builder)) i).valid; bytes = view_content view (buffers_of builder.bytes.blocks) }) }
    ensures flag { (text : Bool) (builder : ViewBuilder) (i : ℕ) (valid : Bool) → IsSoundBuilder text builder
        → view_slots (lists_of (with_rows builder (with_flag builder.rows i valid))) ≡ slice_set (view_slots (lists_of builder)) i (record { valid = valid; bytes = (slot_at (view_slots (lists_of builder)) i).bytes }) }
{}

/// Values make no validity where there is none.
pub fn values_need_no_validity()
    ensures { (builder : ViewBuilder) (values : List (List ℕ)) → builder.rows.flags ≡ None → (grown row_growth builder (map Some values)).rows.flags ≡ None }
{}

/// Rows are refused for their length or the number of buffers alone.
pub fn rows_overflow_alone()
    ensures { (builder : ViewBuilder) (rows : List (Option (List ℕ))) (cause : Cause) → growth_fault row_growth builder rows ≡ Some cause → cause ≡ Overflow }
{}

/// Rows whose values have lengths that a view can say are refused only where the buffers, and the long values among the
/// rows, are together more than there may be buffers. Where one of the values is longer, the rows are always refused.
pub fn rows_are_refused_for_length_or_number()
    ensures number { (builder : ViewBuilder) (rows : List (Option (List ℕ))) (cause : Cause) → All FitsView rows → growth_fault row_growth builder rows ≡ Some cause
        → (cause ≡ Overflow) × (MAX_BUFFERS < length (buffers_of builder.bytes.blocks) + length (written_rows rows)) }
    ensures long { (builder : ViewBuilder) (rows : List (Option (List ℕ))) (i : ℕ) (value : List ℕ) → slice_get rows i ≡ Some (Some value) → 2 ^ 32 ≤ length value → growth_fault row_growth builder rows ≡ Some Overflow }
{}

/// Buffers that are made anew of the long slots are refused only where more slots are long than there may be buffers: of
/// sound lists whose views are 16 bytes, and wherever each slot has a length that a view can say.
pub fn gathering_is_refused_only_for_many_slots()
    ensures views { (text : Bool) (lists : ViewLists) (cause : Cause) → AreSoundViews text lists → All IsView lists.views → gather_fault lists ≡ Some cause
        → (cause ≡ Overflow) × (MAX_BUFFERS < length (long_slots lists)) }
    ensures slots { (lists : ViewLists) (cause : Cause) → All (λ value. length value < 2 ^ 32) (values_of (view_slots lists)) → gather_fault lists ≡ Some cause
        → (cause ≡ Overflow) × (MAX_BUFFERS < length (long_slots lists)) }
{}

/// Views that an iterator gives of a list, first to last, have no fault where those of the list have none. `left` says which
/// are left of it.
pub fn given_views_are_fine<I: Iterator<Item = View>>()
    ensures { (text : Bool) (buffers : List (List ℕ)) (left : I → List (List ℕ)) (items : I) → GivesList left I.next_gives → views_fault text (left items) buffers ≡ None → AreFineViews text buffers I.next_gives items }
{}

/// The same of optional views: those that are there have none.
pub fn given_rows_are_fine<I: Iterator<Item = Option<View>>>()
    ensures { (text : Bool) (buffers : List (List ℕ)) (left : I → List (Option (List ℕ))) (items : I) → GivesList left I.next_gives → views_fault text (filter_map (λ row. row) (left items)) buffers ≡ None → AreFineRows text buffers I.next_gives items }
{}
