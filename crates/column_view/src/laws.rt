//! Laws of views: what the views that are made say, when two views are equal, and what is kept where a buffer is named
//! by another place.

ghost use Rattle.std.specs.Prelude.{◌≡◌, ◌↔◌, ℕ, ◌^◌, ◌<◌, ◌≤◌, Bool, true, false, List, [], length, slice_index_or, None};
ghost use Rattle.column_view.specs.Views.{IsView, StandsAt, view_length, view_prefix, view_index, view_start, view_content, is_long, inline_view, long_view, with_index};
ghost use Rattle.column_view.specs.ViewFaults.{Says, layout_fault, view_fault, views_fault, contents_fault};

/// A view that is made of bytes says them, and has no fault where a slot may hold them: one that holds its bytes over any
/// buffers, and a long one where they stand in the buffer that it names.
pub fn made_view_says_its_bytes()
    ensures inline { (bytes : List ℕ) (buffers : List (List ℕ)) → length bytes ≤ 12 → Says (inline_view bytes) buffers bytes }
    ensures long { (bytes : List ℕ) (index start : ℕ) (buffers : List (List ℕ)) → 12 < length bytes → length bytes < 2 ^ 32 → index < 2 ^ 32 → start < 2 ^ 32
        → StandsAt bytes buffers index start → Says (long_view bytes index start) buffers bytes }
{}

/// Law of inline views: two views without a fault of layout, neither of them long, are equal exactly where their contents
/// are.
pub fn inline_views_are_contents()
    ensures { (a b : List ℕ) (buffers others : List (List ℕ)) → IsView a → IsView b → is_long a ≡ false → is_long b ≡ false
        → layout_fault a buffers ≡ None → layout_fault b others ≡ None
        → (a ≡ b) ↔ (view_content a buffers ≡ view_content b others) }
{}

/// A view of the buffer at another place keeps length, prefix and start.
pub fn other_place_keeps_the_rest()
    ensures length { (view : List ℕ) (index : ℕ) → IsView view → view_length (with_index view index) ≡ view_length view }
    ensures prefix { (view : List ℕ) (index : ℕ) → IsView view → view_prefix (with_index view index) ≡ view_prefix view }
    ensures start { (view : List ℕ) (index : ℕ) → IsView view → view_start (with_index view index) ≡ view_start view }
    ensures index { (view : List ℕ) (index : ℕ) → IsView view → index < 2 ^ 32 → view_index (with_index view index) ≡ index }
{}

/// Views have no fault exactly where each of them has none, and then the content of each can be read.
pub fn no_fault_in_each()
    ensures each { (text : Bool) (views buffers : List (List ℕ))
        → (views_fault text views buffers ≡ None) ↔ ((i : ℕ) → i < length views → view_fault text (slice_index_or views i []) buffers ≡ None) }
    ensures layout { (text : Bool) (view : List ℕ) (buffers : List (List ℕ)) → view_fault text view buffers ≡ None → layout_fault view buffers ≡ None }
{}

/// Views without a fault as byte strings have a fault as texts exactly where a content is not UTF-8, and it is that of the
/// first such view. Views without a fault as texts have none as byte strings.
pub fn texts_are_byte_strings()
    ensures first { (views buffers : List (List ℕ)) → views_fault false views buffers ≡ None → views_fault true views buffers ≡ contents_fault views buffers }
    ensures none { (text : Bool) (views buffers : List (List ℕ)) → views_fault text views buffers ≡ None → views_fault false views buffers ≡ None }
{}
