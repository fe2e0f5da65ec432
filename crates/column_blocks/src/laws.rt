//! Laws of blocks and sources: what each call appends, what stays, and what views over them say.

ghost use Rattle.std.specs.Prelude.{◌≡◌, ℕ, ◌≤◌, Bool, List, [], ◌∷◌, ◌++◌, length, map, None};
ghost use Rattle.column_storage.specs.declared.data_buffers.TheConstants.{MAX_BUFFERS};
ghost use Rattle.column_view.specs.Views.{IsView, view_content};
ghost use Rattle.column_view.specs.ViewFaults.{Says, view_fault, views_fault};
ghost use Rattle.column_blocks.specs.Blocks.{ByteBlocks, blocks_of, buffers_of, block_finished, buffer_pushed, full_fault, stored, stored_view, store_fault, written_values, AreSoundBlocks, GrowTo, AppendsBytes};
ghost use Rattle.column_blocks.specs.Sources.{no_sources, source_at, source_added, BuilderBytes, builder_bytes, AreSoundSources, AreSoundBytes, view_taken, taken_view, view_take_fault, taken_buffers};

/// Law of blocks: what each call appends, and that one call after another appends what both do.
pub fn calls_append()
    ensures none { (blocks : ByteBlocks) → AppendsBytes blocks blocks [] }
    ensures stored { (blocks : ByteBlocks) (bytes : List ℕ) → AppendsBytes blocks (stored blocks bytes) (written_values bytes) }
    ensures finished { (blocks : ByteBlocks) → AppendsBytes blocks (block_finished blocks) [] }
    ensures pushed { (blocks : ByteBlocks) (buffer : List ℕ) → AppendsBytes blocks (buffer_pushed blocks buffer) (buffer ∷ []) }
    ensures together { (a b c : ByteBlocks) (first second : List (List ℕ)) → AppendsBytes a b first → AppendsBytes b c second → AppendsBytes a c (first ++ second) }
{}

/// Sound blocks stay sound in each call that is not refused, and finished buffers that are not too many are sound.
pub fn blocks_stay_sound()
    ensures made { (buffers : List (List ℕ)) → length buffers ≤ MAX_BUFFERS → AreSoundBlocks (blocks_of buffers) }
    ensures stored { (blocks : ByteBlocks) (bytes : List ℕ) → AreSoundBlocks blocks → store_fault blocks bytes ≡ None → AreSoundBlocks (stored blocks bytes) }
    ensures finished { (blocks : ByteBlocks) → AreSoundBlocks blocks → AreSoundBlocks (block_finished blocks) }
    ensures pushed { (blocks : ByteBlocks) (buffer : List ℕ) → full_fault blocks ≡ None → AreSoundBlocks (buffer_pushed blocks buffer) }
{}

/// The view of a value that is stored says it over the buffers that there are then.
pub fn stored_view_says_its_bytes()
    ensures { (blocks : ByteBlocks) (bytes : List ℕ) → AreSoundBlocks blocks → store_fault blocks bytes ≡ None → Says (stored_view blocks bytes) (buffers_of (stored blocks bytes)) bytes }
{}

/// Views without a fault have none over buffers that grew, and say what they said.
pub fn views_stay()
    ensures fine { (text : Bool) (old new views : List (List ℕ)) → GrowTo old new → views_fault text views old ≡ None → views_fault text views new ≡ None }
    ensures same { (text : Bool) (old new views : List (List ℕ)) → GrowTo old new → views_fault text views old ≡ None
        → map (λ view. view_content view new) views ≡ map (λ view. view_content view old) views }
{}

/// A view of a source that is taken has no fault over the blocks and says what it said over the source. Only the buffer
/// that it names is added, once; and where a buffer was taken stays true.
pub fn taken_view_says_the_same()
    ensures fine { (text : Bool) (bytes : BuilderBytes) (view : List ℕ) (source : ℕ) → IsView view → AreSoundBytes bytes → view_fault text view (source_at bytes.taken source) ≡ None → view_take_fault bytes view source ≡ None
        → view_fault text (taken_view bytes view source) (buffers_of (view_taken bytes view source).blocks) ≡ None }
    ensures same { (text : Bool) (bytes : BuilderBytes) (view : List ℕ) (source : ℕ) → IsView view → AreSoundBytes bytes → view_fault text view (source_at bytes.taken source) ≡ None → view_take_fault bytes view source ≡ None
        → view_content (taken_view bytes view source) (buffers_of (view_taken bytes view source).blocks) ≡ view_content view (source_at bytes.taken source) }
    ensures appends { (bytes : BuilderBytes) (view : List ℕ) (source : ℕ) → AppendsBytes bytes.blocks (view_taken bytes view source).blocks (taken_buffers bytes view source) }
    ensures sound { (bytes : BuilderBytes) (view : List ℕ) (source : ℕ) → AreSoundBytes bytes → view_take_fault bytes view source ≡ None → AreSoundBytes (view_taken bytes view source) }
{}

/// Buffers that were taken stay so: where calls append to the blocks, and where a source is added; none was where there is
/// no source.
pub fn taken_buffers_stay()
    ensures none { (blocks : ByteBlocks) → AreSoundBlocks blocks → AreSoundBytes (builder_bytes blocks no_sources) }
    ensures appended { (bytes : BuilderBytes) (blocks : ByteBlocks) (added : List (List ℕ)) → AreSoundBytes bytes → AreSoundBlocks blocks → AppendsBytes bytes.blocks blocks added → AreSoundBytes (builder_bytes blocks bytes.taken) }
    ensures source { (bytes : BuilderBytes) (buffers : List (List ℕ)) → AreSoundSources bytes.taken → AreSoundBytes bytes → AreSoundBytes (builder_bytes bytes.blocks (source_added bytes.taken buffers)) }
{}
