//! Text as bytes.

ghost use Rattle.std.specs.Prelude.{◌≡◌, ℕ, ◌<◌, ◌↔◌, List, length, take, drop, slice_index, false};
ghost use Rattle.std.specs.Str.{IsUtf8};
ghost use Rattle.column_base.specs.Utf8.{is_well_formed_utf8, IsWellFormedUtf8, is_continuation_byte};

/// Whether bytes are UTF-8: the sequences of the Unicode standard, table 3-7, one after another.
///
/// One pass, in blocks, with no memory.
pub fn is_utf8(bytes: &[u8]) -> bool
    ensures { result ≡ is_well_formed_utf8 bytes.now }
{
    simdutf8::is_utf8(bytes)
}

/// UTF-8 as text. Takes no memory and no time.
pub fn str_of(bytes: &[u8]) -> &str
    requires { IsWellFormedUtf8 bytes.now }
    ensures { result.now ≡ bytes.now }
{
    // SAFETY: the bytes are UTF-8, by what is required.
    unsafe { std::str::from_utf8_unchecked(bytes) }
}

/// Table 3-7 and the language's own text agree on every list of bytes.
pub fn utf8_is_text()
    ensures { (bytes : List ℕ) → IsWellFormedUtf8 bytes ↔ IsUtf8 bytes }
{}

/// Where UTF-8 may be cut: a cut before its end gives two parts that are UTF-8 exactly where the byte there begins a
/// sequence.
pub fn utf8_cut()
    ensures { (bytes : List ℕ) (place : ℕ) → IsWellFormedUtf8 bytes → place < length bytes
        → (IsWellFormedUtf8 (take place bytes) × IsWellFormedUtf8 (drop place bytes))
        ↔ (is_continuation_byte (slice_index bytes place) ≡ false) }
{}
