//! The loops that read a source to its end and write a text whole.

ghost use Rattle.std.specs.Prelude.{◌≡◌, ◌⊎◌, ℕ, ◌+◌, ◌++◌, ◌-◌, ◌^◌, ◌<◌, ◌≤◌, List, [], length, take, max, IfOk, IfSome, Err, OnOk, OnErr, vec_len, vec_capacity};
ghost use Rattle.std.specs.declared.option.Option.{Option};
ghost use Rattle.std.specs.Io.KnownBytes.{Consumes, IsAtEnd, Appends, Keeps};
ghost use Rattle.column_port.specs.declared.transfer.ReadError.TheVariants.{NoMemory, Fault};
ghost use Rattle.column_port.specs.Causes.{Rose, HasCause};
ghost use Rattle.column_port.specs.Streams.{IsWhole, IsWithin, IsPastLimit, TookPrefix, OnTooLong, Gave, GaveAtMost, IsTooLongOrNoMemory, counted_reading};

use crate::sink::Sink;
use crate::source::{Failed, Source};
use std::alloc::{AllocError, Global};

/// Why a reading to the end gave no bytes.
#[derive(Clone, Copy, Debug, PartialEq, Eq)]
pub enum ReadError {
    /// No memory was there for the bytes.
    NoMemory,
    /// A read failed.
    Fault,
    /// The source gave more bytes than the limit.
    TooLong,
}

impl From<AllocError> for ReadError {
    ghost use Rattle.std.specs.Prelude.{◌≡◌};

    ghost from_gives = { λ _ error. error ≡ NoMemory };

    fn from(_error: AllocError) -> ReadError {
        ReadError::NoMemory
    }
}

impl From<Failed> for ReadError {
    ghost use Rattle.std.specs.Prelude.{◌≡◌};

    ghost from_gives = { λ _ error. error ≡ Fault };

    fn from(_error: Failed) -> ReadError {
        ReadError::Fault
    }
}

/// The bytes of the piece, on the stack, that one read is handed: fewer than 4,096.
const PIECE: usize = 4032;

/// Half of the bytes that the first growth makes.
const HALF_FIRST: usize = 4096;

/// One read, into the front of a piece.
fn read_piece<S: Source>(source: &mut S, piece: &mut [u8], most: usize) -> Result<usize, Failed>
    requires most { 0 < most }
    requires fits { most ≤ length piece.old }
    ensures bound { IfOk result (λ count. count ≤ most) }
    ensures length { length piece.new ≡ length piece.old }
    ensures given { IfOk result (λ count. Consumes (S.left source.old) (S.left source.new) (take count piece.new)) }
    ensures end { IfOk result (λ count. count ≡ 0 → IsAtEnd (S.left source.new)) }
    ensures refused { OnErr result (Keeps (S.left source.old) (S.left source.new)) }
    ensures cause { HasCause (S.faults source.old) (S.faults source.new) result }
{
    source.read(&mut piece[..most])
}

/// Makes room behind the bytes for a piece: where there is none, the memory is doubled, up to one byte past the limit.
fn make_room(bytes: &mut Vec<u8>, count: usize, limit: usize) -> Result<(), ReadError>
    requires fits { limit + 1 < 2 ^ 64 }
    requires piece { count ≤ 4032 }
    requires within { vec_len bytes.old + count ≤ limit + 1 }
    ensures items { bytes.new.items ≡ bytes.old.items }
    ensures room { OnOk result (vec_len bytes.new + count ≤ vec_capacity bytes.new) }
    ensures bound { vec_capacity bytes.new ≤ max (vec_capacity bytes.old) (limit + 1) }
    ensures memory { OnErr result (result ≡ Err NoMemory) }
{
    let (len, capacity) = (bytes.len(), bytes.capacity());
    if capacity - len >= count {
        return Ok(());
    }
    let doubled = capacity.max(HALF_FIRST).saturating_mul(2);
    bytes.reserve_exact(doubled.min(limit + 1) - len)?;
    Ok(())
}

/// Appends a piece for which there is room.
fn append_piece(bytes: &mut Vec<u8>, piece: &[u8])
    requires room { vec_len bytes.old + length piece.now ≤ vec_capacity bytes.old }
    ensures items { bytes.new.items ≡ bytes.old.items ++ piece.now }
{
    match bytes.extend_from_slice(piece) {
        Ok(()) => {}
        Err(_) => unreachable!(),
    }
}

/// All bytes that the source still has, where they are no more than the limit.
///
/// Each read is handed a piece of 4,032 bytes, or of all bytes that are missing up to one past the limit where these
/// are fewer, and what came is appended. The first read that fails ends the reading, and so does the byte past the
/// limit: at most that one byte past it leaves the source. Takes linear time. The memory is doubled as the bytes come,
/// so that there is room for a piece before it is read, and is never for more than one byte past the limit.
///
/// Refused: `Fault` where a read failed, and then the source's count of faults is one more, else as it was; `TooLong`
/// where the source gave a byte past the limit; `NoMemory` where no memory was there.
pub fn read_within<S: Source>(
    alloc: Global,
    source: &mut S,
    limit: usize,
) -> Result<Vec<u8>, ReadError>
    requires { limit + 1 < 2 ^ 64 }
    ensures whole { IfOk result (λ bytes. IsWhole (S.left source.old) (S.left source.new) bytes.items limit) }
    ensures within { OnOk result (IsWithin (S.left source.old) limit) }

    // Why it stops.
    ensures too_long { OnTooLong result (IsPastLimit (S.left source.old) limit) }
    ensures exact { IfSome (S.left source.old) (λ told. limit < length told → (Rose (S.faults source.old) (S.faults source.new) → ⊥) → IsTooLongOrNoMemory result) }

    // What left the source, and its count of faults.
    ensures past { OnTooLong result (Gave (S.left source.old) (S.left source.new) (limit + 1)) }
    ensures stopped { GaveAtMost (S.left source.old) (S.left source.new) (limit + 1) }
    ensures counts { S.faults source.new ≡ counted_reading (S.faults source.old) result }
    ensures later { S.faults source.old ≤ S.faults source.new }
{
    let mut bytes = Vec::new(alloc);
    let mut piece = [0; PIECE];
    while bytes.len() <= limit {
        let most = PIECE.min(limit + 1 - bytes.len());
        make_room(&mut bytes, most, limit)?;
        let count = read_piece(source, &mut piece, most)?;
        if count == 0 {
            return Ok(bytes);
        }
        append_piece(&mut bytes, &piece[..count]);
    }
    Err(ReadError::TooLong)
}

/// One write, of all of the text from a place on.
#[tactic(auto, using(crate::proofs::PiecesLemmas::pieces))]
fn write_from<K: Sink>(sink: &mut K, text: &[u8], at: usize) -> Result<usize, Failed>
    requires { at < length text.now }
    ensures progress { IfOk result (λ count. (0 < count) × (at + count ≤ length text.now)) }
    ensures took { IfOk result (λ count. (before : Option (List ℕ)) → Appends before (K.taken sink.old) (take at text.now) → Appends before (K.taken sink.new) (take (at + count) text.now)) }
    ensures refused { OnErr result (Keeps (K.taken sink.old) (K.taken sink.new)) }
    ensures cause { HasCause (K.faults sink.old) (K.faults sink.new) result }
{
    sink.write(&text[at..])
}

/// Writes the text whole.
///
/// Each write is handed all of the text that is left. The first write that fails ends the writing; the sink then took
/// a part of the text from its front, and its count of faults is one more, else as it was. An empty text writes
/// nothing. Takes no memory.
pub fn write_whole<K: Sink>(sink: &mut K, text: &[u8]) -> Result<(), Failed>
    ensures whole { OnOk result (Appends (K.taken sink.old) (K.taken sink.new) text.now) }
    ensures prefix { OnErr result (TookPrefix (K.taken sink.old) (K.taken sink.new) text.now) }
    ensures cause { HasCause (K.faults sink.old) (K.faults sink.new) result }
    ensures empty { text.now ≡ [] → sink.new ≡ sink.old }
{
    let mut written = 0;
    while written < text.len() {
        written += write_from(sink, text, written)?;
    }
    Ok(())
}
