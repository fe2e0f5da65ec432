//! What the ends are seen to do: one bool for each group of calls, and no assertion.

ghost use Rattle.std.specs.Prelude.{◌<◌};

use column_base::PolarsError;
use column_port::{
    Failed, MemorySink, MemorySource, ReadError, Sink, Source, StdSink, StdSource, SteadySource,
    read_within, write_whole,
};
use std::alloc::Global;

/// 26 bytes.
pub const TEXT: &[u8] = b"a document of 26 bytes ...";

// ---- reading to the end

/// What a reading gives, or how else it ends.
pub type Reading<'a> = Result<&'a [u8], ReadError>;

// the answer is as wanted, and its memory is for no more than one byte past the limit
fn reads<S: Source>(alloc: Global, source: &mut S, limit: u32, wanted: Reading<'_>) -> bool {
    let limit = limit as usize;
    match read_within(alloc, source, limit) {
        Ok(bytes) => wanted == Ok(bytes.as_slice()) && bytes.capacity() <= limit + 1,
        Err(error) => wanted == Err(error),
    }
}

// a source of the text
fn source(alloc: Global, most: usize, fails: &[u64]) -> Result<MemorySource, PolarsError>
    requires { 0 < most }
{
    let fails = Vec::from_slice(alloc, fails)?;
    Ok(MemorySource::new(Vec::from_slice(alloc, TEXT)?, most, fails))
}

/// The text is read within the limit, and then what is left of it.
pub fn text_is_read(
    alloc: Global,
    most: usize,
    call: u64,
    limit: u32,
    wanted: Reading<'_>,
    then: Reading<'_>,
) -> Result<bool, PolarsError> {
    if most == 0 {
        return Ok(false);
    }
    let mut source = source(alloc, most, &[call])?;
    Ok(reads(alloc, &mut source, limit, wanted) && reads(alloc, &mut source, 26, then))
}

pub fn steady_source_is_read(alloc: Global) -> Result<bool, PolarsError> {
    let mut source = SteadySource::new(Vec::from_slice(alloc, TEXT)?);
    Ok(reads(alloc, &mut source, 26, Ok(TEXT)) && reads(alloc, &mut source, 26, Ok(b"")))
}

pub fn std_reader_is_read(alloc: Global, limit: u32, wanted: Reading<'_>) -> bool {
    reads(alloc, &mut StdSource::new(TEXT), limit, wanted)
}

// ---- single reads

fn reads_piece<S: Source>(source: &mut S) -> Result<usize, Failed> {
    let mut piece = [0; 12];
    source.read(&mut piece)
}

fn answers_are<S: Source>(source: &mut S, wanted: &[Result<usize, Failed>]) -> bool {
    for answer in wanted {
        if reads_piece(source) != *answer {
            return false;
        }
    }
    true
}

/// The answers of a source of the text that gives at most 10 bytes a call.
pub fn calls_are_answered(
    alloc: Global,
    fails: &[u64],
    wanted: &[Result<usize, Failed>],
) -> Result<bool, PolarsError> {
    let mut source = source(alloc, 10, fails)?;
    Ok(answers_are(&mut source, wanted))
}

// ---- writing whole

/// How a writing ends.
pub type Writing = Result<(), Failed>;

fn writes<K: Sink>(sink: &mut K, wanted: Writing) -> bool {
    write_whole(sink, TEXT) == wanted
}

fn writes_to_memory(sink: &mut MemorySink, wanted: Writing, held: &[u8]) -> bool {
    writes(sink, wanted) && sink.bytes() == held
}

/// The text is written, and then once more; `held` and `then_held` is what the sink has.
pub fn text_is_written(
    alloc: Global,
    room: usize,
    most: usize,
    call: u64,
    wanted: Writing,
    held: &[u8],
    then: Writing,
    then_held: &[u8],
) -> Result<bool, PolarsError> {
    if most == 0 {
        return Ok(false);
    }
    let mut sink = MemorySink::new(alloc, room, most, Vec::from_slice(alloc, &[call])?)?;
    Ok(writes_to_memory(&mut sink, wanted, held) && writes_to_memory(&mut sink, then, then_held))
}

/// An empty text meets no room and a call that would fail.
pub fn empty_text_makes_no_call(alloc: Global) -> Result<bool, PolarsError> {
    let mut sink = MemorySink::new(alloc, 0, 1, Vec::from_slice(alloc, &[1])?)?;
    Ok(write_whole(&mut sink, &[]) == Ok(()))
}

pub fn std_writer_is_written(alloc: Global) -> bool {
    let mut taken = Vec::new(alloc);
    writes(&mut StdSink::new(&mut taken), Ok(())) && taken.as_slice() == TEXT
}

pub fn full_std_writer_fails() -> bool {
    let mut short = [0; 4];
    writes(&mut StdSink::new(&mut short[..]), Err(Failed)) && short == *b"a do"
}
