//! What a run is seen to answer and to write: one truth value for each run, and no assertion.

use column_base::Cause;
use column_relayout::{ColumnError, RawColumn, assemble};
use column_storage::Buffer;
use column_tool::{
    MemorySink, MemorySource, Sink, Source, SteadySource, refusal_text, run, text_of,
};
use std::alloc::Global;
use std::test::Fail;

pub const FIRST: &[u8] =
    br#"{"kind":"binary32","offsets":[0,2,2,3],"values":"010203","validity":[true,false,true],"plan":[]}"#;

pub const FIRST_TEXT: &[u8] = b"ok binary32 3\n+0102\n-\n+03\noffsets=0,2,2,3\nvalues=010203\n";

fn strings(alloc: Global, words: &[&str]) -> Result<Vec<String>, Fail> {
    let mut strings = Vec::new(alloc);
    for word in words {
        strings.push(String::from_str(alloc, word)?)?;
    }
    Ok(strings)
}

// the status of a run
fn status<S: Source, K: Sink>(
    alloc: Global,
    words: &[&str],
    source: &mut S,
    sink: &mut K,
) -> Result<u8, Fail> {
    let words = strings(alloc, words)?;
    Ok(run(alloc, &words, source, sink).code())
}

// the status of a relayout into this sink, and what the sink then holds
fn relays<S: Source>(
    alloc: Global,
    source: &mut S,
    sink: &mut MemorySink,
    wanted: u8,
    text: &[u8],
) -> Result<bool, Fail> {
    Ok(status(alloc, &["relayout"], source, sink)? == wanted && sink.bytes() == text)
}

// the same, where no write fails
fn relays_to<S: Source>(
    alloc: Global,
    source: &mut S,
    wanted: u8,
    text: &[u8],
) -> Result<bool, Fail> {
    let mut sink = MemorySink::new(alloc, 4096, usize::MAX, Vec::new(alloc))?;
    relays(alloc, source, &mut sink, wanted, text)
}

// where no end fails
pub fn answers(alloc: Global, document: &[u8], wanted: u8, text: &[u8]) -> Result<bool, Fail> {
    let mut source = SteadySource::new(Vec::from_slice(alloc, document)?);
    relays_to(alloc, &mut source, wanted, text)
}

// so many arrays within each other, in a field that is ignored
pub fn is_nested(alloc: Global, depth: usize, text: &[u8]) -> Result<bool, Fail> {
    let mut document = Vec::from_slice(alloc, b"{\"ignored\":")?;
    for _ in 0..depth {
        document.push(b'[')?;
    }
    for _ in 0..depth {
        document.push(b']')?;
    }
    document.push(b'}')?;
    answers(alloc, &document, 2, text)
}

pub fn blanks_answer(alloc: Global, count: usize, wanted: u8, text: &[u8]) -> Result<bool, Fail> {
    let mut source = SteadySource::new(vec![in alloc; b' '; count]?);
    relays_to(alloc, &mut source, wanted, text)
}

// the first document, ten bytes a read, of which one fails
pub fn fails_at_read(alloc: Global, call: u64, wanted: u8, text: &[u8]) -> Result<bool, Fail> {
    let calls = vec![in alloc; call]?;
    let mut source = MemorySource::new(Vec::from_slice(alloc, FIRST)?, 10, calls);
    relays_to(alloc, &mut source, wanted, text)
}

fn relays_first(
    alloc: Global,
    sink: &mut MemorySink,
    wanted: u8,
    text: &[u8],
) -> Result<bool, Fail> {
    let mut source = SteadySource::new(Vec::from_slice(alloc, FIRST)?);
    relays(alloc, &mut source, sink, wanted, text)
}

// the first document's text, ten bytes a write, of which one fails
pub fn fails_at_write(alloc: Global, call: usize, text: &[u8]) -> Result<bool, Fail> {
    let mut sink = MemorySink::new(alloc, 4096, 10, vec![in alloc; call as u64]?)?;
    relays_first(alloc, &mut sink, 5, text)
}

// the first document's text, a byte a write, into so much room
pub fn ends_full(alloc: Global, room: usize, wanted: u8) -> Result<bool, Fail> {
    let mut sink = MemorySink::new(alloc, room, 1, Vec::new(alloc))?;
    if room > FIRST_TEXT.len() {
        return Ok(false);
    }
    relays_first(alloc, &mut sink, wanted, &FIRST_TEXT[..room])
}

// Nothing is written, and the source's first call, which fails, is still to come.
pub fn words_read_nothing(alloc: Global, words: &[&str]) -> Result<bool, Fail> {
    let calls = vec![in alloc; 1u64]?;
    let mut source = MemorySource::new(Vec::from_slice(alloc, b"{}")?, 10, calls);
    is_untouched(alloc, words, &mut source)
}

fn is_untouched<S: Source>(alloc: Global, words: &[&str], source: &mut S) -> Result<bool, Fail> {
    let mut sink = MemorySink::new(alloc, 4096, usize::MAX, Vec::new(alloc))?;
    Ok(
        status(alloc, words, source, &mut sink)? == 3
            && sink.bytes().is_empty()
            && source.read(&mut [0; 4]).is_err(),
    )
}

// ---- the text of a column, and of a refusal

pub fn column_text_is(alloc: Global) -> Result<bool, Fail> {
    let parts = RawColumn::Offset32 {
        text: false,
        offsets: Buffer::from_vec(alloc, vec![in alloc; 0i32, 2]?)?,
        values: Buffer::from_vec(alloc, vec![in alloc; 7u8, 255]?)?,
        validity: None,
    };
    match assemble(parts) {
        Ok(column) => Ok(
            text_of(alloc, &column)?.as_slice()
                == b"ok binary32 1\n+07ff\noffsets=0,2\nvalues=07ff\n".as_slice(),
        ),
        Err(_) => Ok(false),
    }
}

pub fn refusal_text_is(alloc: Global) -> Result<bool, Fail> {
    let refusal = ColumnError::Step(2, Cause::StepRange);
    Ok(refusal_text(alloc, &refusal)?.as_slice() == b"refused step 2 StepRange\n".as_slice())
}
