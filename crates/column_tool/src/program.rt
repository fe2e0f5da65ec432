//! The program as one call: a run over the words of its command line, a source and a sink.

ghost use Rattle.std.specs.Prelude.{◌≡◌, ◌↔◌, ◌+◌, IsTrue, codes, string_bytes};
ghost use Rattle.column_port.specs.Causes.{Rose};
ghost use Rattle.column_port.specs.Streams.{GaveAtMost};
ghost use Rattle.column_tool.specs.Outcomes.{IfDone, IsSilent, failed_reads, failed_writes};
ghost use Rattle.column_tool.specs.Ends.{ends};
ghost use Rattle.column_tool.specs.Runs.{limit, IsAsked, Says, KeepsLists, IsExact, IsExactlyTooLong, IsComplete};

use crate::outcome::Outcome;
use crate::reply::reply_to;
use column_port::{Failed, ReadError, Sink, Source, read_within, write_whole};
use std::alloc::Global;

/// The greatest number of bytes of a document.
pub const LIMIT: usize = 16_777_216;

/// Whether the words ask for a relayout, and for nothing else.
#[tactic(auto, using(crate::proofs::WordsLemmas::only_word))]
fn is_asked(words: &[String]) -> bool
    ensures { IsTrue result ↔ IsAsked words.now }
{
    match words {
        [word] => is_relayout(word),
        _ => false,
    }
}

fn is_relayout(word: &String) -> bool
    ensures { IsTrue result ↔ (string_bytes word.now ≡ codes "relayout") }
{
    matches!(word.as_str(), "relayout")
}

/// Relays a document: reads the source to its end, takes the plan's steps over the parts, and writes the column.
///
/// `words` leaves out the program's name. They ask for this where they are `relayout` alone, and for nothing else;
/// `Usage` comes exactly where they do not, and touches neither end. A source is read to its end, and at most one byte
/// past 16,777,216 leaves it; the text is built whole before the first write. The first read or write that fails ends
/// the run: at `ReadFault` the source, and at `WriteFault` the sink, has failed once more than before, and else none
/// has. A count of failures stands still at 2^64 - 1.
///
/// What was read and written is what the source and the sink tell; where one of them tells nothing, the clauses on
/// its bytes say nothing. `NoMemory` may come before the first write.
pub fn run<S: Source, K: Sink>(
    alloc: Global,
    words: &[String],
    source: &mut S,
    sink: &mut K,
) -> Outcome
    ensures usage { (result ≡ Outcome.Usage) ↔ (IsAsked words.now → ⊥) }
    ensures untouched { result ≡ Outcome.Usage → source.new ≡ source.old }
    ensures silent { IsSilent result → sink.new ≡ sink.old }

    // What was read, and what was written for it: the outcome's own record says it.
    ensures said { Says (ends (S.left source.old) (S.left source.new) (K.taken sink.old) (K.taken sink.new)) result }
    ensures light { IfDone result (KeepsLists (S.left source.old)) }
    ensures stopped { GaveAtMost (S.left source.old) (S.left source.new) (limit + 1) }

    // An end has failed once more where the outcome names it, and else as often as before.
    ensures source_faults { S.faults source.new ≡ failed_reads (S.faults source.old) result }
    ensures sink_faults { K.faults sink.new ≡ failed_writes (K.faults sink.old) result }

    // Exactly there, where no end fails.
    ensures exact { IsAsked words.now → ¬ Rose (S.faults source.old) (S.faults source.new) → ¬ Rose (K.faults sink.old) (K.faults sink.new)
        → IsExact (S.left source.old) result }
    ensures exact_too_long { IsAsked words.now → ¬ Rose (S.faults source.old) (S.faults source.new)
        → IsExactlyTooLong (S.left source.old) result }

    // A sound document is done, but for faults and memory.
    ensures complete { IsAsked words.now → IsComplete (S.left source.old) result }
{
    if !is_asked(words) {
        return Outcome::Usage;
    }
    let bytes = match read_within(alloc, source, LIMIT) {
        Ok(bytes) => bytes,
        Err(ReadError::NoMemory) => return Outcome::NoMemory,
        Err(ReadError::Fault) => return Outcome::ReadFault,
        Err(ReadError::TooLong) => return Outcome::TooLong,
    };
    let Ok(reply) = reply_to(alloc, bytes) else {
        return Outcome::NoMemory;
    };
    match write_whole(sink, &reply.text) {
        Ok(()) => reply.outcome,
        Err(Failed) => Outcome::WriteFault,
    }
}
