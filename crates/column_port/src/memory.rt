//! Ends that stand in memory, with faults where they are wanted.

ghost use Rattle.std.specs.Prelude.{◌≡◌, ◌+◌, ◌<◌, ◌≤◌, ◌++◌, ◌||◌, List, [], ℕ, length, take, drop, min, IfOk, OnErr, is_err, Some, None, Ok, vec_len, vec_capacity};
ghost use Rattle.std.specs.Io.{ReadsAtMost, WritesAtMost};
ghost use Rattle.std.specs.Io.KnownBytes.{ReadConsumes, WriteAppends};
ghost use Rattle.column_base.specs.Answers.{Answers};
ghost use Rattle.column_port.specs.Causes.{HasCause};
ghost use Rattle.column_port.specs.Memory.{Calls, no_calls, is_listed, after_call, Told, unread, given, after_read, Held, unwritten, accepted, is_full, after_write};

use crate::sink::Sink;
use crate::source::{Failed, Source};
use column_base::PolarsError;
use std::alloc::Global;
use std::marker::Model;

/// The calls that an end in memory has had, and the numbers of those that fail.
#[derive(Drop)]
struct CallLog {
    made: u64,
    faults: u64,
    fails: Vec<u64>,
}

impl Model for CallLog {
    ghost Value = { Calls };

    ghost view = { λ log. record { made = log.made; faults = log.faults; fails = log.fails.items } };
}

impl CallLog {
    fn new(fails: Vec<u64>) -> Self
        ensures { result ≡ no_calls fails.items }
    {
        CallLog {
            made: 0,
            faults: 0,
            fails,
        }
    }

    /// Counts a call. It fails where its number is listed, or where it is refused besides.
    fn count(&mut self, refused: bool) -> Result<(), Failed>
        ensures fails { is_err result ≡ (is_listed self.old || refused) }
        ensures after { self.new ≡ after_call self.old result }
        ensures cause { HasCause self.old.faults self.new.faults result }
    {
        self.made = self.made.saturating_add(1);
        if self.fails.contains(&self.made) || refused {
            self.faults = self.faults.saturating_add(1);
            return Err(Failed);
        }
        Ok(())
    }
}

/// Copies bytes from the front of the rest to the front of the piece, as many as fit and at most `most`, and answers
/// how many.
#[tactic(auto, using(crate::proofs::PiecesLemmas::pieces))]
fn copy_front(rest: &[u8], most: usize, piece: &mut [u8]) -> usize
    requires { 0 < most }
    ensures count { result ≡ min (length piece.old) (min most (length rest.now)) }
    ensures given { rest.now ≡ take result piece.new ++ drop result rest.now }
    ensures end { result ≡ 0 → 0 < length piece.new → rest.now ≡ [] }
{
    let count = piece.len().min(most.min(rest.len()));
    piece[..count].copy_from_slice(&rest[..count]);
    count
}

/// A source that holds its bytes in memory, gives at most so many of them a call, and fails at the calls that it is
/// told.
#[derive(Drop)]
pub struct MemorySource {
    bytes: Vec<u8>,
    start: usize,
    most: usize,
    calls: CallLog,
}

impl Model for MemorySource {
    ghost Value = { Told };

    ghost view = { λ source. record { rest = drop source.start source.bytes.items; most = source.most; calls = source.calls } };

    ghost invariant = { λ source. (source.start ≤ length source.bytes.items) × (0 < source.most) };
}

impl MemorySource {
    /// A source of these bytes that gives at most `most` of them a call, and fails at the calls whose numbers, from
    /// 1, are in `fails`, and at no other.
    ///
    /// `most` is above 0. Takes no memory. The number of a call stands still at 2^64 - 1.
    pub fn new(bytes: Vec<u8>, most: usize, fails: Vec<u64>) -> Self
        requires { 0 < most }
        ensures { result ≡ unread bytes.items most fails.items }
    {
        MemorySource {
            bytes,
            start: 0,
            most,
            calls: CallLog::new(fails),
        }
    }
}

#[tactic(auto, using(crate::proofs::PiecesLemmas::pieces))]
impl Source for MemorySource {
    ghost left = { λ source. Some source.rest };

    ghost faults = { λ source. source.calls.faults };

    /// Gives the least of the piece, `most` and the rest, or fails exactly at a listed call.
    fn read(&mut self, piece: &mut [u8]) -> Result<usize, Failed>
        ensures bound { ReadsAtMost result piece.new }
        ensures bytes { ReadConsumes (Some self.old.rest) (Some self.new.rest) result piece.new }
        ensures cause { HasCause self.old.calls.faults self.new.calls.faults result }

        // Exactly.
        ensures fails { is_err result ≡ is_listed self.old.calls }
        ensures count { IfOk result (λ count. count ≡ given self.old piece.old) }
        ensures after { self.new ≡ after_read self.old result }
    {
        self.calls.count(false)?;
        let count = copy_front(&self.bytes[self.start..], self.most, piece);
        self.start += count;
        Ok(count)
    }
}

/// A source that holds its bytes in memory and never fails.
#[derive(Drop)]
pub struct SteadySource {
    bytes: Vec<u8>,
    start: usize,
}

impl Model for SteadySource {
    ghost Value = { List ℕ };

    ghost view = { λ source. drop source.start source.bytes.items };

    ghost invariant = { λ source. source.start ≤ length source.bytes.items };
}

impl SteadySource {
    /// A source of these bytes. Takes no memory.
    pub fn new(bytes: Vec<u8>) -> Self
        ensures { result ≡ bytes.items }
    {
        SteadySource { bytes, start: 0 }
    }
}

#[tactic(auto, using(crate::proofs::PiecesLemmas::pieces))]
impl Source for SteadySource {
    ghost left = { λ source. Some source };

    ghost faults = { λ _. 0 };

    /// Gives the lesser of the piece and the rest.
    fn read(&mut self, piece: &mut [u8]) -> Result<usize, Failed>
        ensures bound { ReadsAtMost result piece.new }
        ensures bytes { ReadConsumes (Some self.old) (Some self.new) result piece.new }
        ensures cause { HasCause 0 0 result }

        // Exactly.
        ensures count { result ≡ Ok (min (length piece.old) (length self.old)) }
    {
        let count = copy_front(&self.bytes[self.start..], usize::MAX, piece);
        self.start += count;
        Ok(count)
    }
}

/// A sink that keeps its bytes in memory, takes at most so many of them a call, and fails at the calls that it is
/// told and where it is full.
#[derive(Drop)]
pub struct MemorySink {
    bytes: Vec<u8>,
    room: usize,
    most: usize,
    calls: CallLog,
}

impl Model for MemorySink {
    ghost Value = { Held };

    ghost view = { λ sink. record { bytes = sink.bytes.items; room = sink.room; most = sink.most; calls = sink.calls } };

    ghost invariant = { λ sink. (vec_len sink.bytes + sink.room ≤ vec_capacity sink.bytes) × (0 < sink.most) };
}

impl MemorySink {
    /// A sink with room for `room` bytes that takes at most `most` of them a call, and fails at the calls whose
    /// numbers, from 1, are in `fails`, or where a piece that isn't empty meets no room.
    ///
    /// `most` is above 0. Takes the memory for its room at once. The number of a call stands still at 2^64 - 1.
    pub fn new(
        alloc: Global,
        room: usize,
        most: usize,
        fails: Vec<u64>,
    ) -> Result<Self, PolarsError>
        requires { 0 < most }
        ensures { Answers result None (λ sink. sink ≡ unwritten room most fails.items) }
    {
        Ok(MemorySink {
            bytes: Vec::with_capacity(alloc, room)?,
            room,
            most,
            calls: CallLog::new(fails),
        })
    }

    /// The bytes that it took.
    pub fn bytes(&self) -> &[u8]
        ensures { result.now ≡ self.now.bytes }
    {
        &self.bytes
    }
}

impl Sink for MemorySink {
    ghost taken = { λ sink. Some sink.bytes };

    ghost faults = { λ sink. sink.calls.faults };

    /// Takes the least of the piece, `most` and the room, or fails exactly at a listed call and where a piece that
    /// isn't empty meets no room. Takes no memory.
    fn write(&mut self, piece: &[u8]) -> Result<usize, Failed>
        ensures bound { WritesAtMost result piece.now }
        ensures bytes { WriteAppends (Some self.old.bytes) (Some self.new.bytes) result piece.now }
        ensures progress { IfOk result (λ count. 0 < length piece.now → 0 < count) }
        ensures cause { HasCause self.old.calls.faults self.new.calls.faults result }

        // Exactly.
        ensures fails { is_err result ≡ (is_listed self.old.calls || is_full self.old piece.now) }
        ensures count { IfOk result (λ count. count ≡ accepted self.old piece.now) }
        ensures after { self.new ≡ after_write self.old piece.now result }
    {
        self.calls.count(!piece.is_empty() && self.room == 0)?;
        let count = piece.len().min(self.most.min(self.room));
        match self.bytes.extend_from_slice(&piece[..count]) {
            Ok(()) => {
                self.room -= count;
                Ok(count)
            }
            Err(_) => unreachable!(),
        }
    }
}
