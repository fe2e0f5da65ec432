//! Rows that are appended to a column.

ghost use Rattle.std.specs.Prelude.{◌≡◌, ◌<◌, ◌≤◌, ◌==◌, ◌+◌, ◌++◌, ◌∷◌, [], None, Some, length, take, slice_index_or, OnErr};
ghost use Rattle.std.specs.Option.{option_copied};
ghost use Rattle.column_base.specs.Answers.{Answers};
ghost use Rattle.column_base.specs.Lists.{sublist};
ghost use Rattle.column_relayout.specs.Places.{row_at, IsWithin, IsPlaced};

use column_base::PolarsError;
use column_rows::{ByteRows, RowList};
use std::alloc::Global;
use std::marker::Model;

/// A list of optional byte strings, which keeps its allocator. A row that is None is missing.
///
/// A row of few bytes stands in its place, and the bytes of longer ones end to end, so a row takes no memory of its own.
#[derive(Drop)]
pub struct Rows {
    bytes: Vec<u8>,
    places: Vec<Place>,
}

/// The most bytes of a row that stand in its place.
const FEW: usize = 22;

/// Where the bytes of a row are: nowhere where it is missing, here where they are few, or from a place on among those of
/// longer rows.
#[derive(Drop)]
enum Place {
    Missing,
    Here(u8, [u8; FEW]),
    There(usize, usize),
}

impl Model for Rows {
    ghost use Rattle.std.specs.Prelude.{ℕ, List, Option, length};
    ghost use Rattle.column_relayout.specs.Places.{rows_at, AreWithin};

    ghost Value = { List (Option (List ℕ)) };

    ghost view = { λ r. rows_at r.bytes.items r.places.items };

    ghost invariant = { λ r. AreWithin (length r.bytes.items) r.places.items };
}

#[tactic(auto, using(crate::proofs::PlacesLemmas::places))]
impl Rows {
    /// No rows. Takes no memory.
    pub fn new(alloc: Global) -> Self
        ensures { result ≡ [] }
    {
        Rows {
            bytes: Vec::new(alloc),
            places: Vec::new(alloc),
        }
    }

    /// No rows, with room for so many.
    ///
    /// `NoMemory` where there is none for them.
    pub fn with_capacity(alloc: Global, capacity: usize) -> Result<Self, PolarsError>
        ensures { Answers result None (λ r. r ≡ []) }
    {
        Ok(Rows {
            bytes: Vec::new(alloc),
            places: Vec::with_capacity(alloc, capacity)?,
        })
    }

    /// Adds a row, whose bytes are copied.
    ///
    /// `NoMemory` where there is none for it, and the rows are as they were.
    pub fn push(&mut self, row: Option<&[u8]>) -> Result<(), PolarsError>
        ensures answer { Answers result None (λ _. self.new ≡ self.old ++ option_copied row.entry ∷ []) }
        ensures unchanged { OnErr result (self.new ≡ self.old) }
    {
        let place = place_of(&mut self.bytes, row)?;
        self.places.push(place)?;
        Ok(())
    }

    /// The number of rows.
    pub fn len(&self) -> usize
        ensures { result ≡ length self.now }
    {
        self.places.len()
    }

    /// Whether there is no row.
    pub fn is_empty(&self) -> bool
        ensures { result ≡ (length self.now == 0) }
    {
        self.places.is_empty()
    }

    /// The bytes of row `i`, or None where it is missing.
    pub fn get(&self, i: usize) -> Option<&[u8]>
        requires { i < length self.now }
        ensures { option_copied result ≡ slice_index_or self.now i None }
    {
        placed(&self.bytes, &self.places[i])
    }
}

impl RowList for Rows {
    ghost rows = { λ rows. rows };

    fn count(&self) -> usize {
        self.len()
    }

    fn row_length(&self, i: usize) -> Option<usize> {
        match self.get(i) {
            Some(bytes) => Some(bytes.len()),
            None => None,
        }
    }
}

impl ByteRows for Rows {
    fn row(&self, i: usize) -> Option<&[u8]> {
        self.get(i)
    }
}

// The place of a row. The bytes of a longer one are added to those of all.
fn place_of(all: &mut Vec<u8>, row: Option<&[u8]>) -> Result<Place, PolarsError>
    ensures answer { Answers result None (λ place. IsPlaced all.old.items (option_copied row.entry) place all.new.items) }
    ensures unchanged { OnErr result (all.new.items ≡ all.old.items) }
{
    match row {
        None => Ok(Place::Missing),
        Some(bytes) if bytes.len() <= FEW => Ok(here(bytes)),
        Some(bytes) => {
            let start = all.len();
            all.extend_from_slice(bytes)?;
            Ok(Place::There(start, bytes.len()))
        }
    }
}

// Few bytes, in the place of their row.
fn here(bytes: &[u8]) -> Place
    requires { length bytes.now ≤ FEW }
    ensures row { row_at [] result ≡ Some bytes.now }
    ensures within { IsWithin 0 result }
{
    let mut own = [0; FEW];
    own[..bytes.len()].copy_from_slice(bytes);
    Place::Here(bytes.len() as u8, own)
}

// The bytes at a place.
fn placed<'a>(all: &'a [u8], place: &'a Place) -> Option<&'a [u8]>
    requires { IsWithin (length all.now) place.now }
    ensures { option_copied result ≡ row_at all.now place.now }
{
    match place {
        Place::Missing => None,
        Place::Here(count, own) => Some(&own[..*count as usize]),
        Place::There(start, len) => Some(&all[*start..*start + *len]),
    }
}
