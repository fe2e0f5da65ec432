//! Lists of buffers that views to be pushed name.

ghost use Rattle.std.specs.Prelude.{◌≡◌, ◌+◌, ◌^◌, ◌<◌, ◌≤◌, length, true, replicate, None, Some, OnErr, slice_set, slice_index_or, unwrap_or};
ghost use Rattle.column_base.specs.Answers.{Answers};
ghost use Rattle.column_view.specs.Views.{is_long, view_index, with_index};
ghost use Rattle.column_view.specs.ViewFaults.{layout_fault};
ghost use Rattle.column_blocks.specs.Blocks.{buffers_of};
ghost use Rattle.column_blocks.specs.Sources.{no_sources, source_at, place_of, place_noted, source_added, AreSoundSources, builder_bytes, take_fault, buffer_taken, found_place, view_taken, taken_view, view_take_fault};

use crate::blocks::Blocks;
use column_base::PolarsError;
use column_storage::DataBuffers;
use column_view::View;
use std::alloc::Global;
use std::marker::Model;

// For each buffer of a source the place at which it was taken, if it was.
#[derive(Drop)]
struct TakenPlaces {
    places: Vec<Option<u32>>,
}

impl Model for TakenPlaces {
    ghost use Rattle.std.specs.Prelude.{ℕ, List, Option};

    ghost Value = { List (Option ℕ) };

    ghost view = { λ p. p.places.items };
}

impl TakenPlaces {
    // None of `count` buffers was taken.
    fn new(alloc: Global, count: usize) -> Result<Self, PolarsError>
        ensures { Answers result None (λ p. p ≡ replicate count None) }
    {
        Ok(TakenPlaces {
            places: vec![in alloc; None; count]?,
        })
    }

    fn get(&self, buffer: usize) -> Option<u32>
        requires { buffer < length self.now }
        ensures { result ≡ slice_index_or self.now buffer None }
    {
        self.places[buffer]
    }

    fn set(&mut self, buffer: usize, place: u32)
        requires { buffer < length self.old }
        ensures { self.new ≡ slice_set self.old buffer (Some place) }
    {
        self.places[buffer] = Some(place);
    }

    fn try_clone(&self) -> Result<Self, PolarsError>
        ensures { Answers result None (λ p. p ≡ self.now) }
    {
        Ok(TakenPlaces {
            places: Vec::from_slice(*self.places.allocator(), &self.places)?,
        })
    }
}

/// The lists of buffers that are registered with a builder, and which of their buffers it took.
///
/// Takes 8 bytes for each buffer of a source, where it is registered.
#[derive(Drop)]
pub struct Sources {
    sources: Vec<DataBuffers>,
    places: Vec<TakenPlaces>,
}

impl Model for Sources {
    ghost use Rattle.column_blocks.specs.Sources.{SourceBuffers, source_buffers, AreSoundSources};

    ghost Value = { SourceBuffers };

    ghost view = { λ s. source_buffers s.sources.items s.places.items };

    ghost invariant = { λ s. AreSoundSources (source_buffers s.sources.items s.places.items) };
}

impl Sources {
    /// No sources. Takes no memory.
    pub fn new(alloc: Global) -> Self
        ensures { result ≡ no_sources }
    {
        Sources {
            sources: Vec::new(alloc),
            places: Vec::new(alloc),
        }
    }

    /// A copy, whose lists share their memory with these.
    ///
    /// `NoMemory` where there is none for it, or where the count of a list's owners is full.
    pub fn try_clone(&self) -> Result<Self, PolarsError>
        ensures { Answers result None (λ s. s ≡ self.now) }
    {
        Ok(Sources {
            sources: shared_sources(&self.sources)?,
            places: copied_places(&self.places)?,
        })
    }

    /// Tells proofs that each source has a place for each of its buffers.
    pub fn known(&self)
        ensures { AreSoundSources self.now }
    {
        let _ = &self.sources;
    }

    /// The number of sources.
    pub fn len(&self) -> usize
        ensures { result ≡ length self.now.sources }
    {
        self.sources.len()
    }

    /// Registers a further source, and answers how many there were before.
    ///
    /// `NoMemory` where there is none for the places of its buffers.
    pub fn add_source(&mut self, buffers: DataBuffers) -> Result<u32, PolarsError>
        requires { length self.old.sources < 2 ^ 32 }
        ensures answer { Answers result None (λ source. (source ≡ length self.old.sources) × (self.new ≡ source_added self.old buffers)) }
        ensures unchanged { OnErr result (self.new ≡ self.old) }
    {
        let source = self.sources.len();
        let places = TakenPlaces::new(*self.sources.allocator(), buffers.len())?;
        self.sources.reserve(1)?;
        self.places.push(places)?;
        self.sources.push(buffers)?;
        Ok(source as u32)
    }

    /// The buffers of a source.
    pub fn get(&self, source: u32) -> &DataBuffers
        requires { source < length self.now.sources }
        ensures { result.now ≡ source_at self.now source }
    {
        &self.sources[source as usize]
    }

    /// The place at which a buffer of a source was taken, if it was.
    #[tactic(auto, unfolding(crate::specs::Sources::place_of))]
    pub fn place(&self, source: u32, buffer: usize) -> Option<u32>
        requires source { source < length self.now.sources }
        requires buffer { buffer < length (source_at self.now source) }
        ensures { result ≡ place_of self.now source buffer }
    {
        self.places[source as usize].get(buffer)
    }

    // Notes that a buffer of a source was taken, and at which place.
    #[tactic(auto, unfolding(crate::specs::Sources::place_noted))]
    fn note(&mut self, source: u32, buffer: usize, place: u32)
        requires source { source < length self.old.sources }
        requires buffer { buffer < length (source_at self.old source) }
        ensures { self.new ≡ place_noted self.old source buffer place }
    {
        let places = &mut self.places[source as usize];
        places.set(buffer, place);
    }
}

// The lists, each of which shares its memory.
fn shared_sources(sources: &Vec<DataBuffers>) -> Result<Vec<DataBuffers>, PolarsError>
    ensures { Answers result None (λ v. v.items ≡ sources.now.items) }
{
    let alloc = *sources.allocator();
    let mut all = Vec::with_capacity(alloc, sources.len())?;
    for source in sources {
        all.push(source.try_clone(alloc)?)?;
    }
    Ok(all)
}

// A copy of the places.
fn copied_places(places: &Vec<TakenPlaces>) -> Result<Vec<TakenPlaces>, PolarsError>
    ensures { Answers result None (λ v. v.items ≡ places.now.items) }
{
    let alloc = *places.allocator();
    let mut all = Vec::with_capacity(alloc, places.len())?;
    for place in places {
        all.push(place.try_clone()?)?;
    }
    Ok(all)
}

/// The view over the blocks that says what a view of a source says. The buffer that a long view names is taken into the
/// blocks where it was not yet, and no byte is copied; the block is finished first. A view that holds its value stays as it
/// is, and changes nothing.
///
/// `Overflow` where a buffer is to be added and there are `MAX_BUFFERS`. `NoMemory` where there is none for it, or where the
/// count of its owners is full.
pub fn take_view(
    blocks: &mut Blocks,
    sources: &mut Sources,
    view: View,
    source: u32,
) -> Result<View, PolarsError>
    requires source { source < length sources.old.sources }
    requires fine { layout_fault view (source_at sources.old source) ≡ None }
    ensures answer { let old = builder_bytes blocks.old sources.old in Answers result (view_take_fault old view source) (λ taken. (taken ≡ taken_view old view source) × (builder_bytes blocks.new sources.new ≡ view_taken old view source)) }
    ensures unchanged { OnErr result ((blocks.new ≡ blocks.old) × (sources.new ≡ sources.old)) }
{
    if !view.is_long() {
        return Ok(view);
    }
    let place = take_buffer(blocks, sources, source, view.buffer_idx())?;
    Ok(view.with_buffer_idx(place))
}

// Takes a buffer of a source where it was not taken yet, and says at which place it is. The block is finished first.
fn take_buffer(
    blocks: &mut Blocks,
    sources: &mut Sources,
    source: u32,
    buffer: u32,
) -> Result<u32, PolarsError>
    requires source { source < length sources.old.sources }
    requires buffer { buffer < length (source_at sources.old source) }
    ensures answer { let old = builder_bytes blocks.old sources.old in let found = place_of sources.old source buffer in Answers result (take_fault found blocks.old) (λ place. (place ≡ unwrap_or found (length (buffers_of blocks.old))) × (builder_bytes blocks.new sources.new ≡ buffer_taken found old source buffer)) }
    ensures unchanged { OnErr result ((blocks.new ≡ blocks.old) × (sources.new ≡ sources.old)) }
{
    if let Some(place) = sources.place(source, buffer as usize) {
        blocks.finish_in_progress()?;
        return Ok(place);
    }
    let bytes = sources
        .get(source)
        .get(buffer as usize)
        .try_clone(blocks.allocator())?;
    let place = blocks.push_buffer(bytes)?;
    sources.note(source, buffer as usize, place);
    Ok(place)
}
