//! The values of slots of nested lists.

ghost use Rattle.std.specs.Prelude.{◌≡◌, ◌<◌, ◌≤◌, true, length, map};
ghost use Rattle.column_offset.specs.Offsets.{AreSoundOffsets, offset_at, last_of, nat_of};
ghost use Rattle.column_offset.specs.Leaves.{leaf_place, fits_levels, are_levels, all_leaf_ranges, leaf_full_range};

use crate::buffer::OffsetsBuffer;
use crate::checks::{place, places_of};
use column_base::Offset;
use std::iter::FusedIterator;
use std::ops::Range;

/// Where a place of the first of these levels comes to, through the offsets of each.
#[tactic(auto, using(crate::proofs::LeavesLemmas::descending))]
fn descend<O: Offset>(levels: &[OffsetsBuffer<O>], place: usize) -> usize
    requires { fits_levels place levels.now ≡ true }
    ensures { result ≡ leaf_place levels.now place }
{
    let mut at = place;
    for level in levels {
        at = level_place(level, at);
    }
    at
}

/// Offset `index` as a place, which is at most the last one.
#[tactic(auto, using(crate::proofs::OffsetsLemmas::sound_offsets))]
fn level_place<O: Offset>(level: &OffsetsBuffer<O>, index: usize) -> usize
    requires { index < length level.now }
    ensures same { result ≡ nat_of (offset_at level.now index) }
    ensures within { result ≤ nat_of (last_of level.now) }
{
    place(level.as_slice(), index)
}

/// The ranges of values of the slots that are left, first to last, through levels of offsets.
///
/// Arrow columnar format, "Variable-size List Layout".
#[derive(Drop)]
pub struct LeafRanges<'a, O: Offset> {
    offsets: &'a [O],
    levels: &'a [OffsetsBuffer<O>],
    ghost sound: { AreSoundOffsets (map O.int offsets.now) },
    ghost fits: { fits_levels (nat_of (last_of (map O.int offsets.now))) levels.now ≡ true },
}

impl<'a, O: Offset> Iterator for LeafRanges<'a, O> {
    ghost use Rattle.std.specs.Prelude.{◌≡◌, length, Some, IfSome};
    ghost use Rattle.std.specs.Iterator.{YieldsFirstBy, item_count, UpTo};
    ghost use Rattle.std.specs.Iterator.SizeHint.{IsWithinCount};
    ghost use Rattle.column_offset.specs.Iterators.{ranges_left};

    type Item = Range<usize>;

    ghost next_gives = { YieldsFirstBy (λ range. (range.start, range.end)) ranges_left };

    ghost remaining = { item_count ranges_left };

    #[tactic(auto, using(crate::proofs::LeavesLemmas::leaves))]
    fn next(&mut self) -> Option<Range<usize>> {
        if self.offsets.len() < 2 {
            return None;
        }
        let (start, end) = places_of(self.offsets, 0);
        self.offsets = &self.offsets[1..];
        Some(descend(self.levels, start)..descend(self.levels, end))
    }

    #[tactic(auto, using(crate::proofs::LeavesLemmas::counts, crate::proofs::OffsetsLemmas::sound_offsets))]
    fn size_hint(&self) -> (usize, Option<usize>)
        ensures exact { let n = length (ranges_left self.now) in result ≡ (n, Some n) }
        ensures lower { IsWithinCount result.0 (item_count ranges_left self.now) }
        ensures upper { IfSome result.1 (UpTo (item_count ranges_left self.now)) }
    {
        let left = self.offsets.len() - 1;
        (left, Some(left))
    }
}

impl<'a, O: Offset> FusedIterator for LeafRanges<'a, O> {}

impl<O: Offset> OffsetsBuffer<O> {
    ghost use Rattle.column_offset.specs.Iterators.{ranges_left};

    /// The range of values of each slot of the first level, through the levels below it.
    ///
    /// There is a level, and each level's last offset is at most the next one's number of slots. Takes no memory.
    pub fn leaf_ranges_iter(offsets: &[OffsetsBuffer<O>]) -> LeafRanges<'_, O>
        requires { are_levels offsets.now ≡ true }
        ensures { ranges_left result ≡ all_leaf_ranges offsets.now }
    {
        match offsets {
            [first, levels @ ..] => LeafRanges {
                offsets: first.as_slice(),
                levels,
            },
            [] => unreachable!(),
        }
    }

    /// The range of values of all slots of the first level, through the levels below it.
    ///
    /// There is a level, and each level's last offset is at most the next one's number of slots. Takes no memory.
    pub fn leaf_full_start_end(offsets: &[OffsetsBuffer<O>]) -> Range<usize>
        requires { are_levels offsets.now ≡ true }
        ensures start { result.start ≡ (leaf_full_range offsets.now).0 }
        ensures end { result.end ≡ (leaf_full_range offsets.now).1 }
    {
        match offsets {
            [first, levels @ ..] => full_range(first, levels),
            [] => unreachable!(),
        }
    }
}

/// The range of values of all slots of a level, through the levels below it.
#[tactic(auto, using(crate::proofs::LeavesLemmas::leaves, crate::proofs::OffsetsLemmas::sound_offsets))]
fn full_range<O: Offset>(first: &OffsetsBuffer<O>, levels: &[OffsetsBuffer<O>]) -> Range<usize>
    requires { fits_levels (nat_of (last_of first.now)) levels.now ≡ true }
    ensures start { result.start ≡ leaf_place levels.now (nat_of (offset_at first.now 0)) }
    ensures end { result.end ≡ leaf_place levels.now (nat_of (last_of first.now)) }
{
    let slots = first.len_proxy();
    let start = descend(levels, level_place(first, 0));
    let end = descend(levels, level_place(first, slots));
    start..end
}
