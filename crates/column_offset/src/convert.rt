//! Offsets of 32 bits as offsets of 64, and back.

ghost use Rattle.std.specs.Prelude.{◌≡◌, map, None};
ghost use Rattle.column_base.specs.Answers.{Answers};
ghost use Rattle.column_offset.specs.Offsets.{AreSoundOffsets, last_of};
ghost use Rattle.column_offset.specs.Growth.{limit_fault};

use crate::buffer::OffsetsBuffer;
use crate::checks::{last_place, place};
use crate::offsets::Offsets;
use column_base::{Cause, Offset, PolarsError};
use column_storage::Buffer;
use std::alloc::Global;

/// Sound offsets in another type. `Overflow` where the last one passes it.
fn converted<A: Offset, B: Offset>(alloc: Global, offsets: &[A]) -> Result<Vec<B>, PolarsError>
    requires { AreSoundOffsets (map A.int offsets.now) }
    ensures { Answers result (limit_fault B.GREATEST (last_of (map A.int offsets.now))) (λ v. map B.int v.items ≡ map A.int offsets.now) }
{
    if last_place(offsets) > B::GREATEST {
        return Err(Cause::Overflow.into());
    }
    let mut converted = Vec::with_capacity(alloc, offsets.len())?;
    for i in 0..offsets.len() {
        converted.push(B::from_as_usize(place(offsets, i)))?;
    }
    Ok(converted)
}

#[tactic(auto, using(crate::proofs::GrowthLemmas::within_limit))]
impl Offsets<i64> {
    /// The same offsets in 64 bits.
    ///
    /// `NoMemory` where there is none for them.
    pub fn widen(alloc: Global, offsets: Offsets<i32>) -> Result<Self, PolarsError>
        ensures { Answers result None (λ o. o.offsets ≡ offsets.offsets) }
    {
        offsets.known();
        Ok(Offsets::new_unchecked(converted(alloc, offsets.as_slice())?))
    }
}

#[tactic(auto, using(crate::proofs::GrowthLemmas::within_limit))]
impl Offsets<i32> {
    /// The same offsets in 32 bits.
    ///
    /// `Overflow` where the last one is above 2,147,483,647, then `NoMemory` where there is none for them.
    pub fn narrow(alloc: Global, offsets: Offsets<i64>) -> Result<Self, PolarsError>
        ensures { Answers result (limit_fault 2147483647 (last_of offsets.offsets)) (λ o. o.offsets ≡ offsets.offsets) }
    {
        Ok(Offsets::new_unchecked(converted(alloc, offsets.as_slice())?))
    }

    /// Law of widening: to 64 bits and back the offsets are the same, and nothing is refused but for want of memory.
    pub fn widen_and_narrow(alloc: Global, offsets: Offsets<i32>) -> Result<Self, PolarsError>
        ensures { Answers result None (λ o. o.offsets ≡ offsets.offsets) }
    {
        offsets.known();
        Offsets::<i32>::narrow(alloc, Offsets::<i64>::widen(alloc, offsets)?)
    }
}

#[tactic(auto, using(crate::proofs::GrowthLemmas::within_limit))]
impl OffsetsBuffer<i64> {
    /// The same offsets in 64 bits.
    ///
    /// `NoMemory` where there is none for them.
    pub fn widen(alloc: Global, offsets: &OffsetsBuffer<i32>) -> Result<Self, PolarsError>
        ensures { Answers result None (λ b. b ≡ offsets.now) }
    {
        offsets.known();
        let wide = converted(alloc, offsets.as_slice())?;
        Ok(OffsetsBuffer::new_unchecked(Buffer::from_vec(alloc, wide)?))
    }
}

#[tactic(auto, using(crate::proofs::GrowthLemmas::within_limit))]
impl OffsetsBuffer<i32> {
    /// The same offsets in 32 bits.
    ///
    /// `Overflow` where the last one is above 2,147,483,647, then `NoMemory` where there is none for them.
    pub fn narrow(alloc: Global, offsets: &OffsetsBuffer<i64>) -> Result<Self, PolarsError>
        ensures { Answers result (limit_fault 2147483647 (last_of offsets.now)) (λ b. b ≡ offsets.now) }
    {
        let narrow = converted(alloc, offsets.as_slice())?;
        Ok(OffsetsBuffer::new_unchecked(Buffer::from_vec(alloc, narrow)?))
    }

    /// Law of widening: to 64 bits and back the offsets are the same, and nothing is refused but for want of memory.
    pub fn widen_and_narrow(
        alloc: Global,
        offsets: &OffsetsBuffer<i32>,
    ) -> Result<Self, PolarsError>
        ensures { Answers result None (λ b. b ≡ offsets.now) }
    {
        offsets.known();
        let wide = OffsetsBuffer::<i64>::widen(alloc, offsets)?;
        OffsetsBuffer::<i32>::narrow(alloc, &wide)
    }
}
