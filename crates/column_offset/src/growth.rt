//! How lists of offsets grow.

ghost use Rattle.std.specs.Prelude.{◌≡◌, ℕ, ◌+◌, ◌<◌, ◌≤◌, pos, ◌≤ℤ◌, ◌+ℤ◌, length, take, map, ⊤, OnOk, OnErr, Err};
ghost use Rattle.std.specs.Vec.{vec_len, vec_capacity};
ghost use Rattle.std.specs.Iterator.{IsFinite};
ghost use Rattle.column_base.specs.declared.errors.Cause.TheVariants.{Overflow};
ghost use Rattle.column_base.specs.Answers.{Gives, Answers};
ghost use Rattle.column_base.specs.Errors.{error_of};
ghost use Rattle.column_offset.specs.Offsets.{AreOffsetsWithin, last_of};
ghost use Rattle.column_offset.specs.Growth.{pushed, limit_fault, ExtendsByLengths};

use crate::checks::last_place;
use column_base::{Cause, Offset, PolarsError};

/// Adds a slot of `length` after the last of sound offsets, and gives the new last one.
#[tactic(auto, using(crate::proofs::GrowthLemmas::growing))]
fn push_after<O: Offset>(
    offsets: &mut Vec<O>,
    last: usize,
    length: usize,
) -> Result<usize, PolarsError>
    requires within { AreOffsetsWithin O.GREATEST (map O.int offsets.old.items) }
    requires last { pos last ≡ last_of (map O.int offsets.old.items) }
    requires limit { last ≤ O.GREATEST }
    ensures answer { Answers result (limit_fault O.GREATEST (pos (last + length))) (λ next. (next ≡ last + length) × (next ≤ O.GREATEST) × (map O.int offsets.new.items ≡ pushed (map O.int offsets.old.items) length)) }
    ensures within { AreOffsetsWithin O.GREATEST (map O.int offsets.new.items) }
    ensures room { vec_len offsets.old < vec_capacity offsets.old → Gives result (limit_fault O.GREATEST (pos (last + length))) (λ _. ⊤) }
    ensures capacity { vec_capacity offsets.old ≤ vec_capacity offsets.new }
    ensures count { OnOk result (vec_len offsets.new ≡ vec_len offsets.old + 1) }
    ensures unchanged { OnErr result (offsets.new.items ≡ offsets.old.items) }
    ensures untouched { result ≡ Err (error_of Overflow) → offsets.new ≡ offsets.old }
{
    if length > O::GREATEST - last {
        return Err(Cause::Overflow.into());
    }
    let next = last + length;
    offsets.push(O::from_as_usize(next))?;
    Ok(next)
}

/// Adds slots of these lengths to sound offsets, those up to the first refusal.
#[tactic(auto, using(crate::proofs::GrowthLemmas::growing))]
pub(crate) fn push_lengths<O: Offset, I: Iterator<Item = usize> + Drop>(
    offsets: &mut Vec<O>,
    lengths: I,
) -> Result<(), PolarsError>
    requires within { AreOffsetsWithin O.GREATEST (map O.int offsets.old.items) }
    requires can { I.can_next lengths }
    requires ends { IsFinite (I.remaining lengths) }
    ensures added { ExtendsByLengths I.next_gives lengths O.GREATEST (map O.int offsets.old.items) (map O.int offsets.new.items) result }
    ensures within { AreOffsetsWithin O.GREATEST (map O.int offsets.new.items) }
    ensures capacity { vec_capacity offsets.old ≤ vec_capacity offsets.new }
    ensures kept { take (length offsets.old.items) (map O.int offsets.new.items) ≡ map O.int offsets.old.items }
{
    let mut last = last_place(offsets.as_slice());
    for length in lengths {
        last = push_after(offsets, last, length)?;
    }
    Ok(())
}

/// Adds a slot of `length` to sound offsets.
#[tactic(auto, using(crate::proofs::GrowthLemmas::growing))]
pub(crate) fn push_length<O: Offset>(offsets: &mut Vec<O>, length: usize) -> Result<(), PolarsError>
    requires { AreOffsetsWithin O.GREATEST (map O.int offsets.old.items) }
    ensures answer { Answers result (limit_fault O.GREATEST (last_of (map O.int offsets.old.items) +ℤ pos length)) (λ _. map O.int offsets.new.items ≡ pushed (map O.int offsets.old.items) length) }
    ensures within { AreOffsetsWithin O.GREATEST (map O.int offsets.new.items) }
    ensures room { vec_len offsets.old < vec_capacity offsets.old → Gives result (limit_fault O.GREATEST (last_of (map O.int offsets.old.items) +ℤ pos length)) (λ _. ⊤) }
    ensures capacity { vec_capacity offsets.old ≤ vec_capacity offsets.new }
    ensures count { OnOk result (vec_len offsets.new ≡ vec_len offsets.old + 1) }
    ensures unchanged { OnErr result (offsets.new.items ≡ offsets.old.items) }
    ensures untouched { result ≡ Err (error_of Overflow) → offsets.new ≡ offsets.old }
{
    let last = last_place(offsets.as_slice());
    push_after(offsets, last, length)?;
    Ok(())
}
