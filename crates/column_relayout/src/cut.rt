//! The steps that take a part of a column's slots.

ghost use Rattle.std.specs.Prelude.{◌≡◌, ◌+◌, nat_le};
ghost use Rattle.column_relayout.specs.declared.steps.Step.TheVariants.{Slice, Left, Right};
ghost use Rattle.column_relayout.specs.Arrays.{lists_of};
ghost use Rattle.column_relayout.specs.Relayouts.{StepGives, CutsTo};

use crate::arrays::Column;
use crate::columns::AnyArray;
use column_base::Cause;

/// The `length` slots from slot `offset` on. The column is consumed. Takes no memory.
///
/// `StepRange` where `offset` plus `length` passes the number of slots.
pub fn step_slice(column: AnyArray, offset: usize, length: usize) -> Result<AnyArray, Cause>
    ensures { StepGives (lists_of column) (Slice offset length) result }
{
    let mut column = column;
    if cut_slice(&mut column, offset, length) {
        Ok(column)
    } else {
        Err(Cause::StepRange)
    }
}

/// The first `count` slots. The column is consumed. Takes no memory.
///
/// `StepRange` where `count` passes the number of slots.
pub fn step_left(column: AnyArray, count: usize) -> Result<AnyArray, Cause>
    ensures { StepGives (lists_of column) (Left count) result }
{
    let mut column = column;
    if cut_left(&mut column, count) {
        Ok(column)
    } else {
        Err(Cause::StepRange)
    }
}

/// The slots from slot `count` on. The column is consumed. Takes no memory.
///
/// `StepRange` where `count` passes the number of slots.
pub fn step_right(column: AnyArray, count: usize) -> Result<AnyArray, Cause>
    ensures { StepGives (lists_of column) (Right count) result }
{
    let mut column = column;
    if cut_right(&mut column, count) {
        Ok(column)
    } else {
        Err(Cause::StepRange)
    }
}

// ---- the same in place. Each answers whether the part is among the slots

/// Keeps the slots that [`step_slice`] gives.
pub(crate) fn cut_slice(column: &mut AnyArray, offset: usize, length: usize) -> bool
    ensures { CutsTo (lists_of column.old) (Slice offset length) (lists_of column.new) result }
{
    match column {
        AnyArray::Binary32(array) => slice(array, offset, length),
        AnyArray::Binary64(array) => slice(array, offset, length),
        AnyArray::Utf8_32(array) => slice(array, offset, length),
        AnyArray::Utf8_64(array) => slice(array, offset, length),
        AnyArray::BinView(array) => slice(array, offset, length),
        AnyArray::Utf8View(array) => slice(array, offset, length),
        AnyArray::Fixed(array) => slice(array, offset, length),
        AnyArray::Int64(array) => slice(array, offset, length),
    }
}

/// Keeps the slots that [`step_left`] gives.
pub(crate) fn cut_left(column: &mut AnyArray, count: usize) -> bool
    ensures { CutsTo (lists_of column.old) (Left count) (lists_of column.new) result }
{
    match column {
        AnyArray::Binary32(array) => left(array, count),
        AnyArray::Binary64(array) => left(array, count),
        AnyArray::Utf8_32(array) => left(array, count),
        AnyArray::Utf8_64(array) => left(array, count),
        AnyArray::BinView(array) => left(array, count),
        AnyArray::Utf8View(array) => left(array, count),
        AnyArray::Fixed(array) => left(array, count),
        AnyArray::Int64(array) => left(array, count),
    }
}

/// Keeps the slots that [`step_right`] gives.
pub(crate) fn cut_right(column: &mut AnyArray, count: usize) -> bool
    ensures { CutsTo (lists_of column.old) (Right count) (lists_of column.new) result }
{
    match column {
        AnyArray::Binary32(array) => right(array, count),
        AnyArray::Binary64(array) => right(array, count),
        AnyArray::Utf8_32(array) => right(array, count),
        AnyArray::Utf8_64(array) => right(array, count),
        AnyArray::BinView(array) => right(array, count),
        AnyArray::Utf8View(array) => right(array, count),
        AnyArray::Fixed(array) => right(array, count),
        AnyArray::Int64(array) => right(array, count),
    }
}

#[tactic(auto, using(crate::proofs::StepsLemmas::cut_laws))]
fn slice<C: Column>(column: &mut C, offset: usize, length: usize) -> bool
    ensures { CutsTo (C.raw column.old) (Slice offset length) (C.raw column.new) result }
{
    if is_within(column.count(), offset, length) {
        column.cut(offset, length);
        column.known();
        true
    } else {
        false
    }
}

#[tactic(auto, using(crate::proofs::StepsLemmas::cut_laws))]
fn left<C: Column>(column: &mut C, count: usize) -> bool
    ensures { CutsTo (C.raw column.old) (Left count) (C.raw column.new) result }
{
    if count <= column.count() {
        column.cut(0, count);
        column.known();
        true
    } else {
        false
    }
}

#[tactic(auto, using(crate::proofs::StepsLemmas::cut_laws))]
fn right<C: Column>(column: &mut C, count: usize) -> bool
    ensures { CutsTo (C.raw column.old) (Right count) (C.raw column.new) result }
{
    let slots = column.count();
    if count <= slots {
        column.cut(count, slots - count);
        column.known();
        true
    } else {
        false
    }
}

/// Whether `length` slots from slot `offset` on are among `count` ones.
fn is_within(count: usize, offset: usize, length: usize) -> bool
    ensures { result ≡ nat_le (offset + length) count }
{
    length <= count && offset <= count - length
}
