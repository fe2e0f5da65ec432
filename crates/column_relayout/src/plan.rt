//! Taking the steps of a plan.

ghost use Rattle.std.specs.Prelude.{◌≡◌, ◌≢◌, if◌then◌else◌, true, Ok, Err};
ghost use Rattle.column_base.specs.declared.errors.Cause.TheVariants.{StepRange};
ghost use Rattle.column_relayout.specs.Plans.{is_light, IsLight};
ghost use Rattle.column_relayout.specs.Arrays.{lists_of, lists_of_parts};
ghost use Rattle.column_relayout.specs.Relayouts.{Cuts, StepAnswers, step_error, Relayouts};

use crate::append::step_append;
use crate::assembly::assemble;
use crate::columns::{AnyArray, ColumnError, RawColumn};
use crate::conversion::{step_to_binary, step_to_utf8};
use crate::cut::{cut_left, cut_right, cut_slice, step_left, step_right, step_slice};
use crate::gather::{step_dedupe, step_gc};
use crate::rebuild::step_rebuild;
use crate::steps::Step;
use column_base::{Cause, PolarsError};
use std::alloc::Global;

/// The column that the plan's steps make of the parts, one after the other. The parts are consumed on every answer.
///
/// `Parts` with the parts' first fault, or else `Step` with the number, counted from 0, of the first step that is
/// refused, and its cause. `Overflow` comes besides only at a step that writes behind views, where the buffers of the parts
/// and one for each value of more than 12 bytes that steps wrote so far are more than there may be buffers. A plan of light
/// steps takes no memory, and its column shares the parts' value bytes or buffers. `NoMemory` comes only where a heavy step
/// is reached, and no step up to and with it has a fault.
#[tactic(auto, using(crate::proofs::PlansLemmas::plan_laws))]
pub fn relayout(alloc: Global, parts: RawColumn, plan: &[Step]) -> Result<AnyArray, ColumnError>
    ensures answer { Relayouts (lists_of_parts parts) plan.now result }
    ensures light { IsLight plan.now → result ≢ Err ColumnError.NoMemory }
{
    let mut column = match assemble(parts) {
        Ok(column) => column,
        Err(cause) => return Err(ColumnError::Parts(cause)),
    };
    for (i, step) in plan.iter().enumerate() {
        let is_cut = match cut(&mut column, step) {
            Ok(is_cut) => is_cut,
            Err(cause) => return Err(ColumnError::Step(i, cause)),
        };
        if !is_cut {
            column = match apply(alloc, column, step) {
                Ok(next) => next,
                Err(error) => return Err(step_error(i, error)),
            };
        }
    }
    Ok(column)
}

/// The error of a plan whose step `at` has this one.
fn step_error(at: usize, error: PolarsError) -> ColumnError
    ensures { result ≡ step_error at error }
{
    match error {
        PolarsError::ComputeError(cause) | PolarsError::OutOfBounds(cause) => {
            ColumnError::Step(at, cause)
        }
        PolarsError::NoMemory => ColumnError::NoMemory,
    }
}

/// Whether the step takes a part of the column's slots. Such a step is taken here, in place.
fn cut(column: &mut AnyArray, step: &Step) -> Result<bool, Cause>
    ensures { Cuts (lists_of column.old) step.now (lists_of column.new) result }
{
    match step {
        Step::Slice(offset, length) => taken(cut_slice(column, *offset, *length)),
        Step::Left(count) => taken(cut_left(column, *count)),
        Step::Right(count) => taken(cut_right(column, *count)),
        _ => Ok(false),
    }
}

/// That a cut is taken: `StepRange` where its part passes the slots.
fn taken(is_within: bool) -> Result<bool, Cause>
    ensures { result ≡ (if is_within then Ok true else Err StepRange) }
{
    if is_within {
        Ok(true)
    } else {
        Err(Cause::StepRange)
    }
}

#[tactic(auto, using(crate::proofs::StepsLemmas::answer_laws))]
fn apply(alloc: Global, column: AnyArray, step: &Step) -> Result<AnyArray, PolarsError>
    ensures step { StepAnswers (lists_of column) step.now result }
    ensures light { is_light step.now ≡ true → result ≢ Err PolarsError.NoMemory }
{
    match step {
        Step::Slice(offset, length) => Ok(step_slice(column, *offset, *length)?),
        Step::Left(count) => Ok(step_left(column, *count)?),
        Step::Right(count) => Ok(step_right(column, *count)?),
        Step::ToUtf8 => Ok(step_to_utf8(column)?),
        Step::ToBinary => Ok(step_to_binary(column)?),
        Step::Gc => step_gc(alloc, column),
        Step::Dedupe => step_dedupe(alloc, column),
        Step::Append(rows) => step_append(alloc, column, rows),
        Step::Rebuild(kind) => step_rebuild(alloc, column, *kind),
    }
}
