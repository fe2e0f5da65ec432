//! The steps that make the buffers of views anew.

ghost use Rattle.std.specs.Prelude.{◌≡◌};
ghost use Rattle.column_relayout.specs.declared.steps.Step.TheVariants.{Gc, Dedupe};
ghost use Rattle.column_relayout.specs.Columns.{view_column};
ghost use Rattle.column_relayout.specs.Arrays.{lists_of};
ghost use Rattle.column_relayout.specs.Relayouts.{AnswersStep, StepAnswers};

use crate::arrays::Column;
use crate::columns::AnyArray;
use column_base::{Cause, PolarsError, ViewKind};
use column_binview::BinaryViewArrayGeneric;
use column_deduped::deduped;
use std::alloc::Global;

/// The same slots over buffers that are, end to end, the slots of more than 12 bytes, null ones too. The column is
/// consumed. A column without buffers stays as it is.
///
/// `WrongKind` where the column has no views. `Overflow` only where more slots have more than 12 bytes than there may be
/// buffers. `NoMemory` where there is none for views and buffers.
#[tactic(auto, using(crate::proofs::GatherLemmas::no_buffers))]
pub fn step_gc(alloc: Global, column: AnyArray) -> Result<AnyArray, PolarsError>
    ensures { StepAnswers (lists_of column) Gc result }
{
    match column {
        AnyArray::BinView(array) => Ok(AnyArray::BinView(gathered(alloc, array)?)),
        AnyArray::Utf8View(array) => Ok(AnyArray::Utf8View(gathered(alloc, array)?)),
        AnyArray::Binary32(_) | AnyArray::Binary64(_) => Err(Cause::WrongKind.into()),
        AnyArray::Utf8_32(_) | AnyArray::Utf8_64(_) => Err(Cause::WrongKind.into()),
        AnyArray::Fixed(_) | AnyArray::Int64(_) => Err(Cause::WrongKind.into()),
    }
}

/// The same slots over the buffers that views of more than 12 bytes name, each once, in the order of first naming; views
/// of null slots count. Such a view names its buffer by its new place. The column is consumed.
///
/// `WrongKind` where the column has no views. `NoMemory` where there is none for views and buffers.
#[tactic(auto, using(crate::proofs::GatherLemmas::no_buffers))]
pub fn step_dedupe(alloc: Global, column: AnyArray) -> Result<AnyArray, PolarsError>
    ensures { StepAnswers (lists_of column) Dedupe result }
{
    match column {
        AnyArray::BinView(array) => Ok(AnyArray::BinView(renamed(alloc, array)?)),
        AnyArray::Utf8View(array) => Ok(AnyArray::Utf8View(renamed(alloc, array)?)),
        AnyArray::Binary32(_) | AnyArray::Binary64(_) => Err(Cause::WrongKind.into()),
        AnyArray::Utf8_32(_) | AnyArray::Utf8_64(_) => Err(Cause::WrongKind.into()),
        AnyArray::Fixed(_) | AnyArray::Int64(_) => Err(Cause::WrongKind.into()),
    }
}

fn gathered<K: ViewKind>(
    alloc: Global,
    array: BinaryViewArrayGeneric<K>,
) -> Result<BinaryViewArrayGeneric<K>, PolarsError>
    ensures { AnswersStep (λ new. view_column K.IS_UTF8 new) (view_column K.IS_UTF8 array) Gc result }
{
    let new = array.gc(alloc)?;
    Column::known(&new);
    Ok(new)
}

fn renamed<K: ViewKind>(
    alloc: Global,
    array: BinaryViewArrayGeneric<K>,
) -> Result<BinaryViewArrayGeneric<K>, PolarsError>
    ensures { AnswersStep (λ new. view_column K.IS_UTF8 new) (view_column K.IS_UTF8 array) Dedupe result }
{
    Column::known(&array);
    let new = deduped(alloc, array)?;
    Column::known(&new);
    Ok(new)
}
