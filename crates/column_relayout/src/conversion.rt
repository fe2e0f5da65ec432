//! The steps from byte strings to texts, and back.

ghost use Rattle.std.specs.Prelude.{◌≡◌, true, false, None};
ghost use Rattle.column_binary.specs.Slots.{offset_slots};
ghost use Rattle.column_relayout.specs.declared.steps.Step.TheVariants.{ToUtf8, ToBinary};
ghost use Rattle.column_binview.specs.Slots.{view_slots};
ghost use Rattle.column_relayout.specs.Columns.{offset_column, view_column};
ghost use Rattle.column_relayout.specs.Kinds.{offset_kind, view_kind};
ghost use Rattle.column_relayout.specs.Plans.{step_fault};
ghost use Rattle.column_relayout.specs.Steps.{StepsTo};
ghost use Rattle.column_relayout.specs.Arrays.{lists_of};
ghost use Rattle.column_relayout.specs.Relayouts.{GivesStep, StepGives};

use crate::arrays::Column;
use crate::columns::AnyArray;
use column_base::{Cause, Offset};
use column_binary::BinaryArray;
use column_binview::{BinaryViewArray, Utf8ViewArray};
use column_utf8::{Utf8Array, try_into_utf8};

/// The same slots as texts, in the same layout. The column is consumed. Takes no memory.
///
/// `WrongKind` where the column is not one of byte strings with offsets or views. Else, with offsets, `InvalidUtf8`
/// where the bytes of all slots are not UTF-8 end to end, null ones too, or `CharBoundary` where they are and some slot
/// by itself is not; with views, `InvalidUtf8` where some slot by itself is not, a null one too.
#[tactic(auto, using(crate::proofs::StepsLemmas::kind_laws))]
pub fn step_to_utf8(column: AnyArray) -> Result<AnyArray, Cause>
    ensures { StepGives (lists_of column) ToUtf8 result }
{
    match column {
        AnyArray::Binary32(array) => Ok(AnyArray::Utf8_32(to_texts(array)?)),
        AnyArray::Binary64(array) => Ok(AnyArray::Utf8_64(to_texts(array)?)),
        AnyArray::BinView(array) => Ok(AnyArray::Utf8View(to_text_views(array)?)),
        AnyArray::Utf8_32(_) | AnyArray::Utf8_64(_) => Err(Cause::WrongKind),
        AnyArray::Utf8View(_) => Err(Cause::WrongKind),
        AnyArray::Fixed(_) => Err(Cause::WrongKind),
        AnyArray::Int64(_) => Err(Cause::WrongKind),
    }
}

/// The same slots as byte strings, in the same layout. The column is consumed. Takes no memory.
///
/// `WrongKind` where the column is not one of texts.
#[tactic(auto, using(crate::proofs::StepsLemmas::kind_laws))]
pub fn step_to_binary(column: AnyArray) -> Result<AnyArray, Cause>
    ensures { StepGives (lists_of column) ToBinary result }
{
    match column {
        AnyArray::Utf8_32(array) => Ok(AnyArray::Binary32(to_bytes(array))),
        AnyArray::Utf8_64(array) => Ok(AnyArray::Binary64(to_bytes(array))),
        AnyArray::Utf8View(array) => Ok(AnyArray::BinView(to_byte_views(array))),
        AnyArray::Binary32(_) | AnyArray::Binary64(_) => Err(Cause::WrongKind),
        AnyArray::BinView(_) => Err(Cause::WrongKind),
        AnyArray::Fixed(_) => Err(Cause::WrongKind),
        AnyArray::Int64(_) => Err(Cause::WrongKind),
    }
}

#[tactic(auto, using(crate::proofs::StepsLemmas::conversions))]
fn to_texts<O: Offset>(array: BinaryArray<O>) -> Result<Utf8Array<O>, Cause>
    ensures { GivesStep (λ texts. offset_column O.IS_LARGE true texts) (offset_column O.IS_LARGE false array) ToUtf8 result }
{
    match try_into_utf8(array) {
        Ok(texts) => {
            Column::known(&texts);
            Ok(texts)
        }
        Err((_, cause)) => Err(cause),
    }
}

#[tactic(auto, using(crate::proofs::StepsLemmas::conversions))]
fn to_bytes<O: Offset>(array: Utf8Array<O>) -> BinaryArray<O>
    ensures fault { step_fault (offset_kind O.IS_LARGE true) (offset_slots array) ToBinary ≡ None }
    ensures steps { StepsTo (offset_column O.IS_LARGE true array) ToBinary (offset_column O.IS_LARGE false result) }
{
    let bytes = array.into_binary();
    Column::known(&bytes);
    bytes
}

#[tactic(auto, using(crate::proofs::StepsLemmas::view_conversions))]
fn to_text_views(array: BinaryViewArray) -> Result<Utf8ViewArray, Cause>
    ensures { GivesStep (λ texts. view_column true texts) (view_column false array) ToUtf8 result }
{
    array.known();
    match array.try_into_utf8view() {
        Ok(texts) => {
            Column::known(&texts);
            Ok(texts)
        }
        Err((_, cause)) => Err(cause),
    }
}

#[tactic(auto, using(crate::proofs::StepsLemmas::view_conversions))]
fn to_byte_views(array: Utf8ViewArray) -> BinaryViewArray
    ensures fault { step_fault (view_kind true) (view_slots array) ToBinary ≡ None }
    ensures steps { StepsTo (view_column true array) ToBinary (view_column false result) }
{
    let bytes = array.into_binview();
    Column::known(&bytes);
    bytes
}
