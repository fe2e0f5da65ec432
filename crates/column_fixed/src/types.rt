//! The data type of byte strings of one width, and lists of one.

ghost use Rattle.std.specs.Prelude.{◌≡◌, ◌*◌, ◌/◌, ◌<◌};
ghost use Rattle.column_base.specs.Answers.{GivesCause};
ghost use Rattle.column_fixed.specs.Types.{width_of, type_fault};
ghost use Rattle.column_fixed.specs.Slots.{width_fault};

use column_base::{ArrowDataType, Cause};

// The width that a data type tells: `WrongDataType` where it lies in another physical type.
pub(crate) fn width_of_type(dtype: ArrowDataType) -> Result<usize, Cause>
    ensures { GivesCause result (type_fault dtype) (λ width. width ≡ width_of dtype) }
{
    match dtype {
        ArrowDataType::FixedSizeBinary(width) => Ok(width),
        _ => Err(Cause::WrongDataType),
    }
}

// How many slots of a width so many bytes are: the first that stands of `SizeZero` where the width is 0, and
// `NotMultiple` where it does not divide them.
#[tactic(auto, using(crate::proofs::SlotsLemmas::widths))]
pub(crate) fn count_slots(width: usize, bytes: usize) -> Result<usize, Cause>
    ensures { GivesCause result (width_fault width bytes) (λ count. (0 < width) × (count ≡ bytes / width) × (count * width ≡ bytes)) }
{
    if width == 0 {
        return Err(Cause::SizeZero);
    }
    if bytes % width != 0 {
        return Err(Cause::NotMultiple);
    }
    Ok(bytes / width)
}
