//! The data types of arrays with offsets.

ghost use Rattle.std.specs.Prelude.{◌≡◌, ⊤, None};
ghost use Rattle.column_base.specs.Answers.{GivesCause};
ghost use Rattle.column_binary.specs.Types.{offset_type, type_fault};

use column_base::{ArrowDataType, Cause, PhysicalType};

/// The data type of byte strings with offsets, or of texts where `is_text`: of 32 bits, or of 64 where `is_large`.
pub fn offset_dtype(is_large: bool, is_text: bool) -> ArrowDataType
    ensures dtype { result ≡ offset_type is_large is_text }
    ensures own { type_fault is_large is_text result ≡ None }
{
    match (is_large, is_text) {
        (false, false) => ArrowDataType::Binary,
        (false, true) => ArrowDataType::Utf8,
        (true, false) => ArrowDataType::LargeBinary,
        (true, true) => ArrowDataType::LargeUtf8,
    }
}

/// Whether a data type is laid out as byte strings, or texts, with offsets of this width: `WrongDataType` where it is
/// not.
pub fn check_offset_type(dtype: ArrowDataType, is_large: bool, is_text: bool) -> Result<(), Cause>
    ensures { GivesCause result (type_fault is_large is_text dtype) (λ _. ⊤) }
{
    let is_own = match dtype.to_physical_type() {
        PhysicalType::Binary => !is_large && !is_text,
        PhysicalType::LargeBinary => is_large && !is_text,
        PhysicalType::Utf8 => !is_large && is_text,
        PhysicalType::LargeUtf8 => is_large && is_text,
        _ => false,
    };
    if is_own {
        Ok(())
    } else {
        Err(Cause::WrongDataType)
    }
}
