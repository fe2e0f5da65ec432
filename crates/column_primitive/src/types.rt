//! The data types of numbers.

ghost use Rattle.std.specs.Prelude.{◌≡◌, ⊤, None};
ghost use Rattle.column_base.specs.Answers.{GivesCause};
ghost use Rattle.column_base.specs.DataTypes.{default_type};
ghost use Rattle.column_primitive.specs.Types.{number_type_fault};

use column_base::{ArrowDataType, Cause, PhysicalType, PrimitiveType};

/// Whether a data type is laid out as numbers of this type: `WrongDataType` where it is not.
pub fn check_number_type(dtype: ArrowDataType, primitive: PrimitiveType) -> Result<(), Cause>
    ensures { GivesCause result (number_type_fault primitive dtype) (λ _. ⊤) }
{
    match dtype.to_physical_type() {
        PhysicalType::Primitive(found) if found == primitive => Ok(()),
        _ => Err(Cause::WrongDataType),
    }
}

/// The data type of plain numbers of this type.
pub fn number_dtype(primitive: PrimitiveType) -> ArrowDataType
    ensures dtype { result ≡ default_type primitive }
    ensures own { number_type_fault primitive result ≡ None }
{
    primitive.dtype()
}
