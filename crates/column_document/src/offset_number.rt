//! Numbers that offsets are made of, and the parts with such offsets.

ghost use Rattle.std.specs.Prelude.{◌≡◌};

use crate::from_json::FromJson;
use column_relayout::RawColumn;
use column_storage::{Bitmap, Buffer};

/// Numbers that offsets are made of.
pub(crate) trait OffsetNumber: FromJson + Copy {
    ghost use Rattle.std.specs.Prelude.{ℕ, Bool, List, Option};
    ghost use Rattle.column_relayout.specs.declared.columns.RawColumn.{RawColumn};

    ghost made: { Bool → List Self → List ℕ → Option (List Bool) → RawColumn };

    /// The parts with these lists; `text` where the slots are texts.
    fn parts(
        text: bool,
        offsets: Buffer<Self>,
        values: Buffer<u8>,
        validity: Option<Bitmap>,
    ) -> RawColumn
        ensures { result ≡ made text offsets values validity };
}

impl OffsetNumber for i32 {
    ghost use Rattle.column_relayout.specs.declared.columns.RawColumn.TheVariants.{Offset32};

    ghost made = { Offset32 };

    fn parts(
        text: bool,
        offsets: Buffer<i32>,
        values: Buffer<u8>,
        validity: Option<Bitmap>,
    ) -> RawColumn
        ensures { result ≡ Offset32 text offsets values validity }
    {
        RawColumn::Offset32 {
            text,
            offsets,
            values,
            validity,
        }
    }
}

impl OffsetNumber for i64 {
    ghost use Rattle.column_relayout.specs.declared.columns.RawColumn.TheVariants.{Offset64};

    ghost made = { Offset64 };

    fn parts(
        text: bool,
        offsets: Buffer<i64>,
        values: Buffer<u8>,
        validity: Option<Bitmap>,
    ) -> RawColumn
        ensures { result ≡ Offset64 text offsets values validity }
    {
        RawColumn::Offset64 {
            text,
            offsets,
            values,
            validity,
        }
    }
}
