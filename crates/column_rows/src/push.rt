//! Builders that take rows one after another.

ghost use Rattle.std.specs.Prelude.{◌≡◌, map};
ghost use Rattle.std.specs.Option.{option_copied};
ghost use Rattle.column_base.specs.Answers.{Answers};
ghost use Rattle.column_base.specs.Pushes.{grown, growth_fault};

use crate::row_list::ByteRows;
use column_base::{Growing, Offset, PolarsError};
use column_binary::MutableBinaryArray;
use column_binview::MutablePlBinary;
use column_fixed::MutableFixedSizeBinaryArray;

/// A builder of slots of optional byte strings.
pub trait RowBuilder: Growing {
    ghost use Rattle.std.specs.Prelude.{ℕ, List, Option};

    // what the builder's `growth` sees of a row
    ghost taken: { Option (List ℕ) → Self.Row };

    /// Adds a slot of a row.
    ///
    /// The row's own fault, by the builder's `growth`. `NoMemory` where there is none for the slot.
    fn push_row(&mut self, row: Option<&[u8]>) -> Result<(), PolarsError>
        ensures { Answers result (Self.growth.fault (Self.lists self.old) (taken (option_copied row.entry))) (λ _. Self.lists self.new ≡ Self.growth.pushed (Self.lists self.old) (taken (option_copied row.entry))) };
}

impl<O: Offset> RowBuilder for MutableBinaryArray<O> {
    ghost taken = { λ row. row };

    fn push_row(&mut self, row: Option<&[u8]>) -> Result<(), PolarsError> {
        self.push(row)
    }
}

impl RowBuilder for MutablePlBinary {
    ghost taken = { λ row. row };

    fn push_row(&mut self, row: Option<&[u8]>) -> Result<(), PolarsError> {
        self.push(row)
    }
}

impl RowBuilder for MutableFixedSizeBinaryArray {
    ghost taken = { λ row. row };

    fn push_row(&mut self, row: Option<&[u8]>) -> Result<(), PolarsError> {
        self.try_push(row)
    }
}

/// Adds a slot of each row, in order.
///
/// The refusal of the first row that is refused; `NoMemory` where there is none for a slot.
pub fn push_rows<R: ByteRows, B: RowBuilder>(builder: &mut B, rows: &R) -> Result<(), PolarsError>
    ensures { let items = map B.taken (R.rows rows.now) in Answers result (growth_fault B.growth (B.lists builder.old) items) (λ _. B.lists builder.new ≡ grown B.growth (B.lists builder.old) items) }
{
    for i in 0..rows.count() {
        builder.push_row(rows.row(i))?;
    }
    Ok(())
}
