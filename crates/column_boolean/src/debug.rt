//! The text of an array of truth values: this library's own.

ghost use Rattle.std.specs.Prelude.{◌≡◌, ◌<◌, ◌++◌, slice_get, Some, OnOk, Option, Bool};
ghost use Rattle.std.specs.Fmt.{WritesInCalls};
ghost use Rattle.column_boolean.specs.Slots.{boolean_count};
ghost use Rattle.column_boolean.specs.Rows.{boolean_rows, boolean_text, comma_text, row_text, rows_text};

use crate::array::BooleanArray;
use std::fmt;

/// Writes the text of slot `index`: `true` or `false`, or `None` where it is null.
pub fn write_value<W: fmt::Write>(array: &BooleanArray, index: usize, f: &mut W) -> fmt::Result
    requires { index < boolean_count array.now }
    ensures { (row : Option Bool) → slice_get (boolean_rows array.now) index ≡ Some row → OnOk result (WritesInCalls W.write_str_gives f.old (row_text row) f.new) }
{
    write_row(array.get(index), f)
}

// Writes the text of a row.
#[tactic(auto, using(crate::proofs::TextLemmas::writes))]
fn write_row<W: fmt::Write>(row: Option<bool>, f: &mut W) -> fmt::Result
    ensures { OnOk result (WritesInCalls W.write_str_gives f.old (row_text row) f.new) }
{
    match row {
        Some(true) => f.write_str("true"),
        Some(false) => f.write_str("false"),
        None => f.write_str("None"),
    }
}

// Writes what stands before the row at a place.
#[tactic(auto, using(crate::proofs::TextLemmas::writes))]
fn write_comma<W: fmt::Write>(place: usize, f: &mut W) -> fmt::Result
    ensures { OnOk result (WritesInCalls W.write_str_gives f.old (comma_text place) f.new) }
{
    if place == 0 {
        return Ok(());
    }
    f.write_str(", ")
}

// Writes the row at a place, behind what stands before it.
#[tactic(auto, using(crate::proofs::TextLemmas::writes))]
fn write_part<W: fmt::Write>(place: usize, row: Option<bool>, f: &mut W) -> fmt::Result
    ensures { OnOk result (WritesInCalls W.write_str_gives f.old (comma_text place ++ row_text row) f.new) }
{
    write_comma(place, f)?;
    write_row(row, f)
}

// Writes the rows, with a comma between two.
#[tactic(auto, using(crate::proofs::TextLemmas::writes))]
fn write_rows<W: fmt::Write>(array: &BooleanArray, f: &mut W) -> fmt::Result
    ensures { OnOk result (WritesInCalls W.write_str_gives f.old (rows_text (boolean_rows array.now)) f.new) }
{
    for i in 0..array.len() {
        write_part(i, array.get(i), f)?;
    }
    Ok(())
}

// Writes the head, and the rows in brackets.
#[tactic(auto, using(crate::proofs::TextLemmas::writes))]
fn write_array<W: fmt::Write>(array: &BooleanArray, f: &mut W) -> fmt::Result
    ensures { OnOk result (WritesInCalls W.write_str_gives f.old (boolean_text array.now) f.new) }
{
    f.write_str("BooleanArray[")?;
    write_rows(array, f)?;
    f.write_str("]")
}

impl fmt::Debug for BooleanArray {
    ghost use Rattle.std.specs.Prelude.{Some};
    ghost use Rattle.column_boolean.specs.Rows.{boolean_text};

    ghost debug_output = { λ array. Some (boolean_text array) };

    fn fmt<W: fmt::Write>(&self, f: &mut fmt::Formatter<W>) -> fmt::Result {
        write_array(self, f)
    }
}
