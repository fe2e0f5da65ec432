//! Rows that are appended to a column.

ghost use Rattle.std.specs.Prelude.{◌≡◌, ◌++◌, ◌∷◌, ◌/◌, [], Some, length, option_map};
ghost use Rattle.std.specs.Option.{option_copied};
ghost use Rattle.serde_json.specs.View.{view, items_view};
ghost use Rattle.column_document.specs.Values.{Reads, ReadsAs, each, list_of, row_of, bytes_of};

use crate::from_json::{FromJson, Unread};
use column_relayout::Rows;
use serde_json::Value;
use std::alloc::Global;

// The most bytes of a row that are decoded on the stack.
const FEW: usize = 64;

impl FromJson for Rows {
    ghost of = { list_of row_of };

    fn from_json(alloc: Global, value: &Value) -> Result<Rows, Unread> {
        match value.as_array() {
            Some(values) => read_rows(alloc, values),
            None => Err(Unread::Bad),
        }
    }
}

/// The rows, each decoded once. The memory in which the bytes of a long one are decoded serves for the next.
fn read_rows(alloc: Global, values: &[Value]) -> Result<Rows, Unread>
    ensures { Reads result (each row_of (items_view values.now)) }
{
    let mut rows = no_rows(alloc, values.len())?;
    let mut decoded = Vec::new(alloc);
    for value in values {
        add_row(&mut rows, &mut decoded, value)?;
    }
    Ok(rows)
}

/// No rows, with room for so many.
fn no_rows(alloc: Global, capacity: usize) -> Result<Rows, Unread>
    ensures { Reads result (Some []) }
{
    match Rows::with_capacity(alloc, capacity) {
        Ok(rows) => Ok(rows),
        Err(_) => Err(Unread::NoMemory),
    }
}

/// Adds the row that a value stands for. The bytes of a long one are decoded into `decoded`.
fn add_row(rows: &mut Rows, decoded: &mut Vec<u8>, value: &Value) -> Result<(), Unread>
    ensures { ReadsAs (λ _. rows.new) result (option_map (λ row. rows.old ++ row ∷ []) (row_of (view value.now))) }
{
    match value {
        Value::Null => push_row(rows, None),
        Value::String(digits) => add_bytes(rows, decoded, digits.as_str()),
        _ => Err(Unread::Bad),
    }
}

/// Adds the row that a text of hexadecimal digits spells. Its bytes are decoded on the stack where they are few.
fn add_bytes(rows: &mut Rows, decoded: &mut Vec<u8>, text: &str) -> Result<(), Unread>
    ensures { ReadsAs (λ _. rows.new) result (option_map (λ bytes. rows.old ++ Some bytes ∷ []) (bytes_of text.now)) }
{
    let length = text.len() / 2;
    if length <= FEW {
        return add_decoded(rows, &mut [0; FEW][..length], text);
    }
    decoded.resize(length, 0)?;
    add_decoded(rows, decoded.as_mut_slice(), text)
}

/// Adds the row that a text of hexadecimal digits spells, whose bytes are decoded into `bytes`.
fn add_decoded(rows: &mut Rows, bytes: &mut [u8], text: &str) -> Result<(), Unread>
    requires { length bytes.old ≡ length text.now / 2 }
    ensures { ReadsAs (λ _. rows.new) result (option_map (λ row. rows.old ++ Some row ∷ []) (bytes_of text.now)) }
{
    match hex::decode_to_slice(text, bytes) {
        Ok(()) => push_row(rows, Some(bytes)),
        Err(_) => Err(Unread::Bad),
    }
}

fn push_row(rows: &mut Rows, row: Option<&[u8]>) -> Result<(), Unread>
    ensures { ReadsAs (λ _. rows.new) result (Some (rows.old ++ option_copied row.entry ∷ [])) }
{
    match rows.push(row) {
        Ok(()) => Ok(()),
        Err(_) => Err(Unread::NoMemory),
    }
}
