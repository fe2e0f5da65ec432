//! Documents, field by field.

ghost use Rattle.std.specs.Prelude.{◌≡◌, ◌≢◌};
ghost use Rattle.serde_json.specs.View.{view};
ghost use Rattle.column_document.specs.Document.{ReadsFields, ReadsFieldsAs, error_at, needed, validity_of, plan_of, parts_of, offset_parts, view_parts, fixed_parts, number_parts, document, document_of, document_in};

use crate::field::{DocError, DocFault, Field};
use crate::from_json::{FromJson, Unread, read_list};
use crate::json::parse;
use crate::offset_number::OffsetNumber;
use column_relayout::{Kind, RawColumn, Step};
use column_storage::Bitmap;
use serde_json::Value;
use std::alloc::Global;

/// The raw parts and the plan of the document that these bytes are.
///
/// `Json` where the bytes are no JSON, as the JSON crate reads it: they have to be UTF-8, and nested at most 127 deep. Or
/// else the fault that [`read_document`] finds in the value. `Unbuilt` can no longer come. `NoMemory` may come where a
/// growth finds none.
///
/// The bytes are dropped before the fields are read.
#[tactic(auto, using(crate::proofs::DocumentLemmas::bytes_are_built), unfolding(crate::specs::Document::document_in))]
pub fn parse_document(alloc: Global, bytes: Vec<u8>) -> Result<(RawColumn, Vec<Step>), DocError>
    ensures said { ReadsFieldsAs (λ read. document read.0 read.1.items) result (document_in bytes.items) }
    ensures built { document_in bytes.items ≢ Err DocFault.Unbuilt }
{
    let value = parse(alloc, &bytes)?;
    drop(bytes);
    read_document(alloc, &value)
}

/// The raw parts and the plan of a document.
///
/// The fields, in the order in which they are read; other fields are ignored:
/// - `kind`: `binary32`, `binary64`, `utf8_32`, `utf8_64`, `binview`, `utf8view`, `fixed` or `int64`; the kinds with
///   `utf8` give texts.
/// - `offsets`, of a kind with offsets: whole numbers, within `i32` or `i64` by the kind.
/// - `values`, of a kind with offsets and of `fixed`: bytes, as hexadecimal digits in pairs, in either case.
/// - `width`, of `fixed`: a whole number of bytes from 0 to 2^64 - 1.
/// - `views`, of a kind with views: texts of 32 hexadecimal digits, the 16 bytes of a view.
/// - `buffers`, of a kind with views: at most 2,147,483,647 texts of hexadecimal digits in pairs.
/// - `numbers`, of `int64`: whole numbers within `i64`.
/// - `validity`: missing, null, or a flag for each slot, where true is valid.
/// - `plan`: missing, or steps: `["slice", first, count]`, `["left", count]`, `["right", first]`, `["to_utf8"]`,
///   `["to_binary"]`, `["gc"]`, `["dedupe"]`, `["append", rows]`, `["rebuild", kind]` for a kind other than `fixed`, and
///   `["rebuild", "fixed", width]`. The numbers count slots, or the bytes of a slot, and are whole numbers from 0 to
///   2^64 - 1. The rows are an array of any length, each null where it is missing, or bytes as hexadecimal digits in
///   pairs, in either case.
///
/// `BadField` with the first field that is missing or bad. `Json` never comes, and `Unbuilt` can no longer come, since
/// every word is built. `NoMemory` may come where a growth finds none.
///
/// Takes time and memory by the length of the fields that are read; each list is decoded once.
#[tactic(auto, using(crate::proofs::DocumentLemmas::other_faults), unfolding(crate::specs::Document::document_of))]
pub fn read_document(alloc: Global, value: &Value) -> Result<(RawColumn, Vec<Step>), DocError>
    ensures said { ReadsFieldsAs (λ read. document read.0 read.1.items) result (document_of (view value.now)) }
    ensures parsed { document_of (view value.now) ≢ Err DocFault.Json }
    ensures built { document_of (view value.now) ≢ Err DocFault.Unbuilt }
{
    let kind = needed(alloc, value, Field::Kind)?;
    let parts = read_parts(alloc, value, kind)?;
    let plan = read_plan(alloc, value)?;
    Ok((parts, plan))
}

fn read_parts(alloc: Global, document: &Value, kind: Kind) -> Result<RawColumn, DocError>
    ensures said { ReadsFields result (parts_of kind (view document.now)) }
{
    match kind {
        Kind::Binary32 => read_offset_parts::<i32>(alloc, document, false),
        Kind::Binary64 => read_offset_parts::<i64>(alloc, document, false),
        Kind::Utf8_32 => read_offset_parts::<i32>(alloc, document, true),
        Kind::Utf8_64 => read_offset_parts::<i64>(alloc, document, true),
        Kind::BinView => read_view_parts(alloc, document, false),
        Kind::Utf8View => read_view_parts(alloc, document, true),
        Kind::Fixed(_) => read_fixed_parts(alloc, document),
        Kind::Int64 => read_number_parts(alloc, document),
    }
}

/// The parts of a kind with views.
fn read_view_parts(alloc: Global, document: &Value, text: bool) -> Result<RawColumn, DocError>
    ensures { ReadsFields result (view_parts text (view document.now)) }
{
    let views = needed(alloc, document, Field::Views)?;
    let buffers = needed(alloc, document, Field::Buffers)?;
    let validity = read_validity(alloc, document)?;
    Ok(RawColumn::View {
        text,
        views,
        buffers,
        validity,
    })
}

/// The parts of byte strings of one width.
fn read_fixed_parts(alloc: Global, document: &Value) -> Result<RawColumn, DocError>
    ensures { ReadsFields result (fixed_parts (view document.now)) }
{
    let values = needed(alloc, document, Field::Values)?;
    let width = needed(alloc, document, Field::Width)?;
    let validity = read_validity(alloc, document)?;
    Ok(RawColumn::Fixed {
        width,
        values,
        validity,
    })
}

/// The parts of numbers.
fn read_number_parts(alloc: Global, document: &Value) -> Result<RawColumn, DocError>
    ensures { ReadsFields result (number_parts (view document.now)) }
{
    let numbers = needed(alloc, document, Field::Numbers)?;
    let validity = read_validity(alloc, document)?;
    Ok(RawColumn::Int64 { numbers, validity })
}

/// The parts of a kind with offsets.
fn read_offset_parts<O: OffsetNumber>(
    alloc: Global,
    document: &Value,
    text: bool,
) -> Result<RawColumn, DocError>
    ensures { ReadsFields result (offset_parts O.of (O.made text) (view document.now)) }
{
    let offsets = needed(alloc, document, Field::Offsets)?;
    let values = needed(alloc, document, Field::Values)?;
    let validity = read_validity(alloc, document)?;
    Ok(O::parts(text, offsets, values, validity))
}

fn read_validity(alloc: Global, document: &Value) -> Result<Option<Bitmap>, DocError>
    ensures { ReadsFields result (validity_of (view document.now)) }
{
    match document.get(Field::Validity.name()) {
        None | Some(Value::Null) => Ok(None),
        Some(value) => match Bitmap::from_json(alloc, value) {
            Ok(validity) => Ok(Some(validity)),
            Err(unread) => Err(unread.at(Field::Validity)),
        },
    }
}

fn read_plan(alloc: Global, document: &Value) -> Result<Vec<Step>, DocError>
    ensures { ReadsFieldsAs (λ plan. plan.items) result (plan_of (view document.now)) }
{
    match document.get(Field::Plan.name()) {
        None => Ok(Vec::new(alloc)),
        Some(value) => match read_list(alloc, value) {
            Ok(plan) => Ok(plan),
            Err(unread) => Err(unread.at(Field::Plan)),
        },
    }
}

/// The value of a field that has to be there.
fn needed<T: FromJson>(alloc: Global, document: &Value, field: Field) -> Result<T, DocError>
    ensures { ReadsFields result (needed field T.of (view document.now)) }
{
    match document.get(field.name()) {
        None => Err(Unread::Bad.at(field)),
        Some(value) => match T::from_json(alloc, value) {
            Ok(read) => Ok(read),
            Err(unread) => Err(unread.at(field)),
        },
    }
}

impl Unread {
    /// The error of a field with such a value.
    fn at(self, field: Field) -> DocError
        ensures { result ≡ error_at field self }
    {
        match self {
            Unread::NoMemory => DocError::NoMemory,
            Unread::Bad => DocFault::BadField(field).into(),
        }
    }
}
