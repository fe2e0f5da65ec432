//! What single JSON values stand for: numbers, flags, bytes, names of kinds, and lists of them.

ghost use Rattle.std.specs.Prelude.{◌≡◌, List, Option, None, Some};
ghost use Rattle.std.specs.Result.{result_ok};
ghost use Rattle.hex.specs.Hex.{decode_sized};
ghost use Rattle.serde_json.specs.Data.{Data};
ghost use Rattle.serde_json.specs.View.{view, items_view};
ghost use Rattle.column_document.specs.Values.{Reads, ReadsAs, each, list_of, is_i32, i32_of, i64_of, u64_of, bytes_of, hex_of, view_of, few_buffers, buffers_of, kind_from};

use column_relayout::Kind;
use column_storage::{Bitmap, Buffer, DataBuffers, MAX_BUFFERS};
use column_view::View;
use hex::FromHexError;
use serde_json::Value;
use std::alloc::{AllocError, AllocFailed, Global};

/// Why a JSON value was not read.
#[derive(Clone, Copy)]
pub(crate) enum Unread {
    /// A growth found no memory.
    NoMemory,
    /// The value stands for nothing of the type.
    Bad,
}

impl From<AllocError> for Unread {
    ghost use Rattle.column_document.specs.declared.from_json.Unread.TheVariants.{NoMemory};

    ghost from_gives = { λ _ error. error ≡ NoMemory };

    fn from(_error: AllocError) -> Unread {
        Unread::NoMemory
    }
}

impl<T: Drop> From<AllocFailed<T>> for Unread {
    ghost use Rattle.column_document.specs.declared.from_json.Unread.TheVariants.{NoMemory};

    ghost from_gives = { λ _ error. error ≡ NoMemory };

    fn from(_error: AllocFailed<T>) -> Unread {
        Unread::NoMemory
    }
}

/// What JSON values stand for.
pub(crate) trait FromJson: Drop {
    ghost of: { Data → Option Self };

    fn from_json(alloc: Global, value: &Value) -> Result<Self, Unread>
        ensures { Reads result (of (view value.now)) };
}

impl FromJson for bool {
    ghost use Rattle.serde_json.specs.Find.{as_bool};

    ghost of = { as_bool };

    fn from_json(_alloc: Global, value: &Value) -> Result<bool, Unread> {
        value.as_bool().ok_or(Unread::Bad)
    }
}

impl FromJson for i64 {
    ghost of = { i64_of };

    fn from_json(_alloc: Global, value: &Value) -> Result<i64, Unread> {
        value.as_i64().ok_or(Unread::Bad)
    }
}

impl FromJson for i32 {
    ghost of = { i32_of };

    fn from_json(_alloc: Global, value: &Value) -> Result<i32, Unread> {
        match value.as_i64() {
            Some(number) if is_i32(number) => Ok(number as i32),
            _ => Err(Unread::Bad),
        }
    }
}

fn is_i32(number: i64) -> bool
    ensures { result ≡ is_i32 number }
{
    -2_147_483_648 <= number && number <= 2_147_483_647
}

impl FromJson for usize {
    ghost of = { u64_of };

    fn from_json(_alloc: Global, value: &Value) -> Result<usize, Unread> {
        match value.as_u64() {
            Some(number) => Ok(number as usize),
            None => Err(Unread::Bad),
        }
    }
}

impl FromJson for Kind {
    ghost of = { kind_from };

    fn from_json(_alloc: Global, value: &Value) -> Result<Kind, Unread> {
        match value.as_str() {
            Some("binary32") => Ok(Kind::Binary32),
            Some("binary64") => Ok(Kind::Binary64),
            Some("utf8_32") => Ok(Kind::Utf8_32),
            Some("utf8_64") => Ok(Kind::Utf8_64),
            Some("binview") => Ok(Kind::BinView),
            Some("utf8view") => Ok(Kind::Utf8View),
            Some("fixed") => Ok(Kind::Fixed(0)),
            Some("int64") => Ok(Kind::Int64),
            _ => Err(Unread::Bad),
        }
    }
}

/// The items of an array, each read as a `T`.
pub(crate) fn read_list<T: FromJson>(alloc: Global, value: &Value) -> Result<Vec<T>, Unread>
    ensures { ReadsAs (λ list. list.items) result (list_of T.of (view value.now)) }
{
    match value.as_array() {
        Some(values) => read_each(alloc, values),
        None => Err(Unread::Bad),
    }
}

fn read_each<T: FromJson>(alloc: Global, values: &[Value]) -> Result<Vec<T>, Unread>
    ensures { ReadsAs (λ list. list.items) result (each T.of (items_view values.now)) }
{
    let mut list = Vec::with_capacity(alloc, values.len())?;
    for value in values {
        list.push(T::from_json(alloc, value)?)?;
    }
    Ok(list)
}

/// The bytes that a text of hexadecimal digits spells.
pub(crate) fn read_bytes(alloc: Global, text: &str) -> Result<Vec<u8>, Unread>
    ensures { ReadsAs (λ list. list.items) result (bytes_of text.now) }
{
    match hex::decode(alloc, text) {
        Ok(bytes) => Ok(bytes),
        Err(FromHexError::OutOfMemory) => Err(Unread::NoMemory),
        Err(_) => Err(Unread::Bad),
    }
}

fn to_buffer<T: Copy>(alloc: Global, values: Vec<T>) -> Result<Buffer<T>, Unread>
    ensures { Reads result (Some values.items) }
{
    match Buffer::from_vec(alloc, values) {
        Ok(buffer) => Ok(buffer),
        Err(_) => Err(Unread::NoMemory),
    }
}

fn to_bitmap(alloc: Global, flags: Vec<bool>) -> Result<Bitmap, Unread>
    ensures { Reads result (Some flags.items) }
{
    match Bitmap::from_vec(alloc, flags) {
        Ok(bitmap) => Ok(bitmap),
        Err(_) => Err(Unread::NoMemory),
    }
}

impl<T: FromJson + Copy> FromJson for Buffer<T> {
    ghost of = { list_of T.of };

    fn from_json(alloc: Global, value: &Value) -> Result<Buffer<T>, Unread> {
        to_buffer(alloc, read_list(alloc, value)?)
    }
}

impl FromJson for Buffer<u8> {
    ghost of = { hex_of };

    fn from_json(alloc: Global, value: &Value) -> Result<Buffer<u8>, Unread> {
        match value.as_str() {
            Some(text) => to_buffer(alloc, read_bytes(alloc, text)?),
            None => Err(Unread::Bad),
        }
    }
}

impl FromJson for Bitmap {
    ghost use Rattle.serde_json.specs.Find.{as_bool};

    ghost of = { list_of as_bool };

    fn from_json(alloc: Global, value: &Value) -> Result<Bitmap, Unread> {
        to_bitmap(alloc, read_list(alloc, value)?)
    }
}

impl FromJson for View {
    ghost of = { view_of };

    fn from_json(_alloc: Global, value: &Value) -> Result<View, Unread> {
        match value.as_str() {
            Some(text) => read_view(text),
            None => Err(Unread::Bad),
        }
    }
}

/// The view of 16 bytes that a text of hexadecimal digits spells.
fn read_view(text: &str) -> Result<View, Unread>
    ensures { Reads result (result_ok (decode_sized text.now 16)) }
{
    let mut bytes = [0; 16];
    match hex::decode_to_slice(text, &mut bytes) {
        Ok(()) => Ok(View::from_le(bytes)),
        Err(_) => Err(Unread::Bad),
    }
}

impl FromJson for DataBuffers {
    ghost of = { buffers_of };

    fn from_json(alloc: Global, value: &Value) -> Result<DataBuffers, Unread> {
        to_buffers(alloc, read_list(alloc, value)?)
    }
}

fn to_buffers(alloc: Global, buffers: Vec<Buffer<u8>>) -> Result<DataBuffers, Unread>
    ensures { Reads result (few_buffers buffers.items) }
{
    if buffers.len() > MAX_BUFFERS {
        return Err(Unread::Bad);
    }
    match DataBuffers::from_vec(alloc, buffers) {
        Ok(buffers) => Ok(buffers),
        Err(_) => Err(Unread::NoMemory),
    }
}
