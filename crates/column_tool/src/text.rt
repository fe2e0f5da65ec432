//! The printed text of a column, of a refusal, and of the fault of a document.

ghost use Rattle.std.specs.Prelude.{◌≡◌, ◌≢◌, ◌+◌, ◌*◌, ◌<◌, ◌++◌, length as list_length, replicate, IfOk, OnOk, decimal, [], None, map, codes};
ghost use Rattle.std.specs.List.{flat_map};
ghost use Rattle.std.specs.Fmt.{signed_decimal};
ghost use Rattle.hex.specs.Hex.{encode_lower};
ghost use Rattle.column_base.specs.Answers.{Answers};
ghost use Rattle.std.specs.Int.{w64};
ghost use Rattle.column_base.specs.Kinds.{ColumnKind};
ghost use Rattle.column_base.specs.Native.{signed_bytes};
ghost use Rattle.column_fixed.specs.Slots.{fixed_slots};
ghost use Rattle.column_primitive.specs.Numbers.{number_slots};
ghost use Rattle.column_base.specs.Slots.{slot_at};
ghost use Rattle.column_binview.specs.Slots.{view_slots};
ghost use Rattle.column_relayout.specs.Kinds.{kind_of};
ghost use Rattle.column_binary.specs.Slots.{offset_slots};
ghost use Rattle.column_relayout.specs.Arrays.{lists_of};
ghost use Rattle.column_base.specs.Errors.{name_of};
ghost use Rattle.column_tool.specs.Text.{printed, printed_head, slot_line, sign_of, after_comma, numbers_text, offset_text, named_line, view_text, fixed_text, number_text, refusal_line, fault_line};

use column_base::{Cause, Offset, PolarsError, ViewKind};
use column_binary::BinaryArray;
use column_binview::BinaryViewArrayGeneric;
use column_document::DocFault;
use column_fixed::FixedSizeBinaryArray;
use column_primitive::{Int64Array, slot_is_number};
use column_relayout::{AnyArray, ColumnError, Kind};
use column_storage::DataBuffers;
use column_view::View;
use itoa::Integer;
use std::alloc::{AllocError, Global};

/// Numbers of the types of offsets as they are printed: in decimal.
trait PrintedOffset: Offset + Integer {
    ghost use Rattle.std.specs.Prelude.{◌≡◌};
    ghost use Rattle.std.specs.Fmt.{signed_decimal};

    ghost is_decimal: { (n : Self) → Self.text n ≡ signed_decimal (Self.int n) };
}

impl PrintedOffset for i32 {
    ghost use Rattle.std.specs.Prelude.{refl};

    ghost is_decimal = { λ n. refl };
}

impl PrintedOffset for i64 {
    ghost use Rattle.std.specs.Prelude.{refl};

    ghost is_decimal = { λ n. refl };
}

/// Writes bytes in hexadecimal before the last byte of a line of line feeds.
fn write_hex(line: &mut [u8], bytes: &[u8])
    requires { line.old ≡ replicate (2 * list_length bytes.now + 1) 10 }
    ensures { line.new ≡ encode_lower bytes.now ++ codes "\n" }
{
    let digits = 2 * bytes.len();
    match hex::encode_to_slice(bytes, &mut line[..digits]) {
        Ok(()) => {}
        Err(_) => unreachable!(),
    }
}

/// Adds bytes in hexadecimal, and a line feed.
fn append_hex_line(text: &mut Vec<u8>, bytes: &[u8]) -> Result<(), AllocError>
    ensures { OnOk result (text.new.items ≡ text.old.items ++ (encode_lower bytes.now ++ codes "\n")) }
{
    let start = text.len();
    let Some(end) = start.checked_add(2 * bytes.len() + 1) else {
        return Err(AllocError);
    };
    text.resize(end, b'\n')?;
    write_hex(&mut text[start..], bytes);
    Ok(())
}

fn append_number<N: Integer>(text: &mut Vec<u8>, number: N) -> Result<(), AllocError>
    ensures { OnOk result (text.new.items ≡ text.old.items ++ N.text number) }
{
    text.extend_from_slice(itoa::Buffer::new().format(number).as_bytes())
}

fn append_slot(text: &mut Vec<u8>, valid: bool, bytes: &[u8]) -> Result<(), AllocError>
    ensures { OnOk result (text.new.items ≡ text.old.items ++ (sign_of valid ++ encode_lower bytes.now ++ codes "\n")) }
{
    text.push(if valid { b'+' } else { b'-' })?;
    append_hex_line(text, bytes)
}

// ---- columns

// Bytes of text for a slot: of its line without digits, of a number in a list, and of the line of a view.
const SLOT: usize = 2;

const NUMBER: usize = 21;

const VIEW: usize = 38;

/// No text, with room for `slots` lines of `line` bytes each, for `bytes` bytes in hexadecimal, and for names.
fn no_text(alloc: Global, slots: usize, line: usize, bytes: u128) -> Result<Vec<u8>, AllocError>
    ensures { IfOk result (λ text. text.items ≡ []) }
{
    let lines = (slots as u128).saturating_mul(line as u128);
    let room = bytes
        .saturating_mul(2)
        .saturating_add(lines)
        .saturating_add(64);
    Vec::with_capacity(alloc, room.min(usize::MAX as u128) as usize)
}

/// Arrays as they are printed.
trait Printed {
    ghost use Rattle.std.specs.Prelude.{ℕ, List};
    ghost use Rattle.column_base.specs.Kinds.{Slot};

    ghost slots: { Self → List Slot };

    // the lists, as text
    ghost lists: { Self → List ℕ };

    /// The number of slots.
    fn count(&self) -> usize
        ensures { result ≡ list_length (slots self.now) };

    /// No text, with room for the lines of the slots and of the lists.
    fn no_lines(&self, alloc: Global) -> Result<Vec<u8>, AllocError>
        ensures { IfOk result (λ text. text.items ≡ []) };

    /// Adds the line of slot `i`. A null slot has bytes too.
    fn append_slot_at(&self, text: &mut Vec<u8>, i: usize) -> Result<(), AllocError>
        requires { i < list_length (slots self.now) }
        ensures { OnOk result (text.new.items ≡ text.old.items ++ slot_line (slot_at (slots self.now) i)) };

    /// Adds the lines of the lists.
    fn append_lists(&self, text: &mut Vec<u8>) -> Result<(), AllocError>
        ensures { OnOk result (text.new.items ≡ text.old.items ++ lists self.now) };
}

impl<O: PrintedOffset> Printed for BinaryArray<O> {
    ghost slots = { offset_slots };

    ghost lists = { offset_text };

    fn count(&self) -> usize {
        self.len()
    }

    fn no_lines(&self, alloc: Global) -> Result<Vec<u8>, AllocError> {
        no_text(
            alloc,
            self.len(),
            SLOT + NUMBER,
            2 * self.values().len() as u128,
        )
    }

    fn append_slot_at(&self, text: &mut Vec<u8>, i: usize) -> Result<(), AllocError> {
        self.known();
        append_slot(text, self.is_valid(i), self.value(i))
    }

    fn append_lists(&self, text: &mut Vec<u8>) -> Result<(), AllocError> {
        text.extend_from_slice(b"offsets=")?;
        append_numbers(text, self.offsets().as_slice())?;
        text.push(b'\n')?;
        append_named(text, b"values=", self.values().as_slice())
    }
}

impl<K: ViewKind> Printed for BinaryViewArrayGeneric<K> {
    ghost slots = { view_slots };

    ghost lists = { view_text };

    fn count(&self) -> usize {
        self.len()
    }

    fn no_lines(&self, alloc: Global) -> Result<Vec<u8>, AllocError> {
        let names = 4 * self.data_buffers().len() as u128;
        let bytes = self
            .total_bytes_len()
            .saturating_add(self.total_buffer_len());
        no_text(alloc, self.len(), SLOT + VIEW, bytes.saturating_add(names))
    }

    fn append_slot_at(&self, text: &mut Vec<u8>, i: usize) -> Result<(), AllocError> {
        self.known();
        append_slot(text, self.is_valid(i), self.value_bytes(i))
    }

    fn append_lists(&self, text: &mut Vec<u8>) -> Result<(), AllocError> {
        append_views(text, self.views().as_slice())?;
        append_buffers(text, self.data_buffers())
    }
}

impl Printed for FixedSizeBinaryArray {
    ghost slots = { fixed_slots };

    ghost lists = { fixed_text };

    fn count(&self) -> usize {
        self.len()
    }

    fn no_lines(&self, alloc: Global) -> Result<Vec<u8>, AllocError> {
        no_text(alloc, self.len(), SLOT, 2 * self.values().len() as u128)
    }

    fn append_slot_at(&self, text: &mut Vec<u8>, i: usize) -> Result<(), AllocError> {
        self.known();
        append_slot(text, self.is_valid(i), self.value(i))
    }

    fn append_lists(&self, text: &mut Vec<u8>) -> Result<(), AllocError> {
        text.extend_from_slice(b"width=")?;
        append_number(text, self.size())?;
        text.push(b'\n')?;
        append_named(text, b"values=", self.values().as_slice())
    }
}

impl Printed for Int64Array {
    ghost slots = { λ array. number_slots (signed_bytes w64) array.lists };

    ghost lists = { λ array. number_text array.lists };

    fn count(&self) -> usize {
        self.len()
    }

    fn no_lines(&self, alloc: Global) -> Result<Vec<u8>, AllocError> {
        no_text(alloc, self.len(), SLOT + 16 + NUMBER, 0)
    }

    fn append_slot_at(&self, text: &mut Vec<u8>, i: usize) -> Result<(), AllocError> {
        self.known();
        slot_is_number::<i64>();
        append_slot(text, self.is_valid(i), &self.value(i).to_le_bytes())
    }

    fn append_lists(&self, text: &mut Vec<u8>) -> Result<(), AllocError> {
        text.extend_from_slice(b"numbers=")?;
        append_numbers(text, self.values().as_slice())?;
        text.push(b'\n')?;
        Ok(())
    }
}

#[tactic(auto, using(crate::proofs::TextLemmas::next_line))]
fn append_slots<A: Printed>(text: &mut Vec<u8>, array: &A) -> Result<(), AllocError>
    ensures { OnOk result (text.new.items ≡ text.old.items ++ flat_map slot_line (A.slots array.now)) }
{
    for i in 0..array.count() {
        array.append_slot_at(text, i)?;
    }
    Ok(())
}

fn append_next<O: PrintedOffset>(text: &mut Vec<u8>, number: O) -> Result<(), AllocError>
    ensures { OnOk result (text.new.items ≡ text.old.items ++ after_comma (O.int number)) }
{
    text.push(b',')?;
    append_number(text, number)
}

#[tactic(auto, using(crate::proofs::TextLemmas::next_number))]
fn append_rest<O: PrintedOffset>(text: &mut Vec<u8>, numbers: &[O]) -> Result<(), AllocError>
    ensures { OnOk result (text.new.items ≡ text.old.items ++ flat_map after_comma (map O.int numbers.now)) }
{
    for number in numbers {
        append_next(text, *number)?;
    }
    Ok(())
}

fn append_numbers<O: PrintedOffset>(text: &mut Vec<u8>, numbers: &[O]) -> Result<(), AllocError>
    ensures { OnOk result (text.new.items ≡ text.old.items ++ numbers_text (map O.int numbers.now)) }
{
    let Some((first, rest)) = numbers.split_first() else {
        return Ok(());
    };
    append_number(text, *first)?;
    append_rest(text, rest)
}

fn append_named(text: &mut Vec<u8>, name: &[u8], bytes: &[u8]) -> Result<(), AllocError>
    ensures { OnOk result (text.new.items ≡ text.old.items ++ named_line name.now bytes.now) }
{
    text.extend_from_slice(name)?;
    append_hex_line(text, bytes)
}

#[tactic(auto, using(crate::proofs::TextLemmas::next_named))]
fn append_views(text: &mut Vec<u8>, views: &[View]) -> Result<(), AllocError>
    ensures { OnOk result (text.new.items ≡ text.old.items ++ flat_map (named_line (codes "view=")) views.now) }
{
    for view in views {
        append_named(text, b"view=", &view.to_le())?;
    }
    Ok(())
}

fn append_buffers(text: &mut Vec<u8>, buffers: &DataBuffers) -> Result<(), AllocError>
    ensures { OnOk result (text.new.items ≡ text.old.items ++ flat_map (named_line (codes "buffer=")) buffers.now) }
{
    for i in 0..buffers.len() {
        append_named(text, b"buffer=", buffers.get(i).as_slice())?;
    }
    Ok(())
}

fn append_head(text: &mut Vec<u8>, kind: &str, count: usize) -> Result<(), AllocError>
    ensures { OnOk result (text.new.items ≡ text.old.items ++ (codes "ok " ++ kind.now ++ codes " " ++ decimal count ++ codes "\n")) }
{
    text.extend_from_slice(b"ok ")?;
    text.extend_from_slice(kind.as_bytes())?;
    text.extend_from_slice(b" ")?;
    append_number(text, count)?;
    text.extend_from_slice(b"\n")
}

fn array_text<A: Printed>(alloc: Global, kind: Kind, array: &A) -> Result<Vec<u8>, AllocError>
    ensures { IfOk result (λ text. text.items ≡ printed_head (kind_of kind) (A.slots array.now) ++ A.lists array.now) }
{
    let mut text = array.no_lines(alloc)?;
    append_head(&mut text, kind.name(), array.count())?;
    append_slots(&mut text, array)?;
    array.append_lists(&mut text)?;
    Ok(text)
}

/// The text of a column, whole.
///
/// The line `ok KIND N`, a line for each slot with `+` where it is valid and `-` where it is null and its bytes in
/// hexadecimal, and then its lists. `NoMemory` where there is none for the text.
#[tactic(auto, unfolding(crate::specs::Text::printed))]
pub fn text_of(alloc: Global, column: &AnyArray) -> Result<Vec<u8>, PolarsError>
    ensures { Answers result None (λ text. text.items ≡ printed (lists_of column.now)) }
{
    match column {
        AnyArray::Binary32(array) => Ok(array_text(alloc, Kind::Binary32, array)?),
        AnyArray::Binary64(array) => Ok(array_text(alloc, Kind::Binary64, array)?),
        AnyArray::Utf8_32(array) => Ok(array_text(alloc, Kind::Utf8_32, array.as_binary())?),
        AnyArray::Utf8_64(array) => Ok(array_text(alloc, Kind::Utf8_64, array.as_binary())?),
        AnyArray::BinView(array) => Ok(array_text(alloc, Kind::BinView, array)?),
        AnyArray::Utf8View(array) => Ok(array_text(alloc, Kind::Utf8View, array)?),
        AnyArray::Fixed(array) => Ok(array_text(alloc, Kind::Fixed(array.size()), array)?),
        AnyArray::Int64(array) => Ok(array_text(alloc, Kind::Int64, array)?),
    }
}

// ---- refusals and faults

fn append_cause(text: &mut Vec<u8>, cause: &Cause) -> Result<(), AllocError>
    ensures { OnOk result (text.new.items ≡ text.old.items ++ (name_of cause.now ++ codes "\n")) }
{
    text.extend_from_slice(cause.name().as_bytes())?;
    text.extend_from_slice(b"\n")
}

/// The line for parts or a step that were refused, with the cause.
///
/// `NoMemory` where there is none for the line. Want of memory as a refusal has no line.
#[tactic(auto, unfolding(crate::specs::Text::refusal_line))]
pub fn refusal_text(alloc: Global, refusal: &ColumnError) -> Result<Vec<u8>, PolarsError>
    requires { refusal.now ≢ ColumnError.NoMemory }
    ensures { Answers result None (λ text. text.items ≡ refusal_line refusal.now) }
{
    let mut text = Vec::new(alloc);
    match refusal {
        ColumnError::NoMemory => unreachable!(),
        ColumnError::Parts(cause) => {
            text.extend_from_slice(b"refused parts ")?;
            append_cause(&mut text, cause)?;
        }
        ColumnError::Step(at, cause) => {
            text.extend_from_slice(b"refused step ")?;
            append_number(&mut text, *at)?;
            text.extend_from_slice(b" ")?;
            append_cause(&mut text, cause)?;
        }
    }
    Ok(text)
}

/// The line for bytes that are no document. `NoMemory` where there is none for it.
pub(crate) fn fault_text(alloc: Global, fault: DocFault) -> Result<Vec<u8>, PolarsError>
    ensures { Answers result None (λ text. text.items ≡ fault_line fault) }
{
    let mut text = Vec::new(alloc);
    match fault {
        DocFault::Json => text.extend_from_slice(b"document json\n")?,
        DocFault::BadField(field) => {
            text.extend_from_slice(b"document field ")?;
            text.extend_from_slice(field.name().as_bytes())?;
            text.extend_from_slice(b"\n")?;
        }
        DocFault::Unbuilt => text.extend_from_slice(b"document unbuilt\n")?,
    }
    Ok(text)
}
