//! What documents are seen to say: one bool for each group of calls, and no assertion.

use column_document::{DocError, DocFault, Field, parse_document, read_document};
use column_relayout::{Kind, RawColumn, Rows, Step};
use column_storage::{Bitmap, Buffer};
use column_view::View;
use serde_json::Value;
use std::alloc::{AllocError, Global};

const VIEW: [u8; 16] = [
    0, 1, 2, 3, 0xff, 0xfe, 0xfd, 0xfc, 8, 9, 10, 11, 12, 13, 14, 15,
];

type Read = Result<(RawColumn, Vec<Step>), DocError>;

fn parsed(alloc: Global, document: &[u8]) -> Read {
    let bytes = Vec::from_slice(alloc, document)?;
    parse_document(alloc, bytes)
}

// ---- faults

pub fn fault_is(alloc: Global, document: &[u8], fault: DocFault) -> bool {
    match parsed(alloc, document) {
        Ok(_) => false,
        Err(error) => error == DocError::Fault(fault),
    }
}

fn is_good(alloc: Global, document: &[u8]) -> bool {
    parsed(alloc, document).is_ok()
}

/// The name of a field.
pub fn field_is_named(field: Field, name: &str) -> bool {
    field.name() == name
}

// ---- offsets

fn offset_is_read(alloc: Global, kind: &str, offset: &str, good: bool) -> Result<bool, AllocError> {
    let text = format!(in alloc; r#"{{"kind":"{kind}","offsets":[{offset}],"values":""}}"#)?;
    if good {
        return Ok(is_good(alloc, text.as_bytes()));
    }
    Ok(fault_is(alloc, text.as_bytes(), DocFault::BadField(Field::Offsets)))
}

/// Whether a document with this offset is good, in the kinds of 64 bits and in those of 32.
pub fn offset_fits(
    alloc: Global,
    offset: &str,
    long: bool,
    short: bool,
) -> Result<bool, AllocError> {
    Ok(
        offset_is_read(alloc, "binary64", offset, long)?
            && offset_is_read(alloc, "utf8_64", offset, long)?
            && offset_is_read(alloc, "binary32", offset, short)?
            && offset_is_read(alloc, "utf8_32", offset, short)?,
    )
}

// ---- plans

fn with_plan(alloc: Global, plan: &str) -> Result<String, AllocError> {
    format!(in alloc; r#"{{"kind":"binary32","offsets":[0],"values":"","plan":{plan}}}"#)
}

// whether these are the same step, without rows and kinds
fn are_same(step: &Step, wanted: &Step) -> bool {
    match (step, wanted) {
        (Step::Slice(from, count), Step::Slice(first, all)) => from == first && count == all,
        (Step::Left(count), Step::Left(all)) => count == all,
        (Step::Right(from), Step::Right(first)) => from == first,
        (Step::ToUtf8, Step::ToUtf8)
        | (Step::ToBinary, Step::ToBinary)
        | (Step::Gc, Step::Gc)
        | (Step::Dedupe, Step::Dedupe) => true,
        _ => false,
    }
}

fn are_steps(plan: &[Step], wanted: &[Step]) -> bool {
    if plan.len() != wanted.len() {
        return false;
    }
    for i in 0..plan.len() {
        if !are_same(&plan[i], &wanted[i]) {
            return false;
        }
    }
    true
}

pub fn plan_is(alloc: Global, plan: &str, wanted: &[Step]) -> Result<bool, AllocError> {
    let document = with_plan(alloc, plan)?;
    Ok(match parsed(alloc, document.as_bytes()) {
        Ok((_parts, plan)) => are_steps(&plan, wanted),
        Err(_) => false,
    })
}

fn are_rows(rows: &Rows, wanted: &[Option<&[u8]>]) -> bool {
    if rows.len() != wanted.len() {
        return false;
    }
    for i in 0..rows.len() {
        if rows.get(i) != wanted[i] {
            return false;
        }
    }
    true
}

fn is_append(plan: &[Step], wanted: &[Option<&[u8]>]) -> bool {
    match plan {
        [Step::Append(rows)] => are_rows(rows, wanted),
        _ => false,
    }
}

/// Whether the plan is one step, which appends these rows.
pub fn plan_appends(
    alloc: Global,
    plan: &str,
    wanted: &[Option<&[u8]>],
) -> Result<bool, AllocError> {
    let document = with_plan(alloc, plan)?;
    Ok(match parsed(alloc, document.as_bytes()) {
        Ok((_parts, plan)) => is_append(&plan, wanted),
        Err(_) => false,
    })
}

fn is_rebuild(plan: &[Step], wanted: Kind) -> bool {
    match plan {
        [Step::Rebuild(kind)] => *kind == wanted,
        _ => false,
    }
}

/// Whether the plan is one step, which rebuilds into this kind.
pub fn plan_rebuilds(alloc: Global, plan: &str, wanted: Kind) -> Result<bool, AllocError> {
    let document = with_plan(alloc, plan)?;
    Ok(match parsed(alloc, document.as_bytes()) {
        Ok((_parts, plan)) => is_rebuild(&plan, wanted),
        Err(_) => false,
    })
}

pub fn plan_is_bad(alloc: Global, element: &str) -> Result<bool, AllocError> {
    let plan = format!(in alloc; r#"[["left",1],{element}]"#)?;
    let document = with_plan(alloc, plan.as_str())?;
    Ok(fault_is(alloc, document.as_bytes(), DocFault::BadField(Field::Plan)))
}

// ---- parts

// the bytes 61 c3 a9 ff, and a set flag before one that is not
fn has_bytes_and_flags(values: &Buffer<u8>, validity: &Option<Bitmap>) -> bool {
    let flags = match validity {
        Some(flags) => { flags.len() == 2 && flags.get_bit(0) && !flags.get_bit(1) }
        None => false,
    };
    flags && values.as_slice() == [0x61, 0xc3, 0xa9, 0xff].as_slice()
}

fn short_parts_are(parts: &RawColumn, texts: bool) -> bool {
    match parts {
        RawColumn::Offset32 {
            text,
            offsets,
            values,
            validity,
        } => {
            *text == texts
                && offsets.as_slice() == [i32::MIN, 0, i32::MAX].as_slice()
                && has_bytes_and_flags(values, validity)
        }
        _ => false,
    }
}

fn long_parts_are(parts: &RawColumn, texts: bool) -> bool {
    match parts {
        RawColumn::Offset64 {
            text,
            offsets,
            values,
            validity,
        } => {
            *text == texts
                && offsets.as_slice() == [i64::MIN, 2_147_483_648, i64::MAX].as_slice()
                && has_bytes_and_flags(values, validity)
        }
        _ => false,
    }
}

/// The parts of a kind of 32 bits, and a plan of one step.
pub fn short_document_is_read(alloc: Global, kind: &str, texts: bool) -> Result<bool, AllocError> {
    let document = format!(in alloc;
        r#"{{"note":{{"gc":[]}},"plan":[["right",1]],"kind":"{kind}","validity":[true,false],
        "offsets":[-2147483648,0,2147483647],"values":"61C3a9Ff"}}"#
    )?;
    Ok(match parsed(alloc, document.as_bytes()) {
        Ok((parts, plan)) => are_steps(&plan, &[Step::Right(1)]) && short_parts_are(&parts, texts),
        Err(_) => false,
    })
}

/// The parts of a kind of 64 bits, and no plan.
pub fn long_document_is_read(alloc: Global, kind: &str, texts: bool) -> Result<bool, AllocError> {
    let document = format!(in alloc;
        r#"{{"values":"61C3a9Ff","offsets":[-9223372036854775808,2147483648,9223372036854775807],
        "validity":[true,false],"kind":"{kind}"}}"#
    )?;
    Ok(match parsed(alloc, document.as_bytes()) {
        Ok((parts, plan)) => plan.is_empty() && long_parts_are(&parts, texts),
        Err(_) => false,
    })
}

fn view_parts_are(parts: &RawColumn, texts: bool) -> bool {
    match parts {
        RawColumn::View {
            text,
            views,
            buffers,
            validity,
        } => {
            *text == texts
                && views.as_slice() == [View::from_le(VIEW)].as_slice()
                && buffers.len() == 2
                && buffers.get(0).as_slice() == [0x61, 0xff].as_slice()
                && buffers.get(1).is_empty()
                && validity.is_none()
        }
        _ => false,
    }
}

/// A view, a buffer of two bytes, an empty one, and a plan of one step.
pub fn view_document_is_read(alloc: Global, kind: &str, texts: bool) -> Result<bool, AllocError> {
    let document = format!(in alloc;
        r#"{{"buffers":["61fF",""],"views":["00010203ffFEFdfc08090a0b0c0d0e0f"],"validity":null,
        "plan":[["to_utf8"]],"offsets":7,"kind":"{kind}"}}"#
    )?;
    Ok(match parsed(alloc, document.as_bytes()) {
        Ok((parts, plan)) => are_steps(&plan, &[Step::ToUtf8]) && view_parts_are(&parts, texts),
        Err(_) => false,
    })
}

fn fixed_parts_are(parts: &RawColumn) -> bool {
    match parts {
        RawColumn::Fixed {
            width,
            values,
            validity,
        } => *width == usize::MAX && has_bytes_and_flags(values, validity),
        _ => false,
    }
}

/// The greatest width, four bytes and two flags.
pub fn fixed_document_is_read(alloc: Global) -> bool {
    let document =
        br#"{"width":18446744073709551615,"kind":"fixed","values":"61C3a9Ff","validity":[true,false]}"#;
    match parsed(alloc, document) {
        Ok((parts, plan)) => plan.is_empty() && fixed_parts_are(&parts),
        Err(_) => false,
    }
}

fn number_parts_are(parts: &RawColumn) -> bool {
    match parts {
        RawColumn::Int64 { numbers, validity } => {
            numbers.as_slice() == [i64::MIN, -1, i64::MAX].as_slice() && validity.is_none()
        }
        _ => false,
    }
}

/// Numbers at both ends of their type, and a plan of one step.
pub fn number_document_is_read(alloc: Global) -> bool {
    let document =
        br#"{"numbers":[-9223372036854775808,-1,9223372036854775807],"kind":"int64","plan":[["left",2]]}"#;
    match parsed(alloc, document) {
        Ok((parts, plan)) => are_steps(&plan, &[Step::Left(2)]) && number_parts_are(&parts),
        Err(_) => false,
    }
}

fn has_no_flags(parts: &RawColumn) -> bool {
    match parts {
        RawColumn::Offset32 { validity, .. }
        | RawColumn::Offset64 { validity, .. }
        | RawColumn::View { validity, .. }
        | RawColumn::Fixed { validity, .. }
        | RawColumn::Int64 { validity, .. } => validity.is_none(),
    }
}

fn says_no_flags(read: Read) -> bool {
    match read {
        Ok((parts, plan)) => plan.is_empty() && has_no_flags(&parts),
        Err(_) => false,
    }
}

fn value_says_no_flags(alloc: Global, value: &Value) -> bool {
    says_no_flags(read_document(alloc, value))
}

/// A document without flags and steps, by its value.
pub fn no_flags_are_none_in_the_value(alloc: Global, document: &[u8]) -> bool {
    match Value::from_slice(alloc, document) {
        Ok(value) => value_says_no_flags(alloc, &value),
        Err(_) => false,
    }
}

/// A document without flags and steps, by its bytes.
pub fn no_flags_are_none(alloc: Global, document: &[u8]) -> bool {
    says_no_flags(parsed(alloc, document))
}
