//! The JSON value of a document's bytes.

ghost use Rattle.serde_json.specs.View.{view};
ghost use Rattle.column_document.specs.Json.{json_of, Parses};

use crate::field::{DocError, DocFault};
use serde_json::Value;
use std::alloc::Global;

/// The JSON value of these bytes, or `Json` where they are none.
#[tactic(auto, using(crate::proofs::JsonLemmas::json_laws))]
pub(crate) fn parse(alloc: Global, bytes: &[u8]) -> Result<Value, DocError>
    ensures { Parses view result (json_of bytes.now) }
{
    match Value::from_slice(alloc, bytes) {
        Ok(value) => Ok(value),
        Err(error) if error.is_memory() => Err(DocError::NoMemory),
        Err(_) => Err(DocError::Fault(DocFault::Json)),
    }
}
