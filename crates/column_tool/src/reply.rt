//! What is answered to the bytes of a document, and the text that is written for it.

ghost use Rattle.std.specs.Prelude.{◌≡◌, ℕ, List, IfOk};
ghost use Rattle.column_document.specs.Document.{document, document_in};
ghost use Rattle.column_tool.specs.Replies.{IsReply, IsDue, AnswersExactly};

use crate::outcome::Outcome;
use crate::text::{fault_text, refusal_text, text_of};
use column_base::PolarsError;
use column_document::{DocError, parse_document};
use column_relayout::{ColumnError, RawColumn, Step, relayout};
use std::alloc::Global;

/// An outcome, and the text that is due for it.
#[derive(Drop)]
pub(crate) struct Reply {
    /// How the run ends where the text is written whole.
    pub(crate) outcome: Outcome,
    /// The text.
    pub(crate) text: Vec<u8>,
}

/// What is answered to parts and a plan.
fn reply_to_document(alloc: Global, parts: RawColumn, plan: Vec<Step>) -> Result<Reply, PolarsError>
    ensures { (bytes : List ℕ) → document_in bytes ≡ Ok (document parts plan.items) → IfOk result (λ reply. IsReply bytes reply.outcome reply.text.items) }
{
    match relayout(alloc, parts, &plan) {
        Ok(column) => {
            let text = text_of(alloc, &column)?;
            Ok(Reply {
                outcome: Outcome::Done(column),
                text,
            })
        }
        Err(ColumnError::NoMemory) => Err(PolarsError::NoMemory),
        Err(refusal) => {
            let text = refusal_text(alloc, &refusal)?;
            Ok(Reply {
                outcome: Outcome::Refused(refusal),
                text,
            })
        }
    }
}

/// An answer to the bytes of a document, which are dropped.
fn reply_by(alloc: Global, bytes: Vec<u8>) -> Result<Reply, PolarsError>
    ensures { IfOk result (λ reply. IsReply bytes.items reply.outcome reply.text.items) }
{
    match parse_document(alloc, bytes) {
        Ok((parts, plan)) => reply_to_document(alloc, parts, plan),
        Err(DocError::NoMemory) => Err(PolarsError::NoMemory),
        Err(DocError::Fault(fault)) => {
            let text = fault_text(alloc, fault)?;
            Ok(Reply {
                outcome: Outcome::BadDocument(fault),
                text,
            })
        }
    }
}

/// What is answered to the bytes of a document, which are dropped. The only error is `NoMemory`.
#[tactic(auto, using(crate::proofs::RepliesLemmas::reply_laws))]
pub(crate) fn reply_to(alloc: Global, bytes: Vec<u8>) -> Result<Reply, PolarsError>
    ensures reply { IfOk result (λ reply. IsReply bytes.items reply.outcome reply.text.items) }
    ensures due { IfOk result (λ reply. IsDue (document_in bytes.items) reply.text.items) }
    ensures exact { IfOk result (λ reply. AnswersExactly (document_in bytes.items) reply.outcome) }
{
    let reply = reply_by(alloc, bytes)?;
    Ok(reply)
}
