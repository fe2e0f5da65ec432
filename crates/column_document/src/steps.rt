//! The steps of a document's plan.

ghost use Rattle.std.specs.Prelude.{◌≡◌, ℕ};
ghost use Rattle.serde_json.specs.View.{view, items_view};
ghost use Rattle.column_document.specs.Values.{Reads, ReadsAs};
ghost use Rattle.column_document.specs.Steps.{step_of, step_from, step_named, rebuild_from, rebuild_into, no_arguments, one_argument, two_numbers};
ghost use Rattle.column_relayout.specs.declared.steps.Step.{Step};

use crate::from_json::{FromJson, Unread};
use column_relayout::{Kind, Step};
use serde_json::Value;
use std::alloc::Global;

impl FromJson for Step {
    ghost of = { step_of };

    fn from_json(alloc: Global, value: &Value) -> Result<Step, Unread> {
        match value.as_array() {
            Some(parts) => read_step(alloc, parts),
            None => Err(Unread::Bad),
        }
    }
}

fn read_step(alloc: Global, parts: &[Value]) -> Result<Step, Unread>
    ensures { Reads result (step_from (items_view parts.now)) }
{
    match parts {
        [word, arguments @ ..] => match word.as_str() {
            Some(word) => read_named_step(alloc, word, arguments),
            None => Err(Unread::Bad),
        },
        [] => Err(Unread::Bad),
    }
}

fn read_named_step(alloc: Global, word: &str, arguments: &[Value]) -> Result<Step, Unread>
    ensures { Reads result (step_named word.now (items_view arguments.now)) }
{
    match word {
        "slice" => {
            let (first, count) = two_numbers(alloc, arguments)?;
            Ok(Step::Slice(first, count))
        }
        "left" => Ok(Step::Left(one_argument(alloc, arguments)?)),
        "right" => Ok(Step::Right(one_argument(alloc, arguments)?)),
        "to_utf8" => no_arguments(Step::ToUtf8, arguments),
        "to_binary" => no_arguments(Step::ToBinary, arguments),
        "gc" => no_arguments(Step::Gc, arguments),
        "dedupe" => no_arguments(Step::Dedupe, arguments),
        "append" => Ok(Step::Append(one_argument(alloc, arguments)?)),
        "rebuild" => read_rebuild(alloc, arguments),
        _ => Err(Unread::Bad),
    }
}

fn read_rebuild(alloc: Global, arguments: &[Value]) -> Result<Step, Unread>
    ensures { Reads result (rebuild_from (items_view arguments.now)) }
{
    match arguments {
        [name, arguments @ ..] => {
            let kind = Kind::from_json(alloc, name)?;
            read_rebuild_into(alloc, kind, arguments)
        }
        [] => Err(Unread::Bad),
    }
}

fn read_rebuild_into(alloc: Global, kind: Kind, arguments: &[Value]) -> Result<Step, Unread>
    ensures { Reads result (rebuild_into kind (items_view arguments.now)) }
{
    match kind {
        Kind::Fixed(_) => Ok(Step::Rebuild(Kind::Fixed(one_argument(alloc, arguments)?))),
        _ => no_arguments(Step::Rebuild(kind), arguments),
    }
}

/// The step, where it has no arguments.
#[tactic(auto, using(crate::proofs::StepsLemmas::other_than_none))]
fn no_arguments(step: Step, arguments: &[Value]) -> Result<Step, Unread>
    ensures { Reads result (no_arguments step (items_view arguments.now)) }
{
    match arguments {
        [] => Ok(step),
        _ => Err(Unread::Bad),
    }
}

/// The argument of any step of exactly one.
#[tactic(auto, using(crate::proofs::StepsLemmas::other_than_one))]
fn one_argument<T: FromJson>(alloc: Global, arguments: &[Value]) -> Result<T, Unread>
    ensures { (step : T → Step) → ReadsAs step result (one_argument T.of step (items_view arguments.now)) }
{
    match arguments {
        [argument] => T::from_json(alloc, argument),
        _ => Err(Unread::Bad),
    }
}

/// The numbers of any step of exactly two.
#[tactic(auto, using(crate::proofs::StepsLemmas::other_than_two))]
fn two_numbers(alloc: Global, arguments: &[Value]) -> Result<(usize, usize), Unread>
    ensures { (step : ℕ → ℕ → Step) → ReadsAs (λ numbers. step numbers.0 numbers.1) result (two_numbers step (items_view arguments.now)) }
{
    match arguments {
        [first, second] => {
            let first = usize::from_json(alloc, first)?;
            let second = usize::from_json(alloc, second)?;
            Ok((first, second))
        }
        _ => Err(Unread::Bad),
    }
}
