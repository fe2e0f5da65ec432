//! The law of builders, for texts.

ghost use Rattle.std.specs.Prelude.{◌≡◌, [], map, None, Some};
ghost use Rattle.std.specs.List.{fold};
ghost use Rattle.column_base.specs.Answers.{Answers};
ghost use Rattle.column_base.specs.Pushes.{growth_fault};
ghost use Rattle.column_binary.specs.Slots.{offset_slots};
ghost use Rattle.column_binary.specs.Rows.{no_slots};
ghost use Rattle.column_binary.specs.Operations.{slots_after, lists_after, operation_fault, operation_growth};
ghost use Rattle.column_utf8.specs.Operations.{on_bytes};

use crate::array::Utf8Array;
use crate::builder::MutableUtf8Array;
use crate::values_builder::MutableUtf8ValuesArray;
use column_base::{Offset, PolarsError};
use std::alloc::Global;

/// What is done to a builder of texts.
#[derive(Drop)]
pub enum Utf8Operation {
    /// A valid slot of this text is added.
    Push(String),
    /// A null is added.
    PushNull,
    /// The last slot is taken, where there is one.
    Pop,
}

impl<O: Offset> MutableUtf8Array<O> {
    /// Law of builders: operations on an empty builder, one after the other by the builder's own calls, and frozen,
    /// give the array of the slots that they leave.
    ///
    /// `Overflow` where a push passes the type after the operations before it, `NoMemory` where an operation or the
    /// array finds none.
    pub fn replay(alloc: Global, operations: &[Utf8Operation]) -> Result<Utf8Array<O>, PolarsError>
        ensures { let done = map on_bytes operations.now in Answers result (growth_fault (operation_growth None O.GREATEST) no_slots done) (λ array. offset_slots array ≡ fold (slots_after None) [] done) }
    {
        let mut builder = Self::new(alloc)?;
        for operation in operations {
            builder.apply(operation)?;
        }
        builder.known();
        builder.freeze()
    }

    // One operation, by the call of its name.
    fn apply(&mut self, operation: &Utf8Operation) -> Result<(), PolarsError>
        ensures { Answers result (operation_fault O.GREATEST self.old.lists (on_bytes operation.now)) (λ _. self.new.lists ≡ lists_after None self.old.lists (on_bytes operation.now)) }
    {
        match operation {
            Utf8Operation::Push(text) => self.push_value(text.as_str()),
            Utf8Operation::PushNull => self.push_null(),
            Utf8Operation::Pop => {
                let _row = self.pop()?;
                Ok(())
            }
        }
    }
}

impl<O: Offset> MutableUtf8ValuesArray<O> {
    /// Law of builders, as [`MutableUtf8Array::replay`]: a null is pushed as an empty text, and the array has no
    /// validity.
    pub fn replay(alloc: Global, operations: &[Utf8Operation]) -> Result<Utf8Array<O>, PolarsError>
        ensures { let done = map on_bytes operations.now in Answers result (growth_fault (operation_growth (Some []) O.GREATEST) no_slots done) (λ array. (offset_slots array ≡ fold (slots_after (Some [])) [] done) × (array.flags ≡ None)) }
    {
        let mut builder = Self::new(alloc)?;
        for operation in operations {
            builder.apply(operation)?;
        }
        builder.known();
        builder.freeze()
    }

    // One operation, by the call of its name.
    fn apply(&mut self, operation: &Utf8Operation) -> Result<(), PolarsError>
        ensures { Answers result (operation_fault O.GREATEST self.old.lists (on_bytes operation.now)) (λ _. self.new.lists ≡ lists_after (Some []) self.old.lists (on_bytes operation.now)) }
    {
        match operation {
            Utf8Operation::Push(text) => self.push(text.as_str()),
            Utf8Operation::PushNull => self.push_null(),
            Utf8Operation::Pop => {
                let _row = self.pop()?;
                Ok(())
            }
        }
    }
}
