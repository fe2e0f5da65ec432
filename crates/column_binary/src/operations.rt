//! The law of builders, for byte strings.

ghost use Rattle.std.specs.Prelude.{◌≡◌, [], None, Some};
ghost use Rattle.std.specs.List.{fold};
ghost use Rattle.column_base.specs.Answers.{Answers};
ghost use Rattle.column_base.specs.Pushes.{growth_fault};
ghost use Rattle.column_binary.specs.Slots.{offset_slots};
ghost use Rattle.column_binary.specs.Rows.{no_slots};
ghost use Rattle.column_binary.specs.Operations.{slots_after, lists_after, operation_fault, operation_growth};

use crate::array::BinaryArray;
use crate::builder::MutableBinaryArray;
use crate::values_builder::MutableBinaryValuesArray;
use column_base::{Offset, PolarsError};
use std::alloc::Global;

/// What is done to a builder of byte strings.
#[derive(Drop)]
pub enum BinaryOperation {
    /// A valid slot of these bytes is added.
    Push(Vec<u8>),
    /// A null is added.
    PushNull,
    /// The last slot is taken, where there is one.
    Pop,
}

impl<O: Offset> MutableBinaryArray<O> {
    /// Law of builders: operations on an empty builder, one after the other by the builder's own calls, and frozen,
    /// give the array of the slots that they leave.
    ///
    /// `Overflow` where a push passes the type after the operations before it, `NoMemory` where an operation or the
    /// array finds none.
    pub fn replay(
        alloc: Global,
        operations: &[BinaryOperation],
    ) -> Result<BinaryArray<O>, PolarsError>
        ensures { Answers result (growth_fault (operation_growth None O.GREATEST) no_slots operations.now) (λ array. offset_slots array ≡ fold (slots_after None) [] operations.now) }
    {
        let mut builder = Self::new(alloc)?;
        for operation in operations {
            builder.apply(operation)?;
        }
        builder.known();
        builder.freeze()
    }

    // One operation, by the call of its name.
    fn apply(&mut self, operation: &BinaryOperation) -> Result<(), PolarsError>
        ensures { Answers result (operation_fault O.GREATEST self.old.lists operation.now) (λ _. self.new.lists ≡ lists_after None self.old.lists operation.now) }
    {
        match operation {
            BinaryOperation::Push(bytes) => self.push_value(bytes),
            BinaryOperation::PushNull => self.push_null(),
            BinaryOperation::Pop => {
                let _row = self.pop()?;
                Ok(())
            }
        }
    }
}

impl<O: Offset> MutableBinaryValuesArray<O> {
    /// Law of builders, as [`MutableBinaryArray::replay`]: a null is pushed as an empty value, and the array has no
    /// validity.
    pub fn replay(
        alloc: Global,
        operations: &[BinaryOperation],
    ) -> Result<BinaryArray<O>, PolarsError>
        ensures { Answers result (growth_fault (operation_growth (Some []) O.GREATEST) no_slots operations.now) (λ array. (offset_slots array ≡ fold (slots_after (Some [])) [] operations.now) × (array.flags ≡ None)) }
    {
        let mut builder = Self::new(alloc)?;
        for operation in operations {
            builder.apply(operation)?;
        }
        builder.known();
        builder.freeze()
    }

    // One operation, by the call of its name.
    fn apply(&mut self, operation: &BinaryOperation) -> Result<(), PolarsError>
        ensures { Answers result (operation_fault O.GREATEST self.old.lists operation.now) (λ _. self.new.lists ≡ lists_after (Some []) self.old.lists operation.now) }
    {
        match operation {
            BinaryOperation::Push(bytes) => self.push(bytes),
            BinaryOperation::PushNull => self.push_null(),
            BinaryOperation::Pop => {
                let _row = self.pop()?;
                Ok(())
            }
        }
    }
}
