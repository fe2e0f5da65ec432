//! The law of builders, for byte strings of one width.

ghost use Rattle.std.specs.Prelude.{◌≡◌, ◌<◌, [], None};
ghost use Rattle.std.specs.List.{fold};
ghost use Rattle.column_base.specs.Answers.{Answers};
ghost use Rattle.column_base.specs.Pushes.{growth_fault};
ghost use Rattle.column_fixed.specs.Slots.{fixed_slots};
ghost use Rattle.column_fixed.specs.Rows.{no_slots};
ghost use Rattle.column_fixed.specs.Operations.{slots_after, lists_after, operation_fault, operation_growth};

use crate::array::FixedSizeBinaryArray;
use crate::builder::MutableFixedSizeBinaryArray;
use column_base::PolarsError;
use std::alloc::Global;

/// What is done to a builder of byte strings of one width.
#[derive(Drop)]
pub enum FixedOperation {
    /// A valid slot of these bytes is added.
    Push(Vec<u8>),
    /// A null is added.
    PushNull,
    /// The last slot is taken, where there is one.
    Pop,
}

impl MutableFixedSizeBinaryArray {
    /// Law of builders: operations on an empty builder of a width, one after the other by the builder's own calls, and
    /// frozen, give the array of the slots that they leave.
    ///
    /// `WrongLength` where a push has another number of bytes, `NoMemory` where an operation or the array finds none.
    pub fn replay(
        alloc: Global,
        size: usize,
        operations: &[FixedOperation],
    ) -> Result<FixedSizeBinaryArray, PolarsError>
        requires { 0 < size }
        ensures { Answers result (growth_fault operation_growth (no_slots size) operations.now) (λ array. fixed_slots array ≡ fold (slots_after size) [] operations.now) }
    {
        let mut builder = Self::new(alloc, size);
        for operation in operations {
            builder.apply(operation)?;
        }
        builder.freeze()
    }

    // One operation, by the call of its name.
    fn apply(&mut self, operation: &FixedOperation) -> Result<(), PolarsError>
        ensures { Answers result (operation_fault self.old.lists operation.now) (λ _. self.new.lists ≡ lists_after self.old.lists operation.now) }
    {
        match operation {
            FixedOperation::Push(bytes) => self.try_push(Some(bytes)),
            FixedOperation::PushNull => self.push_null(),
            FixedOperation::Pop => {
                let _row = self.pop()?;
                Ok(())
            }
        }
    }
}
