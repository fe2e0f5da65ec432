//! The law of builders, for truth values.

ghost use Rattle.std.specs.Prelude.{◌≡◌, [], None};
ghost use Rattle.std.specs.List.{fold};
ghost use Rattle.column_base.specs.Answers.{Answers};
ghost use Rattle.column_boolean.specs.Slots.{boolean_slots};
ghost use Rattle.column_boolean.specs.Operations.{slots_after, lists_after};

use crate::array::BooleanArray;
use crate::builder::MutableBooleanArray;
use column_base::PolarsError;
use std::alloc::Global;

/// What is done to a builder of truth values.
#[derive(Clone, Copy, Debug, PartialEq, Eq)]
pub enum BooleanOperation {
    /// A valid slot of this truth value is added.
    Push(bool),
    /// A null slot is added.
    PushNull,
    /// The last slot is taken, where there is one.
    Pop,
}

impl MutableBooleanArray {
    /// Law of builders: operations on an empty builder, one after the other by the builder's own calls, and frozen,
    /// give the array of the slots that they leave.
    ///
    /// `NoMemory` where an operation or the array finds none.
    pub fn replay(
        alloc: Global,
        operations: &[BooleanOperation],
    ) -> Result<BooleanArray, PolarsError>
        ensures { Answers result None (λ array. boolean_slots array ≡ fold slots_after [] operations.now) }
    {
        let mut builder = Self::new(alloc);
        for operation in operations {
            builder.apply(*operation)?;
        }
        builder.known();
        builder.freeze()
    }

    // One operation, by the call of its name.
    fn apply(&mut self, operation: BooleanOperation) -> Result<(), PolarsError>
        ensures { Answers result None (λ _. self.new.lists ≡ lists_after self.old.lists operation) }
    {
        match operation {
            BooleanOperation::Push(value) => self.push_value(value),
            BooleanOperation::PushNull => self.push_null(),
            BooleanOperation::Pop => {
                let _row = self.pop();
                Ok(())
            }
        }
    }
}
