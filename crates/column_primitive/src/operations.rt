//! The law of builders, for numbers.

ghost use Rattle.std.specs.Prelude.{◌≡◌, [], None};
ghost use Rattle.std.specs.List.{fold};
ghost use Rattle.column_base.specs.DataTypes.{default_type};
ghost use Rattle.column_base.specs.Answers.{Answers};
ghost use Rattle.column_primitive.specs.Numbers.{number_slots};
ghost use Rattle.column_primitive.specs.Operations.{slots_after, array_after};

use crate::array::PrimitiveArray;
use crate::builder::MutablePrimitiveArray;
use column_base::{NativeType, PolarsError};
use std::alloc::Global;

/// What is done to a builder of numbers.
#[derive(Clone, Copy, Debug, PartialEq, Eq)]
pub enum NumberOperation<T> {
    /// A valid slot of this number is added.
    Push(T),
    /// A null slot is added.
    PushNull,
    /// The last slot is taken, where there is one.
    Pop,
}

impl<T: NativeType> MutablePrimitiveArray<T> {
    /// Law of builders: operations on an empty builder, one after the other by the builder's own calls, and frozen,
    /// give the array of the slots that they leave.
    ///
    /// `NoMemory` where an operation or the array finds none.
    pub fn replay(
        alloc: Global,
        operations: &[NumberOperation<T>],
    ) -> Result<PrimitiveArray<T>, PolarsError>
        ensures { Answers result None (λ array. number_slots T.le_bytes array.lists ≡ fold (slots_after T.le_bytes T.zero_value) [] operations.now) }
    {
        let mut builder = Self::new(alloc);
        for operation in operations {
            builder.apply(operation)?;
        }
        builder.known();
        builder.freeze()
    }

    // One operation, by the call of its name.
    fn apply(&mut self, operation: &NumberOperation<T>) -> Result<(), PolarsError>
        ensures { Answers result None (λ _. self.new.array ≡ array_after T.zero_value self.old.array operation.now) }
    {
        match operation {
            NumberOperation::Push(value) => self.push_value(*value),
            NumberOperation::PushNull => self.push_null(),
            NumberOperation::Pop => {
                let _row = self.pop();
                Ok(())
            }
        }
    }
}
