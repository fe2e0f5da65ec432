//! The law of builders, for byte strings and texts behind views.

ghost use Rattle.std.specs.Prelude.{◌≡◌, []};
ghost use Rattle.std.specs.List.{fold};
ghost use Rattle.std.specs.String.{string_bytes};
ghost use Rattle.column_base.specs.Answers.{Answers};
ghost use Rattle.column_base.specs.Pushes.{growth_fault};
ghost use Rattle.column_binview.specs.Slots.{view_slots};
ghost use Rattle.column_binview.specs.Builders.{no_slots};
ghost use Rattle.column_binview.specs.Operations.{slots_after, builder_after, operation_fault, operation_growth};

use crate::array::{BinaryViewArray, Utf8ViewArray};
use crate::builder::{MutablePlBinary, MutablePlString};
use column_base::PolarsError;
use std::alloc::Global;

/// What is done to a builder of values `V` behind views.
#[derive(Drop)]
pub enum ViewOperation<V> {
    /// A valid slot of this value is added.
    Push(V),
    /// A null is added.
    PushNull,
    /// As many valid slots of this value are added.
    Repeat(usize, V),
}

impl MutablePlBinary {
    /// Law of builders: operations on an empty builder, one after the other by the builder's own calls, and frozen, give the
    /// array of the slots that they leave.
    ///
    /// `Overflow` where a value is refused after the operations before it, `NoMemory` where an operation or the array finds
    /// none.
    pub fn replay(
        alloc: Global,
        operations: &[ViewOperation<Vec<u8>>],
    ) -> Result<BinaryViewArray, PolarsError>
        ensures { Answers result (growth_fault (operation_growth (λ bytes. bytes.items)) no_slots operations.now) (λ array. view_slots array ≡ fold (slots_after (λ bytes. bytes.items)) [] operations.now) }
    {
        let mut builder = Self::new(alloc);
        for operation in operations {
            builder.apply(operation)?;
        }
        builder.freeze()
    }

    // One operation, by the call of its name.
    fn apply(&mut self, operation: &ViewOperation<Vec<u8>>) -> Result<(), PolarsError>
        ensures { Answers result (operation_fault (λ bytes. bytes.items) self.old operation.now) (λ _. self.new ≡ builder_after (λ bytes. bytes.items) self.old operation.now) }
    {
        match operation {
            ViewOperation::Push(bytes) => self.push_value(bytes.as_slice()),
            ViewOperation::PushNull => self.push_null(),
            ViewOperation::Repeat(count, bytes) => {
                self.extend_constant(*count, Some(bytes.as_slice()))
            }
        }
    }
}

impl MutablePlString {
    /// Law of builders, as [`MutablePlBinary::replay`], of texts.
    pub fn replay(
        alloc: Global,
        operations: &[ViewOperation<String>],
    ) -> Result<Utf8ViewArray, PolarsError>
        ensures { Answers result (growth_fault (operation_growth string_bytes) no_slots operations.now) (λ array. view_slots array ≡ fold (slots_after string_bytes) [] operations.now) }
    {
        let mut builder = Self::new(alloc);
        for operation in operations {
            builder.apply(operation)?;
        }
        builder.freeze()
    }

    // One operation, by the call of its name.
    fn apply(&mut self, operation: &ViewOperation<String>) -> Result<(), PolarsError>
        ensures { Answers result (operation_fault string_bytes self.old operation.now) (λ _. self.new ≡ builder_after string_bytes self.old operation.now) }
    {
        match operation {
            ViewOperation::Push(text) => self.push_value(text.as_str()),
            ViewOperation::PushNull => self.push_null(),
            ViewOperation::Repeat(count, text) => self.extend_constant(*count, Some(text.as_str())),
        }
    }
}
