//! Operations on growing offsets, one after another.

ghost use Rattle.std.specs.Prelude.{◌≡◌, ℕ, pos, List, [], ◌∷◌};
ghost use Rattle.std.specs.List.{fold};
ghost use Rattle.column_base.specs.Answers.{Answers};
ghost use Rattle.column_offset.specs.Growth.{extended};
ghost use Rattle.column_offset.specs.Operations.{lengths_after, operation_fault, operations_fault};

use crate::buffer::OffsetsBuffer;
use crate::offsets::Offsets;
use column_base::{Offset, PolarsError};
use std::alloc::Global;

/// What is done to growing offsets.
#[derive(Clone, Copy, Debug, PartialEq, Eq)]
pub enum OffsetsOperation {
    /// A slot of so many bytes is added.
    Push(usize),
    /// The last slot is taken, where there is one.
    Pop,
}

impl<O: Offset> Offsets<O> {
    /// Law of builders: operations on new offsets, one after the other by the offsets' own calls, and shared, give the
    /// offsets from 0 of slots of the lengths that the same operations leave of a list of lengths.
    ///
    /// `Overflow` where a push passes the type, the first that does, `NoMemory` where there is none for the offsets.
    pub fn replay(
        alloc: Global,
        operations: &[OffsetsOperation],
    ) -> Result<OffsetsBuffer<O>, PolarsError>
        ensures { Answers result (operations_fault O.GREATEST [] operations.now) (λ b. b ≡ extended (pos 0 ∷ []) (fold lengths_after [] operations.now)) }
    {
        let mut offsets = Offsets::new(alloc)?;
        for operation in operations {
            offsets.apply(*operation)?;
        }
        OffsetsBuffer::from_offsets(alloc, offsets)
    }

    // One operation, by the call of its name.
    fn apply(&mut self, operation: OffsetsOperation) -> Result<(), PolarsError>
        ensures { (lengths : List ℕ) → self.old.offsets ≡ extended (pos 0 ∷ []) lengths
            → Answers result (operation_fault O.GREATEST lengths operation) (λ _. self.new.offsets ≡ extended (pos 0 ∷ []) (lengths_after lengths operation)) }
    {
        match operation {
            OffsetsOperation::Push(length) => self.try_push(length),
            OffsetsOperation::Pop => {
                let _last = self.pop();
                Ok(())
            }
        }
    }
}
