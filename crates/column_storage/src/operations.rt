//! The law of builders, for bits.

ghost use Rattle.std.specs.Prelude.{◌≡◌, [], fold, None, OnErr};
ghost use Rattle.column_base.specs.Answers.{Answers};
ghost use Rattle.column_storage.specs.Operations.{bits_after};

use crate::bitmap::Bitmap;
use crate::mutable_bitmap::MutableBitmap;
use column_base::PolarsError;
use std::alloc::Global;

/// What is done to a growing list of truth values.
#[derive(Clone, Copy, Debug, PartialEq, Eq)]
pub enum BitOperation {
    /// A bit is added.
    Push(bool),
    /// The last bit is taken, where there is one.
    Pop,
    /// As many bits of one value are added.
    ExtendConstant(usize, bool),
}

impl MutableBitmap {
    /// Law of builders: operations on an empty list, one after the other by the list's own calls, and frozen, give the
    /// bitmap that they leave.
    ///
    /// `NoMemory` where an operation or the bitmap finds none.
    pub fn replay(alloc: Global, operations: &[BitOperation]) -> Result<Bitmap, PolarsError>
        ensures { Answers result None (λ bits. bits ≡ fold bits_after [] operations.now) }
    {
        let mut builder = MutableBitmap::new(alloc);
        for operation in operations {
            builder.apply(*operation)?;
        }
        builder.freeze()
    }

    // One operation, by the call of its name.
    #[tactic(auto, using(crate::proofs::OperationsLemmas::operations))]
    fn apply(&mut self, operation: BitOperation) -> Result<(), PolarsError>
        ensures { Answers result None (λ _. self.new.bits ≡ bits_after self.old.bits operation) }
    {
        match operation {
            BitOperation::Push(bit) => self.push(bit),
            BitOperation::Pop => {
                self.pop();
                Ok(())
            }
            BitOperation::ExtendConstant(additional, bit) => self.extend_constant(additional, bit),
        }
    }
}
