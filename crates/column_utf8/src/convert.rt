//! Byte strings into texts, and back. No byte is moved.

ghost use Rattle.std.specs.Prelude.{◌≡◌, None, ⊤};
ghost use Rattle.column_base.specs.Answers.{Answers, GivesCause, GivesBack};
ghost use Rattle.column_base.specs.Slots.{values_of};
ghost use Rattle.column_offset.specs.Text.{texts_fault};
ghost use Rattle.column_binary.specs.Slots.{offset_slots, AreSoundLists};

use crate::array::Utf8Array;
use column_base::{Cause, Offset, PolarsError};
use column_binary::BinaryArray;
use column_offset::check_utf8;
use std::alloc::Global;

impl<O: Offset> Utf8Array<O> {
    /// The same slots as byte strings: offsets, value bytes and validity are those of the texts, and shared with them.
    ///
    /// Copies no slot and takes no memory. `NoMemory` where a count of owners is full.
    pub fn to_binary(&self, alloc: Global) -> Result<BinaryArray<O>, PolarsError>
        ensures { Answers result None (λ a. a ≡ self.now) }
    {
        self.as_binary().try_clone(alloc)
    }

    /// The same slots as byte strings: offsets, value bytes and validity are those of the texts. Takes no memory.
    pub fn into_binary(self) -> BinaryArray<O>
        ensures same { result ≡ self }
        ensures sound { AreSoundLists result }
    {
        let Utf8Array { array } = self;
        array
    }
}

/// The same slots as texts: offsets, value bytes and validity are those of the byte strings. One pass, with no memory.
///
/// `InvalidUtf8` where the bytes of all slots, null ones too, are not UTF-8 end to end, and else `CharBoundary` where
/// some slot by itself is not. The array comes back as it was beside the cause. Unicode, table 3-7.
#[tactic(auto, using(crate::proofs::TextsLemmas::texts))]
pub fn try_into_utf8<O: Offset>(
    array: BinaryArray<O>,
) -> Result<Utf8Array<O>, (BinaryArray<O>, Cause)>
    ensures { GivesBack result (texts_fault (values_of (offset_slots array))) (λ texts. texts ≡ array) (λ back. back ≡ array) }
{
    array.known();
    match check_slots(&array) {
        Ok(()) => Ok(Utf8Array::of(array)),
        Err(cause) => Err((array, cause)),
    }
}

/// Whether each slot is UTF-8.
fn check_slots<O: Offset>(array: &BinaryArray<O>) -> Result<(), Cause>
    ensures { GivesCause result (texts_fault (values_of (offset_slots array.now))) (λ _. ⊤) }
{
    array.known();
    let checked = check_utf8(array.offsets().as_slice(), array.values().as_slice());
    checked
}
