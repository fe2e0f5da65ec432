//! Byte strings and texts behind the same views.

ghost use Rattle.std.specs.Prelude.{◌≡◌, true, false, ⊤, None};
ghost use Rattle.column_base.specs.Answers.{Gives, GivesCause, GivesBack, Answers};
ghost use Rattle.column_view.specs.ViewFaults.{contents_fault};
ghost use Rattle.column_binview.specs.Slots.{view_slots, AreSoundViews};

use crate::array::{BinaryViewArray, Utf8ViewArray};
use column_base::{Cause, PolarsError};
use column_view::check_contents;
use std::alloc::Global;

impl Utf8ViewArray {
    /// The same slots as byte strings: views, buffers and validity are those of the texts. Takes no memory and no time.
    #[tactic(auto, using(crate::proofs::SlotsLemmas::texts))]
    pub fn into_binview(self) -> BinaryViewArray
        ensures { result ≡ self }
    {
        self.known();
        self.of_kind()
    }

    /// The same slots as byte strings, which share the memory of the texts.
    ///
    /// Copies no slot and takes no memory. `NoMemory` where a count of owners is full.
    pub fn to_binview(&self, alloc: Global) -> Result<BinaryViewArray, PolarsError>
        ensures { Answers result None (λ a. a ≡ self.now) }
    {
        Ok(self.try_clone(alloc)?.into_binview())
    }
}

impl BinaryViewArray {
    /// Whether each slot, also a null one, is UTF-8: `InvalidUtf8` where one is not. One pass, with no memory.
    pub fn validate_utf8(&self) -> Result<(), PolarsError>
        ensures { Gives result (contents_fault self.now.views self.now.buffers) (λ _. AreSoundViews true self.now) }
    {
        check_texts(self)?;
        Ok(())
    }

    /// The same slots as texts: views, buffers and validity are those of the byte strings. One pass, with no memory.
    ///
    /// `InvalidUtf8` where some slot, also a null one, is not UTF-8. The array comes back as it was beside the cause.
    pub fn try_into_utf8view(self) -> Result<Utf8ViewArray, (BinaryViewArray, Cause)>
        ensures { GivesBack result (contents_fault self.views self.buffers) (λ texts. texts ≡ self) (λ back. back ≡ self) }
    {
        match check_texts(&self) {
            Ok(()) => Ok(self.of_kind()),
            Err(cause) => Err((self, cause)),
        }
    }

    /// The same slots as texts, which share the memory of the byte strings.
    ///
    /// `InvalidUtf8` where some slot, also a null one, is not UTF-8, and else `NoMemory` where a count of owners is full.
    pub fn to_utf8view(&self, alloc: Global) -> Result<Utf8ViewArray, PolarsError>
        ensures { Answers result (contents_fault self.now.views self.now.buffers) (λ a. a ≡ self.now) }
    {
        check_texts(self)?;
        Ok(self.try_clone(alloc)?.of_kind())
    }

    /// The same as [`BinaryViewArray::to_utf8view`], of slots each of which is UTF-8, without a look at them.
    pub fn to_utf8view_unchecked(&self, alloc: Global) -> Result<Utf8ViewArray, PolarsError>
        requires { contents_fault self.now.views self.now.buffers ≡ None }
        ensures { Answers result None (λ a. a ≡ self.now) }
    {
        tell_texts(self);
        Ok(self.try_clone(alloc)?.of_kind())
    }
}

// Whether each slot is UTF-8.
#[tactic(auto, using(crate::proofs::SlotsLemmas::texts))]
fn check_texts(array: &BinaryViewArray) -> Result<(), Cause>
    ensures { GivesCause result (contents_fault array.now.views array.now.buffers) (λ _. AreSoundViews true array.now) }
{
    array.known();
    check_contents(array.views().as_slice(), array.data_buffers())?;
    Ok(())
}

// Tells proofs that slots each of which is UTF-8 are texts.
#[tactic(auto, using(crate::proofs::SlotsLemmas::texts))]
fn tell_texts(array: &BinaryViewArray)
    requires { contents_fault array.now.views array.now.buffers ≡ None }
    ensures { AreSoundViews true array.now }
{
    array.known();
}
