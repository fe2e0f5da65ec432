//! Which slots of a column are null.

ghost use Rattle.std.specs.Prelude.{◌≡◌, ◌+◌, ◌<◌, ◌≤◌, not, length as list_length, None, IfSome, count_by};
ghost use Rattle.std.specs.Option.{option_copied};
ghost use Rattle.column_base.specs.Answers.{Answers, GivesCause};
ghost use Rattle.column_storage.specs.Bits.{given_bits, sliced_flags};
ghost use Rattle.column_storage.specs.Validity.{AreFlagsOf, flags_fault, is_valid_at};

use crate::bitmap::Bitmap;
use column_base::{Cause, PolarsError};
use std::alloc::Global;

/// Whether a validity that is given has a flag for each of `count` slots: `ValidityLength` where it has not.
///
/// Arrow columnar format, "Validity bitmaps".
pub fn check_validity(validity: Option<&Bitmap>, count: usize) -> Result<(), Cause>
    ensures { let flags = option_copied validity.entry in GivesCause result (flags_fault count flags) (λ _. AreFlagsOf count flags) }
{
    match validity {
        Some(bits) if bits.len() != count => Err(Cause::ValidityLength),
        _ => Ok(()),
    }
}

/// Whether slot `i` is valid: each is where no validity is given. Arrow columnar format, "Validity bitmaps".
pub fn is_valid_at(validity: Option<&Bitmap>, i: usize) -> bool
    requires { IfSome validity (λ bits. i < list_length bits.now) }
    ensures { result ≡ is_valid_at (option_copied validity.entry) i }
{
    match validity {
        Some(bits) => bits.get_bit(i),
        None => true,
    }
}

/// The same validity, which shares its memory, where one is given.
///
/// Copies no bit and takes no memory. `NoMemory` where the count of owners is full.
pub fn share_validity(
    alloc: Global,
    validity: Option<&Bitmap>,
) -> Result<Option<Bitmap>, PolarsError>
    ensures { Answers result None (λ share. share ≡ option_copied validity.entry) }
{
    match validity {
        Some(bits) => Ok(Some(bits.try_clone(alloc)?)),
        None => Ok(None),
    }
}

/// Keeps the flags of the `length` slots from slot `offset` on: none where none is given or no such slot is null.
///
/// Takes no memory. `offset` and `length` count slots. The bits are shared; of a validity in which no slot is null none
/// is read, and else those of the smaller of the part kept and the parts cut off. Arrow columnar format, "Validity
/// bitmaps".
pub fn slice_validity(validity: &mut Option<Bitmap>, offset: usize, length: usize)
    requires { IfSome validity.old (λ bits. offset + length ≤ list_length bits) }
    ensures { validity.new ≡ sliced_flags validity.old offset length }
{
    let has_null = match validity {
        Some(bits) => {
            bits.slice(offset, length);
            bits.unset_bits() > 0
        }
        None => true,
    };
    if !has_null {
        *validity = None;
    }
}

/// The number of null slots, in constant time: 0 where no validity is given. Arrow columnar format, "Null count".
pub fn null_count(validity: Option<&Bitmap>) -> usize
    ensures { result ≡ count_by not (given_bits (option_copied validity.entry)) }
{
    match validity {
        None => 0,
        Some(bits) => bits.unset_bits(),
    }
}
