//! Which slots of a growing column are null. A validity is made at the first null.
//!
//! A builder keeps its validity beside its values, and calls these where it grows. What fails for want of memory comes
//! first: once there is room, flags are added and taken without fail.

ghost use Rattle.std.specs.Prelude.{◌≡◌, ℕ, ◌+◌, ◌-◌, ◌<◌, ◌≤◌, length, take, ◌++◌, if◌then◌else◌, option_map, true, false, None, Some, IsOk, OnErr, IfSome, MatchOption};
ghost use Rattle.std.specs.Option.{option_or, option_copied};
ghost use Rattle.column_base.specs.Answers.{Answers, GivesCause};
ghost use Rattle.column_storage.specs.Bits.{bits_given, changed_flag, constant_flags, flags_of, frozen_flags, joined_flags, pushed_flag, spare_beside};
ghost use Rattle.column_storage.specs.Validity.{AreFlagsOf, flags_fault, is_valid_at};

use crate::bitmap::Bitmap;
use crate::mutable_bitmap::MutableBitmap;
use column_base::{Cause, PolarsError};
use std::alloc::Global;

/// Whether a validity that is given has a flag for each of `count` slots: `ValidityLength` where it has not.
///
/// Arrow columnar format, "Validity bitmaps".
pub fn check_flags(validity: Option<&MutableBitmap>, count: usize) -> Result<(), Cause>
    ensures { let flags = bits_given (option_copied validity.entry) in GivesCause result (flags_fault count flags) (λ _. AreFlagsOf count flags) }
{
    match validity {
        Some(bits) if bits.len() != count => Err(Cause::ValidityLength),
        _ => Ok(()),
    }
}

/// Whether slot `i` is valid: each is where no validity is given. Arrow columnar format, "Validity bitmaps".
pub fn flag_at(validity: Option<&MutableBitmap>, i: usize) -> bool
    requires { IfSome (bits_given (option_copied validity)) (λ bits. i < length bits) }
    ensures { result ≡ is_valid_at (bits_given (option_copied validity.entry)) i }
{
    match validity {
        Some(bits) => bits.get(i),
        None => true,
    }
}

/// Makes room for the flags of `additional` more slots, where a validity is given.
///
/// `NoMemory` where there is none for them, and never where the room is there.
pub fn reserve_flags(
    validity: &mut Option<MutableBitmap>,
    additional: usize,
) -> Result<(), PolarsError>
    ensures answer { Answers result None (λ _. (spare : ℕ) → additional ≤ spare → additional ≤ spare_beside validity.new spare) }
    ensures same { bits_given validity.new ≡ bits_given validity.old }
    ensures spare_serves { additional ≤ spare_beside validity.old additional → IsOk result }
    ensures spare_kept { (spare : ℕ) → spare_beside validity.old spare ≤ spare_beside validity.new spare }
    ensures unchanged { OnErr result (validity.new ≡ validity.old) }
{
    if let Some(bits) = validity {
        bits.reserve(additional)?;
    }
    Ok(())
}

/// Adds the flag of a valid slot, where a validity is given. There is room for it.
pub fn push_valid_flag(validity: &mut Option<MutableBitmap>)
    requires { 1 ≤ spare_beside validity.old 1 }
    ensures flags { (n : ℕ) → bits_given validity.new ≡ pushed_flag n (bits_given validity.old) true }
    ensures spare { (spare : ℕ) → spare_beside validity.old (spare + 1) ≤ spare_beside validity.new spare + 1 }
{
    if let Some(bits) = validity {
        match bits.push(true) {
            Ok(()) => {}
            Err(_) => unreachable!(),
        }
    }
}

/// Adds the flag of a null slot after those of `count` slots, which are all valid where no validity is given.
///
/// `NoMemory` where there is none for the flags.
pub fn push_null_flag(
    alloc: Global,
    validity: &mut Option<MutableBitmap>,
    count: usize,
) -> Result<(), PolarsError>
    ensures answer { Answers result None (λ _. bits_given validity.new ≡ pushed_flag count (bits_given validity.old) false) }
    ensures unchanged { OnErr result (bits_given validity.new ≡ bits_given validity.old) }
    ensures spare_kept { OnErr result ((spare : ℕ) → spare_beside validity.old spare ≤ spare_beside validity.new spare) }
{
    if let Some(bits) = validity {
        return bits.push(false);
    }
    let mut bits = MutableBitmap::from_len_set(alloc, count)?;
    bits.push(false)?;
    *validity = Some(bits);
    Ok(())
}

/// Takes the last flag, where a validity is given.
#[tactic(auto, using(crate::proofs::OperationsLemmas::operations))]
pub fn pop_flag(validity: &mut Option<MutableBitmap>)
    ensures flags { bits_given validity.new ≡ option_map (λ bits. take (length bits - 1) bits) (bits_given validity.old) }
    ensures spare { (spare : ℕ) → spare_beside validity.old spare ≤ spare_beside validity.new spare }
{
    if let Some(bits) = validity {
        let _ = bits.pop();
    }
}

/// Keeps the flags of the first `count` slots, where a validity is given.
pub fn truncate_flags(validity: &mut Option<MutableBitmap>, count: usize)
    ensures flags { bits_given validity.new ≡ option_map (take count) (bits_given validity.old) }
    ensures spare { (spare : ℕ) → spare_beside validity.old spare ≤ spare_beside validity.new spare }
{
    if let Some(bits) = validity {
        bits.truncate(count);
    }
}

/// Makes room for the flags of `added` slots that follow `count` ones: in their validity, or in a new one, which is
/// handed back, where they have none and one `is_needed`.
///
/// `NoMemory` where there is none for the flags.
pub fn room_for_flags(
    alloc: Global,
    validity: &mut Option<MutableBitmap>,
    count: usize,
    added: usize,
    is_needed: bool,
) -> Result<Option<MutableBitmap>, PolarsError>
    ensures room { Answers result None (λ made. added ≤ spare_beside (option_or made validity.new) added) }
    ensures made { Answers result None (λ made. bits_given (option_or made validity.new) ≡ (if is_needed then Some (flags_of count (bits_given validity.old)) else bits_given validity.old)) }
    ensures same { bits_given validity.new ≡ bits_given validity.old }
    ensures spare_kept { (spare : ℕ) → spare_beside validity.old spare ≤ spare_beside validity.new spare }
{
    if let Some(bits) = validity {
        bits.reserve(added)?;
        return Ok(None);
    }
    if !is_needed {
        return Ok(None);
    }
    let mut bits = MutableBitmap::from_len_set(alloc, count)?;
    bits.reserve(added)?;
    Ok(Some(bits))
}

/// Adds the flags of `added` slots, to the validity that was `made` for them where one was. There is room for them.
pub fn add_flags(
    validity: &mut Option<MutableBitmap>,
    made: Option<MutableBitmap>,
    others: Option<&MutableBitmap>,
    added: usize,
)
    requires room { added ≤ spare_beside (option_or made validity.old) added }
    requires others { AreFlagsOf added (bits_given (option_copied others)) }
    ensures { bits_given validity.new ≡ option_map (λ flags. flags ++ flags_of added (bits_given (option_copied others.entry))) (bits_given (option_or made validity.old)) }
{
    if made.is_some() {
        *validity = made;
    }
    if let Some(bits) = validity {
        append_flags(bits, others, added);
    }
}

// Adds flags, or set ones where none are given. There is room for them.
fn append_flags(bits: &mut MutableBitmap, others: Option<&MutableBitmap>, added: usize)
    requires room { added ≤ bits.old.spare }
    requires others { AreFlagsOf added (bits_given (option_copied others)) }
    ensures { bits.new.bits ≡ bits.old.bits ++ flags_of added (bits_given (option_copied others.entry)) }
{
    let appended = match others {
        Some(others) => bits.try_extend_from_self(others),
        None => bits.extend_constant(added, true),
    };
    match appended {
        Ok(()) => {}
        Err(_) => unreachable!(),
    }
}

/// Adds the flags of `added` slots that are all valid or all null after those of `count` ones, and makes a validity where
/// there is none and some are null.
///
/// `NoMemory` where there is none for the flags, and never for those of valid slots where there is room.
#[tactic(auto, using(crate::proofs::GrowingFlagsLemmas::constants))]
pub fn extend_constant_flags(
    alloc: Global,
    validity: &mut Option<MutableBitmap>,
    count: usize,
    added: usize,
    is_valid: bool,
) -> Result<(), PolarsError>
    ensures answer { Answers result None (λ _. bits_given validity.new ≡ joined_flags count (bits_given validity.old) added (constant_flags added is_valid)) }
    ensures spare_serves { is_valid ≡ true → added ≤ spare_beside validity.old added → IsOk result }
    ensures unchanged { OnErr result (validity.new ≡ validity.old) }
{
    if let Some(bits) = validity {
        return bits.extend_constant(added, is_valid);
    }
    if is_valid || added == 0 {
        return Ok(());
    }
    let mut bits = MutableBitmap::from_len_set(alloc, count)?;
    bits.extend_constant(added, false)?;
    *validity = Some(bits);
    Ok(())
}

/// Gives slot `index` of `count` ones another flag, and makes a validity where there is none and the slot becomes null.
///
/// `NoMemory` where there is none for a validity that is made.
pub fn set_flag(
    alloc: Global,
    validity: &mut Option<MutableBitmap>,
    count: usize,
    index: usize,
    is_valid: bool,
) -> Result<(), PolarsError>
    requires given { AreFlagsOf count (bits_given validity.old) }
    requires within { index < count }
    ensures answer { Answers result None (λ _. bits_given validity.new ≡ changed_flag count (bits_given validity.old) index is_valid) }
    ensures unchanged { OnErr result (validity.new ≡ validity.old) }
{
    if let Some(bits) = validity {
        bits.set(index, is_valid);
        return Ok(());
    }
    if is_valid {
        return Ok(());
    }
    let mut bits = MutableBitmap::from_len_set(alloc, count)?;
    bits.set(index, false);
    *validity = Some(bits);
    Ok(())
}

/// Puts what `f` makes of the validity in its place, where one is given.
pub fn apply_flags<F: FnOnce(MutableBitmap) -> MutableBitmap>(
    validity: &mut Option<MutableBitmap>,
    f: F,
)
    requires { IfSome validity.old (λ bits. F.pre f bits) }
    ensures { MatchOption validity.old (validity.new ≡ None) (λ bits. (made : _) × F.post f bits made × (validity.new ≡ Some made)) }
{
    if let Some(bits) = validity.take() {
        *validity = Some(f(bits));
    }
}

/// Gives back room for flags that is not used.
pub fn shrink_flags(validity: &mut Option<MutableBitmap>)
    ensures { bits_given validity.new ≡ bits_given validity.old }
{
    if let Some(bits) = validity {
        bits.shrink_to_fit();
    }
}

/// A copy of the validity, where one is given.
///
/// `NoMemory` where there is none for it.
pub fn clone_flags(validity: Option<&MutableBitmap>) -> Result<Option<MutableBitmap>, PolarsError>
    ensures { Answers result None (λ copy. bits_given copy ≡ bits_given (option_copied validity.entry)) }
{
    match validity {
        Some(bits) => Ok(Some(bits.try_clone()?)),
        None => Ok(None),
    }
}

/// The validity of an array: none where no slot is null. Arrow columnar format, "Validity bitmaps".
///
/// In constant time. The flags are not copied. `NoMemory` where there is none for the count of owners.
pub fn freeze_flags(validity: Option<MutableBitmap>) -> Result<Option<Bitmap>, PolarsError>
    ensures { Answers result None (λ frozen. frozen ≡ frozen_flags (bits_given validity)) }
{
    match validity {
        Some(bits) => bits.into_opt_validity(),
        None => Ok(None),
    }
}

/// The validity of an array, to be changed.
///
/// The memory is kept where no other array shares it, and is copied otherwise. `NoMemory` where there is none for the
/// copy.
pub fn flags_into_mut(
    alloc: Global,
    validity: Option<Bitmap>,
) -> Result<Option<MutableBitmap>, PolarsError>
    ensures { Answers result None (λ flags. bits_given flags ≡ validity) }
{
    match validity {
        Some(bits) => Ok(Some(bits.make_mut(alloc)?)),
        None => Ok(None),
    }
}
