//! Flags of slots.

use crate::iterators::gives;
use column_base::PolarsError;
use column_storage::{Bitmap, MutableBitmap};
use std::alloc::Global;

/// Flags of slots, where there are any.
pub type Flags<'a> = Option<&'a [bool]>;

/// The bitmap of these flags, where there are any.
pub fn bitmap(alloc: Global, flags: Flags<'_>) -> Result<Option<Bitmap>, PolarsError> {
    match flags {
        Some(flags) => Ok(Some(Bitmap::from_bools(alloc, flags)?)),
        None => Ok(None),
    }
}

/// Whether there are bits exactly where flags are wanted, and these.
pub fn flags_are(bits: Option<&Bitmap>, wanted: Flags<'_>) -> bool {
    match (bits, wanted) {
        (None, None) => true,
        (Some(bits), Some(wanted)) => gives(bits.iter(), wanted),
        _ => false,
    }
}

/// The same of bits that grow.
pub fn grown_flags_are(bits: Option<&MutableBitmap>, wanted: Flags<'_>) -> bool {
    match (bits, wanted) {
        (None, None) => true,
        (Some(bits), Some(wanted)) => gives(bits.iter(), wanted),
        _ => false,
    }
}
