//! The lines of README.md that use the library.

use column_base::{ArrowDataType, PolarsError};
use column_offset::OffsetsBuffer;
use column_storage::{Bitmap, Buffer};
use column_utf8::Utf8Array;
use std::alloc::Global;
use std::test::Fail;

fn cities(alloc: Global) -> Result<Utf8Array<i32>, PolarsError> {
    let offsets = OffsetsBuffer::try_from_vec(alloc, vec![in alloc; 0i32, 4, 4, 14]?)?;
    let values = Buffer::from_vec(alloc, Vec::from_slice(alloc, "OsloSão Paulo".as_bytes())?)?;
    let flags = Bitmap::from_bools(alloc, &[true, false, true])?;
    Utf8Array::try_new(ArrowDataType::Utf8, offsets, values, Some(flags))
}

fn last_are_read(cities: Utf8Array<i32>) -> bool {
    if cities.len() != 3 {
        return false;
    }
    let last = cities.sliced(1, 2);
    last.len() == 2 && last.get(0).is_none() && last.get(1) == Some("São Paulo")
}

#[test]
fn cities_are_sliced_and_read(rt: HostRuntime) -> Result<(), Fail> {
    assert!(rt; last_are_read(cities(rt.alloc())?));
    Ok(())
}
