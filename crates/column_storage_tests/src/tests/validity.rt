use crate::checks::validity::{
    flags_are_read, length_is_checked, none_has_no_part, none_is_checked, none_is_shared,
    nulls_are_counted, part_has, set_part_has_none, validity_is_shared,
};
use column_base::Cause;
use std::test::Fail;

// a part of five bits, and how many of its slots are null where a validity is kept
const PARTS: [(usize, usize, Option<usize>); 10] = [
    (0, 5, Some(2)),
    (1, 3, Some(1)),
    (0, 2, Some(1)),
    (3, 2, Some(1)),
    (1, 4, Some(2)),
    (0, 1, None),
    (2, 2, None),
    (4, 0, None),
    (0, 0, None),
    (5, 0, None),
];

#[test]
fn parts_have_their_nulls(rt: HostRuntime) -> Result<(), Fail> {
    for (from, length, nulls) in PARTS {
        assert!(rt;
            part_has(rt.alloc(), from, length, nulls)?,
            "{from} {length}"
        );
    }
    assert!(rt; set_part_has_none(rt.alloc())?);
    assert!(rt; none_has_no_part());
    assert!(rt; nulls_are_counted(rt.alloc())?);
    Ok(())
}

#[test]
fn a_validity_has_a_flag_for_each_slot(rt: HostRuntime) -> Result<(), Fail> {
    assert!(rt; none_is_checked(3));
    assert!(rt; length_is_checked(rt.alloc(), 5, None)?);
    assert!(rt; length_is_checked(rt.alloc(), 4, Some(Cause::ValidityLength))?);
    assert!(rt; length_is_checked(rt.alloc(), 6, Some(Cause::ValidityLength))?);
    assert!(rt; flags_are_read(rt.alloc())?);
    Ok(())
}

#[test]
fn a_validity_is_shared(rt: HostRuntime) -> Result<(), Fail> {
    assert!(rt; validity_is_shared(rt.alloc())?);
    assert!(rt; none_is_shared(rt.alloc())?);
    Ok(())
}
