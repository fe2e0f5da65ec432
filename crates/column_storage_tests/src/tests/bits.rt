use crate::cases::flags;
use crate::checks::bits::{
    Call, an_unset_bit_is_a_validity, bits_are_added, bits_are_frozen, bits_are_taken,
    bits_stay_where_room_goes, changed_bits_are_frozen, four_are_read, four_give, four_split,
    four_stay, operations_leave, own_bits_are_changed, room_takes_bits, set_bits_are,
    set_bits_are_no_validity, shared_bits_are_changed, unset_bits_are,
};
use column_storage::BitOperation;
use std::test::Fail;

const PARTS: [(Call, usize, usize, &[bool]); 8] = [
    (Call::Sliced, 0, 4, &[true, false, true, true]),
    (Call::Sliced, 1, 3, &[false, true, true]),
    (Call::SlicedUnchecked, 2, 2, &[true, true]),
    (Call::SlicedUnchecked, 1, 1, &[false]),
    (Call::Slice, 0, 2, &[true, false]),
    (Call::Slice, 4, 0, &[]),
    (Call::SliceUnchecked, 1, 2, &[false, true]),
    (Call::SliceUnchecked, 0, 0, &[]),
];

#[test]
fn slices_are_sublists(rt: HostRuntime) -> Result<(), Fail> {
    for (call, from, count, wanted) in PARTS {
        assert!(rt;
            four_give(rt.alloc(), call, from, count, wanted)?,
            "{from} {count}"
        );
    }
    assert!(rt; four_are_read(&flags(rt.alloc())?));
    assert!(rt; four_stay(rt.alloc())?);
    assert!(rt; four_split(rt.alloc())?);
    Ok(())
}

#[test]
fn bits_have_one_value(rt: HostRuntime) -> Result<(), Fail> {
    assert!(rt; unset_bits_are(rt.alloc())?);
    assert!(rt; set_bits_are(rt.alloc())?);
    assert!(rt; shared_bits_are_changed(rt.alloc())?);
    assert!(rt; own_bits_are_changed(rt.alloc())?);
    assert!(rt; changed_bits_are_frozen(rt.alloc())?);
    Ok(())
}

#[test]
fn bits_are_added_and_taken(rt: HostRuntime) -> Result<(), Fail> {
    assert!(rt; bits_are_added(rt.alloc()));
    assert!(rt; bits_are_taken(rt.alloc())?);
    assert!(rt; bits_stay_where_room_goes(rt.alloc())?);
    assert!(rt; room_takes_bits(rt.alloc())?);
    assert!(rt; bits_are_frozen(rt.alloc())?);
    Ok(())
}

#[test]
fn a_validity_without_nulls_is_none(rt: HostRuntime) -> Result<(), Fail> {
    assert!(rt; set_bits_are_no_validity(rt.alloc())?);
    assert!(rt; an_unset_bit_is_a_validity(rt.alloc())?);
    Ok(())
}

const POP: BitOperation = BitOperation::Pop;

const SET: BitOperation = BitOperation::Push(true);

const UNSET: BitOperation = BitOperation::Push(false);

const OPERATIONS: [(&[BitOperation], &[bool]); 6] = [
    (&[], &[]),
    (&[POP], &[]),
    (&[SET], &[true]),
    (&[SET, UNSET, POP], &[true]),
    (
        &[BitOperation::ExtendConstant(3, false), POP, SET],
        &[false, false, true],
    ),
    (
        &[BitOperation::ExtendConstant(2, true), POP, POP, POP, UNSET],
        &[false],
    ),
];

#[test]
fn operations_leave_their_list(rt: HostRuntime) -> Result<(), Fail> {
    for (operations, wanted) in OPERATIONS {
        assert!(rt;
            operations_leave(rt.alloc(), operations, wanted)?,
            "{operations:?}"
        );
    }
    Ok(())
}
