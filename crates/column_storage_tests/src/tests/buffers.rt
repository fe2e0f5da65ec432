use crate::checks::buffers::{
    Call, four_give, four_split, four_stay, no_buffers_are_empty, none_is_empty, own_vector_is_cut,
    shared_vector_is_copied, slice_is_copied, two_buffers_are_a_vector, two_buffers_are_counted,
    two_buffers_are_shared, vector_comes_or_goes_back,
};
use std::test::Fail;

const PARTS: [(Call, usize, usize, &[i32]); 6] = [
    (Call::Sliced, 0, 4, &[10, 20, 30, 40]),
    (Call::Sliced, 1, 2, &[20, 30]),
    (Call::Slice, 0, 2, &[10, 20]),
    (Call::Slice, 4, 0, &[]),
    (Call::SliceUnchecked, 3, 1, &[40]),
    (Call::SliceUnchecked, 0, 0, &[]),
];

#[test]
fn slices_are_sublists(rt: HostRuntime) -> Result<(), Fail> {
    for (call, from, count, wanted) in PARTS {
        assert!(rt;
            four_give(rt.alloc(), call, from, count, wanted)?,
            "{from} {count}"
        );
    }
    assert!(rt; four_stay(rt.alloc())?);
    Ok(())
}

#[test]
fn a_split_is_whole(rt: HostRuntime) -> Result<(), Fail> {
    assert!(rt; four_split(rt.alloc(), 1, &[10], &[20, 30, 40])?);
    assert!(rt; four_split(rt.alloc(), 0, &[], &[10, 20, 30, 40])?);
    assert!(rt; four_split(rt.alloc(), 4, &[10, 20, 30, 40], &[])?);
    Ok(())
}

#[test]
fn a_vector_becomes_a_buffer(rt: HostRuntime) -> Result<(), Fail> {
    assert!(rt; none_is_empty(rt.alloc())?);
    assert!(rt; slice_is_copied(rt.alloc())?);
    assert!(rt; vector_comes_or_goes_back(rt.alloc())?);
    assert!(rt; own_vector_is_cut(rt.alloc())?);
    assert!(rt; shared_vector_is_copied(rt.alloc())?);
    Ok(())
}

#[test]
fn buffers_are_counted(rt: HostRuntime) -> Result<(), Fail> {
    assert!(rt; no_buffers_are_empty(rt.alloc())?);
    assert!(rt; two_buffers_are_counted(rt.alloc())?);
    assert!(rt; two_buffers_are_shared(rt.alloc())?);
    assert!(rt; two_buffers_are_a_vector(rt.alloc())?);
    Ok(())
}
