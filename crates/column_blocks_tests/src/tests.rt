//! The tests: each asserts what a check of `checks` says.

use crate::checks::{
    blocks_are_finished, buffers_are_pushed, buffers_are_taken_once, copy_goes_on,
    flags_are_changed, rows_are_extended, rows_are_pushed, rule_gives, slots_are_changed,
    values_are_read_again, views_are_given,
};
use column_blocks::{
    DEFAULT_BLOCK_SIZE, MAX_EXP_BLOCK_SIZE, blocks_stay_sound, calls_append,
    stored_view_says_its_bytes, taken_buffers_stay, taken_view_says_the_same, views_stay,
};
use std::test::Fail;

// the lengths of values, and those of the buffers that they give
const RULE: [(&[usize], &[usize]); 14] = [
    (&[], &[]),
    // short values stand in their views
    (&[0, 12], &[]),
    (&[13], &[13]),
    // filled exactly, and passed by one byte
    (&[4_096, 4_096], &[8_192]),
    (&[4_096, 4_096, 13], &[8_192, 13]),
    (&[4_096, 4_097], &[4_096, 4_097]),
    (&[8_192, 13], &[8_192, 13]),
    // the next room is twice the last
    (&[8_192, 13, 16_371, 13], &[8_192, 16_384, 13]),
    (&[8_192, 13, 16_372], &[8_192, 13, 16_372]),
    // a value of more than the room
    (&[8_193, 13], &[8_193, 13]),
    (&[8_193, 13, 16_373, 13], &[8_193, 16_386, 13]),
    (&[13, 40_000, 13], &[13, 40_000, 13]),
    // two values fill each block
    (
        &[
            4_096, 4_096, 8_192, 8_192, 16_384, 16_384, 32_768, 32_768, 65_536, 65_536, 13,
        ],
        &[8_192, 16_384, 32_768, 65_536, 131_072, 13],
    ),
    // the greatest room is filled exactly and passed by one byte, and a value of more has a block of its own
    (
        &[8_388_608, 13, 16_777_203, 13, 16_777_204, 16_777_217, 13],
        &[8_388_608, 16_777_216, 13, 16_777_204, 16_777_217, 13],
    ),
];

#[test]
fn bytes_stand_in_blocks(rt: HostRuntime) -> Result<(), Fail> {
    for (lengths, wanted) in RULE {
        assert!(rt; rule_gives(rt.alloc(), lengths, wanted)?, "{lengths:?}");
    }
    assert!(rt; DEFAULT_BLOCK_SIZE == 8_192 && MAX_EXP_BLOCK_SIZE == 16_777_216);
    Ok(())
}

#[test]
fn views_name_their_bytes(rt: HostRuntime) -> Result<(), Fail> {
    assert!(rt; views_are_given(rt.alloc())?);
    assert!(rt; values_are_read_again(rt.alloc())?);
    assert!(rt; copy_goes_on(rt.alloc())?);
    Ok(())
}

#[test]
fn buffers_are_finished(rt: HostRuntime) -> Result<(), Fail> {
    assert!(rt; blocks_are_finished(rt.alloc())?);
    assert!(rt; buffers_are_pushed(rt.alloc())?);
    Ok(())
}

#[test]
fn rows_grow_and_change(rt: HostRuntime) -> Result<(), Fail> {
    assert!(rt; rows_are_pushed(rt.alloc()) && rows_are_extended(rt.alloc()));
    assert!(rt; slots_are_changed(rt.alloc())?);
    assert!(rt; flags_are_changed(rt.alloc())?);
    Ok(())
}

#[test]
fn sources_are_taken_once(rt: HostRuntime) -> Result<(), Fail> {
    assert!(rt; buffers_are_taken_once(rt.alloc())?);
    Ok(())
}

#[test]
fn the_laws_are_there() {
    calls_append();
    blocks_stay_sound();
    stored_view_says_its_bytes();
    views_stay();
    taken_view_says_the_same();
    taken_buffers_stay();
}
