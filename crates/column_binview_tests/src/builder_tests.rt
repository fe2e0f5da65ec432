//! The tests of builders: each asserts what a check of `builder_checks` says.

use crate::builder_cases::{A, C, of};
use crate::builder_checks::{
    Call, Way, array_goes_on, binary_grows, buffers_are_added, copy_knows_its_sources, cuts_give,
    equal_slots_are_added, flags_are_put, gathers, is_gathered, no_flags_are_put, nulls_are_added,
    owned_rows_make, owned_rows_make_arrays, owned_text_values_make, owned_texts_make,
    owned_texts_make_arrays, owned_values_make, replay_gives, rows_are_frozen, rows_are_pushed,
    rows_are_taken, rows_extend, rows_make, rows_make_too, rule_gives, source_is_used,
    text_replay_gives, texts_are_read, texts_are_told, values_are_read, values_make, views_are_put,
};
use crate::cases::{ABC, LONG, array, long};
use crate::source_checks::{Given, missing_are_null, views_are_taken};
use column_base::{BinaryKind, Cause, Utf8Kind};
use column_binview::{
    buffers_append, builder_of_lists_is_sound, calls_append_together, equal_slots_append,
    gathering_is_refused_only_for_many_slots, one_slot_is_changed, pushed_rows_append,
    rows_are_refused_for_length_or_number, rows_overflow_alone, sources_stay,
    values_need_no_validity,
};
use std::test::Fail;

#[test]
fn builders_grow(rt: HostRuntime) -> Result<(), Fail> {
    let bytes = rows_are_pushed::<BinaryKind>(rt.alloc(), b"abc", LONG)?;
    let texts = rows_are_pushed::<Utf8Kind>(rt.alloc(), "abc", "abcdefghijklm")?;
    assert!(rt; bytes && texts);
    Ok(())
}

#[test]
fn builders_are_frozen(rt: HostRuntime) -> Result<(), Fail> {
    let frozen = rows_are_frozen(rt.alloc())?;
    let taken = rows_are_taken(rt.alloc())?;
    assert!(rt; frozen && taken);
    Ok(())
}

#[test]
fn builders_are_read(rt: HostRuntime) -> Result<(), Fail> {
    let bytes = values_are_read(rt.alloc())?;
    let texts = texts_are_read(rt.alloc())?;
    let column = binary_grows(rt.alloc())?;
    assert!(rt; bytes && texts && column);
    Ok(())
}

#[test]
fn equal_slots_share_their_bytes(rt: HostRuntime) -> Result<(), Fail> {
    for count in [0, 3] {
        let slots = equal_slots_are_added(rt.alloc(), count)?;
        let nulls = nulls_are_added(rt.alloc(), count)?;
        assert!(rt; slots && nulls);
    }
    Ok(())
}

#[test]
fn bytes_stand_in_blocks(rt: HostRuntime) -> Result<(), Fail> {
    let table: [(&[usize], &[usize]); 4] = [
        (&[12], &[]),
        (&[13, 13], &[26]),
        (&[4_096, 4_096, 13], &[8_192, 13]),
        (&[8_193, 8_192], &[8_193, 8_192]),
    ];
    for (lengths, wanted) in table {
        let given = rule_gives(rt.alloc(), lengths, wanted)?;
        assert!(rt; given, "{lengths:?}");
    }
    Ok(())
}

#[test]
fn buffers_stand_between_blocks(rt: HostRuntime) -> Result<(), Fail> {
    let added = buffers_are_added(rt.alloc())?;
    assert!(rt; added);
    Ok(())
}

#[test]
fn slots_are_changed(rt: HostRuntime) -> Result<(), Fail> {
    let views = views_are_put(rt.alloc())?;
    let valid = flags_are_put(rt.alloc(), true)?;
    let null = flags_are_put(rt.alloc(), false)?;
    assert!(rt; views && valid && null && no_flags_are_put(rt.alloc()));
    Ok(())
}

#[test]
fn buffers_of_sources_are_taken_once(rt: HostRuntime) -> Result<(), Fail> {
    let views = [of(b'c', 0), of(b'a', 1), of(b'c', 0), ABC];
    for way in [Way::Take, Way::TakeUnchecked] {
        let taken = source_is_used(rt.alloc(), way, &views, &[C, A], 26)?;
        assert!(rt; taken);
    }
    let known = copy_knows_its_sources(rt.alloc())?;
    assert!(rt; known);
    Ok(())
}

#[test]
fn bytes_of_sources_are_copied(rt: HostRuntime) -> Result<(), Fail> {
    let mut views = [of(b'c', 0), of(b'a', 0), of(b'c', 0), ABC];
    views[1][12] = 13;
    views[2][12] = 26;
    let copied = source_is_used(rt.alloc(), Way::Copy, &views, &[], 39)?;
    assert!(rt; copied);
    Ok(())
}

#[test]
fn views_of_an_iterator_take_their_buffers(rt: HostRuntime) -> Result<(), Fail> {
    let views = [of(b'c', 0), of(b'a', 1), of(b'c', 0), ABC];
    for given in [Given::Take, Given::TakeTrusted, Given::TakeUnchecked] {
        let taken = views_are_taken(rt.alloc(), given, &views, &[C, A], 26)?;
        assert!(rt; taken);
    }
    Ok(())
}

#[test]
fn views_of_an_iterator_are_copied(rt: HostRuntime) -> Result<(), Fail> {
    let mut views = [of(b'c', 0), of(b'a', 0), of(b'c', 0), ABC];
    views[1][12] = 13;
    views[2][12] = 26;
    let copied = views_are_taken(rt.alloc(), Given::Copy, &views, &[], 39)?;
    assert!(rt; copied);
    Ok(())
}

#[test]
fn missing_views_are_null(rt: HostRuntime) -> Result<(), Fail> {
    for is_trusted in [false, true] {
        let taken = missing_are_null(rt.alloc(), is_trusted)?;
        assert!(rt; taken);
    }
    Ok(())
}

const CUT: [&[u8]; 11] = [
    b"",
    b"abc",
    b"def",
    b"hix",
    b"abc",
    b"defg",
    b"xyza1234abcd",
    LONG,
    A,
    b"abc",
    LONG,
];

#[test]
fn bytes_are_cut(rt: HostRuntime) -> Result<(), Fail> {
    let first = cuts_give(rt.alloc(), false, &CUT[1..])?;
    let after_null = cuts_give(rt.alloc(), true, &CUT)?;
    assert!(rt; first && after_null);
    Ok(())
}

#[test]
fn texts_are_found(rt: HostRuntime) -> Result<(), Fail> {
    let all = texts_are_told(rt.alloc(), 0, Some(Cause::InvalidUtf8))?;
    let rest = texts_are_told(rt.alloc(), 1, None)?;
    let none = texts_are_told(rt.alloc(), 2, None)?;
    assert!(rt; all && rest && none);
    Ok(())
}

#[test]
fn rows_make_builders(rt: HostRuntime) -> Result<(), Fail> {
    for call in [Call::Extend, Call::ExtendTrusted, Call::TryExtend] {
        let extended = rows_extend(rt.alloc(), call)?;
        assert!(rt; extended);
    }
    let made = rows_make(rt.alloc())?;
    let again = rows_make_too(rt.alloc())?;
    let values = values_make(rt.alloc())?;
    assert!(rt; made && again && values);
    Ok(())
}

#[test]
fn owned_rows_make_builders_and_arrays(rt: HostRuntime) -> Result<(), Fail> {
    let rows = owned_rows_make(rt.alloc())?;
    let arrays = owned_rows_make_arrays(rt.alloc())?;
    let values = owned_values_make(rt.alloc())?;
    assert!(rt; rows && arrays && values);
    Ok(())
}

#[test]
fn owned_texts_make_builders_and_arrays(rt: HostRuntime) -> Result<(), Fail> {
    let texts = owned_texts_make(rt.alloc())?;
    let arrays = owned_texts_make_arrays(rt.alloc())?;
    let values = owned_text_values_make(rt.alloc())?;
    assert!(rt; texts && arrays && values);
    Ok(())
}

#[test]
fn arrays_go_on(rt: HostRuntime) -> Result<(), Fail> {
    let again = array_goes_on(
        rt.alloc(),
        array(rt.alloc(), &[long(0, 0)], Some(LONG), None)?,
    )?;
    assert!(rt; again);
    Ok(())
}

const UNUSED: &[u8] = b"zzabcdefghijklm";

#[test]
fn null_slots_are_gathered(rt: HostRuntime) -> Result<(), Fail> {
    let flags = Some([false].as_slice());
    let null = array(rt.alloc(), &[long(0, 2)], Some(UNUSED), flags)?;
    let gathered = gathers(rt.alloc(), null, &[long(0, 0)], &[LONG], flags)?;
    assert!(rt; gathered);
    Ok(())
}

#[test]
fn shared_slots_are_gathered(rt: HostRuntime) -> Result<(), Fail> {
    let shared = array(rt.alloc(), &[long(0, 2), ABC], Some(UNUSED), None)?;
    let gathered = gathers(rt.alloc(), shared, &[long(0, 0), ABC], &[LONG], None)?;
    assert!(rt; gathered);
    Ok(())
}

#[test]
fn arrays_without_buffers_stay(rt: HostRuntime) -> Result<(), Fail> {
    let short = array(rt.alloc(), &[ABC], None, None)?;
    let same = gathers(rt.alloc(), short, &[ABC], &[], None)?;
    assert!(rt; same);
    Ok(())
}

#[test]
fn buffers_are_made_anew_where_much_is_spared(rt: HostRuntime) -> Result<(), Fail> {
    // one slot of 13 bytes needs 17: 16,384 can be spared where the buffers have 16,385
    for (bytes, wanted) in [(16_371, false), (16_372, true)] {
        let gathered = is_gathered(rt.alloc(), bytes)?;
        assert!(rt; gathered == wanted, "{bytes}");
    }
    Ok(())
}

#[test]
fn operations_are_replayed(rt: HostRuntime) -> Result<(), Fail> {
    let bytes = replay_gives(rt.alloc())?;
    let texts = text_replay_gives(rt.alloc())?;
    assert!(rt; bytes && texts);
    Ok(())
}

#[test]
fn laws_are_called(_rt: HostRuntime) -> Result<(), Fail> {
    pushed_rows_append();
    equal_slots_append();
    buffers_append();
    sources_stay();
    calls_append_together();
    builder_of_lists_is_sound();
    one_slot_is_changed();
    values_need_no_validity();
    rows_overflow_alone();
    rows_are_refused_for_length_or_number();
    gathering_is_refused_only_for_many_slots();
    Ok(())
}
