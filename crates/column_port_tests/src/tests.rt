//! The tests: each asserts what a check of `checks` says.

use crate::checks::{
    Reading, TEXT, Writing, calls_are_answered, empty_text_makes_no_call, full_std_writer_fails,
    std_reader_is_read, std_writer_is_written, steady_source_is_read, text_is_read,
    text_is_written,
};
use column_port::{Failed, ReadError};
use std::test::Fail;

#[test]
fn a_text_is_read_within_the_limit(rt: HostRuntime) -> Result<(), Fail> {
    let (fault, long): (Reading<'_>, Reading<'_>) = (
        Err(ReadError::Fault),
        Err(ReadError::TooLong),
    );
    // the most bytes of a call, the call that fails, the limit, the answer, and what a reading then gives
    let table: [(usize, u64, u32, Reading<'_>, Reading<'_>); 11] = [
        (10, 0, 26, Ok(TEXT), Ok(b"")),
        (1, 0, 100, Ok(TEXT), Ok(b"")),
        (26, 3, 26, Ok(TEXT), fault),
        (10, 5, 27, Ok(TEXT), fault),
        (10, 2, 26, fault, Ok(b" of 26 bytes ...")),
        (10, 4, 26, fault, Ok(b"")),
        (10, 3, 25, fault, Ok(b"es ...")),
        (10, 0, 25, long, Ok(b"")),
        (10, 4, 25, long, fault),
        (10, 0, 4, long, Ok(b"ument of 26 bytes ...")),
        (10, 0, 0, long, Ok(b" document of 26 bytes ...")),
    ];
    for (most, call, limit, wanted, then) in table {
        assert!(rt;
            text_is_read(rt.alloc(), most, call, limit, wanted, then)?,
            "call {call}"
        );
    }
    Ok(())
}

#[test]
fn a_read_fails_at_the_listed_calls_alone(rt: HostRuntime) -> Result<(), Fail> {
    let failed = Err(Failed);
    let wanted = [Ok(10), failed, Ok(10), failed, Ok(6), Ok(0), failed, Ok(0)];
    assert!(rt; calls_are_answered(rt.alloc(), &[2, 4, 4, 7], &wanted)?);
    Ok(())
}

#[test]
fn a_text_is_written_whole(rt: HostRuntime) -> Result<(), Fail> {
    let (whole, failed): (Writing, Writing) = (Ok(()), Err(Failed));
    let short: &[u8] = b"a document of 26 bytes ..";
    let twice: &[u8] = b"a document of 26 bytes ...a document of 26 bytes ...";
    let other: &[u8] = b"a documenta document of 26 bytes ...";
    // the room, the most bytes of a call, the call that fails, the answer and what is held, and both once more
    let table: [(usize, usize, u64, Writing, &[u8], Writing, &[u8]); 9] = [
        (26, 10, 0, whole, TEXT, failed, TEXT),
        (100, 1, 0, whole, TEXT, whole, twice),
        (26, 10, 4, whole, TEXT, failed, TEXT),
        (26, 10, 1, failed, b"", whole, TEXT),
        (
            26,
            10,
            2,
            failed,
            b"a document",
            failed,
            b"a documenta document of 26",
        ),
        (36, 10, 2, failed, b"a document", whole, other),
        (25, 10, 0, failed, short, failed, short),
        (4, 26, 0, failed, b"a do", failed, b"a do"),
        (0, 1, 0, failed, b"", failed, b""),
    ];
    for (room, most, call, wanted, held, then, then_held) in table {
        assert!(rt;
            text_is_written(rt.alloc(), room, most, call, wanted, held, then, then_held)?,
            "call {call}"
        );
    }
    Ok(())
}

#[test]
fn other_ends_are_read_and_written(rt: HostRuntime) -> Result<(), Fail> {
    assert!(rt; steady_source_is_read(rt.alloc())?);
    assert!(rt; std_reader_is_read(rt.alloc(), 26, Ok(TEXT)));
    assert!(rt; std_reader_is_read(rt.alloc(), 25, Err(ReadError::TooLong)));
    assert!(rt; empty_text_makes_no_call(rt.alloc())?);
    assert!(rt; std_writer_is_written(rt.alloc()));
    assert!(rt; full_std_writer_fails());
    Ok(())
}
