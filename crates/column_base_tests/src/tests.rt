//! The tests: each asserts what a check of `checks` says.

use crate::checks::{
    bytes_are, bytes_are_copied, cause_is, cut_is, days_are, ends_are, ends_at, kind_is,
    kind_takes, lies_in, months_are, place_is, text_is, text_is_copied,
};
use column_base::{
    ArrowDataType, BinaryKind, Cause, IntervalUnit, Offset, PhysicalType, PolarsError,
    PrimitiveType, TimeUnit, Utf8Kind, days_ms, months_days_ns, slice_reads, slices_are_one,
    split_is_whole, utf8_cut, utf8_is_text,
};
use std::alloc::AllocError;
use std::test::Fail;

#[test]
fn causes_have_names_and_errors(rt: HostRuntime) {
    let table: [(Cause, &[u8], bool); 21] = [
        (Cause::OffsetsEmpty, b"OffsetsEmpty", false),
        (Cause::OffsetsNegative, b"OffsetsNegative", false),
        (Cause::OffsetsNotMonotone, b"OffsetsNotMonotone", false),
        (Cause::OffsetsExceedValues, b"OffsetsExceedValues", false),
        (Cause::OffsetsNotFull, b"OffsetsNotFull", false),
        (Cause::ValidityLength, b"ValidityLength", false),
        (Cause::SizeZero, b"SizeZero", false),
        (Cause::NotMultiple, b"NotMultiple", false),
        (Cause::InvalidUtf8, b"InvalidUtf8", false),
        (Cause::CharBoundary, b"CharBoundary", false),
        (Cause::NonZeroPadding, b"NonZeroPadding", false),
        (Cause::PrefixMismatch, b"PrefixMismatch", false),
        (Cause::ViewIndex, b"ViewIndex", true),
        (Cause::BufferSlice, b"BufferSlice", true),
        (Cause::WrongDataType, b"WrongDataType", false),
        (Cause::WrongLength, b"WrongLength", false),
        (Cause::Overflow, b"Overflow", false),
        (Cause::KeyNotUsize, b"KeyNotUsize", false),
        (
            Cause::KeyOutOfRange { key: 9, len: 3 },
            b"KeyOutOfRange",
            false,
        ),
        (Cause::StepRange, b"StepRange", false),
        (Cause::WrongKind, b"WrongKind", false),
    ];
    for (cause, name, is_out_of_bounds) in table {
        assert!(rt; cause_is(cause, name, is_out_of_bounds), "{cause:?}");
    }
    assert!(rt; PolarsError::from(AllocError) == PolarsError::NoMemory);
}

#[test]
fn data_types_have_layouts(rt: HostRuntime) {
    let int32 = PhysicalType::Primitive(PrimitiveType::Int32);
    let int64 = PhysicalType::Primitive(PrimitiveType::Int64);
    let table: [(ArrowDataType, PhysicalType); 13] = [
        (ArrowDataType::Boolean, PhysicalType::Boolean),
        (ArrowDataType::Date32, int32),
        (ArrowDataType::Time32(TimeUnit::Second), int32),
        (ArrowDataType::Interval(IntervalUnit::YearMonth), int32),
        (
            ArrowDataType::Interval(IntervalUnit::DayTime),
            PhysicalType::Primitive(PrimitiveType::DaysMs),
        ),
        (
            ArrowDataType::Interval(IntervalUnit::MonthDayNano),
            PhysicalType::Primitive(PrimitiveType::MonthDayNano),
        ),
        (ArrowDataType::Timestamp(TimeUnit::Nanosecond), int64),
        (ArrowDataType::Date64, int64),
        (
            ArrowDataType::Decimal(38, 2),
            PhysicalType::Primitive(PrimitiveType::Int128),
        ),
        (ArrowDataType::Binary, PhysicalType::Binary),
        (ArrowDataType::LargeUtf8, PhysicalType::LargeUtf8),
        (
            ArrowDataType::FixedSizeBinary(3),
            PhysicalType::FixedSizeBinary,
        ),
        (ArrowDataType::Unknown, PhysicalType::Unknown),
    ];
    for (dtype, physical) in table {
        assert!(rt; lies_in(dtype, physical), "{dtype:?}");
    }
    assert!(rt; PrimitiveType::UInt16.dtype() == ArrowDataType::UInt16);
    assert!(rt; PrimitiveType::DaysMs.dtype() == ArrowDataType::Interval(IntervalUnit::DayTime));
}

#[test]
fn signed_numbers_have_bytes(rt: HostRuntime) {
    assert!(rt;
        ends_are(
            PrimitiveType::Int8,
            (-128i8, b"\x80"),
            (0, b"\0"),
            (127, b"\x7f")
        )
    );
    assert!(rt;
        ends_are(
            PrimitiveType::Int16,
            (-32768i16, b"\0\x80"),
            (0, b"\0\0"),
            (32767, b"\xff\x7f")
        )
    );
    assert!(rt;
        ends_are(
            PrimitiveType::Int32,
            (-2147483648i32, b"\0\0\0\x80"),
            (0, b"\0\0\0\0"),
            (2147483647, b"\xff\xff\xff\x7f")
        )
    );
    assert!(rt;
        ends_are(
            PrimitiveType::Int64,
            (-9223372036854775808i64, b"\0\0\0\0\0\0\0\x80"),
            (0, b"\0\0\0\0\0\0\0\0"),
            (9223372036854775807, b"\xff\xff\xff\xff\xff\xff\xff\x7f")
        )
    );
    assert!(rt;
        ends_are(
            PrimitiveType::Int128,
            (
                -170141183460469231731687303715884105728i128,
                b"\0\0\0\0\0\0\0\0\0\0\0\0\0\0\0\x80"
            ),
            (0, b"\0\0\0\0\0\0\0\0\0\0\0\0\0\0\0\0"),
            (
                170141183460469231731687303715884105727,
                b"\xff\xff\xff\xff\xff\xff\xff\xff\xff\xff\xff\xff\xff\xff\xff\x7f"
            )
        )
    );
}

#[test]
fn minus_one_has_bytes(rt: HostRuntime) {
    assert!(rt; bytes_are(-1i8, b"\xff"));
    assert!(rt; bytes_are(-1i16, b"\xff\xff"));
    assert!(rt; bytes_are(-1i32, b"\xff\xff\xff\xff"));
    assert!(rt; bytes_are(-1i64, b"\xff\xff\xff\xff\xff\xff\xff\xff"));
    assert!(rt;
        bytes_are(
            -1i128,
            b"\xff\xff\xff\xff\xff\xff\xff\xff\xff\xff\xff\xff\xff\xff\xff\xff"
        )
    );
}

#[test]
fn unsigned_numbers_have_bytes(rt: HostRuntime) {
    assert!(rt;
        ends_are(
            PrimitiveType::UInt8,
            (1u8, b"\x01"),
            (0, b"\0"),
            (255, b"\xff")
        )
    );
    assert!(rt;
        ends_are(
            PrimitiveType::UInt16,
            (1u16, b"\x01\0"),
            (0, b"\0\0"),
            (65535, b"\xff\xff")
        )
    );
    assert!(rt;
        ends_are(
            PrimitiveType::UInt32,
            (1u32, b"\x01\0\0\0"),
            (0, b"\0\0\0\0"),
            (4294967295, b"\xff\xff\xff\xff")
        )
    );
    assert!(rt;
        ends_are(
            PrimitiveType::UInt64,
            (1u64, b"\x01\0\0\0\0\0\0\0"),
            (0, b"\0\0\0\0\0\0\0\0"),
            (18446744073709551615, b"\xff\xff\xff\xff\xff\xff\xff\xff")
        )
    );
}

#[test]
fn intervals_have_bytes(rt: HostRuntime) {
    let least = days_ms::new(-2147483648, -1);
    let greatest = days_ms::new(2147483647, 3);
    assert!(rt; days_are(greatest, 2147483647, 3));
    assert!(rt;
        ends_are(
            PrimitiveType::DaysMs,
            (least, b"\0\0\0\x80\xff\xff\xff\xff"),
            (days_ms::new(0, 0), b"\0\0\0\0\0\0\0\0"),
            (greatest, b"\xff\xff\xff\x7f\x03\0\0\0")
        )
    );
    let least = months_days_ns::new(-2147483648, -1, -2);
    let greatest = months_days_ns::new(2147483647, 3, 9223372036854775807);
    assert!(rt; months_are(greatest, 2147483647, 3, 9223372036854775807));
    assert!(rt;
        ends_are(
            PrimitiveType::MonthDayNano,
            (
                least,
                b"\0\0\0\x80\xff\xff\xff\xff\xfe\xff\xff\xff\xff\xff\xff\xff"
            ),
            (
                months_days_ns::new(0, 0, 0),
                b"\0\0\0\0\0\0\0\0\0\0\0\0\0\0\0\0"
            ),
            (
                greatest,
                b"\xff\xff\xff\x7f\x03\0\0\0\xff\xff\xff\xff\xff\xff\xff\x7f"
            )
        )
    );
}

#[test]
fn offsets_end_at_their_type(rt: HostRuntime) {
    assert!(rt; ends_at::<i32>(2147483647, 2147483648) && place_is::<i32>(7));
    assert!(rt; ends_at::<i64>(9223372036854775807, 9223372036854775808) && place_is::<i64>(7));
    assert!(rt; !i32::IS_LARGE && i64::IS_LARGE);
}

#[test]
fn text_is_utf8(rt: HostRuntime) {
    let table: [(&[u8], bool); 9] = [
        (b"", true),
        (b"Z\xc3\xbcrich", true),
        (b"\xf4\x8f\xbf\xbf", true),
        (b"\xed\xa0\x80", false),
        (b"\xc0\x80", false),
        (b"\xf4\x90\x80\x80", false),
        (b"\xe2\x82", false),
        (b"\x80", false),
        (b"\xff", false),
    ];
    for (bytes, wanted) in table {
        assert!(rt; text_is(bytes, wanted), "{bytes:?}");
    }
    utf8_is_text();
}

// a letter, and characters of two, three and four bytes, cut at each place and at the end
#[test]
fn text_is_cut_between_characters(rt: HostRuntime) {
    let text = b"a\xc3\xa9\xe2\x82\xac\xf0\x9d\x84\x9e";
    let wanted: [bool; 11] = [
        true, true, false, true, false, false, true, false, false, false, true,
    ];
    for (place, wanted) in wanted.into_iter().enumerate() {
        assert!(rt; cut_is(text, place, wanted), "{place}");
    }
    utf8_cut();
    slice_reads::<u8>();
    slices_are_one::<u8>();
    split_is_whole::<u8>();
}

#[test]
fn kinds_hold_bytes_or_text(rt: HostRuntime) {
    let table: [(&[u8], bool); 4] = [
        (b"", true),
        (b"Z\xc3\xbcrich", true),
        (b"Z\xc3", false),
        (b"\xed\xa0\x80", false),
    ];
    for (bytes, is_text) in table {
        assert!(rt;
            kind_takes::<BinaryKind>(bytes, true) && kind_takes::<Utf8Kind>(bytes, is_text),
            "{bytes:?}"
        );
    }
    assert!(rt; kind_is::<BinaryKind>(false, ArrowDataType::BinaryView));
    assert!(rt; kind_is::<Utf8Kind>(true, ArrowDataType::Utf8View));
}

#[test]
fn values_of_kinds_are_copied(rt: HostRuntime) -> Result<(), Fail> {
    assert!(rt; bytes_are_copied(rt.alloc(), b"a\xff")?);
    assert!(rt; text_is_copied(rt.alloc(), "Z\u{fc}rich")?);
    Ok(())
}
