//! The tests: each asserts what a check of `checks` says.

use crate::cases::four;
use crate::checks::{
    Numbers, Rows, applied_is, array_of_numbers_is, array_of_rows_is, array_of_slice_is,
    array_of_slice_of_rows_is, array_of_trusted_is, array_of_trusted_rows_is, array_of_values_is,
    array_of_vec_is, both_are, builder_is_asked, builder_of_fallible_is, builder_of_numbers_is,
    builder_of_rows_is, builder_takes_flags, builder_takes_numbers, builder_takes_rows,
    bytes_are_signed_8, bytes_are_signed_16, bytes_are_signed_32, bytes_are_signed_64,
    bytes_stay_8, bytes_stay_16, bytes_stay_32, bytes_stay_64, cleared_is, constants_leave,
    empty_builders_are, empty_is, equal_by_rows, filled_is, flags_are_other, flags_are_turned,
    flags_of_a_null_are_turned, four_are_again, four_ends_are, four_is_consumed, four_is_gone_over,
    four_is_read, frozen_for_a_while_is, frozen_without_nulls_is, half_is, is_default,
    is_laid_out_as, meaning_is_other, middle_is, mutable_is, new_is, nulls_are,
    numbers_are_changed, numbers_are_other, numbers_are_taken, numbers_stay, pops_give,
    pushes_leave, refusal, refusals, replayed_is, replayed_with_a_null_is, room_is_made,
    rows_are_added, rows_are_given, rows_are_read, rows_are_taken, set_is_unchecked, share_is,
    slots_are_joined, taken_is, three, three_are_built_again, unchecked_parts_are, valid_end_is,
};
use column_base::{
    ArrowDataType, Cause, IntervalUnit, PrimitiveType, TimeUnit, days_ms, months_days_ns,
};
use column_checks::{Flags, Half};
use std::test::Fail;

#[test]
fn the_first_refusal_is_told(rt: HostRuntime) -> Result<(), Fail> {
    let (own, other) = (ArrowDataType::Date32, ArrowDataType::Int64);
    let length = Some(Cause::ValidityLength.into());
    let dtype = Some(Cause::WrongDataType.into());
    let one: Flags<'_> = Some(&[true]);
    assert!(rt; refusal(rt.alloc(), own, None).is_none());
    assert!(rt; refusal(rt.alloc(), own, one) == length);
    assert!(rt; refusal(rt.alloc(), other, one) == length);
    assert!(rt; refusal(rt.alloc(), other, None) == dtype);
    assert!(rt; refusals(rt.alloc(), other, one)? && refusals(rt.alloc(), other, None)?);
    Ok(())
}

#[test]
fn an_array_is_read(rt: HostRuntime) -> Result<(), Fail> {
    assert!(rt; four_is_read(&four(rt.alloc())?));
    assert!(rt; four_is_gone_over(&four(rt.alloc())?));
    assert!(rt; four_ends_are(&four(rt.alloc())?));
    assert!(rt; four_is_consumed(four(rt.alloc())?));
    assert!(rt; share_is(rt.alloc())?);
    Ok(())
}

#[test]
fn an_array_is_cut(rt: HostRuntime) -> Result<(), Fail> {
    let front: Flags<'_> = Some(&[true, false]);
    assert!(rt; middle_is(four(rt.alloc())?));
    assert!(rt; valid_end_is(four(rt.alloc())?));
    assert!(rt; half_is(rt.alloc(), Half::Front, &[7, -2], front)?);
    assert!(rt; half_is(rt.alloc(), Half::Back, &[0, 9], None)?);
    Ok(())
}

#[test]
fn an_array_is_made(rt: HostRuntime) -> Result<(), Fail> {
    assert!(rt; filled_is(rt.alloc(), four(rt.alloc())?)?);
    assert!(rt; empty_is(rt.alloc())?);
    assert!(rt; nulls_are(rt.alloc())?);
    assert!(rt; array_of_slice_of_rows_is(rt.alloc())?);
    assert!(rt; array_of_rows_is(rt.alloc())?);
    assert!(rt; array_of_trusted_rows_is(rt.alloc())?);
    assert!(rt; array_of_values_is(rt.alloc())?);
    assert!(rt; array_of_vec_is(rt.alloc())?);
    assert!(rt; array_of_slice_is(rt.alloc())?);
    Ok(())
}

#[test]
fn a_builder_grows(rt: HostRuntime) -> Result<(), Fail> {
    assert!(rt; pushes_leave(rt.alloc())?);
    assert!(rt; pops_give(rt.alloc())?);
    assert!(rt; constants_leave(rt.alloc())?);
    assert!(rt; both_are(rt.alloc())?);
    assert!(rt; rows_are_added(rt.alloc())?);
    Ok(())
}

#[test]
fn a_builder_is_changed(rt: HostRuntime) -> Result<(), Fail> {
    assert!(rt; numbers_are_changed(rt.alloc())?);
    assert!(rt; cleared_is(rt.alloc())?);
    assert!(rt; equal_by_rows(rt.alloc())?);
    Ok(())
}

#[test]
fn a_builder_and_an_array_are_made_of_each_other(rt: HostRuntime) -> Result<(), Fail> {
    assert!(rt; frozen_for_a_while_is(rt.alloc())?);
    assert!(rt; frozen_without_nulls_is(rt.alloc())?);
    assert!(rt; mutable_is(rt.alloc(), four(rt.alloc())?)?);
    Ok(())
}

#[test]
fn signed_numbers_stay(rt: HostRuntime) -> Result<(), Fail> {
    assert!(rt; numbers_stay::<i8>(rt.alloc(), &[i8::MIN, 0, -1, i8::MAX])?);
    assert!(rt; numbers_stay::<i16>(rt.alloc(), &[i16::MIN, 0, -1, i16::MAX])?);
    assert!(rt; numbers_stay::<i32>(rt.alloc(), &[i32::MIN, 0, -1, i32::MAX])?);
    assert!(rt; numbers_stay::<i64>(rt.alloc(), &[i64::MIN, 0, -1, i64::MAX])?);
    assert!(rt; numbers_stay::<i128>(rt.alloc(), &[i128::MIN, 0, -1, i128::MAX])?);
    Ok(())
}

#[test]
fn unsigned_numbers_and_intervals_stay(rt: HostRuntime) -> Result<(), Fail> {
    assert!(rt; numbers_stay::<u8>(rt.alloc(), &[0, 1, u8::MAX])?);
    assert!(rt; numbers_stay::<u16>(rt.alloc(), &[0, 1, u16::MAX])?);
    assert!(rt; numbers_stay::<u32>(rt.alloc(), &[0, 1, u32::MAX])?);
    assert!(rt; numbers_stay::<u64>(rt.alloc(), &[0, 1, u64::MAX])?);
    assert!(rt;
        numbers_stay(
            rt.alloc(),
            &[days_ms::new(i32::MIN, i32::MAX), days_ms::new(0, -1)]
        )?
    );
    assert!(rt; numbers_stay(rt.alloc(), &[months_days_ns::new(i32::MIN, -1, i64::MAX)])?);
    Ok(())
}

#[test]
fn the_default_types_are(rt: HostRuntime) {
    assert!(rt; is_default::<i8>(ArrowDataType::Int8) && is_default::<i16>(ArrowDataType::Int16));
    assert!(rt; is_default::<i32>(ArrowDataType::Int32) && is_default::<i64>(ArrowDataType::Int64));
    assert!(rt; is_default::<i128>(ArrowDataType::Int128));
    assert!(rt; is_default::<u8>(ArrowDataType::UInt8) && is_default::<u16>(ArrowDataType::UInt16));
    assert!(rt;
        is_default::<u32>(ArrowDataType::UInt32) && is_default::<u64>(ArrowDataType::UInt64)
    );
    assert!(rt; is_default::<days_ms>(ArrowDataType::Interval(IntervalUnit::DayTime)));
    assert!(rt; is_default::<months_days_ns>(ArrowDataType::Interval(IntervalUnit::MonthDayNano)));
}

#[test]
fn the_physical_types_are(rt: HostRuntime) {
    let table: [(ArrowDataType, Option<PrimitiveType>); 28] = [
        (ArrowDataType::Boolean, None),
        (ArrowDataType::Int8, Some(PrimitiveType::Int8)),
        (ArrowDataType::Int16, Some(PrimitiveType::Int16)),
        (ArrowDataType::Int32, Some(PrimitiveType::Int32)),
        (ArrowDataType::Int64, Some(PrimitiveType::Int64)),
        (ArrowDataType::Int128, Some(PrimitiveType::Int128)),
        (ArrowDataType::UInt8, Some(PrimitiveType::UInt8)),
        (ArrowDataType::UInt16, Some(PrimitiveType::UInt16)),
        (ArrowDataType::UInt32, Some(PrimitiveType::UInt32)),
        (ArrowDataType::UInt64, Some(PrimitiveType::UInt64)),
        (
            ArrowDataType::Timestamp(TimeUnit::Second),
            Some(PrimitiveType::Int64),
        ),
        (ArrowDataType::Date32, Some(PrimitiveType::Int32)),
        (ArrowDataType::Date64, Some(PrimitiveType::Int64)),
        (
            ArrowDataType::Time32(TimeUnit::Millisecond),
            Some(PrimitiveType::Int32),
        ),
        (
            ArrowDataType::Time64(TimeUnit::Microsecond),
            Some(PrimitiveType::Int64),
        ),
        (
            ArrowDataType::Duration(TimeUnit::Nanosecond),
            Some(PrimitiveType::Int64),
        ),
        (
            ArrowDataType::Interval(IntervalUnit::YearMonth),
            Some(PrimitiveType::Int32),
        ),
        (
            ArrowDataType::Interval(IntervalUnit::DayTime),
            Some(PrimitiveType::DaysMs),
        ),
        (
            ArrowDataType::Interval(IntervalUnit::MonthDayNano),
            Some(PrimitiveType::MonthDayNano),
        ),
        (ArrowDataType::Binary, None),
        (ArrowDataType::LargeBinary, None),
        (ArrowDataType::FixedSizeBinary(8), None),
        (ArrowDataType::Utf8, None),
        (ArrowDataType::LargeUtf8, None),
        (ArrowDataType::BinaryView, None),
        (ArrowDataType::Utf8View, None),
        (ArrowDataType::Decimal(5, 2), Some(PrimitiveType::Int128)),
        (ArrowDataType::Unknown, None),
    ];
    for (dtype, wanted) in table {
        assert!(rt; is_laid_out_as(dtype, wanted), "{dtype:?}");
    }
}

#[test]
fn bytes_stay(rt: HostRuntime) -> Result<(), Fail> {
    let alloc = rt.alloc();
    assert!(rt; bytes_stay_8(alloc)? && bytes_are_signed_8(alloc)?);
    assert!(rt; bytes_stay_16(alloc)? && bytes_are_signed_16(alloc)?);
    assert!(rt; bytes_stay_32(alloc)? && bytes_are_signed_32(alloc)?);
    assert!(rt; bytes_stay_64(alloc)? && bytes_are_signed_64(alloc)?);
    Ok(())
}

#[test]
fn an_array_is_taken_apart(rt: HostRuntime) -> Result<(), Fail> {
    let alloc = rt.alloc();
    assert!(rt; new_is(alloc)? && four_are_again(alloc)?);
    assert!(rt; meaning_is_other(alloc)? && unchecked_parts_are(alloc)?);
    assert!(rt; numbers_are_other(alloc, true)? && numbers_are_other(alloc, false)?);
    Ok(())
}

#[test]
fn flags_are_changed(rt: HostRuntime) -> Result<(), Fail> {
    let alloc = rt.alloc();
    let last: Flags<'_> = Some(&[true, true, true, false]);
    assert!(rt; flags_are_other(alloc, last, true)? && flags_are_other(alloc, None, false)?);
    assert!(rt; flags_are_other(alloc, last, false)? && flags_are_other(alloc, None, true)?);
    assert!(rt; !flags_are_other(alloc, Some(&[true]), true)?);
    assert!(rt; taken_is(alloc)? && applied_is(alloc)?);
    Ok(())
}

#[test]
fn rows_of_an_iterator_are_taken(rt: HostRuntime) -> Result<(), Fail> {
    for call in [
        Rows::Iter,
        Rows::TryExtend,
        Rows::Trusted,
        Rows::TrustedUnchecked,
    ] {
        assert!(rt; builder_of_rows_is(rt.alloc(), call)?, "{call:?}");
        assert!(rt; builder_takes_rows(rt.alloc(), call)?, "{call:?}");
    }
    assert!(rt; array_of_trusted_is(rt.alloc())?);
    Ok(())
}

#[test]
fn numbers_of_an_iterator_are_taken(rt: HostRuntime) -> Result<(), Fail> {
    for call in [Numbers::Trusted, Numbers::TrustedUnchecked] {
        assert!(rt; builder_of_numbers_is(rt.alloc(), call)?, "{call:?}");
        assert!(rt; array_of_numbers_is(rt.alloc(), call)?, "{call:?}");
    }
    Ok(())
}

#[test]
fn the_first_error_among_rows_is_told(rt: HostRuntime) {
    for at in 0..4 {
        assert!(rt; builder_of_fallible_is(rt.alloc(), at, false), "{at}");
        assert!(rt; builder_of_fallible_is(rt.alloc(), at, true), "{at}");
    }
}

#[test]
fn a_builder_is_read(rt: HostRuntime) -> Result<(), Fail> {
    let builder = three(rt.alloc())?;
    assert!(rt; rows_are_read(&builder) && rows_are_given(&builder));
    assert!(rt; three_are_built_again(rt.alloc())? && room_is_made(rt.alloc())?);
    assert!(rt; empty_builders_are(rt.alloc())?);
    Ok(())
}

#[test]
fn a_builder_takes_other_parts(rt: HostRuntime) -> Result<(), Fail> {
    let alloc = rt.alloc();
    assert!(rt; set_is_unchecked(alloc)? && builder_takes_numbers(alloc)?);
    assert!(rt; builder_takes_flags(alloc, &[false, true])?);
    assert!(rt; !builder_takes_flags(alloc, &[true])?);
    assert!(rt; flags_are_turned(alloc)? && flags_of_a_null_are_turned(alloc)?);
    Ok(())
}

#[test]
fn a_builder_is_asked_through_its_bounds(rt: HostRuntime) -> Result<(), Fail> {
    let alloc = rt.alloc();
    assert!(rt; builder_is_asked(alloc)? && rows_are_taken(alloc)?);
    assert!(rt; numbers_are_taken(alloc)? && slots_are_joined(alloc)?);
    assert!(rt; replayed_is(alloc)? && replayed_with_a_null_is(alloc)?);
    Ok(())
}
