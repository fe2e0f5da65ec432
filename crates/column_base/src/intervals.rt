//! Calendar intervals of several parts.

ghost use Rattle.std.specs.Prelude.{◌≡◌, ℕ, ◌++◌, drop, pos, FitsSigned, refl};
ghost use Rattle.std.specs.Int.{w32, w64};
ghost use Rattle.column_base.specs.declared.datatypes.PrimitiveType.TheVariants.{DaysMs, MonthDayNano};
ghost use Rattle.column_base.specs.Native.{signed_bytes, signed_of};
ghost use Rattle.column_base.specs.NativeLaws.{signed_back, same_two, same_three};

use crate::datatypes::PrimitiveType;
use crate::native::NativeType;

/// Days and milliseconds. Arrow columnar format, "Data Types": an interval of the unit `DayTime`.
///
/// Its bytes are those of the days, and after them those of the milliseconds.
#[allow(non_camel_case_types)]
#[derive(Clone, Copy, Debug, PartialEq, Eq)]
pub struct days_ms {
    days: i32,
    milliseconds: i32,
}

impl days_ms {
    /// So many days and milliseconds.
    pub fn new(days: i32, milliseconds: i32) -> Self
        ensures days { result.days ≡ days }
        ensures milliseconds { result.milliseconds ≡ milliseconds }
    {
        days_ms { days, milliseconds }
    }

    /// The days.
    pub fn days(&self) -> i32
        ensures { result ≡ self.now.days }
    {
        self.days
    }

    /// The milliseconds.
    pub fn milliseconds(&self) -> i32
        ensures { result ≡ self.now.milliseconds }
    {
        self.milliseconds
    }
}

impl NativeType for days_ms {
    ghost PRIMITIVE = { DaysMs };

    ghost SIZE = { 8 };

    ghost is_value = { λ x. FitsSigned w32 x.days × FitsSigned w32 x.milliseconds };

    ghost zero_value = { record { days = pos 0; milliseconds = pos 0 } };

    ghost le_bytes = { λ x. signed_bytes w32 x.days ++ signed_bytes w32 x.milliseconds };

    ghost of_le16 = { λ bytes. record { days = signed_of w32 bytes; milliseconds = signed_of w32 (drop 4 bytes) } };

    ghost sized = { λ x. refl };

    ghost back = { λ x fits i. record { days = signed_back w32 x.days fits.0 i; milliseconds = signed_back w32 x.milliseconds fits.1 i } };

    ghost same = { λ x y e. let parts = same_two _ _ _ _ e in λ i. record { days = parts.0 i; milliseconds = parts.1 i } };

    const PRIMITIVE: PrimitiveType = PrimitiveType::DaysMs;

    const SIZE: usize = 8;

    fn zero() -> days_ms {
        days_ms::new(0, 0)
    }

    fn to_le16(self) -> [u8; 16] {
        let [a, b, c, d] = self.days.to_le_bytes();
        let [e, f, g, h] = self.milliseconds.to_le_bytes();
        [a, b, c, d, e, f, g, h, 0, 0, 0, 0, 0, 0, 0, 0]
    }

    fn from_le16(bytes: [u8; 16]) -> days_ms {
        let days = i32::from_le_bytes([bytes[0], bytes[1], bytes[2], bytes[3]]);
        let milliseconds = i32::from_le_bytes([bytes[4], bytes[5], bytes[6], bytes[7]]);
        days_ms::new(days, milliseconds)
    }

    fn known(self) {}
}

/// Months, days and nanoseconds. Arrow columnar format, "Data Types": an interval of the unit `MonthDayNano`.
///
/// Its bytes are those of the months, of the days and of the nanoseconds, one after another.
#[allow(non_camel_case_types)]
#[derive(Clone, Copy, Debug, PartialEq, Eq)]
pub struct months_days_ns {
    months: i32,
    days: i32,
    ns: i64,
}

impl months_days_ns {
    /// So many months, days and nanoseconds.
    pub fn new(months: i32, days: i32, ns: i64) -> Self
        ensures months { result.months ≡ months }
        ensures days { result.days ≡ days }
        ensures ns { result.ns ≡ ns }
    {
        months_days_ns { months, days, ns }
    }

    /// The months.
    pub fn months(&self) -> i32
        ensures { result ≡ self.now.months }
    {
        self.months
    }

    /// The days.
    pub fn days(&self) -> i32
        ensures { result ≡ self.now.days }
    {
        self.days
    }

    /// The nanoseconds.
    pub fn ns(&self) -> i64
        ensures { result ≡ self.now.ns }
    {
        self.ns
    }
}

impl NativeType for months_days_ns {
    ghost PRIMITIVE = { MonthDayNano };

    ghost SIZE = { 16 };

    ghost is_value = { λ x. FitsSigned w32 x.months × FitsSigned w32 x.days × FitsSigned w64 x.ns };

    ghost zero_value = { record { months = pos 0; days = pos 0; ns = pos 0 } };

    ghost le_bytes = { λ x. signed_bytes w32 x.months ++ signed_bytes w32 x.days ++ signed_bytes w64 x.ns };

    ghost of_le16 = { λ bytes. record { months = signed_of w32 bytes; days = signed_of w32 (drop 4 bytes); ns = signed_of w64 (drop 8 bytes) } };

    ghost sized = { λ x. refl };

    ghost back = { λ x fits i. record { months = signed_back w32 x.months fits.0 i; days = signed_back w32 x.days fits.1 i; ns = signed_back w64 x.ns fits.2 i } };

    ghost same = { λ x y e. let parts = same_three _ _ _ _ _ _ e in λ i. record { months = parts.0 i; days = parts.1 i; ns = parts.2 i } };

    const PRIMITIVE: PrimitiveType = PrimitiveType::MonthDayNano;

    const SIZE: usize = 16;

    fn zero() -> months_days_ns {
        months_days_ns::new(0, 0, 0)
    }

    fn to_le16(self) -> [u8; 16] {
        let [a, b, c, d] = self.months.to_le_bytes();
        let [e, f, g, h] = self.days.to_le_bytes();
        let [i, j, k, l, m, n, o, p] = self.ns.to_le_bytes();
        [a, b, c, d, e, f, g, h, i, j, k, l, m, n, o, p]
    }

    fn from_le16(bytes: [u8; 16]) -> months_days_ns {
        let months = i32::from_le_bytes([bytes[0], bytes[1], bytes[2], bytes[3]]);
        let days = i32::from_le_bytes([bytes[4], bytes[5], bytes[6], bytes[7]]);
        months_days_ns::new(months, days, last_eight(bytes))
    }

    fn known(self) {}
}

fn last_eight(bytes: [u8; 16]) -> i64
    ensures { result ≡ signed_of w64 (drop 8 bytes) }
{
    i64::from_le_bytes([
        bytes[8], bytes[9], bytes[10], bytes[11], bytes[12], bytes[13], bytes[14], bytes[15],
    ])
}
