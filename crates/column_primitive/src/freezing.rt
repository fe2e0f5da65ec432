//! A builder as an array, for as long as a closure looks at it. The call stands at each type of numbers.

ghost use Rattle.std.specs.Prelude.{◌≡◌, None, OnErr};
ghost use Rattle.std.specs.Fn.{FnOnceReturnsAt};
ghost use Rattle.column_base.specs.Answers.{Answers};
ghost use Rattle.column_primitive.specs.Rows.{no_numbers, frozen_array};

use crate::array::PrimitiveArray;
use crate::builder::MutablePrimitiveArray;
use column_base::{PolarsError, days_ms, months_days_ns};

impl MutablePrimitiveArray<i64> {
    /// What `f` makes of the array of these slots, which are the builder's again then. A validity without a null is
    /// dropped. Where `f` keeps a share of the array, its numbers and flags are copied.
    ///
    /// `NoMemory` where there is none for the counts of owners or for a copy. The builder has no slots then, of the same
    /// data type.
    pub fn with_freeze<X: Drop, F: FnOnce(&PrimitiveArray<i64>) -> X>(
        &mut self,
        f: F,
    ) -> Result<X, PolarsError>
        requires { F.IsAlwaysCallable f }
        ensures answer { Answers result None (λ x. FnOnceReturnsAt F.FnOnce f (frozen_array self.old.array) x × (self.new.array ≡ frozen_array self.old.array)) }
        ensures emptied { OnErr result (self.new.array ≡ no_numbers self.old.array.dtype) }
    {
        let array = self.take_frozen()?;
        let answer = f(&array);
        self.put_back(array)?;
        Ok(answer)
    }
}

impl MutablePrimitiveArray<i8> {
    /// The same as the call of this name at `i64`.
    pub fn with_freeze<X: Drop, F: FnOnce(&PrimitiveArray<i8>) -> X>(
        &mut self,
        f: F,
    ) -> Result<X, PolarsError>
        requires { F.IsAlwaysCallable f }
        ensures answer { Answers result None (λ x. FnOnceReturnsAt F.FnOnce f (frozen_array self.old.array) x × (self.new.array ≡ frozen_array self.old.array)) }
        ensures emptied { OnErr result (self.new.array ≡ no_numbers self.old.array.dtype) }
    {
        let array = self.take_frozen()?;
        let answer = f(&array);
        self.put_back(array)?;
        Ok(answer)
    }
}

impl MutablePrimitiveArray<i16> {
    /// The same as the call of this name at `i64`.
    pub fn with_freeze<X: Drop, F: FnOnce(&PrimitiveArray<i16>) -> X>(
        &mut self,
        f: F,
    ) -> Result<X, PolarsError>
        requires { F.IsAlwaysCallable f }
        ensures answer { Answers result None (λ x. FnOnceReturnsAt F.FnOnce f (frozen_array self.old.array) x × (self.new.array ≡ frozen_array self.old.array)) }
        ensures emptied { OnErr result (self.new.array ≡ no_numbers self.old.array.dtype) }
    {
        let array = self.take_frozen()?;
        let answer = f(&array);
        self.put_back(array)?;
        Ok(answer)
    }
}

impl MutablePrimitiveArray<i32> {
    /// The same as the call of this name at `i64`.
    pub fn with_freeze<X: Drop, F: FnOnce(&PrimitiveArray<i32>) -> X>(
        &mut self,
        f: F,
    ) -> Result<X, PolarsError>
        requires { F.IsAlwaysCallable f }
        ensures answer { Answers result None (λ x. FnOnceReturnsAt F.FnOnce f (frozen_array self.old.array) x × (self.new.array ≡ frozen_array self.old.array)) }
        ensures emptied { OnErr result (self.new.array ≡ no_numbers self.old.array.dtype) }
    {
        let array = self.take_frozen()?;
        let answer = f(&array);
        self.put_back(array)?;
        Ok(answer)
    }
}

impl MutablePrimitiveArray<i128> {
    /// The same as the call of this name at `i64`.
    pub fn with_freeze<X: Drop, F: FnOnce(&PrimitiveArray<i128>) -> X>(
        &mut self,
        f: F,
    ) -> Result<X, PolarsError>
        requires { F.IsAlwaysCallable f }
        ensures answer { Answers result None (λ x. FnOnceReturnsAt F.FnOnce f (frozen_array self.old.array) x × (self.new.array ≡ frozen_array self.old.array)) }
        ensures emptied { OnErr result (self.new.array ≡ no_numbers self.old.array.dtype) }
    {
        let array = self.take_frozen()?;
        let answer = f(&array);
        self.put_back(array)?;
        Ok(answer)
    }
}

impl MutablePrimitiveArray<u8> {
    /// The same as the call of this name at `i64`.
    pub fn with_freeze<X: Drop, F: FnOnce(&PrimitiveArray<u8>) -> X>(
        &mut self,
        f: F,
    ) -> Result<X, PolarsError>
        requires { F.IsAlwaysCallable f }
        ensures answer { Answers result None (λ x. FnOnceReturnsAt F.FnOnce f (frozen_array self.old.array) x × (self.new.array ≡ frozen_array self.old.array)) }
        ensures emptied { OnErr result (self.new.array ≡ no_numbers self.old.array.dtype) }
    {
        let array = self.take_frozen()?;
        let answer = f(&array);
        self.put_back(array)?;
        Ok(answer)
    }
}

impl MutablePrimitiveArray<u16> {
    /// The same as the call of this name at `i64`.
    pub fn with_freeze<X: Drop, F: FnOnce(&PrimitiveArray<u16>) -> X>(
        &mut self,
        f: F,
    ) -> Result<X, PolarsError>
        requires { F.IsAlwaysCallable f }
        ensures answer { Answers result None (λ x. FnOnceReturnsAt F.FnOnce f (frozen_array self.old.array) x × (self.new.array ≡ frozen_array self.old.array)) }
        ensures emptied { OnErr result (self.new.array ≡ no_numbers self.old.array.dtype) }
    {
        let array = self.take_frozen()?;
        let answer = f(&array);
        self.put_back(array)?;
        Ok(answer)
    }
}

impl MutablePrimitiveArray<u32> {
    /// The same as the call of this name at `i64`.
    pub fn with_freeze<X: Drop, F: FnOnce(&PrimitiveArray<u32>) -> X>(
        &mut self,
        f: F,
    ) -> Result<X, PolarsError>
        requires { F.IsAlwaysCallable f }
        ensures answer { Answers result None (λ x. FnOnceReturnsAt F.FnOnce f (frozen_array self.old.array) x × (self.new.array ≡ frozen_array self.old.array)) }
        ensures emptied { OnErr result (self.new.array ≡ no_numbers self.old.array.dtype) }
    {
        let array = self.take_frozen()?;
        let answer = f(&array);
        self.put_back(array)?;
        Ok(answer)
    }
}

impl MutablePrimitiveArray<u64> {
    /// The same as the call of this name at `i64`.
    pub fn with_freeze<X: Drop, F: FnOnce(&PrimitiveArray<u64>) -> X>(
        &mut self,
        f: F,
    ) -> Result<X, PolarsError>
        requires { F.IsAlwaysCallable f }
        ensures answer { Answers result None (λ x. FnOnceReturnsAt F.FnOnce f (frozen_array self.old.array) x × (self.new.array ≡ frozen_array self.old.array)) }
        ensures emptied { OnErr result (self.new.array ≡ no_numbers self.old.array.dtype) }
    {
        let array = self.take_frozen()?;
        let answer = f(&array);
        self.put_back(array)?;
        Ok(answer)
    }
}

impl MutablePrimitiveArray<days_ms> {
    /// The same as the call of this name at `i64`.
    pub fn with_freeze<X: Drop, F: FnOnce(&PrimitiveArray<days_ms>) -> X>(
        &mut self,
        f: F,
    ) -> Result<X, PolarsError>
        requires { F.IsAlwaysCallable f }
        ensures answer { Answers result None (λ x. FnOnceReturnsAt F.FnOnce f (frozen_array self.old.array) x × (self.new.array ≡ frozen_array self.old.array)) }
        ensures emptied { OnErr result (self.new.array ≡ no_numbers self.old.array.dtype) }
    {
        let array = self.take_frozen()?;
        let answer = f(&array);
        self.put_back(array)?;
        Ok(answer)
    }
}

impl MutablePrimitiveArray<months_days_ns> {
    /// The same as the call of this name at `i64`.
    pub fn with_freeze<X: Drop, F: FnOnce(&PrimitiveArray<months_days_ns>) -> X>(
        &mut self,
        f: F,
    ) -> Result<X, PolarsError>
        requires { F.IsAlwaysCallable f }
        ensures answer { Answers result None (λ x. FnOnceReturnsAt F.FnOnce f (frozen_array self.old.array) x × (self.new.array ≡ frozen_array self.old.array)) }
        ensures emptied { OnErr result (self.new.array ≡ no_numbers self.old.array.dtype) }
    {
        let array = self.take_frozen()?;
        let answer = f(&array);
        self.put_back(array)?;
        Ok(answer)
    }
}
