//! Access to the values of an array by their place.

use crate::buffer::Buffer;

/// What contracts see of the values of an array: a list.
pub trait Values {
    ghost use Rattle.std.specs.Prelude.{List};

    /// What contracts see of one value.
    type Shown;

    ghost items: { Self → List Self.Shown };
}

/// An array whose values are reached by their place.
pub trait ArrayAccessor<'a>: Values {
    ghost use Rattle.std.specs.Prelude.{◌≡◌, ◌<◌, length, slice_get, Some};

    /// A value, which may borrow from the array.
    type Item: 'a;

    ghost shown: { Self.Item → Self.Shown };

    /// The value at place `index`.
    fn value_unchecked(&'a self, index: usize) -> Self::Item
        requires { index < length (Self.items self.now) }
        ensures { slice_get (Self.items self.now) index ≡ Some (shown result) };

    /// The number of values.
    fn len(&self) -> usize
        ensures { result ≡ length (Self.items self.now) };
}

impl<T: Copy> Values for Buffer<T> {
    type Shown = T;

    ghost items = { λ buffer. buffer };
}

impl<'a, T: Copy + 'a> ArrayAccessor<'a> for Buffer<T> {
    ghost use Rattle.std.specs.Prelude.{◌≡◌, length};

    type Item = T;

    ghost shown = { λ value. value };

    fn value_unchecked(&'a self, index: usize) -> T {
        self.as_slice()[index]
    }

    fn len(&self) -> usize
        ensures { result ≡ length self.now }
    {
        Buffer::len(self)
    }
}
