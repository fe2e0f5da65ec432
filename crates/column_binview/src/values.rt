//! The values of slots, by their place.

ghost use Rattle.std.specs.Prelude.{◌≡◌, ◌^◌, ◌<◌, length, option_map};
ghost use Rattle.column_base.specs.Slots.{slot_at, row_of};
ghost use Rattle.column_base.specs.Utf8.{CanHold};
ghost use Rattle.column_binview.specs.Slots.{view_slots, view_count};

use crate::array::BinaryViewArrayGeneric;
use column_base::{ViewKind, ViewType};

impl<K: ViewKind> BinaryViewArrayGeneric<K> {
    /// The bytes of slot `i`; a null slot has bytes too. In constant time.
    pub fn value_bytes(&self, i: usize) -> &[u8]
        requires { i < view_count self.now }
        ensures bytes { result.now ≡ (slot_at (view_slots self.now) i).bytes }
        ensures held { CanHold K.IS_UTF8 result.now }
        ensures fits { length result.now < 2 ^ 32 }
    {
        self.known();
        let views = self.views().as_slice();
        let view = &views[i];
        let _length = view.length();
        view.get_slice_unchecked(self.data_buffers())
    }
}

impl<'a, K: ViewType<'a>> BinaryViewArrayGeneric<K> {
    /// The value of slot `i`; a null slot has a value too.
    pub fn value(&'a self, i: usize) -> K::Item
        requires { i < view_count self.now }
        ensures { K.item_bytes result ≡ (slot_at (view_slots self.now) i).bytes }
    {
        K::from_bytes_unchecked(self.value_bytes(i))
    }

    /// The same as [`BinaryViewArrayGeneric::value`].
    pub fn value_unchecked(&'a self, i: usize) -> K::Item
        requires { i < view_count self.now }
        ensures { K.item_bytes result ≡ (slot_at (view_slots self.now) i).bytes }
    {
        self.value(i)
    }

    /// The value of slot `i`, or None where it is null.
    pub fn get(&'a self, i: usize) -> Option<K::Item>
        requires { i < view_count self.now }
        ensures { option_map K.item_bytes result ≡ row_of (slot_at (view_slots self.now) i) }
    {
        if self.is_valid(i) {
            Some(self.value(i))
        } else {
            None
        }
    }
}
