//! What slots that lie behind views hold: byte strings or texts.

use crate::datatypes::ArrowDataType;
use crate::errors::PolarsError;
use crate::utf8::{is_utf8, str_of, utf8_is_text};
use std::alloc::Global;

/// Byte strings or texts, as the slots of an array of views hold them.
///
/// Arrow columnar format, "Variable-size Binary View Layout" and "Data Types".
pub trait ViewKind {
    ghost use Rattle.std.specs.Prelude.{Bool};
    ghost use Rattle.column_base.specs.declared.datatypes.ArrowDataType.{ArrowDataType};

    ghost IS_UTF8: { Bool };

    ghost DATA_TYPE: { ArrowDataType };

    /// Whether slots hold texts, which are UTF-8.
    const IS_UTF8: bool;

    /// The data type of arrays of this kind.
    const DATA_TYPE: ArrowDataType;
}

/// The values of slots of a kind, which borrow their bytes.
pub trait ViewType<'a>: ViewKind {
    ghost use Rattle.std.specs.Prelude.{◌≡◌, ℕ, List, ◌↔◌, IsSome, IfSome};
    ghost use Rattle.column_base.specs.Utf8.{CanHold};

    /// A value that borrows its bytes.
    type Item: Copy + 'a;

    ghost item_bytes: { Self.Item → List ℕ };

    /// Bytes as a value, or None where the kind holds texts and they are not UTF-8. Takes no memory.
    fn from_bytes(bytes: &'a [u8]) -> Option<Self::Item>
        ensures held { IsSome result ↔ CanHold Self.IS_UTF8 bytes.now }
        ensures same { IfSome result (λ item. item_bytes item ≡ bytes.now) };

    /// Bytes that the kind holds as a value. Takes no memory and no time.
    fn from_bytes_unchecked(bytes: &'a [u8]) -> Self::Item
        requires { CanHold Self.IS_UTF8 bytes.now }
        ensures { item_bytes result ≡ bytes.now };

    /// The bytes of a value. Takes no memory and no time.
    fn to_bytes(item: Self::Item) -> &'a [u8]
        ensures same { result.now ≡ item_bytes item }
        ensures held { CanHold Self.IS_UTF8 result.now };

    /// The data type of arrays of this kind.
    fn dtype() -> ArrowDataType
        ensures { result ≡ Self.DATA_TYPE };
}

/// The values of slots of a kind, and copies of them that own their bytes.
pub trait ViewOwned<'a>: ViewType<'a> {
    ghost use Rattle.std.specs.Prelude.{◌≡◌, ℕ, List, None};
    ghost use Rattle.column_base.specs.Answers.{Answers};

    /// A value that owns its bytes.
    type Owned: Drop;

    ghost owned_bytes: { Self.Owned → List ℕ };

    /// A copy of a value that owns its bytes.
    fn into_owned(alloc: Global, item: Self::Item) -> Result<Self::Owned, PolarsError>
        ensures { Answers result None (λ owned. owned_bytes owned ≡ Self.item_bytes item) };
}

/// Byte strings.
#[derive(Clone, Copy, Debug)]
pub struct BinaryKind;

/// Texts.
#[derive(Clone, Copy, Debug)]
pub struct Utf8Kind;

impl ViewKind for BinaryKind {
    ghost use Rattle.std.specs.Prelude.{false};
    ghost use Rattle.column_base.specs.declared.datatypes.ArrowDataType.TheVariants.{BinaryView};

    ghost IS_UTF8 = { false };

    ghost DATA_TYPE = { BinaryView };

    const IS_UTF8: bool = false;

    const DATA_TYPE: ArrowDataType = ArrowDataType::BinaryView;
}

impl ViewKind for Utf8Kind {
    ghost use Rattle.std.specs.Prelude.{true};
    ghost use Rattle.column_base.specs.declared.datatypes.ArrowDataType.TheVariants.{Utf8View};

    ghost IS_UTF8 = { true };

    ghost DATA_TYPE = { Utf8View };

    const IS_UTF8: bool = true;

    const DATA_TYPE: ArrowDataType = ArrowDataType::Utf8View;
}

impl<'a> ViewType<'a> for BinaryKind {
    ghost use Rattle.std.specs.Prelude.{◌≡◌};
    ghost use Rattle.column_base.specs.declared.datatypes.ArrowDataType.TheVariants.{BinaryView};

    type Item = &'a [u8];

    ghost item_bytes = { λ bytes. bytes.now };

    fn from_bytes(bytes: &'a [u8]) -> Option<&'a [u8]> {
        Some(bytes)
    }

    fn from_bytes_unchecked(bytes: &'a [u8]) -> &'a [u8] {
        bytes
    }

    fn to_bytes(item: &'a [u8]) -> &'a [u8] {
        item
    }

    fn dtype() -> ArrowDataType
        ensures { result ≡ BinaryView }
    {
        ArrowDataType::BinaryView
    }
}

impl<'a> ViewType<'a> for Utf8Kind {
    ghost use Rattle.std.specs.Prelude.{◌≡◌};
    ghost use Rattle.column_base.specs.declared.datatypes.ArrowDataType.TheVariants.{Utf8View};

    type Item = &'a str;

    ghost item_bytes = { λ text. text.now };

    fn from_bytes(bytes: &'a [u8]) -> Option<&'a str> {
        if is_utf8(bytes) {
            Some(str_of(bytes))
        } else {
            None
        }
    }

    fn from_bytes_unchecked(bytes: &'a [u8]) -> &'a str {
        str_of(bytes)
    }

    fn to_bytes(item: &'a str) -> &'a [u8] {
        utf8_is_text();
        item.as_bytes()
    }

    fn dtype() -> ArrowDataType
        ensures { result ≡ Utf8View }
    {
        ArrowDataType::Utf8View
    }
}

impl<'a> ViewOwned<'a> for BinaryKind {
    type Owned = Vec<u8>;

    ghost owned_bytes = { λ bytes. bytes.items };

    fn into_owned(alloc: Global, item: &'a [u8]) -> Result<Vec<u8>, PolarsError> {
        Ok(Vec::from_slice(alloc, item)?)
    }
}

impl<'a> ViewOwned<'a> for Utf8Kind {
    ghost use Rattle.std.specs.String.{string_bytes};

    type Owned = String;

    ghost owned_bytes = { string_bytes };

    fn into_owned(alloc: Global, item: &'a str) -> Result<String, PolarsError> {
        Ok(String::from_str(alloc, item)?)
    }
}
