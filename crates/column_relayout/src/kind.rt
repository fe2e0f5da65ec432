//! The kinds of columns.

ghost use Rattle.std.specs.Prelude.{◌≡◌};
ghost use Rattle.column_relayout.specs.Kinds.{kind_of, kind_name};

/// A kind of column, by its layout in the Arrow columnar format.
#[derive(Clone, Copy, Debug, PartialEq, Eq)]
pub enum Kind {
    /// Byte strings with offsets of 32 bits: "Variable-size Binary Layout".
    Binary32,
    /// Byte strings with offsets of 64 bits.
    Binary64,
    /// Texts with offsets of 32 bits.
    Utf8_32,
    /// Texts with offsets of 64 bits.
    Utf8_64,
    /// Byte strings by views: "Variable-size Binary View Layout".
    BinView,
    /// Texts by views.
    Utf8View,
    /// Byte strings of this many bytes each: "Fixed-size Primitive Layout".
    Fixed(usize),
    /// Signed numbers of 64 bits.
    Int64,
}

impl Kind {
    /// The word of a document or of a printed column for this kind.
    pub fn name(&self) -> &'static str
        ensures { result.now ≡ kind_name (kind_of self.now) }
    {
        match self {
            Kind::Binary32 => "binary32",
            Kind::Binary64 => "binary64",
            Kind::Utf8_32 => "utf8_32",
            Kind::Utf8_64 => "utf8_64",
            Kind::BinView => "binview",
            Kind::Utf8View => "utf8view",
            Kind::Fixed(_) => "fixed",
            Kind::Int64 => "int64",
        }
    }
}
