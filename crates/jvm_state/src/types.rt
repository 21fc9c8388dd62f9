ghost use Rattle.std.specs.Prelude.{◌≡◌};
ghost use Rattle.jvm_state.specs.ArrayTypes.{is_same_kind, is_same_type, inner_type};

use axe_io::Kind;

/// A type of arrays (JVM Specification SE 8, section 4.3.2): so many brackets before a kind.
#[derive(Clone, Copy)]
pub struct ArrayType {
    /// How many brackets there are, 1 or more.
    pub depth: u8,
    pub kind: Kind,
}

impl ArrayType {
    /// Whether two types are the same.
    pub fn is(self, other: ArrayType) -> bool
        ensures { result ≡ is_same_type self other }
    {
        self.depth == other.depth && is_same_kind(self.kind, other.kind)
    }

    /// The type of the elements.
    pub fn inner(self) -> FieldType
        ensures { result ≡ inner_type self }
    {
        if self.depth <= 1 {
            return FieldType::Scalar(self.kind);
        }
        FieldType::Array(ArrayType {
            depth: self.depth - 1,
            kind: self.kind,
        })
    }
}

/// The type of a field, a parameter, a result or an element, as far as the profile goes.
#[derive(Clone, Copy)]
pub enum FieldType {
    /// A number of a kind.
    Scalar(Kind),
    /// An array.
    Array(ArrayType),
}

/// Whether two kinds are the same.
pub fn is_same_kind(first: Kind, second: Kind) -> bool
    ensures { result ≡ is_same_kind first second }
{
    matches!(
        (first, second),
        (Kind::Byte, Kind::Byte)
            | (Kind::Char, Kind::Char)
            | (Kind::Short, Kind::Short)
            | (Kind::Int, Kind::Int)
            | (Kind::Long, Kind::Long)
    )
}
