ghost use Rattle.std.specs.Prelude.{◌≡◌, ◌≤◌, ◌⊎◌};
ghost use Rattle.jvm_state.specs.Values.{bits_in, is_of, value_of};

use crate::value::Value;

/// The sorts of values that instructions tell apart (JVM Specification SE 8, section 2.11.1).
#[derive(Clone, Copy)]
pub enum Sort {
    Int,
    Long,
    Reference,
}

impl Sort {
    /// Whether a value is of this sort.
    pub fn has<I: Copy, L: Copy>(self, value: Value<I, L>) -> bool
        ensures { result ≡ is_of self value }
    {
        match self {
            Sort::Int => matches!(value, Value::Int(_)),
            Sort::Long => matches!(value, Value::Long(_)),
            Sort::Reference => matches!(value, Value::Null | Value::Array(_)),
        }
    }
}

/// The widths of words that instructions work on.
#[derive(Clone, Copy)]
pub enum Width {
    Int,
    Long,
}

impl Width {
    /// Its bits, 32 or 64.
    pub fn bits(self) -> u32
        ensures bits { result ≡ bits_in self }
        ensures each { (result ≡ 32) ⊎ (result ≡ 64) }
    {
        match self {
            Width::Int => 32,
            Width::Long => 64,
        }
    }
}
