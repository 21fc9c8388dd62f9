ghost use Rattle.std.specs.Prelude.{◌≡◌};
ghost use Rattle.axe_io.specs.Shapes.{width_of, leaf_count};

/// A kind of integer of the Java virtual machine, as descriptors name them (JVM Specification, section 4.3.2).
#[derive(Clone, Copy, Debug, PartialEq, Eq)]
pub enum Kind {
    /// `B`, signed, of 8 bits.
    Byte,
    /// `C`, unsigned, of 16 bits.
    Char,
    /// `S`, signed, of 16 bits.
    Short,
    /// `I`, signed, of 32 bits.
    Int,
    /// `J`, signed, of 64 bits.
    Long,
}

impl Kind {
    /// Its width in bits.
    pub fn width(self) -> u32
        ensures { result ≡ width_of self }
    {
        match self {
            Kind::Byte => 8,
            Kind::Char => 16,
            Kind::Short => 16,
            Kind::Int => 32,
            Kind::Long => 64,
        }
    }
}

/// A parameter of a method: a number of a kind, or an array of so many of them.
#[derive(Clone, Copy, Debug, PartialEq, Eq)]
pub struct Param {
    /// The kind of the number, or of the elements.
    pub kind: Kind,
    /// The number of elements of an array; None for a number.
    pub len: Option<u32>,
}

impl Param {
    /// How many leaves it has: one for a number, one for each element of an array.
    pub fn leaves(&self) -> u32
        ensures { result ≡ leaf_count self.now }
    {
        self.len.unwrap_or(1)
    }
}

/// Where a run's result is observed.
#[derive(Clone, Copy, Debug, PartialEq, Eq)]
pub enum OutPlace {
    /// In what the method returns.
    Returned,
    /// In the array parameter of this number, counted from 0, after the return.
    Param(u16),
}
