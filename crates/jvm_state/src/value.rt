ghost use Rattle.std.specs.Prelude.{◌≡◌, ◌≤◌};
ghost use Rattle.jvm_state.specs.Values.{slots_of, sort_of};

use crate::sorts::Sort;
use class_file::MethodId;
use sqlite_items::Items;

/// A value of a local variable or an operand (JVM Specification SE 8, section 2.6). A run has numbers for ints and
/// longs; other types may stand in their place, as nodes of a graph.
#[derive(Clone, Copy, Debug, PartialEq, Eq)]
pub enum Value<I = u32, L = u64> {
    /// An int; a run's is a number below 2^32.
    Int(I),
    /// A long, which takes two slots; a run's is a number below 2^64.
    Long(L),
    /// The null reference.
    Null,
    /// A reference to the array of this number.
    Array(u32),
}

impl<I: Copy, L: Copy> Value<I, L> {
    /// Whether it is an int, a long, or a reference.
    pub fn sort(self) -> Sort
        ensures { result ≡ sort_of self }
    {
        match self {
            Value::Int(_) => Sort::Int,
            Value::Long(_) => Sort::Long,
            Value::Null | Value::Array(_) => Sort::Reference,
        }
    }

    /// How many slots it takes on an operand stack.
    pub fn slots(self) -> u32
        ensures value { result ≡ slots_of self }
        ensures few { result ≤ 2 }
    {
        match self {
            Value::Long(_) => 2,
            Value::Int(_) | Value::Null | Value::Array(_) => 1,
        }
    }
}

/// What a run may throw.
#[derive(Clone, Copy, Debug, PartialEq, Eq)]
pub enum Throw {
    /// A null array.
    NullPointer,
    /// An index outside an array.
    ArrayIndex,
    /// A negative length.
    NegativeSize,
    /// A divisor of 0.
    Arithmetic,
}

/// Why a run is refused.
#[derive(Clone, Copy, Debug, PartialEq, Eq)]
pub enum Reason {
    /// An opcode that the profile leaves out, or one whose operand it leaves out.
    OutsideProfile { op: u8 },
    /// An operand of the wrong sort, or none.
    WrongOperand,
    /// A place outside the code, the locals or the stack.
    BadCode,
    /// A throw that the method handles.
    Handler,
    /// A method that isn't known.
    UnknownCallee,
    /// A field that isn't known.
    UnknownField,
    /// A throw in the class's initialiser.
    InitThrew { kind: Throw },
}

/// The observed result of a run.
#[derive(Debug, Drop)]
pub enum Seen<W = u64> {
    /// A number of a width in bits.
    Word(u32, W),
    /// The elements of an array, each of a width in bits.
    Items(u32, Items<W>),
    /// A returned null.
    Null,
}

/// How a run ends.
#[derive(Debug, Drop)]
pub enum End<W = u64> {
    /// The method returns, and this is observed.
    Returned {
        seen: Seen<W>,
    },
    /// An exception is thrown at this place.
    Threw {
        kind: Throw,
        method: MethodId,
        pc: u32,
    },
    /// The run is refused at this place.
    Refused {
        reason: Reason,
        method: MethodId,
        pc: u32,
    },
    /// The run isn't over after as many instructions as it may make.
    MoreSteps,
    /// More method calls would be open than may be.
    MoreFrames,
    /// More array elements would be made than may be.
    MoreElements,
}
