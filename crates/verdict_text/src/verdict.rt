use axe_io::{Input, Spent};
use axe_words::WordsError;
use class_file::{ClassError, MethodId};
use jvm_run::ShapeError;
use jvm_state::{End, Reason};
use spec_form::SpecError;
use spec_meaning::{Value, Why};

/// Why a job is refused.
#[derive(Debug, Drop)]
pub enum Refusal {
    /// The words mean no job.
    Words(WordsError),
    /// The class has more than 1,048,576 bytes.
    ClassLong,
    /// The bytes are no class.
    Class(ClassError),
    /// So many static methods with Code have the name and, where one is given, the descriptor; it isn't one.
    Method {
        count: u32,
    },
    /// The specification has more than 1,048,576 bytes.
    SpecLong,
    /// The bytes are no specification.
    Spec(SpecError),
    /// No function has the name.
    Function,
    /// The method's descriptor, the sizes and the observed place don't go together.
    Shape(ShapeError),
    /// The function has another number of formals than the method has parameters.
    Formals {
        formals: u32,
        parameters: u64,
    },
    /// On this input the run is refused at this place.
    Instruction {
        reason: Reason,
        method: MethodId,
        pc: u32,
        input: Input,
    },
    /// On this input the form at this offset has no value.
    Form {
        reason: Why,
        at: u32,
        input: Input,
    },
}

/// What is answered to a job.
#[derive(Debug, Drop)]
pub enum Verdict {
    /// Method and function give the same result on every input, of so many bits.
    Equal {
        bits: u64,
    },
    /// On this input they don't, with what both give there.
    Different {
        input: Input,
        method: End,
        spec: Value,
    },
    /// A budget was spent.
    Unknown(Spent),
    /// The inputs have more bits than are tried one by one.
    UnknownCases {
        limit: u32,
    },
    /// The job is refused.
    Refused(Refusal),
}
