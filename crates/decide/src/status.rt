ghost use Rattle.std.specs.Prelude.{◌≡◌};
ghost use Rattle.decide.specs.Runs.{code_of, status_of, status_without};

use crate::answer::NoAnswer;
use verdict_text::Verdict;

/// What a run of the program ends with.
#[derive(Clone, Copy, Debug, PartialEq, Eq)]
pub enum Status {
    /// Method and function agree on every input.
    Equal,
    /// They don't agree on the printed input.
    Different,
    /// A budget was spent.
    Unknown,
    /// The job is refused.
    Refused,
    /// The store could not read; nothing was written.
    ReadFault,
    /// The sink could not write; the beginning of a verdict's text was written.
    WriteFault,
    /// Want of memory; nothing was written.
    NoMemory,
}

impl Status {
    /// The process's exit status, from 0 to 6 in the order of the variants.
    pub fn code(self) -> u8
        ensures { result ≡ code_of self }
    {
        match self {
            Status::Equal => 0,
            Status::Different => 1,
            Status::Unknown => 2,
            Status::Refused => 3,
            Status::ReadFault => 4,
            Status::WriteFault => 5,
            Status::NoMemory => 6,
        }
    }

    /// The status of a verdict.
    pub fn of(verdict: &Verdict) -> Status
        ensures { result ≡ status_of verdict.now }
    {
        match verdict {
            Verdict::Equal { .. } => Status::Equal,
            Verdict::Different { .. } => Status::Different,
            Verdict::Unknown(_) | Verdict::UnknownCases { .. } => Status::Unknown,
            Verdict::Refused(_) => Status::Refused,
        }
    }

    /// The status where no answer was reached.
    pub fn without(why: NoAnswer) -> Status
        ensures { result ≡ status_without why }
    {
        match why {
            NoAnswer::ReadFault => Status::ReadFault,
            NoAnswer::Memory => Status::NoMemory,
        }
    }
}
