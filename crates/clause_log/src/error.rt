ghost use Rattle.std.specs.Prelude.{◌≡◌};
ghost use Rattle.clause_log.specs.declared.error.LogError.TheVariants.{Memory};

use std::alloc::{AllocError, AllocFailed};
use thiserror::Error;

/// Why a line isn't appended.
#[derive(Debug, Drop, PartialEq, Error)]
pub enum LogError {
    /// The line names a clause that isn't there.
    #[error("there is no clause {id}")]
    NoSuchClause { id: u32 },
    /// There was no memory for the line.
    #[error("out of memory")]
    Memory,
}

impl From<AllocError> for LogError {
    ghost from_gives = { λ _ e. e ≡ Memory };

    fn from(_error: AllocError) -> LogError {
        LogError::Memory
    }
}
