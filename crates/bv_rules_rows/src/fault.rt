//! What is wrong with a row.

ghost use Rattle.std.specs.Prelude.{◌≡◌};
ghost use Rattle.bv_rules_rows.specs.declared.fault.Fault.TheVariants.{OutOfMemory};

use dag::DagError;
use std::alloc::{AllocError, AllocFailed};
use thiserror::Error;

/// Why a row can't be read.
#[derive(Clone, Copy, Debug, Drop, PartialEq, Eq, Error)]
pub enum Fault {
    /// It isn't a name, a term, a result, a term and a result.
    #[error("a row has five columns")]
    Columns,
    /// A term ends within brackets, or goes on after it.
    #[error("a term is one node")]
    Brackets,
    /// A word is neither a leaf nor a constant, or a number stands where none belongs.
    #[error("an unknown word")]
    Word,
    /// No kind of node has this name, so many numbers and so many children.
    #[error("an unknown operation")]
    Operation,
    /// Brackets stand in one another more often than they may.
    #[error("brackets too deep")]
    Depth,
    /// The widths of a node and its children don't go together.
    #[error("widths that don't fit")]
    Width,
    /// The graph holds as many nodes as it may.
    #[error("too many nodes")]
    Full,
    /// Memory is wanting.
    #[error("out of memory")]
    OutOfMemory,
}

impl From<AllocError> for Fault {
    ghost from_gives = { λ _ e. e ≡ OutOfMemory };

    fn from(_: AllocError) -> Fault {
        Fault::OutOfMemory
    }
}

impl<T: Drop> From<AllocFailed<T>> for Fault {
    ghost from_gives = { λ _ e. e ≡ OutOfMemory };

    fn from(_: AllocFailed<T>) -> Fault {
        Fault::OutOfMemory
    }
}

impl From<DagError> for Fault {
    fn from(error: DagError) -> Fault {
        match error {
            DagError::Full { .. } => Fault::Full,
            DagError::Memory => Fault::OutOfMemory,
        }
    }
}
