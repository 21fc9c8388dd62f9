ghost use Rattle.std.specs.Prelude.{◌≡◌};
ghost use Rattle.spec_form.specs.declared.error.SpecError.TheVariants.{Memory};

use std::alloc::{AllocError, AllocFailed};
use thiserror::Error;

/// Why bytes are no specification; `at` is the offset of the fault.
#[derive(Clone, Copy, Debug, PartialEq, Eq, Error)]
pub enum SpecError {
    /// A byte or a word that is no token.
    #[error("bad token at {at}")]
    BadToken { at: u32 },
    /// A parenthesis that is never closed.
    #[error("unclosed at {at}")]
    Unclosed { at: u32 },
    /// Something that is no form of the language.
    #[error("bad form at {at}")]
    BadForm { at: u32 },
    /// A name that nothing defines or binds.
    #[error("unbound name at {at}")]
    UnboundName { at: u32 },
    /// A name that is defined or bound twice, or that mustn't be defined.
    #[error("duplicate at {at}")]
    Duplicate { at: u32 },
    /// A parenthesis within 500 others.
    #[error("too deep at {at}")]
    TooDeep { at: u32 },
    /// Want of memory.
    #[error("want of memory")]
    Memory,
}

impl From<AllocError> for SpecError {
    ghost from_gives = { λ _ e. e ≡ Memory };

    fn from(_error: AllocError) -> SpecError {
        SpecError::Memory
    }
}

impl<T: Drop> From<AllocFailed<T>> for SpecError {
    ghost from_gives = { λ _ e. e ≡ Memory };

    fn from(_error: AllocFailed<T>) -> SpecError {
        SpecError::Memory
    }
}
