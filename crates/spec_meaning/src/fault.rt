ghost use Rattle.std.specs.Prelude.{◌≡◌};
ghost use Rattle.spec_meaning.specs.declared.fault.Fault.TheVariants.{Cause, Memory};

use crate::value::Why;
use std::alloc::{AllocError, AllocFailed};

/// Why something isn't computed: for a cause of its own, or for want of memory.
#[derive(Debug, Drop)]
pub(crate) enum Fault<E> {
    Cause(E),
    Memory,
}

impl<E> From<AllocError> for Fault<E> {
    ghost from_gives = { λ _ fault. fault ≡ Memory };

    fn from(_: AllocError) -> Fault<E> {
        Fault::Memory
    }
}

impl<E, T: Drop> From<AllocFailed<T>> for Fault<E> {
    ghost from_gives = { λ _ fault. fault ≡ Memory };

    fn from(_: AllocFailed<T>) -> Fault<E> {
        Fault::Memory
    }
}

impl From<Why> for Fault<Why> {
    ghost from_gives = { λ why fault. fault ≡ Cause why };

    fn from(why: Why) -> Fault<Why> {
        Fault::Cause(why)
    }
}
