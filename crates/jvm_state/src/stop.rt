ghost use Rattle.std.specs.Prelude.{◌≡◌, Err};
ghost use Rattle.jvm_state.specs.declared.stop.Halt.TheVariants.{Memory};
ghost use Rattle.jvm_state.specs.Stops.{check, Gives};

use crate::value::{Reason, Throw};
use class_file::MethodId;
use std::alloc::{AllocError, AllocFailed};

/// Why an instruction doesn't go on.
#[derive(Clone, Copy)]
pub enum Stop {
    /// It is refused where it stands.
    Refused(Reason),
    /// It throws.
    Throws(Throw),
    /// It calls a method that can't begin.
    BadBegin(MethodId),
    /// It would open more frames than may be.
    MoreFrames,
    /// It would make more elements than may be.
    MoreElements,
}

/// A stop, or want of memory.
#[derive(Clone, Copy)]
pub enum Halt {
    Stopped(Stop),
    Memory,
}

impl From<AllocError> for Halt {
    ghost from_gives = { λ _ e. e ≡ Memory };

    fn from(_error: AllocError) -> Halt {
        Halt::Memory
    }
}

impl<T: Drop> From<AllocFailed<T>> for Halt {
    ghost from_gives = { λ _ e. e ≡ Memory };

    fn from(_error: AllocFailed<T>) -> Halt {
        Halt::Memory
    }
}

/// Stops an instruction that is refused.
pub fn refuse<T>(reason: Reason) -> Result<T, Halt>
    ensures { result ≡ Err (Halt.Stopped (Stop.Refused reason)) }
{
    Err(Halt::Stopped(Stop::Refused(reason)))
}

/// A test that has to hold.
pub fn check(holds: bool, stop: Stop) -> Result<(), Halt>
    ensures { Gives (λ x. x) result (check holds stop) }
{
    if holds {
        Ok(())
    } else {
        Err(Halt::Stopped(stop))
    }
}
