ghost use Rattle.std.specs.Prelude.{◌≡◌, ◌≤◌, ℕ, List, IfOk, MatchResult, vec_len};
ghost use Rattle.axe_io.specs.Ends.{IsContent};
ghost use Rattle.job_parts.specs.Causes.{HasGivenCause, refused_long, stop_of};

use crate::parts::Stop;
use axe_io::{Store, StoreError};
use std::alloc::Global;
use verdict_text::Refusal;

/// The longest class or specification in bytes.
const LONGEST: usize = 1_048_576;

/// A text that a job names.
#[derive(Clone, Copy, Debug, PartialEq, Eq)]
pub enum Named {
    Class,
    Spec,
}

/// The refusal of a text that is too long.
fn too_long(named: Named) -> Refusal
    ensures { result ≡ refused_long named }
{
    match named {
        Named::Class => Refusal::ClassLong,
        Named::Spec => Refusal::SpecLong,
    }
}

/// Why a read that failed stops the job.
fn stop_of(error: StoreError, named: Named) -> Stop
    ensures { result ≡ stop_of error named }
{
    match error {
        StoreError::Failed => Stop::ReadFault,
        StoreError::TooLong { limit: _ } => Stop::Refused(too_long(named)),
        StoreError::Memory => Stop::Memory,
    }
}

/// What stands under a name.
#[tactic(auto, using(crate::proofs::StageExits::read_stops))]
pub fn given<S: Store>(
    alloc: Global,
    name: &str,
    named: Named,
    store: &mut S,
) -> Result<Vec<u8>, Stop>
    ensures content { IfOk result (λ bytes. IsContent (S.holds store.old name.now) bytes.items) }
    ensures within { IfOk result (λ bytes. vec_len bytes ≤ 1048576) }
    ensures cause { MatchResult result
        (λ _. S.faults store.new ≡ S.faults store.old)
        (HasGivenCause (S.holds store.old name.now) named (S.faults store.old) (S.faults store.new)) }
    ensures kept { (other : List ℕ) → S.holds store.new other ≡ S.holds store.old other }
    ensures counts { S.faults store.old ≤ S.faults store.new }
{
    match store.read(alloc, name, LONGEST) {
        Ok(bytes) => Ok(bytes),
        Err(error) => Err(stop_of(error, named)),
    }
}
