ghost use Rattle.std.specs.Prelude.{◌≡◌, ◌<◌, ℕ, List, IfOk, MatchResult, Ok, Err, length};
ghost use Rattle.job_parts.specs.Parts.{HasFewSizes, meant, parts};
ghost use Rattle.job_parts.specs.Found.{IsFound};
ghost use Rattle.job_parts.specs.Causes.{HasFindCause};

use crate::function::parts_of;
use crate::given::{Named, given};
use crate::method::method_of;
use crate::parts::{Asked, Parts, Stop};
use axe_io::Store;
use std::alloc::Global;

/// Finds the parts of a job: the class is read and parsed, its method is found, the specification is read and
/// parsed, its function is found, and the shape is made; the first stage that fails decides.
pub fn find<S: Store>(alloc: Global, asked: &Asked<'_>, store: &mut S) -> Result<Parts, Stop>
    requires { HasFewSizes (meant asked.now) }
    ensures found { MatchResult result
        (λ p. IsFound (meant asked.now) (S.holds store.old) (Ok (parts p)) × (S.faults store.new ≡ S.faults store.old))
        (HasFindCause (meant asked.now) (S.holds store.old) (S.faults store.old) (S.faults store.new)) }
    ensures within { IfOk result (λ p. (p.method.0 < length p.class.methods) × (p.function.0 < length p.program.functions)) }
{
    let class = given(alloc, asked.class, Named::Class, store)?;
    let (class, method) = method_of(alloc, asked, &class)?;
    let spec = given(alloc, asked.spec, Named::Spec, store)?;
    parts_of(alloc, asked, class, method, &spec)
}
