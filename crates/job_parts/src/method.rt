ghost use Rattle.std.specs.Prelude.{◌≡◌, ◌≤◌, ◌<◌, ℕ, length, Some, IfOk};
ghost use Rattle.job_parts.specs.Parts.{Gives, meant};
ghost use Rattle.job_parts.specs.Stages.{class_given, method_in, method_stage};

use crate::parts::{Asked, Stop};
use class_file::{ClassError, ClassFile, MethodId};
use class_reader::read_class;
use std::alloc::Global;
use verdict_text::Refusal;

/// The class of some bytes.
fn class_of(alloc: Global, bytes: &[u8]) -> Result<ClassFile, Stop>
    requires { length bytes.now ≤ 1048576 }
    ensures { Gives (λ c. c) result (class_given (Some bytes.now)) }
{
    match read_class(alloc, bytes) {
        Ok(class) => Ok(class),
        Err(ClassError::Memory) => Err(Stop::Memory),
        Err(error) => Err(Stop::Refused(Refusal::Class(error))),
    }
}

/// The one static method with Code of the name and, where one is given, of the descriptor.
fn method_in(asked: &Asked<'_>, class: &ClassFile) -> Result<MethodId, Stop>
    ensures method { Gives (λ m. (class.now, m)) result (method_in (meant asked.now) class.now) }
    ensures within { IfOk result (λ m. m.0 < length class.now.methods) }
{
    let desc = asked.desc.map(|desc| desc.as_bytes());
    let found = class.find(asked.method.as_bytes(), desc);
    if found.count != 1 {
        return Err(Stop::Refused(Refusal::Method { count: found.count }));
    }
    match found.first {
        Some(method) => Ok(method),
        None => Err(Stop::Refused(Refusal::Method { count: found.count })),
    }
}

/// The class of some bytes, and its one method that the job names.
#[tactic(auto, unfolding(crate::specs::Stages::method_stage))]
pub fn method_of(
    alloc: Global,
    asked: &Asked<'_>,
    bytes: &[u8],
) -> Result<(ClassFile, MethodId), Stop>
    requires { length bytes.now ≤ 1048576 }
    ensures method { Gives (λ cm. cm) result (method_stage (meant asked.now) (Some bytes.now)) }
    ensures within { IfOk result (λ cm. cm.1.0 < length cm.0.methods) }
{
    let class = class_of(alloc, bytes)?;
    let method = method_in(asked, &class)?;
    Ok((class, method))
}
