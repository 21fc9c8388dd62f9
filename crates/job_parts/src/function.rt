ghost use Rattle.std.specs.Prelude.{◌≤◌, ◌<◌, ℕ, length, Some, IfOk, slice_get};
ghost use Rattle.job_parts.specs.Parts.{Gives, HasFewSizes, meant, parts};
ghost use Rattle.job_parts.specs.Stages.{program_given, function_in, with_formals, shape_in, formals_of, parts_stage};

use crate::parts::{Asked, Parts, Stop};
use axe_io::Shape;
use class_file::{ClassFile, MethodId};
use jvm_run::{ShapeError, shape_of};
use spec_form::{FunId, Program, SpecError};
use spec_reader::read_spec;
use std::alloc::Global;
use verdict_text::Refusal;

/// The program of some bytes.
fn program_of(alloc: Global, bytes: &[u8]) -> Result<Program, Stop>
    requires { length bytes.now ≤ 1048576 }
    ensures { Gives (λ p. p) result (program_given (Some bytes.now)) }
{
    match read_spec(alloc, bytes) {
        Ok(program) => Ok(program),
        Err(SpecError::Memory) => Err(Stop::Memory),
        Err(error) => Err(Stop::Refused(Refusal::Spec(error))),
    }
}

/// The function that the job names.
fn function_in(asked: &Asked<'_>, program: &Program) -> Result<FunId, Stop>
    ensures function { Gives (λ f. f) result (function_in (meant asked.now) program.now) }
    ensures within { IfOk result (λ f. f.0 < length program.now.functions) }
{
    match program.function(asked.function.as_bytes()) {
        Some(function) => Ok(function),
        None => Err(Stop::Refused(Refusal::Function)),
    }
}

/// The shape of the method's inputs, where the function has as many formals.
fn shape_in(
    alloc: Global,
    asked: &Asked<'_>,
    class: &ClassFile,
    method: MethodId,
    formals: u32,
) -> Result<Shape, Stop>
    requires method { method.0 < length class.now.methods }
    requires sizes { HasFewSizes (meant asked.now) }
    ensures { Gives (λ s. s) result (shape_in (meant asked.now) class.now method formals) }
{
    match shape_of(alloc, class, method, asked.sizes, asked.out) {
        Ok(shape) => with_formals(shape, formals),
        Err(ShapeError::Memory) => Err(Stop::Memory),
        Err(error) => Err(Stop::Refused(Refusal::Shape(error))),
    }
}

/// The shape, where the function has a formal for each parameter.
fn with_formals(shape: Shape, formals: u32) -> Result<Shape, Stop>
    ensures { Gives (λ s. s) result (with_formals formals shape) }
{
    let parameters = shape.params().len() as u64;
    if u64::from(formals) == parameters {
        Ok(shape)
    } else {
        Err(Stop::Refused(Refusal::Formals {
            formals,
            parameters,
        }))
    }
}

/// The parts of a job whose class and method were found, with the specification of some bytes.
#[tactic(auto, unfolding(crate::specs::Stages::parts_stage))]
pub fn parts_of(
    alloc: Global,
    asked: &Asked<'_>,
    class: ClassFile,
    method: MethodId,
    bytes: &[u8],
) -> Result<Parts, Stop>
    requires method { method.0 < length class.methods }
    requires sizes { HasFewSizes (meant asked.now) }
    requires short { length bytes.now ≤ 1048576 }
    ensures within { IfOk result (λ p. (p.method.0 < length p.class.methods) × (p.function.0 < length p.program.functions)) }
    ensures parts { Gives parts result (parts_stage (meant asked.now) (class, method) (Some bytes.now)) }
{
    let program = program_of(alloc, bytes)?;
    let function = function_in(asked, &program)?;
    let formals = program.formals(function);
    let shape = shape_in(alloc, asked, &class, method, formals)?;
    Ok(Parts {
        class,
        method,
        program,
        function,
        shape,
    })
}
