ghost use Rattle.std.specs.Prelude.{◌≡◌, IfOk};
ghost use Rattle.jvm_meaning.specs.Steps.{TakesStep};
ghost use Rattle.jvm_meaning.specs.Machine.{close, leave, give};

use crate::observed::observed;
use crate::statics::narrowed_by;
use axe_io::Shape;
use class_file::ClassFile;
use jvm_meaning::{DEEPEST, desc_of, refused_at, resume, return_type, returned, site_of, start};
use jvm_state::{End, Halt, Reason, Site, Sort, State, Value};
use std::alloc::{AllocError, Global};

/// Closes the last frame: the method that waits for the initialiser begins, or the run returns.
fn close(
    alloc: Global,
    class: &ClassFile,
    shape: &Shape,
    value: Option<Value>,
    state: &mut State,
) -> Result<Option<End>, AllocError>
    ensures { IfOk result (TakesStep (close class.now shape.now value state.old.heap state.old.waiting) state.new) }
{
    match state.waiting.take() {
        Some(waiting) => start(class, waiting.method, waiting.arguments.as_slice(), state),
        None => {
            let seen = observed(alloc, shape, &state.heap.arrays, value)?;
            Ok(Some(End::Returned { seen }))
        }
    }
}

/// Leaves the open frame with a result.
fn leave(
    alloc: Global,
    class: &ClassFile,
    shape: &Shape,
    value: Option<Value>,
    site: Site,
    state: &mut State,
) -> Result<Option<End>, AllocError>
    ensures { IfOk result (TakesStep (leave class.now shape.now value site state.old) state.new) }
{
    match state.callers.pop() {
        Some(caller) => resume(class, value, site, caller, state),
        None => close(alloc, class, shape, value, state),
    }
}

/// ireturn, lreturn, areturn, return.
pub fn give(
    alloc: Global,
    class: &ClassFile,
    shape: &Shape,
    sort: Option<Sort>,
    state: &mut State,
) -> Result<Option<End>, AllocError>
    ensures { IfOk result (TakesStep (give class.now shape.now sort state.old) state.new) }
{
    let site = site_of(&state.frame);
    let found = return_type(DEEPEST, desc_of(class, site.method));
    let arrays = &state.heap.arrays;
    match returned(sort, found, arrays, &mut state.frame.stack) {
        Ok(value) => {
            let value = narrowed_by(found, value);
            leave(alloc, class, shape, value, site, state)
        }
        Err(Halt::Stopped(_)) => Ok(Some(refused_at(Reason::WrongOperand, site))),
        Err(Halt::Memory) => Err(AllocError),
    }
}
