ghost use Rattle.std.specs.Prelude.{◌≡◌, ◌↔◌, ◌<◌, length, IsTrue, IfOk};
ghost use Rattle.jvm_meaning.specs.Traces.{trace_from, trace};

use crate::walk::Walk;
use axe_io::{Budgets, Input, Shape};
use class_file::{ClassFile, MethodId};
use jvm_state::{Limits, Site};
use memory::Memory;
use std::alloc::{AllocError, Global};

/// Whether the runs of a method on two inputs make their steps at the same places, within the budgets' steps, frames
/// and elements. Both go side by side, so what this takes doesn't grow with the steps.
pub fn same_trace(
    alloc: Global,
    class: &ClassFile,
    method: MethodId,
    shape: &Shape,
    a: &Input,
    b: &Input,
    budgets: &Budgets,
) -> Result<bool, Memory>
    requires { method.0 < length class.now.methods }
    ensures { IfOk result (λ same. IsTrue same ↔ (
        trace class.now method shape.now a.now budgets.now.steps budgets.now.frames budgets.now.elements
        ≡ trace class.now method shape.now b.now budgets.now.steps budgets.now.frames budgets.now.elements)) }
{
    same_trace_within(alloc, class, method, shape, a, b, budgets.steps, budgets)
}

/// The same within a number of steps in place of the budgets' steps.
#[tactic(auto, unfolding(jvm_meaning::specs::Traces::trace))]
pub fn same_trace_within(
    alloc: Global,
    class: &ClassFile,
    method: MethodId,
    shape: &Shape,
    a: &Input,
    b: &Input,
    steps: u64,
    budgets: &Budgets,
) -> Result<bool, Memory>
    requires { method.0 < length class.now.methods }
    ensures { IfOk result (λ same. IsTrue same ↔ (
        trace class.now method shape.now a.now steps budgets.now.frames budgets.now.elements
        ≡ trace class.now method shape.now b.now steps budgets.now.frames budgets.now.elements)) }
{
    let limits = Limits {
        frames: budgets.frames,
        elements: budgets.elements,
    };
    let mut one = Walk::begin(alloc, class, method, shape, a.leaves())?;
    let mut other = Walk::begin(alloc, class, method, shape, b.leaves())?;
    let same = same_steps(alloc, steps, class, shape, limits, &mut one, &mut other)?;
    Ok(same)
}

/// Whether two runs go on alike for so many steps.
fn same_steps(
    alloc: Global,
    steps: u64,
    class: &ClassFile,
    shape: &Shape,
    limits: Limits,
    one: &mut Walk,
    other: &mut Walk,
) -> Result<bool, AllocError>
    ensures { IfOk result (λ same. IsTrue same ↔ (
        trace_from steps class.now shape.now limits one.old ≡ trace_from steps class.now shape.now limits other.old)) }
{
    for _ in 0..steps {
        let here = one.place();
        if !is_same_place(here, other.place()) {
            return Ok(false);
        }
        if here.is_none() {
            return Ok(true);
        }
        one.go_on(alloc, class, shape, limits)?;
        other.go_on(alloc, class, shape, limits)?;
    }
    Ok(true)
}

/// Whether two runs are at one place of the code, or both are over.
fn is_same_place(one: Option<Site>, other: Option<Site>) -> bool
    ensures { IsTrue result ↔ (one ≡ other) }
{
    one == other
}
