ghost use Rattle.std.specs.Prelude.{◌≡◌, ◌<◌, length, IfOk, OnOk};
ghost use Rattle.jvm_meaning.specs.Steps.{TakesStep};
ghost use Rattle.jvm_meaning.specs.Runs.{start_heap, initialiser_of, start, start_by, run_from, run_end};

use crate::arguments::{arguments, parameter_arrays};
use crate::statics::start_values;
use crate::step::step;
use axe_io::{Input, Shape};
use class_file::{ClassFile, MethodId};
use jvm_meaning::{initialiser_of, start};
use jvm_state::{End, Heap, Limits, State, Value, Waiting};
use memory::Memory;
use sqlite_items::Items;
use std::alloc::{AllocError, Global};

/// A machine that runs methods, one after another, and keeps its memory between runs.
#[derive(Drop)]
pub struct Machine {
    alloc: Global,
    state: State,
}

impl Machine {
    /// A machine that has run nothing yet, which takes no memory.
    pub fn new(alloc: Global) -> Machine {
        Machine {
            alloc,
            state: State::new(alloc),
        }
    }

    /// The run of a method on an input of its shape, whatever was run before: static fields get their starting
    /// values, the class's initialiser runs, and then the method, with at most `steps` instructions, `frames` open
    /// frames, the first of which is opened in any case, and `elements` elements that `newarray` makes.
    #[tactic(auto, unfolding(jvm_meaning::specs::Runs::run_end))]
    pub fn run(
        &mut self,
        class: &ClassFile,
        method: MethodId,
        shape: &Shape,
        input: &Input,
        steps: u64,
        frames: u32,
        elements: u64,
    ) -> Result<End, Memory>
        requires { method.0 < length class.now.methods }
        ensures { IfOk result (λ end. end ≡ run_end class.now method shape.now input.now steps frames elements) }
    {
        let state = &mut self.state;
        if let Some(end) = begin_run(self.alloc, class, method, shape, input.leaves(), state)? {
            return Ok(end);
        }
        let limits = Limits { frames, elements };
        Ok(run_from(self.alloc, steps, class, shape, limits, state)?)
    }
}

/// Makes a state the first one of a run; the run may end at once.
pub fn begin_run(
    alloc: Global,
    class: &ClassFile,
    method: MethodId,
    shape: &Shape,
    leaves: &[u64],
    state: &mut State,
) -> Result<Option<End>, AllocError>
    ensures { IfOk result (TakesStep (start class.now method shape.now leaves.now) state.new) }
{
    begin_heap(alloc, class, shape, leaves, &mut state.heap)?;
    let values = arguments(alloc, shape.params(), leaves)?;
    begin_method(class, method, values, state)
}

/// Makes the arrays those of the parameters, and the static fields those that a run begins with.
fn begin_heap(
    alloc: Global,
    class: &ClassFile,
    shape: &Shape,
    leaves: &[u64],
    heap: &mut Heap,
) -> Result<(), AllocError>
    ensures { OnOk result (heap.new ≡ start_heap class.now shape.now leaves.now) }
{
    // the leaves are fewer than 2^31, and so each array is shorter
    let _leaves = shape.leaves();
    parameter_arrays(alloc, shape.params(), leaves, &mut heap.arrays)?;
    start_values(class, &mut heap.statics)?;
    heap.made = 0;
    Ok(())
}

/// Begins the initialiser, for which the method waits, or else the method.
fn begin_method(
    class: &ClassFile,
    method: MethodId,
    values: Vec<Value>,
    state: &mut State,
) -> Result<Option<End>, AllocError>
    ensures { IfOk result (TakesStep (start_by class.now method values.items state.old.heap (initialiser_of class.now)) state.new) }
{
    match initialiser_of(class) {
        Some(initialiser) => {
            let arguments = Items::from_vec(values);
            state.waiting = Some(Waiting { method, arguments });
            start(class, initialiser, &[], state)
        }
        None => {
            state.waiting = None;
            start(class, method, values.as_slice(), state)
        }
    }
}

/// The end of at most so many instructions.
fn run_from(
    alloc: Global,
    steps: u64,
    class: &ClassFile,
    shape: &Shape,
    limits: Limits,
    state: &mut State,
) -> Result<End, AllocError>
    ensures { IfOk result (λ end. end ≡ run_from steps class.now shape.now limits state.old) }
{
    for _ in 0..steps {
        if let Some(end) = step(alloc, class, shape, limits, state)? {
            return Ok(end);
        }
    }
    Ok(End::MoreSteps)
}
