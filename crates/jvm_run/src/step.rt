ghost use Rattle.std.specs.Prelude.{◌≡◌, ℕ, ◌+◌, ◌≤◌, ◌<◌, length, is_some, IfOk};
ghost use Rattle.jvm_meaning.specs.Steps.{ended, TakesStep};
ghost use Rattle.jvm_meaning.specs.Machine.{on_stack, stay, stayed, invoke, act, step};
ghost use Rattle.jvm_state.specs.Stops.{Gives};

use crate::arithmetic::{binary, compare, divide, narrow, negate, rotate, shift, to_int, to_long};
use crate::array_words::{new_references, on_arrays};
use crate::closing::give;
use crate::conditions::next_place;
use crate::increments::increment;
use crate::loading::load_constant;
use crate::rows::new_rows;
use crate::statics::put_static;
use axe_io::Shape;
use class_file::{ClassFile, Code};
use jvm_meaning::{
    Callee, Instruction, Operation, StackOperation, branch_in, call, callee_in, code_of, end_of,
    instruction_at, move_on, refused_at, site_of,
};
use jvm_state::{End, Frame, Halt, Heap, Limits, Reason, Stack, State, refuse};
use std::alloc::{AllocError, Global};

/// Does an operation on the operands alone.
fn on_stack(operation: StackOperation, depth: u16, stack: &mut Stack) -> Result<(), Halt>
    ensures { Gives (λ _. stack.new) result (on_stack operation depth stack.old) }
{
    match operation {
        StackOperation::Push(value) => stack.push(value, depth),
        StackOperation::Binary(operation, width) => binary(operation, width, depth, stack),
        StackOperation::Divide(division, width) => divide(division, width, depth, stack),
        StackOperation::Negate(width) => negate(width, depth, stack),
        StackOperation::Shift(direction, width) => shift(direction, width, depth, stack),
        StackOperation::Rotate(direction, width) => rotate(direction, width, depth, stack),
        StackOperation::ToLong => to_long(depth, stack),
        StackOperation::ToInt => to_int(depth, stack),
        StackOperation::Narrow(kind) => narrow(kind, depth, stack),
        StackOperation::Compare => compare(depth, stack),
    }
}

/// Does an operation that stays in its frame, of so many bytes, and goes on behind it or where it branches to.
fn stay(
    alloc: Global,
    class: &ClassFile,
    limits: Limits,
    code: &Code,
    operation: Operation,
    size: u32,
    frame: &mut Frame,
    heap: &mut Heap,
) -> Result<(), Halt>
    requires place { frame.old.pc + size ≤ length code.now.bytes }
    requires short { length code.now.bytes ≤ 65535 }
    ensures { Gives (λ _. (frame.new, heap.new)) result (stay class.now limits code.now operation size frame.old heap.old) }
{
    let depth = code.max_stack;
    let behind = frame.pc + size;
    match operation {
        Operation::Stack(operation) => on_stack(operation, depth, &mut frame.stack)?,
        Operation::Increment(local, amount) => increment(local, amount, &mut frame.locals)?,
        Operation::Array(operation) => {
            on_arrays(
                alloc,
                operation,
                limits.elements,
                depth,
                heap,
                &mut frame.stack,
            )?;
        }
        Operation::LoadConstant(op, width, number) => {
            load_constant(op, width, number, class, depth, &mut frame.stack)?;
        }
        Operation::NewReferences(number) => {
            let limit = limits.elements;
            new_references(alloc, class, number, limit, depth, heap, &mut frame.stack)?;
        }
        Operation::NewRows(number, dimensions) => {
            let limit = limits.elements;
            new_rows(
                alloc,
                class,
                number,
                dimensions,
                limit,
                depth,
                heap,
                &mut frame.stack,
            )?;
        }
        Operation::PutStatic(number) => put_static(class, number, heap, &mut frame.stack)?,
        Operation::Branch(condition, offset) => {
            let branch = branch_in(code, offset, size, frame.pc);
            frame.pc = next_place(condition, branch, &mut frame.stack)?;
            return Ok(());
        }
        Operation::Move(_) | Operation::Invoke(_) | Operation::Return(_) => return refuse(
            Reason::BadCode,
        ),
    }
    frame.pc = behind;
    Ok(())
}

/// Does an operation that stays in its frame, in a state.
fn stayed(
    alloc: Global,
    class: &ClassFile,
    limits: Limits,
    code: &Code,
    operation: Operation,
    size: u32,
    state: &mut State,
) -> Result<(), Halt>
    requires place { state.old.frame.pc + size ≤ length code.now.bytes }
    requires short { length code.now.bytes ≤ 65535 }
    ensures state { Gives (λ _. state.new) result (stayed class.now limits code.now operation size state.old) }
    ensures callers { state.new.callers ≡ state.old.callers }
    ensures waiting { is_some state.new.waiting ≡ is_some state.old.waiting }
{
    stay(
        alloc,
        class,
        limits,
        code,
        operation,
        size,
        &mut state.frame,
        &mut state.heap,
    )
}

/// Makes a step that stays in its frame.
fn go_on(
    alloc: Global,
    class: &ClassFile,
    limits: Limits,
    code: &Code,
    operation: Operation,
    size: u32,
    state: &mut State,
) -> Result<Option<End>, AllocError>
    requires place { state.old.frame.pc + size ≤ length code.now.bytes }
    requires short { length code.now.bytes ≤ 65535 }
    ensures { IfOk result (TakesStep (ended class.now state.old (stayed class.now limits code.now operation size state.old)) state.new) }
{
    let site = site_of(&state.frame);
    match stayed(alloc, class, limits, code, operation, size, state) {
        Ok(()) => Ok(None),
        Err(Halt::Stopped(stop)) => {
            let initialises = state.waiting.is_some();
            Ok(Some(end_of(class, site, &state.callers, initialises, stop)))
        }
        Err(Halt::Memory) => Err(AllocError),
    }
}

/// invokestatic: a method of this class, or a rotation, which is one step.
fn invoke(
    alloc: Global,
    class: &ClassFile,
    limits: Limits,
    code: &Code,
    number: u16,
    size: u32,
    state: &mut State,
) -> Result<Option<End>, AllocError>
    requires place { state.old.frame.pc + size ≤ length code.now.bytes }
    requires short { length code.now.bytes ≤ 65535 }
    ensures { IfOk result (TakesStep (ended class.now state.old (invoke class.now limits code.now number size state.old)) state.new) }
{
    match callee_in(class, number) {
        Some(Callee::Own(method)) => call(alloc, class, limits, method, state),
        Some(Callee::Rotation(turn, width)) => {
            let operation = Operation::Stack(StackOperation::Rotate(turn, width));
            go_on(alloc, class, limits, code, operation, size, state)
        }
        None => {
            let site = site_of(&state.frame);
            Ok(Some(refused_at(Reason::UnknownCallee, site)))
        }
    }
}

fn act(
    alloc: Global,
    class: &ClassFile,
    shape: &Shape,
    limits: Limits,
    code: &Code,
    instruction: Instruction,
    state: &mut State,
) -> Result<Option<End>, AllocError>
    requires place { state.old.frame.pc + instruction.size ≤ length code.now.bytes }
    requires short { length code.now.bytes ≤ 65535 }
    ensures { IfOk result (TakesStep (act class.now shape.now limits code.now instruction.operation instruction.size state.old) state.new) }
{
    let size = instruction.size;
    match instruction.operation {
        Operation::Return(sort) => give(alloc, class, shape, sort, state),
        Operation::Move(moving) => move_on(class, code, moving, size, state),
        Operation::Invoke(number) => invoke(alloc, class, limits, code, number, size, state),
        operation => go_on(alloc, class, limits, code, operation, size, state),
    }
}

/// Makes one instruction of a run; it may end the run.
#[tactic(auto, unfolding(jvm_meaning::specs::Machine::step))]
pub fn step(
    alloc: Global,
    class: &ClassFile,
    shape: &Shape,
    limits: Limits,
    state: &mut State,
) -> Result<Option<End>, AllocError>
    ensures { IfOk result (TakesStep (step class.now shape.now limits state.old) state.new) }
{
    let site = site_of(&state.frame);
    let Some(code) = code_of(class, site.method) else {
        return Ok(Some(refused_at(Reason::BadCode, site)));
    };
    match instruction_at(code, site.pc) {
        Ok(instruction) => act(alloc, class, shape, limits, code, instruction, state),
        Err(reason) => Ok(Some(refused_at(reason, site))),
    }
}
