ghost use Rattle.std.specs.Prelude.{◌≡◌, ℕ, ◌+◌, ◌≤◌, length, IfOk};
ghost use Rattle.jvm_meaning.specs.Moves.{moved, move_on};
ghost use Rattle.jvm_meaning.specs.Steps.{ended, TakesStep};
ghost use Rattle.jvm_state.specs.Stops.{Gives};

use crate::branches::{branch_in, branched, taken_if};
use crate::ends::{end_of, site_of};
use crate::fields::get_static;
use crate::operation::Move;
use class_file::{ClassFile, Code};
use jvm_state::{Cells, End, Frame, Halt, State, Value, discard, duplicate, load, store, swap};
use std::alloc::AllocError;

/// Moves values within a frame, and goes on behind the instruction or where it leads to.
fn moved<I: Copy, L: Copy>(
    class: &ClassFile,
    code: &Code,
    moving: Move,
    size: u32,
    statics: &Cells<Value<I, L>>,
    frame: &mut Frame<I, L>,
) -> Result<(), Halt>
    requires place { frame.old.pc + size ≤ length code.now.bytes }
    requires short { length code.now.bytes ≤ 65535 }
    ensures { Gives (λ _. frame.new) result (moved class.now code.now moving size statics.now frame.old) }
{
    let depth = code.max_stack;
    match moving {
        Move::Nothing => {}
        Move::PushNull => frame.stack.push(Value::Null, depth)?,
        Move::Discard(span) => discard(span, &mut frame.stack)?,
        Move::Duplicate(top, beneath) => duplicate(depth, top, beneath, &mut frame.stack)?,
        Move::Swap => swap(depth, &mut frame.stack)?,
        Move::Load(sort, local) => {
            load(sort, local, depth, &frame.locals, &mut frame.stack)?;
        }
        Move::Store(sort, local) => store(sort, local, &mut frame.locals, &mut frame.stack)?,
        Move::GetStatic(number) => get_static(class, number, depth, statics, &mut frame.stack)?,
        Move::Jump(offset) => {
            frame.pc = taken_if(true, branch_in(code, offset, size, frame.pc))?;
            return Ok(());
        }
        Move::JumpIf(test, offset) => {
            let branch = branch_in(code, offset, size, frame.pc);
            frame.pc = branched(test, branch, &mut frame.stack)?;
            return Ok(());
        }
    }
    frame.pc += size;
    Ok(())
}

/// Makes a step that moves values.
pub fn move_on<I: Copy, L: Copy, E: Copy, W: Copy>(
    class: &ClassFile,
    code: &Code,
    moving: Move,
    size: u32,
    state: &mut State<I, L, E>,
) -> Result<Option<End<W>>, AllocError>
    requires place { state.old.frame.pc + size ≤ length code.now.bytes }
    requires short { length code.now.bytes ≤ 65535 }
    ensures { IfOk result (TakesStep (ended class.now state.old (move_on class.now code.now moving size state.old)) state.new) }
{
    let site = site_of(&state.frame);
    let statics = &state.heap.statics;
    match moved(class, code, moving, size, statics, &mut state.frame) {
        Ok(()) => Ok(None),
        Err(Halt::Stopped(stop)) => {
            let initialises = state.waiting.is_some();
            Ok(Some(end_of(class, site, &state.callers, initialises, stop)))
        }
        Err(Halt::Memory) => Err(AllocError),
    }
}
