ghost use Rattle.std.specs.Prelude.{◌≡◌, ℕ, ◌+◌, ◌≤◌, [], IfOk, Option};
ghost use Rattle.std.specs.Option.{option_copied};
ghost use Rattle.jvm_meaning.specs.Calls.{begin};
ghost use Rattle.jvm_meaning.specs.Steps.{depth_in, ended, call, started, resume, TakesStep};

use crate::calls::{begin, called, code_of};
use crate::ends::{bad_begin, end_of, refused_at, site_of};
use crate::returns::pushed;
use class_file::{ClassFile, Code, MethodId};
use jvm_state::{End, Frame, Halt, Limits, Reason, Site, State, Value};
use std::alloc::{AllocError, Global};
use std::mem;

/// Calls a method of this class.
pub fn call<I: Copy, L: Copy, E: Copy, W: Copy>(
    alloc: Global,
    class: &ClassFile,
    limits: Limits,
    method: MethodId,
    state: &mut State<I, L, E>,
) -> Result<Option<End<W>>, AllocError>
    requires { state.old.frame.pc ≤ 65535 }
    ensures { IfOk result (TakesStep (ended class.now state.old (call class.now limits method state.old)) state.new) }
{
    let site = site_of(&state.frame);
    let opened = state.callers.len() + 1;
    let arrays = &state.heap.arrays;
    match called(
        alloc,
        class,
        limits.frames,
        opened,
        method,
        arrays,
        &mut state.frame.stack,
    ) {
        Ok(frame) => {
            let caller = mem::replace(&mut state.frame, frame);
            state.callers.push(caller)?;
            Ok(None)
        }
        Err(Halt::Stopped(stop)) => {
            let initialises = state.waiting.is_some();
            Ok(Some(end_of(class, site, &state.callers, initialises, stop)))
        }
        Err(Halt::Memory) => Err(AllocError),
    }
}

/// Begins a method with nothing else open and these arguments; where it can't begin, that is bad code.
pub fn start<I: Copy, L: Copy, E: Copy, W: Copy>(
    class: &ClassFile,
    method: MethodId,
    arguments: &[Value<I, L>],
    state: &mut State<I, L, E>,
) -> Result<Option<End<W>>, AllocError>
    ensures { IfOk result (TakesStep (started method state.old.heap state.old.waiting (begin class.now method arguments.now)) state.new) }
{
    state.callers.clear();
    match begin(class, method, arguments, &mut state.frame) {
        Ok(()) => Ok(None),
        Err(Halt::Stopped(_)) => Ok(Some(bad_begin(method))),
        Err(Halt::Memory) => Err(AllocError),
    }
}

/// How deep the stack of a method may be.
fn depth_in(code: Option<&Code>) -> u16
    ensures { result ≡ depth_in (option_copied code.entry) }
{
    match code {
        Some(code) => code.max_stack,
        None => 0,
    }
}

/// Goes on with a caller behind its call, an instruction of 3 bytes, with the result on its stack.
pub fn resume<I: Copy, L: Copy, E: Copy, W: Copy>(
    class: &ClassFile,
    value: Option<Value<I, L>>,
    site: Site,
    caller: Frame<I, L>,
    state: &mut State<I, L, E>,
) -> Result<Option<End<W>>, AllocError>
    requires { caller.pc ≤ 65535 }
    ensures { IfOk result (TakesStep (resume class.now value site caller state.old) state.new) }
{
    let mut frame = caller;
    let depth = depth_in(code_of(class, frame.method));
    match pushed(depth, value, &mut frame.stack) {
        Ok(()) => {
            frame.pc += 3;
            state.frame = frame;
            Ok(None)
        }
        Err(Halt::Stopped(_)) => Ok(Some(refused_at(Reason::BadCode, site))),
        Err(Halt::Memory) => Err(AllocError),
    }
}
