ghost use Rattle.std.specs.Prelude.{◌≡◌, ◌+◌, ◌≤◌, ◌<◌, ◌∷◌, ◌++◌, [], ℕ, length, reverse, position, option_map, IfSome, IfOk, OnOk};
ghost use Rattle.std.specs.Option.{option_copied};
ghost use Rattle.class_file.specs.Members.{answers_to};
ghost use Rattle.jvm_meaning.specs.Calls.{code_of, desc_of, locals_of, begin, begin_code, turn_of, turned_width, rotation_of, own_method, named_callee, callee_in, pop_arguments, types_called, called};
ghost use Rattle.jvm_meaning.specs.Constants.{member_seen};
ghost use Rattle.jvm_state.specs.Stops.{Gives, found};
ghost use Rattle.jvm_meaning.specs.Types.{types_seen};

use crate::constants::{Member, is_own, method_named};
use crate::fields::pop_typed;
use crate::operation::Turn;
use crate::types::{DEEPEST, MethodType, method_type};
use class_file::{ClassFile, Code, MethodId};
use jvm_state::{
    Arrays, FieldType, Frame, Halt, Locals, Reason, Stack, Stop, Value, Width, check, refuse,
};
use std::alloc::{AllocError, Global};

/// What an invokestatic calls.
#[derive(Clone, Copy)]
pub enum Callee {
    /// A method of this class.
    Own(MethodId),
    /// A rotation of java.lang.Integer or of java.lang.Long.
    Rotation(Turn, Width),
}

/// The Code of a method.
pub fn code_of(class: &ClassFile, method: MethodId) -> Option<&Code>
    ensures { option_copied result ≡ code_of class.now method }
{
    class.method_at(method)?.code.as_ref()
}

/// The descriptor of a method, empty where there is no such method.
pub fn desc_of(class: &ClassFile, method: MethodId) -> &[u8]
    ensures { result.now ≡ desc_of class.now method }
{
    match class.method_at(method) {
        Some(found) => found.desc.as_slice(),
        None => &[],
    }
}

/// Puts arguments into local variables: a long takes two, of which the second holds nothing.
fn place<I: Copy, L: Copy>(
    arguments: &[Value<I, L>],
    locals: &mut Locals<I, L>,
) -> Result<(), AllocError>
    ensures { OnOk result (locals.new ≡ locals_of arguments.now) }
{
    locals.clear();
    for value in arguments {
        locals.push(Some(*value))?;
        if let Value::Long(_) = value {
            locals.push(None)?;
        }
    }
    Ok(())
}

/// Makes a frame the first one of a method with these arguments, which need room among its local variables.
pub fn begin<I: Copy, L: Copy>(
    class: &ClassFile,
    method: MethodId,
    arguments: &[Value<I, L>],
    frame: &mut Frame<I, L>,
) -> Result<(), Halt>
    ensures { Gives (λ _. frame.new) result (begin class.now method arguments.now) }
{
    place(arguments, &mut frame.locals)?;
    begin_code(method, code_of(class, method), frame)
}

/// The same of a method's Code, where the arguments are in the local variables.
fn begin_code<I: Copy, L: Copy>(
    method: MethodId,
    code: Option<&Code>,
    frame: &mut Frame<I, L>,
) -> Result<(), Halt>
    ensures { Gives (λ _. frame.new) result (begin_code method (option_copied code.entry) frame.old.locals) }
{
    let Some(code) = code else {
        return Err(Halt::Stopped(Stop::BadBegin(method)));
    };
    let room = usize::from(code.max_locals);
    if frame.locals.len() > room {
        return Err(Halt::Stopped(Stop::BadBegin(method)));
    }
    frame.method = method;
    frame.pc = 0;
    frame.stack.clear();
    frame.locals.resize(room, None)?;
    Ok(())
}

fn turn_of(name: &[u8]) -> Option<Turn>
    ensures { result ≡ turn_of name.now }
{
    if name == b"rotateLeft".as_slice() {
        Some(Turn::Left)
    } else if name == b"rotateRight".as_slice() {
        Some(Turn::Right)
    } else {
        None
    }
}

/// The width of the words that a method of Integer or Long turns, if it is one of (II)I or (JI)J.
fn turned_width(member: &Member<'_>) -> Option<Width>
    ensures { result ≡ turned_width (member_seen member.now) }
{
    if member.owner == b"java/lang/Integer".as_slice() && member.desc == b"(II)I".as_slice() {
        Some(Width::Int)
    } else if member.owner == b"java/lang/Long".as_slice() && member.desc == b"(JI)J".as_slice() {
        Some(Width::Long)
    } else {
        None
    }
}

fn rotation_of(member: &Member<'_>) -> Option<Callee>
    ensures { result ≡ rotation_of (member_seen member.now) }
{
    let width = turned_width(member)?;
    let turn = turn_of(member.name)?;
    Some(Callee::Rotation(turn, width))
}

/// A static method with Code of this class.
fn own_method(class: &ClassFile, member: &Member<'_>) -> Option<MethodId>
    ensures { option_map (λ id. id.0) result ≡ own_method class.now (member_seen member.now) }
{
    if is_own(class, member.owner) {
        class.find(member.name, Some(member.desc)).first
    } else {
        None
    }
}

fn named_callee(class: &ClassFile, member: &Member<'_>) -> Option<Callee>
    ensures { result ≡ named_callee class.now (member_seen member.now) }
{
    match own_method(class, member) {
        Some(method) => Some(Callee::Own(method)),
        None => rotation_of(member),
    }
}

/// What an invokestatic calls; none exactly where the number names no such method.
pub fn callee_in(class: &ClassFile, number: u16) -> Option<Callee>
    ensures { result ≡ callee_in class.now number }
{
    let member = method_named(class, number)?;
    named_callee(class, &member)
}

/// Takes the values of these types, the first of which is the type of the top. They are given from the last one on.
fn pop_arguments<I: Copy, L: Copy, E: Copy>(
    alloc: Global,
    types: &[FieldType],
    arrays: &Arrays<E>,
    stack: &mut Stack<I, L>,
) -> Result<Vec<Value<I, L>>, Halt>
    ensures { Gives (λ taken. (taken.items, stack.new)) result (pop_arguments types.now arrays.now [] stack.old) }
{
    let mut taken = Vec::new(alloc);
    for field_type in types {
        let value = pop_typed(*field_type, arrays, stack)?;
        taken.push(value)?;
    }
    taken.reverse();
    Ok(taken)
}

/// The types of a method that is called.
fn types_of(alloc: Global, class: &ClassFile, method: MethodId) -> Result<MethodType, Halt>
    ensures { Gives types_seen result (types_called class.now method) }
{
    match method_type(alloc, DEEPEST, desc_of(class, method))? {
        Some(types) => Ok(types),
        None => refuse(Reason::OutsideProfile { op: 184 }),
    }
}

/// Takes the arguments of a method that is called where so many frames are open, and begins it in a new frame.
pub fn called<I: Copy, L: Copy, E: Copy>(
    alloc: Global,
    class: &ClassFile,
    limit: u32,
    opened: usize,
    method: MethodId,
    arrays: &Arrays<E>,
    stack: &mut Stack<I, L>,
) -> Result<Frame<I, L>, Halt>
    ensures { Gives (λ frame. (frame, stack.new)) result (called class.now limit opened method arrays.now stack.old) }
{
    let mut types = types_of(alloc, class, method)?;
    types.params.reverse();
    let taken = pop_arguments(alloc, types.params.as_slice(), arrays, stack)?;
    check(opened < limit as usize, Stop::MoreFrames)?;
    let mut frame = Frame::new(alloc);
    begin(class, method, taken.as_slice(), &mut frame)?;
    Ok(frame)
}
