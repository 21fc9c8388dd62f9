//! The walk over forms.

ghost use Rattle.std.specs.Prelude.{◌≡◌, ◌≤◌, ◌<◌, ◌+◌, ◌-◌, ℕ, IfOk, OnOk, length, vec_len, drop, take, slice_get, Ok, Err, [], ◌∷◌, ◌++◌};
ghost use Rattle.spec_form.specs.declared.form.Form.{out-Form};
ghost use Rattle.spec_form.specs.declared.form.FormKind.{out-FormKind};
ghost use Rattle.spec_meaning.specs.declared.value.Value.TheVariants.{T};
ghost use Rattle.spec_meaning.specs.declared.fault.Fault.TheVariants.{Cause};
ghost use Rattle.spec_meaning.specs.Faults.{Gives};
ghost use Rattle.spec_meaning.specs.Work.{valued, malformed};
ghost use Rattle.spec_meaning.specs.Evaluations.{opens, are_some, is_too_deep, eval_form, eval_kind, eval_parts, eval_constant, call_value, eval_builtin, eval_call, eval_if, eval_let, eval_let_star, bind_each, eval_cond, eval_and, eval_or, eval_body, last_apart, variable, eval_end, stop_end};
ghost use Rattle.spec_meaning.specs.Table.{applied};
ghost use Rattle.spec_meaning.specs.Stacks.{Spends, Rests, scope};

use crate::fault::Fault;
use crate::operand::Operand;
use crate::stack::Stack;
use crate::stop::Stop;
use crate::table::apply;
use crate::value::{SpecEnd, Value, Why};
use memory::Memory;
use spec_form::{Builtin, ConstId, Form, FormKind, FunId, Program};
use std::alloc::Global;

/// Where a form is evaluated: how many more forms may be open, and where the variables in scope begin.
#[derive(Clone, Copy)]
struct Place<'a> {
    program: &'a Program,
    depth: u32,
    base: usize,
}

/// The evaluation of a function's body at some arguments, where at most `depth` forms may be open at once and at
/// most `work` forms visited.
///
/// Outside comes at the first form from left to right that has no value. MoreDepth comes exactly where more forms
/// would be open, MoreWork exactly where more would be visited; where both would come at one form, MoreDepth.
pub fn eval(
    alloc: Global,
    program: &Program,
    function: FunId,
    args: &[Value],
    depth: u32,
    work: u64,
) -> Result<SpecEnd, Memory>
    requires { function.0 < length program.now.functions }
    ensures { IfOk result (λ end. end ≡ eval_end program.now function args.now depth work) }
{
    let mut stack = Stack::new(alloc, work);
    stack.bind_all(args)?;
    let place = Place {
        program,
        depth,
        base: 0,
    };
    match eval_form(alloc, &mut stack, place, program.body(function)) {
        Ok(value) => Ok(SpecEnd::Value(value.into_value(alloc)?)),
        Err(Fault::Cause(stop)) => Ok(end_of(stop)),
        Err(Fault::Memory) => Err(Memory),
    }
}

fn end_of(stop: Stop) -> SpecEnd
    ensures { result ≡ stop_end stop }
{
    match stop {
        Stop::Outside { at, reason } => SpecEnd::Outside { at, reason },
        Stop::MoreDepth => SpecEnd::MoreDepth,
        Stop::MoreWork => SpecEnd::MoreWork,
    }
}

/// A form whose parts aren't those of its kind, which no text spells.
fn malformed(at: u32) -> Fault<Stop>
    ensures { result ≡ Cause (Stop.Outside at Why.NotANumber) }
{
    Fault::Cause(Stop::Outside {
        at,
        reason: Why::NotANumber,
    })
}

/// The evaluation of a form.
#[cycle(eval)]
#[tactic(auto, using(crate::proofs::Depths::too_deep_ends, crate::proofs::Depths::without_work, crate::proofs::Depths::entered))]
fn eval_form<'a>(
    alloc: Global,
    stack: &mut Stack<'a>,
    place: Place<'a>,
    form: &'a Form,
) -> Result<Operand<'a>, Fault<Stop>>
    requires { place.base ≤ vec_len stack.old.variables }
    ensures value { Gives (λ value. (value, stack.new.left)) result (eval_form place.entry.program.now place.entry.depth (scope stack.old place.entry.base) form.now stack.old.left) }
    ensures rests { OnOk result (Rests stack.old stack.new) }
{
    if is_too_deep(place.depth, &form.kind) {
        return Err(Fault::Cause(Stop::MoreDepth));
    }
    if stack.left == 0 {
        return Err(Fault::Cause(Stop::MoreWork));
    }
    stack.left -= 1;
    let inside = Place {
        program: place.program,
        depth: place.depth.saturating_sub(1),
        base: place.base,
    };
    eval_kind(alloc, stack, inside, form.at, &form.kind)
}

/// Whether a form would be open where none may be.
fn is_too_deep(depth: u32, kind: &FormKind) -> bool
    ensures { result ≡ is_too_deep depth (out-FormKind kind.now) }
{
    depth == 0 && opens(kind)
}

/// Whether a form is open while its parts, or the body that it calls, are evaluated.
fn opens(kind: &FormKind) -> bool
    ensures { result ≡ opens (out-FormKind kind.now) }
{
    match kind {
        FormKind::Number(_) | FormKind::T | FormKind::Quoted(_) | FormKind::Variable(_) => false,
        FormKind::Cond(parts) | FormKind::And(parts) | FormKind::Or(parts) => !parts.is_empty(),
        FormKind::Constant(_)
        | FormKind::If(_)
        | FormKind::Let(_)
        | FormKind::LetStar(_)
        | FormKind::Builtin(_, _)
        | FormKind::Call(_, _) => true,
    }
}

/// The evaluation of a form's kind; its parts, and the body that it calls, may have `place.depth` forms open.
#[cycle(eval)]
fn eval_kind<'a>(
    alloc: Global,
    stack: &mut Stack<'a>,
    place: Place<'a>,
    at: u32,
    kind: &'a FormKind,
) -> Result<Operand<'a>, Fault<Stop>>
    requires { place.base ≤ vec_len stack.old.variables }
    ensures value { Gives (λ value. (value, stack.new.left)) result (eval_kind place.entry.program.now (eval_form place.entry.program.now place.entry.depth) (scope stack.old place.entry.base) at (out-FormKind kind.now) stack.old.left) }
    ensures rests { OnOk result (Rests stack.old stack.new) }
{
    match kind {
        FormKind::Number(number) => Ok(Operand::of_number(*number)),
        FormKind::T => Ok(Operand::t()),
        FormKind::Quoted(numbers) => Ok(Operand::lent(numbers.as_slice())),
        FormKind::Variable(variable) => eval_variable(stack, place.base, at, *variable as usize),
        FormKind::Constant(constant) => eval_constant(alloc, stack, place, at, *constant),
        FormKind::If(parts) => eval_if(alloc, stack, place, at, parts.as_slice()),
        FormKind::Let(parts) => eval_let(alloc, stack, place, at, parts.as_slice()),
        FormKind::LetStar(parts) => eval_let_star(alloc, stack, place, at, parts.as_slice()),
        FormKind::Cond(parts) => eval_cond(alloc, stack, place, at, parts.as_slice()),
        FormKind::And(parts) => eval_and(alloc, stack, place, parts.as_slice()),
        FormKind::Or(parts) => eval_or(alloc, stack, place, parts.as_slice()),
        FormKind::Builtin(builtin, parts) => {
            eval_builtin(alloc, stack, place, at, *builtin, parts.as_slice())
        }
        FormKind::Call(function, parts) => {
            eval_call(alloc, stack, place, at, *function, parts.as_slice())
        }
    }
}

/// The value of a variable; each variable has one.
fn eval_variable<'a>(
    stack: &Stack<'a>,
    base: usize,
    at: u32,
    number: usize,
) -> Result<Operand<'a>, Fault<Stop>>
    requires { base ≤ vec_len stack.now.variables }
    ensures { Gives (λ value. (value, stack.now.left)) result (variable at (slice_get (scope stack.now base) number) stack.now.left) }
{
    match stack.variables[base..].get(number) {
        Some(value) => Ok(value.copy()?),
        None => Err(malformed(at)),
    }
}

/// The value of a named constant's expression, which has no variables.
#[cycle(eval)]
fn eval_constant<'a>(
    alloc: Global,
    stack: &mut Stack<'a>,
    place: Place<'a>,
    at: u32,
    constant: ConstId,
) -> Result<Operand<'a>, Fault<Stop>>
    ensures value { Gives (λ value. (value, stack.new.left)) result (eval_constant (eval_form place.entry.program.now place.entry.depth) at (slice_get place.entry.program.now.constants constant.0) stack.old.left) }
    ensures rests { OnOk result (Rests stack.old stack.new) }
{
    let Some(constant) = place.program.constants.get(constant.0) else {
        return Err(malformed(at));
    };
    let alone = Place {
        program: place.program,
        depth: place.depth,
        base: stack.variables.len(),
    };
    eval_form(alloc, stack, alone, &constant.value)
}

#[cycle(eval)]
fn eval_if<'a>(
    alloc: Global,
    stack: &mut Stack<'a>,
    place: Place<'a>,
    at: u32,
    parts: &'a [Form],
) -> Result<Operand<'a>, Fault<Stop>>
    requires { place.base ≤ vec_len stack.old.variables }
    ensures value { Gives (λ value. (value, stack.new.left)) result (eval_if (eval_form place.entry.program.now place.entry.depth (scope stack.old place.entry.base)) at parts.now stack.old.left) }
    ensures rests { OnOk result (Rests stack.old stack.new) }
{
    let [test, yes, no] = parts else {
        return Err(malformed(at));
    };
    let test = eval_form(alloc, stack, place, test)?;
    eval_form(alloc, stack, place, if test.is_nil() { no } else { yes })
}

/// Evaluates forms from left to right and adds their values to the parts.
#[cycle(eval)]
fn eval_parts<'a>(
    alloc: Global,
    stack: &mut Stack<'a>,
    place: Place<'a>,
    forms: &'a [Form],
) -> Result<(), Fault<Stop>>
    requires { place.base ≤ vec_len stack.old.variables }
    ensures value { Gives (λ _. (stack.new.parts.items, stack.new.left)) result (eval_parts (eval_form place.entry.program.now place.entry.depth (scope stack.old place.entry.base)) stack.old.parts.items forms.now stack.old.left) }
    ensures spends { OnOk result (Spends stack.old stack.new) }
    ensures grows { OnOk result (vec_len stack.old.parts ≤ vec_len stack.new.parts) }
{
    for form in forms {
        let value = eval_form(alloc, stack, place, form)?;
        stack.parts.push(value)?;
    }
    Ok(())
}

/// The value of a call of the language.
#[cycle(eval)]
#[tactic(auto, using(crate::proofs::Parts::all_valued, crate::proofs::Parts::one_stopped))]
fn eval_builtin<'a>(
    alloc: Global,
    stack: &mut Stack<'a>,
    place: Place<'a>,
    at: u32,
    builtin: Builtin,
    forms: &'a [Form],
) -> Result<Operand<'a>, Fault<Stop>>
    requires { place.base ≤ vec_len stack.old.variables }
    ensures value { Gives (λ value. (value, stack.new.left)) result (eval_builtin (eval_form place.entry.program.now place.entry.depth (scope stack.old place.entry.base)) at builtin forms.now stack.old.left) }
    ensures rests { OnOk result (Rests stack.old stack.new) }
{
    let start = stack.parts.len();
    eval_parts(alloc, stack, place, forms)?;
    apply_to_parts(alloc, stack, at, builtin, start)
}

/// The value of a function of the language at the parts from `start` on, called by the form at this offset.
#[tactic(auto, unfolding(crate::specs::Evaluations::call_value))]
fn apply_to_parts<'a>(
    alloc: Global,
    stack: &mut Stack<'a>,
    at: u32,
    builtin: Builtin,
    start: usize,
) -> Result<Operand<'a>, Fault<Stop>>
    requires { start ≤ vec_len stack.old.parts }
    ensures value { Gives (λ value. (value, stack.new.left)) result (valued at (call_value builtin (drop start stack.old.parts.items)) stack.old.left) }
    ensures spends { OnOk result (Spends stack.old stack.new) }
    ensures parts { OnOk result (stack.new.parts.items ≡ take start stack.old.parts.items) }
{
    let (_, values) = stack.parts.split_at(start);
    let value = apply(alloc, builtin, values);
    stack.parts.truncate(start);
    match value {
        Ok(value) => Ok(value),
        Err(Fault::Cause(reason)) => Err(Fault::Cause(Stop::Outside { at, reason })),
        Err(Fault::Memory) => Err(Fault::Memory),
    }
}

/// The value of a call of the program: that of the function's body, where its formals have the arguments' values.
#[cycle(eval)]
#[tactic(auto, using(crate::proofs::Parts::all_valued, crate::proofs::Parts::one_stopped))]
fn eval_call<'a>(
    alloc: Global,
    stack: &mut Stack<'a>,
    place: Place<'a>,
    at: u32,
    function: FunId,
    forms: &'a [Form],
) -> Result<Operand<'a>, Fault<Stop>>
    requires { place.base ≤ vec_len stack.old.variables }
    ensures value { Gives (λ value. (value, stack.new.left)) result (eval_call place.entry.program.now (eval_form place.entry.program.now place.entry.depth) (scope stack.old place.entry.base) at function forms.now stack.old.left) }
    ensures rests { OnOk result (Rests stack.old stack.new) }
{
    let start = stack.parts.len();
    eval_parts(alloc, stack, place, forms)?;
    eval_body(alloc, stack, place, at, function, start)
}

/// The value of a function's body, where its formals have the values of the parts from `start` on.
#[cycle(eval)]
#[tactic(auto, using(crate::proofs::Parts::own_scope, crate::proofs::Parts::taken_off))]
fn eval_body<'a>(
    alloc: Global,
    stack: &mut Stack<'a>,
    place: Place<'a>,
    at: u32,
    function: FunId,
    start: usize,
) -> Result<Operand<'a>, Fault<Stop>>
    requires { start ≤ vec_len stack.old.parts }
    ensures value { Gives (λ value. (value, stack.new.left)) result (eval_body (eval_form place.entry.program.now place.entry.depth) at (slice_get place.entry.program.now.functions function.0) (drop start stack.old.parts.items) stack.old.left) }
    ensures spends { OnOk result (Spends stack.old stack.new) }
    ensures parts { OnOk result (stack.new.parts.items ≡ take start stack.old.parts.items) }
{
    let Some(function) = place.program.functions.get(function.0) else {
        return Err(malformed(at));
    };
    let base = stack.variables.len();
    stack.bind_parts(start)?;
    let inside = Place {
        program: place.program,
        depth: place.depth,
        base,
    };
    let value = eval_form(alloc, stack, inside, &function.body)?;
    stack.variables.truncate(base);
    Ok(value)
}

/// The body's value, where all bindings are evaluated before any name is bound.
#[cycle(eval)]
#[tactic(auto, using(crate::proofs::Parts::all_valued, crate::proofs::Parts::one_stopped, crate::proofs::Parts::wider_scope, crate::proofs::Parts::taken_off, crate::proofs::Parts::apart))]
fn eval_let<'a>(
    alloc: Global,
    stack: &mut Stack<'a>,
    place: Place<'a>,
    at: u32,
    parts: &'a [Form],
) -> Result<Operand<'a>, Fault<Stop>>
    requires { place.base ≤ vec_len stack.old.variables }
    ensures value { Gives (λ value. (value, stack.new.left)) result (eval_let (eval_form place.entry.program.now place.entry.depth) (scope stack.old place.entry.base) at (last_apart parts.now) stack.old.left) }
    ensures rests { OnOk result (Rests stack.old stack.new) }
{
    let Some((body, bindings)) = parts.split_last() else {
        return Err(malformed(at));
    };
    let start = stack.parts.len();
    eval_parts(alloc, stack, place, bindings)?;
    let bound = stack.variables.len();
    stack.bind_parts(start)?;
    let value = eval_form(alloc, stack, place, body)?;
    stack.variables.truncate(bound);
    Ok(value)
}

/// The body's value, where each binding is evaluated in the scope of the names before it.
#[cycle(eval)]
#[tactic(auto, using(crate::proofs::Parts::apart))]
fn eval_let_star<'a>(
    alloc: Global,
    stack: &mut Stack<'a>,
    place: Place<'a>,
    at: u32,
    parts: &'a [Form],
) -> Result<Operand<'a>, Fault<Stop>>
    requires { place.base ≤ vec_len stack.old.variables }
    ensures value { Gives (λ value. (value, stack.new.left)) result (eval_let_star (eval_form place.entry.program.now place.entry.depth) (scope stack.old place.entry.base) at (last_apart parts.now) stack.old.left) }
    ensures rests { OnOk result (Rests stack.old stack.new) }
{
    let Some((body, bindings)) = parts.split_last() else {
        return Err(malformed(at));
    };
    bind_each(alloc, stack, place, bindings, body)
}

/// Evaluates bindings, each in the scope of the names before it, and then the body.
#[cycle(eval)]
#[tactic(auto, using(crate::proofs::Parts::wider_scope, crate::proofs::Parts::taken_off))]
fn bind_each<'a>(
    alloc: Global,
    stack: &mut Stack<'a>,
    place: Place<'a>,
    bindings: &'a [Form],
    body: &'a Form,
) -> Result<Operand<'a>, Fault<Stop>>
    requires { place.base ≤ vec_len stack.old.variables }
    ensures value { Gives (λ value. (value, stack.new.left)) result (bind_each (eval_form place.entry.program.now place.entry.depth) (scope stack.old place.entry.base) bindings.now body.now stack.old.left) }
    ensures rests { OnOk result (Rests stack.old stack.new) }
{
    let bound = stack.variables.len();
    for binding in bindings {
        let value = eval_form(alloc, stack, place, binding)?;
        stack.bind(value)?;
    }
    let value = eval_form(alloc, stack, place, body)?;
    stack.variables.truncate(bound);
    Ok(value)
}

/// The value of the first clause whose test holds; nil where none does.
#[cycle(eval)]
fn eval_cond<'a>(
    alloc: Global,
    stack: &mut Stack<'a>,
    place: Place<'a>,
    at: u32,
    clauses: &'a [Form],
) -> Result<Operand<'a>, Fault<Stop>>
    requires { place.base ≤ vec_len stack.old.variables }
    ensures value { Gives (λ value. (value, stack.new.left)) result (eval_cond (eval_form place.entry.program.now place.entry.depth (scope stack.old place.entry.base)) at clauses.now stack.old.left) }
    ensures rests { OnOk result (Rests stack.old stack.new) }
{
    let mut rest = clauses;
    while let Some((test, others)) = rest.split_first() {
        let Some((value, others)) = others.split_first() else {
            return Err(malformed(at));
        };
        let test = eval_form(alloc, stack, place, test)?;
        if !test.is_nil() {
            return eval_form(alloc, stack, place, value);
        }
        rest = others;
    }
    Ok(Operand::nil())
}

/// The last value, or the first that is nil.
#[cycle(eval)]
fn eval_and<'a>(
    alloc: Global,
    stack: &mut Stack<'a>,
    place: Place<'a>,
    parts: &'a [Form],
) -> Result<Operand<'a>, Fault<Stop>>
    requires { place.base ≤ vec_len stack.old.variables }
    ensures value { Gives (λ value. (value, stack.new.left)) result (eval_and (eval_form place.entry.program.now place.entry.depth (scope stack.old place.entry.base)) T parts.now stack.old.left) }
    ensures rests { OnOk result (Rests stack.old stack.new) }
{
    let mut value = Operand::t();
    for part in parts {
        value = eval_form(alloc, stack, place, part)?;
        if value.is_nil() {
            return Ok(value);
        }
    }
    Ok(value)
}

/// The first value that isn't nil; nil where each is.
#[cycle(eval)]
fn eval_or<'a>(
    alloc: Global,
    stack: &mut Stack<'a>,
    place: Place<'a>,
    parts: &'a [Form],
) -> Result<Operand<'a>, Fault<Stop>>
    requires { place.base ≤ vec_len stack.old.variables }
    ensures value { Gives (λ value. (value, stack.new.left)) result (eval_or (eval_form place.entry.program.now place.entry.depth (scope stack.old place.entry.base)) parts.now stack.old.left) }
    ensures rests { OnOk result (Rests stack.old stack.new) }
{
    for part in parts {
        let value = eval_form(alloc, stack, place, part)?;
        if !value.is_nil() {
            return Ok(value);
        }
    }
    Ok(Operand::nil())
}
