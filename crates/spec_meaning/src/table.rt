//! The value of a call of the language.

ghost use Rattle.std.specs.Prelude.{◌≡◌, true, false, [], ◌∷◌, IfOk};
ghost use Rattle.spec_meaning.specs.Table.{applied, takes_any};
ghost use Rattle.spec_meaning.specs.Faults.{Gives};

use crate::arrays::{bv_array_read, bv_array_write};
use crate::fault::Fault;
use crate::lists::{append, car, cdr, cons, consp, endp, len, list, nth, update_nth};
use crate::numbers::{
    decrement, difference, equal, greater, greater_or_equal, increment, is_false, less,
    less_or_equal, negation, same_number, zp,
};
use crate::operand::Operand;
use crate::stack::lend_all;
use crate::sums::sum;
use crate::value::{Value, Why};
use crate::words::{
    bvand, bvcat, bvchop, bvdiv, bvif, bvlt, bvminus, bvmod, bvmult, bvnot, bvor, bvplus, bvshl,
    bvshr, bvsx, bvuminus, bvxor, getbit, leftrotate, leftrotate32, rightrotate, rightrotate32,
    slice,
};
use memory::Memory;
use spec_form::Builtin;
use std::alloc::Global;

/// The value of a call of the language at these values, or why it has none: arguments are checked from left to right,
/// and the first that fails decides.
pub fn call(alloc: Global, builtin: Builtin, values: &[Value]) -> Result<Result<Value, Why>, Memory>
    ensures { IfOk result (λ answer. answer ≡ applied builtin values.now) }
{
    let mut operands = Vec::new(alloc);
    lend_all(values, &mut operands)?;
    match apply(alloc, builtin, &operands) {
        Ok(value) => Ok(Ok(value.into_value(alloc)?)),
        Err(Fault::Cause(why)) => Ok(Err(why)),
        Err(Fault::Memory) => Err(Memory),
    }
}

/// The value of a call; its arguments are checked from left to right.
pub(crate) fn apply<'a>(
    alloc: Global,
    builtin: Builtin,
    values: &[Operand<'a>],
) -> Result<Operand<'a>, Fault<Why>>
    ensures { Gives (λ value. value) result (applied builtin values.now) }
{
    if takes_any(builtin) {
        of_any(alloc, builtin, values)
    } else {
        of_some(alloc, builtin, values)
    }
}

/// Whether a function takes any number of arguments.
fn takes_any(builtin: Builtin) -> bool
    ensures { result ≡ takes_any builtin }
{
    matches!(builtin, Builtin::Sum | Builtin::List | Builtin::Append)
}

/// The value of a function of any number of arguments.
fn of_any<'a>(
    alloc: Global,
    builtin: Builtin,
    values: &[Operand<'a>],
) -> Result<Operand<'a>, Fault<Why>>
    requires { takes_any builtin ≡ true }
    ensures { Gives (λ value. value) result (applied builtin values.now) }
{
    match builtin {
        Builtin::List => list(alloc, values),
        Builtin::Append => append(alloc, values),
        _ => plain(sum(values)),
    }
}

/// The value of another function, by the number of its arguments.
fn of_some<'a>(
    alloc: Global,
    builtin: Builtin,
    values: &[Operand<'a>],
) -> Result<Operand<'a>, Fault<Why>>
    requires { takes_any builtin ≡ false }
    ensures { Gives (λ value. value) result (applied builtin values.now) }
{
    match values {
        [a] => of_one(alloc, builtin, a),
        [a, b] => of_two(alloc, builtin, a, b),
        [a, b, c] => of_three(alloc, builtin, a, b, c),
        [a, b, c, d] => plain(of_four(builtin, a, b, c, d)),
        [a, b, c, d, e] => of_five(alloc, builtin, a, b, c, d, e),
        _ => Err(Fault::Cause(Why::NotANumber)),
    }
}

/// What is computed without memory.
fn plain<'a>(value: Result<Operand<'a>, Why>) -> Result<Operand<'a>, Fault<Why>>
    ensures { Gives (λ value. value) result value.entry }
{
    match value {
        Ok(value) => Ok(value),
        Err(why) => Err(Fault::Cause(why)),
    }
}

fn of_one<'a>(alloc: Global, builtin: Builtin, a: &Operand<'a>) -> Result<Operand<'a>, Fault<Why>>
    requires { takes_any builtin ≡ false }
    ensures { Gives (λ value. value) result (applied builtin (a.now ∷ [])) }
{
    match builtin {
        Builtin::Minus => plain(negation(a)),
        Builtin::Increment => plain(increment(a)),
        Builtin::Decrement => plain(decrement(a)),
        Builtin::Zp => plain(zp(a)),
        Builtin::Not => plain(is_false(a)),
        Builtin::Car => plain(car(a)),
        Builtin::Len => plain(len(a)),
        Builtin::Endp => plain(endp(a)),
        Builtin::Consp => plain(consp(a)),
        Builtin::Cdr => cdr(alloc, a),
        _ => Err(Fault::Cause(Why::NotANumber)),
    }
}

fn of_two<'a>(
    alloc: Global,
    builtin: Builtin,
    a: &Operand<'a>,
    b: &Operand<'a>,
) -> Result<Operand<'a>, Fault<Why>>
    requires { takes_any builtin ≡ false }
    ensures { Gives (λ value. value) result (applied builtin (a.now ∷ b.now ∷ [])) }
{
    match builtin {
        Builtin::BvChop => plain(bvchop(a, b)),
        Builtin::GetBit => plain(getbit(a, b)),
        Builtin::BvUMinus => plain(bvuminus(a, b)),
        Builtin::BvNot => plain(bvnot(a, b)),
        Builtin::LeftRotate32 => plain(leftrotate32(a, b)),
        Builtin::RightRotate32 => plain(rightrotate32(a, b)),
        Builtin::Minus => plain(difference(a, b)),
        Builtin::Less => plain(less(a, b)),
        Builtin::LessOrEqual => plain(less_or_equal(a, b)),
        Builtin::Greater => plain(greater(a, b)),
        Builtin::GreaterOrEqual => plain(greater_or_equal(a, b)),
        Builtin::SameNumber => plain(same_number(a, b)),
        Builtin::Equal => plain(equal(a, b)),
        Builtin::Nth => plain(nth(a, b)),
        Builtin::Cons => cons(alloc, a, b),
        _ => Err(Fault::Cause(Why::NotANumber)),
    }
}

fn of_three<'a>(
    alloc: Global,
    builtin: Builtin,
    a: &Operand<'a>,
    b: &Operand<'a>,
    c: &Operand<'a>,
) -> Result<Operand<'a>, Fault<Why>>
    requires { takes_any builtin ≡ false }
    ensures { Gives (λ value. value) result (applied builtin (a.now ∷ b.now ∷ c.now ∷ [])) }
{
    match builtin {
        Builtin::Slice => plain(slice(a, b, c)),
        Builtin::BvPlus => plain(bvplus(a, b, c)),
        Builtin::BvMinus => plain(bvminus(a, b, c)),
        Builtin::BvMult => plain(bvmult(a, b, c)),
        Builtin::BvDiv => plain(bvdiv(a, b, c)),
        Builtin::BvMod => plain(bvmod(a, b, c)),
        Builtin::BvAnd => plain(bvand(a, b, c)),
        Builtin::BvOr => plain(bvor(a, b, c)),
        Builtin::BvXor => plain(bvxor(a, b, c)),
        Builtin::BvLt => plain(bvlt(a, b, c)),
        Builtin::BvSx => plain(bvsx(a, b, c)),
        Builtin::LeftRotate => plain(leftrotate(a, b, c)),
        Builtin::RightRotate => plain(rightrotate(a, b, c)),
        Builtin::BvShl => plain(bvshl(a, b, c)),
        Builtin::BvShr => plain(bvshr(a, b, c)),
        Builtin::UpdateNth => update_nth(alloc, a, b, c),
        _ => Err(Fault::Cause(Why::NotANumber)),
    }
}

fn of_four<'a>(
    builtin: Builtin,
    a: &Operand<'a>,
    b: &Operand<'a>,
    c: &Operand<'a>,
    d: &Operand<'a>,
) -> Result<Operand<'a>, Why>
    requires { takes_any builtin ≡ false }
    ensures { result ≡ applied builtin (a.now ∷ b.now ∷ c.now ∷ d.now ∷ []) }
{
    match builtin {
        Builtin::BvCat => bvcat(a, b, c, d),
        Builtin::BvIf => bvif(a, b, c, d),
        Builtin::BvArrayRead => bv_array_read(a, b, c, d),
        _ => Err(Why::NotANumber),
    }
}

fn of_five<'a>(
    alloc: Global,
    builtin: Builtin,
    a: &Operand<'a>,
    b: &Operand<'a>,
    c: &Operand<'a>,
    d: &Operand<'a>,
    e: &Operand<'a>,
) -> Result<Operand<'a>, Fault<Why>>
    requires { takes_any builtin ≡ false }
    ensures { Gives (λ value. value) result (applied builtin (a.now ∷ b.now ∷ c.now ∷ d.now ∷ e.now ∷ [])) }
{
    match builtin {
        Builtin::BvArrayWrite => bv_array_write(alloc, a, b, c, d, e),
        _ => Err(Fault::Cause(Why::NotANumber)),
    }
}
