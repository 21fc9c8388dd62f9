//! The functions on whole numbers of any sign, comparisons and equality: each is its line of the table.

ghost use Rattle.std.specs.Prelude.{◌≡◌, ℕ, ℤ, pos, ◌+ℤ◌, ◌-ℤ◌, neg_ℤ, int_lt, int_le, [], ◌∷◌, Ok, Err, Some, None, Option, SomeIff, FitsSigned, ◌*ℤ◌, ◌≤ℤ◌, ◌<ℤ◌, ◌^◌, IfSome, MatchOption, is_some};
ghost use mir.Syntax.{w128};
ghost use Rattle.std.specs.Ordering.{int_eq};
ghost use Rattle.spec_meaning.specs.Table.{applied, numbers, sum_from, compared};
ghost use Rattle.spec_meaning.specs.Checks.{narrow, same, fits};

use crate::operand::Operand;
use crate::value::Why;
use spec_form::Builtin;

/// Two numbers.
fn numbers(x: &Operand, y: &Operand) -> Result<(i128, i128), Why>
    ensures { result ≡ numbers x.now y.now }
{
    let first = x.number()?;
    let second = y.number()?;
    Ok((first, second))
}

/// A number of 128 bits, if it is one; TooWide exactly where there is none.
fn narrow<'a>(number: Option<i128>) -> Result<Operand<'a>, Why>
    ensures { (z : ℤ) → SomeIff number (FitsSigned w128 z) z → result ≡ narrow z }
{
    match number {
        Some(number) => Ok(Operand::of_number(number)),
        None => Err(Why::TooWide),
    }
}

pub(crate) fn difference<'a>(x: &Operand<'a>, y: &Operand<'a>) -> Result<Operand<'a>, Why>
    ensures { result ≡ applied Builtin.Minus (x.now ∷ y.now ∷ []) }
{
    let (x, y) = numbers(x, y)?;
    narrow(x.checked_sub(y))
}

pub(crate) fn negation<'a>(x: &Operand<'a>) -> Result<Operand<'a>, Why>
    ensures { result ≡ applied Builtin.Minus (x.now ∷ []) }
{
    narrow(x.number()?.checked_neg())
}

pub(crate) fn increment<'a>(x: &Operand<'a>) -> Result<Operand<'a>, Why>
    ensures { result ≡ applied Builtin.Increment (x.now ∷ []) }
{
    narrow(x.number()?.checked_add(1))
}

pub(crate) fn decrement<'a>(x: &Operand<'a>) -> Result<Operand<'a>, Why>
    ensures { result ≡ applied Builtin.Decrement (x.now ∷ []) }
{
    narrow(x.number()?.checked_sub(1))
}

pub(crate) fn less<'a>(x: &Operand<'a>, y: &Operand<'a>) -> Result<Operand<'a>, Why>
    ensures { result ≡ applied Builtin.Less (x.now ∷ y.now ∷ []) }
{
    let (x, y) = numbers(x, y)?;
    Ok(Operand::truth(x < y))
}

pub(crate) fn less_or_equal<'a>(x: &Operand<'a>, y: &Operand<'a>) -> Result<Operand<'a>, Why>
    ensures { result ≡ applied Builtin.LessOrEqual (x.now ∷ y.now ∷ []) }
{
    let (x, y) = numbers(x, y)?;
    Ok(Operand::truth(x <= y))
}

pub(crate) fn greater<'a>(x: &Operand<'a>, y: &Operand<'a>) -> Result<Operand<'a>, Why>
    ensures { result ≡ applied Builtin.Greater (x.now ∷ y.now ∷ []) }
{
    let (x, y) = numbers(x, y)?;
    Ok(Operand::truth(x > y))
}

pub(crate) fn greater_or_equal<'a>(x: &Operand<'a>, y: &Operand<'a>) -> Result<Operand<'a>, Why>
    ensures { result ≡ applied Builtin.GreaterOrEqual (x.now ∷ y.now ∷ []) }
{
    let (x, y) = numbers(x, y)?;
    Ok(Operand::truth(x >= y))
}

pub(crate) fn zp<'a>(x: &Operand<'a>) -> Result<Operand<'a>, Why>
    ensures { result ≡ applied Builtin.Zp (x.now ∷ []) }
{
    Ok(Operand::truth(x.number()? <= 0))
}

pub(crate) fn same_number<'a>(x: &Operand<'a>, y: &Operand<'a>) -> Result<Operand<'a>, Why>
    ensures { result ≡ applied Builtin.SameNumber (x.now ∷ y.now ∷ []) }
{
    let (x, y) = numbers(x, y)?;
    Ok(Operand::truth(x == y))
}

pub(crate) fn equal<'a>(a: &Operand<'a>, b: &Operand<'a>) -> Result<Operand<'a>, Why>
    ensures { result ≡ applied Builtin.Equal (a.now ∷ b.now ∷ []) }
{
    Ok(Operand::truth(a.is_same(b)))
}

pub(crate) fn is_false<'a>(a: &Operand<'a>) -> Result<Operand<'a>, Why>
    ensures { result ≡ applied Builtin.Not (a.now ∷ []) }
{
    Ok(Operand::truth(a.is_nil()))
}
