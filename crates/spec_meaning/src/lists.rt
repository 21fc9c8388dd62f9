//! The functions on lists of numbers: each is its line of the table.

ghost use Rattle.std.specs.Prelude.{◌≡◌, ◌<◌, ℕ, pos, OnOk, IfOk, MatchResult, [], ◌∷◌, ◌++◌, Ok, Err, length, slice_set};
ghost use Rattle.spec_meaning.specs.declared.value.Value.TheVariants.{List as Numbers};
ghost use Rattle.spec_meaning.specs.Table.{applied};
ghost use Rattle.spec_meaning.specs.Checks.{item, numbers_after, joined_after};
ghost use Rattle.spec_meaning.specs.Faults.{Gives};

use crate::checks::below;
use crate::fault::Fault;
use crate::operand::Operand;
use crate::value::Why;
use spec_form::Builtin;
use sqlite_items::Items;
use std::alloc::Global;

/// An element.
fn item<'a>(numbers: &[i128], place: i128) -> Result<Operand<'a>, Why>
    ensures { result ≡ item numbers.now place }
{
    let place = below(numbers.len(), place)?;
    Ok(Operand::of_number(numbers[place]))
}

pub(crate) fn car<'a>(a: &Operand<'a>) -> Result<Operand<'a>, Why>
    ensures { result ≡ applied Builtin.Car (a.now ∷ []) }
{
    item(a.list()?, 0)
}

pub(crate) fn nth<'a>(i: &Operand<'a>, a: &Operand<'a>) -> Result<Operand<'a>, Why>
    ensures { result ≡ applied Builtin.Nth (i.now ∷ a.now ∷ []) }
{
    let place = i.number()?;
    item(a.list()?, place)
}

pub(crate) fn len<'a>(a: &Operand<'a>) -> Result<Operand<'a>, Why>
    ensures { result ≡ applied Builtin.Len (a.now ∷ []) }
{
    Ok(Operand::of_number(a.list()?.len() as i128))
}

pub(crate) fn endp<'a>(a: &Operand<'a>) -> Result<Operand<'a>, Why>
    ensures { result ≡ applied Builtin.Endp (a.now ∷ []) }
{
    Ok(Operand::truth(a.list()?.is_empty()))
}

pub(crate) fn consp<'a>(a: &Operand<'a>) -> Result<Operand<'a>, Why>
    ensures { result ≡ applied Builtin.Consp (a.now ∷ []) }
{
    Ok(Operand::truth(a.is_pair()))
}

/// The list of the numbers.
pub(crate) fn list<'a>(alloc: Global, values: &[Operand<'a>]) -> Result<Operand<'a>, Fault<Why>>
    ensures { Gives (λ value. value) result (applied Builtin.List values.now) }
{
    let mut numbers = Items::new(alloc);
    for value in values {
        let number = value.number()?;
        numbers.push(number)?;
    }
    Ok(Operand::shared(alloc, numbers)?)
}

/// The lists joined.
pub(crate) fn append<'a>(alloc: Global, values: &[Operand<'a>]) -> Result<Operand<'a>, Fault<Why>>
    ensures { Gives (λ value. value) result (applied Builtin.Append values.now) }
{
    let mut numbers = Vec::new(alloc);
    for value in values {
        let more = value.list()?;
        numbers.extend_from_slice(more)?;
    }
    Ok(Operand::shared(alloc, Items::from_vec(numbers))?)
}

/// The list with a number before it.
pub(crate) fn cons<'a>(
    alloc: Global,
    x: &Operand<'a>,
    a: &Operand<'a>,
) -> Result<Operand<'a>, Fault<Why>>
    ensures { Gives (λ value. value) result (applied Builtin.Cons (x.now ∷ a.now ∷ [])) }
{
    let number = x.number()?;
    let rest = a.list()?;
    let mut numbers = Vec::new(alloc);
    numbers.push(number)?;
    numbers.extend_from_slice(rest)?;
    Ok(Operand::shared(alloc, Items::from_vec(numbers))?)
}

/// The list without its first element.
pub(crate) fn cdr<'a>(alloc: Global, a: &Operand<'a>) -> Result<Operand<'a>, Fault<Why>>
    ensures { Gives (λ value. value) result (applied Builtin.Cdr (a.now ∷ [])) }
{
    match a.list()?.split_first() {
        Some((_, rest)) => Ok(Operand::shared(alloc, Items::from_slice(alloc, rest)?)?),
        None => Ok(Operand::nil()),
    }
}

/// The list with an element replaced.
pub(crate) fn update_nth<'a>(
    alloc: Global,
    i: &Operand<'a>,
    v: &Operand<'a>,
    a: &Operand<'a>,
) -> Result<Operand<'a>, Fault<Why>>
    ensures { Gives (λ value. value) result (applied Builtin.UpdateNth (i.now ∷ v.now ∷ a.now ∷ [])) }
{
    let place = i.number()?;
    let number = v.number()?;
    let numbers = a.list()?;
    let place = below(numbers.len(), place)?;
    let mut numbers = Items::from_slice(alloc, numbers)?;
    numbers.set(place, number);
    Ok(Operand::shared(alloc, numbers)?)
}
