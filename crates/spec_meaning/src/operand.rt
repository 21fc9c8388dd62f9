//! Values on the evaluator's stack.

ghost use Rattle.std.specs.Prelude.{◌≡◌, IfOk, MatchResult, pos, [], Ok, Err};
ghost use Rattle.spec_meaning.specs.declared.value.Value.{Value as SpecValue};
ghost use Rattle.spec_meaning.specs.declared.value.Value.TheVariants.{Number, T, List as Numbers};
ghost use Rattle.std.specs.Ordering.{int_eq};
ghost use Rattle.std.specs.Cmp.Lexicographic.{pointwise};
ghost use Rattle.spec_meaning.specs.Operands.{value_of};
ghost use Rattle.spec_meaning.specs.Checks.{number as number_in, list as list_in, is_nil as is_nil_of, truth as truth_of, word as word_of, is_pair, same};

use crate::value::{Value, Why};
use sqlite_items::Items;
use std::alloc::{AllocError, AllocFailed, Global};
use std::marker::Model;
use std::rc::Rc;

/// A value that costs little to copy: a list is lent from the arguments or from the program, or it was computed and
/// is shared among the places where it stands.
#[derive(Drop)]
pub(crate) struct Operand<'a> {
    held: Held<'a>,
}

#[derive(Drop)]
pub(crate) enum Held<'a> {
    Number(i128),
    T,
    Lent(&'a [i128]),
    Shared(Rc<Items<i128>>),
}

impl<'a> Model for Operand<'a> {
    ghost Value = { SpecValue };

    ghost view = { λ operand. value_of operand.held };
}

impl<'a> Operand<'a> {
    pub(crate) fn of_number(number: i128) -> Operand<'a>
        ensures { result ≡ Number number }
    {
        Operand {
            held: Held::Number(number),
        }
    }

    pub(crate) fn of_word(word: u64) -> Operand<'a>
        ensures { result ≡ word_of word }
    {
        Operand::of_number(i128::from(word))
    }

    pub(crate) fn t() -> Operand<'a>
        ensures { result ≡ T }
    {
        Operand { held: Held::T }
    }

    pub(crate) fn lent(numbers: &'a [i128]) -> Operand<'a>
        ensures { result ≡ Numbers numbers.now }
    {
        Operand {
            held: Held::Lent(numbers),
        }
    }

    pub(crate) fn nil() -> Operand<'a>
        ensures { result ≡ Numbers [] }
    {
        Operand::lent(&[])
    }

    pub(crate) fn truth(holds: bool) -> Operand<'a>
        ensures { result ≡ truth_of holds }
    {
        if holds { Operand::t() } else { Operand::nil() }
    }

    pub(crate) fn shared(
        alloc: Global,
        numbers: Items<i128>,
    ) -> Result<Operand<'a>, AllocFailed<Items<i128>>>
        ensures { IfOk result (λ operand. operand ≡ Numbers numbers) }
    {
        Ok(Operand {
            held: Held::Shared(Rc::new(alloc, numbers)?),
        })
    }

    pub(crate) fn of_value(value: &'a Value) -> Operand<'a>
        ensures { result ≡ value.now }
    {
        match value {
            Value::Number(number) => Operand::of_number(*number),
            Value::T => Operand::t(),
            Value::List(numbers) => Operand::lent(numbers.as_slice()),
        }
    }

    /// The same value.
    pub(crate) fn copy(&self) -> Result<Operand<'a>, AllocError>
        ensures { IfOk result (λ copy. copy ≡ self.now) }
    {
        let held = match &self.held {
            Held::Number(number) => Held::Number(*number),
            Held::T => Held::T,
            Held::Lent(numbers) => Held::Lent(numbers),
            Held::Shared(numbers) => Held::Shared(numbers.clone()?),
        };
        Ok(Operand { held })
    }

    /// The value with a list of its own.
    pub(crate) fn into_value(self, alloc: Global) -> Result<Value, AllocError>
        ensures { IfOk result (λ value. value ≡ self.entry) }
    {
        match self.held {
            Held::Number(number) => Ok(Value::Number(number)),
            Held::T => Ok(Value::T),
            Held::Lent(numbers) => Ok(Value::List(Items::from_slice(alloc, numbers)?)),
            Held::Shared(numbers) => Ok(Value::List(owned(alloc, numbers)?)),
        }
    }

    /// A number; NotANumber exactly where the value is none.
    pub(crate) fn number(&self) -> Result<i128, Why>
        ensures { result ≡ number_in self.now }
    {
        match &self.held {
            Held::Number(number) => Ok(*number),
            Held::T | Held::Lent(_) | Held::Shared(_) => Err(Why::NotANumber),
        }
    }

    /// The elements of a list; NotAList exactly where the value is none.
    pub(crate) fn list(&self) -> Result<&[i128], Why>
        ensures { MatchResult result (λ numbers. list_in self.now ≡ Ok numbers.now) (λ why. list_in self.now ≡ Err why) }
    {
        match &self.held {
            Held::Number(_) | Held::T => Err(Why::NotAList),
            Held::Lent(numbers) => Ok(numbers),
            Held::Shared(numbers) => Ok(numbers.as_slice()),
        }
    }

    /// Whether the value is a list that isn't empty.
    pub(crate) fn is_pair(&self) -> bool
        ensures { result ≡ is_pair self.now }
    {
        match &self.held {
            Held::Number(_) | Held::T => false,
            Held::Lent(numbers) => !numbers.is_empty(),
            Held::Shared(numbers) => !numbers.is_empty(),
        }
    }

    /// Whether two values are equal.
    pub(crate) fn is_same(&self, other: &Operand) -> bool
        ensures { result ≡ same self.now other.now }
    {
        match (&self.held, &other.held) {
            (Held::Number(first), Held::Number(second)) => first == second,
            (Held::T, Held::T) => true,
            _ => match (self.list(), other.list()) {
                (Ok(first), Ok(second)) => are_same(first, second),
                _ => false,
            },
        }
    }

    /// Whether the value is the empty list, which alone is false in a test.
    pub(crate) fn is_nil(&self) -> bool
        ensures { result ≡ is_nil_of self.now }
    {
        match &self.held {
            Held::Number(_) | Held::T => false,
            Held::Lent(numbers) => numbers.is_empty(),
            Held::Shared(numbers) => numbers.is_empty(),
        }
    }
}

/// The numbers of a list that others may share.
fn owned(alloc: Global, numbers: Rc<Items<i128>>) -> Result<Items<i128>, AllocError>
    ensures { IfOk result (λ own. own ≡ numbers.value) }
{
    match Rc::try_unwrap(numbers) {
        Ok(numbers) => Ok(numbers),
        Err(numbers) => Items::from_slice(alloc, numbers.as_slice()),
    }
}

/// Whether two lists have the same elements.
fn are_same(first: &[i128], second: &[i128]) -> bool
    ensures { result ≡ pointwise int_eq first.now second.now }
{
    first == second
}
