//! The evaluator's stack: it holds all values that open forms still need, so that a call makes no list of its own.

ghost use Rattle.std.specs.Prelude.{◌≡◌, ◌≤◌, ◌<◌, ◌+◌, ℕ, OnOk, vec_len, length, take, drop, [], ◌∷◌, ◌++◌};

use crate::operand::Operand;
use crate::value::Value;
use std::alloc::{AllocError, Global};

/// The values of the variables of all bodies that are open, the innermost last; the values of the parts that open
/// forms have evaluated so far; and how many forms may still be visited.
#[derive(Drop)]
pub(crate) struct Stack<'a> {
    pub(crate) variables: Vec<Operand<'a>>,
    pub(crate) parts: Vec<Operand<'a>>,
    pub(crate) left: u64,
}

impl<'a> Stack<'a> {
    /// An empty stack, where so many forms may be visited.
    pub(crate) fn new(alloc: Global, work: u64) -> Stack<'a>
        ensures variables { result.variables.items ≡ [] }
        ensures parts { result.parts.items ≡ [] }
        ensures left { result.left ≡ work }
    {
        Stack {
            variables: Vec::new(alloc),
            parts: Vec::new(alloc),
            left: work,
        }
    }

    /// Binds a variable to a value.
    pub(crate) fn bind(&mut self, value: Operand<'a>) -> Result<(), AllocError>
        ensures variables { OnOk result (self.new.variables.items ≡ self.old.variables.items ++ value.entry ∷ []) }
        ensures parts { OnOk result (self.new.parts.items ≡ self.old.parts.items) }
        ensures left { OnOk result (self.new.left ≡ self.old.left) }
    {
        self.variables.push(value)?;
        Ok(())
    }

    /// Binds a variable to each argument.
    pub(crate) fn bind_all(&mut self, args: &'a [Value]) -> Result<(), AllocError>
        ensures variables { OnOk result (self.new.variables.items ≡ self.old.variables.items ++ args.now) }
        ensures parts { OnOk result (self.new.parts.items ≡ self.old.parts.items) }
        ensures left { OnOk result (self.new.left ≡ self.old.left) }
    {
        lend_all(args, &mut self.variables)
    }

    /// Binds a variable to each value of the parts from `start` on, which leave the parts.
    pub(crate) fn bind_parts(&mut self, start: usize) -> Result<(), AllocError>
        requires { start ≤ vec_len self.old.parts }
        ensures variables { OnOk result (self.new.variables.items ≡ self.old.variables.items ++ drop start self.old.parts.items) }
        ensures parts { OnOk result (self.new.parts.items ≡ take start self.old.parts.items) }
        ensures left { OnOk result (self.new.left ≡ self.old.left) }
    {
        let (_, values) = self.parts.split_at(start);
        copy_all(values, &mut self.variables)?;
        self.parts.truncate(start);
        Ok(())
    }
}

/// Adds arguments to a list.
pub(crate) fn lend_all<'a>(args: &'a [Value], list: &mut Vec<Operand<'a>>) -> Result<(), AllocError>
    ensures { OnOk result (list.new.items ≡ list.old.items ++ args.now) }
{
    for arg in args {
        list.push(Operand::of_value(arg))?;
    }
    Ok(())
}

/// Adds values to a list.
fn copy_all<'a>(values: &[Operand<'a>], list: &mut Vec<Operand<'a>>) -> Result<(), AllocError>
    ensures { OnOk result (list.new.items ≡ list.old.items ++ values.now) }
{
    for value in values {
        list.push(value.copy()?)?;
    }
    Ok(())
}
