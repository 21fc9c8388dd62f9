ghost use Rattle.std.specs.Prelude.{◌≡◌, ◌≤◌, ◌+◌, [], ◌∷◌, ℕ, MatchOption, Ok, Option, length};
ghost use Rattle.jvm_state.specs.Values.{depth_of};
ghost use Rattle.jvm_state.specs.Stacks.{push as push_of, pop as pop_of, pop_sort as pop_sort_of, pop_int as pop_int_of, pop_reference as pop_reference_of};
ghost use Rattle.jvm_state.specs.Stops.{Gives};

use crate::sorts::Sort;
use crate::stop::{Halt, refuse};
use crate::value::{Reason, Value};
use std::alloc::Global;
use std::marker::Model;

/// An operand stack (JVM Specification SE 8, section 2.6.2). Contracts see its values from the top.
#[derive(Drop)]
pub struct Stack<I = u32, L = u64> {
    values: Vec<Value<I, L>>,
    slots: u32,
}

impl<I, L> Model for Stack<I, L> {
    ghost use Rattle.std.specs.Prelude.{◌≡◌, ◌≤◌, List, reverse};
    ghost use Rattle.jvm_state.specs.declared.value.Value.{Value as Operand};
    ghost use Rattle.jvm_state.specs.Values.{depth_of};

    ghost Value = { List (Operand I L) };

    ghost view = { λ s. reverse s.values.items };

    ghost invariant = { λ s. (s.slots ≡ depth_of (reverse s.values.items)) × (s.slots ≤ 65535) };
}

impl<I: Copy, L: Copy> Stack<I, L> {
    /// The empty stack.
    pub fn new(alloc: Global) -> Stack<I, L>
        ensures { result ≡ [] }
    {
        Stack {
            values: Vec::new(alloc),
            slots: 0,
        }
    }

    /// Takes all values.
    pub fn clear(&mut self)
        ensures { self.new ≡ [] }
    {
        self.values.clear();
        self.slots = 0;
    }

    /// Puts a value at the top, where the stack stays within a depth.
    pub fn push(&mut self, value: Value<I, L>, depth: u16) -> Result<(), Halt>
        ensures { Gives (λ _. self.new) result (push_of depth value self.old) }
    {
        let slots = self.slots + value.slots();
        if slots > u32::from(depth) {
            return refuse(Reason::BadCode);
        }
        self.values.push(value)?;
        self.slots = slots;
        Ok(())
    }

    /// Takes the value at the top.
    pub fn pop(&mut self) -> Result<Value<I, L>, Halt>
        ensures { Gives (λ value. (value, self.new)) result (pop_of self.old) }
    {
        match self.values.pop() {
            Some(value) => {
                self.slots -= value.slots();
                Ok(value)
            }
            None => refuse(Reason::WrongOperand),
        }
    }

    /// Takes the value at the top, which has to be of a sort.
    pub fn pop_sort(&mut self, sort: Sort) -> Result<Value<I, L>, Halt>
        ensures { Gives (λ value. (value, self.new)) result (pop_sort_of sort self.old) }
    {
        let value = self.pop()?;
        if sort.has(value) {
            Ok(value)
        } else {
            refuse(Reason::WrongOperand)
        }
    }

    /// Takes the int at the top.
    pub fn pop_int(&mut self) -> Result<I, Halt>
        ensures { Gives (λ n. (n, self.new)) result (pop_int_of self.old) }
    {
        match self.pop()? {
            Value::Int(word) => Ok(word),
            _ => refuse(Reason::WrongOperand),
        }
    }

    /// Takes the reference at the top: an array's number, or None where it is null.
    pub fn pop_reference(&mut self) -> Result<Option<u32>, Halt>
        ensures { Gives (λ r. (r, self.new)) result (pop_reference_of self.old) }
    {
        match self.pop()? {
            Value::Null => Ok(None),
            Value::Array(number) => Ok(Some(number)),
            _ => refuse(Reason::WrongOperand),
        }
    }
}
