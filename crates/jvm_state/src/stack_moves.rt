ghost use Rattle.std.specs.Prelude.{◌≡◌, ◌∷◌, ℕ};
ghost use Rattle.jvm_state.specs.Stacks.{one_slot, second_slot, two_slots, pop_block, push_block, discard, duplicate, swap};
ghost use Rattle.jvm_state.specs.Stops.{Gives};

use crate::block::{Block, Span};
use crate::stack::Stack;
use crate::stop::{Halt, refuse};
use crate::value::{Reason, Value};

fn one_slot<I: Copy, L: Copy>(stack: &mut Stack<I, L>) -> Result<Block<I, L>, Halt>
    ensures { Gives (λ block. (block, stack.new)) result (one_slot stack.old) }
{
    match stack.pop()? {
        Value::Long(_) => refuse(Reason::WrongOperand),
        value => Ok(Block::OneValue(value)),
    }
}

/// The value under one that takes the upper of two slots.
fn second_slot<I: Copy, L: Copy>(
    first: Value<I, L>,
    stack: &mut Stack<I, L>,
) -> Result<Block<I, L>, Halt>
    ensures { Gives (λ block. (block, stack.new)) result (second_slot first stack.old) }
{
    match stack.pop()? {
        Value::Long(_) => refuse(Reason::WrongOperand),
        second => Ok(Block::TwoValues(first, second)),
    }
}

fn two_slots<I: Copy, L: Copy>(stack: &mut Stack<I, L>) -> Result<Block<I, L>, Halt>
    ensures { Gives (λ block. (block, stack.new)) result (two_slots stack.old) }
{
    match stack.pop()? {
        Value::Long(word) => Ok(Block::OneValue(Value::Long(word))),
        first => second_slot(first, stack),
    }
}

fn pop_block<I: Copy, L: Copy>(span: Span, stack: &mut Stack<I, L>) -> Result<Block<I, L>, Halt>
    ensures { Gives (λ block. (block, stack.new)) result (pop_block span stack.old) }
{
    match span {
        Span::NoSlot => Ok(Block::NoValue),
        Span::OneSlot => one_slot(stack),
        Span::TwoSlots => two_slots(stack),
    }
}

fn push_block<I: Copy, L: Copy>(
    depth: u16,
    block: Block<I, L>,
    stack: &mut Stack<I, L>,
) -> Result<(), Halt>
    ensures { Gives (λ _. stack.new) result (push_block depth block stack.old) }
{
    match block {
        Block::NoValue => Ok(()),
        Block::OneValue(value) => stack.push(value, depth),
        Block::TwoValues(first, second) => {
            stack.push(second, depth)?;
            stack.push(first, depth)
        }
    }
}

/// pop, pop2: takes the values of some slots; no long is cut.
pub fn discard<I: Copy, L: Copy>(span: Span, stack: &mut Stack<I, L>) -> Result<(), Halt>
    ensures { Gives (λ _. stack.new) result (discard span stack.old) }
{
    pop_block(span, stack)?;
    Ok(())
}

/// dup, dup_x1, dup_x2, dup2, dup2_x1, dup2_x2: puts the block at the top once more, under the block beneath it.
pub fn duplicate<I: Copy, L: Copy>(
    depth: u16,
    top: Span,
    beneath: Span,
    stack: &mut Stack<I, L>,
) -> Result<(), Halt>
    ensures { Gives (λ _. stack.new) result (duplicate depth top beneath stack.old) }
{
    let first = pop_block(top, stack)?;
    let second = pop_block(beneath, stack)?;
    push_block(depth, first, stack)?;
    push_block(depth, second, stack)?;
    push_block(depth, first, stack)
}

/// swap: exchanges the two values at the top.
pub fn swap<I: Copy, L: Copy>(depth: u16, stack: &mut Stack<I, L>) -> Result<(), Halt>
    ensures { Gives (λ _. stack.new) result (swap depth stack.old) }
{
    let first = one_slot(stack)?;
    let second = one_slot(stack)?;
    push_block(depth, first, stack)?;
    push_block(depth, second, stack)
}
