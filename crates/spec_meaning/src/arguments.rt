ghost use Rattle.std.specs.Prelude.{◌≡◌, ◌≤◌, ◌<◌, ℕ, IfOk, length, pos, map, take, drop, [], ◌++◌, ◌∷◌, slice_index};
ghost use Rattle.spec_meaning.specs.Arguments.{argument, spec_arguments};

use crate::value::Value;
use axe_io::{Input, Param, Shape};
use memory::Memory;
use sqlite_items::Items;
use std::alloc::{AllocError, Global};

/// The arguments of a function that an input of a shape stands for: a number for each scalar parameter and a list
/// for each array, without signs.
pub fn args_of(alloc: Global, shape: &Shape, input: &Input) -> Result<Items<Value>, Memory>
    ensures { IfOk result (λ args. args ≡ spec_arguments shape.now.params input.now) }
{
    let args = arguments(alloc, shape.params(), input.leaves())?;
    Ok(args)
}

fn arguments(alloc: Global, params: &[Param], leaves: &[u64]) -> Result<Items<Value>, AllocError>
    ensures { IfOk result (λ args. args ≡ spec_arguments params.now leaves.now) }
{
    let mut args = Items::new(alloc);
    let mut left = leaves;
    for param in params {
        let (own, others) = left.split_at(left.len().min(param.leaves() as usize));
        args.push(argument(alloc, param.len, own)?)?;
        left = others;
    }
    Ok(args)
}

fn argument(alloc: Global, length: Option<u32>, leaves: &[u64]) -> Result<Value, AllocError>
    ensures { IfOk result (λ value. value ≡ argument length leaves.now) }
{
    match length {
        None => Ok(Value::Number(i128::from(first(leaves)))),
        Some(_) => Ok(Value::List(numbers(alloc, leaves)?)),
    }
}

fn first(leaves: &[u64]) -> u64
    ensures { result ≡ slice_index leaves.now 0 }
{
    leaves.first().copied().unwrap_or(0)
}

fn numbers(alloc: Global, leaves: &[u64]) -> Result<Items<i128>, AllocError>
    ensures { IfOk result (λ numbers. numbers ≡ map pos leaves.now) }
{
    let mut numbers = Items::new(alloc);
    for leaf in leaves {
        numbers.push(i128::from(*leaf))?;
    }
    Ok(numbers)
}
