ghost use Rattle.std.specs.Prelude.{◌≡◌, ◌≤◌, ◌<◌, ◌^◌, ◌++◌, length, take, drop, slice_index, IfOk, OnOk};
ghost use Rattle.axe_io.specs.Shapes.{leaf_count, leaf_widths};
ghost use Rattle.jvm_meaning.specs.Runs.{argument, argument_in, arguments, chopped, arrays_of, arrays_behind, parameter_arrays};

use crate::arithmetic::narrowed;
use axe_io::{Kind, Param};
use bv_words::chop;
use jvm_state::{Array, Arrays, Cells, Value};
use std::alloc::{AllocError, Global};

/// The argument that a scalar's leaf stands for.
fn argument(kind: Kind, leaf: u64) -> Value
    ensures { result ≡ argument kind leaf }
{
    match kind {
        Kind::Long => Value::Long(leaf),
        _ => Value::Int(narrowed(kind, chop(32, leaf) as u32)),
    }
}

/// The first of some items, as many as there are of these, and the items behind them.
pub fn split<T>(count: usize, items: &[T]) -> (&[T], &[T])
    ensures front { result.0.now ≡ take count items.now }
    ensures few { length result.0.now ≤ count }
    ensures behind { result.1.now ≡ drop count items.now }
{
    items.split_at(count.min(items.len()))
}

fn first_leaf(leaves: &[u64]) -> u64
    ensures { result ≡ slice_index leaves.now 0 }
{
    match leaves.first() {
        Some(leaf) => *leaf,
        None => 0,
    }
}

/// A parameter's argument, from the leaves that begin with its own; an array's is the next of the arrays.
fn argument_in(param: Param, arrays: u32, leaves: &[u64]) -> Value
    ensures { result ≡ argument_in param.len arrays param.kind leaves.now }
{
    match param.len {
        Some(_) => Value::Array(arrays),
        None => argument(param.kind, first_leaf(leaves)),
    }
}

/// An argument for each parameter.
pub fn arguments(alloc: Global, params: &[Param], leaves: &[u64]) -> Result<Vec<Value>, AllocError>
    ensures { IfOk result (λ values. values.items ≡ arguments 0 params.now leaves.now) }
{
    let mut values = Vec::new(alloc);
    let mut arrays = 0u32;
    let mut rest = leaves;
    for param in params {
        values.push(argument_in(*param, arrays, rest))?;
        arrays = arrays_behind(param.len, arrays)?;
        rest = split(param.leaves() as usize, rest).1;
    }
    Ok(values)
}

/// How many arrays there are behind a parameter.
fn arrays_behind(len: Option<u32>, arrays: u32) -> Result<u32, AllocError>
    ensures { IfOk result (λ n. n ≡ arrays_behind len arrays) }
{
    match len {
        Some(_) => match arrays.checked_add(1) {
            Some(more) => Ok(more),
            None => Err(AllocError),
        },
        None => Ok(arrays),
    }
}

/// Leaves as elements of a kind.
#[tactic(auto, using(crate::proofs::ArgumentLemmas::chopped_count))]
fn chopped(alloc: Global, kind: Kind, leaves: &[u64]) -> Result<Cells<u64>, AllocError>
    ensures elements { IfOk result (λ elements. elements ≡ chopped kind leaves.now) }
    ensures count { IfOk result (λ elements. length elements ≡ length leaves.now) }
{
    let mut elements = Cells::new(alloc);
    for leaf in leaves {
        elements.push(chop(kind.width(), *leaf))?;
    }
    Ok(elements)
}

/// One more array, if a parameter is one.
fn add_array(
    alloc: Global,
    param: Param,
    leaves: &[u64],
    arrays: &mut Arrays,
) -> Result<(), AllocError>
    requires { leaf_count param < 2 ^ 31 }
    ensures { OnOk result (arrays.new ≡ arrays.old ++ arrays_of param.len param.kind leaves.now) }
{
    let Some(count) = param.len else {
        return Ok(());
    };
    let elements = chopped(alloc, param.kind, split(count as usize, leaves).0)?;
    arrays.push(Array::Words(param.kind, elements))
}

/// Makes the arrays those of the parameters.
pub fn parameter_arrays(
    alloc: Global,
    params: &[Param],
    leaves: &[u64],
    arrays: &mut Arrays,
) -> Result<(), AllocError>
    requires { length (leaf_widths params.now) < 2 ^ 31 }
    ensures { OnOk result (arrays.new ≡ parameter_arrays params.now leaves.now) }
{
    arrays.clear();
    let mut rest = leaves;
    for param in params {
        add_array(alloc, *param, rest, arrays)?;
        rest = split(param.leaves() as usize, rest).1;
    }
    Ok(())
}
