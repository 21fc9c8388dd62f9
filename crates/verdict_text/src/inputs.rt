ghost use Rattle.std.specs.Prelude.{◌≡◌, ℕ, ◌++◌, IfOk, string_bytes, slice_index, option_map};
ghost use Rattle.axe_io.specs.Shapes.{width_of};
ghost use Rattle.verdict_text.specs.Texts.{param_value, input_line, input_from, input_text};

use crate::words::{word_text, words_text};
use axe_io::{Input, Param, Shape};
use std::alloc::{AllocError, Global};

/// The lines of an input, one for each parameter; none without a shape.
pub fn input_text(alloc: Global, shape: Option<&Shape>, input: &Input) -> Result<String, AllocError>
    ensures { IfOk result (λ text. string_bytes text ≡ input_text (option_map (λ s. s.now) shape.entry) input.now) }
{
    match shape {
        Some(shape) => lines(alloc, shape.params(), input.leaves()),
        None => Ok(String::new(alloc)),
    }
}

fn lines(alloc: Global, params: &[Param], leaves: &[u64]) -> Result<String, AllocError>
    ensures { IfOk result (λ text. string_bytes text ≡ input_from 0 params.now leaves.now) }
{
    let mut text = String::new(alloc);
    let mut left = leaves;
    for (at, param) in params.iter().enumerate() {
        let (own, others) = left.split_at(left.len().min(param.leaves() as usize));
        let line = line(alloc, at, param, own)?;
        text.push_str(&line)?;
        left = others;
    }
    Ok(text)
}

fn line(alloc: Global, at: usize, param: &Param, leaves: &[u64]) -> Result<String, AllocError>
    ensures { IfOk result (λ text. string_bytes text ≡ input_line at (param_value param.now.len (width_of param.now.kind) leaves.now)) }
{
    let value = value(alloc, param, leaves)?;
    format!(in alloc; "in {at} = {value}\n")
}

fn value(alloc: Global, param: &Param, leaves: &[u64]) -> Result<String, AllocError>
    ensures { IfOk result (λ text. string_bytes text ≡ param_value param.now.len (width_of param.now.kind) leaves.now) }
{
    let width = param.kind.width();
    match param.len {
        None => word_text(alloc, width, first(leaves)),
        Some(_) => words_text(alloc, width, leaves),
    }
}

fn first(leaves: &[u64]) -> u64
    ensures { result ≡ slice_index leaves.now 0 }
{
    leaves.first().copied().unwrap_or(0)
}
