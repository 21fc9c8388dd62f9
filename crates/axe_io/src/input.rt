ghost use Rattle.std.specs.Prelude.{◌≡◌, ◌↔◌, ℕ, ◌+◌, ◌-◌, ◌^◌, ◌<◌, ◌≤◌, IsTrue, length, List, ◌∷◌, ◌++◌, take, drop, replicate, slice_index, slice_get, Some, IfOk, MatchOption};
ghost use Rattle.std.specs.Bool.{OnTrue, OnFalse};
ghost use Rattle.axe_io.specs.Shapes.{leaf_widths};
ghost use Rattle.axe_io.specs.Inputs.{IsInput, IsLast, number_of, bits_of, input_at, AreCounted, CanRise, raised};

use crate::shape::Shape;
use memory::Memory;
use std::alloc::Global;
use std::marker::Model;

/// An input: one number for each leaf of a shape, each below 2 to its leaf's width.
#[derive(Debug, Drop)]
pub struct Input {
    leaves: Vec<u64>,
}

impl Model for Input {
    ghost use Rattle.std.specs.Prelude.{List, ℕ};

    ghost Value = { List ℕ };

    ghost view = { λ i. i.leaves.items };
}

impl Input {
    /// The input of these leaves.
    pub fn of(leaves: Vec<u64>) -> Input
        ensures { result ≡ leaves.items }
    {
        Input { leaves }
    }

    /// The leaf of a number, counted from 0.
    pub fn leaf(&self, k: u32) -> u64
        requires { k < length self.now }
        ensures { slice_get self.now k ≡ Some result }
    {
        self.leaves[k as usize]
    }

    /// All leaves in order.
    pub fn leaves(&self) -> &[u64]
        ensures { result.now ≡ self.now }
    {
        &self.leaves
    }

    /// The first input in counting order: each leaf is 0.
    pub fn first(alloc: Global, shape: &Shape) -> Result<Input, Memory>
        ensures zeros { IfOk result (λ input. input ≡ replicate (length (leaf_widths shape.now.params)) 0) }
        ensures fits { IfOk result (λ input. IsInput (leaf_widths shape.now.params) input) }
        ensures first { IfOk result (λ input. number_of (leaf_widths shape.now.params) input ≡ 0) }
    {
        let leaves = vec![in alloc; 0; shape.leaves() as usize]?;
        Ok(Input { leaves })
    }

    /// An equal input.
    pub fn copy(&self, alloc: Global) -> Result<Input, Memory>
        ensures { IfOk result (λ input. input ≡ self.now) }
    {
        let leaves = Vec::from_slice(alloc, &self.leaves)?;
        Ok(Input { leaves })
    }

    /// Goes to the next input in counting order, which reads all leaves as one binary number, the first leaf
    /// highest. Answers false exactly where the input was the last, which then stays.
    pub fn next(&mut self, shape: &Shape) -> bool
        requires { IsInput (leaf_widths shape.now.params) self.old }
        ensures fits { IsInput (leaf_widths shape.now.params) self.new }
        ensures next { OnTrue result (number_of (leaf_widths shape.now.params) self.new ≡ number_of (leaf_widths shape.now.params) self.old + 1) }
        ensures last { OnFalse result (IsLast (leaf_widths shape.now.params) self.old × (self.new ≡ self.old)) }
    {
        match last_to_rise(shape, &self.leaves) {
            Some(at) => {
                raise(&mut self.leaves, at);
                true
            }
            None => false,
        }
    }
}

/// The greatest number of a width.
fn greatest(width: u32) -> u64
    requires narrow { width ≤ 64 }
    ensures { result + 1 ≡ 2 ^ width }
{
    if width == 64 {
        u64::MAX
    } else {
        (1u64 << width) - 1
    }
}

/// The place of the last leaf that isn't the greatest number of its width.
fn last_to_rise(shape: &Shape, leaves: &[u64]) -> Option<usize>
    requires { IsInput (leaf_widths shape.now.params) leaves.now }
    ensures { MatchOption result (IsLast (leaf_widths shape.now.params) leaves.now) (CanRise (leaf_widths shape.now.params) leaves.now) }
{
    let mut at = shape.leaves();
    while at > 0 {
        at -= 1;
        if leaves[at as usize] != greatest(shape.leaf_width(at)) {
            return Some(at as usize);
        }
    }
    None
}

/// Adds one to a leaf and makes 0 of each leaf after it.
fn raise(leaves: &mut [u64], at: usize)
    requires within { at < length leaves.old }
    requires room { slice_index leaves.old at + 1 < 2 ^ 64 }
    ensures { leaves.new ≡ raised leaves.old at }
{
    let (_before, tail) = leaves.split_at_mut(at);
    if let Some((leaf, later)) = tail.split_first_mut() {
        *leaf += 1;
        later.fill(0);
    }
}

/// Inputs and their numbers stand for each other.
pub fn inputs_are_counted()
    ensures { AreCounted }
{}
