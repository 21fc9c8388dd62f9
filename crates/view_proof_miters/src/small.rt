//! Pairs with a small view in a large graph.

use crate::builder::{Builder, Fault};
use crate::found::{Came, found};
use dag::Node;
use std::alloc::Global;

/// Adds so many sums to a graph, and then proves so many times that two sums of its first words are equal. Answers how
/// many of these proofs took no line.
pub fn small_views(alloc: Global, nodes: u32, times: u32) -> Result<u32, Fault> {
    let mut b = Builder::new(alloc, 0x1000_0000)?;
    let (x, y, z) = (b.input(0)?, b.input(1)?, b.input(2)?);
    let first = b.put(Node::Plus(x, y))?;
    let left = b.put(Node::Plus(first, z))?;
    let second = b.put(Node::Plus(y, z))?;
    let right = b.put(Node::Plus(x, second))?;
    let mut last = right;
    for _ in 0..nodes {
        last = b.put(Node::Plus(last, x))?;
    }
    let mut proved = 0u32;
    for _ in 0..times {
        if let Came::Equal { lines: 0 } = found(alloc, &b.dag, (left, right), None, 1000)? {
            proved = proved.saturating_add(1);
        }
    }
    Ok(proved)
}
