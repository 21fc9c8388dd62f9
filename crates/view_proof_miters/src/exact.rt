//! Each kind of node in clauses against its values in the graph.

ghost use Rattle.std.specs.Prelude.{◌≡◌, Some};

use crate::builder::{Builder, Fault};
use crate::kinds::{node_of, word};
use dag::{Dag, Node, NodeId};
use std::alloc::Global;
use view_proof::{Settled, settle};

/// Whether a kind of node at a width has the graph's values on some inputs, and no others, in its clauses; None where it
/// doesn't fit.
pub fn is_exact(alloc: Global, kind: u32, width: u32) -> Result<Option<bool>, Fault> {
    let mut b = Builder::new(alloc, 65536)?;
    let x = word(&mut b, 0, width)?;
    let y = word(&mut b, 1, width)?;
    let bit = word(&mut b, 2, 1)?;
    let node = node_of(kind, width, x, y, bit);
    if !b.dag.fits(node) {
        return Ok(None);
    }
    let id = b.put(node)?;
    for words in [
        [0, 0, 0],
        [u64::MAX, 3, 1],
        [0x8000_0000_8000_0091, 0x9e37_79b9_7f4a_7c15, 0],
    ] {
        if !is_exact_at(alloc, &mut b, id, words)? {
            return Ok(Some(false));
        }
    }
    Ok(Some(true))
}

/// Whether a node has the graph's value on an input, and no other.
fn is_exact_at(
    alloc: Global,
    b: &mut Builder,
    node: NodeId,
    words: [u64; 3],
) -> Result<bool, Fault> {
    let path = at_input(b, words)?;
    let Some(value) = value_there(alloc, &b.dag, path, node)? else {
        return Ok(false);
    };
    let width = b.dag.width_at(node).unwrap_or(1);
    let word = b.constant(width, value)?;
    let same = b.put(Node::Eq(node, word))?;
    let other = b.put(Node::Not(same))?;
    let is_other = b.put(Node::And(path, other))?;
    Ok(value_there(alloc, &b.dag, is_other, node)?.is_none())
}

/// The node that is 1 where the input words of 64 bits are these.
fn at_input(b: &mut Builder, words: [u64; 3]) -> Result<NodeId, Fault> {
    let mut path = NodeId(1);
    for (number, value) in words.iter().enumerate() {
        let leaf = b.long(number as u32)?;
        let word = b.constant(64, *value)?;
        let same = b.put(Node::Eq(leaf, word))?;
        path = b.put(Node::And(path, same))?;
    }
    Ok(path)
}

/// The value of a node on the input by which a path is reached, or None where it is never reached.
fn value_there(alloc: Global, dag: &Dag, path: NodeId, node: NodeId) -> Result<Option<u64>, Fault> {
    if dag.width_at(path) != Some(1) {
        return Err(Fault::Unfit);
    }
    match settle(alloc, dag, path, 10000)? {
        Settled::Reached(input) => {
            let mut values = vec![in alloc; 0; dag.len() as usize]?;
            dag.value_at(&input, &mut values);
            Ok(values.get(node.0 as usize).copied())
        }
        Settled::Never => Ok(None),
        _ => Err(Fault::Unfit),
    }
}
