use crate::builder::{Builder, Fault};
use crate::views::alone;
use bit_blaster::blast;
use dag::{Node, NodeId};
use std::alloc::Global;

/// How many variables and clauses a node has beside those of its inputs.
#[derive(Clone, Copy)]
pub struct Cost {
    pub variables: u32,
    pub clauses: u32,
}

/// The names of the kinds of node.
pub const KINDS: [&str; 20] = [
    "Not", "And", "Or", "Xor", "Neg", "Plus", "Times", "Eq", "Ult", "Slt", "Ite", "Slice", "Cat",
    "Sext", "Shl", "Shr", "Udiv", "Urem", "Const", "Leaf",
];

/// The node of a kind over two words of a width and a bit.
pub fn node_of(kind: u32, width: u32, x: NodeId, y: NodeId, bit: NodeId) -> Node {
    match kind {
        0 => Node::Not(x),
        1 => Node::And(x, y),
        2 => Node::Or(x, y),
        3 => Node::Xor(x, y),
        4 => Node::Neg(x),
        5 => Node::Plus(x, y),
        6 => Node::Times(x, y),
        7 => Node::Eq(x, y),
        8 => Node::Ult(x, y),
        9 => Node::Slt(x, y),
        10 => Node::Ite(bit, x, y),
        11 => Node::Slice {
            high: width.saturating_sub(1),
            low: width / 2,
            a: x,
        },
        12 => Node::Cat(x, bit),
        13 => Node::Sext {
            width: width.saturating_add(8).min(64),
            a: x,
        },
        14 => Node::Shl(x, y),
        15 => Node::Shr(x, y),
        16 => Node::Udiv(x, y),
        17 => Node::Urem(x, y),
        18 => Node::Const { width, value: 1 },
        _ => Node::Leaf {
            width: 64,
            index: 12,
        },
    }
}

/// The lowest bits of an input word of 64 bits.
pub fn word(b: &mut Builder, number: u32, width: u32) -> Result<NodeId, Fault> {
    let a = b.long(number)?;
    b.put(Node::Slice {
        high: width.saturating_sub(1),
        low: 0,
        a,
    })
}

/// What the bits of a kind of node at a width cost, or None where it doesn't fit.
pub fn cost_of(alloc: Global, kind: u32, width: u32) -> Result<Option<Cost>, Fault> {
    let mut b = Builder::new(alloc, 65536)?;
    let x = word(&mut b, 0, width)?;
    let y = word(&mut b, 1, width)?;
    let bit = word(&mut b, 2, 1)?;
    let node = node_of(kind, width, x, y, bit);
    if !b.dag.fits(node) {
        return Ok(None);
    }
    let id = b.put(node)?;
    let view = alone(alloc, &b.dag, id)?;
    let Ok(blasted) = blast(alloc, view.nodes()) else {
        return Ok(None);
    };
    let mut inputs = 1u32;
    for node in view.nodes() {
        if let Node::Leaf { width, .. } = node {
            inputs = inputs.saturating_add(*width);
        }
    }
    Ok(Some(Cost {
        variables: blasted.formula.variables().saturating_sub(inputs),
        clauses: blasted.formula.clauses().saturating_sub(1),
    }))
}
