//! What a bitwise node is a sum of: And is the overlap of its operands, the bits that both have; Or is their sum less
//! the overlap, and exclusive or is their sum less twice the overlap.

ghost use Rattle.std.specs.Prelude.{◌≡◌, ◌≤◌, ℕ, List, IsTrue, IfSome, Some, slice_get, slice_index, bit_and};
ghost use Rattle.dag.specs.declared.node.Node.TheVariants.{And as an_and, Or as an_or, Xor as a_xor};
ghost use Rattle.word_check.specs.Overlaps.{HasOverlap, IsOverlapOf};
ghost use Rattle.word_check.specs.Sums.{AreBitParts};

use crate::parts::node_at;
use crate::sums::{BitParts, Term};
use bv_words::{mask, times};
use dag::{Node, NodeId};

/// The parts of a factor times a bitwise node, in terms of its operands and their overlap.
pub fn bit_parts_of(nodes: &[Node], width: u32, term: Term) -> Option<BitParts>
    requires low { 1 ≤ width }
    requires high { width ≤ 64 }
    ensures { IfSome result (AreBitParts nodes.now width term) }
{
    match node_at(nodes, term.place)? {
        Node::And(a, b) => both(nodes, term, a, b),
        Node::Or(a, b) => either(nodes, width, term, a, b),
        Node::Xor(a, b) => one_of(nodes, width, term, a, b),
        _ => None,
    }
}

/// And: the overlap alone.
fn both(nodes: &[Node], term: Term, a: NodeId, b: NodeId) -> Option<BitParts>
    requires is { slice_get nodes.now term.place ≡ Some (an_and a b) }
    ensures { IfSome result (λ p. (width : ℕ) → AreBitParts nodes.now width term p) }
{
    let nothing = Term {
        factor: 0,
        place: a.0 as usize,
    };
    let place = overlap_place(nodes, a, b)?;
    Some(BitParts {
        left: nothing,
        right: nothing,
        both: Term {
            factor: term.factor,
            place,
        },
    })
}

/// Or: both operands, less the overlap.
fn either(nodes: &[Node], width: u32, term: Term, a: NodeId, b: NodeId) -> Option<BitParts>
    requires low { 1 ≤ width }
    requires high { width ≤ 64 }
    requires is { slice_get nodes.now term.place ≡ Some (an_or a b) }
    ensures { IfSome result (AreBitParts nodes.now width term) }
{
    let place = overlap_place(nodes, a, b)?;
    let opposite = times(width, term.factor, mask(width));
    Some(BitParts {
        left: Term {
            factor: term.factor,
            place: a.0 as usize,
        },
        right: Term {
            factor: term.factor,
            place: b.0 as usize,
        },
        both: Term {
            factor: opposite,
            place,
        },
    })
}

/// Exclusive or: both operands, less twice the overlap.
fn one_of(nodes: &[Node], width: u32, term: Term, a: NodeId, b: NodeId) -> Option<BitParts>
    requires low { 1 ≤ width }
    requires high { width ≤ 64 }
    requires is { slice_get nodes.now term.place ≡ Some (a_xor a b) }
    ensures { IfSome result (AreBitParts nodes.now width term) }
{
    let place = overlap_place(nodes, a, b)?;
    let opposite = times(width, term.factor, mask(width));
    Some(BitParts {
        left: Term {
            factor: term.factor,
            place: a.0 as usize,
        },
        right: Term {
            factor: term.factor,
            place: b.0 as usize,
        },
        both: Term {
            factor: times(width, opposite, 2),
            place,
        },
    })
}

/// The first place of a bitwise node with two operands, in either order.
fn overlap_place(nodes: &[Node], a: NodeId, b: NodeId) -> Option<usize>
    ensures { IfSome result (HasOverlap nodes.now a b) }
{
    for k in 0..nodes.len() {
        if has_overlap(nodes, k, a, b) {
            return Some(k);
        }
    }
    None
}

/// Whether the node at a place is bitwise with two operands, in either order.
fn has_overlap(nodes: &[Node], place: usize, a: NodeId, b: NodeId) -> bool
    ensures { IsTrue result → HasOverlap nodes.now a b place }
{
    let Some(node) = node_at(nodes, place) else {
        return false;
    };
    if has_operands(node, a, b) {
        return true;
    }
    has_operands(node, b, a)
}

/// Whether a node is bitwise with two operands in this order.
fn has_operands(node: Node, a: NodeId, b: NodeId) -> bool
    ensures { IsTrue result → IsOverlapOf a b node }
{
    match node {
        Node::And(c, d) => are_same(a, b, c, d),
        Node::Or(c, d) => are_same(a, b, c, d),
        Node::Xor(c, d) => are_same(a, b, c, d),
        _ => false,
    }
}

/// Whether two nodes are two others.
fn are_same(a: NodeId, b: NodeId, c: NodeId, d: NodeId) -> bool
    ensures { IsTrue result → (c ≡ a) × (d ≡ b) }
{
    a == c && b == d
}
