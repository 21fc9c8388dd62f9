//! What a node is a sum of.

ghost use Rattle.std.specs.Prelude.{◌≡◌, ◌<◌, ◌≤◌, ◌^◌, ◌-◌, ◌+◌, IsTrue, IfSome, Some, length, slice_get, slice_index};
ghost use Rattle.dag.specs.declared.node.Node.TheVariants.{Const as a_constant, Not as a_not, Neg as a_neg, Plus as a_plus, Times as a_times, Shl as a_shl, Slice as a_slice, Cat as a_cat};
ghost use Rattle.word_check.specs.Sums.{AreParts, Wraps, IsMultiple};

use crate::sums::{Parts, Term};
use bv_words::{mask, shl, times};
use dag::{Node, NodeId};

/// The parts of a factor times a node, where the node is a constant, a sum, minus or the turned bits of another node, a
/// product with a constant, a node moved up by one, the lowest bits of a node, or two nodes joined. A sum that wraps round has parts only where
/// the factor takes what is lost out of the word.
pub fn parts_of(nodes: &[Node], widths: &[u32], width: u32, term: Term) -> Option<Parts>
    requires low { 1 ≤ width }
    requires high { width ≤ 64 }
    ensures { IfSome result (AreParts nodes.now widths.now width term) }
{
    let node = node_at(nodes, term.place)?;
    match node {
        Node::Const { value, .. } => Some(constant(times(width, term.factor, value))),
        Node::Neg(a) => minus(nodes, widths, width, term, a),
        Node::Not(a) => turned(nodes, widths, width, term, a),
        Node::Plus(a, b) => both(nodes, widths, width, term, a, b),
        Node::Times(a, b) => product(nodes, widths, width, term, a, b),
        Node::Shl(a, b) => raised(nodes, widths, width, term, a, b),
        Node::Slice { high, low, a } => lowest(nodes, widths, width, term, high, low, a),
        Node::Cat(a, b) => joined(nodes, widths, width, term, a, b),
        _ => None,
    }
}

/// A constant alone.
fn constant(value: u64) -> Parts
    ensures constant { result.constant ≡ value }
    ensures left { result.left.factor ≡ 0 }
    ensures right { result.right.factor ≡ 0 }
{
    let nothing = Term {
        factor: 0,
        place: 0,
    };
    Parts {
        constant: value,
        left: nothing,
        right: nothing,
    }
}

/// Whether a factor takes a number of a node's width out of the word.
fn wraps(widths: &[u32], width: u32, factor: u64, a: NodeId) -> Option<u32>
    requires low { 1 ≤ width }
    requires high { width ≤ 64 }
    ensures { IfSome result (λ u. (slice_get widths.now a.0 ≡ Some u) × Wraps width factor u) }
{
    let bits = width_at(widths, a)?;
    if shl(width, factor, bits as u64) == 0 {
        Some(bits)
    } else {
        None
    }
}

/// Minus a node.
fn minus(nodes: &[Node], widths: &[u32], width: u32, term: Term, a: NodeId) -> Option<Parts>
    requires low { 1 ≤ width }
    requires high { width ≤ 64 }
    requires is { slice_get nodes.now term.place ≡ Some (a_neg a) }
    ensures { IfSome result (AreParts nodes.now widths.now width term) }
{
    wraps(widths, width, term.factor, a)?;
    let left = Term {
        factor: times(width, term.factor, mask(width)),
        place: a.0 as usize,
    };
    Some(Parts {
        left,
        ..constant(0)
    })
}

/// The turned bits of a node: minus the node, minus 1.
fn turned(nodes: &[Node], widths: &[u32], width: u32, term: Term, a: NodeId) -> Option<Parts>
    requires low { 1 ≤ width }
    requires high { width ≤ 64 }
    requires is { slice_get nodes.now term.place ≡ Some (a_not a) }
    ensures { IfSome result (AreParts nodes.now widths.now width term) }
{
    wraps(widths, width, term.factor, a)?;
    let opposite = times(width, term.factor, mask(width));
    let left = Term {
        factor: opposite,
        place: a.0 as usize,
    };
    Some(Parts {
        left,
        ..constant(opposite)
    })
}

/// A sum of two nodes.
fn both(
    nodes: &[Node],
    widths: &[u32],
    width: u32,
    term: Term,
    a: NodeId,
    b: NodeId,
) -> Option<Parts>
    requires low { 1 ≤ width }
    requires high { width ≤ 64 }
    requires is { slice_get nodes.now term.place ≡ Some (a_plus a b) }
    ensures { IfSome result (AreParts nodes.now widths.now width term) }
{
    wraps(widths, width, term.factor, a)?;
    Some(Parts {
        constant: 0,
        left: Term {
            factor: term.factor,
            place: a.0 as usize,
        },
        right: Term {
            factor: term.factor,
            place: b.0 as usize,
        },
    })
}

/// A product with a constant, on either side.
fn product(
    nodes: &[Node],
    widths: &[u32],
    width: u32,
    term: Term,
    a: NodeId,
    b: NodeId,
) -> Option<Parts>
    requires low { 1 ≤ width }
    requires high { width ≤ 64 }
    requires is { slice_get nodes.now term.place ≡ Some (a_times a b) }
    ensures { IfSome result (AreParts nodes.now widths.now width term) }
{
    wraps(widths, width, term.factor, a)?;
    let left = times_constant(nodes, width, term.factor, a, b);
    let left = match left {
        Some(left) => left,
        None => times_constant(nodes, width, term.factor, b, a)?,
    };
    Some(Parts {
        left,
        ..constant(0)
    })
}

/// A factor times a node, where another node is a constant that the factor is multiplied by.
fn times_constant(nodes: &[Node], width: u32, factor: u64, a: NodeId, b: NodeId) -> Option<Term>
    requires low { 1 ≤ width }
    requires high { width ≤ 64 }
    ensures { IfSome result (IsMultiple nodes.now width factor a.0 b.0) }
{
    let Node::Const { value, .. } = node_at(nodes, b.0 as usize)? else {
        return None;
    };
    Some(Term {
        factor: times(width, factor, value),
        place: a.0 as usize,
    })
}

/// A node moved up by a constant.
fn raised(
    nodes: &[Node],
    widths: &[u32],
    width: u32,
    term: Term,
    a: NodeId,
    b: NodeId,
) -> Option<Parts>
    requires low { 1 ≤ width }
    requires high { width ≤ 64 }
    requires is { slice_get nodes.now term.place ≡ Some (a_shl a b) }
    ensures { IfSome result (AreParts nodes.now widths.now width term) }
{
    wraps(widths, width, term.factor, a)?;
    let Node::Const { value, .. } = node_at(nodes, b.0 as usize)? else {
        return None;
    };
    let left = Term {
        factor: shl(width, term.factor, value),
        place: a.0 as usize,
    };
    Some(Parts {
        left,
        ..constant(0)
    })
}

/// The lowest bits of a node.
fn lowest(
    nodes: &[Node],
    widths: &[u32],
    width: u32,
    term: Term,
    high: u32,
    low: u32,
    a: NodeId,
) -> Option<Parts>
    requires low { 1 ≤ width }
    requires high { width ≤ 64 }
    requires is { slice_get nodes.now term.place ≡ Some (a_slice high low a) }
    ensures { IfSome result (AreParts nodes.now widths.now width term) }
{
    if low != 0 || shl(width, term.factor, high as u64 + 1) != 0 {
        return None;
    }
    let left = Term {
        factor: term.factor,
        place: a.0 as usize,
    };
    Some(Parts {
        left,
        ..constant(0)
    })
}

/// Two nodes joined: the high one times a power of 2, and the low one.
fn joined(
    nodes: &[Node],
    widths: &[u32],
    width: u32,
    term: Term,
    a: NodeId,
    b: NodeId,
) -> Option<Parts>
    requires low { 1 ≤ width }
    requires high { width ≤ 64 }
    requires is { slice_get nodes.now term.place ≡ Some (a_cat a b) }
    ensures { IfSome result (AreParts nodes.now widths.now width term) }
{
    let bits = width_at(widths, b)?;
    let left = Term {
        factor: shl(width, term.factor, bits as u64),
        place: a.0 as usize,
    };
    let right = Term {
        factor: term.factor,
        place: b.0 as usize,
    };
    Some(Parts {
        constant: 0,
        left,
        right,
    })
}

/// The node at a place, or None from the last on.
pub fn node_at(nodes: &[Node], place: usize) -> Option<Node>
    ensures { result ≡ slice_get nodes.now place }
{
    nodes.get(place).copied()
}

/// The width of a node, or None from the last on.
pub fn width_at(widths: &[u32], a: NodeId) -> Option<u32>
    ensures { result ≡ slice_get widths.now a.0 }
{
    widths.get(a.0 as usize).copied()
}
