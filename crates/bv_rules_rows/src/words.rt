//! The words for nodes.

ghost use Rattle.std.specs.Prelude.{◌≡◌, ◌≢◌, [], ◌∷◌, ◌++◌, map, slice_index_or, codes, string_bytes, IfOk, MatchOption};
ghost use Rattle.dag.specs.declared.node.Node.{Node};
ghost use Rattle.axe_io.specs.Shapes.{leaf_widths};
ghost use Rattle.bv_rules_rows.specs.Terms.{name as name_is, IsLeaf, IsConstant, IsOperation, leaf_names, term, with_children as with_children_is};

use axe_io::Shape;
use case_tables::first_of;
use dag::{Node, NodeId};
use std::alloc::{AllocError, Global};

/// The leaves that a term may name, in the order of the shape of `terms`: each has its width in its name.
pub(crate) const LEAVES: [&str; 12] = [
    "x8", "y8", "z8", "x16", "y16", "z16", "x32", "y32", "z32", "x64", "y64", "z64",
];

/// The leaf of a name.
pub(crate) fn leaf(shape: &Shape, word: &str) -> Option<Node>
    ensures { MatchOption result ((n : Node) → IsLeaf (leaf_widths shape.now.params) word.now n → ⊥) (IsLeaf (leaf_widths shape.now.params) word.now) }
{
    let index = LEAVES.iter().position(|name| *name == word)? as u32;
    let width = shape.width_at(index)?;
    Some(Node::Leaf { width, index })
}

/// The name of the leaf of an index, or nothing from the last on.
fn leaf_name(index: u32) -> &'static str
    ensures { result.now ≡ slice_index_or leaf_names index [] }
{
    LEAVES.get(index as usize).copied().unwrap_or("")
}

/// The constant that a word gives as `value:width`.
pub(crate) fn constant(word: &str) -> Option<Node>
    ensures { MatchOption result ((n : Node) → IsConstant word.now n → ⊥) (IsConstant word.now) }
{
    let (value, width) = word.split_once(':')?;
    let value = value.parse::<u64>().ok()?;
    let width = width.parse::<u32>().ok()?;
    Some(Node::Const { width, value })
}

/// The name of a node's kind; a leaf and a constant have none.
pub(crate) fn name_of(node: Node) -> &'static str
    ensures { result.now ≡ name_is node }
{
    match node {
        Node::Leaf { .. } | Node::Const { .. } => "",
        Node::Not(_) => "not",
        Node::And(..) => "and",
        Node::Or(..) => "or",
        Node::Xor(..) => "xor",
        Node::Neg(_) => "neg",
        Node::Plus(..) => "plus",
        Node::Times(..) => "times",
        Node::Eq(..) => "eq",
        Node::Ult(..) => "ult",
        Node::Slt(..) => "slt",
        Node::Ite(..) => "ite",
        Node::Slice { .. } => "slice",
        Node::Cat(..) => "cat",
        Node::Sext { .. } => "sext",
        Node::Shl(..) => "shl",
        Node::Shr(..) => "shr",
        Node::Udiv(..) => "udiv",
        Node::Urem(..) => "urem",
    }
}

/// A node, if it has a name.
fn named(name: &str, node: Node) -> Option<Node>
    ensures { MatchOption result (name_is node ≢ name.now) (λ n. (n ≡ node) × (name_is n ≡ name.now)) }
{
    if name_of(node) == name {
        Some(node)
    } else {
        None
    }
}

/// The node of a name with these numbers and children.
pub(crate) fn operation(name: &str, numbers: &[u32], children: &[NodeId]) -> Option<Node>
    ensures { MatchOption result ((n : Node) → IsOperation name.now numbers.now children.now n → ⊥) (IsOperation name.now numbers.now children.now) }
{
    match (numbers, children) {
        ([], [a]) => unary(name, *a),
        ([], [a, b]) => binary(name, *a, *b),
        ([], [a, b, c]) => named(name, Node::Ite(*a, *b, *c)),
        ([width], [a]) => named(
            name,
            Node::Sext {
                width: *width,
                a: *a,
            },
        ),
        ([high, low], [a]) => named(
            name,
            Node::Slice {
                high: *high,
                low: *low,
                a: *a,
            },
        ),
        _ => None,
    }
}

/// The node of a name over one child.
fn unary(name: &str, a: NodeId) -> Option<Node>
    ensures { MatchOption result ((n : Node) → IsOperation name.now [] (a ∷ []) n → ⊥) (IsOperation name.now [] (a ∷ [])) }
{
    first_of!(named(name, Node::Not(a)), named(name, Node::Neg(a)))
}

/// The node of a name over two children.
fn binary(name: &str, a: NodeId, b: NodeId) -> Option<Node>
    ensures { MatchOption result ((n : Node) → IsOperation name.now [] (a ∷ b ∷ []) n → ⊥) (IsOperation name.now [] (a ∷ b ∷ [])) }
{
    first_of!(
        named(name, Node::And(a, b)),
        named(name, Node::Or(a, b)),
        named(name, Node::Xor(a, b)),
        named(name, Node::Plus(a, b)),
        named(name, Node::Times(a, b)),
        named(name, Node::Eq(a, b)),
        named(name, Node::Ult(a, b)),
        named(name, Node::Slt(a, b)),
        named(name, Node::Cat(a, b)),
        named(name, Node::Shl(a, b)),
        named(name, Node::Shr(a, b)),
        named(name, Node::Udiv(a, b)),
        named(name, Node::Urem(a, b))
    )
}

/// The term of a node whose children have these terms.
pub(crate) fn term_of(alloc: Global, node: Node, children: &[&str]) -> Result<String, AllocError>
    ensures { IfOk result (λ text. string_bytes text ≡ term node (map (λ c. c.now) children.now)) }
{
    match node {
        Node::Leaf { index, .. } => String::from_str(alloc, leaf_name(index)),
        Node::Const { width, value } => format!(in alloc; "{value}:{width}"),
        Node::Slice { high, low, .. } => {
            let head = format!(in alloc; "slice {high} {low}")?;
            in_brackets(alloc, head.as_str(), children)
        }
        Node::Sext { width, .. } => {
            let head = format!(in alloc; "sext {width}")?;
            in_brackets(alloc, head.as_str(), children)
        }
        _ => in_brackets(alloc, name_of(node), children),
    }
}

/// A head and the terms after it, in brackets.
fn in_brackets(alloc: Global, head: &str, children: &[&str]) -> Result<String, AllocError>
    ensures { IfOk result (λ text. string_bytes text ≡ codes "(" ++ (with_children_is head.now (map (λ c. c.now) children.now) ++ codes ")")) }
{
    let inside = with_children(alloc, head, children)?;
    format!(in alloc; "({inside})")
}

/// A head and the terms after it, with a space before each.
fn with_children(alloc: Global, head: &str, children: &[&str]) -> Result<String, AllocError>
    ensures { IfOk result (λ text. string_bytes text ≡ with_children_is head.now (map (λ c. c.now) children.now)) }
{
    let mut text = String::from_str(alloc, head)?;
    for child in children {
        text.push(' ')?;
        text.push_str(child)?;
    }
    Ok(text)
}
