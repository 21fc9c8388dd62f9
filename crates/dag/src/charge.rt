//! What a node's bits cost.

ghost use Rattle.std.specs.Prelude.{◌≡◌, ℕ, ◌≤◌, ◌∷◌, [], take};
ghost use Rattle.dag.specs.Node.{kind_charge as kind_charge_of, widest as widest_of};

use crate::node::Node;

/// The charge of a node of a width over children of the widths `x`, `y` and `z`, at most 64 each: 8 w w for a quotient
/// or a remainder, 4 w w for a product, 16 w for a shift and 4 w for every other kind, where w is the greatest of the
/// widths. What is past the node's children isn't looked at.
pub fn kind_charge(node: Node, width: u32, x: u32, y: u32, z: u32) -> u64
    requires own { width ≤ 64 }
    requires first { x ≤ 64 }
    requires second { y ≤ 64 }
    requires third { z ≤ 64 }
    ensures { result ≡ kind_charge_of node width x y z }
{
    let widest = widest(node.children().count, width, x, y, z) as u64;
    match node {
        Node::Times(..) => 4 * (widest * widest),
        Node::Udiv(..) | Node::Urem(..) => 8 * (widest * widest),
        Node::Shl(..) | Node::Shr(..) => 16 * widest,
        _ => 4 * widest,
    }
}

fn widest(count: u32, width: u32, x: u32, y: u32, z: u32) -> u32
    requires count { count ≤ 3 }
    requires own { width ≤ 64 }
    requires first { x ≤ 64 }
    requires second { y ≤ 64 }
    requires third { z ≤ 64 }
    ensures is { result ≡ widest_of width (take count (x ∷ y ∷ z ∷ [])) }
    ensures high { result ≤ 64 }
{
    match count {
        0 => width,
        1 => width.max(x),
        2 => width.max(x).max(y),
        _ => width.max(x).max(y).max(z),
    }
}
