//! What rules look for below the children of a node.

ghost use Rattle.std.specs.Prelude.{◌≡◌, IfSome, Some, slice_get, ℕ};
ghost use Rattle.dag.specs.declared.node.Node.TheVariants.{Cat};
ghost use Rattle.bv_rules.specs.Plans.{IsConstAt, IsConstBeside, IsBeside, HasZerosBelow, HasZerosAbove, AreParts};

use dag::{Dag, Node, NodeId};

/// The value of a node that is a constant.
pub(crate) fn constant_at(dag: &Dag, id: NodeId) -> Option<u64>
    ensures { IfSome result (λ v. IsConstAt dag.now id v) }
{
    match dag.node_at(id) {
        Some(Node::Const { value, .. }) => Some(value),
        _ => None,
    }
}

/// Of two nodes the one beside a constant, and that constant's value.
pub(crate) fn constant_beside(dag: &Dag, a: NodeId, b: NodeId) -> Option<(NodeId, u64)>
    ensures { IfSome result (λ r. IsConstBeside dag.now a b r.0 r.1) }
{
    match constant_at(dag, b) {
        Some(value) => Some((a, value)),
        None => {
            let value = constant_at(dag, a)?;
            Some((b, value))
        }
    }
}

/// Of two nodes the one beside x.
pub(crate) fn beside(a: NodeId, b: NodeId, x: NodeId) -> Option<NodeId>
    ensures { IfSome result (λ rest. IsBeside a b x rest) }
{
    if a == x {
        Some(b)
    } else if b == x {
        Some(a)
    } else {
        None
    }
}

/// The children of a joint.
pub(crate) fn joint_at(dag: &Dag, id: NodeId) -> Option<(NodeId, NodeId)>
    ensures { IfSome result (λ r. slice_get dag.now.nodes id.0 ≡ Some (Cat r.0 r.1)) }
{
    match dag.node_at(id) {
        Some(Node::Cat(high, low)) => Some((high, low)),
        _ => None,
    }
}

/// The upper part of a joint whose lower part is zeros, and how many zeros there are.
fn zeros_below(dag: &Dag, id: NodeId) -> Option<(NodeId, u32)>
    ensures { IfSome result (λ r. HasZerosBelow dag.now id r.0 r.1) }
{
    let (high, zeros) = joint_at(dag, id)?;
    let value = constant_at(dag, zeros)?;
    let width = dag.width_at(zeros)?;
    if value == 0 {
        Some((high, width))
    } else {
        None
    }
}

/// The lower part of a joint whose upper part is zeros, and how many bits it has.
pub(crate) fn zeros_above(dag: &Dag, id: NodeId) -> Option<(NodeId, u32)>
    ensures { IfSome result (λ r. HasZerosAbove dag.now id r.0 r.1) }
{
    let (zeros, low) = joint_at(dag, id)?;
    let value = constant_at(dag, zeros)?;
    let width = dag.width_at(low)?;
    if value == 0 { Some((low, width)) } else { None }
}

/// The upper part of one node and the lower part of another one that take turns in having zeros.
fn parts_in_order(dag: &Dag, a: NodeId, b: NodeId) -> Option<(NodeId, NodeId)>
    ensures { IfSome result (λ r. (k : ℕ) × HasZerosBelow dag.now a r.0 k × HasZerosAbove dag.now b r.1 k) }
{
    let (high, zeros) = zeros_below(dag, a)?;
    let (low, bits) = zeros_above(dag, b)?;
    if zeros == bits {
        Some((high, low))
    } else {
        None
    }
}

/// The upper and the lower part of a word that two nodes hold in either order.
pub(crate) fn parts(dag: &Dag, a: NodeId, b: NodeId) -> Option<(NodeId, NodeId)>
    ensures { IfSome result (λ r. AreParts dag.now a b r.0 r.1) }
{
    match parts_in_order(dag, a, b) {
        Some(found) => Some(found),
        None => parts_in_order(dag, b, a),
    }
}
