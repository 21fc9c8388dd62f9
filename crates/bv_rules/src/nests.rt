//! Operations within operations that undo one another.

ghost use Rattle.std.specs.Prelude.{◌⊎◌, IfSome};
ghost use Rattle.bv_rules.specs.Plans.{IsView, KeepsIf, IsUnionLessCommon};

use crate::gate::checked;
use crate::matching::beside;
use crate::plan::{NodeView, Plan};
use bv_words::mask;
use case_tables::first_of;
use dag::{Dag, Node, NodeId};

/// The first of these rules that applies.
pub(crate) fn first(dag: &Dag, view: NodeView) -> Option<Plan>
    requires { IsView dag.now view.node view.children }
    ensures { KeepsIf dag.now view.node result }
{
    first_of!(
        xor_nest(dag, view),
        xor_not(dag, view),
        plus_neg(dag, view),
        union_less_common(dag, view)
    )
}

/// `x ^ (x ^ y)` is y.
fn xor_nest(dag: &Dag, view: NodeView) -> Option<Plan>
    requires { IsView dag.now view.node view.children }
    ensures { KeepsIf dag.now view.node result }
{
    let Node::Xor(a, _) = view.node else {
        return None;
    };
    let child = view.children[1]?;
    let Node::Xor(p, q) = child else {
        return None;
    };
    let y = beside(p, q, a)?;
    checked(dag, view.node, Plan::same(y))
}

/// `x ^ ~x` is -1.
fn xor_not(dag: &Dag, view: NodeView) -> Option<Plan>
    requires { IsView dag.now view.node view.children }
    ensures { KeepsIf dag.now view.node result }
{
    let Node::Xor(a, _) = view.node else {
        return None;
    };
    let child = view.children[1]?;
    let Node::Not(x) = child else {
        return None;
    };
    let width = dag.width_at(a)?;
    if x == a {
        checked(dag, view.node, Plan::constant(width, mask(width)))
    } else {
        None
    }
}

/// `x - x` is 0.
fn plus_neg(dag: &Dag, view: NodeView) -> Option<Plan>
    requires { IsView dag.now view.node view.children }
    ensures { KeepsIf dag.now view.node result }
{
    let Node::Plus(a, _) = view.node else {
        return None;
    };
    let child = view.children[1]?;
    let Node::Neg(x) = child else {
        return None;
    };
    let width = dag.width_at(a)?;
    if x == a {
        checked(dag, view.node, Plan::constant(width, 0))
    } else {
        None
    }
}

/// `(x | y) - (x & y)` is `x ^ y`.
fn union_less_common(dag: &Dag, view: NodeView) -> Option<Plan>
    requires { IsView dag.now view.node view.children }
    ensures { KeepsIf dag.now view.node result }
{
    let Node::Plus(a, b) = view.node else {
        return None;
    };
    let (x, y) = operands(dag, a, b)?;
    checked(dag, view.node, Plan::two_old(Node::Xor(x, y), x, y))
}

/// The operands of `|` in one node and of a negated `&` in the other one, where they are the same.
fn operands(dag: &Dag, a: NodeId, b: NodeId) -> Option<(NodeId, NodeId)>
    ensures { IfSome result (λ r. IsUnionLessCommon dag.now a b r.0 r.1 ⊎ IsUnionLessCommon dag.now b a r.0 r.1) }
{
    match operands_in_order(dag, a, b) {
        Some(found) => Some(found),
        None => operands_in_order(dag, b, a),
    }
}

fn operands_in_order(dag: &Dag, union: NodeId, less: NodeId) -> Option<(NodeId, NodeId)>
    ensures { IfSome result (λ r. IsUnionLessCommon dag.now union less r.0 r.1) }
{
    let Some(Node::Or(x, y)) = dag.node_at(union) else {
        return None;
    };
    let Some(Node::Neg(common)) = dag.node_at(less) else {
        return None;
    };
    let Some(Node::And(p, q)) = dag.node_at(common) else {
        return None;
    };
    if beside(p, q, x) == Some(y) {
        Some((x, y))
    } else {
        None
    }
}
