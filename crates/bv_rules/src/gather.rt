//! Constants gathered: of two operations of one kind with constants, one is left.

ghost use Rattle.std.specs.Prelude.{◌≡◌};
ghost use Rattle.bv_rules.specs.Plans.{IsView, KeepsIf, with_constant as with_constant_plan};

use crate::gate::checked;
use crate::matching::constant_beside;
use crate::plan::{NodeView, Plan, PlanId, step};
use bv_words::chop;
use case_tables::first_of;
use dag::{Dag, Node, NodeId};

/// The first of these rules that applies.
pub(crate) fn first(dag: &Dag, view: NodeView) -> Option<Plan>
    requires { IsView dag.now view.node view.children }
    ensures { KeepsIf dag.now view.node result }
{
    first_of!(
        plus_gather(dag, view),
        times_gather(dag, view),
        xor_gather(dag, view),
        and_gather(dag, view)
    )
}

/// `(x + c) + d` is `x + (c + d)`.
fn plus_gather(dag: &Dag, view: NodeView) -> Option<Plan>
    requires { IsView dag.now view.node view.children }
    ensures { KeepsIf dag.now view.node result }
{
    let Node::Plus(a, b) = view.node else {
        return None;
    };
    let (inner, last) = constant_beside(dag, a, b)?;
    let child = dag.node_at(inner)?;
    let Node::Plus(p, q) = child else {
        return None;
    };
    let (x, first) = constant_beside(dag, p, q)?;
    let width = dag.width_at(x)?;
    let sum = chop(width, first.wrapping_add(last));
    checked(
        dag,
        view.node,
        with_constant(Node::Plus(x, x), x, width, sum),
    )
}

/// `(x * c) * d` is `x * (c * d)`.
fn times_gather(dag: &Dag, view: NodeView) -> Option<Plan>
    requires { IsView dag.now view.node view.children }
    ensures { KeepsIf dag.now view.node result }
{
    let Node::Times(a, b) = view.node else {
        return None;
    };
    let (inner, last) = constant_beside(dag, a, b)?;
    let child = dag.node_at(inner)?;
    let Node::Times(p, q) = child else {
        return None;
    };
    let (x, first) = constant_beside(dag, p, q)?;
    let width = dag.width_at(x)?;
    let product = chop(width, first.wrapping_mul(last));
    checked(
        dag,
        view.node,
        with_constant(Node::Times(x, x), x, width, product),
    )
}

/// `(x ^ c) ^ d` is `x ^ (c ^ d)`.
fn xor_gather(dag: &Dag, view: NodeView) -> Option<Plan>
    requires { IsView dag.now view.node view.children }
    ensures { KeepsIf dag.now view.node result }
{
    let Node::Xor(a, b) = view.node else {
        return None;
    };
    let (inner, last) = constant_beside(dag, a, b)?;
    let child = dag.node_at(inner)?;
    let Node::Xor(p, q) = child else {
        return None;
    };
    let (x, first) = constant_beside(dag, p, q)?;
    let width = dag.width_at(x)?;
    checked(
        dag,
        view.node,
        with_constant(Node::Xor(x, x), x, width, first ^ last),
    )
}

/// `(x & c) & d` is `x & (c & d)`.
fn and_gather(dag: &Dag, view: NodeView) -> Option<Plan>
    requires { IsView dag.now view.node view.children }
    ensures { KeepsIf dag.now view.node result }
{
    let Node::And(a, b) = view.node else {
        return None;
    };
    let (inner, last) = constant_beside(dag, a, b)?;
    let child = dag.node_at(inner)?;
    let Node::And(p, q) = child else {
        return None;
    };
    let (x, first) = constant_beside(dag, p, q)?;
    let width = dag.width_at(x)?;
    checked(
        dag,
        view.node,
        with_constant(Node::And(x, x), x, width, first & last),
    )
}

/// The plan of an operation on x and a constant; the node's own children aren't read.
pub(crate) fn with_constant(node: Node, x: NodeId, width: u32, value: u64) -> Plan
    ensures { result ≡ with_constant_plan node x width value }
{
    let none = PlanId::New(0);
    Plan::two(
        step(Node::Const { width, value }, none, none, none),
        step(node, PlanId::Old(x), PlanId::New(0), none),
    )
}
