//! The order of children: the lower place first, so that one sum is one node.

ghost use Rattle.bv_rules.specs.Plans.{IsView, KeepsIf};

use crate::gate::checked;
use crate::plan::{NodeView, Plan};
use case_tables::first_of;
use dag::{Dag, Node};

/// The first of these rules that applies.
pub(crate) fn first(dag: &Dag, view: NodeView) -> Option<Plan>
    requires { IsView dag.now view.node view.children }
    ensures { KeepsIf dag.now view.node result }
{
    first_of!(
        and_swap(dag, view),
        or_swap(dag, view),
        xor_swap(dag, view),
        plus_swap(dag, view),
        times_swap(dag, view),
        eq_swap(dag, view)
    )
}

/// The children of a commutative node stand in the order of their places.
fn and_swap(dag: &Dag, view: NodeView) -> Option<Plan>
    requires { IsView dag.now view.node view.children }
    ensures { KeepsIf dag.now view.node result }
{
    let Node::And(a, b) = view.node else {
        return None;
    };
    if b.0 < a.0 {
        checked(dag, view.node, Plan::two_old(Node::And(b, a), b, a))
    } else {
        None
    }
}

/// The children of a commutative node stand in the order of their places.
fn or_swap(dag: &Dag, view: NodeView) -> Option<Plan>
    requires { IsView dag.now view.node view.children }
    ensures { KeepsIf dag.now view.node result }
{
    let Node::Or(a, b) = view.node else {
        return None;
    };
    if b.0 < a.0 {
        checked(dag, view.node, Plan::two_old(Node::Or(b, a), b, a))
    } else {
        None
    }
}

/// The children of a commutative node stand in the order of their places.
fn xor_swap(dag: &Dag, view: NodeView) -> Option<Plan>
    requires { IsView dag.now view.node view.children }
    ensures { KeepsIf dag.now view.node result }
{
    let Node::Xor(a, b) = view.node else {
        return None;
    };
    if b.0 < a.0 {
        checked(dag, view.node, Plan::two_old(Node::Xor(b, a), b, a))
    } else {
        None
    }
}

/// The children of a commutative node stand in the order of their places.
fn plus_swap(dag: &Dag, view: NodeView) -> Option<Plan>
    requires { IsView dag.now view.node view.children }
    ensures { KeepsIf dag.now view.node result }
{
    let Node::Plus(a, b) = view.node else {
        return None;
    };
    if b.0 < a.0 {
        checked(dag, view.node, Plan::two_old(Node::Plus(b, a), b, a))
    } else {
        None
    }
}

/// The children of a commutative node stand in the order of their places.
fn times_swap(dag: &Dag, view: NodeView) -> Option<Plan>
    requires { IsView dag.now view.node view.children }
    ensures { KeepsIf dag.now view.node result }
{
    let Node::Times(a, b) = view.node else {
        return None;
    };
    if b.0 < a.0 {
        checked(dag, view.node, Plan::two_old(Node::Times(b, a), b, a))
    } else {
        None
    }
}

/// The children of a commutative node stand in the order of their places.
fn eq_swap(dag: &Dag, view: NodeView) -> Option<Plan>
    requires { IsView dag.now view.node view.children }
    ensures { KeepsIf dag.now view.node result }
{
    let Node::Eq(a, b) = view.node else {
        return None;
    };
    if b.0 < a.0 {
        checked(dag, view.node, Plan::two_old(Node::Eq(b, a), b, a))
    } else {
        None
    }
}
