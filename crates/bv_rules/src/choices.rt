//! Choices.

ghost use Rattle.std.specs.Prelude.{◌≡◌};
ghost use Rattle.bv_rules.specs.Plans.{IsView, KeepsIf, chosen as chosen_plan};

use crate::gate::checked;
use crate::plan::{NodeView, Plan, PlanId, is_const, step};
use case_tables::first_of;
use dag::{Dag, Node, NodeId};

/// The first of these rules that applies.
pub(crate) fn first(dag: &Dag, view: NodeView) -> Option<Plan>
    requires { IsView dag.now view.node view.children }
    ensures { KeepsIf dag.now view.node result }
{
    first_of!(
        ite_true(dag, view),
        ite_false(dag, view),
        ite_same(dag, view),
        ite_not(dag, view),
        ite_bit(dag, view),
        ite_bit_turned(dag, view),
        ite_both(dag, view),
        ite_either(dag, view),
        ite_then_again(dag, view),
        ite_else_again(dag, view)
    )
}

/// A choice by 1 is its second child.
fn ite_true(dag: &Dag, view: NodeView) -> Option<Plan>
    requires { IsView dag.now view.node view.children }
    ensures { KeepsIf dag.now view.node result }
{
    let Node::Ite(_, b, _) = view.node else {
        return None;
    };
    if is_const(view.children[0], 1) {
        checked(dag, view.node, Plan::same(b))
    } else {
        None
    }
}

/// A choice by 0 is its third child.
fn ite_false(dag: &Dag, view: NodeView) -> Option<Plan>
    requires { IsView dag.now view.node view.children }
    ensures { KeepsIf dag.now view.node result }
{
    let Node::Ite(_, _, c) = view.node else {
        return None;
    };
    if is_const(view.children[0], 0) {
        checked(dag, view.node, Plan::same(c))
    } else {
        None
    }
}

/// A choice between equal nodes is that node.
fn ite_same(dag: &Dag, view: NodeView) -> Option<Plan>
    requires { IsView dag.now view.node view.children }
    ensures { KeepsIf dag.now view.node result }
{
    let Node::Ite(_, b, c) = view.node else {
        return None;
    };
    if b == c {
        checked(dag, view.node, Plan::same(b))
    } else {
        None
    }
}

/// A choice by a negated condition chooses the other way.
fn ite_not(dag: &Dag, view: NodeView) -> Option<Plan>
    requires { IsView dag.now view.node view.children }
    ensures { KeepsIf dag.now view.node result }
{
    let Node::Ite(_, b, c) = view.node else {
        return None;
    };
    let child = view.children[0]?;
    let Node::Not(t) = child else {
        return None;
    };
    checked(dag, view.node, chosen(t, c, b))
}

/// A choice of 1 and 0 by a bit is that bit.
fn ite_bit(dag: &Dag, view: NodeView) -> Option<Plan>
    requires { IsView dag.now view.node view.children }
    ensures { KeepsIf dag.now view.node result }
{
    let Node::Ite(a, _, _) = view.node else {
        return None;
    };
    if is_const(view.children[1], 1) && is_const(view.children[2], 0) {
        checked(dag, view.node, Plan::same(a))
    } else {
        None
    }
}

/// A choice of 0 and 1 by a bit is that bit turned.
fn ite_bit_turned(dag: &Dag, view: NodeView) -> Option<Plan>
    requires { IsView dag.now view.node view.children }
    ensures { KeepsIf dag.now view.node result }
{
    let Node::Ite(a, b, _) = view.node else {
        return None;
    };
    let width = dag.width_at(b)?;
    if width == 1 && is_const(view.children[1], 0) && is_const(view.children[2], 1) {
        checked(dag, view.node, Plan::one_old(Node::Not(a), a))
    } else {
        None
    }
}

/// A choice of a bit and 0 is both: `c && d`.
fn ite_both(dag: &Dag, view: NodeView) -> Option<Plan>
    requires { IsView dag.now view.node view.children }
    ensures { KeepsIf dag.now view.node result }
{
    let Node::Ite(a, b, _) = view.node else {
        return None;
    };
    let width = dag.width_at(b)?;
    if width == 1 && is_const(view.children[2], 0) {
        checked(dag, view.node, Plan::two_old(Node::And(a, b), a, b))
    } else {
        None
    }
}

/// A choice of 1 and a bit is either: `c || d`.
fn ite_either(dag: &Dag, view: NodeView) -> Option<Plan>
    requires { IsView dag.now view.node view.children }
    ensures { KeepsIf dag.now view.node result }
{
    let Node::Ite(a, _, c) = view.node else {
        return None;
    };
    let width = dag.width_at(c)?;
    if width == 1 && is_const(view.children[1], 1) {
        checked(dag, view.node, Plan::two_old(Node::Or(a, c), a, c))
    } else {
        None
    }
}

/// `c ? (c ? x : y) : z` is `c ? x : z`.
fn ite_then_again(dag: &Dag, view: NodeView) -> Option<Plan>
    requires { IsView dag.now view.node view.children }
    ensures { KeepsIf dag.now view.node result }
{
    let Node::Ite(a, _, c) = view.node else {
        return None;
    };
    let child = view.children[1]?;
    let Node::Ite(again, x, _) = child else {
        return None;
    };
    if again == a {
        checked(dag, view.node, chosen(a, x, c))
    } else {
        None
    }
}

/// `c ? x : (c ? y : z)` is `c ? x : z`.
fn ite_else_again(dag: &Dag, view: NodeView) -> Option<Plan>
    requires { IsView dag.now view.node view.children }
    ensures { KeepsIf dag.now view.node result }
{
    let Node::Ite(a, b, _) = view.node else {
        return None;
    };
    let child = view.children[2]?;
    let Node::Ite(again, _, z) = child else {
        return None;
    };
    if again == a {
        checked(dag, view.node, chosen(a, b, z))
    } else {
        None
    }
}

/// The plan of one choice.
fn chosen(a: NodeId, b: NodeId, c: NodeId) -> Plan
    ensures { result ≡ chosen_plan a b c }
{
    Plan::one(step(
        Node::Ite(a, b, c),
        PlanId::Old(a),
        PlanId::Old(b),
        PlanId::Old(c),
    ))
}
