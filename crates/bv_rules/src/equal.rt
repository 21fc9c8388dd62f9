//! Equal children.

ghost use Rattle.bv_rules.specs.Plans.{IsView, KeepsIf};

use crate::gate::checked;
use crate::plan::{NodeView, Plan};
use case_tables::first_of;
use dag::{Dag, Node};

/// The first of these rules that applies.
pub(crate) fn first(dag: &Dag, view: NodeView) -> Option<Plan>
    requires { IsView dag.now view.node view.children }
    ensures { KeepsIf dag.now view.node result }
{
    first_of!(
        and_self(dag, view),
        or_self(dag, view),
        xor_self(dag, view),
        eq_self(dag, view),
        ult_self(dag, view),
        slt_self(dag, view)
    )
}

/// `x & x` is x.
fn and_self(dag: &Dag, view: NodeView) -> Option<Plan>
    requires { IsView dag.now view.node view.children }
    ensures { KeepsIf dag.now view.node result }
{
    let Node::And(a, b) = view.node else {
        return None;
    };
    if a == b {
        checked(dag, view.node, Plan::same(a))
    } else {
        None
    }
}

/// `x | x` is x.
fn or_self(dag: &Dag, view: NodeView) -> Option<Plan>
    requires { IsView dag.now view.node view.children }
    ensures { KeepsIf dag.now view.node result }
{
    let Node::Or(a, b) = view.node else {
        return None;
    };
    if a == b {
        checked(dag, view.node, Plan::same(a))
    } else {
        None
    }
}

/// `x ^ x` is 0.
fn xor_self(dag: &Dag, view: NodeView) -> Option<Plan>
    requires { IsView dag.now view.node view.children }
    ensures { KeepsIf dag.now view.node result }
{
    let Node::Xor(a, b) = view.node else {
        return None;
    };
    let width = dag.width_at(a)?;
    if a == b {
        checked(dag, view.node, Plan::constant(width, 0))
    } else {
        None
    }
}

/// `x == x` is 1.
fn eq_self(dag: &Dag, view: NodeView) -> Option<Plan>
    requires { IsView dag.now view.node view.children }
    ensures { KeepsIf dag.now view.node result }
{
    let Node::Eq(a, b) = view.node else {
        return None;
    };
    if a == b {
        checked(dag, view.node, Plan::constant(1, 1))
    } else {
        None
    }
}

/// x is not below itself.
fn ult_self(dag: &Dag, view: NodeView) -> Option<Plan>
    requires { IsView dag.now view.node view.children }
    ensures { KeepsIf dag.now view.node result }
{
    let Node::Ult(a, b) = view.node else {
        return None;
    };
    if a == b {
        checked(dag, view.node, Plan::constant(1, 0))
    } else {
        None
    }
}

/// x is not below itself as a signed number.
fn slt_self(dag: &Dag, view: NodeView) -> Option<Plan>
    requires { IsView dag.now view.node view.children }
    ensures { KeepsIf dag.now view.node result }
{
    let Node::Slt(a, b) = view.node else {
        return None;
    };
    if a == b {
        checked(dag, view.node, Plan::constant(1, 0))
    } else {
        None
    }
}
