//! Opposites: negation twice, and exclusive or with all ones.

ghost use Rattle.bv_rules.specs.Plans.{IsView, KeepsIf};

use crate::gate::checked;
use crate::plan::{NodeView, Plan, is_const};
use bv_words::mask;
use case_tables::first_of;
use dag::{Dag, Node};

/// The first of these rules that applies.
pub(crate) fn first(dag: &Dag, view: NodeView) -> Option<Plan>
    requires { IsView dag.now view.node view.children }
    ensures { KeepsIf dag.now view.node result }
{
    first_of!(
        not_not(dag, view),
        neg_neg(dag, view),
        xor_ones(dag, view),
        ones_xor(dag, view)
    )
}

/// `~~x` is x.
fn not_not(dag: &Dag, view: NodeView) -> Option<Plan>
    requires { IsView dag.now view.node view.children }
    ensures { KeepsIf dag.now view.node result }
{
    let Node::Not(_) = view.node else {
        return None;
    };
    let child = view.children[0]?;
    let Node::Not(b) = child else {
        return None;
    };
    checked(dag, view.node, Plan::same(b))
}

/// `-(-x)` is x.
fn neg_neg(dag: &Dag, view: NodeView) -> Option<Plan>
    requires { IsView dag.now view.node view.children }
    ensures { KeepsIf dag.now view.node result }
{
    let Node::Neg(_) = view.node else {
        return None;
    };
    let child = view.children[0]?;
    let Node::Neg(b) = child else {
        return None;
    };
    checked(dag, view.node, Plan::same(b))
}

/// `x ^ -1` is `~x`.
fn xor_ones(dag: &Dag, view: NodeView) -> Option<Plan>
    requires { IsView dag.now view.node view.children }
    ensures { KeepsIf dag.now view.node result }
{
    let Node::Xor(a, _) = view.node else {
        return None;
    };
    let width = dag.width_at(a)?;
    if is_const(view.children[1], mask(width)) {
        checked(dag, view.node, Plan::one_old(Node::Not(a), a))
    } else {
        None
    }
}

/// `-1 ^ x` is `~x`.
fn ones_xor(dag: &Dag, view: NodeView) -> Option<Plan>
    requires { IsView dag.now view.node view.children }
    ensures { KeepsIf dag.now view.node result }
{
    let Node::Xor(_, b) = view.node else {
        return None;
    };
    let width = dag.width_at(b)?;
    if is_const(view.children[0], mask(width)) {
        checked(dag, view.node, Plan::one_old(Node::Not(b), b))
    } else {
        None
    }
}
