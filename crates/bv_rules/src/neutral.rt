//! Neutral constants: what a constant leaves as it is.

ghost use Rattle.bv_rules.specs.Plans.{IsView, KeepsIf};

use crate::gate::checked;
use crate::plan::{NodeView, Plan, is_const};
use bv_words::mask;
use case_tables::first_of;
use dag::{Dag, Node};

/// The first of these rules that applies.
pub(crate) fn first(dag: &Dag, view: NodeView) -> Option<Plan>
    requires { IsView dag.now view.node view.children }
    ensures { KeepsIf dag.now view.node result }
{
    first_of!(
        plus_zero(dag, view),
        zero_plus(dag, view),
        or_zero(dag, view),
        zero_or(dag, view),
        xor_zero(dag, view),
        zero_xor(dag, view),
        times_one(dag, view),
        one_times(dag, view),
        and_ones(dag, view),
        ones_and(dag, view),
        shl_zero(dag, view),
        shr_zero(dag, view)
    )
}

/// `x + 0` is x.
fn plus_zero(dag: &Dag, view: NodeView) -> Option<Plan>
    requires { IsView dag.now view.node view.children }
    ensures { KeepsIf dag.now view.node result }
{
    let Node::Plus(a, _) = view.node else {
        return None;
    };
    if is_const(view.children[1], 0) {
        checked(dag, view.node, Plan::same(a))
    } else {
        None
    }
}

/// `0 + x` is x.
fn zero_plus(dag: &Dag, view: NodeView) -> Option<Plan>
    requires { IsView dag.now view.node view.children }
    ensures { KeepsIf dag.now view.node result }
{
    let Node::Plus(_, b) = view.node else {
        return None;
    };
    if is_const(view.children[0], 0) {
        checked(dag, view.node, Plan::same(b))
    } else {
        None
    }
}

/// `x | 0` is x.
fn or_zero(dag: &Dag, view: NodeView) -> Option<Plan>
    requires { IsView dag.now view.node view.children }
    ensures { KeepsIf dag.now view.node result }
{
    let Node::Or(a, _) = view.node else {
        return None;
    };
    if is_const(view.children[1], 0) {
        checked(dag, view.node, Plan::same(a))
    } else {
        None
    }
}

/// `0 | x` is x.
fn zero_or(dag: &Dag, view: NodeView) -> Option<Plan>
    requires { IsView dag.now view.node view.children }
    ensures { KeepsIf dag.now view.node result }
{
    let Node::Or(_, b) = view.node else {
        return None;
    };
    if is_const(view.children[0], 0) {
        checked(dag, view.node, Plan::same(b))
    } else {
        None
    }
}

/// `x ^ 0` is x.
fn xor_zero(dag: &Dag, view: NodeView) -> Option<Plan>
    requires { IsView dag.now view.node view.children }
    ensures { KeepsIf dag.now view.node result }
{
    let Node::Xor(a, _) = view.node else {
        return None;
    };
    if is_const(view.children[1], 0) {
        checked(dag, view.node, Plan::same(a))
    } else {
        None
    }
}

/// `0 ^ x` is x.
fn zero_xor(dag: &Dag, view: NodeView) -> Option<Plan>
    requires { IsView dag.now view.node view.children }
    ensures { KeepsIf dag.now view.node result }
{
    let Node::Xor(_, b) = view.node else {
        return None;
    };
    if is_const(view.children[0], 0) {
        checked(dag, view.node, Plan::same(b))
    } else {
        None
    }
}

/// `x * 1` is x.
fn times_one(dag: &Dag, view: NodeView) -> Option<Plan>
    requires { IsView dag.now view.node view.children }
    ensures { KeepsIf dag.now view.node result }
{
    let Node::Times(a, _) = view.node else {
        return None;
    };
    if is_const(view.children[1], 1) {
        checked(dag, view.node, Plan::same(a))
    } else {
        None
    }
}

/// `1 * x` is x.
fn one_times(dag: &Dag, view: NodeView) -> Option<Plan>
    requires { IsView dag.now view.node view.children }
    ensures { KeepsIf dag.now view.node result }
{
    let Node::Times(_, b) = view.node else {
        return None;
    };
    if is_const(view.children[0], 1) {
        checked(dag, view.node, Plan::same(b))
    } else {
        None
    }
}

/// `x & -1` is x.
fn and_ones(dag: &Dag, view: NodeView) -> Option<Plan>
    requires { IsView dag.now view.node view.children }
    ensures { KeepsIf dag.now view.node result }
{
    let Node::And(a, _) = view.node else {
        return None;
    };
    let width = dag.width_at(a)?;
    if is_const(view.children[1], mask(width)) {
        checked(dag, view.node, Plan::same(a))
    } else {
        None
    }
}

/// `-1 & x` is x.
fn ones_and(dag: &Dag, view: NodeView) -> Option<Plan>
    requires { IsView dag.now view.node view.children }
    ensures { KeepsIf dag.now view.node result }
{
    let Node::And(_, b) = view.node else {
        return None;
    };
    let width = dag.width_at(b)?;
    if is_const(view.children[0], mask(width)) {
        checked(dag, view.node, Plan::same(b))
    } else {
        None
    }
}

/// A shift by 0 is the shifted word.
fn shl_zero(dag: &Dag, view: NodeView) -> Option<Plan>
    requires { IsView dag.now view.node view.children }
    ensures { KeepsIf dag.now view.node result }
{
    let Node::Shl(a, _) = view.node else {
        return None;
    };
    let _width = dag.width_at(a)?;
    if is_const(view.children[1], 0) {
        checked(dag, view.node, Plan::same(a))
    } else {
        None
    }
}

/// A shift by 0 is the shifted word.
fn shr_zero(dag: &Dag, view: NodeView) -> Option<Plan>
    requires { IsView dag.now view.node view.children }
    ensures { KeepsIf dag.now view.node result }
{
    let Node::Shr(a, _) = view.node else {
        return None;
    };
    let _width = dag.width_at(a)?;
    if is_const(view.children[1], 0) {
        checked(dag, view.node, Plan::same(a))
    } else {
        None
    }
}
