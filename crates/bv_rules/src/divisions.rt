//! Quotients and remainders by constants, and of 0, as what they are without a divider.

ghost use Rattle.bv_rules.specs.Plans.{IsView, KeepsIf};

use crate::cuts::moved_down;
use crate::gate::checked;
use crate::masks::{exponent_of, lowest};
use crate::plan::{NodeView, Plan, const_of, is_const};
use case_tables::first_of;
use dag::{Dag, Node};

/// The first of these rules that applies.
pub(crate) fn first(dag: &Dag, view: NodeView) -> Option<Plan>
    requires { IsView dag.now view.node view.children }
    ensures { KeepsIf dag.now view.node result }
{
    first_of!(
        udiv_zero(dag, view),
        urem_zero(dag, view),
        zero_udiv(dag, view),
        zero_urem(dag, view),
        udiv_one(dag, view),
        urem_one(dag, view),
        urem_self(dag, view),
        udiv_power(dag, view),
        urem_power(dag, view)
    )
}

/// `x / 0` is 0.
fn udiv_zero(dag: &Dag, view: NodeView) -> Option<Plan>
    requires { IsView dag.now view.node view.children }
    ensures { KeepsIf dag.now view.node result }
{
    let Node::Udiv(a, _) = view.node else {
        return None;
    };
    let width = dag.width_at(a)?;
    if is_const(view.children[1], 0) {
        checked(dag, view.node, Plan::constant(width, 0))
    } else {
        None
    }
}

/// `x % 0` is x.
fn urem_zero(dag: &Dag, view: NodeView) -> Option<Plan>
    requires { IsView dag.now view.node view.children }
    ensures { KeepsIf dag.now view.node result }
{
    let Node::Urem(a, _) = view.node else {
        return None;
    };
    if is_const(view.children[1], 0) {
        checked(dag, view.node, Plan::same(a))
    } else {
        None
    }
}

/// `0 / x` is 0.
fn zero_udiv(dag: &Dag, view: NodeView) -> Option<Plan>
    requires { IsView dag.now view.node view.children }
    ensures { KeepsIf dag.now view.node result }
{
    let Node::Udiv(a, _) = view.node else {
        return None;
    };
    let width = dag.width_at(a)?;
    if is_const(view.children[0], 0) {
        checked(dag, view.node, Plan::constant(width, 0))
    } else {
        None
    }
}

/// `0 % x` is 0.
fn zero_urem(dag: &Dag, view: NodeView) -> Option<Plan>
    requires { IsView dag.now view.node view.children }
    ensures { KeepsIf dag.now view.node result }
{
    let Node::Urem(a, _) = view.node else {
        return None;
    };
    let width = dag.width_at(a)?;
    if is_const(view.children[0], 0) {
        checked(dag, view.node, Plan::constant(width, 0))
    } else {
        None
    }
}

/// `x / 1` is x.
fn udiv_one(dag: &Dag, view: NodeView) -> Option<Plan>
    requires { IsView dag.now view.node view.children }
    ensures { KeepsIf dag.now view.node result }
{
    let Node::Udiv(a, _) = view.node else {
        return None;
    };
    if is_const(view.children[1], 1) {
        checked(dag, view.node, Plan::same(a))
    } else {
        None
    }
}

/// `x % 1` is 0.
fn urem_one(dag: &Dag, view: NodeView) -> Option<Plan>
    requires { IsView dag.now view.node view.children }
    ensures { KeepsIf dag.now view.node result }
{
    let Node::Urem(a, _) = view.node else {
        return None;
    };
    let width = dag.width_at(a)?;
    if is_const(view.children[1], 1) {
        checked(dag, view.node, Plan::constant(width, 0))
    } else {
        None
    }
}

/// `x % x` is 0, also where x is 0. The quotient `x / x` isn't 1 there, and has no rule.
fn urem_self(dag: &Dag, view: NodeView) -> Option<Plan>
    requires { IsView dag.now view.node view.children }
    ensures { KeepsIf dag.now view.node result }
{
    let Node::Urem(a, b) = view.node else {
        return None;
    };
    let width = dag.width_at(a)?;
    if a == b {
        checked(dag, view.node, Plan::constant(width, 0))
    } else {
        None
    }
}

/// `x / 8` is the bits of x from the third on, below zeros.
fn udiv_power(dag: &Dag, view: NodeView) -> Option<Plan>
    requires { IsView dag.now view.node view.children }
    ensures { KeepsIf dag.now view.node result }
{
    let Node::Udiv(a, _) = view.node else {
        return None;
    };
    let value = const_of(view.children[1])?;
    let width = dag.width_at(a)?;
    let places = exponent_of(value)?;
    if places < width {
        checked(dag, view.node, moved_down(width, a, places))
    } else {
        None
    }
}

/// `x % 8` is the lowest three bits of x below zeros.
fn urem_power(dag: &Dag, view: NodeView) -> Option<Plan>
    requires { IsView dag.now view.node view.children }
    ensures { KeepsIf dag.now view.node result }
{
    let Node::Urem(a, _) = view.node else {
        return None;
    };
    let value = const_of(view.children[1])?;
    let width = dag.width_at(a)?;
    let places = exponent_of(value)?;
    if places < width {
        checked(dag, view.node, lowest(width - places, places, a))
    } else {
        None
    }
}
