//! Absorbing constants: what a constant makes constant.

ghost use Rattle.bv_rules.specs.Plans.{IsView, KeepsIf};

use crate::gate::checked;
use crate::plan::{NodeView, Plan, const_of, is_const};
use bv_words::mask;
use case_tables::first_of;
use dag::{Dag, Node};

/// The first of these rules that applies.
pub(crate) fn first(dag: &Dag, view: NodeView) -> Option<Plan>
    requires { IsView dag.now view.node view.children }
    ensures { KeepsIf dag.now view.node result }
{
    first_of!(
        and_zero(dag, view),
        zero_and(dag, view),
        times_zero(dag, view),
        zero_times(dag, view),
        or_ones(dag, view),
        ones_or(dag, view),
        zero_shl(dag, view),
        zero_shr(dag, view),
        shl_past(dag, view),
        shr_past(dag, view)
    )
}

/// `x & 0` is 0.
fn and_zero(dag: &Dag, view: NodeView) -> Option<Plan>
    requires { IsView dag.now view.node view.children }
    ensures { KeepsIf dag.now view.node result }
{
    let Node::And(a, _) = view.node else {
        return None;
    };
    let width = dag.width_at(a)?;
    if is_const(view.children[1], 0) {
        checked(dag, view.node, Plan::constant(width, 0))
    } else {
        None
    }
}

/// `0 & x` is 0.
fn zero_and(dag: &Dag, view: NodeView) -> Option<Plan>
    requires { IsView dag.now view.node view.children }
    ensures { KeepsIf dag.now view.node result }
{
    let Node::And(_, b) = view.node else {
        return None;
    };
    let width = dag.width_at(b)?;
    if is_const(view.children[0], 0) {
        checked(dag, view.node, Plan::constant(width, 0))
    } else {
        None
    }
}

/// `x * 0` is 0.
fn times_zero(dag: &Dag, view: NodeView) -> Option<Plan>
    requires { IsView dag.now view.node view.children }
    ensures { KeepsIf dag.now view.node result }
{
    let Node::Times(a, _) = view.node else {
        return None;
    };
    let width = dag.width_at(a)?;
    if is_const(view.children[1], 0) {
        checked(dag, view.node, Plan::constant(width, 0))
    } else {
        None
    }
}

/// `0 * x` is 0.
fn zero_times(dag: &Dag, view: NodeView) -> Option<Plan>
    requires { IsView dag.now view.node view.children }
    ensures { KeepsIf dag.now view.node result }
{
    let Node::Times(_, b) = view.node else {
        return None;
    };
    let width = dag.width_at(b)?;
    if is_const(view.children[0], 0) {
        checked(dag, view.node, Plan::constant(width, 0))
    } else {
        None
    }
}

/// `x | -1` is -1.
fn or_ones(dag: &Dag, view: NodeView) -> Option<Plan>
    requires { IsView dag.now view.node view.children }
    ensures { KeepsIf dag.now view.node result }
{
    let Node::Or(a, _) = view.node else {
        return None;
    };
    let width = dag.width_at(a)?;
    let ones = mask(width);
    if is_const(view.children[1], ones) {
        checked(dag, view.node, Plan::constant(width, ones))
    } else {
        None
    }
}

/// `-1 | x` is -1.
fn ones_or(dag: &Dag, view: NodeView) -> Option<Plan>
    requires { IsView dag.now view.node view.children }
    ensures { KeepsIf dag.now view.node result }
{
    let Node::Or(_, b) = view.node else {
        return None;
    };
    let width = dag.width_at(b)?;
    let ones = mask(width);
    if is_const(view.children[0], ones) {
        checked(dag, view.node, Plan::constant(width, ones))
    } else {
        None
    }
}

/// 0 moved up is 0.
fn zero_shl(dag: &Dag, view: NodeView) -> Option<Plan>
    requires { IsView dag.now view.node view.children }
    ensures { KeepsIf dag.now view.node result }
{
    let Node::Shl(a, _) = view.node else {
        return None;
    };
    let width = dag.width_at(a)?;
    if is_const(view.children[0], 0) {
        checked(dag, view.node, Plan::constant(width, 0))
    } else {
        None
    }
}

/// 0 moved down is 0.
fn zero_shr(dag: &Dag, view: NodeView) -> Option<Plan>
    requires { IsView dag.now view.node view.children }
    ensures { KeepsIf dag.now view.node result }
{
    let Node::Shr(a, _) = view.node else {
        return None;
    };
    let width = dag.width_at(a)?;
    if is_const(view.children[0], 0) {
        checked(dag, view.node, Plan::constant(width, 0))
    } else {
        None
    }
}

/// A shift by a constant from the width on is 0.
fn shl_past(dag: &Dag, view: NodeView) -> Option<Plan>
    requires { IsView dag.now view.node view.children }
    ensures { KeepsIf dag.now view.node result }
{
    let Node::Shl(a, _) = view.node else {
        return None;
    };
    let places = const_of(view.children[1])?;
    let width = dag.width_at(a)?;
    if width as u64 <= places {
        checked(dag, view.node, Plan::constant(width, 0))
    } else {
        None
    }
}

/// A shift by a constant from the width on is 0.
fn shr_past(dag: &Dag, view: NodeView) -> Option<Plan>
    requires { IsView dag.now view.node view.children }
    ensures { KeepsIf dag.now view.node result }
{
    let Node::Shr(a, _) = view.node else {
        return None;
    };
    let places = const_of(view.children[1])?;
    let width = dag.width_at(a)?;
    if width as u64 <= places {
        checked(dag, view.node, Plan::constant(width, 0))
    } else {
        None
    }
}
